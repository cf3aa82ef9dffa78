//! The reasons why an input isn't shown.

ghost use Rattle.std.specs.Fmt.{WritesOnOk};
ghost use Rattle.coset_show.specs.Refusal.{fault_text};

use coset::cbor::de;
use coset::{CoseError, EndOfFile};
use hex::FromHexError;
use std::alloc::AllocError;
use std::fmt;

/// The reason why an input isn't shown. Its text follows `error: ` in the output line.
#[derive(Debug, Drop)]
pub enum Refusal {
    /// A read failed.
    Unreadable,
    /// The input isn't hexadecimal.
    NotHexadecimal,
    /// The bytes aren't of the kind, or an allocation failed.
    Cose(CoseError),
}

impl fmt::Display for Refusal {
    ghost use Rattle.std.specs.Prelude.{Some};
    ghost use Rattle.coset_show.specs.Refusal.{refusal_text};

    ghost output = { λ refusal. Some (refusal_text refusal) };

    fn fmt<W: fmt::Write>(&self, f: &mut fmt::Formatter<W>) -> fmt::Result {
        match self {
            Refusal::Unreadable => f.write_str("input cannot be read"),
            Refusal::NotHexadecimal => f.write_str("input is not hexadecimal"),
            Refusal::Cose(CoseError::DecodeFailed(error)) => {
                f.write_str("decode CBOR failure: ")?;
                write_fault(f, error)
            }
            Refusal::Cose(error) => write!(f, "{error}"),
        }
    }
}

/// Writes the error as its `Debug` impl does, in text that a contract can name.
fn write_fault<W: fmt::Write>(
    f: &mut fmt::Formatter<W>,
    error: &de::Error<EndOfFile>,
) -> fmt::Result
    ensures { WritesOnOk W.write_str_gives f.old result (fault_text error.now) f.new }
{
    match error {
        de::Error::Io(EndOfFile) => f.write_str("Io(EndOfFile)"),
        de::Error::Syntax(at) => write!(f, "Syntax({at})"),
        de::Error::Semantic(None, text) => write!(f, "Semantic(None, \"{text}\")"),
        de::Error::Semantic(Some(at), text) => write!(f, "Semantic(Some({at}), \"{text}\")"),
        de::Error::RecursionLimitExceeded => f.write_str("RecursionLimitExceeded"),
        de::Error::OutOfMemory => f.write_str("OutOfMemory"),
    }
}

impl From<CoseError> for Refusal {
    ghost use Rattle.std.specs.Prelude.{◌≡◌};
    ghost use Rattle.coset_show.specs.declared.refusal.Refusal.TheVariants.{Cose};

    ghost from_gives = { λ error refusal. refusal ≡ Cose error };

    fn from(error: CoseError) -> Refusal {
        Refusal::Cose(error)
    }
}

impl From<FromHexError> for Refusal {
    ghost use Rattle.std.specs.Prelude.{◌≡◌};
    ghost use Rattle.coset_show.specs.Refusal.{hex_refusal_of};

    ghost from_gives = { λ error refusal. refusal ≡ hex_refusal_of error };

    fn from(error: FromHexError) -> Refusal {
        match error {
            FromHexError::OutOfMemory => Refusal::Cose(CoseError::OutOfMemory),
            _ => Refusal::NotHexadecimal,
        }
    }
}

impl From<AllocError> for Refusal {
    ghost use Rattle.std.specs.Prelude.{◌≡◌};
    ghost use Rattle.coset_show.specs.Refusal.{no_memory};

    ghost from_gives = { λ _ refusal. refusal ≡ no_memory };

    fn from(_refused: AllocError) -> Refusal {
        Refusal::Cose(CoseError::OutOfMemory)
    }
}
