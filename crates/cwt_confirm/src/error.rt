//! The reasons why a confirmation claim is refused.

ghost use Rattle.cwt_confirm.specs.Texts.{confirmation_error_text};

use coset::CoseError;
use std::alloc::{AllocError, AllocFailed};
use std::error::Error;
use std::fmt;

/// The reason why a confirmation claim is refused (RFC 8747, section 3). If several reasons apply,
/// it is the first in this order, except that `OutOfMemory` may come at any time.
#[derive(Debug, Drop)]
pub enum ConfirmationError {
    /// An allocation failed.
    OutOfMemory,
    /// The claim isn't a map (section 3).
    NotAMap,
    /// Two members of the claim have the same label.
    RepeatedLabel,
    /// The claim has a key and an encrypted key, but may have at most one of them (section 3.1).
    SeveralKeys,
    /// `kid` isn't a byte string, or it is empty (section 3.4).
    KeyId,
    /// The claim has no key, no encrypted key and no `kid`. Other members aren't understood.
    NoKey,
    /// `COSE_Key` isn't a key (section 3.2), or `Encrypted_COSE_Key` isn't an encrypted message
    /// (section 3.3).
    Malformed(CoseError),
    /// The key lacks a member that its type requires, or its type isn't one of IANA's (section
    /// 3.2).
    Incomplete,
    /// The key has a private part, but must be public (section 3.2).
    PrivateKey,
    /// The key is symmetric, and a receiver of the token can read it without decrypting (section
    /// 3.2).
    KeyInTheClear,
    /// The key has another identifier than `kid`, but the claim represents one key (section 3.1).
    AnotherKeyId,
    /// The encrypted key has no ciphertext (section 3.3).
    NoCiphertext,
}

/// Writes the reason in words.
impl fmt::Display for ConfirmationError {
    ghost output = { confirmation_error_text };

    fn fmt<W: fmt::Write>(&self, f: &mut fmt::Formatter<W>) -> fmt::Result {
        match self {
            ConfirmationError::OutOfMemory => write!(f, "out of memory"),
            ConfirmationError::NotAMap => write!(f, "the confirmation is no map"),
            ConfirmationError::RepeatedLabel => write!(f, "a label is repeated"),
            ConfirmationError::SeveralKeys => write!(f, "several keys"),
            ConfirmationError::KeyId => write!(f, "not a key identifier"),
            ConfirmationError::NoKey => write!(f, "no key"),
            ConfirmationError::Malformed(error) => write!(f, "not a key: {error}"),
            ConfirmationError::Incomplete => write!(f, "the key is incomplete"),
            ConfirmationError::PrivateKey => write!(f, "the key is private"),
            ConfirmationError::KeyInTheClear => write!(f, "a symmetric key in the clear"),
            ConfirmationError::AnotherKeyId => write!(f, "the key has another identifier"),
            ConfirmationError::NoCiphertext => write!(f, "the encrypted key has no ciphertext"),
        }
    }
}

impl Error for ConfirmationError {}

impl From<AllocError> for ConfirmationError {
    ghost use Rattle.std.specs.Prelude.{◌≡◌};
    ghost use Rattle.cwt_confirm.specs.declared.error.ConfirmationError.TheVariants.{OutOfMemory};

    ghost from_gives = { λ _ e. e ≡ OutOfMemory };

    fn from(_error: AllocError) -> ConfirmationError {
        ConfirmationError::OutOfMemory
    }
}

impl<T: Drop> From<AllocFailed<T>> for ConfirmationError {
    ghost use Rattle.std.specs.Prelude.{◌≡◌};
    ghost use Rattle.cwt_confirm.specs.declared.error.ConfirmationError.TheVariants.{OutOfMemory};

    ghost from_gives = { λ _ e. e ≡ OutOfMemory };

    fn from(_error: AllocFailed<T>) -> ConfirmationError {
        ConfirmationError::OutOfMemory
    }
}
