//! The reasons why a key has no thumbprint.

ghost use Rattle.std.specs.Prelude.{◌≡◌};
ghost use Rattle.cose_thumbprint.specs.Texts.{thumbprint_error_text};
ghost use Rattle.cose_thumbprint.specs.declared.error.ThumbprintError.TheVariants as errors;

use coset::cbor;
use std::error::Error;
use std::fmt;

/// The reason why a key has no thumbprint.
#[derive(Clone, Copy, Debug, PartialEq, Eq)]
pub enum ThumbprintError {
    /// The key type is none of OKP, EC2, RSA, Symmetric and HSS-LMS.
    OtherKeyType,
    /// A required member is missing.
    MissingMember,
    /// The value of a required member has another type than the key type requires.
    InvalidMemberType,
    /// The y coordinate is given only by its sign. The caller must decompress the point first (RFC
    /// 9679, section 4.2).
    CompressedPoint,
    /// An allocation failed.
    OutOfMemory,
}

impl fmt::Display for ThumbprintError {
    ghost output = { thumbprint_error_text };

    fn fmt<W: fmt::Write>(&self, f: &mut fmt::Formatter<W>) -> fmt::Result {
        match self {
            ThumbprintError::OtherKeyType => write!(f, "no thumbprint for this key type"),
            ThumbprintError::MissingMember => write!(f, "missing member"),
            ThumbprintError::InvalidMemberType => write!(f, "invalid member type"),
            ThumbprintError::CompressedPoint => write!(f, "compressed point"),
            ThumbprintError::OutOfMemory => write!(f, "out of memory"),
        }
    }
}

impl Error for ThumbprintError {}

impl From<cbor::OutOfMemory> for ThumbprintError {
    ghost from_gives = { λ _ e. e ≡ errors.OutOfMemory };

    fn from(_error: cbor::OutOfMemory) -> ThumbprintError {
        ThumbprintError::OutOfMemory
    }
}
