//! The reasons why calls fail.

ghost use Rattle.std.specs.Prelude.{◌≡◌};
ghost use Rattle.ffi_query.specs.Status.{cose_status, decoding_status, refusal_status};

use coset::cbor::de;
use coset::{CoseError, EndOfFile};

/// The reason why a call failed.
#[derive(Debug, Drop)]
pub enum Refusal {
    /// The result is longer than the memory for it. This is the result's length.
    Short(usize),
    /// The bytes don't have the requested part, or the kind has no place for an argument.
    Absent,
    /// The requested value isn't a string, or isn't an integer in the range of `i64`. Or a string
    /// that must have definite length is in chunks.
    WrongType,
    /// The counted list is empty.
    Empty,
    /// A payload is given as detached, and the message carries one too.
    Misuse,
    /// The bytes aren't of the kind, because of this fault; or an allocation failed.
    Cose(CoseError),
}

/// A refusal without its details.
#[derive(Clone, Copy, Debug, PartialEq, Eq)]
pub enum Status {
    /// The result is longer than the memory for it.
    Short,
    /// An allocation failed.
    Memory,
    /// The bytes end before the item does (RFC 8949, appendix F).
    Ends,
    /// The bytes aren't well-formed, a text string isn't UTF-8, or a simple value isn't supported.
    Malformed,
    /// Arrays, maps and tags nest more than 256 levels deep, or more than 16 protected headers.
    Deep,
    /// Bytes follow the item.
    Extraneous,
    /// An item isn't what its place requires.
    Unexpected,
    /// Two keys of a map are the same label (RFC 8152, section 3).
    Duplicate,
    /// An integer is outside the range of its place.
    OutOfRange,
    /// An integer isn't registered, and its registry has no private range.
    Unregistered,
    /// An integer isn't registered, and is outside its registry's private range.
    NotPrivate,
    /// The requested part isn't there.
    Absent,
    /// The requested value is of another type.
    WrongType,
    /// The counted list is empty.
    Empty,
    /// A payload is given as detached, and the message carries one too.
    Misuse,
}

impl Refusal {
    /// Returns the refusal's status. A fault in a header's byte string has the same status as the
    /// fault elsewhere.
    pub fn status(&self) -> Status
        ensures { result ≡ refusal_status self.now }
    {
        match self {
            Refusal::Short(_) => Status::Short,
            Refusal::Absent => Status::Absent,
            Refusal::WrongType => Status::WrongType,
            Refusal::Empty => Status::Empty,
            Refusal::Misuse => Status::Misuse,
            Refusal::Cose(error) => cose_status(error),
        }
    }
}

/// Returns the status of an error.
fn cose_status(error: &CoseError) -> Status
    ensures { result ≡ cose_status error.now }
{
    match error {
        CoseError::DecodeFailed(error) => decoding_status(error),
        CoseError::DuplicateMapKey => Status::Duplicate,
        CoseError::EncodeFailed => Status::Unexpected,
        CoseError::ExtraneousData => Status::Extraneous,
        CoseError::OutOfRangeIntegerValue => Status::OutOfRange,
        CoseError::UnexpectedItem(_, _) => Status::Unexpected,
        CoseError::UnregisteredIanaValue => Status::Unregistered,
        CoseError::UnregisteredIanaNonPrivateValue => Status::NotPrivate,
        CoseError::OutOfMemory => Status::Memory,
    }
}

/// Returns the status of a CBOR decoding error.
fn decoding_status(error: &de::Error<EndOfFile>) -> Status
    ensures { result ≡ decoding_status error.now }
{
    match error {
        de::Error::Io(_) => Status::Ends,
        de::Error::Syntax(_) => Status::Malformed,
        de::Error::Semantic(_, _) => Status::Malformed,
        de::Error::RecursionLimitExceeded => Status::Deep,
        de::Error::OutOfMemory => Status::Memory,
    }
}
