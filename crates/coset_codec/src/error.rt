//! The errors of this library's calls.

ghost use Rattle.std.specs.Prelude.{◌≡◌, OnOk};
ghost use Rattle.coset_codec.specs.Errors.{stored, call_error_text, error_text, decode_failure};
ghost use Rattle.coset_codec.specs.declared.error.CoseError.TheVariants.{EncodeFailed, OutOfMemory, OutOfRangeIntegerValue};
ghost use Rattle.coset_codec.specs.declared.error.CallError.TheVariants.{Coset};

use coset_cbor::{EndOfFile, de, ser};
use std::alloc::{AllocError, AllocFailed};
use std::error::Error;
use std::fmt;
use std::num::TryFromIntError;

/// Why a value could not be read or written.
#[derive(Drop)]
pub enum CoseError {
    /// The bytes could not be decoded (RFC 8949, section 3). They are not valid CBOR, nest too
    /// deep, or contain a simple value other than false, true and null.
    DecodeFailed(de::Error<EndOfFile>),
    /// Two keys of a map are the same label (RFC 8152, section 3).
    DuplicateMapKey,
    /// The value could not be written. No call of this library returns this error. It is there for
    /// the errors of other writers.
    EncodeFailed,
    /// Bytes follow the one item of the input.
    ExtraneousData,
    /// An integer is outside the range that is allowed in its place.
    OutOfRangeIntegerValue,
    /// An item is not as expected. The texts name the item found and the item expected.
    UnexpectedItem(&'static str, &'static str),
    /// An integer has no name in its registry, and the registry has no private range.
    UnregisteredIanaValue,
    /// An integer has no name in its registry and is outside the registry's private range.
    UnregisteredIanaNonPrivateValue,
    /// An allocation failed.
    OutOfMemory,
}

/// A result whose error is a `CoseError` by default.
pub type Result<T, E = CoseError> = std::result::Result<T, E>;

/// A call failed and stored its error in the place that it was given.
///
/// Some functions call each other as deep as the input says. To save stack, each returns one byte
/// instead of an error by value.
#[derive(Clone, Copy, Debug)]
pub struct ErrorStored;

/// Returns the same result, with its error moved into `error`.
///
/// # Errors
/// `ErrorStored` if `given` is an error, which is then in `error`. Otherwise `error` is unchanged.
pub fn store_error<T: Drop>(given: Result<T>, error: &mut CoseError) -> Result<T, ErrorStored>
    ensures answers { stored error.new result ≡ given }
    ensures kept { OnOk result (error.new ≡ error.old) }
{
    match given {
        Ok(value) => Ok(value),
        Err(why) => {
            *error = why;
            Err(ErrorStored)
        }
    }
}

/// An error of this library, or an error of another type.
///
/// Most calls that return it take a closure.
#[derive(Debug, Drop)]
pub enum CallError<E> {
    /// An error of this library. Calls that sign, verify, encrypt or decrypt return it before they
    /// call the closure.
    Coset(CoseError),
    /// An error of the closure. A call without a closure returns its own error here.
    Caller(E),
}

impl fmt::Display for CoseError {
    ghost output = { error_text };

    fn fmt<W: fmt::Write>(&self, f: &mut fmt::Formatter<W>) -> fmt::Result {
        match self {
            CoseError::DecodeFailed(e) => write!(f, "decode CBOR failure: {e}"),
            CoseError::DuplicateMapKey => write!(f, "duplicate map key"),
            CoseError::EncodeFailed => write!(f, "encode CBOR failure"),
            CoseError::ExtraneousData => write!(f, "extraneous data in CBOR input"),
            CoseError::OutOfRangeIntegerValue => write!(f, "out of range integer value"),
            CoseError::UnexpectedItem(got, want) => write!(f, "got {got}, expected {want}"),
            CoseError::UnregisteredIanaValue => write!(f, "expected recognized IANA value"),
            CoseError::UnregisteredIanaNonPrivateValue => {
                write!(f, "expected value in IANA or private use range")
            }
            CoseError::OutOfMemory => write!(f, "out of memory"),
        }
    }
}

impl fmt::Debug for CoseError {
    ghost debug_output = { error_text };

    fn fmt<W: fmt::Write>(&self, f: &mut fmt::Formatter<W>) -> fmt::Result {
        write!(f, "{self}")
    }
}

impl Error for CoseError {}

impl<T: Drop> From<de::Error<T>> for CoseError {
    ghost from_gives = { λ x e. e ≡ decode_failure x };

    fn from(e: de::Error<T>) -> CoseError {
        match &e {
            de::Error::Io(_) => CoseError::DecodeFailed(de::Error::Io(EndOfFile)),
            de::Error::Syntax(n) => CoseError::DecodeFailed(de::Error::Syntax(*n)),
            de::Error::Semantic(n, text) => {
                CoseError::DecodeFailed(de::Error::Semantic(*n, *text))
            }
            de::Error::RecursionLimitExceeded => {
                CoseError::DecodeFailed(de::Error::RecursionLimitExceeded)
            }
            de::Error::OutOfMemory => CoseError::OutOfMemory,
        }
    }
}

impl<T: Drop> From<ser::Error<T>> for CoseError {
    ghost from_gives = { λ _ e. e ≡ EncodeFailed };

    fn from(_e: ser::Error<T>) -> CoseError {
        CoseError::EncodeFailed
    }
}

impl From<TryFromIntError> for CoseError {
    ghost from_gives = { λ _ e. e ≡ OutOfRangeIntegerValue };

    fn from(_e: TryFromIntError) -> CoseError {
        CoseError::OutOfRangeIntegerValue
    }
}

impl From<coset_cbor::OutOfMemory> for CoseError {
    ghost from_gives = { λ _ e. e ≡ OutOfMemory };

    fn from(_e: coset_cbor::OutOfMemory) -> CoseError {
        CoseError::OutOfMemory
    }
}

impl From<AllocError> for CoseError {
    ghost from_gives = { λ _ e. e ≡ OutOfMemory };

    fn from(_e: AllocError) -> CoseError {
        CoseError::OutOfMemory
    }
}

impl<T: Drop> From<AllocFailed<T>> for CoseError {
    ghost from_gives = { λ _ e. e ≡ OutOfMemory };

    fn from(_e: AllocFailed<T>) -> CoseError {
        CoseError::OutOfMemory
    }
}

/// The text of the error inside.
impl<E: fmt::Display> fmt::Display for CallError<E> {
    ghost output = { call_error_text E.output };

    fn fmt<W: fmt::Write>(&self, f: &mut fmt::Formatter<W>) -> fmt::Result {
        match self {
            CallError::Coset(e) => write!(f, "{e}"),
            CallError::Caller(e) => write!(f, "{e}"),
        }
    }
}

impl<E: Error> Error for CallError<E> {}

impl<E: Drop> From<CoseError> for CallError<E> {
    ghost from_gives = { λ x e. e ≡ Coset x };

    fn from(e: CoseError) -> CallError<E> {
        CallError::Coset(e)
    }
}

impl<E: Drop> From<coset_cbor::OutOfMemory> for CallError<E> {
    ghost from_gives = { λ _ e. e ≡ Coset OutOfMemory };

    fn from(_e: coset_cbor::OutOfMemory) -> CallError<E> {
        CallError::Coset(CoseError::OutOfMemory)
    }
}

impl<E: Drop> From<AllocError> for CallError<E> {
    ghost from_gives = { λ _ e. e ≡ Coset OutOfMemory };

    fn from(_e: AllocError) -> CallError<E> {
        CallError::Coset(CoseError::OutOfMemory)
    }
}

impl<T: Drop, E: Drop> From<AllocFailed<T>> for CallError<E> {
    ghost from_gives = { λ _ e. e ≡ Coset OutOfMemory };

    fn from(_e: AllocFailed<T>) -> CallError<E> {
        CallError::Coset(CoseError::OutOfMemory)
    }
}
