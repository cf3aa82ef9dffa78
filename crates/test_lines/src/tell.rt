//! The results of calls as text.

use crate::mark;
use coset::cbor::de::{self, EndOfFile};
use coset::cbor::value::Value;
use coset::{CborSerializable, CoseError, Result};
use std::alloc::Global;

/// Returns the bytes in hexadecimal, or `-` if there are none.
///
/// # Errors
/// `OutOfMemory` if an allocation fails.
pub fn hexadecimal(alloc: Global, bytes: &[u8]) -> Result<String> {
    if bytes.is_empty() {
        return Ok(String::from_str(alloc, "-")?);
    }
    Ok(hex::encode(alloc, bytes)?)
}

/// Returns `ok` and the bytes, or the error's text.
///
/// # Errors
/// `OutOfMemory` if an allocation for the text fails.
pub fn bytes(alloc: Global, answer: Result<Vec<u8>>) -> Result<String> {
    match answer {
        Ok(bytes) => {
            let spelled = hexadecimal(alloc, &bytes)?;
            Ok(format!(in alloc; "ok {spelled}")?)
        }
        Err(error) => refused(alloc, error),
    }
}

/// Returns `ok` and the bytes, `none` for `None`, or the error's text.
///
/// # Errors
/// `OutOfMemory` if an allocation for the text fails.
pub fn perhaps(alloc: Global, answer: Result<Option<Vec<u8>>>) -> Result<String> {
    match answer {
        Ok(Some(bytes)) => self::bytes(alloc, Ok(bytes)),
        Ok(None) => none(alloc),
        Err(error) => refused(alloc, error),
    }
}

/// Returns `ok` and the encoding of the value, or the error's text.
///
/// # Errors
/// `OutOfMemory` if an allocation for the text fails.
pub fn value<T: CborSerializable + Drop>(alloc: Global, answer: Result<T>) -> Result<String> {
    match answer {
        Ok(value) => bytes(alloc, value.to_vec(alloc)),
        Err(error) => refused(alloc, error),
    }
}

/// Returns `ok` and, for each element, the text of [`value`].
///
/// # Errors
/// `OutOfMemory` if an allocation for the text fails.
pub fn each<T: CborSerializable + Drop>(
    alloc: Global,
    answer: Result<Vec<Result<T>>>,
) -> Result<String> {
    let elements = match answer {
        Ok(elements) => elements,
        Err(error) => return refused(alloc, error),
    };
    let mut text = String::from_str(alloc, "ok")?;
    for element in elements {
        text.push_str("; ")?;
        text.push_str(&value(alloc, element)?)?;
    }
    Ok(text)
}

/// Makes the call `to_vec`. Returns `ok` and the encoding of the value, or the error's text.
///
/// # Errors
/// `OutOfMemory` if an allocation for the text fails.
pub fn written<T: CborSerializable + Drop>(alloc: Global, value: T) -> Result<String> {
    mark::begin(alloc);
    let answer = value.to_vec(alloc);
    mark::end(alloc);
    bytes(alloc, answer)
}

/// Returns `ok`, or the error's text.
///
/// # Errors
/// `OutOfMemory` if an allocation for the text fails.
pub fn done(alloc: Global, answer: Result<()>) -> Result<String> {
    match answer {
        Ok(()) => Ok(String::from_str(alloc, "ok")?),
        Err(error) => refused(alloc, error),
    }
}

/// Returns the error's text.
///
/// # Errors
/// `OutOfMemory` if an allocation for the text fails.
pub fn refused(alloc: Global, error: CoseError) -> Result<String> {
    Ok(format!(in alloc; "{error}")?)
}

/// Returns `ok` and the bytes after a call that changes them. After an error, returns its text and
/// the bytes that are left.
///
/// # Errors
/// `OutOfMemory` if an allocation for the text fails.
pub fn left(alloc: Global, answer: Result<()>, stands: &[u8]) -> Result<String> {
    let spelled = hexadecimal(alloc, stands)?;
    match answer {
        Ok(()) => Ok(format!(in alloc; "ok {spelled}")?),
        Err(error) => Ok(format!(in alloc; "{error} left {spelled}")?),
    }
}

/// Returns the text of an error of reading an item. `out of memory` has the same text as in any
/// other call.
///
/// # Errors
/// `OutOfMemory` if an allocation for the text fails.
pub fn unread(alloc: Global, error: &de::Error<EndOfFile>) -> Result<String> {
    match error {
        de::Error::OutOfMemory => refused(alloc, CoseError::OutOfMemory),
        other => Ok(format!(in alloc; "{other}")?),
    }
}

/// Returns `ok` and the encoding of the value, or `none`.
///
/// # Errors
/// `OutOfMemory` if an allocation for the text fails.
pub fn maybe(alloc: Global, answer: Option<Value>) -> Result<String> {
    match answer {
        Some(found) => value(alloc, Ok(found)),
        None => none(alloc),
    }
}

/// Returns `none`.
///
/// # Errors
/// `OutOfMemory` if an allocation fails.
pub fn none(alloc: Global) -> Result<String> {
    Ok(String::from_str(alloc, "none")?)
}

/// Returns `true` or `false`.
///
/// # Errors
/// `OutOfMemory` if an allocation fails.
pub fn truth(alloc: Global, answer: bool) -> Result<String> {
    Ok(format!(in alloc; "{answer}")?)
}
