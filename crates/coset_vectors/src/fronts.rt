//! Checks the ends of bytes that encode a value: every proper prefix ends too early, and one more
//! byte is extraneous.

use crate::answer::read_through_item;
use crate::form::Form;
use coset::cbor::de::{Error, read_value};
use coset::cbor::value::Value;
use coset::{CoseError, Result};
use std::alloc::{AllocError, Global};

/// Returns what is wrong with the prefixes and the end of these bytes, or an empty text.
pub fn flaw<F: Form<T>, T: Drop>(alloc: Global, bytes: &[u8]) -> Result<String, AllocError> {
    for length in 0..bytes.len() {
        let front = &bytes[..length];
        let straight: Result<T> = F::read(alloc, front);
        let through_item: Result<T> = read_through_item::<F, T>(alloc, front);
        if !is_end(straight) || !is_end(through_item) {
            return format!(in alloc; "a front of {length} bytes doesn't end too early");
        }
    }
    followed::<F, T>(alloc, bytes)
}

/// Returns true if the error is that the input ends too early.
fn is_end<T: Drop>(answer: Result<T>) -> bool {
    matches!(&answer, Err(CoseError::DecodeFailed(Error::Io(_))))
}

/// Returns true if the error is that other bytes follow the item.
fn is_extraneous<T: Drop>(answer: Result<T>) -> bool {
    matches!(&answer, Err(CoseError::ExtraneousData))
}

/// Returns true if the same item is at the front of both, or none.
fn begin_alike(alloc: Global, bytes: &[u8], longer: &[u8]) -> Result<bool, AllocError> {
    let (value, length) = first_item(alloc, bytes)?;
    let (other, same) = first_item(alloc, longer)?;
    Ok(value == other && length == same)
}

/// Returns what is wrong with these bytes followed by one more, or an empty text.
fn followed<F: Form<T>, T: Drop>(alloc: Global, bytes: &[u8]) -> Result<String, AllocError> {
    let mut longer = Vec::from_slice(alloc, bytes)?;
    longer.push(0)?;
    if !is_extraneous(F::read(alloc, &longer)) {
        return String::from_str(alloc, "a byte behind isn't extraneous");
    }
    if !begin_alike(alloc, bytes, &longer)? {
        return String::from_str(alloc, "a byte behind changes the item");
    }
    Ok(String::new(alloc))
}

/// Returns the item at the front of the bytes and its length, or `None` and 0 if there is none.
fn first_item(alloc: Global, bytes: &[u8]) -> Result<(Option<Value>, usize), AllocError> {
    match read_value(alloc, bytes) {
        Ok((value, length)) => Ok((Some(value), length)),
        Err(Error::OutOfMemory) => Err(AllocError),
        Err(_) => Ok((None, 0)),
    }
}
