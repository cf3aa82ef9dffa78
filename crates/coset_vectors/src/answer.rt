//! The answer to the bytes of a row, which are read in two ways.

use crate::form::Form;
use crate::fronts::flaw;
use coset::cbor::de::read_value;
use coset::{CoseError, Result};
use hex::FromHexError;
use std::alloc::{AllocError, Global};

/// The answer if a word isn't hexadecimal.
pub const NOT_HEXADECIMAL: &str = "error: input is not hexadecimal";

/// Returns the text before the first space, and the text after it. Without a space, the second is
/// empty.
pub fn name_and_rest(row: &str) -> (&str, &str) {
    match row.split_once(' ') {
        Some((name, rest)) => (name, rest),
        None => (row, ""),
    }
}

/// Returns the bytes that the text spells in hexadecimal, or `None` if it isn't hexadecimal.
pub fn spelled(alloc: Global, hexadecimal: &str) -> Result<Option<Vec<u8>>, AllocError> {
    match hex::decode(alloc, hexadecimal.as_bytes()) {
        Ok(bytes) => Ok(Some(bytes)),
        Err(FromHexError::OutOfMemory) => Err(AllocError),
        Err(_) => Ok(None),
    }
}

/// Returns the answer to bytes in hexadecimal. For structures, the `external_aad` follows after a
/// space.
pub fn answer_words<F: Form<T>, T: PartialEq + Drop>(
    alloc: Global,
    words: &str,
) -> Result<String, AllocError> {
    let (hexadecimal, external_aad) = if F::IS_STRUCTURE {
        name_and_rest(words)
    } else {
        (words, "")
    };
    match (spelled(alloc, hexadecimal)?, spelled(alloc, external_aad)?) {
        (Some(bytes), Some(external_aad)) => answer_row::<F, T>(alloc, &bytes, &external_aad),
        _ => String::from_str(alloc, NOT_HEXADECIMAL),
    }
}

/// Returns the answer to these bytes. If they encode a value, also checks that every proper prefix
/// ends too early, and that one more byte is extraneous.
fn answer_row<F: Form<T>, T: PartialEq + Drop>(
    alloc: Global,
    bytes: &[u8],
    external_aad: &[u8],
) -> Result<String, AllocError> {
    let text = answer::<F, T>(alloc, bytes, external_aad)?;
    if text.as_str().starts_with("error: ") || text.as_str() == "differs" {
        return Ok(text);
    }
    let flaw = flaw::<F, T>(alloc, bytes)?;
    if flaw.is_empty() { Ok(text) } else { Ok(flaw) }
}

/// Returns the encoding of the value in hexadecimal, or `error: ` and the error.
///
/// The value is read from the bytes, and also from the item that was read from them. If the two
/// differ, the answer is `differs`. The encoding may be that of a structure with this
/// `external_aad`.
pub fn answer<F: Form<T>, T: PartialEq + Drop>(
    alloc: Global,
    bytes: &[u8],
    external_aad: &[u8],
) -> Result<String, AllocError> {
    let straight: Result<T> = F::read(alloc, bytes);
    let through_item: Result<T> = read_through_item::<F, T>(alloc, bytes);
    let are_equal = match (&straight, &through_item) {
        (Ok(one), Ok(other)) => *one == *other,
        _ => true,
    };
    let text = text_of::<F, T>(alloc, straight, external_aad)?;
    let other = text_of::<F, T>(alloc, through_item, external_aad)?;
    if are_equal && text == other {
        Ok(text)
    } else {
        String::from_str(alloc, "differs")
    }
}

/// Reads a value from the one item that the bytes encode.
pub fn read_through_item<F: Form<T>, T>(alloc: Global, bytes: &[u8]) -> Result<T> {
    let (item, length) = read_value(alloc, bytes)?;
    if length < bytes.len() {
        return Err(CoseError::ExtraneousData);
    }
    F::read_item(alloc, item)
}

/// Returns the answer for a value or an error.
///
/// # Errors
/// `AllocError` if an allocation fails, so that this isn't compared with another answer.
fn text_of<F: Form<T>, T>(
    alloc: Global,
    read: Result<T>,
    external_aad: &[u8],
) -> Result<String, AllocError> {
    let written = match read {
        Ok(value) => F::write(alloc, value, external_aad),
        Err(error) => Err(error),
    };
    match written {
        Ok(bytes) => hex::encode(alloc, bytes.as_slice()),
        Err(CoseError::OutOfMemory) => Err(AllocError),
        Err(error) => format!(in alloc; "error: {error}"),
    }
}
