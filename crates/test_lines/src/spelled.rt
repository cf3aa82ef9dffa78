//! The values that words spell.

use crate::words::{bytes, number};
use coset::cbor::value::Value;
use coset::iana::{EnumI64, WithPrivateRange};
use coset::{CborOrdering, CborSerializable, CoseError, RegisteredLabelWithPrivate, Result};
use std::alloc::Global;

/// Returns the text of the bytes that the word spells.
///
/// # Errors
/// - `UnexpectedItem` if the bytes aren't UTF-8.
/// - The errors of [`bytes`].
pub fn text(alloc: Global, word: &str) -> Result<String> {
    match String::from_utf8(bytes(alloc, word)?) {
        Ok(text) => Ok(text),
        Err(_) => Err(CoseError::UnexpectedItem("word", "text in hexadecimal")),
    }
}

/// Reads a value from the bytes that the word spells.
///
/// # Errors
/// - A fault in the bytes.
/// - The errors of [`bytes`].
pub fn read<T: CborSerializable + Drop>(alloc: Global, word: &str) -> Result<T> {
    T::from_slice(alloc, &bytes(alloc, word)?)
}

/// Reads the item from the bytes that the word spells.
///
/// # Errors
/// The errors of [`read`].
pub fn item(alloc: Global, word: &str) -> Result<Value> {
    read(alloc, word)
}

/// Returns the number that the word spells, which isn't below 0.
///
/// # Errors
/// `UnexpectedItem` if the word spells no such number.
pub fn unsigned(word: &str) -> Result<u64> {
    match word.parse::<u64>() {
        Ok(number) => Ok(number),
        Err(_) => Err(CoseError::UnexpectedItem("word", "number")),
    }
}

/// Returns the value of the registry with the number that the word spells.
///
/// # Errors
/// - `UnregisteredIanaValue` if the registry has no such number.
/// - `UnexpectedItem` if the word spells no number.
pub fn named<T: EnumI64 + Drop>(word: &str) -> Result<T> {
    match T::from_i64(number(word)?) {
        Some(value) => Ok(value),
        None => Err(CoseError::UnregisteredIanaValue),
    }
}

/// Returns a label for private use if the word is `private=NUMBER`. Otherwise reads the label from
/// the word's bytes.
///
/// # Errors
/// The errors of [`number`] and [`read`].
pub fn with_private<T: EnumI64 + WithPrivateRange + Drop>(
    alloc: Global,
    word: &str,
) -> Result<RegisteredLabelWithPrivate<T>> {
    match word.split_once("=") {
        Some(("private", spelled)) => Ok(RegisteredLabelWithPrivate::PrivateUse(number(spelled)?)),
        _ => read(alloc, word),
    }
}

/// Returns the number that the word spells, of the widest type.
///
/// # Errors
/// `UnexpectedItem` if the word spells no such number.
pub fn wide(word: &str) -> Result<i128> {
    match word.parse::<i128>() {
        Ok(number) => Ok(number),
        Err(_) => Err(CoseError::UnexpectedItem("word", "number")),
    }
}

/// Returns the number that the word spells, of the widest unsigned type.
///
/// # Errors
/// `UnexpectedItem` if the word spells no such number.
pub fn wide_unsigned(word: &str) -> Result<u128> {
    match word.parse::<u128>() {
        Ok(number) => Ok(number),
        Err(_) => Err(CoseError::UnexpectedItem("word", "number")),
    }
}

/// Returns the order of labels of that name.
///
/// # Errors
/// `UnexpectedItem` if there is none.
pub fn ordering(name: &str) -> Result<CborOrdering> {
    match name {
        "lexicographic" => Ok(CborOrdering::Lexicographic),
        "length_first" => Ok(CborOrdering::LengthFirstLexicographic),
        _ => Err(CoseError::UnexpectedItem("word", "order")),
    }
}
