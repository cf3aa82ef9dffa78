//! Calls of `coset_codec` on lists: repeated labels, and the elements of an array converted by a
//! closure.

use coset::cbor::value::Value;
use coset::{AsCborValue, CallError, Label, Result};
use coset_codec::has_repeats;
use coset_codec::util::ValueTryAs;
use std::alloc::Global;
use test_lines::asked::No;
use test_lines::words::Words;
use test_lines::{mark, spelled, tell};

/// Returns whether two labels of an array are equal.
///
/// # Errors
/// A fault in a word that is no array of labels.
pub fn repeats(alloc: Global, words: &Words<'_>) -> Result<String> {
    let mut labels: Vec<(Label, u8)> = Vec::new(alloc);
    for item in spelled::item(alloc, words.word(1))?.try_as_array()? {
        labels.push((Label::from_cbor_value(alloc, item)?, 0))?;
    }
    mark::begin(alloc);
    let answer = has_repeats(alloc, &labels);
    mark::end(alloc);
    match answer {
        Ok(found) => tell::truth(alloc, found),
        Err(error) => tell::refused(alloc, error),
    }
}

/// Returns the bytes that the closure `twice` makes from the elements of an array, or `caller` if
/// it refuses one.
///
/// # Errors
/// A fault in a word that is no item.
pub fn convert(alloc: Global, words: &Words<'_>) -> Result<String> {
    let value = spelled::item(alloc, words.word(1))?;
    mark::begin(alloc);
    let answer = value.try_as_array_then_convert(alloc, twice);
    mark::end(alloc);
    match answer {
        Ok(bytes) => tell::bytes(alloc, Ok(bytes)),
        Err(CallError::Coset(error)) => tell::refused(alloc, error),
        Err(CallError::Caller(No)) => Ok(String::from_str(alloc, "caller")?),
    }
}

/// Returns twice the number.
///
/// # Errors
/// `No` if the value is no number from 0 to 99.
fn twice(value: Value) -> std::result::Result<u8, No> {
    let Some(number) = value.as_integer() else {
        return Err(No);
    };
    match u64::try_from(number) {
        Ok(number) if number < 100 => Ok(2 * number as u8),
        _ => Err(No),
    }
}
