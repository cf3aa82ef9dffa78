//! Calls that write CBOR. Each appends to a vector, the first argument. The word `before=` repeats
//! the vector's bytes, which are left if an allocation fails.

use coset::cbor::value::Integer;
use coset::cbor::{OutOfMemory, ser};
use coset::{CoseError, Label, Result};
use coset_codec::util::to_cbor_array;
use std::alloc::Global;
use test_lines::words::Words;
use test_lines::{mark, spelled, tell};

/// Makes the call of that name. Arguments: the vector, and the thing to write.
///
/// # Errors
/// A fault in the arguments, or an unknown name.
pub fn call(alloc: Global, name: &str, words: &Words<'_>) -> Result<String> {
    match name {
        "write_value" => write_value(alloc, words),
        "write_owned_value" => write_owned_value(alloc, words),
        "write_array_head" => write_array_head(alloc, words),
        "write_map_head" => write_map_head(alloc, words),
        "write_tag_head" => write_tag_head(alloc, words),
        "write_bytes" => write_bytes(alloc, words),
        "write_text" => write_text(alloc, words),
        "write_integer" => write_integer(alloc, words),
        _ => Err(CoseError::UnexpectedItem("name", "call that writes")),
    }
}

/// Writes a value.
fn write_value(alloc: Global, words: &Words<'_>) -> Result<String> {
    let mut out = words.bytes(alloc, 1)?;
    let value = spelled::item(alloc, words.word(2))?;
    mark::begin(alloc);
    let answer = ser::write_value(&value, &mut out);
    mark::end(alloc);
    told(alloc, answer, &out)
}

/// Writes a value that is passed by value.
fn write_owned_value(alloc: Global, words: &Words<'_>) -> Result<String> {
    let mut out = words.bytes(alloc, 1)?;
    let value = spelled::item(alloc, words.word(2))?;
    mark::begin(alloc);
    let answer = ser::write_owned_value(value, &mut out);
    mark::end(alloc);
    told(alloc, answer, &out)
}

/// Writes the head of an array with this number of items.
fn write_array_head(alloc: Global, words: &Words<'_>) -> Result<String> {
    let mut out = words.bytes(alloc, 1)?;
    let count = spelled::unsigned(words.word(2))? as usize;
    mark::begin(alloc);
    let answer = ser::write_array_head(count, &mut out);
    mark::end(alloc);
    told(alloc, answer, &out)
}

/// Writes the head of a map with this number of pairs.
fn write_map_head(alloc: Global, words: &Words<'_>) -> Result<String> {
    let mut out = words.bytes(alloc, 1)?;
    let count = spelled::unsigned(words.word(2))? as usize;
    mark::begin(alloc);
    let answer = ser::write_map_head(count, &mut out);
    mark::end(alloc);
    told(alloc, answer, &out)
}

/// Writes the head of a tag with this number.
fn write_tag_head(alloc: Global, words: &Words<'_>) -> Result<String> {
    let mut out = words.bytes(alloc, 1)?;
    let number = spelled::unsigned(words.word(2))?;
    mark::begin(alloc);
    let answer = ser::write_tag_head(number, &mut out);
    mark::end(alloc);
    told(alloc, answer, &out)
}

/// Writes a byte string with this content.
fn write_bytes(alloc: Global, words: &Words<'_>) -> Result<String> {
    let mut out = words.bytes(alloc, 1)?;
    let content = words.bytes(alloc, 2)?;
    mark::begin(alloc);
    let answer = ser::write_bytes(&content, &mut out);
    mark::end(alloc);
    told(alloc, answer, &out)
}

/// Writes a text, which is given in hexadecimal.
fn write_text(alloc: Global, words: &Words<'_>) -> Result<String> {
    let mut out = words.bytes(alloc, 1)?;
    let content = spelled::text(alloc, words.word(2))?;
    mark::begin(alloc);
    let answer = ser::write_text(content.as_str(), &mut out);
    mark::end(alloc);
    told(alloc, answer, &out)
}

/// Writes a number.
fn write_integer(alloc: Global, words: &Words<'_>) -> Result<String> {
    let mut out = words.bytes(alloc, 1)?;
    let number = Integer::try_from(spelled::wide(words.word(2))?)?;
    mark::begin(alloc);
    let answer = ser::write_integer(number, &mut out);
    mark::end(alloc);
    told(alloc, answer, &out)
}

fn told(
    alloc: Global,
    answer: std::result::Result<(), OutOfMemory>,
    stands: &[u8],
) -> Result<String> {
    match answer {
        Ok(()) => tell::left(alloc, Ok(()), stands),
        Err(error) => tell::left(alloc, Err(CoseError::from(error)), stands),
    }
}

/// Returns the array of the items of labels.
///
/// # Errors
/// A fault in words that are no labels.
pub fn array(alloc: Global, words: &Words<'_>) -> Result<String> {
    let mut labels: Vec<Label> = Vec::new(alloc);
    for place in 1..words.count() {
        labels.push(spelled::read(alloc, words.word(place))?)?;
    }
    mark::begin(alloc);
    let answer = to_cbor_array(alloc, labels);
    mark::end(alloc);
    tell::value(alloc, answer)
}
