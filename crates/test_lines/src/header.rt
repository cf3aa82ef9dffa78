//! The protected headers that calls get.

use crate::words::Words;
use coset::cbor::value::Value;
use coset::{CoseError, Header, Label, ProtectedHeader, Result};
use std::alloc::Global;

/// Reads a protected header from its byte string. The word at `place` has the string's content, and
/// the word at `header` says how the header is changed.
///
/// # Errors
/// - A fault in bytes that can't be read, or an unknown word.
/// - `OutOfMemory` if an allocation fails.
pub fn read(
    alloc: Global,
    words: &Words<'_>,
    place: usize,
    header: usize,
) -> Result<ProtectedHeader> {
    let bytes = words.bytes(alloc, place)?;
    let mut protected = ProtectedHeader::from_cbor_bstr(alloc, Value::Bytes(bytes))?;
    change(&mut protected, words.word(header))?;
    Ok(protected)
}

/// Changes a protected header that was read, by a word:
///
/// - no word, or `received`: it stays as it was received.
/// - `made`: it loses the bytes that were received.
/// - `repeated`: it loses these bytes, and repeats a label.
/// - `kept`: it keeps these bytes, and repeats a label.
///
/// # Errors
/// - `UnexpectedItem` for another word.
/// - `OutOfMemory` if an allocation fails.
pub fn change(protected: &mut ProtectedHeader, word: &str) -> Result<()> {
    match word {
        "" | "received" => Ok(()),
        "made" => {
            protected.original_data = None;
            Ok(())
        }
        "repeated" => {
            protected.original_data = None;
            repeat(&mut protected.header)
        }
        "kept" => repeat(&mut protected.header),
        _ => Err(CoseError::UnexpectedItem("word", "word for a header")),
    }
}

/// Adds the label 70 twice, so that the header can't be written.
///
/// # Errors
/// `OutOfMemory` if an allocation fails.
fn repeat(header: &mut Header) -> Result<()> {
    header.rest.push((Label::Int(70), Value::from(1u8)))?;
    header.rest.push((Label::Int(70), Value::from(2u8)))?;
    Ok(())
}
