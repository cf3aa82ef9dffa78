//! Calls of `ProtectedHeader`, about its byte string and the bytes that represent it.

use coset::cbor::value::Value;
use coset::{CoseError, ProtectedBstr, ProtectedHeader, Result};
use coset_codec::ItemSource;
use std::alloc::Global;
use test_lines::typed::{given, lent, told, unknown};
use test_lines::words::Words;
use test_lines::{mark, spelled, tell};

/// Makes the call of that name.
///
/// # Errors
/// A fault in the arguments, or an unknown name.
pub fn call(alloc: Global, name: &str, words: &Words<'_>) -> Result<String> {
    match name {
        "from_cbor_bstr" => from_cbor_bstr(alloc, words),
        "from_pull_bstr" => from_pull_bstr(alloc, words),
        "from_source_bstr" => from_source_bstr(alloc, words),
        "cbor_bstr" => cbor_bstr(alloc, words),
        "is_empty" => is_empty(alloc, words),
        "protected_bytes" => protected_bytes(alloc, words),
        _ => Err(unknown()),
    }
}

/// Reads the header from a byte string.
fn from_cbor_bstr(alloc: Global, words: &Words<'_>) -> Result<String> {
    let item = words.value::<Value>(alloc, 1)?;
    mark::begin(alloc);
    let answer = ProtectedHeader::from_cbor_bstr(alloc, item);
    mark::end(alloc);
    told(alloc, in_string(answer))
}

/// Reads the header from a borrowed byte string.
fn from_pull_bstr(alloc: Global, words: &Words<'_>) -> Result<String> {
    let bytes = words.bytes(alloc, 1)?;
    let pull = lent(&bytes)?;
    mark::begin(alloc);
    let answer = ProtectedHeader::from_pull_bstr(alloc, pull);
    mark::end(alloc);
    told(alloc, in_string(answer))
}

/// Reads the header from a byte string. Arguments: the form `tree` or `lent`, and the byte string.
fn from_source_bstr(alloc: Global, words: &Words<'_>) -> Result<String> {
    let bytes = words.bytes(alloc, 2)?;
    match words.word(1) {
        "tree" => from_source(alloc, ItemSource::Tree(words.value::<Value>(alloc, 2)?)),
        "lent" => from_source(alloc, ItemSource::Borrowed(lent(&bytes)?)),
        _ => Err(CoseError::UnexpectedItem("word", "tree or lent")),
    }
}

/// Reads the header from the byte string in this source.
fn from_source(alloc: Global, source: ItemSource<'_>) -> Result<String> {
    mark::begin(alloc);
    let answer = ProtectedHeader::from_source_bstr(alloc, source);
    mark::end(alloc);
    told(alloc, in_string(answer))
}

/// Returns the byte string of a header without kept bytes. Arguments: the header's map.
fn cbor_bstr(alloc: Global, words: &Words<'_>) -> Result<String> {
    let header: ProtectedHeader = given(alloc, words, 1)?;
    mark::begin(alloc);
    let answer = header.cbor_bstr(alloc);
    mark::end(alloc);
    tell::value(alloc, answer)
}

/// Returns the header as it is written in a byte string.
fn in_string(answer: Result<ProtectedHeader>) -> Result<ProtectedBstr> {
    Ok(ProtectedBstr(answer?))
}

/// Returns whether a protected header is empty.
fn is_empty(alloc: Global, words: &Words<'_>) -> Result<String> {
    let protected = protected(alloc, words)?;
    mark::begin(alloc);
    let answer = protected.is_empty();
    mark::end(alloc);
    tell::truth(alloc, answer)
}

/// Returns the bytes that represent a protected header.
fn protected_bytes(alloc: Global, words: &Words<'_>) -> Result<String> {
    let protected = protected(alloc, words)?;
    mark::begin(alloc);
    let answer = protected.protected_bytes(alloc);
    mark::end(alloc);
    match answer {
        Ok(bytes) => tell::bytes(alloc, Ok(Vec::from_slice(alloc, &bytes)?)),
        Err(error) => tell::refused(alloc, error),
    }
}

/// Reads a protected header. Arguments: `read` and the byte string, whose bytes it keeps, or
/// `built` and a map.
fn protected(alloc: Global, words: &Words<'_>) -> Result<ProtectedHeader> {
    if words.word(1) == "read" {
        ProtectedHeader::from_cbor_bstr(alloc, spelled::item(alloc, words.word(2))?)
    } else {
        spelled::read(alloc, words.word(2))
    }
}
