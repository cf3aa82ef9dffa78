//! Calls of `Header`.

pub mod builder;

use coset::{Header, Label, Result};
use std::alloc::Global;
use test_lines::rest::{and_pairs, told};
use test_lines::words::Words;
use test_lines::{mark, spelled, tell};

/// Returns whether a header is empty.
///
/// # Errors
/// A fault in a word that is no header.
pub fn is_empty(alloc: Global, words: &Words<'_>) -> Result<String> {
    let header: Header = spelled::read(alloc, words.word(1))?;
    mark::begin(alloc);
    let answer = header.is_empty();
    mark::end(alloc);
    tell::truth(alloc, answer)
}

/// Gets the value of a label. Arguments: the label, the header, and a map whose pairs are appended
/// to the header's rest. A header that was built may have such pairs.
///
/// # Errors
/// A fault in the arguments.
pub fn get(alloc: Global, words: &Words<'_>) -> Result<String> {
    let label: Label = spelled::read(alloc, words.word(1))?;
    let mut header: Header = spelled::read(alloc, words.word(2))?;
    and_pairs(alloc, &mut header.rest, words.word(3))?;
    mark::begin(alloc);
    let answer = header.get(&label);
    mark::end(alloc);
    told(alloc, answer)
}
