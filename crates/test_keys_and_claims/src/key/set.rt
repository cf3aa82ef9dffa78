//! Calls of `CoseKeySet`.

use coset::{CoseKeySet, Result};
use std::alloc::Global;
use test_lines::words::Words;
use test_lines::{mark, tell};

/// Reads a set of keys, and returns the encoding of each key, or its error's text.
///
/// # Errors
/// - A fault in a word that isn't hexadecimal.
/// - `OutOfMemory` if an allocation fails.
pub fn each(alloc: Global, words: &Words<'_>) -> Result<String> {
    let bytes = words.bytes(alloc, 1)?;
    mark::begin(alloc);
    let answer = CoseKeySet::each_from_slice(alloc, &bytes);
    mark::end(alloc);
    tell::each(alloc, answer)
}
