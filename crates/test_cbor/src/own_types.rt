//! Calls of a caller's own types, those of `example_types`. A `Report` has the default bodies of
//! the traits.

use coset::Result;
use coset_codec::read::each_from_slice;
use example_types::reading::Reading;
use example_types::report::Report;
use example_types::settings::Settings;
use std::alloc::Global;
use test_lines::line::unknown;
use test_lines::typed::{Operation, uncopied};
use test_lines::words::Words;
use test_lines::{mark, tell};

/// Makes the call, of the type of that name.
///
/// # Errors
/// A fault in the arguments, an unknown type, or a call that it doesn't have.
pub fn call(alloc: Global, kind: &str, call: Operation, words: &Words<'_>) -> Result<String> {
    match kind {
        "Report" => uncopied::<Report>(alloc, call, words),
        "Reading" => uncopied::<Reading>(alloc, call, words),
        "Settings" => uncopied::<Settings>(alloc, call, words),
        _ => Err(unknown()),
    }
}

/// Reads each element of an array as a `Reading`, and returns its encoding or its error's text.
///
/// # Errors
/// - A fault in a word that isn't hexadecimal.
/// - `OutOfMemory` if an allocation fails.
pub fn each(alloc: Global, words: &Words<'_>) -> Result<String> {
    let bytes = words.bytes(alloc, 1)?;
    mark::begin(alloc);
    let answer = each_from_slice::<Reading>(alloc, &bytes);
    mark::end(alloc);
    tell::each(alloc, answer)
}
