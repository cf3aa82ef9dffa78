//! Calls of `Timestamp`.

use coset::cwt::Timestamp;
use coset::{AsCborValue, Result};
use std::alloc::Global;
use test_lines::words::{self, Words};
use test_lines::{mark, spelled, tell};

/// Returns the timestamp of an item in hexadecimal.
///
/// # Errors
/// A fault in a word that is no timestamp.
pub fn of(alloc: Global, word: &str) -> Result<Timestamp> {
    Timestamp::from_cbor_value(alloc, spelled::item(alloc, word)?)
}

/// Returns the timestamp of an item.
///
/// # Errors
/// A fault in a word that is no item.
pub fn debug(alloc: Global, words: &Words<'_>) -> Result<String> {
    let item = spelled::item(alloc, words.word(1))?;
    mark::begin(alloc);
    let answer = Timestamp::from_cbor_value(alloc, item);
    mark::end(alloc);
    match answer {
        Ok(timestamp) => Ok(format!(in alloc; "ok {timestamp:?}")?),
        Err(error) => tell::refused(alloc, error),
    }
}

/// Compares a timestamp with whole seconds.
///
/// Returns the order (`Less`, `Equal`, `Greater`, or `none` if the timestamp is no moment), and
/// whether the timestamp is later.
///
/// # Errors
/// A fault if the first word is no timestamp, or the second doesn't fit an `i64`.
pub fn compare(alloc: Global, words: &Words<'_>) -> Result<String> {
    let timestamp = of(alloc, words.word(1))?;
    let seconds = words::number(words.word(2))?;
    mark::begin(alloc);
    let is_after = timestamp.is_after(seconds);
    let order = timestamp.compare(i128::from(seconds));
    mark::end(alloc);
    let after = if is_after { "yes" } else { "no" };
    match order {
        Some(order) => Ok(format!(in alloc; "{order:?} {after}")?),
        None => Ok(format!(in alloc; "none {after}")?),
    }
}
