//! Checks of the lengths of slices.
//!
//! No object in C is longer than `PTRDIFF_MAX` bytes, and the prover assumes the same of every
//! slice. So by their contracts these functions return the query unchanged. A caller may still pass
//! a greater length by mistake, such as -1 converted to a length. The functions then return `None`,
//! and the call is refused. `tools/c` tests this.

ghost use Rattle.std.specs.Prelude.{◌≡◌, true};

use crate::pairs::Pair;
use ffi_token::{Opened, Text};
use std::mem;

/// The greatest length in bytes.
const MAX_LENGTH: usize = isize::MAX as usize;

/// Returns the query, or `None` if one of the slices is too long.
pub(crate) fn within<T: Drop>(query: Option<T>, bytes: &[u8], others: &[u8]) -> Option<T>
    ensures { result ≡ query }
{
    if bytes.len() <= MAX_LENGTH && others.len() <= MAX_LENGTH {
        query
    } else {
        None
    }
}

/// Returns the query, or `None` if one of the slices has too many numbers.
pub(crate) fn within_numbers<T: Drop>(
    query: Option<T>,
    numbers: &[i64],
    others: &[i64],
) -> Option<T>
    ensures { result ≡ query }
{
    let most = MAX_LENGTH / mem::size_of::<i64>();
    if numbers.len() <= most && others.len() <= most {
        query
    } else {
        None
    }
}

/// Returns the query, or `None` if there are too many pairs.
pub(crate) fn within_pairs<T: Drop>(query: Option<T>, pairs: &[Pair]) -> Option<T>
    ensures { result ≡ query }
{
    if pairs.len() <= MAX_LENGTH / mem::size_of::<Pair>() {
        query
    } else {
        None
    }
}

/// Returns the query, or `None` if there are too many layers.
pub(crate) fn within_layers<T: Drop>(query: Option<T>, layers: &[Opened]) -> Option<T>
    ensures { result ≡ query }
{
    if layers.len() <= MAX_LENGTH / mem::size_of::<Opened>() {
        query
    } else {
        None
    }
}

/// Returns true if each text has a length that an object can have.
fn are_within(texts: &[Text<'_>]) -> bool
    ensures { result ≡ true }
{
    for text in texts {
        if text.bytes.len() > MAX_LENGTH {
            return false;
        }
    }
    true
}

/// Returns the query, or `None` if there are too many texts, or if one of them is too long.
pub(crate) fn within_texts<T: Drop>(query: Option<T>, texts: &[Text<'_>]) -> Option<T>
    ensures { result ≡ query }
{
    if texts.len() <= MAX_LENGTH / mem::size_of::<Text<'_>>() && are_within(texts) {
        query
    } else {
        None
    }
}
