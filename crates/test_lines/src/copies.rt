//! Copies of values.

use crate::typed::{given, told};
use crate::words::Words;
use crate::{mark, tell};
use coset::{AsCborValue, CoseError, Result};
use std::alloc::Global;

/// The reason why there is no copy.
#[derive(Clone, Copy, Debug, Drop, PartialEq, Eq)]
pub enum NoCopy {
    /// An allocation failed.
    Memory,
    /// `clone` returned another error.
    Other,
}

/// Returns the copy, or the kind of error that `clone` returned.
///
/// # Errors
/// The kind of the error of `clone`.
pub fn copied<T>(answer: Result<T>) -> std::result::Result<T, NoCopy> {
    match answer {
        Ok(copy) => Ok(copy),
        Err(CoseError::OutOfMemory) => Err(NoCopy::Memory),
        Err(_) => Err(NoCopy::Other),
    }
}

/// Copies the value in the first word with `clone`, whose only error should be `OutOfMemory`.
///
/// # Errors
/// - A fault in a word that has no value.
/// - `OutOfMemory` if an allocation fails.
pub fn copy<T, F>(alloc: Global, words: &Words<'_>, clone: F) -> Result<String>
where
    T: AsCborValue + PartialEq + Drop,
    F: FnOnce(&T) -> std::result::Result<T, NoCopy> + Drop,
    requires { F.IsAlwaysCallable clone }
{
    let value: T = given(alloc, words, 1)?;
    mark::begin(alloc);
    let answer = clone(&value);
    mark::end(alloc);
    match answer {
        Ok(copy) => tell_copy(alloc, &value, copy),
        Err(NoCopy::Memory) => tell::refused(alloc, CoseError::OutOfMemory),
        Err(NoCopy::Other) => Ok(String::from_str(alloc, "another error")?),
    }
}

/// Returns the encoding of the copy, followed by `differs` if it isn't equal to the value.
fn tell_copy<T: AsCborValue + PartialEq>(alloc: Global, value: &T, copy: T) -> Result<String> {
    let are_equal = copy == *value;
    let text = told(alloc, Ok(copy))?;
    if are_equal {
        Ok(text)
    } else {
        Ok(format!(in alloc; "{text} differs")?)
    }
}
