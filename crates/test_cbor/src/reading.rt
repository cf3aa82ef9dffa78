//! Calls that read CBOR.

ghost use Rattle.std.specs.Prelude.{◌≡◌, ◌+◌, ◌<◌, ℕ, [], ◌∷◌, ◌++◌, replicate, Ok};

use coset::cbor::de::{EndOfFile, Error, Steps, check, decode_unbounded, item_length, read_value};
use coset::{CborSerializable, CoseError, Result, laws};
use std::alloc::Global;
use std::marker::Brand;
use std::sync::ledger::{Blank, Ledger};
use test_lines::words::Words;
use test_lines::{mark, tell};

/// Reads a value from the bytes. Returns its encoding and its length.
///
/// # Errors
/// - A fault in a word that isn't hexadecimal.
/// - `OutOfMemory` if an allocation fails.
pub fn read(alloc: Global, words: &Words<'_>) -> Result<String> {
    let bytes = words.bytes(alloc, 1)?;
    mark::begin(alloc);
    let answer = read_value(alloc, &bytes);
    mark::end(alloc);
    match answer {
        Ok((value, length)) => {
            let spelled = tell::hexadecimal(alloc, &value.to_vec(alloc)?)?;
            Ok(format!(in alloc; "ok {spelled} {length}")?)
        }
        Err(error) => tell::unread(alloc, &error),
    }
}

/// Returns the item that the bytes encode, or `none`.
///
/// # Errors
/// - A fault in a word that isn't hexadecimal.
/// - `OutOfMemory` if an allocation fails.
pub fn decode(alloc: Global, words: &Words<'_>) -> Result<String> {
    let bytes = words.bytes(alloc, 1)?;
    mark::begin(alloc);
    let answer = decode_unbounded(alloc, &bytes);
    mark::end(alloc);
    match answer {
        Ok(Some(value)) => tell::value(alloc, Ok(value)),
        Ok(None) => tell::none(alloc),
        Err(error) => tell::refused(alloc, CoseError::from(error)),
    }
}

/// Returns the length of the item at the front of the bytes.
///
/// # Errors
/// - A fault in a word that isn't hexadecimal.
/// - `OutOfMemory` if an allocation fails.
pub fn check_front(alloc: Global, words: &Words<'_>) -> Result<String> {
    let bytes = words.bytes(alloc, 1)?;
    mark::begin(alloc);
    let answer = check_counted::<Brand>(&bytes, Blank::new(1));
    mark::end(alloc);
    tell_length(alloc, answer)
}

/// Returns the same length as [`check_front`], without a counter.
///
/// # Errors
/// - A fault in a word that isn't hexadecimal.
/// - `OutOfMemory` if an allocation fails.
pub fn front(alloc: Global, words: &Words<'_>) -> Result<String> {
    let bytes = words.bytes(alloc, 1)?;
    mark::begin(alloc);
    let answer = item_length(&bytes);
    mark::end(alloc);
    tell_length(alloc, answer)
}

/// Returns the length, or the error's text.
fn tell_length(
    alloc: Global,
    answer: std::result::Result<usize, Error<EndOfFile>>,
) -> Result<String> {
    match answer {
        Ok(length) => Ok(format!(in alloc; "ok {length}")?),
        Err(error) => tell::unread(alloc, &error),
    }
}

/// Checks the bytes with a counter of its own.
fn check_counted<L: Ledger>(
    bytes: &[u8],
    blank: Blank,
) -> std::result::Result<usize, Error<EndOfFile>>
    requires name { blank.name ≡ L.name }
    requires parts { blank.parts ≡ L.parts }
    requires some { 0 < L.parts }
{
    let mut steps = Steps::<L>::new(blank);
    check_nested(bytes, &mut steps)
}

/// Checks the bytes. For n nested arrays of one element each, around an empty array, this takes n +
/// 1 steps.
fn check_nested<L: Ledger>(
    bytes: &[u8],
    steps: &mut Steps<L>,
) -> std::result::Result<usize, Error<EndOfFile>>
    ensures { (n : ℕ) → n < 256 → bytes.now ≡ replicate n 0x81 ++ 0x80 ∷ []
        → (result ≡ Ok (n + 1)) × (steps.new ≡ steps.old + (n + 1)) }
{
    laws::one_item();
    laws::nested_arrays_cost();
    check(bytes, steps)
}
