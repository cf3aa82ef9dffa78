//! UTF-16 (RFC 2781) with a byte order mark.

ghost use Rattle.std.specs.Prelude.{◌∷◌, ◌≡◌, IfOk, IfSome};
ghost use Rattle.tool_spelled.specs.Utf16.{AreCharacters, IsCharacter, IsUtf16};

use crate::part::behind_byte;
use std::alloc::{AllocError, Global};

/// Returns the character of two bytes, or `None` if it isn't ASCII.
fn character(is_big: bool, first: u8, second: u8) -> Option<u8>
    ensures { IfSome result (IsCharacter is_big first second) }
{
    let (high, low) = if is_big {
        (first, second)
    } else {
        (second, first)
    };
    if high == 0 && low < 128 {
        Some(low)
    } else {
        None
    }
}

/// Returns the characters of the bytes, or `None` if one of them isn't ASCII.
fn characters(alloc: Global, is_big: bool, bytes: &[u8]) -> Result<Option<Vec<u8>>, AllocError>
    ensures { IfOk result (λ o. IfSome o (λ t. AreCharacters is_big bytes.now t.items)) }
{
    let mut text = Vec::new(alloc);
    let mut left = bytes;
    while let Some((first, behind)) = left.split_first() {
        let Some((second, rest)) = behind.split_first() else {
            return Ok(None);
        };
        match character(is_big, *first, *second) {
            Some(character) => text.push(character)?,
            None => return Ok(None),
        }
        left = rest;
    }
    Ok(Some(text))
}

/// Returns the bytes after a byte order mark of these two bytes.
fn behind_mark(input: &[u8], first: u8, second: u8) -> Option<&[u8]>
    ensures { IfSome result (λ t. input.now ≡ first ∷ second ∷ t.now) }
{
    let behind = behind_byte(input, first)?;
    behind_byte(behind, second)
}

/// Returns the text of an input in UTF-16 with a byte order mark. Returns `None` for another
/// input, or if a character isn't ASCII.
///
/// # Errors
/// `AllocError` if an allocation fails.
pub(crate) fn text(alloc: Global, input: &[u8]) -> Result<Option<Vec<u8>>, AllocError>
    ensures { IfOk result (λ o. IfSome o (λ t. IsUtf16 input.now t.items)) }
{
    if let Some(bytes) = behind_mark(input, 0xff, 0xfe) {
        characters(alloc, false, bytes)
    } else if let Some(bytes) = behind_mark(input, 0xfe, 0xff) {
        characters(alloc, true, bytes)
    } else {
        Ok(None)
    }
}
