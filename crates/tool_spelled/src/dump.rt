//! Dumps of `xxd`, `hexdump -C` and `od -t x1`.

ghost use Rattle.std.specs.Prelude.{◌≡◌, ◌≤◌, ◌<◌, ◌+◌, ◌++◌, ◌⊎◌};
ghost use Rattle.std.specs.Prelude.{IfErr, IfOk, List, true, ℕ, length};
ghost use Rattle.tool_spelled.specs.Dump.{BeginsDump, IsAt, IsDump, IsLine, after_line, is_blank};
ghost use Rattle.tool_spelled.specs.Pieces.{ArePieces};
ghost use Rattle.tool_spelled.specs.Spelled.{IsWithin};
ghost use Rattle.tool_spelled.specs.declared.pieces.Format.TheVariants.{Hexadecimal};

use crate::layout::{self, agrees};
use crate::number::number;
use crate::part::{before, is_space};
use crate::pieces::{self, Format};
use crate::read::{Misspelled, Why};
use std::alloc::{AllocError, Global};

/// A line of a dump, and the text after it.
#[derive(Clone, Copy)]
struct Line<'a> {
    /// The digits of the offset.
    offset: &'a [u8],
    /// The digits of the bytes, with the characters between them.
    fields: &'a [u8],
    /// The text beside the bytes.
    side: &'a [u8],
    /// The text after the line.
    rest: &'a [u8],
}

/// Returns true if the character is white space.
fn is_blank(byte: u8) -> bool
    ensures { result ≡ is_blank byte }
{
    matches!(byte, b'\t' | b'\n' | 0x0c | b'\r' | b' ')
}

/// Returns the text after the first line.
fn after_line(text: &[u8]) -> &[u8]
    ensures value { result.now ≡ after_line text.now }
    ensures rest { (line : List ℕ) × (text.now ≡ line ++ result.now) }
    ensures shorter { 0 < length text.now → length result.now < length text.now }
{
    let mut left = text;
    while let Some((first, rest)) = left.split_first() {
        if *first == b'\n' {
            return rest;
        }
        left = rest;
    }
    left
}

/// Returns the first line of the text, in its parts.
fn line_of(text: &[u8]) -> Line<'_>
    ensures { IsLine text.now result }
{
    let (offset, behind) = text.split_at(layout::offset_length(text).min(text.len()));
    let rest = after_line(behind);
    let line = before(behind, rest);
    let (fields, side) = line.split_at(layout::fields_length(line).min(line.len()));
    Line {
        offset,
        fields,
        side,
        rest,
    }
}

/// Returns true if these digits of the radix are the offset after `count` bytes.
fn is_next(radix: u32, first: u64, count: usize, digits: &[u8]) -> bool
    requires { (2 ≤ radix) × (radix ≤ 36) }
    ensures { result ≡ true → IsAt radix (first + count) digits.now }
{
    match (first.checked_add(count as u64), number(radix, digits)) {
        (Some(wanted), Some(offset)) => !digits.is_empty() && offset == wanted,
        _ => false,
    }
}

/// Returns the bytes of a line, or where it is misspelled.
fn line_bytes(alloc: Global, line: &Line<'_>) -> Result<Result<Vec<u8>, Misspelled>, AllocError>
    ensures spelled { IfOk result (λ r. IfOk r (λ bytes.
        ArePieces Hexadecimal line.now.fields.now bytes.items)) }
    ensures within { IfOk result (λ r. IfErr r (λ m.
        m.0 ≤ length line.now.offset.now + length line.now.fields.now)) }
{
    let start = line.offset.len();
    match pieces::bytes(alloc, Format::Hexadecimal, line.fields)? {
        Ok(bytes) => {
            if agrees(line.side, &bytes) {
                Ok(Ok(bytes))
            } else {
                Ok(Err(Misspelled(start + line.fields.len(), Why::Side)))
            }
        }
        Err(Misspelled(offset, why)) => Ok(Err(Misspelled(start + offset, why))),
    }
}

/// Returns the bytes of the first line and the text after it, or where the line is misspelled. Its
/// offset must be `first` plus `count`.
fn next_line(
    alloc: Global,
    radix: u32,
    first: u64,
    count: usize,
    text: &[u8],
) -> Result<Result<(Vec<u8>, &[u8]), Misspelled>, AllocError>
    requires radix { (2 ≤ radix) × (radix ≤ 36) }
    requires text { 0 < length text.now }
    ensures spelled { IfOk result (λ r. IfOk r (λ p.
        BeginsDump radix (first + count) text.now p.0.items p.1.now)) }
    ensures within { IfOk result (λ r. IfErr r (IsWithin text.now)) }
{
    let line = line_of(text);
    if !is_next(radix, first, count, line.offset) {
        return Ok(Err(Misspelled(0, Why::Offset)));
    }
    match line_bytes(alloc, &line)? {
        Ok(bytes) => Ok(Ok((bytes, line.rest))),
        Err(misspelled) => Ok(Err(misspelled)),
    }
}

/// Returns the bytes of the lines, whose offsets have this radix, or where they are misspelled.
fn lines(alloc: Global, radix: u32, text: &[u8]) -> Result<Result<Vec<u8>, Misspelled>, AllocError>
    requires { (2 ≤ radix) × (radix ≤ 36) }
    ensures spelled { IfOk result (λ r. IfOk r (λ bytes.
        (first : ℕ) × IsDump radix first text.now bytes.items)) }
    ensures within { IfOk result (λ r. IfErr r (IsWithin text.now)) }
{
    let first = number(radix, line_of(text).offset).unwrap_or(0);
    let mut bytes = Vec::new(alloc);
    let mut left = text;
    while let Some((character, behind)) = left.split_first() {
        if is_blank(*character) {
            left = behind;
        } else {
            match next_line(alloc, radix, first, bytes.len(), left)? {
                Ok((more, rest)) => {
                    bytes.extend_from_slice(&more)?;
                    left = rest;
                }
                Err(Misspelled(offset, why)) => {
                    let place = text.len() - left.len() + offset;
                    return Ok(Err(Misspelled(place, why)));
                }
            }
        }
    }
    Ok(Ok(bytes))
}

/// Returns the fault that is further on.
fn furthest(first: Misspelled, second: Misspelled) -> Misspelled
    ensures { (result ≡ first) ⊎ (result ≡ second) }
{
    if first.0 < second.0 { second } else { first }
}

/// Returns the bytes of a dump, or where it is misspelled. The offsets are hexadecimal, octal or
/// decimal.
///
/// # Errors
/// `AllocError` if an allocation fails.
pub(crate) fn bytes(alloc: Global, text: &[u8]) -> Result<Result<Vec<u8>, Misspelled>, AllocError>
    ensures spelled { IfOk result (λ r. IfOk r (λ bytes.
        (radix : ℕ) × (first : ℕ) × IsDump radix first text.now bytes.items)) }
    ensures within { IfOk result (λ r. IfErr r (IsWithin text.now)) }
{
    if let Some(why) = layout::refusal(text) {
        return Ok(Err(Misspelled(0, why)));
    }
    let hexadecimal = match lines(alloc, 16, text)? {
        Ok(bytes) => return Ok(Ok(bytes)),
        Err(fault) => fault,
    };
    let octal = match lines(alloc, 8, text)? {
        Ok(bytes) => return Ok(Ok(bytes)),
        Err(fault) => fault,
    };
    match lines(alloc, 10, text)? {
        Ok(bytes) => Ok(Ok(bytes)),
        Err(decimal) => Ok(Err(furthest(hexadecimal, furthest(octal, decimal)))),
    }
}
