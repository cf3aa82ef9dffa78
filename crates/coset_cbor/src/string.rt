//! Byte strings and text strings (RFC 8949, sections 3.1 and 3.2.3).

ghost use Rattle.std.specs.Prelude.{◌≡◌, true, false, drop, string_bytes, IsTrue, MatchOption};
ghost use Rattle.std.specs.Str.{is_utf8, IsAscii};
ghost use Rattle.coset_cbor.specs.Reading.{Returns, ReturnsUnlessMemory, string_at, chunk_at, chunks_at, any_string_by, begins_break};

use crate::fault::{Fault, ReadError, end};
use crate::head::{MajorType, head_of};
use std::alloc::Global;

/// Returns the bytes after the break, or `None` if the break is not at the start.
#[inline(always)]
pub(crate) fn after_break(bytes: &[u8]) -> Option<&[u8]>
    ensures { MatchOption result (begins_break bytes.now ≡ false)
        (λ after. (begins_break bytes.now ≡ true) × (after.now ≡ drop 1 bytes.now)) }
{
    match bytes {
        [255, rest @ ..] => Some(rest),
        _ => None,
    }
}

/// Returns the bytes as text, or `None` if they are not UTF-8.
fn text_of(bytes: &[u8]) -> Option<&str>
    ensures { MatchOption result (is_utf8 bytes.now ≡ false)
        (λ s. (s.now ≡ bytes.now) × (is_utf8 bytes.now ≡ true)) }
{
    match std::str::from_utf8(bytes) {
        Ok(text) => Some(text),
        Err(_) => None,
    }
}

/// Returns true if all eight bytes are ASCII.
#[inline(always)]
fn eight_are_ascii(bytes: &[u8; 8]) -> bool
    ensures { IsTrue result → IsAscii bytes.now }
{
    let front = bytes[0] | bytes[1] | bytes[2] | bytes[3];
    let back = bytes[4] | bytes[5] | bytes[6] | bytes[7];
    let all = front | back;
    if 128 <= all {
        return false;
    }
    true
}

/// Returns true if all four bytes are ASCII.
#[inline(always)]
fn four_are_ascii(bytes: &[u8; 4]) -> bool
    ensures { IsTrue result → IsAscii bytes.now }
{
    let all = bytes[0] | bytes[1] | bytes[2] | bytes[3];
    if 128 <= all {
        return false;
    }
    true
}

/// Returns true if all bytes are ASCII, tested one at a time.
#[inline(always)]
fn few_are_ascii(bytes: &[u8]) -> bool
    ensures { IsTrue result → IsAscii bytes.now }
{
    for byte in bytes {
        if 128 <= *byte {
            return false;
        }
    }
    true
}

/// Returns true if all bytes are ASCII, tested eight at a time.
#[inline(always)]
fn is_ascii(bytes: &[u8]) -> bool
    ensures { IsTrue result → IsAscii bytes.now }
{
    let mut rest = bytes;
    while let Some((front, after)) = rest.split_first_chunk::<8>() {
        if !eight_are_ascii(front) {
            return false;
        }
        rest = after;
    }
    match rest.split_first_chunk::<4>() {
        Some((front, after)) => four_are_ascii(front) && few_are_ascii(after),
        None => few_are_ascii(rest),
    }
}

/// Returns true if the bytes are UTF-8. An input of at most 64 bytes is tested for ASCII first.
#[inline(never)]
pub(crate) fn is_text(bytes: &[u8]) -> bool
    ensures { result ≡ is_utf8 bytes.now }
{
    if bytes.len() <= 64 && is_ascii(bytes) {
        return true;
    }
    text_of(bytes).is_some()
}

/// Splits off the first `count` bytes.
#[tactic(auto, unfolding(crate::specs::Reading::string_at))]
#[inline(always)]
pub(crate) fn bytes_at(left: usize, count: u64, bytes: &[u8]) -> Result<(&[u8], &[u8]), Fault>
    ensures { Returns (λ x. (x.0.now, x.1.now)) result (string_at false left count bytes.now) }
{
    if (bytes.len() as u64) < count {
        return Err(end());
    }
    Ok(bytes.split_at(count as usize))
}

/// Splits off the first `count` bytes as text, which must be UTF-8. `left` counts the bytes from
/// the start of the string's head.
#[tactic(auto, unfolding(crate::specs::Reading::string_at))]
#[inline(always)]
pub(crate) fn text_at(left: usize, count: u64, bytes: &[u8]) -> Result<(&str, &[u8]), Fault>
    ensures { Returns (λ x. (x.0.now, x.1.now)) result (string_at true left count bytes.now) }
{
    if (bytes.len() as u64) < count {
        return Err(end());
    }
    let (front, rest) = bytes.split_at(count as usize);
    let text = text_of(front).ok_or(Fault::Syntax(left))?;
    Ok((text, rest))
}

/// Reads a chunk of a byte string: a definite-length byte string.
#[tactic(auto, unfolding(crate::specs::Reading::chunk_at))]
pub(crate) fn byte_chunk(bytes: &[u8]) -> Result<(&[u8], &[u8]), Fault>
    ensures { Returns (λ x. (x.0.now, x.1.now)) result (chunk_at false bytes.now) }
{
    let (head, rest) = head_of(bytes)?;
    match (head.major_type, head.number()) {
        (MajorType::Bytes, Some(count)) => bytes_at(bytes.len(), count, rest),
        _ => Err(Fault::Syntax(bytes.len())),
    }
}

/// Reads a chunk of a text string: a definite-length text string, which is UTF-8 by itself.
#[tactic(auto, unfolding(crate::specs::Reading::chunk_at))]
pub(crate) fn text_chunk(bytes: &[u8]) -> Result<(&str, &[u8]), Fault>
    ensures { Returns (λ x. (x.0.now, x.1.now)) result (chunk_at true bytes.now) }
{
    let (head, rest) = head_of(bytes)?;
    match (head.major_type, head.number()) {
        (MajorType::Text, Some(count)) => text_at(bytes.len(), count, rest),
        _ => Err(Fault::Syntax(bytes.len())),
    }
}

/// Reads chunks up to the break and joins them. Each chunk takes at least one byte, so
/// `bytes.len()` turns are enough.
fn byte_chunks(alloc: Global, bytes: &[u8]) -> Result<(Vec<u8>, &[u8]), ReadError>
    ensures { ReturnsUnlessMemory (λ x. (x.0.items, x.1.now)) result (chunks_at false bytes.now) }
{
    let mut joined = Vec::new(alloc);
    let mut rest = bytes;
    for _ in 0..bytes.len() {
        if let Some(end) = after_break(rest) {
            return Ok((joined, end));
        }
        let (chunk, after) = byte_chunk(rest)?;
        joined.extend_from_slice(chunk)?;
        rest = after;
    }
    Err(ReadError::Fault(Fault::End))
}

/// Reads the chunks of a text string up to the break and joins them.
fn text_chunks(alloc: Global, bytes: &[u8]) -> Result<(String, &[u8]), ReadError>
    ensures { ReturnsUnlessMemory (λ x. (string_bytes x.0, x.1.now)) result
        (chunks_at true bytes.now) }
{
    let mut joined = String::new(alloc);
    let mut rest = bytes;
    for _ in 0..bytes.len() {
        if let Some(end) = after_break(rest) {
            return Ok((joined, end));
        }
        let (chunk, after) = text_chunk(rest)?;
        joined.push_str(chunk)?;
        rest = after;
    }
    Err(ReadError::Fault(Fault::End))
}

/// Reads the content of a byte string: `count` bytes, or chunks if `count` is `None`.
#[inline(always)]
pub(crate) fn byte_string(
    alloc: Global,
    left: usize,
    count: Option<u64>,
    bytes: &[u8],
) -> Result<(Vec<u8>, &[u8]), ReadError>
    ensures { ReturnsUnlessMemory (λ x. (x.0.items, x.1.now)) result
        (any_string_by false left count bytes.now) }
{
    let Some(count) = count else {
        return byte_chunks(alloc, bytes);
    };
    let (found, rest) = bytes_at(left, count, bytes)?;
    Ok((Vec::from_slice(alloc, found)?, rest))
}

/// Reads the content of a text string: `count` bytes, or chunks if `count` is `None`. `left` counts
/// the bytes from the start of the string's head.
#[inline(always)]
pub(crate) fn text_string(
    alloc: Global,
    left: usize,
    count: Option<u64>,
    bytes: &[u8],
) -> Result<(String, &[u8]), ReadError>
    ensures { ReturnsUnlessMemory (λ x. (string_bytes x.0, x.1.now)) result
        (any_string_by true left count bytes.now) }
{
    let Some(count) = count else {
        return text_chunks(alloc, bytes);
    };
    let (found, rest) = text_at(left, count, bytes)?;
    Ok((String::from_str(alloc, found)?, rest))
}
