//! Decodes items into values (RFC 8949, section 3).

ghost use Rattle.std.specs.Prelude.{◌≡◌, map, length, negsuc};
ghost use Rattle.coset_value.specs.View.{value_item, value_pair};
ghost use Rattle.coset_cbor.specs.Heads.{Fits};
ghost use Rattle.coset_cbor.specs.Reading.{Returns, ReturnsUnlessMemory, argument_from, times_at, until_at, pair_at, array_by, map_by, simple_at, item_at};

use crate::fault::{Fault, ReadError};
use crate::head::{Head, MajorType, head_of};
use crate::string::{after_break, byte_string, text_string};
use coset_value::{Float, Integer, Value};
use std::alloc::Global;

/// The most elements or pairs that are reserved at once, whatever the head announces.
const MAX_RESERVED: u64 = 16;

/// Returns the integer -1 - `n`.
pub(crate) fn negative_integer(n: u64) -> Integer
    ensures { result ≡ negsuc n }
{
    Integer::try_from(-1 - i128::from(n)).unwrap()
}

/// Decodes a simple value or a float. `left` counts the bytes from the start of its head.
pub(crate) fn simple_value(
    left: usize,
    info: u8,
    number: u64,
    bytes: &[u8],
) -> Result<(Value, &[u8]), Fault>
    requires { Fits info number }
    ensures { Returns (λ x. (value_item x.0, x.1.now)) result
        (simple_at left (argument_from info number) bytes.now) }
{
    match info {
        0..=23 => match number {
            20 => Ok((Value::Bool(false), bytes)),
            21 => Ok((Value::Bool(true), bytes)),
            22 => Ok((Value::Null, bytes)),
            _ => Err(Fault::Simple(left)),
        },
        24 => {
            if number < 32 {
                Err(Fault::Syntax(left))
            } else {
                Err(Fault::Simple(left))
            }
        }
        25 => Ok((Value::Float(Float::Half(number as u16)), bytes)),
        26 => Ok((Value::Float(Float::Single(number as u32)), bytes)),
        27 => Ok((Value::Float(Float::Double(number)), bytes)),
        _ => Err(Fault::Syntax(left)),
    }
}

/// Decodes an item in which arrays, maps and tags nest at most `depth` deep. Returns its value and
/// the bytes after it.
#[cycle(item)]
#[tactic(auto, unfolding(crate::specs::Reading::item_at, crate::specs::Reading::nothing, crate::specs::Reading::things))]
pub(crate) fn item(alloc: Global, bytes: &[u8], depth: usize) -> Result<(Value, &[u8]), ReadError>
    ensures { ReturnsUnlessMemory (λ x. (value_item x.0, x.1.now)) result (item_at depth bytes.now) }
{
    let left = bytes.len();
    let (head, rest) = head_of(bytes)?;
    let number = head.number();
    match head.major_type {
        MajorType::Unsigned => {
            let n = number.ok_or(ReadError::Fault(Fault::Syntax(left)))?;
            Ok((Value::Integer(Integer::from(n)), rest))
        }
        MajorType::Negative => {
            let n = number.ok_or(ReadError::Fault(Fault::Syntax(left)))?;
            Ok((Value::Integer(negative_integer(n)), rest))
        }
        MajorType::Bytes => {
            let (found, rest) = byte_string(alloc, left, number, rest)?;
            Ok((Value::Bytes(found), rest))
        }
        MajorType::Text => {
            let (found, rest) = text_string(alloc, left, number, rest)?;
            Ok((Value::Text(found), rest))
        }
        MajorType::Array => {
            if depth == 0 {
                return Err(ReadError::Fault(Fault::Deep));
            }
            let (items, rest) = array(alloc, number, rest, depth - 1)?;
            Ok((Value::Array(items), rest))
        }
        MajorType::Map => {
            if depth == 0 {
                return Err(ReadError::Fault(Fault::Deep));
            }
            let (pairs, rest) = map(alloc, number, rest, depth - 1)?;
            Ok((Value::Map(pairs), rest))
        }
        MajorType::Tag => {
            let n = number.ok_or(ReadError::Fault(Fault::Syntax(left)))?;
            if depth == 0 {
                return Err(ReadError::Fault(Fault::Deep));
            }
            let (inside, rest) = item(alloc, rest, depth - 1)?;
            Ok((Value::Tag(n, Box::new(alloc, inside)?), rest))
        }
        MajorType::Simple => Ok(simple_value(left, head.info, head.number, rest)?),
    }
}

/// Decodes the elements of an array: `count` of them, or those up to the break if `count` is
/// `None`.
#[cycle(item)]
fn array(
    alloc: Global,
    count: Option<u64>,
    bytes: &[u8],
    depth: usize,
) -> Result<(Vec<Value>, &[u8]), ReadError>
    ensures { ReturnsUnlessMemory (λ x. (map value_item x.0.items, x.1.now)) result
        (array_by (item_at depth) count bytes.now) }
{
    match count {
        Some(count) if (bytes.len() as u64) < count => Err(ReadError::Fault(Fault::End)),
        Some(count) => items(alloc, count, bytes, depth),
        None => items_until(alloc, bytes, depth),
    }
}

/// Decodes the pairs of a map: `count` of them, or those up to the break if `count` is `None`.
#[cycle(item)]
fn map(
    alloc: Global,
    count: Option<u64>,
    bytes: &[u8],
    depth: usize,
) -> Result<(Vec<(Value, Value)>, &[u8]), ReadError>
    ensures { ReturnsUnlessMemory (λ x. (map value_pair x.0.items, x.1.now)) result
        (map_by (item_at depth) count bytes.now) }
{
    match count {
        Some(count) if (bytes.len() as u64) / 2 < count => Err(ReadError::Fault(Fault::End)),
        Some(count) => pairs(alloc, count, bytes, depth),
        None => pairs_until(alloc, bytes, depth),
    }
}

/// Decodes `count` items.
#[cycle(item)]
fn items(
    alloc: Global,
    count: u64,
    bytes: &[u8],
    depth: usize,
) -> Result<(Vec<Value>, &[u8]), ReadError>
    ensures { ReturnsUnlessMemory (λ x. (map value_item x.0.items, x.1.now)) result
        (times_at (item_at depth) count bytes.now) }
{
    let mut found = Vec::with_capacity(alloc, count.min(MAX_RESERVED) as usize)?;
    let mut rest = bytes;
    for _ in 0..count {
        let (value, after) = item(alloc, rest, depth)?;
        found.push(value)?;
        rest = after;
    }
    Ok((found, rest))
}

/// Decodes items up to the break. Each item takes at least one byte, so `bytes.len()` turns are
/// enough.
#[cycle(item)]
fn items_until(alloc: Global, bytes: &[u8], depth: usize) -> Result<(Vec<Value>, &[u8]), ReadError>
    ensures { ReturnsUnlessMemory (λ x. (map value_item x.0.items, x.1.now)) result
        (until_at (item_at depth) (length bytes.now) bytes.now) }
{
    let mut found = Vec::new(alloc);
    let mut rest = bytes;
    for _ in 0..bytes.len() {
        if let Some(end) = after_break(rest) {
            return Ok((found, end));
        }
        let (value, after) = item(alloc, rest, depth)?;
        found.push(value)?;
        rest = after;
    }
    Err(ReadError::Fault(Fault::End))
}

/// Decodes a key and its value.
#[cycle(item)]
fn pair(alloc: Global, bytes: &[u8], depth: usize) -> Result<((Value, Value), &[u8]), ReadError>
    ensures { ReturnsUnlessMemory (λ x. (value_pair x.0, x.1.now)) result
        (pair_at (item_at depth) bytes.now) }
{
    let (key, rest) = item(alloc, bytes, depth)?;
    let (value, rest) = item(alloc, rest, depth)?;
    Ok(((key, value), rest))
}

/// Decodes `count` pairs.
#[cycle(item)]
fn pairs(
    alloc: Global,
    count: u64,
    bytes: &[u8],
    depth: usize,
) -> Result<(Vec<(Value, Value)>, &[u8]), ReadError>
    ensures { ReturnsUnlessMemory (λ x. (map value_pair x.0.items, x.1.now)) result
        (times_at (pair_at (item_at depth)) count bytes.now) }
{
    let mut found = Vec::with_capacity(alloc, count.min(MAX_RESERVED) as usize)?;
    let mut rest = bytes;
    for _ in 0..count {
        let (both, after) = pair(alloc, rest, depth)?;
        found.push(both)?;
        rest = after;
    }
    Ok((found, rest))
}

/// Decodes pairs up to the break.
#[cycle(item)]
fn pairs_until(
    alloc: Global,
    bytes: &[u8],
    depth: usize,
) -> Result<(Vec<(Value, Value)>, &[u8]), ReadError>
    ensures { ReturnsUnlessMemory (λ x. (map value_pair x.0.items, x.1.now)) result
        (until_at (pair_at (item_at depth)) (length bytes.now) bytes.now) }
{
    let mut found = Vec::new(alloc);
    let mut rest = bytes;
    for _ in 0..bytes.len() {
        if let Some(end) = after_break(rest) {
            return Ok((found, end));
        }
        let (both, after) = pair(alloc, rest, depth)?;
        found.push(both)?;
        rest = after;
    }
    Err(ReadError::Fault(Fault::End))
}
