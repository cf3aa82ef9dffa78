//! The check: skips an item without making a value of it.

ghost use Rattle.std.specs.Prelude.{◌≡◌, ◌+◌, length, drop, true, false, MatchOption};
ghost use Rattle.coset_cbor.specs.Reading.{Returns, head_at, begins_break, string_at, chunk_at, begins_chunk, any_string_by, simple_at, argument_from, head_from, times_at, until_at, pair_at, array_by, map_by, item_at};
ghost use Rattle.coset_cbor.specs.Counting.{SkipsAsRead, SkipsAsReadTo, after, content_steps, chunk_steps, string_steps, times_steps, until_steps, pair_steps, array_steps, map_steps, item_steps};

use crate::fault::{Fault, end, syntax};
use crate::head::{Head, MajorType, head_of};
use crate::steps::Steps;
use crate::string::{after_break, bytes_at, is_text};
use std::sync::ledger::Ledger;

/// Reads the head at the start and counts one step. Returns the head and the bytes after it.
#[inline(always)]
fn start<'a, L: Ledger>(bytes: &'a [u8], steps: &mut Steps<L>) -> Result<(Head, &'a [u8]), Fault>
    ensures head { Returns (λ x. (head_from x.0, x.1.now)) result (head_at bytes.now) }
    ensures steps { steps.new ≡ steps.old + after (head_at bytes.now) (λ _. 1) }
{
    let found = head_of(bytes)?;
    steps.tick();
    Ok(found)
}

/// Returns the bytes after the break and counts one step, or returns `None` if the break is not at
/// the start.
#[inline(always)]
fn skip_break<'a, L: Ledger>(bytes: &'a [u8], steps: &mut Steps<L>) -> Option<&'a [u8]>
    ensures { MatchOption result ((begins_break bytes.now ≡ false) × (steps.new ≡ steps.old))
        (λ rest. (begins_break bytes.now ≡ true) × (rest.now ≡ drop 1 bytes.now)
        × (steps.new ≡ steps.old + 1)) }
{
    let rest = after_break(bytes)?;
    steps.tick();
    Some(rest)
}

/// Skips the content of a definite-length byte string.
#[tactic(auto, unfolding(crate::specs::Reading::string_at))]
#[inline(always)]
fn byte_content(left: usize, count: u64, bytes: &[u8]) -> Result<&[u8], Fault>
    ensures { SkipsAsRead result (string_at false left count bytes.now) }
{
    let (_, rest) = bytes_at(left, count, bytes)?;
    Ok(rest)
}

/// Checks and skips the content of a definite-length text string. Each byte is a step.
#[tactic(auto, unfolding(crate::specs::Reading::string_at, crate::specs::Counting::content_steps))]
#[inline(always)]
fn text_content<'a, L: Ledger>(
    left: usize,
    count: u64,
    bytes: &'a [u8],
    steps: &mut Steps<L>,
) -> Result<&'a [u8], Fault>
    ensures left { SkipsAsRead result (string_at true left count bytes.now) }
    ensures steps { steps.new ≡ steps.old + content_steps true left count bytes.now }
{
    if (bytes.len() as u64) < count {
        return Err(end());
    }
    let (front, rest) = bytes.split_at(count as usize);
    if !is_text(front) {
        return Err(syntax(left));
    }
    for _ in 0..front.len() {
        steps.tick();
    }
    Ok(rest)
}

/// Skips the content of a definite-length string.
#[inline(always)]
fn content<'a, L: Ledger>(
    is_text: bool,
    left: usize,
    count: u64,
    bytes: &'a [u8],
    steps: &mut Steps<L>,
) -> Result<&'a [u8], Fault>
    ensures left { SkipsAsRead result (string_at is_text left count bytes.now) }
    ensures steps { steps.new ≡ steps.old + content_steps is_text left count bytes.now }
{
    if is_text {
        text_content(left, count, bytes, steps)
    } else {
        byte_content(left, count, bytes)
    }
}

/// Returns true if a head of this major type begins a chunk of the string.
#[inline(always)]
pub(crate) fn begins_chunk(is_text: bool, major_type: MajorType) -> bool
    ensures { result ≡ begins_chunk is_text major_type }
{
    match major_type {
        MajorType::Bytes => !is_text,
        MajorType::Text => is_text,
        _ => false,
    }
}

/// Skips a chunk, which is a definite-length string.
#[tactic(auto, unfolding(crate::specs::Reading::chunk_at, crate::specs::Counting::chunk_steps))]
fn chunk<'a, L: Ledger>(
    is_text: bool,
    bytes: &'a [u8],
    steps: &mut Steps<L>,
) -> Result<&'a [u8], Fault>
    ensures left { SkipsAsRead result (chunk_at is_text bytes.now) }
    ensures steps { steps.new ≡ steps.old + chunk_steps is_text bytes.now }
{
    let (head, rest) = start(bytes, steps)?;
    if !begins_chunk(is_text, head.major_type) {
        return Err(Fault::Syntax(bytes.len()));
    }
    match head.number() {
        Some(count) => content(is_text, bytes.len(), count, rest, steps),
        None => Err(Fault::Syntax(bytes.len())),
    }
}

/// Skips chunks and the break after them.
#[inline(always)]
fn chunks_here<'a, L: Ledger>(
    is_text: bool,
    bytes: &'a [u8],
    steps: &mut Steps<L>,
) -> Result<&'a [u8], Fault>
    ensures left { SkipsAsRead result (until_at (chunk_at is_text) (length bytes.now) bytes.now) }
    ensures steps { steps.new ≡ steps.old
        + until_steps (chunk_at is_text) (chunk_steps is_text) (length bytes.now) bytes.now }
{
    let mut rest = bytes;
    for _ in 0..bytes.len() {
        if let Some(end) = skip_break(rest, steps) {
            return Ok(end);
        }
        rest = chunk(is_text, rest, steps)?;
    }
    Err(Fault::End)
}

/// Skips chunks and the break after them, out of line. A fault goes into `fault`, so the result
/// fits in registers. The returned bytes are valid only if `fault` is `None`.
#[inline(never)]
fn chunks_apart<'a, L: Ledger>(
    is_text: bool,
    bytes: &'a [u8],
    steps: &mut Steps<L>,
    fault: &mut Option<Fault>,
) -> &'a [u8]
    ensures left { SkipsAsReadTo fault.new result.now
        (until_at (chunk_at is_text) (length bytes.now) bytes.now) }
    ensures steps { steps.new ≡ steps.old
        + until_steps (chunk_at is_text) (chunk_steps is_text) (length bytes.now) bytes.now }
{
    match chunks_here(is_text, bytes, steps) {
        Ok(rest) => {
            *fault = None;
            rest
        }
        Err(found) => {
            *fault = Some(found);
            bytes
        }
    }
}

/// Skips chunks and the break after them.
#[inline(always)]
fn chunks<'a, L: Ledger>(
    is_text: bool,
    bytes: &'a [u8],
    steps: &mut Steps<L>,
) -> Result<&'a [u8], Fault>
    ensures left { SkipsAsRead result (until_at (chunk_at is_text) (length bytes.now) bytes.now) }
    ensures steps { steps.new ≡ steps.old
        + until_steps (chunk_at is_text) (chunk_steps is_text) (length bytes.now) bytes.now }
{
    let mut fault = None;
    let rest = chunks_apart(is_text, bytes, steps, &mut fault);
    match fault {
        None => Ok(rest),
        Some(fault) => Err(fault),
    }
}

/// Skips the content of a string: `count` bytes, or chunks if `count` is `None`.
#[inline(always)]
fn string<'a, L: Ledger>(
    is_text: bool,
    left: usize,
    count: Option<u64>,
    bytes: &'a [u8],
    steps: &mut Steps<L>,
) -> Result<&'a [u8], Fault>
    ensures left { SkipsAsRead result (any_string_by is_text left count bytes.now) }
    ensures steps { steps.new ≡ steps.old + string_steps is_text left count bytes.now }
{
    match count {
        Some(count) => content(is_text, left, count, bytes, steps),
        None => chunks(is_text, bytes, steps),
    }
}

/// Returns the bytes after `false`, `true`, `null` or a float. Any other simple value is a fault,
/// and so is the break.
#[inline(always)]
fn simple_value(left: usize, info: u8, number: u64, bytes: &[u8]) -> Result<&[u8], Fault>
    ensures { SkipsAsRead result (simple_at left (argument_from info number) bytes.now) }
{
    match info {
        0..=23 => match number {
            20..=22 => Ok(bytes),
            _ => Err(Fault::Simple(left)),
        },
        24 => {
            if number < 32 {
                Err(Fault::Syntax(left))
            } else {
                Err(Fault::Simple(left))
            }
        }
        25..=27 => Ok(bytes),
        _ => Err(Fault::Syntax(left)),
    }
}

/// Skips an item in which arrays, maps and tags nest at most `depth` deep.
#[cycle(check)]
#[tactic(auto, unfolding(crate::specs::Reading::item_at, crate::specs::Reading::nothing, crate::specs::Reading::things, crate::specs::Counting::item_steps, crate::specs::Counting::no_steps, crate::specs::Counting::steps_of))]
#[inline(always)]
pub(crate) fn item<'a, L: Ledger>(
    bytes: &'a [u8],
    depth: u32,
    steps: &mut Steps<L>,
) -> Result<&'a [u8], Fault>
    ensures left { SkipsAsRead result (item_at depth bytes.now) }
    ensures steps { steps.new ≡ steps.old + item_steps depth bytes.now }
{
    let left = bytes.len();
    let (head, rest) = start(bytes, steps)?;
    match head.major_type {
        MajorType::Unsigned | MajorType::Negative => match head.number() {
            Some(_) => Ok(rest),
            None => Err(syntax(left)),
        },
        MajorType::Bytes => string(false, left, head.number(), rest, steps),
        MajorType::Text => string(true, left, head.number(), rest, steps),
        MajorType::Array => {
            if depth == 0 {
                return Err(Fault::Deep);
            }
            array(head.number(), rest, depth - 1, steps)
        }
        MajorType::Map => {
            if depth == 0 {
                return Err(Fault::Deep);
            }
            map(head.number(), rest, depth - 1, steps)
        }
        MajorType::Tag => {
            if head.number().is_none() {
                return Err(syntax(left));
            }
            if depth == 0 {
                return Err(Fault::Deep);
            }
            enclosed_item(rest, depth - 1, steps)
        }
        MajorType::Simple => simple_value(left, head.info, head.number, rest),
    }
}

/// Skips the item that a tag encloses, out of line. A fault goes into `fault`, so the result fits
/// in registers. The returned bytes are valid only if `fault` is `None`.
#[cycle(check)]
#[inline(never)]
fn enclosed_item_apart<'a, L: Ledger>(
    bytes: &'a [u8],
    depth: u32,
    steps: &mut Steps<L>,
    fault: &mut Option<Fault>,
) -> &'a [u8]
    ensures left { SkipsAsReadTo fault.new result.now (item_at depth bytes.now) }
    ensures steps { steps.new ≡ steps.old + item_steps depth bytes.now }
{
    match item(bytes, depth, steps) {
        Ok(rest) => {
            *fault = None;
            rest
        }
        Err(found) => {
            *fault = Some(found);
            bytes
        }
    }
}

/// Skips the item that a tag encloses.
#[cycle(check)]
#[inline(always)]
fn enclosed_item<'a, L: Ledger>(
    bytes: &'a [u8],
    depth: u32,
    steps: &mut Steps<L>,
) -> Result<&'a [u8], Fault>
    ensures left { SkipsAsRead result (item_at depth bytes.now) }
    ensures steps { steps.new ≡ steps.old + item_steps depth bytes.now }
{
    let mut fault = None;
    let rest = enclosed_item_apart(bytes, depth, steps, &mut fault);
    match fault {
        None => Ok(rest),
        Some(fault) => Err(fault),
    }
}

/// Skips the elements of an array, out of line: `count` of them, or those up to the break if
/// `count` is `None`. A fault goes into `fault`, so the result fits in registers. The returned
/// bytes are valid only if `fault` is `None`.
#[cycle(check)]
#[inline(never)]
fn array_apart<'a, L: Ledger>(
    count: Option<u64>,
    bytes: &'a [u8],
    depth: u32,
    steps: &mut Steps<L>,
    fault: &mut Option<Fault>,
) -> &'a [u8]
    ensures left { SkipsAsReadTo fault.new result.now (array_by (item_at depth) count bytes.now) }
    ensures steps { steps.new ≡ steps.old
        + array_steps (item_at depth) (item_steps depth) count bytes.now }
{
    match array_here(count, bytes, depth, steps) {
        Ok(rest) => {
            *fault = None;
            rest
        }
        Err(found) => {
            *fault = Some(found);
            bytes
        }
    }
}

/// Skips the elements of an array: `count` of them, or those up to the break if `count` is `None`.
#[cycle(check)]
#[inline(always)]
fn array<'a, L: Ledger>(
    count: Option<u64>,
    bytes: &'a [u8],
    depth: u32,
    steps: &mut Steps<L>,
) -> Result<&'a [u8], Fault>
    ensures left { SkipsAsRead result (array_by (item_at depth) count bytes.now) }
    ensures steps { steps.new ≡ steps.old
        + array_steps (item_at depth) (item_steps depth) count bytes.now }
{
    let mut fault = None;
    let rest = array_apart(count, bytes, depth, steps, &mut fault);
    match fault {
        None => Ok(rest),
        Some(fault) => Err(fault),
    }
}

/// Skips the pairs of a map, out of line: `count` of them, or those up to the break if `count` is
/// `None`. A fault goes into `fault`, so the result fits in registers. The returned bytes are valid
/// only if `fault` is `None`.
#[cycle(check)]
#[inline(never)]
fn map_apart<'a, L: Ledger>(
    count: Option<u64>,
    bytes: &'a [u8],
    depth: u32,
    steps: &mut Steps<L>,
    fault: &mut Option<Fault>,
) -> &'a [u8]
    ensures left { SkipsAsReadTo fault.new result.now (map_by (item_at depth) count bytes.now) }
    ensures steps { steps.new ≡ steps.old
        + map_steps (item_at depth) (item_steps depth) count bytes.now }
{
    match map_here(count, bytes, depth, steps) {
        Ok(rest) => {
            *fault = None;
            rest
        }
        Err(found) => {
            *fault = Some(found);
            bytes
        }
    }
}

/// Skips the pairs of a map: `count` of them, or those up to the break if `count` is `None`.
#[cycle(check)]
#[inline(always)]
fn map<'a, L: Ledger>(
    count: Option<u64>,
    bytes: &'a [u8],
    depth: u32,
    steps: &mut Steps<L>,
) -> Result<&'a [u8], Fault>
    ensures left { SkipsAsRead result (map_by (item_at depth) count bytes.now) }
    ensures steps { steps.new ≡ steps.old
        + map_steps (item_at depth) (item_steps depth) count bytes.now }
{
    let mut fault = None;
    let rest = map_apart(count, bytes, depth, steps, &mut fault);
    match fault {
        None => Ok(rest),
        Some(fault) => Err(fault),
    }
}

/// Skips the elements of an array: `count` of them, or those up to the break if `count` is `None`.
#[cycle(check)]
#[inline(always)]
fn array_here<'a, L: Ledger>(
    count: Option<u64>,
    bytes: &'a [u8],
    depth: u32,
    steps: &mut Steps<L>,
) -> Result<&'a [u8], Fault>
    ensures left { SkipsAsRead result (array_by (item_at depth) count bytes.now) }
    ensures steps { steps.new ≡ steps.old
        + array_steps (item_at depth) (item_steps depth) count bytes.now }
{
    match count {
        Some(count) if (bytes.len() as u64) < count => Err(Fault::End),
        Some(count) => items(count, bytes, depth, steps),
        None => items_until(bytes, depth, steps),
    }
}

/// Skips the pairs of a map: `count` of them, or those up to the break if `count` is `None`.
#[cycle(check)]
#[inline(always)]
fn map_here<'a, L: Ledger>(
    count: Option<u64>,
    bytes: &'a [u8],
    depth: u32,
    steps: &mut Steps<L>,
) -> Result<&'a [u8], Fault>
    ensures left { SkipsAsRead result (map_by (item_at depth) count bytes.now) }
    ensures steps { steps.new ≡ steps.old
        + map_steps (item_at depth) (item_steps depth) count bytes.now }
{
    match count {
        Some(count) if (bytes.len() as u64) / 2 < count => Err(Fault::End),
        Some(count) => pairs(count, bytes, depth, steps),
        None => pairs_until(bytes, depth, steps),
    }
}

/// Skips `count` items.
#[cycle(check)]
#[inline(always)]
fn items<'a, L: Ledger>(
    count: u64,
    bytes: &'a [u8],
    depth: u32,
    steps: &mut Steps<L>,
) -> Result<&'a [u8], Fault>
    ensures left { SkipsAsRead result (times_at (item_at depth) count bytes.now) }
    ensures steps { steps.new ≡ steps.old
        + times_steps (item_at depth) (item_steps depth) count bytes.now }
{
    let mut rest = bytes;
    for _ in 0..count {
        rest = item(rest, depth, steps)?;
    }
    Ok(rest)
}

/// Skips items and the break after them.
#[cycle(check)]
#[inline(never)]
fn items_until<'a, L: Ledger>(
    bytes: &'a [u8],
    depth: u32,
    steps: &mut Steps<L>,
) -> Result<&'a [u8], Fault>
    ensures left { SkipsAsRead result (until_at (item_at depth) (length bytes.now) bytes.now) }
    ensures steps { steps.new ≡ steps.old
        + until_steps (item_at depth) (item_steps depth) (length bytes.now) bytes.now }
{
    let mut rest = bytes;
    for _ in 0..bytes.len() {
        if let Some(end) = skip_break(rest, steps) {
            return Ok(end);
        }
        rest = item(rest, depth, steps)?;
    }
    Err(Fault::End)
}

/// Skips a key and its value.
#[cycle(check)]
#[inline(always)]
fn pair<'a, L: Ledger>(bytes: &'a [u8], depth: u32, steps: &mut Steps<L>) -> Result<&'a [u8], Fault>
    ensures left { SkipsAsRead result (pair_at (item_at depth) bytes.now) }
    ensures steps { steps.new ≡ steps.old
        + pair_steps (item_at depth) (item_steps depth) bytes.now }
{
    let rest = item(bytes, depth, steps)?;
    item(rest, depth, steps)
}

/// Skips `count` pairs.
#[cycle(check)]
#[inline(always)]
fn pairs<'a, L: Ledger>(
    count: u64,
    bytes: &'a [u8],
    depth: u32,
    steps: &mut Steps<L>,
) -> Result<&'a [u8], Fault>
    ensures left { SkipsAsRead result (times_at (pair_at (item_at depth)) count bytes.now) }
    ensures steps { steps.new ≡ steps.old
        + times_steps (pair_at (item_at depth)) (pair_steps (item_at depth) (item_steps depth))
        count bytes.now }
{
    let mut rest = bytes;
    for _ in 0..count {
        rest = pair(rest, depth, steps)?;
    }
    Ok(rest)
}

/// Skips pairs and the break after them.
#[cycle(check)]
#[inline(never)]
fn pairs_until<'a, L: Ledger>(
    bytes: &'a [u8],
    depth: u32,
    steps: &mut Steps<L>,
) -> Result<&'a [u8], Fault>
    ensures left { SkipsAsRead result
        (until_at (pair_at (item_at depth)) (length bytes.now) bytes.now) }
    ensures steps { steps.new ≡ steps.old
        + until_steps (pair_at (item_at depth)) (pair_steps (item_at depth) (item_steps depth))
        (length bytes.now) bytes.now }
{
    let mut rest = bytes;
    for _ in 0..bytes.len() {
        if let Some(end) = skip_break(rest, steps) {
            return Ok(end);
        }
        rest = pair(rest, depth, steps)?;
    }
    Err(Fault::End)
}
