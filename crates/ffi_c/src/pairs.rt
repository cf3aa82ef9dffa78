//! Many pairs at once, as structs of numbers.

ghost use Rattle.std.specs.Prelude.{◌≡◌, is_some, option_map, MatchOption, IfOk, IfErr};
ghost use Rattle.std.specs.Option.{option_copied};
ghost use Rattle.coset.specs.CoseError.TheVariants.{OutOfMemory};
ghost use Rattle.ffi_query.specs.Labels.{label_view};
ghost use Rattle.ffi_make.specs.Given.{entry_view, pair_view, pairs_view};
ghost use Rattle.ffi_make.specs.PairsMade.{PutsPairs};
ghost use Rattle.ffi_c.specs.PairsGiven.{entry_of, label_of, pair_of, pairs_of, pairs_query, part_at};
ghost use Rattle.ffi_c.specs.Replies.{IsMisuse, Replies};

use crate::lengths::{within, within_pairs};
use crate::numbers::kind_of;
use crate::replies::{misused, reply};
use crate::sign1::{COSET_INT, COSET_TEXT};
use coset::Result;
use ffi_make::{Entry, put_all};
use ffi_query::{Kind, Label, Refusal};
use std::alloc::Global;

/// The value is a byte string.
const COSET_BYTES: u32 = 3;
/// The value is any item, as its encoding.
const COSET_ENCODED: u32 = 4;

/// A label and a value: `coset_pair` of `c/include/coset.h`. Texts, byte strings and encodings are
/// ranges of other bytes.
#[repr(C)]
#[derive(Clone, Copy)]
pub struct Pair {
    /// `COSET_INT` or `COSET_TEXT`.
    pub label_form: u32,
    /// `COSET_INT`, `COSET_TEXT`, `COSET_BYTES` or `COSET_ENCODED`.
    pub value_form: u32,
    /// The label if its form is `COSET_INT`.
    pub label: i64,
    /// The offset of the label's text if its form is `COSET_TEXT`.
    pub label_at: usize,
    /// The length of the label's text.
    pub label_len: usize,
    /// The value if its form is `COSET_INT`.
    pub value: i64,
    /// The offset of the value's bytes if its form is another.
    pub value_at: usize,
    /// The length of the value's bytes.
    pub value_len: usize,
}

/// Returns the `len` bytes from the offset `at`, or `None` if there are fewer.
fn part_at(at: usize, len: usize, bytes: &[u8]) -> Option<&[u8]>
    ensures { option_copied result ≡ part_at at len bytes.now }
{
    if at > bytes.len() {
        return None;
    }
    let (_, rest) = bytes.split_at(at);
    if len > rest.len() {
        return None;
    }
    let (part, _) = rest.split_at(len);
    Some(part)
}

/// Returns the label of a pair, or `None` if the pair isn't valid.
fn label_of(pair: Pair, bytes: &[u8]) -> Option<Label<'_>>
    ensures { option_map label_view result ≡ label_of pair bytes.now }
{
    match pair.label_form {
        COSET_INT => Some(Label::Number(pair.label)),
        COSET_TEXT => match part_at(pair.label_at, pair.label_len, bytes) {
            Some(text) => Some(Label::Text(text)),
            None => None,
        },
        _ => None,
    }
}

/// Returns the value of a pair, or `None` if the pair isn't valid.
fn entry_of(pair: Pair, bytes: &[u8]) -> Option<Entry<'_>>
    ensures { option_map entry_view result ≡ entry_of pair bytes.now }
{
    if pair.value_form == COSET_INT {
        return Some(Entry::Integer(pair.value));
    }
    let Some(part) = part_at(pair.value_at, pair.value_len, bytes) else {
        return None;
    };
    match pair.value_form {
        COSET_TEXT => Some(Entry::Text(part)),
        COSET_BYTES => Some(Entry::Bytes(part)),
        COSET_ENCODED => Some(Entry::Encoded(part)),
        _ => None,
    }
}

/// Returns the label and the value of a pair, or `None` if the pair isn't valid.
fn pair_of(pair: Pair, bytes: &[u8]) -> Option<(Label<'_>, Entry<'_>)>
    ensures { option_map pair_view result ≡ pair_of bytes.now pair }
{
    match (label_of(pair, bytes), entry_of(pair, bytes)) {
        (Some(label), Some(entry)) => Some((label, entry)),
        _ => None,
    }
}

/// Returns true if the pair is valid.
fn is_pair(pair: Pair, bytes: &[u8]) -> bool
    ensures { result ≡ is_some (pair_of bytes.now pair) }
{
    match pair_of(pair, bytes) {
        Some(_) => true,
        None => false,
    }
}

/// Returns true if each pair is valid.
fn are_pairs(pairs: &[Pair], bytes: &[u8]) -> bool
    ensures { result ≡ is_some (pairs_of bytes.now pairs.now) }
{
    pairs.iter().all(|pair| is_pair(*pair, bytes))
}

/// Returns the labels and values of the pairs, or `None` if one pair isn't valid.
///
/// # Errors
/// `OutOfMemory` if an allocation fails.
fn pairs_of<'a>(
    alloc: Global,
    pairs: &[Pair],
    bytes: &'a [u8],
) -> Result<Option<Vec<(Label<'a>, Entry<'a>)>>>
    ensures pairs { IfOk result (λ o. option_map (λ ps. pairs_view ps.items) o
        ≡ pairs_of bytes.now pairs.now) }
    ensures memory { IfErr result (λ e. e ≡ OutOfMemory) }
{
    let mut found = Vec::with_capacity(alloc, pairs.len())?;
    for pair in pairs {
        match pair_of(*pair, bytes) {
            Some(pair) => found.push(pair)?,
            None => return Ok(None),
        }
    }
    Ok(Some(found))
}

/// Adds these pairs to the map.
fn put_pairs(
    alloc: Global,
    kind: Kind,
    input: &[u8],
    pairs: &[Pair],
    bytes: &[u8],
    out: &mut [u8],
) -> Result<usize, Refusal>
    ensures { MatchOption (pairs_of bytes.now pairs.now) (out.new ≡ out.old)
        (λ xs. PutsPairs kind input.now xs out.old out.new result) }
{
    match pairs_of(alloc, pairs, bytes) {
        Ok(Some(pairs)) => put_all(alloc, kind, input, &pairs, out),
        Ok(None) => Err(Refusal::Misuse),
        Err(error) => Err(Refusal::Cose(error)),
    }
}

/// Adds many pairs to the map, one after another. Their texts, byte strings and encodings are
/// ranges of `bytes`.
#[unsafe(no_mangle)]
pub extern "C" fn coset_put_all(
    alloc: Global,
    kind: u32,
    input: &[u8],
    pairs: &[Pair],
    bytes: &[u8],
    out: &mut [u8],
    len: &mut usize,
) -> i32
    ensures { MatchOption (pairs_query kind bytes.now pairs.now)
        (IsMisuse result len.new 0 × (out.new ≡ out.old))
        (λ q. Replies (PutsPairs q.0 input.now q.1 out.old out.new) result len.new) }
{
    match within_pairs(within(within(kind_of(kind), input, out), bytes, &[]), pairs) {
        Some(kind) => {
            if !are_pairs(pairs, bytes) {
                return misused(0, len);
            }
            reply(put_pairs(alloc, kind, input, pairs, bytes, out), len)
        }
        None => misused(0, len),
    }
}
