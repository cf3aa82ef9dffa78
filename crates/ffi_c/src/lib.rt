//! `ffi_query`, `ffi_make` and `ffi_token` for C: the functions that `c/include/coset.h` declares.
//!
//! Arguments are numbers, slices (in C a pointer and a length), structs of numbers, and places for
//! a number or for such a struct. Nothing is kept between calls. `docs/C.md` says how to call the
//! functions.
//!
//! This module has functions that read. Others that read are in `elements`, `countersign`, `sign1`,
//! `message`, `spans` and `token`. The functions that make items are in `making` and `pairs`.
#![tactic(auto)]

ghost use Rattle.std.specs.Prelude.{◌≡◌, MatchOption, pos};
ghost use Rattle.ffi_query.specs.declared.kind.Kind.TheVariants.{Recipient};
ghost use Rattle.ffi_query.specs.Results.{Answers, ReturnsNumber, ReturnsOr};
ghost use Rattle.ffi_query.specs.Labels.{HasNoNumber, HasNoString, IsNumberOf, IsStringOf, IsValueOf};
ghost use Rattle.ffi_query.specs.Parts.{HasNoCount, IsMember, IsPart, IsPositiveCount};
ghost use Rattle.ffi_query.specs.Structures.{HasNoStructure, IsRecipientStructure, IsStructureOnce};
ghost use Rattle.coset.specs.LabelData.{number, text_label};
ghost use Rattle.ffi_c.specs.Numbers.{bytes_if, kind_of, map_query, part_query, signer_query};
ghost use Rattle.ffi_c.specs.Replies.{IsMisuse, Replies, RepliesCheck, RepliesValue};

mod countersign;
mod elements;
mod lengths;
mod making;
mod message;
mod numbers;
mod pairs;
mod replies;
mod sign1;
mod spans;
mod token;

use crate::lengths::within;
use ffi_query::{
    Label, check, count_of, integer_of, member_of, part_of, recipient_structure_of, string_of,
    structure_of, value_of,
};
use numbers::{bytes_if, kind_of, map_query, part_query, signer_query};
use replies::{misused, reply, reply_check, reply_value};
use std::alloc::Global;

/// Checks that the input is an item of the kind.
///
/// Sets `offset` to the offset at which the input stops being one item of CBOR, or to `SIZE_MAX` if
/// that isn't known or the input is one item.
#[unsafe(no_mangle)]
pub extern "C" fn coset_check(alloc: Global, kind: u32, input: &[u8], offset: &mut usize) -> i32
    ensures { MatchOption (kind_of kind) (IsMisuse result offset.new usize.MAX)
        (λ k. RepliesCheck k input.now result offset.new) }
{
    match within(kind_of(kind), input, &[]) {
        Some(kind) => reply_check(check(alloc, kind, input), input, offset),
        None => misused(usize::MAX, offset),
    }
}

/// Sets `count` to the number of signatures, recipients, keys or elements of the input, which is at
/// least 1.
#[unsafe(no_mangle)]
pub extern "C" fn coset_count(alloc: Global, kind: u32, input: &[u8], count: &mut usize) -> i32
    ensures { MatchOption (kind_of kind) (IsMisuse result count.new 0)
        (λ k. Replies (ReturnsNumber k input.now (IsPositiveCount k) (HasNoCount k))
        result count.new) }
{
    match within(kind_of(kind), input, &[]) {
        Some(kind) => reply(count_of(alloc, kind, input), count),
        None => misused(0, count),
    }
}

/// Writes a part of the input.
#[unsafe(no_mangle)]
pub extern "C" fn coset_part(
    alloc: Global,
    kind: u32,
    input: &[u8],
    part: u32,
    out: &mut [u8],
    len: &mut usize,
) -> i32
    ensures { MatchOption (part_query kind part)
        (IsMisuse result len.new 0 × (out.new ≡ out.old))
        (λ q. Replies (Answers q.0 input.now (IsPart q.0 q.1) out.old out.new) result len.new) }
{
    match within(part_query(kind, part), input, out) {
        Some((kind, part)) => reply(part_of(alloc, kind, input, part, out), len),
        None => misused(0, len),
    }
}

/// Writes the signature, recipient, key or element at `index` in its shortest encoding.
#[unsafe(no_mangle)]
pub extern "C" fn coset_member(
    alloc: Global,
    kind: u32,
    input: &[u8],
    index: usize,
    out: &mut [u8],
    len: &mut usize,
) -> i32
    ensures { MatchOption (kind_of kind) (IsMisuse result len.new 0 × (out.new ≡ out.old))
        (λ k. Replies (Answers k input.now (IsMember k index) out.old out.new) result len.new) }
{
    match within(kind_of(kind), input, out) {
        Some(kind) => reply(member_of(alloc, kind, input, index, out), len),
        None => misused(0, len),
    }
}

/// Writes the value of an integer label in its shortest encoding.
#[unsafe(no_mangle)]
pub extern "C" fn coset_label(
    alloc: Global,
    kind: u32,
    input: &[u8],
    map: u32,
    label: i64,
    out: &mut [u8],
    len: &mut usize,
) -> i32
    ensures { MatchOption (map_query kind map) (IsMisuse result len.new 0 × (out.new ≡ out.old))
        (λ q. Replies (Answers q.0 input.now (IsValueOf q.0 q.1 (number label)) out.old out.new)
        result len.new) }
{
    match within(map_query(kind, map), input, out) {
        Some((kind, map)) => {
            let label = Label::Number(label);
            reply(value_of(alloc, kind, input, map, label, out), len)
        }
        None => misused(0, len),
    }
}

/// Writes the content of the string that is the value of an integer label. It is a byte string or a
/// text string.
#[unsafe(no_mangle)]
pub extern "C" fn coset_label_bytes(
    alloc: Global,
    kind: u32,
    input: &[u8],
    map: u32,
    label: i64,
    out: &mut [u8],
    len: &mut usize,
) -> i32
    ensures { MatchOption (map_query kind map) (IsMisuse result len.new 0 × (out.new ≡ out.old))
        (λ q. Replies (ReturnsOr q.0 input.now (IsStringOf q.0 q.1 (number label))
        (HasNoString q.0 q.1 (number label)) out.old out.new) result len.new) }
{
    match within(map_query(kind, map), input, out) {
        Some((kind, map)) => {
            let label = Label::Number(label);
            reply(string_of(alloc, kind, input, map, label, out), len)
        }
        None => misused(0, len),
    }
}

/// Sets `value` to the integer that is the value of an integer label.
#[unsafe(no_mangle)]
pub extern "C" fn coset_label_int(
    alloc: Global,
    kind: u32,
    input: &[u8],
    map: u32,
    label: i64,
    value: &mut i64,
) -> i32
    ensures { MatchOption (map_query kind map) (IsMisuse result value.new (pos 0))
        (λ q. RepliesValue (pos 0) (ReturnsNumber q.0 input.now
        (IsNumberOf q.0 q.1 (number label)) (HasNoNumber q.0 q.1 (number label)))
        result value.new) }
{
    match within(map_query(kind, map), input, &[]) {
        Some((kind, map)) => {
            let label = Label::Number(label);
            reply_value(integer_of(alloc, kind, input, map, label), 0, value)
        }
        None => misused(0, value),
    }
}

/// Writes the value of a text label in its shortest encoding. `label` are the label's UTF-8 bytes.
#[unsafe(no_mangle)]
pub extern "C" fn coset_text_label(
    alloc: Global,
    kind: u32,
    input: &[u8],
    map: u32,
    label: &[u8],
    out: &mut [u8],
    len: &mut usize,
) -> i32
    ensures { MatchOption (map_query kind map) (IsMisuse result len.new 0 × (out.new ≡ out.old))
        (λ q. Replies (Answers q.0 input.now (IsValueOf q.0 q.1 (text_label label.now))
        out.old out.new) result len.new) }
{
    match within(within(map_query(kind, map), input, out), label, &[]) {
        Some((kind, map)) => {
            let label = Label::Text(label);
            reply(value_of(alloc, kind, input, map, label, out), len)
        }
        None => misused(0, len),
    }
}

/// Writes the structure of the input: what is signed, authenticated, or goes with the ciphertext.
///
/// `detached` is the payload if `has_detached` isn't 0; else it is empty. `index` is 0 for a kind
/// without signers.
#[unsafe(no_mangle)]
pub extern "C" fn coset_structure(
    alloc: Global,
    kind: u32,
    input: &[u8],
    index: usize,
    external_aad: &[u8],
    has_detached: u32,
    detached: &[u8],
    out: &mut [u8],
    len: &mut usize,
) -> i32
    ensures { let d = bytes_if has_detached detached.now in
        MatchOption (signer_query kind index has_detached detached.now)
        (IsMisuse result len.new 0 × (out.new ≡ out.old))
        (λ k. Replies (ReturnsOr k input.now (IsStructureOnce k index external_aad.now d)
        (HasNoStructure k index external_aad.now d) out.old out.new) result len.new) }
{
    let asked = signer_query(kind, index, has_detached, detached);
    let query = within(asked, input, out);
    match within(query, external_aad, detached) {
        Some(kind) => {
            let detached = bytes_if(has_detached, detached);
            reply(
                structure_of(alloc, kind, input, index, external_aad, detached, out),
                len,
            )
        }
        None => misused(0, len),
    }
}

/// Writes the structure that goes with the ciphertext of the input, a recipient, by the kind that
/// contains it.
#[unsafe(no_mangle)]
pub extern "C" fn coset_recipient_structure(
    alloc: Global,
    holder: u32,
    input: &[u8],
    external_aad: &[u8],
    out: &mut [u8],
    len: &mut usize,
) -> i32
    ensures { MatchOption (kind_of holder) (IsMisuse result len.new 0 × (out.new ≡ out.old))
        (λ k. Replies (Answers Recipient input.now (IsRecipientStructure k external_aad.now)
        out.old out.new) result len.new) }
{
    match within(within(kind_of(holder), input, out), external_aad, &[]) {
        Some(holder) => reply(
            recipient_structure_of(alloc, holder, input, external_aad, out),
            len,
        ),
        None => misused(0, len),
    }
}
