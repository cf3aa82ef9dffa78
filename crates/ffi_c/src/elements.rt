//! Functions that return places in the input: of array elements, map pairs, label values, string
//! contents, and the item at an offset. Others read an integer, copy the label or the value of a
//! pair by index, or copy a key of a set by its identifier.

ghost use Rattle.std.specs.Prelude.{◌≡◌, MatchOption, pos};
ghost use Rattle.ffi_query.specs.declared.kind.Kind.TheVariants.{Any, KeySet};
ghost use Rattle.ffi_query.specs.declared.elements.Span.{Span};
ghost use Rattle.ffi_query.specs.declared.pair.Half.TheVariants as of;
ghost use Rattle.ffi_query.specs.Results.{Answers, ReturnsNumber};
ghost use Rattle.ffi_query.specs.Elements.{ReturnsItem, ArePairAt, HasNoContent, HasNoInteger, HasNoMember, HasNoPair, HasNoValueAt, IsMemberAt, IsStringAt, IsValueAt};
ghost use Rattle.ffi_query.specs.Labels.{IsNumber};
ghost use Rattle.ffi_query.specs.Pairs.{IsHalf};
ghost use Rattle.ffi_query.specs.Sets.{IsKeyBy};
ghost use Rattle.coset.specs.LabelData.{number};
ghost use Rattle.ffi_c.specs.Numbers.{kind_of, map_query};
ghost use Rattle.ffi_c.specs.Replies.{IsMisuse, Replies, RepliesValue, no_pair, no_span};

use crate::lengths::within;
use crate::numbers::{kind_of, map_query};
use crate::replies::{COSET_MISUSE, misused, reply, reply_value};
use ffi_query::{
    Half, Span, integer_at, item_span, key_of, member_span, pair_of, pair_spans, string_span,
    value_span,
};
use std::alloc::Global;

/// Returns the zeros that the caller's struct gets after an error.
fn no_span() -> Span
    ensures { result ≡ no_span }
{
    Span { at: 0, len: 0 }
}

/// Sets `span` to the place in the input of the signature, recipient, key or array element at
/// `index`.
#[unsafe(no_mangle)]
pub extern "C" fn coset_member_span(
    alloc: Global,
    kind: u32,
    input: &[u8],
    index: usize,
    span: &mut Span,
) -> i32
    ensures { MatchOption (kind_of kind) (IsMisuse result span.new no_span)
        (λ k. RepliesValue no_span (ReturnsNumber k input.now (IsMemberAt input.now k index)
        (HasNoMember k index)) result span.new) }
{
    match within(kind_of(kind), input, &[]) {
        Some(kind) => reply_value(member_span(alloc, kind, input, index), no_span(), span),
        None => misused(no_span(), span),
    }
}

/// Sets `span` to the place in the input of an integer label's value.
#[unsafe(no_mangle)]
pub extern "C" fn coset_label_span(
    alloc: Global,
    kind: u32,
    input: &[u8],
    map: u32,
    label: i64,
    span: &mut Span,
) -> i32
    ensures { MatchOption (map_query kind map) (IsMisuse result span.new no_span)
        (λ q. RepliesValue no_span (ReturnsNumber q.0 input.now
        (IsValueAt input.now q.0 q.1 (number label))
        (HasNoValueAt input.now q.0 q.1 (number label))) result span.new) }
{
    match within(map_query(kind, map), input, &[]) {
        Some((kind, map)) => {
            let answer = value_span(alloc, kind, input, map, label);
            reply_value(answer, no_span(), span)
        }
        None => misused(no_span(), span),
    }
}

/// Sets `label` and `value` to the places in the input of the label and value of the pair at
/// `index`.
#[unsafe(no_mangle)]
pub extern "C" fn coset_pair_spans(
    alloc: Global,
    kind: u32,
    input: &[u8],
    index: usize,
    label: &mut Span,
    value: &mut Span,
) -> i32
    ensures { let spans : Span × Span = (label.new, value.new) in
        MatchOption (kind_of kind) (IsMisuse result spans no_pair)
        (λ k. RepliesValue no_pair (ReturnsNumber k input.now
        (ArePairAt input.now index) (HasNoPair index)) result spans) }
{
    let mut found = (no_span(), no_span());
    let status = match within(kind_of(kind), input, &[]) {
        Some(kind) => {
            let answer = pair_spans(alloc, kind, input, index);
            reply_value(answer, (no_span(), no_span()), &mut found)
        }
        None => COSET_MISUSE,
    };
    *label = found.0;
    *value = found.1;
    status
}

/// Sets `span` to the place of the item that begins at the offset `at`.
#[unsafe(no_mangle)]
pub extern "C" fn coset_item_span(input: &[u8], at: usize, span: &mut Span) -> i32
    ensures { RepliesValue no_span (ReturnsItem input.now at) result span.new }
{
    match within(Some(()), input, &[]) {
        Some(()) => reply_value(item_span(input, at), no_span(), span),
        None => misused(no_span(), span),
    }
}

/// Sets `span` to the place in the input of a string's content. The string has definite length.
#[unsafe(no_mangle)]
pub extern "C" fn coset_string_span(alloc: Global, input: &[u8], span: &mut Span) -> i32
    ensures { RepliesValue no_span (ReturnsNumber Any input.now (IsStringAt input.now)
        (HasNoContent input.now)) result span.new }
{
    match within(Some(()), input, &[]) {
        Some(()) => reply_value(string_span(alloc, input), no_span(), span),
        None => misused(no_span(), span),
    }
}

/// Sets `value` to the integer that the input encodes.
#[unsafe(no_mangle)]
pub extern "C" fn coset_integer(alloc: Global, input: &[u8], value: &mut i64) -> i32
    ensures { RepliesValue (pos 0) (ReturnsNumber Any input.now IsNumber HasNoInteger)
        result value.new }
{
    match within(Some(()), input, &[]) {
        Some(()) => reply_value(integer_at(alloc, input), 0, value),
        None => misused(0, value),
    }
}

/// Writes the label of the pair at `index` in its shortest encoding.
#[unsafe(no_mangle)]
pub extern "C" fn coset_label_at(
    alloc: Global,
    kind: u32,
    input: &[u8],
    index: usize,
    out: &mut [u8],
    len: &mut usize,
) -> i32
    ensures { MatchOption (kind_of kind) (IsMisuse result len.new 0 × (out.new ≡ out.old))
        (λ k. Replies (Answers k input.now (IsHalf of.Key index) out.old out.new) result len.new) }
{
    match within(kind_of(kind), input, out) {
        Some(kind) => reply(pair_of(alloc, kind, input, Half::Key, index, out), len),
        None => misused(0, len),
    }
}

/// Writes the value of the pair at `index` in its shortest encoding.
#[unsafe(no_mangle)]
pub extern "C" fn coset_value_at(
    alloc: Global,
    kind: u32,
    input: &[u8],
    index: usize,
    out: &mut [u8],
    len: &mut usize,
) -> i32
    ensures { MatchOption (kind_of kind) (IsMisuse result len.new 0 × (out.new ≡ out.old))
        (λ k. Replies (Answers k input.now (IsHalf of.Value index) out.old out.new)
        result len.new) }
{
    match within(kind_of(kind), input, out) {
        Some(kind) => reply(pair_of(alloc, kind, input, Half::Value, index, out), len),
        None => misused(0, len),
    }
}

/// Writes the first key of the set with this identifier in its shortest encoding.
#[unsafe(no_mangle)]
pub extern "C" fn coset_key_of(
    alloc: Global,
    input: &[u8],
    key_id: &[u8],
    out: &mut [u8],
    len: &mut usize,
) -> i32
    ensures { Replies (Answers KeySet input.now (IsKeyBy key_id.now) out.old out.new)
        result len.new }
{
    match within(within(Some(()), input, out), key_id, &[]) {
        Some(()) => reply(key_of(alloc, input, key_id, out), len),
        None => misused(0, len),
    }
}
