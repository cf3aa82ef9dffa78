//! The functions that make items: they put pairs into maps, make structures and messages, add
//! elements to lists, and write items again.

ghost use Rattle.std.specs.Prelude.{◌≡◌, MatchOption};
ghost use Rattle.coset.specs.LabelData.{number, text_label};
ghost use Rattle.ffi_make.specs.Canonical.{WritesCanonical};
ghost use Rattle.ffi_make.specs.Given.{a_string, a_text, an_encoding, an_integer};
ghost use Rattle.ffi_make.specs.Makes.{WritesAgain};
ghost use Rattle.ffi_make.specs.Members.{AddsMember};
ghost use Rattle.ffi_make.specs.Messages.{MakesMessage};
ghost use Rattle.ffi_make.specs.PairsMade.{PutsPair};
ghost use Rattle.ffi_make.specs.StructuresMade.{MakesRecipientStructure, MakesStructure};
ghost use Rattle.ffi_c.specs.Numbers.{bytes_if, content_query, kind_of, order_of};
ghost use Rattle.ffi_c.specs.Replies.{IsMisuse, Replies};

use crate::lengths::within;
use crate::numbers::{bytes_if, content_query, kind_of, order_of};
use crate::replies::{misused, reply};
use ffi_make::{Entry, add, canonical_key, make, put, recipient_structure_of, structure_of, write};
use ffi_query::Label;
use std::alloc::Global;

/// Adds a pair to the map: an integer label, and a value as its encoding.
#[unsafe(no_mangle)]
pub extern "C" fn coset_put(
    alloc: Global,
    kind: u32,
    input: &[u8],
    label: i64,
    value: &[u8],
    out: &mut [u8],
    len: &mut usize,
) -> i32
    ensures { MatchOption (kind_of kind) (IsMisuse result len.new 0 × (out.new ≡ out.old))
        (λ k. Replies (PutsPair k input.now (number label) (an_encoding value.now) out.old out.new)
        result len.new) }
{
    match within(within(kind_of(kind), input, out), value, &[]) {
        Some(kind) => {
            let label = Label::Number(label);
            let value = Entry::Encoded(value);
            reply(put(alloc, kind, input, label, value, out), len)
        }
        None => misused(0, len),
    }
}

/// Adds a pair to the map: an integer label, and a byte string with this content.
#[unsafe(no_mangle)]
pub extern "C" fn coset_put_bytes(
    alloc: Global,
    kind: u32,
    input: &[u8],
    label: i64,
    value: &[u8],
    out: &mut [u8],
    len: &mut usize,
) -> i32
    ensures { MatchOption (kind_of kind) (IsMisuse result len.new 0 × (out.new ≡ out.old))
        (λ k. Replies (PutsPair k input.now (number label) (a_string value.now) out.old out.new)
        result len.new) }
{
    match within(within(kind_of(kind), input, out), value, &[]) {
        Some(kind) => {
            let label = Label::Number(label);
            let value = Entry::Bytes(value);
            reply(put(alloc, kind, input, label, value, out), len)
        }
        None => misused(0, len),
    }
}

/// Adds a pair to the map: an integer label, and a text string as its UTF-8 bytes.
#[unsafe(no_mangle)]
pub extern "C" fn coset_put_text(
    alloc: Global,
    kind: u32,
    input: &[u8],
    label: i64,
    value: &[u8],
    out: &mut [u8],
    len: &mut usize,
) -> i32
    ensures { MatchOption (kind_of kind) (IsMisuse result len.new 0 × (out.new ≡ out.old))
        (λ k. Replies (PutsPair k input.now (number label) (a_text value.now) out.old out.new)
        result len.new) }
{
    match within(within(kind_of(kind), input, out), value, &[]) {
        Some(kind) => {
            let label = Label::Number(label);
            let value = Entry::Text(value);
            reply(put(alloc, kind, input, label, value, out), len)
        }
        None => misused(0, len),
    }
}

/// Adds a pair to the map: an integer label, and an integer.
#[unsafe(no_mangle)]
pub extern "C" fn coset_put_int(
    alloc: Global,
    kind: u32,
    input: &[u8],
    label: i64,
    value: i64,
    out: &mut [u8],
    len: &mut usize,
) -> i32
    ensures { MatchOption (kind_of kind) (IsMisuse result len.new 0 × (out.new ≡ out.old))
        (λ k. Replies (PutsPair k input.now (number label) (an_integer value) out.old out.new)
        result len.new) }
{
    match within(kind_of(kind), input, out) {
        Some(kind) => {
            let label = Label::Number(label);
            let value = Entry::Integer(value);
            reply(put(alloc, kind, input, label, value, out), len)
        }
        None => misused(0, len),
    }
}

/// Adds a pair to the map: a text label as its UTF-8 bytes, and a value as its encoding.
#[unsafe(no_mangle)]
pub extern "C" fn coset_put_text_label(
    alloc: Global,
    kind: u32,
    input: &[u8],
    label: &[u8],
    value: &[u8],
    out: &mut [u8],
    len: &mut usize,
) -> i32
    ensures { MatchOption (kind_of kind) (IsMisuse result len.new 0 × (out.new ≡ out.old))
        (λ k. Replies (PutsPair k input.now (text_label label.now) (an_encoding value.now)
        out.old out.new) result len.new) }
{
    match within(within(kind_of(kind), input, out), label, value) {
        Some(kind) => {
            let label = Label::Text(label);
            let value = Entry::Encoded(value);
            reply(put(alloc, kind, input, label, value, out), len)
        }
        None => misused(0, len),
    }
}

/// Writes the structure of a message that isn't made yet: what is signed, authenticated, or goes
/// with the ciphertext.
#[unsafe(no_mangle)]
pub extern "C" fn coset_structure_of(
    alloc: Global,
    kind: u32,
    protected: &[u8],
    signer: &[u8],
    external_aad: &[u8],
    content: &[u8],
    out: &mut [u8],
    len: &mut usize,
) -> i32
    ensures { MatchOption (kind_of kind) (IsMisuse result len.new 0 × (out.new ≡ out.old))
        (λ k. Replies (MakesStructure k protected.now signer.now external_aad.now content.now
        out.old out.new) result len.new) }
{
    let query = within(kind_of(kind), out, protected);
    match within(within(query, signer, external_aad), content, &[]) {
        Some(kind) => {
            let made = structure_of(alloc, kind, protected, signer, external_aad, content, out);
            reply(made, len)
        },
        None => misused(0, len),
    }
}

/// Writes the structure that goes with the ciphertext of a recipient that isn't made yet, by the
/// kind that will contain it.
#[unsafe(no_mangle)]
pub extern "C" fn coset_recipient_structure_of(
    alloc: Global,
    holder: u32,
    protected: &[u8],
    external_aad: &[u8],
    out: &mut [u8],
    len: &mut usize,
) -> i32
    ensures { MatchOption (kind_of holder) (IsMisuse result len.new 0 × (out.new ≡ out.old))
        (λ k. Replies (MakesRecipientStructure k protected.now external_aad.now
        out.old out.new) result len.new) }
{
    match within(within(kind_of(holder), out, protected), external_aad, &[]) {
        Some(holder) => {
            let made = recipient_structure_of(alloc, holder, protected, external_aad, out);
            reply(made, len)
        }
        None => misused(0, len),
    }
}

/// Makes a message, a signature or a recipient. It has `content` if `has_content` isn't 0.
#[unsafe(no_mangle)]
pub extern "C" fn coset_make(
    alloc: Global,
    kind: u32,
    protected: &[u8],
    unprotected: &[u8],
    has_content: u32,
    content: &[u8],
    proof: &[u8],
    out: &mut [u8],
    len: &mut usize,
) -> i32
    ensures { MatchOption (content_query kind has_content content.now)
        (IsMisuse result len.new 0 × (out.new ≡ out.old))
        (λ k. Replies (MakesMessage k protected.now unprotected.now
        (bytes_if has_content content.now) proof.now out.old out.new) result len.new) }
{
    let query = within(content_query(kind, has_content, content), out, protected);
    match within(within(query, unprotected, content), proof, &[]) {
        Some(kind) => {
            let content = bytes_if(has_content, content);
            reply(
                make(alloc, kind, protected, unprotected, content, proof, out),
                len,
            )
        },
        None => misused(0, len),
    }
}

/// Adds a signature, recipient, key or element to those of the input.
#[unsafe(no_mangle)]
pub extern "C" fn coset_add(
    alloc: Global,
    kind: u32,
    input: &[u8],
    member: &[u8],
    out: &mut [u8],
    len: &mut usize,
) -> i32
    ensures { MatchOption (kind_of kind) (IsMisuse result len.new 0 × (out.new ≡ out.old))
        (λ k. Replies (AddsMember k input.now member.now out.old out.new)
        result len.new) }
{
    match within(within(kind_of(kind), input, out), member, &[]) {
        Some(kind) => reply(add(alloc, kind, input, member, out), len),
        None => misused(0, len),
    }
}

/// Writes the input in its shortest encoding.
#[unsafe(no_mangle)]
pub extern "C" fn coset_write(
    alloc: Global,
    kind: u32,
    input: &[u8],
    out: &mut [u8],
    len: &mut usize,
) -> i32
    ensures { MatchOption (kind_of kind) (IsMisuse result len.new 0 × (out.new ≡ out.old))
        (λ k. Replies (WritesAgain k input.now out.old out.new)
        result len.new) }
{
    match within(kind_of(kind), input, out) {
        Some(kind) => reply(write(alloc, kind, input, out), len),
        None => misused(0, len),
    }
}

/// Writes the key that the input encodes in its shortest encoding, with its labels in this order.
#[unsafe(no_mangle)]
pub extern "C" fn coset_canonical_key(
    alloc: Global,
    order: u32,
    input: &[u8],
    out: &mut [u8],
    len: &mut usize,
) -> i32
    ensures { MatchOption (order_of order) (IsMisuse result len.new 0 × (out.new ≡ out.old))
        (λ o. Replies (WritesCanonical o input.now out.old out.new)
        result len.new) }
{
    match within(order_of(order), input, out) {
        Some(order) => reply(canonical_key(alloc, order, input, out), len),
        None => misused(0, len),
    }
}
