//! Everything that verifying or decrypting a message takes, in one call. The message's own texts
//! are given by their places, and copied only if they can't be borrowed.

ghost use Rattle.std.specs.Prelude.{◌≡◌, MatchOption};
ghost use Rattle.ffi_query.specs.Results.{ReturnsWith};
ghost use Rattle.ffi_query.specs.Spans.{IsMessageSpans};
ghost use Rattle.ffi_query.specs.View.{HasNoView};
ghost use Rattle.ffi_c.specs.Numbers.{bytes_if, signer_query};
ghost use Rattle.ffi_c.specs.Replies.{IsMisuse, reply_status, length_of};
ghost use Rattle.ffi_c.specs.SpansNumbers.{RepliesSpans, length_written, no_spans, spans_of, spans_numbers};

use crate::lengths::{within, within_numbers};
use crate::message::critical_number;
use crate::numbers::{bytes_if, signer_query};
use crate::replies::{misused, reply};
use crate::sign1::{COSET_NONE, algorithm_numbers, number_of_bool, number_of_map};
use ffi_query::{MessageSpans, Refusal, message_spans};
use std::alloc::Global;

/// The numbers that `coset_message_spans` returns: `coset_message_spans_view` of
/// `c/include/coset.h`.
#[repr(C)]
#[derive(Clone, Copy)]
pub struct Spans {
    /// The number of the algorithm in the protected header if the form is `COSET_INT`, else 0.
    pub algorithm: i64,
    /// `COSET_NONE`, `COSET_INT` or `COSET_TEXT`.
    pub algorithm_form: u32,
    /// The header that has the key identifier: `COSET_IN_PROTECTED`, `COSET_IN_UNPROTECTED`, or 0
    /// for none.
    pub key_id_map: u32,
    /// The state of `crit`: `COSET_NONE`, `COSET_UNDERSTOOD` or `COSET_NOT_UNDERSTOOD`.
    pub critical: u32,
    /// 1 if the message is under its tag, else 0.
    pub is_tagged: u32,
    /// 1 if the signature or the tag is in the input, else 0.
    pub is_proof_in_input: u32,
    /// 1 if the payload or the ciphertext is in the input, else 0.
    pub is_content_in_input: u32,
    /// 1 if the key identifier is in the input, else 0.
    pub is_key_id_in_input: u32,
    /// The length of the structure, which is at the front of the bytes written.
    pub structure_len: usize,
    /// The offset of the signature or the tag.
    pub proof_at: usize,
    /// The length of the signature or the tag.
    pub proof_len: usize,
    /// The offset of the payload or ciphertext that the message carries.
    pub content_at: usize,
    /// The length of the payload or the ciphertext.
    pub content_len: usize,
    /// The offset of the key identifier.
    pub key_id_at: usize,
    /// The length of the key identifier.
    pub key_id_len: usize,
}

/// Returns the places in numbers.
fn spans_numbers(spans: MessageSpans) -> Spans
    ensures { result ≡ spans_numbers spans }
{
    let view = spans.view;
    let (algorithm, algorithm_form) = algorithm_numbers(view.algorithm);
    Spans {
        algorithm,
        algorithm_form,
        key_id_map: number_of_map(view.key_id_place),
        critical: critical_number(view.has_critical, view.is_understood),
        is_tagged: number_of_bool(view.is_tagged),
        is_proof_in_input: number_of_bool(spans.proof.is_input),
        is_content_in_input: number_of_bool(spans.content.is_input),
        is_key_id_in_input: number_of_bool(spans.key_id.is_input),
        structure_len: view.structure_len,
        proof_at: spans.proof.at,
        proof_len: view.proof_len,
        content_at: spans.content.at,
        content_len: view.content_len,
        key_id_at: spans.key_id.at,
        key_id_len: view.key_id_len,
    }
}

/// Returns the zeros that the caller's struct gets after an error.
fn no_spans() -> Spans
    ensures { result ≡ no_spans }
{
    Spans {
        algorithm: 0,
        algorithm_form: COSET_NONE,
        key_id_map: COSET_NONE,
        critical: COSET_NONE,
        is_tagged: 0,
        is_proof_in_input: 0,
        is_content_in_input: 0,
        is_key_id_in_input: 0,
        structure_len: 0,
        proof_at: 0,
        proof_len: 0,
        content_at: 0,
        content_len: 0,
        key_id_at: 0,
        key_id_len: 0,
    }
}

/// Returns the struct for a result: the places, or zeros for an error.
fn spans_of(answer: &Result<MessageSpans, Refusal>) -> Spans
    ensures { result ≡ spans_of answer.now }
{
    match answer {
        Ok(spans) => spans_numbers(*spans),
        Err(_) => no_spans(),
    }
}

/// Returns the number of bytes that were written.
fn length_written(answer: Result<MessageSpans, Refusal>) -> Result<usize, Refusal>
    ensures { result ≡ length_written answer }
{
    match answer {
        Ok(spans) => Ok(spans.len),
        Err(refusal) => Err(refusal),
    }
}

/// Returns the status of a result. Sets `spans` to the places or to zeros, and `len` to the number
/// of bytes written, as [`reply`] does.
fn reply_spans(answer: Result<MessageSpans, Refusal>, len: &mut usize, spans: &mut Spans) -> i32
    ensures status { result ≡ reply_status answer }
    ensures number { len.new ≡ length_of (length_written answer) }
    ensures view { spans.new ≡ spans_of answer }
{
    *spans = spans_of(&answer);
    reply(length_written(answer), len)
}

/// Writes the structure that is signed, authenticated, or goes with the ciphertext, and sets `view`
/// to the rest.
///
/// `view` has the places of the signature or tag, of the payload or ciphertext that the input
/// carries, and of the key identifier. They are in the input, or in `out` after the structure.
/// `detached` is the payload if `has_detached` isn't 0; else it is empty. `known` are the critical
/// labels that the caller understands. `index` is 0 for a kind without signers.
#[unsafe(no_mangle)]
pub extern "C" fn coset_message_spans(
    alloc: Global,
    kind: u32,
    input: &[u8],
    index: usize,
    external_aad: &[u8],
    has_detached: u32,
    detached: &[u8],
    known: &[i64],
    out: &mut [u8],
    len: &mut usize,
    view: &mut Spans,
) -> i32
    ensures { let d = bytes_if has_detached detached.now in
        MatchOption (signer_query kind index has_detached detached.now)
        (IsMisuse result len.new 0 × (view.new ≡ no_spans) × (out.new ≡ out.old))
        (λ k. RepliesSpans (ReturnsWith k input.now
        (IsMessageSpans k index external_aad.now d known.now input.now)
        (HasNoView k index external_aad.now d known.now) out.old out.new) result len.new view.new) }
{
    let asked = signer_query(kind, index, has_detached, detached);
    let query = within(asked, input, out);
    match within_numbers(within(query, external_aad, detached), known, &[]) {
        Some(kind) => {
            let detached = bytes_if(has_detached, detached);
            let answer = message_spans(
                alloc,
                kind,
                input,
                index,
                external_aad,
                detached,
                known,
                out,
            );
            reply_spans(answer, len, view)
        }
        None => {
            *view = no_spans();
            misused(0, len)
        }
    }
}
