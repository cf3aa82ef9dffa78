//! Everything that verifying or decrypting a message takes, in one call, given the labels that the
//! caller understands.

ghost use Rattle.std.specs.Prelude.{◌≡◌, MatchOption};
ghost use Rattle.ffi_query.specs.Results.{ReturnsWith};
ghost use Rattle.ffi_query.specs.View.{HasNoView, IsMessageView};
ghost use Rattle.ffi_c.specs.Numbers.{bytes_if, signer_query};
ghost use Rattle.ffi_c.specs.Replies.{IsMisuse, reply_status, length_of};
ghost use Rattle.ffi_c.specs.Views.{RepliesMessage, critical_number, texts_len, message_of, message_numbers, no_message};

use crate::lengths::{within, within_numbers};
use crate::numbers::{bytes_if, signer_query};
use crate::replies::{misused, reply};
use crate::sign1::{COSET_NONE, algorithm_numbers, number_of_bool, number_of_map, texts_len};
use ffi_query::{MessageView, Refusal, message_view};
use std::alloc::Global;

/// There are critical labels, and all are understood.
const COSET_UNDERSTOOD: u32 = 1;
/// There are critical labels, and one isn't understood or isn't protected.
const COSET_NOT_UNDERSTOOD: u32 = 2;

/// The numbers that `coset_message` returns: `coset_message_view` of `c/include/coset.h`.
#[repr(C)]
#[derive(Clone, Copy)]
pub struct Message {
    /// The number of the algorithm in the protected header if the form is `COSET_INT`, else 0.
    pub algorithm: i64,
    /// `COSET_NONE`, `COSET_INT` or `COSET_TEXT`.
    pub algorithm_form: u32,
    /// The header that has the key identifier: `COSET_IN_PROTECTED`, `COSET_IN_UNPROTECTED`, or 0
    /// for none.
    pub key_id_map: u32,
    /// The state of `crit`: `COSET_NONE`, `COSET_UNDERSTOOD` or `COSET_NOT_UNDERSTOOD`.
    pub critical: u32,
    /// 1 if the message is under its tag, else 0.
    pub is_tagged: u32,
    /// The length of the structure.
    pub structure_len: usize,
    /// The length of the signature or the tag.
    pub proof_len: usize,
    /// The length of the payload or ciphertext that the message carries.
    pub content_len: usize,
    /// The length of the key identifier.
    pub key_id_len: usize,
}

/// Returns the number for the state of `crit`.
pub(crate) fn critical_number(has_critical: bool, is_understood: bool) -> u32
    ensures { result ≡ critical_number has_critical is_understood }
{
    match (has_critical, is_understood) {
        (false, _) => COSET_NONE,
        (true, true) => COSET_UNDERSTOOD,
        (true, false) => COSET_NOT_UNDERSTOOD,
    }
}

/// Returns a view in numbers.
fn message_numbers(view: MessageView) -> Message
    ensures { result ≡ message_numbers view }
{
    let (algorithm, algorithm_form) = algorithm_numbers(view.algorithm);
    Message {
        algorithm,
        algorithm_form,
        key_id_map: number_of_map(view.key_id_place),
        critical: critical_number(view.has_critical, view.is_understood),
        is_tagged: number_of_bool(view.is_tagged),
        structure_len: view.structure_len,
        proof_len: view.proof_len,
        content_len: view.content_len,
        key_id_len: view.key_id_len,
    }
}

/// Returns the zeros that the caller's struct gets after an error.
fn no_message() -> Message
    ensures { result ≡ no_message }
{
    Message {
        algorithm: 0,
        algorithm_form: COSET_NONE,
        key_id_map: COSET_NONE,
        critical: COSET_NONE,
        is_tagged: 0,
        structure_len: 0,
        proof_len: 0,
        content_len: 0,
        key_id_len: 0,
    }
}

/// Returns the struct for a result: the view, or zeros for an error.
fn message_of(answer: &Result<MessageView, Refusal>) -> Message
    ensures { result ≡ message_of answer.now }
{
    match answer {
        Ok(view) => message_numbers(*view),
        Err(_) => no_message(),
    }
}

/// Returns the status of a result. Sets `view` to the view or to zeros, and `len` to the texts'
/// length as [`reply`] does.
fn reply_message(answer: Result<MessageView, Refusal>, len: &mut usize, view: &mut Message) -> i32
    ensures status { result ≡ reply_status answer }
    ensures number { len.new ≡ length_of (texts_len answer) }
    ensures view { view.new ≡ message_of answer }
{
    *view = message_of(&answer);
    reply(texts_len(answer), len)
}

/// Writes the texts that verifying or decrypting the input takes, and sets `view` to the rest.
///
/// Four texts are written, one after another:
/// - the structure that is signed, authenticated, or goes with the ciphertext,
/// - the signature or the tag,
/// - the payload or ciphertext that the input carries,
/// - the key identifier.
///
/// `detached` is the payload if `has_detached` isn't 0; else it is empty. `known` are the critical
/// labels that the caller understands. `index` is 0 for a kind without signers.
#[unsafe(no_mangle)]
pub extern "C" fn coset_message(
    alloc: Global,
    kind: u32,
    input: &[u8],
    index: usize,
    external_aad: &[u8],
    has_detached: u32,
    detached: &[u8],
    known: &[i64],
    out: &mut [u8],
    len: &mut usize,
    view: &mut Message,
) -> i32
    ensures { let d = bytes_if has_detached detached.now in
        MatchOption (signer_query kind index has_detached detached.now)
        (IsMisuse result len.new 0 × (view.new ≡ no_message) × (out.new ≡ out.old))
        (λ k. RepliesMessage (ReturnsWith k input.now
        (IsMessageView k index external_aad.now d known.now input.now)
        (HasNoView k index external_aad.now d known.now) out.old out.new) result len.new view.new) }
{
    let asked = signer_query(kind, index, has_detached, detached);
    let query = within(asked, input, out);
    match within_numbers(within(query, external_aad, detached), known, &[]) {
        Some(kind) => {
            let detached = bytes_if(has_detached, detached);
            let answer = message_view(
                alloc,
                kind,
                input,
                index,
                external_aad,
                detached,
                known,
                out,
            );
            reply_message(answer, len, view)
        }
        None => {
            *view = no_message();
            misused(0, len)
        }
    }
}
