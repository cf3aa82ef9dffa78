//! Everything that verifying a message with one signature takes, in one call. In addition to a
//! status, a length and the texts, the call returns numbers in a struct of the caller.

ghost use Rattle.std.specs.Prelude.{◌≡◌, [], MatchOption, if◌then◌else◌};
ghost use Rattle.ffi_query.specs.Results.{ReturnsWith};
ghost use Rattle.ffi_query.specs.View.{HasNoView, IsMessageView};
ghost use Rattle.ffi_c.specs.Numbers.{bytes_if, sign1_query};
ghost use Rattle.ffi_c.specs.Replies.{IsMisuse, reply_status, length_of};
ghost use Rattle.ffi_c.specs.Views.{RepliesView, algorithm_numbers, texts_len, no_view, number_of_map, view_of, sign1_numbers};

use crate::lengths::within;
use crate::numbers::{COSET_IN_PROTECTED, COSET_IN_UNPROTECTED, bytes_if, sign1_query};
use crate::replies::{misused, reply};
use ffi_query::{Algorithm, KeyIdPlace, MessageView, Refusal, message_view};
use std::alloc::Global;

/// No algorithm is named, no header has a key identifier, or no header has `crit`.
pub(crate) const COSET_NONE: u32 = 0;
/// An integer names the algorithm.
pub(crate) const COSET_INT: u32 = 1;
/// A text names the algorithm.
pub(crate) const COSET_TEXT: u32 = 2;

/// The numbers that `coset_sign1` returns: `coset_sign1_view` of `c/include/coset.h`.
#[repr(C)]
#[derive(Clone, Copy)]
pub struct View {
    /// The number of the algorithm in the protected header if the form is `COSET_INT`, else 0.
    pub algorithm: i64,
    /// `COSET_NONE`, `COSET_INT` or `COSET_TEXT`.
    pub algorithm_form: u32,
    /// The header that has the key identifier: `COSET_IN_PROTECTED`, `COSET_IN_UNPROTECTED`, or 0
    /// for none.
    pub key_id_map: u32,
    /// 1 if either header has `crit`, else 0.
    pub has_critical: u32,
    /// 1 if the message is under its tag, else 0.
    pub is_tagged: u32,
    /// The length of `Sig_structure`.
    pub structure_len: usize,
    /// The length of the signature.
    pub signature_len: usize,
    /// The length of the payload that the message carries.
    pub payload_len: usize,
    /// The length of the key identifier.
    pub key_id_len: usize,
}

/// Returns the number of an algorithm, and the form in which it is named.
pub(crate) fn algorithm_numbers(algorithm: Algorithm) -> (i64, u32)
    ensures { result ≡ algorithm_numbers algorithm }
{
    match algorithm {
        Algorithm::Absent => (0, COSET_NONE),
        Algorithm::Number(number) => (number, COSET_INT),
        Algorithm::Text => (0, COSET_TEXT),
    }
}

/// Returns the number of the map that has the key identifier.
pub(crate) fn number_of_map(place: KeyIdPlace) -> u32
    ensures { result ≡ number_of_map place }
{
    match place {
        KeyIdPlace::Absent => COSET_NONE,
        KeyIdPlace::Protected => COSET_IN_PROTECTED,
        KeyIdPlace::Unprotected => COSET_IN_UNPROTECTED,
    }
}

/// Returns 1 for true, and 0 for false.
pub(crate) fn number_of_bool(is: bool) -> u32
    ensures { result ≡ (if is then 1 else 0) }
{
    if is { 1 } else { 0 }
}

/// Returns a view in numbers.
fn sign1_numbers(view: MessageView) -> View
    ensures { result ≡ sign1_numbers view }
{
    let (algorithm, algorithm_form) = algorithm_numbers(view.algorithm);
    View {
        algorithm,
        algorithm_form,
        key_id_map: number_of_map(view.key_id_place),
        has_critical: number_of_bool(view.has_critical),
        is_tagged: number_of_bool(view.is_tagged),
        structure_len: view.structure_len,
        signature_len: view.proof_len,
        payload_len: view.content_len,
        key_id_len: view.key_id_len,
    }
}

/// Returns the zeros that the caller's struct gets after an error.
fn no_view() -> View
    ensures { result ≡ no_view }
{
    View {
        algorithm: 0,
        algorithm_form: COSET_NONE,
        key_id_map: COSET_NONE,
        has_critical: 0,
        is_tagged: 0,
        structure_len: 0,
        signature_len: 0,
        payload_len: 0,
        key_id_len: 0,
    }
}

/// Returns the struct for a result: the view, or zeros for an error.
fn view_of(answer: &Result<MessageView, Refusal>) -> View
    ensures { result ≡ view_of answer.now }
{
    match answer {
        Ok(view) => sign1_numbers(*view),
        Err(_) => no_view(),
    }
}

/// Returns the total length of the texts that go with a view.
pub(crate) fn texts_len(answer: Result<MessageView, Refusal>) -> Result<usize, Refusal>
    ensures { result ≡ texts_len answer }
{
    match answer {
        Ok(view) => Ok(view.len),
        Err(refusal) => Err(refusal),
    }
}

/// Returns the status of a result. Sets `view` to the view or to zeros, and `len` to the texts'
/// length as [`reply`] does.
fn reply_view(answer: Result<MessageView, Refusal>, len: &mut usize, view: &mut View) -> i32
    ensures status { result ≡ reply_status answer }
    ensures number { len.new ≡ length_of (texts_len answer) }
    ensures view { view.new ≡ view_of answer }
{
    *view = view_of(&answer);
    reply(texts_len(answer), len)
}

/// Writes the texts that verifying the input takes, and sets `view` to the rest.
///
/// Four texts are written, one after another: the structure that is signed, the signature, the
/// payload that the input carries, and the key identifier. `detached` is the payload if
/// `has_detached` isn't 0; else it is empty.
#[unsafe(no_mangle)]
pub extern "C" fn coset_sign1(
    alloc: Global,
    kind: u32,
    input: &[u8],
    external_aad: &[u8],
    has_detached: u32,
    detached: &[u8],
    out: &mut [u8],
    len: &mut usize,
    view: &mut View,
) -> i32
    ensures { let d = bytes_if has_detached detached.now in
        MatchOption (sign1_query kind has_detached detached.now)
        (IsMisuse result len.new 0 × (view.new ≡ no_view) × (out.new ≡ out.old))
        (λ k. RepliesView (ReturnsWith k input.now
        (IsMessageView k 0 external_aad.now d [] input.now) (HasNoView k 0 external_aad.now d [])
        out.old out.new) result len.new view.new) }
{
    let query = within(sign1_query(kind, has_detached, detached), input, out);
    match within(query, external_aad, detached) {
        Some(kind) => {
            let detached = bytes_if(has_detached, detached);
            let answer = message_view(alloc, kind, input, 0, external_aad, detached, &[], out);
            reply_view(answer, len, view)
        }
        None => {
            *view = no_view();
            misused(0, len)
        }
    }
}
