//! Everything that verifying or decrypting a message takes. The message's own texts are given by
//! their places in the input, or are copied if they can't be borrowed.

ghost use Rattle.std.specs.Prelude.{◌≡◌, ◌<◌, ◌+◌, ◌^◌, ℕ, ℤ, List, Option, MatchOption, true};
ghost use Rattle.std.specs.Option.{option_copied};
ghost use Rattle.coset_seen.specs.Seen.{bytes_of};
ghost use Rattle.ffi_query.specs.Results.{ReturnsWith};
ghost use Rattle.ffi_query.specs.Located.{IsTextIn};
ghost use Rattle.ffi_query.specs.Spans.{AreUnsizedSpans, HasStructureOf, IsAt, IsMessageSpans, copied, copied_spans, is_encrypted, refusal_of, with_structure, written_at};
ghost use Rattle.ffi_query.specs.declared.spans.MessageSpans.{MessageSpans};
ghost use Rattle.ffi_query.specs.View.{HasNoView};

use crate::borrowed::{Texts, sum_of};
use crate::elements::text_span;
use crate::found::find_decoded;
use crate::kind::Kind;
use crate::located::Text;
use crate::refusal::Refusal;
use crate::seen::{can_borrow, has_both, laid_of, texts_of_seen};
use crate::view::{MessageView, view_of};
use coset::CoseError;
use coset::laws::one_item;
use coset_seen::{Part, StructureError};
use std::alloc::Global;

/// The place where a text begins.
#[derive(Clone, Copy, Debug, PartialEq, Eq)]
pub struct Start {
    /// Whether the text is in the input. Otherwise it is in the bytes that were written.
    pub is_input: bool,
    /// The offset of the text's first byte there.
    pub at: usize,
}

/// The result of [`message_spans`], besides the structure.
#[derive(Clone, Copy, Debug, PartialEq, Eq)]
pub struct MessageSpans {
    /// The view that [`message_view`](crate::message_view) returns. Its `len` is the total length
    /// of the four texts.
    pub view: MessageView,
    /// The place of the signature or the tag.
    pub proof: Start,
    /// The place of the payload or ciphertext that the message carries.
    pub content: Start,
    /// The place of the key identifier.
    pub key_id: Start,
    /// The number of bytes that were written.
    pub len: usize,
}

/// Returns the place where a text of the input begins.
fn start_of(text: Text<'_>, input: &[u8]) -> Start
    ensures input { result.is_input ≡ true }
    ensures at { IsTextIn input.now text.entry → IsAt input.now result.at text.entry.bytes.now }
{
    Start {
        is_input: true,
        at: text_span(text, input).at,
    }
}

/// Returns the view of a message with these texts, and their places. The length of the structure is
/// left out, in the view too.
fn unsized_spans(texts: &Texts<'_>, is_tagged: bool, len: usize, input: &[u8]) -> MessageSpans
    ensures { AreUnsizedSpans input.now texts.now is_tagged len result }
{
    MessageSpans {
        view: MessageView {
            algorithm: texts.algorithm,
            key_id_place: texts.key_id.place,
            has_critical: false,
            is_understood: true,
            is_tagged,
            structure_len: 0,
            proof_len: texts.proof.bytes.len(),
            content_len: texts.content.bytes.len(),
            key_id_len: texts.key_id.text.bytes.len(),
            len,
        },
        proof: start_of(texts.proof, input),
        content: start_of(texts.content, input),
        key_id: start_of(texts.key_id.text, input),
        len: 0,
    }
}

/// Returns the same with a structure of this length.
fn with_structure(spans: MessageSpans, len: usize) -> MessageSpans
    requires { spans.view.len + len < 2 ^ 64 }
    ensures { result ≡ with_structure spans len }
{
    MessageSpans {
        view: MessageView {
            structure_len: len,
            len: spans.view.len + len,
            ..spans.view
        },
        len,
        ..spans
    }
}

/// Returns the refusal for an error in writing a structure, or `None` if the error is about the
/// content.
fn refusal_of(error: StructureError) -> Option<Refusal>
    ensures { result ≡ refusal_of error }
{
    match error {
        StructureError::Short(needed) => Some(Refusal::Short(needed)),
        StructureError::OutOfMemory => Some(Refusal::Cose(CoseError::OutOfMemory)),
        StructureError::NoContent | StructureError::TwoContents => None,
    }
}

/// Returns true if items of the kind are encrypted messages. Their structure is without the
/// content.
fn is_encrypted(kind: Kind) -> bool
    ensures { result ≡ is_encrypted kind }
{
    match kind {
        Kind::Encrypt0(_) | Kind::Encrypt(_) => true,
        _ => false,
    }
}

/// Returns `detached`, or an empty content for an encrypted message that has none.
fn given_content<'a>(
    kind: Kind,
    content: Option<Part<'_>>,
    detached: Option<&'a [u8]>,
) -> Option<&'a [u8]>
    ensures { HasStructureOf kind (bytes_of content.entry) (option_copied result)
        (option_copied detached.entry) }
{
    match (content, detached) {
        (None, None) => {
            if is_encrypted(kind) {
                return Some(&[]);
            }
            None
        }
        _ => detached,
    }
}

/// Writes the structure of a message to the front of `out`, and returns the places of the message's
/// other texts in the input.
///
/// `None` says nothing; `out` is then unchanged. It is returned if the message isn't found in one
/// walk, if it has no content, or if the content is given twice.
fn borrowed_spans<'a>(
    alloc: Global,
    kind: Kind,
    bytes: &'a [u8],
    external_aad: &[u8],
    detached: Option<&'a [u8]>,
    out: &mut [u8],
) -> Option<Result<MessageSpans, Refusal>>
    ensures { (i : ℕ) (ns : List ℤ) → let d = option_copied detached.entry in
        MatchOption result (out.new ≡ out.old) (ReturnsWith kind bytes.now
        (IsMessageSpans kind i external_aad.now d ns bytes.now)
        (HasNoView kind i external_aad.now d ns) out.old out.new) }
{
    one_item();
    let layout = laid_of(kind, bytes)?;
    match can_borrow(alloc, kind, &layout, bytes) {
        Ok(true) => {}
        Ok(false) => return None,
        Err(error) => return Some(Err(Refusal::Cose(error))),
    }
    if has_both(layout.seen.content, detached) {
        return None;
    }
    let texts = texts_of_seen(&layout, bytes, detached);
    let (proof_len, content_len) = (texts.proof.bytes.len(), texts.content.bytes.len());
    let len = sum_of(0, proof_len, content_len, texts.key_id.text.bytes.len())?;
    len.checked_add(out.len())?;
    let spans = unsized_spans(&texts, layout.seen.is_tagged, len, bytes);
    let given = given_content(kind, layout.seen.content, detached);
    match layout.seen.put_structure(external_aad, given, out) {
        Ok(structure_len) => Some(Ok(with_structure(spans, structure_len))),
        Err(error) => {
            let refusal = refusal_of(error)?;
            Some(Err(refusal))
        }
    }
}

/// Returns a place in the bytes that were written.
fn written_at(at: usize) -> Start
    ensures { result ≡ written_at at }
{
    Start {
        is_input: false,
        at,
    }
}

/// Returns the places of texts that were written one after another.
fn copied_spans(view: MessageView) -> MessageSpans
    ensures { result ≡ copied_spans view }
{
    let key_id = view.len.saturating_sub(view.key_id_len);
    MessageSpans {
        view,
        proof: written_at(view.structure_len),
        content: written_at(key_id.saturating_sub(view.content_len)),
        key_id: written_at(key_id),
        len: view.len,
    }
}

/// Applies `copied_spans` to the view of a result.
fn copied(answer: Result<MessageView, Refusal>) -> Result<MessageSpans, Refusal>
    ensures { result ≡ copied answer }
{
    match answer {
        Ok(view) => Ok(copied_spans(view)),
        Err(refusal) => Err(refusal),
    }
}

/// Returns the same as [`message_spans`], with copies of the texts after the structure.
fn copied_texts(
    alloc: Global,
    kind: Kind,
    bytes: &[u8],
    index: usize,
    external_aad: &[u8],
    detached: Option<&[u8]>,
    known: &[i64],
    out: &mut [u8],
) -> Result<MessageSpans, Refusal>
    ensures { let d = option_copied detached.entry in
        ReturnsWith kind bytes.now
        (IsMessageSpans kind index external_aad.now d known.now bytes.now)
        (HasNoView kind index external_aad.now d known.now) out.old out.new result }
{
    let found = match find_decoded(alloc, kind, bytes) {
        Ok(found) => found,
        Err(error) => return Err(Refusal::Cose(error)),
    };
    copied(view_of(
        alloc,
        kind,
        &found,
        index,
        external_aad,
        detached,
        known,
        out,
    ))
}

/// Writes a message's structure to the front of `out`, and returns the places of the message's
/// other texts.
///
/// The view is that of [`message_view`](crate::message_view). The structure is what is signed,
/// authenticated, or goes with the ciphertext. The signature or tag, the content and the key
/// identifier are given by their places. They are in `bytes`, or after the structure in `out`.
///
/// `is_input` of each place says where it is. They are in `bytes` if the message has no list of
/// signatures and no critical labels, and its strings have definite lengths (RFC 8949, section
/// 3.2.3).
///
/// # Errors
/// The errors of [`message_view`](crate::message_view).
pub fn message_spans(
    alloc: Global,
    kind: Kind,
    bytes: &[u8],
    index: usize,
    external_aad: &[u8],
    detached: Option<&[u8]>,
    known: &[i64],
    out: &mut [u8],
) -> Result<MessageSpans, Refusal>
    ensures { let d = option_copied detached.entry in
        ReturnsWith kind bytes.now
        (IsMessageSpans kind index external_aad.now d known.now bytes.now)
        (HasNoView kind index external_aad.now d known.now) out.old out.new result }
{
    if let Some(answer) = borrowed_spans(alloc, kind, bytes, external_aad, detached, out) {
        return answer;
    }
    copied_texts(
        alloc,
        kind,
        bytes,
        index,
        external_aad,
        detached,
        known,
        out,
    )
}
