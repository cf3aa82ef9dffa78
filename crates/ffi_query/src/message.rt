//! Everything that verifying or decrypting a message takes (RFC 8152, sections 4 to 6), in one
//! call.

ghost use Rattle.std.specs.Prelude.{◌++◌, length};
ghost use Rattle.std.specs.Option.{option_copied};
ghost use Rattle.ffi_query.specs.Results.{ReturnsWith, PutsTexts};
ghost use Rattle.ffi_query.specs.Borrowed.{borrowed_text};
ghost use Rattle.ffi_query.specs.View.{HasNoView, IsMessageView};

use crate::borrowed::{Borrowed, find_borrowed};
use crate::found::find_decoded;
use crate::kind::Kind;
use crate::refusal::Refusal;
use crate::view::{MessageView, view_of};
use crate::written::put_texts;
use std::alloc::Global;

/// Writes the four texts to the front of `out`, and returns their total length. The first text is
/// in two parts.
///
/// # Errors
/// - `Short` with the length needed, if `out` is too small.
/// - `Cose` with `OutOfMemory` if the length doesn't fit in a `usize`.
///
/// `out` is then unchanged.
fn put_four(
    front: &[u8],
    end: &[u8],
    proof: &[u8],
    content: &[u8],
    key_id: &[u8],
    out: &mut [u8],
) -> Result<usize, Refusal>
    ensures { let t = (front.now ++ end.now) ++ (proof.now ++ (content.now ++ key_id.now)) in
        PutsTexts (length t) t out.old out.new result }
{
    put_texts(&[front, end, proof, content, key_id], out)
}

/// Writes the four texts to the front of `out`, and returns the view.
///
/// # Errors
/// - `Short` with the length needed, if `out` is too small.
/// - `Cose` with `OutOfMemory` if the length doesn't fit in a `usize`.
///
/// `out` is then unchanged.
fn put_view(lent: &Borrowed<'_>, out: &mut [u8]) -> Result<MessageView, Refusal>
    ensures { PutsTexts lent.now.view (borrowed_text lent.now) out.old out.new result }
{
    let structure = &lent.structure;
    let (proof, content, key_id) = (lent.proof.bytes, lent.content.bytes, lent.key_id.bytes);
    match put_four(&structure.front, structure.end, proof, content, key_id, out) {
        Ok(_) => Ok(lent.view),
        Err(refusal) => Err(refusal),
    }
}

/// Writes the texts that verifying or decrypting a message takes to the front of `out`, and returns
/// the message's view.
///
/// Four texts are written, one after another:
/// - the bytes that are signed, authenticated, or go with the ciphertext, as
///   [`structure_of`](crate::structure_of) writes them,
/// - the signature or the tag, or nothing for an encrypted message,
/// - the payload or ciphertext that the message carries,
/// - the key identifier.
///
/// The view has their lengths, the algorithm, and the header that has the key identifier. It says
/// whether there is `crit`, whether the caller understands it, and whether the message is under its
/// tag.
///
/// For a [`Kind::Sign`] the structure, the algorithm and the key are those of the signer at
/// `index`, counted from 0. Other kinds ignore `index`.
///
/// If `detached` is `None`, the payload that is signed or authenticated is the one that the message
/// carries. Else the payload is `detached`, the message must carry `nil`, and the third text is
/// empty. The same holds for the ciphertext of an encrypted message. But that may also be absent.
///
/// The message only names its key and its algorithm. Use a key that you trust, and an algorithm
/// that you allow for it. `known` are the critical labels that you understand. Refuse a message
/// if `is_understood` is false.
///
/// # Errors
/// - `Short` with the total length of the four texts, if `out` is too small.
/// - `Misuse` if the message carries a payload or ciphertext and `detached` gives another.
/// - `Absent` if items of the kind have no structure, or if a [`Kind::Sign`] has no signer at
///   `index`.
/// - `Absent` if the message carries no payload and `detached` is `None`.
/// - `Cose` with an error of [`check`](crate::check).
///
/// `out` is then unchanged.
pub fn message_view(
    alloc: Global,
    kind: Kind,
    bytes: &[u8],
    index: usize,
    external_aad: &[u8],
    detached: Option<&[u8]>,
    known: &[i64],
    out: &mut [u8],
) -> Result<MessageView, Refusal>
    ensures { let d = option_copied detached.entry in
        ReturnsWith kind bytes.now
        (IsMessageView kind index external_aad.now d known.now bytes.now)
        (HasNoView kind index external_aad.now d known.now) out.old out.new result }
{
    match find_borrowed(alloc, kind, bytes, external_aad, detached) {
        Ok(Some(lent)) => return put_view(&lent, out),
        Ok(None) => {}
        Err(error) => return Err(Refusal::Cose(error)),
    }
    match find_decoded(alloc, kind, bytes) {
        Ok(found) => view_of(
            alloc,
            kind,
            &found,
            index,
            external_aad,
            detached,
            known,
            out,
        ),
        Err(error) => Err(Refusal::Cose(error)),
    }
}
