//! The structures that are signed, authenticated, or go with a ciphertext (RFC 8152, sections 4.4,
//! 5.3 and 6.3).

ghost use Rattle.std.specs.Prelude.{◌≡◌, [], ◌∷◌, codes, IfOk, IfErr, option_map};
ghost use Rattle.std.specs.Cow.{cow_slice_items};
ghost use Rattle.std.specs.Option.{option_copied};
ghost use Rattle.coset.specs.CoseError.TheVariants.{OutOfMemory};
ghost use Rattle.coset.specs.Pulls.{pull_item};
ghost use Rattle.coset.specs.Shortest.{IsShortest};
ghost use Rattle.coset.specs.Structure.{structure};
ghost use Rattle.ffi_query.specs.Results.{Answers, ReturnsOr, Finds, IsEncodingOf};
ghost use Rattle.ffi_query.specs.Places.{element};
ghost use Rattle.ffi_query.specs.Structures.{HasNoStructure, IsRecipientStructure, IsStructure, IsStructureOnce, content_at, content_in, content_structure, encryption_structure, is_attached, is_filled, is_given_at, is_given_twice, signer_in, signer_structure, structure_of_one, structure_of_three, structure_of_two};

use crate::item::{bytes_in, element, item_of, member_at};
use crate::kind::Kind;
use crate::part::content_part;
use crate::refusal::Refusal;
use crate::written::write_found;
use coset::Result;
use coset::cbor::de::Pull;
use coset_core::structure::structure_bytes;
use std::alloc::Global;
use std::borrow::CowSlice;

/// Returns the content of the payload's place: its byte string, or `detached` if it is `nil`.
/// Returns `None` if there are both or neither.
///
/// # Errors
/// `OutOfMemory` if an allocation fails.
fn content_at<'a>(
    alloc: Global,
    place: Pull<'_>,
    detached: Option<&'a [u8]>,
) -> Result<Option<CowSlice<'a, u8, Global>>>
    ensures content { IfOk result (λ o. option_map cow_slice_items o
        ≡ content_at (pull_item place.entry) (option_copied detached.entry)) }
    ensures memory { IfErr result (λ e. e ≡ OutOfMemory) }
{
    match detached {
        Some(content) => {
            if place.is_null() {
                Ok(Some(CowSlice::Borrowed(content)))
            } else {
                Ok(None)
            }
        }
        None => match place.to_bytes(alloc)? {
            Some(content) => Ok(Some(CowSlice::Owned(content))),
            None => Ok(None),
        },
    }
}

/// Returns the content that is signed or authenticated: the item's third element, or `detached` if
/// that is `nil`.
///
/// # Errors
/// `OutOfMemory` if an allocation fails.
pub(crate) fn content_in<'a>(
    alloc: Global,
    item: Pull<'_>,
    detached: Option<&'a [u8]>,
) -> Result<Option<CowSlice<'a, u8, Global>>>
    ensures content { IfOk result (λ o. option_map cow_slice_items o
        ≡ content_in (element 2 (pull_item item.entry)) (option_copied detached.entry)) }
    ensures memory { IfErr result (λ e. e ≡ OutOfMemory) }
{
    match element(item, 2) {
        Some(place) => content_at(alloc, place, detached),
        None => Ok(None),
    }
}

/// Encodes the structure of a context, the protected bytes and `external_aad`.
///
/// # Errors
/// `OutOfMemory` if an allocation fails.
fn structure_of_one(
    alloc: Global,
    context: &str,
    external_aad: &[u8],
    protected: Option<Vec<u8>>,
) -> Result<Option<Vec<u8>>>
    ensures found { IfOk result (Finds (λ b. b.items) (IsEncodingOf
        (structure_of_one context.now external_aad.now (option_map (λ b. b.items) protected)))) }
    ensures memory { IfErr result (λ e. e ≡ OutOfMemory) }
{
    match protected {
        Some(protected) => {
            let parts = [protected.as_slice(), external_aad];
            Ok(Some(structure_bytes(alloc, context, &parts)?))
        }
        None => Ok(None),
    }
}

/// Encodes a structure of a context and three byte strings.
///
/// # Errors
/// `OutOfMemory` if an allocation fails.
pub(crate) fn two_encoded(
    alloc: Global,
    context: &str,
    protected: &[u8],
    external_aad: &[u8],
    content: &[u8],
) -> Result<Vec<u8>>
    ensures shortest { IfOk result (λ b. IsShortest b.items
        (structure context.now (protected.now ∷ external_aad.now ∷ content.now ∷ []))) }
    ensures memory { IfErr result (λ e. e ≡ OutOfMemory) }
{
    structure_bytes(alloc, context, &[protected, external_aad, content])
}

/// Encodes a structure of a context and four byte strings.
///
/// # Errors
/// `OutOfMemory` if an allocation fails.
pub(crate) fn three_encoded(
    alloc: Global,
    context: &str,
    body: &[u8],
    signer: &[u8],
    external_aad: &[u8],
    content: &[u8],
) -> Result<Vec<u8>>
    ensures shortest { IfOk result (λ b. IsShortest b.items (structure context.now
        (body.now ∷ signer.now ∷ external_aad.now ∷ content.now ∷ []))) }
    ensures memory { IfErr result (λ e. e ≡ OutOfMemory) }
{
    structure_bytes(alloc, context, &[body, signer, external_aad, content])
}

/// Encodes the structure of a context, the protected bytes, `external_aad` and the content.
///
/// # Errors
/// `OutOfMemory` if an allocation fails.
fn structure_of_two(
    alloc: Global,
    context: &str,
    external_aad: &[u8],
    protected: Option<Vec<u8>>,
    content: Option<CowSlice<'_, u8, Global>>,
) -> Result<Option<Vec<u8>>>
    ensures found { IfOk result (Finds (λ b. b.items) (IsEncodingOf
        (structure_of_two context.now external_aad.now (option_map (λ b. b.items) protected)
        (option_map cow_slice_items content.entry)))) }
    ensures memory { IfErr result (λ e. e ≡ OutOfMemory) }
{
    match protected {
        Some(protected) => match content {
            Some(content) => {
                let encoded = two_encoded(alloc, context, &protected, external_aad, &content)?;
                Ok(Some(encoded))
            }
            None => Ok(None),
        },
        None => Ok(None),
    }
}

/// Encodes the structure that a signer signs, from both protected headers, `external_aad` and the
/// content.
///
/// # Errors
/// `OutOfMemory` if an allocation fails.
fn structure_of_three(
    alloc: Global,
    external_aad: &[u8],
    protected: Option<Vec<u8>>,
    signer: Option<Vec<u8>>,
    content: Option<CowSlice<'_, u8, Global>>,
) -> Result<Option<Vec<u8>>>
    ensures found { IfOk result (Finds (λ b. b.items) (IsEncodingOf
        (structure_of_three external_aad.now (option_map (λ b. b.items) protected)
        (option_map (λ b. b.items) signer) (option_map cow_slice_items content.entry)))) }
    ensures memory { IfErr result (λ e. e ≡ OutOfMemory) }
{
    match protected {
        Some(protected) => match signer {
            Some(signer) => match content {
                Some(content) => {
                    let encoded = three_encoded(
                        alloc,
                        "Signature",
                        &protected,
                        &signer,
                        external_aad,
                        &content,
                    )?;
                    Ok(Some(encoded))
                }
                None => Ok(None),
            },
            None => Ok(None),
        },
        None => Ok(None),
    }
}

/// Encodes the structure that goes with the item's ciphertext, in this context.
///
/// # Errors
/// `OutOfMemory` if an allocation fails.
fn encryption_structure(
    alloc: Global,
    context: &str,
    item: Pull<'_>,
    external_aad: &[u8],
) -> Result<Option<Vec<u8>>>
    ensures found { IfOk result (Finds (λ b. b.items) (IsEncodingOf
        (encryption_structure context.now external_aad.now (pull_item item.entry)))) }
    ensures memory { IfErr result (λ e. e ≡ OutOfMemory) }
{
    let protected = bytes_in(alloc, item, 0)?;
    structure_of_one(alloc, context, external_aad, protected)
}

/// Encodes the structure over the content of a message, in this context.
///
/// # Errors
/// `OutOfMemory` if an allocation fails.
fn content_structure(
    alloc: Global,
    context: &str,
    item: Pull<'_>,
    external_aad: &[u8],
    detached: Option<&[u8]>,
) -> Result<Option<Vec<u8>>>
    ensures found { IfOk result (Finds (λ b. b.items) (IsEncodingOf
        (content_structure context.now external_aad.now (option_copied detached.entry)
        (pull_item item.entry)))) }
    ensures memory { IfErr result (λ e. e ≡ OutOfMemory) }
{
    let protected = bytes_in(alloc, item, 0)?;
    let content = content_in(alloc, item, detached)?;
    structure_of_two(alloc, context, external_aad, protected, content)
}

/// Returns the protected bytes of the signer at `index`.
///
/// # Errors
/// `OutOfMemory` if an allocation fails.
fn signer_in(alloc: Global, kind: Kind, item: Pull<'_>, index: usize) -> Result<Option<Vec<u8>>>
    ensures bytes { IfOk result (λ o. option_map (λ b. b.items) o
        ≡ signer_in kind index (pull_item item.entry)) }
    ensures memory { IfErr result (λ e. e ≡ OutOfMemory) }
{
    match member_at(kind, item, index) {
        Some(signer) => bytes_in(alloc, signer, 0),
        None => Ok(None),
    }
}

/// Encodes the structure that the signer at `index` signs.
///
/// # Errors
/// `OutOfMemory` if an allocation fails.
fn signer_structure(
    alloc: Global,
    kind: Kind,
    item: Pull<'_>,
    index: usize,
    external_aad: &[u8],
    detached: Option<&[u8]>,
) -> Result<Option<Vec<u8>>>
    ensures found { IfOk result (Finds (λ b. b.items) (IsEncodingOf
        (signer_structure kind index external_aad.now (option_copied detached.entry)
        (pull_item item.entry)))) }
    ensures memory { IfErr result (λ e. e ≡ OutOfMemory) }
{
    let protected = bytes_in(alloc, item, 0)?;
    let signer = signer_in(alloc, kind, item, index)?;
    let content = content_in(alloc, item, detached)?;
    structure_of_three(alloc, external_aad, protected, signer, content)
}

/// Encodes the structure of an item of this kind, or returns `None` if it has none.
///
/// # Errors
/// `OutOfMemory` if an allocation fails.
pub(crate) fn find_structure(
    alloc: Global,
    kind: Kind,
    item: Pull<'_>,
    index: usize,
    external_aad: &[u8],
    detached: Option<&[u8]>,
) -> Result<Option<Vec<u8>>>
    ensures found { IfOk result (Finds (λ b. b.items) (IsStructure kind index external_aad.now
        (option_copied detached.entry) (pull_item item.entry))) }
    ensures memory { IfErr result (λ e. e ≡ OutOfMemory) }
{
    match kind {
        Kind::Sign1(_) => content_structure(alloc, "Signature1", item, external_aad, detached),
        Kind::Sign(_) => signer_structure(alloc, kind, item, index, external_aad, detached),
        Kind::Mac0(_) => content_structure(alloc, "MAC0", item, external_aad, detached),
        Kind::Mac(_) => content_structure(alloc, "MAC", item, external_aad, detached),
        Kind::Encrypt0(_) => encryption_structure(alloc, "Encrypt0", item, external_aad),
        Kind::Encrypt(_) => encryption_structure(alloc, "Encrypt", item, external_aad),
        _ => Ok(None),
    }
}

/// Returns true if there is an element, and it isn't `nil`.
fn is_filled(place: Option<Pull<'_>>) -> bool
    ensures { result ≡ is_filled (option_map pull_item place.entry) }
{
    match place {
        Some(item) => !item.is_null(),
        None => false,
    }
}

/// Returns true if the item has an element other than `nil` at this place.
fn is_attached(place: Option<usize>, item: Pull<'_>) -> bool
    ensures { result ≡ is_attached place (pull_item item.entry) }
{
    match place {
        Some(place) => is_filled(element(item, place)),
        None => false,
    }
}

/// Returns true if `detached` is given, and the item carries something at this place too.
pub(crate) fn is_given_at(place: Option<usize>, detached: Option<&[u8]>, item: Pull<'_>) -> bool
    ensures { result ≡ is_given_at place (option_copied detached.entry) (pull_item item.entry) }
{
    match detached {
        Some(_) => is_attached(place, item),
        None => false,
    }
}

/// Returns true if `detached` is given, and the item carries a payload or ciphertext too.
pub(crate) fn is_given_twice(kind: Kind, detached: Option<&[u8]>, item: Pull<'_>) -> bool
    ensures { result
        ≡ is_given_twice kind (option_copied detached.entry) (pull_item item.entry) }
{
    is_given_at(kind.place_of(content_part(kind)), detached, item)
}

/// Writes the structure of a message to the front of `out`, and returns its length.
///
/// The structure is what is signed, authenticated, or goes with the ciphertext: `Sig_structure`,
/// `MAC_structure` or `Enc_structure` (RFC 8152, sections 4.4, 5.3 and 6.3). It is written in its
/// shortest encoding, with the bytes of protected headers as they were received.
///
/// For a [`Kind::Sign`] it is the structure that the signer at `index` signs, counted from 0. Other
/// kinds ignore `index`.
///
/// If `detached` is `None`, the payload that is signed or authenticated is the one that the message
/// carries. Else the payload is `detached`, and the message must carry `nil`. An `Enc_structure`
/// has no payload. But the message must carry no ciphertext either if `detached` is given.
///
/// # Errors
/// - `Short` with the length needed, if `out` is too small.
/// - `Misuse` if the message carries a payload or ciphertext and `detached` gives another.
/// - `Absent` if items of the kind have no structure, or if a [`Kind::Sign`] has no signer at
///   `index`.
/// - `Absent` if the message carries no payload and `detached` is `None`.
/// - `Cose` with an error of [`check`](crate::check).
///
/// `out` is then unchanged.
pub fn structure_of(
    alloc: Global,
    kind: Kind,
    bytes: &[u8],
    index: usize,
    external_aad: &[u8],
    detached: Option<&[u8]>,
    out: &mut [u8],
) -> Result<usize, Refusal>
    ensures { let d = option_copied detached.entry in
        ReturnsOr kind bytes.now (IsStructureOnce kind index external_aad.now d)
        (HasNoStructure kind index external_aad.now d) out.old out.new result }
{
    let item = match item_of(alloc, kind, bytes) {
        Ok(item) => item,
        Err(error) => return Err(Refusal::Cose(error)),
    };
    if is_given_twice(kind, detached, item) {
        return Err(Refusal::Misuse);
    }
    write_found(
        find_structure(alloc, kind, item, index, external_aad, detached),
        out,
    )
}

/// Encodes the structure that goes with the ciphertext of a recipient in a `holder`.
///
/// # Errors
/// `OutOfMemory` if an allocation fails.
fn find_recipient_structure(
    alloc: Global,
    holder: Kind,
    item: Pull<'_>,
    aad: &[u8],
) -> Result<Option<Vec<u8>>>
    ensures found { IfOk result (Finds (λ b. b.items)
        (IsRecipientStructure holder aad.now (pull_item item.entry))) }
    ensures memory { IfErr result (λ e. e ≡ OutOfMemory) }
{
    match holder {
        Kind::Encrypt(_) => encryption_structure(alloc, "Enc_Recipient", item, aad),
        Kind::Mac(_) => encryption_structure(alloc, "Mac_Recipient", item, aad),
        Kind::Recipient => encryption_structure(alloc, "Rec_Recipient", item, aad),
        _ => Ok(None),
    }
}

/// Writes the structure that goes with a recipient's ciphertext to the front of `out`, and returns
/// its length.
///
/// It is the shortest encoding of an `Enc_structure` (RFC 8152, section 5.3), with the bytes of the
/// protected header as they were received.
///
/// `bytes` are a [`Kind::Recipient`]. The context depends on the kind that contains the recipient:
/// - `Enc_Recipient` if `holder` is a [`Kind::Encrypt`] in any form,
/// - `Mac_Recipient` if it is a [`Kind::Mac`] in any form,
/// - `Rec_Recipient` if it is a [`Kind::Recipient`] itself.
///
/// # Errors
/// - `Short` with the length needed, if `out` is too small.
/// - `Absent` if items of the kind `holder` contain no recipients.
/// - `Cose` with an error of [`check`](crate::check).
///
/// `out` is then unchanged.
pub fn recipient_structure_of(
    alloc: Global,
    holder: Kind,
    bytes: &[u8],
    external_aad: &[u8],
    out: &mut [u8],
) -> Result<usize, Refusal>
    ensures { Answers Kind.Recipient bytes.now (IsRecipientStructure holder external_aad.now)
        out.old out.new result }
{
    match item_of(alloc, Kind::Recipient, bytes) {
        Ok(item) => write_found(
            find_recipient_structure(alloc, holder, item, external_aad),
            out,
        ),
        Err(error) => Err(Refusal::Cose(error)),
    }
}
