//! Everything that verifying or decrypting a message takes, borrowed from the input.
//!
//! This covers messages without a list of signatures and without `crit`, whose strings have
//! definite lengths. All other messages are read by copies (`view`).

ghost use Rattle.std.specs.Prelude.{◌≡◌, ◌<◌, ◌+◌, ◌^◌, ◌++◌, ◌∷◌, [], ℕ, ℤ, List, Option, Some, IfOk, IfErr, IfSome, OnOk, false, length};
ghost use Rattle.std.specs.Option.{option_copied};
ghost use Rattle.coset.specs.CoseError.TheVariants.{OutOfMemory};
ghost use Rattle.coset.specs.Item.{Item};
ghost use Rattle.coset.specs.Shortest.{IsShortest};
ghost use Rattle.coset.specs.Structure.{structure};
ghost use Rattle.coset_cbor.specs.Least.{least_head};
ghost use Rattle.ffi_query.specs.Results.{IsEncodingOf};
ghost use Rattle.ffi_query.specs.Borrowed.{AreTexts, IsBorrowed, IsBorrowedOf, IsMapOf, structure_by};
ghost use Rattle.ffi_query.specs.Located.{IsLocated, IsTextIn};
ghost use Rattle.ffi_query.specs.Structures.{structure_of_one, structure_of_two};

use crate::kind::Kind;
use crate::located::{Located, Text};
use crate::seen::{can_borrow, has_both, laid_of, texts_of_seen};
use crate::view::{Algorithm, KeyIdPlace, MessageView};
use coset::Result;
use coset_cbor::laws::{least_encoding_is_shortest, one_item};
use coset_codec::traits::whole_item;
use coset_core::structure::{begin_structure, structure_bytes};
use std::alloc::Global;

/// A key identifier, and where it is.
#[derive(Clone, Copy)]
pub(crate) struct KeyId<'a> {
    pub(crate) place: KeyIdPlace,
    pub(crate) text: Text<'a>,
}

/// An encoded structure in two parts. `end` is the content that it ends with, or empty.
#[derive(Drop)]
pub(crate) struct Structure<'a> {
    pub(crate) front: Vec<u8>,
    pub(crate) end: &'a [u8],
}

/// A message's view, its structure, and its three other texts.
#[derive(Drop)]
pub(crate) struct Borrowed<'a> {
    pub(crate) view: MessageView,
    pub(crate) structure: Structure<'a>,
    pub(crate) proof: Text<'a>,
    pub(crate) content: Text<'a>,
    pub(crate) key_id: Text<'a>,
}

/// Returns the map encoded in a protected header's bytes, or `None` if they aren't one item.
pub(crate) fn map_located(protected: Text<'_>) -> Option<Located<'_>>
    ensures map { IsMapOf protected.entry.bytes.now result }
    ensures place { (b : List ℕ) → IsTextIn b protected.entry → IfSome result (IsLocated b) }
{
    match whole_item(protected.bytes) {
        Ok(item) => Some(Located {
            item,
            rest: protected.rest,
        }),
        Err(_) => None,
    }
}

/// Appends the shortest head of a byte string of this length.
///
/// # Errors
/// `OutOfMemory` if an allocation fails.
#[tactic(auto, unfolding(coset_cbor::specs::Least::least_head))]
fn put_bytes_head(out: &mut Vec<u8>, length: usize) -> Result<()>
    ensures ok { OnOk result (out.new.items ≡ out.old.items ++ least_head 2 length) }
    ensures small { length < 2 ^ 64 }
    ensures memory { IfErr result (λ e. e ≡ OutOfMemory) }
{
    let n = length as u64;
    if n < 24 {
        out.push(0x40 + n as u8)?;
    } else if n < 0x100 {
        out.push(0x58)?;
        out.push(n as u8)?;
    } else if n < 0x1_0000 {
        out.push(0x59)?;
        out.extend_from_slice(&(n as u16).to_be_bytes())?;
    } else if n < 0x1_0000_0000 {
        out.push(0x5A)?;
        out.extend_from_slice(&(n as u32).to_be_bytes())?;
    } else {
        out.push(0x5B)?;
        out.extend_from_slice(&n.to_be_bytes())?;
    }
    Ok(())
}

/// The length of the longest head (RFC 8949, section 3).
const LONGEST_HEAD: usize = 9;

/// Returns the shortest encoding of a structure, without the content that ends it.
///
/// # Errors
/// `OutOfMemory` if an allocation fails.
fn front_of(
    alloc: Global,
    context: &str,
    protected: &[u8],
    external_aad: &[u8],
    content: &[u8],
) -> Result<Vec<u8>>
    ensures front { IfOk result (λ f. IsShortest (f.items ++ content.now)
        (structure context.now (protected.now ∷ external_aad.now ∷ content.now ∷ []))) }
    ensures memory { IfErr result (λ e. e ≡ OutOfMemory) }
{
    least_encoding_is_shortest();
    let parts = [protected, external_aad];
    let mut front = begin_structure(alloc, context, &parts, 1, LONGEST_HEAD)?;
    put_bytes_head(&mut front, content.len())?;
    Ok(front)
}

/// Encodes the structure over a content, or returns `None` if there is no content.
///
/// # Errors
/// `OutOfMemory` if an allocation fails.
fn over_content<'a>(
    alloc: Global,
    context: &str,
    protected: &[u8],
    external_aad: &[u8],
    content: Option<&'a [u8]>,
) -> Result<Option<Structure<'a>>>
    ensures found { IfOk result (λ o. IfSome o (λ s.
        IsEncodingOf (structure_of_two context.now external_aad.now (Some protected.now)
        (option_copied content.entry)) (s.front.items ++ s.end.now))) }
    ensures memory { IfErr result (λ e. e ≡ OutOfMemory) }
{
    match content {
        Some(end) => {
            let front = front_of(alloc, context, protected, external_aad, end)?;
            Ok(Some(Structure { front, end }))
        }
        None => Ok(None),
    }
}

/// Encodes the structure that goes with a ciphertext.
///
/// # Errors
/// `OutOfMemory` if an allocation fails.
fn beside_ciphertext<'a>(
    alloc: Global,
    context: &str,
    protected: &[u8],
    external_aad: &[u8],
) -> Result<Option<Structure<'a>>>
    ensures found { IfOk result (λ o. IfSome o (λ s.
        IsEncodingOf (structure_of_one context.now external_aad.now (Some protected.now))
        (s.front.items ++ s.end.now))) }
    ensures memory { IfErr result (λ e. e ≡ OutOfMemory) }
{
    let front = structure_bytes(alloc, context, &[protected, external_aad])?;
    Ok(Some(Structure { front, end: &[] }))
}

/// Encodes the structure of a message of this kind, from its protected bytes and its content.
///
/// # Errors
/// `OutOfMemory` if an allocation fails.
fn borrowed_structure<'a>(
    alloc: Global,
    kind: Kind,
    protected: &[u8],
    external_aad: &[u8],
    content: Option<&'a [u8]>,
) -> Result<Option<Structure<'a>>>
    ensures found { IfOk result (λ o. IfSome o (λ s.
        IsEncodingOf (structure_by kind external_aad.now protected.now
        (option_copied content.entry)) (s.front.items ++ s.end.now))) }
    ensures memory { IfErr result (λ e. e ≡ OutOfMemory) }
{
    match kind {
        Kind::Sign1(_) => over_content(alloc, "Signature1", protected, external_aad, content),
        Kind::Mac0(_) => over_content(alloc, "MAC0", protected, external_aad, content),
        Kind::Mac(_) => over_content(alloc, "MAC", protected, external_aad, content),
        Kind::Encrypt0(_) => beside_ciphertext(alloc, "Encrypt0", protected, external_aad),
        Kind::Encrypt(_) => beside_ciphertext(alloc, "Encrypt", protected, external_aad),
        _ => Ok(None),
    }
}

/// Returns the sum of the two lengths, if it fits in a `usize`.
fn length_of(front: &[u8], end: &[u8]) -> Option<usize>
    ensures { IfSome result (λ n. n ≡ length front.now + length end.now) }
{
    front.len().checked_add(end.len())
}

/// Returns the sum, if it fits in a `usize`.
pub(crate) fn sum_of(a: usize, b: usize, c: usize, d: usize) -> Option<usize>
    ensures { IfSome result (λ n. n ≡ a + (b + (c + d))) }
{
    a.checked_add(b)?.checked_add(c)?.checked_add(d)
}

/// A message's algorithm and its texts, without the structure.
#[derive(Clone, Copy)]
pub(crate) struct Texts<'a> {
    pub(crate) protected: &'a [u8],
    pub(crate) algorithm: Algorithm,
    pub(crate) proof: Text<'a>,
    pub(crate) content: Text<'a>,
    pub(crate) key_id: KeyId<'a>,
    pub(crate) signed: Option<&'a [u8]>,
}

/// Returns the length of the structure, and that of all four texts, if both fit in a `usize`.
fn lengths_of(structure: &Structure<'_>, texts: &Texts<'_>) -> Option<(usize, usize)>
    ensures structure { IfSome result (λ n.
        n.0 ≡ length structure.now.front.items + length structure.now.end.now) }
    ensures all { IfSome result (λ n. n.1 ≡ n.0 + (length texts.now.proof.bytes.now
        + (length texts.now.content.bytes.now + length texts.now.key_id.text.bytes.now))) }
{
    let structure_len = length_of(&structure.front, structure.end)?;
    let (proof_len, content_len) = (texts.proof.bytes.len(), texts.content.bytes.len());
    let key_id_len = texts.key_id.text.bytes.len();
    let len = sum_of(structure_len, proof_len, content_len, key_id_len)?;
    Some((structure_len, len))
}

/// Returns everything that verifying or decrypting a message with these texts takes. It is `None`
/// if messages of the kind have no structure, or if there is no content for it.
///
/// # Errors
/// `OutOfMemory` if an allocation fails.
fn borrowed_by<'a>(
    alloc: Global,
    kind: Kind,
    texts: Texts<'a>,
    is_tagged: bool,
    external_aad: &[u8],
) -> Result<Option<Borrowed<'a>>>
    ensures lent { (b : List ℕ) (d : Option (List ℕ)) (i : ℕ) (ns : List ℤ) (v : Item)
        → AreTexts kind d b v texts.entry
        → IfOk result (λ o. IfSome o (IsBorrowed kind i external_aad.now d ns b v)) }
    ensures tagged { IfOk result (λ o. IfSome o (λ x. x.view.is_tagged ≡ is_tagged)) }
    ensures memory { IfErr result (λ e. e ≡ OutOfMemory) }
{
    let structure = borrowed_structure(alloc, kind, texts.protected, external_aad, texts.signed)?;
    let Some(structure) = structure else {
        return Ok(None);
    };
    let Some((structure_len, len)) = lengths_of(&structure, &texts) else {
        return Ok(None);
    };
    let view = MessageView {
        algorithm: texts.algorithm,
        key_id_place: texts.key_id.place,
        has_critical: false,
        is_understood: true,
        is_tagged,
        structure_len,
        proof_len: texts.proof.bytes.len(),
        content_len: texts.content.bytes.len(),
        key_id_len: texts.key_id.text.bytes.len(),
        len,
    };
    Ok(Some(Borrowed {
        view,
        structure,
        proof: texts.proof,
        content: texts.content,
        key_id: texts.key_id.text,
    }))
}

/// Returns everything that verifying or decrypting a message takes, if it can be borrowed from the
/// input. Returns `None` if the bytes aren't such a message of this kind, if there is no content, or
/// if the content is given twice.
///
/// # Errors
/// `OutOfMemory` if an allocation fails.
pub(crate) fn find_borrowed<'a>(
    alloc: Global,
    kind: Kind,
    bytes: &'a [u8],
    external_aad: &[u8],
    detached: Option<&'a [u8]>,
) -> Result<Option<Borrowed<'a>>>
    ensures lent { (i : ℕ) (ns : List ℤ) → IfOk result (λ o. IfSome o
        (IsBorrowedOf kind i external_aad.now (option_copied detached.entry) ns bytes.now)) }
    ensures memory { IfErr result (λ e. e ≡ OutOfMemory) }
{
    one_item();
    let Some(layout) = laid_of(kind, bytes) else {
        return Ok(None);
    };
    if !can_borrow(alloc, kind, &layout, bytes)? {
        return Ok(None);
    }
    if has_both(layout.seen.content, detached) {
        return Ok(None);
    }
    let texts = texts_of_seen(&layout, bytes, detached);
    borrowed_by(alloc, kind, texts, layout.seen.is_tagged, external_aad)
}
