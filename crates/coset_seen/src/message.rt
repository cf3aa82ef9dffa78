//! Messages, seen in the bytes that encode them.

ghost use Rattle.std.specs.Option.{option_copied};
ghost use Rattle.std.specs.Prelude.{◌≡◌, ◌<◌, ◌^◌, ℕ, List, IfErr, IfOk, IfSome, IsTrue, false, length};
ghost use Rattle.coset.specs.CoseError.TheVariants.{OutOfMemory};
ghost use Rattle.coset.specs.Headers.{HeaderView, ProtectedView, header, protected};
ghost use Rattle.coset.specs.Item.{bytes, dict};
ghost use Rattle.coset.specs.Pulls.{pull_item};
ghost use Rattle.coset_seen.specs.Begins.{IsAhead};
ghost use Rattle.coset_seen.specs.Layout.{IsDescribed, IsLayout};
ghost use Rattle.coset_seen.specs.Seen.{FindsKeyId, GivesContent, IsContentOf, IsPart, IsSeen, IsTakenFrom, LiesIn, MakesStructure, PutsStructure};
ghost use Rattle.coset_seen.specs.declared.kind.Kind.{Kind};

use crate::elements::{Elements, elements_of};
use crate::forward::Ahead;
use crate::kind::Kind;
use crate::structure::{StructureError, put_structure, structure_of};
use coset::cbor::de::Pull;
use coset::laws::one_item;
use coset::{CoseError, FromPull, Header, ProtectedHeader};
use std::alloc::Global;

/// Bytes of a message, and their place in the input of [`see`] or [`layout_of`].
#[derive(Clone, Copy, Debug)]
pub struct Part<'a> {
    /// The bytes of the part. There may be none.
    pub bytes: &'a [u8],
    /// The offset in bytes from the start of the input, which includes the message's tag. A part of
    /// the protected header has such an offset too.
    pub at: usize,
}

/// A key identifier (`kid`, RFC 8152, section 3.1).
#[derive(Clone, Copy, Debug)]
pub struct KeyId<'a> {
    /// The bytes of the identifier. They aren't empty if the header is valid.
    pub part: Part<'a>,
    /// Whether the protected header has it. Otherwise the unprotected header has it.
    pub is_protected: bool,
}

/// A message that [`see`] or [`layout_of`] found, borrowed from the bytes that encode it. Nothing
/// in it is verified.
///
/// The fields are described as `see` returns them; a caller can also set others. Other header
/// parameters, such as the IV, aren't included: decode the message for them.
#[derive(Clone, Copy, Debug)]
pub struct Seen<'a> {
    /// The kind that the caller gave.
    pub kind: Kind,
    /// Whether the message is under its CBOR tag (RFC 8152, section 2).
    pub is_tagged: bool,
    /// The content of the protected header's byte string, as received. It is empty, or encodes a
    /// map. The message's structure contains it.
    pub protected: Part<'a>,
    /// The algorithm in the protected header (`alg`, RFC 8152, section 3.1): a registered number,
    /// or one for private use. `None` if that header has none, even if the unprotected one does.
    pub algorithm: Option<i64>,
    /// The key identifier of the protected header, or else of the unprotected header. `None` if
    /// neither has one.
    pub key_id: Option<KeyId<'a>>,
    /// The payload or the ciphertext, which may be empty. `None` if the message has `nil` in its
    /// place: the content is then detached or absent.
    pub content: Option<Part<'a>>,
    /// The signature or the MAC's tag, which may be empty. An encrypted message has neither, and an
    /// empty part after its content.
    pub proof: Part<'a>,
}

/// Returns the bytes as a part of the input.
fn part_of<'a>(found: Ahead<'a>, input: &[u8]) -> Part<'a>
    ensures bytes { result.bytes.now ≡ found.entry.bytes.now }
    ensures part { IsAhead input.now found.entry → IsPart input.now result }
{
    let behind = found.behind.len().saturating_add(found.bytes.len());
    Part {
        bytes: found.bytes,
        at: input.len().saturating_sub(behind),
    }
}

/// Returns `inner`, a part of `outer`, with its offset in the whole input.
fn within<'a>(outer: Part<'_>, inner: Part<'a>) -> Part<'a>
    ensures bytes { result.bytes.now ≡ inner.entry.bytes.now }
    ensures part { (b : List ℕ) → length b < 2 ^ 64 → IsPart b outer.entry
        → IsPart outer.entry.bytes.now inner.entry → IsPart b result }
{
    Part {
        bytes: inner.bytes,
        at: outer.at.saturating_add(inner.at),
    }
}

/// Returns the key identifier of a message.
#[inline(always)]
fn key_id_of<'a>(elements: &Elements<'a>, protected: Part<'a>, input: &[u8]) -> Option<KeyId<'a>>
    ensures { FindsKeyId input.now protected.entry elements.now.first.named.key_id
        elements.now.second.named.key_id result }
{
    if let Some(found) = elements.first.named.key_id {
        return Some(KeyId {
            part: within(protected, part_of(found, protected.bytes)),
            is_protected: true,
        });
    }
    match elements.second.named.key_id {
        Some(found) => Some(KeyId {
            part: part_of(found, input),
            is_protected: false,
        }),
        None => None,
    }
}

/// Returns the content of a message.
#[inline(always)]
fn content_of<'a>(elements: &Elements<'a>, input: &[u8]) -> Option<Part<'a>>
    ensures { IsContentOf input.now elements.now.content result }
{
    match elements.content {
        Some(found) => Some(part_of(found, input)),
        None => None,
    }
}

/// Returns the parts of a message.
#[inline(always)]
fn taken_from<'a>(kind: Kind, is_tagged: bool, elements: &Elements<'a>, input: &'a [u8]) -> Seen<'a>
    ensures { IsTakenFrom kind input.now is_tagged elements.now result }
{
    let protected = part_of(elements.protected, input);
    Seen {
        kind,
        is_tagged,
        protected,
        algorithm: elements.first.named.algorithm,
        key_id: key_id_of(elements, protected, input),
        content: content_of(elements, input),
        proof: part_of(elements.proof, input),
    }
}

/// Finds a message of this kind, with or without its tag, in the bytes that encode it. Allocates
/// nothing.
///
/// Verifies and decrypts nothing. Without its tag, a `COSE_Sign1` is also a `COSE_Mac0`, so the
/// caller must know the kind (RFC 8152, section 2).
///
/// `None` doesn't mean that the message is invalid: the facade may decode it all the same. The
/// message must be the whole input, and both its headers must be plain. Its array, the headers'
/// maps and its byte strings must have definite lengths (RFC 8949, section 3.2).
///
/// The labels of a plain header are integers from 0 to `i64::MAX`, in ascending order. None is 2, 6,
/// 7, 11 or 12: it has no `crit`, no Partial IV, and no countersignature but an abbreviated one
/// under label 9. Its algorithm is a registered number or one for private use, and its content type
/// a registered number. Its key identifier and its IV are byte strings of definite length, and not
/// empty. Other labels may have any value.
///
/// A label may be in both headers, as in a decoded message. RFC 8152, section 3, lets applications
/// check that it isn't.
pub fn see(kind: Kind, input: &[u8]) -> Option<Seen<'_>>
    // The bytes describe the message.
    ensures describes { IfSome result (IsSeen kind input.now) }
    // The items that the bytes encode.
    ensures lies { IfSome result (LiesIn kind input.now) }
{
    if kind.has_recipients() {
        return None;
    }
    let (is_tagged, elements) = elements_of(kind, input)?;
    if !elements.is_plain {
        return None;
    }
    Some(taken_from(kind, is_tagged, &elements, input))
}

/// The parts of a message, whatever its headers are. They may be invalid.
#[derive(Clone, Copy)]
pub struct Layout<'a> {
    /// The parts. If the algorithm isn't an integer in the range of `i64`, it is `None` here.
    pub seen: Seen<'a>,
    /// Whether the protected header's algorithm isn't an integer in the range of `i64`. If the
    /// header is valid, the algorithm is then a text.
    pub has_text: bool,
    /// Whether one of the headers has `crit`.
    pub is_critical: bool,
    /// The bytes from the protected header's byte string on, and those from the unprotected header
    /// on.
    fronts: (&'a [u8], &'a [u8]),
    is_first_plain: bool,
    is_second_plain: bool,
}

/// Returns true if one of the two is true.
fn is_either(first: bool, second: bool) -> bool
    ensures { result ≡ false → (first ≡ false) × (second ≡ false) }
{
    first || second
}

/// Returns true if the item is a valid protected header.
///
/// # Errors
/// `OutOfMemory` if an allocation fails.
fn is_protected(alloc: Global, place: Pull<'_>) -> Result<bool, CoseError>
    ensures valid { IfOk result (λ t. IsTrue t
        → (x : ProtectedView) × protected.describes (pull_item place.entry) x) }
    ensures memory { IfErr result (λ e. e ≡ OutOfMemory) }
{
    match ProtectedHeader::from_pull_bstr(alloc, place) {
        Ok(_) => Ok(true),
        Err(CoseError::OutOfMemory) => Err(CoseError::OutOfMemory),
        Err(_) => Ok(false),
    }
}

/// Returns true if the item is a valid unprotected header.
///
/// # Errors
/// `OutOfMemory` if an allocation fails.
fn is_unprotected(alloc: Global, place: Pull<'_>) -> Result<bool, CoseError>
    ensures valid { IfOk result (λ t. IsTrue t
        → (x : HeaderView) × header.describes (pull_item place.entry) x) }
    ensures memory { IfErr result (λ e. e ≡ OutOfMemory) }
{
    match Header::from_pull(alloc, place) {
        Ok(_) => Ok(true),
        Err(CoseError::OutOfMemory) => Err(CoseError::OutOfMemory),
        Err(_) => Ok(false),
    }
}

/// Finds the parts of a message of this kind, with or without its tag, in the bytes that encode it.
/// Allocates nothing.
///
/// The headers and the recipients aren't checked: [`Layout::is_valid`] checks the headers, and the
/// facade decodes recipients. Verifies and decrypts nothing.
///
/// `None` doesn't mean that the message is invalid. It is returned unless the message is the whole
/// input, and the protected header, the content, the signature or tag, and the key identifiers are
/// byte strings of definite length (RFC 8949, section 3.2.3).
pub fn layout_of(kind: Kind, input: &[u8]) -> Option<Layout<'_>>
    ensures { IfSome result (IsLayout kind input.now) }
{
    let (is_tagged, elements) = elements_of(kind, input)?;
    Some(Layout {
        seen: taken_from(kind, is_tagged, &elements, input),
        has_text: elements.first.has_text,
        is_critical: is_either(elements.first.is_critical, elements.second.is_critical),
        fronts: (elements.front, elements.protected.behind),
        is_first_plain: elements.first.is_plain,
        is_second_plain: elements.second.is_plain,
    })
}

impl Layout<'_> {
    /// Returns true if the protected header is valid.
    ///
    /// # Errors
    /// `OutOfMemory` if an allocation fails.
    fn is_first_valid(&self, alloc: Global) -> Result<bool, CoseError>
        ensures valid { (k : Kind) (b : List ℕ) (x : IsLayout k b self.now) → IfOk result (λ t.
            IsTrue t → (p : ProtectedView)
            × protected.describes (bytes self.now.seen.protected.bytes.now) p) }
        ensures memory { IfErr result (λ e. e ≡ OutOfMemory) }
    {
        one_item();
        if self.is_first_plain {
            return Ok(true);
        }
        match Pull::new(self.fronts.0) {
            Ok((protected, _)) => is_protected(alloc, protected),
            Err(_) => Ok(false),
        }
    }

    /// Returns true if the unprotected header is valid.
    ///
    /// # Errors
    /// `OutOfMemory` if an allocation fails.
    fn is_second_valid(&self, alloc: Global) -> Result<bool, CoseError>
        ensures valid { (k : Kind) (b : List ℕ) (x : IsLayout k b self.now) → IfOk result (λ t.
            IsTrue t → (u : HeaderView) × header.describes (dict x.second) u) }
        ensures memory { IfErr result (λ e. e ≡ OutOfMemory) }
    {
        one_item();
        if self.is_second_plain {
            return Ok(true);
        }
        match Pull::new(self.fronts.1) {
            Ok((unprotected, _)) => is_unprotected(alloc, unprotected),
            Err(_) => Ok(false),
        }
    }

    /// Returns true if both headers are valid and the message has no recipients. The bytes then
    /// describe the message. Headers that aren't plain are decoded by the facade.
    ///
    /// # Errors
    /// `OutOfMemory` if an allocation fails.
    pub fn is_valid(&self, alloc: Global) -> Result<bool, CoseError>
        ensures valid { (k : Kind) (b : List ℕ) → IsLayout k b self.now → IfOk result (λ t.
            IsTrue t → IsDescribed k b self.now.seen) }
        ensures memory { IfErr result (λ e. e ≡ OutOfMemory) }
    {
        if self.seen.kind.has_recipients() {
            return Ok(false);
        }
        match self.is_first_valid(alloc) {
            Ok(true) => self.is_second_valid(alloc),
            other => other,
        }
    }
}

impl Seen<'_> {
    /// Returns the content that the message carries, or `detached` if it carries none.
    ///
    /// # Errors
    /// - `TwoContents` if the message carries its content and `detached` is given.
    /// - `NoContent` if the message carries no content and none is given.
    fn content_or<'b>(&'b self, detached: Option<&'b [u8]>) -> Result<&'b [u8], StructureError>
        ensures { GivesContent self.now.content (option_copied detached.entry) result }
    {
        match (&self.content, detached) {
            (Some(content), None) => Ok(content.bytes),
            (None, Some(content)) => Ok(content),
            (Some(_), Some(_)) => Err(StructureError::TwoContents),
            (None, None) => Err(StructureError::NoContent),
        }
    }

    /// Writes the message's `Sig_structure`, `MAC_structure` or `Enc_structure` to the front of
    /// `out`, and returns its length (RFC 8152, sections 4.4, 6.3 and 5.3). The rest of `out` is
    /// unchanged. Allocates nothing.
    ///
    /// The content is the one that the message carries, or else `detached`. An `Enc_structure` is
    /// without the ciphertext, but one of the two must be there all the same.
    ///
    /// The protected bytes are those received. If [`see`] returned this message, the facade makes
    /// the same structure of the decoded one (the law `laws::structure_of_a_seen_message`).
    ///
    /// # Errors
    /// - `TwoContents` if the message carries its content and `detached` is given.
    /// - `NoContent` if the message carries no content and none is given.
    /// - `Short` with the length needed, if `out` is too small.
    /// - `OutOfMemory` if the length doesn't fit in a `usize`.
    ///
    /// `out` is then unchanged.
    pub fn put_structure(
        &self,
        external_aad: &[u8],
        detached: Option<&[u8]>,
        out: &mut [u8],
    ) -> Result<usize, StructureError>
        ensures { PutsStructure self.now external_aad.now self.now.content
            (option_copied detached.entry) out.old out.new result }
    {
        let content = self.content_or(detached)?;
        put_structure(self.kind, self.protected.bytes, external_aad, content, out)
    }

    /// Returns the structure that [`put_structure`](Seen::put_structure) writes, in a new vector.
    ///
    /// # Errors
    /// - `TwoContents` if the message carries its content and `detached` is given.
    /// - `NoContent` if the message carries no content and none is given.
    /// - `OutOfMemory` if an allocation fails.
    pub fn structure(
        &self,
        alloc: Global,
        external_aad: &[u8],
        detached: Option<&[u8]>,
    ) -> Result<Vec<u8>, StructureError>
        ensures { MakesStructure (λ v. v.items) self.now external_aad.now self.now.content
            (option_copied detached.entry) result }
    {
        let content = self.content_or(detached)?;
        structure_of(
            alloc,
            self.kind,
            self.protected.bytes,
            external_aad,
            content,
        )
    }
}
