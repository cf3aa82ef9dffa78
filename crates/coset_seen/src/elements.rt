//! The elements of a message, read forward.

ghost use Rattle.std.specs.Prelude.{◌≡◌, [], IfSome, true};
ghost use Rattle.coset_seen.specs.Elements.{BeginsContent, BeginsElements, BeginsMessage, BeginsProof, IsContent, IsCounted, IsFlatMessage, IsMessage, IsUntagged};
ghost use Rattle.coset_seen.specs.Kinds.{elements_of};

use crate::forward::{Ahead, bytes_at, closed, headed, item_at, null_at, opened};
use crate::kind::Kind;
use crate::labels::{Header, header_at, whole_header};
use coset::cbor::head::MajorType;
use coset::laws::one_item;
use coset_codec::traits::whole_item;

/// The elements of a message. `first` is the protected header, and `second` the unprotected header.
#[derive(Clone, Copy)]
pub(crate) struct Elements<'a> {
    /// Whether the array has a definite length and both headers are plain.
    pub(crate) is_plain: bool,
    /// Whether the message is known to have no recipients, and only integers and strings as values
    /// of its unprotected header.
    pub(crate) is_flat: bool,
    /// The bytes from the first element on.
    pub(crate) front: &'a [u8],
    pub(crate) protected: Ahead<'a>,
    pub(crate) first: Header<'a>,
    pub(crate) second: Header<'a>,
    pub(crate) content: Option<Ahead<'a>>,
    pub(crate) proof: Ahead<'a>,
}

/// Returns the parameters of the header in protected bytes. Returns `None` unless the bytes are
/// empty or encode a header.
fn named_in(content: &[u8]) -> Option<Header<'_>>
    ensures { IfSome result (IsContent content.now) }
{
    if content.is_empty() {
        return Some(Header::nothing(true));
    }
    whole_header(content)
}

/// Returns the content at the front, and the bytes after it. The content is `None` if `null` is
/// there. Returns `None` if neither `null` nor a byte string of definite length is there.
fn content_at(input: &[u8]) -> Option<(Option<Ahead<'_>>, &[u8])>
    ensures { IfSome result (λ x. BeginsContent input.now x.0 x.1.now) }
{
    if let Some(rest) = null_at(input) {
        return Some((None, rest));
    }
    let content = bytes_at(input)?;
    Some((Some(content), content.behind))
}

/// Returns an empty text at the front.
fn empty_at(input: &[u8]) -> Ahead<'_>
    ensures bytes { result.bytes.now ≡ [] }
    ensures behind { result.behind.now ≡ input.now }
{
    Ahead {
        bytes: &[],
        behind: input,
    }
}

/// Returns the signature or the tag at the front, and the bytes after the last element. The
/// signature or tag is empty if messages of the kind have neither.
#[inline(always)]
fn proof_at(kind: Kind, input: &[u8]) -> Option<(Ahead<'_>, &[u8])>
    ensures { IfSome result (λ x. BeginsProof kind input.now x.0 x.1.now) }
{
    match kind {
        Kind::Sign1 | Kind::Mac0 => {
            let proof = bytes_at(input)?;
            Some((proof, proof.behind))
        }
        Kind::Encrypt0 => Some((empty_at(input), input)),
        Kind::Mac => {
            let proof = bytes_at(input)?;
            let rest = item_at(proof.behind)?;
            Some((proof, rest))
        }
        Kind::Encrypt => {
            let rest = item_at(input)?;
            Some((empty_at(input), rest))
        }
    }
}

/// Returns true if the array has a definite length and both headers are plain.
fn are_plain(is_definite: bool, first: bool, second: bool) -> bool
    ensures { result ≡ true → (first ≡ true) × (second ≡ true) }
{
    is_definite && first && second
}

/// Returns true if a message with this unprotected header has no recipients, and only integers and
/// strings as values of this header. Nothing in it then nests deeper than 256 levels.
fn is_flat(kind: Kind, second: &Header<'_>) -> bool
    ensures { result ≡ true → IsFlatMessage kind second.now }
{
    second.is_flat() && !kind.has_recipients()
}

/// Returns the elements of a message, which begin at the front, and the bytes after them.
/// `is_definite` says whether their array has a definite length.
#[inline(always)]
fn elements_at(kind: Kind, is_definite: bool, input: &[u8]) -> Option<(Elements<'_>, &[u8])>
    ensures { IfSome result (λ x. BeginsElements kind input.now x.0 x.1.now) }
{
    let protected = bytes_at(input)?;
    let first = named_in(protected.bytes)?;
    let (second, rest) = header_at(protected.behind)?;
    let (content, rest) = content_at(rest)?;
    let (proof, rest) = proof_at(kind, rest)?;
    let elements = Elements {
        is_plain: are_plain(is_definite, first.is_plain, second.is_plain),
        is_flat: is_flat(kind, &second),
        front: input,
        protected,
        first,
        second,
        content,
        proof,
    };
    Some((elements, rest))
}

/// Returns true if the number of elements is that of the kind, or isn't announced.
fn is_counted(count: Option<u64>, kind: Kind) -> bool
    ensures { result ≡ true → IsCounted kind count }
{
    match count {
        Some(count) => count == kind.elements(),
        None => true,
    }
}

/// Returns the elements of the message at the front, and the bytes after the message.
#[inline(always)]
pub(crate) fn message_at(kind: Kind, input: &[u8]) -> Option<(Elements<'_>, &[u8])>
    ensures { IfSome result (λ x. BeginsMessage kind input.now x.0 x.1.now) }
{
    let (count, rest) = opened(input, MajorType::Array)?;
    if !is_counted(count, kind) {
        return None;
    }
    let (elements, rest) = elements_at(kind, count.is_some(), rest)?;
    let rest = closed(count, rest)?;
    Some((elements, rest))
}

/// Returns true and the bytes after the tag, if a tag of this number is at the front. Otherwise
/// returns false and the input.
fn untagged(number: u64, input: &[u8]) -> (bool, &[u8])
    ensures { IsUntagged number input.now result.0 result.1.now }
{
    match headed(input, MajorType::Tag) {
        Some((found, rest)) if found == number => (true, rest),
        _ => (false, input),
    }
}

/// Returns the elements of the message that the input encodes, and whether it is under its tag. The
/// headers may be invalid.
#[inline(always)]
pub(crate) fn elements_of(kind: Kind, input: &[u8]) -> Option<(bool, Elements<'_>)>
    ensures { IfSome result (λ x. IsMessage kind input.now x.0 x.1) }
{
    let (is_tagged, rest) = untagged(kind.tag(), input);
    let (elements, rest) = message_at(kind, rest)?;
    if elements.is_flat {
        // Nothing nests too deep, so the item that was read is valid.
        if !rest.is_empty() {
            return None;
        }
        return Some((is_tagged, elements));
    }
    let Ok(_) = whole_item(input) else {
        return None;
    };
    one_item();
    Some((is_tagged, elements))
}
