//! The parts of an item: its byte strings, and the elements of its list.

ghost use Rattle.std.specs.Prelude.{◌≡◌, IfOk, IfErr};
ghost use Rattle.coset.specs.CoseError.TheVariants.{OutOfMemory};
ghost use Rattle.coset.specs.Item.{items_count};
ghost use Rattle.coset.specs.Elements.{items_left};
ghost use Rattle.coset.specs.Pulls.{pull_item};
ghost use Rattle.ffi_query.specs.Results.{Answers, ReturnsNumber, Finds};
ghost use Rattle.ffi_query.specs.Parts.{HasNoCount, IsMember, IsPart, IsPositiveCount, content_part, has_headers, place_of};

use crate::item::{bytes_in, encoding, item_of, member_at};
use crate::kind::Kind;
use crate::located::{alone, members_located};
use crate::refusal::Refusal;
use crate::written::write_found;
use coset::cbor::de::{Items, Pull};
use coset::{CoseError, Result};
use std::alloc::Global;

/// A part of an item that is a byte string.
#[derive(Clone, Copy, Debug, PartialEq, Eq)]
pub enum Part {
    /// The content of the protected header's byte string (RFC 8152, section 3), as received.
    Protected,
    /// The payload of a message with signatures or a MAC, unless it is detached.
    Payload,
    /// The ciphertext of an encrypted message or of a recipient, unless it is detached.
    Ciphertext,
    /// The signature of a `COSE_Sign1` or a `COSE_Signature`, or the tag of a `COSE_Mac0` or a
    /// `COSE_Mac`.
    Proof,
}

impl Kind {
    /// Returns true if items of this kind begin with two headers (RFC 8152, section 3).
    pub fn has_headers(self) -> bool
        ensures { result ≡ has_headers self }
    {
        !matches!(
            self,
            Kind::Header | Kind::Key | Kind::KeySet | Kind::Claims | Kind::Any | Kind::KdfContext
        )
    }

    /// Returns the part's index in the item's array, or `None` if items of this kind don't have it.
    pub(crate) fn place_of(self, part: Part) -> Option<usize>
        ensures { result ≡ place_of part self }
    {
        match part {
            Part::Protected => { if self.has_headers() { Some(0) } else { None } }
            Part::Payload => match self {
                Kind::Sign1(_) | Kind::Sign(_) | Kind::Mac0(_) | Kind::Mac(_) => Some(2),
                _ => None,
            },
            Part::Ciphertext => match self {
                Kind::Encrypt0(_) | Kind::Encrypt(_) | Kind::Recipient => Some(2),
                _ => None,
            },
            Part::Proof => match self {
                Kind::Sign1(_) | Kind::Mac0(_) | Kind::Mac(_) => Some(3),
                Kind::Signature => Some(2),
                _ => None,
            },
        }
    }
}

/// Returns the part that is the content of a message of this kind.
pub(crate) fn content_part(kind: Kind) -> Part
    ensures { result ≡ content_part kind }
{
    match kind {
        Kind::Encrypt0(_) | Kind::Encrypt(_) => Part::Ciphertext,
        _ => Part::Payload,
    }
}

/// Returns the part of an item of this kind, or `None` if the item doesn't have it.
///
/// # Errors
/// `OutOfMemory` if an allocation fails.
pub(crate) fn find_part(
    alloc: Global,
    kind: Kind,
    item: Pull<'_>,
    part: Part,
) -> Result<Option<Vec<u8>>>
    ensures found { IfOk result (Finds (λ b. b.items) (IsPart kind part (pull_item item.entry))) }
    ensures memory { IfErr result (λ e. e ≡ OutOfMemory) }
{
    match kind.place_of(part) {
        Some(place) => bytes_in(alloc, item, place),
        None => Ok(None),
    }
}

/// Returns the shortest encoding of the signature, recipient, key or element at `index` of an item
/// of this kind.
///
/// # Errors
/// `OutOfMemory` if an allocation fails.
fn find_member(alloc: Global, kind: Kind, item: Pull<'_>, index: usize) -> Result<Option<Vec<u8>>>
    ensures found { IfOk result (Finds (λ b. b.items)
        (IsMember kind index (pull_item item.entry))) }
    ensures memory { IfErr result (λ e. e ≡ OutOfMemory) }
{
    match member_at(kind, item, index) {
        Some(member) => {
            let value = member.to_value(alloc)?;
            Ok(Some(encoding(alloc, &value)?))
        }
        None => Ok(None),
    }
}

/// Writes a part of the item that the bytes encode to the front of `out`, and returns its length.
///
/// # Errors
/// - `Short` with the length needed, if `out` is too small.
/// - `Absent` if items of the kind have no such part, or if it is detached.
/// - `Cose` with an error of [`check`](crate::check).
///
/// `out` is then unchanged.
pub fn part_of(
    alloc: Global,
    kind: Kind,
    bytes: &[u8],
    part: Part,
    out: &mut [u8],
) -> Result<usize, Refusal>
    ensures { Answers kind bytes.now (IsPart kind part) out.old out.new result }
{
    match item_of(alloc, kind, bytes) {
        Ok(item) => write_found(find_part(alloc, kind, item, part), out),
        Err(error) => Err(Refusal::Cose(error)),
    }
}

/// Writes the signature, recipient or key at `index` to the front of `out`, and returns its length.
///
/// `index` counts from 0. The result is a [`Kind::Signature`], [`Kind::Recipient`] or [`Kind::Key`]
/// in its shortest encoding (RFC 8949, section 4.2.1). For a [`Kind::Any`] it is an element of an
/// array.
///
/// # Errors
/// - `Short` with the length needed, if `out` is too small.
/// - `Absent` if there is none at `index`.
/// - `Cose` with an error of [`check`](crate::check).
///
/// `out` is then unchanged.
pub fn member_of(
    alloc: Global,
    kind: Kind,
    bytes: &[u8],
    index: usize,
    out: &mut [u8],
) -> Result<usize, Refusal>
    ensures { Answers kind bytes.now (IsMember kind index) out.old out.new result }
{
    match item_of(alloc, kind, bytes) {
        Ok(item) => write_found(find_member(alloc, kind, item, index), out),
        Err(error) => Err(Refusal::Cose(error)),
    }
}

/// Returns the number of elements.
///
/// # Errors
/// `OutOfMemory` if the number doesn't fit in a `usize`.
fn count_members(members: Items<'_>) -> Result<usize>
    ensures count { IfOk result (λ n. n ≡ items_count (items_left members.entry)) }
    ensures memory { IfErr result (λ e. e ≡ OutOfMemory) }
{
    let mut count: usize = 0;
    for _member in members {
        count = match count.checked_add(1) {
            Some(more) => more,
            None => return Err(CoseError::OutOfMemory),
        };
    }
    Ok(count)
}

/// Returns the number of signatures, recipients, keys or elements of an item, which is at least 1.
///
/// An empty list is an error. So a caller that verifies each signature has verified at least one.
///
/// # Errors
/// - `Absent` if the item has no such list. This includes a recipient without nested recipients.
/// - `Empty` if the list is empty.
/// - `Cose` with an error of [`check`](crate::check).
pub fn count_of(alloc: Global, kind: Kind, bytes: &[u8]) -> Result<usize, Refusal>
    ensures { ReturnsNumber kind bytes.now (IsPositiveCount kind) (HasNoCount kind) result }
{
    let item = match item_of(alloc, kind, bytes) {
        Ok(item) => item,
        Err(error) => return Err(Refusal::Cose(error)),
    };
    match members_located(kind, alone(item)) {
        Some(members) => match count_members(members.members) {
            Ok(count) => {
                if count == 0 {
                    Err(Refusal::Empty)
                } else {
                    Ok(count)
                }
            }
            Err(error) => Err(Refusal::Cose(error)),
        },
        None => Err(Refusal::Absent),
    }
}
