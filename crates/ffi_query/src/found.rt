//! Finds the item of a kind that bytes encode.

ghost use Rattle.std.specs.Prelude.{◌≡◌, IfOk, MatchResult};
ghost use Rattle.coset.specs.Results.{IsOnlyItem};
ghost use Rattle.coset.specs.Item.{Item};
ghost use Rattle.coset.specs.Pulls.{pull_bytes, pull_item};
ghost use Rattle.ffi_query.specs.Found.{IsFound};
ghost use Rattle.ffi_query.specs.Kinds.{Checks, IsOf, IsRefused, is_under_some, tag_of, without_tag};
ghost use Rattle.ffi_query.specs.Located.{located_item};

use crate::fits::fits;
use crate::kind::{Kind, check_by_decoding};
use crate::located::{Located, without_tag_located};
use crate::seen::is_message;
use coset::Result;
use coset::cbor::de::Pull;
use coset_codec::traits::whole_item;
use std::alloc::Global;

/// An item that was checked to be of a kind.
#[derive(Clone, Copy)]
pub(crate) struct Found<'a> {
    /// The item, without the tag of a message.
    pub(crate) item: Located<'a>,
    /// Whether the item is a message under its tag.
    pub(crate) is_tagged: bool,
}

/// Returns the one item that the bytes encode.
///
/// # Errors
/// The errors of [`check`].
pub(crate) fn whole_of(alloc: Global, kind: Kind, bytes: &[u8]) -> Result<Pull<'_>>
    ensures whole { MatchResult result (λ item. IsOnlyItem bytes.now (pull_item item)) (λ e.
        IsRefused kind bytes.now e) }
    ensures bytes { IfOk result (λ item. pull_bytes item ≡ bytes.now) }
{
    if let Ok(whole) = whole_item(bytes) {
        return Ok(whole);
    }
    check_by_decoding(alloc, kind, bytes)?;
    Ok(whole_item(bytes)?)
}

/// Returns the item that the bytes are, without the tag of a message of this kind.
fn found_in<'a>(kind: Kind, item: Pull<'a>, bytes: &'a [u8]) -> Found<'a>
    ensures item { located_item result.item ≡ without_tag (tag_of kind) (pull_item item.entry) }
    ensures tag { result.is_tagged ≡ is_under_some (tag_of kind) (pull_item item.entry) }
    ensures found { IsOnlyItem bytes.now (pull_item item.entry)
        → pull_bytes item.entry ≡ bytes.now → IsOf kind bytes.now → IsFound kind bytes.now result }
{
    let whole = Located { item, rest: bytes };
    let (item, is_tagged) = without_tag_located(kind.tag(), whole);
    Found { item, is_tagged }
}

/// Checks that bytes, which are one item, are of this kind. `item` is without the tag of a message,
/// and `is_tagged` says whether the message had it. The content of a message that `fits` finds
/// isn't copied.
///
/// # Errors
/// The errors of [`check`].
fn check_item(
    alloc: Global,
    kind: Kind,
    item: Pull<'_>,
    is_tagged: bool,
    bytes: &[u8],
) -> Result<()>
    ensures { (w : Item) → IsOnlyItem bytes.now w
        → pull_item item.entry ≡ without_tag (tag_of kind) w
        → is_tagged ≡ is_under_some (tag_of kind) w → Checks kind bytes.now result }
{
    if fits(alloc, kind, item, is_tagged) {
        return Ok(());
    }
    match kind {
        Kind::Any => Ok(()),
        _ => check_by_decoding(alloc, kind, bytes),
    }
}

/// Finds the item of this kind that the bytes encode, without laying it out.
///
/// If `fits` finds a message, its content isn't copied. Else the item is decoded whole, which also
/// finds its fault. A [`Kind::Any`] needs neither.
///
/// # Errors
/// The errors of [`check`].
pub(crate) fn find_decoded(alloc: Global, kind: Kind, bytes: &[u8]) -> Result<Found<'_>>
    ensures { MatchResult result (IsFound kind bytes.now) (λ e. IsRefused kind bytes.now e) }
{
    let item = whole_of(alloc, kind, bytes)?;
    let found = found_in(kind, item, bytes);
    check_item(alloc, kind, found.item.item, found.is_tagged, bytes)?;
    Ok(found)
}

/// Finds the item of this kind that the bytes encode.
///
/// # Errors
/// The errors of [`check`].
pub(crate) fn find_item(alloc: Global, kind: Kind, bytes: &[u8]) -> Result<Found<'_>>
    ensures { MatchResult result (IsFound kind bytes.now) (λ e. IsRefused kind bytes.now e) }
{
    if is_message(alloc, kind, bytes) {
        let item = whole_of(alloc, kind, bytes)?;
        return Ok(found_in(kind, item, bytes));
    }
    find_decoded(alloc, kind, bytes)
}

/// Checks that the bytes are an item of this kind.
///
/// Allocates nothing for a valid `COSE_Sign1`, `COSE_Mac0` or `COSE_Encrypt0` with plain headers
/// (docs/C.md, 'Plain headers').
///
/// # Errors
/// - The reason why the bytes aren't of the kind. If there are several, it is the one that decoding
///   the type returns.
/// - `OutOfMemory` if an allocation fails.
pub fn check(alloc: Global, kind: Kind, bytes: &[u8]) -> Result<()>
    ensures { Checks kind bytes.now result }
{
    if is_message(alloc, kind, bytes) {
        return Ok(());
    }
    find_decoded(alloc, kind, bytes)?;
    Ok(())
}
