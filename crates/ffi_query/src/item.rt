//! The item of a kind that bytes encode, borrowed, and the elements in it.

ghost use Rattle.std.specs.Prelude.{◌≡◌, option_map, IfOk, IfErr, MatchResult};
ghost use Rattle.coset.specs.CoseError.TheVariants.{OutOfMemory};
ghost use Rattle.coset.specs.Pulls.{pull_item};
ghost use Rattle.coset.specs.Shortest.{IsShortest};
ghost use Rattle.coset.specs.View.{value_item};
ghost use Rattle.ffi_query.specs.Kinds.{IsItemOf, IsRefused};
ghost use Rattle.ffi_query.specs.Located.{IsLocated, located_item};
ghost use Rattle.ffi_query.specs.Places.{bytes_in, element, member_at};

use crate::found::find_item;
use crate::kind::Kind;
use crate::located::{Located, alone, element_located, member_located};
use coset::Result;
use coset::cbor::de::Pull;
use coset::cbor::ser::write_value;
use coset::cbor::value::Value;
use std::alloc::Global;

/// Returns the item of this kind that the bytes encode, and its place in them. A message is without
/// its tag.
///
/// # Errors
/// The errors of [`check`](crate::check).
pub(crate) fn item_located(alloc: Global, kind: Kind, bytes: &[u8]) -> Result<Located<'_>>
    ensures { MatchResult result
        (λ l. IsItemOf kind bytes.now (located_item l) × IsLocated bytes.now l)
        (λ e. IsRefused kind bytes.now e) }
{
    match find_item(alloc, kind, bytes) {
        Ok(found) => Ok(found.item),
        Err(error) => Err(error),
    }
}

/// Returns the item of this kind that the bytes encode. A message is without its tag.
///
/// # Errors
/// The errors of [`check`](crate::check).
pub(crate) fn item_of(alloc: Global, kind: Kind, bytes: &[u8]) -> Result<Pull<'_>>
    ensures { MatchResult result (λ item. IsItemOf kind bytes.now (pull_item item)) (λ e.
        IsRefused kind bytes.now e) }
{
    match item_located(alloc, kind, bytes) {
        Ok(found) => Ok(found.item),
        Err(error) => Err(error),
    }
}

/// Returns the element of an array at `index`, or `None`.
pub(crate) fn element(item: Pull<'_>, index: usize) -> Option<Pull<'_>>
    ensures { option_map pull_item result ≡ element index (pull_item item.entry) }
{
    match element_located(alone(item), index) {
        Some(found) => Some(found.item),
        None => None,
    }
}

/// Copies the content of the byte string at `index` of an array. Returns `None` if there is no byte
/// string.
///
/// # Errors
/// `OutOfMemory` if an allocation fails.
pub(crate) fn bytes_in(alloc: Global, item: Pull<'_>, index: usize) -> Result<Option<Vec<u8>>>
    ensures bytes { IfOk result (λ o. option_map (λ b. b.items) o
        ≡ bytes_in index (pull_item item.entry)) }
    ensures memory { IfErr result (λ e. e ≡ OutOfMemory) }
{
    match element(item, index) {
        Some(found) => Ok(found.to_bytes(alloc)?),
        None => Ok(None),
    }
}

/// Returns the signature, recipient or key at `index` of an item of this kind. For a [`Kind::Any`]
/// it is an array's element.
pub(crate) fn member_at(kind: Kind, item: Pull<'_>, index: usize) -> Option<Pull<'_>>
    ensures { option_map pull_item result ≡ member_at kind index (pull_item item.entry) }
{
    match member_located(kind, alone(item), index) {
        Some(found) => Some(found.item),
        None => None,
    }
}

/// Returns the shortest encoding of a value (RFC 8949, section 4.2.1).
///
/// # Errors
/// `OutOfMemory` if an allocation fails.
pub(crate) fn encoding(alloc: Global, value: &Value) -> Result<Vec<u8>>
    ensures shortest { IfOk result (λ b. IsShortest b.items (value_item value.now)) }
    ensures memory { IfErr result (λ e. e ≡ OutOfMemory) }
{
    let mut out = Vec::new(alloc);
    write_value(value, &mut out)?;
    Ok(out)
}
