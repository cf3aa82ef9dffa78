//! Makes headers, keys and claims sets from many pairs at once.

ghost use Rattle.std.specs.Prelude.{◌≡◌, ◌⊎◌, MatchResult, option_map, option_and_then};
ghost use Rattle.coset.specs.Errors.{UnlessMemory};
ghost use Rattle.coset.specs.Item.{Item, Pairs};
ghost use Rattle.coset.specs.View.{value_item};
ghost use Rattle.ffi_query.specs.Labels.{label_view};
ghost use Rattle.ffi_make.specs.Given.{EntryFaults, IsEntry, IsKey, KeyFaults, entry_view, pairs_view};
ghost use Rattle.ffi_make.specs.PairsMade.{ArePairs, PutsPairs, SomePairFaults, with_pair, with_pairs};

use crate::given::{Entry, entry_value, key_value, value_or};
use crate::labels::write_map;
use crate::pair::with_pair;
use coset::Result;
use coset::cbor::value::Value;
use ffi_query::{Kind, Label, Refusal};
use std::alloc::Global;

/// Returns the map made so far with one more pair.
///
/// # Errors
/// - `DecodeFailed` if a text isn't UTF-8.
/// - The reason why an encoding isn't one item.
/// - `OutOfMemory` if an allocation fails.
fn with_one(
    alloc: Global,
    made: Option<Value>,
    label: Label<'_>,
    entry: Entry<'_>,
) -> Result<Option<Value>>
    ensures { let l = label_view label.entry in let e = entry_view entry.entry in
        MatchResult result (λ o. (k : Item) × (v : Item) × (IsKey l k × IsEntry e v)
        × (option_map value_item o
        ≡ option_and_then (with_pair k v) (option_map value_item made)))
        (λ f. UnlessMemory f (λ f. KeyFaults l f ⊎ EntryFaults e f)) }
{
    let key = key_value(alloc, label)?;
    let value = entry_value(alloc, entry)?;
    match made {
        Some(map) => with_pair(map, key, value),
        None => Ok(None),
    }
}

/// Returns a map with these pairs at its end. Without pairs the item is unchanged, whatever it is.
///
/// # Errors
/// The errors of [`with_one`].
fn with_all(alloc: Global, map: Value, pairs: &[(Label<'_>, Entry<'_>)]) -> Result<Option<Value>>
    ensures { let xs = pairs_view pairs.now in
        MatchResult result (λ o. (qs : Pairs) × ArePairs xs qs
        × (option_map value_item o ≡ with_pairs qs (value_item map)))
        (λ f. UnlessMemory f (SomePairFaults xs)) }
{
    let mut made = Some(map);
    for pair in pairs {
        made = with_one(alloc, made, pair.0, pair.1)?;
    }
    Ok(made)
}

/// Adds pairs to a header, a key, a claims set or any map, writes the new map to the front of
/// `out`, and returns its length.
///
/// The result is that of [`put`](crate::put) called for each pair in this order. But the bytes are
/// read once, and the new map is checked and written once, with all pairs. The pairs follow those
/// that the map has. The map is written in its shortest encoding. If `map` is empty, it is a new
/// map.
///
/// # Errors
/// - `Short` with the length needed, if `out` is too small.
/// - `Absent` if there are pairs, and `map` is an item that isn't a map.
/// - `Cose` if `map` or a value's encoding isn't one item, or a text isn't UTF-8.
/// - `Cose` with `DuplicateMapKey` if a label is twice in the new map.
/// - `Cose` if the new map isn't of the kind.
/// - `Cose` if an allocation fails.
///
/// `out` is then unchanged.
pub fn put_all(
    alloc: Global,
    kind: Kind,
    map: &[u8],
    pairs: &[(Label<'_>, Entry<'_>)],
    out: &mut [u8],
) -> Result<usize, Refusal>
    ensures { PutsPairs kind map.now (pairs_view pairs.now) out.old out.new result }
{
    let map = match value_or(alloc, map, Value::Map(Vec::new(alloc))) {
        Ok(map) => map,
        Err(error) => return Err(Refusal::Cose(error)),
    };
    match with_all(alloc, map, pairs) {
        Ok(made) => write_map(alloc, kind, Ok(made), out),
        Err(error) => Err(Refusal::Cose(error)),
    }
}
