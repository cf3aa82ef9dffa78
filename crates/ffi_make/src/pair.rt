//! Makes headers, keys and claims sets pair by pair.

ghost use Rattle.std.specs.Prelude.{◌≡◌, IfOk, IfErr, option_map};
ghost use Rattle.coset.specs.CoseError.TheVariants.{OutOfMemory};
ghost use Rattle.coset.specs.View.{value_item};
ghost use Rattle.ffi_query.specs.Labels.{label_view};
ghost use Rattle.ffi_make.specs.Given.{entry_view};
ghost use Rattle.ffi_make.specs.PairsMade.{PutsPair, with_pair};

use crate::given::{Entry, entry_value, key_value, value_or};
use crate::labels::write_map;
use coset::Result;
use coset::cbor::value::Value;
use ffi_query::{Kind, Label, Refusal};
use std::alloc::Global;

/// Returns a map with one more pair, or `None` if the item isn't a map.
///
/// # Errors
/// `OutOfMemory` if an allocation fails.
pub(crate) fn with_pair(map: Value, key: Value, value: Value) -> Result<Option<Value>>
    ensures value { IfOk result (λ o. option_map value_item o
        ≡ with_pair (value_item key) (value_item value) (value_item map)) }
    ensures memory { IfErr result (λ e. e ≡ OutOfMemory) }
{
    match map {
        Value::Map(mut pairs) => {
            pairs.push((key, value))?;
            Ok(Some(Value::Map(pairs)))
        }
        _ => Ok(None),
    }
}

/// Adds a pair to a header, a key, a claims set or any map, writes the new map to the front of
/// `out`, and returns its length.
///
/// The pair follows those that the map has. The map is written in its shortest encoding. If `map`
/// is empty, it is a new map. A new key must begin with its type, label 1, because a key without a
/// type isn't valid.
///
/// # Errors
/// - `Short` with the length needed, if `out` is too small.
/// - `Absent` if `map` isn't a map.
/// - `Cose` if `map` or the value's encoding isn't one item, or a text isn't UTF-8.
/// - `Cose` with `DuplicateMapKey` if a label is twice in the new map.
/// - `Cose` if the new map isn't of the kind, for example because the label doesn't take the value.
/// - `Cose` if an allocation fails.
///
/// `out` is then unchanged.
pub fn put(
    alloc: Global,
    kind: Kind,
    map: &[u8],
    label: Label<'_>,
    entry: Entry<'_>,
    out: &mut [u8],
) -> Result<usize, Refusal>
    ensures { PutsPair kind map.now (label_view label.entry) (entry_view entry.entry)
        out.old out.new result }
{
    let map = match value_or(alloc, map, Value::Map(Vec::new(alloc))) {
        Ok(map) => map,
        Err(error) => return Err(Refusal::Cose(error)),
    };
    let key = match key_value(alloc, label) {
        Ok(key) => key,
        Err(error) => return Err(Refusal::Cose(error)),
    };
    match entry_value(alloc, entry) {
        Ok(value) => write_map(alloc, kind, with_pair(map, key, value), out),
        Err(error) => Err(Refusal::Cose(error)),
    }
}
