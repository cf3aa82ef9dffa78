//! Maps whose labels differ.

ghost use Rattle.std.specs.Prelude.{◌≡◌, IfErr, IfOk, map, not, option_map};
ghost use Rattle.coset.specs.CoseError.TheVariants.{OutOfMemory};
ghost use Rattle.coset.specs.View.{value_item, value_pairs};
ghost use Rattle.ffi_make.specs.LabelsMade.{IsMap, IsNoMap, WritesMap, label_in, labels_differ, labels_in, may_be_made, name_view, named_view};
ghost use Rattle.ffi_make.specs.Makes.{FindsText};

use crate::made::encoded;
use coset::cbor::value::Value;
use coset::{CoseError, Result};
use coset_codec::has_repeats;
use ffi_query::{Kind, Refusal, write_found};
use std::alloc::Global;

/// A label that is the key of a pair: `label = int / tstr` (RFC 8152, section 1.4).
#[derive(Clone, Copy, Debug, PartialEq, Eq, PartialOrd, Ord)]
enum Name<'a> {
    /// An integer.
    Number(i128),
    /// A text string, as its UTF-8 bytes.
    Text(&'a [u8]),
}

/// Returns the label that the key is, or `None` if it is another item.
fn label_of(key: &Value) -> Option<Name<'_>>
    ensures { option_map name_view result ≡ label_in (value_item key.now) }
{
    match key {
        Value::Integer(number) => Some(Name::Number(i128::from(*number))),
        Value::Text(text) => Some(Name::Text(text.as_bytes())),
        _ => None,
    }
}

/// Returns the labels among the keys, in order.
///
/// # Errors
/// `OutOfMemory` if an allocation fails.
fn labels_of(alloc: Global, pairs: &[(Value, Value)]) -> Result<Vec<(Name<'_>, ())>>
    ensures labels { IfOk result (λ names. map named_view names.items
        ≡ labels_in (value_pairs pairs.now)) }
    ensures memory { IfErr result (λ e. e ≡ OutOfMemory) }
{
    let mut labels = Vec::new(alloc);
    for (key, _) in pairs {
        if let Some(label) = label_of(key) {
            labels.push((label, ()))?;
        }
    }
    Ok(labels)
}

/// Returns true if the item is a map that has a label twice.
///
/// # Errors
/// `OutOfMemory` if an allocation fails.
fn repeats_label(alloc: Global, item: &Value) -> Result<bool>
    ensures answer { IfOk result (λ b. b ≡ not (labels_differ (value_item item.now))) }
    ensures memory { IfErr result (λ e. e ≡ OutOfMemory) }
{
    match item.as_map() {
        Some(pairs) => {
            let labels = labels_of(alloc, pairs)?;
            has_repeats(alloc, &labels)
        }
        None => Ok(false),
    }
}

/// Returns true if the new item has a label twice, and may have any labels. The labels of other
/// kinds are checked with the item.
///
/// # Errors
/// `OutOfMemory` if an allocation fails.
fn is_refused(alloc: Global, kind: Kind, item: &Value) -> Result<bool>
    ensures answer { IfOk result (λ b. b ≡ not (may_be_made kind (value_item item.now))) }
    ensures memory { IfErr result (λ e. e ≡ OutOfMemory) }
{
    match kind {
        Kind::Any => repeats_label(alloc, item),
        _ => Ok(false),
    }
}

/// Returns the shortest encoding of the new map, if it is of this kind.
///
/// # Errors
/// - `DuplicateMapKey` if a label is twice in the map.
/// - The reason why the map isn't of the kind.
/// - `OutOfMemory` if an allocation fails.
fn encoded_map(alloc: Global, kind: Kind, made: Option<Value>) -> Result<Option<Vec<u8>>>
    ensures { let o = option_map value_item made in
        FindsText (λ b. b.items) (IsMap kind o) (o ≡ None) (IsNoMap kind o) result }
{
    if let Some(map) = &made {
        if is_refused(alloc, kind, map)? {
            return Err(CoseError::DuplicateMapKey);
        }
    }
    encoded(alloc, kind, made)
}

/// Writes a new map to the front of `out` in its shortest encoding, and returns its length.
///
/// # Errors
/// - `Short` with the length needed, if `out` is too small.
/// - `Absent` if no map was made.
/// - `Cose` with the error that `made` has, or if a label is twice in the map, or the map isn't of
///   the kind, or an allocation fails.
///
/// `out` is then unchanged.
pub(crate) fn write_map(
    alloc: Global,
    kind: Kind,
    made: Result<Option<Value>>,
    out: &mut [u8],
) -> Result<usize, Refusal>
    ensures { WritesMap kind (option_map value_item) made out.old out.new result }
{
    match made {
        Ok(made) => write_found(encoded_map(alloc, kind, made), out),
        Err(error) => Err(Refusal::Cose(error)),
    }
}
