//! Finds the values of labels in headers, keys and claims sets.

ghost use Rattle.std.specs.Prelude.{◌≡◌, IfOk, IfErr, option_map};
ghost use Rattle.coset.specs.CoseError.TheVariants.{OutOfMemory};
ghost use Rattle.coset.specs.Elements.{pairs_left};
ghost use Rattle.coset.specs.Pulls.{pull_item};
ghost use Rattle.coset.specs.View.{value_item};
ghost use Rattle.ffi_query.specs.Results.{Answers, ReturnsNumber, ReturnsOr, Finds, WritesString};
ghost use Rattle.coset_seen.specs.Named.{first_value};
ghost use Rattle.ffi_query.specs.Labels.{HasNoNumber, HasNoString, IsNumber, IsNumberOf, IsProtected, IsStringOf, IsUnder, IsUnderIn, IsValueOf, is_label, label_view, unprotected_value, value_under};
ghost use Rattle.ffi_query.specs.Places.{bytes_in, string_in};

use crate::item::{bytes_in, element, encoding, item_of};
use crate::kind::Kind;
use crate::refusal::Refusal;
use crate::written::{put, write_found};
use coset::Result;
use coset::cbor::de::{Pairs, Pull};
use coset::cbor::value::Value;
use coset::laws::one_item;
use coset_codec::traits::whole_item;
use std::alloc::Global;

/// A map of an item.
#[derive(Clone, Copy, Debug, PartialEq, Eq)]
pub enum Map {
    /// The protected header of a message, a signature or a recipient (RFC 8152, section 3).
    Protected,
    /// The unprotected header of a message, a signature or a recipient.
    Unprotected,
    /// The item itself: a header, a key, a claims set, or any map.
    Item,
}

/// A label of a map (RFC 8152, section 1.4): `label = int / tstr`.
#[derive(Clone, Copy, Debug)]
pub enum Label<'a> {
    /// An integer.
    Number(i64),
    /// A text string, as its UTF-8 bytes. No map has a label of other bytes.
    Text(&'a [u8]),
}

/// Returns true if the key is this label.
///
/// # Errors
/// `OutOfMemory` if an allocation fails.
fn is_label(alloc: Global, label: Label<'_>, key: Pull<'_>) -> Result<bool>
    ensures same { IfOk result (λ b. b ≡ is_label (label_view label.entry) (pull_item key.entry)) }
    ensures memory { IfErr result (λ e. e ≡ OutOfMemory) }
{
    match label {
        Label::Number(number) => match key.integer() {
            Some(found) => Ok(i128::from(found) == i128::from(number)),
            None => Ok(false),
        },
        Label::Text(text) => match key.to_text(alloc)? {
            Some(found) => Ok(found.as_bytes() == text),
            None => Ok(false),
        },
    }
}

/// Returns the value of the first pair whose key is this label.
///
/// # Errors
/// `OutOfMemory` if an allocation fails.
fn value_among(alloc: Global, label: Label<'_>, pairs: Pairs<'_>) -> Result<Option<Value>>
    ensures value { IfOk result (λ o. option_map value_item o
        ≡ first_value (is_label (label_view label.entry)) (pairs_left pairs.entry)) }
    ensures memory { IfErr result (λ e. e ≡ OutOfMemory) }
{
    for (key, value) in pairs {
        if is_label(alloc, label, key)? {
            return Ok(Some(value.to_value(alloc)?));
        }
    }
    Ok(None)
}

/// Returns the value under this label in a map.
///
/// # Errors
/// `OutOfMemory` if an allocation fails.
pub(crate) fn value_under(alloc: Global, label: Label<'_>, map: Pull<'_>) -> Result<Option<Value>>
    ensures value { IfOk result (λ o. option_map value_item o
        ≡ value_under (label_view label.entry) (pull_item map.entry)) }
    ensures memory { IfErr result (λ e. e ≡ OutOfMemory) }
{
    match map.pairs() {
        Some(pairs) => value_among(alloc, label, pairs),
        None => Ok(None),
    }
}

/// Returns the value under this label in the map that the bytes encode.
///
/// # Errors
/// `OutOfMemory` if an allocation fails.
fn value_within(alloc: Global, label: Label<'_>, bytes: &[u8]) -> Result<Option<Value>>
    ensures value { IfOk result (Finds value_item (IsUnderIn (label_view label.entry) bytes.now)) }
    ensures memory { IfErr result (λ e. e ≡ OutOfMemory) }
{
    match whole_item(bytes) {
        Ok(map) => value_under(alloc, label, map),
        Err(_) => Ok(None),
    }
}

/// Returns the value under this label in the protected header of an item that begins with two
/// headers.
///
/// # Errors
/// `OutOfMemory` if an allocation fails.
fn protected_value(alloc: Global, label: Label<'_>, item: Pull<'_>) -> Result<Option<Value>>
    ensures value { IfOk result (Finds value_item
        (IsProtected (label_view label.entry) (bytes_in 0 (pull_item item.entry)))) }
    ensures memory { IfErr result (λ e. e ≡ OutOfMemory) }
{
    match bytes_in(alloc, item, 0)? {
        Some(bytes) => value_within(alloc, label, &bytes),
        None => Ok(None),
    }
}

/// Returns the value under this label in the unprotected header of an item that begins with two
/// headers.
///
/// # Errors
/// `OutOfMemory` if an allocation fails.
fn unprotected_value(alloc: Global, label: Label<'_>, item: Pull<'_>) -> Result<Option<Value>>
    ensures value { IfOk result (λ o. option_map value_item o
        ≡ unprotected_value (label_view label.entry) (pull_item item.entry)) }
    ensures memory { IfErr result (λ e. e ≡ OutOfMemory) }
{
    match element(item, 1) {
        Some(map) => value_under(alloc, label, map),
        None => Ok(None),
    }
}

/// Returns the value under this label in this map of the item.
///
/// # Errors
/// `OutOfMemory` if an allocation fails.
pub(crate) fn find_value(
    alloc: Global,
    kind: Kind,
    item: Pull<'_>,
    map: Map,
    label: Label<'_>,
) -> Result<Option<Value>>
    ensures value { IfOk result (Finds value_item
        (IsUnder kind map (label_view label.entry) (pull_item item.entry))) }
    ensures memory { IfErr result (λ e. e ≡ OutOfMemory) }
{
    match map {
        Map::Protected => {
            if kind.has_headers() {
                protected_value(alloc, label, item)
            } else {
                Ok(None)
            }
        }
        Map::Unprotected => {
            if kind.has_headers() {
                unprotected_value(alloc, label, item)
            } else {
                Ok(None)
            }
        }
        Map::Item => value_under(alloc, label, item),
    }
}

/// Returns the shortest encoding of the value under this label in this map of the item.
///
/// # Errors
/// `OutOfMemory` if an allocation fails.
fn find_encoding(
    alloc: Global,
    kind: Kind,
    item: Pull<'_>,
    map: Map,
    label: Label<'_>,
) -> Result<Option<Vec<u8>>>
    ensures found { IfOk result (Finds (λ b. b.items)
        (IsValueOf kind map (label_view label.entry) (pull_item item.entry))) }
    ensures memory { IfErr result (λ e. e ≡ OutOfMemory) }
{
    match find_value(alloc, kind, item, map, label)? {
        Some(value) => Ok(Some(encoding(alloc, &value)?)),
        None => Ok(None),
    }
}

/// Writes the value under a label to the front of `out`, and returns its length.
///
/// `bytes` are an item of the kind, and `map` says which of its maps is searched. The value is
/// written in its shortest encoding (RFC 8949, section 4.2.1). A map of a [`Kind::Any`] may repeat
/// the label; the value is then the first one, also in the other calls.
///
/// # Errors
/// - `Short` with the length needed, if `out` is too small.
/// - `Absent` if the item has no such map, or the map has no such label.
/// - `Cose` with an error of [`check`](crate::check).
///
/// `out` is then unchanged.
pub fn value_of(
    alloc: Global,
    kind: Kind,
    bytes: &[u8],
    map: Map,
    label: Label<'_>,
    out: &mut [u8],
) -> Result<usize, Refusal>
    ensures { Answers kind bytes.now (IsValueOf kind map (label_view label.entry))
        out.old out.new result }
{
    match item_of(alloc, kind, bytes) {
        Ok(item) => write_found(find_encoding(alloc, kind, item, map, label), out),
        Err(error) => Err(Refusal::Cose(error)),
    }
}

/// Returns the content of a byte string or a text string, or `None` for any other value.
fn string_in(value: Value) -> Option<Vec<u8>>
    ensures { option_map (λ b. b.items) result ≡ string_in (value_item value) }
{
    match value {
        Value::Bytes(bytes) => Some(bytes),
        Value::Text(text) => Some(text.into_bytes()),
        _ => None,
    }
}

/// Writes the content of the string that was found to the front of `out`, and returns its length.
///
/// # Errors
/// - `Short` with the length needed, if `out` is too small.
/// - `WrongType` if the value isn't a string.
/// - `Absent` if no value was found.
/// - `Cose` with the error that `found` has.
///
/// `out` is then unchanged.
fn write_string(found: Result<Option<Value>>, out: &mut [u8]) -> Result<usize, Refusal>
    ensures { WritesString value_item found out.old out.new result }
{
    match found {
        Ok(Some(value)) => match string_in(value) {
            Some(bytes) => put(&bytes, out),
            None => Err(Refusal::WrongType),
        },
        Ok(None) => Err(Refusal::Absent),
        Err(error) => Err(Refusal::Cose(error)),
    }
}

/// Returns the content of the string under this label in this map of the item. Returns `None` if no
/// string is there.
///
/// # Errors
/// `OutOfMemory` if an allocation fails.
pub(crate) fn find_string(
    alloc: Global,
    kind: Kind,
    item: Pull<'_>,
    map: Map,
    label: Label<'_>,
) -> Result<Option<Vec<u8>>>
    ensures found { IfOk result (Finds (λ b. b.items)
        (IsStringOf kind map (label_view label.entry) (pull_item item.entry))) }
    ensures memory { IfErr result (λ e. e ≡ OutOfMemory) }
{
    one_item();
    match find_value(alloc, kind, item, map, label)? {
        Some(value) => Ok(string_in(value)),
        None => Ok(None),
    }
}

/// Writes the content of the string under a label to the front of `out`, and returns its length.
///
/// The value is a byte string or a text string. `bytes` are an item of the kind, and `map` says
/// which of its maps is searched.
///
/// # Errors
/// The errors of [`value_of`], or `WrongType` if the value isn't a string.
pub fn string_of(
    alloc: Global,
    kind: Kind,
    bytes: &[u8],
    map: Map,
    label: Label<'_>,
    out: &mut [u8],
) -> Result<usize, Refusal>
    ensures { ReturnsOr kind bytes.now (IsStringOf kind map (label_view label.entry))
        (HasNoString kind map (label_view label.entry)) out.old out.new result }
{
    match item_of(alloc, kind, bytes) {
        Ok(item) => write_string(find_value(alloc, kind, item, map, label), out),
        Err(error) => Err(Refusal::Cose(error)),
    }
}

/// Returns the integer that the value is, if it fits in an `i64`.
pub(crate) fn number_in(value: &Value) -> Option<i64>
    ensures { Finds (λ n. n) (IsNumber (value_item value.now)) result }
{
    match value.as_integer() {
        Some(number) => i64::try_from(number).ok(),
        None => None,
    }
}

/// Returns the integer under a label. `bytes` are an item of the kind, and `map` says which of its
/// maps is searched.
///
/// # Errors
/// - `Absent` if the item has no such map, or the map has no such label.
/// - `WrongType` if the value isn't an integer, or is outside the range of `i64`.
/// - `Cose` with an error of [`check`](crate::check).
pub fn integer_of(
    alloc: Global,
    kind: Kind,
    bytes: &[u8],
    map: Map,
    label: Label<'_>,
) -> Result<i64, Refusal>
    ensures { ReturnsNumber kind bytes.now (IsNumberOf kind map (label_view label.entry))
        (HasNoNumber kind map (label_view label.entry)) result }
{
    let item = match item_of(alloc, kind, bytes) {
        Ok(item) => item,
        Err(error) => return Err(Refusal::Cose(error)),
    };
    match find_value(alloc, kind, item, map, label) {
        Ok(Some(value)) => match number_in(&value) {
            Some(number) => Ok(number),
            None => Err(Refusal::WrongType),
        },
        Ok(None) => Err(Refusal::Absent),
        Err(error) => Err(Refusal::Cose(error)),
    }
}
