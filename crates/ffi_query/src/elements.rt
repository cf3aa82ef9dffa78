//! Places in the input: of array elements, map pairs, values of integer labels, and contents of
//! strings. The bytes at these places aren't copied.

ghost use Rattle.std.specs.Prelude.{◌≡◌, List, ℕ, IfSome, MatchResult, length, option_map};
ghost use Rattle.coset.specs.LabelData.{number};
ghost use Rattle.coset.specs.Pulls.{pull_item};
ghost use Rattle.ffi_query.specs.Results.{ReturnsNumber, Finds};
ghost use Rattle.ffi_query.specs.declared.kind.Kind.TheVariants.{Any};
ghost use Rattle.ffi_query.specs.declared.refusal.Refusal.TheVariants.{WrongType};
ghost use Rattle.ffi_query.specs.Elements.{ReturnsItem, ArePairAt, HasNoContent, HasNoInteger, HasNoMember, HasNoPair, HasNoValueAt, IsInChunks, IsItemAt, IsMemberAt, IsMissedIn, IsProtectedInChunks, IsStringAt, IsValueAt};
ghost use Rattle.ffi_query.specs.Labels.{IsNumber, IsProtected, IsUnder, label_view, unprotected_value};
ghost use Rattle.ffi_query.specs.Located.{IsLocated, IsTextIn, located_item};
ghost use Rattle.ffi_query.specs.Places.{bytes_in};
ghost use Rattle.ffi_query.specs.Spans.{IsAt};

use crate::borrowed::map_located;
use crate::found::whole_of;
use crate::item::{item_located, item_of};
use crate::kind::Kind;
use crate::label::{Label, Map, find_value};
use crate::located::{
    Located, Text, after, bytes_located, element_located, member_located, number_of, opens_chunks,
    pair_located, string_located, value_located,
};
use crate::refusal::Refusal;
use coset::CoseError;
use coset::cbor::de::Pull;
use std::alloc::Global;

/// A range of the input's bytes: `coset_span` of `c/include/coset.h`.
#[repr(C)]
#[derive(Clone, Copy, Debug, PartialEq, Eq)]
pub struct Span {
    /// The offset of the first byte.
    pub at: usize,
    /// The number of bytes.
    pub len: usize,
}

/// Returns the place of an item in the input.
fn span_of(item: Located<'_>, input: &[u8]) -> Span
    ensures { IsLocated input.now item.entry
        → IsItemAt input.now result (located_item item.entry) }
{
    Span {
        at: input.len().saturating_sub(item.rest.len()),
        len: item.item.slice().len(),
    }
}

/// Returns the place of the signature, recipient or key at `index`, counted from 0.
///
/// The bytes there are a [`Kind::Signature`], [`Kind::Recipient`] or [`Kind::Key`], as received.
/// For a [`Kind::Any`] they are an element of an array.
///
/// # Errors
/// - `Absent` if there is none at `index`.
/// - `Cose` with an error of [`check`](crate::check).
pub fn member_span(alloc: Global, kind: Kind, bytes: &[u8], index: usize) -> Result<Span, Refusal>
    ensures { ReturnsNumber kind bytes.now (IsMemberAt bytes.now kind index)
        (HasNoMember kind index) result }
{
    let item = match item_located(alloc, kind, bytes) {
        Ok(item) => item,
        Err(error) => return Err(Refusal::Cose(error)),
    };
    match member_located(kind, item, index) {
        Some(member) => Ok(span_of(member, bytes)),
        None => Err(Refusal::Absent),
    }
}

/// Finds the value under an integer label in the protected header of an item that begins with two
/// headers.
///
/// # Errors
/// `WrongType` if the header's byte string has indefinite length.
fn protected_located(item: Located<'_>, label: i64) -> Result<Option<Located<'_>>, Refusal>
    ensures { (b : List ℕ) → IsLocated b item.entry → MatchResult result
        (λ o. Finds located_item
        (IsProtected (number label) (bytes_in 0 (located_item item.entry))) o
        × IfSome o (IsLocated b))
        (λ r. (r ≡ WrongType) × IsProtectedInChunks b (located_item item.entry)) }
{
    let Some(string) = element_located(item, 0) else {
        return Ok(None);
    };
    match bytes_located(string) {
        Some(text) => match map_located(text) {
            Some(map) => Ok(value_located(map, label)),
            None => Ok(None),
        },
        None => {
            if opens_chunks(false, string.item.slice()) {
                Err(Refusal::WrongType)
            } else {
                Ok(None)
            }
        }
    }
}

/// Finds the value under an integer label in the unprotected header of an item that begins with two
/// headers.
fn unprotected_located(item: Located<'_>, label: i64) -> Option<Located<'_>>
    ensures value { option_map located_item result
        ≡ unprotected_value (number label) (located_item item.entry) }
    ensures place { (b : List ℕ) → IsLocated b item.entry → IfSome result (IsLocated b) }
{
    match element_located(item, 1) {
        Some(map) => value_located(map, label),
        None => None,
    }
}

/// Finds the value under an integer label in this map of the item.
///
/// # Errors
/// `WrongType` if the map is a protected header whose byte string has indefinite length.
fn label_located(
    kind: Kind,
    item: Located<'_>,
    map: Map,
    label: i64,
) -> Result<Option<Located<'_>>, Refusal>
    ensures { (b : List ℕ) → IsLocated b item.entry → MatchResult result
        (λ o. Finds located_item (IsUnder kind map (number label) (located_item item.entry)) o
        × IfSome o (IsLocated b))
        (IsInChunks b map (located_item item.entry)) }
{
    match map {
        Map::Item => Ok(value_located(item, label)),
        Map::Protected => {
            if kind.has_headers() {
                protected_located(item, label)
            } else {
                Ok(None)
            }
        }
        Map::Unprotected => {
            if kind.has_headers() {
                Ok(unprotected_located(item, label))
            } else {
                Ok(None)
            }
        }
    }
}

/// Returns the reason why a value has no place in a protected header that is in chunks. It is
/// `WrongType` if the header has the label, `Absent` if not, or `Cose` with `OutOfMemory` if
/// an allocation fails.
fn refused_in_chunks(
    alloc: Global,
    kind: Kind,
    item: Pull<'_>,
    map: Map,
    label: Label<'_>,
) -> Refusal
    ensures { IsMissedIn kind map (label_view label.entry) (pull_item item.entry) result }
{
    match find_value(alloc, kind, item, map, label) {
        Ok(Some(_)) => Refusal::WrongType,
        Ok(None) => Refusal::Absent,
        Err(error) => Refusal::Cose(error),
    }
}

/// Returns the place of the value under an integer label, as received. `map` says which map of the
/// item is searched.
///
/// # Errors
/// - `Absent` if the item has no such map, or the map has no such label.
/// - `WrongType` if the label is in a protected header whose byte string has indefinite length, so
///   that it is in chunks.
/// - `Cose` with an error of [`check`](crate::check).
pub fn value_span(
    alloc: Global,
    kind: Kind,
    bytes: &[u8],
    map: Map,
    label: i64,
) -> Result<Span, Refusal>
    ensures { ReturnsNumber kind bytes.now (IsValueAt bytes.now kind map (number label))
        (HasNoValueAt bytes.now kind map (number label)) result }
{
    let item = match item_located(alloc, kind, bytes) {
        Ok(item) => item,
        Err(error) => return Err(Refusal::Cose(error)),
    };
    match label_located(kind, item, map, label) {
        Ok(Some(value)) => Ok(span_of(value, bytes)),
        Ok(None) => Err(Refusal::Absent),
        Err(_) => Err(refused_in_chunks(alloc, kind, item.item, map, Label::Number(label))),
    }
}

/// Returns the places of a map's key and value, as received. `index` counts the pairs from 0.
///
/// # Errors
/// - `Absent` if the item isn't a map, or has no pair at `index`.
/// - `Cose` with an error of [`check`](crate::check).
pub fn pair_spans(
    alloc: Global,
    kind: Kind,
    bytes: &[u8],
    index: usize,
) -> Result<(Span, Span), Refusal>
    ensures { ReturnsNumber kind bytes.now (ArePairAt bytes.now index) (HasNoPair index) result }
{
    let item = match item_located(alloc, kind, bytes) {
        Ok(item) => item,
        Err(error) => return Err(Refusal::Cose(error)),
    };
    match pair_located(item, index) {
        Some((key, value)) => Ok((span_of(key, bytes), span_of(value, bytes))),
        None => Err(Refusal::Absent),
    }
}

/// Returns the place of a string's content in the input.
pub(crate) fn text_span(text: Text<'_>, input: &[u8]) -> Span
    ensures at { IsTextIn input.now text.entry → IsAt input.now result.at text.entry.bytes.now }
    ensures len { result.len ≡ length text.entry.bytes.now }
{
    Span {
        at: input.len().saturating_sub(text.rest.len()),
        len: text.bytes.len(),
    }
}

/// Returns the place of the item that begins at the offset `at`, as received.
///
/// The next element of an array, or the next key or value of a map, begins where the item ends. So
/// a caller finds all of them in one walk. This function doesn't see where the array or map ends,
/// so the caller counts.
///
/// # Errors
/// - `Absent` if there are fewer than `at` bytes.
/// - `Cose` with the reason why no item begins there.
pub fn item_span(bytes: &[u8], at: usize) -> Result<Span, Refusal>
    ensures { ReturnsItem bytes.now at result }
{
    if at > bytes.len() {
        return Err(Refusal::Absent);
    }
    match Pull::new(after(bytes, at)) {
        Ok((item, _)) => Ok(Span {
            at,
            len: item.slice().len(),
        }),
        Err(error) => Err(Refusal::Cose(CoseError::from(error))),
    }
}

/// Returns the place of a string's content. The bytes are a byte string or a text string of
/// definite length (RFC 8949, section 3.1). The content of a text string is UTF-8.
///
/// # Errors
/// - `WrongType` if the item isn't a string, or has indefinite length, so that its content is in
///   chunks.
/// - `Cose` with an error of [`check`](crate::check) for a [`Kind::Any`].
pub fn string_span(alloc: Global, bytes: &[u8]) -> Result<Span, Refusal>
    ensures { ReturnsNumber Any bytes.now (IsStringAt bytes.now) (HasNoContent bytes.now)
        result }
{
    let item = match whole_of(alloc, Kind::Any, bytes) {
        Ok(item) => item,
        Err(error) => return Err(Refusal::Cose(error)),
    };
    match string_located(Located { item, rest: bytes }) {
        Some(text) => Ok(text_span(text, bytes)),
        None => Err(Refusal::WrongType),
    }
}

/// Returns the integer that the bytes encode.
///
/// # Errors
/// - `WrongType` if the item isn't an integer, or is outside the range of `i64`.
/// - `Cose` with an error of [`check`](crate::check) for a [`Kind::Any`].
pub fn integer_at(alloc: Global, bytes: &[u8]) -> Result<i64, Refusal>
    ensures { ReturnsNumber Any bytes.now IsNumber HasNoInteger result }
{
    let item = match item_of(alloc, Kind::Any, bytes) {
        Ok(item) => item,
        Err(error) => return Err(Refusal::Cose(error)),
    };
    match number_of(item) {
        Some(number) => Ok(number),
        None => Err(Refusal::WrongType),
    }
}
