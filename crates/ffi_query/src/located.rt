//! Borrowed parts of the input. Each comes with the bytes from its first byte to the end of the
//! input, so its place is known.

ghost use Rattle.std.specs.Ordering.{int_eq};
ghost use Rattle.std.specs.Prelude.{◌≡◌, ⊤, List, ℕ, Bool, IfSome, MatchOption, drop, false, option_map, true, Some};
ghost use Rattle.coset.specs.Item.{item};
ghost use Rattle.coset.specs.LabelData.{number};
ghost use Rattle.coset.specs.Parts.{as_array, as_bytes, as_map};
ghost use Rattle.coset.specs.Pulls.{pull_bytes, pull_item};
ghost use Rattle.ffi_query.specs.Kinds.{is_under, is_under_some, without_tag};
ghost use Rattle.coset_seen.specs.Named.{first_value, is_same};
ghost use Rattle.ffi_query.specs.Labels.{IsNumber, is_label, value_under};
ghost use Rattle.ffi_query.specs.Located.{AreElementsIn, AreEntriesIn, IsContentOf, IsLocated, IsNoContent, IsNoString, IsTextIn, elements_left, entries_left, head_len, located_item, opens_chunks};
ghost use Rattle.ffi_query.specs.Pairs.{nth_pair, pair_in};
ghost use Rattle.ffi_query.specs.Places.{array_in, element, member_at, members, nth, string_in};
ghost use Rattle.ffi_query.specs.Results.{Finds};

use crate::kind::Kind;
use coset::cbor::de::{Items, Pairs, Pull};
use coset::cbor::value::Integer;

/// A borrowed item, and the bytes from its first byte to the end of the input.
#[derive(Clone, Copy)]
pub(crate) struct Located<'a> {
    pub(crate) item: Pull<'a>,
    pub(crate) rest: &'a [u8],
}

/// Returns the item as if its own bytes were the whole input.
pub(crate) fn alone(item: Pull<'_>) -> Located<'_>
    ensures { located_item result ≡ pull_item item.entry }
{
    Located {
        item,
        rest: item.slice(),
    }
}

/// The content of a borrowed string, and the bytes from its first byte to the end of the input.
#[derive(Clone, Copy)]
pub(crate) struct Text<'a> {
    pub(crate) bytes: &'a [u8],
    pub(crate) rest: &'a [u8],
}

/// Returns the bytes after the first `count`.
pub(crate) fn after(bytes: &[u8], count: usize) -> &[u8]
    ensures { result.now ≡ drop count bytes.now }
{
    if count > bytes.len() {
        return &[];
    }
    let (_, rest) = bytes.split_at(count);
    rest
}

/// Returns the length of the head at the front of the bytes (RFC 8949, section 3). The head of an
/// item of indefinite length has one byte.
fn head_len(bytes: &[u8]) -> usize
    ensures { result ≡ head_len bytes.now }
{
    match bytes.first() {
        Some(first) => match *first % 32 {
            24 => 2,
            25 => 3,
            26 => 5,
            27 => 9,
            _ => 1,
        },
        None => 0,
    }
}

/// Returns the item without a tag of this number, and whether it had that tag.
fn untagged_located(number: u64, whole: Located<'_>) -> (Located<'_>, bool)
    ensures item { located_item result.0 ≡ without_tag (Some number) (located_item whole.entry) }
    ensures tag { result.1 ≡ is_under number (located_item whole.entry) }
    ensures place { (b : List ℕ) → IsLocated b whole.entry → IsLocated b result.0 }
{
    match whole.item.tag() {
        Some((found, inner)) if found == number => {
            let head = whole.item.slice().len().saturating_sub(inner.slice().len());
            let rest = after(whole.rest, head);
            (Located { item: inner, rest }, true)
        }
        _ => (whole, false),
    }
}

/// Returns the item without a tag of this number, if there is a number, and whether it had that
/// tag.
pub(crate) fn without_tag_located(number: Option<u64>, whole: Located<'_>) -> (Located<'_>, bool)
    ensures item { located_item result.0 ≡ without_tag number (located_item whole.entry) }
    ensures tag { result.1 ≡ is_under_some number (located_item whole.entry) }
    ensures place { (b : List ℕ) → IsLocated b whole.entry → IsLocated b result.0 }
{
    match number {
        Some(number) => untagged_located(number, whole),
        None => (whole, false),
    }
}

/// The remaining elements of an array, and the bytes from the first of them to the end of the
/// input.
#[derive(Clone, Copy)]
pub(crate) struct Elements<'a> {
    pub(crate) members: Items<'a>,
    rest: &'a [u8],
}

/// Returns the elements of an array, or `None` for any other item.
pub(crate) fn elements_located(array: Located<'_>) -> Option<Elements<'_>>
    ensures elements { option_map elements_left result ≡ as_array (located_item array.entry) }
    ensures place { (b : List ℕ) → IsLocated b array.entry → IfSome result (AreElementsIn b) }
{
    match array.item.items() {
        Some(members) => {
            let rest = after(array.rest, head_len(array.item.slice()));
            Some(Elements { members, rest })
        }
        None => None,
    }
}

/// Returns the remaining element at `index`.
fn nth_located(elements: Elements<'_>, index: usize) -> Option<Located<'_>>
    ensures element { option_map located_item result ≡ nth index (elements_left elements.entry) }
    ensures place { (b : List ℕ) → AreElementsIn b elements.entry
        → IfSome result (IsLocated b) }
{
    let Elements { members, rest } = elements;
    let mut rest = rest;
    let mut left = index;
    for member in members {
        if left == 0 {
            return Some(Located { item: member, rest });
        }
        left -= 1;
        rest = after(rest, member.slice().len());
    }
    None
}

/// Returns the element of an array at `index`.
pub(crate) fn element_located(array: Located<'_>, index: usize) -> Option<Located<'_>>
    ensures element { option_map located_item result
        ≡ element index (located_item array.entry) }
    ensures place { (b : List ℕ) → IsLocated b array.entry → IfSome result (IsLocated b) }
{
    match elements_located(array) {
        Some(elements) => nth_located(elements, index),
        None => None,
    }
}

/// Returns the elements of the nested array at `index`.
fn array_located(array: Located<'_>, index: usize) -> Option<Elements<'_>>
    ensures elements { option_map elements_left result
        ≡ array_in index (located_item array.entry) }
    ensures place { (b : List ℕ) → IsLocated b array.entry → IfSome result (AreElementsIn b) }
{
    match element_located(array, index) {
        Some(found) => elements_located(found),
        None => None,
    }
}

/// Returns the signatures, recipients or keys of an item of this kind. For a [`Kind::Any`] they are
/// an array's elements.
pub(crate) fn members_located(kind: Kind, item: Located<'_>) -> Option<Elements<'_>>
    ensures members { option_map elements_left result
        ≡ members kind (located_item item.entry) }
    ensures place { (b : List ℕ) → IsLocated b item.entry → IfSome result (AreElementsIn b) }
{
    match kind {
        Kind::Sign(_) => array_located(item, 3),
        Kind::Encrypt(_) => array_located(item, 3),
        Kind::Recipient => array_located(item, 3),
        Kind::Mac(_) => array_located(item, 4),
        Kind::KeySet | Kind::Any => elements_located(item),
        _ => None,
    }
}

/// Returns the signature, recipient or key at `index` of an item of this kind. For a [`Kind::Any`]
/// it is an array's element.
pub(crate) fn member_located(kind: Kind, item: Located<'_>, index: usize) -> Option<Located<'_>>
    ensures member { option_map located_item result
        ≡ member_at kind index (located_item item.entry) }
    ensures place { (b : List ℕ) → IsLocated b item.entry → IfSome result (IsLocated b) }
{
    match members_located(kind, item) {
        Some(members) => nth_located(members, index),
        None => None,
    }
}

/// The pairs of a map, and the bytes from the first of them to the end of the input.
#[derive(Clone, Copy)]
pub(crate) struct Entries<'a> {
    pub(crate) pairs: Pairs<'a>,
    pub(crate) rest: &'a [u8],
}

/// Returns the pairs of a map, or `None` for any other item.
pub(crate) fn entries_located(map: Located<'_>) -> Option<Entries<'_>>
    ensures entries { option_map entries_left result ≡ as_map (located_item map.entry) }
    ensures place { (b : List ℕ) → IsLocated b map.entry → IfSome result (AreEntriesIn b) }
{
    match map.item.pairs() {
        Some(pairs) => {
            let rest = after(map.rest, head_len(map.item.slice()));
            Some(Entries { pairs, rest })
        }
        None => None,
    }
}

/// Returns the key and the value of the pair at `index`.
fn nth_pair_located(entries: Entries<'_>, index: usize) -> Option<(Located<'_>, Located<'_>)>
    ensures pair { option_map (λ p. (located_item p.0, located_item p.1)) result
        ≡ nth_pair index (entries_left entries.entry) }
    ensures place { (b : List ℕ) → AreEntriesIn b entries.entry
        → IfSome result (λ p. IsLocated b p.0 × IsLocated b p.1) }
{
    let Entries { pairs, rest } = entries;
    let mut rest = rest;
    let mut left = index;
    for (key, value) in pairs {
        let behind_key = after(rest, key.slice().len());
        if left == 0 {
            let key = Located { item: key, rest };
            let value = Located {
                item: value,
                rest: behind_key,
            };
            return Some((key, value));
        }
        left -= 1;
        rest = after(behind_key, value.slice().len());
    }
    None
}

/// Returns the key and the value of a map's pair at `index`.
pub(crate) fn pair_located(map: Located<'_>, index: usize) -> Option<(Located<'_>, Located<'_>)>
    ensures pair { option_map (λ p. (located_item p.0, located_item p.1)) result
        ≡ pair_in index (located_item map.entry) }
    ensures place { (b : List ℕ) → IsLocated b map.entry
        → IfSome result (λ p. IsLocated b p.0 × IsLocated b p.1) }
{
    match entries_located(map) {
        Some(entries) => nth_pair_located(entries, index),
        None => None,
    }
}

/// Returns the integer that the item is, if it fits in an `i64`.
pub(crate) fn number_of(item: Pull<'_>) -> Option<i64>
    ensures { Finds (λ n. n) (IsNumber (pull_item item.entry)) result }
{
    match item.integer() {
        Some(number) => i64::try_from(number).ok(),
        None => None,
    }
}

/// Returns true if the key is the integer `label`.
pub(crate) fn is_number(key: &Option<Integer>, label: i64) -> bool
    ensures { result ≡ is_same int_eq key.now label }
{
    match key {
        Some(number) => i128::from(*number) == i128::from(label),
        None => false,
    }
}

/// Returns the value of the first pair whose key is this label.
fn value_among(entries: Entries<'_>, label: i64) -> Option<Located<'_>>
    ensures value { option_map located_item result
        ≡ first_value (is_label (number label)) (entries_left entries.entry) }
    ensures place { (b : List ℕ) → AreEntriesIn b entries.entry
        → IfSome result (IsLocated b) }
{
    let Entries { pairs, rest } = entries;
    let mut rest = rest;
    for (key, value) in pairs {
        let behind_key = after(rest, key.slice().len());
        if is_number(&key.integer(), label) {
            return Some(Located {
                item: value,
                rest: behind_key,
            });
        }
        rest = after(behind_key, value.slice().len());
    }
    None
}

/// Returns the value under an integer label in a map.
pub(crate) fn value_located(map: Located<'_>, label: i64) -> Option<Located<'_>>
    ensures value { option_map located_item result
        ≡ value_under (number label) (located_item map.entry) }
    ensures place { (b : List ℕ) → IsLocated b map.entry → IfSome result (IsLocated b) }
{
    match entries_located(map) {
        Some(entries) => value_among(entries, label),
        None => None,
    }
}

/// Returns true if the bytes begin a string of indefinite length (RFC 8949, section 3.2.3). The
/// string is a text string if `is_text` is true, else a byte string.
pub(crate) fn opens_chunks(is_text: bool, bytes: &[u8]) -> bool
    ensures { result ≡ opens_chunks is_text bytes.now }
{
    match bytes.first() {
        Some(first) => *first == if is_text { 0x7F } else { 0x5F },
        None => false,
    }
}

/// Returns the content of a byte string of definite length, which is its only chunk.
pub(crate) fn only_bytes(item: Pull<'_>) -> Option<&[u8]>
    ensures { MatchOption result (IsNoString false (pull_bytes item.entry) (pull_item item.entry))
        (IsContentOf false (pull_bytes item.entry) (pull_item item.entry)) }
{
    if opens_chunks(false, item.slice()) {
        return None;
    }
    let mut chunks = item.bytes_chunks()?;
    chunks.next()
}

/// Returns the UTF-8 content of a text string of definite length.
fn only_text(item: Pull<'_>) -> Option<&[u8]>
    ensures { MatchOption result (IsNoString true (pull_bytes item.entry) (pull_item item.entry))
        (IsContentOf true (pull_bytes item.entry) (pull_item item.entry)) }
{
    if opens_chunks(true, item.slice()) {
        return None;
    }
    let mut chunks = item.text_chunks()?;
    match chunks.next() {
        Some(text) => Some(text.as_bytes()),
        None => None,
    }
}

/// Returns the content with its place, which is the end of the string's bytes.
fn ending<'a>(string: Located<'a>, content: &'a [u8]) -> Text<'a>
    ensures bytes { result.bytes.now ≡ content.now }
    ensures place { (b : List ℕ) (t : Bool) → IsLocated b string.entry
        → IsContentOf t (pull_bytes string.entry.item) (located_item string.entry)
        content.entry
        → IsTextIn b result }
{
    let before = string.item.slice().len().saturating_sub(content.len());
    Text {
        bytes: content,
        rest: after(string.rest, before),
    }
}

/// Returns the content of a byte string of definite length, or `None` for any other item.
pub(crate) fn bytes_located(string: Located<'_>) -> Option<Text<'_>>
    ensures bytes { IfSome result (λ t.
        as_bytes (located_item string.entry) ≡ Some t.bytes.now) }
    ensures none { MatchOption result
        (IsNoString false (pull_bytes string.entry.item) (located_item string.entry)) (λ t. ⊤) }
    ensures place { (b : List ℕ) → IsLocated b string.entry → IfSome result (IsTextIn b) }
{
    match only_bytes(string.item) {
        Some(bytes) => Some(ending(string, bytes)),
        None => None,
    }
}

/// Returns the content of a byte string or text string of definite length, or `None` for any other
/// item.
pub(crate) fn string_located(string: Located<'_>) -> Option<Text<'_>>
    ensures bytes { MatchOption result
        (IsNoContent (pull_bytes string.entry.item) (located_item string.entry))
        (λ t. string_in (located_item string.entry) ≡ Some t.bytes.now) }
    ensures place { (b : List ℕ) → IsLocated b string.entry → IfSome result (IsTextIn b) }
{
    match only_bytes(string.item) {
        Some(bytes) => Some(ending(string, bytes)),
        None => match only_text(string.item) {
            Some(text) => Some(ending(string, text)),
            None => None,
        },
    }
}
