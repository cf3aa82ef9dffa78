//! Checks that an item is a message, also if its strings are in chunks. Its content isn't copied.

ghost use Rattle.std.specs.Prelude.{◌≡◌, IfSome, IsTrue, MatchOption};
ghost use Rattle.coset.specs.Elements.{items_left};
ghost use Rattle.coset.specs.Headers.{header, protected};
ghost use Rattle.coset.specs.Item.{Item, item, no_items};
ghost use Rattle.coset.specs.Messages.{with_headers};
ghost use Rattle.coset.specs.Pulls.{pull_item};
ghost use Rattle.coset.specs.Shape.{◌then◌, bstr, end, or_nil};
ghost use Rattle.ffi_query.specs.Fits.{Fits, FitsElements, FitsForm, FitsKind, FitsThree, IsThree};
ghost use Rattle.ffi_query.specs.Kinds.{is_under_some, tag_of, without_tag};

use crate::kind::{Form, Kind};
use crate::seen::is_in_form;
use coset::cbor::de::{Items, Pull};
use coset::{FromPull, Header, ProtectedHeader};
use std::alloc::Global;

/// The first three elements of an array, and the elements after them.
#[derive(Clone, Copy)]
struct Three<'a> {
    protected: Pull<'a>,
    unprotected: Pull<'a>,
    content: Pull<'a>,
    behind: Items<'a>,
}

/// Returns the first of the remaining elements, and the elements after it.
fn next_of(elements: Items<'_>) -> Option<(Pull<'_>, Items<'_>)>
    ensures { MatchOption result (items_left elements.entry ≡ no_items)
        (λ x. items_left elements.entry ≡ item (pull_item x.0) (items_left x.1)) }
{
    let mut elements = elements;
    match elements.next() {
        Some(element) => Some((element, elements)),
        None => None,
    }
}

/// Returns the first three elements of an array, and the elements after them.
fn three_of(array: Pull<'_>) -> Option<Three<'_>>
    ensures { IfSome result (IsThree (pull_item array.entry)) }
{
    let elements = array.items()?;
    let (protected, elements) = next_of(elements)?;
    let (unprotected, elements) = next_of(elements)?;
    let (content, behind) = next_of(elements)?;
    Some(Three {
        protected,
        unprotected,
        content,
        behind,
    })
}

/// Returns true if the item is a valid protected header. False may also mean that an allocation
/// failed.
fn is_protected(alloc: Global, place: Pull<'_>) -> bool
    ensures { Fits protected (pull_item place.entry) result }
{
    ProtectedHeader::from_pull_bstr(alloc, place).is_ok()
}

/// Returns true if the item is a valid unprotected header. False may also mean that an allocation
/// failed.
fn is_unprotected(alloc: Global, place: Pull<'_>) -> bool
    ensures { Fits header (pull_item place.entry) result }
{
    Header::from_pull(alloc, place).is_ok()
}

/// Returns true if the item is a byte string.
fn is_string(place: Pull<'_>) -> bool
    ensures { Fits bstr (pull_item place.entry) result }
{
    place.bytes_chunks().is_some()
}

/// Returns true if the item is a byte string or `nil`.
fn is_content(place: Pull<'_>) -> bool
    ensures { Fits (or_nil bstr) (pull_item place.entry) result }
{
    if is_string(place) {
        return true;
    }
    place.is_null()
}

/// Returns true if the three elements are two headers and a content. False may also mean that an
/// allocation failed.
fn are_headers(alloc: Global, three: &Three<'_>) -> bool
    ensures { FitsThree three.now result }
{
    if is_content(three.content) {
        if is_protected(alloc, three.protected) {
            return is_unprotected(alloc, three.unprotected);
        }
    }
    false
}

/// Returns true if no elements are left.
fn is_end(elements: Items<'_>) -> bool
    ensures { FitsElements end (items_left elements.entry) result }
{
    match next_of(elements) {
        Some(_) => false,
        None => true,
    }
}

/// Returns true if a single byte string is left.
fn is_one_string(elements: Items<'_>) -> bool
    ensures { FitsElements (bstr then end) (items_left elements.entry) result }
{
    match next_of(elements) {
        Some((first, behind)) => {
            if is_string(first) {
                return is_end(behind);
            }
            false
        }
        None => false,
    }
}

/// Returns true if the item is an array of two headers, a content, and a signature or a tag, and
/// the form allows it.
fn with_proof(alloc: Global, form: Form, item: Pull<'_>, is_tagged: bool) -> bool
    ensures { FitsForm form is_tagged (with_headers (or_nil bstr then bstr then end))
        (pull_item item.entry) result }
{
    let Some(three) = three_of(item) else {
        return false;
    };
    if is_in_form(form, is_tagged) {
        if is_one_string(three.behind) {
            return are_headers(alloc, &three);
        }
    }
    false
}

/// Returns true if the item is an array of two headers and a content, and the form allows it.
fn without_proof(alloc: Global, form: Form, item: Pull<'_>, is_tagged: bool) -> bool
    ensures { FitsForm form is_tagged (with_headers (or_nil bstr then end))
        (pull_item item.entry) result }
{
    let Some(three) = three_of(item) else {
        return false;
    };
    if is_in_form(form, is_tagged) {
        if is_end(three.behind) {
            return are_headers(alloc, &three);
        }
    }
    false
}

/// Returns true if the item is found to be a message of this kind.
///
/// The messages found here are `COSE_Sign1`, `COSE_Mac0` and `COSE_Encrypt0`. `item` is without the
/// message's tag, and `is_tagged` says whether the message had it. The headers are decoded, and the
/// content isn't copied. If the result is false, the item may be a message all the same.
pub(crate) fn fits(alloc: Global, kind: Kind, item: Pull<'_>, is_tagged: bool) -> bool
    ensures { (v : Item) → pull_item item.entry ≡ without_tag (tag_of kind) v
        → is_tagged ≡ is_under_some (tag_of kind) v → IsTrue result → FitsKind kind v }
{
    match kind {
        Kind::Sign1(form) => with_proof(alloc, form, item, is_tagged),
        Kind::Mac0(form) => with_proof(alloc, form, item, is_tagged),
        Kind::Encrypt0(form) => without_proof(alloc, form, item, is_tagged),
        _ => false,
    }
}
