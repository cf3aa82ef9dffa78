//! Arrays that are one signature or a list of several. An array that begins with a byte string is
//! one signature. An array that begins with an array is a list.

ghost use Rattle.std.specs.Prelude.{◌≤◌, ◌<◌, IfOk, List, ℕ};
ghost use Rattle.coset_value.specs.Item.{Item, Items, no_items, null};
ghost use Rattle.coset_value.specs.View.{value_items, value_item};
ghost use Rattle.coset_cbor.specs.Cursors.{bytes_left, AreWithin as lent_within};
ghost use Rattle.coset_codec.specs.Errors.{IsUnexpected};
ghost use Rattle.coset_codec.specs.Inputs.{State, ItemAt, input_size, items_size, length_left, state, tree};
ghost use Rattle.coset_core.specs.OneOrMore.{BeginsSo, EntersOnes, SaysFirst};

use coset_cbor::cursor::{Cursor, Remaining};
use coset_cbor::value::Value;
use coset_codec::read::{ArrayElements, Decoder};
use coset_codec::util::{cbor_type_error, pull_type_error};
use coset_codec::{CoseError, Result};
use std::mem;

/// Returns the error for an empty array.
fn empty_array_error() -> CoseError
    ensures { IsUnexpected result × SaysFirst no_items result }
{
    CoseError::UnexpectedItem("empty sig array", "non-empty sig array")
}

/// Returns true if the first element is a byte string, and false if it is an array.
fn tree_is_one(elements: &Vec<Value>) -> Result<bool>
    ensures { BeginsSo (value_items elements.now.items) result }
{
    let Some(first) = elements.first() else {
        return Err(empty_array_error());
    };
    if first.as_bytes().is_some() {
        Ok(true)
    } else if first.as_array().is_some() {
        Ok(false)
    } else {
        cbor_type_error(first, "array or bstr value")
    }
}

/// Returns the elements of an array, with true if the first is a byte string and false if it is an
/// array.
fn tree_one_or_more(value: Value) -> Result<(bool, ArrayElements)>
    ensures deeper { IfOk result (λ x. (s : State)
        → items_size x.1 s < input_size (tree (value_item value))) }
    ensures enters { EntersOnes (value_item value) (tree null) (tree null) result }
{
    match value {
        Value::Array(elements) => {
            let one = tree_is_one(&elements)?;
            Ok((one, ArrayElements::Tree(elements.into_iter())))
        }
        other => cbor_type_error(&other, "array"),
    }
}

/// Returns true if the next element is a byte string, and false if it is an array.
fn is_one_borrowed(elements: Remaining, cursor: Cursor<'_>) -> Result<bool>
    ensures { (vs : Items) (a : List ℕ) → lent_within elements vs (bytes_left cursor.entry) a
        → BeginsSo vs result }
{
    let mut elements = elements;
    let mut cursor = cursor;
    if !elements.next(&cursor) {
        return Err(empty_array_error());
    }
    if cursor.is_bytes() {
        return Ok(true);
    }
    if cursor.is_array() {
        return Ok(false);
    }
    Err(pull_type_error(cursor.take()?, "array or bstr value"))
}

/// Enters an array. Returns true if its first element is a byte string, and false if it is an
/// array.
///
/// Allocates nothing.
///
/// # Errors
/// `UnexpectedItem` if the item is not such an array. The item is then skipped.
pub(crate) fn enter_one_or_more(input: &mut Decoder<'_>) -> Result<(bool, ArrayElements)>
    ensures shrinks { length_left (state input.new) ≤ length_left (state input.old) }
    ensures deeper { IfOk result (λ x. items_size x.1 (state input.new) < input_size
        (state input.old)) }
    ensures enters { (v : Item) (z : State) → ItemAt v (state input.old) z
        → EntersOnes v (state input.new) z result }
{
    match input {
        Decoder::Tree(value) => tree_one_or_more(mem::replace(value, Value::Null)),
        Decoder::Borrowed(cursor) => {
            let Some(elements) = cursor.array() else {
                return Err(pull_type_error(cursor.take()?, "array"));
            };
            match is_one_borrowed(elements, *cursor) {
                Ok(one) => Ok((one, ArrayElements::Borrowed(elements))),
                Err(error) => {
                    elements.finish(cursor);
                    Err(error)
                }
            }
        }
    }
}
