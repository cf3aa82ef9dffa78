//! Adds a signature, recipient, key or element to an item.

ghost use Rattle.std.specs.Prelude.{◌≡◌, IfOk, IfErr, option_map};
ghost use Rattle.coset.specs.CoseError.TheVariants.{OutOfMemory};
ghost use Rattle.coset.specs.Item.{array, item, no_items};
ghost use Rattle.coset.specs.View.{value_items, value_item};
ghost use Rattle.ffi_make.specs.Members.{AddsMember, in_last, member_in, places_with, with_member, within_tag};
ghost use Rattle.ffi_make.specs.Messages.{items_and};

use crate::given::{value_in, value_or};
use crate::list::and_value;
use crate::made::write_made;
use coset::Result;
use coset::cbor::value::Value;
use ffi_query::{Kind, Refusal};
use std::alloc::Global;

/// Returns the elements, then `last`, then a list of `member` alone.
///
/// # Errors
/// `OutOfMemory` if an allocation fails.
fn begin_list(alloc: Global, places: Vec<Value>, last: Value, member: Value) -> Result<Vec<Value>>
    ensures places { IfOk result (λ vs. value_items vs.items
        ≡ items_and (value_items places.items)
        (item (value_item last) (item (array (item (value_item member) no_items)) no_items))) }
    ensures memory { IfErr result (λ e. e ≡ OutOfMemory) }
{
    let list = and_value(Vec::new(alloc), member)?;
    let places = and_value(places, last)?;
    and_value(places, Value::Array(list))
}

/// Returns the elements, then the list `last` with `member` at its end. If `last` isn't a list and
/// `begins` is true, `last` stays and a new list follows it.
///
/// # Errors
/// `OutOfMemory` if an allocation fails.
fn member_in(
    alloc: Global,
    places: Vec<Value>,
    last: Value,
    member: Value,
    begins: bool,
) -> Result<Option<Vec<Value>>>
    ensures places { IfOk result (λ o. option_map (λ vs. value_items vs.items) o
        ≡ option_map (items_and (value_items places.items))
        (member_in begins (value_item member) (value_item last))) }
    ensures memory { IfErr result (λ e. e ≡ OutOfMemory) }
{
    match last {
        Value::Array(list) => {
            let list = Value::Array(and_value(list, member)?);
            Ok(Some(and_value(places, list)?))
        }
        last => {
            if !begins {
                return Ok(None);
            }
            Ok(Some(begin_list(alloc, places, last, member)?))
        }
    }
}

/// Returns the elements, with `member` added to the list that is the last element. If `begins` is
/// true, that list may be missing.
///
/// # Errors
/// `OutOfMemory` if an allocation fails.
fn in_last(
    alloc: Global,
    mut places: Vec<Value>,
    member: Value,
    begins: bool,
) -> Result<Option<Vec<Value>>>
    ensures places { IfOk result (λ o. option_map (λ vs. value_items vs.items) o
        ≡ in_last (member_in begins (value_item member)) (value_items places.items)) }
    ensures memory { IfErr result (λ e. e ≡ OutOfMemory) }
{
    match places.pop() {
        Some(last) => member_in(alloc, places, last, member, begins),
        None => Ok(None),
    }
}

/// Returns the elements of an item of this kind with one more member, or `None` if they have no
/// list for it.
///
/// # Errors
/// `OutOfMemory` if an allocation fails.
fn places_with(
    alloc: Global,
    kind: Kind,
    places: Vec<Value>,
    member: Value,
) -> Result<Option<Vec<Value>>>
    ensures places { IfOk result (λ o. option_map (λ vs. value_items vs.items) o
        ≡ places_with kind (value_item member) (value_items places.items)) }
    ensures memory { IfErr result (λ e. e ≡ OutOfMemory) }
{
    match kind {
        Kind::KeySet | Kind::Any => Ok(Some(and_value(places, member)?)),
        Kind::Recipient => in_last(alloc, places, member, true),
        Kind::Sign(_) | Kind::Mac(_) | Kind::Encrypt(_) => in_last(alloc, places, member, false),
        _ => Ok(None),
    }
}

/// Returns an item of this kind, without a tag, with one more member.
///
/// # Errors
/// `OutOfMemory` if an allocation fails.
fn with_member(alloc: Global, kind: Kind, value: Value, member: Value) -> Result<Option<Value>>
    ensures value { IfOk result (λ o. option_map value_item o
        ≡ with_member kind (value_item member) (value_item value)) }
    ensures memory { IfErr result (λ e. e ≡ OutOfMemory) }
{
    match value {
        Value::Array(places) => match places_with(alloc, kind, places, member)? {
            Some(places) => Ok(Some(Value::Array(places))),
            None => Ok(None),
        },
        _ => Ok(None),
    }
}

/// Returns an item of this kind, with or without a tag, with one more member.
///
/// # Errors
/// `OutOfMemory` if an allocation fails.
fn within_tag(alloc: Global, kind: Kind, value: Value, member: Value) -> Result<Option<Value>>
    ensures value { IfOk result (λ o. option_map value_item o
        ≡ within_tag (with_member kind (value_item member)) (value_item value)) }
    ensures memory { IfErr result (λ e. e ≡ OutOfMemory) }
{
    match value {
        Value::Tag(number, inner) => {
            match with_member(alloc, kind, Box::into_inner(inner), member)? {
                Some(inside) => Ok(Some(Value::Tag(number, Box::new(alloc, inside)?))),
                None => Ok(None),
            }
        }
        value => with_member(alloc, kind, value, member),
    }
}

/// Adds a signature, recipient, key or element to an item, writes the new item to the front of
/// `out`, and returns its length.
///
/// The new member follows those that the item has. The item is written in its shortest encoding.
/// Its structures stay as they were: what was signed, authenticated, or goes with a ciphertext.
/// `bytes` may be empty for a new set of keys or, for a [`Kind::Any`], a new array. A recipient
/// without nested recipients gets a list of them.
///
/// # Errors
/// - `Short` with the length needed, if `out` is too small.
/// - `Absent` if items of the kind have no such list, or `bytes` is an item without it.
/// - `Cose` if `bytes` or `member` aren't one item, the new item isn't of the kind, or an
///   allocation fails.
///
/// `out` is then unchanged.
pub fn add(
    alloc: Global,
    kind: Kind,
    bytes: &[u8],
    member: &[u8],
    out: &mut [u8],
) -> Result<usize, Refusal>
    ensures { AddsMember kind bytes.now member.now out.old out.new result }
{
    match value_or(alloc, bytes, Value::Array(Vec::new(alloc))) {
        Ok(value) => match value_in(alloc, member) {
            Ok(member) => { write_made(alloc, kind, within_tag(alloc, kind, value, member), out) }
            Err(error) => Err(Refusal::Cose(error)),
        },
        Err(error) => Err(Refusal::Cose(error)),
    }
}
