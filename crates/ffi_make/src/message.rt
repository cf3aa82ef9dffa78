//! Makes messages, signatures and recipients from their parts.

ghost use Rattle.std.specs.Prelude.{◌≡◌, IfOk, IfErr, option_map};
ghost use Rattle.std.specs.Option.{option_copied};
ghost use Rattle.coset.specs.CoseError.TheVariants.{OutOfMemory};
ghost use Rattle.coset.specs.View.{value_items, value_item};
ghost use Rattle.ffi_make.specs.Messages.{MakesMessage, and_place, content_item, has_content, has_list, has_places, has_proof, in_tag, message, places, tag_written};

use crate::given::{bytes_value, value_or};
use crate::list::and_value;
use crate::made::write_made;
use coset::Result;
use coset::cbor::value::Value;
use ffi_query::{Form, Kind, Refusal};
use std::alloc::Global;

/// Returns true if items of this kind have a payload or a ciphertext after their headers.
fn has_content(kind: Kind) -> bool
    ensures { result ≡ has_content kind }
{
    kind.has_headers() && !matches!(kind, Kind::Signature)
}

/// Returns true if items of this kind have a signature or a tag.
fn has_proof(kind: Kind) -> bool
    ensures { result ≡ has_proof kind }
{
    matches!(
        kind,
        Kind::Sign1(_) | Kind::Mac0(_) | Kind::Mac(_) | Kind::Signature
    )
}

/// Returns true if items of this kind end with a list of signatures or recipients.
fn has_list(kind: Kind) -> bool
    ensures { result ≡ has_list kind }
{
    matches!(kind, Kind::Sign(_) | Kind::Mac(_) | Kind::Encrypt(_))
}

/// Returns true if items of this kind have two headers, and a place for each of these parts that is
/// given.
fn has_places(kind: Kind, content: Option<&[u8]>, proof: &[u8]) -> bool
    ensures { result ≡ has_places kind (option_copied content.entry) proof.now }
{
    if !has_content(kind) && content.is_some() {
        return false;
    }
    if !has_proof(kind) && !proof.is_empty() {
        return false;
    }
    kind.has_headers()
}

/// Returns a payload or a ciphertext: `bstr / nil`.
///
/// # Errors
/// `OutOfMemory` if an allocation fails.
fn content_value(alloc: Global, content: Option<&[u8]>) -> Result<Value>
    ensures value { IfOk result (λ v. value_item v ≡ content_item (option_copied content.entry)) }
    ensures memory { IfErr result (λ e. e ≡ OutOfMemory) }
{
    match content {
        Some(content) => bytes_value(alloc, content),
        None => Ok(Value::Null),
    }
}

/// Returns the elements, with `value` at the end if `is_asked` is true.
///
/// # Errors
/// `OutOfMemory` if an allocation fails.
fn and_place(places: Vec<Value>, is_asked: bool, value: Value) -> Result<Vec<Value>>
    ensures places { IfOk result (λ vs. value_items vs.items
        ≡ and_place is_asked (value_item value) (value_items places.items)) }
    ensures memory { IfErr result (λ e. e ≡ OutOfMemory) }
{
    if is_asked {
        and_value(places, value)
    } else {
        Ok(places)
    }
}

/// Returns the elements of an item of this kind, from its parts.
///
/// # Errors
/// `OutOfMemory` if an allocation fails.
fn places(
    alloc: Global,
    kind: Kind,
    protected: &[u8],
    unprotected: Value,
    content: Option<&[u8]>,
    proof: &[u8],
) -> Result<Vec<Value>>
    ensures places { IfOk result (λ vs. value_items vs.items ≡ places kind protected.now
        (value_item unprotected) (option_copied content.entry) proof.now) }
    ensures memory { IfErr result (λ e. e ≡ OutOfMemory) }
{
    let places = Vec::new(alloc);
    let places = and_value(places, bytes_value(alloc, protected)?)?;
    let places = and_value(places, unprotected)?;
    let places = and_place(places, has_content(kind), content_value(alloc, content)?)?;
    let places = and_place(places, has_proof(kind), bytes_value(alloc, proof)?)?;
    and_place(places, has_list(kind), Value::Array(Vec::new(alloc)))
}

/// Returns the number of the tag that an item of this kind is written under, or `None`.
fn tag_written(kind: Kind) -> Option<u64>
    ensures { result ≡ tag_written kind }
{
    match kind {
        Kind::Sign1(form)
        | Kind::Sign(form)
        | Kind::Mac0(form)
        | Kind::Mac(form)
        | Kind::Encrypt0(form)
        | Kind::Encrypt(form) => match form {
            Form::Tagged => kind.tag(),
            _ => None,
        },
        _ => None,
    }
}

/// Puts the item under a tag of this number, if there is a number.
///
/// # Errors
/// `OutOfMemory` if an allocation fails.
fn in_tag(alloc: Global, number: Option<u64>, value: Value) -> Result<Value>
    ensures value { IfOk result (λ v. value_item v ≡ in_tag number (value_item value)) }
    ensures memory { IfErr result (λ e. e ≡ OutOfMemory) }
{
    match number {
        Some(number) => Ok(Value::Tag(number, Box::new(alloc, value)?)),
        None => Ok(value),
    }
}

/// Makes the item of this kind from its parts, or returns `None` if it has no place for one of
/// them.
///
/// # Errors
/// `OutOfMemory` if an allocation fails.
fn message(
    alloc: Global,
    kind: Kind,
    protected: &[u8],
    unprotected: Value,
    content: Option<&[u8]>,
    proof: &[u8],
) -> Result<Option<Value>>
    ensures value { IfOk result (λ o. option_map value_item o ≡ message kind protected.now
        (value_item unprotected) (option_copied content.entry) proof.now) }
    ensures memory { IfErr result (λ e. e ≡ OutOfMemory) }
{
    if !has_places(kind, content, proof) {
        return Ok(None);
    }
    let places = places(alloc, kind, protected, unprotected, content, proof)?;
    let value = in_tag(alloc, tag_written(kind), Value::Array(places))?;
    Ok(Some(value))
}

/// Makes a message, a signature or a recipient, writes it to the front of `out`, and returns its
/// length.
///
/// The item is written in its shortest encoding. It is under its tag if the kind's form is
/// [`Form::Tagged`].
///
/// - `protected` is the content of the protected header's byte string, as it was signed: a map, or
///   nothing for an empty header.
/// - `unprotected` is a map too, or nothing.
/// - `content` is the payload or the ciphertext, or `None` if that is detached.
/// - `proof` is the signature or the tag. It isn't checked, and may be empty.
///
/// A message with a list of signatures or recipients is made with an empty list.
/// [`add`](crate::add) puts them in.
///
/// # Errors
/// - `Short` with the length needed, if `out` is too small.
/// - `Absent` if items of the kind have no headers, or no place for the content or proof that is
///   given.
/// - `Cose` if `unprotected` isn't one item, the new item isn't of the kind, or an allocation
///   fails. A fault in a header is returned as it is.
///
/// `out` is then unchanged.
pub fn make(
    alloc: Global,
    kind: Kind,
    protected: &[u8],
    unprotected: &[u8],
    content: Option<&[u8]>,
    proof: &[u8],
    out: &mut [u8],
) -> Result<usize, Refusal>
    ensures { MakesMessage kind protected.now unprotected.now (option_copied content.entry)
        proof.now out.old out.new result }
{
    match value_or(alloc, unprotected, Value::Map(Vec::new(alloc))) {
        Ok(unprotected) => write_made(
            alloc,
            kind,
            message(alloc, kind, protected, unprotected, content, proof),
            out,
        ),
        Err(error) => Err(Refusal::Cose(error)),
    }
}
