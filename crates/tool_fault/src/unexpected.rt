//! Unexpected items, by the names that errors give them.

ghost use Rattle.std.specs.Prelude.{◌≡◌, IfOk, IfSome, IsTrue, Some, [], length, filter, ◌==◌};
ghost use Rattle.coset.specs.Results.{DescribesNothing, IsRefused};
ghost use Rattle.coset.specs.Fields.{IsMediaType};
ghost use Rattle.coset.specs.Item.{no_items};
ghost use Rattle.coset.specs.Kinds.{kind};
ghost use Rattle.coset.specs.Parts.{as_array, as_bytes, as_text};
ghost use Rattle.coset.specs.Pulls.{pull_bytes, pull_item};
ghost use Rattle.tool_fault.specs.Called.{IsCalled, IsNoMediaType};
ghost use Rattle.tool_fault.specs.Places.{BeginsCalled};

use coset::cbor::de::Pull;
use coset::{CborSerializable, CoseError, CoseKey, CoseSignature};
use coset_codec::util::pull_type_error;
use std::alloc::{AllocError, Global};

/// Returns the error of decoding the bytes as this type, or `None` if they describe a value.
pub(crate) fn refusal<T: CborSerializable + Drop>(alloc: Global, bytes: &[u8]) -> Option<CoseError>
    ensures { IfSome result (λ e. IsRefused T.shape bytes.now e) }
{
    match T::from_slice(alloc, bytes) {
        Ok(_) => None,
        Err(error) => Some(error),
    }
}

/// Returns true if the bytes describe no value of the type.
pub(crate) fn describe_none<T: CborSerializable + Drop>(
    alloc: Global,
    bytes: &[u8],
) -> Result<bool, AllocError>
    ensures { IfOk result (λ b. IsTrue b → DescribesNothing T.shape bytes.now) }
{
    let Some(error) = refusal::<T>(alloc, bytes) else {
        return Ok(false);
    };
    match error {
        CoseError::OutOfMemory => Err(AllocError),
        _ => Ok(true),
    }
}

/// Returns true if `name` is the name of the item's kind.
fn is_kind(item: Pull<'_>, name: &str) -> bool
    ensures { IsTrue result → kind (pull_item item.entry) ≡ name.now }
{
    match pull_type_error(item, "") {
        CoseError::UnexpectedItem(got, _) => got == name,
        _ => false,
    }
}

/// Returns true if the item is an empty byte string.
fn has_no_bytes(alloc: Global, item: Pull<'_>) -> Result<bool, AllocError>
    ensures { IfOk result (λ b. IsTrue b → as_bytes (pull_item item.entry) ≡ Some []) }
{
    match item.to_bytes(alloc) {
        Ok(Some(content)) => Ok(content.is_empty()),
        Ok(None) => Ok(false),
        Err(_) => Err(AllocError),
    }
}

/// Returns true if the item is an empty text string.
fn has_no_text(alloc: Global, item: Pull<'_>) -> Result<bool, AllocError>
    ensures { IfOk result (λ b. IsTrue b → as_text (pull_item item.entry) ≡ Some []) }
{
    match item.to_text(alloc) {
        Ok(Some(content)) => Ok(content.is_empty()),
        Ok(None) => Ok(false),
        Err(_) => Err(AllocError),
    }
}

/// Returns true if the item is an array without elements.
fn has_no_elements(item: Pull<'_>) -> bool
    ensures { IsTrue result → as_array (pull_item item.entry) ≡ Some no_items }
{
    match item.items() {
        Some(mut elements) => elements.next().is_none(),
        None => false,
    }
}

/// Returns the number of bytes of the text that are `/`.
fn slashes(text: &str) -> usize
    ensures { result ≡ length (filter (λ b. b == 47) text.now) }
{
    text.as_bytes().iter().filter(|b| **b == b'/').count()
}

/// Returns true if the text begins or ends with white space, or doesn't have exactly one `/`.
fn is_no_media_type(text: &str) -> bool
    ensures { IsTrue result → IsMediaType text.now → ⊥ }
{
    text.trim() != text || slashes(text) != 1
}

/// Returns true if the item is a text that is no media type (RFC 8152, section 3.1).
fn has_no_media_type(alloc: Global, item: Pull<'_>) -> Result<bool, AllocError>
    ensures { IfOk result (λ b. IsTrue b → IsNoMediaType (pull_item item.entry)) }
{
    match item.to_text(alloc) {
        Ok(Some(text)) => Ok(is_no_media_type(text.as_str())),
        Ok(None) => Ok(false),
        Err(_) => Err(AllocError),
    }
}

/// Returns true if `got` is true of the item. `got` is the name that an error gives to an
/// unexpected item.
fn is_item_called(alloc: Global, got: &str, item: Pull<'_>) -> Result<bool, AllocError>
    ensures { IfOk result (λ b. IsTrue b
        → IsCalled got.now (pull_bytes item.entry) (pull_item item.entry)) }
{
    match got {
        "empty bstr" => has_no_bytes(alloc, item),
        "empty tstr" => has_no_text(alloc, item),
        "empty array" | "empty sig array" => Ok(has_no_elements(item)),
        "leading/trailing whitespace" | "arbitrary text" => has_no_media_type(alloc, item),
        "no kty label" => describe_none::<CoseKey>(alloc, item.slice()),
        "non-signature" => describe_none::<CoseSignature>(alloc, item.slice()),
        _ => Ok(is_kind(item, got)),
    }
}

/// Returns true if `got` is true of the item at the front of the bytes.
pub(crate) fn is_called(alloc: Global, got: &str, bytes: &[u8]) -> Result<bool, AllocError>
    ensures { IfOk result (λ b. IsTrue b → BeginsCalled got.now bytes.now) }
{
    match Pull::new(bytes) {
        Ok((item, _)) => is_item_called(alloc, got, item),
        Err(_) => Ok(false),
    }
}
