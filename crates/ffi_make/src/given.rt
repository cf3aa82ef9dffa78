//! The arguments of calls: bytes that should be one item, labels, and values of map pairs.

ghost use Rattle.std.specs.Prelude.{◌≡◌, IfErr, IfOk, MatchResult};
ghost use Rattle.coset.specs.Results.{ReadsWhole};
ghost use Rattle.coset.specs.Errors.{UnlessMemory};
ghost use Rattle.coset.specs.View.{value_item};
ghost use Rattle.coset.specs.CoseError.TheVariants.{OutOfMemory};
ghost use Rattle.ffi_query.specs.Labels.{label_view};
ghost use Rattle.ffi_make.specs.Given.{EntryFaults, IsEntry, IsKey, IsText, IsTextFault, KeyFaults, ReadsAny, byte_string, entry_view};

use coset::cbor::de;
use coset::cbor::value::Value;
use coset::{CoseError, Result};
use coset_codec::traits::whole_item;
use ffi_query::Label;
use std::alloc::Global;

/// A value of a map pair.
#[derive(Clone, Copy, Debug)]
pub enum Entry<'a> {
    /// An integer.
    Integer(i64),
    /// A byte string with this content.
    Bytes(&'a [u8]),
    /// A text string, as its UTF-8 bytes.
    Text(&'a [u8]),
    /// Any item, as its encoding.
    Encoded(&'a [u8]),
}

/// Decodes the one item that the bytes encode.
///
/// # Errors
/// - The reason why the bytes aren't one item.
/// - `OutOfMemory` if an allocation fails.
pub(crate) fn value_in(alloc: Global, bytes: &[u8]) -> Result<Value>
    ensures { ReadsWhole value_item bytes.now result }
{
    Ok(whole_item(bytes)?.to_value(alloc)?)
}

/// Decodes the one item that the bytes encode, or returns `empty` if there are no bytes.
///
/// # Errors
/// The errors of [`value_in`].
pub(crate) fn value_or(alloc: Global, bytes: &[u8], empty: Value) -> Result<Value>
    ensures { ReadsAny (value_item empty) bytes.now value_item result }
{
    if bytes.is_empty() {
        return Ok(empty);
    }
    value_in(alloc, bytes)
}

/// Returns a text string with this content.
///
/// # Errors
/// - `DecodeFailed` with the offset at which the bytes stop being UTF-8.
/// - `OutOfMemory` if an allocation fails.
fn text_value(alloc: Global, text: &[u8]) -> Result<Value>
    ensures { MatchResult result (λ v. IsText text.now (value_item v)) (λ e.
        UnlessMemory e (IsTextFault text.now)) }
{
    match std::str::from_utf8(text) {
        Ok(text) => Ok(Value::Text(String::from_str(alloc, text)?)),
        Err(error) => Err(CoseError::DecodeFailed(de::Error::Syntax(error.valid_up_to()))),
    }
}

/// Returns a byte string with this content.
///
/// # Errors
/// `OutOfMemory` if an allocation fails.
pub(crate) fn bytes_value(alloc: Global, bytes: &[u8]) -> Result<Value>
    ensures value { IfOk result (λ v. value_item v ≡ byte_string bytes.now) }
    ensures memory { IfErr result (λ e. e ≡ OutOfMemory) }
{
    Ok(Value::Bytes(Vec::from_slice(alloc, bytes)?))
}

/// Returns a label as the key of a pair.
///
/// # Errors
/// - `DecodeFailed` if a text isn't UTF-8.
/// - `OutOfMemory` if an allocation fails.
pub(crate) fn key_value(alloc: Global, label: Label<'_>) -> Result<Value>
    ensures { MatchResult result (λ v. IsKey (label_view label.entry) (value_item v)) (λ e.
        UnlessMemory e (KeyFaults (label_view label.entry))) }
{
    match label {
        Label::Number(number) => Ok(Value::from(number)),
        Label::Text(text) => text_value(alloc, text),
    }
}

/// Returns the value of a pair.
///
/// # Errors
/// - `DecodeFailed` if a text isn't UTF-8.
/// - The reason why an encoding isn't one item.
/// - `OutOfMemory` if an allocation fails.
pub(crate) fn entry_value(alloc: Global, entry: Entry<'_>) -> Result<Value>
    ensures { MatchResult result (λ v. IsEntry (entry_view entry.entry) (value_item v)) (λ e.
        UnlessMemory e (EntryFaults (entry_view entry.entry))) }
{
    match entry {
        Entry::Integer(number) => Ok(Value::from(number)),
        Entry::Bytes(bytes) => bytes_value(alloc, bytes),
        Entry::Text(text) => text_value(alloc, text),
        Entry::Encoded(bytes) => value_in(alloc, bytes),
    }
}
