//! Finds a key of a set by its key identifier (RFC 8152, section 7).

ghost use Rattle.std.specs.Prelude.{◌≡◌, IfOk, IfErr, option_map};
ghost use Rattle.coset.specs.CoseError.TheVariants.{OutOfMemory};
ghost use Rattle.coset.specs.Elements.{items_left};
ghost use Rattle.coset.specs.Pulls.{pull_item};
ghost use Rattle.coset.specs.View.{value_item};
ghost use Rattle.ffi_query.specs.Results.{Answers, Finds};
ghost use Rattle.ffi_query.specs.Sets.{IsKeyBy, first_key, has_key_id, holds, key_in};

use crate::item::{encoding, item_of};
use crate::kind::Kind;
use crate::label::{Label, value_under};
use crate::refusal::Refusal;
use crate::written::write_found;
use coset::Result;
use coset::cbor::de::{Items, Pull};
use coset::cbor::value::Value;
use std::alloc::Global;

/// Returns true if the value is a byte string with this content.
fn holds(bytes: &[u8], value: &Value) -> bool
    ensures { result ≡ holds bytes.now (value_item value.now) }
{
    match value {
        Value::Bytes(held) => held.as_slice() == bytes,
        _ => false,
    }
}

/// Returns true if the key has this identifier: `kid`, label 2.
///
/// # Errors
/// `OutOfMemory` if an allocation fails.
fn has_key_id(alloc: Global, key_id: &[u8], key: Pull<'_>) -> Result<bool>
    ensures same { IfOk result (λ b. b ≡ has_key_id key_id.now (pull_item key.entry)) }
    ensures memory { IfErr result (λ e. e ≡ OutOfMemory) }
{
    match value_under(alloc, Label::Number(2), key)? {
        Some(value) => Ok(holds(key_id, &value)),
        None => Ok(false),
    }
}

/// Returns the first key with this identifier.
///
/// # Errors
/// `OutOfMemory` if an allocation fails.
fn first_key(alloc: Global, key_id: &[u8], keys: Items<'_>) -> Result<Option<Value>>
    ensures value { IfOk result (λ o. option_map value_item o
        ≡ first_key key_id.now (items_left keys.entry)) }
    ensures memory { IfErr result (λ e. e ≡ OutOfMemory) }
{
    for key in keys {
        if has_key_id(alloc, key_id, key)? {
            return Ok(Some(key.to_value(alloc)?));
        }
    }
    Ok(None)
}

/// Returns the first key of the set with this identifier.
///
/// # Errors
/// `OutOfMemory` if an allocation fails.
fn key_in(alloc: Global, key_id: &[u8], set: Pull<'_>) -> Result<Option<Value>>
    ensures value { IfOk result (λ o. option_map value_item o
        ≡ key_in key_id.now (pull_item set.entry)) }
    ensures memory { IfErr result (λ e. e ≡ OutOfMemory) }
{
    match set.items() {
        Some(keys) => first_key(alloc, key_id, keys),
        None => Ok(None),
    }
}

/// Returns the shortest encoding of the first key of the set with this identifier.
///
/// # Errors
/// `OutOfMemory` if an allocation fails.
fn find_key(alloc: Global, key_id: &[u8], set: Pull<'_>) -> Result<Option<Vec<u8>>>
    ensures found { IfOk result (Finds (λ b. b.items)
        (IsKeyBy key_id.now (pull_item set.entry))) }
    ensures memory { IfErr result (λ e. e ≡ OutOfMemory) }
{
    match key_in(alloc, key_id, set)? {
        Some(value) => Ok(Some(encoding(alloc, &value)?)),
        None => Ok(None),
    }
}

/// Writes the first key with this identifier to the front of `out`, and returns its length.
///
/// `bytes` are a [`Kind::KeySet`]. The key is written in its shortest encoding (RFC 8949, section
/// 4.2.1). Other keys of the set may have the same identifier (RFC 8152, section 7.1).
///
/// # Errors
/// - `Short` with the length needed, if `out` is too small.
/// - `Absent` if no key has this identifier.
/// - `Cose` with an error of [`check`](crate::check).
///
/// `out` is then unchanged.
pub fn key_of(alloc: Global, bytes: &[u8], key_id: &[u8], out: &mut [u8]) -> Result<usize, Refusal>
    ensures { Answers Kind.KeySet bytes.now (IsKeyBy key_id.now) out.old out.new result }
{
    match item_of(alloc, Kind::KeySet, bytes) {
        Ok(set) => write_found(find_key(alloc, key_id, set), out),
        Err(error) => Err(Refusal::Cose(error)),
    }
}
