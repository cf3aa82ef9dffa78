//! Requests that OSCORE protects (RFC 8613): `COSE_Encrypt0` messages. Their `external_aad` has the
//! facts that the two sides agree on.

ghost use Rattle.std.specs.Prelude.{IfOk, IfErr, Some};
ghost use Rattle.coset_iana.specs.Algorithm as algorithms;
ghost use Rattle.coset_codec.specs.Results.{Writes};
ghost use Rattle.example_uses.specs.Oscore.{IsDecrypted, request_aad};
ghost use Rattle.example_uses.specs.Refusals.{IsNotDecrypted};

use crate::cipher::{DecryptionKey, Refused};
use coset::cbor::value::Value;
use coset::iana::{Algorithm, EnumI64};
use coset::{CallError, CborSerializable, CoseEncrypt0, Result};
use coset_msg::laws::structure_when_read;
use std::alloc::Global;

/// Encodes the `external_aad` of a request (RFC 8613, section 5.4).
///
/// It has version 1 of OSCORE, the algorithm, the requester's identifier, its Partial IV, and no
/// options.
///
/// # Errors
/// `OutOfMemory` if an allocation fails.
pub fn external_aad(
    alloc: Global,
    algorithm: Algorithm,
    request_kid: &[u8],
    request_piv: &[u8],
) -> Result<Vec<u8>>
    ensures { Writes (Some (request_aad (algorithms.number algorithm) request_kid.now
        request_piv.now)) (λ b. b.items) result }
{
    let mut algorithms = Vec::new(alloc);
    algorithms.push(Value::from(algorithm.to_i64()))?;
    let mut parts = Vec::new(alloc);
    parts.push(Value::from(1u8))?;
    parts.push(Value::Array(algorithms))?;
    parts.push(Value::Bytes(Vec::from_slice(alloc, request_kid)?))?;
    parts.push(Value::Bytes(Vec::from_slice(alloc, request_piv)?))?;
    parts.push(Value::Bytes(Vec::new(alloc)))?;
    Value::Array(parts).to_vec(alloc)
}

/// Returns the plaintext of an encrypted message.
///
/// # Errors
/// - A fault in bytes that aren't such a message.
/// - `OutOfMemory` if an allocation fails.
/// - `Caller` if the message has no ciphertext, or the key refuses.
pub fn decrypted<K: DecryptionKey>(
    alloc: Global,
    key: &K,
    message: &[u8],
    external_aad: &[u8],
) -> Result<Vec<u8>, CallError<Refused>>
    ensures decrypted { IfOk result (λ p. IsDecrypted (K.decrypts key.now) external_aad.now
        message.now p.items) }
    ensures refused { IfErr result (λ e. IsNotDecrypted (K.refuses key.now) external_aad.now
        message.now e) }
{
    structure_when_read();
    let message = CoseEncrypt0::from_slice(alloc, message)?;
    if message.ciphertext.is_none() {
        return Err(CallError::Caller(Refused::Rejected));
    }
    let plaintext = message.decrypt(alloc, external_aad, move |ciphertext, aad| {
        key.decrypt(alloc, ciphertext, aad)
    })?;
    Ok(plaintext)
}
