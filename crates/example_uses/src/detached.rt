//! Messages with a detached payload: `nil` is in its place (RFC 8152, section 4.1).

ghost use Rattle.coset_iana.specs.Algorithm as algorithms;
ghost use Rattle.coset_label.specs.LabelData.{assigned};
ghost use Rattle.example_uses.specs.Detached.{SignsApart, VerifiesApart};

use coset::iana::Algorithm;
use coset::{CallError, CborSerializable, CoseError, CoseSign1, CoseSign1Builder, HeaderBuilder};
use coset_sign::laws::signed_when_read;
use std::alloc::Global;

/// Signs the payload, and encodes the message without it.
///
/// # Errors
/// - `OutOfMemory` if an allocation fails.
/// - `Caller` with the error of `sign`.
pub fn sign_detached<F, E>(
    alloc: Global,
    algorithm: Algorithm,
    payload: &[u8],
    external_aad: &[u8],
    sign: F,
) -> Result<Vec<u8>, CallError<E>>
where
    F: FnOnce(&[u8]) -> Result<Vec<u8>, E> + Drop,
    E: Drop,
    requires { F.IsAlwaysCallable sign }
    ensures { SignsApart F.FnOnce sign (assigned (algorithms.number algorithm)) external_aad.now
        payload.now result }
{
    let protected = HeaderBuilder::new(alloc).algorithm(algorithm).build();
    let unsigned = CoseSign1Builder::new(alloc).protected(protected);
    let signed = unsigned.try_create_detached_signature(alloc, payload, external_aad, sign)?;
    Ok(signed.build().to_vec(alloc)?)
}

/// Decodes and returns the message, if `verify` accepts its signature over the payload.
///
/// # Errors
/// - A fault in bytes that aren't a message with one signature.
/// - `UnexpectedItem` if the message has a payload of its own.
/// - `OutOfMemory` if an allocation fails.
/// - `Caller` with the error of `verify`.
pub fn verify_detached<F, E>(
    alloc: Global,
    message: &[u8],
    payload: &[u8],
    external_aad: &[u8],
    verify: F,
) -> Result<CoseSign1, CallError<E>>
where
    F: FnOnce(&[u8], &[u8]) -> Result<(), E> + Drop,
    E: Drop,
    requires { F.IsAlwaysCallable verify }
    ensures { VerifiesApart F.FnOnce verify external_aad.now payload.now message.now result }
{
    signed_when_read();
    let message = CoseSign1::from_slice(alloc, message)?;
    if message.payload.is_some() {
        return Err(CallError::Coset(CoseError::UnexpectedItem("bstr", "nil")));
    }
    message.verify_detached_signature(alloc, payload, external_aad, verify)?;
    Ok(message)
}
