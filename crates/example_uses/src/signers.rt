//! Messages with several signers, each with its own headers (RFC 8152, section 4.1).

ghost use Rattle.std.specs.Prelude.{◌≡◌, map, IfOk, IfErr};
ghost use Rattle.std.specs.List.{position_from};
ghost use Rattle.coset_iana.specs.Algorithm as algorithms;
ghost use Rattle.coset_codec.specs.declared.error.CoseError.TheVariants.{OutOfMemory};
ghost use Rattle.coset_label.specs.LabelData.{assigned};
ghost use Rattle.coset_core.specs.Views.{signature_view};
ghost use Rattle.example_uses.specs.Signers.{SignsByTwo, VerifiesBy, is_by, signer};

use crate::headers::one_names_key;
use coset::iana::Algorithm;
use coset::{
    CallError, CborSerializable, CoseSign, CoseSignBuilder, CoseSignature, CoseSignatureBuilder,
    HeaderBuilder, Result,
};
use coset_sign::laws::each_signed_when_read;
use std::alloc::Global;

/// Makes a signature without its bytes. Its protected header names the algorithm, its unprotected
/// header the key.
///
/// # Errors
/// `OutOfMemory` if an allocation fails.
pub fn signer(alloc: Global, algorithm: Algorithm, key_id: &[u8]) -> Result<CoseSignature>
    ensures named { IfOk result (λ s. signature_view s
        ≡ signer (assigned (algorithms.number algorithm)) key_id.now) }
    ensures memory { IfErr result (λ e. e ≡ OutOfMemory) }
{
    let protected = HeaderBuilder::new(alloc).algorithm(algorithm).build();
    let unprotected = HeaderBuilder::new(alloc)
        .key_id_from(alloc, key_id)?
        .build();
    let signature = CoseSignatureBuilder::new(alloc)
        .protected(protected)
        .unprotected(unprotected);
    Ok(signature.build())
}

/// Makes a message with this payload and two signatures, and encodes it. The headers of both
/// signatures are given.
///
/// # Errors
/// - `OutOfMemory` if an allocation fails.
/// - `DuplicateMapKey` if a header repeats a label.
/// - `Caller` with the error of the closure that refused.
pub fn sign_by_two<F, G, E>(
    alloc: Global,
    payload: Vec<u8>,
    external_aad: &[u8],
    first: CoseSignature,
    sign_first: F,
    second: CoseSignature,
    sign_second: G,
) -> Result<Vec<u8>, CallError<E>>
where
    F: FnOnce(&[u8]) -> Result<Vec<u8>, E> + Drop,
    G: FnOnce(&[u8]) -> Result<Vec<u8>, E> + Drop,
    E: Drop,
    requires first { F.IsAlwaysCallable sign_first }
    requires second { G.IsAlwaysCallable sign_second }
    ensures { SignsByTwo F.FnOnce sign_first G.FnOnce sign_second external_aad.now payload.items
        (signature_view first) (signature_view second) result }
{
    let unsigned = CoseSignBuilder::new(alloc).payload(payload);
    let once = unsigned.try_add_created_signature(alloc, first, external_aad, sign_first)?;
    let twice = once.try_add_created_signature(alloc, second, external_aad, sign_second)?;
    Ok(twice.build().to_vec(alloc)?)
}

/// Returns true if the headers of the signature name this key.
fn is_by(signature: &CoseSignature, key_id: &[u8]) -> bool
    ensures { result ≡ is_by key_id.now (signature_view signature.now) }
{
    one_names_key(&signature.protected, &signature.unprotected, key_id)
}

/// Returns the index of the first signature whose headers name this key, counted from 0.
fn number_by(signatures: &[CoseSignature], key_id: &[u8]) -> Option<usize>
    ensures { result
        ≡ position_from (is_by key_id.now) 0 (map signature_view signatures.now) }
{
    signatures
        .iter()
        .position(|signature| is_by(signature, key_id))
}

/// Decodes and returns the message, if `verify` accepts the first signature whose headers name this
/// key.
///
/// # Errors
/// - A fault in bytes that aren't a message with signatures.
/// - `OutOfMemory` if an allocation fails.
/// - `Caller` with `absent` if no signature names the key.
/// - `Caller` with the error of `verify`.
pub fn verify_by<F, E>(
    alloc: Global,
    message: &[u8],
    key_id: &[u8],
    external_aad: &[u8],
    absent: E,
    verify: F,
) -> Result<CoseSign, CallError<E>>
where
    F: FnOnce(&[u8], &[u8]) -> Result<(), E> + Drop,
    E: Drop,
    requires { F.IsAlwaysCallable verify }
    ensures { VerifiesBy F.FnOnce verify key_id.now external_aad.now absent message.now result }
{
    each_signed_when_read();
    let message = CoseSign::from_slice(alloc, message)?;
    let Some(number) = number_by(&message.signatures, key_id) else {
        return Err(CallError::Caller(absent));
    };
    message.verify_signature(alloc, number, external_aad, verify)?;
    Ok(message)
}
