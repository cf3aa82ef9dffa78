//! Countersignatures of version 2 of a message with one signature (RFC 9338). Such a
//! countersignature is another party's signature of the message, its payload and its signature.

ghost use Rattle.std.specs.Prelude.{◌≡◌, map, option_map, IfOk, IfErr};
ghost use Rattle.coset_iana.specs.Algorithm as algorithms;
ghost use Rattle.coset_codec.specs.declared.error.CoseError.TheVariants.{OutOfMemory};
ghost use Rattle.coset_label.specs.LabelData.{assigned};
ghost use Rattle.coset_core.specs.Views.{countersignature_view};
ghost use Rattle.coset_sign.specs.Sign.{signed_with};
ghost use Rattle.coset_sign.specs.Sign1.{sign1_view};
ghost use Rattle.example_uses.specs.Countersigning.{Countersigns, MakesCountersignature, VerifiesCountersigned, and_countersignature};
ghost use Rattle.example_uses.specs.Signers.{is_by, signature_by, signer};

use crate::headers::one_names_key;
use coset::iana::Algorithm;
use coset::{
    CallError, CborSerializable, CoseCountersignature, CoseCountersignatureBuilder, CoseError,
    CoseSign1, HeaderBuilder, Result, countersign_v2_structure_data, verify_countersignature,
};
use coset_sign::laws::countersigned_when_read;
use std::alloc::Global;

/// Makes a countersignature without its signature bytes. Its protected header names the algorithm,
/// its unprotected header the key.
///
/// # Errors
/// `OutOfMemory` if an allocation fails.
pub fn countersigner(
    alloc: Global,
    algorithm: Algorithm,
    key_id: &[u8],
) -> Result<CoseCountersignature>
    ensures named { IfOk result (λ c. countersignature_view c
        ≡ signer (assigned (algorithms.number algorithm)) key_id.now) }
    ensures memory { IfErr result (λ e. e ≡ OutOfMemory) }
{
    let protected = HeaderBuilder::new(alloc).algorithm(algorithm).build();
    let unprotected = HeaderBuilder::new(alloc)
        .key_id_from(alloc, key_id)?
        .build();
    let countersignature = CoseCountersignatureBuilder::new(alloc)
        .protected(protected)
        .unprotected(unprotected);
    Ok(countersignature.build())
}

/// Returns the countersignature with these signature bytes and unchanged headers.
fn signed_with(mut countersignature: CoseCountersignature, bytes: Vec<u8>) -> CoseCountersignature
    ensures { countersignature_view result
        ≡ signed_with bytes.items (countersignature_view countersignature) }
{
    countersignature.signature = bytes;
    countersignature
}

/// Signs the message as a countersignature with these headers.
///
/// # Errors
/// - `UnexpectedItem` if the message has no payload.
/// - `OutOfMemory` if an allocation fails.
/// - `DuplicateMapKey` if a header that wasn't read repeats a label.
/// - `Caller` with the error of `sign`.
pub fn countersignature_of<F, E>(
    alloc: Global,
    message: &CoseSign1,
    countersignature: CoseCountersignature,
    external_aad: &[u8],
    sign: F,
) -> Result<CoseCountersignature, CallError<E>>
where
    F: FnOnce(&[u8]) -> Result<Vec<u8>, E> + Drop,
    E: Drop,
    requires { F.IsAlwaysCallable sign }
    ensures { MakesCountersignature F.FnOnce sign (sign1_view message.now)
        (countersignature_view countersignature) external_aad.now result }
{
    let Some(payload) = &message.payload else {
        return Err(CallError::Coset(CoseError::UnexpectedItem("nul", "bstr")));
    };
    let body = message.protected.clone()?;
    let own = countersignature.protected.clone()?;
    let other_fields = [Vec::from_slice(alloc, &message.signature)?];
    let tbs = countersign_v2_structure_data(
        alloc,
        body,
        own,
        external_aad,
        payload,
        &other_fields,
    )?;
    match sign(&tbs) {
        Ok(signature) => Ok(signed_with(countersignature, signature)),
        Err(error) => Err(CallError::Caller(error)),
    }
}

/// Appends a countersignature to those in the message's unprotected header.
///
/// # Errors
/// `OutOfMemory` if an allocation fails.
fn and_countersignature(mut message: CoseSign1, made: CoseCountersignature) -> Result<CoseSign1>
    ensures ok { IfOk result (λ m. sign1_view m
        ≡ and_countersignature (countersignature_view made) (sign1_view message)) }
    ensures memory { IfErr result (λ e. e ≡ OutOfMemory) }
{
    message.unprotected.countersignatures_v2.push(made)?;
    Ok(message)
}

/// Decodes the message, adds a countersignature to its unprotected header, and encodes it again.
///
/// # Errors
/// - A fault in bytes that aren't a message with one signature.
/// - The errors of [`countersignature_of`].
pub fn countersign<F, E>(
    alloc: Global,
    message: &[u8],
    countersignature: CoseCountersignature,
    external_aad: &[u8],
    sign: F,
) -> Result<Vec<u8>, CallError<E>>
where
    F: FnOnce(&[u8]) -> Result<Vec<u8>, E> + Drop,
    E: Drop,
    requires { F.IsAlwaysCallable sign }
    ensures { Countersigns F.FnOnce sign (countersignature_view countersignature)
        external_aad.now message.now result }
{
    let message = CoseSign1::from_slice(alloc, message)?;
    let made = countersignature_of(alloc, &message, countersignature, external_aad, sign)?;
    let countersigned = and_countersignature(message, made)?;
    Ok(countersigned.to_vec(alloc)?)
}

/// Returns true if the headers of the countersignature name this key.
fn is_by(countersignature: &CoseCountersignature, key_id: &[u8]) -> bool
    ensures { result ≡ is_by key_id.now (countersignature_view countersignature.now) }
{
    one_names_key(
        &countersignature.protected,
        &countersignature.unprotected,
        key_id,
    )
}

/// Returns the first countersignature whose headers name this key.
fn find_countersignature<'a>(
    all: &'a [CoseCountersignature],
    key_id: &[u8],
) -> Option<&'a CoseCountersignature>
    ensures { option_map (λ c. countersignature_view c.now) result
        ≡ signature_by key_id.now (map countersignature_view all.now) }
{
    all.iter().find(|one| is_by(one, key_id))
}

/// Decodes and returns the message, if `verify` accepts the first countersignature whose headers
/// name this key.
///
/// The message's own signature isn't verified.
///
/// # Errors
/// - A fault in bytes that aren't a message with one signature.
/// - `UnexpectedItem` if the message has no payload.
/// - `OutOfMemory` if an allocation fails.
/// - `Caller` with `absent` if no countersignature names the key.
/// - `Caller` with the error of `verify`.
pub fn verify_countersigned<F, E>(
    alloc: Global,
    message: &[u8],
    key_id: &[u8],
    external_aad: &[u8],
    absent: E,
    verify: F,
) -> Result<CoseSign1, CallError<E>>
where
    F: FnOnce(&[u8], &[u8]) -> Result<(), E> + Drop,
    E: Drop,
    requires { F.IsAlwaysCallable verify }
    ensures { VerifiesCountersigned F.FnOnce verify key_id.now external_aad.now absent
        message.now result }
{
    countersigned_when_read();
    let message = CoseSign1::from_slice(alloc, message)?;
    let Some(payload) = &message.payload else {
        return Err(CallError::Coset(CoseError::UnexpectedItem("nul", "bstr")));
    };
    let all = &message.unprotected.countersignatures_v2;
    let Some(countersignature) = find_countersignature(all, key_id) else {
        return Err(CallError::Caller(absent));
    };
    let body = message.protected.clone()?;
    let other_fields = [Vec::from_slice(alloc, &message.signature)?];
    verify_countersignature(
        alloc,
        countersignature,
        body,
        external_aad,
        payload,
        &other_fields,
        verify,
    )?;
    Ok(message)
}
