//! Which key fits a layer, by the layer's parts.

ghost use Rattle.std.specs.Prelude.{◌≡◌, IfOk, IfErr, option_map};
ghost use Rattle.coset.specs.CoseError.TheVariants.{OutOfMemory};
ghost use Rattle.coset.specs.Keys.{key_view};
ghost use Rattle.coset.specs.Views.{header_view};
ghost use Rattle.ffi_token.specs.Fits.{ReturnsFit, header_with, nonce_for, parts_view};

use crate::rules::label;
use coset::{CborSerializable, CoseKey, Header, ProtectedHeader, Result};
use cwt_keys::{Form, Sealed};
use cwt_ring::fits;
use ffi_query::{Refusal, write_found};
use std::alloc::{AllocError, Global};

/// The parts of a layer that decide which key fits it.
#[derive(Clone, Copy, Debug)]
pub struct Parts<'a> {
    /// The form of the layer.
    pub form: Form,
    /// The number of its algorithm.
    pub algorithm: i64,
    /// The key identifier, or empty bytes if the layer has none.
    pub key_id: &'a [u8],
    /// The initialization vector, or empty bytes if the layer has none.
    pub iv: &'a [u8],
    /// The partial initialization vector, or empty bytes if the layer has none.
    pub partial_iv: &'a [u8],
    /// The signature, the MAC or the ciphertext.
    pub proof: &'a [u8],
}

/// Returns the header that has these parts.
///
/// # Errors
/// `AllocError` if an allocation fails.
fn header_of(alloc: Global, parts: &Parts<'_>) -> std::result::Result<Header, AllocError>
    ensures { IfOk result (λ h. header_view h ≡ header_with (parts_view parts.now)) }
{
    let algorithm = parts.algorithm;
    let key_id = Vec::from_slice(alloc, parts.key_id)?;
    let iv = Vec::from_slice(alloc, parts.iv)?;
    let partial_iv = Vec::from_slice(alloc, parts.partial_iv)?;
    Ok(Header {
        alg: Some(label(algorithm)),
        crit: Vec::new(alloc),
        content_type: None,
        key_id,
        iv,
        partial_iv,
        counter_signatures: Vec::new(alloc),
        countersignatures_v2: Vec::new(alloc),
        countersignature0_v2: None,
        rest: Vec::new(alloc),
    })
}

/// Returns the nonce by which the key fits a layer with these parts, or `None` if it doesn't fit.
///
/// # Errors
/// `OutOfMemory` if an allocation fails.
fn nonce_for(alloc: Global, key: &CoseKey, parts: &Parts<'_>) -> Result<Option<Vec<u8>>>
    ensures nonce { IfOk result (λ o. option_map (λ b. b.items) o
        ≡ nonce_for (key_view key.now) (parts_view parts.now)) }
    ensures memory { IfErr result (λ e. e ≡ OutOfMemory) }
{
    let protected = ProtectedHeader {
        original_data: None,
        header: header_of(alloc, parts)?,
    };
    let unprotected = Header::new(alloc);
    let sealed = Sealed::new(parts.form, &protected, &unprotected, parts.proof, &[]);
    match fits(key, &sealed) {
        Some(nonce) => Ok(Some(Vec::from_slice(alloc, nonce.as_slice())?)),
        None => Ok(None),
    }
}

/// Writes the nonce by which the key fits a layer with these parts to the front of `out`. Returns
/// its length, or `None` if the key doesn't fit.
///
/// `key` is a `COSE_Key`. The result is that of [`fits`] for a layer whose protected header has the
/// parts, and nothing else. The length is 0 if the algorithm has no nonce.
///
/// # Errors
/// - `Short` with the length needed, if `out` is too small.
/// - `Cose` if the bytes aren't a key, or if an allocation fails.
///
/// `out` is then unchanged, and so it is if the key doesn't fit.
pub fn key_fits(
    alloc: Global,
    key: &[u8],
    parts: &Parts<'_>,
    out: &mut [u8],
) -> std::result::Result<Option<usize>, Refusal>
    ensures { ReturnsFit key.now (parts_view parts.now) out.old out.new result }
{
    let key = match CoseKey::from_slice(alloc, key) {
        Ok(key) => key,
        Err(error) => return Err(Refusal::Cose(error)),
    };
    match nonce_for(alloc, &key, parts) {
        Ok(Some(nonce)) => match write_found(Ok(Some(nonce)), out) {
            Ok(len) => Ok(Some(len)),
            Err(refusal) => Err(refusal),
        },
        Ok(None) => Ok(None),
        Err(error) => Err(Refusal::Cose(error)),
    }
}
