//! Encrypted messages for receivers that know the key without its name (RFC 8152, section 5.2).

ghost use Rattle.coset_iana.specs.Algorithm as algorithms;
ghost use Rattle.coset_label.specs.LabelData.{assigned};
ghost use Rattle.example_uses.specs.Encrypt0.{EncryptsAlone};

use coset::iana::Algorithm;
use coset::{CallError, CborSerializable, CoseEncrypt0Builder, HeaderBuilder};
use std::alloc::Global;

/// Encrypts a message and encodes it.
///
/// The protected header names the algorithm, the unprotected header has the initialization vector.
///
/// # Errors
/// - `OutOfMemory` if an allocation fails.
/// - `Caller` with the error of `cipher`.
pub fn encrypt<F, E>(
    alloc: Global,
    algorithm: Algorithm,
    iv: &[u8],
    plaintext: &[u8],
    external_aad: &[u8],
    cipher: F,
) -> Result<Vec<u8>, CallError<E>>
where
    F: FnOnce(&[u8], &[u8]) -> Result<Vec<u8>, E> + Drop,
    E: Drop,
    requires { F.IsAlwaysCallable cipher }
    ensures { EncryptsAlone F.FnOnce cipher (assigned (algorithms.number algorithm)) iv.now
        external_aad.now plaintext.now result }
{
    let protected = HeaderBuilder::new(alloc).algorithm(algorithm).build();
    let unprotected = HeaderBuilder::new(alloc).iv_from(alloc, iv)?.build();
    let unsealed = CoseEncrypt0Builder::new(alloc)
        .protected(protected)
        .unprotected(unprotected);
    let sealed = unsealed.try_create_ciphertext(alloc, plaintext, external_aad, cipher)?;
    Ok(sealed.build().to_vec(alloc)?)
}
