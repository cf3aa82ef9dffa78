//! A stand-in for ciphers, because Rattle has no signature algorithms. It shows how a key meets its
//! contract, and protects nothing: use it only for tests and examples.

ghost use Rattle.std.specs.Prelude.{◌≡◌, ◌++◌};
ghost use Rattle.example_uses.specs.Refusals.{IsNotBehind};
ghost use Rattle.example_uses.specs.declared.cipher.Refused.TheVariants.{OutOfMemory};

use crate::cipher::{DecryptionKey, Refused, SigningKey, VerifyingKey};
use std::alloc::Global;

/// A key that protects nothing, because its results can be made without it.
///
/// Its signature is the signed bytes themselves. Its ciphertext is the additional authenticated
/// data, followed by the plaintext.
#[derive(Clone, Copy, Debug)]
pub struct StandInKey;

impl SigningKey for StandInKey {
    ghost signs = { λ self tbs signature. signature ≡ tbs };

    ghost refuses = { λ self tbs refused. refused ≡ OutOfMemory };

    fn sign(&self, alloc: Global, tbs: &[u8]) -> Result<Vec<u8>, Refused> {
        Vec::from_slice(alloc, tbs).map_err(|_| Refused::OutOfMemory)
    }
}

impl VerifyingKey for StandInKey {
    ghost accepts = { λ self tbs signature. signature ≡ tbs };

    fn verify(&self, signature: &[u8], tbs: &[u8]) -> Result<(), Refused> {
        if signature == tbs {
            Ok(())
        } else {
            Err(Refused::Rejected)
        }
    }
}

impl DecryptionKey for StandInKey {
    ghost decrypts = { λ self ciphertext aad plaintext. ciphertext ≡ aad ++ plaintext };

    ghost refuses = { λ self ciphertext aad refused. IsNotBehind aad ciphertext refused };

    fn decrypt(&self, alloc: Global, ciphertext: &[u8], aad: &[u8]) -> Result<Vec<u8>, Refused> {
        let Some(plaintext) = ciphertext.strip_prefix(aad) else {
            return Err(Refused::Rejected);
        };
        match Vec::from_slice(alloc, plaintext) {
            Ok(copy) => Ok(copy),
            Err(_) => Err(Refused::OutOfMemory),
        }
    }
}
