//! A ring of keys: the keys of several issuers, and the caller's ciphers.

ghost use Rattle.std.specs.Prelude.{ℤ, List, ℕ, IfOk, IfErr};
ghost use Rattle.coset.specs.Keys.{key_view};
ghost use Rattle.coset_iana.specs.Algorithm as algorithms;
ghost use Rattle.cwt_keys.specs.Sealed.{seal_view};
ghost use Rattle.cwt_ring.specs.Ring.{CiphersView};

use crate::attempt::{Attempt, Issuer, try_each};
use crate::error::KeyError;
use crate::nonce::Nonce;
use coset::{CoseKey, iana};
use cwt_keys::{Keys, Sealed};
use std::alloc::Global;

/// The ciphers of a caller. A [`KeyRing`] accepts a layer only by a key that fits it.
///
/// An implementer states in `view` which signatures, MACs and ciphertexts the ciphers may accept,
/// and which errors they may return.
pub trait Ciphers {
    /// The reason why the ciphers don't accept a signature, a MAC or a ciphertext.
    type Error: Drop;

    /// The view of the ciphers: what they may accept, and the errors that they may return.
    ghost view: { Self → CiphersView Self.Error };

    /// Verifies a signature or a MAC of `input`. The algorithm is that of the key.
    ///
    /// # Errors
    /// Any error that these ciphers may return for these arguments (`not_verified` of `view`).
    fn verify(
        &self,
        key: &CoseKey,
        algorithm: iana::Algorithm,
        input: &[u8],
        proof: &[u8],
    ) -> Result<(), Self::Error>
        ensures verified { IfOk result (λ _.
            (view self.now).verifies (key_view key.now) (algorithms.number algorithm)
            input.now proof.now) }
        ensures refused { IfErr result (λ e.
            (view self.now).not_verified (key_view key.now) (algorithms.number algorithm)
            input.now proof.now e) };

    /// Verifies the tag at the end of `ciphertext`, and returns the plaintext. A wrong tag must be
    /// an error. The algorithm is that of the key, and `aad` is the additional authenticated data.
    ///
    /// # Errors
    /// Any error that these ciphers may return for these arguments (`not_decrypted` of `view`).
    fn decrypt(
        &self,
        alloc: Global,
        key: &CoseKey,
        algorithm: iana::Algorithm,
        nonce: &[u8],
        aad: &[u8],
        ciphertext: &[u8],
    ) -> Result<Vec<u8>, Self::Error>
        ensures decrypted { IfOk result (λ p.
            (view self.now).decrypts (key_view key.now) (algorithms.number algorithm)
            nonce.now aad.now ciphertext.now p.items) }
        ensures refused { IfErr result (λ e.
            (view self.now).not_decrypted (key_view key.now) (algorithms.number algorithm)
            nonce.now aad.now ciphertext.now e) };
}

/// The keys of several issuers, and the ciphers that use them.
///
/// For each layer, the ring tries the keys that fit ([`fits`](crate::fits)), in the order of the
/// issuers and of their keys. It returns the name of the issuer of the first key that the ciphers
/// accept. So no two issuers may share a key.
///
/// A layer without a key identifier may be of any key for its algorithm. The sender chooses that.
/// So the ring tries at most 16 keys for a layer, or for each signature of a `COSE_Sign`
/// ([`MAX_KEYS`](crate::MAX_KEYS)). If they are refused, and more keys fit, the error is
/// `TooManyKeys`. So keep at most 16 keys with one algorithm and one identifier, or with one
/// algorithm if tokens name no keys.
#[derive(Drop)]
pub struct KeyRing<'a, C> {
    /// The issuers.
    pub issuers: &'a [Issuer<'a>],
    /// The ciphers.
    pub ciphers: C,
}

/// Verifies a layer by a key.
#[derive_where(Clone, Copy)]
struct Verifying<'a, C> {
    ciphers: &'a C,
    sealed: &'a Sealed<'a>,
    algorithm: iana::Algorithm,
}

impl<C: Ciphers> Attempt for Verifying<'_, C> {
    ghost use Rattle.coset_iana.specs.Algorithm.{number};
    ghost use Rattle.cwt_ring.specs.Ring.{NotVerifiedBy, VerifiesBy};

    type Output = ();

    type Error = C::Error;

    ghost gives = { λ a k x.
        VerifiesBy (C.view a.ciphers.now) (number a.algorithm) (seal_view a.sealed.now) k };

    ghost refuses = { λ a k e.
        NotVerifiedBy (C.view a.ciphers.now) (number a.algorithm) (seal_view a.sealed.now) k e };

    fn attempt(&self, key: &CoseKey, _nonce: &Nonce) -> Result<(), C::Error> {
        let sealed = self.sealed;
        self.ciphers
            .verify(key, self.algorithm, sealed.structure, sealed.proof)
    }
}

/// Decrypts a layer by a key.
#[derive_where(Clone, Copy)]
struct Decrypting<'a, C> {
    alloc: Global,
    ciphers: &'a C,
    sealed: &'a Sealed<'a>,
    algorithm: iana::Algorithm,
}

impl<C: Ciphers> Attempt for Decrypting<'_, C> {
    ghost use Rattle.coset_iana.specs.Algorithm.{number};
    ghost use Rattle.cwt_ring.specs.Ring.{DecryptsBy, NotDecryptedBy};

    type Output = Vec<u8>;

    type Error = C::Error;

    ghost gives = { λ a k p.
        DecryptsBy (C.view a.ciphers.now) (number a.algorithm) (seal_view a.sealed.now) p.items k };

    ghost refuses = { λ a k e.
        NotDecryptedBy (C.view a.ciphers.now) (number a.algorithm) (seal_view a.sealed.now) k e };

    fn attempt(&self, key: &CoseKey, nonce: &Nonce) -> Result<Vec<u8>, C::Error> {
        let sealed = self.sealed;
        self.ciphers.decrypt(
            self.alloc,
            key,
            self.algorithm,
            nonce.as_slice(),
            sealed.structure,
            sealed.proof,
        )
    }
}

impl<C: Ciphers> Keys for KeyRing<'_, C> {
    ghost use Rattle.cwt_ring.specs.Ring.{ring_view};
    ghost use Rattle.cwt_ring.specs.declared.error.KeyError.{KeyError};

    type Error = KeyError<C::Error>;

    ghost view = { λ r. ring_view (C.view r.ciphers) r.issuers.now };

    fn verify<'k>(&'k self, sealed: &Sealed<'_>) -> Result<Option<&'k str>, KeyError<C::Error>> {
        let Some(algorithm) = sealed.algorithm() else {
            return Err(KeyError::NoKey);
        };
        let verifying = Verifying {
            ciphers: &self.ciphers,
            sealed,
            algorithm,
        };
        match try_each(self.issuers, sealed, &verifying) {
            Ok(((), name)) => Ok(name),
            Err(error) => Err(error),
        }
    }

    fn decrypt<'k>(
        &'k self,
        alloc: Global,
        sealed: &Sealed<'_>,
    ) -> Result<(Vec<u8>, Option<&'k str>), KeyError<C::Error>> {
        let Some(algorithm) = sealed.algorithm() else {
            return Err(KeyError::NoKey);
        };
        let decrypting = Decrypting {
            alloc,
            ciphers: &self.ciphers,
            sealed,
            algorithm,
        };
        try_each(self.issuers, sealed, &decrypting)
    }
}
