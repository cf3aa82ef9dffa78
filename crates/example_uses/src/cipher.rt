//! The traits that a caller's keys implement. Rattle has no ciphers: a caller puts its own behind
//! these traits. `stand_in` has one that protects nothing.

ghost use Rattle.std.specs.Prelude.{◌≡◌, ◌↔◌, ℕ, List, IsOk, IfOk, IfErr};
ghost use Rattle.example_uses.specs.declared.cipher.Refused.{Refused};
ghost use Rattle.example_uses.specs.declared.cipher.Refused.TheVariants.{Rejected};

use std::alloc::Global;

/// The reason why a key didn't sign or decrypt, or doesn't accept a signature.
#[derive(Clone, Copy, Debug, PartialEq, Eq)]
pub enum Refused {
    /// The key can't sign or decrypt its input, has no input, or doesn't accept the signature.
    Rejected,
    /// An allocation failed.
    OutOfMemory,
}

/// A key that signs. This trait has everything that is required of such a key.
pub trait SigningKey {
    /// The signatures that the key makes for bytes. The bytes are the first argument.
    ghost signs: { Self → List ℕ → List ℕ → Type 0 };

    /// The errors that the key may return for bytes.
    ghost refuses: { Self → List ℕ → Refused → Type 0 };

    /// Returns a signature of the bytes.
    ///
    /// # Errors
    /// An error for which `refuses` holds.
    fn sign(&self, alloc: Global, tbs: &[u8]) -> Result<Vec<u8>, Refused>
        ensures signed { IfOk result (λ s. signs self.now tbs.now s.items) }
        ensures refused { IfErr result (λ e. refuses self.now tbs.now e) };
}

/// A key that verifies.
pub trait VerifyingKey {
    /// The signatures that the key accepts for bytes. The bytes are the first argument.
    ghost accepts: { Self → List ℕ → List ℕ → Type 0 };

    /// Accepts the signature, or refuses it.
    ///
    /// # Errors
    /// `Rejected` if and only if the key doesn't accept the signature.
    fn verify(&self, signature: &[u8], tbs: &[u8]) -> Result<(), Refused>
        ensures accepted { IsOk result ↔ accepts self.now tbs.now signature.now }
        ensures refused { IfErr result (λ e. e ≡ Rejected) };
}

/// A key that decrypts.
pub trait DecryptionKey {
    /// The plaintexts that the key makes from a ciphertext and additional authenticated data, in
    /// this order.
    ghost decrypts: { Self → List ℕ → List ℕ → List ℕ → Type 0 };

    /// The errors that the key may return for a ciphertext and additional authenticated data.
    ghost refuses: { Self → List ℕ → List ℕ → Refused → Type 0 };

    /// Returns the plaintext.
    ///
    /// # Errors
    /// An error for which `refuses` holds.
    fn decrypt(&self, alloc: Global, ciphertext: &[u8], aad: &[u8]) -> Result<Vec<u8>, Refused>
        ensures decrypted { IfOk result (λ p. decrypts self.now ciphertext.now aad.now p.items) }
        ensures refused { IfErr result (λ e. refuses self.now ciphertext.now aad.now e) };
}
