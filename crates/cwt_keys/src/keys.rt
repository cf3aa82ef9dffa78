//! The keys of a verifier. Rattle has no ciphers, so whoever has some implements this trait.

ghost use Rattle.std.specs.Prelude.{IfOk, IfErr};
ghost use Rattle.cwt_keys.specs.Keys.{KeysView, name_view};
ghost use Rattle.cwt_keys.specs.Sealed.{seal_view};

use crate::sealed::Sealed;
use std::alloc::Global;

/// The keys of a verifier. Each method finds a key for the layer, such as by the identifier in a
/// header, and uses it.
///
/// `verify_token` doesn't see the keys, so an implementer must check these points, as `KeyRing` of
/// the crate `cwt_ring` does:
///
/// - The key is for the algorithm of the protected header, and for no other (RFC 8725, section
///   3.1). Its type, curve, length and `key_ops` are right for it (RFC 9052, section 7.1; RFC 9053,
///   sections 2 to 4). `fits` of `cwt_ring` checks this.
/// - A signature and a MAC have their full length. A ciphertext whose tag is wrong is an error.
/// - The name that is returned is that of the issuer to whom the key belongs (RFC 8725, section
///   3.8). It doesn't come from the token.
///
/// An implementer states in `view` which layers the keys may accept, for whom, and which errors
/// they may return.
pub trait Keys {
    /// The reason why no key is found, or why the key doesn't accept a layer.
    type Error: Drop;

    /// The view of the keys: the layers that they may accept, and the errors that they may return.
    ghost view: { Self → KeysView Self.Error };

    /// Verifies the MAC of a layer, or one signature (`COSE_Sign1`, `COSE_Mac0`, `COSE_Sign`,
    /// `COSE_Mac`). Returns the name of the issuer whose key accepted it, or `None` if that issuer
    /// has no name.
    ///
    /// # Errors
    /// Any error that these keys may return for this layer (`not_accepted` of `view`).
    fn verify<'k>(&'k self, sealed: &Sealed<'_>) -> Result<Option<&'k str>, Self::Error>
        ensures accepted { IfOk result (λ n.
            (view self.now).accepts (seal_view sealed.now) (name_view n)) }
        ensures refused { IfErr result (λ e.
            (view self.now).not_accepted (seal_view sealed.now) e) };

    /// Returns the plaintext of an encrypted layer (`COSE_Encrypt0`, `COSE_Encrypt`), and the name
    /// of the issuer whose key decrypted it, or `None` if that issuer has no name.
    ///
    /// # Errors
    /// Any error that these keys may return for this layer (`not_decrypted` of `view`).
    fn decrypt<'k>(
        &'k self,
        alloc: Global,
        sealed: &Sealed<'_>,
    ) -> Result<(Vec<u8>, Option<&'k str>), Self::Error>
        ensures decrypted { IfOk result (λ x.
            (view self.now).decrypts (seal_view sealed.now) x.0.items (name_view x.1)) }
        ensures refused { IfErr result (λ e.
            (view self.now).not_decrypted (seal_view sealed.now) e) };
}
