//! One layer of a token, as keys receive it.

ghost use Rattle.std.specs.Prelude.{◌≡◌, None, Some, option_map};
ghost use Rattle.coset.specs.LabelViews.{algorithm_view};
ghost use Rattle.coset.specs.Views.{header_view, protected_view};
ghost use Rattle.coset_iana.specs.Algorithm as algorithms;
ghost use Rattle.cwt_keys.specs.Sealed.{algorithm_of, assigned_in, first_nonempty, iv_of, key_id_of, parts, partial_iv_of, seal_view};

use crate::form::Form;
use coset::{Algorithm, Header, ProtectedHeader, RegisteredLabelWithPrivate, iana};

/// The parts of a token's layer, as keys receive them.
///
/// For a `COSE_Sign`, the parts are those of one signature: its headers, its bytes and its
/// structure. For a `COSE_Mac` or a `COSE_Encrypt`, they are those of the message, and `recipient`
/// is the header that says for which key they are.
#[derive(Clone, Copy, Debug)]
pub struct Sealed<'a> {
    /// The form of the layer.
    pub form: Form,
    /// The protected header, with the bytes as they were received (`original_data`).
    pub protected: &'a ProtectedHeader,
    /// The unprotected header. Its values may help to find a key, but whoever sent the token chose
    /// them.
    pub unprotected: &'a Header,
    /// The signature, the MAC, or the ciphertext.
    pub proof: &'a [u8],
    /// The structure for an empty `external_aad`. For a signature it is `Sig_structure` (RFC 8152,
    /// section 4.4), and for a MAC `MAC_structure` (section 6.3). For a ciphertext it is
    /// `Enc_structure` (section 5.3), the additional authenticated data.
    pub structure: &'a [u8],
    /// The unprotected header of the recipient, or `None` if the layer's form has no recipients.
    /// The recipient is `direct`: its key is that of the layer (RFC 9052, section 8.5.1).
    pub recipient: Option<&'a Header>,
}

/// Returns the algorithm, if it has a number that IANA assigned.
fn assigned_in(algorithm: &Option<Algorithm>) -> Option<iana::Algorithm>
    ensures { option_map algorithms.number result
        ≡ assigned_in (option_map algorithm_view algorithm.now) }
{
    match algorithm {
        Some(RegisteredLabelWithPrivate::Assigned(algorithm)) => Some(*algorithm),
        _ => None,
    }
}

/// Returns `first`, or `second` if `first` is empty.
fn first_nonempty<'a>(first: &'a [u8], second: &'a [u8]) -> &'a [u8]
    ensures { result.now ≡ first_nonempty first.now second.now }
{
    if first.is_empty() { second } else { first }
}

impl<'a> Sealed<'a> {
    /// Returns the parts of a layer without recipients, or of one signature. `form` should be such a
    /// form; this isn't checked.
    pub fn new(
        form: Form,
        protected: &'a ProtectedHeader,
        unprotected: &'a Header,
        proof: &'a [u8],
        structure: &'a [u8],
    ) -> Sealed<'a>
        ensures { seal_view result ≡ parts form (protected_view protected.now)
            (header_view unprotected.now) proof.now structure.now None }
    {
        Sealed {
            form,
            protected,
            unprotected,
            proof,
            structure,
            recipient: None,
        }
    }

    /// Returns the parts of a layer for a recipient that has this unprotected header. The caller must
    /// have checked that the recipient is `direct`, as `verify_token` does.
    pub fn for_recipient(
        form: Form,
        protected: &'a ProtectedHeader,
        unprotected: &'a Header,
        proof: &'a [u8],
        structure: &'a [u8],
        recipient: &'a Header,
    ) -> Sealed<'a>
        ensures { seal_view result ≡ parts form (protected_view protected.now)
            (header_view unprotected.now) proof.now structure.now
            (Some (header_view recipient.now)) }
    {
        let recipient = Some(recipient);
        Sealed {
            form,
            protected,
            unprotected,
            proof,
            structure,
            recipient,
        }
    }

    /// Returns the algorithm that the protected header names, if IANA assigned its number.
    pub fn algorithm(&self) -> Option<iana::Algorithm>
        ensures { option_map algorithms.number result ≡ algorithm_of (seal_view self.now) }
    {
        assigned_in(&self.protected.header.alg)
    }

    /// Returns the key identifier that the layer names, or no bytes if it names none.
    ///
    /// With a recipient it is that of the recipient. Otherwise it is that of the protected header, or
    /// if it has none, that of the unprotected one (RFC 8152, section 3.1). It helps to find a key, but it doesn't prove
    /// who sent the token.
    pub fn key_id(&self) -> &'a [u8]
        ensures { result.now ≡ key_id_of (seal_view self.now) }
    {
        match self.recipient {
            Some(recipient) => &recipient.key_id,
            None => first_nonempty(&self.protected.header.key_id, &self.unprotected.key_id),
        }
    }

    /// Returns the IV of the protected header, or if it has none, that of the unprotected one
    /// (RFC 8152, section 3.1). It is empty if neither has one.
    pub fn iv(&self) -> &'a [u8]
        ensures { result.now ≡ iv_of (seal_view self.now) }
    {
        first_nonempty(&self.protected.header.iv, &self.unprotected.iv)
    }

    /// Returns the Partial IV of the protected header, or if it has none, that of the unprotected
    /// one (RFC 8152, section 3.1). It is empty if neither has one.
    pub fn partial_iv(&self) -> &'a [u8]
        ensures { result.now ≡ partial_iv_of (seal_view self.now) }
    {
        first_nonempty(
            &self.protected.header.partial_iv,
            &self.unprotected.partial_iv,
        )
    }
}
