//! Messages with recipients, of which there must be exactly one, with the mode `direct` (RFC 9052,
//! section 8.5.1).

ghost use Rattle.std.specs.Prelude.{◌≡◌, map, option_map};
ghost use Rattle.coset.specs.Encrypt.{encrypt_view};
ghost use Rattle.coset.specs.LabelViews.{algorithm_view};
ghost use Rattle.coset.specs.Mac.{mac_view};
ghost use Rattle.coset.specs.RecipientViews.{recipient_view};
ghost use Rattle.coset.specs.Views.{header_view, protected_view};
ghost use Rattle.cwt_verify.specs.Layers.{encrypted_for, macced_for};
ghost use Rattle.cwt_verify.specs.Opening.{Opens};
ghost use Rattle.cwt_verify.specs.Policy.{PolicyView};
ghost use Rattle.cwt_verify.specs.Recipients.{has_zero_length, holds_key, is_direct, names_direct, names_key, only_direct};

use crate::error::LayerError;
use crate::headers::own_key;
use crate::layer::{OpenedLayer, Part, VerifiedLayer};
use coset::iana::{Algorithm, EnumI64};
use coset::{
    CoseEncrypt, CoseMac, CoseRecipient, Header, ProtectedHeader, RegisteredLabelWithPrivate,
};
use cwt_keys::{Form, Keys, Sealed};
use std::alloc::Global;
use std::mem;

/// Returns true if the algorithm is `direct`: the recipient's key is that of the message (RFC 9053,
/// section 6.1.1).
fn names_direct(algorithm: &Option<coset::Algorithm>) -> bool
    ensures { result ≡ names_direct (option_map algorithm_view algorithm.now) }
{
    match algorithm {
        Some(RegisteredLabelWithPrivate::Assigned(found)) => {
            found.to_i64() == Algorithm::Direct.to_i64()
        }
        _ => false,
    }
}

/// Returns true if the byte string of the protected header has no bytes.
fn has_zero_length(protected: &ProtectedHeader) -> bool
    ensures { result ≡ has_zero_length (protected_view protected.now) }
{
    match &protected.original_data {
        Some(bytes) => bytes.is_empty(),
        None => false,
    }
}

/// Returns true if a recipient has an encrypted key.
fn holds_key(ciphertext: &Option<Vec<u8>>) -> bool
    ensures { result ≡ holds_key (option_map (λ b. b.items) ciphertext.now) }
{
    match ciphertext {
        Some(key) => !key.is_empty(),
        None => false,
    }
}

/// Returns true if the header names the key of a `direct` recipient, and has no critical labels.
fn names_key(header: &Header) -> bool
    ensures { result ≡ names_key (header_view header.now) }
{
    names_direct(&header.alg) && header.crit.is_empty() && !header.key_id.is_empty()
}

/// Returns true if the recipient is `direct` (RFC 9052, section 8.5.1) and names its key.
///
/// Its protected header has zero length. Its unprotected header has the algorithm and a key
/// identifier, and lists no critical labels. There is no encrypted key, and there are no recipients
/// inside.
fn is_direct(recipient: &CoseRecipient) -> bool
    ensures { result ≡ is_direct (recipient_view recipient.now) }
{
    if !has_zero_length(&recipient.protected) {
        return false;
    }
    if !names_key(&recipient.unprotected) {
        return false;
    }
    if holds_key(&recipient.ciphertext) {
        return false;
    }
    recipient.recipients.is_empty()
}

/// Returns the recipient, if there is exactly one, and if it is `direct` and names its key.
fn only_direct(mut recipients: Vec<CoseRecipient>) -> Option<CoseRecipient>
    ensures { option_map recipient_view result
        ≡ only_direct (map recipient_view recipients.items) }
{
    if recipients.len() != 1 {
        return None;
    }
    match recipients.pop() {
        Some(recipient) => {
            if is_direct(&recipient) {
                Some(recipient)
            } else {
                None
            }
        }
        None => None,
    }
}

/// Returns a message with a MAC and its payload, if its only recipient is `direct`, and the keys
/// accept its MAC.
pub(crate) fn open_macced_for<'k, K: Keys>(
    alloc: Global,
    keys: &'k K,
    mut message: CoseMac,
) -> Result<OpenedLayer<'k>, LayerError<K::Error>>
    ensures { (p : PolicyView) → Opens (K.view keys.now) p (macced_for (mac_view message)) result }
{
    let recipients = mem::replace(&mut message.recipients, Vec::new(alloc));
    let Some(recipient) = only_direct(recipients) else {
        return Err(LayerError::Recipients);
    };
    let Some(content) = message.payload.take() else {
        return Err(LayerError::NoPayload);
    };
    let structure = match message.tbm_detached(alloc, &content, &[]) {
        Ok(structure) => structure,
        Err(error) => return Err(LayerError::Message(error)),
    };
    let sealed = Sealed::for_recipient(
        Form::Mac,
        &message.protected,
        &message.unprotected,
        &message.tag,
        &structure,
        &recipient.unprotected,
    );
    match keys.verify(&sealed) {
        Ok(issuer) => Ok(OpenedLayer {
            content,
            verified: VerifiedLayer {
                form: Form::Mac,
                protected: message.protected,
                unprotected: message.unprotected,
                part: Part::Recipient(recipient),
                issuer,
            },
        }),
        Err(error) => Err(LayerError::Keys {
            key_id: own_key(alloc, recipient.unprotected),
            error,
        }),
    }
}

/// Returns an encrypted message and its plaintext, if its only recipient is `direct`, and the keys
/// decrypt its ciphertext.
pub(crate) fn open_encrypted_for<'k, K: Keys>(
    alloc: Global,
    keys: &'k K,
    mut message: CoseEncrypt,
) -> Result<OpenedLayer<'k>, LayerError<K::Error>>
    ensures { (p : PolicyView) → Opens (K.view keys.now) p (encrypted_for (encrypt_view message))
        result }
{
    let recipients = mem::replace(&mut message.recipients, Vec::new(alloc));
    let Some(recipient) = only_direct(recipients) else {
        return Err(LayerError::Recipients);
    };
    let Some(ciphertext) = message.ciphertext.take() else {
        return Err(LayerError::NoPayload);
    };
    let structure = match message.aad(alloc, &[]) {
        Ok(structure) => structure,
        Err(error) => return Err(LayerError::Message(error)),
    };
    let sealed = Sealed::for_recipient(
        Form::Encrypt,
        &message.protected,
        &message.unprotected,
        &ciphertext,
        &structure,
        &recipient.unprotected,
    );
    match keys.decrypt(alloc, &sealed) {
        Ok((content, issuer)) => Ok(OpenedLayer {
            content,
            verified: VerifiedLayer {
                form: Form::Encrypt,
                protected: message.protected,
                unprotected: message.unprotected,
                part: Part::Recipient(recipient),
                issuer,
            },
        }),
        Err(error) => Err(LayerError::Keys {
            key_id: own_key(alloc, recipient.unprotected),
            error,
        }),
    }
}
