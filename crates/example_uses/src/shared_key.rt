//! Messages with a MAC by a key that the two sides share. The recipient names the key, and has an
//! empty ciphertext (RFC 8152, section 12.1).

ghost use Rattle.std.specs.Prelude.{◌≡◌, map, IfOk, IfErr};
ghost use Rattle.std.specs.List.{list_any};
ghost use Rattle.coset_iana.specs.Algorithm as algorithms;
ghost use Rattle.coset_codec.specs.declared.error.CoseError.TheVariants.{OutOfMemory};
ghost use Rattle.coset_label.specs.LabelData.{assigned};
ghost use Rattle.coset_recipient.specs.RecipientViews.{recipient_view};
ghost use Rattle.example_uses.specs.SharedKey.{MacsFor, VerifiesFor, direct_to, is_direct_to};

use crate::headers::{has_algorithm, names_key};
use coset::iana::Algorithm;
use coset::{
    CallError, CborSerializable, CoseMac, CoseMacBuilder, CoseRecipient, CoseRecipientBuilder,
    HeaderBuilder, Result,
};
use coset_recipient::laws::structures_when_read;
use std::alloc::Global;

/// Makes a recipient that shares this key.
///
/// Its unprotected header names the key and the algorithm `direct`. Its ciphertext is empty.
///
/// # Errors
/// `OutOfMemory` if an allocation fails.
pub fn direct_recipient(alloc: Global, key_id: &[u8]) -> Result<CoseRecipient>
    ensures named { IfOk result (λ r. recipient_view r ≡ direct_to key_id.now) }
    ensures memory { IfErr result (λ e. e ≡ OutOfMemory) }
{
    let unprotected = HeaderBuilder::new(alloc)
        .algorithm(Algorithm::Direct)
        .key_id_from(alloc, key_id)?
        .build();
    let recipient = CoseRecipientBuilder::new(alloc)
        .unprotected(unprotected)
        .ciphertext(Vec::new(alloc));
    Ok(recipient.build())
}

/// Makes a message with this payload and a MAC by the shared key, and encodes it.
///
/// # Errors
/// - `OutOfMemory` if an allocation fails.
/// - `Caller` with the error of `mac`.
pub fn mac_for<F, E>(
    alloc: Global,
    algorithm: Algorithm,
    key_id: &[u8],
    payload: Vec<u8>,
    external_aad: &[u8],
    mac: F,
) -> Result<Vec<u8>, CallError<E>>
where
    F: FnOnce(&[u8]) -> Result<Vec<u8>, E> + Drop,
    E: Drop,
    requires { F.IsAlwaysCallable mac }
    ensures { MacsFor F.FnOnce mac (assigned (algorithms.number algorithm)) key_id.now
        external_aad.now payload.items result }
{
    let protected = HeaderBuilder::new(alloc).algorithm(algorithm).build();
    let recipient = direct_recipient(alloc, key_id)?;
    let untagged = CoseMacBuilder::new(alloc)
        .protected(protected)
        .payload(payload)
        .add_recipient(recipient)?;
    let tagged = untagged.try_create_tag(alloc, external_aad, mac)?;
    Ok(tagged.build().to_vec(alloc)?)
}

/// Returns true if the recipient shares this key.
fn is_direct(recipient: &CoseRecipient, key_id: &[u8]) -> bool
    ensures { result ≡ is_direct_to key_id.now (recipient_view recipient.now) }
{
    has_algorithm(&recipient.unprotected, Algorithm::Direct)
        && names_key(&recipient.unprotected, key_id)
}

/// Returns true if one of the recipients shares this key.
fn are_direct(recipients: &[CoseRecipient], key_id: &[u8]) -> bool
    ensures { result ≡ list_any (is_direct_to key_id.now) (map recipient_view recipients.now) }
{
    recipients
        .iter()
        .any(|recipient| is_direct(recipient, key_id))
}

/// Decodes and returns the message, if `verify` accepts its MAC by the shared key.
///
/// # Errors
/// - A fault in bytes that aren't a message with a MAC and recipients.
/// - `OutOfMemory` if an allocation fails.
/// - `Caller` with `absent` if the message has no payload, or none of its recipients shares the
///   key.
/// - `Caller` with the error of `verify`.
pub fn verify_for<F, E>(
    alloc: Global,
    message: &[u8],
    key_id: &[u8],
    external_aad: &[u8],
    absent: E,
    verify: F,
) -> Result<CoseMac, CallError<E>>
where
    F: FnOnce(&[u8], &[u8]) -> Result<(), E> + Drop,
    E: Drop,
    requires { F.IsAlwaysCallable verify }
    ensures { VerifiesFor F.FnOnce verify key_id.now external_aad.now absent message.now result }
{
    structures_when_read();
    let message = CoseMac::from_slice(alloc, message)?;
    if message.payload.is_none() {
        return Err(CallError::Caller(absent));
    }
    if !are_direct(&message.recipients, key_id) {
        return Err(CallError::Caller(absent));
    }
    message.verify_tag(alloc, external_aad, verify)?;
    Ok(message)
}
