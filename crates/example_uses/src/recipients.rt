//! Encrypted messages whose content key is wrapped for a recipient (RFC 8152, sections 5.1 and
//! 12.2.1).

ghost use Rattle.std.specs.Prelude.{◌≡◌, map, option_map};
ghost use Rattle.coset_iana.specs.Algorithm as algorithms;
ghost use Rattle.coset_label.specs.LabelData.{assigned};
ghost use Rattle.coset_core.specs.Views.{header_view};
ghost use Rattle.coset_recipient.specs.Encrypt.{encrypt_view};
ghost use Rattle.coset_recipient.specs.RecipientViews.{recipient_view};
ghost use Rattle.example_uses.specs.Recipients.{DecryptsFor, EncryptsFor, GivesKey, WrapsFor, is_to, misuses_key_wrap, names_key_wrap, recipient_by};

use crate::headers::{has_algorithm, one_names_key};
use coset::iana::Algorithm;
use coset::{
    CallError, CborSerializable, CoseEncrypt, CoseEncryptBuilder, CoseError, CoseRecipient,
    CoseRecipientBuilder, EncryptionContext, Header, HeaderBuilder,
};
use coset_recipient::laws::structures_when_read;
use std::alloc::Global;

/// Makes a recipient with the content key, wrapped by an algorithm such as AES Key Wrap.
///
/// Such an algorithm authenticates nothing else. So the unprotected header names it, and the
/// protected header is empty.
///
/// # Errors
/// - `OutOfMemory` if an allocation fails.
/// - `Caller` with the error of `wrap`.
pub fn wrap_for<F, E>(
    alloc: Global,
    algorithm: Algorithm,
    key_id: &[u8],
    content_key: &[u8],
    wrap: F,
) -> Result<CoseRecipient, CallError<E>>
where
    F: FnOnce(&[u8], &[u8]) -> Result<Vec<u8>, E> + Drop,
    E: Drop,
    requires { F.IsAlwaysCallable wrap }
    ensures { WrapsFor F.FnOnce wrap (assigned (algorithms.number algorithm)) key_id.now
        content_key.now result }
{
    let unprotected = HeaderBuilder::new(alloc)
        .algorithm(algorithm)
        .key_id_from(alloc, key_id)?
        .build();
    let unwrapped = CoseRecipientBuilder::new(alloc).unprotected(unprotected);
    let context = EncryptionContext::EncRecipient;
    let wrapped = unwrapped.try_create_ciphertext(alloc, context, content_key, &[], wrap)?;
    Ok(wrapped.build())
}

/// Encrypts a message to this recipient, and encodes it.
///
/// The protected header names the algorithm, the unprotected header has the initialization vector.
///
/// # Errors
/// - `OutOfMemory` if an allocation fails.
/// - `DuplicateMapKey` if a header of the recipient repeats a label.
/// - `Caller` with the error of `encrypt`.
pub fn encrypt_for<F, E>(
    alloc: Global,
    algorithm: Algorithm,
    iv: &[u8],
    recipient: CoseRecipient,
    plaintext: &[u8],
    external_aad: &[u8],
    encrypt: F,
) -> Result<Vec<u8>, CallError<E>>
where
    F: FnOnce(&[u8], &[u8]) -> Result<Vec<u8>, E> + Drop,
    E: Drop,
    requires { F.IsAlwaysCallable encrypt }
    ensures { EncryptsFor F.FnOnce encrypt (assigned (algorithms.number algorithm)) iv.now
        (recipient_view recipient) external_aad.now plaintext.now result }
{
    let protected = HeaderBuilder::new(alloc).algorithm(algorithm).build();
    let unprotected = HeaderBuilder::new(alloc).iv_from(alloc, iv)?.build();
    let unsealed = CoseEncryptBuilder::new(alloc)
        .protected(protected)
        .unprotected(unprotected)
        .add_recipient(recipient)?;
    let sealed = unsealed.try_create_ciphertext(alloc, plaintext, external_aad, encrypt)?;
    Ok(sealed.build().to_vec(alloc)?)
}

/// Returns true if the headers of the recipient name this key.
fn is_to(recipient: &CoseRecipient, key_id: &[u8]) -> bool
    ensures { result ≡ is_to key_id.now (recipient_view recipient.now) }
{
    one_names_key(&recipient.protected, &recipient.unprotected, key_id)
}

/// Returns the first recipient whose headers name this key.
fn find_recipient<'a>(recipients: &'a [CoseRecipient], key_id: &[u8]) -> Option<&'a CoseRecipient>
    ensures { option_map (λ r. recipient_view r.now) result
        ≡ recipient_by key_id.now (map recipient_view recipients.now) }
{
    recipients.iter().find(|recipient| is_to(recipient, key_id))
}

/// Returns true if the header names AES Key Wrap.
fn names_key_wrap(header: &Header) -> bool
    ensures { result ≡ names_key_wrap (header_view header.now) }
{
    has_algorithm(header, Algorithm::A128KW)
        || has_algorithm(header, Algorithm::A192KW)
        || has_algorithm(header, Algorithm::A256KW)
}

/// Returns true if the recipient names AES Key Wrap, and its protected header isn't empty. This
/// algorithm authenticates no header (RFC 8152, section 12.2.1).
fn misuses_key_wrap(recipient: &CoseRecipient) -> bool
    ensures { result ≡ misuses_key_wrap (recipient_view recipient.now) }
{
    !recipient.protected.is_empty()
        && (names_key_wrap(&recipient.protected.header) || names_key_wrap(&recipient.unprotected))
}

/// Returns the content key, which `unwrap` makes from the ciphertext of the first recipient whose
/// headers name this key.
///
/// # Errors
/// - `OutOfMemory` if an allocation fails.
/// - `DuplicateMapKey` if the recipient wasn't read, and its protected header repeats a label.
/// - `Caller` with `absent` if no recipient names the key, or the recipient has no ciphertext. The
///   same if it names AES Key Wrap, and its protected header isn't empty.
/// - `Caller` with the error of `unwrap`.
pub fn content_key<F, E>(
    alloc: Global,
    message: &CoseEncrypt,
    key_id: &[u8],
    absent: E,
    unwrap: F,
) -> Result<Vec<u8>, CallError<E>>
where
    F: FnOnce(&[u8], &[u8]) -> Result<Vec<u8>, E> + Drop,
    E: Drop,
    requires { F.IsAlwaysCallable unwrap }
    ensures { GivesKey F.FnOnce unwrap key_id.now absent (encrypt_view message.now) result }
{
    let Some(recipient) = find_recipient(&message.recipients, key_id) else {
        return Err(CallError::Caller(absent));
    };
    if recipient.ciphertext.is_none() {
        return Err(CallError::Caller(absent));
    }
    if misuses_key_wrap(recipient) {
        return Err(CallError::Caller(absent));
    }
    recipient.decrypt(alloc, EncryptionContext::EncRecipient, &[], unwrap)
}

/// Decodes the message, and returns its plaintext.
///
/// `unwrap` makes the content key from the ciphertext of the first recipient whose headers name
/// this key. `decrypt` makes the plaintext from that key, the message's ciphertext and its
/// additional authenticated data.
///
/// # Errors
/// - A fault in bytes that aren't an encrypted message with recipients.
/// - `UnexpectedItem` if the message has no ciphertext.
/// - `OutOfMemory` if an allocation fails.
/// - `Caller` with `absent` in the cases of [`content_key`].
/// - `Caller` with the error of the closure that refused.
pub fn decrypt_for<F, G, E>(
    alloc: Global,
    message: &[u8],
    key_id: &[u8],
    external_aad: &[u8],
    absent: E,
    unwrap: F,
    decrypt: G,
) -> Result<Vec<u8>, CallError<E>>
where
    F: FnOnce(&[u8], &[u8]) -> Result<Vec<u8>, E> + Drop,
    G: FnOnce(&[u8], &[u8], &[u8]) -> Result<Vec<u8>, E> + Drop,
    E: Drop,
    requires unwrap { F.IsAlwaysCallable unwrap }
    requires decrypt { G.IsAlwaysCallable decrypt }
    ensures { DecryptsFor F.FnOnce unwrap G.FnOnce decrypt key_id.now external_aad.now absent
        message.now result }
{
    structures_when_read();
    let message = CoseEncrypt::from_slice(alloc, message)?;
    let Some(ciphertext) = &message.ciphertext else {
        return Err(CallError::Coset(CoseError::UnexpectedItem("nul", "bstr")));
    };
    let key = content_key(alloc, &message, key_id, absent, unwrap)?;
    let aad = message.aad(alloc, external_aad)?;
    match decrypt(&key, ciphertext, &aad) {
        Ok(plaintext) => Ok(plaintext),
        Err(error) => Err(CallError::Caller(error)),
    }
}
