//! Encrypted keys in confirmation claims (RFC 8747, section 3.3).

ghost use Rattle.std.specs.Prelude.{◌≡◌, option_map};
ghost use Rattle.coset.specs.Results.{Reads};
ghost use Rattle.coset.specs.View.{value_item};
ghost use Rattle.cwt_confirm.specs.Encrypted.{ciphertext_of, encrypted_key, encrypted_view, has_four, message_in};

use coset::cbor::value::Value;
use coset::{AsCborValue, CoseEncrypt, CoseEncrypt0, Result};
use std::alloc::Global;

/// The tag of encrypted messages with recipients (RFC 8152, section 2).
const COSE_ENCRYPT: u64 = 96;

/// The tag of encrypted messages (RFC 8152, section 2).
const COSE_ENCRYPT0: u64 = 16;

/// The number of elements of a `COSE_Encrypt` (RFC 8152, section 5.1).
const ENCRYPT_ELEMENTS: usize = 4;

/// A message whose plaintext is the encoded key: `Encrypted_COSE_Key` (RFC 8747, section 3.3).
///
/// ```cddl
/// Encrypted_COSE_Key = COSE_Encrypt / COSE_Encrypt0 / #6.96(COSE_Encrypt) / #6.16(COSE_Encrypt0)
/// ```
///
/// It carries its ciphertext.
#[derive(Debug, Drop)]
pub enum EncryptedKey {
    /// A message with recipients.
    Encrypt(CoseEncrypt),
    /// A message for receivers that know the key.
    Encrypt0(CoseEncrypt0),
}

/// Returns true if the value is an array of as many elements as a message with recipients has.
fn has_four(value: &Value) -> bool
    ensures { result ≡ has_four (value_item value.now) }
{
    match value.as_array() {
        Some(elements) => elements.len() == ENCRYPT_ELEMENTS,
        None => false,
    }
}

/// Returns the value of the message, and true if it must be one with recipients.
fn message_in(value: &Value) -> (bool, &Value)
    ensures { (result.0, value_item result.1.now) ≡ message_in (value_item value.now) }
{
    match value.as_tag() {
        Some((number, inner)) => {
            if number == COSE_ENCRYPT {
                return (true, inner);
            }
            if number == COSE_ENCRYPT0 {
                return (false, inner);
            }
            (false, value)
        }
        None => (has_four(value), value),
    }
}

/// Reads an encrypted key.
///
/// # Errors
/// - `OutOfMemory` if an allocation fails.
/// - A fault in the value.
pub(crate) fn read_encrypted_key(alloc: Global, value: &Value) -> Result<EncryptedKey>
    ensures { Reads encrypted_key encrypted_view (value_item value.now) result }
{
    let (has_recipients, message) = message_in(value);
    let message = message.clone()?;
    if has_recipients {
        Ok(EncryptedKey::Encrypt(CoseEncrypt::from_cbor_value(alloc, message)?))
    } else {
        Ok(EncryptedKey::Encrypt0(CoseEncrypt0::from_cbor_value(alloc, message)?))
    }
}

impl EncryptedKey {
    /// Returns the ciphertext of the message.
    pub(crate) fn ciphertext(&self) -> &Option<Vec<u8>>
        ensures { option_map (λ b. b.items) result.now ≡ ciphertext_of (encrypted_view self.now) }
    {
        match self {
            EncryptedKey::Encrypt(message) => &message.ciphertext,
            EncryptedKey::Encrypt0(message) => &message.ciphertext,
        }
    }
}
