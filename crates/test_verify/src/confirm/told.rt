//! The results of the calls as text.

use coset::{CborSerializable, Result};
use cwt_confirm::{Confirmation, ConfirmationError, EncryptedKey, NonceError};
use std::alloc::Global;
use std::fmt::Debug;
use test_lines::tell::hexadecimal;

/// Returns the kind of the confirmation and its bytes.
///
/// # Errors
/// `OutOfMemory` if an allocation fails.
fn kind_and_bytes(alloc: Global, confirmation: Confirmation) -> Result<(&'static str, Vec<u8>)> {
    match confirmation {
        Confirmation::Key(key) => Ok(("key", key.to_vec(alloc)?)),
        Confirmation::EncryptedKey(EncryptedKey::Encrypt(message)) => {
            Ok(("encrypt", message.to_vec(alloc)?))
        }
        Confirmation::EncryptedKey(EncryptedKey::Encrypt0(message)) => {
            Ok(("encrypt0", message.to_vec(alloc)?))
        }
        Confirmation::KeyId(key_id) => Ok(("kid", key_id)),
    }
}

/// Returns the kind of the confirmation and its bytes, or both texts of the reason against it.
///
/// # Errors
/// `OutOfMemory` if an allocation fails.
pub fn confirmation(
    alloc: Global,
    answer: std::result::Result<Option<Confirmation>, ConfirmationError>,
) -> Result<String> {
    match answer {
        Ok(None) => Ok(String::from_str(alloc, "none")?),
        Ok(Some(confirmation)) => {
            let (kind, bytes) = kind_and_bytes(alloc, confirmation)?;
            let bytes = hexadecimal(alloc, &bytes)?;
            Ok(format!(in alloc; "{kind} {bytes}")?)
        }
        Err(error) => Ok(format!(in alloc; "{error:?}; {error}")?),
    }
}

/// Returns `ok`, or the reason against a proof of possession.
///
/// # Errors
/// `OutOfMemory` if an allocation fails.
pub fn possession<E: Debug>(alloc: Global, answer: &std::result::Result<(), E>) -> Result<String> {
    match answer {
        Ok(()) => Ok(String::from_str(alloc, "ok")?),
        Err(error) => Ok(format!(in alloc; "{error:?}")?),
    }
}

/// Returns each nonce, or both texts of the reason against them.
///
/// # Errors
/// `OutOfMemory` if an allocation fails.
pub fn nonces(
    alloc: Global,
    answer: std::result::Result<Vec<&[u8]>, NonceError>,
) -> Result<String> {
    let nonces = match answer {
        Ok(nonces) => nonces,
        Err(error) => return Ok(format!(in alloc; "{error:?}; {error}")?),
    };
    let mut text = String::from_str(alloc, "ok")?;
    for nonce in nonces {
        text.push_str(" ")?;
        text.push_str(&hexadecimal(alloc, nonce)?)?;
    }
    Ok(text)
}
