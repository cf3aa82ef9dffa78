//! The keys that are judged.

use coset::{CborSerializable, CoseError, CoseKey, CoseKeySet, Result};
use std::alloc::{AllocError, Global};

/// A key, or each key of a set.
#[derive(Drop)]
pub enum Keys {
    /// The keys in order, each with the error if it can't be read.
    Read(Vec<Result<CoseKey>>),
    /// The error in bytes that are neither a key nor a set.
    Refused(CoseError),
}

/// Returns true if the bytes begin with an array.
fn begins_with_array(bytes: &[u8]) -> bool {
    match bytes.first() {
        Some(first) => *first / 32 == 4,
        None => false,
    }
}

/// Reads a key, or each key of a set by itself (RFC 9052, section 7). Empty bytes have no keys.
///
/// # Errors
/// `AllocError` if an allocation fails.
pub fn keys_from_slice(alloc: Global, bytes: &[u8]) -> Result<Keys, AllocError> {
    if bytes.is_empty() {
        return Ok(Keys::Read(Vec::new(alloc)));
    }
    let read = if begins_with_array(bytes) {
        CoseKeySet::each_from_slice(alloc, bytes)
    } else {
        match CoseKey::from_slice(alloc, bytes) {
            Ok(key) => {
                let mut keys = Vec::new(alloc);
                keys.push(Ok(key))?;
                Ok(keys)
            }
            Err(error) => Err(error),
        }
    };
    match read {
        Ok(keys) => Ok(Keys::Read(keys)),
        Err(CoseError::OutOfMemory) => Err(AllocError),
        Err(error) => Ok(Keys::Refused(error)),
    }
}
