//! The errors for messages that aren't suitable for a call.

use coset::CoseError;

/// Returns the error for a missing payload.
pub fn no_payload() -> CoseError {
    CoseError::UnexpectedItem("no payload", "payload")
}

/// Returns the error for a missing ciphertext.
pub fn no_ciphertext() -> CoseError {
    CoseError::UnexpectedItem("no ciphertext", "ciphertext")
}
