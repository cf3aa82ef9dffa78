//! The key that the sender of a web token must prove to possess: the confirmation claim `cnf` (RFC
//! 8747). Also the nonces of an attestation token (RFC 9711).
//!
//! [`confirmation`] reads the claim of a token that `cwt_verify` verified.
#![tactic(auto)]

mod claim;
mod confirmed;
mod encrypted;
mod error;
mod key;
mod layers;
mod member;
mod nonce;

pub use claim::confirmation;
pub use confirmed::Confirmation;
pub use encrypted::EncryptedKey;
pub use error::ConfirmationError;
pub use nonce::{NonceError, nonces};
