//! The input of a COSE key thumbprint (RFC 9679), built on the public contracts of `coset`.
//!
//! A thumbprint is a hash that identifies a key. [`thumbprint_input`] returns the bytes that are
//! hashed: the deterministic encoding of the key's type and its required members. The hash function
//! is the caller's.
#![tactic(auto)]

mod encoding;
mod error;
mod input;
pub mod laws;
mod member;

pub use error::ThumbprintError;
pub use input::thumbprint_input;
