//! Keys for web tokens (RFC 8392): which key fits a layer of a token, and a ring of keys that tries
//! the keys that fit, at most 16.
//!
//! A [`KeyRing`] has the keys of several issuers. It names the issuer whose key accepted a layer.
//! [`fits`] decides by the key and the layer alone. It follows RFC 9052, section 7, and the
//! algorithm's row in the table of `cwt_keys`. Rattle has no ciphers, so the caller gives them as
//! [`Ciphers`].
#![tactic(auto)]

mod attempt;
mod error;
mod fit;
mod key_set;
mod kind;
mod member;
mod nonce;
mod ring;
mod signature;

pub use attempt::{Issuer, MAX_KEYS};
pub use error::KeyError;
pub use fit::fits;
pub use key_set::keys_from_slice;
pub use nonce::Nonce;
pub use ring::{Ciphers, KeyRing};
