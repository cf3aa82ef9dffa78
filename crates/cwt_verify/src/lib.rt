//! Verifies web tokens (RFC 8392): signed, with a MAC, or encrypted, and nested in any order.
//!
//! [`verify_token`] returns the claims of a token if the caller's [`Keys`] accept each of its
//! layers and the token meets a [`Policy`]. The result also says whose key authenticated the token.
#![tactic(auto)]

mod admission;
mod claims;
mod error;
mod header_claims;
mod headers;
mod layer;
mod layers;
mod moment;
mod pairs;
mod policy;
mod recipients;
mod signatures;
mod token;
mod types;

pub use cwt_keys::{Form, Keys, Sealed};
pub use error::{LayerError, TokenError};
pub use layer::{Part, VerifiedLayer};
pub use policy::{Audience, Authentication, Policy};
pub use token::{VerifiedToken, verify_token};
