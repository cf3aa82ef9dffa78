//! Judges web tokens (RFC 8392) by one signature and two times, on the public contracts of `coset`.
//!
//! A service that accepts tokens should call `verify_token` of the crate `cwt_verify` instead. It
//! also checks the algorithm and the headers, and the issuer, the audience and the type as its
//! policy says. It takes MACs, encryption and nested tokens too.
//!
//! [`judge`] returns the claims of a token if the caller's closure accepts its signature, and `exp`
//! and `nbf` allow it at a given time. Every other check is left to the caller.
#![tactic(auto)]

mod error;
mod gate;
mod moment;
mod token;
mod verified;

pub use error::GateError;
pub use gate::judge;
