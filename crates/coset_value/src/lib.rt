//! CBOR values, apart from the bytes that encode them (RFC 8949, sections 2 and 3).
//!
//! Contracts see a [`Value`] as its data item, `value_item value` of `specs/View.antt`. They see an
//! [`Integer`] as its number.
#![tactic(auto)]

mod float;
mod integer;
pub mod laws;
mod value;

pub use float::Float;
pub use integer::Integer;
pub use value::Value;
