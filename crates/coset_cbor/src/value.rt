//! The types of CBOR values.

pub use coset_value::{Float, Integer, Value};
