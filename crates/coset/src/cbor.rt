//! CBOR by itself (RFC 8949): its values, and reading and writing them.

pub use coset_cbor::{EndOfFile, OutOfMemory, cursor, de, head, ser, value};
