//! CBOR (RFC 8949): reads values from bytes and writes them.
#![tactic(auto)]

mod check;
mod chunks;
pub mod cursor;
pub mod de;
mod elements;
mod fault;
mod forward;
pub mod head;
pub mod laws;
mod memory;
mod pull;
mod read;
pub mod ser;
mod skip;
mod steps;
mod string;
pub mod value;
mod write;

pub use de::EndOfFile;
pub use memory::OutOfMemory;
