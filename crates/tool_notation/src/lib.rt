//! Reads diagnostic notation (RFC 8949, section 8; RFC 8610, appendix G) to the bytes of the items
//! that it writes.
//!
//! A head without an encoding indicator is the shortest one. A float without one has the least
//! width that keeps its value. An integer beyond 64 bits is a bignum.
#![tactic(auto)]

mod base;
mod blank;
mod decimal;
mod fault;
mod float;
mod head;
mod item;
mod leaf;
mod levels;
mod list;
mod number;
mod read;
mod string;
mod word;

pub use fault::{Expected, Fault};
pub use read::bytes_of;
