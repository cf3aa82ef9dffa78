//! Makes items of COSE from their parts, in one call each.
//!
//! Headers, keys and claims sets are made pair by pair. Messages, signatures and recipients are
//! made from their headers, their content, and a signature or a tag. Other calls write the
//! structure that is signed, authenticated, or goes with a ciphertext, for a message that isn't
//! made yet.
//!
//! Like the calls of `ffi_query`, each call is a function of the bytes that it is given. So signing
//! takes two steps, without a callback and without any state in between. [`structure_of`] writes
//! the bytes to sign. Then [`make`] makes the message from the same parts and the signature.
//! [`laws`] says that the two agree.
//!
//! A call that makes an item encodes it, and checks the bytes as an item of the kind. So an item
//! that isn't of the kind is refused for the fault that a reader would name.
#![tactic(auto)]

mod given;
mod key;
mod labels;
pub mod laws;
mod list;
mod made;
mod member;
mod message;
mod pair;
mod pairs;
mod structure;

pub use given::Entry;
pub use key::canonical_key;
pub use made::write;
pub use member::add;
pub use message::make;
pub use pair::put;
pub use pairs::put_all;
pub use structure::{recipient_structure_of, structure_of};
