//! Messages seen in the bytes that encode them, without allocating.
//!
//! [`see`] finds a `COSE_Sign1`, `COSE_Mac0` or `COSE_Encrypt0` (RFC 8152, sections 4.2, 5.2 and
//! 6.2) in its bytes. It returns the algorithm, the key identifier, the content, and the signature
//! or the MAC's tag. Each part is borrowed and comes with its offset. [`Seen::put_structure`] then
//! writes the `Sig_structure`, `MAC_structure` or `Enc_structure`. Nothing is verified.
//!
//! `None` doesn't mean that the bytes are no such message. The caller then decodes them with the
//! facade `coset`. [`see`] says which messages it finds, and which headers are plain.
//!
//! [`layout_of`] finds the same parts, whatever the headers are, also of a `COSE_Mac` or
//! `COSE_Encrypt`. [`Layout::is_valid`] decodes the headers that aren't plain.
#![tactic(auto)]

mod elements;
mod forward;
mod header;
mod kind;
mod labels;
pub mod laws;
mod message;
mod structure;

pub use kind::Kind;
pub use labels::is_plain_header;
pub use message::{KeyId, Layout, Part, Seen, layout_of, see};
pub use structure::{StructureError, put_texts};
