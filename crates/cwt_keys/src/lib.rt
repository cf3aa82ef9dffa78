//! The layers of web tokens (RFC 8392) as keys receive them, and the trait of such keys.
//!
//! [`row_for`] is the table of algorithms: for which form of layer each is, which keys it takes,
//! and how long its tag and its nonce are.
#![tactic(auto)]

mod form;
mod keys;
mod sealed;
mod table;

pub use form::{Form, is_for, single_form};
pub use keys::Keys;
pub use sealed::Sealed;
pub use table::{KeyKind, Row, row_for};
