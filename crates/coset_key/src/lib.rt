//! Keys, and sets of keys (RFC 8152, sections 7 and 13).
#![tactic(auto)]

mod key;
mod key_ops;
mod key_set;
pub mod laws;
mod ml_dsa;
mod sec1;

pub use key::{CoseKey, CoseKeyBuilder};
pub use key_set::CoseKeySet;
pub use ml_dsa::MlDsaVariant;
pub use sec1::{ParseSec1OctetStringError, ToSec1OctetStringError};
