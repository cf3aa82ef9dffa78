//! The base of every COSE type: errors, the traits for reading and writing types, and shapes. A
//! shape says which items represent which values.
#![tactic(auto)]

pub mod codec;
pub mod error;
mod find;
pub mod laws;
pub mod read;
mod repeats;
pub mod traits;
pub mod util;
pub mod write;

pub use codec::{Codec, TaggedCodec};
pub use coset_cbor as cbor;
pub use coset_cbor::EndOfFile;
pub use error::{CallError, CoseError, ErrorStored, Result};
pub use find::find_value;
pub use read::ItemSource;
pub use repeats::has_repeats;
pub use traits::{AsCborValue, CborSerializable, FromPull, Lawful, TaggedCborSerializable};
pub use write::Encode;
