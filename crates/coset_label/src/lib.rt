//! COSE labels (RFC 8152, section 1.4), and the labels that IANA registries assign.
#![tactic(auto)]

mod label;
mod label_ref;
pub mod laws;
mod names;
mod order;
mod ordering;
mod registered;

pub use coset_cbor as cbor;
pub use coset_codec as codec;
pub use coset_codec::{
    AsCborValue, CallError, CborSerializable, Codec, CoseError, Encode, EndOfFile, FromPull,
    ItemSource, Lawful, Result, TaggedCborSerializable, TaggedCodec, has_repeats, util,
};
pub use coset_iana as iana;
pub use label::Label;
pub use names::{Algorithm, ClaimName, ContentType, KeyOperation, KeyType};
pub use ordering::CborOrdering;
pub use registered::{RegisteredLabel, RegisteredLabelWithPrivate};
