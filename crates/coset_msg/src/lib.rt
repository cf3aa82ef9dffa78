//! Messages with a MAC and encrypted messages without lists of recipients, and the structures of
//! both (RFC 8152, sections 5.2, 5.3, 6.2 and 6.3).
#![tactic(auto)]

pub mod enc_structure;
mod encrypt0;
pub mod laws;
mod mac0;
pub mod mac_structure;

pub use coset_core::{
    Algorithm, AsCborValue, CallError, CborOrdering, CborSerializable, ClaimName, Codec,
    ContentType, CoseCountersignature, CoseCountersignatureBuilder, CoseError, CoseSignature,
    CoseSignatureBuilder, Encode, EndOfFile, FromPull, Header, HeaderBuilder, ItemSource,
    KeyOperation, KeyType, Label, Lawful, ProtectedBstr, ProtectedHeader, ProtectedRef,
    RegisteredLabel, RegisteredLabelWithPrivate, Result, TaggedCborSerializable, TaggedCodec, cbor,
    codec, has_repeats, iana, util,
};
pub use enc_structure::{EncryptionContext, enc_structure_data};
pub use encrypt0::{CoseEncrypt0, CoseEncrypt0Builder};
pub use mac_structure::{MacContext, mac_structure_data};
pub use mac0::{CoseMac0, CoseMac0Builder};
