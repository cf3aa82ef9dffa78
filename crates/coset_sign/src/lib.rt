//! Signed messages (RFC 8152, section 4), countersignatures (also RFC 9338, section 3.3), and the
//! bytes to be signed for both.
#![tactic(auto)]

mod countersign;
pub mod laws;
mod sign;
mod sign1;
mod signature;

pub use coset_core::{
    Algorithm, AsCborValue, CallError, CborOrdering, CborSerializable, ClaimName, Codec,
    ContentType, CoseCountersignature, CoseCountersignatureBuilder, CoseError, CoseSignature,
    CoseSignatureBuilder, Encode, EndOfFile, FromPull, Header, HeaderBuilder, ItemSource,
    KeyOperation, KeyType, Label, Lawful, ProtectedBstr, ProtectedHeader, ProtectedRef,
    RegisteredLabel, RegisteredLabelWithPrivate, Result, TaggedCborSerializable, TaggedCodec, cbor,
    codec, has_repeats, iana, util,
};
pub use countersign::{
    countersign_v2_structure_data, countersign0_v2_structure_data, verify_countersignature,
};
pub use sign::{CoseSign, CoseSignBuilder};
pub use sign1::{CoseSign1, CoseSign1Builder};
pub use signature::{SignatureContext, sig_structure_data};
