//! Claims of CBOR web tokens (RFC 8392), and the context of a key derivation (RFC 8152, section
//! 11.2).
#![tactic(auto)]

mod claims_set;
mod context;
mod date;
mod known;
pub mod laws;
mod number;
mod party;
mod supp_pub;
mod timestamp;

pub use claims_set::{ClaimsSet, ClaimsSetBuilder};
pub use context::{CoseKdfContext, CoseKdfContextBuilder};
pub use coset_core::{
    Algorithm, AsCborValue, CallError, CborOrdering, CborSerializable, ClaimName, Codec,
    ContentType, CoseError, CoseSignature, CoseSignatureBuilder, Encode, EndOfFile, FromPull,
    Header, HeaderBuilder, ItemSource, KeyOperation, KeyType, Label, Lawful, ProtectedBstr,
    ProtectedHeader, ProtectedRef, RegisteredLabel, RegisteredLabelWithPrivate, Result,
    TaggedCborSerializable, TaggedCodec, cbor, codec, has_repeats, iana, util,
};
pub use known::KnownClaims;
pub use party::{Nonce, PartyInfo, PartyInfoBuilder};
pub use supp_pub::{SuppPubInfo, SuppPubInfoBuilder};
pub use timestamp::Timestamp;
