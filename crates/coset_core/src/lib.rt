//! COSE headers and protected headers (RFC 8152, section 3), and the signatures in them.
//!
//! The crate also encodes the structures that are signed or authenticated, and calls the caller's
//! closures on them.
#![tactic(auto)]

pub mod calls;
mod content_type;
mod countersignature;
mod critical;
mod header;
mod headers;
pub mod laws;
mod one_or_more;
mod protected;
mod protected_bstr;
mod signature;
pub mod structure;

pub use coset_label::{
    Algorithm, AsCborValue, CallError, CborOrdering, CborSerializable, ClaimName, Codec,
    ContentType, CoseError, Encode, EndOfFile, FromPull, ItemSource, KeyOperation, KeyType, Label,
    Lawful, RegisteredLabel, RegisteredLabelWithPrivate, Result, TaggedCborSerializable,
    TaggedCodec, cbor, codec, has_repeats, iana, util,
};
pub use countersignature::{CoseCountersignature, CoseCountersignatureBuilder};
pub use header::{Header, HeaderBuilder, copy_header};
pub use headers::{BstrOrNil, fill_protected_header, fill_unprotected_header, read_with_headers};
pub use protected::{ProtectedHeader, ProtectedRef, copy_protected};
pub use protected_bstr::ProtectedBstr;
pub use signature::{CoseSignature, CoseSignatureBuilder, read_signatures};
