//! CBOR web tokens (RFC 8392).

pub use coset_claims::{ClaimsSet, ClaimsSetBuilder, KnownClaims, Timestamp};
pub use coset_recipient::ClaimName;
