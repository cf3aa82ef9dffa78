//! Verifies tokens of two issuers.

use crate::verify_for::verify_for;
use coset::CoseKeySet;
use cwt_ring::Issuer;
use cwt_verify::{Keys, TokenError};
use std::alloc::Global;

/// The name of this service, as in `aud`.
const SERVICE: &str = "coap://light.example.com";

/// Returns the issuers of tokens for this service: the authorization server and the partner. The
/// keys of each are for tokens in its own name alone.
pub fn issuers<'a>(server: &'a CoseKeySet, partner: &'a CoseKeySet) -> [Issuer<'a>; 2] {
    [
        Issuer {
            name: Some("coap://as.example.com"),
            keys: server,
        },
        Issuer {
            name: Some("coap://partner.example.org"),
            keys: partner,
        },
    ]
}

/// Returns true if the partner issued the token for this service, and false if another issuer did.
///
/// The keys are a ring: `KeyRing { issuers: &issuers(server, partner), ciphers }`.
///
/// # Errors
/// The error of [`verify_for`].
pub fn is_from_partner<K: Keys>(
    alloc: Global,
    keys: &K,
    token: &[u8],
    now: i64,
) -> Result<bool, TokenError<K::Error>> {
    let token = verify_for(alloc, keys, SERVICE, token, now)?;
    Ok(token.issuer == Some("coap://partner.example.org"))
}
