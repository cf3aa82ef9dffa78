//! The function that judges tokens.

ghost use Rattle.cwt_gate.specs.Gate.{Judges};

use crate::error::GateError;
use crate::moment::{has_expired, has_fraction, is_early};
use crate::token::read_token;
use crate::verified::verified_claims;
use coset::cwt::ClaimsSet;
use coset::laws::signed_when_read;
use std::alloc::Global;

/// Returns the claims of a token that is valid at `now`, if `verify` accepts its signature.
///
/// `verify_token` of the crate `cwt_verify` is the safe choice. It makes most of the checks that
/// are left to the caller here, as its policy says. It doesn't check for replay.
///
/// `now` is in seconds since 1970 began in UTC. The token is a message with one signature
/// (`COSE_Sign1`). It is plain, under its tag, or under the tag of web tokens and then its own (RFC
/// 8392, section 6).
///
/// `verify` receives the signature and the signed bytes, for an empty `external_aad`. It is called
/// once, unless the token is refused before. The payload is read only after that.
///
/// This function doesn't check any of the following. The caller must check them before it relies on
/// the claims. Neither `verify` nor the result has the headers, so the caller must decode `token`
/// to see them.
///
/// - the algorithm (`alg`), and that the key is for this algorithm (RFC 8725, section 3.1).
/// - that each critical label (`crit`) is understood, and that no label is in both headers (RFC
///   9052, sections 3 and 3.1).
/// - that the key belongs to the issuer (`iss`; RFC 8725, section 3.8).
/// - that the caller is in the audience (`aud`; RFC 7519, section 4.1.3).
/// - the type of the token (`typ`; RFC 8725, section 3.11), and claims in headers (RFC 9597).
/// - that `exp` or another claim is present, and the time of issue (`iat`).
/// - that the token wasn't used before (replay; `cti`).
///
/// The claims are refused if `aud` is an array, if a claim's number is neither assigned nor for
/// private use, or if `exp` or `nbf` is a float. RFC 8392, sections 2, 3 and 3.1.3, allows these.
/// Names in `iss`, `sub` and `aud` may be any texts, also those with a `:` that are no URI (section
/// 2).
///
/// # Errors
/// The first error that applies, in the order of [`GateError`]. If an allocation fails, the error
/// is `Token` until `verify` was called, and `Claims` from then on. This happens only if the token,
/// and then its payload, is one item.
pub fn judge<F, E>(
    alloc: Global,
    token: &[u8],
    now: i64,
    verify: F,
) -> Result<ClaimsSet, GateError<E>>
where
    F: FnOnce(&[u8], &[u8]) -> Result<(), E> + Drop,
    E: Drop,
    requires { F.IsAlwaysCallable verify }
    ensures { Judges F.FnOnce verify now token.now result }
{
    signed_when_read();
    let message = match read_token(alloc, token) {
        Ok(message) => message,
        Err(error) => return Err(GateError::Token(error)),
    };
    let claims = verified_claims(alloc, &message, verify)?;
    if has_fraction(&claims) {
        return Err(GateError::FractionalTime);
    }
    if has_expired(now, &claims.expiration_time) {
        return Err(GateError::Expired);
    }
    if is_early(now, &claims.not_before) {
        return Err(GateError::NotYetValid);
    }
    Ok(claims)
}
