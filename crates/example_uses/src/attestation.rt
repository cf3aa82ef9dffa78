//! Attestation tokens (EAT, RFC 9711), including those of PSA (RFC 9783). They are verified like
//! web tokens.

ghost use Rattle.std.specs.Prelude.{◌≡◌, ◌↔◌, IsTrue, option_map};
ghost use Rattle.coset_value.specs.View.{value_item, value_pairs};
ghost use Rattle.coset_claims.specs.Claims.{claims_view};
ghost use Rattle.cwt_verify.specs.Verify.{VerifiesToken};
ghost use Rattle.example_uses.specs.Attestation.{IsFresh, IsNonce, ReadsSubmodule, VerifiesAttestation, attestation_policy, bytes_of, claim_of, held_under, integer_of, is_text, submodule_of, text_of};

use coset::cbor::value::{Integer, Value};
use coset::cwt::{ClaimName, ClaimsSet};
use coset::iana::{Algorithm, CwtClaimName};
use coset::{AsCborValue, Result};
use cwt_verify::{Keys, Policy, TokenError, VerifiedToken, verify_token};
use std::alloc::Global;

/// The most seconds by which the clocks of the issuer and the verifier may differ.
const LEEWAY: u64 = 60;

/// The least number of bytes in a nonce (RFC 9711, section 4.1).
const SHORTEST: usize = 8;

/// The greatest number of bytes in a nonce (RFC 9711, section 4.1).
const LONGEST: usize = 64;

/// The reason why an attestation isn't accepted.
#[derive(Debug, Drop)]
pub enum NotAttested<E> {
    /// The token is refused.
    Refused(TokenError<E>),
    /// The token is verified, but has another nonce, several, or none; or the nonce is too short or
    /// too long.
    NotFresh,
}

/// Wraps the reason against a token.
impl<E: Drop> From<TokenError<E>> for NotAttested<E> {
    ghost use Rattle.std.specs.Prelude.{◌≡◌};
    ghost use Rattle.example_uses.specs.declared.attestation.NotAttested.TheVariants.{Refused};

    ghost from_gives = { λ error refusal. refusal ≡ Refused error };

    fn from(error: TokenError<E>) -> NotAttested<E> {
        NotAttested::Refused(error)
    }
}

/// Returns the value of the first claim of this name.
pub fn claim<'a>(claims: &'a ClaimsSet, name: CwtClaimName) -> Option<&'a Value>
    ensures { option_map (λ v. value_item v.now) result ≡ claim_of name (claims_view claims.now) }
{
    claims.get(&ClaimName::Assigned(name))
}

/// Returns the bytes of a claim that is a byte string.
///
/// Such claims are the nonce (`Nonce`), the device (`UEID`), and the implementation that it runs on
/// (`PsaImplementationId`).
pub fn bytes_of<'a>(claims: &'a ClaimsSet, name: CwtClaimName) -> Option<&'a [u8]>
    ensures { option_map (λ b. b.now) result ≡ bytes_of name (claims_view claims.now) }
{
    Some(claim(claims, name)?.as_bytes()?.as_slice())
}

/// Returns the number of a claim that is an integer.
///
/// One is the software that requested the token (`PsaClientId`), which is below 0 on the non-secure
/// side. Another is the state of the device in its life cycle (`PsaSecurityLifecycle`).
pub fn integer_of(claims: &ClaimsSet, name: CwtClaimName) -> Option<Integer>
    ensures { result ≡ integer_of name (claims_view claims.now) }
{
    claim(claims, name)?.as_integer()
}

/// Returns the text of a claim that is a text, such as the profile that the token follows
/// (`EatProfile`).
pub fn text_of<'a>(claims: &'a ClaimsSet, name: CwtClaimName) -> Option<&'a str>
    ensures { option_map (λ s. s.now) result ≡ text_of name (claims_view claims.now) }
{
    claim(claims, name)?.as_text()
}

/// Returns true if there are 8 to 64 bytes, as in a nonce (RFC 9711, section 4.1).
fn is_nonce(bytes: &[u8]) -> bool
    ensures { IsTrue result ↔ IsNonce bytes.now }
{
    SHORTEST <= bytes.len() && bytes.len() <= LONGEST
}

/// Returns true if the token has this nonce and no other, and the nonce has 8 to 64 bytes (RFC
/// 9711, section 4.1).
pub fn is_fresh(claims: &ClaimsSet, nonce: &[u8]) -> bool
    ensures { IsTrue result ↔ IsFresh nonce.now (claims_view claims.now) }
{
    match bytes_of(claims, CwtClaimName::Nonce) {
        Some(held) => is_nonce(nonce) && held == nonce,
        None => false,
    }
}

/// Returns an attestation token, if the keys accept each of its layers. Signatures are ES256, and
/// MACs are HMAC with SHA-256.
///
/// # Errors
/// The error of [`verify_token`] with this policy.
fn verify_layers<'k, K: Keys>(
    alloc: Global,
    keys: &'k K,
    token: &[u8],
    now: i64,
) -> std::result::Result<VerifiedToken<'k>, TokenError<K::Error>>
    ensures { VerifiesToken (K.view keys.now) attestation_policy now token.now result }
{
    let policy = Policy {
        algorithms: &[Algorithm::ES256, Algorithm::HMAC_256_256],
        require_exp: false,
        leeway: LEEWAY,
        ..Policy::strict()
    };
    verify_token(alloc, &policy, keys, token, now)
}

/// Returns an attestation token with this nonce, if the keys accept each of its layers.
///
/// A token with an audience is refused. If it names an issuer, that is the one whose key accepted
/// the innermost layer that authenticates. Claims that no registry has are `others` of the result.
///
/// # Errors
/// - `Refused` with the error of [`verify_token`], if the token is refused by this policy.
/// - `NotFresh` if the token has another nonce, several, or none; or if the nonce doesn't have 8 to
///   64 bytes.
pub fn let_in_attestation<'k, K: Keys>(
    alloc: Global,
    keys: &'k K,
    nonce: &[u8],
    token: &[u8],
    now: i64,
) -> std::result::Result<VerifiedToken<'k>, NotAttested<K::Error>>
    ensures { VerifiesAttestation (K.view keys.now) nonce.now now token.now result }
{
    let verified = verify_layers(alloc, keys, token, now)?;
    if !is_fresh(&verified.claims, nonce) {
        return Err(NotAttested::NotFresh);
    }
    Ok(verified)
}

/// Returns true if the value is this text.
fn is_text(value: &Value, name: &str) -> bool
    ensures { result ≡ is_text name.now (value_item value.now) }
{
    match value {
        Value::Text(text) => text.as_str() == name,
        _ => false,
    }
}

/// Returns the value of the first pair with this text as its key.
fn held_under<'a>(pairs: &'a [(Value, Value)], name: &str) -> Option<&'a Value>
    ensures { option_map (λ v. value_item v.now) result
        ≡ held_under name.now (value_pairs pairs.now) }
{
    match pairs.iter().find(|pair| is_text(&pair.0, name)) {
        Some((_, held)) => Some(held),
        None => None,
    }
}

/// Returns the submodule of this name.
///
/// Its type says what it is:
///
/// - A map is claims, which the token vouches for.
/// - A byte string is a token of the submodule's own. It is verified by itself, with the keys for
///   it.
/// - An array is a digest of claims that are elsewhere.
pub fn submodule<'a>(claims: &'a ClaimsSet, name: &str) -> Option<&'a Value>
    ensures { option_map (λ v. value_item v.now) result
        ≡ submodule_of name.now (claims_view claims.now) }
{
    held_under(
        claim(claims, CwtClaimName::SubmodulesSection)?.as_map()?,
        name,
    )
}

/// Returns the claims of the submodule of this name, or `None` if there is no such submodule.
///
/// # Errors
/// - A fault in the submodule, if it is no claims set. A nested token or a digest isn't one.
/// - `OutOfMemory` if an allocation fails.
pub fn submodule_claims(alloc: Global, claims: &ClaimsSet, name: &str) -> Result<Option<ClaimsSet>>
    ensures { ReadsSubmodule name.now (claims_view claims.now) result }
{
    match submodule(claims, name) {
        Some(value) => Ok(Some(ClaimsSet::from_cbor_value(alloc, value.clone()?)?)),
        None => Ok(None),
    }
}
