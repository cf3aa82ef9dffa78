//! The claims of a token, and the policy's requirements for them (RFC 8392, section 3).

ghost use Rattle.std.specs.Prelude.{◌≡◌, map, option_map, string_bytes};
ghost use Rattle.coset.specs.Claims.{entry_view, name_view as claim_view, same_label};
ghost use Rattle.coset.specs.LabelData.{assigned};
ghost use Rattle.coset.specs.Known.{known_view};
ghost use Rattle.coset_iana.specs.CwtClaimName as claim_names;
ghost use Rattle.cwt_keys.specs.Keys.{name_view};
ghost use Rattle.cwt_verify.specs.Claims.{IsFirst, has_claim, has_registered, is_from, is_meant, is_name, names_one_of, reasons, required_reasons};
ghost use Rattle.cwt_verify.specs.Policy.{audience_view, policy_view};

use crate::error::TokenError;
use crate::moment::{has_expired, is_early, is_too_old};
use crate::policy::{Audience, Policy};
use coset::RegisteredLabelWithPrivate;
use coset::cbor::value::Value;
use coset::cwt::{ClaimName, KnownClaims};
use coset::iana::{CwtClaimName, EnumI64};

/// Returns true if the claims name no issuer, or the one with this name.
fn is_from(claimed: &Option<String>, issuer: Option<&str>) -> bool
    ensures { result ≡ is_from (option_map string_bytes claimed.now) (name_view issuer.entry) }
{
    match (claimed, issuer) {
        (None, _) => true,
        (Some(_), None) => false,
        (Some(claimed), Some(issuer)) => claimed.as_str() == issuer,
    }
}

/// Returns true if the text is one of the names.
fn is_name(named: &str, names: &[&str]) -> bool
    ensures { result ≡ is_name (map (λ s. s.now) names.now) named.now }
{
    names.iter().any(|name| named == *name)
}

/// Returns true if one of the texts is one of the names.
fn names_one_of(audience: &[String], names: &[&str]) -> bool
    ensures { result ≡ names_one_of (map string_bytes audience.now)
        (map (λ s. s.now) names.now) }
{
    audience.iter().any(|named| is_name(named.as_str(), names))
}

/// Returns true if the token's audience is one that the policy accepts.
fn is_meant(wanted: &Audience<'_>, audience: &[String]) -> bool
    ensures { result ≡ is_meant (audience_view wanted.now) (map string_bytes audience.now) }
{
    match wanted {
        Audience::Absent => audience.is_empty(),
        Audience::OneOf(names) => names_one_of(audience, names),
        Audience::Unchecked => true,
    }
}

/// Returns true if `name` is the name of `claim`.
fn is_claim(name: &ClaimName, claim: CwtClaimName) -> bool
    ensures { result ≡ same_label (claim_view name.now) (assigned (claim_names.number claim)) }
{
    match name {
        RegisteredLabelWithPrivate::Assigned(found) => found.to_i64() == claim.to_i64(),
        _ => false,
    }
}

/// Returns true if the claim `name` is among these.
fn has_registered(claims: &[(ClaimName, Value)], name: CwtClaimName) -> bool
    ensures { result ≡ has_registered (map entry_view claims.now) name }
{
    claims.iter().any(|(found, _)| is_claim(found, name))
}

/// Returns true if the token has the claim `name`.
fn has_claim(known: &KnownClaims, name: CwtClaimName) -> bool
    ensures { result ≡ has_claim name (known_view known.now) }
{
    let claims = &known.claims;
    match name {
        CwtClaimName::Iss => claims.issuer.is_some(),
        CwtClaimName::Sub => claims.subject.is_some(),
        CwtClaimName::Aud => !known.audience.is_empty(),
        CwtClaimName::Exp => claims.expiration_time.is_some(),
        CwtClaimName::Nbf => claims.not_before.is_some(),
        CwtClaimName::Iat => claims.issued_at.is_some(),
        CwtClaimName::Cti => claims.cwt_id.is_some(),
        _ => has_registered(&claims.rest, name),
    }
}

/// Accepts claims that have each required claim.
///
/// # Errors
/// `Missing` with the first claim that isn't there.
fn check_required<E: Drop>(
    required: &[CwtClaimName],
    known: &KnownClaims,
) -> Result<(), TokenError<E>>
    ensures { IsFirst (required_reasons (known_view known.now) required.now) result }
{
    for name in required {
        if !has_claim(known, *name) {
            return Err(TokenError::Missing(*name));
        }
    }
    Ok(())
}

/// Accepts claims that are valid at `now`, are from this issuer, and meet the policy.
///
/// # Errors
/// The first reason against the claims.
pub(crate) fn check_claims<E: Drop>(
    policy: &Policy<'_>,
    now: i64,
    issuer: Option<&str>,
    known: &KnownClaims,
) -> Result<(), TokenError<E>>
    ensures { IsFirst (reasons (policy_view policy.now) now (name_view issuer.entry)
        (known_view known.now)) result }
{
    let claims = &known.claims;
    if !is_from(&claims.issuer, issuer) {
        return Err(TokenError::Issuer);
    }
    if policy.require_exp && claims.expiration_time.is_none() {
        return Err(TokenError::NoExpiration);
    }
    if has_expired(policy.leeway, now, &claims.expiration_time) {
        return Err(TokenError::Expired);
    }
    if is_early(policy.leeway, now, &claims.not_before) {
        return Err(TokenError::NotYetValid);
    }
    if policy.refuse_future_iat && is_early(policy.leeway, now, &claims.issued_at) {
        return Err(TokenError::IssuedInFuture);
    }
    if is_too_old(policy.max_age, policy.leeway, now, &claims.issued_at) {
        return Err(TokenError::TooOld);
    }
    if !is_meant(&policy.audience, &known.audience) {
        return Err(TokenError::Audience);
    }
    check_required(policy.required, known)
}
