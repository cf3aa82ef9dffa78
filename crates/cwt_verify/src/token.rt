//! Tokens that are verified.

ghost use Rattle.std.specs.Prelude.{◌≡◌, map};
ghost use Rattle.cwt_verify.specs.Opening.{verified_view};
ghost use Rattle.cwt_verify.specs.Policy.{policy_view};
ghost use Rattle.cwt_verify.specs.Verify.{is_typed, VerifiesToken};

use crate::claims::check_claims;
use crate::error::TokenError;
use crate::header_claims::header_claims_agree;
use crate::layer::VerifiedLayer;
use crate::layers::open_all;
use crate::policy::Policy;
use crate::types::has_type;
use coset::Label;
use coset::cbor::value::Value;
use coset::cwt::ClaimsSet;
use cwt_keys::Keys;
use std::alloc::Global;

/// A token that was accepted, and who vouches for it.
#[derive(Debug, Drop)]
pub struct VerifiedToken<'k> {
    /// The claims. If `aud` is an array, `claims.audience` is `None`: use `audience` instead.
    pub claims: ClaimsSet,
    /// The names in `aud`, which is a text or an array of texts. Empty if there is no `aud`.
    pub audience: Vec<String>,
    /// The claims whose numbers are neither assigned by IANA nor for private use, with their
    /// labels. A verifier ignores those that it doesn't understand (RFC 8392, section 3).
    pub others: Vec<(Label, Value)>,
    /// The name of the issuer whose key accepted the innermost layer that authenticates. `None` if
    /// that issuer has no name; the claims then name no issuer either. Use this name, and not that
    /// of the claims: a token without `iss` is accepted too, unless `Policy::required` has `Iss`.
    pub issuer: Option<&'k str>,
    /// The layers, from the outermost in.
    pub layers: Vec<VerifiedLayer<'k>>,
}

/// Returns true if there are no types, or if the protected header of the innermost layer names one
/// of them.
fn is_typed(types: &[&str], layers: &[VerifiedLayer<'_>]) -> bool
    ensures { result ≡ is_typed (map (λ s. s.now) types.now) (map verified_view layers.now) }
{
    if types.is_empty() {
        return true;
    }
    match layers.last() {
        Some(innermost) => has_type(&innermost.protected.header, types),
        None => false,
    }
}

/// Returns the claims of a token that is valid at `now`, if `keys` and `policy` accept it (RFC
/// 8392, section 7.2).
///
/// `now` is in seconds since 1970 began in UTC. A layer is a message with a signature
/// (`COSE_Sign1`), with a MAC (`COSE_Mac0`), or encrypted (`COSE_Encrypt0`). If the policy accepts
/// lists, it may also be a message with a list of signatures (`COSE_Sign`), or with a list of
/// recipients (`COSE_Mac`, `COSE_Encrypt`). It is under its tag. The outermost layer may also be
/// plain, of the form that the policy names, or under the tag of web tokens on top of its own (RFC
/// 8392, section 6).
///
/// The signatures of a `COSE_Sign` are tried in order, until the policy admits one and the keys
/// accept it. A list of recipients must have exactly one, which is `direct` (RFC 9052, section
/// 8.5.1) and names its key. Any other way to obtain a key is refused with `Recipients`: key wrap,
/// key transport and key agreement.
///
/// The content of a layer is its payload, or the plaintext that the keys return. If the content
/// begins with a tag, it is another layer, and otherwise the claims. A token has at most four
/// layers. The keys must accept each layer. They receive it once, from the outermost in, and only
/// if the policy accepts its headers. Of a `COSE_Sign` they receive each signature that the policy
/// admits, until they accept one. Only content that the keys accepted is read.
///
/// # Errors
/// The first error that applies, in the order of [`TokenError`]. If an allocation fails, the error
/// is `Message` of the layer until all layers are opened, and `Claims` from then on. This happens
/// only if the layer, or the content, is one item. An infinity or NaN as a time refuses the token,
/// if the policy looks at that time.
pub fn verify_token<'k, K: Keys>(
    alloc: Global,
    policy: &Policy<'_>,
    keys: &'k K,
    token: &[u8],
    now: i64,
) -> Result<VerifiedToken<'k>, TokenError<K::Error>>
    ensures { VerifiesToken (K.view keys.now) (policy_view policy.now) now token.now result }
{
    let opened = open_all(alloc, policy, keys, token)?;
    let Some(issuer) = opened.voucher else {
        return Err(TokenError::Unauthenticated);
    };
    if !is_typed(policy.types, &opened.layers) {
        return Err(TokenError::Type);
    }
    let known = match ClaimsSet::known_from_slice(alloc, &opened.content) {
        Ok(known) => known,
        Err(error) => return Err(TokenError::Claims(error)),
    };
    let agree = match header_claims_agree(alloc, &opened.layers, &opened.content) {
        Ok(agree) => agree,
        Err(error) => return Err(TokenError::Claims(error)),
    };
    if !agree {
        return Err(TokenError::HeaderClaims);
    }
    check_claims(policy, now, issuer, &known)?;
    Ok(VerifiedToken {
        claims: known.claims,
        audience: known.audience,
        others: known.others,
        issuer,
        layers: opened.layers,
    })
}
