//! Verifies tokens that are meant for one audience.

ghost use Rattle.cwt_verify.specs.Verify.{VerifiesToken};
ghost use Rattle.example_tokens.specs.VerifyFor.{policy_for};

use coset::iana::Algorithm;
use cwt_verify::{Audience, Keys, Policy, TokenError, VerifiedToken, verify_token};
use std::alloc::Global;

/// Returns the token, if it is meant for this audience and the keys accept each of its layers.
///
/// Signatures are ES256, MACs are HMAC with SHA-256, ciphers are AES-CCM. At least one layer has a
/// signature or a MAC. The claims are valid at `now`, and they expire. The clocks of the issuer and
/// the verifier may differ by a minute.
///
/// # Errors
/// The error of [`verify_token`] with this policy.
pub fn verify_for<'k, K: Keys>(
    alloc: Global,
    keys: &'k K,
    audience: &str,
    token: &[u8],
    now: i64,
) -> Result<VerifiedToken<'k>, TokenError<K::Error>>
    ensures { VerifiesToken (K.view keys.now) (policy_for audience.now) now token.now result }
{
    let audiences = [audience];
    let policy = Policy {
        algorithms: &[
            Algorithm::ES256,
            Algorithm::HMAC_256_256,
            Algorithm::AES_CCM_16_64_128,
        ],
        audience: Audience::OneOf(&audiences),
        leeway: 60,
        ..Policy::strict()
    };
    verify_token(alloc, &policy, keys, token, now)
}
