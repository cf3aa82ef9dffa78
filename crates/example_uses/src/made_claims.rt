//! Makes claims: registered ones (RFC 8392, section 3.1), and others by their names.

ghost use Rattle.std.specs.Prelude.{◌≡◌, IfOk, IfErr};
ghost use Rattle.coset_codec.specs.declared.error.CoseError.TheVariants.{OutOfMemory};
ghost use Rattle.coset_claims.specs.Claims.{claims_view};
ghost use Rattle.example_uses.specs.MadeClaims.{claims_for};

use coset::Result;
use coset::cbor::value::Value;
use coset::cwt::{ClaimsSet, ClaimsSetBuilder, Timestamp};
use coset::iana::CwtClaimName;
use std::alloc::Global;

/// The name of a private claim that issuer and audience agree on: a number below -65536 (RFC 8392,
/// section 9.1.1).
pub const ROLE: i64 = -70_001;

/// Makes claims of an issuer for an audience.
///
/// They expire at `expires`, in seconds since 1970 began in UTC. They also have a nonce (RFC 9711,
/// section 4.1), a role, and a claim whose name is a text.
///
/// # Errors
/// `OutOfMemory` if an allocation fails.
pub fn claims_for(
    alloc: Global,
    issuer: &str,
    audience: &str,
    expires: i64,
    nonce: &[u8],
    role: u8,
    name: &str,
) -> Result<ClaimsSet>
    ensures made { IfOk result (λ c. claims_view c
        ≡ claims_for issuer.now audience.now expires nonce.now role name.now) }
    ensures memory { IfErr result (λ e. e ≡ OutOfMemory) }
{
    let nonce = Value::Bytes(Vec::from_slice(alloc, nonce)?);
    let name = String::from_str(alloc, name)?;
    let claims = ClaimsSetBuilder::new(alloc)
        .issuer_from(alloc, issuer)?
        .audience_from(alloc, audience)?
        .expiration_time(Timestamp::WholeSeconds(expires))
        .claim(CwtClaimName::Nonce, nonce)?
        .private_claim(ROLE, Value::from(role))?
        .text_claim(name, Value::Bool(true))?;
    Ok(claims.build())
}
