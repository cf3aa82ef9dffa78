//! Tokens that are signed, sent and verified, with a stand-in for ciphers.

use coset::cbor::value::Value;
use coset::cwt::{ClaimsSet, ClaimsSetBuilder};
use coset::iana::Algorithm;
use coset::{CallError, CoseError, Header, HeaderBuilder};
use example_uses::exchange::{Channel, exchange};
use example_uses::issue::{issue_token, sign_token};
use example_uses::stand_in::StandInKey;
use example_uses::verify::{verified_claims, verify_token};
use std::alloc::Global;
use std::test::*;

/// The claims of a token: its issuer is `a`.
const CLAIMS: &[u8] = b"\xa1\x01\x61a";

const EXTERNAL_AAD: &[u8] = b"\x01\x02";

/// A channel that doesn't change the spelling.
#[derive(Clone, Copy)]
struct Plain;

impl Channel for Plain {
    ghost use Rattle.std.specs.Prelude.{⊤};

    ghost loses = { λ _ _. ⊤ };

    fn carry(&mut self, alloc: Global, token: &[u8]) -> Option<Vec<u8>> {
        Vec::from_slice(alloc, token).ok()
    }
}

/// Returns a header that names the algorithm.
fn header(alloc: Global) -> Header {
    HeaderBuilder::new(alloc)
        .algorithm(Algorithm::ES256)
        .build()
}

/// Returns the token of these claims.
fn token(alloc: Global) -> Result<Vec<u8>, Fail> {
    let claims = Vec::from_slice(alloc, CLAIMS)?;
    let token = sign_token(alloc, &StandInKey, header(alloc), claims, EXTERNAL_AAD);
    Ok(token.ok().ok_or("not signed")?)
}

#[test]
fn a_token_that_is_sent(rt: HostRuntime) -> Result<(), Fail> {
    let alloc = rt.alloc();
    let claims = Vec::from_slice(alloc, CLAIMS)?;
    let (key, protected) = (StandInKey, header(alloc));
    let message = exchange(
        alloc,
        &key,
        &key,
        &mut Plain,
        protected,
        claims,
        EXTERNAL_AAD,
    )
    .ok()
    .ok_or("lost")?;
    assert!(rt; message.payload.as_deref() == Some(CLAIMS));
    Ok(())
}

/// Returns the token with an indefinite length of the array around it.
fn spelled_anew(alloc: Global, token: &[u8]) -> Result<Vec<u8>, Fail> {
    let mut bytes = Vec::from_slice(alloc, b"\x9f")?;
    bytes.extend_from_slice(token.get(1..).ok_or("empty")?)?;
    bytes.push(0xff)?;
    Ok(bytes)
}

#[test]
fn a_token_that_is_spelled_anew(rt: HostRuntime) -> Result<(), Fail> {
    let alloc = rt.alloc();
    let token = token(alloc)?;
    let arrived = spelled_anew(alloc, &token)?;
    let message = verify_token(alloc, &StandInKey, &arrived, EXTERNAL_AAD)
        .ok()
        .ok_or("refused")?;
    assert!(rt; message.payload.as_deref() == Some(CLAIMS));
    Ok(())
}

#[test]
fn tokens_that_are_refused(rt: HostRuntime) -> Result<(), Fail> {
    let alloc = rt.alloc();
    let token = token(alloc)?;
    let other_aad = verify_token(alloc, &StandInKey, &token, b"\x01\x03");
    assert!(rt; matches!(other_aad, Err(CallError::Caller(_))));
    let cut = verify_token(alloc, &StandInKey, b"\x84", EXTERNAL_AAD);
    assert!(rt; matches!(cut, Err(CallError::Coset(CoseError::DecodeFailed(_)))));
    Ok(())
}

/// Returns claims with an issuer.
fn claims(alloc: Global) -> Result<ClaimsSet, Fail> {
    let issuer = String::from_str(alloc, "a")?;
    Ok(ClaimsSetBuilder::new(alloc).issuer(issuer).build())
}

#[test]
fn claims_that_are_issued(rt: HostRuntime) -> Result<(), Fail> {
    let alloc = rt.alloc();
    let issued = claims(alloc)?;
    let token = issue_token(alloc, &StandInKey, Algorithm::ES256, issued, EXTERNAL_AAD)
        .ok()
        .ok_or("not issued")?;
    let claims_read = verified_claims(alloc, &StandInKey, &token, EXTERNAL_AAD)
        .ok()
        .ok_or("refused")?;
    assert!(rt; claims_read == claims(alloc)?);
    Ok(())
}

#[test]
fn claims_with_a_name_twice_are_not_issued(rt: HostRuntime) -> Result<(), Fail> {
    let alloc = rt.alloc();
    let claims = ClaimsSetBuilder::new(alloc)
        .text_claim(String::from_str(alloc, "a")?, Value::Null)?
        .text_claim(String::from_str(alloc, "a")?, Value::Null)?
        .build();
    let refused = issue_token(alloc, &StandInKey, Algorithm::ES256, claims, EXTERNAL_AAD);
    assert!(rt; matches!(refused, Err(CallError::Coset(CoseError::DuplicateMapKey))));
    Ok(())
}
