//! Issues a web token, reads it and verifies it. Then it compares the claims that were read with
//! those that were written.
//!
//! This is a port of the Rust crate's example `cwt` (docs/MIGRATING.md). The key protects nothing.
#![tactic(auto)]

use anyhow::{Context, Result, ensure};
use coset::cbor::value::Value;
use coset::cwt::{ClaimsSet, ClaimsSetBuilder, Timestamp};
use coset::{CallError, CborSerializable, CoseSign1, CoseSign1Builder, HeaderBuilder, iana};
use std::alloc::{AllocError, Global};
use std::error::Error;
use std::fmt;

/// Data that is signed and not in the token: none.
const AAD: &[u8] = b"";

/// Why a key doesn't sign, or doesn't accept a signature.
#[derive(Debug, Drop)]
enum KeyError {
    /// The signature is of other bytes.
    OtherBytes,
    /// An allocation failed.
    OutOfMemory,
}

impl From<AllocError> for KeyError {
    fn from(_error: AllocError) -> KeyError {
        KeyError::OutOfMemory
    }
}

impl fmt::Display for KeyError {
    fn fmt<W: fmt::Write>(&self, f: &mut fmt::Formatter<W>) -> fmt::Result {
        match self {
            KeyError::OtherBytes => write!(f, "failed to verify"),
            KeyError::OutOfMemory => write!(f, "out of memory"),
        }
    }
}

impl Error for KeyError {}

/// A key whose signature is a copy of the signed bytes.
#[derive(Drop)]
struct FakeKey {}

impl FakeKey {
    /// Returns a signature of the bytes.
    fn sign(&self, alloc: Global, tbs: &[u8]) -> Result<Vec<u8>, KeyError> {
        Ok(Vec::from_slice(alloc, tbs)?)
    }

    /// Checks that `signature` is a signature of the bytes.
    fn verify(&self, alloc: Global, signature: &[u8], tbs: &[u8]) -> Result<(), KeyError> {
        if signature != self.sign(alloc, tbs)?.as_slice() {
            return Err(KeyError::OtherBytes);
        }
        Ok(())
    }
}

/// Returns the claims of RFC 8392, appendix A.1, a scope, and a claim for private use.
fn claims(alloc: Global) -> coset::Result<ClaimsSet> {
    let scope = Value::Text(String::from_str(alloc, "email phone")?);
    let claims = ClaimsSetBuilder::new(alloc)
        .issuer_from(alloc, "coap://as.example.com")?
        .subject_from(alloc, "erikw")?
        .audience_from(alloc, "coap://light.example.com")?
        .expiration_time(Timestamp::WholeSeconds(1444064944))
        .not_before(Timestamp::WholeSeconds(1443944944))
        .issued_at(Timestamp::WholeSeconds(1443944944))
        .cwt_id(vec![in alloc; 0x0b, 0x71]?)
        .claim(iana::CwtClaimName::Scope, scope)?
        .private_claim(-70_000, Value::from(42u8))?
        .build();
    Ok(claims)
}

/// Returns the encoding of a token with these claims.
fn issued(
    alloc: Global,
    signer: &FakeKey,
    claims: &ClaimsSet,
) -> Result<Vec<u8>, CallError<KeyError>> {
    let protected = HeaderBuilder::new(alloc)
        .algorithm(iana::Algorithm::ES256)
        .build();
    let unprotected = HeaderBuilder::new(alloc)
        .key_id_from(alloc, b"AsymmetricECDSA256")?
        .build();
    let sign1 = CoseSign1Builder::new(alloc)
        .protected(protected)
        .unprotected(unprotected)
        .payload(claims.clone()?.to_vec(alloc)?)
        .try_create_signature(alloc, AAD, move |tbs| signer.sign(alloc, tbs))?
        .build();
    Ok(sign1.to_vec(alloc)?)
}

fn main(rt: HostRuntime) -> Result<()> {
    let alloc = rt.alloc();
    let key = FakeKey {};
    let claims = claims(alloc)?;
    let sign1_data = issued(alloc, &key, &claims)?;

    // The receiving end. Real code finds a key by the identifier in the headers, and checks that it
    // is a key for the algorithm there.
    let sign1 = CoseSign1::from_slice(alloc, &sign1_data)?;
    let result = sign1.verify_signature(alloc, AAD, move |sig, tbs| key.verify(alloc, sig, tbs));
    println!(rt; "Signature verified: {result:?}.")?;
    ensure!(result.is_ok());

    let payload = sign1.payload.context("the token has no payload")?;
    let recovered_claims = ClaimsSet::from_slice(alloc, &payload)?;
    ensure!(recovered_claims == claims);
    Ok(())
}
