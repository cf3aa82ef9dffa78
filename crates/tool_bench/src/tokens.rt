//! Times verifying and judging tokens, and the calls by hand that both replace.

use crate::fault::Fault;
use coset::cwt::ClaimsSet;
use coset::iana::Algorithm;
use coset::{CborSerializable, CoseKey, CoseKeySet, CoseSign1};
use cwt_gate::{GateError, judge};
use cwt_ring::{Ciphers, Issuer, KeyRing};
use cwt_verify::{Audience, Policy, verify_token};
use std::alloc::Global;
use std::rt::Clock;
use std::time::{Duration, Instant};

/// The time from which the tokens of RFC 8392, appendix A, are valid.
const NOW: i64 = 1_443_944_944;

/// The issuer of these tokens.
const ISSUER: &str = "coap://as.example.com";

/// The audience of these tokens.
const AUDIENCE: &str = "coap://light.example.com";

/// A set with the public key of RFC 8392, appendix A.2.3.
const KEYS: &[u8] =
    b"\x81\xa6\x01\x02\x02RAsymmetricECDSA256\x03& \x01!X \x143)\xcc\xe7\x86\x8eAi'Y\x9c\xf6Z4\xf3\
\xce/\xfd\xa5Z~\xcai\xed\x89\x19\xa3\x94\xd4/\x0f\"X `\xf7\xf1\xa7\x80\xd8\xa7\x83\xbf\xb7\xa2\
\xddk'\x96\xe8\x12\x8d\xbb\xce\xf9\xd3\xd1h\xdb\x95)\x97\x1a6\xe7\xb9";

/// The error of closures and ciphers that refuse no signature.
#[derive(Clone, Copy, Debug, Drop)]
struct Never;

/// Ciphers that accept every signature and MAC, and decrypt nothing.
#[derive(Clone, Copy, Debug)]
struct Accepting;

impl Ciphers for Accepting {
    type Error = Never;

    ghost view = { λ c. record {
      verifies = λ k a i p. Unit {0};
      decrypts = λ k a n d c p. Unit {0};
      not_verified = λ k a i p e. Unit {0};
      not_decrypted = λ k a n d c e. Unit {0};
    } };

    fn verify(
        &self,
        _key: &CoseKey,
        _algorithm: Algorithm,
        _input: &[u8],
        _proof: &[u8],
    ) -> Result<(), Never> {
        Ok(())
    }

    fn decrypt(
        &self,
        _alloc: Global,
        _key: &CoseKey,
        _algorithm: Algorithm,
        _nonce: &[u8],
        _aad: &[u8],
        _ciphertext: &[u8],
    ) -> Result<Vec<u8>, Never> {
        Err(Never)
    }
}

/// Times verifying a token of RFC 8392, appendix A, with a ring of the issuer's key. Only ES256 is
/// allowed, and the ciphers accept the signature. The key is read before the clock starts.
pub fn time_verify_token<R: AllocGlobal + Clock>(
    rt: &R,
    bytes: &[u8],
    calls: usize,
) -> Result<Duration, Fault> {
    let alloc = rt.alloc();
    let keys = CoseKeySet::from_slice(alloc, KEYS)?;
    let issuers = [Issuer {
        name: Some(ISSUER),
        keys: &keys,
    }];
    let ring = KeyRing {
        issuers: &issuers,
        ciphers: Accepting,
    };
    let policy = Policy {
        algorithms: &[Algorithm::ES256],
        audience: Audience::OneOf(&[AUDIENCE]),
        ..Policy::strict()
    };
    let start = Instant::now(rt)?;
    for _ in 0..calls {
        if verify_token(alloc, &policy, &ring, bytes, NOW).is_err() {
            return Err(Fault::Unexpected);
        }
    }
    Ok(start.elapsed(rt)?)
}

/// Times judging a token whose signature is accepted.
pub fn time_judge<R: AllocGlobal + Clock>(
    rt: &R,
    bytes: &[u8],
    calls: usize,
) -> Result<Duration, Fault> {
    let alloc = rt.alloc();
    let start = Instant::now(rt)?;
    for _ in 0..calls {
        let judged: Result<ClaimsSet, GateError<Never>> = judge(
            alloc,
            bytes,
            NOW,
            |_signature, _structure| Ok(()),
        );
        if judged.is_err() {
            return Err(Fault::Unexpected);
        }
    }
    Ok(start.elapsed(rt)?)
}

/// Reads a token's message, makes the structure that its signature covers, and reads its claims.
fn read_by_hand(alloc: Global, bytes: &[u8]) -> Result<ClaimsSet, Fault> {
    let message = CoseSign1::from_slice(alloc, bytes)?;
    let structure = message.tbs_data(alloc, &[])?;
    match &message.payload {
        Some(payload) if !structure.is_empty() => Ok(ClaimsSet::from_slice(alloc, payload)?),
        _ => Err(Fault::Unexpected),
    }
}

/// Times reading a token by hand, without a look at the key, the algorithm, the times and the
/// names.
pub fn time_by_hand<R: AllocGlobal + Clock>(
    rt: &R,
    bytes: &[u8],
    calls: usize,
) -> Result<Duration, Fault> {
    let alloc = rt.alloc();
    let start = Instant::now(rt)?;
    for _ in 0..calls {
        drop(read_by_hand(alloc, bytes)?);
    }
    Ok(start.elapsed(rt)?)
}
