//! Claims, keys, headers and messages that are made. The bytes were composed by hand; those of
//! messages are examples of RFC 8152, appendix C.

use crate::answers::{are, made_of, made_of_two};
use coset::cwt::ClaimsSet;
use coset::iana::Algorithm;
use coset::{CallError, CborSerializable, CoseError, Header};
use example_uses::cipher::Refused;
use example_uses::encrypt0::encrypt;
use example_uses::mac0::{authenticate, verify_mac};
use example_uses::made_claims::claims_for;
use example_uses::made_keys::{ed25519_key, ml_dsa_key, p256_key, shared_key};
use example_uses::parameters::{is_of_token, trace_of, traced};
use std::test::*;

/// `{1: 'as', 3: 'rs', 4: 1700000000, 10: 'n', -70001: 3, "admin": true}`
const CLAIMS: &[u8] =
    b"\xa6\x01\x62as\x03\x62rs\x04\x1a\x65\x53\xf1\x00\x0a\x41n\x3a\x00\x01\x11\x70\x03\x65admin\xf5";

#[test]
fn claims_that_are_made(rt: HostRuntime) -> Result<(), Fail> {
    let alloc = rt.alloc();
    let claims = claims_for(alloc, "as", "rs", 1_700_000_000, b"n", 3, "admin");
    let bytes = claims.ok().ok_or("memory")?.to_vec(alloc);
    assert_eq!(rt; bytes.ok().ok_or("not written")?.as_slice(), CLAIMS);
    assert!(rt; ClaimsSet::from_slice(alloc, CLAIMS).is_ok());
    Ok(())
}

#[test]
fn keys_that_are_made(rt: HostRuntime) -> Result<(), Fail> {
    let alloc = rt.alloc();
    let x = Vec::from_slice(alloc, b"x")?;
    let y = Vec::from_slice(alloc, b"y")?;
    let key = p256_key(alloc, b"k", x, y).ok().ok_or("memory")?;
    assert_eq!(rt;
        key.to_vec(alloc).ok().ok_or("not written")?.as_slice(),
        b"\xa6\x01\x02\x02\x41k\x03\x26\x20\x01\x21\x41x\x22\x41y".as_slice()
    );
    let x = Vec::from_slice(alloc, b"x")?;
    let key = ed25519_key(alloc, b"k", x).ok().ok_or("memory")?;
    assert_eq!(rt;
        key.to_vec(alloc).ok().ok_or("not written")?.as_slice(),
        b"\xa4\x01\x01\x02\x41k\x20\x06\x21\x41x".as_slice()
    );
    let k = Vec::from_slice(alloc, b"s")?;
    let key = shared_key(alloc, Algorithm::HMAC_256_256, b"k", k)
        .ok()
        .ok_or("memory")?;
    assert_eq!(rt;
        key.to_vec(alloc).ok().ok_or("not written")?.as_slice(),
        b"\xa4\x01\x04\x02\x41k\x03\x05\x20\x41s".as_slice()
    );
    let public = Vec::from_slice(alloc, b"p")?;
    let key = ml_dsa_key(alloc, b"k", public).ok().ok_or("memory")?;
    assert_eq!(rt;
        key.to_vec(alloc).ok().ok_or("not written")?.as_slice(),
        b"\xa4\x01\x07\x02\x41k\x03\x38\x2f\x20\x41p".as_slice()
    );
    Ok(())
}

/// `{1: -7, 2: [-70002], 3: 61, -70002: 't'}`
const TRACED: &[u8] =
    b"\xa4\x01\x26\x02\x81\x3a\x00\x01\x11\x71\x03\x18\x3d\x3a\x00\x01\x11\x71\x41t";

#[test]
fn parameters_of_ones_own(rt: HostRuntime) -> Result<(), Fail> {
    let alloc = rt.alloc();
    let made = traced(alloc, Algorithm::ES256, b"t").ok().ok_or("memory")?;
    assert!(rt; trace_of(&made) == Some(b"t".as_slice()));
    assert!(rt; is_of_token(&made));
    assert_eq!(rt;
        made.to_vec(alloc).ok().ok_or("not written")?.as_slice(),
        TRACED
    );
    // `{3: 60, -70002: 1}`
    let other = Header::from_slice(alloc, b"\xa2\x03\x18\x3c\x3a\x00\x01\x11\x71\x01")
        .ok()
        .ok_or("refused")?;
    assert!(rt; trace_of(&other).is_none());
    assert!(rt; !is_of_token(&other));
    let none = Header::new(alloc);
    assert!(rt; trace_of(&none).is_none());
    assert!(rt; !is_of_token(&none));
    Ok(())
}

const CONTENT: &[u8] = b"This is the content.";

/// The MAC of appendix C.6.1.
const MAC: &[u8] = b"\x72\x60\x43\x74\x50\x27\x21\x4f";

/// The structure of that MAC: `["MAC0", h'a1010f', h'', content]`.
const TBM: &[u8] = b"\x84\x64MAC0\x43\xa1\x01\x0f\x40\x54This is the content.";

/// The message of appendix C.6.1, without its CBOR tag.
const AUTHENTICATED: &[u8] =
    b"\x84\x43\xa1\x01\x0f\xa0\x54This is the content.\x48\x72\x60\x43\x74\x50\x27\x21\x4f";

#[test]
fn a_message_with_a_mac_alone(rt: HostRuntime) -> Result<(), Fail> {
    let alloc = rt.alloc();
    let content = Vec::from_slice(alloc, CONTENT)?;
    let bytes = authenticate(
        alloc,
        Algorithm::AES_MAC_256_64,
        content,
        b"",
        move |tbm: &[u8]| made_of(alloc, tbm, TBM, MAC),
    );
    assert_eq!(rt; bytes.ok().ok_or("no MAC")?.as_slice(), AUTHENTICATED);
    let message = verify_mac(
        alloc,
        AUTHENTICATED,
        b"",
        Refused::OutOfMemory,
        |mac: &[u8], tbm: &[u8]| are((mac, tbm), (MAC, TBM)),
    );
    let message = message.ok().ok_or("refused")?;
    assert!(rt; message.payload.as_deref() == Some(CONTENT));
    Ok(())
}

#[test]
fn macs_that_are_refused(rt: HostRuntime) -> Result<(), Fail> {
    let alloc = rt.alloc();
    let other_aad = verify_mac(
        alloc,
        AUTHENTICATED,
        b"\x01",
        Refused::OutOfMemory,
        |mac: &[u8], tbm: &[u8]| are((mac, tbm), (MAC, TBM)),
    );
    assert!(rt; matches!(other_aad, Err(CallError::Caller(Refused::Rejected))));
    let detached = verify_mac(
        alloc,
        b"\x84\x40\xa0\xf6\x41m",
        b"",
        Refused::OutOfMemory,
        |_: &[u8], _: &[u8]| Ok(()),
    );
    assert!(rt; matches!(detached, Err(CallError::Caller(Refused::OutOfMemory))));
    let none = verify_mac(
        alloc,
        b"\x80",
        b"",
        Refused::OutOfMemory,
        |_: &[u8], _: &[u8]| Ok(()),
    );
    assert!(rt; matches!(none, Err(CallError::Coset(CoseError::UnexpectedItem(_, _)))));
    let refused = authenticate(
        alloc,
        Algorithm::AES_MAC_256_64,
        Vec::new(alloc),
        b"",
        |_: &[u8]| Err(Refused::Rejected),
    );
    assert!(rt; matches!(refused, Err(CallError::Caller(Refused::Rejected))));
    Ok(())
}

/// The initialization vector of appendix C.4.1.
const IV: &[u8] = b"\x89\xf5\x2f\x65\xa1\xc5\x80\x93\x3b\x52\x61\xa7\x8c";

/// The ciphertext of appendix C.4.1.
const CIPHERTEXT: &[u8] =
    b"\x59\x74\xe1\xb9\x9a\x3a\x4c\xc0\x9a\x65\x9a\xa2\xe9\xe7\xff\xf1\x61\xd3\x8c\xe7\
\x1c\xb4\x5c\xe4\x60\xff\xb5\x69";

/// The structure of that ciphertext: `["Encrypt0", h'a1010a', h'']`.
const AAD: &[u8] = b"\x83\x68Encrypt0\x43\xa1\x01\x0a\x40";

/// The message of appendix C.4.1, without its CBOR tag.
const ENCRYPTED: &[u8] =
    b"\x83\x43\xa1\x01\x0a\xa1\x05\x4d\x89\xf5\x2f\x65\xa1\xc5\x80\x93\x3b\x52\x61\xa7\
\x8c\x58\x1c\x59\x74\xe1\xb9\x9a\x3a\x4c\xc0\x9a\x65\x9a\xa2\xe9\xe7\xff\xf1\x61\xd3\x8c\xe7\x1c\xb4\
\x5c\xe4\x60\xff\xb5\x69";

#[test]
fn a_message_that_is_encrypted(rt: HostRuntime) -> Result<(), Fail> {
    let alloc = rt.alloc();
    let bytes = encrypt(
        alloc,
        Algorithm::AES_CCM_16_64_128,
        IV,
        CONTENT,
        b"",
        move |plaintext: &[u8], aad: &[u8]| {
            made_of_two(alloc, (plaintext, aad), (CONTENT, AAD), CIPHERTEXT)
        },
    );
    assert_eq!(rt; bytes.ok().ok_or("not encrypted")?.as_slice(), ENCRYPTED);
    let refused = encrypt(
        alloc,
        Algorithm::AES_CCM_16_64_128,
        IV,
        CONTENT,
        b"",
        |_: &[u8], _: &[u8]| Err(Refused::Rejected),
    );
    assert!(rt; matches!(refused, Err(CallError::Caller(Refused::Rejected))));
    Ok(())
}
