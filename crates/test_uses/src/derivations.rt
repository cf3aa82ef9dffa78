//! Contexts of key derivations.

use coset::iana::Algorithm;
use coset::{CborSerializable, CoseError, CoseRecipient};
use example_uses::derivation::derivation_context;
use std::alloc::Global;
use std::test::*;

/// The recipient of RFC 8152, appendix C.3.2: `[h'a10129', {-20: 'aabbccddeeffgghh', 4:
/// 'our-secret'}, h'']`.
const SALTED: &[u8] = b"\x83\x43\xa1\x01\x29\xa2\x33\x50aabbccddeeffgghh\x04\x4aour-secret\x40";

/// The context for that recipient: a key of 128 bits for AES-CCM-16-64-128.
const CONTEXT: &[u8] = b"\x84\x0a\x83\x4flighting-client\xf6\xf6\x83\x4flighting-server\xf6\xf6\
\x83\x18\x80\x43\xa1\x01\x29\x55Encryption Example 02";

/// Returns the context of that appendix for this recipient.
fn context(alloc: Global, recipient: &[u8]) -> Result<Vec<u8>, CoseError> {
    let recipient = CoseRecipient::from_slice(alloc, recipient)?;
    derivation_context(
        alloc,
        Algorithm::AES_CCM_16_64_128,
        128,
        b"lighting-client",
        b"lighting-server",
        &recipient,
        b"Encryption Example 02",
    )
}

#[test]
fn a_context_of_two_parties(rt: HostRuntime) -> Result<(), Fail> {
    let bytes = context(rt.alloc(), SALTED);
    assert_eq!(rt; bytes.ok().ok_or("refused")?.as_slice(), CONTEXT);
    Ok(())
}

/// Recipients with a nonce of party U: `{-22: 'n'}`, `{-22: 7}`, and `{-22: 'p'}` in the protected
/// header besides `{-22: 'n'}`.
const BYTES: &[u8] = b"\x83\x43\xa1\x01\x29\xa1\x35\x41n\x40";

const INTEGER: &[u8] = b"\x83\x43\xa1\x01\x29\xa1\x35\x07\x40";

const PROTECTED: &[u8] = b"\x83\x46\xa2\x01\x29\x35\x41p\xa1\x35\x41n\x40";

/// Their contexts, up to party V.
const STARTS: [(&[u8], &[u8]); 3] = [
    (
        BYTES,
        b"\x84\x0a\x83\x4flighting-client\x41n\xf6\x83\x4flighting-server",
    ),
    (
        INTEGER,
        b"\x84\x0a\x83\x4flighting-client\x07\xf6\x83\x4flighting-server",
    ),
    (
        PROTECTED,
        b"\x84\x0a\x83\x4flighting-client\x41p\xf6\x83\x4flighting-server",
    ),
];

#[test]
fn nonces_of_the_sender(rt: HostRuntime) -> Result<(), Fail> {
    let alloc = rt.alloc();
    for (recipient, start) in STARTS {
        let bytes = context(alloc, recipient).ok().ok_or("refused")?;
        assert!(rt; bytes.starts_with(start));
    }
    Ok(())
}

/// Recipients without a salt and a nonce, and with a text as the nonce.
const REFUSED: [&[u8]; 2] = [
    b"\x83\x43\xa1\x01\x29\xa1\x04\x4aour-secret\x40",
    b"\x83\x43\xa1\x01\x29\xa1\x35\x61n\x40",
];

#[test]
fn recipients_without_a_nonce(rt: HostRuntime) -> Result<(), Fail> {
    let alloc = rt.alloc();
    for recipient in REFUSED {
        let refused = context(alloc, recipient);
        assert!(rt; matches!(refused, Err(CoseError::UnexpectedItem(_, _))));
    }
    Ok(())
}
