//! A message with a detached payload.

use crate::answers::{are, made_of};
use coset::iana::Algorithm;
use coset::{CallError, CoseError};
use example_uses::cipher::Refused;
use example_uses::detached::{sign_detached, verify_detached};
use std::test::*;

const PAYLOAD: &[u8] = b"This is the content.";

/// `["Signature1", h'a10126', h'', payload]`
const APART_TBS: &[u8] = b"\x84\x6aSignature1\x43\xa1\x01\x26\x40\x54This is the content.";

/// A message without its payload, signed with ES256. Its signature is `s`.
const APART: &[u8] = b"\x84\x43\xa1\x01\x26\xa0\xf6\x41s";

#[test]
fn a_payload_that_is_sent_apart(rt: HostRuntime) -> Result<(), Fail> {
    let alloc = rt.alloc();
    let bytes = sign_detached(alloc, Algorithm::ES256, PAYLOAD, b"", move |tbs: &[u8]| {
        made_of(alloc, tbs, APART_TBS, b"s")
    });
    assert_eq!(rt; bytes.ok().ok_or("not signed")?.as_slice(), APART);
    let message = verify_detached(alloc, APART, PAYLOAD, b"", |s: &[u8], tbs: &[u8]| {
        are((s, tbs), (b"s", APART_TBS))
    });
    assert!(rt; message.is_ok());
    let other = verify_detached(alloc, APART, b"Another.", b"", |s: &[u8], tbs: &[u8]| {
        are((s, tbs), (b"s", APART_TBS))
    });
    assert!(rt; matches!(other, Err(CallError::Caller(Refused::Rejected))));
    let attached = b"\x84\x43\xa1\x01\x26\xa0\x40\x41s";
    let carried = verify_detached(alloc, attached, PAYLOAD, b"", |s: &[u8], tbs: &[u8]| {
        are((s, tbs), (b"s", APART_TBS))
    });
    assert!(rt;
        matches!(
            carried,
            Err(CallError::Coset(CoseError::UnexpectedItem(_, _)))
        )
    );
    Ok(())
}
