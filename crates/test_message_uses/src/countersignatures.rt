//! Countersignatures of messages with one signature. The bytes were composed by hand. The
//! signatures are Ed25519, made by another library with the keys 00 to 1f and 20 to 3f.

use crate::answers::{are, made_of};
use coset::iana::Algorithm;
use coset::{CallError, CoseError};
use example_uses::cipher::Refused;
use example_uses::countersigning::{countersign, countersigner, verify_countersigned};
use std::test::*;

/// A message: `[h'a10127', {4: 'a'}, 'This is the content.', signature]`.
const MESSAGE: &[u8] =
    b"\x84C\xa1\x01'\xa1\x04AaTThis is the content.X@\x0bIuG\xd7\xa3\x1d\xb8rF\xc7\x0e8\x0b1\xb3\
\xf1\xd7oO\xfad\x0av\xc9+\xafk\xb6\x10\x09\x1f\xd2\x84\x5c\xec\xd1\xa9\xf1\xac\xa9\x0d\xcf|\x98\
\xa7\xbe[\x19T252\x8a\x8f\x9ee\x03U\x9c\x80`\x92\x0e";

/// The structure of the message's countersignature: `["CounterSignatureV2", h'a10127', h'a10127',
/// h'0102', 'This is the content.', [signature]]`.
const TBS: &[u8] =
    b"\x86rCounterSignatureV2C\xa1\x01'C\xa1\x01'B\x01\x02TThis is the content.\x81X@\x0bIuG\xd7\
\xa3\x1d\xb8rF\xc7\x0e8\x0b1\xb3\xf1\xd7oO\xfad\x0av\xc9+\xafk\xb6\x10\x09\x1f\xd2\x84\x5c\xec\xd1\
\xa9\xf1\xac\xa9\x0d\xcf|\x98\xa7\xbe[\x19T252\x8a\x8f\x9ee\x03U\x9c\x80`\x92\x0e";

/// The second key's signature of that structure.
const COUNTERSIGNATURE: &[u8] =
    b"\xbf\x06D\x02@\xa6\xb7pdO\xe2C\x1dF\xde\x9d\xd5\x9d\xd0\xb2\xa1\xd4\x8f\x85`xjL\x92hg}\xb7\
\x13+\x90\x84/\xc4`7\x094\xcc\xa9?\x82y\x9c\x00$N.,UI\xaa\x7f'9jD\xe3\x04";

/// The message with the countersignature. Its unprotected header is `{4: 'a', 11: [h'a10127', {4:
/// 'notary'}, countersignature]}`.
const COUNTERSIGNED: &[u8] =
    b"\x84C\xa1\x01'\xa2\x04Aa\x0b\x83C\xa1\x01'\xa1\x04FnotaryX@\xbf\x06D\x02@\xa6\xb7pdO\xe2C\x1d\
F\xde\x9d\xd5\x9d\xd0\xb2\xa1\xd4\x8f\x85`xjL\x92hg}\xb7\x13+\x90\x84/\xc4`7\x094\xcc\xa9?\x82y\
\x9c\x00$N.,UI\xaa\x7f'9jD\xe3\x04TThis is the content.X@\x0bIuG\xd7\xa3\x1d\xb8rF\xc7\x0e8\x0b1\
\xb3\xf1\xd7oO\xfad\x0av\xc9+\xafk\xb6\x10\x09\x1f\xd2\x84\x5c\xec\xd1\xa9\xf1\xac\xa9\x0d\xcf|\
\x98\xa7\xbe[\x19T252\x8a\x8f\x9ee\x03U\x9c\x80`\x92\x0e";

const EXTERNAL_AAD: &[u8] = b"\x01\x02";

#[test]
fn a_message_that_is_countersigned(rt: HostRuntime) -> Result<(), Fail> {
    let alloc = rt.alloc();
    let notary = countersigner(alloc, Algorithm::EdDSA, b"notary")
        .ok()
        .ok_or("memory")?;
    let bytes = countersign(alloc, MESSAGE, notary, EXTERNAL_AAD, move |tbs: &[u8]| {
        made_of(alloc, tbs, TBS, COUNTERSIGNATURE)
    });
    assert_eq!(rt; bytes.ok().ok_or("refused")?.as_slice(), COUNTERSIGNED);
    Ok(())
}

/// A message without a payload: `[h'', {}, nil, 's']`.
const NO_PAYLOAD: &[u8] = b"\x84\x40\xa0\xf6\x41s";

#[test]
fn messages_that_are_not_countersigned(rt: HostRuntime) -> Result<(), Fail> {
    let alloc = rt.alloc();
    for (message, detached) in [(MESSAGE, false), (NO_PAYLOAD, true)] {
        let notary = countersigner(alloc, Algorithm::EdDSA, b"notary")
            .ok()
            .ok_or("memory")?;
        let refused = countersign(alloc, message, notary, b"", |_tbs: &[u8]| {
            Err(Refused::Rejected)
        });
        let as_expected = match refused {
            Err(CallError::Coset(CoseError::UnexpectedItem(_, _))) => detached,
            Err(CallError::Caller(Refused::Rejected)) => !detached,
            _ => false,
        };
        assert!(rt; as_expected);
    }
    Ok(())
}

#[test]
fn a_countersignature_that_is_verified(rt: HostRuntime) -> Result<(), Fail> {
    let alloc = rt.alloc();
    let message = verify_countersigned(
        alloc,
        COUNTERSIGNED,
        b"notary",
        EXTERNAL_AAD,
        Refused::OutOfMemory,
        |s: &[u8], tbs: &[u8]| are((s, tbs), (COUNTERSIGNATURE, TBS)),
    );
    let message = message.ok().ok_or("refused")?;
    assert!(rt; message.payload.as_deref() == Some(b"This is the content.".as_slice()));
    Ok(())
}

#[test]
fn countersignatures_that_are_refused(rt: HostRuntime) -> Result<(), Fail> {
    let alloc = rt.alloc();
    let other_aad = verify_countersigned(
        alloc,
        COUNTERSIGNED,
        b"notary",
        b"",
        Refused::OutOfMemory,
        |s: &[u8], tbs: &[u8]| are((s, tbs), (COUNTERSIGNATURE, TBS)),
    );
    assert!(rt; matches!(other_aad, Err(CallError::Caller(Refused::Rejected))));
    for message in [MESSAGE, COUNTERSIGNED] {
        let nobodys = verify_countersigned(
            alloc,
            message,
            b"a",
            EXTERNAL_AAD,
            Refused::OutOfMemory,
            |_: &[u8], _: &[u8]| Ok(()),
        );
        assert!(rt; matches!(nobodys, Err(CallError::Caller(Refused::OutOfMemory))));
    }
    let no_payload = verify_countersigned(
        alloc,
        NO_PAYLOAD,
        b"notary",
        EXTERNAL_AAD,
        Refused::OutOfMemory,
        |_: &[u8], _: &[u8]| Ok(()),
    );
    assert!(rt;
        matches!(
            no_payload,
            Err(CallError::Coset(CoseError::UnexpectedItem(_, _)))
        )
    );
    Ok(())
}
