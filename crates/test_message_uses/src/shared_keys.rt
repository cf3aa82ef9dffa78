//! Messages with a MAC by a shared key.

use crate::answers::{are, made_of};
use coset::iana::Algorithm;
use coset::{CallError, CoseError};
use example_uses::cipher::Refused;
use example_uses::shared_key::{mac_for, verify_for};
use std::test::*;

const PAYLOAD: &[u8] = b"This is the content.";

/// The MAC of RFC 8152, appendix C.5.1.
const MAC: &[u8] = b"\x9e\x12\x26\xba\x1f\x81\xb8\x48";

/// The structure of that MAC: `["MAC", h'a1010f', h'', payload]`. The key of appendix C.7.2 gives
/// the MAC for this structure.
const TBM: &[u8] = b"\x84\x63MAC\x43\xa1\x01\x0f\x40\x54This is the content.";

/// The message of appendix C.5.1, without its CBOR tag.
const MESSAGE: &[u8] =
    b"\x85\x43\xa1\x01\x0f\xa0\x54This is the content.\x48\x9e\x12\x26\xba\x1f\x81\xb8\x48\
\x81\x83\x40\xa2\x01\x25\x04\x4aour-secret\x40";

#[test]
fn a_message_with_a_mac(rt: HostRuntime) -> Result<(), Fail> {
    let alloc = rt.alloc();
    let bytes = mac_for(
        alloc,
        Algorithm::AES_MAC_256_64,
        b"our-secret",
        Vec::from_slice(alloc, PAYLOAD)?,
        b"",
        move |tbm: &[u8]| made_of(alloc, tbm, TBM, MAC),
    );
    assert_eq!(rt; bytes.ok().ok_or("no MAC")?.as_slice(), MESSAGE);
    let message = verify_for(
        alloc,
        MESSAGE,
        b"our-secret",
        b"",
        Refused::OutOfMemory,
        |mac: &[u8], tbm: &[u8]| are((mac, tbm), (MAC, TBM)),
    );
    let message = message.ok().ok_or("refused")?;
    assert!(rt; message.payload.as_deref() == Some(PAYLOAD));
    Ok(())
}

/// Similar messages: without a payload, with a recipient that has no algorithm, and without
/// recipients.
const ODD: [&[u8]; 3] = [
    b"\x85\x43\xa1\x01\x0f\xa0\xf6\x41m\x81\x83\x40\xa2\x01\x25\x04\x4aour-secret\x40",
    b"\x85\x43\xa1\x01\x0f\xa0\x41p\x41m\x81\x83\x40\xa1\x04\x4aour-secret\x40",
    b"\x85\x43\xa1\x01\x0f\xa0\x41p\x41m\x80",
];

#[test]
fn messages_that_name_no_key(rt: HostRuntime) -> Result<(), Fail> {
    let alloc = rt.alloc();
    for message in ODD {
        let odd = verify_for(
            alloc,
            message,
            b"our-secret",
            b"",
            Refused::OutOfMemory,
            |_: &[u8], _: &[u8]| Ok(()),
        );
        assert!(rt; matches!(odd, Err(CallError::Caller(Refused::OutOfMemory))));
    }
    let nobodys = verify_for(
        alloc,
        MESSAGE,
        b"their-secret",
        b"",
        Refused::OutOfMemory,
        |_: &[u8], _: &[u8]| Ok(()),
    );
    assert!(rt; matches!(nobodys, Err(CallError::Caller(Refused::OutOfMemory))));
    Ok(())
}

#[test]
fn messages_that_are_refused(rt: HostRuntime) -> Result<(), Fail> {
    let alloc = rt.alloc();
    let refused = verify_for(
        alloc,
        MESSAGE,
        b"our-secret",
        b"\x01",
        Refused::OutOfMemory,
        |mac: &[u8], tbm: &[u8]| are((mac, tbm), (MAC, TBM)),
    );
    assert!(rt; matches!(refused, Err(CallError::Caller(Refused::Rejected))));
    let no_mac = verify_for(
        alloc,
        b"\x80",
        b"our-secret",
        b"",
        Refused::OutOfMemory,
        |_: &[u8], _: &[u8]| Ok::<(), Refused>(()),
    );
    assert!(rt;
        matches!(
            no_mac,
            Err(CallError::Coset(CoseError::UnexpectedItem(_, _)))
        )
    );
    Ok(())
}
