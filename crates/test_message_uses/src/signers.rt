//! Messages with several signers.

use crate::answers::{are, made_of};
use coset::iana::Algorithm;
use coset::{CallError, CoseError};
use example_uses::cipher::Refused;
use example_uses::signers::{sign_by_two, signer, verify_by};
use std::test::*;

const PAYLOAD: &[u8] = b"This is the content.";

/// The key of the second signer of RFC 8152, appendix C.1.2.
const BILBO: &[u8] = b"bilbo.baggins@hobbiton.example";

/// The first signature of that message.
const FIRST: &[u8] =
    b"\xe2\xae\xaf\xd4\x0di\xd1\x9d\xfenR\x07|]\x7f\xf4\xe4\x08(,\xbe\xfb]\x06\xcb\xf4\x14\xaf.\x19\
\xd9\x82\xacE\xac\x98\xb8TL\x90\x8bE\x07\xde\x1e\x90\xb7\x17\xc3\xd3H\x16\xfe\x92j+\x98\xf5:\xfd/\
\xa0\xf3\x0a";

/// The second signature of that message.
pub(crate) const SECOND: &[u8] =
    b"\x00\xa2\xd2\x8a|+\xdb\x15\x87\x87t \xf6Z\xdf}\x0b\x9a\x06c]\xd1\xded\xbbb\x97L\x86?\x0b\x16\
\x0d\xd2\x1674\x03Nj\xc0\x03\xb0\x1e\x87\x05RL\x5cL\xa4y\xa9R\xf0$~\xe8\xcb\x0bO\xb79{\xa0\x8d\x00\
\x9e\x0c\x8b\xf4\x82'\x0c\xc5w\x1a\xa1C\x96nZF\x9a\x09\xf6\x13H\x800\xc5\xb0~\xc6\xd7\x22\xe3\x83Z\
\xdb[-\x8cD\xe9_\xfb\x13\x87}\xd2X(f\x8855\xde;\xb0=\x01u?\x83\xab\x87\xbbOz\x02\x97";

/// The structures of the two signatures: `["Signature", h'', h'a10126', h'', payload]`, and the
/// same with `h'a1013823'`. The signatures verify over these bytes with the keys of appendix C.7.1.
const FIRST_TBS: &[u8] = b"\x85\x69Signature\x40\x43\xa1\x01\x26\x40\x54This is the content.";

pub(crate) const SECOND_TBS: &[u8] =
    b"\x85\x69Signature\x40\x44\xa1\x01\x38\x23\x40\x54This is the content.";

/// The message of RFC 8152, appendix C.1.2, without its tag.
pub(crate) const MESSAGE: &[u8] =
    b"\x84@\xa0TThis is the content.\x82\x83C\xa1\x01&\xa1\x04B11X@\xe2\xae\xaf\xd4\x0di\xd1\x9d\
\xfenR\x07|]\x7f\xf4\xe4\x08(,\xbe\xfb]\x06\xcb\xf4\x14\xaf.\x19\xd9\x82\xacE\xac\x98\xb8TL\x90\
\x8bE\x07\xde\x1e\x90\xb7\x17\xc3\xd3H\x16\xfe\x92j+\x98\xf5:\xfd/\xa0\xf3\x0a\x83D\xa1\x018#\xa1\
\x04X\x1ebilbo.baggins@hobbiton.exampleX\x84\x00\xa2\xd2\x8a|+\xdb\x15\x87\x87t \xf6Z\xdf}\x0b\x9a\
\x06c]\xd1\xded\xbbb\x97L\x86?\x0b\x16\x0d\xd2\x1674\x03Nj\xc0\x03\xb0\x1e\x87\x05RL\x5cL\xa4y\xa9\
R\xf0$~\xe8\xcb\x0bO\xb79{\xa0\x8d\x00\x9e\x0c\x8b\xf4\x82'\x0c\xc5w\x1a\xa1C\x96nZF\x9a\x09\xf6\
\x13H\x800\xc5\xb0~\xc6\xd7\x22\xe3\x83Z\xdb[-\x8cD\xe9_\xfb\x13\x87}\xd2X(f\x8855\xde;\xb0=\x01u?\
\x83\xab\x87\xbbOz\x02\x97";

#[test]
fn a_message_that_two_sign(rt: HostRuntime) -> Result<(), Fail> {
    let alloc = rt.alloc();
    let first = signer(alloc, Algorithm::ES256, b"11").ok().ok_or("memory")?;
    let second = signer(alloc, Algorithm::ES512, BILBO).ok().ok_or("memory")?;
    let bytes = sign_by_two(
        alloc,
        Vec::from_slice(alloc, PAYLOAD)?,
        b"",
        first,
        move |tbs: &[u8]| made_of(alloc, tbs, FIRST_TBS, FIRST),
        second,
        move |tbs: &[u8]| made_of(alloc, tbs, SECOND_TBS, SECOND),
    );
    assert_eq!(rt; bytes.ok().ok_or("not signed")?.as_slice(), MESSAGE);
    Ok(())
}

#[test]
fn a_signer_that_refuses(rt: HostRuntime) -> Result<(), Fail> {
    let alloc = rt.alloc();
    let first = signer(alloc, Algorithm::ES256, b"11").ok().ok_or("memory")?;
    let second = signer(alloc, Algorithm::ES512, BILBO).ok().ok_or("memory")?;
    let refused = sign_by_two(
        alloc,
        Vec::from_slice(alloc, PAYLOAD)?,
        b"",
        first,
        move |tbs: &[u8]| made_of(alloc, tbs, FIRST_TBS, FIRST),
        second,
        |_tbs: &[u8]| Err(Refused::Rejected),
    );
    assert!(rt; matches!(refused, Err(CallError::Caller(Refused::Rejected))));
    Ok(())
}

#[test]
fn signatures_by_their_keys(rt: HostRuntime) -> Result<(), Fail> {
    let alloc = rt.alloc();
    let message = verify_by(
        alloc,
        MESSAGE,
        BILBO,
        b"",
        Refused::Rejected,
        |s: &[u8], tbs: &[u8]| are((s, tbs), (SECOND, SECOND_TBS)),
    );
    let message = message.ok().ok_or("refused")?;
    assert!(rt; message.payload.as_deref() == Some(PAYLOAD));
    let first = verify_by(
        alloc,
        MESSAGE,
        b"11",
        b"",
        Refused::Rejected,
        |s: &[u8], tbs: &[u8]| are((s, tbs), (FIRST, FIRST_TBS)),
    );
    assert!(rt; first.is_ok());
    Ok(())
}

#[test]
fn signatures_that_are_refused(rt: HostRuntime) -> Result<(), Fail> {
    let alloc = rt.alloc();
    let nobodys = verify_by(
        alloc,
        MESSAGE,
        b"12",
        b"",
        Refused::OutOfMemory,
        |_: &[u8], _: &[u8]| Err(Refused::Rejected),
    );
    assert!(rt; matches!(nobodys, Err(CallError::Caller(Refused::OutOfMemory))));
    let refused = verify_by(
        alloc,
        MESSAGE,
        b"11",
        b"\x01",
        Refused::OutOfMemory,
        |s: &[u8], tbs: &[u8]| are((s, tbs), (FIRST, FIRST_TBS)),
    );
    assert!(rt; matches!(refused, Err(CallError::Caller(Refused::Rejected))));
    let cut = verify_by(
        alloc,
        b"\x84",
        b"11",
        b"",
        Refused::OutOfMemory,
        |_: &[u8], _: &[u8]| Err(Refused::Rejected),
    );
    assert!(rt; matches!(cut, Err(CallError::Coset(CoseError::DecodeFailed(_)))));
    Ok(())
}

/// A signature with its key in the protected header: `[h'', {}, 'p', [[h'a104416b', {}, 's']]]`.
const PROTECTED: &[u8] = b"\x84\x40\xa0\x41p\x81\x83\x44\xa1\x04\x41k\xa0\x41s";

/// The structure of that signature: `["Signature", h'', h'a104416b', h'', 'p']`.
const PROTECTED_TBS: &[u8] = b"\x85\x69Signature\x40\x44\xa1\x04\x41k\x40\x41p";

#[test]
fn a_key_that_the_protected_header_names(rt: HostRuntime) -> Result<(), Fail> {
    let alloc = rt.alloc();
    let message = verify_by(
        alloc,
        PROTECTED,
        b"k",
        b"",
        Refused::OutOfMemory,
        |s: &[u8], tbs: &[u8]| are((s, tbs), (b"s", PROTECTED_TBS)),
    );
    assert!(rt; message.is_ok());
    Ok(())
}

/// The same signature with another key in the unprotected header:
/// `[h'', {}, 'p', [[h'a104416b', {4: 'l'}, 's']]]`.
const TWO_KEYS: &[u8] = b"\x84\x40\xa0\x41p\x81\x83\x44\xa1\x04\x41k\xa1\x04\x41l\x41s";

#[test]
fn the_protected_header_names_the_key(rt: HostRuntime) -> Result<(), Fail> {
    let alloc = rt.alloc();
    let protected = verify_by(
        alloc,
        TWO_KEYS,
        b"k",
        b"",
        Refused::OutOfMemory,
        |s: &[u8], tbs: &[u8]| are((s, tbs), (b"s", PROTECTED_TBS)),
    );
    assert!(rt; protected.is_ok());
    let unprotected = verify_by(
        alloc,
        TWO_KEYS,
        b"l",
        b"",
        Refused::OutOfMemory,
        |_: &[u8], _: &[u8]| Ok(()),
    );
    assert!(rt; matches!(unprotected, Err(CallError::Caller(Refused::OutOfMemory))));
    Ok(())
}
