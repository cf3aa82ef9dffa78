//! Encrypted messages whose content key is wrapped for a recipient.

use crate::answers::made_of_two;
use coset::iana::Algorithm;
use coset::{CallError, CborSerializable, CoseEncrypt, CoseError};
use example_uses::cipher::Refused;
use example_uses::recipients::{content_key, decrypt_for, encrypt_for, wrap_for};
use std::alloc::Global;
use std::test::*;

const PLAINTEXT: &[u8] = b"This is the content.";

/// The key that RFC 3394, section 4.1, wraps, and the wrapped key.
const KEY: &[u8] = b"\x00\x11\x22\x33\x44\x55\x66\x77\x88\x99\xaa\xbb\xcc\xdd\xee\xff";

const WRAPPED: &[u8] = b"\x1f\xa6\x8b\x0a\x81\x12\xb4\x47\xae\xf3\x4b\xd8\xfb\x5a\x7b\x82\
\x9d\x3e\x86\x23\x71\xd2\xcf\xe5";

/// `["Enc_Recipient", h'', h'']`
const WRAP_AAD: &[u8] = b"\x83\x6dEnc_Recipient\x40\x40";

const IV: &[u8] = b"\x02\xd1\xf7\xe6\xf2\x6c\x43\xd4\x86\x8d\x87\xce";

/// `["Encrypt", h'a10101', h'']`
const AAD: &[u8] = b"\x83\x67Encrypt\x43\xa1\x01\x01\x40";

/// The ciphertext that another library's AES-GCM makes from the plaintext, with that key, IV and
/// additional data.
const CIPHERTEXT: &[u8] =
    b"\xfb\x20\xee\x87\x9c\x17\x5a\x01\xa0\xfe\xee\x66\xda\xb9\x66\x73\x75\x49\
\xc1\x90\x7c\x05\x3b\xd4\
\x8a\xbb\xdc\xc9\x36\x6c\xfe\x42\xf4\xb6\xe1\x3e";

/// The message: `[h'a10101', {5: iv}, ciphertext, [[h'', {1: -3, 4: 'kek'}, wrapped]]]`.
const MESSAGE: &[u8] =
    b"\x84\x43\xa1\x01\x01\xa1\x05\x4c\x02\xd1\xf7\xe6\xf2\x6c\x43\xd4\x86\x8d\x87\xce\x58\x24\
\xfb\x20\xee\x87\x9c\x17\x5a\x01\xa0\xfe\xee\x66\xda\xb9\x66\x73\x75\x49\xc1\x90\x7c\x05\x3b\xd4\
\x8a\xbb\xdc\xc9\x36\x6c\xfe\x42\xf4\xb6\xe1\x3e\x81\x83\x40\xa2\x01\x22\x04\x43kek\x58\x18\
\x1f\xa6\x8b\x0a\x81\x12\xb4\x47\xae\xf3\x4b\xd8\xfb\x5a\x7b\x82\x9d\x3e\x86\x23\x71\xd2\xcf\xe5";

#[test]
fn a_message_to_a_recipient(rt: HostRuntime) -> Result<(), Fail> {
    let alloc = rt.alloc();
    let recipient = wrap_for(
        alloc,
        Algorithm::A128KW,
        b"kek",
        KEY,
        move |key: &[u8], aad: &[u8]| made_of_two(alloc, (key, aad), (KEY, WRAP_AAD), WRAPPED),
    );
    let bytes = encrypt_for(
        alloc,
        Algorithm::A128GCM,
        IV,
        recipient.ok().ok_or("not wrapped")?,
        PLAINTEXT,
        b"",
        move |text: &[u8], aad: &[u8]| made_of_two(
            alloc,
            (text, aad),
            (PLAINTEXT, AAD),
            CIPHERTEXT,
        ),
    );
    assert_eq!(rt; bytes.ok().ok_or("not encrypted")?.as_slice(), MESSAGE);
    Ok(())
}

/// Returns the key, if the arguments are the wrapped key and its structure.
fn unwrapped(alloc: Global, wrapped: &[u8], aad: &[u8]) -> Result<Vec<u8>, Refused> {
    made_of_two(alloc, (wrapped, aad), (WRAPPED, WRAP_AAD), KEY)
}

/// Returns the plaintext, if the arguments are the key, the ciphertext and its structure.
fn decrypted(alloc: Global, key: &[u8], text: &[u8], aad: &[u8]) -> Result<Vec<u8>, Refused> {
    if key == KEY {
        made_of_two(alloc, (text, aad), (CIPHERTEXT, AAD), PLAINTEXT)
    } else {
        Err(Refused::Rejected)
    }
}

/// Returns the plaintext of this message for this key.
fn decrypt(
    alloc: Global,
    message: &[u8],
    key_id: &[u8],
    external_aad: &[u8],
) -> Result<Vec<u8>, CallError<Refused>> {
    decrypt_for(
        alloc,
        message,
        key_id,
        external_aad,
        Refused::OutOfMemory,
        move |wrapped: &[u8], aad: &[u8]| unwrapped(alloc, wrapped, aad),
        move |key: &[u8], text: &[u8], aad: &[u8]| decrypted(alloc, key, text, aad),
    )
}

/// A message whose recipient has no ciphertext, and a message without a ciphertext of its own.
const NO_KEY: &[u8] = b"\x84\x40\xa0\x41c\x81\x83\x40\xa1\x04\x43kek\xf6";

const NO_CIPHERTEXT: &[u8] = b"\x84\x40\xa0\xf6\x81\x83\x40\xa1\x04\x43kek\x41w";

#[test]
fn a_message_that_is_decrypted(rt: HostRuntime) -> Result<(), Fail> {
    let alloc = rt.alloc();
    let plaintext = decrypt(alloc, MESSAGE, b"kek", b"").ok().ok_or("refused")?;
    assert_eq!(rt; plaintext.as_slice(), PLAINTEXT);
    let other_aad = decrypt(alloc, MESSAGE, b"kek", b"\x01");
    assert!(rt; matches!(other_aad, Err(CallError::Caller(Refused::Rejected))));
    let nobodys = decrypt(alloc, MESSAGE, b"kek2", b"");
    assert!(rt; matches!(nobodys, Err(CallError::Caller(Refused::OutOfMemory))));
    let no_key = decrypt(alloc, NO_KEY, b"kek", b"");
    assert!(rt; matches!(no_key, Err(CallError::Caller(Refused::OutOfMemory))));
    let empty = decrypt(alloc, NO_CIPHERTEXT, b"kek", b"");
    assert!(rt;
        matches!(
            empty,
            Err(CallError::Coset(CoseError::UnexpectedItem(_, _)))
        )
    );
    let cut = decrypt(alloc, b"\x84", b"kek", b"");
    assert!(rt; matches!(cut, Err(CallError::Coset(CoseError::DecodeFailed(_)))));
    Ok(())
}

/// Messages to a recipient that names AES Key Wrap. Their protected headers are `{1: -3}` and
/// `{3: 0}`, and the empty map.
const ALGORITHM_PROTECTED: &[u8] = b"\x84\x40\xa0\x41c\x81\x83\x43\xa1\x01\x22\xa1\x04\x43kek\x41w";

const OTHER_PROTECTED: &[u8] =
    b"\x84\x40\xa0\x41c\x81\x83\x43\xa1\x03\x00\xa2\x01\x22\x04\x43kek\x41w";

const EMPTY_MAP: &[u8] = b"\x84\x40\xa0\x41c\x81\x83\x41\xa0\xa2\x01\x22\x04\x43kek\x41w";

/// A message to a recipient with AES-GCM, which its protected header names.
const AUTHENTICATED: &[u8] = b"\x84\x40\xa0\x41c\x81\x83\x43\xa1\x01\x01\xa1\x04\x43kek\x41w";

#[test]
fn key_wrap_with_a_protected_header(rt: HostRuntime) -> Result<(), Fail> {
    let alloc = rt.alloc();
    for message in [ALGORITHM_PROTECTED, OTHER_PROTECTED] {
        let misused = decrypt(alloc, message, b"kek", b"");
        assert!(rt; matches!(misused, Err(CallError::Caller(Refused::OutOfMemory))));
    }
    for message in [EMPTY_MAP, AUTHENTICATED] {
        let tried = decrypt(alloc, message, b"kek", b"");
        assert!(rt; matches!(tried, Err(CallError::Caller(Refused::Rejected))));
    }
    Ok(())
}

#[test]
fn a_content_key(rt: HostRuntime) -> Result<(), Fail> {
    let alloc = rt.alloc();
    let message = CoseEncrypt::from_slice(alloc, MESSAGE)
        .ok()
        .ok_or("refused")?;
    let key = content_key(
        alloc,
        &message,
        b"kek",
        Refused::OutOfMemory,
        move |wrapped: &[u8], aad: &[u8]| unwrapped(alloc, wrapped, aad),
    );
    assert_eq!(rt; key.ok().ok_or("refused")?.as_slice(), KEY);
    Ok(())
}
