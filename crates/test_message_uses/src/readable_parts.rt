//! Messages with a signature or a recipient that can't be read.

use crate::answers::are;
use crate::signers::{MESSAGE, SECOND, SECOND_TBS};
use coset::CoseError;
use coset::iana::Algorithm;
use example_uses::headers::has_algorithm;
use example_uses::readable_parts::{readable_recipients, readable_signatures};
use std::test::*;

/// The place of the first signer's algorithm in the message of RFC 8152, appendix C.1.2.
const FIRST_ALGORITHM: usize = 29;

/// An algorithm that isn't registered: 20.
const UNREGISTERED: u8 = 0x14;

#[test]
fn a_signer_with_an_unregistered_algorithm(rt: HostRuntime) -> Result<(), Fail> {
    let alloc = rt.alloc();
    let mut bytes = Vec::from_slice(alloc, MESSAGE)?;
    *bytes.get_mut(FIRST_ALGORITHM).ok_or("too short")? = UNREGISTERED;
    let (mut message, signatures) = readable_signatures(alloc, &bytes).ok().ok_or("refused")?;
    let mut faults = 0u8;
    for (index, signature) in signatures.into_iter().enumerate() {
        match signature {
            Ok(signature) => message.signatures.push(signature)?,
            Err(CoseError::UnregisteredIanaNonPrivateValue) if index == 0 => faults = 1,
            Err(_) => faults = 2,
        }
    }
    assert_eq!(rt; faults, 1);
    assert_eq!(rt; message.signatures.len(), 1);
    let verified = message.verify_signature(alloc, 0, b"", |signature: &[u8], tbs: &[u8]| {
        are((signature, tbs), (SECOND, SECOND_TBS))
    });
    assert!(rt; verified.is_ok());
    Ok(())
}

/// A message to two recipients: one with the algorithm 20, and one with AES Key Wrap.
const TO_TWO: &[u8] =
    b"\x84\x43\xa1\x01\x01\xa0\x41c\x82\x83\x40\xa1\x01\x14\x41w\x83\x40\xa2\x01\x22\x04\x43kek\x41w";

#[test]
fn a_recipient_with_an_unregistered_algorithm(rt: HostRuntime) -> Result<(), Fail> {
    let alloc = rt.alloc();
    let (message, recipients) = readable_recipients(alloc, TO_TWO).ok().ok_or("refused")?;
    assert!(rt; has_algorithm(&message.protected.header, Algorithm::A128GCM));
    assert!(rt; message.ciphertext.as_deref() == Some(b"c".as_slice()));
    assert!(rt; message.recipients.is_empty());
    let [first, second] = recipients.as_slice() else {
        return Err(Fail::from("other recipients"));
    };
    assert!(rt; matches!(first, Err(CoseError::UnregisteredIanaNonPrivateValue)));
    let Ok(recipient) = second else {
        return Err(Fail::from("no recipient"));
    };
    assert!(rt; has_algorithm(&recipient.unprotected, Algorithm::A128KW));
    Ok(())
}

#[test]
fn messages_without_a_list(rt: HostRuntime) -> Result<(), Fail> {
    let alloc = rt.alloc();
    let three = readable_signatures(alloc, b"\x83\x40\xa0\xf6");
    assert!(rt; matches!(three, Err(CoseError::UnexpectedItem(_, _))));
    let no_list = readable_recipients(alloc, b"\x84\x40\xa0\xf6\x40");
    assert!(rt; matches!(no_list, Err(CoseError::UnexpectedItem(_, _))));
    let cut = readable_signatures(alloc, b"\x84\x40\xa0\xf6");
    assert!(rt; matches!(cut, Err(CoseError::DecodeFailed(_))));
    Ok(())
}
