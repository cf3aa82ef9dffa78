//! Headers, and sequences of items.

use coset::cbor::value::Value;
use coset::iana::HeaderParameter;
use coset::{CborSerializable, Header, ProtectedHeader, RegisteredLabelWithPrivate};
use example_uses::headers::{is_understood, signer_certificate};
use example_uses::sequences::{and_value, uncounted_lengths, values_in};
use std::alloc::Global;
use std::test::*;

/// Reads the header from these bytes.
fn header(alloc: Global, bytes: &[u8]) -> Result<Header, Fail> {
    Ok(Header::from_slice(alloc, bytes).ok().ok_or("refused")?)
}

/// Reads the protected header from the bytes of its map.
fn protected(alloc: Global, bytes: &[u8]) -> Result<ProtectedHeader, Fail> {
    Ok(ProtectedHeader {
        original_data: None,
        header: header(alloc, bytes)?,
    })
}

#[test]
fn labels_that_are_understood(rt: HostRuntime) -> Result<(), Fail> {
    let alloc = rt.alloc();
    let known = [
        RegisteredLabelWithPrivate::Assigned(HeaderParameter::X5Chain),
        RegisteredLabelWithPrivate::PrivateUse(-65537),
        RegisteredLabelWithPrivate::Text(String::from_str(alloc, "a")?),
    ];
    let none = header(alloc, b"\xa0")?;
    let understood: [&[u8]; 5] = [
        b"\xa1\x03\x00",
        b"\xa2\x02\x81\x18\x21\x18\x21\x41a",
        b"\xa2\x02\x82\x18\x21\x18\x21\x18\x21\x41a",
        b"\xa2\x02\x81\x3a\x00\x01\x00\x00\x3a\x00\x01\x00\x00\xf6",
        b"\xa2\x02\x81\x61a\x61a\x01",
    ];
    for bytes in understood {
        let critical = protected(alloc, bytes)?;
        assert!(rt; is_understood(&critical, &none, &known));
    }
    let refused: [&[u8]; 5] = [
        b"\xa1\x02\x81\x18\x21",
        b"\xa2\x02\x81\x18\x22\x18\x22\x41a",
        b"\xa2\x02\x82\x18\x21\x61a\x18\x21\x41a",
        b"\xa2\x02\x81\x61a\x61b\x01",
        b"\xa2\x02\x81\x03\x03\x00",
    ];
    for bytes in refused {
        let critical = protected(alloc, bytes)?;
        assert!(rt; !is_understood(&critical, &none, &known));
    }
    let listed = protected(alloc, b"\xa2\x02\x81\x18\x21\x18\x21\x41a")?;
    assert!(rt; !is_understood(&listed, &none, &[]));
    assert!(rt; !is_understood(&protected(alloc, b"\xa0")?, &listed.header, &known));
    Ok(())
}

#[test]
fn certificates_of_signers(rt: HostRuntime) -> Result<(), Fail> {
    let alloc = rt.alloc();
    let one = header(alloc, b"\xa2\x01\x26\x18\x21\x41a")?;
    assert!(rt; signer_certificate(&one) == Some(b"a".as_slice()));
    let chain = header(alloc, b"\xa1\x18\x21\x82\x41b\x41c")?;
    assert!(rt; signer_certificate(&chain) == Some(b"b".as_slice()));
    assert!(rt; signer_certificate(&header(alloc, b"\xa0")?).is_none());
    assert!(rt; signer_certificate(&header(alloc, b"\xa1\x18\x21\x01")?).is_none());
    Ok(())
}

#[test]
fn items_one_after_the_other(rt: HostRuntime) -> Result<(), Fail> {
    let alloc = rt.alloc();
    let sequence = and_value(Vec::new(alloc), &Value::from(500u16))
        .ok()
        .ok_or("memory")?;
    let sequence = and_value(sequence, &Value::Null).ok().ok_or("memory")?;
    assert_eq!(rt; sequence.as_slice(), b"\x19\x01\xf4\xf6".as_slice());
    let values = values_in(alloc, &sequence).ok().ok_or("refused")?;
    assert!(rt; values.len() == 2);
    assert!(rt; values.first() == Some(&Value::from(500u16)));
    assert!(rt; values.last() == Some(&Value::Null));
    assert!(rt; values_in(alloc, b"\xf6\x19\x01").is_err());
    assert!(rt; matches!(uncounted_lengths(b"\xf6\x00", b"\x81\x05"), Ok((1, 2))));
    assert!(rt; uncounted_lengths(b"\xf6", b"\x82\x05").is_err());
    Ok(())
}
