//! Claims that are read although others aren't understood.

use coset::CoseError;
use example_uses::readable::claims_kept;
use std::test::*;

/// The claims of RFC 8392, appendix A.1. They also have a claim 500 with two elements, a claim with
/// the text name `a`, and a claim -300.
const CLAIMS: &[u8] = b"\xaa\x01\x75coap://as.example.com\x19\x01\xf4\x82\x01\x02\x02\x65erikw\
\x03\x78\x18coap://light.example.com\x04\x1a\x56\x12\xae\xb0\x61a\x01\x05\x1a\x56\x10\xd9\xf0\
\x06\x1a\x56\x10\xd9\xf0\x39\x01\x2b\xf6\x07\x42\x0b\x71";

#[test]
fn claims_that_are_kept(rt: HostRuntime) -> Result<(), Fail> {
    let alloc = rt.alloc();
    let kept = claims_kept(alloc, CLAIMS).ok().ok_or("refused")?;
    assert!(rt; kept.issuer.as_deref() == Some("coap://as.example.com"));
    assert!(rt; kept.subject.as_deref() == Some("erikw"));
    assert!(rt; kept.cwt_id.as_deref() == Some(b"\x0b\x71".as_slice()));
    assert!(rt; kept.rest.len() == 1);
    Ok(())
}

#[test]
fn claims_that_are_refused(rt: HostRuntime) -> Result<(), Fail> {
    let alloc = rt.alloc();
    let twice = claims_kept(alloc, b"\xa2\x19\x01\xf4\x01\x19\x01\xf4\x02");
    assert!(rt; matches!(twice, Err(CoseError::DuplicateMapKey)));
    let twice = claims_kept(alloc, b"\xa2\x01\x61a\x01\x61a");
    assert!(rt; matches!(twice, Err(CoseError::DuplicateMapKey)));
    let no_label = claims_kept(alloc, b"\xa1\x40\x01");
    assert!(rt; matches!(no_label, Err(CoseError::UnexpectedItem(_, _))));
    let wide = claims_kept(alloc, b"\xa1\x1b\xff\xff\xff\xff\xff\xff\xff\xff\x01");
    assert!(rt; matches!(wide, Err(CoseError::OutOfRangeIntegerValue)));
    let no_issuer = claims_kept(alloc, b"\xa2\x19\x01\xf4\x01\x01\x01");
    assert!(rt; matches!(no_issuer, Err(CoseError::UnexpectedItem(_, _))));
    let no_map = claims_kept(alloc, b"\x80");
    assert!(rt; matches!(no_map, Err(CoseError::UnexpectedItem(_, _))));
    let more = claims_kept(alloc, b"\xa0\x00");
    assert!(rt; matches!(more, Err(CoseError::ExtraneousData)));
    Ok(())
}
