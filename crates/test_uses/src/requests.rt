//! Requests that OSCORE protects.

use coset::iana::Algorithm;
use coset::{CallError, CborSerializable, CoseEncrypt0Builder};
use example_uses::cipher::Refused;
use example_uses::oscore::{decrypted, external_aad};
use example_uses::stand_in::StandInKey;
use std::test::*;

/// The `external_aad` of two requests with Partial IV 20. The first requester has no identifier,
/// the second has identifier 0 (RFC 8613, appendices C.4 and C.5).
const EXTERNAL_AADS: [(&[u8], &[u8]); 2] = [
    (b"", b"\x85\x01\x81\x0a\x40\x41\x14\x40"),
    (b"\x00", b"\x85\x01\x81\x0a\x41\x00\x41\x14\x40"),
];

#[test]
fn additional_data_of_requests(rt: HostRuntime) -> Result<(), Fail> {
    let alloc = rt.alloc();
    for (kid, expected) in EXTERNAL_AADS {
        let bytes = external_aad(alloc, Algorithm::AES_CCM_16_64_128, kid, b"\x14")
            .ok()
            .ok_or("memory")?;
        assert_eq!(rt; bytes.as_slice(), expected);
    }
    Ok(())
}

/// The structure of the first request's ciphertext: `["Encrypt0", h'', external_aad]` (RFC 8613,
/// appendix C.4).
const AAD: &[u8] = b"\x83\x68Encrypt0\x40\x48\x85\x01\x81\x0a\x40\x41\x14\x40";

#[test]
fn a_request_that_is_decrypted(rt: HostRuntime) -> Result<(), Fail> {
    let alloc = rt.alloc();
    let mut ciphertext = Vec::from_slice(alloc, AAD)?;
    ciphertext.extend_from_slice(b"GET")?;
    let message = CoseEncrypt0Builder::new(alloc)
        .ciphertext(ciphertext)
        .build()
        .to_vec(alloc)
        .ok()
        .ok_or("memory")?;
    let plaintext = decrypted(alloc, &StandInKey, &message, EXTERNAL_AADS[0].1);
    assert_eq!(rt;
        plaintext.ok().ok_or("refused")?.as_slice(),
        b"GET".as_slice()
    );
    let other_aad = decrypted(alloc, &StandInKey, &message, EXTERNAL_AADS[1].1);
    assert!(rt; matches!(other_aad, Err(CallError::Caller(Refused::Rejected))));
    Ok(())
}
