//! Signs a message, writes it, reads it again and verifies it. Then it changes a header that the
//! signature doesn't cover, and one that it covers.
//!
//! This is a port of the Rust crate's example `signature` (docs/MIGRATING.md). The key protects
//! nothing.
#![tactic(auto)]

use anyhow::{Result, ensure};
use coset::{
    CallError, CborSerializable, ContentType, CoseSign1, CoseSign1Builder, HeaderBuilder, iana,
};
use std::alloc::{AllocError, Global};

/// The payload of the message.
const CONTENT: &[u8] = b"This is the content";

/// Data that is signed and not in the message.
const AAD: &[u8] = b"this is additional data";

/// Why a signature isn't accepted.
#[derive(Debug, Drop)]
enum NotVerified {
    /// It is a signature of other bytes.
    OtherBytes,
    /// An allocation failed.
    OutOfMemory,
}

impl From<AllocError> for NotVerified {
    fn from(_error: AllocError) -> NotVerified {
        NotVerified::OutOfMemory
    }
}

/// A key whose signature is a copy of the signed bytes.
#[derive(Drop)]
struct FakeKey {}

impl FakeKey {
    /// Returns a signature of the bytes.
    fn sign(&self, alloc: Global, tbs: &[u8]) -> Result<Vec<u8>, AllocError> {
        Vec::from_slice(alloc, tbs)
    }

    /// Checks that `signature` is a signature of the bytes.
    fn verify(&self, alloc: Global, signature: &[u8], tbs: &[u8]) -> Result<(), NotVerified> {
        if signature != self.sign(alloc, tbs)?.as_slice() {
            return Err(NotVerified::OtherBytes);
        }
        Ok(())
    }
}

/// Returns the encoding of the signed message.
fn signed(alloc: Global, signer: &FakeKey) -> Result<Vec<u8>, CallError<AllocError>> {
    let protected = HeaderBuilder::new(alloc)
        .algorithm(iana::Algorithm::ES256)
        .key_id_from(alloc, b"11")?
        .build();
    let sign1 = CoseSign1Builder::new(alloc)
        .protected(protected)
        .payload_from(alloc, CONTENT)?
        .try_create_signature(alloc, AAD, move |tbs| signer.sign(alloc, tbs))?
        .build();
    Ok(sign1.to_vec(alloc)?)
}

/// Verifies the message's signature with this additional data.
fn verified(
    alloc: Global,
    verifier: &FakeKey,
    sign1: &CoseSign1,
    aad: &[u8],
) -> Result<(), CallError<NotVerified>> {
    sign1.verify_signature(
        alloc,
        aad,
        move |signature, tbs| verifier.verify(alloc, signature, tbs),
    )
}

/// Returns the content type of a plain text.
fn plain_text(alloc: Global) -> Result<ContentType, AllocError> {
    Ok(ContentType::Text(String::from_str(alloc, "text/plain")?))
}

fn main(rt: HostRuntime) -> Result<()> {
    let alloc = rt.alloc();
    let key = FakeKey {};

    let sign1_data = signed(alloc, &key)?;
    println!(rt;
        "'{}' + '{}' => {}",
        String::from_utf8_lossy(alloc, CONTENT)?,
        String::from_utf8_lossy(alloc, AAD)?,
        hex::encode(alloc, &sign1_data)?
    )?;

    // The receiving end.
    let mut sign1 = CoseSign1::from_slice(alloc, &sign1_data)?;
    let result = verified(alloc, &key, &sign1, AAD);
    println!(rt; "Signature verified: {result:?}.")?;
    ensure!(result.is_ok());

    // The signature doesn't cover unprotected headers.
    sign1.unprotected.content_type = Some(plain_text(alloc)?);
    ensure!(verified(alloc, &key, &sign1, AAD).is_ok());

    // It covers the additional data.
    ensure!(verified(alloc, &key, &sign1, b"not aad").is_err());

    // It covers protected headers. Without the kept bytes, the changed header is encoded.
    sign1.protected.header.content_type = Some(plain_text(alloc)?);
    sign1.protected.original_data = None;
    ensure!(verified(alloc, &key, &sign1, AAD).is_err());
    Ok(())
}
