//! Verified tokens that a line describes.

use crate::forms;
use coset::cwt::ClaimsSet;
use coset::{CoseRecipient, CoseSignature, Header, ProtectedHeader, Result};
use cwt_verify::{Form, Part, VerifiedLayer, VerifiedToken};
use std::alloc::Global;
use test_lines::spelled::read;

/// Returns the accepted part of a layer of this form, with this unprotected header.
fn part(alloc: Global, form: Form, unprotected: Header) -> Part {
    match form {
        Form::Sign1 | Form::Mac0 | Form::Encrypt0 => Part::Whole,
        Form::Sign => Part::Signature(CoseSignature {
            protected: ProtectedHeader::new(alloc),
            unprotected,
            signature: Vec::new(alloc),
        }),
        Form::Mac | Form::Encrypt => Part::Recipient(CoseRecipient {
            protected: ProtectedHeader::new(alloc),
            unprotected,
            ciphertext: None,
            recipients: Vec::new(alloc),
        }),
    }
}

/// Returns the layer that a word describes: its form, its headers if it has some, and the
/// unprotected header of its accepted part.
///
/// # Errors
/// - A fault in the word.
/// - `OutOfMemory` if an allocation fails.
fn layer<'k>(alloc: Global, word: &'k str) -> Result<VerifiedLayer<'k>> {
    let issuer: Option<&'k str> = None;
    let mut parts = word.split(':');
    let form = forms::read(parts.next().unwrap_or(""))?;
    let mut protected = Header::new(alloc);
    let mut unprotected = Header::new(alloc);
    let mut inner = Header::new(alloc);
    if let Some(map) = parts.next() {
        protected = read(alloc, map)?;
    }
    if let Some(map) = parts.next() {
        unprotected = read(alloc, map)?;
    }
    if let Some(map) = parts.next() {
        inner = read(alloc, map)?;
    }
    Ok(VerifiedLayer {
        form,
        protected: ProtectedHeader {
            original_data: None,
            header: protected,
        },
        unprotected,
        part: part(alloc, form, inner),
        issuer,
    })
}

/// Returns a token with these layers and claims.
///
/// # Errors
/// - A fault in the words.
/// - `OutOfMemory` if an allocation fails.
pub fn token<'k>(alloc: Global, layers: &'k str, claims: &[u8]) -> Result<VerifiedToken<'k>> {
    let issuer: Option<&'k str> = None;
    let known = ClaimsSet::known_from_slice(alloc, claims)?;
    let mut verified = Vec::new(alloc);
    for word in layers.split(',') {
        verified.push(layer(alloc, word)?)?;
    }
    Ok(VerifiedToken {
        claims: known.claims,
        audience: known.audience,
        others: known.others,
        issuer,
        layers: verified,
    })
}
