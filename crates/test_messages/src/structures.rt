//! Calls without a type: those for structures that are signed, authenticated or passed with a
//! ciphertext, and those for countersignatures.

use crate::countersign;
use coset::{
    CoseError, EncryptionContext, MacContext, ProtectedHeader, Result, SignatureContext,
    enc_structure_data, mac_structure_data, sig_structure_data,
};
use std::alloc::Global;
use test_lines::words::{Words, index};
use test_lines::{header, mark, tell};

/// Makes the call of that name.
///
/// # Errors
/// A fault in the arguments, or an unknown name.
pub fn call(alloc: Global, name: &str, words: &Words<'_>) -> Result<String> {
    match name {
        "sig_structure_data" => signed(alloc, words),
        "mac_structure_data" => authenticated(alloc, words),
        "mac_structure_room" => room(alloc, words),
        "enc_structure_data" => encrypted(alloc, words),
        "verify_countersignature" => countersign::verify(alloc, words),
        "countersign_v2_structure_data" => countersign::structure(alloc, words),
        "countersign0_v2_structure_data" => countersign::abbreviated_structure(alloc, words),
        _ => Err(CoseError::UnexpectedItem("name", "name of a call")),
    }
}

/// Returns the context of a signature by its name.
fn signature_context(word: &str) -> Result<SignatureContext> {
    match word {
        "CoseSignature" => Ok(SignatureContext::CoseSignature),
        "CoseSign1" => Ok(SignatureContext::CoseSign1),
        "CounterSignature" => Ok(SignatureContext::CounterSignature),
        _ => Err(CoseError::UnexpectedItem("word", "context of a signature")),
    }
}

/// Returns the context of a MAC by its name.
fn mac_context(word: &str) -> Result<MacContext> {
    match word {
        "CoseMac" => Ok(MacContext::CoseMac),
        "CoseMac0" => Ok(MacContext::CoseMac0),
        _ => Err(CoseError::UnexpectedItem("word", "context of a MAC")),
    }
}

/// Returns the context of a ciphertext by its name.
fn encryption_context(word: &str) -> Result<EncryptionContext> {
    match word {
        "CoseEncrypt" => Ok(EncryptionContext::CoseEncrypt),
        "CoseEncrypt0" => Ok(EncryptionContext::CoseEncrypt0),
        "EncRecipient" => Ok(EncryptionContext::EncRecipient),
        "MacRecipient" => Ok(EncryptionContext::MacRecipient),
        "RecRecipient" => Ok(EncryptionContext::RecRecipient),
        _ => Err(CoseError::UnexpectedItem("word", "context of a ciphertext")),
    }
}

/// Returns the signer's protected header, unless the word is `none`.
fn signer(alloc: Global, words: &Words<'_>) -> Result<Option<ProtectedHeader>> {
    if words.word(3) == "none" {
        return Ok(None);
    }
    Ok(Some(header::read(alloc, words, 3, 7)?))
}

/// Makes a `Sig_structure`.
///
/// Arguments: the context; the body's protected header; the signer's, or `none`; `external_aad`;
/// the payload; the changes of the two headers.
fn signed(alloc: Global, words: &Words<'_>) -> Result<String> {
    let context = signature_context(words.word(1))?;
    let body = header::read(alloc, words, 2, 6)?;
    let signer = signer(alloc, words)?;
    let external_aad = words.bytes(alloc, 4)?;
    let payload = words.bytes(alloc, 5)?;
    mark::begin(alloc);
    let answer = sig_structure_data(alloc, context, body, signer, &external_aad, &payload);
    mark::end(alloc);
    tell::bytes(alloc, answer)
}

/// Makes a `MAC_structure`. Arguments: the context, the protected header, `external_aad`, the
/// payload, the header's change.
fn authenticated(alloc: Global, words: &Words<'_>) -> Result<String> {
    let context = mac_context(words.word(1))?;
    let protected = header::read(alloc, words, 2, 5)?;
    let external_aad = words.bytes(alloc, 3)?;
    let payload = words.bytes(alloc, 4)?;
    mark::begin(alloc);
    let answer = mac_structure_data(alloc, context, protected, &external_aad, &payload);
    mark::end(alloc);
    tell::bytes(alloc, answer)
}

/// Makes a `MAC_structure` over zeros, and prints its length, its capacity, and the bytes before
/// the payload.
///
/// Arguments: the context, the protected header, the number of zeros, and the header's change.
fn room(alloc: Global, words: &Words<'_>) -> Result<String> {
    let context = mac_context(words.word(1))?;
    let protected = header::read(alloc, words, 2, 4)?;
    let payload = vec![in alloc; 0; index(words.word(3))?]?;
    mark::begin(alloc);
    let answer = mac_structure_data(alloc, context, protected, b"", &payload);
    mark::end(alloc);
    match answer {
        Ok(bytes) => {
            let front = bytes.len().saturating_sub(payload.len());
            let spelled = tell::hexadecimal(alloc, bytes.get(..front).unwrap_or(&[]))?;
            let (length, room) = (bytes.len(), bytes.capacity());
            Ok(format!(in alloc; "ok {length} of {room} {spelled}")?)
        }
        Err(error) => tell::refused(alloc, error),
    }
}

/// Makes an `Enc_structure`. Arguments: the context, the protected header, `external_aad`, the
/// header's change.
fn encrypted(alloc: Global, words: &Words<'_>) -> Result<String> {
    let context = encryption_context(words.word(1))?;
    let protected = header::read(alloc, words, 2, 4)?;
    let external_aad = words.bytes(alloc, 3)?;
    mark::begin(alloc);
    let answer = enc_structure_data(alloc, context, protected, &external_aad);
    mark::end(alloc);
    tell::bytes(alloc, answer)
}
