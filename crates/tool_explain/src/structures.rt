//! The structures that signatures and MACs cover, and those that go with ciphertexts (RFC 8152,
//! sections 4.4, 5.3 and 6.3).

ghost use Rattle.std.specs.Prelude.{IfOk, IfSome, option_and_then};
ghost use Rattle.std.specs.List.{slice_get};
ghost use Rattle.coset.specs.Encrypt.{encrypt, encrypt_structure_of};
ghost use Rattle.coset.specs.Encrypt0.{encrypt0, encrypt0_structure};
ghost use Rattle.coset.specs.Mac.{mac, mac_structure_of};
ghost use Rattle.coset.specs.Mac0.{mac0, mac0_structure};
ghost use Rattle.coset.specs.PerhapsTagged.{perhaps_tagged};
ghost use Rattle.coset.specs.Sign.{sign, signer_structure};
ghost use Rattle.coset.specs.Sign1.{sign1, sign1_structure};
ghost use Rattle.tool_explain.specs.Structure.{IsOver, IsStructure, IsStructureOfNamed, over_payload};

use crate::kind::Kind;
use crate::print::push_comment_line;
use coset::{
    CoseEncrypt, CoseEncrypt0, CoseError, CoseMac, CoseMac0, CoseSign, CoseSign1,
    TaggedCborSerializable,
};
use std::alloc::{AllocError, Global};

/// Returns the `Sig_structure` of a message with one signature, unless the payload is detached.
fn of_sign1(alloc: Global, bytes: &[u8], external_aad: &[u8]) -> Result<Option<Vec<u8>>, CoseError>
    ensures { IfOk result (λ o. IfSome o (λ b. IsOver (perhaps_tagged 18 sign1)
        (λ m. over_payload (sign1_structure m external_aad.now) m.payload) bytes.now b.items)) }
{
    let message = CoseSign1::from_any_slice(alloc, bytes)?;
    let signed = message.tbs_data(alloc, external_aad)?;
    match &message.payload {
        Some(_) => Ok(Some(signed)),
        None => Ok(None),
    }
}

/// Returns the `Sig_structure` of the signature at this index, unless the payload is detached.
fn of_sign(
    alloc: Global,
    bytes: &[u8],
    external_aad: &[u8],
    index: usize,
) -> Result<Option<Vec<u8>>, CoseError>
    ensures { IfOk result (λ o. IfSome o (λ b. IsOver (perhaps_tagged 98 sign)
        (λ m. option_and_then (λ s. over_payload (signer_structure m s external_aad.now) m.payload)
        (slice_get m.signatures index)) bytes.now b.items)) }
{
    let message = CoseSign::from_any_slice(alloc, bytes)?;
    let Some(signature) = message.signatures.get(index) else {
        return Ok(None);
    };
    let signed = message.tbs_data(alloc, external_aad, signature)?;
    match &message.payload {
        Some(_) => Ok(Some(signed)),
        None => Ok(None),
    }
}

/// Returns the `MAC_structure` of a message with a MAC and recipients, unless the payload is
/// detached.
fn of_mac(alloc: Global, bytes: &[u8], external_aad: &[u8]) -> Result<Option<Vec<u8>>, CoseError>
    ensures { IfOk result (λ o. IfSome o (λ b. IsOver (perhaps_tagged 97 mac)
        (λ m. over_payload (mac_structure_of m external_aad.now) m.payload) bytes.now b.items)) }
{
    let message = CoseMac::from_any_slice(alloc, bytes)?;
    message.tbm(alloc, external_aad)
}

/// Returns the `MAC_structure` of a message with a MAC, unless the payload is detached.
fn of_mac0(alloc: Global, bytes: &[u8], external_aad: &[u8]) -> Result<Option<Vec<u8>>, CoseError>
    ensures { IfOk result (λ o. IfSome o (λ b. IsOver (perhaps_tagged 17 mac0)
        (λ m. over_payload (mac0_structure m external_aad.now) m.payload) bytes.now b.items)) }
{
    let message = CoseMac0::from_any_slice(alloc, bytes)?;
    message.tbm(alloc, external_aad)
}

/// Returns the `Enc_structure` of an encrypted message with recipients.
fn of_encrypt(alloc: Global, bytes: &[u8], external_aad: &[u8]) -> Result<Vec<u8>, CoseError>
    ensures { IfOk result (λ b. IsOver (perhaps_tagged 96 encrypt)
        (λ m. encrypt_structure_of m external_aad.now) bytes.now b.items) }
{
    let message = CoseEncrypt::from_any_slice(alloc, bytes)?;
    message.aad(alloc, external_aad)
}

/// Returns the `Enc_structure` of an encrypted message.
fn of_encrypt0(alloc: Global, bytes: &[u8], external_aad: &[u8]) -> Result<Vec<u8>, CoseError>
    ensures { IfOk result (λ b. IsOver (perhaps_tagged 16 encrypt0)
        (λ m. encrypt0_structure m external_aad.now) bytes.now b.items) }
{
    let message = CoseEncrypt0::from_any_slice(alloc, bytes)?;
    message.aad(alloc, external_aad)
}

/// Returns the structure for a kind by name, without a look at the tag.
fn of_named(
    alloc: Global,
    kind: Kind,
    bytes: &[u8],
    external_aad: &[u8],
    index: usize,
) -> Result<Option<Vec<u8>>, CoseError>
    ensures { IfOk result (λ o. IfSome o (λ b.
        IsStructureOfNamed kind external_aad.now index bytes.now b.items)) }
{
    match kind {
        Kind::Sign1 => of_sign1(alloc, bytes, external_aad),
        Kind::Sign => of_sign(alloc, bytes, external_aad, index),
        Kind::Mac => of_mac(alloc, bytes, external_aad),
        Kind::Mac0 => of_mac0(alloc, bytes, external_aad),
        Kind::Encrypt => Ok(Some(of_encrypt(alloc, bytes, external_aad)?)),
        Kind::Encrypt0 => Ok(Some(of_encrypt0(alloc, bytes, external_aad)?)),
        _ => Ok(None),
    }
}

/// Returns the structure that a message's signature or MAC covers, or that goes with its
/// ciphertext.
///
/// It is the shortest encoding of the `Sig_structure`, `MAC_structure` or `Enc_structure` (RFC
/// 8152, sections 4.4, 5.3 and 6.3). It has this `external_aad`, and the protected headers as they
/// were received. In a message with several signatures, `index` chooses the signature, counted from
/// 0. Other kinds ignore `index`.
///
/// Returns `None` in these cases:
///
/// - The bytes aren't a message of the kind.
/// - The payload is detached.
/// - The message has no signature at `index`.
///
/// # Errors
/// `AllocError` if an allocation fails.
pub fn structure(
    alloc: Global,
    kind: Kind,
    bytes: &[u8],
    external_aad: &[u8],
    index: usize,
) -> Result<Option<Vec<u8>>, AllocError>
    ensures { IfOk result (λ o. IfSome o (λ b.
        IsStructure kind external_aad.now index bytes.now b.items)) }
{
    let (kind, bytes) = kind.named(bytes);
    match of_named(alloc, kind, bytes, external_aad, index) {
        Ok(found) => Ok(found),
        Err(CoseError::OutOfMemory) => Err(AllocError),
        Err(_) => Ok(None),
    }
}

/// The most signatures whose structures are shown.
const SHOWN: usize = 4;

/// Returns the name of the structure of a message of this kind. It is empty for another kind.
fn title(kind: Kind) -> &'static str {
    match kind {
        Kind::Sign1 | Kind::Sign => "ToBeSigned",
        Kind::Mac | Kind::Mac0 => "ToBeMaced",
        Kind::Encrypt | Kind::Encrypt0 => "AAD",
        _ => "",
    }
}

/// Returns the text about the structure at this index: its title and its bytes.
fn note(
    alloc: Global,
    kind: Kind,
    external_aad: &[u8],
    index: usize,
    structure: &[u8],
) -> Result<String, AllocError> {
    let mut note = String::from_str(alloc, title(kind))?;
    if kind == Kind::Sign {
        write!(note, " of signature {index}")?;
    }
    if external_aad.is_empty() {
        note.push_str(", with empty external_aad: ")?;
    } else {
        let digits = hex::encode(alloc, external_aad)?;
        write!(note, ", with external_aad h'{digits}': ")?;
    }
    note.push_str(hex::encode(alloc, structure)?.as_str())?;
    Ok(note)
}

/// Returns the message's structures as text, one for each of at most four signatures. The list is
/// empty if [`structure`] returns `None`.
///
/// # Errors
/// `AllocError` if an allocation fails.
pub fn structure_notes(
    alloc: Global,
    kind: Kind,
    bytes: &[u8],
    external_aad: &[u8],
) -> Result<Vec<String>, AllocError> {
    let mut notes = Vec::new(alloc);
    let (named, bytes) = kind.named(bytes);
    let count = if named == Kind::Sign { SHOWN } else { 1 };
    for index in 0..count {
        match structure(alloc, named, bytes, external_aad, index)? {
            Some(structure) => notes.push(note(alloc, named, external_aad, index, &structure)?)?,
            None => return Ok(notes),
        }
    }
    Ok(notes)
}

/// Returns the texts of [`structure_notes`] as comments, to be shown under the lines.
///
/// # Errors
/// `AllocError` if an allocation fails.
pub fn commented(alloc: Global, notes: &[String]) -> Result<String, AllocError> {
    let mut text = String::new(alloc);
    for note in notes {
        push_comment_line(&mut text, note.as_str())?;
    }
    Ok(text)
}
