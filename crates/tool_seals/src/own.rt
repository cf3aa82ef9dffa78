//! A message's own signatures, its MAC or its ciphertext, each with the bytes that it covers (RFC
//! 8152, sections 4.4 and 6.3).

ghost use Rattle.std.specs.Prelude.{◌≡◌, IfOk, IfSome, [], ◌∷◌, map, option_map};
ghost use Rattle.std.specs.List.{All};
ghost use Rattle.coset.specs.Mac.{mac_structure_of, mac_view};
ghost use Rattle.coset.specs.Mac0.{mac0_structure, mac0_view};
ghost use Rattle.coset.specs.RecipientViews.{recipient_view};
ghost use Rattle.coset.specs.Sign.{sign_view, signer_structure};
ghost use Rattle.coset.specs.Sign1.{sign1_structure, sign1_view};
ghost use Rattle.coset.specs.Views.{header_view, signature_view};
ghost use Rattle.tool_seals.specs.Seals.{Covers, IsPart, IsSignatureOf, IsTagOf, only_header};
ghost use Rattle.tool_seals.specs.declared.message.Message.TheVariants as messages;
ghost use Rattle.tool_seals.specs.declared.seal.Part.TheVariants as part;

use crate::message::Message;
use crate::remarks::Remarks;
use crate::seal::{Part, Seal};
use crate::seals::{Asked, MOST};
use coset::{
    CoseMac, CoseMac0, CoseRecipient, CoseSign, CoseSign1, CoseSignature, Header, ProtectedHeader,
    Result,
};
use cwt_keys::Form;

/// Returns the bytes that the signature covers, unless the payload is detached.
fn signed_bytes(asked: &Asked<'_>, message: &CoseSign1) -> Result<Option<Vec<u8>>>
    ensures { IfOk result (λ o. Covers (sign1_view message.now).payload
        (sign1_structure (sign1_view message.now) asked.now.external_aad.now)
        (option_map (λ b. b.items) o)) }
{
    match &message.payload {
        Some(_) => Ok(Some(message.tbs_data(asked.alloc, asked.external_aad)?)),
        None => Ok(None),
    }
}

/// Returns the signature of a message with one signature.
fn of_sign1(asked: &Asked<'_>, message: &CoseSign1) -> Result<Seal>
    ensures { IfOk result (λ s. (s.part ≡ part.Signature) × (s.layer ≡ asked.now.layer)
        × IsSignatureOf (messages.Sign1 message.now) asked.now.external_aad.now s) }
{
    Ok(Seal {
        layer: asked.layer,
        part: Part::Signature,
        form: Form::Sign1,
        protected: message.protected.clone()?,
        unprotected: message.unprotected.clone()?,
        recipient: None,
        proof: Vec::from_slice(asked.alloc, &message.signature)?,
        structure: signed_bytes(asked, message)?,
        outside: Remarks::none(),
    })
}

/// Returns the MAC of a message without recipients.
fn of_mac0(asked: &Asked<'_>, message: &CoseMac0) -> Result<Seal>
    ensures { IfOk result (λ s. (s.part ≡ part.Tag) × (s.layer ≡ asked.now.layer)
        × IsTagOf (messages.Mac0 message.now) asked.now.external_aad.now s) }
{
    Ok(Seal {
        layer: asked.layer,
        part: Part::Tag,
        form: Form::Mac0,
        protected: message.protected.clone()?,
        unprotected: message.unprotected.clone()?,
        recipient: None,
        proof: Vec::from_slice(asked.alloc, &message.tag)?,
        structure: message.tbm(asked.alloc, asked.external_aad)?,
        outside: Remarks::none(),
    })
}

/// Returns the unprotected header of the recipient, if there is exactly one.
fn only_header(recipients: &[CoseRecipient]) -> Result<Option<Header>>
    ensures { IfOk result (λ o. option_map header_view o
        ≡ only_header (map recipient_view recipients.now)) }
{
    match recipients {
        [recipient] => Ok(Some(recipient.unprotected.clone()?)),
        _ => Ok(None),
    }
}

/// Returns the MAC of a message with recipients.
fn of_mac(asked: &Asked<'_>, message: &CoseMac) -> Result<Seal>
    ensures { IfOk result (λ s. (s.part ≡ part.Tag) × (s.layer ≡ asked.now.layer)
        × IsTagOf (messages.Mac message.now) asked.now.external_aad.now s) }
{
    Ok(Seal {
        layer: asked.layer,
        part: Part::Tag,
        form: Form::Mac,
        protected: message.protected.clone()?,
        unprotected: message.unprotected.clone()?,
        recipient: only_header(&message.recipients)?,
        proof: Vec::from_slice(asked.alloc, &message.tag)?,
        structure: message.tbm(asked.alloc, asked.external_aad)?,
        outside: Remarks::of_recipients(&message.recipients),
    })
}

/// Returns the bytes that this signature of the message covers, unless the payload is detached.
fn signer_bytes(
    asked: &Asked<'_>,
    message: &CoseSign,
    signed: &CoseSignature,
) -> Result<Option<Vec<u8>>>
    ensures { IfOk result (λ o. Covers (sign_view message.now).payload
        (signer_structure (sign_view message.now) (signature_view signed.now)
        asked.now.external_aad.now) (option_map (λ b. b.items) o)) }
{
    match &message.payload {
        Some(_) => {
            let structure = message.tbs_data(asked.alloc, asked.external_aad, signed)?;
            Ok(Some(structure))
        }
        None => Ok(None),
    }
}

/// Returns the signature at this index of a message with a list of signatures, or `None` if it has
/// none there.
fn of_signer(asked: &Asked<'_>, message: &CoseSign, index: usize) -> Result<Option<Seal>>
    ensures { IfOk result (λ o. IfSome o (IsPart asked.now.layer (messages.Sign message.now)
        asked.now.external_aad.now)) }
{
    let Some(signed) = message.signatures.get(index) else {
        return Ok(None);
    };
    Ok(Some(Seal {
        layer: asked.layer,
        part: Part::Signer(index),
        form: Form::Sign,
        protected: signed.protected.clone()?,
        unprotected: signed.unprotected.clone()?,
        recipient: None,
        proof: Vec::from_slice(asked.alloc, &signed.signature)?,
        structure: signer_bytes(asked, message, signed)?,
        outside: Remarks::of(asked.alloc, &message.protected.header, &message.unprotected)?,
    }))
}

/// Returns the signatures of a message with a list of them, or the first `MOST` + 1.
fn signers(asked: &Asked<'_>, message: &CoseSign) -> Result<Vec<Seal>>
    ensures { IfOk result (λ l. All (IsPart asked.now.layer (messages.Sign message.now)
        asked.now.external_aad.now) l.items) }
{
    let mut list = Vec::new(asked.alloc);
    for index in 0..=MOST {
        match of_signer(asked, message, index)? {
            Some(seal) => list.push(seal)?,
            None => break,
        }
    }
    Ok(list)
}

/// Returns the ciphertext of an encrypted message.
fn ciphertext(
    asked: &Asked<'_>,
    form: Form,
    protected: &ProtectedHeader,
    unprotected: &Header,
) -> Result<Seal>
    ensures { IfOk result (λ s. (s.part ≡ part.Ciphertext) × (s.layer ≡ asked.now.layer)) }
{
    Ok(Seal {
        layer: asked.layer,
        part: Part::Ciphertext,
        form,
        protected: protected.clone()?,
        unprotected: unprotected.clone()?,
        recipient: None,
        proof: Vec::new(asked.alloc),
        structure: None,
        outside: Remarks::none(),
    })
}

/// Returns the list of this seal.
fn alone(asked: &Asked<'_>, seal: Seal) -> Result<Vec<Seal>>
    ensures { IfOk result (λ l. l.items ≡ seal ∷ []) }
{
    Ok(Vec::from_array(asked.alloc, [seal])?)
}

/// Returns the message's signatures, its MAC or its ciphertext. Of a list, they are the first 17 at
/// most.
///
/// # Errors
/// `OutOfMemory` if an allocation fails.
pub(crate) fn own_seals(asked: &Asked<'_>, message: &Message) -> Result<Vec<Seal>>
    ensures { IfOk result (λ l. All (IsPart asked.now.layer message.now
        asked.now.external_aad.now) l.items) }
{
    match message {
        Message::Sign1(message) => alone(asked, of_sign1(asked, message)?),
        Message::Mac0(message) => alone(asked, of_mac0(asked, message)?),
        Message::Mac(message) => alone(asked, of_mac(asked, message)?),
        Message::Sign(message) => signers(asked, message),
        Message::Encrypt0(message) => {
            let (protected, unprotected) = (&message.protected, &message.unprotected);
            alone(
                asked,
                ciphertext(asked, Form::Encrypt0, protected, unprotected)?,
            )
        }
        Message::Encrypt(message) => {
            let (protected, unprotected) = (&message.protected, &message.unprotected);
            alone(
                asked,
                ciphertext(asked, Form::Encrypt, protected, unprotected)?,
            )
        }
    }
}
