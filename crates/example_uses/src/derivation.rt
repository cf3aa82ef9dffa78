//! The context of a key derivation, which both sides make (RFC 8152, section 11.2).

ghost use Rattle.std.specs.Prelude.{◌≡◌, option_map};
ghost use Rattle.coset_value.specs.View.{value_item};
ghost use Rattle.coset_iana.specs.Algorithm as algorithms;
ghost use Rattle.coset_iana.specs.HeaderAlgorithmParameter as parameters;
ghost use Rattle.coset_codec.specs.Results.{Reads, Writes};
ghost use Rattle.coset_label.specs.LabelData.{assigned};
ghost use Rattle.coset_claims.specs.Context.{context};
ghost use Rattle.coset_claims.specs.Party.{nonce, nonce_view, party_view};
ghost use Rattle.coset_recipient.specs.RecipientViews.{recipient_view};
ghost use Rattle.example_uses.specs.Derivation.{Derives, MakesPartyU, derivation, parameter_of};

use coset::cbor::value::Value;
use coset::iana::{Algorithm, EnumI64, HeaderAlgorithmParameter};
use coset::{
    CborSerializable, CoseError, CoseKdfContextBuilder, CoseRecipient, Label, Nonce, PartyInfo,
    PartyInfoBuilder, Result, SuppPubInfo,
};
use std::alloc::Global;

/// Returns the value of a parameter for the recipient's algorithm, such as the salt for HKDF.
///
/// The unprotected header counts only if the protected header doesn't have the parameter (RFC 8152,
/// section 3).
pub fn parameter_of(
    recipient: &CoseRecipient,
    parameter: HeaderAlgorithmParameter,
) -> Option<&Value>
    ensures { option_map (λ v. value_item v.now) result
        ≡ parameter_of (parameters.number parameter) (recipient_view recipient.now) }
{
    let label = Label::Int(parameter.to_i64());
    match recipient.protected.header.get(&label) {
        Some(value) => Some(value),
        None => recipient.unprotected.get(&label),
    }
}

/// Reads a nonce: a byte string, or an integer of 64 bits with a sign.
fn read_nonce(alloc: Global, value: &Value) -> Result<Nonce>
    ensures { Reads nonce nonce_view (value_item value.now) result }
{
    match value {
        Value::Bytes(bytes) => Ok(Nonce::Bytes(Vec::from_slice(alloc, bytes)?)),
        Value::Integer(number) => Ok(Nonce::Integer(i64::try_from(*number)?)),
        _ => Err(CoseError::UnexpectedItem("item", "bstr / int")),
    }
}

/// Returns party U with this identity and this nonce.
fn party_u(alloc: Global, identity: &[u8], nonce: Option<&Value>) -> Result<PartyInfo>
    ensures { MakesPartyU identity.now (option_map (λ v. value_item v.now) nonce.entry) result }
{
    let party = PartyInfoBuilder::new().identity_from(alloc, identity)?;
    match nonce {
        Some(value) => Ok(party.nonce(read_nonce(alloc, value)?).build()),
        None => Ok(party.build()),
    }
}

/// Encodes the context with these parties.
fn encode_context(
    alloc: Global,
    algorithm: Algorithm,
    bits: u64,
    sender: PartyInfo,
    receiver: &[u8],
    recipient: &CoseRecipient,
    other: &[u8],
) -> Result<Vec<u8>>
    ensures { Writes (context.image (derivation (assigned (algorithms.number algorithm)) bits
        (party_view sender) receiver.now (recipient_view recipient.now) other.now))
        (λ b. b.items) result }
{
    let receiver = PartyInfoBuilder::new().identity_from(alloc, receiver)?;
    let public = SuppPubInfo {
        key_data_length: bits,
        protected: recipient.protected.clone()?,
        other: Some(Vec::from_slice(alloc, other)?),
    };
    let context = CoseKdfContextBuilder::new(alloc)
        .algorithm(algorithm)
        .party_u_info(sender)
        .party_v_info(receiver.build())
        .supp_pub_info(public);
    context.build().to_vec(alloc)
}

/// Encodes the context for deriving a key of `bits` bits for this algorithm, from a secret that
/// both sides keep.
///
/// The sender is party U, the receiver party V. The context has the recipient's protected header,
/// its nonce of party U if there is one, and `other` as further public bytes.
///
/// # Errors
/// - `UnexpectedItem` if the recipient has neither a salt nor a nonce of party U. One of them makes
///   each derived key another one (RFC 8152, sections 12.1.2 and 12.4.1).
/// - `UnexpectedItem` or `OutOfRangeIntegerValue` if that nonce is neither a byte string nor an
///   integer of 64 bits with a sign.
/// - `OutOfMemory` if an allocation fails.
/// - `DuplicateMapKey` if the header wasn't read, and repeats a label itself or in a header inside
///   it.
pub fn derivation_context(
    alloc: Global,
    algorithm: Algorithm,
    bits: u64,
    sender: &[u8],
    receiver: &[u8],
    recipient: &CoseRecipient,
    other: &[u8],
) -> Result<Vec<u8>>
    ensures { Derives (assigned (algorithms.number algorithm)) bits sender.now receiver.now
        (recipient_view recipient.now) other.now result }
{
    let nonce = parameter_of(recipient, HeaderAlgorithmParameter::PartyUNonce);
    let salt = parameter_of(recipient, HeaderAlgorithmParameter::Salt);
    if nonce.is_none() && salt.is_none() {
        return Err(CoseError::UnexpectedItem("nul", "bstr"));
    }
    let sender = party_u(alloc, sender, nonce)?;
    encode_context(alloc, algorithm, bits, sender, receiver, recipient, other)
}
