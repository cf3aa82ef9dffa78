//! The confirmation claim of a token (RFC 8747, section 3.1).

ghost use Rattle.std.specs.Prelude.{◌≡◌, option_map};
ghost use Rattle.coset.specs.Keys.{key_view};
ghost use Rattle.coset.specs.View.{value_item, value_pairs};
ghost use Rattle.cwt_verify.specs.Claims.{IsFirst};
ghost use Rattle.cwt_verify.specs.Verify.{token_view};
ghost use Rattle.cwt_confirm.specs.Confirm.{ReadsChoice, ReadsClaim, ReadsConfirmation, ReadsEncrypted, ReadsIdentifier, ReadsKey, chosen, identifier_of, key_reasons, may_be, unread};

use crate::confirmed::Confirmation;
use crate::encrypted::{EncryptedKey, read_encrypted_key};
use crate::error::ConfirmationError;
use crate::key::{is_complete, is_private, is_symmetric};
use crate::layers::conceal_cnf;
use crate::member::{has_distinct_labels, member};
use coset::cbor::value::Value;
use coset::cwt::ClaimName;
use coset::iana::CwtClaimName;
use coset::{AsCborValue, CoseError, CoseKey};
use cwt_verify::VerifiedToken;
use std::alloc::Global;

/// The label of `COSE_Key` (RFC 8747, section 3.1, table 1).
const COSE_KEY: i64 = 1;

/// The label of `Encrypted_COSE_Key`.
const ENCRYPTED_COSE_KEY: i64 = 2;

/// The label of `kid`.
const KID: i64 = 3;

/// Returns the error for a key or an encrypted key that can't be read.
fn unread(error: CoseError) -> ConfirmationError
    ensures { result ≡ unread error }
{
    match error {
        CoseError::OutOfMemory => ConfirmationError::OutOfMemory,
        fault => ConfirmationError::Malformed(fault),
    }
}

/// Returns the bytes of a key identifier, if there is one.
///
/// # Errors
/// `KeyId` if the value isn't a byte string, or is empty.
fn key_id(value: Option<&Value>) -> Result<Option<&[u8]>, ConfirmationError>
    ensures { ReadsIdentifier (identifier_of (option_map (λ v. value_item v.now) value.entry))
        result }
{
    let Some(value) = value else {
        return Ok(None);
    };
    match value.as_bytes() {
        Some(bytes) if !bytes.is_empty() => Ok(Some(bytes)),
        _ => Err(ConfirmationError::KeyId),
    }
}

/// Returns true if the key has no identifier, or this one.
fn may_be(key: &CoseKey, key_id: Option<&[u8]>) -> bool
    ensures { result ≡ may_be (option_map (λ b. b.now) key_id.entry) (key_view key.now) }
{
    match key_id {
        Some(key_id) => key.key_id.is_empty() || key.key_id.as_slice() == key_id,
        None => true,
    }
}

/// Accepts a key that may stand in a claim. `concealed` is true if only those who decrypt the token
/// can read the claim.
///
/// # Errors
/// The first of `Incomplete`, `PrivateKey`, `KeyInTheClear` and `AnotherKeyId` that applies.
fn check_key(key: &CoseKey, key_id: Option<&[u8]>, concealed: bool) -> Result<(), ConfirmationError>
    ensures { IsFirst (key_reasons concealed (option_map (λ b. b.now) key_id.entry)
        (key_view key.now)) result }
{
    if !is_complete(key) {
        return Err(ConfirmationError::Incomplete);
    }
    if is_private(key) {
        return Err(ConfirmationError::PrivateKey);
    }
    if is_symmetric(key) && !concealed {
        return Err(ConfirmationError::KeyInTheClear);
    }
    if !may_be(key, key_id) {
        return Err(ConfirmationError::AnotherKeyId);
    }
    Ok(())
}

/// Returns the key in the value of `COSE_Key`.
///
/// # Errors
/// `OutOfMemory`, `Malformed`, or an error of `check_key`.
fn clear_key(
    alloc: Global,
    value: &Value,
    key_id: Option<&[u8]>,
    concealed: bool,
) -> Result<CoseKey, ConfirmationError>
    ensures { ReadsKey concealed (option_map (λ b. b.now) key_id.entry) (value_item value.now)
        result }
{
    let key = match CoseKey::from_cbor_value(alloc, value.clone()?) {
        Ok(key) => key,
        Err(error) => return Err(unread(error)),
    };
    check_key(&key, key_id, concealed)?;
    Ok(key)
}

/// Returns the message in the value of `Encrypted_COSE_Key`.
///
/// # Errors
/// `OutOfMemory`, `Malformed` or `NoCiphertext`.
fn encrypted_key(alloc: Global, value: &Value) -> Result<EncryptedKey, ConfirmationError>
    ensures { ReadsEncrypted (value_item value.now) result }
{
    let key = match read_encrypted_key(alloc, value) {
        Ok(key) => key,
        Err(error) => return Err(unread(error)),
    };
    if key.ciphertext().is_none() {
        return Err(ConfirmationError::NoCiphertext);
    }
    Ok(key)
}

/// Returns the confirmation in these members of the claim, whose labels are distinct.
///
/// # Errors
/// The first error that applies, from `SeveralKeys` on.
fn confirmation_in(
    alloc: Global,
    pairs: &[(Value, Value)],
    concealed: bool,
) -> Result<Confirmation, ConfirmationError>
    ensures { ReadsChoice concealed (chosen (value_pairs pairs.now)) result }
{
    let clear = member(pairs, COSE_KEY);
    let encrypted = member(pairs, ENCRYPTED_COSE_KEY);
    if clear.is_some() && encrypted.is_some() {
        return Err(ConfirmationError::SeveralKeys);
    }
    let key_id = key_id(member(pairs, KID))?;
    if let Some(value) = clear {
        return Ok(Confirmation::Key(clear_key(alloc, value, key_id, concealed)?));
    }
    if let Some(value) = encrypted {
        return Ok(Confirmation::EncryptedKey(encrypted_key(alloc, value)?));
    }
    match key_id {
        Some(key_id) => Ok(Confirmation::KeyId(Vec::from_slice(alloc, key_id)?)),
        None => Err(ConfirmationError::NoKey),
    }
}

/// Returns the confirmation in the value of the claim.
///
/// # Errors
/// The first error of [`ConfirmationError`] that applies.
fn read_confirmation(
    alloc: Global,
    value: &Value,
    concealed: bool,
) -> Result<Confirmation, ConfirmationError>
    ensures { ReadsClaim concealed (value_item value.now) result }
{
    let Some(pairs) = value.as_map() else {
        return Err(ConfirmationError::NotAMap);
    };
    let Ok(is_distinct) = has_distinct_labels(alloc, pairs) else {
        return Err(ConfirmationError::OutOfMemory);
    };
    if !is_distinct {
        return Err(ConfirmationError::RepeatedLabel);
    }
    confirmation_in(alloc, pairs, concealed)
}

/// Returns the key that the sender of a verified token must prove to possess, or `None` if the
/// token has no claim `cnf` (RFC 8747, section 3.1).
///
/// The token alone doesn't show who sent it: the sender must prove possession of the key, such as
/// by a signature over a challenge. If the result is `None`, whoever has the token may use it.
///
/// - The claim has at most one of `COSE_Key` and `Encrypted_COSE_Key`. A `kid` next to a key is an
///   identifier of that key. It isn't returned. A `COSE_Key` with another identifier is refused,
///   and that of an encrypted key isn't compared.
/// - Members that aren't understood are ignored. A claim without any other is refused, because it
///   names a key that isn't known.
/// - A symmetric key in `COSE_Key` is refused unless a layer is encrypted. It is also refused if a
///   header of `token.layers` that isn't encrypted has the claim too (RFC 9597). Other signatures
///   and countersignatures aren't looked at.
/// - A private key is refused in any token.
///
/// # Errors
/// The first error of [`ConfirmationError`] that applies.
pub fn confirmation(
    alloc: Global,
    token: &VerifiedToken<'_>,
) -> Result<Option<Confirmation>, ConfirmationError>
    ensures { ReadsConfirmation (token_view token.now) result }
{
    let Some(value) = token.claims.get(&ClaimName::Assigned(CwtClaimName::Cnf)) else {
        return Ok(None);
    };
    let concealed = conceal_cnf(&token.layers);
    Ok(Some(read_confirmation(alloc, value, concealed)?))
}
