//! The nonces of an attestation token (EAT, RFC 9711, section 4.1).

ghost use Rattle.std.specs.Prelude.{◌≡◌, option_map};
ghost use Rattle.coset.specs.View.{value_item, value_items};
ghost use Rattle.cwt_verify.specs.Verify.{token_view};
ghost use Rattle.cwt_confirm.specs.Nonces.{ReadsNonces, each_nonce, nonce_in, nonces_in, nonces_of, one_nonce};
ghost use Rattle.cwt_confirm.specs.Texts.{nonce_error_text};

use coset::cbor::value::Value;
use coset::cwt::ClaimName;
use coset::iana::CwtClaimName;
use cwt_verify::VerifiedToken;
use std::alloc::{AllocFailed, Global};
use std::error::Error;
use std::fmt;

/// The reason why the nonces of a token are refused (RFC 9711, section 4.1).
#[derive(Clone, Copy, Debug, Drop, PartialEq, Eq)]
pub enum NonceError {
    /// An allocation failed.
    OutOfMemory,
    /// The claim is neither a nonce nor an array of at least two.
    NotNonces,
}

/// Writes the reason in words.
impl fmt::Display for NonceError {
    ghost output = { nonce_error_text };

    fn fmt<W: fmt::Write>(&self, f: &mut fmt::Formatter<W>) -> fmt::Result {
        match self {
            NonceError::OutOfMemory => write!(f, "out of memory"),
            NonceError::NotNonces => write!(f, "not nonces of 8 to 64 bytes"),
        }
    }
}

impl Error for NonceError {}

impl<T: Drop> From<AllocFailed<T>> for NonceError {
    ghost use Rattle.std.specs.Prelude.{◌≡◌};
    ghost use Rattle.cwt_confirm.specs.declared.nonce.NonceError.TheVariants.{OutOfMemory};

    ghost from_gives = { λ _ e. e ≡ OutOfMemory };

    fn from(_error: AllocFailed<T>) -> NonceError {
        NonceError::OutOfMemory
    }
}

/// Returns the bytes of a nonce: a byte string of 8 to 64 bytes.
fn nonce_in(value: &Value) -> Option<&[u8]>
    ensures { option_map (λ b. b.now) result ≡ nonce_in (value_item value.now) }
{
    match value.as_bytes() {
        Some(bytes) if 8 <= bytes.len() && bytes.len() <= 64 => Some(bytes),
        _ => None,
    }
}

/// Returns the bytes of each of these nonces, in order.
///
/// # Errors
/// - `OutOfMemory` if an allocation fails.
/// - `NotNonces` if one isn't a nonce.
fn each_nonce(alloc: Global, values: &[Value]) -> Result<Vec<&[u8]>, NonceError>
    ensures { ReadsNonces (each_nonce (value_items values.now)) result }
{
    let mut nonces = Vec::new(alloc);
    for value in values {
        match nonce_in(value) {
            Some(nonce) => nonces.push(nonce)?,
            None => return Err(NonceError::NotNonces),
        }
    }
    Ok(nonces)
}

/// Returns a list of the nonce.
///
/// # Errors
/// - `OutOfMemory` if an allocation fails.
/// - `NotNonces` if the value isn't a nonce.
fn one_nonce(alloc: Global, value: &Value) -> Result<Vec<&[u8]>, NonceError>
    ensures { ReadsNonces (one_nonce (value_item value.now)) result }
{
    let Some(nonce) = nonce_in(value) else {
        return Err(NonceError::NotNonces);
    };
    let mut nonces = Vec::new(alloc);
    nonces.push(nonce)?;
    Ok(nonces)
}

/// Returns the nonces in the value of the claim.
///
/// # Errors
/// The errors of [`nonces`].
fn nonces_in(alloc: Global, value: &Value) -> Result<Vec<&[u8]>, NonceError>
    ensures { ReadsNonces (nonces_in (value_item value.now)) result }
{
    match value.as_array() {
        Some(values) => {
            if values.len() < 2 {
                return Err(NonceError::NotNonces);
            }
            each_nonce(alloc, values)
        }
        None => one_nonce(alloc, value),
    }
}

/// Returns the nonces of a verified attestation token, in order (EAT, RFC 9711, section 4.1). The
/// list is empty exactly if the token has no such claim.
///
/// A nonce is a byte string of 8 to 64 bytes. The claim is one nonce, or an array of at least two.
/// A caller that sent a nonce refuses the token unless one of these equals it. An empty list is no
/// success: the token may be an old one.
///
/// # Errors
/// - `OutOfMemory` if an allocation fails.
/// - `NotNonces` if the claim is anything else.
pub fn nonces<'a>(alloc: Global, token: &'a VerifiedToken<'_>) -> Result<Vec<&'a [u8]>, NonceError>
    ensures { ReadsNonces (nonces_of (token_view token.now)) result }
{
    match token.claims.get(&ClaimName::Assigned(CwtClaimName::Nonce)) {
        Some(value) => nonces_in(alloc, value),
        None => Ok(Vec::new(alloc)),
    }
}
