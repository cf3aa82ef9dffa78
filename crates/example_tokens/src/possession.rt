//! Checks that the sender of a token possesses the key that the token confirms (RFC 8747).

ghost use Rattle.std.specs.Prelude.{◌≡◌, None};
ghost use Rattle.coset.specs.Keys.{key_view};
ghost use Rattle.coset.specs.Sign1.{sign1_view};
ghost use Rattle.cwt_keys.specs.Sealed.{seal_view};
ghost use Rattle.cwt_verify.specs.Verify.{token_view};
ghost use Rattle.example_tokens.specs.Possession.{ProvesPossession, ReadsProofKey, VerifiesConfirmed, VerifiesMessage, VerifiesProof, VerifiesSealed, for_proofs, is_critical, is_short, key_of};

use coset::iana::Algorithm;
use coset::{CoseError, CoseKey, CoseSign1, RegisteredLabelWithPrivate, TaggedCborSerializable};
use cwt_confirm::{Confirmation, ConfirmationError, confirmation};
use cwt_keys::{Form, Sealed};
use cwt_ring::{Ciphers, fits};
use cwt_verify::VerifiedToken;
use std::alloc::Global;

/// The least number of bytes in a challenge, as in the nonce of an attestation token (RFC 9711,
/// section 4.1).
const SHORTEST: usize = 8;

/// The reason why a sender isn't accepted.
#[derive(Debug, Drop)]
pub enum NotPossessed<E> {
    /// The challenge has fewer than 8 bytes.
    ShortChallenge,
    /// The token's confirmation is refused.
    Confirmation(ConfirmationError),
    /// The token has no key in the clear: it has no confirmation, an encrypted key or an
    /// identifier.
    NoKey,
    /// The proof isn't a message with a signature (RFC 8152, section 4.2), or an allocation failed.
    Message(CoseError),
    /// A header of the proof lists critical labels.
    Critical,
    /// The confirmed key doesn't fit the proof.
    NotFitting,
    /// The ciphers refused the signature with the confirmed key.
    Signature(E),
}

/// Returns true if a challenge has fewer than 8 bytes.
fn is_short(challenge: &[u8]) -> bool
    ensures { result ≡ is_short challenge.now }
{
    challenge.len() < SHORTEST
}

/// Returns the key for proofs. If it names no algorithm, it is for ES256 alone, because senders and
/// this service agreed on that.
fn for_proofs(mut key: CoseKey) -> CoseKey
    ensures { key_view result ≡ for_proofs (key_view key) }
{
    if key.alg.is_none() {
        key.alg = Some(RegisteredLabelWithPrivate::Assigned(Algorithm::ES256));
    }
    key
}

/// Returns the key of a confirmation, if that is a key in the clear.
fn key_of(confirmed: Option<Confirmation>) -> Option<CoseKey>
    ensures { result ≡ key_of confirmed }
{
    match confirmed? {
        Confirmation::Key(key) => Some(key),
        Confirmation::EncryptedKey(_) => None,
        Confirmation::KeyId(_) => None,
    }
}

/// Returns the key that the token confirms, for proofs.
///
/// # Errors
/// - `Confirmation` with the error of [`confirmation`].
/// - `NoKey` if the token has no key in the clear.
fn proof_key<E: Drop>(alloc: Global, token: &VerifiedToken<'_>) -> Result<CoseKey, NotPossessed<E>>
    ensures { ReadsProofKey (token_view token.now) result }
{
    let confirmed = match confirmation(alloc, token) {
        Ok(confirmed) => confirmed,
        Err(error) => return Err(NotPossessed::Confirmation(error)),
    };
    match key_of(confirmed) {
        Some(key) => Ok(for_proofs(key)),
        None => Err(NotPossessed::NoKey),
    }
}

/// Returns true if a header of the message lists critical labels, which must be understood (RFC
/// 9052, section 3.1).
fn is_critical(message: &CoseSign1) -> bool
    ensures { result ≡ is_critical (sign1_view message.now) }
{
    !message.protected.header.crit.is_empty() || !message.unprotected.crit.is_empty()
}

/// Accepts the parts of a message, if this key fits and the ciphers accept the signature by it.
///
/// # Errors
/// - `NotFitting` if the key doesn't fit.
/// - `Signature` with the error of the ciphers.
fn verify_sealed<C: Ciphers>(
    key: &CoseKey,
    ciphers: &C,
    sealed: &Sealed<'_>,
) -> Result<(), NotPossessed<C::Error>>
    ensures { VerifiesSealed (C.view ciphers.now) (key_view key.now) (seal_view sealed.now) result }
{
    let Some(algorithm) = sealed.algorithm() else {
        return Err(NotPossessed::NotFitting);
    };
    if fits(key, sealed).is_none() {
        return Err(NotPossessed::NotFitting);
    }
    match ciphers.verify(key, algorithm, sealed.structure, sealed.proof) {
        Ok(()) => Ok(()),
        Err(error) => Err(NotPossessed::Signature(error)),
    }
}

/// Accepts a message with a signature over the challenge by this key.
///
/// # Errors
/// - `Message` if the signed structure can't be made, for example because an allocation fails.
/// - An error of `verify_sealed`.
fn verify_message<C: Ciphers>(
    alloc: Global,
    key: &CoseKey,
    ciphers: &C,
    challenge: &[u8],
    message: &CoseSign1,
) -> Result<(), NotPossessed<C::Error>>
    requires { message.now.payload ≡ None }
    ensures { VerifiesMessage (C.view ciphers.now) (key_view key.now) challenge.now
        (sign1_view message.now) result }
{
    let structure = match message.tbs_detached_data(alloc, challenge, &[]) {
        Ok(structure) => structure,
        Err(error) => return Err(NotPossessed::Message(error)),
    };
    let sealed = Sealed::new(
        Form::Sign1,
        &message.protected,
        &message.unprotected,
        &message.signature,
        &structure,
    );
    verify_sealed(key, ciphers, &sealed)
}

/// Accepts the bytes of a message without critical labels, with a signature over the challenge by
/// this key.
///
/// # Errors
/// - `Message` if the bytes aren't a message with a signature.
/// - `Critical` if a header lists critical labels.
/// - An error of `verify_message`.
fn verify_proof<C: Ciphers>(
    alloc: Global,
    key: &CoseKey,
    ciphers: &C,
    challenge: &[u8],
    proof: &[u8],
) -> Result<(), NotPossessed<C::Error>>
    ensures { VerifiesProof (C.view ciphers.now) (key_view key.now) challenge.now proof.now result }
{
    let mut message = match CoseSign1::from_any_slice(alloc, proof) {
        Ok(message) => message,
        Err(error) => return Err(NotPossessed::Message(error)),
    };
    if is_critical(&message) {
        return Err(NotPossessed::Critical);
    }
    message.payload = None;
    verify_message(alloc, key, ciphers, challenge, &message)
}

/// Accepts a proof by the key that the token confirms, for this challenge.
///
/// # Errors
/// - `Confirmation` or `NoKey`, as from `proof_key`.
/// - An error of `verify_proof`.
fn verify_confirmed<C: Ciphers>(
    alloc: Global,
    token: &VerifiedToken<'_>,
    ciphers: &C,
    challenge: &[u8],
    proof: &[u8],
) -> Result<(), NotPossessed<C::Error>>
    ensures { VerifiesConfirmed (C.view ciphers.now) (token_view token.now) challenge.now proof.now
        result }
{
    let key = proof_key(alloc, token)?;
    verify_proof(alloc, &key, ciphers, challenge, proof)
}

/// Accepts the sender of a verified token, if it signed the challenge with the key that the token
/// confirms (RFC 8747, section 3.5).
///
/// `challenge` is a random nonce of 8 bytes or more. This service chose it for the sender, and
/// accepts it once. `proof` is a `COSE_Sign1`, tagged or not. Its signature is over the challenge,
/// whatever payload it carries.
///
/// # Errors
/// The first of [`NotPossessed`] that applies. If an allocation fails, `Message` may come after
/// `Critical`.
pub fn check_possession<C: Ciphers>(
    alloc: Global,
    token: &VerifiedToken<'_>,
    ciphers: &C,
    challenge: &[u8],
    proof: &[u8],
) -> Result<(), NotPossessed<C::Error>>
    ensures { ProvesPossession (C.view ciphers.now) (token_view token.now) challenge.now proof.now
        result }
{
    if is_short(challenge) {
        return Err(NotPossessed::ShortChallenge);
    }
    verify_confirmed(alloc, token, ciphers, challenge, proof)
}
