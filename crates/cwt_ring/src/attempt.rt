//! Keys that are tried in order.

ghost use Rattle.std.specs.Prelude.{IfOk, IfErr, map};
ghost use Rattle.cwt_keys.specs.Keys.{name_view};
ghost use Rattle.cwt_keys.specs.Sealed.{seal_view};
ghost use Rattle.cwt_ring.specs.Attempts.{Finds, RefusedFor, fitting, issuer_view};
ghost use Rattle.cwt_ring.specs.Fits.{Fitted, fitted};

use crate::error::KeyError;
use crate::fit::fits;
use crate::nonce::Nonce;
use coset::{CoseKey, CoseKeySet};
use cwt_keys::Sealed;

/// The most keys that a ring tries for a layer, or for each signature of a `COSE_Sign`. Each try
/// costs a use of the ciphers, and the sender chooses how many keys fit: without a key identifier,
/// each key for the algorithm may.
pub const MAX_KEYS: usize = 16;

/// An issuer of tokens: its name and its keys.
#[derive(Clone, Copy, Debug)]
pub struct Issuer<'a> {
    /// The name, as in the claim `iss`; `None` if the issuer's tokens have no such claim.
    pub name: Option<&'a str>,
    /// The keys. A key is used only if its `alg` is set.
    pub keys: &'a CoseKeySet,
}

/// A use of the ciphers, which is tried with each key that fits a layer.
pub(crate) trait Attempt {
    /// The result if the key is accepted.
    type Output;

    /// The reason why a key isn't accepted.
    type Error: Drop;

    /// The results that a key may give.
    ghost gives: { Self → Fitted → Self.Output → Type 0 };

    /// The errors that a key may give.
    ghost refuses: { Self → Fitted → Self.Error → Type 0 };

    /// Tries the key, with the nonce by which it fits.
    fn attempt(&self, key: &CoseKey, nonce: &Nonce) -> Result<Self::Output, Self::Error>
        ensures given { IfOk result (λ x. gives self.now (fitted key.now nonce.now) x) }
        ensures refused { IfErr result (λ e. refuses self.now (fitted key.now nonce.now) e) };
}

/// Tries each key that fits the layer, in order, until one is accepted. Returns its result, and the
/// name of its issuer. At most `MAX_KEYS` keys are tried.
///
/// # Errors
/// - `NoKey` if no key fits.
/// - `Cipher` if each key that fits is refused. The error is that of the last key.
/// - `TooManyKeys` if `MAX_KEYS` keys are refused, and another key fits.
pub(crate) fn try_each<'k, A: Attempt>(
    issuers: &'k [Issuer<'k>],
    sealed: &Sealed<'_>,
    attempt: &A,
) -> Result<(A::Output, Option<&'k str>), KeyError<A::Error>>
    ensures found { IfOk result (λ x.
        Finds (λ k. A.gives attempt.now k x.0) (A.refuses attempt.now)
        (fitting (seal_view sealed.now) (map issuer_view issuers.now)) (name_view x.1)) }
    ensures refused { IfErr result (λ e.
        RefusedFor (A.refuses attempt.now)
        (fitting (seal_view sealed.now) (map issuer_view issuers.now)) e) }
{
    let mut refused = None;
    let mut tried = 0;
    for issuer in issuers {
        for key in &issuer.keys.0 {
            if let Some(nonce) = fits(key, sealed) {
                if tried == MAX_KEYS {
                    return Err(KeyError::TooManyKeys);
                }
                match attempt.attempt(key, &nonce) {
                    Ok(given) => return Ok((given, issuer.name)),
                    Err(error) => refused = Some(error),
                }
                tried += 1;
            }
        }
    }
    match refused {
        Some(error) => Err(KeyError::Cipher(error)),
        None => Err(KeyError::NoKey),
    }
}
