//! A token on its way from the signer to the verifier.
//!
//! The two share a pair of keys and nothing else. On its way the token may get another spelling:
//! longer heads, or strings, arrays and maps of indefinite length (RFC 8949, section 3). In every
//! spelling the bytes that are verified are the bytes that were signed. So a genuine token is
//! refused only if an allocation fails.

ghost use Rattle.std.specs.Prelude.{◌≡◌, ℕ, List, Some, None, IfOk, IfErr, IfSome};
ghost use Rattle.coset_codec.specs.declared.error.CoseError.TheVariants.{OutOfMemory};
ghost use Rattle.coset_codec.specs.declared.error.CallError.TheVariants.{Coset};
ghost use Rattle.coset_codec.specs.declared.error.CallError.{CallError};
ghost use Rattle.coset_core.specs.Views.{header_view};
ghost use Rattle.coset_sign.specs.Sign1.{sign1_view};
ghost use Rattle.example_uses.specs.declared.exchange.Lost.TheVariants.{NotVerified};
ghost use Rattle.example_uses.specs.declared.cipher.Refused.{Refused};
ghost use Rattle.example_uses.specs.Exchange.{Respells};
ghost use Rattle.example_uses.specs.Refusals.{IsLost};

use crate::cipher::{Refused, SigningKey, VerifyingKey};
use crate::issue::sign_token;
use crate::verify::verify_token;
use coset::{CallError, CoseSign1, Header};
use std::alloc::Global;

/// A channel that carries a token from one side to the other.
pub trait Channel {
    /// The tokens that the channel may lose.
    ghost loses: { Self → List ℕ → Type 0 };

    /// Returns the token as it arrives: the same item in any spelling. Returns `None` only for a
    /// token for which `loses` holds.
    fn carry(&mut self, alloc: Global, token: &[u8]) -> Option<Vec<u8>>
        ensures carried { IfSome result (λ b. Respells token.now b.items) }
        ensures lost { result ≡ None → loses self.old token.now };
}

/// The reason why a token wasn't verified.
#[derive(Debug, Drop)]
pub enum Lost {
    /// The token wasn't signed or encoded.
    NotSent(CallError<Refused>),
    /// The token didn't arrive.
    NotArrived,
    /// The token arrived, and was refused.
    NotVerified(CallError<Refused>),
}

/// Signs a message on one side and verifies it on the other, in whatever spelling it arrives.
///
/// # Errors
/// The reason why the message was lost. A token that arrives is refused only with `OutOfMemory`.
pub fn exchange<S: SigningKey, V: VerifyingKey, C: Channel>(
    alloc: Global,
    signing_key: &S,
    verifying_key: &V,
    channel: &mut C,
    protected: Header,
    payload: Vec<u8>,
    external_aad: &[u8],
) -> Result<CoseSign1, Lost>
    requires { (t s : List ℕ) → S.signs signing_key.now t s → V.accepts verifying_key.now t s }
    ensures payload { IfOk result (λ n. (sign1_view n).payload ≡ Some payload.items) }
    ensures lost { IfErr result (λ e. IsLost (S.signs signing_key.now) (S.refuses signing_key.now)
        (C.loses channel.old) external_aad.now (header_view protected) payload.items e) }
    ensures arrives { IfErr result (λ e. (c : CallError Refused) → e ≡ NotVerified c
        → c ≡ Coset OutOfMemory) }
{
    let sent = sign_token(alloc, signing_key, protected, payload, external_aad);
    let token = match sent {
        Ok(token) => token,
        Err(error) => return Err(Lost::NotSent(error)),
    };
    let Some(arrived) = channel.carry(alloc, &token) else {
        return Err(Lost::NotArrived);
    };
    match verify_token(alloc, verifying_key, &arrived, external_aad) {
        Ok(message) => Ok(message),
        Err(error) => Err(Lost::NotVerified(error)),
    }
}
