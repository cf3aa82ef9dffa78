//! Verifies a web token (RFC 8392, section 7.2), in whatever spelling it arrives.

ghost use Rattle.std.specs.Prelude.{◌≡◌, ℕ, List, IfOk, IfErr};
ghost use Rattle.coset_codec.specs.declared.error.CoseError.TheVariants.{OutOfMemory};
ghost use Rattle.coset_codec.specs.declared.error.CallError.TheVariants.{Coset};
ghost use Rattle.coset_codec.specs.ReadAgain.{IsWritten};
ghost use Rattle.coset_claims.specs.Claims.{claims_view};
ghost use Rattle.coset_sign.specs.Sign1.{Sign1View, sign1, sign1_view};
ghost use Rattle.example_uses.specs.Exchange.{CarriesSame, IsSent, IsSpelling, IsVerified, AreVerified};
ghost use Rattle.example_uses.specs.Refusals.{AreNotVerified, IsNotVerified};

use crate::cipher::{Refused, VerifyingKey};
use coset::cwt::ClaimsSet;
use coset::{CallError, CborSerializable, CoseError, CoseSign1};
use coset_cbor::laws::{
    least_heads_are_shortest, one_item, shortest_is_encoding, shortest_is_in_range,
};
use coset_codec::laws::encodings_agree;
use coset_sign::laws::{attached_as_written, signed_as_written, signed_when_read};
use std::alloc::Global;

/// Decodes and returns a token's message, if the key accepts its signature. Nothing else is
/// checked.
///
/// # Errors
/// - A fault in bytes that aren't a message with one signature.
/// - `OutOfMemory` if an allocation fails.
/// - `Caller` if the key doesn't accept the signature.
///
/// If a matching key signed the token, the only error is `OutOfMemory`, however the token was
/// spelled on its way.
pub fn verify_token<K: VerifyingKey>(
    alloc: Global,
    key: &K,
    token: &[u8],
    external_aad: &[u8],
) -> Result<CoseSign1, CallError<Refused>>
    ensures verified { IfOk result (λ n. IsVerified (K.accepts key.now) external_aad.now token.now
        (sign1_view n)) }
    ensures same { (b : List ℕ) (m : Sign1View) → IsWritten sign1 m b → IsSpelling b token.now
        → IfOk result (λ n. CarriesSame (sign1_view n) m) }
    ensures genuine { (payload b : List ℕ)
        → IsSent (K.accepts key.now) external_aad.now payload b → IsSpelling b token.now
        → IfErr result (λ e. e ≡ Coset OutOfMemory) }
    ensures refused { IfErr result (λ e. IsNotVerified (K.accepts key.now) external_aad.now
        token.now e) }
{
    encodings_agree::<CoseSign1>();
    signed_as_written();
    attached_as_written();
    signed_when_read();
    one_item();
    shortest_is_encoding();
    shortest_is_in_range();
    least_heads_are_shortest();
    let message = CoseSign1::from_slice(alloc, token)?;
    message.verify_signature(alloc, external_aad, |signature, tbs| {
        key.verify(signature, tbs)
    })?;
    Ok(message)
}

/// Returns the claims of a web token, if the key accepts its signature. Nothing else is checked,
/// such as `exp` or `aud`.
///
/// # Errors
/// - The errors of [`verify_token`].
/// - A fault in a payload that isn't claims, or `UnexpectedItem` if there is none.
pub fn verified_claims<K: VerifyingKey>(
    alloc: Global,
    key: &K,
    token: &[u8],
    external_aad: &[u8],
) -> Result<ClaimsSet, CallError<Refused>>
    ensures verified { IfOk result (λ claims. AreVerified (K.accepts key.now) external_aad.now
        token.now (claims_view claims)) }
    ensures refused { IfErr result (λ e. AreNotVerified (K.accepts key.now) external_aad.now
        token.now e) }
{
    let message = verify_token(alloc, key, token, external_aad)?;
    let Some(payload) = &message.payload else {
        return Err(CallError::Coset(CoseError::UnexpectedItem("nul", "bstr")));
    };
    Ok(ClaimsSet::from_slice(alloc, payload)?)
}
