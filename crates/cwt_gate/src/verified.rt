//! The claims of a message whose signature the caller's closure accepts.

ghost use Rattle.coset.specs.Sign1.{sign1_view};
ghost use Rattle.cwt_gate.specs.Gate.{GivesClaims};

use crate::error::GateError;
use coset::cwt::ClaimsSet;
use coset::{CborSerializable, CoseSign1};
use std::alloc::Global;

/// Returns the claims of a message. The payload is read only after `verify` accepted the signature.
///
/// # Errors
/// - `NoPayload` if the message has no payload.
/// - `Token` if the signed bytes can't be made, for example because an allocation fails.
/// - `Caller` if `verify` refuses the signature.
/// - `Claims` if the payload isn't a claims set, or if an allocation fails after `verify` was
///   called.
pub(crate) fn verified_claims<F, E>(
    alloc: Global,
    message: &CoseSign1,
    verify: F,
) -> Result<ClaimsSet, GateError<E>>
where
    F: FnOnce(&[u8], &[u8]) -> Result<(), E> + Drop,
    E: Drop,
    requires { F.IsAlwaysCallable verify }
    ensures { GivesClaims F.FnOnce verify (sign1_view message.now) result }
{
    let Some(payload) = &message.payload else {
        return Err(GateError::NoPayload);
    };
    message.verify_signature(alloc, &[], verify)?;
    match ClaimsSet::from_slice(alloc, payload) {
        Ok(claims) => Ok(claims),
        Err(error) => Err(GateError::Claims(error)),
    }
}
