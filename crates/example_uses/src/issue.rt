//! Issues a web token (RFC 8392, section 7.1): its claims are the payload of a message with one
//! signature.

ghost use Rattle.std.specs.Prelude.{IfOk, IfErr};
ghost use Rattle.coset_iana.specs.Algorithm as algorithms;
ghost use Rattle.coset_label.specs.LabelData.{assigned};
ghost use Rattle.coset_core.specs.Views.{header_view};
ghost use Rattle.coset_claims.specs.Claims.{claims_view};
ghost use Rattle.example_uses.specs.Exchange.{IsIssued, IsSent};
ghost use Rattle.example_uses.specs.Refusals.{IsNotIssued, IsNotSent};

use crate::cipher::{Refused, SigningKey};
use coset::cwt::ClaimsSet;
use coset::iana::Algorithm;
use coset::{CallError, CborSerializable, CoseSign1, CoseSign1Builder, Header, HeaderBuilder};
use std::alloc::Global;

/// Signs a token with this protected header and this payload, and encodes it.
///
/// The token is read once before it is returned, because a header may be built that no reader
/// accepts.
///
/// # Errors
/// - The error of encoding or reading the token.
/// - `Caller` with the error of the key.
pub fn sign_token<K: SigningKey>(
    alloc: Global,
    key: &K,
    protected: Header,
    payload: Vec<u8>,
    external_aad: &[u8],
) -> Result<Vec<u8>, CallError<Refused>>
    ensures sent { IfOk result (λ b. IsSent (K.signs key.now) external_aad.now payload.items
        b.items) }
    ensures refused { IfErr result (λ e. IsNotSent (K.refuses key.now) external_aad.now
        (header_view protected) payload.items e) }
{
    let unsigned = CoseSign1Builder::new(alloc)
        .protected(protected)
        .payload(payload);
    let signed = unsigned.try_create_signature(
        alloc,
        external_aad,
        move |tbs| key.sign(alloc, tbs),
    )?;
    let token = signed.build().to_vec(alloc)?;
    drop(CoseSign1::from_slice(alloc, &token)?);
    Ok(token)
}

/// Issues a web token with these claims. Its protected header names the algorithm.
///
/// The claims are read once before they are signed, because claims may be built that no reader
/// accepts.
///
/// # Errors
/// - The error of reading the claims, for example `DuplicateMapKey` if a name occurs twice.
/// - The errors of [`sign_token`].
pub fn issue_token<K: SigningKey>(
    alloc: Global,
    key: &K,
    algorithm: Algorithm,
    claims: ClaimsSet,
    external_aad: &[u8],
) -> Result<Vec<u8>, CallError<Refused>>
    ensures issued { IfOk result (λ b. IsIssued (K.signs key.now) external_aad.now
        (claims_view claims) b.items) }
    ensures refused { IfErr result (λ e. IsNotIssued (K.refuses key.now) external_aad.now
        (assigned (algorithms.number algorithm)) (claims_view claims) e) }
{
    let payload = claims.to_vec(alloc)?;
    drop(ClaimsSet::from_slice(alloc, &payload)?);
    let protected = HeaderBuilder::new(alloc).algorithm(algorithm).build();
    sign_token(alloc, key, protected, payload, external_aad)
}
