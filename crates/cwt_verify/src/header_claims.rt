//! Claims in headers (RFC 9597). Each of them must be in the payload too.

ghost use Rattle.std.specs.List.{list_all};
ghost use Rattle.std.specs.Prelude.{◌≡◌, ◌&&◌, IfOk, IfErr, map};
ghost use Rattle.coset.specs.CoseError.TheVariants.{OutOfMemory};
ghost use Rattle.coset.specs.Results.{IsRefused};
ghost use Rattle.coset.specs.Shape.{any};
ghost use Rattle.coset.specs.View.{value_item, value_pairs};
ghost use Rattle.coset.specs.Views.{header_view};
ghost use Rattle.cwt_verify.specs.HeaderClaims.{Agrees, agrees, has_claims, layer_agrees, layer_has_claims, pairs_in, part_agrees, part_has_claims};
ghost use Rattle.cwt_verify.specs.Layers.{part_view};
ghost use Rattle.cwt_verify.specs.Opening.{verified_view};

use crate::layer::{Part, VerifiedLayer};
use crate::pairs::are_among;
use coset::cbor::value::Value;
use coset::laws::one_item;
use coset::{CborSerializable, Header, Label, Result};
use std::alloc::Global;

/// The label of claims in a header (RFC 9597).
const CWT_CLAIMS: i64 = 15;

/// Returns true if the header has no claims, or if each of them is one of these pairs.
///
/// # Errors
/// `OutOfMemory` if an allocation fails.
fn agrees(alloc: Global, header: &Header, pairs: &[(Value, Value)]) -> Result<bool>
    ensures answer { IfOk result (λ b. b
        ≡ agrees (value_pairs pairs.now) (header_view header.now)) }
    ensures memory { IfErr result (λ e. e ≡ OutOfMemory) }
{
    let Some(value) = header.get(&Label::Int(CWT_CLAIMS)) else {
        return Ok(true);
    };
    let Some(claims) = value.as_map() else {
        return Ok(false);
    };
    are_among(alloc, claims, pairs)
}

/// Returns true if the headers agree, both of them.
///
/// # Errors
/// `OutOfMemory` if an allocation fails.
fn both_agree(
    alloc: Global,
    protected: &Header,
    unprotected: &Header,
    pairs: &[(Value, Value)],
) -> Result<bool>
    ensures answer { IfOk result (λ b. b
        ≡ (agrees (value_pairs pairs.now) (header_view protected.now)
        && agrees (value_pairs pairs.now) (header_view unprotected.now))) }
    ensures memory { IfErr result (λ e. e ≡ OutOfMemory) }
{
    if agrees(alloc, protected, pairs)? {
        agrees(alloc, unprotected, pairs)
    } else {
        Ok(false)
    }
}

/// Returns true if each claim in the headers of the part is one of these pairs.
///
/// # Errors
/// `OutOfMemory` if an allocation fails.
fn part_agrees(alloc: Global, part: &Part, pairs: &[(Value, Value)]) -> Result<bool>
    ensures answer { IfOk result (λ b. b
        ≡ part_agrees (value_pairs pairs.now) (part_view part.now)) }
    ensures memory { IfErr result (λ e. e ≡ OutOfMemory) }
{
    match part {
        Part::Whole => Ok(true),
        Part::Signature(signature) => both_agree(
            alloc,
            &signature.protected.header,
            &signature.unprotected,
            pairs,
        ),
        Part::Recipient(recipient) => agrees(alloc, &recipient.unprotected, pairs),
    }
}

/// Returns true if each claim in the headers of the layer, and of the part that the keys accepted,
/// is one of these pairs.
///
/// # Errors
/// `OutOfMemory` if an allocation fails.
fn layer_agrees(alloc: Global, layer: &VerifiedLayer<'_>, pairs: &[(Value, Value)]) -> Result<bool>
    ensures answer { IfOk result (λ b. b
        ≡ layer_agrees (value_pairs pairs.now) (verified_view layer.now)) }
    ensures memory { IfErr result (λ e. e ≡ OutOfMemory) }
{
    if both_agree(alloc, &layer.protected.header, &layer.unprotected, pairs)? {
        part_agrees(alloc, &layer.part, pairs)
    } else {
        Ok(false)
    }
}

/// Returns true if each claim in the headers of the layers is one of these pairs.
///
/// # Errors
/// `OutOfMemory` if an allocation fails.
fn layers_agree(
    alloc: Global,
    layers: &[VerifiedLayer<'_>],
    pairs: &[(Value, Value)],
) -> Result<bool>
    ensures answer { IfOk result (λ b. b
        ≡ list_all (layer_agrees (value_pairs pairs.now)) (map verified_view layers.now)) }
    ensures memory { IfErr result (λ e. e ≡ OutOfMemory) }
{
    for layer in layers {
        if !layer_agrees(alloc, layer, pairs)? {
            return Ok(false);
        }
    }
    Ok(true)
}

/// Returns true if the header has claims.
fn has_claims(header: &Header) -> bool
    ensures { result ≡ has_claims (header_view header.now) }
{
    header.get(&Label::Int(CWT_CLAIMS)).is_some()
}

/// Returns true if a header of the part has claims.
fn part_has_claims(part: &Part) -> bool
    ensures { result ≡ part_has_claims (part_view part.now) }
{
    match part {
        Part::Whole => false,
        Part::Signature(signature) => {
            has_claims(&signature.protected.header) || has_claims(&signature.unprotected)
        }
        Part::Recipient(recipient) => has_claims(&recipient.unprotected),
    }
}

/// Returns true if a header of the layer, or of the part that the keys accepted, has claims.
fn layer_has_claims(layer: &VerifiedLayer<'_>) -> bool
    ensures { result ≡ layer_has_claims (verified_view layer.now) }
{
    has_claims(&layer.protected.header)
        || has_claims(&layer.unprotected)
        || part_has_claims(&layer.part)
}

/// Returns the pairs of a map. Any other value has none.
fn pairs_in(value: &Value) -> &[(Value, Value)]
    ensures { value_pairs result.now ≡ pairs_in (value_item value.now) }
{
    match value {
        Value::Map(pairs) => pairs,
        _ => &[],
    }
}

/// Returns true if each claim in the headers of the layers is one of the claims in `payload`.
///
/// # Errors
/// - `OutOfMemory` if an allocation fails.
/// - A fault in the payload, if it is no item.
pub(crate) fn header_claims_agree(
    alloc: Global,
    layers: &[VerifiedLayer<'_>],
    payload: &[u8],
) -> Result<bool>
    ensures answer { IfOk result (λ b. Agrees (map verified_view layers.now) payload.now b) }
    ensures refused { IfErr result (λ e. IsRefused any payload.now e) }
{
    one_item();
    if !layers.iter().any(layer_has_claims) {
        return Ok(true);
    }
    let value = Value::from_slice(alloc, payload)?;
    layers_agree(alloc, layers, pairs_in(&value))
}
