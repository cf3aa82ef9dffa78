//! Labels at the front of bytes.

ghost use Rattle.std.specs.Prelude.{IfOk, IfSome, IsTrue, pos};
ghost use Rattle.coset.specs.Labels.{label};
ghost use Rattle.coset.specs.LabelData.{number};
ghost use Rattle.tool_fault.specs.Places.{BothIvs, IsLabel, SameLabel, StandTogether, label_is};
ghost use Rattle.tool_fault.specs.Steps.{IsAtFront};

use coset::cbor::de::Pull;
use coset::{CborSerializable, CoseError, Label};
use std::alloc::{AllocError, Global};

/// Returns the label at the front of the bytes, or `None` if there is none.
fn label_at(alloc: Global, bytes: &[u8]) -> Result<Option<Label>, AllocError>
    ensures { IfOk result (λ o. IfSome o (λ l. IsAtFront (IsLabel l) bytes.now)) }
{
    let Ok((pull, _)) = Pull::new(bytes) else {
        return Ok(None);
    };
    match Label::from_slice(alloc, pull.slice()) {
        Ok(label) => Ok(Some(label)),
        Err(CoseError::OutOfMemory) => Err(AllocError),
        Err(_) => Ok(None),
    }
}

/// Returns true if the same label is at the front of both.
pub(crate) fn are_same(alloc: Global, one: &[u8], other: &[u8]) -> Result<bool, AllocError>
    ensures { IfOk result (λ b. IsTrue b → StandTogether SameLabel one.now other.now) }
{
    let Some(first) = label_at(alloc, one)? else {
        return Ok(false);
    };
    let Some(second) = label_at(alloc, other)? else {
        return Ok(false);
    };
    Ok(first == second)
}

/// Returns true if the label with this number is at the front of the bytes.
fn is_number(alloc: Global, bytes: &[u8], number: i64) -> Result<bool, AllocError>
    ensures { IfOk result (λ b. IsTrue b → IsAtFront (label_is number) bytes.now) }
{
    match label_at(alloc, bytes)? {
        Some(label) => Ok(label == Label::Int(number)),
        None => Ok(false),
    }
}

/// Returns true if IV is at the front of one and Partial IV at the front of the other (RFC 8152,
/// section 3.1).
pub(crate) fn are_both_ivs(alloc: Global, one: &[u8], other: &[u8]) -> Result<bool, AllocError>
    ensures { IfOk result (λ b. IsTrue b → StandTogether BothIvs one.now other.now) }
{
    if is_number(alloc, one, 5)? {
        is_number(alloc, other, 6)
    } else if is_number(alloc, one, 6)? {
        is_number(alloc, other, 5)
    } else {
        Ok(false)
    }
}
