//! Checks whether the fault that an error names is at a place.

ghost use Rattle.std.specs.Prelude.{◌≡◌, IfOk, IsTrue, Some};
ghost use Rattle.tool_fault.specs.Places.{IsUnexpected, FaultIsAt, last_step};

use crate::malformed::{is_malformed, last_step};
use crate::registry::{is_out_of_range, is_unassigned, is_unassigned_and_not_private};
use crate::repeats::{has_both_ivs, repeats_label};
use crate::step::Step;
use crate::unexpected::is_called;
use coset::CoseError;
use std::alloc::{AllocError, Global};

/// Returns true if the item that an error calls `got` is at the front of `bytes`.
///
/// `bytes` is the place to which `steps` lead from the front of `whole`.
fn is_unexpected(
    alloc: Global,
    got: &str,
    whole: &[u8],
    steps: &[Step],
    earlier: Option<usize>,
    bytes: &[u8],
) -> Result<bool, AllocError>
    ensures { IfOk result (λ b. IsTrue b → IsUnexpected got.now whole.now steps.now bytes.now) }
{
    match got {
        "repeated array entry" => repeats_label(alloc, whole, steps, earlier),
        "IV and partial-IV specified" => has_both_ivs(alloc, whole, steps, earlier),
        _ => is_called(alloc, got, bytes),
    }
}

/// Returns true if the fault that `error` names is at the front of `bytes`.
///
/// `bytes` is the place to which `steps` lead from the front of `whole`. If the fault is that
/// something occurs twice, `earlier` is the index of its first occurrence.
pub(crate) fn fault_is_at(
    alloc: Global,
    error: &CoseError,
    whole: &[u8],
    steps: &[Step],
    earlier: Option<usize>,
    bytes: &[u8],
) -> Result<bool, AllocError>
    ensures { IfOk result (λ b. IsTrue b
        → FaultIsAt error.now whole.now steps.now bytes.now) }
{
    match error {
        CoseError::DecodeFailed(error) => Ok(is_malformed(error, steps, bytes)),
        CoseError::ExtraneousData => Ok(last_step(steps) == Some(Step::After)),
        CoseError::DuplicateMapKey => repeats_label(alloc, whole, steps, earlier),
        CoseError::OutOfRangeIntegerValue => Ok(is_out_of_range(bytes)),
        CoseError::UnexpectedItem(got, _) => {
            is_unexpected(alloc, *got, whole, steps, earlier, bytes)
        }
        CoseError::UnregisteredIanaValue => Ok(is_unassigned(bytes)),
        CoseError::UnregisteredIanaNonPrivateValue => Ok(is_unassigned_and_not_private(bytes)),
        CoseError::EncodeFailed | CoseError::OutOfMemory => Ok(false),
    }
}
