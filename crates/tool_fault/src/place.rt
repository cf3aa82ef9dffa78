//! The places of faults. A place is the position in bytes to which steps lead.

ghost use Rattle.std.specs.Prelude.{◌≤◌, IfOk, IfSome, length};
ghost use Rattle.tool_fault.specs.Places.{IsPlace};

use crate::header::header_fault_is_at;
use crate::named_fault::fault_is_at;
use crate::step::{Step, follow};
use coset::CoseError;
use std::alloc::{AllocError, Global};

/// Returns the offset of the place, or `None` if the fault that `error` names isn't there.
///
/// `steps` lead to the place from the front of `bytes`. `None` also means that they lead nowhere.
/// These faults have a place:
///
/// - An item that isn't as the error says.
/// - A number that is out of range or has no name.
/// - The second of two labels that are the same, or of IV and Partial IV. `earlier` is the index of
///   the first one.
/// - A malformed head, chunk or text string, or a head that announces more than is left.
/// - A simple value that isn't supported.
/// - One level too many.
/// - Bytes after an item.
///
/// The content of an indefinite-length byte string has no offset of its own. If a protected header
/// in such a byte string has the fault, the place is the byte string itself.
///
/// # Errors
/// `AllocError` if an allocation fails.
pub fn fault_at(
    alloc: Global,
    bytes: &[u8],
    error: &CoseError,
    steps: &[Step],
    earlier: Option<usize>,
) -> Result<Option<usize>, AllocError>
    // The steps lead to the offset, and it is the place of the fault.
    ensures place { IfOk result (λ o. IfSome o (IsPlace error.now bytes.now steps.now)) }
    // The offset lies in the bytes, or at their end.
    ensures within { IfOk result (λ o. IfSome o (λ n. n ≤ length bytes.now)) }
{
    let Some((offset, rest)) = follow(bytes, steps) else {
        return Ok(None);
    };
    if fault_is_at(alloc, error, bytes, steps, earlier, rest)?
        || header_fault_is_at(alloc, error, bytes, steps, rest)?
    {
        Ok(Some(offset))
    } else {
        Ok(None)
    }
}
