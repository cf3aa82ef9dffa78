//! The bytes that a text denotes.

ghost use Rattle.std.specs.Prelude.{◌≡◌, ◌≤◌, IfErr, IfOk, length};
ghost use Rattle.tool_notation.specs.Encoding.{IsSequence};

use crate::blank::without_blanks;
use crate::fault::{Expected, Fault, Stop};
use crate::item::item;
use crate::levels::Levels;
use std::alloc::{AllocError, Global};

/// Returns the items of the text, of which there is one at least, with commas between them.
fn sequence(alloc: Global, text: &[u8]) -> Result<Vec<u8>, Stop>
    ensures { IfOk result (λ bytes. IsSequence bytes.items) }
{
    let mut out = Vec::new(alloc);
    let first = without_blanks(text)?;
    let mut left = without_blanks(item(alloc, first, Levels::new(), &mut out)?)?;
    for _ in 0..text.len() {
        let [b',', rest @ ..] = left else {
            break;
        };
        let next = without_blanks(rest)?;
        left = without_blanks(item(alloc, next, Levels::new(), &mut out)?)?;
    }
    if left.is_empty() {
        Ok(out)
    } else {
        Err(Stop::at(left, Expected::CommaOrEnd))
    }
}

/// Returns the bytes of the item that the text writes in diagnostic notation, or why it isn't
/// notation. Items with commas between them are a sequence (RFC 8742).
///
/// # Errors
/// `AllocError` if an allocation fails.
pub fn bytes_of(alloc: Global, text: &str) -> Result<Result<Vec<u8>, Fault>, AllocError>
    // The bytes are well-formed items, of which there is one at least.
    ensures well_formed { IfOk result (λ r. IfOk r (λ bytes. IsSequence bytes.items)) }
    // The fault is in the text, or at its end.
    ensures within { IfOk result (λ r. IfErr r (λ fault. fault.offset ≤ length text.now)) }
{
    match sequence(alloc, text.as_bytes()) {
        Ok(bytes) => Ok(Ok(bytes)),
        Err(Stop::OutOfMemory) => Err(AllocError),
        Err(Stop::Fault(left, expected)) => Ok(Err(Fault {
            offset: text.len().saturating_sub(left),
            expected,
        })),
    }
}
