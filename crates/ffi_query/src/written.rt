//! Results in the caller's memory.

ghost use Rattle.std.specs.List.{flat_map};
ghost use Rattle.std.specs.Prelude.{length};
ghost use Rattle.ffi_query.specs.Results.{Puts, PutsTexts, WritesFound};

use crate::refusal::Refusal;
use coset::{CoseError, Result};
use coset_seen::StructureError;

/// Writes the bytes to the front of `out`, and returns their number.
///
/// # Errors
/// `Short` with the length needed, if `out` is too small. `out` is then unchanged.
pub(crate) fn put(bytes: &[u8], out: &mut [u8]) -> Result<usize, Refusal>
    ensures { Puts bytes.now out.old out.new result }
{
    if out.len() < bytes.len() {
        return Err(Refusal::Short(bytes.len()));
    }
    let (front, _) = out.split_at_mut(bytes.len());
    front.copy_from_slice(bytes);
    Ok(bytes.len())
}

/// Writes the texts to the front of `out`, one after another, and returns their total length.
///
/// # Errors
/// - `Short` with the length needed, if `out` is too small.
/// - `Cose` with `OutOfMemory` if the length doesn't fit in a `usize`.
///
/// `out` is then unchanged.
pub(crate) fn put_texts(texts: &[&[u8]], out: &mut [u8]) -> Result<usize, Refusal>
    ensures { let t = flat_map (λ t. t.now) texts.now in
        PutsTexts (length t) t out.old out.new result }
{
    match coset_seen::put_texts(texts, out) {
        Ok(len) => Ok(len),
        Err(StructureError::Short(len)) => Err(Refusal::Short(len)),
        Err(_) => Err(Refusal::Cose(CoseError::OutOfMemory)),
    }
}

/// Writes the bytes that were found to the front of `out`, and returns their number. `ffi_make`
/// uses this too.
///
/// # Errors
/// - `Short` with the length needed, if `out` is too small.
/// - `Absent` if nothing was found.
/// - `Cose` with the error that `found` has.
///
/// `out` is then unchanged.
pub fn write_found(found: Result<Option<Vec<u8>>>, out: &mut [u8]) -> Result<usize, Refusal>
    ensures { WritesFound (λ b. b.items) found out.old out.new result }
{
    match found {
        Ok(Some(bytes)) => put(&bytes, out),
        Ok(None) => Err(Refusal::Absent),
        Err(error) => Err(Refusal::Cose(error)),
    }
}
