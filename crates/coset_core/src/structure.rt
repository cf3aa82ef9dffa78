//! The structures that are signed, authenticated, or go with a ciphertext (RFC 8152, sections 4.4,
//! 5.3 and 6.3).

ghost use Rattle.std.specs.Prelude.{◌≡◌, ◌≤◌, map, IfOk, IfErr};
ghost use Rattle.coset_cbor.specs.Shortest.{IsShortest};
ghost use Rattle.coset_codec.specs.declared.error.CoseError.TheVariants.{OutOfMemory};
ghost use Rattle.coset_core.specs.Structure.{BeginsStructure, structure};

use coset_cbor::laws::least_encoding_is_shortest;
use coset_cbor::ser::{write_array_head, write_bytes, write_text};
use coset_codec::Result;
use std::alloc::Global;

/// The length of the longest head, in bytes (RFC 8949, section 3).
const LONGEST_HEAD: usize = 9;

/// Returns the shortest encoding of an array of a context and byte strings. It is written directly
/// into a vector that is large enough from the start.
///
/// # Errors
/// `OutOfMemory` if an allocation fails.
pub fn structure_bytes(alloc: Global, context: &str, parts: &[&[u8]]) -> Result<Vec<u8>>
    ensures encoding { IfOk result (λ b. IsShortest b.items
        (structure context.now (map (λ part. part.now) parts.now))) }
    ensures memory { IfErr result (λ e. e ≡ OutOfMemory) }
{
    let out = begin_structure(alloc, context, parts, 0, 0)?;
    least_encoding_is_shortest();
    Ok(out)
}

/// Returns the beginning of the shortest encoding of a structure: its head, the context and these
/// byte strings. The head also counts `further_elements` further elements (0 or 1), which the
/// caller appends. The vector has room for `extra_capacity` further bytes.
///
/// # Errors
/// `OutOfMemory` if an allocation fails.
#[inline(always)]
pub fn begin_structure(
    alloc: Global,
    context: &str,
    parts: &[&[u8]],
    further_elements: usize,
    extra_capacity: usize,
) -> Result<Vec<u8>>
    requires { further_elements ≤ 1 }
    ensures begins { IfOk result (λ b. BeginsStructure b.items context.now
        (map (λ part. part.now) parts.now) further_elements) }
    ensures memory { IfErr result (λ e. e ≡ OutOfMemory) }
{
    let room = max_structure_size(context, parts).saturating_add(extra_capacity);
    let mut out = Vec::with_capacity(alloc, room)?;
    write_array_head(parts.len() + 1 + further_elements, &mut out)?;
    write_text(context, &mut out)?;
    for part in parts {
        write_bytes(part, &mut out)?;
    }
    Ok(out)
}

/// Returns an estimate of the encoded size of an array of these byte strings, for reserving room.
/// Each head counts as 9 bytes. The sum is at most `usize::MAX`.
pub fn max_byte_strings_size(parts: &[Vec<u8>]) -> usize {
    let mut room = LONGEST_HEAD;
    for part in parts {
        room = room.saturating_add(LONGEST_HEAD).saturating_add(part.len());
    }
    room
}

/// Returns an estimate of the encoded size of an array of the context and these byte strings.
fn max_structure_size(context: &str, parts: &[&[u8]]) -> usize {
    let mut room = LONGEST_HEAD
        .saturating_add(LONGEST_HEAD)
        .saturating_add(context.len());
    for part in parts {
        room = room.saturating_add(LONGEST_HEAD).saturating_add(part.len());
    }
    room
}
