//! Keys in a canonical encoding.

ghost use Rattle.ffi_make.specs.Canonical.{IsCanonicalKey, IsNoKey, WritesCanonical};
ghost use Rattle.ffi_make.specs.Makes.{FindsText};

use coset::laws::canonical_keys_read_again;
use coset::{CborOrdering, CborSerializable, CoseKey, Result};
use ffi_query::{Refusal, write_found};
use std::alloc::Global;

/// Returns the shortest encoding of the key, with its labels in order.
///
/// # Errors
/// - The reason why the bytes aren't a key.
/// - `OutOfMemory` if an allocation fails.
fn find_canonical(alloc: Global, ordering: CborOrdering, bytes: &[u8]) -> Result<Option<Vec<u8>>>
    ensures { FindsText (λ b. b.items) (IsCanonicalKey ordering bytes.now) ⊥ (IsNoKey bytes.now)
        result }
{
    canonical_keys_read_again();
    let mut key = CoseKey::from_slice(alloc, bytes)?;
    key.canonicalize(alloc, ordering)?;
    Ok(Some(key.to_vec(alloc)?))
}

/// Writes a key in canonical order to the front of `out`, and returns its length.
///
/// The key is written in its shortest encoding, with its labels ordered by their encodings (RFC
/// 8949, sections 4.2.1 and 4.2.3; RFC 7049, section 3.9). Keys that differ only in the order of
/// their pairs give equal bytes. Label 0, which is reserved, follows the labels 1 to 5.
///
/// # Errors
/// - `Short` with the length needed, if `out` is too small.
/// - `Cose` if the bytes aren't a key, or an allocation fails.
///
/// `out` is then unchanged.
pub fn canonical_key(
    alloc: Global,
    ordering: CborOrdering,
    bytes: &[u8],
    out: &mut [u8],
) -> Result<usize, Refusal>
    ensures { WritesCanonical ordering bytes.now out.old out.new result }
{
    write_found(find_canonical(alloc, ordering, bytes), out)
}
