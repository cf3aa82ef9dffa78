//! Sets of keys, some of which can't be read (RFC 9052, section 7).

ghost use Rattle.std.specs.Prelude.{IfOk, IfErr};
ghost use Rattle.coset.specs.Alone.{elements};
ghost use Rattle.coset.specs.Keys.{key_set_view};
ghost use Rattle.coset.specs.Results.{AllocatesForItems, IsRefused};
ghost use Rattle.cwt_ring.specs.KeySet.{AreThoseRead};

use coset::{CoseKeySet, Result};
use std::alloc::Global;

/// Decodes an array of keys in order, and skips those that can't be read, such as those of an
/// unknown type (RFC 9052, section 7). The set is empty if no key can be read.
///
/// # Errors
/// - A fault in bytes that aren't an array.
/// - `OutOfMemory` if an allocation fails. This happens only if the bytes are one item.
pub fn keys_from_slice(alloc: Global, bytes: &[u8]) -> Result<CoseKeySet>
    ensures read { IfOk result (λ s. AreThoseRead bytes.now (key_set_view s)) }
    ensures refused { IfErr result (λ e. IsRefused elements bytes.now e) }
    ensures memory { AllocatesForItems bytes.now result }
{
    let mut keys = Vec::new(alloc);
    for read in CoseKeySet::each_from_slice(alloc, bytes)? {
        if let Ok(key) = read {
            keys.push(key)?;
        }
    }
    Ok(CoseKeySet(keys))
}
