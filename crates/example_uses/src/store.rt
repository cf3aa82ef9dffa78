//! Stores of keys, which are compared by bytes.
//!
//! A key may be spelled in many ways, and its parameters may be in any order. A store reads a key,
//! puts its parameters in order, and writes it. Two such stores can compare or hash these bytes
//! instead of the keys.

ghost use Rattle.std.specs.Prelude.{◌≡◌, ◌⊎◌, ◌↔◌, IfOk, IfErr, IsTrue};
ghost use Rattle.coset_key.specs.Canonical.{AgreeButForOrder};
ghost use Rattle.coset_key.specs.Keys.{KeyView, key};
ghost use Rattle.coset_codec.specs.Results.{Describes, IsRefused};
ghost use Rattle.example_uses.specs.Store.{IsStored};

use coset::{CborOrdering, CborSerializable, CoseKey, Result};
use coset_codec::laws::one_value;
use coset_key::laws::{canonical_keys_injective, canonical_keys_read_again};
use std::alloc::Global;

/// Returns the bytes that a store keeps of a key: its shortest encoding, with its parameters in
/// order.
///
/// # Errors
/// - A fault in bytes that aren't a key.
/// - `OutOfMemory` if an allocation fails.
pub fn stored(alloc: Global, bytes: &[u8], ordering: CborOrdering) -> Result<Vec<u8>>
    ensures held { IfOk result (λ held. IsStored ordering bytes.now held.items) }
    ensures refused { IfErr result (λ e. IsRefused key bytes.now e) }
{
    canonical_keys_read_again();
    let mut key = CoseKey::from_slice(alloc, bytes)?;
    key.canonicalize(alloc, ordering)?;
    key.to_vec(alloc)
}

/// Returns true if two stores have the same bytes for these keys. The stores order parameters by
/// the bytes of their labels.
///
/// The bytes are the same exactly if the keys agree. The order of their parameters doesn't matter.
///
/// # Errors
/// The errors of [`stored`].
pub fn hold_the_same(alloc: Global, one: &[u8], other: &[u8]) -> Result<bool>
    ensures same { (k l : KeyView) → Describes key one.now k → Describes key other.now l
        → IfOk result (λ same. IsTrue same ↔ AgreeButForOrder k l) }
    ensures refused { IfErr result (λ e. IsRefused key one.now e ⊎ IsRefused key other.now e) }
{
    canonical_keys_injective();
    one_value::<CoseKey>();
    let one = stored(alloc, one, CborOrdering::Lexicographic)?;
    let other = stored(alloc, other, CborOrdering::Lexicographic)?;
    Ok(one == other)
}
