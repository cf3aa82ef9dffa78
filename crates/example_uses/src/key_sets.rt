//! Stores of sets of keys, which are compared by bytes.
//!
//! A store reads a set, puts the parameters of each key in order, and writes the keys one by one.
//! So the bytes of two stores show whether their sets agree key by key, however the sets were
//! spelled.

ghost use Rattle.std.specs.Prelude.{◌≡◌, ◌≤◌, ◌↔◌, ◌⊎◌, List, map, IfErr, IfOk, IsTrue, OnOk};
ghost use Rattle.coset_value.specs.Item.{Item, depth};
ghost use Rattle.coset_key.specs.Canonical.{AgreeButForOrder};
ghost use Rattle.coset_key.specs.Keys.{KeyView, key as key_shape, key_view, key_set};
ghost use Rattle.coset_codec.specs.Results.{Describes, DescribesNothing, RefusesSlice, SliceFaults};
ghost use Rattle.coset_codec.specs.Errors.{UnlessMemory};
ghost use Rattle.coset_codec.specs.Lists.{EachWith};
ghost use Rattle.coset_codec.specs.declared.error.CoseError.TheVariants.{OutOfMemory};
ghost use Rattle.example_uses.specs.KeySets.{AreStored, IsHeldOf, IsKeySet};

use coset::{CborOrdering, CborSerializable, CoseKey, CoseKeySet, Result};
use coset_codec::laws::one_value;
use coset_key::laws::{canonical_keys_injective, canonical_keys_read_again, keys_of_a_set};
use std::alloc::Global;

/// Returns the ordering again, for the next key.
fn again(ordering: &CborOrdering) -> CborOrdering
    ensures { result ≡ ordering.now }
{
    match ordering {
        CborOrdering::Lexicographic => CborOrdering::Lexicographic,
        CborOrdering::LengthFirstLexicographic => CborOrdering::LengthFirstLexicographic,
    }
}

/// Returns the bytes that a store keeps of a key.
///
/// # Errors
/// `OutOfMemory` alone, if the key was read.
fn held_of(alloc: Global, mut key: CoseKey, ordering: CborOrdering) -> Result<Vec<u8>>
    ensures ok { IfOk result (λ held. IsHeldOf ordering (key_view key) held.items) }
    ensures memory { (v : Item) → key_shape.describes v (key_view key) → depth v ≤ 256
        → IfErr result (λ e. e ≡ OutOfMemory) }
{
    canonical_keys_read_again();
    key.canonicalize(alloc, ordering)?;
    key.to_vec(alloc)
}

/// Returns the bytes that a store keeps of a set of keys. For each key, in the set's order, they
/// are its shortest encoding with its parameters in order.
///
/// # Errors
/// - A fault in bytes that aren't a set of keys.
/// - `OutOfMemory` if an allocation fails.
///
/// A key that was read is always written.
pub fn stored_keys(alloc: Global, bytes: &[u8], ordering: CborOrdering) -> Result<Vec<Vec<u8>>>
    ensures ok { IfOk result (λ held. AreStored ordering bytes.now
        (map (λ b. b.items) held.items)) }
    ensures fault { IfErr result (λ e. UnlessMemory e (SliceFaults key_set bytes.now)) }
    ensures refused { RefusesSlice key_set bytes.now result }
{
    keys_of_a_set();
    let keys = CoseKeySet::from_slice(alloc, bytes)?;
    let mut held = Vec::new(alloc);
    for key in keys.0 {
        held.push(held_of(alloc, key, again(&ordering))?)?;
    }
    Ok(held)
}

/// Returns true if two stores have the same bytes for these sets. The stores order parameters by
/// the bytes of their labels.
///
/// The bytes are the same exactly if the sets agree key by key. The order of a key's parameters
/// doesn't matter.
///
/// # Errors
/// The errors of [`stored_keys`], for the first set that is refused.
pub fn sets_hold_the_same(alloc: Global, one: &[u8], other: &[u8]) -> Result<bool>
    ensures same { (ks ls : List KeyView) → Describes key_set one.now ks
        → Describes key_set other.now ls
        → IfOk result (λ same. IsTrue same ↔ EachWith AgreeButForOrder ks ls) }
    ensures sets { OnOk result (IsKeySet one.now × IsKeySet other.now) }
    ensures refused { IfErr result (λ e. UnlessMemory e (λ _.
        DescribesNothing key_set one.now ⊎ DescribesNothing key_set other.now)) }
{
    canonical_keys_injective();
    keys_of_a_set();
    one_value::<CoseKeySet>();
    let one = stored_keys(alloc, one, CborOrdering::Lexicographic)?;
    let other = stored_keys(alloc, other, CborOrdering::Lexicographic)?;
    Ok(one == other)
}
