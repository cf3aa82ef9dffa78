//! Finds keys of a set by their identifier (RFC 8152, section 7).

ghost use Rattle.std.specs.Prelude.{◌≡◌, IfOk, IfErr, option_map};
ghost use Rattle.std.specs.Fn.{FnReturnsAt};
ghost use Rattle.coset_key.specs.Keys.{key_view, key_set, key_set_view};
ghost use Rattle.coset_codec.specs.Results.{IsRefused};
ghost use Rattle.example_uses.specs.FindKey.{IsKeyOf, TriesInOrder, first_with, keys_with};

use crate::cipher::Refused;
use coset::{CborOrdering, CborSerializable, CoseKey, CoseKeySet};
use std::alloc::Global;

/// Returns the first key of the set with this identifier. Other keys may have it too: see
/// [`try_keys`].
pub fn find_key<'a>(keys: &'a CoseKeySet, key_id: &[u8]) -> Option<&'a CoseKey>
    ensures { option_map (λ k. key_view k.now) result
        ≡ first_with key_id.now (key_set_view keys.now) }
{
    keys.0.iter().find(|key| key.key_id.as_slice() == key_id)
}

/// Tries the keys with this identifier in order, until `attempt` doesn't reject one.
///
/// An identifier isn't unique, so each key with it may be the one (RFC 8152, section 3.1). Returns
/// the result for the key that wasn't rejected.
///
/// # Errors
/// - `Rejected` if `attempt` rejects each key with this identifier, or if there is none.
/// - `OutOfMemory` if `attempt` returns it for a key. Later keys aren't tried.
pub fn try_keys<F, T>(keys: &CoseKeySet, key_id: &[u8], attempt: F) -> Result<T, Refused>
where
    F: Fn(&CoseKey) -> Result<T, Refused> + Drop,
    T: Drop,
    requires { F.IsAlwaysCallable attempt }
    ensures { TriesInOrder (FnReturnsAt F.Fn attempt) (keys_with key_id.now keys.now.0.items)
        result }
{
    for key in &keys.0 {
        if key.key_id.as_slice() == key_id {
            match attempt(key) {
                Ok(made) => return Ok(made),
                Err(Refused::OutOfMemory) => return Err(Refused::OutOfMemory),
                Err(Refused::Rejected) => {}
            }
        }
    }
    Err(Refused::Rejected)
}

/// Decodes a set of keys, and returns the first key with this identifier, with its parameters in
/// order.
///
/// # Errors
/// - A fault in bytes that aren't a set of keys.
/// - `OutOfMemory` if an allocation fails.
pub fn key_of(
    alloc: Global,
    keys: &[u8],
    key_id: &[u8],
    ordering: CborOrdering,
) -> coset::Result<Option<CoseKey>>
    ensures found { IfOk result (λ o. IsKeyOf ordering keys.now key_id.now
        (option_map key_view o)) }
    ensures refused { IfErr result (λ e. IsRefused key_set keys.now e) }
{
    let keys = CoseKeySet::from_slice(alloc, keys)?;
    let Some(found) = find_key(&keys, key_id) else {
        return Ok(None);
    };
    let mut key = found.clone()?;
    key.canonicalize(alloc, ordering)?;
    Ok(Some(key))
}
