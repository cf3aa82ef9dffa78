//! Finding equal keys in a list of pairs.

ghost use Rattle.std.specs.Prelude.{◌≡◌, ◌<◌, length, not, IfOk, IfErr};
ghost use Rattle.std.specs.Map.{keys_of};
ghost use Rattle.coset_codec.specs.declared.error.CoseError.TheVariants.{OutOfMemory};
ghost use Rattle.coset_codec.specs.Maps.{are_distinct};

use crate::error::Result;
use std::alloc::Global;

/// The most pairs whose keys are compared with each other without sorting.
const MAX_PAIRWISE: usize = 16;

/// Returns true if two of the keys are equal. The keys of up to 16 pairs are compared with each
/// other, without allocating. More keys are sorted by reference, so the work grows with n log n.
///
/// # Errors
/// `OutOfMemory` if an allocation fails. This happens only for more than 16 pairs.
pub fn has_repeats<K: Ord, V>(alloc: Global, pairs: &[(K, V)]) -> Result<bool>
    ensures answer { IfOk result (λ b. b ≡ not (are_distinct K.eq (keys_of pairs.now))) }
    ensures memory { IfErr result (λ e. (e ≡ OutOfMemory) × (16 < length pairs.now)) }
{
    if pairs.len() <= MAX_PAIRWISE {
        return Ok(has_repeats_pairwise(pairs));
    }
    has_repeats_sorted(alloc, pairs)
}

/// Returns true if two of the keys are equal, by sorting references to the keys.
///
/// # Errors
/// `OutOfMemory` if an allocation fails.
#[inline(never)]
fn has_repeats_sorted<K: Ord, V>(alloc: Global, pairs: &[(K, V)]) -> Result<bool>
    ensures answer { IfOk result (λ b. b ≡ not (are_distinct K.eq (keys_of pairs.now))) }
    ensures memory { IfErr result (λ e. e ≡ OutOfMemory) }
{
    let mut keys = Vec::with_capacity(alloc, pairs.len())?;
    keys.extend(pairs.iter().map(|(key, _)| key))?;
    keys.sort_unstable();
    Ok(!keys.is_sorted_by(|a, b| a < b))
}

/// Returns true if two of the keys are equal, by comparing each key with those after it.
fn has_repeats_pairwise<K: PartialEq, V>(pairs: &[(K, V)]) -> bool
    ensures { result ≡ not (are_distinct K.eq (keys_of pairs.now)) }
{
    let mut left = pairs;
    while let [(key, _), later @ ..] = left {
        if later.iter().any(|(other, _)| key == other) {
            return true;
        }
        left = later;
    }
    false
}
