//! Pairs of a map that are among those of another map.

ghost use Rattle.std.specs.Prelude.{◌≡◌, IfOk, IfErr};
ghost use Rattle.coset.specs.CoseError.TheVariants.{OutOfMemory};
ghost use Rattle.coset.specs.View.{value_item, value_pairs};
ghost use Rattle.cwt_verify.specs.HeaderClaims.{all_pairs, has_pair};
ghost use Rattle.cwt_verify.specs.Pairs.{AreEncoded, IsEncoded};

use coset::Result;
use coset::cbor::ser::write_value;
use coset::cbor::value::Value;
use coset::laws::{one_item, one_shortest, shortest_is_encoding, shortest_is_in_range};
use std::alloc::Global;
use std::collections::BTreeSet;

/// The most pairs that are looked for one by one, without allocating.
const MAX_ONE_BY_ONE: usize = 16;

/// Returns true if the pair is one of these.
fn has_pair(pair: &(Value, Value), pairs: &[(Value, Value)]) -> bool
    ensures { result ≡ has_pair (value_pairs pairs.now) (value_item pair.now.0)
        (value_item pair.now.1) }
{
    pairs
        .iter()
        .any(|(key, value)| *key == pair.0 && *value == pair.1)
}

/// Returns the shortest encoding of the key, followed by that of the value.
///
/// # Errors
/// `OutOfMemory` if an allocation fails.
fn encoded(alloc: Global, pair: &(Value, Value)) -> Result<Vec<u8>>
    ensures encoded { IfOk result (λ b. IsEncoded pair.now b.items) }
    ensures memory { IfErr result (λ e. e ≡ OutOfMemory) }
{
    let mut bytes = Vec::new(alloc);
    write_value(&pair.0, &mut bytes)?;
    write_value(&pair.1, &mut bytes)?;
    Ok(bytes)
}

/// Returns the encodings of the pairs.
///
/// # Errors
/// `OutOfMemory` if an allocation fails.
fn encodings(alloc: Global, pairs: &[(Value, Value)]) -> Result<BTreeSet<Vec<u8>>>
    ensures encoded { IfOk result (λ s. AreEncoded pairs.now s) }
    ensures memory { IfErr result (λ e. e ≡ OutOfMemory) }
{
    let mut found = BTreeSet::new(alloc);
    for pair in pairs {
        found.insert(encoded(alloc, pair)?)?;
    }
    Ok(found)
}

/// Returns true if each of the pairs in `some` is one of `pairs`. More than 16 are compared by sets
/// of their encodings, so the time grows as n log n.
///
/// # Errors
/// `OutOfMemory` if an allocation fails. This happens only for more than 16 pairs in `some`.
pub(crate) fn are_among(
    alloc: Global,
    some: &[(Value, Value)],
    pairs: &[(Value, Value)],
) -> Result<bool>
    ensures answer { IfOk result (λ b. b
        ≡ all_pairs (has_pair (value_pairs pairs.now)) (value_pairs some.now)) }
    ensures memory { IfErr result (λ e. e ≡ OutOfMemory) }
{
    one_item();
    one_shortest();
    shortest_is_encoding();
    shortest_is_in_range();
    if some.len() <= MAX_ONE_BY_ONE {
        return Ok(some.iter().all(|pair| has_pair(pair, pairs)));
    }
    let wanted = encodings(alloc, some)?;
    let known = encodings(alloc, pairs)?;
    Ok(wanted.is_subset(&known))
}
