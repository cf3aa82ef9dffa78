//! Reads and writes sequences of CBOR items (RFC 8742).

ghost use Rattle.std.specs.Prelude.{◌≡◌, ◌≤◌, ◌<◌, ◌+◌, ◌++◌, ℕ, List, IfOk, length, map, take};
ghost use Rattle.coset_cbor.specs.Grammar.{IsItem};
ghost use Rattle.coset_cbor.specs.Shortest.{IsShortest};
ghost use Rattle.coset_value.specs.Item.{Item};
ghost use Rattle.coset_value.specs.View.{value_item};
ghost use Rattle.example_uses.specs.Sequence.{IsSequence};

use coset::Result;
use coset::cbor::de::{EndOfFile, Error, Pull, Steps, check};
use coset::cbor::ser::write_value;
use coset::cbor::value::Value;
use std::alloc::Global;
use std::marker::Brand;
use std::sync::ledger::{Blank, Ledger};

/// Decodes the items in the bytes, one after another.
///
/// # Errors
/// - A fault in the remaining bytes, if they don't begin with an item.
/// - `OutOfMemory` if an allocation fails.
pub fn values_in(alloc: Global, bytes: &[u8]) -> Result<Vec<Value>>
    ensures { IfOk result (λ vs. IsSequence (map value_item vs.items) bytes.now) }
{
    let mut values = Vec::new(alloc);
    let mut left = bytes;
    while !left.is_empty() {
        let (item, rest) = Pull::new(left)?;
        values.push(item.to_value(alloc)?)?;
        left = rest;
    }
    Ok(values)
}

/// Appends the shortest encoding of one more item to a sequence.
///
/// # Errors
/// `OutOfMemory` if an allocation fails.
pub fn and_value(mut sequence: Vec<u8>, value: &Value) -> Result<Vec<u8>>
    ensures { IfOk result (λ s. (b : List ℕ) × (s.items ≡ sequence.items ++ b)
        × IsShortest b (value_item value.now)) }
{
    write_value(value, &mut sequence)?;
    Ok(sequence)
}

/// Returns the lengths of the items at the fronts of both inputs.
///
/// This allocates nothing. It takes at most as many steps as the two inputs have bytes.
///
/// # Errors
/// A fault at the front of the first input, otherwise of the second.
pub fn front_lengths<L: Ledger>(
    first: &[u8],
    second: &[u8],
    steps: &mut Steps<L>,
) -> Result<(usize, usize), Error<EndOfFile>>
    ensures items { IfOk result (λ n. (v : Item) × (w : Item) × IsItem (take n.0 first.now) v
        × IsItem (take n.1 second.now) w) }
    ensures bound { steps.new ≤ steps.old + (length first.now + length second.now) }
{
    let one = check(first, steps)?;
    let other = check(second, steps)?;
    Ok((one, other))
}

/// Returns the same lengths with a counter of its own. The counter's ledger is the one of `blank`.
fn counted_lengths<L: Ledger>(
    first: &[u8],
    second: &[u8],
    blank: Blank,
) -> Result<(usize, usize), Error<EndOfFile>>
    requires name { blank.name ≡ L.name }
    requires parts { blank.parts ≡ L.parts }
    requires some { 0 < L.parts }
    ensures { IfOk result (λ n. (v : Item) × (w : Item) × IsItem (take n.0 first.now) v
        × IsItem (take n.1 second.now) w) }
{
    let mut steps = Steps::<L>::new(blank);
    front_lengths(first, second, &mut steps)
}

/// Returns the same lengths as [`front_lengths`], for callers that don't need the number of steps.
///
/// # Errors
/// The errors of [`front_lengths`].
pub fn uncounted_lengths(first: &[u8], second: &[u8]) -> Result<(usize, usize), Error<EndOfFile>>
    ensures { IfOk result (λ n. (v : Item) × (w : Item) × IsItem (take n.0 first.now) v
        × IsItem (take n.1 second.now) w) }
{
    counted_lengths::<Brand>(first, second, Blank::new(1))
}
