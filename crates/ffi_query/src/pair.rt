//! Finds the pairs of a map by index.

ghost use Rattle.std.specs.Prelude.{◌≡◌, IfOk, IfErr};
ghost use Rattle.coset.specs.CoseError.TheVariants.{OutOfMemory};
ghost use Rattle.coset.specs.Pulls.{pull_item};
ghost use Rattle.ffi_query.specs.Results.{Answers, Finds};
ghost use Rattle.ffi_query.specs.Pairs.{IsHalf, half_of};

use crate::item::{encoding, item_of};
use crate::kind::Kind;
use crate::located::{alone, pair_located};
use crate::refusal::Refusal;
use crate::written::write_found;
use coset::Result;
use coset::cbor::de::Pull;
use std::alloc::Global;

/// A half of a map's pair.
#[derive(Clone, Copy, Debug, PartialEq, Eq)]
pub enum Half {
    /// The key.
    Key,
    /// The value.
    Value,
}

/// Returns this half of a pair.
fn half_of<'a>(half: Half, key: Pull<'a>, value: Pull<'a>) -> Pull<'a>
    ensures { pull_item result ≡ half_of half (pull_item key.entry, pull_item value.entry) }
{
    match half {
        Half::Key => key,
        Half::Value => value,
    }
}

/// Returns the shortest encoding of this half of the pair at `index`.
///
/// # Errors
/// `OutOfMemory` if an allocation fails.
fn find_half(alloc: Global, half: Half, item: Pull<'_>, index: usize) -> Result<Option<Vec<u8>>>
    ensures found { IfOk result (Finds (λ b. b.items)
        (IsHalf half index (pull_item item.entry))) }
    ensures memory { IfErr result (λ e. e ≡ OutOfMemory) }
{
    match pair_located(alone(item), index) {
        Some((key, value)) => {
            let found = half_of(half, key.item, value.item).to_value(alloc)?;
            Ok(Some(encoding(alloc, &found)?))
        }
        None => Ok(None),
    }
}

/// Writes the key or the value of a map's pair to the front of `out`, and returns its length.
///
/// `index` counts the pairs from 0. The key or value is written in its shortest encoding (RFC 8949,
/// section 4.2.1).
///
/// # Errors
/// - `Short` with the length needed, if `out` is too small.
/// - `Absent` if the item isn't a map, or has no pair at `index`.
/// - `Cose` with an error of [`check`](crate::check).
///
/// `out` is then unchanged.
pub fn pair_of(
    alloc: Global,
    kind: Kind,
    bytes: &[u8],
    half: Half,
    index: usize,
    out: &mut [u8],
) -> Result<usize, Refusal>
    ensures { Answers kind bytes.now (IsHalf half index) out.old out.new result }
{
    match item_of(alloc, kind, bytes) {
        Ok(item) => write_found(find_half(alloc, half, item, index), out),
        Err(error) => Err(Refusal::Cose(error)),
    }
}
