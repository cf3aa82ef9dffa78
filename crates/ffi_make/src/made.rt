//! Writes a new item in its shortest encoding, once it is checked to be of its kind.

ghost use Rattle.std.specs.Prelude.{◌≡◌, option_map};
ghost use Rattle.coset.specs.View.{value_item};
ghost use Rattle.ffi_make.specs.Makes.{FindsText, IsMade, IsMisfit, WritesAgain, WritesMade};

use crate::given::value_in;
use coset::cbor::value::Value;
use coset::{CborSerializable, Result};
use ffi_query::{Kind, Refusal, check, write_found};
use std::alloc::Global;

/// Returns the shortest encoding of the new item, if it is of this kind.
///
/// # Errors
/// - The reason why the item isn't of the kind.
/// - `OutOfMemory` if an allocation fails.
pub(crate) fn encoded(alloc: Global, kind: Kind, made: Option<Value>) -> Result<Option<Vec<u8>>>
    ensures { let o = option_map value_item made in
        FindsText (λ b. b.items) (IsMade kind o) (o ≡ None) (IsMisfit kind o) result }
{
    match made {
        Some(value) => {
            let bytes = value.to_vec(alloc)?;
            check(alloc, kind, &bytes)?;
            Ok(Some(bytes))
        }
        None => Ok(None),
    }
}

/// Writes a new item to the front of `out` in its shortest encoding, and returns its length.
///
/// # Errors
/// - `Short` with the length needed, if `out` is too small.
/// - `Absent` if no item was made.
/// - `Cose` with the error that `made` has, or if the item isn't of the kind, or an allocation
///   fails.
///
/// `out` is then unchanged.
pub(crate) fn write_made(
    alloc: Global,
    kind: Kind,
    made: Result<Option<Value>>,
    out: &mut [u8],
) -> Result<usize, Refusal>
    ensures { WritesMade kind (option_map value_item) made out.old out.new result }
{
    match made {
        Ok(made) => write_found(encoded(alloc, kind, made), out),
        Err(error) => Err(Refusal::Cose(error)),
    }
}

/// Writes an item to the front of `out` in its shortest encoding, and returns its length.
///
/// The encoding is that of RFC 8949, section 4.2.1, except that pairs keep their order. The bytes
/// of protected headers are unchanged.
///
/// # Errors
/// - `Short` with the length needed, if `out` is too small.
/// - `Cose` if the bytes aren't one item, the item isn't of the kind, or an allocation fails.
///
/// `out` is then unchanged.
pub fn write(alloc: Global, kind: Kind, bytes: &[u8], out: &mut [u8]) -> Result<usize, Refusal>
    ensures { WritesAgain kind bytes.now out.old out.new result }
{
    match value_in(alloc, bytes) {
        Ok(value) => write_made(alloc, kind, Ok(Some(value)), out),
        Err(error) => Err(Refusal::Cose(error)),
    }
}
