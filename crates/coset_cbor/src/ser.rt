//! Writes values as bytes (RFC 8949, section 4.2.1), whole or part by part.

ghost use Rattle.std.specs.Prelude.{◌≡◌, ◌++◌, take, IsOk, OnOk, OnErr};
ghost use Rattle.coset_value.specs.Item.{bytes, text, integer};
ghost use Rattle.coset_value.specs.Range.{IsInRange};
ghost use Rattle.coset_value.specs.View.{value_item};
ghost use Rattle.coset_cbor.specs.Least.{least_head, least_encoding};
ghost use Rattle.coset_cbor.specs.Shortest.{AppendsShortest};

use crate::head::MajorType;
use crate::memory::OutOfMemory;
use crate::write::{put, put_head, put_integer, put_owned, put_string, put_text};
use coset_value::{Integer, Value};
use std::alloc::AllocError;
use std::{error, fmt};

/// Why a value was not written. No call of this crate returns this type. It is there for the errors
/// of other writers.
#[derive(Debug, Drop)]
pub enum Error<T> {
    /// The writer failed.
    Io(T),
    /// The value can't be written.
    Value(String),
}

impl<T: fmt::Debug> fmt::Display for Error<T> {
    fn fmt<W: fmt::Write>(&self, f: &mut fmt::Formatter<W>) -> fmt::Result {
        write!(f, "{self:?}")
    }
}

impl<T: fmt::Debug + Drop> error::Error for Error<T> {}

/// Appends the shortest encoding of `value` to `out` (RFC 8949, section 4.2.1). The keys of a map
/// keep their order, and floats keep their width.
///
/// # Errors
/// `OutOfMemory` if an allocation fails. The bytes of `out` are then unchanged; its capacity may
/// have grown.
pub fn write_value(value: &Value, out: &mut Vec<u8>) -> Result<(), OutOfMemory>
    ensures ok { OnOk result (AppendsShortest out.old.items out.new.items (value_item value.now)) }
    ensures refused { OnErr result (out.new.items ≡ out.old.items) }
{
    let before = out.len();
    let written = put(out, value);
    rolled_back(written, before, out)
}

/// Appends the shortest encoding of `value`, as [`write_value`] does, and consumes the value.
///
/// Each element of an array or a map is dropped as soon as it is written. This is faster than
/// dropping them all afterwards, because the element is still in the cache. The item in a tag is
/// dropped with the tag.
///
/// # Errors
/// The same as [`write_value`]. The value is consumed all the same.
pub fn write_owned_value(value: Value, out: &mut Vec<u8>) -> Result<(), OutOfMemory>
    ensures ok { OnOk result (AppendsShortest out.old.items out.new.items (value_item value)) }
    ensures refused { OnErr result (out.new.items ≡ out.old.items) }
{
    let before = out.len();
    let written = put_owned(out, value);
    rolled_back(written, before, out)
}

/// Appends the shortest head of an array (RFC 8949, section 3.1, major type 4). The caller must
/// append `count` items after it.
///
/// # Errors
/// The same as [`write_value`].
#[inline(always)]
pub fn write_array_head(count: usize, out: &mut Vec<u8>) -> Result<(), OutOfMemory>
    ensures ok { OnOk result (out.new.items ≡ out.old.items ++ least_head 4 count) }
    ensures refused { OnErr result (out.new.items ≡ out.old.items) }
{
    let before = out.len();
    let written = put_head(out, MajorType::Array, count as u64);
    rolled_back(written, before, out)
}

/// Appends the shortest head of a map (RFC 8949, section 3.1, major type 5). The caller must append
/// `count` pairs after it.
///
/// # Errors
/// The same as [`write_value`].
#[inline(always)]
pub fn write_map_head(count: usize, out: &mut Vec<u8>) -> Result<(), OutOfMemory>
    ensures ok { OnOk result (out.new.items ≡ out.old.items ++ least_head 5 count) }
    ensures refused { OnErr result (out.new.items ≡ out.old.items) }
{
    let before = out.len();
    let written = put_head(out, MajorType::Map, count as u64);
    rolled_back(written, before, out)
}

/// Appends the shortest head of a tag (RFC 8949, section 3.1, major type 6). The caller must append
/// the enclosed item after it.
///
/// # Errors
/// The same as [`write_value`].
#[inline(always)]
pub fn write_tag_head(number: u64, out: &mut Vec<u8>) -> Result<(), OutOfMemory>
    ensures ok { OnOk result (out.new.items ≡ out.old.items ++ least_head 6 number) }
    ensures refused { OnErr result (out.new.items ≡ out.old.items) }
{
    let before = out.len();
    let written = put_head(out, MajorType::Tag, number);
    rolled_back(written, before, out)
}

/// Appends the shortest encoding of a byte string (RFC 8949, section 3.1, major type 2).
///
/// # Errors
/// The same as [`write_value`].
#[inline(always)]
pub fn write_bytes(content: &[u8], out: &mut Vec<u8>) -> Result<(), OutOfMemory>
    ensures ok { OnOk result (out.new.items ≡ out.old.items ++ least_encoding (bytes content.now)) }
    ensures in_range { OnOk result (IsInRange (bytes content.now)) }
    ensures refused { OnErr result (out.new.items ≡ out.old.items) }
{
    let before = out.len();
    let written = put_string(out, MajorType::Bytes, content);
    rolled_back(written, before, out)
}

/// Appends the shortest encoding of a text string (RFC 8949, section 3.1, major type 3).
///
/// # Errors
/// The same as [`write_value`].
#[inline(always)]
pub fn write_text(content: &str, out: &mut Vec<u8>) -> Result<(), OutOfMemory>
    ensures ok { OnOk result (out.new.items ≡ out.old.items ++ least_encoding (text content.now)) }
    ensures in_range { OnOk result (IsInRange (text content.now)) }
    ensures refused { OnErr result (out.new.items ≡ out.old.items) }
{
    let before = out.len();
    let written = put_text(out, content);
    rolled_back(written, before, out)
}

/// Appends the shortest encoding of an integer (RFC 8949, section 3.1, major types 0 and 1).
///
/// # Errors
/// The same as [`write_value`].
#[inline(always)]
pub fn write_integer(n: Integer, out: &mut Vec<u8>) -> Result<(), OutOfMemory>
    ensures ok { OnOk result (out.new.items ≡ out.old.items ++ least_encoding (integer n)) }
    ensures in_range { OnOk result (IsInRange (integer n)) }
    ensures refused { OnErr result (out.new.items ≡ out.old.items) }
{
    let before = out.len();
    let written = put_integer(out, n);
    rolled_back(written, before, out)
}

/// Returns the result of a write. After an error, truncates `out` to its first `before` bytes.
#[inline(always)]
fn rolled_back(
    written: Result<(), AllocError>,
    before: usize,
    out: &mut Vec<u8>,
) -> Result<(), OutOfMemory>
    ensures ok { OnOk result (IsOk written) }
    ensures same { OnOk result (out.new.items ≡ out.old.items) }
    ensures refused { OnErr result (out.new.items ≡ take before out.old.items) }
{
    match written {
        Ok(()) => Ok(()),
        Err(_) => {
            out.truncate(before);
            Err(OutOfMemory)
        }
    }
}
