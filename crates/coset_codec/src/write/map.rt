//! Maps written directly to bytes: a head with the number of pairs, and then each pair.

ghost use Rattle.coset_codec.specs.declared.error.CoseError.TheVariants.{OutOfMemory as out_of_memory};
ghost use Rattle.std.specs.Prelude.{◌≡◌, ◌+◌, ◌++◌, ◌<◌, ◌^◌, OnOk, IfErr, Some, option_map, is_some, filter, length, map};
ghost use Rattle.coset_value.specs.View.{value_item};
ghost use Rattle.coset_cbor.specs.Least.{Extends, least_head};
ghost use Rattle.coset_codec.specs.Encoding.{AppendsAll, AppendsField, HasNoImage};
ghost use Rattle.coset_codec.specs.Maps.{field_shape_image, unless_empty, labelled_image};
ghost use Rattle.coset_codec.specs.Shape.{nonempty_bstr, present_image};

use crate::error::Result;
use crate::write::Encode;
use coset_cbor::OutOfMemory;
use coset_cbor::ser::write_map_head;
use coset_cbor::value::Value;
use std::alloc::Global;

/// Counts the true elements. The compiler unrolls such a plain loop.
#[inline(always)]
fn count_true(there: &[bool]) -> usize
    ensures { result ≡ length (filter (λ b. b) there.now) }
{
    let mut count = 0;
    for b in there {
        if *b {
            count += 1;
        }
    }
    count
}

/// Appends the head of a map of the present fields and the pairs of `rest`. `there` says of each
/// field if it is present.
///
/// # Errors
/// `OutOfMemory` if an allocation fails, or if the number of pairs overflows `usize`. `out` is then
/// as [`Codec::write`](crate::Codec::write) leaves it.
#[inline(always)]
pub fn write_pairs_head<L>(
    there: &[bool],
    rest: &[(L, Value)],
    out: &mut Vec<u8>,
) -> Result<(), OutOfMemory>
    ensures ok { OnOk result (out.new.items ≡ out.old.items
        ++ least_head 5 (length (filter (λ b. b) there.now) + length rest.now)) }
    ensures fits { OnOk result
        (length (filter (λ b. b) there.now) + length rest.now < 2 ^ 64) }
    ensures kept { Extends out.old.items out.new.items }
{
    match count_true(there).checked_add(rest.len()) {
        Some(count) => write_map_head(count, out),
        None => Err(OutOfMemory),
    }
}

/// Appends a pair of this label and value.
///
/// # Errors
/// The errors of writing the value. `out` is then as [`Codec::write`](crate::Codec::write) leaves
/// it.
#[inline(always)]
pub fn write_field<T: Encode>(alloc: Global, label: i64, value: &T, out: &mut Vec<u8>) -> Result<()>
    ensures ok { OnOk result
        (AppendsField label (option_map Some (T.image value.now)) out.old.items out.new.items) }
    ensures refused { IfErr result (HasNoImage (T.image value.now)) }
    ensures kept { Extends out.old.items out.new.items }
{
    label.encode(alloc, out)?;
    value.append(alloc, out)
}

/// Appends a pair of this label and the value, if there is a value.
///
/// # Errors
/// The errors of writing the value. `out` is then as [`Codec::write`](crate::Codec::write) leaves
/// it.
#[inline(always)]
pub fn write_optional<T: Encode>(
    alloc: Global,
    label: i64,
    value: &Option<T>,
    out: &mut Vec<u8>,
) -> Result<()>
    ensures ok { OnOk result (AppendsField label (field_shape_image (is_some value.now)
        (present_image T.image value.now)) out.old.items out.new.items) }
    ensures refused { IfErr result
        (HasNoImage (field_shape_image (is_some value.now) (present_image T.image value.now))) }
    ensures kept { Extends out.old.items out.new.items }
{
    match value {
        Some(value) => write_field(alloc, label, value, out),
        None => Ok(()),
    }
}

/// Appends a pair of this label and these bytes, unless the bytes are empty.
///
/// # Errors
/// `OutOfMemory` if an allocation fails.
#[inline(always)]
pub fn write_nonempty(alloc: Global, label: i64, bytes: &Vec<u8>, out: &mut Vec<u8>) -> Result<()>
    ensures ok { OnOk result (AppendsField label
        ((unless_empty nonempty_bstr).image bytes.now.items) out.old.items out.new.items) }
    ensures memory { IfErr result (λ e. e ≡ out_of_memory) }
    ensures kept { Extends out.old.items out.new.items }
{
    if bytes.is_empty() {
        return Ok(());
    }
    write_field(alloc, label, bytes, out)
}

/// Appends the pairs of `rest`, in order.
///
/// # Errors
/// - `OutOfMemory` if an allocation fails.
/// - Otherwise the error of the first label that has one.
///
/// `out` is then as [`Codec::write`](crate::Codec::write) leaves it.
pub fn write_rest<L: Encode>(alloc: Global, rest: &[(L, Value)], out: &mut Vec<u8>) -> Result<()>
    ensures ok { OnOk result
        (AppendsAll (labelled_image L.image (map (λ e. (e.0, value_item e.1)) rest.now))
        out.old.items
        out.new.items) }
    ensures refused { IfErr result
        (HasNoImage (labelled_image L.image (map (λ e. (e.0, value_item e.1)) rest.now))) }
    ensures kept { Extends out.old.items out.new.items }
{
    for (label, value) in rest {
        label.append(alloc, out)?;
        value.append(alloc, out)?;
    }
    Ok(())
}
