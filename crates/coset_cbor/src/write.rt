//! Writes values as bytes.

ghost use Rattle.std.specs.Prelude.{◌≡◌, ◌++◌, ◌∷◌, [], OnOk, length, ◌*◌, ◌+◌, ◌<◌, ◌^◌};
ghost use Rattle.std.specs.Str.{IsUtf8};
ghost use Rattle.coset_value.specs.Range.{IsIntegerInRange, AreBitsInRange, IsInRange, AreInRange, ArePairsInRange};
ghost use Rattle.coset_value.specs.View.{value_item, bits_of, value_items, value_pairs};
ghost use Rattle.coset_cbor.specs.Heads.{major_type_number};
ghost use Rattle.coset_cbor.specs.Least.{least_head, least_encoding, least_encodings, least_pair_encodings, integer_encoding, float_encoding, Extends};

use crate::head::MajorType;
use coset_value::{Float, Integer, Value};
use std::alloc::AllocError;

/// Returns the initial byte of a head of this major type, with these low five bits.
fn first_byte(major_type: MajorType, low: u8) -> u8
    requires { low < 32 }
    ensures { result ≡ 32 * major_type_number major_type + low }
{
    32 * (major_type as u8) + low
}

/// Appends a byte and then `more`, which may be empty. After an error, part of them may remain.
#[inline(always)]
fn put_two(out: &mut Vec<u8>, first: u8, more: &[u8]) -> Result<(), AllocError>
    ensures ok { OnOk result (out.new.items ≡ out.old.items ++ first ∷ more.now) }
    ensures kept { Extends out.old.items out.new.items }
{
    out.push(first)?;
    out.extend_from_slice(more)?;
    Ok(())
}

/// Appends the shortest head of this major type with argument `n`.
#[tactic(auto, unfolding(crate::specs::Least::least_head))]
pub(crate) fn put_head(out: &mut Vec<u8>, major_type: MajorType, n: u64) -> Result<(), AllocError>
    ensures ok { OnOk result (out.new.items ≡ out.old.items
        ++ least_head (major_type_number major_type) n) }
    ensures kept { Extends out.old.items out.new.items }
{
    if n < 24 {
        out.push(first_byte(major_type, n as u8))?;
        Ok(())
    } else if n < 0x100 {
        put_two(out, first_byte(major_type, 24), &[n as u8])
    } else if n < 0x1_0000 {
        put_two(out, first_byte(major_type, 25), &(n as u16).to_be_bytes())
    } else if n < 0x1_0000_0000 {
        put_two(out, first_byte(major_type, 26), &(n as u32).to_be_bytes())
    } else {
        put_two(out, first_byte(major_type, 27), &n.to_be_bytes())
    }
}

fn put_float(out: &mut Vec<u8>, float: Float) -> Result<(), AllocError>
    ensures ok { OnOk result (out.new.items ≡ out.old.items ++ float_encoding (bits_of float)) }
    ensures in_range { OnOk result (AreBitsInRange (bits_of float)) }
    ensures kept { Extends out.old.items out.new.items }
{
    match float {
        Float::Half(bits) => put_two(out, 0xF9, &bits.to_be_bytes()),
        Float::Single(bits) => put_two(out, 0xFA, &bits.to_be_bytes()),
        Float::Double(bits) => put_two(out, 0xFB, &bits.to_be_bytes()),
    }
}

pub(crate) fn put_integer(out: &mut Vec<u8>, n: Integer) -> Result<(), AllocError>
    ensures ok { OnOk result (out.new.items ≡ out.old.items ++ integer_encoding n) }
    ensures in_range { OnOk result (IsIntegerInRange n) }
    ensures kept { Extends out.old.items out.new.items }
{
    let n = i128::from(n);
    if n >= 0 {
        put_head(out, MajorType::Unsigned, n as u64)
    } else {
        put_head(out, MajorType::Negative, (-1 - n) as u64)
    }
}

/// Appends a head with the length, and then the bytes.
pub(crate) fn put_string(
    out: &mut Vec<u8>,
    major_type: MajorType,
    bytes: &[u8],
) -> Result<(), AllocError>
    ensures ok { OnOk result (out.new.items ≡ out.old.items
        ++ (least_head (major_type_number major_type) (length bytes.now) ++ bytes.now)) }
    ensures in_range { OnOk result (length bytes.now < 2 ^ 64) }
    ensures kept { Extends out.old.items out.new.items }
{
    put_head(out, major_type, bytes.len() as u64)?;
    out.extend_from_slice(bytes)?;
    Ok(())
}

/// Appends a text string: a head with the length, and then the bytes.
pub(crate) fn put_text(out: &mut Vec<u8>, text: &str) -> Result<(), AllocError>
    ensures ok { OnOk result (out.new.items ≡ out.old.items
        ++ (least_head 3 (length text.now) ++ text.now)) }
    ensures in_range { OnOk result ((length text.now < 2 ^ 64) × IsUtf8 text.now) }
    ensures kept { Extends out.old.items out.new.items }
{
    put_string(out, MajorType::Text, text.as_bytes())
}

/// Appends the shortest encoding of `value`. After an error, part of it may remain.
#[cycle(put)]
pub(crate) fn put(out: &mut Vec<u8>, value: &Value) -> Result<(), AllocError>
    ensures ok { OnOk result (out.new.items ≡ out.old.items ++ least_encoding
        (value_item value.now)) }
    ensures in_range { OnOk result (IsInRange (value_item value.now)) }
    ensures kept { Extends out.old.items out.new.items }
{
    match value {
        Value::Integer(n) => put_integer(out, *n),
        Value::Bytes(bytes) => put_string(out, MajorType::Bytes, bytes),
        Value::Float(x) => put_float(out, *x),
        Value::Text(text) => put_text(out, text.as_str()),
        Value::Bool(false) => put_two(out, 0xF4, &[]),
        Value::Bool(true) => put_two(out, 0xF5, &[]),
        Value::Null => put_two(out, 0xF6, &[]),
        Value::Tag(number, inside) => {
            put_head(out, MajorType::Tag, *number)?;
            put(out, inside)
        }
        Value::Array(items) => {
            put_head(out, MajorType::Array, items.len() as u64)?;
            put_items(out, items)
        }
        Value::Map(pairs) => {
            put_head(out, MajorType::Map, pairs.len() as u64)?;
            put_pairs(out, pairs)
        }
    }
}

#[cycle(put)]
fn put_items(out: &mut Vec<u8>, items: &Vec<Value>) -> Result<(), AllocError>
    ensures ok { OnOk result (out.new.items ≡ out.old.items
        ++ least_encodings (value_items items.now.items)) }
    ensures in_range { OnOk result (AreInRange (value_items items.now.items)) }
    ensures kept { Extends out.old.items out.new.items }
{
    for item in items {
        put(out, item)?;
    }
    Ok(())
}

#[cycle(put)]
fn put_pairs(out: &mut Vec<u8>, pairs: &Vec<(Value, Value)>) -> Result<(), AllocError>
    ensures ok { OnOk result (out.new.items ≡ out.old.items
        ++ least_pair_encodings (value_pairs pairs.now.items)) }
    ensures in_range { OnOk result (ArePairsInRange (value_pairs pairs.now.items)) }
    ensures kept { Extends out.old.items out.new.items }
{
    for (key, value) in pairs {
        put(out, key)?;
        put(out, value)?;
    }
    Ok(())
}

/// Appends the shortest encoding of `value`, and drops each element of an array or a map as soon as
/// it is written. The item in a tag is dropped with the tag. After an error, part of the encoding
/// may remain.
#[cycle(put_owned)]
pub(crate) fn put_owned(out: &mut Vec<u8>, value: Value) -> Result<(), AllocError>
    ensures ok { OnOk result (out.new.items ≡ out.old.items ++ least_encoding (value_item value)) }
    ensures in_range { OnOk result (IsInRange (value_item value)) }
    ensures kept { Extends out.old.items out.new.items }
{
    match value {
        Value::Integer(n) => put_integer(out, n),
        Value::Bytes(bytes) => put_string(out, MajorType::Bytes, &bytes),
        Value::Text(text) => put_text(out, text.as_str()),
        Value::Array(array) => {
            put_head(out, MajorType::Array, array.len() as u64)?;
            put_owned_items(out, array)
        }
        Value::Map(map) => {
            put_head(out, MajorType::Map, map.len() as u64)?;
            put_owned_pairs(out, map)
        }
        other => put(out, &other),
    }
}

#[cycle(put_owned)]
fn put_owned_items(out: &mut Vec<u8>, items: Vec<Value>) -> Result<(), AllocError>
    ensures ok { OnOk result (out.new.items ≡ out.old.items
        ++ least_encodings (value_items items.items)) }
    ensures in_range { OnOk result (AreInRange (value_items items.items)) }
    ensures kept { Extends out.old.items out.new.items }
{
    for item in items {
        put_owned(out, item)?;
    }
    Ok(())
}

#[cycle(put_owned)]
fn put_owned_pairs(out: &mut Vec<u8>, pairs: Vec<(Value, Value)>) -> Result<(), AllocError>
    ensures ok { OnOk result (out.new.items ≡ out.old.items
        ++ least_pair_encodings (value_pairs pairs.items)) }
    ensures in_range { OnOk result (ArePairsInRange (value_pairs pairs.items)) }
    ensures kept { Extends out.old.items out.new.items }
{
    for (key, value) in pairs {
        put_owned(out, key)?;
        put_owned(out, value)?;
    }
    Ok(())
}
