//! Writing values directly as bytes: the one writer of each type.

ghost use Rattle.std.specs.Prelude.{◌≡◌, [], length, take, Option, Some, option_map, OnOk, OnErr, IfErr};
ghost use Rattle.coset_value.specs.Item.{Item, array, item, bytes, tag};
ghost use Rattle.coset_value.specs.View.{value_item};
ghost use Rattle.coset_cbor.specs.Least.{Extends};
ghost use Rattle.coset_codec.specs.Results.{Images, Writes};
ghost use Rattle.coset_codec.specs.Encoding.{AppendsElements, Encodes, HasNoImage, two_elements, three_elements, four_elements, five_elements};
ghost use Rattle.coset_codec.specs.Shape.{images};

use crate::error::Result;
use coset_cbor::de::decode_unbounded;
use coset_cbor::laws;
use coset_cbor::ser::{
    write_array_head, write_bytes, write_integer, write_tag_head, write_text, write_value,
};
use coset_cbor::value::{Integer, Value};
use std::alloc::Global;

/// The length of the longest head (RFC 8949, section 3).
const LONGEST_HEAD: usize = 9;

/// A type that is written directly to bytes, without a `Value` in between. For a
/// [`Codec`](crate::Codec), [`AsCborValue`](crate::AsCborValue) and
/// [`CborSerializable`](crate::CborSerializable) write through this one writer.
pub trait Encode {
    /// The item that a value is written as, or `None` if there is none.
    ghost image: { Self → Option Item };

    /// Returns the approximate length of the encoding, which is reserved before writing. This is
    /// only a hint: any number is correct, and the bytes written are the same.
    fn encoded_size_hint(&self) -> usize {
        0
    }

    /// Appends the shortest encoding of the value's item (RFC 8949, section 4.2.1).
    ///
    /// # Errors
    /// - `OutOfMemory` if an allocation fails.
    /// - `DuplicateMapKey` if the value has no item.
    ///
    /// The bytes of `out` are then unchanged; its capacity may have grown.
    fn encode(&self, alloc: Global, out: &mut Vec<u8>) -> Result<()>
        ensures written { Encodes (image self.now) out.old.items out.new.items result }
        ensures kept { Extends out.old.items out.new.items }
        ensures refused { OnErr result (out.new.items ≡ out.old.items) };

    /// Appends the same bytes as `encode`, but doesn't remove them after an error. Writers of
    /// nested items call it, so that only the outermost `encode` truncates `out`.
    ///
    /// # Errors
    /// The same as `encode`. The old content of `out` is then unchanged. Bytes appended before the
    /// error may follow it.
    #[inline(always)]
    fn append(&self, alloc: Global, out: &mut Vec<u8>) -> Result<()>
        ensures written { Encodes (image self.now) out.old.items out.new.items result }
        ensures kept { Extends out.old.items out.new.items }
    {
        self.encode(alloc, out)
    }
}

/// Returns the result of a write. After an error, truncates `out` to its first `before` bytes.
///
/// With it, [`Encode::encode`] can be written over a writer that leaves bytes after an error, such
/// as [`encode_two`].
#[inline(always)]
pub fn rolled_back(written: Result<()>, before: usize, out: &mut Vec<u8>) -> Result<()>
    ensures result { result ≡ written }
    ensures ok { OnOk result (out.new.items ≡ out.old.items) }
    ensures refused { OnErr result (out.new.items ≡ take before out.old.items) }
{
    if written.is_err() {
        out.truncate(before);
    }
    written
}

impl Encode for Value {
    ghost image = { λ v. Some (value_item v) };

    #[inline(always)]
    fn encode(&self, _alloc: Global, out: &mut Vec<u8>) -> Result<()> {
        laws::shortest_is_in_range();
        laws::least_heads_are_shortest();
        Ok(write_value(self, out)?)
    }

    #[inline(always)]
    fn append(&self, _alloc: Global, out: &mut Vec<u8>) -> Result<()> {
        laws::shortest_is_in_range();
        laws::least_heads_are_shortest();
        Ok(write_value(self, out)?)
    }
}

/// An `i64` is an integer.
impl Encode for i64 {
    ghost use Rattle.coset_value.specs.Item.{integer};

    ghost image = { λ n. Some (integer n) };

    fn encoded_size_hint(&self) -> usize {
        LONGEST_HEAD
    }

    #[inline(always)]
    fn encode(&self, _alloc: Global, out: &mut Vec<u8>) -> Result<()> {
        Ok(write_integer(Integer::from(*self), out)?)
    }

    #[inline(always)]
    fn append(&self, _alloc: Global, out: &mut Vec<u8>) -> Result<()> {
        Ok(write_integer(Integer::from(*self), out)?)
    }
}

/// A `u64` is an integer.
impl Encode for u64 {
    ghost use Rattle.coset_value.specs.Item.{integer};
    ghost use Rattle.std.specs.Prelude.{pos};

    ghost image = { λ n. Some (integer (pos n)) };

    fn encoded_size_hint(&self) -> usize {
        LONGEST_HEAD
    }

    #[inline(always)]
    fn encode(&self, _alloc: Global, out: &mut Vec<u8>) -> Result<()> {
        Ok(write_integer(Integer::from(*self), out)?)
    }

    #[inline(always)]
    fn append(&self, _alloc: Global, out: &mut Vec<u8>) -> Result<()> {
        Ok(write_integer(Integer::from(*self), out)?)
    }
}

/// A `String` is a text string.
impl Encode for String {
    ghost use Rattle.coset_value.specs.Item.{text};
    ghost use Rattle.std.specs.Prelude.{string_bytes};

    ghost image = { λ s. Some (text (string_bytes s)) };

    fn encoded_size_hint(&self) -> usize {
        self.len().saturating_add(LONGEST_HEAD)
    }

    #[inline(always)]
    fn encode(&self, _alloc: Global, out: &mut Vec<u8>) -> Result<()> {
        Ok(write_text(self, out)?)
    }

    #[inline(always)]
    fn append(&self, _alloc: Global, out: &mut Vec<u8>) -> Result<()> {
        Ok(write_text(self, out)?)
    }
}

/// A `Vec<u8>` is a byte string.
impl Encode for Vec<u8> {
    ghost image = { λ b. Some (bytes b.items) };

    fn encoded_size_hint(&self) -> usize {
        self.len().saturating_add(LONGEST_HEAD)
    }

    #[inline(always)]
    fn encode(&self, _alloc: Global, out: &mut Vec<u8>) -> Result<()> {
        Ok(write_bytes(self, out)?)
    }

    #[inline(always)]
    fn append(&self, _alloc: Global, out: &mut Vec<u8>) -> Result<()> {
        Ok(write_bytes(self, out)?)
    }
}

/// An `Option<Vec<u8>>` is a byte string, or null for `None`.
impl Encode for Option<Vec<u8>> {
    ghost use Rattle.coset_codec.specs.Shape.{bstr, or_nil};

    ghost image = { λ o. (or_nil bstr).image (option_map (λ b. b.items) o) };

    fn encoded_size_hint(&self) -> usize {
        match self {
            Some(content) => content.encoded_size_hint(),
            None => 1,
        }
    }

    #[inline(always)]
    fn encode(&self, alloc: Global, out: &mut Vec<u8>) -> Result<()> {
        match self {
            Some(content) => content.encode(alloc, out),
            None => Value::Null.encode(alloc, out),
        }
    }

    #[inline(always)]
    fn append(&self, alloc: Global, out: &mut Vec<u8>) -> Result<()> {
        match self {
            Some(content) => content.append(alloc, out),
            None => Value::Null.append(alloc, out),
        }
    }
}

/// A slice that is written as an array of its elements, in order.
#[derive(Clone, Copy)]
pub struct Array<'a, T>(pub &'a [T]);

impl<T: Encode> Encode for Array<'_, T> {
    ghost image = { λ l. option_map array (images T.image l.0.now) };

    fn encoded_size_hint(&self) -> usize {
        let mut room = LONGEST_HEAD;
        for element in self.0 {
            room = room.saturating_add(element.encoded_size_hint());
        }
        room
    }

    fn encode(&self, alloc: Global, out: &mut Vec<u8>) -> Result<()> {
        let before = out.len();
        let written = self.append(alloc, out);
        rolled_back(written, before, out)
    }

    #[inline(always)]
    fn append(&self, alloc: Global, out: &mut Vec<u8>) -> Result<()> {
        encode_array(alloc, self.0, out)
    }
}

/// Appends an array of the elements.
fn encode_array<T: Encode>(alloc: Global, elements: &[T], out: &mut Vec<u8>) -> Result<()>
    ensures written { Encodes (option_map array (images T.image elements.now)) out.old.items
        out.new.items result }
    ensures kept { Extends out.old.items out.new.items }
{
    write_array_head(elements.len(), out)?;
    encode_elements(alloc, elements, out)
}

/// Appends the elements, one after the other.
fn encode_elements<T: Encode>(alloc: Global, elements: &[T], out: &mut Vec<u8>) -> Result<()>
    ensures ok { OnOk result (AppendsElements (images T.image elements.now) (length elements.now)
        out.old.items out.new.items) }
    ensures refused { IfErr result (HasNoImage (images T.image elements.now)) }
    ensures kept { Extends out.old.items out.new.items }
{
    for element in elements {
        element.append(alloc, out)?;
    }
    Ok(())
}

/// Appends an array of two elements.
///
/// # Errors
/// - `OutOfMemory` if an allocation fails.
/// - Otherwise the error of the first element that has one.
///
/// `out` is then as [`Codec::write`](crate::Codec::write) leaves it.
pub fn encode_two<A: Encode, B: Encode>(
    alloc: Global,
    a: &A,
    b: &B,
    out: &mut Vec<u8>,
) -> Result<()>
    ensures written { Encodes (two_elements (A.image a.now) (B.image b.now)) out.old.items
        out.new.items result }
    ensures kept { Extends out.old.items out.new.items }
{
    write_array_head(2, out)?;
    a.append(alloc, out)?;
    b.append(alloc, out)?;
    Ok(())
}

/// Appends an array of three elements.
///
/// # Errors
/// - `OutOfMemory` if an allocation fails.
/// - Otherwise the error of the first element that has one.
///
/// `out` is then as [`Codec::write`](crate::Codec::write) leaves it.
pub fn encode_three<A: Encode, B: Encode, C: Encode>(
    alloc: Global,
    a: &A,
    b: &B,
    c: &C,
    out: &mut Vec<u8>,
) -> Result<()>
    ensures written { Encodes (three_elements (A.image a.now) (B.image b.now) (C.image c.now))
        out.old.items out.new.items result }
    ensures kept { Extends out.old.items out.new.items }
{
    write_array_head(3, out)?;
    a.append(alloc, out)?;
    b.append(alloc, out)?;
    c.append(alloc, out)?;
    Ok(())
}

/// Appends an array of four elements.
///
/// # Errors
/// - `OutOfMemory` if an allocation fails.
/// - Otherwise the error of the first element that has one.
///
/// `out` is then as [`Codec::write`](crate::Codec::write) leaves it.
pub fn encode_four<A: Encode, B: Encode, C: Encode, D: Encode>(
    alloc: Global,
    a: &A,
    b: &B,
    c: &C,
    d: &D,
    out: &mut Vec<u8>,
) -> Result<()>
    ensures written { Encodes
        (four_elements (A.image a.now) (B.image b.now) (C.image c.now) (D.image d.now))
        out.old.items out.new.items result }
    ensures kept { Extends out.old.items out.new.items }
{
    write_array_head(4, out)?;
    a.append(alloc, out)?;
    b.append(alloc, out)?;
    c.append(alloc, out)?;
    d.append(alloc, out)?;
    Ok(())
}

/// Appends an array of five elements.
///
/// # Errors
/// - `OutOfMemory` if an allocation fails.
/// - Otherwise the error of the first element that has one.
///
/// `out` is then as [`Codec::write`](crate::Codec::write) leaves it.
pub fn encode_five<A: Encode, B: Encode, C: Encode, D: Encode, E: Encode>(
    alloc: Global,
    a: &A,
    b: &B,
    c: &C,
    d: &D,
    e: &E,
    out: &mut Vec<u8>,
) -> Result<()>
    ensures written { Encodes
        (five_elements (A.image a.now) (B.image b.now) (C.image c.now) (D.image d.now)
        (E.image e.now))
        out.old.items out.new.items result }
    ensures kept { Extends out.old.items out.new.items }
{
    write_array_head(5, out)?;
    a.append(alloc, out)?;
    b.append(alloc, out)?;
    c.append(alloc, out)?;
    d.append(alloc, out)?;
    e.append(alloc, out)?;
    Ok(())
}

/// Returns an empty vector with room for `hint` bytes, or without room if there is too little
/// memory for it.
#[inline(always)]
fn with_room(alloc: Global, hint: usize) -> Vec<u8>
    ensures { result.items ≡ [] }
{
    match Vec::with_capacity(alloc, hint) {
        Ok(out) => out,
        Err(_) => Vec::new(alloc),
    }
}

/// Writes a value as bytes. This is the body of `to_vec`, and its results are those of
/// [`CborSerializable::to_vec`](crate::CborSerializable::to_vec).
///
/// # Errors
/// The same as [`Encode::encode`].
#[inline(always)]
pub fn encode_to_vec<T: Encode>(alloc: Global, value: &T) -> Result<Vec<u8>>
    ensures { Writes (T.image value.now) (λ b. b.items) result }
{
    laws::least_encoding_is_shortest();
    let mut out = with_room(alloc, value.encoded_size_hint());
    value.append(alloc, &mut out)?;
    Ok(out)
}

/// Writes a value as bytes, under the tag of this number. This is the body of `to_tagged_vec`.
///
/// # Errors
/// The same as [`Encode::encode`].
#[inline(always)]
pub fn encode_to_tagged_vec<T: Encode>(alloc: Global, number: u64, value: &T) -> Result<Vec<u8>>
    ensures { Writes (option_map (tag number) (T.image value.now)) (λ b. b.items) result }
{
    laws::least_encoding_is_shortest();
    let mut out = with_room(
        alloc,
        value.encoded_size_hint().saturating_add(LONGEST_HEAD),
    );
    write_tag_head(number, &mut out)?;
    value.append(alloc, &mut out)?;
    Ok(out)
}

/// Returns the item that a value is written as. This is the body of `to_cbor_value`: the value is
/// written, and the bytes are read back.
///
/// # Errors
/// The same as [`Encode::encode`].
pub fn encode_to_value<T: Encode>(alloc: Global, value: &T) -> Result<Value>
    ensures { Images (T.image value.now) value_item result }
{
    laws::shortest_is_encoding();
    laws::one_item();
    let encoded = encode_to_vec(alloc, value)?;
    match decode_unbounded(alloc, &encoded)? {
        Some(read) => Ok(read),
        None => unreachable!(),
    }
}
