//! The short way to a type of your own: implement [`Codec`], and the other traits follow. For a
//! type with a tag, implement [`TaggedCodec`] too.

ghost use Rattle.std.specs.Prelude.{◌≡◌, ◌↔◌, ℕ, ⊤, IfErr, IsTrue};
ghost use Rattle.coset_cbor.specs.Least.{Extends};
ghost use Rattle.coset_codec.specs.declared.error.CoseError.TheVariants.{OutOfMemory};
ghost use Rattle.coset_codec.specs.Results.{Reads};
ghost use Rattle.coset_codec.specs.Encoding.{Encodes};
ghost use Rattle.coset_codec.specs.Inputs.{State, tree, state, ReadsForward};
ghost use Rattle.coset_codec.specs.Shape.{Shape};
ghost use Rattle.coset_codec.specs.ShapeLaws.{Lawful as LawfulShape};

use crate::error::Result;
use crate::read::{Decoder, ItemSource};
use crate::traits::{
    AsCborValue, CborSerializable, FromPull, Lawful, TaggedCborSerializable, item_under_tag,
    item_without_tag, whole_item,
};
use crate::write::{Encode, encode_to_tagged_vec, encode_to_value, encode_to_vec, rolled_back};
use coset_cbor::de::Pull;
use coset_cbor::value::Value;
use std::alloc::Global;

/// A type that is read and written directly, without a `Value` in between.
///
/// An implementer states how contracts see its values and its shape, as for [`AsCborValue`]. It has
/// one reader and one writer, and proves two laws, of its shape and of `==`. Each law takes one
/// line, from the laws of the parts (`ShapeLaws` and `EqDecides` of `specs/`). The prover finds the
/// law of a derived `==` by itself if no part is a list.
///
/// [`AsCborValue`], [`FromPull`], [`CborSerializable`], [`Encode`] and [`Lawful`] follow from this
/// trait. With [`TaggedCodec`], [`TaggedCborSerializable`] follows too.
pub trait Codec: Sized + Drop + PartialEq {
    /// The view of a value. Contracts see everything except its place in memory.
    ghost View: { Type 0 };

    ghost view: { Self → View };

    /// The shape of the type, as for [`AsCborValue`].
    ghost shape: { Shape View };

    /// The inputs at which reading may run out of memory. By default, every input.
    ghost allocates: { State → Type 0 } = { λ s. ⊤ };

    /// Reads a value from the item at the input. Leaves the input just after the item, even if the
    /// item is refused.
    ///
    /// # Errors
    /// - `OutOfMemory` if an allocation fails. This happens only at inputs for which `allocates`
    ///   holds.
    /// - A fault in the item, which then describes no value.
    fn read(alloc: Global, input: &mut Decoder<'_>) -> Result<Self>
        ensures forward { ReadsForward (state input.old) (state input.new) result
            (λ v. Reads shape view v result) }
        ensures memory { IfErr result (λ e. e ≡ OutOfMemory → allocates (state input.old)) };

    /// Returns the approximate length of the encoding ([`Encode::encoded_size_hint`]).
    fn size_hint(&self) -> usize {
        0
    }

    /// Appends the shortest encoding of the value's item (RFC 8949, section 4.2.1).
    ///
    /// # Errors
    /// - `OutOfMemory` if an allocation fails.
    /// - `DuplicateMapKey` if the value has no item.
    ///
    /// The old content of `out` is then unchanged. Bytes appended before the error may follow it.
    fn write(&self, alloc: Global, out: &mut Vec<u8>) -> Result<()>
        ensures written { Encodes (shape.image (view self.now)) out.old.items out.new.items result }
        ensures kept { Extends out.old.items out.new.items };

    /// The laws of the shape.
    ghost laws: { LawfulShape View shape };

    /// `==` is equality of what contracts see.
    ghost equal: { (a b : Self) → IsTrue (Self.PartialEq.eq a b) ↔ (view a ≡ view b) };
}

/// A type that is also read and written under its own tag (RFC 8949, section 3.4).
pub trait TaggedCodec: Codec {
    ghost TAG_NUMBER: { ℕ };

    /// The number of the tag.
    const TAG_NUMBER: u64;
}

impl<T: Codec> AsCborValue for T {
    ghost View = { T.View };

    ghost view = { T.view };

    ghost shape = { T.shape };

    ghost allocates = { λ v. T.allocates (tree v) };

    ghost unique = { T.Codec.laws.unique };

    ghost sound = { T.Codec.laws.sound };

    fn from_cbor_value(alloc: Global, value: Value) -> Result<T> {
        T::read(alloc, &mut Decoder::Tree(value))
    }

    fn to_cbor_value(self, alloc: Global) -> Result<Value> {
        encode_to_value(alloc, &self)
    }
}

impl<T: Codec> Lawful for T {
    ghost laws = { T.Codec.laws };
}

impl<T: Codec> Encode for T {
    ghost image = { λ t. T.shape.image (T.view t) };

    fn encoded_size_hint(&self) -> usize {
        self.size_hint()
    }

    #[inline(always)]
    fn encode(&self, alloc: Global, out: &mut Vec<u8>) -> Result<()> {
        let before = out.len();
        let written = self.write(alloc, out);
        rolled_back(written, before, out)
    }

    #[inline(always)]
    fn append(&self, alloc: Global, out: &mut Vec<u8>) -> Result<()> {
        self.write(alloc, out)
    }
}

impl<T: Codec> FromPull for T {
    fn from_pull(alloc: Global, pull: Pull<'_>) -> Result<T> {
        T::read(alloc, &mut Decoder::new(ItemSource::Borrowed(pull)))
    }

    #[inline(always)]
    fn from_input(alloc: Global, input: &mut Decoder<'_>) -> Result<T> {
        T::read(alloc, input)
    }
}

impl<T: Codec> CborSerializable for T {
    fn from_slice(alloc: Global, s: &[u8]) -> Result<T> {
        let item = whole_item(s)?;
        T::read(alloc, &mut Decoder::new(ItemSource::Borrowed(item)))
    }

    #[inline(always)]
    fn to_vec(self, alloc: Global) -> Result<Vec<u8>> {
        encode_to_vec(alloc, &self)
    }
}

impl<T: TaggedCodec> TaggedCborSerializable for T {
    ghost TAG = { T.TAG_NUMBER };

    const TAG: u64 = T::TAG_NUMBER;

    fn from_tagged_slice(alloc: Global, s: &[u8]) -> Result<T> {
        let item = item_under_tag(T::TAG_NUMBER, whole_item(s)?)?;
        T::read(alloc, &mut Decoder::new(ItemSource::Borrowed(item)))
    }

    fn from_any_slice(alloc: Global, s: &[u8]) -> Result<T> {
        let item = item_without_tag(T::TAG_NUMBER, whole_item(s)?);
        T::read(alloc, &mut Decoder::new(ItemSource::Borrowed(item)))
    }

    #[inline(always)]
    fn to_tagged_vec(self, alloc: Global) -> Result<Vec<u8>> {
        encode_to_tagged_vec(alloc, T::TAG_NUMBER, &self)
    }
}
