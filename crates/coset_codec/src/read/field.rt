//! Fields of a map: labels that may occur once, each with a value of one type.

ghost use Rattle.std.specs.Prelude.{◌≡◌, ◌≤◌, IfErr, OnErr, OnOk, option_map};
ghost use Rattle.coset_codec.specs.Results.{Reads};
ghost use Rattle.coset_codec.specs.Errors.{UnlessMemory};
ghost use Rattle.coset_codec.specs.Inputs.{ReadsAt, length_left, state};
ghost use Rattle.coset_codec.specs.Maps.{RefusesValue, TakesValue, unless_empty, optional};
ghost use Rattle.coset_codec.specs.Shape.{Shape, nonempty_bstr};

use crate::error::Result;
use crate::read::{Decoder, read_list};
use crate::traits::FromPull;
use std::alloc::Global;

/// A type that is read from the item at an input: every [`FromPull`] type, byte strings, texts,
/// lists and `i64`. This trait is to reading as [`Encode`](crate::Encode) is to writing.
pub trait Decode: Sized {
    /// The view of a value, and the shape: which items represent which values.
    ghost View: { Type 0 };

    ghost view: { Self → View };

    ghost shape: { Shape View };

    /// Reads a value from the item at the input. Leaves the input just after the item, even if the
    /// item is refused.
    ///
    /// # Errors
    /// - `OutOfMemory` if an allocation fails.
    /// - A fault in the item.
    fn decode(alloc: Global, input: &mut Decoder<'_>) -> Result<Self>
        ensures shrinks { length_left (state input.new) ≤ length_left (state input.old) }
        ensures reads { ReadsAt (state input.old) (state input.new)
            (λ v. Reads shape view v result) };
}

impl<T: FromPull> Decode for T {
    ghost View = { T.View };

    ghost view = { T.view };

    ghost shape = { T.shape };

    fn decode(alloc: Global, input: &mut Decoder<'_>) -> Result<T> {
        T::from_input(alloc, input)
    }
}

/// A `Vec<u8>` is the content of a byte string.
impl Decode for Vec<u8> {
    ghost use Rattle.std.specs.Prelude.{List, ℕ};
    ghost use Rattle.coset_codec.specs.Shape.{bstr};

    ghost View = { List ℕ };

    ghost view = { λ b. b.items };

    ghost shape = { bstr };

    fn decode(alloc: Global, input: &mut Decoder<'_>) -> Result<Vec<u8>> {
        input.bytes(alloc, "bstr")
    }
}

/// An `Option<Vec<u8>>` is the content of a byte string, or `None` for null.
impl Decode for Option<Vec<u8>> {
    ghost use Rattle.std.specs.Prelude.{List, Option, option_map, ℕ};
    ghost use Rattle.coset_codec.specs.Shape.{bstr, or_nil};

    ghost View = { Option (List ℕ) };

    ghost view = { option_map (λ b. b.items) };

    ghost shape = { or_nil bstr };

    fn decode(alloc: Global, input: &mut Decoder<'_>) -> Result<Option<Vec<u8>>> {
        input.bytes_or_nil(alloc, "bstr or nil")
    }
}

/// A `Vec<T>` is the elements of an array.
impl<T: FromPull + Drop> Decode for Vec<T> {
    ghost use Rattle.std.specs.Prelude.{List, map};
    ghost use Rattle.coset_codec.specs.Shape.{list_of};

    ghost View = { List T.View };

    ghost view = { λ all. map T.view all.items };

    ghost shape = { list_of T.shape };

    fn decode(alloc: Global, input: &mut Decoder<'_>) -> Result<Vec<T>> {
        read_list(alloc, input, "array")
    }
}

/// A `String` is the text of a text string.
impl Decode for String {
    ghost use Rattle.std.specs.Prelude.{List, ℕ, string_bytes};
    ghost use Rattle.coset_codec.specs.Shape.{tstr};

    ghost View = { List ℕ };

    ghost view = { string_bytes };

    ghost shape = { tstr };

    fn decode(alloc: Global, input: &mut Decoder<'_>) -> Result<String> {
        input.text(alloc, "tstr")
    }
}

/// An `i64` is an integer of 64 bits with a sign.
impl Decode for i64 {
    ghost use Rattle.std.specs.Prelude.{ℤ};
    ghost use Rattle.coset_codec.specs.Shape.{int64};

    ghost View = { ℤ };

    ghost view = { λ n. n };

    ghost shape = { int64 };

    fn decode(_alloc: Global, input: &mut Decoder<'_>) -> Result<i64> {
        input.int64("int")
    }
}

/// Reads the value at the input into a field, and leaves the input just after it.
///
/// # Errors
/// - `OutOfMemory` if an allocation fails.
/// - `DuplicateMapKey` if the field has a value already.
/// - A fault in the value.
///
/// The field is then unchanged.
pub fn set_field<T: Decode + Drop>(
    alloc: Global,
    field: &mut Option<T>,
    input: &mut Decoder<'_>,
) -> Result<()>
    ensures shrinks { length_left (state input.new) ≤ length_left (state input.old) }
    ensures takes { ReadsAt (state input.old) (state input.new) (λ v. OnOk result
        (TakesValue (optional T.shape) v
        (option_map T.view field.old) (option_map T.view field.new))) }
    ensures refused { ReadsAt (state input.old) (state input.new) (λ v. IfErr result
        (λ e. UnlessMemory e (RefusesValue (optional T.shape) v (option_map T.view field.old)))) }
    ensures kept { OnErr result (field.new ≡ field.old) }
{
    if field.is_some() {
        return Err(input.repeated());
    }
    *field = Some(T::decode(alloc, input)?);
    Ok(())
}

/// Reads a byte string that is not empty into a field, and leaves the input just after it. The
/// field has no value while it is empty.
///
/// # Errors
/// The same as [`set_field`]. An empty byte string is `UnexpectedItem`.
pub fn set_nonempty(alloc: Global, field: &mut Vec<u8>, input: &mut Decoder<'_>) -> Result<()>
    ensures shrinks { length_left (state input.new) ≤ length_left (state input.old) }
    ensures takes { ReadsAt (state input.old) (state input.new) (λ v. OnOk result
        (TakesValue (unless_empty nonempty_bstr) v field.old.items field.new.items)) }
    ensures refused { ReadsAt (state input.old) (state input.new) (λ v. IfErr result
        (λ e. UnlessMemory e (RefusesValue (unless_empty nonempty_bstr) v field.old.items))) }
    ensures kept { OnErr result (field.new ≡ field.old) }
{
    if !field.is_empty() {
        return Err(input.repeated());
    }
    *field = input.nonempty_bytes(alloc)?;
    Ok(())
}
