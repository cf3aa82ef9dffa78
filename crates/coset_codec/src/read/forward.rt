//! Reading the content of an item in place. A reader leaves the input just after the item, even if
//! the item is refused. But if `integer` or `float` returns `None`, or `null` returns `false`, the
//! input is unchanged.

ghost use Rattle.std.specs.Prelude.{◌≡◌, ◌≤◌, ◌⊎◌, false, None, IfErr, IfSome, IsTrue, option_map, pos, string_bytes};
ghost use Rattle.coset_value.specs.Item.{Item};
ghost use Rattle.coset_value.specs.Parts.{as_integer};
ghost use Rattle.coset_value.specs.View.{bits_of, value_item};
ghost use Rattle.coset_cbor.specs.Scalars.{as_float};
ghost use Rattle.coset_codec.specs.declared.error.CoseError.TheVariants.{DuplicateMapKey, OutOfMemory, OutOfRangeIntegerValue};
ghost use Rattle.coset_codec.specs.Results.{Reads};
ghost use Rattle.coset_codec.specs.Errors.{IsUnexpected, UnlessMemory};
ghost use Rattle.coset_codec.specs.Inputs.{State, state, MovesForward, IsBorrowed, ReadsAt, ItemAt, TakesNull, TakesPart, length_left, ReadsForward};
ghost use Rattle.coset_codec.specs.Kinds.{Says, SaysNonempty, kind};
ghost use Rattle.coset_codec.specs.Shape.{bstr, nonempty_bstr, int64, or_nil, tstr, uint};
ghost use Rattle.coset_codec.specs.Sources.{Copies};

use crate::error::{CoseError, Result};
use crate::read::Decoder;
use crate::read::source::{tree_bytes, tree_text};
use crate::util::pull_type_error;
use coset_cbor::value::{Float, Integer, Value};
use std::alloc::Global;
use std::mem;

impl<'a> Decoder<'a> {
    /// Reads the number of an integer, or returns `None` for any other item. Allocates nothing.
    pub fn integer(&mut self) -> Option<Integer>
        ensures shrinks { length_left (state self.new) ≤ length_left (state self.old) }
        ensures strictly { IfSome result (λ _. MovesForward (state self.old) (state self.new)) }
        ensures stays { result ≡ None → state self.new ≡ state self.old }
        ensures reads { (v : Item) (z : State) → ItemAt v (state self.old) z
            → TakesPart as_integer (λ n. n) v (state self.old) (state self.new) z result }
    {
        match self {
            Decoder::Tree(value) => match value.as_integer() {
                Some(number) => {
                    *value = Value::Null;
                    Some(number)
                }
                None => None,
            },
            Decoder::Borrowed(cursor) => cursor.integer(),
        }
    }

    /// Reads the width and bits of a float, or returns `None` for any other item. Allocates
    /// nothing.
    pub fn float(&mut self) -> Option<Float>
        ensures shrinks { length_left (state self.new) ≤ length_left (state self.old) }
        ensures strictly { IfSome result (λ _. MovesForward (state self.old) (state self.new)) }
        ensures stays { result ≡ None → state self.new ≡ state self.old }
        ensures reads { (v : Item) (z : State) → ItemAt v (state self.old) z
            → TakesPart as_float bits_of v (state self.old) (state self.new) z result }
    {
        match self {
            Decoder::Tree(value) => {
                let Value::Float(float) = value else {
                    return None;
                };
                let float = *float;
                *value = Value::Null;
                Some(float)
            }
            Decoder::Borrowed(cursor) => cursor.float(),
        }
    }

    /// If the item is null, skips it and returns true. Allocates nothing.
    pub fn null(&mut self) -> bool
        ensures shrinks { length_left (state self.new) ≤ length_left (state self.old) }
        ensures strictly { IsTrue result → MovesForward (state self.old) (state self.new) }
        ensures stays { result ≡ false → state self.new ≡ state self.old }
        ensures reads { (v : Item) (z : State) → ItemAt v (state self.old) z
            → TakesNull v (state self.old) (state self.new) z result }
    {
        match self {
            Decoder::Tree(value) => value.is_null(),
            Decoder::Borrowed(cursor) => cursor.null(),
        }
    }

    /// Skips the item and returns the error for an item of another kind than `want`. Allocates
    /// nothing.
    pub fn type_error(&mut self, want: &'static str) -> CoseError
        ensures shrinks { length_left (state self.new) ≤ length_left (state self.old) }
        ensures tells { ReadsAt (state self.old) (state self.new) (λ v. IsUnexpected result
            × Says (kind v) want.now result) }
        ensures memory { result ≡ OutOfMemory → ⊥ }
    {
        match self.take() {
            Ok(source) => source.type_error(want),
            Err(error) => error,
        }
    }

    /// Returns the error for a label that occurs twice in a map. The second value of that label is
    /// at the input and is skipped. Allocates nothing.
    #[cold]
    pub fn repeated(&mut self) -> CoseError
        ensures shrinks { length_left (state self.new) ≤ length_left (state self.old) }
        ensures passes { ReadsAt (state self.old) (state self.new) (λ v. result ≡ DuplicateMapKey) }
        ensures tells { result ≡ DuplicateMapKey }
    {
        self.skip();
        CoseError::DuplicateMapKey
    }

    /// Reads the item as a value.
    ///
    /// # Errors
    /// `OutOfMemory` if an allocation fails. A tree is moved, which allocates nothing.
    pub fn value(&mut self, alloc: Global) -> Result<Value>
        ensures forward { ReadsForward (state self.old) (state self.new) result
            (λ v. Copies value_item v result) }
        ensures memory { IfErr result (λ e. e ≡ OutOfMemory → IsBorrowed (state self.old)) }
    {
        match self {
            Decoder::Tree(value) => Ok(mem::replace(value, Value::Null)),
            Decoder::Borrowed(cursor) => Ok(cursor.value(alloc)?),
        }
    }

    /// Reads the bytes of a byte string.
    ///
    /// # Errors
    /// - `OutOfMemory` if an allocation fails. This happens only for borrowed bytes.
    /// - `UnexpectedItem` with `want` for any other item.
    pub fn bytes(&mut self, alloc: Global, want: &'static str) -> Result<Vec<u8>>
        ensures forward { ReadsForward (state self.old) (state self.new) result
            (λ v. Reads bstr (λ b. b.items) v result) }
        ensures says { ReadsAt (state self.old) (state self.new)
            (λ v. IfErr result (λ e. UnlessMemory e (Says (kind v) want.now))) }
        ensures memory { IfErr result (λ e. e ≡ OutOfMemory → IsBorrowed (state self.old)) }
    {
        match self {
            Decoder::Tree(value) => tree_bytes(mem::replace(value, Value::Null), want),
            Decoder::Borrowed(cursor) => match cursor.bytes(alloc)? {
                Some(bytes) => Ok(bytes),
                None => Err(pull_type_error(cursor.take()?, want)),
            },
        }
    }

    /// Reads the text of a text string.
    ///
    /// # Errors
    /// - `OutOfMemory` if an allocation fails. This happens only for borrowed bytes.
    /// - `UnexpectedItem` with `want` for any other item.
    pub fn text(&mut self, alloc: Global, want: &'static str) -> Result<String>
        ensures forward { ReadsForward (state self.old) (state self.new) result
            (λ v. Reads tstr string_bytes v result) }
        ensures says { ReadsAt (state self.old) (state self.new)
            (λ v. IfErr result (λ e. UnlessMemory e (Says (kind v) want.now))) }
        ensures memory { IfErr result (λ e. e ≡ OutOfMemory → IsBorrowed (state self.old)) }
    {
        match self {
            Decoder::Tree(value) => tree_text(mem::replace(value, Value::Null), want),
            Decoder::Borrowed(cursor) => match cursor.text(alloc)? {
                Some(text) => Ok(text),
                None => Err(pull_type_error(cursor.take()?, want)),
            },
        }
    }

    /// Reads an integer of 64 bits with a sign. Allocates nothing.
    ///
    /// # Errors
    /// - `OutOfRangeIntegerValue` for any other integer.
    /// - `UnexpectedItem` with `want` for any other item.
    pub fn int64(&mut self, want: &'static str) -> Result<i64>
        ensures forward { ReadsForward (state self.old) (state self.new) result
            (λ v. Reads int64 (λ n. n) v result) }
        ensures says { ReadsAt (state self.old) (state self.new) (λ v. IfErr result
            (λ e. (e ≡ OutOfRangeIntegerValue) ⊎ Says (kind v) want.now e)) }
    {
        match self.integer() {
            Some(number) => Ok(i64::try_from(number)?),
            None => Err(self.type_error(want)),
        }
    }

    /// Reads an integer that is not negative. Allocates nothing.
    ///
    /// # Errors
    /// - `OutOfRangeIntegerValue` for a negative integer.
    /// - `UnexpectedItem` with `want` for any other item.
    pub fn uint(&mut self, want: &'static str) -> Result<u64>
        ensures forward { ReadsForward (state self.old) (state self.new) result
            (λ v. Reads uint (λ n. pos n) v result) }
        ensures says { ReadsAt (state self.old) (state self.new) (λ v. IfErr result
            (λ e. (e ≡ OutOfRangeIntegerValue) ⊎ Says (kind v) want.now e)) }
    {
        match self.integer() {
            Some(number) => Ok(u64::try_from(number)?),
            None => Err(self.type_error(want)),
        }
    }

    /// Reads the bytes of a byte string, or returns `None` for null.
    ///
    /// # Errors
    /// - `OutOfMemory` if an allocation fails.
    /// - `UnexpectedItem` with `want` for any other item.
    pub fn bytes_or_nil(&mut self, alloc: Global, want: &'static str) -> Result<Option<Vec<u8>>>
        ensures forward { ReadsForward (state self.old) (state self.new) result
            (λ v. Reads (or_nil bstr) (λ o. option_map (λ b. b.items) o) v result) }
        ensures says { ReadsAt (state self.old) (state self.new)
            (λ v. IfErr result (λ e. UnlessMemory e (Says (kind v) want.now))) }
    {
        if self.null() {
            return Ok(None);
        }
        Ok(Some(self.bytes(alloc, want)?))
    }

    /// Reads the bytes of a byte string that is not empty.
    ///
    /// # Errors
    /// - `OutOfMemory` if an allocation fails.
    /// - `UnexpectedItem` for any other item, and for an empty byte string.
    pub fn nonempty_bytes(&mut self, alloc: Global) -> Result<Vec<u8>>
        ensures forward { ReadsForward (state self.old) (state self.new) result
            (λ v. Reads nonempty_bstr (λ b. b.items) v result) }
        ensures says { ReadsAt (state self.old) (state self.new)
            (λ v. IfErr result (λ e. UnlessMemory e (SaysNonempty v))) }
    {
        let bytes = self.bytes(alloc, "bstr")?;
        if bytes.is_empty() {
            return Err(CoseError::UnexpectedItem("empty bstr", "non-empty bstr"));
        }
        Ok(bytes)
    }
}
