//! A checked item, borrowed, and the calls that take it apart.

ghost use Rattle.std.specs.Prelude.{◌≡◌, ◌↔◌, true, IfOk, IfErr, IfSome, IsTrue, option_map, string_bytes};
ghost use Rattle.coset_value.specs.Item.{Item, null};
ghost use Rattle.coset_value.specs.Parts.{as_integer, as_bytes, as_text, as_bool, as_tag};
ghost use Rattle.coset_value.specs.View.{value_item, bits_of};
ghost use Rattle.coset_cbor.specs.Prefixes.{HasNoItem};
ghost use Rattle.coset_cbor.specs.Grammar.{IsHeaded, IsItem};
ghost use Rattle.coset_cbor.specs.Heads.{Fits};
ghost use Rattle.coset_cbor.specs.Reading.{argument_from, number_of};
ghost use Rattle.coset_cbor.specs.ReadErrors.{IsMemory, FaultIn};
ghost use Rattle.coset_cbor.specs.Scalars.{as_scalar, as_float, scalar_by, integer_by, tag_by};
ghost use Rattle.coset_cbor.specs.Whole.{is_one_item};

use crate::check::begins_chunk;
use crate::de::{EndOfFile, Error, MAX_DEPTH, item_length};
use crate::fault::ReadError;
use crate::head::{Head, MajorType, head_of};
use crate::memory::OutOfMemory;
use crate::read;
use crate::string::{byte_string, text_string};
use coset_value::{Float, Integer, Value};
use std::alloc::Global;

/// A checked item: its encoding, borrowed from the input.
#[derive(Clone, Copy, Debug)]
pub struct Pull<'a> {
    pub(crate) bytes: &'a [u8],
    ghost checked: { is_one_item bytes.now ≡ true },
}

/// Returns the value of an integer, float or simple value from its head, or `None` for any other
/// item.
pub(crate) fn scalar_of(head: Head, left: usize, bytes: &[u8]) -> Option<Value>
    requires { Fits head.info head.number }
    ensures { option_map value_item result
        ≡ scalar_by left (argument_from head.info head.number) head.major_type bytes.now }
{
    match head.major_type {
        MajorType::Unsigned => match head.number() {
            Some(n) => Some(Value::Integer(Integer::from(n))),
            None => None,
        },
        MajorType::Negative => match head.number() {
            Some(n) => Some(Value::Integer(read::negative_integer(n))),
            None => None,
        },
        MajorType::Simple => match read::simple_value(left, head.info, head.number, bytes) {
            Ok((value, _)) => Some(value),
            Err(_) => None,
        },
        _ => None,
    }
}

/// Returns the number of an integer from its head, or `None` for any other item.
pub(crate) fn integer_of(head: Head) -> Option<Integer>
    ensures { result
        ≡ integer_by (number_of (argument_from head.info head.number)) head.major_type }
{
    match head.major_type {
        MajorType::Unsigned => match head.number() {
            Some(n) => Some(Integer::from(n)),
            None => None,
        },
        MajorType::Negative => match head.number() {
            Some(n) => Some(read::negative_integer(n)),
            None => None,
        },
        _ => None,
    }
}

/// Returns the number of a tag from its head, or `None` for any other item.
fn tag_number(head: Head) -> Option<u64>
    ensures { result ≡ tag_by (argument_from head.info head.number) head.major_type }
{
    match head.major_type {
        MajorType::Tag => head.number(),
        _ => None,
    }
}

impl<'a> Pull<'a> {
    ghost use Rattle.coset_cbor.specs.Pulls.{pull_bytes, pull_item, BeginsWith};

    /// Checks the item at the start of `bytes`. Returns it, borrowed, and the bytes after it.
    /// Allocates nothing.
    ///
    /// # Errors
    /// The same as [`check`](crate::de::check).
    pub fn new(bytes: &'a [u8]) -> Result<(Pull<'a>, &'a [u8]), Error<EndOfFile>>
        ensures found { IfOk result (λ x. BeginsWith bytes.now x.0 x.1.now) }
        ensures refused { IfErr result (λ e. HasNoItem bytes.now) }
        ensures memory { IfErr result (λ e. IsMemory e → ⊥) }
        ensures fault { IfErr result (λ e. FaultIn bytes.now e) }
    {
        let length = item_length(bytes)?;
        let (front, rest) = bytes.split_at(length);
        Ok((Pull { bytes: front }, rest))
    }

    /// Returns the bytes of the item, which are a part of the input.
    pub fn slice(&self) -> &'a [u8]
        ensures bytes { result.now ≡ pull_bytes self.now }
        ensures item { IsItem result.now (pull_item self.now) }
    {
        self.bytes
    }

    /// Returns the value of an integer, float or simple value, or `None` for any other item.
    fn scalar(&self) -> Option<Value>
        ensures { option_map value_item result ≡ as_scalar (pull_item self.now) }
    {
        let Ok((head, rest)) = head_of(self.bytes) else {
            return None;
        };
        scalar_of(head, self.bytes.len(), rest)
    }

    /// Returns the number of an integer, or `None` for any other item (RFC 8949, section 3.1).
    pub fn integer(&self) -> Option<Integer>
        ensures { result ≡ as_integer (pull_item self.now) }
    {
        let Ok((head, _)) = head_of(self.bytes) else {
            return None;
        };
        integer_of(head)
    }

    /// Returns the value of `false` or `true`, or `None` for any other item (RFC 8949, section
    /// 3.3).
    pub fn bool(&self) -> Option<bool>
        ensures { result ≡ as_bool (pull_item self.now) }
    {
        match self.scalar() {
            Some(value) => value.as_bool(),
            None => None,
        }
    }

    /// Returns the width and bits of a float, or `None` for any other item (RFC 8949, section 3.3).
    pub fn float(&self) -> Option<Float>
        ensures { option_map bits_of result ≡ as_float (pull_item self.now) }
    {
        match self.scalar() {
            Some(Value::Float(x)) => Some(x),
            _ => None,
        }
    }

    /// Returns true if the item is `null` (RFC 8949, section 3.3).
    pub fn is_null(&self) -> bool
        ensures { IsTrue result ↔ (pull_item self.now ≡ null) }
    {
        match self.scalar() {
            Some(value) => value.is_null(),
            None => false,
        }
    }

    /// Returns the number of a tag and the item that it encloses, or `None` for any other item (RFC
    /// 8949, section 3.4).
    pub fn tag(&self) -> Option<(u64, Pull<'a>)>
        ensures item { option_map (λ t. (t.0, pull_item t.1)) result ≡ as_tag (pull_item self.now) }
        // The bytes are the tag's head and then those of the enclosed item.
        ensures bytes { IfSome result (λ t. IsHeaded 6 t.0 (pull_bytes t.1) (pull_bytes self.now)) }
    {
        let Ok((head, rest)) = head_of(self.bytes) else {
            return None;
        };
        match tag_number(head) {
            Some(number) => Some((number, Pull { bytes: rest })),
            None => None,
        }
    }

    /// Copies the content of a byte string and joins its chunks (RFC 8949, sections 3.1 and 3.2.3).
    /// Returns `None` for any other item.
    ///
    /// # Errors
    /// `OutOfMemory` if an allocation fails.
    pub fn to_bytes(&self, alloc: Global) -> Result<Option<Vec<u8>>, OutOfMemory>
        ensures { IfOk result (λ o. option_map (λ b. b.items) o ≡ as_bytes (pull_item self.now)) }
    {
        let Ok((head, rest)) = head_of(self.bytes) else {
            return Ok(None);
        };
        if !begins_chunk(false, head.major_type) {
            return Ok(None);
        }
        match byte_string(alloc, self.bytes.len(), head.number(), rest) {
            Ok((found, _)) => Ok(Some(found)),
            Err(ReadError::Memory) => Err(OutOfMemory),
            Err(ReadError::Fault(_)) => unreachable!(),
        }
    }

    /// Copies the content of a text string and joins its chunks (RFC 8949, sections 3.1 and 3.2.3).
    /// Returns `None` for any other item.
    ///
    /// # Errors
    /// `OutOfMemory` if an allocation fails.
    pub fn to_text(&self, alloc: Global) -> Result<Option<String>, OutOfMemory>
        ensures { IfOk result (λ o. option_map string_bytes o ≡ as_text (pull_item self.now)) }
    {
        let Ok((head, rest)) = head_of(self.bytes) else {
            return Ok(None);
        };
        if !begins_chunk(true, head.major_type) {
            return Ok(None);
        }
        match text_string(alloc, self.bytes.len(), head.number(), rest) {
            Ok((found, _)) => Ok(Some(found)),
            Err(ReadError::Memory) => Err(OutOfMemory),
            Err(ReadError::Fault(_)) => unreachable!(),
        }
    }

    /// Decodes the item into an owned value.
    ///
    /// # Errors
    /// `OutOfMemory` if an allocation fails.
    pub fn to_value(&self, alloc: Global) -> Result<Value, OutOfMemory>
        ensures { IfOk result (λ v. value_item v ≡ pull_item self.now) }
    {
        match read::item(alloc, self.bytes, MAX_DEPTH as usize) {
            Ok((value, _)) => Ok(value),
            Err(ReadError::Memory) => Err(OutOfMemory),
            Err(ReadError::Fault(_)) => unreachable!(),
        }
    }
}
