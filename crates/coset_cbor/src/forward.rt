//! Reading an item in place. Each call reads the checked item at a cursor and leaves the cursor
//! just after it. If the item is of another kind, the cursor stays. The UTF-8 of a text string is
//! checked again.

ghost use Rattle.std.specs.Prelude.{◌≡◌, ◌≤◌, ◌<◌, List, ℕ, length, false, None, Some, IfErr, IfOk, IfSome, IsSome, IsTrue, MatchOption, MatchResult, OnOk, string_bytes};
ghost use Rattle.coset_value.specs.Item.{Item};
ghost use Rattle.coset_value.specs.Parts.{as_integer, as_bytes, as_text};
ghost use Rattle.coset_value.specs.View.{bits_of, value_item};
ghost use Rattle.coset_cbor.specs.Cursors.{bytes_left, ItemAt, CopiesPart, TakesNull, TakesPart};
ghost use Rattle.coset_cbor.specs.Prefixes.{HasNoItem};
ghost use Rattle.coset_cbor.specs.ReadErrors.{IsMemory, FaultIn};
ghost use Rattle.coset_cbor.specs.Scalars.{as_float, as_scalar};

use crate::check::begins_chunk;
use crate::cursor::Cursor;
use crate::de::{EndOfFile, Error, MAX_DEPTH, error_of};
use crate::fault::ReadError;
use crate::head::head_of;
use crate::memory::OutOfMemory;
use crate::pull::{integer_of, scalar_of};
use crate::read;
use crate::string::{byte_string, text_string};
use coset_value::{Float, Integer, Value};
use std::alloc::Global;

/// The only encoding of null (RFC 8949, section 3.3).
const NULL: u8 = 0xf6;

/// Returns the integer at the start and the bytes after it, or `None` for any other item.
fn integer_at(bytes: &[u8]) -> Option<(Integer, &[u8])>
    ensures strictly { IfSome result (λ x. length x.1.now < length bytes.now) }
    ensures reads { (v : Item) (a : List ℕ) → ItemAt v bytes.now a
        → MatchOption result (as_integer v ≡ None)
        (λ x. (as_integer v ≡ Some x.0) × (x.1.now ≡ a)) }
{
    let Ok((head, rest)) = head_of(bytes) else {
        return None;
    };
    match integer_of(head) {
        Some(number) => Some((number, rest)),
        None => None,
    }
}

/// Returns the integer, float or simple value at the start and the bytes after it, or `None` for
/// any other item.
fn scalar_at(bytes: &[u8]) -> Option<(Value, &[u8])>
    ensures strictly { IfSome result (λ x. length x.1.now < length bytes.now) }
    ensures reads { (v : Item) (a : List ℕ) → ItemAt v bytes.now a
        → MatchOption result (as_scalar v ≡ None)
        (λ x. (as_scalar v ≡ Some (value_item x.0)) × (x.1.now ≡ a)) }
{
    let Ok((head, rest)) = head_of(bytes) else {
        return None;
    };
    match scalar_of(head, bytes.len(), rest) {
        Some(value) => Some((value, rest)),
        None => None,
    }
}

/// Returns the float at the start and the bytes after it, or `None` for any other item.
fn float_at(bytes: &[u8]) -> Option<(Float, &[u8])>
    ensures strictly { IfSome result (λ x. length x.1.now < length bytes.now) }
    ensures reads { (v : Item) (a : List ℕ) → ItemAt v bytes.now a
        → MatchOption result (as_float v ≡ None)
        (λ x. (as_float v ≡ Some (bits_of x.0)) × (x.1.now ≡ a)) }
{
    match scalar_at(bytes) {
        Some((Value::Float(float), rest)) => Some((float, rest)),
        _ => None,
    }
}

/// Decodes the item at the start into an owned value, and returns it with the bytes after it.
fn value_at(alloc: Global, bytes: &[u8]) -> Result<(Value, &[u8]), Error<EndOfFile>>
    ensures strictly { IfOk result (λ x. length x.1.now < length bytes.now) }
    ensures refused { IfErr result (λ e. (IsMemory e → ⊥) → HasNoItem bytes.now) }
    ensures fault { IfErr result (λ e. FaultIn bytes.now e) }
    ensures reads { (v : Item) (a : List ℕ) → ItemAt v bytes.now a
        → MatchResult result (λ x. (x.1.now ≡ a) × (value_item x.0 ≡ v)) IsMemory }
{
    match read::item(alloc, bytes, MAX_DEPTH as usize) {
        Ok((value, rest)) => Ok((value, rest)),
        Err(ReadError::Memory) => Err(Error::OutOfMemory),
        Err(ReadError::Fault(fault)) => Err(error_of(fault, bytes.len())),
    }
}

impl<'a> Cursor<'a> {
    /// Reads the number of an integer (RFC 8949, section 3.1). Returns `None` for any other item;
    /// the position is then unchanged. Allocates nothing.
    pub fn integer(&mut self) -> Option<Integer>
        ensures shrinks { length (bytes_left self.new) ≤ length (bytes_left self.old) }
        ensures strictly { IfSome result (λ _. length (bytes_left self.new)
            < length (bytes_left self.old)) }
        ensures stays { result ≡ None → bytes_left self.new ≡ bytes_left self.old }
        ensures reads { (v : Item) (a : List ℕ) → ItemAt v (bytes_left self.old) a
            → TakesPart as_integer (λ n. n) v (bytes_left self.old) (bytes_left self.new) a result }
    {
        match integer_at(self.rest) {
            Some((number, rest)) => {
                self.rest = rest;
                Some(number)
            }
            None => None,
        }
    }

    /// Reads the width and bits of a float (RFC 8949, section 3.3). Returns `None` for any other
    /// item; the position is then unchanged. Allocates nothing.
    pub fn float(&mut self) -> Option<Float>
        ensures shrinks { length (bytes_left self.new) ≤ length (bytes_left self.old) }
        ensures strictly { IfSome result (λ _. length (bytes_left self.new)
            < length (bytes_left self.old)) }
        ensures stays { result ≡ None → bytes_left self.new ≡ bytes_left self.old }
        ensures reads { (v : Item) (a : List ℕ) → ItemAt v (bytes_left self.old) a
            → TakesPart as_float bits_of v (bytes_left self.old) (bytes_left self.new) a result }
    {
        let (float, rest) = float_at(self.rest)?;
        self.rest = rest;
        Some(float)
    }

    /// Skips the item and returns true if it is `null` (RFC 8949, section 3.3). Otherwise the
    /// position is unchanged. Allocates nothing.
    pub fn null(&mut self) -> bool
        ensures shrinks { length (bytes_left self.new) ≤ length (bytes_left self.old) }
        ensures strictly { IsTrue result → length (bytes_left self.new)
            < length (bytes_left self.old) }
        ensures stays { result ≡ false → bytes_left self.new ≡ bytes_left self.old }
        ensures reads { (v : Item) (a : List ℕ) → ItemAt v (bytes_left self.old) a
            → TakesNull v (bytes_left self.old) (bytes_left self.new) a result }
    {
        let Some((first, rest)) = self.rest.split_first() else {
            return false;
        };
        if *first != NULL {
            return false;
        }
        self.rest = rest;
        true
    }

    /// Copies the content of a byte string and joins its chunks (RFC 8949, sections 3.1 and 3.2.3).
    /// Returns `None` for any other item; the position is then unchanged.
    ///
    /// # Errors
    /// `OutOfMemory` if an allocation fails. The string is then skipped.
    pub fn bytes(&mut self, alloc: Global) -> Result<Option<Vec<u8>>, OutOfMemory>
        ensures shrinks { length (bytes_left self.new) ≤ length (bytes_left self.old) }
        ensures strictly { IfOk result (λ o. IsSome o → length (bytes_left self.new)
            < length (bytes_left self.old)) }
        ensures reads { (v : Item) (a : List ℕ) → ItemAt v (bytes_left self.old) a
            → CopiesPart as_bytes (λ b. b.items) v (bytes_left self.old) (bytes_left self.new) a
            result }
    {
        let Ok((head, rest)) = head_of(self.rest) else {
            return Ok(None);
        };
        if !begins_chunk(false, head.major_type) {
            return Ok(None);
        }
        match byte_string(alloc, self.rest.len(), head.number(), rest) {
            Ok((found, rest)) => {
                if self.rest.len() <= rest.len() {
                    return Ok(None);
                }
                self.rest = rest;
                Ok(Some(found))
            }
            Err(ReadError::Memory) => {
                self.skip();
                Err(OutOfMemory)
            }
            Err(ReadError::Fault(_)) => Ok(None),
        }
    }

    /// Copies the content of a text string and joins its chunks (RFC 8949, sections 3.1 and 3.2.3).
    /// Returns `None` for any other item; the position is then unchanged.
    ///
    /// # Errors
    /// `OutOfMemory` if an allocation fails. The string is then skipped.
    pub fn text(&mut self, alloc: Global) -> Result<Option<String>, OutOfMemory>
        ensures shrinks { length (bytes_left self.new) ≤ length (bytes_left self.old) }
        ensures strictly { IfOk result (λ o. IsSome o → length (bytes_left self.new)
            < length (bytes_left self.old)) }
        ensures reads { (v : Item) (a : List ℕ) → ItemAt v (bytes_left self.old) a
            → CopiesPart as_text string_bytes v (bytes_left self.old) (bytes_left self.new) a
            result }
    {
        let Ok((head, rest)) = head_of(self.rest) else {
            return Ok(None);
        };
        if !begins_chunk(true, head.major_type) {
            return Ok(None);
        }
        match text_string(alloc, self.rest.len(), head.number(), rest) {
            Ok((found, rest)) => {
                if self.rest.len() <= rest.len() {
                    return Ok(None);
                }
                self.rest = rest;
                Ok(Some(found))
            }
            Err(ReadError::Memory) => {
                self.skip();
                Err(OutOfMemory)
            }
            Err(ReadError::Fault(_)) => Ok(None),
        }
    }

    /// Decodes the item into an owned value.
    ///
    /// # Errors
    /// - `OutOfMemory` if an allocation fails. The item is then skipped.
    /// - The errors of [`check`](crate::de::check) if no item is at the position, which is then
    ///   unchanged.
    pub fn value(&mut self, alloc: Global) -> Result<Value, Error<EndOfFile>>
        ensures shrinks { length (bytes_left self.new) ≤ length (bytes_left self.old) }
        ensures strictly { OnOk result (length (bytes_left self.new)
            < length (bytes_left self.old)) }
        ensures refused { IfErr result (λ e. (IsMemory e → ⊥) → HasNoItem (bytes_left self.old)) }
        // The fault is in the remaining input, at the error's offset if it has one.
        ensures fault { IfErr result (λ e. FaultIn (bytes_left self.old) e) }
        ensures reads { (v : Item) (a : List ℕ) → ItemAt v (bytes_left self.old) a
            → (bytes_left self.new ≡ a) × MatchResult result (λ x. value_item x ≡ v) IsMemory }
    {
        match value_at(alloc, self.rest) {
            Ok((value, rest)) => {
                self.rest = rest;
                Ok(value)
            }
            Err(Error::OutOfMemory) => {
                self.skip();
                Err(Error::OutOfMemory)
            }
            Err(error) => Err(error),
        }
    }
}
