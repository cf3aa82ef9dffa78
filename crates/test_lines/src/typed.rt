//! The calls that every type has: reading, writing, copying and `==`.

use crate::copies::{NoCopy, copy};
use crate::words::Words;
use crate::{mark, tell};
use coset::cbor::de::Pull;
use coset::cbor::value::Value;
use coset::{AsCborValue, CborSerializable, CoseError, FromPull, Result, TaggedCborSerializable};
use std::alloc::Global;

/// A call that types have in common.
#[derive(Clone, Copy, Debug, PartialEq, Eq)]
pub enum Operation {
    /// `from_slice` of the bytes.
    FromSlice,
    /// `from_tagged_slice` of the bytes.
    FromTaggedSlice,
    /// `from_any_slice` of the bytes.
    FromAnySlice,
    /// `from_cbor_value` of the item in the bytes.
    FromCborValue,
    /// `from_pull` of the borrowed item in the bytes.
    FromPull,
    /// `to_vec` of the value in the bytes.
    ToVec,
    /// `to_tagged_vec` of the value that the bytes have without a tag.
    ToTaggedVec,
    /// `to_cbor_value` of the value in the bytes.
    ToCborValue,
    /// `clone` of the value in the bytes.
    Clone,
    /// `==` of the values in the two words.
    Eq,
}

impl Operation {
    /// Returns the call of that name.
    pub fn of(name: &str) -> Option<Operation> {
        Some(match name {
            "from_slice" => Operation::FromSlice,
            "from_tagged_slice" => Operation::FromTaggedSlice,
            "from_any_slice" => Operation::FromAnySlice,
            "from_cbor_value" => Operation::FromCborValue,
            "from_pull" => Operation::FromPull,
            "to_vec" => Operation::ToVec,
            "to_tagged_vec" => Operation::ToTaggedVec,
            "to_cbor_value" => Operation::ToCborValue,
            "clone" => Operation::Clone,
            "eq" => Operation::Eq,
            _ => return None,
        })
    }
}

/// Returns the error for a call that the type doesn't have.
pub fn unknown() -> CoseError {
    CoseError::UnexpectedItem("name", "call of the type")
}

/// Makes a call of a type that may also be written under a tag. `clone` copies its values.
///
/// # Errors
/// A fault in the arguments, or a call that the type doesn't have.
pub fn message<T, F>(alloc: Global, call: Operation, words: &Words<'_>, clone: F) -> Result<String>
where
    T: TaggedCborSerializable + CborSerializable + FromPull + PartialEq + Drop,
    F: FnOnce(&T) -> std::result::Result<T, NoCopy> + Drop,
    requires { F.IsAlwaysCallable clone }
{
    match call {
        Operation::Clone => copy(alloc, words, clone),
        _ => uncopied::<T>(alloc, call, words),
    }
}

/// Makes a call of a type that may also be written under a tag, except for copies.
///
/// # Errors
/// A fault in the arguments, or a call that the type doesn't have.
pub fn uncopied<T: TaggedCborSerializable + CborSerializable + FromPull + PartialEq + Drop>(
    alloc: Global,
    call: Operation,
    words: &Words<'_>,
) -> Result<String> {
    match call {
        Operation::FromTaggedSlice => {
            let bytes = words.bytes(alloc, 1)?;
            mark::begin(alloc);
            let answer: Result<T> = T::from_tagged_slice(alloc, &bytes);
            mark::end(alloc);
            told(alloc, answer)
        }
        Operation::FromAnySlice => {
            let bytes = words.bytes(alloc, 1)?;
            mark::begin(alloc);
            let answer: Result<T> = T::from_any_slice(alloc, &bytes);
            mark::end(alloc);
            told(alloc, answer)
        }
        Operation::ToTaggedVec => {
            let value: T = given(alloc, words, 1)?;
            mark::begin(alloc);
            let answer = value.to_tagged_vec(alloc);
            mark::end(alloc);
            tell::bytes(alloc, answer)
        }
        Operation::Eq => eq::<T>(alloc, words),
        _ => serialized::<T>(alloc, call, words),
    }
}

/// Makes a call of a type that is written without a tag. `clone` copies its values.
///
/// # Errors
/// A fault in the arguments, or a call that the type doesn't have.
pub fn plain<T, F>(alloc: Global, call: Operation, words: &Words<'_>, clone: F) -> Result<String>
where
    T: CborSerializable + FromPull + PartialEq + Drop,
    F: FnOnce(&T) -> std::result::Result<T, NoCopy> + Drop,
    requires { F.IsAlwaysCallable clone }
{
    match call {
        Operation::Clone => copy(alloc, words, clone),
        Operation::Eq => eq::<T>(alloc, words),
        _ => serialized::<T>(alloc, call, words),
    }
}

/// Makes a call of a type that is read from bytes and written to them.
///
/// # Errors
/// A fault in the arguments, or a call that the type doesn't have.
pub fn serialized<T: CborSerializable + FromPull + Drop>(
    alloc: Global,
    call: Operation,
    words: &Words<'_>,
) -> Result<String> {
    match call {
        Operation::FromSlice => {
            let bytes = words.bytes(alloc, 1)?;
            mark::begin(alloc);
            let answer: Result<T> = T::from_slice(alloc, &bytes);
            mark::end(alloc);
            told(alloc, answer)
        }
        Operation::ToVec => {
            let value: T = given(alloc, words, 1)?;
            mark::begin(alloc);
            let answer = value.to_vec(alloc);
            mark::end(alloc);
            tell::bytes(alloc, answer)
        }
        _ => valued::<T>(alloc, call, words),
    }
}

/// Makes a call of a type that is read from items and written as items.
///
/// # Errors
/// A fault in the arguments, or a call that the type doesn't have.
pub fn valued<T: FromPull + Drop>(
    alloc: Global,
    call: Operation,
    words: &Words<'_>,
) -> Result<String> {
    match call {
        Operation::FromCborValue => {
            let item = words.value::<Value>(alloc, 1)?;
            mark::begin(alloc);
            let answer: Result<T> = T::from_cbor_value(alloc, item);
            mark::end(alloc);
            told(alloc, answer)
        }
        Operation::FromPull => {
            let bytes = words.bytes(alloc, 1)?;
            let pull = lent(&bytes)?;
            mark::begin(alloc);
            let answer: Result<T> = T::from_pull(alloc, pull);
            mark::end(alloc);
            told(alloc, answer)
        }
        Operation::ToCborValue => {
            let value: T = given(alloc, words, 1)?;
            mark::begin(alloc);
            let answer = value.to_cbor_value(alloc);
            mark::end(alloc);
            tell::value(alloc, answer)
        }
        _ => Err(unknown()),
    }
}

/// Returns whether the values in the two words are equal.
///
/// # Errors
/// - A fault in a word that has no value.
/// - `OutOfMemory` if an allocation fails.
pub fn eq<T: AsCborValue + PartialEq + Drop>(alloc: Global, words: &Words<'_>) -> Result<String> {
    let one: T = given(alloc, words, 1)?;
    let other: T = given(alloc, words, 2)?;
    mark::begin(alloc);
    let are_equal = one == other;
    mark::end(alloc);
    Ok(String::from_str(alloc, if are_equal { "yes" } else { "no" })?)
}

/// Reads the value in the word at that place.
///
/// # Errors
/// - A fault in a word that has no value.
/// - `OutOfMemory` if an allocation fails.
pub fn given<T: AsCborValue>(alloc: Global, words: &Words<'_>, place: usize) -> Result<T> {
    T::from_cbor_value(alloc, words.value::<Value>(alloc, place)?)
}

/// Returns the one item that the bytes encode, borrowed.
///
/// # Errors
/// A fault in bytes that aren't one item.
pub fn lent(bytes: &[u8]) -> Result<Pull<'_>> {
    let (pull, rest) = Pull::new(bytes)?;
    if rest.is_empty() {
        Ok(pull)
    } else {
        Err(CoseError::ExtraneousData)
    }
}

/// Returns `ok` and the encoding of the value, or the error's text.
///
/// # Errors
/// `OutOfMemory` if an allocation for the text fails.
pub fn told<T: AsCborValue>(alloc: Global, answer: Result<T>) -> Result<String> {
    let item: Result<Value> = match answer {
        Ok(value) => value.to_cbor_value(alloc),
        Err(error) => Err(error),
    };
    tell::value(alloc, item)
}
