//! Calls of `Value` and `Integer`, and the texts of CBOR's errors.

use coset::cbor::de::{self, EndOfFile};
use coset::cbor::ser;
use coset::cbor::value::{Float, Integer, Value};
use coset::{CborSerializable, CoseError, Result};
use std::alloc::Global;
use std::fmt::Display;
use std::num::f64_to_bits_with_nan;
use test_lines::copies::NoCopy;
use test_lines::typed::{Operation, plain};
use test_lines::words::Words;
use test_lines::{mark, spelled, tell};

/// Makes the call of that name of `Value`.
///
/// # Errors
/// A fault in the arguments, or an unknown name.
pub fn call(alloc: Global, name: &str, words: &Words<'_>) -> Result<String> {
    match name {
        "from" => {
            let number = spelled::wide(words.word(2))?;
            mark::begin(alloc);
            let value = from(words.word(1), number);
            mark::end(alloc);
            tell::value(alloc, Ok(value?))
        }
        "as_array" | "as_map" | "as_tag" => {
            as_many(alloc, name, &spelled::item(alloc, words.word(1))?)
        }
        _ => as_one(alloc, name, &spelled::item(alloc, words.word(1))?),
    }
}

/// Returns the double of a float.
///
/// # Errors
/// `UnexpectedItem` if the item isn't a float.
pub fn to_double(alloc: Global, words: &Words<'_>) -> Result<String> {
    let Value::Float(float) = spelled::item(alloc, words.word(1))? else {
        return Err(CoseError::UnexpectedItem("item", "float"));
    };
    mark::begin(alloc);
    let double = float.to_f64();
    mark::end(alloc);
    let bits = f64_to_bits_with_nan(double);
    tell::value(alloc, Ok(Value::Float(Float::Double(bits))))
}

/// Returns the value of a number of that type.
fn from(kind: &str, number: i128) -> Result<Value> {
    match kind {
        "u8" => Ok(Value::from(u8::try_from(number)?)),
        "u16" => Ok(Value::from(u16::try_from(number)?)),
        "u32" => Ok(Value::from(u32::try_from(number)?)),
        "u64" => Ok(Value::from(u64::try_from(number)?)),
        "i8" => Ok(Value::from(i8::try_from(number)?)),
        "i16" => Ok(Value::from(i16::try_from(number)?)),
        "i32" => Ok(Value::from(i32::try_from(number)?)),
        "i64" => Ok(Value::from(i64::try_from(number)?)),
        _ => Err(CoseError::UnexpectedItem("word", "type of numbers")),
    }
}

/// Returns the content of the value if it is of that kind, or `none`.
fn as_one(alloc: Global, name: &str, value: &Value) -> Result<String> {
    match name {
        "as_integer" => {
            mark::begin(alloc);
            let found = value.as_integer();
            mark::end(alloc);
            tell::maybe(alloc, found.map(Value::Integer))
        }
        "as_bool" => {
            mark::begin(alloc);
            let found = value.as_bool();
            mark::end(alloc);
            tell::maybe(alloc, found.map(Value::Bool))
        }
        "is_null" => {
            mark::begin(alloc);
            let answer = value.is_null();
            mark::end(alloc);
            tell::truth(alloc, answer)
        }
        "as_bytes" | "as_text" => {
            mark::begin(alloc);
            let found = content(name, value);
            mark::end(alloc);
            match found {
                Some(bytes) => tell::bytes(alloc, Ok(Vec::from_slice(alloc, bytes)?)),
                None => tell::none(alloc),
            }
        }
        _ => Err(CoseError::UnexpectedItem("name", "call of Value")),
    }
}

/// Returns the bytes of a string of that kind.
fn content<'a>(name: &str, value: &'a Value) -> Option<&'a [u8]> {
    if name == "as_bytes" {
        let bytes = value.as_bytes()?;
        return Some(bytes.as_slice());
    }
    let text = value.as_text()?;
    Some(text.as_bytes())
}

/// Returns the number of values in a value of that kind, and the encoding of the last, or `none`.
/// For a tag, returns its number and its content.
fn as_many(alloc: Global, name: &str, value: &Value) -> Result<String> {
    mark::begin(alloc);
    let found = many(name, value);
    mark::end(alloc);
    match found {
        Some((number, last)) => with_last(alloc, number, last),
        None => tell::none(alloc),
    }
}

fn many<'a>(name: &str, value: &'a Value) -> Option<(u64, Option<&'a Value>)> {
    match name {
        "as_array" => value
            .as_array()
            .map(|items| (items.len() as u64, items.last())),
        "as_map" => {
            let pairs = value.as_map()?;
            Some((pairs.len() as u64, pairs.last().map(|pair| &pair.1)))
        }
        _ => value.as_tag().map(|(number, inner)| (number, Some(inner))),
    }
}

fn with_last(alloc: Global, number: u64, last: Option<&Value>) -> Result<String> {
    match last {
        Some(value) => {
            let written = value.clone()?.to_vec(alloc)?;
            Ok(format!(in alloc; "ok {number} {}", tell::hexadecimal(alloc, &written)?)?)
        }
        None => Ok(format!(in alloc; "ok {number}")?),
    }
}

/// Makes the call of that name of `Integer`. Arguments: the other type, and the number.
///
/// # Errors
/// A fault in the arguments, or an unknown name.
pub fn call_integer(alloc: Global, name: &str, words: &Words<'_>) -> Result<String> {
    match name {
        "try_from" => try_from(alloc, words.word(1), words.word(2)),
        "try_into" => try_into(alloc, words.word(1), words.word(2)),
        _ => Err(CoseError::UnexpectedItem("name", "call of Integer")),
    }
}

/// Converts the number from a wider type to an integer.
fn try_from(alloc: Global, kind: &str, word: &str) -> Result<String> {
    let integer = match kind {
        "i128" => {
            let number = spelled::wide(word)?;
            mark::begin(alloc);
            let integer = Integer::try_from(number);
            mark::end(alloc);
            integer
        }
        _ => {
            let number = spelled::wide_unsigned(word)?;
            mark::begin(alloc);
            let integer = Integer::try_from(number);
            mark::end(alloc);
            integer
        }
    };
    match integer {
        Ok(integer) => Ok(format!(in alloc; "ok {}", i128::from(integer))?),
        Err(error) => tell::refused(alloc, CoseError::from(error)),
    }
}

/// Converts the integer to a narrower type.
fn try_into(alloc: Global, kind: &str, word: &str) -> Result<String> {
    let integer = Integer::try_from(spelled::wide(word)?)?;
    mark::begin(alloc);
    let number = match kind {
        "i64" => i64::try_from(integer).map(i128::from),
        _ => u64::try_from(integer).map(i128::from),
    };
    mark::end(alloc);
    match number {
        Ok(number) => Ok(format!(in alloc; "ok {number}")?),
        Err(error) => tell::refused(alloc, CoseError::from(error)),
    }
}

/// Returns the text of the reader's error of that name, with an offset if it has one.
///
/// # Errors
/// A fault if the name isn't known.
pub fn reader_error(alloc: Global, words: &Words<'_>) -> Result<String> {
    let error: de::Error<EndOfFile> = match words.word(1) {
        "Io" => de::Error::Io(EndOfFile),
        "Syntax" => de::Error::Syntax(spelled::unsigned(words.word(2))? as usize),
        "Semantic" => de::Error::Semantic(offset(words.word(2)), "unsupported simple value"),
        "RecursionLimitExceeded" => de::Error::RecursionLimitExceeded,
        "OutOfMemory" => de::Error::OutOfMemory,
        _ => return Err(CoseError::UnexpectedItem("word", "error of the reader")),
    };
    told_error(alloc, error)
}

fn offset(word: &str) -> Option<usize> {
    word.parse::<usize>().ok()
}

/// Returns the writer's error of that name.
fn writer_error_of(alloc: Global, words: &Words<'_>) -> Result<ser::Error<EndOfFile>> {
    match words.word(1) {
        "Io" => Ok(ser::Error::Io(EndOfFile)),
        "Value" => Ok(ser::Error::Value(spelled::text(alloc, words.word(2))?)),
        _ => Err(CoseError::UnexpectedItem("word", "error of the writer")),
    }
}

/// Returns the text of the writer's error of that name.
///
/// # Errors
/// A fault if the name isn't known.
pub fn writer_error(alloc: Global, words: &Words<'_>) -> Result<String> {
    told_error(alloc, writer_error_of(alloc, words)?)
}

/// Returns the text of the library's error into which the writer's error of that name is converted.
///
/// # Errors
/// A fault if the name isn't known.
pub fn writer_error_becomes(alloc: Global, words: &Words<'_>) -> Result<String> {
    told_error(alloc, CoseError::from(writer_error_of(alloc, words)?))
}

fn told_error<E: Display + Drop>(alloc: Global, error: E) -> Result<String> {
    mark::begin(alloc);
    let text = error.to_string(alloc);
    mark::end(alloc);
    match text {
        Ok(text) => Ok(text),
        Err(error) => tell::refused(alloc, CoseError::from(error)),
    }
}

/// Makes the call of `Value` that every type has.
///
/// # Errors
/// A fault in the arguments, or a call that `Value` doesn't have.
pub fn typed(alloc: Global, call: Operation, words: &Words<'_>) -> Result<String> {
    plain(alloc, call, words, |v: &Value| copied(v))
}

/// Returns the copy of a CBOR value, whose `clone` has only one error.
///
/// # Errors
/// `Memory` if an allocation fails.
fn copied(value: &Value) -> std::result::Result<Value, NoCopy> {
    match value.clone() {
        Ok(copy) => Ok(copy),
        Err(_) => Err(NoCopy::Memory),
    }
}
