//! The forms of values in the bytes of rows.

use coset::cbor::value::Value;
use coset::cwt::Timestamp;
use coset::{
    AsCborValue, CborSerializable, CoseError, ProtectedBstr, ProtectedHeader, Result,
    TaggedCborSerializable,
};
use std::alloc::Global;

/// How values of a type are read from the bytes of a row, and which bytes are written for them.
pub trait Form<T> {
    /// Whether structures with an `external_aad` are written.
    const IS_STRUCTURE: bool = false;

    /// Reads a value from bytes.
    ///
    /// # Errors
    /// - A fault in bytes that encode no value.
    /// - `OutOfMemory` if an allocation fails.
    fn read(alloc: Global, bytes: &[u8]) -> Result<T>;

    /// Reads a value from the one item that the bytes encode.
    ///
    /// # Errors
    /// The errors of [`Form::read`].
    fn read_item(alloc: Global, item: Value) -> Result<T>;

    /// Returns the bytes for the value. A form without structures ignores `external_aad`.
    ///
    /// # Errors
    /// - A fault in a value that can't be written.
    /// - `OutOfMemory` if an allocation fails.
    fn write(alloc: Global, value: T, external_aad: &[u8]) -> Result<Vec<u8>>;
}

/// An item of the type itself.
pub struct Plain;

impl<T: CborSerializable> Form<T> for Plain {
    fn read(alloc: Global, bytes: &[u8]) -> Result<T> {
        T::from_slice(alloc, bytes)
    }

    fn read_item(alloc: Global, item: Value) -> Result<T> {
        T::from_cbor_value(alloc, item)
    }

    fn write(alloc: Global, value: T, _external_aad: &[u8]) -> Result<Vec<u8>> {
        value.to_vec(alloc)
    }
}

/// An item of the type under its tag (RFC 8152, section 2).
pub struct Tagged;

impl<T: TaggedCborSerializable> Form<T> for Tagged {
    fn read(alloc: Global, bytes: &[u8]) -> Result<T> {
        T::from_tagged_slice(alloc, bytes)
    }

    fn read_item(alloc: Global, item: Value) -> Result<T> {
        match item {
            Value::Tag(number, inner) => {
                if number != T::TAG {
                    return Err(CoseError::UnexpectedItem("tag", "other tag"));
                }
                T::from_cbor_value(alloc, Box::into_inner(inner))
            }
            other => Err(CoseError::UnexpectedItem(kind_name(&other), "tag")),
        }
    }

    fn write(alloc: Global, value: T, _external_aad: &[u8]) -> Result<Vec<u8>> {
        value.to_tagged_vec(alloc)
    }
}

/// Returns the name of a value's type in errors.
fn kind_name(value: &Value) -> &'static str {
    match value {
        Value::Integer(_) => "int",
        Value::Bytes(_) => "bstr",
        Value::Float(_) => "float",
        Value::Text(_) => "tstr",
        Value::Bool(_) => "bool",
        Value::Null => "nul",
        Value::Tag(_, _) => "tag",
        Value::Array(_) => "array",
        Value::Map(_) => "map",
    }
}

/// The byte string of a protected header in messages (RFC 8152, section 3).
pub struct InString;

impl Form<ProtectedHeader> for InString {
    fn read(alloc: Global, bytes: &[u8]) -> Result<ProtectedHeader> {
        Ok(ProtectedBstr::from_slice(alloc, bytes)?.0)
    }

    fn read_item(alloc: Global, item: Value) -> Result<ProtectedHeader> {
        ProtectedHeader::from_cbor_bstr(alloc, item)
    }

    fn write(alloc: Global, value: ProtectedHeader, _external_aad: &[u8]) -> Result<Vec<u8>> {
        ProtectedBstr(value).to_vec(alloc)
    }
}

/// Timestamps, which are read from items and written as items alone.
pub struct AsValue;

impl Form<Timestamp> for AsValue {
    fn read(alloc: Global, bytes: &[u8]) -> Result<Timestamp> {
        Timestamp::from_cbor_value(alloc, Value::from_slice(alloc, bytes)?)
    }

    fn read_item(alloc: Global, item: Value) -> Result<Timestamp> {
        Timestamp::from_cbor_value(alloc, item)
    }

    fn write(alloc: Global, value: Timestamp, _external_aad: &[u8]) -> Result<Vec<u8>> {
        value.to_cbor_value(alloc)?.to_vec(alloc)
    }
}
