//! The required members of a key, apart from its type (RFC 9679, section 4).

ghost use Rattle.coset.specs.Keys.{key_view};
ghost use Rattle.cose_thumbprint.specs.Thumbprint.{byte_string, curve, coordinate};
ghost use Rattle.cose_thumbprint.specs.Views.{GivesMember, GivesValue};

use crate::error::ThumbprintError;
use coset::cbor::value::Value;
use coset::{CoseKey, Label};

/// A member of a key: its label and its value.
#[derive(Clone, Copy)]
pub(crate) struct Member<'a> {
    pub(crate) label: i64,
    pub(crate) value: &'a Value,
}

/// Returns the value of the first param with this label.
///
/// # Errors
/// `MissingMember` if there is none.
fn find_member(key: &CoseKey, label: i64) -> Result<&Value, ThumbprintError>
    ensures { GivesValue (key_view key.now) label result }
{
    match key.get(&Label::Int(label)) {
        Some(value) => Ok(value),
        None => Err(ThumbprintError::MissingMember),
    }
}

/// Returns the member with this label, which is a byte string.
///
/// # Errors
/// - `MissingMember` if there is none.
/// - `InvalidMemberType` if it isn't a byte string.
pub(crate) fn find_bytes(key: &CoseKey, label: i64) -> Result<Member<'_>, ThumbprintError>
    ensures { GivesMember (key_view key.now) (label, byte_string) result }
{
    let value = find_member(key, label)?;
    match value {
        Value::Bytes(_) => Ok(Member { label, value }),
        _ => Err(ThumbprintError::InvalidMemberType),
    }
}

/// Returns the curve, which is an integer.
///
/// # Errors
/// - `MissingMember` if there is none.
/// - `InvalidMemberType` if it isn't an integer.
pub(crate) fn find_curve(key: &CoseKey, label: i64) -> Result<Member<'_>, ThumbprintError>
    ensures { GivesMember (key_view key.now) (label, curve) result }
{
    let value = find_member(key, label)?;
    match value {
        Value::Integer(_) => Ok(Member { label, value }),
        _ => Err(ThumbprintError::InvalidMemberType),
    }
}

/// Returns the y coordinate, which is a byte string.
///
/// # Errors
/// - `MissingMember` if there is none.
/// - `CompressedPoint` if it is only the sign.
/// - `InvalidMemberType` if it is neither a byte string nor a bool.
pub(crate) fn find_y(key: &CoseKey, label: i64) -> Result<Member<'_>, ThumbprintError>
    ensures { GivesMember (key_view key.now) (label, coordinate) result }
{
    let value = find_member(key, label)?;
    match value {
        Value::Bytes(_) => Ok(Member { label, value }),
        Value::Bool(_) => Err(ThumbprintError::CompressedPoint),
        _ => Err(ThumbprintError::InvalidMemberType),
    }
}
