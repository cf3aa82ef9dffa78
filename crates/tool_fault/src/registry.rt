//! Numbers that are out of range, or have no name (RFC 8152, section 16).

ghost use Rattle.std.specs.Prelude.{◌≡◌, IfSome, IsTrue, Some};
ghost use Rattle.coset.specs.Parts.{as_integer};
ghost use Rattle.tool_fault.specs.Places.{IsOutOfRange};
ghost use Rattle.tool_fault.specs.Registries.{HasNoName, IsOutside, IsUnassigned, IsUnassignedAndNotPrivate};
ghost use Rattle.tool_fault.specs.Steps.{IsAtFront};

use coset::cbor::de::Pull;
use coset::cbor::value::Integer;
use coset::iana::{
    Algorithm, CoapContentFormat, CwtClaimName, EnumI64, HeaderParameter, KeyOperation, KeyType,
    WithPrivateRange,
};

/// Returns true if the item at the front is an integer that doesn't fit an `i64`, or is negative.
pub(crate) fn is_out_of_range(bytes: &[u8]) -> bool
    ensures { IsTrue result → IsAtFront IsOutOfRange bytes.now }
{
    let Some(number) = integer_at(bytes) else {
        return false;
    };
    match i64::try_from(number) {
        Ok(_) => u64::try_from(number).is_err(),
        Err(_) => true,
    }
}

/// Returns the integer at the front, or `None` if there is none.
pub(crate) fn integer_at(bytes: &[u8]) -> Option<Integer>
    ensures { IfSome result (λ z. IsAtFront (λ v. as_integer v ≡ Some z) bytes.now) }
{
    match Pull::new(bytes) {
        Ok((item, _)) => item.integer(),
        Err(_) => None,
    }
}

/// Returns the integer at the front, or `None` if there is none or it doesn't fit an `i64`.
fn number_at(bytes: &[u8]) -> Option<i64>
    ensures { IfSome result (λ z. IsAtFront (λ v. as_integer v ≡ Some z) bytes.now) }
{
    let number = integer_at(bytes)?;
    i64::try_from(number).ok()
}

/// Returns true if no value of the registry has this number.
fn has_no_name<T: EnumI64 + Drop>(number: i64) -> bool
    ensures { IsTrue result → HasNoName T.value_of number }
{
    match T::from_i64(number) {
        Some(_) => false,
        None => true,
    }
}

/// Returns true if the integer at the front has no name in one of the registries without a private
/// range.
///
/// These are the registries of content formats, of key types, and of key operations.
pub(crate) fn is_unassigned(bytes: &[u8]) -> bool
    ensures { IsTrue result → IsAtFront IsUnassigned bytes.now }
{
    let Some(number) = number_at(bytes) else {
        return false;
    };
    if has_no_name::<CoapContentFormat>(number) {
        return true;
    }
    if has_no_name::<KeyType>(number) {
        return true;
    }
    has_no_name::<KeyOperation>(number)
}

/// Returns true if no value of the registry has this number, and it is outside the registry's
/// private range.
fn is_outside<T: EnumI64 + WithPrivateRange + Drop>(number: i64) -> bool
    ensures { IsTrue result → IsOutside T.value_of T.is_private number }
{
    !T::is_private(number) && has_no_name::<T>(number)
}

/// Returns true if the integer at the front has no name in one of the registries with a private
/// range, and is outside that registry's range.
///
/// These are the registries of algorithms, of header parameters, and of claims.
pub(crate) fn is_unassigned_and_not_private(bytes: &[u8]) -> bool
    ensures { IsTrue result → IsAtFront IsUnassignedAndNotPrivate bytes.now }
{
    let Some(number) = number_at(bytes) else {
        return false;
    };
    if is_outside::<Algorithm>(number) {
        return true;
    }
    if is_outside::<HeaderParameter>(number) {
        return true;
    }
    is_outside::<CwtClaimName>(number)
}
