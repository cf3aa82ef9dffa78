//! The members of a key that its type defines (RFC 9052, section 7; RFC 9053, section 7).

ghost use Rattle.std.specs.Prelude.{◌≡◌, option_map};
ghost use Rattle.coset.specs.Keys.{key_view};
ghost use Rattle.cwt_ring.specs.Kinds.{has_length, has_length_from, is_array, is_bool, is_byte_string, is_unsigned};
ghost use Rattle.cwt_ring.specs.Members.{bytes_of, integer_of};

use coset::cbor::value::Integer;
use coset::{CoseKey, Label};

/// Returns the bytes of the member, or `None` if it isn't a byte string.
pub(crate) fn bytes_of(key: &CoseKey, label: i64) -> Option<&[u8]>
    ensures { option_map (λ b. b.now) result ≡ bytes_of label (key_view key.now) }
{
    let value = key.get(&Label::Int(label))?;
    match value.as_bytes() {
        Some(bytes) => Some(bytes.as_slice()),
        None => None,
    }
}

/// Returns the number of the member, or `None` if it isn't an integer.
pub(crate) fn integer_of(key: &CoseKey, label: i64) -> Option<Integer>
    ensures { result ≡ integer_of label (key_view key.now) }
{
    key.get(&Label::Int(label))?.as_integer()
}

/// Returns true if the member is a byte string.
pub(crate) fn is_byte_string(key: &CoseKey, label: i64) -> bool
    ensures { result ≡ is_byte_string label (key_view key.now) }
{
    bytes_of(key, label).is_some()
}

/// Returns true if the member is a byte string of this length.
pub(crate) fn has_length(key: &CoseKey, label: i64, len: usize) -> bool
    ensures { result ≡ has_length len label (key_view key.now) }
{
    match bytes_of(key, label) {
        Some(bytes) => bytes.len() == len,
        None => false,
    }
}

/// Returns true if the member is a byte string of this length or longer.
pub(crate) fn has_length_from(key: &CoseKey, label: i64, len: usize) -> bool
    ensures { result ≡ has_length_from len label (key_view key.now) }
{
    match bytes_of(key, label) {
        Some(bytes) => len <= bytes.len(),
        None => false,
    }
}

/// Returns true if the member is an unsigned integer.
pub(crate) fn is_unsigned(key: &CoseKey, label: i64) -> bool
    ensures { result ≡ is_unsigned label (key_view key.now) }
{
    match integer_of(key, label) {
        Some(number) => u64::try_from(number).is_ok(),
        None => false,
    }
}

/// Returns true if the member is a bool.
pub(crate) fn is_bool(key: &CoseKey, label: i64) -> bool
    ensures { result ≡ is_bool label (key_view key.now) }
{
    match key.get(&Label::Int(label)) {
        Some(value) => value.as_bool().is_some(),
        None => false,
    }
}

/// Returns true if the member is an array.
pub(crate) fn is_array(key: &CoseKey, label: i64) -> bool
    ensures { result ≡ is_array label (key_view key.now) }
{
    match key.get(&Label::Int(label)) {
        Some(value) => value.as_array().is_some(),
        None => false,
    }
}
