//! The type of a token (RFC 9596).

ghost use Rattle.std.specs.Prelude.{◌≡◌, map, option_map};
ghost use Rattle.coset.specs.View.{value_item};
ghost use Rattle.coset_iana.specs.CoapContentFormat as formats;
ghost use Rattle.coset.specs.Views.{header_view};
ghost use Rattle.cwt_verify.specs.Types.{format_of, has_type, is_one_of, type_name};

use coset::cbor::value::{Integer, Value};
use coset::iana::{CoapContentFormat, EnumI64, Named};
use coset::{Header, Label};

/// The label of the type of a whole message (RFC 9596).
const TYP: i64 = 16;

/// Returns the name of the content format with this number.
fn named_by(number: i64) -> Option<&'static str>
    ensures { option_map (λ s. s.now) result ≡ option_map formats.name (format_of number) }
{
    match CoapContentFormat::from_i64(number) {
        Some(format) => Some(format.name()),
        None => None,
    }
}

/// Returns the name of the content format with this number, which may be any integer.
fn format_name(number: Integer) -> Option<&'static str>
    ensures { option_map (λ s. s.now) result ≡ option_map formats.name (format_of number) }
{
    match i64::try_from(number) {
        Ok(number) => named_by(number),
        Err(_) => None,
    }
}

/// Returns the media type that the value names: itself if it is a text, else the name of the CoAP
/// content format with this number.
fn type_name(value: &Value) -> Option<&str>
    ensures { option_map (λ s. s.now) result ≡ type_name (value_item value.now) }
{
    if let Some(name) = value.as_text() {
        return Some(name);
    }
    match value.as_integer() {
        Some(number) => format_name(number),
        None => None,
    }
}

/// Returns true if the name is one of the types. Upper and lower case are the same.
fn is_one_of(name: &str, types: &[&str]) -> bool
    ensures { result ≡ is_one_of (map (λ s. s.now) types.now) name.now }
{
    types.iter().any(|one| name.eq_ignore_ascii_case(one))
}

/// Returns true if the header names one of the types.
pub(crate) fn has_type(header: &Header, types: &[&str]) -> bool
    ensures { result ≡ has_type (map (λ s. s.now) types.now) (header_view header.now) }
{
    let Some(value) = header.get(&Label::Int(TYP)) else {
        return false;
    };
    match type_name(value) {
        Some(name) => is_one_of(name, types),
        None => false,
    }
}
