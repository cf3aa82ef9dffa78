//! Plain headers (`see` says what they are), with their algorithm and key identifier.

ghost use Rattle.std.specs.Prelude.{◌≡◌, ◌≢◌, [], IfSome, None, IsTrue, pos};
ghost use Rattle.coset.specs.Item.{bytes, integer};
ghost use Rattle.coset_seen.specs.Begins.{Begins, IsAhead};
ghost use Rattle.coset_seen.specs.Named.{BeginsPlain, IsParameter, with_parameter};
ghost use Rattle.coset_seen.specs.Plain.{IsPlainValue};

use crate::forward::{Ahead, bytes_at, integer_at, item_at};
use coset::iana::{Algorithm, CoapContentFormat, EnumI64, WithPrivateRange};

/// The algorithm and the key identifier that a header names.
#[derive(Clone, Copy)]
pub(crate) struct Named<'a> {
    pub(crate) algorithm: Option<i64>,
    pub(crate) key_id: Option<Ahead<'a>>,
    /// Whether each value is known to be an integer or a string.
    pub(crate) is_flat: bool,
}

/// A header parameter. `Flat` and `Other` are any parameters except `alg` and `kid`. The value of
/// `Flat` is an integer or a string.
#[derive(Clone, Copy)]
enum Parameter<'a> {
    Algorithm(i64),
    KeyId(Ahead<'a>),
    Flat,
    Other,
}

/// Returns true if the number is that of a registered or private algorithm.
fn is_algorithm(number: i64) -> bool
    ensures { IsTrue result → IsPlainValue (pos 1) (integer number) }
{
    Algorithm::from_i64(number).is_some() || Algorithm::is_private(number)
}

/// Returns true if the number is that of a registered content format.
fn is_content_format(number: i64) -> bool
    ensures { IsTrue result → IsPlainValue (pos 3) (integer number) }
{
    CoapContentFormat::from_i64(number).is_some()
}

/// Returns the algorithm at the front, and the bytes after it. Returns `None` unless it is a
/// registered or private number.
#[inline(always)]
fn algorithm_at(input: &[u8]) -> Option<(Parameter<'_>, &[u8])>
    ensures { IfSome result (λ x. IsParameter (pos 1) input.now x.0 x.1.now) }
{
    let (number, rest) = integer_at(input)?;
    if !is_algorithm(number) {
        return None;
    }
    Some((Parameter::Algorithm(number), rest))
}

/// Returns the content type at the front, and the bytes after it. Returns `None` unless it is a
/// registered number.
fn content_format_at(input: &[u8]) -> Option<(Parameter<'_>, &[u8])>
    ensures { IfSome result (λ x. IsParameter (pos 3) input.now x.0 x.1.now) }
{
    let (number, rest) = integer_at(input)?;
    if !is_content_format(number) {
        return None;
    }
    Some((Parameter::Flat, rest))
}

/// Returns the content of the byte string at the front. Returns `None` for any other item, and if
/// the content is empty.
#[inline(always)]
fn filled_at(input: &[u8]) -> Option<Ahead<'_>>
    ensures begins { IfSome result (λ t. Begins (bytes t.bytes.now) t.behind.now input.now) }
    ensures ahead { IfSome result (IsAhead input.now) }
    ensures filled { IfSome result (λ t. t.bytes.now ≢ []) }
{
    let found = bytes_at(input)?;
    if found.bytes.is_empty() {
        return None;
    }
    Some(found)
}

/// Returns the parameter whose value is at the front, and the bytes after it. Returns `None` if a
/// plain header can't have this value under the label.
#[inline(always)]
fn parameter_at(label: i64, value: &[u8]) -> Option<(Parameter<'_>, &[u8])>
    ensures { IfSome result (λ x. IsParameter label value.now x.0 x.1.now) }
{
    match label {
        // alg
        1 => algorithm_at(value),
        // content type
        3 => content_format_at(value),
        // kid
        4 => {
            let found = filled_at(value)?;
            Some((Parameter::KeyId(found), found.behind))
        }
        // IV
        5 => {
            let found = filled_at(value)?;
            Some((Parameter::Flat, found.behind))
        }
        // crit, Partial IV, and countersignatures of both versions
        2 | 6 | 7 | 11 | 12 => None,
        _ => {
            let rest = item_at(value)?;
            Some((Parameter::Other, rest))
        }
    }
}

impl<'a> Named<'a> {
    /// Returns the result for a header without parameters.
    pub(crate) fn nothing() -> Named<'a>
        ensures algorithm { result.algorithm ≡ None }
        ensures key_id { result.key_id ≡ None }
    {
        Named {
            algorithm: None,
            key_id: None,
            is_flat: true,
        }
    }

    /// Returns the same with one more parameter.
    #[inline(always)]
    fn with(self, parameter: Parameter<'a>) -> Named<'a>
        ensures { result ≡ with_parameter self.entry parameter.entry }
    {
        match parameter {
            Parameter::Algorithm(number) => Named {
                algorithm: Some(number),
                ..self
            },
            Parameter::KeyId(found) => Named {
                key_id: Some(found),
                ..self
            },
            Parameter::Flat => self,
            Parameter::Other => Named {
                is_flat: false,
                ..self
            },
        }
    }
}

/// Returns the algorithm and the key identifier that the pairs at the front name, and the bytes
/// after them. Returns `None` if the pairs aren't those of a plain header.
pub(crate) fn named_at(bytes: &[u8], count: u64) -> Option<(Named<'_>, &[u8])>
    ensures { IfSome result (λ x. BeginsPlain count bytes.now x.0 x.1.now) }
{
    let mut named = Named::nothing();
    let mut last: i64 = -1;
    let mut rest = bytes;
    for _ in 0..count {
        let (label, value) = integer_at(rest)?;
        if label <= last {
            return None;
        }
        let (parameter, behind) = parameter_at(label, value)?;
        named = named.with(parameter);
        last = label;
        rest = behind;
    }
    Some((named, rest))
}
