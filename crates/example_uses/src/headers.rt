//! Facts in a header: critical labels, certificates, the algorithm, and the key.

ghost use Rattle.std.specs.Prelude.{◌≡◌, map, option_map};
ghost use Rattle.std.specs.List.{list_all, list_any};
ghost use Rattle.std.specs.Map.{lookup};
ghost use Rattle.std.specs.Option.{option_and_then};
ghost use Rattle.coset_value.specs.Parts.{as_bytes};
ghost use Rattle.coset_value.specs.View.{value_item};
ghost use Rattle.coset_iana.specs.Algorithm as algorithms;
ghost use Rattle.coset_iana.specs.HeaderParameter as parameters;
ghost use Rattle.coset_iana.specs.declared.headers.HeaderParameter.TheVariants.{X5Chain};
ghost use Rattle.coset_label.specs.LabelData.{as_label, assigned, number, same_label};
ghost use Rattle.coset_label.specs.Views.{entry_view};
ghost use Rattle.coset_core.specs.Headers.{fields_in};
ghost use Rattle.coset_core.specs.Views.{critical_view, header_view, protected_view};
ghost use Rattle.example_uses.specs.HeaderParts.{has_algorithm, has_parameter, is_listed, is_met, is_missing, is_one_of, is_understood, leaf, names_key, one_names_key};

use coset::cbor::value::Value;
use coset::iana::{Algorithm, EnumI64, HeaderParameter};
use coset::laws::orders_match_equality;
use coset::{Header, Label, ProtectedHeader, RegisteredLabelWithPrivate};

/// An entry of `crit`, a label that must be understood.
type Critical = RegisteredLabelWithPrivate<HeaderParameter>;

/// Returns true if the label is one of these.
fn is_known(known: &[Critical], label: &Critical) -> bool
    ensures { result ≡ is_one_of (map critical_view known.now) (critical_view label.now) }
{
    known.contains(label)
}

/// Returns true if the pair has this label.
fn is_labelled(pair: &(Label, Value), label: &Critical) -> bool
    ensures { result ≡ same_label (entry_view pair.now).0 (as_label (critical_view label.now)) }
{
    orders_match_equality();
    match (&pair.0, label) {
        (Label::Int(held), RegisteredLabelWithPrivate::Assigned(parameter)) => *held
            == parameter.to_i64(),
        (Label::Int(held), RegisteredLabelWithPrivate::PrivateUse(number)) => held == number,
        (Label::Text(held), RegisteredLabelWithPrivate::Text(text)) => held == text,
        _ => false,
    }
}

/// Returns true if the header has a parameter with this label that isn't a field.
fn has_parameter(header: &Header, label: &Critical) -> bool
    ensures { result ≡ has_parameter (header_view header.now) (critical_view label.now) }
{
    header.rest.iter().any(|pair| is_labelled(pair, label))
}

/// Returns true if the header lists this label as critical.
fn is_listed(header: &Header, label: &Critical) -> bool
    ensures { result ≡ is_listed (header_view header.now) (critical_view label.now) }
{
    header.crit.iter().any(|listed| label == listed)
}

/// Returns true if the header lists this label as critical, and has no such parameter.
fn is_missing(header: &Header, label: &Critical) -> bool
    ensures { result ≡ is_missing (header_view header.now) (critical_view label.now) }
{
    is_listed(header, label) && !has_parameter(header, label)
}

/// Returns true if each critical label of the header is one of these.
fn are_known(header: &Header, known: &[Critical]) -> bool
    ensures { result ≡ list_all (is_one_of (map critical_view known.now))
        (fields_in (header_view header.now)).crit }
{
    header.crit.iter().all(|label| is_known(known, label))
}

/// Returns true if one of these labels is critical, and the header has no such parameter.
fn finds_missing(header: &Header, known: &[Critical]) -> bool
    ensures { result ≡ list_any (is_missing (header_view header.now))
        (map critical_view known.now) }
{
    known.iter().any(|label| is_missing(header, label))
}

/// Returns true if each critical label of the header is one of these, and a parameter that isn't a
/// field.
///
/// It looks for each of these labels in the header, and not for each critical one. So the time
/// grows with the header's length, times the number of these labels.
fn are_met(header: &Header, known: &[Critical]) -> bool
    ensures { result ≡ list_all (is_met (map critical_view known.now) (header_view header.now))
        (fields_in (header_view header.now)).crit }
{
    are_known(header, known) && !finds_missing(header, known)
}

/// Returns true if each label in `crit` is one of these and a parameter of the protected header,
/// and the unprotected header has no `crit` (RFC 8152, section 3.1).
///
/// Any other message must be refused. The labels of fields of a [`Header`] count as missing. They
/// should not be in `crit`, because every recipient understands them.
pub fn is_understood(protected: &ProtectedHeader, unprotected: &Header, known: &[Critical]) -> bool
    ensures { result ≡ is_understood (map critical_view known.now)
        (protected_view protected.now).header (header_view unprotected.now) }
{
    are_met(&protected.header, known) && unprotected.crit.is_empty()
}

/// Returns the value of a parameter that isn't a field of the header.
pub fn find_parameter(header: &Header, parameter: HeaderParameter) -> Option<&Value>
    ensures { option_map (λ v. value_item v.now) result
        ≡ lookup (same_label (number (parameters.number parameter)))
        (fields_in (header_view header.now)).rest }
{
    header.get(&Label::Int(parameter.to_i64()))
}

/// Returns the content of a byte string, or `None` for another item.
fn bytes_of(value: &Value) -> Option<&[u8]>
    ensures { option_map (λ b. b.now) result ≡ as_bytes (value_item value.now) }
{
    match value {
        Value::Bytes(bytes) => Some(bytes.as_slice()),
        _ => None,
    }
}

/// Returns the signer's certificate: the one in `x5chain` (RFC 9360, section 2), or the first of
/// the chain there.
pub fn signer_certificate(header: &Header) -> Option<&[u8]>
    ensures { option_map (λ c. c.now) result
        ≡ option_and_then leaf (lookup (same_label (number (parameters.number X5Chain)))
        (fields_in (header_view header.now)).rest) }
{
    let value = find_parameter(header, HeaderParameter::X5Chain)?;
    match value.as_array() {
        Some(chain) => bytes_of(chain.first()?),
        None => bytes_of(value),
    }
}

/// Returns true if the header names this algorithm.
pub fn has_algorithm(header: &Header, algorithm: Algorithm) -> bool
    ensures { result ≡ has_algorithm (assigned (algorithms.number algorithm))
        (header_view header.now) }
{
    match &header.alg {
        Some(named) => *named == RegisteredLabelWithPrivate::Assigned(algorithm),
        None => false,
    }
}

/// Returns true if the header names this key. A header without an identifier names the empty one.
pub fn names_key(header: &Header, key_id: &[u8]) -> bool
    ensures { result ≡ names_key key_id.now (header_view header.now) }
{
    header.key_id.as_slice() == key_id
}

/// Returns true if the headers name this key (`kid`, RFC 8152, section 3.1).
///
/// The identifier of the unprotected header counts only if the protected header has none (RFC 8152,
/// section 3).
pub fn one_names_key(protected: &ProtectedHeader, unprotected: &Header, key_id: &[u8]) -> bool
    ensures { result ≡ one_names_key key_id.now (protected_view protected.now)
        (header_view unprotected.now) }
{
    if protected.header.key_id.is_empty() {
        return names_key(unprotected, key_id);
    }
    names_key(&protected.header, key_id)
}
