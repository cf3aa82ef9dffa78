//! The headers of one layer, side by side (RFC 9052, section 3).

ghost use Rattle.std.specs.Prelude.{◌≡◌, IfOk, IfErr};
ghost use Rattle.coset.specs.CoseError.TheVariants.{OutOfMemory};
ghost use Rattle.coset.specs.Headers.{fields_in};
ghost use Rattle.coset.specs.LabelViews.{entry_view};
ghost use Rattle.coset.specs.LabelData.{as_label, same_label};
ghost use Rattle.coset.specs.Views.{critical_view, header_view, protected_view};
ghost use Rattle.cwt_verify.specs.Headers.{contradict, has_both_ivs, has_label, is_parameter, is_set, named_key, number_in, parameters, repeat_label, share_parameter};

use coset::cbor::value::Value;
use coset::iana::{EnumI64, HeaderParameter};
use coset::laws::orders_match_equality;
use coset::{Header, Label, ProtectedHeader, RegisteredLabelWithPrivate, Result};
use coset_codec::has_repeats;
use std::alloc::Global;
use std::mem;

/// A critical label, which must be understood.
pub(crate) type Critical = RegisteredLabelWithPrivate<HeaderParameter>;

/// Returns the numbers of the parameters that are fields of the header, each with true if it is
/// set.
fn parameters(header: &Header) -> [(i64, bool); 9]
    ensures { result ≡ parameters (header_view header.now) }
{
    [
        (1, header.alg.is_some()),
        (2, !header.crit.is_empty()),
        (3, header.content_type.is_some()),
        (4, !header.key_id.is_empty()),
        (5, !header.iv.is_empty()),
        (6, !header.partial_iv.is_empty()),
        (7, !header.counter_signatures.is_empty()),
        (11, !header.countersignatures_v2.is_empty()),
        (12, header.countersignature0_v2.is_some()),
    ]
}

/// Returns true if the number is that of a field of the header, and the field is set.
fn is_parameter(header: &Header, label: i64) -> bool
    ensures { result ≡ is_parameter (header_view header.now) label }
{
    parameters(header)
        .iter()
        .any(|(number, is_there)| *is_there && *number == label)
}

/// Returns true if a field is set in both headers.
fn share_parameter(one: &Header, other: &Header) -> bool
    ensures { result ≡ share_parameter (header_view one.now) (header_view other.now) }
{
    parameters(one).iter().any(|(number, is_there)| *is_there && is_parameter(other, *number))
}

/// Returns true if a label stands twice among the other labels of both headers.
///
/// # Errors
/// `OutOfMemory` if an allocation fails.
fn repeat_label(alloc: Global, one: &Header, other: &Header) -> Result<bool>
    ensures answer { IfOk result (λ b. b
        ≡ repeat_label (header_view one.now) (header_view other.now)) }
    ensures memory { IfErr result (λ e. e ≡ OutOfMemory) }
{
    let mut labels = Vec::new(alloc);
    labels.extend(one.rest.iter().map(|(label, _)| (label, ())))?;
    labels.extend(other.rest.iter().map(|(label, _)| (label, ())))?;
    has_repeats(alloc, &labels)
}

/// Returns true if the headers together have an IV and a Partial IV.
fn has_both_ivs(one: &Header, other: &Header) -> bool
    ensures { result ≡ has_both_ivs (header_view one.now) (header_view other.now) }
{
    let has_iv = is_parameter(one, 5) || is_parameter(other, 5);
    let has_partial_iv = is_parameter(one, 6) || is_parameter(other, 6);
    has_iv && has_partial_iv
}

/// Returns true if a label is in both headers, or if they have an IV and a Partial IV (RFC 9052,
/// sections 3 and 3.1).
///
/// # Errors
/// `OutOfMemory` if an allocation fails.
pub(crate) fn contradict(alloc: Global, one: &Header, other: &Header) -> Result<bool>
    ensures answer { IfOk result (λ b. b
        ≡ contradict (header_view one.now) (header_view other.now)) }
    ensures memory { IfErr result (λ e. e ≡ OutOfMemory) }
{
    if share_parameter(one, other) || has_both_ivs(one, other) {
        return Ok(true);
    }
    repeat_label(alloc, one, other)
}

/// Returns the number of the label, or `None` if it is a text.
fn number_in(label: &Critical) -> Option<i64>
    ensures { result ≡ number_in (as_label (critical_view label.now)) }
{
    match label {
        RegisteredLabelWithPrivate::Assigned(parameter) => Some(parameter.to_i64()),
        RegisteredLabelWithPrivate::PrivateUse(number) => Some(*number),
        RegisteredLabelWithPrivate::Text(_) => None,
    }
}

/// Returns true if the pair has this label.
fn is_labelled(pair: &(Label, Value), label: &Critical) -> bool
    ensures { result ≡ same_label (entry_view pair.now).0
        (as_label (critical_view label.now)) }
{
    orders_match_equality();
    match (&pair.0, label) {
        (Label::Int(held), RegisteredLabelWithPrivate::Assigned(parameter)) => *held
            == parameter.to_i64(),
        (Label::Int(held), RegisteredLabelWithPrivate::PrivateUse(number)) => held == number,
        (Label::Text(held), RegisteredLabelWithPrivate::Text(text)) => held == text,
        _ => false,
    }
}

/// Returns true if the label is that of a field of the header, and the field is set.
fn is_set(header: &Header, label: &Critical) -> bool
    ensures { result ≡ is_set (header_view header.now) (as_label (critical_view label.now)) }
{
    match number_in(label) {
        Some(number) => is_parameter(header, number),
        None => false,
    }
}

/// Returns true if the header has the label.
pub(crate) fn has_label(header: &Header, label: &Critical) -> bool
    ensures { result ≡ has_label (header_view header.now) (as_label (critical_view label.now)) }
{
    is_set(header, label) || header.rest.iter().any(|pair| is_labelled(pair, label))
}

/// Returns the key identifier in the protected header, or if it has none, that in the unprotected
/// one (RFC 8152, section 3.1). It is empty if neither has one.
pub(crate) fn named_key(alloc: Global, protected: ProtectedHeader, unprotected: Header) -> Vec<u8>
    ensures { result.items ≡ named_key (protected_view protected) (header_view unprotected) }
{
    let key_id = own_key(alloc, protected.header);
    if key_id.is_empty() {
        own_key(alloc, unprotected)
    } else {
        key_id
    }
}

/// Returns the key identifier in the header. It is empty if there is none.
pub(crate) fn own_key(alloc: Global, mut header: Header) -> Vec<u8>
    ensures { result.items ≡ (fields_in (header_view header)).key_id }
{
    mem::replace(&mut header.key_id, Vec::new(alloc))
}
