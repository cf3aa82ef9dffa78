//! The header parameter `crit`: labels that must be understood (RFC 8152, section 3.1).

ghost use Rattle.std.specs.Prelude.{◌≡◌, IfOk, IfErr, true, false, if◌then◌else◌};
ghost use Rattle.coset.specs.CoseError.TheVariants.{OutOfMemory};
ghost use Rattle.coset.specs.LabelData.{number};
ghost use Rattle.coset.specs.Pulls.{pull_item};
ghost use Rattle.coset.specs.View.{value_item};
ghost use Rattle.ffi_query.specs.Critical.{ArePresent, AreUnderstood, IsAbsent, IsCriticalIn, IsCriticalOf, are_known, is_known, lists};
ghost use Rattle.ffi_query.specs.Labels.{is_label};

use crate::kind::Kind;
use crate::label::{Label, Map, find_value};
use coset::Result;
use coset::cbor::de::Pull;
use coset::cbor::value::Value;
use std::alloc::Global;

/// Whether headers have critical labels, and whether all of them are understood.
#[derive(Clone, Copy)]
pub(crate) struct Critical {
    pub(crate) is_there: bool,
    pub(crate) is_understood: bool,
}

/// Returns true if the label is one of the integers in `known`.
fn is_known(known: &[i64], label: &Value) -> bool
    ensures { result ≡ is_known known.now (value_item label.now) }
{
    match label.as_integer() {
        Some(number) => known
            .iter()
            .any(|known| i128::from(*known) == i128::from(number)),
        None => false,
    }
}

/// Returns true if `labels` is an array, and each element is one of the integers in `known`.
fn are_known(known: &[i64], labels: &Value) -> bool
    ensures { result ≡ are_known known.now (value_item labels.now) }
{
    match labels {
        Value::Array(labels) => labels.iter().all(|label| is_known(known, label)),
        _ => false,
    }
}

/// Returns true if the label is this integer.
fn is_number(label: &Value, wanted: i64) -> bool
    ensures { result ≡ is_label (number wanted) (value_item label.now) }
{
    match label.as_integer() {
        Some(found) => i128::from(found) == i128::from(wanted),
        None => false,
    }
}

/// Returns true if `labels` is an array, and this integer is one of its elements.
fn is_listed(labels: &Value, wanted: i64) -> bool
    ensures { result ≡ lists (value_item labels.now) wanted }
{
    match labels {
        Value::Array(labels) => labels.iter().any(|label| is_number(label, wanted)),
        _ => false,
    }
}

/// Returns true if this integer is one of `labels`, and the protected header has no parameter under
/// it.
///
/// # Errors
/// `OutOfMemory` if an allocation fails.
fn is_absent(alloc: Global, kind: Kind, item: Pull<'_>, labels: &Value, label: i64) -> Result<bool>
    ensures absent { IfOk result (IsAbsent kind (pull_item item.entry) (value_item labels.now)
        label) }
    ensures memory { IfErr result (λ e. e ≡ OutOfMemory) }
{
    if is_listed(labels, label) {
        match find_value(alloc, kind, item, Map::Protected, Label::Number(label))? {
            Some(_) => Ok(false),
            None => Ok(true),
        }
    } else {
        Ok(false)
    }
}

/// Returns true if the protected header has a parameter under each integer that is in both `known`
/// and `labels`.
///
/// The header is searched at most once for each of `known`. The message's sender chooses how often
/// `labels` repeats a label.
///
/// # Errors
/// `OutOfMemory` if an allocation fails.
fn are_present(
    alloc: Global,
    kind: Kind,
    item: Pull<'_>,
    known: &[i64],
    labels: &Value,
) -> Result<bool>
    ensures present { IfOk result (ArePresent kind (pull_item item.entry) known.now
        (value_item labels.now)) }
    ensures memory { IfErr result (λ e. e ≡ OutOfMemory) }
{
    for label in known {
        if is_absent(alloc, kind, item, labels, *label)? {
            return Ok(false);
        }
    }
    Ok(true)
}

/// Returns true if each of `labels` is an integer in `known`, and the protected header has a
/// parameter under it.
///
/// # Errors
/// `OutOfMemory` if an allocation fails.
fn are_understood(
    alloc: Global,
    kind: Kind,
    item: Pull<'_>,
    known: &[i64],
    labels: &Value,
) -> Result<bool>
    ensures understood { IfOk result (AreUnderstood kind (pull_item item.entry) known.now
        (value_item labels.now)) }
    ensures memory { IfErr result (λ e. e ≡ OutOfMemory) }
{
    if are_known(known, labels) {
        are_present(alloc, kind, item, known, labels)
    } else {
        Ok(false)
    }
}

/// Looks for `crit` in both headers of the item.
///
/// The critical labels are understood if each is in `known`, the protected header has a parameter
/// under each, and the unprotected header has no `crit`. No signature covers the unprotected
/// header.
///
/// # Errors
/// `OutOfMemory` if an allocation fails.
fn critical_in(alloc: Global, kind: Kind, item: Pull<'_>, known: &[i64]) -> Result<Critical>
    ensures critical { IfOk result (λ c.
        IsCriticalIn kind known.now (pull_item item.entry) c.is_there c.is_understood) }
    ensures memory { IfErr result (λ e. e ≡ OutOfMemory) }
{
    let labels = find_value(alloc, kind, item, Map::Protected, Label::Number(2))?;
    if let Some(_) = find_value(alloc, kind, item, Map::Unprotected, Label::Number(2))? {
        return Ok(Critical {
            is_there: true,
            is_understood: false,
        });
    }
    match labels {
        Some(labels) => Ok(Critical {
            is_there: true,
            is_understood: are_understood(alloc, kind, item, known, &labels)?,
        }),
        None => Ok(Critical {
            is_there: false,
            is_understood: true,
        }),
    }
}

fn either(a: bool, b: bool) -> bool
    ensures { result ≡ (if a then true else b) }
{
    a || b
}

fn both(a: bool, b: bool) -> bool
    ensures { result ≡ (if a then b else false) }
{
    a && b
}

/// Looks for `crit` in the headers of a message. For a [`Kind::Sign`], the headers of the signer
/// `bearer` count too.
///
/// # Errors
/// `OutOfMemory` if an allocation fails.
pub(crate) fn critical_of(
    alloc: Global,
    kind: Kind,
    item: Pull<'_>,
    bearer: Pull<'_>,
    known: &[i64],
) -> Result<Critical>
    ensures critical { IfOk result (λ c. IsCriticalOf kind known.now (pull_item item.entry)
        (pull_item bearer.entry) c.is_there c.is_understood) }
    ensures memory { IfErr result (λ e. e ≡ OutOfMemory) }
{
    match kind {
        Kind::Sign(_) => {
            let message = critical_in(alloc, kind, item, known)?;
            let signer = critical_in(alloc, Kind::Signature, bearer, known)?;
            Ok(Critical {
                is_there: either(message.is_there, signer.is_there),
                is_understood: both(message.is_understood, signer.is_understood),
            })
        }
        _ => critical_in(alloc, kind, item, known),
    }
}
