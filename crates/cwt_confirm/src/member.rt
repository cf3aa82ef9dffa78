//! The members of a map, by their labels.

ghost use Rattle.std.specs.Prelude.{◌≡◌, IfOk, IfErr, option_map};
ghost use Rattle.coset.specs.CoseError.TheVariants.{OutOfMemory};
ghost use Rattle.coset.specs.View.{value_item, value_pairs};
ghost use Rattle.cwt_confirm.specs.Members.{has_distinct_labels, is_number, member, repeat_number, repeat_text};

use coset::Result;
use coset::cbor::value::{Integer, Value};
use coset_codec::has_repeats;
use std::alloc::Global;

/// Returns true if the value is this number.
fn is_number(value: &Value, number: i64) -> bool
    ensures { result ≡ is_number number (value_item value.now) }
{
    match value.as_integer() {
        Some(found) => found == Integer::from(number),
        None => false,
    }
}

/// Returns the value of the first member with this label.
pub(crate) fn member(pairs: &[(Value, Value)], label: i64) -> Option<&Value>
    ensures { option_map (λ v. value_item v.now) result ≡ member label (value_pairs pairs.now) }
{
    match pairs.iter().find(|pair| is_number(&pair.0, label)) {
        Some((_, value)) => Some(value),
        None => None,
    }
}

/// Returns true if two of the labels are the same number.
///
/// # Errors
/// `OutOfMemory` if an allocation fails.
fn repeat_number(alloc: Global, pairs: &[(Value, Value)]) -> Result<bool>
    ensures answer { IfOk result (λ b. b ≡ repeat_number (value_pairs pairs.now)) }
    ensures memory { IfErr result (λ e. e ≡ OutOfMemory) }
{
    let mut numbers = Vec::new(alloc);
    for (key, _) in pairs {
        if let Some(number) = key.as_integer() {
            numbers.push((number, ()))?;
        }
    }
    has_repeats(alloc, &numbers)
}

/// Returns true if two of the labels are the same text.
///
/// # Errors
/// `OutOfMemory` if an allocation fails.
fn repeat_text(alloc: Global, pairs: &[(Value, Value)]) -> Result<bool>
    ensures answer { IfOk result (λ b. b ≡ repeat_text (value_pairs pairs.now)) }
    ensures memory { IfErr result (λ e. e ≡ OutOfMemory) }
{
    let mut texts = Vec::new(alloc);
    for (key, _) in pairs {
        if let Some(text) = key.as_text() {
            texts.push((text, ()))?;
        }
    }
    has_repeats(alloc, &texts)
}

/// Returns true if no two members have the same label, a number or a text. Other keys aren't
/// compared.
///
/// # Errors
/// `OutOfMemory` if an allocation fails.
pub(crate) fn has_distinct_labels(alloc: Global, pairs: &[(Value, Value)]) -> Result<bool>
    ensures answer { IfOk result (λ b. b ≡ has_distinct_labels (value_pairs pairs.now)) }
    ensures memory { IfErr result (λ e. e ≡ OutOfMemory) }
{
    let number = repeat_number(alloc, pairs)?;
    let text = repeat_text(alloc, pairs)?;
    Ok(!number && !text)
}
