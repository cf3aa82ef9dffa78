//! The pairs of a map that aren't fields.

use crate::{spelled, tell};
use coset::cbor::value::Value;
use coset::{AsCborValue, CoseError, Result};
use std::alloc::Global;

/// Appends the pairs of the map that the word spells, in order. A value that was built may have
/// such pairs.
///
/// # Errors
/// - A fault if the word spells no map, or a label can't be read.
/// - `OutOfMemory` if an allocation fails.
pub fn and_pairs<K: AsCborValue + Drop>(
    alloc: Global,
    rest: &mut Vec<(K, Value)>,
    word: &str,
) -> Result<()> {
    let Value::Map(pairs) = spelled::item(alloc, word)? else {
        return Err(CoseError::UnexpectedItem("word", "map"));
    };
    for (label, value) in pairs {
        rest.push((K::from_cbor_value(alloc, label)?, value))?;
    }
    Ok(())
}

/// Returns `ok` and the encoding of a copy of the value, or `none`.
///
/// # Errors
/// `OutOfMemory` if an allocation fails.
pub fn told(alloc: Global, answer: Option<&Value>) -> Result<String> {
    match answer {
        Some(value) => tell::value(alloc, Ok(value.clone()?)),
        None => tell::none(alloc),
    }
}
