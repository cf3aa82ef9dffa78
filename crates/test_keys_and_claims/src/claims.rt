//! Calls of `ClaimsSet`.

pub mod builder;

use coset::cbor::value::Value;
use coset::cwt::{ClaimName, ClaimsSet, KnownClaims};
use coset::{CborSerializable, Result};
use std::alloc::Global;
use test_lines::rest::{and_pairs, told};
use test_lines::words::Words;
use test_lines::{mark, spelled, tell};

/// Gets the value of a claim.
///
/// Arguments: the name, the claims, and a map whose pairs are appended to their rest. Claims that
/// were built may have such pairs. `private=NUMBER` is a name for private use, with any number.
///
/// # Errors
/// A fault in the arguments.
pub fn get(alloc: Global, words: &Words<'_>) -> Result<String> {
    let name: ClaimName = spelled::with_private(alloc, words.word(1))?;
    let mut claims: ClaimsSet = spelled::read(alloc, words.word(2))?;
    and_pairs(alloc, &mut claims.rest, words.word(3))?;
    mark::begin(alloc);
    let answer = claims.get(&name);
    mark::end(alloc);
    told(alloc, answer)
}

/// Reads a claims set. Returns the encoding of the claims that are understood, the array of the
/// audience's names if there are any, and the label and value of each other claim.
///
/// # Errors
/// - A fault in a word that isn't hexadecimal.
/// - `OutOfMemory` if an allocation fails.
pub fn known(alloc: Global, words: &Words<'_>) -> Result<String> {
    let bytes = words.bytes(alloc, 1)?;
    mark::begin(alloc);
    let answer = ClaimsSet::known_from_slice(alloc, &bytes);
    mark::end(alloc);
    match answer {
        Ok(known) => tell_known(alloc, known),
        Err(error) => tell::refused(alloc, error),
    }
}

/// Returns the text for these claims.
fn tell_known(alloc: Global, known: KnownClaims) -> Result<String> {
    let KnownClaims {
        claims,
        audience,
        others,
    } = known;
    let mut text = tell::value(alloc, Ok(claims))?;
    if !audience.is_empty() {
        text.push_str(" audience=")?;
        text.push_str(&tell_names(alloc, audience)?)?;
    }
    for (label, value) in others {
        text.push_str(" ")?;
        text.push_str(&tell::hexadecimal(alloc, &label.to_vec(alloc)?)?)?;
        text.push_str("=")?;
        text.push_str(&tell::hexadecimal(alloc, &value.to_vec(alloc)?)?)?;
    }
    Ok(text)
}

/// Returns the encoding of an array of these texts.
fn tell_names(alloc: Global, names: Vec<String>) -> Result<String> {
    let mut texts = Vec::new(alloc);
    for name in names {
        texts.push(Value::Text(name))?;
    }
    tell::hexadecimal(alloc, &Value::Array(texts).to_vec(alloc)?)
}
