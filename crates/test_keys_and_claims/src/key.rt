//! Calls of `CoseKey` and `MlDsaVariant`.

pub mod builder;
pub mod set;

use cose_thumbprint::thumbprint_input;
use coset::iana::{Algorithm, EnumI64};
use coset::{CborSerializable, CoseError, CoseKey, Label, MlDsaVariant, Result};
use std::alloc::Global;
use std::fmt;
use test_lines::rest::{and_pairs, told};
use test_lines::words::Words;
use test_lines::{mark, spelled, tell};

/// Makes the call of that name of `CoseKey`.
///
/// # Errors
/// A fault in the arguments, or an unknown name.
pub fn call(alloc: Global, name: &str, words: &Words<'_>) -> Result<String> {
    match name {
        "canonicalize" => canonicalize(alloc, words),
        "get" => get(alloc, words),
        "to_sec1_octet_string" => to_sec1_octet_string(alloc, words),
        "thumbprint_input" => thumbprint(alloc, words),
        _ => Err(CoseError::UnexpectedItem("name", "call of CoseKey")),
    }
}

/// Arguments: the order, the key, and `before=` with the key's encoding, which is left if an
/// allocation fails.
fn canonicalize(alloc: Global, words: &Words<'_>) -> Result<String> {
    let ordering = spelled::ordering(words.word(1))?;
    let mut key: CoseKey = spelled::read(alloc, words.word(2))?;
    mark::begin(alloc);
    let answer = key.canonicalize(alloc, ordering);
    mark::end(alloc);
    let stands = key.to_vec(alloc)?;
    tell::left(alloc, answer, &stands)
}

/// Gets the value of a label. Arguments: the label, the key, and a map whose pairs are appended to
/// the key's parameters. A key that was built may have such pairs.
fn get(alloc: Global, words: &Words<'_>) -> Result<String> {
    let label: Label = spelled::read(alloc, words.word(1))?;
    let mut key: CoseKey = spelled::read(alloc, words.word(2))?;
    and_pairs(alloc, &mut key.params, words.word(3))?;
    mark::begin(alloc);
    let answer = key.get(&label);
    mark::end(alloc);
    told(alloc, answer)
}

/// Arguments: the key.
fn to_sec1_octet_string(alloc: Global, words: &Words<'_>) -> Result<String> {
    let key: CoseKey = spelled::read(alloc, words.word(1))?;
    mark::begin(alloc);
    let answer = key.to_sec1_octet_string(alloc);
    mark::end(alloc);
    told_bytes(alloc, answer)
}

/// Arguments: the key.
fn thumbprint(alloc: Global, words: &Words<'_>) -> Result<String> {
    let key: CoseKey = spelled::read(alloc, words.word(1))?;
    mark::begin(alloc);
    let answer = thumbprint_input(alloc, &key);
    mark::end(alloc);
    told_bytes(alloc, answer)
}

/// Returns `ok` and the bytes, or the error's text.
///
/// # Errors
/// `OutOfMemory` if an allocation for the text fails.
pub fn told_bytes<E: fmt::Display + Drop>(
    alloc: Global,
    answer: std::result::Result<Vec<u8>, E>,
) -> Result<String> {
    match answer {
        Ok(bytes) => tell::bytes(alloc, Ok(bytes)),
        Err(error) => Ok(format!(in alloc; "{error}")?),
    }
}

/// Makes the call of that name of `MlDsaVariant`.
///
/// # Errors
/// A fault in the arguments, or an unknown name.
pub fn call_variant(alloc: Global, name: &str, words: &Words<'_>) -> Result<String> {
    match name {
        "into" => {
            let variant = variant(words.word(1))?;
            mark::begin(alloc);
            let algorithm = Algorithm::from(variant);
            mark::end(alloc);
            Ok(format!(in alloc; "{algorithm:?} {}", algorithm.to_i64())?)
        }
        "try_from" => {
            let algorithm: Algorithm = spelled::named(words.word(1))?;
            mark::begin(alloc);
            let answer = MlDsaVariant::try_from(algorithm);
            mark::end(alloc);
            match answer {
                Ok(variant) => Ok(format!(in alloc; "ok {variant:?}")?),
                Err(error) => tell::refused(alloc, error),
            }
        }
        _ => Err(CoseError::UnexpectedItem("name", "call of MlDsaVariant")),
    }
}

/// Returns the variant of that name.
///
/// # Errors
/// A fault if there is none.
pub fn variant(name: &str) -> Result<MlDsaVariant> {
    match name {
        "MlDsa44" => Ok(MlDsaVariant::MlDsa44),
        "MlDsa65" => Ok(MlDsaVariant::MlDsa65),
        "MlDsa87" => Ok(MlDsaVariant::MlDsa87),
        _ => Err(CoseError::UnexpectedItem("word", "variant of ML-DSA")),
    }
}
