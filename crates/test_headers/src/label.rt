//! Labels that are read from words, and labels that are made from numbers and written.

use crate::own::Own;
use coset::iana::{self, EnumI64, WithPrivateRange};
use coset::{
    Algorithm, CborSerializable, CoseError, KeyType, Label, RegisteredLabel,
    RegisteredLabelWithPrivate, Result,
};
use std::alloc::Global;
use std::fmt::{Debug, Display};
use test_lines::words::{self, Words};
use test_lines::{mark, spelled, tell};

/// Reads a label, and returns its `Debug` text, or its `Display` text for the call `display`.
///
/// # Errors
/// A fault in the arguments, or an unknown kind of labels.
pub fn show(alloc: Global, kind: &str, call: &str, words: &Words<'_>) -> Result<String> {
    match kind {
        "Label" => shown::<Label>(alloc, call, words),
        "KeyType" => shown::<KeyType>(alloc, call, words),
        "Algorithm" => shown::<Algorithm>(alloc, call, words),
        "Own" => shown::<RegisteredLabelWithPrivate<Own>>(alloc, call, words),
        "RegisteredLabel<HeaderParameter>" => {
            shown::<RegisteredLabel<iana::HeaderParameter>>(alloc, call, words)
        }
        _ => Err(CoseError::UnexpectedItem("name", "kind of labels")),
    }
}

fn shown<T: CborSerializable + Debug + Display + Drop>(
    alloc: Global,
    call: &str,
    words: &Words<'_>,
) -> Result<String> {
    let bytes = words.bytes(alloc, 1)?;
    mark::begin(alloc);
    let answer = T::from_slice(alloc, &bytes);
    mark::end(alloc);
    let label = match answer {
        Ok(label) => label,
        Err(error) => return tell::refused(alloc, error),
    };
    match call {
        "display" => Ok(format!(in alloc; "ok {label}")?),
        _ => Ok(format!(in alloc; "ok {label:?}")?),
    }
}

/// Returns the encoding of the label for private use with this number, which may have a name.
///
/// # Errors
/// A fault in the arguments, or an unknown kind of labels.
pub fn of_private_use(alloc: Global, kind: &str, words: &Words<'_>) -> Result<String> {
    match kind {
        "Algorithm" => written::<iana::Algorithm>(alloc, words::number(words.word(1))?),
        "Own" => written::<Own>(alloc, words::number(words.word(1))?),
        _ => Err(CoseError::UnexpectedItem("name", "kind of labels")),
    }
}

fn written<T: EnumI64 + WithPrivateRange + Drop>(alloc: Global, number: i64) -> Result<String> {
    let label: RegisteredLabelWithPrivate<T> = RegisteredLabelWithPrivate::PrivateUse(number);
    mark::begin(alloc);
    let answer = label.to_vec(alloc);
    mark::end(alloc);
    tell::bytes(alloc, answer)
}

/// Returns the label for the name that the number has in the registry.
///
/// # Errors
/// A fault in the arguments, or an unknown kind of labels.
pub fn from(alloc: Global, kind: &str, words: &Words<'_>) -> Result<String> {
    match kind {
        "KeyType" => {
            let name: iana::KeyType = spelled::named(words.word(1))?;
            mark::begin(alloc);
            let label: KeyType = RegisteredLabel::from(name);
            mark::end(alloc);
            Ok(format!(in alloc; "{label:?}")?)
        }
        "Algorithm" => {
            let name: iana::Algorithm = spelled::named(words.word(1))?;
            mark::begin(alloc);
            let label: Algorithm = RegisteredLabelWithPrivate::from(name);
            mark::end(alloc);
            Ok(format!(in alloc; "{label:?}")?)
        }
        _ => Err(CoseError::UnexpectedItem("name", "kind of labels")),
    }
}

/// Returns the default label.
///
/// # Errors
/// A fault if the kind of labels isn't known.
pub fn default(alloc: Global, kind: &str) -> Result<String> {
    match kind {
        "KeyType" => {
            mark::begin(alloc);
            let label = KeyType::default();
            mark::end(alloc);
            Ok(format!(in alloc; "{label:?}")?)
        }
        "Algorithm" => {
            mark::begin(alloc);
            let label = Algorithm::default();
            mark::end(alloc);
            Ok(format!(in alloc; "{label:?}")?)
        }
        _ => Err(CoseError::UnexpectedItem("name", "kind of labels")),
    }
}
