//! Decoded messages, beside those that are seen, and their structures.

use crate::seen::{kind, unseen};
use coset::iana::EnumI64;
use coset::{
    Algorithm, CborSerializable, CoseEncrypt0, CoseMac0, CoseSign1, Header, ProtectedHeader,
    RegisteredLabelWithPrivate, Result, TaggedCborSerializable,
};
use coset_seen::{KeyId, Kind, Part, Seen, see};
use std::alloc::Global;
use test_lines::mark;
use test_lines::tell::{bytes, perhaps};
use test_lines::words::Words;

/// The fields of a decoded message.
#[derive(Clone, Copy)]
struct Fields<'a> {
    protected: &'a ProtectedHeader,
    unprotected: &'a Header,
    content: &'a Option<Vec<u8>>,
    proof: &'a [u8],
}

/// Returns true if the part of the input has these bytes.
fn is_part(input: &[u8], part: Part<'_>, bytes: &[u8]) -> bool {
    let end = part.at.saturating_add(part.bytes.len());
    part.bytes == bytes && input.get(part.at..end) == Some(bytes)
}

/// Returns true if the header has the algorithm of that number, or none.
fn is_algorithm(found: Option<i64>, alg: &Option<Algorithm>) -> bool {
    match alg {
        None => found.is_none(),
        Some(RegisteredLabelWithPrivate::Assigned(alg)) => found == Some(alg.to_i64()),
        Some(RegisteredLabelWithPrivate::PrivateUse(number)) => found == Some(*number),
        Some(RegisteredLabelWithPrivate::Text(_)) => false,
    }
}

/// Returns true if the key identifier is that of the first header that has one.
fn is_key_id(input: &[u8], found: Option<KeyId<'_>>, fields: Fields<'_>) -> bool {
    let first: &[u8] = &fields.protected.header.key_id;
    let second: &[u8] = &fields.unprotected.key_id;
    let (is_protected, bytes) = if first.is_empty() {
        (false, second)
    } else {
        (true, first)
    };
    match found {
        Some(found) => found.is_protected == is_protected && is_part(input, found.part, bytes),
        None => bytes.is_empty(),
    }
}

/// Returns true if the content is the same, or both messages carry none.
fn is_content(input: &[u8], found: Option<Part<'_>>, content: &Option<Vec<u8>>) -> bool {
    match (found, content) {
        (Some(found), Some(content)) => is_part(input, found, content),
        (None, None) => true,
        _ => false,
    }
}

/// Returns `agrees` if the fields of the message that is seen are those of the decoded one.
fn told(input: &[u8], seen: Seen<'_>, fields: Fields<'_>) -> &'static str {
    let kept: &[u8] = match &fields.protected.original_data {
        Some(kept) => kept,
        None => return "differs: kept bytes",
    };
    if !is_part(input, seen.protected, kept) {
        return "differs: protected";
    }
    if !is_algorithm(seen.algorithm, &fields.protected.header.alg) {
        return "differs: alg";
    }
    if !is_key_id(input, seen.key_id, fields) {
        return "differs: kid";
    }
    if !is_content(input, seen.content, fields.content) {
        return "differs: content";
    }
    if !is_part(input, seen.proof, fields.proof) {
        return "differs: proof";
    }
    "agrees"
}

/// Decodes a message with or without its tag.
fn decoded<T: CborSerializable + TaggedCborSerializable + Drop>(
    alloc: Global,
    input: &[u8],
    is_tagged: bool,
) -> Result<T> {
    if is_tagged {
        T::from_tagged_slice(alloc, input)
    } else {
        T::from_slice(alloc, input)
    }
}

/// Compares the message that is seen with the decoded one.
fn compared(alloc: Global, input: &[u8], seen: Seen<'_>) -> Result<&'static str> {
    match seen.kind {
        Kind::Sign1 => {
            let message: CoseSign1 = decoded(alloc, input, seen.is_tagged)?;
            let fields = Fields {
                protected: &message.protected,
                unprotected: &message.unprotected,
                content: &message.payload,
                proof: &message.signature,
            };
            Ok(told(input, seen, fields))
        }
        Kind::Mac0 => {
            let message: CoseMac0 = decoded(alloc, input, seen.is_tagged)?;
            let fields = Fields {
                protected: &message.protected,
                unprotected: &message.unprotected,
                content: &message.payload,
                proof: &message.tag,
            };
            Ok(told(input, seen, fields))
        }
        Kind::Encrypt0 => {
            let message: CoseEncrypt0 = decoded(alloc, input, seen.is_tagged)?;
            let fields = Fields {
                protected: &message.protected,
                unprotected: &message.unprotected,
                content: &message.ciphertext,
                proof: &[],
            };
            Ok(told(input, seen, fields))
        }
        Kind::Mac | Kind::Encrypt => Err(unseen()),
    }
}

/// Returns `agrees` if the message that is seen has the fields of the decoded one. Returns `none`
/// if none is seen.
///
/// # Errors
/// - A fault in the words, or a message that is seen and can't be decoded.
/// - `OutOfMemory` if an allocation fails.
pub fn agreement(alloc: Global, words: &Words<'_>) -> Result<String> {
    let input = words.bytes(alloc, 2)?;
    let kind = kind(words.word(1))?;
    mark::begin(alloc);
    let answer = see(kind, &input);
    mark::end(alloc);
    let text = match answer {
        Some(seen) => compared(alloc, &input, seen)?,
        None => "none",
    };
    Ok(String::from_str(alloc, text)?)
}

/// Returns the structure that the decoded message makes.
///
/// # Errors
/// - A fault in the words or in the message.
/// - `OutOfMemory` if an allocation fails.
pub fn structure(alloc: Global, words: &Words<'_>) -> Result<String> {
    let input = words.bytes(alloc, 2)?;
    let aad = words.bytes(alloc, 3)?;
    match kind(words.word(1))? {
        Kind::Sign1 => {
            let message: CoseSign1 = CoseSign1::from_any_slice(alloc, &input)?;
            mark::begin(alloc);
            let answer = message.tbs_data(alloc, &aad);
            mark::end(alloc);
            bytes(alloc, answer)
        }
        Kind::Mac0 => {
            let message: CoseMac0 = CoseMac0::from_any_slice(alloc, &input)?;
            mark::begin(alloc);
            let answer = message.tbm(alloc, &aad);
            mark::end(alloc);
            perhaps(alloc, answer)
        }
        Kind::Encrypt0 => {
            let message: CoseEncrypt0 = CoseEncrypt0::from_any_slice(alloc, &input)?;
            mark::begin(alloc);
            let answer = message.aad(alloc, &aad);
            mark::end(alloc);
            bytes(alloc, answer)
        }
        Kind::Mac | Kind::Encrypt => Err(unseen()),
    }
}
