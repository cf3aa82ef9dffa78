//! Messages and headers that are seen, as text.

use coset::{CoseError, Result};
use coset_seen::{KeyId, Kind, Part, Seen, is_plain_header, layout_of, see};
use std::alloc::Global;
use test_lines::mark;
use test_lines::tell::hexadecimal;
use test_lines::words::Words;

/// Returns the kind of that name.
///
/// # Errors
/// `UnexpectedItem` if no kind has the name.
pub fn kind(name: &str) -> Result<Kind> {
    match name {
        "sign1" => Ok(Kind::Sign1),
        "mac0" => Ok(Kind::Mac0),
        "encrypt0" => Ok(Kind::Encrypt0),
        "mac" => Ok(Kind::Mac),
        "encrypt" => Ok(Kind::Encrypt),
        _ => Err(CoseError::UnexpectedItem("word", "kind")),
    }
}

/// Returns the error for a message that isn't seen.
pub fn unseen() -> CoseError {
    CoseError::UnexpectedItem("message", "plain message")
}

/// Returns the name of the kind.
fn name(kind: Kind) -> &'static str {
    match kind {
        Kind::Sign1 => "sign1",
        Kind::Mac0 => "mac0",
        Kind::Encrypt0 => "encrypt0",
        Kind::Mac => "mac",
        Kind::Encrypt => "encrypt",
    }
}

/// Returns the offset and the bytes of the part.
fn part(alloc: Global, part: Part<'_>) -> Result<String> {
    let at = part.at;
    let bytes = hexadecimal(alloc, part.bytes)?;
    Ok(format!(in alloc; "{at}:{bytes}")?)
}

/// Returns the number of the algorithm.
fn algorithm(alloc: Global, number: Option<i64>) -> Result<String> {
    match number {
        Some(number) => Ok(format!(in alloc; "{number}")?),
        None => Ok(String::from_str(alloc, "none")?),
    }
}

/// Returns the header of the key identifier, and its part.
fn key_id(alloc: Global, found: Option<KeyId<'_>>) -> Result<String> {
    let Some(found) = found else {
        return Ok(String::from_str(alloc, "none")?);
    };
    let header = if found.is_protected {
        "protected"
    } else {
        "unprotected"
    };
    let part = part(alloc, found.part)?;
    Ok(format!(in alloc; "{header} {part}")?)
}

/// Returns the part of the content.
fn content(alloc: Global, found: Option<Part<'_>>) -> Result<String> {
    match found {
        Some(found) => part(alloc, found),
        None => Ok(String::from_str(alloc, "none")?),
    }
}

/// Returns all fields of the message.
fn told(alloc: Global, seen: Seen<'_>) -> Result<String> {
    let kind = name(seen.kind);
    let form = if seen.is_tagged { "tagged" } else { "untagged" };
    let protected = part(alloc, seen.protected)?;
    let algorithm = algorithm(alloc, seen.algorithm)?;
    let key_id = key_id(alloc, seen.key_id)?;
    let content = content(alloc, seen.content)?;
    let proof = part(alloc, seen.proof)?;
    let front = format!(in alloc; "{form} {kind} protected {protected} alg {algorithm}")?;
    Ok(format!(in alloc; "{front} kid {key_id} content {content} proof {proof}")?)
}

/// Returns the fields of the message that is seen.
///
/// # Errors
/// - A fault in the words.
/// - `OutOfMemory` if an allocation for the text fails.
pub fn fields(alloc: Global, words: &Words<'_>) -> Result<String> {
    let kind = kind(words.word(1))?;
    let bytes = words.bytes(alloc, 2)?;
    mark::begin(alloc);
    let answer = see(kind, &bytes);
    mark::end(alloc);
    match answer {
        Some(seen) => told(alloc, seen),
        None => Ok(String::from_str(alloc, "none")?),
    }
}

/// Returns the fields of the message that is laid out, and what its headers are.
///
/// # Errors
/// The errors of [`fields`].
pub fn layout(alloc: Global, words: &Words<'_>) -> Result<String> {
    let kind = kind(words.word(1))?;
    let bytes = words.bytes(alloc, 2)?;
    mark::begin(alloc);
    let answer = layout_of(kind, &bytes);
    mark::end(alloc);
    let Some(layout) = answer else {
        return Ok(String::from_str(alloc, "none")?);
    };
    let told = told(alloc, layout.seen)?;
    let (text, critical) = (layout.has_text, layout.is_critical);
    let valid = layout.is_valid(alloc)?;
    Ok(format!(in alloc; "{told} text {text} crit {critical} valid {valid}")?)
}

/// Returns whether the header is plain.
///
/// # Errors
/// The errors of [`fields`].
pub fn header(alloc: Global, words: &Words<'_>) -> Result<String> {
    let bytes = words.bytes(alloc, 1)?;
    mark::begin(alloc);
    let is_plain = is_plain_header(&bytes);
    mark::end(alloc);
    let text = if is_plain { "plain" } else { "none" };
    Ok(String::from_str(alloc, text)?)
}
