//! Structures and texts, in memory of a given size or as vectors.

use crate::seen::{kind, unseen};
use coset::iana::{Algorithm, EnumI64};
use coset::{CoseError, Result};
use coset_seen::{StructureError, put_texts, see};
use example_seen::covered::covered;
use std::alloc::Global;
use test_lines::mark;
use test_lines::tell::hexadecimal;
use test_lines::words::{Words, bytes, index};

/// The bytes of the memory before a call.
const BEFORE: u8 = 0xee;

/// The most bytes of memory.
const MOST: usize = 0x1_0000;

/// Returns memory of the size that the word spells.
fn memory(alloc: Global, word: &str) -> Result<Vec<u8>> {
    let size = index(word)?;
    if size > MOST {
        return Err(CoseError::UnexpectedItem("word", "size"));
    }
    Ok(vec![in alloc; BEFORE; size]?)
}

/// Returns the text of the error.
fn refused(alloc: Global, error: StructureError) -> Result<String> {
    match error {
        StructureError::Short(len) => Ok(format!(in alloc; "short {len}")?),
        StructureError::OutOfMemory => Ok(String::from_str(alloc, "out of memory")?),
        StructureError::NoContent => Ok(String::from_str(alloc, "no content")?),
        StructureError::TwoContents => Ok(String::from_str(alloc, "two contents")?),
    }
}

/// Returns the length or the error, and the memory after the call.
fn written(
    alloc: Global,
    answer: std::result::Result<usize, StructureError>,
    out: &[u8],
) -> Result<String> {
    let memory = hexadecimal(alloc, out)?;
    let text = match answer {
        Ok(len) => format!(in alloc; "ok {len}")?,
        Err(error) => refused(alloc, error)?,
    };
    Ok(format!(in alloc; "{text} {memory}")?)
}

/// Returns the content that the word spells, or `None` for `none`.
fn detached(alloc: Global, word: &str) -> Result<Option<Vec<u8>>> {
    match word {
        "none" => Ok(None),
        word => Ok(Some(bytes(alloc, word)?)),
    }
}

/// Returns the content as a slice.
fn as_slice(content: &Option<Vec<u8>>) -> Option<&[u8]> {
    match content {
        Some(content) => Some(content),
        None => None,
    }
}

/// Writes the structure of a message to memory.
///
/// # Errors
/// - A fault in the words, or a message that isn't seen.
/// - `OutOfMemory` if an allocation for the text fails.
pub fn put(alloc: Global, words: &Words<'_>) -> Result<String> {
    let input = words.bytes(alloc, 2)?;
    let aad = words.bytes(alloc, 3)?;
    let content = detached(alloc, words.word(4))?;
    let mut out = memory(alloc, words.word(5))?;
    let Some(seen) = see(kind(words.word(1))?, &input) else {
        return Err(unseen());
    };
    mark::begin(alloc);
    let answer = seen.put_structure(&aad, as_slice(&content), &mut out);
    mark::end(alloc);
    written(alloc, answer, &out)
}

/// Makes the structure of a message.
///
/// # Errors
/// The errors of [`put`].
pub fn make(alloc: Global, words: &Words<'_>) -> Result<String> {
    let input = words.bytes(alloc, 2)?;
    let aad = words.bytes(alloc, 3)?;
    let content = detached(alloc, words.word(4))?;
    let Some(seen) = see(kind(words.word(1))?, &input) else {
        return Err(unseen());
    };
    mark::begin(alloc);
    let answer = seen.structure(alloc, &aad, as_slice(&content));
    mark::end(alloc);
    match answer {
        Ok(made) => {
            let spelled = hexadecimal(alloc, &made)?;
            Ok(format!(in alloc; "ok {spelled}")?)
        }
        Err(error) => refused(alloc, error),
    }
}

/// Writes three texts to memory.
///
/// # Errors
/// The errors of [`put`].
pub fn texts(alloc: Global, words: &Words<'_>) -> Result<String> {
    let mut out = memory(alloc, words.word(1))?;
    let first = words.bytes(alloc, 2)?;
    let second = words.bytes(alloc, 3)?;
    let third = words.bytes(alloc, 4)?;
    let texts: [&[u8]; 3] = [&first, &second, &third];
    mark::begin(alloc);
    let answer = put_texts(&texts, &mut out);
    mark::end(alloc);
    written(alloc, answer, &out)
}

/// Writes the bytes that a signature covers to memory, by the example of docs/CALLING.md.
///
/// # Errors
/// - A fault in the words, or an algorithm that isn't registered.
/// - `OutOfMemory` if an allocation for the text fails.
pub fn covered_bytes(alloc: Global, words: &Words<'_>) -> Result<String> {
    let input = words.bytes(alloc, 1)?;
    let Some(algorithm) = Algorithm::from_i64(words.number(2)?) else {
        return Err(CoseError::UnexpectedItem("word", "algorithm"));
    };
    let mut out = memory(alloc, words.word(3))?;
    mark::begin(alloc);
    let answer = covered(&input, algorithm, &mut out);
    mark::end(alloc);
    let memory = hexadecimal(alloc, &out)?;
    match answer {
        Some((len, signature)) => {
            let signature = hexadecimal(alloc, signature)?;
            Ok(format!(in alloc; "ok {len} {memory} {signature}")?)
        }
        None => Ok(format!(in alloc; "none {memory}")?),
    }
}
