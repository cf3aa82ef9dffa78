//! Reads an input: the bytes that it spells, or those that it writes in diagnostic notation.

ghost use Rattle.std.specs.Prelude.{◌≡◌, EachIndex, IfOk, IfSome, IsTrue};
ghost use Rattle.std.specs.Prelude.{false, slice_index, true};
ghost use Rattle.tool_notation.specs.Encoding.{IsSequence};
ghost use Rattle.tool_spelled.specs.Spelled.{Reads};
ghost use Rattle.tool_view.specs.Meaning.{MayBeNotation, Means, is_mark, is_shown};

use crate::misread::{advice, is_item, misspelled, read_as, spelled_as};
use std::alloc::{AllocError, Global};
use tool_notation::{Fault, bytes_of};
use tool_spelled::{
    Content, Reading as Spelled, Unread, Why, content_of_text, line_and_column, read_input,
};

/// The line for a text that may be bytes or notation.
const AMBIGUOUS: &str = "error: the text may be bytes or diagnostic notation: write the bytes \
    in plain hexadecimal, or begin the notation with a comment, as in / / [1]";

/// The line for an input that is said to be notation and is no text.
const NO_TEXT: &str = "error: the input isn't text in UTF-8, as diagnostic notation must be";

/// The bytes of an input, and a line that says how it was read.
#[derive(Drop)]
pub struct Reading {
    /// The bytes.
    pub bytes: Vec<u8>,
    /// How they were read, for standard error.
    pub said: String,
}

/// Returns true if a text may have the character: white space, or a byte that is no control
/// character.
fn is_shown(byte: u8) -> bool
    ensures { result ≡ is_shown byte }
{
    matches!(byte, b'\t' | b'\n' | 0x0c | b'\r') || (b' ' <= byte && byte != 0x7f)
}

/// Returns true if the character is a mark of notation that hexadecimal and base64 don't have.
fn is_mark(byte: u8) -> bool
    ensures { result ≡ is_mark byte }
{
    matches!(byte, b'"' | b'#' | b'(' | b'.' | b'<' | b'[' | b'{')
}

/// Returns true if the text has no control character other than white space.
fn is_all_shown(text: &[u8]) -> bool
    ensures { IsTrue result → EachIndex text.now
        (λ k. is_shown (slice_index text.now k) ≡ true) }
{
    text.iter().all(|byte| is_shown(*byte))
}

/// Returns true if the text has a mark of notation.
fn has_mark(text: &[u8]) -> bool
    ensures { IsTrue result
        → EachIndex text.now (λ k. is_mark (slice_index text.now k) ≡ false) → ⊥ }
{
    !text.iter().all(|byte| !is_mark(*byte))
}

/// Returns the text after a byte order mark, if it begins with one.
fn without_mark(text: &str) -> &str {
    text.strip_prefix('\u{feff}').unwrap_or(text)
}

/// Returns the input as a text if it may be notation, or `None`. A byte order mark is left out.
fn as_notation(input: &[u8]) -> Option<&str>
    ensures { IfSome result (λ text. MayBeNotation input.now) }
{
    let text = str::from_utf8(input).ok()?;
    if is_all_shown(input) && has_mark(input) {
        Some(without_mark(text))
    } else {
        None
    }
}

/// Returns true if the text begins as an array, a map or a text string of notation does.
fn begins_as_item(text: &str) -> bool {
    matches!(
        text.trim_start().as_bytes().first(),
        Some(b'[' | b'{' | b'"')
    )
}

/// Returns true if the bytes are one array, map or tagged item, as all of COSE is.
fn is_structure(alloc: Global, bytes: &[u8]) -> Result<bool, AllocError> {
    match bytes.first() {
        Some(0x80..=0xdf) => is_item(alloc, bytes),
        _ => Ok(false),
    }
}

/// Returns the line for a text that isn't notation from the place of the fault on.
fn faulty(alloc: Global, text: &str, fault: Fault) -> Result<String, AllocError> {
    let (line, column) = line_and_column(text.as_bytes(), fault.offset);
    let expected = fault.expected.text();
    format!(in alloc;
        "error: line {line}, column {column}: diagnostic notation needs {expected} here"
    )
}

/// Returns the bytes that a text writes in notation, or its fault.
fn read_notation(alloc: Global, text: &str) -> Result<Result<Reading, Fault>, AllocError>
    ensures { IfOk result (λ r. IfOk r (λ reading. IsSequence reading.bytes.items)) }
{
    match bytes_of(alloc, text)? {
        Ok(bytes) => {
            let said = read_as(alloc, "diagnostic notation", bytes.len())?;
            Ok(Ok(Reading { bytes, said }))
        }
        Err(fault) => Ok(Err(fault)),
    }
}

/// Reads an input that spells `bytes` as notation. Returns `None` if it can't be notation, or if
/// the bytes are one array, map or tagged item.
fn also_notation(alloc: Global, input: &[u8], bytes: &[u8]) -> Result<Option<Reading>, AllocError>
    ensures { IfOk result
        (λ r. IfSome r (λ reading. MayBeNotation input.now × IsSequence reading.bytes.items)) }
{
    match as_notation(input) {
        Some(text) if begins_as_item(text) && !is_structure(alloc, bytes)? => {
            Ok(read_notation(alloc, text)?.ok())
        }
        _ => Ok(None),
    }
}

/// Returns the bytes that the input spells. If it is notation too, returns the notation's bytes if
/// it spells none, and otherwise an error.
fn read_spelled(
    alloc: Global,
    input: &[u8],
    spelled: Spelled,
) -> Result<Result<Reading, String>, AllocError>
    ensures { Reads spelled.spelling input.now spelled.bytes.items
        → IfOk result (λ r. IfOk r (λ reading. Means false input.now reading.bytes.items)) }
{
    match also_notation(alloc, input, &spelled.bytes)? {
        Some(reading) if spelled.bytes.is_empty() => Ok(Ok(reading)),
        Some(_) => Ok(Err(String::from_str(alloc, AMBIGUOUS)?)),
        None => {
            let said = spelled_as(alloc, &spelled, input)?;
            Ok(Ok(Reading {
                bytes: spelled.bytes,
                said,
            }))
        }
    }
}

/// Returns the line for a text that isn't notation, and spells no bytes either. It has the fault
/// whose place is later. A fault other than a wrong digit always comes first.
fn reason(alloc: Global, text: &str, unread: &Unread, fault: Fault) -> Result<String, AllocError> {
    if unread.why == Why::Digit && unread.offset < fault.offset {
        faulty(alloc, text, fault)
    } else {
        misspelled(alloc, unread, text.as_bytes())
    }
}

/// Returns what was read as notation. If the text is JSON, the line says so.
fn told(mut reading: Reading, text: &str) -> Result<Reading, AllocError>
    ensures { IfOk result (λ told. told.bytes.items ≡ reading.bytes.items) }
{
    if content_of_text(text.as_bytes()) == Some(Content::Json) {
        reading.said.push_str("; ")?;
        reading.said.push_str(advice(Content::Json))?;
    }
    Ok(reading)
}

/// Reads an input that spells no bytes as notation, if it may be notation.
fn read_unspelled(
    alloc: Global,
    input: &[u8],
    unread: &Unread,
) -> Result<Result<Reading, String>, AllocError>
    ensures { IfOk result
        (λ r. IfOk r (λ reading. MayBeNotation input.now × IsSequence reading.bytes.items)) }
{
    let Some(text) = as_notation(input) else {
        return Ok(Err(misspelled(alloc, unread, input)?));
    };
    match read_notation(alloc, text)? {
        Ok(reading) => Ok(Ok(told(reading, text)?)),
        Err(fault) => Ok(Err(reason(alloc, text, unread, fault)?)),
    }
}

/// Returns the bytes of an input that is said to be notation.
fn read_said(alloc: Global, input: &[u8]) -> Result<Result<Reading, String>, AllocError>
    ensures { IfOk result (λ r. IfOk r (λ reading. Means true input.now reading.bytes.items)) }
{
    let Ok(text) = str::from_utf8(input) else {
        return Ok(Err(String::from_str(alloc, NO_TEXT)?));
    };
    let text = without_mark(text);
    match read_notation(alloc, text)? {
        Ok(reading) => Ok(Ok(reading)),
        Err(fault) => Ok(Err(faulty(alloc, text, fault)?)),
    }
}

/// Returns the bytes of the input, or the line of its error.
///
/// If `is_notation` is true, the input is read as diagnostic notation. Otherwise it is read as
/// notation if it spells no bytes. A text that may be both is read as bytes if they are one array,
/// map or tagged item, and is refused otherwise.
///
/// # Errors
/// `AllocError` if an allocation fails.
pub fn read_bytes(
    alloc: Global,
    is_notation: bool,
    input: &[u8],
) -> Result<Result<Reading, String>, AllocError>
    ensures { IfOk result
        (λ r. IfOk r (λ reading. Means is_notation input.now reading.bytes.items)) }
{
    if is_notation {
        return read_said(alloc, input);
    }
    match read_input(alloc, input)? {
        Ok(spelled) => read_spelled(alloc, input, spelled),
        Err(unread) => read_unspelled(alloc, input, &unread),
    }
}
