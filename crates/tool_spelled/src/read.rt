//! The bytes that an input spells.

ghost use Rattle.std.specs.Prelude.{IfErr, IfOk};
ghost use Rattle.tool_spelled.specs.Spelled.{IsWithin, Reads, Spells, SpellsIn};
ghost use Rattle.tool_spelled.specs.Framed.{IsPart};

use crate::framed::{Spelling, Text, Way, text_of};
use crate::layout::is_certain;
use crate::pieces::{self, Format};
use crate::place::line_and_column;
use crate::{base45, base64, comments, dump, literal, utf16};
use std::alloc::{AllocError, Global};

/// Why a text isn't read.
#[derive(Clone, Copy, Debug, PartialEq, Eq)]
pub enum Why {
    /// The spelling doesn't allow the character, or something is missing at the text's end.
    Digit,
    /// A block comment has no end.
    Comment,
    /// A literal of bytes has no escape, so that it may consist of digits.
    NoEscape,
    /// The offset of a line isn't the first offset plus the number of bytes before the line.
    Offset,
    /// The text beside a line's bytes doesn't show them.
    Side,
    /// A dump's fields aren't single bytes in hexadecimal.
    Words,
    /// A dump leaves out lines that repeat the one before.
    Repeated,
    /// The first digits may be an offset or bytes.
    OffsetOrByte,
}

/// The offset of a fault in a text, and the reason. If something is missing at the end, the offset
/// is the text's length.
#[derive(Clone, Copy, Debug, PartialEq, Eq)]
pub(crate) struct Misspelled(pub(crate) usize, pub(crate) Why);

/// The bytes that an input spells.
#[derive(Drop)]
pub struct Reading {
    /// How the input spells the bytes.
    pub spelling: Spelling,
    /// The bytes.
    pub bytes: Vec<u8>,
}

/// Where an input is misspelled.
#[derive(Clone, Copy, Debug, PartialEq, Eq)]
pub struct Unread {
    /// The spelling as which the input was read.
    pub spelling: Spelling,
    /// Why the input isn't read.
    pub why: Why,
    /// The offset of the fault in the text.
    pub offset: usize,
    /// The line, counted from 1.
    pub line: usize,
    /// The column, counted from 1.
    pub column: usize,
    /// The character there, or `None` at the end of the input.
    pub character: Option<char>,
}

impl Text<'_> {
    /// Returns the bytes that the text spells, or where it is misspelled.
    ///
    /// # Errors
    /// `AllocError` if an allocation fails.
    pub(crate) fn bytes(&self, alloc: Global) -> Result<Result<Vec<u8>, Misspelled>, AllocError>
        ensures spelled { IfOk result (λ r. IfOk r (λ bytes.
            Spells self.now.spelling self.now.text.now bytes.items)) }
        ensures within { IfOk result (λ r. IfErr r (IsWithin self.now.text.now)) }
    {
        match self.spelling {
            Spelling::Binary => Ok(Ok(Vec::from_slice(alloc, self.text)?)),
            Spelling::Hexadecimal => pieces::bytes(alloc, Format::Hexadecimal, self.text),
            Spelling::Base64 => base64::bytes(alloc, self.text),
            Spelling::Commented => comments::bytes(alloc, Format::Hexadecimal, self.text),
            Spelling::Array => comments::elements(alloc, self.text),
            Spelling::Literal => literal::bytes(alloc, self.text),
            Spelling::Dump => dump::bytes(alloc, self.text),
            Spelling::Percent => pieces::bytes(alloc, Format::Percent, self.text),
            Spelling::Base45 => base45::bytes(alloc, self.text),
        }
    }

    /// Returns true if the text can be nothing else than a dump.
    fn is_certain(&self) -> bool {
        self.spelling == Spelling::Dump && is_certain(self.text)
    }

    /// Returns where the input that has this text is misspelled.
    fn unread(&self, input: &[u8], misspelled: Misspelled) -> Unread {
        let offset = self.offset.saturating_add(misspelled.0);
        let (line, column) = line_and_column(input, offset);
        Unread {
            spelling: self.spelling,
            why: misspelled.1,
            offset,
            line,
            column,
            character: character_at(input, offset),
        }
    }
}

/// Returns the character at the offset of a text.
fn character_at(input: &[u8], offset: usize) -> Option<char> {
    let (_, rest) = input.split_at(offset.min(input.len()));
    str::from_utf8(rest).ok()?.chars().next()
}

/// Returns the bytes that this text of the input spells, or where it is misspelled.
fn read_part(
    alloc: Global,
    input: &[u8],
    text: &Text<'_>,
) -> Result<Result<Reading, Unread>, AllocError>
    requires { IsPart input.now text.now.offset text.now.text.now }
    ensures { IfOk result (λ r. IfOk r (λ read.
        SpellsIn read.spelling input.now read.bytes.items)) }
{
    match text.bytes(alloc)? {
        Ok(bytes) => Ok(Ok(Reading {
            spelling: text.spelling,
            bytes,
        })),
        Err(misspelled) => Ok(Err(text.unread(input, misspelled))),
    }
}

/// Returns the bytes that a text spells, or where it is misspelled.
fn read_text(alloc: Global, input: &[u8]) -> Result<Result<Reading, Unread>, AllocError>
    ensures { IfOk result (λ r. IfOk r (λ read.
        SpellsIn read.spelling input.now read.bytes.items)) }
{
    let dump = text_of(Way::Dump, input);
    let as_dump = read_part(alloc, input, &dump)?;
    if as_dump.is_ok() || dump.is_certain() {
        return Ok(as_dump);
    }
    let as_usual = read_part(alloc, input, &text_of(Way::Usual, input))?;
    if as_usual.is_ok() {
        return Ok(as_usual);
    }
    read_part(alloc, input, &text_of(Way::Other, input))
}

/// Returns the bytes that the input spells, or where it is misspelled.
///
/// A dump is read as such. Otherwise raw bytes, hexadecimal and base64 precede other spellings.
/// Text in UTF-16 with a byte order mark is read as its characters if all are ASCII.
///
/// # Errors
/// `AllocError` if an allocation fails.
pub fn read_input(alloc: Global, input: &[u8]) -> Result<Result<Reading, Unread>, AllocError>
    ensures { IfOk result (λ r. IfOk r (λ read.
        Reads read.spelling input.now read.bytes.items)) }
{
    match utf16::text(alloc, input)? {
        Some(text) => read_text(alloc, &text),
        None => read_text(alloc, input),
    }
}
