//! Lines whose bytes are the input.

ghost use Rattle.std.specs.Prelude.{◌≡◌, ◌≤◌, ◌+◌, IfOk, OnOk, length};
ghost use Rattle.tool_explain.specs.Column.{EndsAt, column, place, shown, whole};

use crate::cover::Cover;
use std::alloc::{AllocError, Global};
use std::mem;

/// A line: some bytes of the input and their meaning.
#[derive(Drop)]
pub struct Line<'a> {
    /// The bytes, a part of the input. They are empty if the line ends an array, a map, a tag or an
    /// opened byte string without a break.
    pub bytes: &'a [u8],
    /// The number of arrays, maps, tags, strings in chunks and opened byte strings around the line.
    pub depth: usize,
    /// The bytes in diagnostic notation (RFC 8949, section 8; RFC 8610, appendix G).
    pub text: String,
    /// Remarks on the bytes; it may be empty.
    pub note: String,
    /// How a signature, a MAC or a ciphertext covers the bytes, or that they were refused.
    pub cover: Cover,
}

/// The lines so far, the unfinished next line, and the bytes that no line has yet.
#[derive(Drop)]
pub(crate) struct Column<'a> {
    lines: Vec<Line<'a>>,
    rest: &'a [u8],
    /// The number of bytes at the front of `rest` that belong to the next line.
    held: usize,
    /// The text of the next line.
    pub(crate) text: String,
    /// The note of the next line.
    pub(crate) note: String,
    /// The cover of the next line.
    pub(crate) cover: Cover,
    /// Whether the bytes of the next line were refused.
    pub(crate) is_refused: bool,
}

impl<'a> Column<'a> {
    /// Begins a column without lines.
    pub(crate) fn new(alloc: Global, bytes: &'a [u8]) -> Column<'a>
        ensures whole { whole result ≡ bytes.now }
        ensures lines { shown result ≡ 0 }
    {
        Column {
            lines: Vec::new(alloc),
            rest: bytes,
            held: 0,
            text: String::new(alloc),
            note: String::new(alloc),
            cover: Cover::Plain,
            is_refused: false,
        }
    }

    /// Returns the cover of the next line, or `Refused` if its bytes were refused.
    fn shown_cover(&self) -> Cover {
        if self.is_refused {
            Cover::Refused
        } else {
            self.cover
        }
    }

    /// Returns the bytes that belong neither to a line nor to the next one.
    pub(crate) fn ahead(&self) -> &'a [u8] {
        let all = self.rest;
        let (_, ahead) = all.split_at(self.held.min(all.len()));
        ahead
    }

    /// Returns true if the next line has bytes or text.
    pub(crate) fn has_begun(&self) -> bool {
        0 < self.held || !self.text.is_empty()
    }

    /// Adds `count` bytes to the next line.
    pub(crate) fn hold(&mut self, count: usize)
        ensures whole { whole self.new ≡ whole self.old }
        ensures lines { shown self.new ≡ shown self.old }
    {
        self.held = self.held.saturating_add(count);
    }

    /// Ends the next line, and begins another.
    ///
    /// # Errors
    /// `AllocError` if an allocation fails.
    pub(crate) fn end_line(&mut self, alloc: Global, depth: usize) -> Result<(), AllocError>
        ensures whole { OnOk result (whole self.new ≡ whole self.old) }
        ensures lines { OnOk result (shown self.new ≡ shown self.old + 1) }
    {
        let all = self.rest;
        let (bytes, rest) = all.split_at(self.held.min(all.len()));
        let text = mem::replace(&mut self.text, String::new(alloc));
        let note = mem::replace(&mut self.note, String::new(alloc));
        let cover = self.shown_cover();
        self.lines.push(Line {
            bytes,
            depth,
            text,
            note,
            cover,
        })?;
        self.rest = rest;
        self.held = 0;
        self.is_refused = false;
        Ok(())
    }

    /// Returns the number of bytes that no line has yet.
    pub(crate) fn left(&self) -> usize
        ensures { place self.now + result ≡ length (whole self.now) }
    {
        self.rest.len()
    }

    /// Returns the lines, and one more with all remaining bytes.
    ///
    /// # Errors
    /// `AllocError` if an allocation fails.
    pub(crate) fn end_with_rest(self) -> Result<Vec<Line<'a>>, AllocError>
        ensures column { IfOk result (λ lines. column lines.items ≡ whole self.entry) }
        ensures lines { IfOk result (λ lines. length lines.items ≤ shown self.entry + 1) }
        ensures ends { IfOk result (λ lines. EndsAt (place self.entry) lines.items) }
    {
        let cover = self.shown_cover();
        let Column {
            mut lines,
            rest,
            held: _,
            text,
            note,
            cover: _,
            is_refused: _,
        } = self;
        lines.push(Line {
            bytes: rest,
            depth: 0,
            text,
            note,
            cover,
        })?;
        Ok(lines)
    }

    /// Returns the lines, and one more if bytes remain.
    ///
    /// # Errors
    /// `AllocError` if an allocation fails.
    pub(crate) fn finish(self) -> Result<Vec<Line<'a>>, AllocError>
        ensures column { IfOk result (λ lines. column lines.items ≡ whole self.entry) }
        ensures lines { IfOk result (λ lines. length lines.items ≤ shown self.entry + 1) }
    {
        if self.rest.is_empty() {
            return Ok(self.lines);
        }
        self.end_with_rest()
    }
}
