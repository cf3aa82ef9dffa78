//! The strings in diagnostic notation, which are in quotes, and the ways to show them.

use std::alloc::{AllocError, Global};

/// The most characters of a string that is shown short, or digits of a byte string.
const SHOWN: usize = 64;

/// The part of diagnostic notation that a character belongs to.
#[derive(Clone, Copy, Debug, PartialEq, Eq)]
pub enum Quoted {
    /// The character is in no string.
    Outside,
    /// The quote before a string.
    Opens,
    /// A character of a string, or the backslash of its escape.
    Character,
    /// The rest of an escape.
    Escape,
    /// The quote after a string.
    Closes,
}

/// A position in diagnostic notation.
#[derive(Clone, Copy, Debug)]
pub struct Quotes {
    /// The quote around the position, if it is in a string.
    quote: Option<char>,
    /// The number of characters of an escape that follow.
    left: u8,
    /// Whether the next of them is the first after the backslash.
    is_first: bool,
}

impl Quotes {
    /// Returns the position before the first character.
    pub fn new() -> Quotes {
        Quotes {
            quote: None,
            left: 0,
            is_first: false,
        }
    }

    /// Passes a character, and returns its part.
    pub fn pass(&mut self, c: char) -> Quoted {
        let Some(quote) = self.quote else {
            if c == '"' || c == '\'' {
                self.quote = Some(c);
                return Quoted::Opens;
            }
            return Quoted::Outside;
        };
        if 0 < self.left {
            self.left = if self.is_first && c == 'u' {
                4
            } else {
                self.left.saturating_sub(1)
            };
            self.is_first = false;
            return Quoted::Escape;
        }
        if c == quote {
            self.quote = None;
            return Quoted::Closes;
        }
        if c == '\\' {
            self.left = 1;
            self.is_first = true;
        }
        Quoted::Character
    }

    /// Returns true if the position is in a text string.
    pub fn is_in_text(&self) -> bool {
        self.quote == Some('"')
    }
}

/// Returns true if the character may be written from right to left: it is in a range that Unicode
/// reserves for such letters (Bidi_Class R and AL).
fn is_right_to_left(c: char) -> bool {
    matches!(
        c,
        '\u{590}'..='\u{8ff}'
            | '\u{fb1d}'..='\u{fdff}'
            | '\u{fe70}'..='\u{feff}'
            | '\u{10800}'..='\u{10fff}'
            | '\u{1e800}'..='\u{1efff}'
    )
}

/// Adds the text for a terminal. If it has a letter that is written from right to left, each text
/// string is isolated (U+2068, U+2069), so that it can't change places with its neighbours. A
/// string can't end its isolation, because these characters are escaped in it.
///
/// # Errors
/// `AllocError` if an allocation fails.
pub(crate) fn push_isolated(text: &mut String, added: &str) -> Result<(), AllocError> {
    if !added.chars().any(is_right_to_left) {
        return text.push_str(added);
    }
    let mut quotes = Quotes::new();
    for c in added.chars() {
        let part = quotes.pass(c);
        if part == Quoted::Opens && c == '"' {
            text.push('\u{2068}')?;
        }
        text.push(c)?;
        if part == Quoted::Closes && c == '"' {
            text.push('\u{2069}')?;
        }
    }
    if quotes.is_in_text() {
        text.push('\u{2069}')?;
    }
    Ok(())
}

/// Adds the end of a string of which `length` characters are between the quotes: that it was cut if
/// it was, the quote, and its length as a comment.
fn push_end(text: &mut String, quote: char, length: usize, is_hex: bool) -> Result<(), AllocError> {
    if length <= SHOWN {
        return text.push(quote);
    }
    text.push('\u{2026}')?;
    text.push(quote)?;
    match (quote, is_hex) {
        ('"', _) => write!(text, " / {length} characters /"),
        (_, false) => write!(text, " / {length} bytes /"),
        (_, true) => {
            let count = length / 2;
            write!(text, " / {count} bytes /")
        }
    }
}

/// Returns diagnostic notation with long strings cut. The length of such a string follows it as a
/// comment.
///
/// # Errors
/// `AllocError` if an allocation fails.
pub fn shortened(alloc: Global, notation: &str) -> Result<String, AllocError> {
    let mut text = String::new(alloc);
    let (mut quotes, mut length, mut is_hex, mut last) = (Quotes::new(), 0usize, false, ' ');
    for c in notation.chars() {
        let part = quotes.pass(c);
        match part {
            Quoted::Opens => {
                length = 0;
                is_hex = last == 'h';
            }
            Quoted::Character => length = length.saturating_add(1),
            _ => {}
        }
        match part {
            Quoted::Closes => push_end(&mut text, c, length, is_hex)?,
            Quoted::Character | Quoted::Escape if SHOWN < length => {}
            _ => text.push(c)?,
        }
        last = c;
    }
    Ok(text)
}

/// Returns a note with long digits after its last colon cut, and their length.
///
/// # Errors
/// `AllocError` if an allocation fails.
pub fn shortened_note(alloc: Global, note: &str) -> Result<String, AllocError> {
    let Some((title, digits)) = note.rsplit_once(": ") else {
        return String::from_str(alloc, note);
    };
    if digits.len() <= SHOWN {
        return String::from_str(alloc, note);
    }
    let mut text = format!(in alloc; "{title}: ")?;
    for c in digits.chars().take(SHOWN) {
        text.push(c)?;
    }
    let count = digits.len() / 2;
    write!(text, "\u{2026} ({count} bytes)")?;
    Ok(text)
}
