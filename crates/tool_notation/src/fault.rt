//! Faults of texts.

use std::alloc::{AllocError, AllocFailed};

/// What notation needs at the place of a fault.
#[derive(Clone, Copy, Debug, PartialEq, Eq)]
pub enum Expected {
    /// An item.
    Item,
    /// A colon between a key and its value.
    Colon,
    /// A comma, or the end of the array, the map, the string or the input.
    CommaOrEnd,
    /// The parenthesis that ends a tag or a simple value.
    Parenthesis,
    /// A digit.
    Digit,
    /// At most 1,000 digits.
    FewerDigits,
    /// A number that a float can have.
    Finite,
    /// A tag's number.
    TagNumber,
    /// The number of a simple value.
    SimpleNumber,
    /// An encoding indicator.
    Indicator,
    /// An encoding indicator of a width that has room for the number, the length or the float.
    Wider,
    /// A string.
    Chunk,
    /// A string of the same type as the one before it.
    SameType,
    /// The quote that ends a string, or a character that may be in it.
    Quote,
    /// An escape.
    Escape,
    /// The code of a character.
    Character,
    /// A text string in UTF-8.
    Utf8,
    /// The end of a comment.
    CommentEnd,
    /// At most 256 levels, and at most 512 with those of items in byte strings.
    FewerLevels,
}

impl Expected {
    /// Returns the text for it.
    pub fn text(self) -> &'static str {
        match self {
            Expected::Item => "an item",
            Expected::Colon => "a colon and a value",
            Expected::CommaOrEnd => "a comma or the end",
            Expected::Parenthesis => "a closing parenthesis",
            Expected::Digit => "a digit",
            Expected::FewerDigits => "at most 1000 digits",
            Expected::Finite => "a number that a double can have",
            Expected::TagNumber => "a tag's number, from 0 to 18446744073709551615",
            Expected::SimpleNumber => "a simple value, from 0 to 23 or from 32 to 255",
            Expected::Indicator => "an encoding indicator: _0, _1, _2 or _3",
            Expected::Wider => "a wider encoding indicator, or none",
            Expected::Chunk => "a string of the same type, as a chunk",
            Expected::SameType => "a byte string like the one before it",
            Expected::Quote => "the quote that ends the string",
            Expected::Escape => "an escape such as \\n or \\u00e9",
            Expected::Character => "the code of a character",
            Expected::Utf8 => "a text string in UTF-8",
            Expected::CommentEnd => "the end of the comment",
            Expected::FewerLevels => "at most 256 levels, or 512 with embedded items,",
        }
    }
}

/// The place of a fault in a text, and what should be there.
#[derive(Clone, Copy, Debug, PartialEq, Eq)]
pub struct Fault {
    /// The offset in bytes.
    pub offset: usize,
    /// What should be there.
    pub expected: Expected,
}

/// The reason why reading stopped.
#[derive(Clone, Copy)]
pub(crate) enum Stop {
    /// An allocation failed.
    OutOfMemory,
    /// A fault before so many bytes of the text.
    Fault(usize, Expected),
}

impl Stop {
    /// Returns the fault at the front of the rest of the text.
    pub(crate) fn at(rest: &[u8], expected: Expected) -> Stop {
        Stop::Fault(rest.len(), expected)
    }
}

impl From<AllocError> for Stop {
    fn from(_error: AllocError) -> Stop {
        Stop::OutOfMemory
    }
}

impl<T: Drop> From<AllocFailed<T>> for Stop {
    fn from(_error: AllocFailed<T>) -> Stop {
        Stop::OutOfMemory
    }
}
