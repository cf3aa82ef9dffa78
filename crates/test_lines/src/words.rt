//! The words of a line after the name of the call.

use coset::{CborSerializable, CoseError, Result};
use std::alloc::Global;

/// The words of a line, by their places. The word at 0 is the call's name.
#[derive(Clone, Copy)]
pub struct Words<'a> {
    line: &'a str,
}

impl<'a> Words<'a> {
    pub fn new(line: &'a str) -> Words<'a> {
        Words { line }
    }

    /// Returns the word at that place, or an empty one if there is none.
    pub fn word(&self, place: usize) -> &'a str {
        self.line.split(' ').nth(place).unwrap_or("")
    }

    /// Returns the bytes that the word at that place spells in hexadecimal. `-` means no bytes.
    ///
    /// # Errors
    /// The errors of [`bytes`].
    pub fn bytes(&self, alloc: Global, place: usize) -> Result<Vec<u8>> {
        bytes(alloc, self.word(place))
    }

    /// Returns the number of words.
    pub fn count(&self) -> usize {
        self.line.split(' ').count()
    }

    /// Reads a value from the bytes of the word at that place.
    ///
    /// # Errors
    /// - A fault in the word or in its bytes.
    /// - `OutOfMemory` if an allocation fails.
    pub fn value<T: CborSerializable + Drop>(&self, alloc: Global, place: usize) -> Result<T> {
        T::from_slice(alloc, &self.bytes(alloc, place)?)
    }

    /// Returns true if the word at that place is `yes`. It says whether a closure accepts.
    ///
    /// # Errors
    /// `UnexpectedItem` if the word is neither `yes` nor `no`.
    pub fn says_yes(&self, place: usize) -> Result<bool> {
        says_yes(self.word(place))
    }

    /// Returns the number that the word at that place spells.
    ///
    /// # Errors
    /// `UnexpectedItem` if the word spells no number.
    pub fn number(&self, place: usize) -> Result<i64> {
        number(self.word(place))
    }

    /// Returns the words after the call's name.
    pub fn after_name(&self) -> Rest<'a> {
        Rest {
            words: *self,
            place: 1,
        }
    }
}

/// The words of a line, one after another.
#[derive(Drop)]
pub struct Rest<'a> {
    words: Words<'a>,
    place: usize,
}

impl<'a> Rest<'a> {
    /// Returns the next word, or an empty one if there is none.
    pub fn next_word(&mut self) -> &'a str {
        let word = self.words.word(self.place);
        self.place = self.place.saturating_add(1);
        word
    }
}

/// Returns true if the word is `yes`. It says whether a closure accepts.
///
/// # Errors
/// `UnexpectedItem` if the word is neither `yes` nor `no`.
pub fn says_yes(word: &str) -> Result<bool> {
    match word {
        "yes" => Ok(true),
        "no" => Ok(false),
        _ => Err(CoseError::UnexpectedItem("word", "yes or no")),
    }
}

/// Returns the index in a list that the word spells.
///
/// # Errors
/// `UnexpectedItem` if the word spells no index.
pub fn index(word: &str) -> Result<usize> {
    match word.parse::<usize>() {
        Ok(index) => Ok(index),
        Err(_) => Err(CoseError::UnexpectedItem("word", "place in a list")),
    }
}

/// Returns the bytes that the word spells in hexadecimal. `-` means no bytes.
///
/// # Errors
/// - `UnexpectedItem` if the word isn't hexadecimal.
/// - `OutOfMemory` if an allocation fails.
pub fn bytes(alloc: Global, word: &str) -> Result<Vec<u8>> {
    match word {
        "-" => Ok(Vec::new(alloc)),
        word => match hex::decode(alloc, word.as_bytes()) {
            Ok(bytes) => Ok(bytes),
            Err(hex::FromHexError::OutOfMemory) => Err(CoseError::OutOfMemory),
            Err(_) => Err(CoseError::UnexpectedItem("word", "hexadecimal")),
        },
    }
}

/// Returns the number that the word spells.
///
/// # Errors
/// `UnexpectedItem` if the word spells no number.
pub fn number(word: &str) -> Result<i64> {
    match word.parse::<i64>() {
        Ok(number) => Ok(number),
        Err(_) => Err(CoseError::UnexpectedItem("word", "number")),
    }
}
