//! Calls of builders, one after another.

use crate::words::Words;
use coset::Result;
use std::alloc::Global;

/// A call of a builder, with its arguments.
pub trait Step: Sized {
    /// Returns the call of that name with the arguments that these words spell. The second is empty
    /// if the call takes only one.
    ///
    /// # Errors
    /// A fault in the arguments, or an unknown name.
    fn of(alloc: Global, name: &str, first: &str, second: &str) -> Result<Self>;
}

/// Returns the calls named by the words from `place` on. Each is `NAME=WORD`, or `NAME=WORD:WORD`.
///
/// # Errors
/// The errors of [`Step::of`].
pub fn all<S: Step + Drop>(alloc: Global, words: &Words<'_>, place: usize) -> Result<Vec<S>> {
    let mut steps = Vec::new(alloc);
    for place in place..words.count() {
        let (name, given) = halves(words.word(place), "=");
        let (first, second) = halves(given, ":");
        steps.push(S::of(alloc, name, first, second)?)?;
    }
    Ok(steps)
}

/// Returns the text before the sign, and the text after it.
fn halves<'a>(word: &'a str, sign: &str) -> (&'a str, &'a str) {
    word.split_once(sign).unwrap_or((word, ""))
}
