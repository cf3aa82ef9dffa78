//! Calls that judge tokens by one signature.
//!
//! `judge ANSWER NOW TOKEN` prints the encoded claims of a token that is let in, or the reason why
//! it isn't. Then follow the number of calls of the closure, and their arguments.
//!
//! - ANSWER is `yes` or `no`: whether the closure accepts the signature.
//! - NOW is a moment in seconds.
//! - TOKEN is hexadecimal, or `-` for no bytes.

use coset::Result;
use coset::cwt::ClaimsSet;
use cwt_gate::{GateError, judge};
use std::alloc::Global;
use test_lines::asked::{Asked, No};
use test_lines::words::Words;
use test_lines::{mark, tell};

/// Returns the encoding of the claims that were let in, or the reason why the token wasn't.
///
/// # Errors
/// `OutOfMemory` if an allocation for the text fails.
fn told(alloc: Global, answer: std::result::Result<ClaimsSet, GateError<No>>) -> Result<String> {
    match answer {
        Ok(claims) => tell::value(alloc, Ok(claims)),
        Err(error) => Ok(format!(in alloc; "{error:?}")?),
    }
}

/// Judges a token at a moment.
///
/// # Errors
/// - A fault in the arguments.
/// - `OutOfMemory` if an allocation fails.
pub fn at_a_moment(alloc: Global, words: &Words<'_>) -> Result<String> {
    let says_yes = words.says_yes(1)?;
    let now = words.number(2)?;
    let token = words.bytes(alloc, 3)?;
    let mut asked = Asked::new(alloc)?;
    let count = &mut asked;
    mark::begin(alloc);
    let answer = judge(alloc, &token, now, move |signature, tbs| {
        count.judge(signature, tbs, says_yes)
    });
    mark::end(alloc);
    asked.behind(alloc, told(alloc, answer)?)
}
