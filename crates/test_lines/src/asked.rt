//! The closures for calls: their results, their arguments, and the number of their calls.

use crate::answer::Answer;
use crate::tell;
use coset::{CallError, CborSerializable, Result};
use std::alloc::Global;

/// The error of a closure that refuses.
#[derive(Clone, Copy, Debug, Drop, PartialEq, Eq)]
pub struct No;

/// The number of a closure's calls, its arguments, and its result. A call allocates nothing.
#[derive(Drop)]
pub struct Asked {
    count: u32,
    handed: Vec<u8>,
    made: Option<Vec<u8>>,
}

/// The most bytes of arguments that are kept.
const MAX_BYTES: usize = 4096;

impl Asked {
    /// Returns the state of a closure that wasn't called yet.
    ///
    /// # Errors
    /// `OutOfMemory` if an allocation fails.
    pub fn new(alloc: Global) -> Result<Asked> {
        Asked::making(alloc, None)
    }

    /// Returns the state of a closure that wasn't called yet and that makes these bytes, or none.
    ///
    /// # Errors
    /// `OutOfMemory` if an allocation fails.
    pub fn making(alloc: Global, made: Option<Vec<u8>>) -> Result<Asked> {
        Ok(Asked {
            count: 0,
            handed: Vec::with_capacity(alloc, MAX_BYTES)?,
            made,
        })
    }

    /// Records a call of a closure and its arguments: the bytes that it judges or works on, and
    /// their structure. A closure with one argument gets only the second.
    fn ask(&mut self, first: &[u8], second: &[u8]) {
        self.count = self.count.saturating_add(1);
        if first.len().saturating_add(second.len()) < MAX_BYTES {
            let _ = self.handed.extend_from_slice(first);
            let _ = self.handed.extend_from_slice(second);
        }
    }

    /// Records a call of a closure that accepts or refuses.
    ///
    /// # Errors
    /// `No` if `says_yes` is false.
    pub fn judge(
        &mut self,
        first: &[u8],
        second: &[u8],
        says_yes: bool,
    ) -> std::result::Result<(), No> {
        self.ask(first, second);
        if says_yes { Ok(()) } else { Err(No) }
    }

    /// Records a call of a closure that makes bytes, and returns them.
    pub fn make(&mut self, first: &[u8], second: &[u8]) -> Vec<u8> {
        self.ask(first, second);
        match self.made.take() {
            Some(made) => made,
            None => Vec::new(*self.handed.allocator()),
        }
    }

    /// Records a call of a closure that makes bytes or refuses, and returns the bytes.
    ///
    /// # Errors
    /// `No` if there are no bytes to make.
    pub fn try_make(&mut self, first: &[u8], second: &[u8]) -> std::result::Result<Vec<u8>, No> {
        self.ask(first, second);
        match self.made.take() {
            Some(made) => Ok(made),
            None => Err(No),
        }
    }

    /// Appends the number of calls and the arguments to the text: ` asked 1 HANDED`, or ` asked 0`.
    ///
    /// # Errors
    /// `OutOfMemory` if an allocation fails.
    pub fn behind(&self, alloc: Global, text: String) -> Result<String> {
        if self.count == 0 {
            return Ok(format!(in alloc; "{text} asked 0")?);
        }
        let handed = tell::hexadecimal(alloc, &self.handed)?;
        Ok(format!(in alloc; "{text} asked {} {handed}", self.count)?)
    }

    /// Returns the text for a call whose closure made something.
    ///
    /// # Errors
    /// `OutOfMemory` if an allocation fails.
    pub fn made<T: CborSerializable + Drop>(
        &self,
        alloc: Global,
        answer: Result<T>,
    ) -> Result<String> {
        let text = tell::value(alloc, answer)?;
        self.behind(alloc, text)
    }

    /// Returns the text for a call whose closure made something, or refused.
    ///
    /// # Errors
    /// `OutOfMemory` if an allocation fails.
    pub fn tried<T: CborSerializable + Drop>(
        &self,
        alloc: Global,
        answer: std::result::Result<T, CallError<No>>,
    ) -> Result<String> {
        let text = match Called::of(answer) {
            Called::Ours(answer) => tell::value(alloc, answer)?,
            Called::Caller => caller(alloc)?,
        };
        self.behind(alloc, text)
    }

    /// Returns the text for a call whose closure judged its arguments.
    ///
    /// # Errors
    /// `OutOfMemory` if an allocation fails.
    pub fn judged(
        &self,
        alloc: Global,
        answer: std::result::Result<(), CallError<No>>,
    ) -> Result<String> {
        let text = match Called::of(answer) {
            Called::Ours(answer) => tell::done(alloc, answer)?,
            Called::Caller => caller(alloc)?,
        };
        self.behind(alloc, text)
    }

    /// Returns the text for a call whose closure decrypted its arguments, or may refuse to encrypt
    /// them.
    ///
    /// # Errors
    /// `OutOfMemory` if an allocation fails.
    pub fn opened(
        &self,
        alloc: Global,
        answer: std::result::Result<Vec<u8>, CallError<No>>,
    ) -> Result<String> {
        let text = match Called::of(answer) {
            Called::Ours(answer) => tell::bytes(alloc, answer)?,
            Called::Caller => caller(alloc)?,
        };
        self.behind(alloc, text)
    }

    /// Returns the text for a call whose closure encrypted its arguments, and can't refuse.
    ///
    /// # Errors
    /// `OutOfMemory` if an allocation fails.
    pub fn sealed(&self, alloc: Global, answer: Result<Vec<u8>>) -> Result<String> {
        let text = tell::bytes(alloc, answer)?;
        self.behind(alloc, text)
    }

    /// Returns the text for a call of a message or of its builder.
    ///
    /// # Errors
    /// `OutOfMemory` if an allocation fails.
    pub fn told<T: CborSerializable + Drop>(
        &self,
        alloc: Global,
        answer: Answer<T>,
    ) -> Result<String> {
        match answer {
            Answer::Bytes(answer) => tell::bytes(alloc, answer),
            Answer::Perhaps(answer) => tell::perhaps(alloc, answer),
            Answer::Judged(answer) => self.judged(alloc, answer),
            Answer::Opened(answer) => self.opened(alloc, answer),
            Answer::Sealed(answer) => self.sealed(alloc, answer),
            Answer::Made(answer) => self.made(alloc, answer),
            Answer::Tried(answer) => self.tried(alloc, answer),
        }
    }
}

/// Counts a call of the closure for missing content, and returns its error.
pub fn missing(missed: &mut u32) -> No {
    *missed = missed.saturating_add(1);
    No
}

/// Appends the number of calls of the closure for missing content: ` missing 1`, or ` missing 0`.
///
/// # Errors
/// `OutOfMemory` if an allocation fails.
pub fn and_missing(alloc: Global, text: String, missed: u32) -> Result<String> {
    Ok(format!(in alloc; "{text} missing {missed}")?)
}

/// The result of a call with a closure: the library's, or the closure's refusal.
enum Called<T> {
    Ours(Result<T>),
    Caller,
}

impl<T> Called<T> {
    fn of(answer: std::result::Result<T, CallError<No>>) -> Called<T> {
        match answer {
            Ok(value) => Called::Ours(Ok(value)),
            Err(CallError::Coset(error)) => Called::Ours(Err(error)),
            Err(CallError::Caller(No)) => Called::Caller,
        }
    }
}

/// Returns `caller`, the text for a closure that refuses.
///
/// # Errors
/// `OutOfMemory` if an allocation fails.
fn caller(alloc: Global) -> Result<String> {
    Ok(String::from_str(alloc, "caller")?)
}
