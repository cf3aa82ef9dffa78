//! Sweeps: rows that each stand for many inputs.

use crate::answer::answer;
use crate::form::{Form, Plain};
use coset::cbor::value::Value;
use std::alloc::{AllocError, Global};

/// The results of the inputs of a sweep.
#[derive(Drop)]
struct Tally {
    /// The number of inputs that were accepted.
    accepted: u32,
    /// The first input with a wrong result, if there is one.
    wrong: Option<Vec<u8>>,
}

impl Tally {
    fn new() -> Tally {
        Tally {
            accepted: 0,
            wrong: None,
        }
    }

    /// Takes one more input. An accepted input must be written as bytes whose answer is the same.
    /// Other inputs must be refused for a fault, and the answer may not be `differs`.
    fn take<F: Form<T>, T: PartialEq + Drop>(
        &mut self,
        alloc: Global,
        input: &[u8],
    ) -> Result<(), AllocError> {
        let text = answer::<F, T>(alloc, input, &[])?;
        match text.as_str() {
            "differs" | "error: out of memory" => return self.blame(alloc, input),
            other if other.starts_with("error: ") => return Ok(()),
            _ => {}
        }
        self.accepted = self.accepted.saturating_add(1);
        match hex::decode(alloc, text.as_bytes()) {
            Ok(written) if answer::<F, T>(alloc, &written, &[])? == text => Ok(()),
            _ => self.blame(alloc, input),
        }
    }

    /// Records the input, unless one is recorded.
    fn blame(&mut self, alloc: Global, input: &[u8]) -> Result<(), AllocError> {
        if self.wrong.is_none() {
            self.wrong = Some(Vec::from_slice(alloc, input)?);
        }
        Ok(())
    }

    /// Returns the number of accepted inputs, or the first one with a wrong result.
    fn told(&self, alloc: Global) -> Result<String, AllocError> {
        match &self.wrong {
            None => format!(in alloc; "{} accepted", self.accepted),
            Some(input) => {
                let spelled = hex::encode(alloc, input)?;
                format!(in alloc; "wrong: {spelled}")
            }
        }
    }
}

/// Returns the result for every input of at most two bytes.
pub fn every<F: Form<T>, T: PartialEq + Drop>(alloc: Global) -> Result<String, AllocError> {
    let mut tally = Tally::new();
    tally.take::<F, T>(alloc, &[])?;
    for first in 0..=u8::MAX {
        tally.take::<F, T>(alloc, &[first])?;
        with_a_second::<F, T>(alloc, first, &mut tally)?;
    }
    tally.told(alloc)
}

/// Tries every input of two bytes that begins with this byte.
fn with_a_second<F: Form<T>, T: PartialEq + Drop>(
    alloc: Global,
    first: u8,
    tally: &mut Tally,
) -> Result<(), AllocError> {
    for second in 0..=u8::MAX {
        tally.take::<F, T>(alloc, &[first, second])?;
    }
    Ok(())
}

/// The most levels of a sweep over nested values.
const NESTED: u32 = 300;

/// Returns the result for nested values: `outer` repeated up to 300 times, and then `inner`. Up to
/// some number they are accepted and written unchanged. From there on each is refused with the same
/// error.
pub fn nested(alloc: Global, outer: &[u8], inner: &[u8]) -> Result<String, AllocError> {
    let mut accepted = 0u32;
    let mut refusal = String::new(alloc);
    for times in 0..=NESTED {
        let input = repeated(alloc, outer, times, inner)?;
        let text = answer::<Plain, Value>(alloc, &input, &[])?;
        if refusal.is_empty() && text == hex::encode(alloc, &input)? {
            accepted = accepted.saturating_add(1);
        } else if refusal.is_empty() {
            refusal = text;
        } else if text != refusal {
            return format!(in alloc; "wrong: {times} times: {text}");
        }
    }
    format!(in alloc; "{accepted} accepted, then {refusal}")
}

/// Returns `outer` repeated so many times, followed by `inner`.
fn repeated(alloc: Global, outer: &[u8], times: u32, inner: &[u8]) -> Result<Vec<u8>, AllocError> {
    let mut bytes = Vec::new(alloc);
    for _ in 0..times {
        bytes.extend_from_slice(outer)?;
    }
    bytes.extend_from_slice(inner)?;
    Ok(bytes)
}
