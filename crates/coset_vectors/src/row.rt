//! Rows, one a line: `KIND HEX`, or `tagged KIND HEX`. For structures there is a second `HEX`.

use crate::answer::{NOT_HEXADECIMAL, name_and_rest, spelled};
use crate::kind::Question;
use crate::strings::{Major, strings};
use crate::sweep::nested;
use std::alloc::{AllocError, Global};
use test_lines::line::Calls;
use test_lines::mark;

/// The rows that the program answers.
pub struct Rows;

impl Calls for Rows {
    /// Returns the answer to the row. A row that is no sweep is answered between two marks. If an
    /// allocation fails there, the answer is `error: out of memory`.
    fn answer(alloc: Global, line: &str) -> Result<String, AllocError> {
        match name_and_rest(line) {
            ("every", row) => answer_one(alloc, row, true),
            ("nested", rest) => answer_nested(alloc, rest),
            ("strings", "bytes") => strings(alloc, Major::Bytes),
            ("strings", "text") => strings(alloc, Major::Text),
            _ => answer_marked(alloc, line),
        }
    }
}

/// Returns the answer to a row between two marks.
fn answer_marked(alloc: Global, row: &str) -> Result<String, AllocError> {
    mark::begin(alloc);
    let answer = answer_one(alloc, row, false);
    mark::end(alloc);
    match answer {
        Ok(text) => Ok(text),
        Err(AllocError) => String::from_str(alloc, "error: out of memory"),
    }
}

/// Returns the answer to a row. A sweep has no hexadecimal, and its answer is for all short inputs
/// of its kind.
fn answer_one(alloc: Global, row: &str, is_sweep: bool) -> Result<String, AllocError> {
    let (is_tagged, row) = match row.strip_prefix("tagged ") {
        Some(rest) => (true, rest),
        None => (false, row),
    };
    let (name, words) = name_and_rest(row);
    let question = if is_sweep {
        Question::Every
    } else {
        Question::Row(words)
    };
    let answer = if is_tagged {
        question.ask_tagged(alloc, name)
    } else {
        question.ask(alloc, name)
    };
    match answer {
        Some(answer) => answer,
        None => String::from_str(alloc, "unknown type"),
    }
}

/// Returns the answer for nested values. The words are the outer and the inner bytes.
fn answer_nested(alloc: Global, words: &str) -> Result<String, AllocError> {
    let (outer, inner) = name_and_rest(words);
    match (spelled(alloc, outer)?, spelled(alloc, inner)?) {
        (Some(outer), Some(inner)) => nested(alloc, &outer, &inner),
        _ => String::from_str(alloc, NOT_HEXADECIMAL),
    }
}
