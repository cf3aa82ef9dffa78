//! `test_verify` makes calls with web tokens and their keys, line by line, and prints the results.
//! The first word of a line names the call. These modules describe the words:
//!
//! - `verify`: `verify` and `ring` verify a token. `fits` says whether a key fits a layer, and
//!   `keys` reads a set of keys.
//! - `confirm`: `confirm` and `nonces` read claims of a verified token. `possess` checks a proof of
//!   possession.
//! - `gate`: `judge` judges a token by one signature.
//!
//! The answer to an empty line, and to a comment, which begins with `#`, is the line itself.
//!
//! A call is made between two marks (`test_lines::mark`). If an allocation between them is refused,
//! it is one of the call's own.
#![tactic(auto)]

mod confirm;
mod forms;
mod gate;
mod verify;

use coset::Result;
use std::alloc::Global;
use std::io;
use test_lines::line::{Calls, answer_input, unknown};
use test_lines::words::Words;

/// The calls that the program makes.
struct TokenCalls;

impl Calls for TokenCalls {
    fn of_no_type(alloc: Global, name: &str, words: &Words<'_>) -> Result<String> {
        match name {
            "verify" => verify::by_scripted_keys(alloc, words),
            "ring" => verify::by_a_ring(alloc, words),
            "fits" => verify::fit(alloc, words),
            "keys" => verify::readable_keys(alloc, words),
            "confirm" => confirm::confirmed(alloc, words),
            "nonces" => confirm::fresh(alloc, words),
            "possess" => confirm::possessed(alloc, words),
            "judge" => gate::at_a_moment(alloc, words),
            _ => Err(unknown()),
        }
    }
}

fn main(rt: HostRuntime) -> io::Result<()> {
    answer_input::<TokenCalls, _>(&rt)
}
