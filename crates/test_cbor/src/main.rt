//! `test_cbor` makes calls of CBOR, line by line (see `test_lines`), and prints the results:
//! values, reading, borrowed items, writing, and types of a caller's own.
#![tactic(auto)]

mod lists;
mod own_types;
mod pull;
mod reading;
mod value;
mod writing;

use coset::Result;
use std::alloc::Global;
use std::io;
use test_lines::line::{Calls, answer_input, unknown};
use test_lines::typed::Operation;
use test_lines::words::Words;

/// The calls that the program makes.
struct AllCalls;

impl Calls for AllCalls {
    /// Makes a call that every type has.
    fn typed(alloc: Global, kind: &str, call: Operation, words: &Words<'_>) -> Result<String> {
        match kind {
            "Value" => value::typed(alloc, call, words),
            _ => own_types::call(alloc, kind, call, words),
        }
    }

    /// Makes a call that only one type has.
    fn of_type(alloc: Global, kind: &str, name: &str, words: &Words<'_>) -> Result<String> {
        match (kind, name) {
            ("Value", "try_as_array_then_convert") => lists::convert(alloc, words),
            ("Value", _) => value::call(alloc, name, words),
            ("Integer", _) => value::call_integer(alloc, name, words),
            ("Float", "to_f64") => value::to_double(alloc, words),
            ("Pull", _) => pull::call(alloc, name, words),
            ("Reading", "each_from_slice") => own_types::each(alloc, words),
            _ => Err(unknown()),
        }
    }

    /// Makes a call without a type.
    fn of_no_type(alloc: Global, name: &str, words: &Words<'_>) -> Result<String> {
        match name {
            "read_value" => reading::read(alloc, words),
            "decode_unbounded" => reading::decode(alloc, words),
            "check" => reading::check_front(alloc, words),
            "item_length" => reading::front(alloc, words),
            "has_repeats" => lists::repeats(alloc, words),
            "to_cbor_array" => writing::array(alloc, words),
            "de_error" => value::reader_error(alloc, words),
            "ser_error" => value::writer_error(alloc, words),
            "ser_error_becomes" => value::writer_error_becomes(alloc, words),
            _ => writing::call(alloc, name, words),
        }
    }
}

fn main(rt: HostRuntime) -> io::Result<()> {
    answer_input::<AllCalls, _>(&rt)
}
