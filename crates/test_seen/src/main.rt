//! `test_seen` reads calls from standard input, one a line, and writes what each returns.
//!
//! KIND is `sign1`, `mac0`, `encrypt0`, `mac` or `encrypt`. Bytes are in hexadecimal, and `-` means
//! no bytes. These are the calls:
//!
//! - `see KIND BYTES`: the fields of the message, or `none`. A part is `OFFSET:BYTES`.
//! - `lay KIND BYTES`: the fields of the message that is laid out, or `none`. Then whether the
//!   algorithm is a text, whether a header has `crit`, and whether the headers are valid.
//! - `agree KIND BYTES`: `agrees` if the decoded message has the same fields. Otherwise `differs`
//!   and the field, or `none` if the message isn't seen.
//! - `put KIND BYTES AAD DETACHED SIZE`: the structure, in memory of that many bytes `ee`.
//! - `make KIND BYTES AAD DETACHED`: the structure as a vector.
//! - `facade KIND BYTES AAD`: the structure that the decoded message makes.
//! - `header BYTES`: `plain` if the bytes are a plain header, or `none`.
//! - `covered BYTES ALG SIZE`: the result of the example `covered` for the algorithm of that
//!   number, and the memory.
//! - `texts SIZE BYTES BYTES BYTES`: the three byte strings, in memory of that many bytes `ee`.
//!
//! DETACHED is `none`, or the content that the message doesn't carry.
#![tactic(auto)]

mod owned;
mod seen;
mod structures;

use coset::Result;
use std::alloc::Global;
use std::io;
use test_lines::line::{Calls, answer_input, unknown};
use test_lines::words::Words;

/// The calls that the program makes.
struct SeenCalls;

impl Calls for SeenCalls {
    fn of_no_type(alloc: Global, name: &str, words: &Words<'_>) -> Result<String> {
        match name {
            "see" => seen::fields(alloc, words),
            "lay" => seen::layout(alloc, words),
            "header" => seen::header(alloc, words),
            "agree" => owned::agreement(alloc, words),
            "facade" => owned::structure(alloc, words),
            "put" => structures::put(alloc, words),
            "make" => structures::make(alloc, words),
            "covered" => structures::covered_bytes(alloc, words),
            "texts" => structures::texts(alloc, words),
            _ => Err(unknown()),
        }
    }
}

fn main(rt: HostRuntime) -> io::Result<()> {
    answer_input::<SeenCalls, _>(&rt)
}
