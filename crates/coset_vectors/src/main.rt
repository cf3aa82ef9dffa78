//! `coset_vectors` reads rows of test vectors from standard input, and writes one answer for each
//! to standard output.
//!
//! A row is `KIND HEX`: a kind, such as `header` or `sign1`, and bytes. The answer is the encoding
//! of the value in hexadecimal, or `error: ` and the error. `tagged KIND HEX` is a message under
//! its tag. For kinds like `sign1_tbs` the answer is a structure, and a second word is its
//! `external_aad`. The answer to an empty line, and to a comment, which begins with `#`, is the
//! line itself. If an allocation fails, the answer to the row says so, and the next row is read.
#![tactic(auto)]

mod answer;
mod form;
mod fronts;
mod kind;
mod row;
mod strings;
mod structures;
mod sweep;

use std::io;

fn main(rt: HostRuntime) -> io::Result<()> {
    test_lines::line::answer_input::<row::Rows, _>(&rt)
}
