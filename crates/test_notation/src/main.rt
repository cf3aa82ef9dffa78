//! `test_notation` reads rows from standard input, and writes one answer for each to standard
//! output.
//!
//! A row is diagnostic notation. The answer is its bytes in hexadecimal, or `error: `, the offset
//! and what should be there. The answer to an empty line, and to a comment, which begins with `#`,
//! is the line itself.
#![tactic(auto)]

use std::alloc::{AllocError, Global};
use std::io::{self, BufRead, BufReader, BufWriter, Write};
use tool_notation::bytes_of;

/// Returns the answer to a row.
fn answer(alloc: Global, row: &str) -> Result<String, AllocError> {
    if row.is_empty() || row.starts_with('#') {
        return String::from_str(alloc, row);
    }
    match bytes_of(alloc, row)? {
        Ok(bytes) => hex::encode(alloc, bytes.as_slice()),
        Err(fault) => {
            let (offset, expected) = (fault.offset, fault.expected.text());
            format!(in alloc; "error: {offset}, {expected}")
        }
    }
}

fn main(rt: HostRuntime) -> io::Result<()> {
    let alloc = rt.alloc();
    let reader = BufReader::new(alloc, rt.reader())?;
    let mut writer = BufWriter::new(alloc, io::writer(&rt))?;
    for line in reader.lines(alloc) {
        let answer = answer(alloc, line?.as_str())?;
        writeln!(writer, "{answer}")?;
    }
    writer.flush()
}
