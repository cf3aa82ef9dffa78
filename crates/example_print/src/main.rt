//! Reads a message with one signature in hexadecimal from standard input, and prints it line by
//! line. If the input isn't such a message, the error is the fault and its place, and the status 1.
#![tactic(auto)]

use anyhow::{Result, bail};
use std::alloc::Global;
use std::io::Read;
use tool_explain::{Kind, Refusal, annotated, explain, fault};

/// Returns the message line by line, with its bytes, in diagnostic notation (RFC 8949, section 8).
fn lines(alloc: Global, bytes: &[u8]) -> Result<String> {
    let explained = explain(alloc, Kind::Sign1, bytes, None)?;
    Ok(annotated(alloc, &explained.lines)?)
}

/// Returns the fault in bytes that aren't such a message, and its place.
fn described(alloc: Global, refusal: &Refusal) -> Result<String> {
    let error = &refusal.error;
    Ok(match &refusal.place {
        Some(place) => {
            let (offset, path) = (place.offset, place.path.as_str());
            format!(in alloc; "refused at offset {offset}, {path}: {error}")?
        }
        None => format!(in alloc; "refused: {error}")?,
    })
}

fn main(rt: HostRuntime) -> Result<()> {
    let alloc = rt.alloc();
    let mut input = String::new(alloc);
    rt.stdin().read_to_string(&mut input)?;
    let bytes = hex::decode(alloc, input.trim())?;
    match fault(alloc, Kind::Sign1, &bytes)? {
        Some(refusal) => bail!("{}", described(alloc, &refusal)?),
        None => print!(rt; "{}", lines(alloc, &bytes)?)?,
    }
    Ok(())
}
