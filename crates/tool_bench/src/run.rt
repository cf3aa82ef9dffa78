//! Runs the rounds and prints the line.

use crate::command::Command;
use crate::fault::Fault;
use crate::figure::{Figure, least, tenths_a_call};
use crate::operation::Operation;
use std::fs;
use std::rt::{Clock, Files};

/// Returns the time of each round in nanoseconds. A round that took longer counts as 2^64 - 1.
fn round_times<R: AllocGlobal + Clock>(
    rt: &R,
    operation: Operation,
    bytes: &[u8],
    command: &Command,
) -> Result<Vec<u64>, Fault> {
    let mut times = Vec::new(rt.alloc());
    for _ in 0..command.rounds {
        let time = operation.time(rt, bytes, command.calls)?;
        times.push(u64::try_from(time.as_nanos()).unwrap_or(u64::MAX))?;
    }
    Ok(times)
}

/// Times the rounds and returns the least time of a call. Without rounds, makes the calls untimed.
fn figure<R: AllocGlobal + Clock>(
    rt: &R,
    operation: Operation,
    bytes: &[u8],
    command: &Command,
) -> Result<Figure, Fault> {
    let times = round_times(rt, operation, bytes, command)?;
    match least(times.as_slice()) {
        Some(nanos) => Ok(Figure::Tenths(tenths_a_call(nanos, command.calls))),
        None => {
            operation.time(rt, bytes, command.calls)?;
            Ok(Figure::Untimed)
        }
    }
}

/// Times the operation that the command names, and prints the line.
///
/// # Errors
/// The fault of the call that failed, or of reading the file or the clock, or of printing the line.
pub fn run<R: AllocGlobal + Clock + Files + Print>(rt: &R, command: &Command) -> Result<(), Fault> {
    let figure = match Operation::of(command.operation.as_str()) {
        Some(operation) => {
            let bytes = fs::read(rt, command.file.as_str())?;
            figure(rt, operation, bytes.as_slice(), command)?
        }
        None => Figure::Unknown,
    };
    let operation = command.operation.as_str();
    let file = command.file_name();
    println!(rt; "{operation} {file} {figure}")?;
    Ok(())
}
