//! `tool_bench OP FILE CALLS ROUNDS` times an operation over a file's bytes.
//!
//! It prints `OP FILE NS`: the file's name without its folders, and the least time of a call among
//! the rounds, in nanoseconds. Each round makes CALLS calls and is timed as a whole. With no rounds
//! it makes the calls once and times nothing, so that a profiler may count them.
#![tactic(auto)]

mod calls;
mod command;
mod fault;
mod figure;
mod kind;
mod operation;
mod run;
mod seen;
mod structure;
mod structured;
mod tokens;

use command::Command;
use std::process::ExitCode;

/// The exit status if an operation failed.
const FAILED: u8 = 1;

/// The exit status if the command line can't be read.
const MISUSED: u8 = 2;

fn main(rt: HostRuntime) -> ExitCode {
    let Some(command) = Command::of_arguments(&rt) else {
        let _ = eprintln!(rt; "usage: tool_bench OP FILE CALLS ROUNDS");
        return ExitCode::from(MISUSED);
    };
    match run::run(&rt, &command) {
        Ok(()) => ExitCode::SUCCESS,
        Err(fault) => {
            let _ = eprintln!(rt; "error: {fault}");
            ExitCode::from(FAILED)
        }
    }
}
