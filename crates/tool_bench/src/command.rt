//! The program's command line.

ghost use Rattle.std.specs.Prelude.{◌<◌};

use std::env;
use std::rt::Env;

/// The operation, the file to read, and the numbers of calls and rounds.
#[derive(Drop)]
pub struct Command {
    /// The operation's name, known or not.
    pub operation: String,
    /// The path of the file.
    pub file: String,
    /// The number of calls in a round, at least one.
    pub calls: usize,
    /// The number of timed rounds.
    pub rounds: usize,
    ghost some_calls: { 0 < calls },
}

impl Command {
    /// Reads the four arguments. Returns `None` if there are more or fewer, one of them can't be
    /// read, or the number of calls is 0.
    pub fn of_arguments<R: Env + AllocGlobal>(rt: &R) -> Option<Command> {
        let mut arguments = env::args(rt).ok()?.skip(1);
        let operation = arguments.next()?;
        let file = arguments.next()?;
        let calls: usize = arguments.next()?.as_str().parse().ok()?;
        let rounds: usize = arguments.next()?.as_str().parse().ok()?;
        if calls == 0 || arguments.next().is_some() {
            return None;
        }
        Some(Command {
            operation,
            file,
            calls,
            rounds,
        })
    }

    /// Returns the file's name without its folders.
    pub fn file_name(&self) -> &str {
        match self.file.as_str().rsplit_once('/') {
            Some((_, name)) => name,
            None => self.file.as_str(),
        }
    }
}
