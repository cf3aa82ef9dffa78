//! `coset_show KIND`: decodes hexadecimal standard input, and prints its shortest encoding.
#![tactic(auto)]

ghost use Rattle.std.specs.Prelude.{MatchOption};
ghost use Rattle.std.specs.Vec.Iter.{into_iter_items};
ghost use Rattle.coset_show.specs.Arguments.{AreNameAnd, AreNoNameAndOne};

#[cfg(test)]
mod failing_tests;
mod io_traits;
mod kind;
mod refusal;
#[cfg(test)]
mod rows;
mod run;
mod show;
mod stream;
#[cfg(test)]
mod tests;

use std::env;
use std::env::Args;
use std::process::ExitCode;
use stream::Stream;

/// Returns the argument after the program's name, or `None` unless there is exactly one.
fn only_argument(mut arguments: Args) -> Option<String>
    ensures { MatchOption result (AreNoNameAndOne (into_iter_items arguments))
        (λ only. AreNameAnd (into_iter_items arguments) only) }
{
    let _name = arguments.next()?;
    let first = arguments.next()?;
    match arguments.next() {
        None => Some(first),
        Some(_) => None,
    }
}

fn main(rt: HostRuntime) -> ExitCode {
    let alloc = rt.alloc();
    // Arguments that can't be read name no kind.
    let kind = match env::args(&rt) {
        Ok(arguments) => only_argument(arguments),
        Err(_) => None,
    };
    let kind = kind.unwrap_or(String::new(alloc));
    let mut reader = Stream::new(rt.stdin());
    let mut writer = Stream::new(rt.stdout());
    ExitCode::from(run::run(alloc, kind.as_str(), &mut reader, &mut writer))
}
