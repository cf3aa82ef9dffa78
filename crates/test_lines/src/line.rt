//! Lines, and the calls that they name.

ghost use Rattle.std.specs.Prelude.{◌≡◌, true, IfOk, string_bytes};
ghost use Rattle.test_lines.specs.Line.{is_comment as is_comment_spec};

use crate::typed::Operation;
use crate::words::Words;
use coset::{CoseError, Result};
use std::alloc::{AllocError, Global};
use std::io::{self, BufRead, BufReader, BufWriter, Write};

/// The calls that a program makes, by name. By default it knows none.
pub trait Calls {
    /// Makes a call that every type has, for the type of that name.
    ///
    /// # Errors
    /// A fault in the arguments, or an unknown name.
    fn typed(_alloc: Global, _kind: &str, _call: Operation, _words: &Words<'_>) -> Result<String> {
        Err(unknown())
    }

    /// Makes a call that only one type or its builder has.
    ///
    /// # Errors
    /// The errors of [`Calls::typed`].
    fn of_type(_alloc: Global, _kind: &str, _name: &str, _words: &Words<'_>) -> Result<String> {
        Err(unknown())
    }

    /// Makes a call without a type.
    ///
    /// # Errors
    /// The errors of [`Calls::typed`].
    fn of_no_type(_alloc: Global, _name: &str, _words: &Words<'_>) -> Result<String> {
        Err(unknown())
    }

    /// Returns the answer to a line that is no comment. It is the result of the call that the first
    /// word names, or `unready: ` and the reason why the call couldn't be made.
    ///
    /// # Errors
    /// `AllocError` if an allocation for the arguments or the answer fails.
    fn answer(alloc: Global, line: &str) -> std::result::Result<String, AllocError> {
        let words = Words::new(line);
        let answer = match words.word(0).split_once("::") {
            None => Self::of_no_type(alloc, words.word(0), &words),
            Some((kind, name)) => match Operation::of(name) {
                Some(operation) => Self::typed(alloc, kind, operation, &words),
                None => Self::of_type(alloc, kind, name, &words),
            },
        };
        match answer {
            Ok(answer) => Ok(answer),
            Err(CoseError::OutOfMemory) => Err(AllocError),
            Err(error) => format!(in alloc; "unready: {error}"),
        }
    }
}

/// Answers each line of standard input in turn. Only one line is in memory at a time.
///
/// # Errors
/// - The errors of input and output.
/// - `OutOfMemory` if an allocation for the line or the arguments fails.
pub fn answer_input<C: Calls, R: AllocGlobal + Input + Print>(rt: &R) -> io::Result<()> {
    let alloc = rt.alloc();
    let reader = BufReader::new(alloc, rt.reader())?;
    let mut writer = BufWriter::new(alloc, io::writer(rt))?;
    for line in reader.lines(alloc) {
        let answer = answer_line::<C>(alloc, line?.as_str())?;
        writeln!(writer, "{answer}")?;
    }
    writer.flush()
}

/// Returns the answer to a line. For an empty line and for a comment, which begins with `#`, this
/// is the line itself.
///
/// # Errors
/// `AllocError` if an allocation fails.
pub fn answer_line<C: Calls>(alloc: Global, line: &str) -> std::result::Result<String, AllocError>
    ensures { is_comment_spec line.now ≡ true
        → IfOk result (λ answer. string_bytes answer ≡ line.now) }
{
    if is_comment(line) {
        return String::from_str(alloc, line);
    }
    C::answer(alloc, line)
}

/// Returns true if the line is empty, or begins with `#`.
fn is_comment(line: &str) -> bool
    ensures { result ≡ is_comment_spec line.now }
{
    matches!(line.as_bytes().first(), None | Some(b'#'))
}

/// Returns the error for a line that names no known call.
pub fn unknown() -> CoseError {
    CoseError::UnexpectedItem("name", "name of a call")
}
