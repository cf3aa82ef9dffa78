//! The program, over any reader and writer.

ghost use Rattle.std.specs.Prelude.{◌≡◌, ◌⊎◌, ℕ, List, true, false, IsTrue, IfOk, IfErr, IfSome, OnOk, MatchResult};
ghost use Rattle.std.specs.String.{string_bytes};
ghost use Rattle.std.specs.Io.KnownBytes.{Appends};
ghost use Rattle.coset_show.specs.declared.kind.Kind.{Kind};
ghost use Rattle.coset_show.specs.Kind.{kind_name};
ghost use Rattle.coset_show.specs.Stream.{inner_of, has_failed, IsSound, Fails};
ghost use Rattle.coset_show.specs.Answer.{without_space, IsHexadecimalOf, ShowsInput, RefusesHexadecimal, RefusesInput, refusal_line, usage_line, AnswersInput};
ghost use Rattle.coset_show.specs.Refusal.{no_memory};
ghost use Rattle.coset_show.specs.Answer.{is_space as is_space_spec};

use crate::io_traits::{Reader, Writer};
use crate::kind::Kind;
use crate::refusal::Refusal;
use crate::stream::Stream;
use coset::CoseError;
use std::alloc::{AllocError, Global};
use std::io::ErrorKind;

/// The exit status if the input was shown.
const SHOWN: u8 = 0;

/// The exit status if the input was refused or a write failed.
const REFUSED: u8 = 1;

/// The exit status if the kind isn't known.
const MISUSED: u8 = 2;

/// Shows the reader's hexadecimal input as a value of this kind, and returns the exit status.
///
/// White space in the input (the bytes 09, 0a, 0d and 20) is dropped. Digits may be of either case.
/// All output is made before any of it is written. The exit status is:
///
/// - 0 if the input is shown.
/// - 1 if the input is refused, as a line that begins with `error: ` says, or if a write fails.
/// - 2 if the kind isn't known. The usage line is then written, and nothing is read.
pub fn run<R: Reader, W: Writer>(
    alloc: Global,
    kind: &str,
    reader: &mut Stream<R>,
    writer: &mut Stream<W>,
) -> u8
    // For an unknown kind, the usage line is written, the status is 2, and nothing is read.
    ensures unknown { ((k : Kind) → kind.now ≡ kind_name k → ⊥) → (reader.new ≡ reader.old)
        × (IsSound writer.new
        → Appends (W.contents (inner_of writer.old)) (W.contents (inner_of writer.new)) usage_line
        × (result ≡ 2)) }
    // If no call fails and the bytes are known, the output and the status are right for the input.
    ensures known { (k : Kind) → kind.now ≡ kind_name k → IsSound reader.new → IsSound writer.new
        → IfSome (R.remaining (inner_of reader.old)) (λ input. (lines : List ℕ)
        × Appends (W.contents (inner_of writer.old)) (W.contents (inner_of writer.new)) lines
        × AnswersInput k input lines result) }
    // If a read fails, the line says so or says `out of memory`, and the status is 1.
    ensures unreadable { (k : Kind) → kind.now ≡ kind_name k → Fails reader.old reader.new
        → IsSound writer.new → (lines : List ℕ)
        × Appends (W.contents (inner_of writer.old)) (W.contents (inner_of writer.new)) lines
        × ((lines ≡ refusal_line Refusal.Unreadable) ⊎ (lines ≡ refusal_line no_memory))
        × (result ≡ 1) }
    // If a write fails, the status is 1.
    ensures unwritten { Fails writer.old writer.new → result ≡ 1 }
    // A reader that is known not to fail isn't recorded as failed.
    ensures sure { IsTrue R.never_fails → has_failed reader.new ≡ has_failed reader.old }
{
    let Some(kind) = Kind::of(kind) else {
        return write_lines(writer, "usage: coset_show KIND\n", MISUSED);
    };
    match answer(alloc, kind, reader) {
        Ok(lines) => write_lines(writer, lines.as_str(), SHOWN),
        Err(refusal) => match refusal_line(alloc, &refusal) {
            Ok(line) => write_lines(writer, line.as_str(), REFUSED),
            Err(AllocError) => write_lines(writer, "error: out of memory\n", REFUSED),
        },
    }
}

/// Returns the lines for the reader's input.
///
/// # Errors
/// The reason why the input isn't shown.
fn answer<R: Reader>(alloc: Global, kind: Kind, reader: &mut Stream<R>) -> Result<String, Refusal>
    ensures known { IsSound reader.new → IfSome (R.remaining (inner_of reader.old)) (λ input.
        MatchResult result (λ lines. ShowsInput kind input (string_bytes lines))
        (λ refusal. RefusesInput kind input refusal)) }
    ensures unreadable { Fails reader.old reader.new → result ≡ Err Refusal.Unreadable }
    ensures sure { IsTrue R.never_fails → has_failed reader.new ≡ has_failed reader.old }
{
    let input = read_to_end(alloc, reader)?;
    let bytes = spelled_bytes(alloc, input)?;
    kind.lines(alloc, bytes.as_slice())
}

/// Reads the input to its end.
fn read_to_end<R: Reader>(alloc: Global, reader: &mut Stream<R>) -> Result<Vec<u8>, Refusal>
    ensures bytes { IfSome (R.remaining (inner_of reader.old)) (λ input.
        IfOk result (λ v. v.items ≡ input)) }
    ensures ok { OnOk result (has_failed reader.new ≡ has_failed reader.old) }
    ensures err { IfErr result (λ refusal.
        ((refusal ≡ no_memory) × (has_failed reader.new ≡ has_failed reader.old))
        ⊎ ((refusal ≡ Refusal.Unreadable) × (has_failed reader.new ≡ true))) }
    ensures sure { IsTrue R.never_fails → has_failed reader.new ≡ has_failed reader.old }
{
    let mut input = Vec::new(alloc);
    let mut chunk = [0; 4096];
    for _ in 0..u64::MAX {
        match reader.read(&mut chunk) {
            Ok(0) => return Ok(input),
            Ok(count) => input.extend_from_slice(&chunk[..count])?,
            Err(error) => {
                if error.kind() != ErrorKind::Interrupted {
                    return Err(Refusal::Unreadable);
                }
            }
        }
    }
    // So many bytes would not fit into memory.
    Err(Refusal::Cose(CoseError::OutOfMemory))
}

/// Decodes the input from hexadecimal, ignoring white space.
fn spelled_bytes(alloc: Global, mut input: Vec<u8>) -> Result<Vec<u8>, Refusal>
    ensures { MatchResult result (λ bytes. IsHexadecimalOf input.items bytes.items)
        (λ refusal. RefusesHexadecimal input.items refusal) }
{
    drop_space(&mut input);
    Ok(hex::decode(alloc, input.as_slice())?)
}

/// Removes white space.
fn drop_space(input: &mut Vec<u8>)
    ensures { input.new.items ≡ without_space input.old.items }
{
    input.retain(|&byte| !is_space(byte));
}

/// Returns true if the byte is a tab, a line feed, a carriage return or a space.
fn is_space(byte: u8) -> bool
    ensures { result ≡ is_space_spec byte }
{
    matches!(byte, b'\t' | b'\n' | b'\r' | b' ')
}

/// Returns the output line for the refusal.
fn refusal_line(alloc: Global, refusal: &Refusal) -> Result<String, AllocError>
    ensures { IfOk result (λ text. string_bytes text ≡ refusal_line refusal.now) }
{
    format!(in alloc; "error: {refusal}\n")
}

/// Writes the lines and returns `status`, or the status of a failed write.
fn write_lines<W: Writer>(writer: &mut Stream<W>, lines: &str, status: u8) -> u8
    ensures written { IsSound writer.new
        → Appends (W.contents (inner_of writer.old)) (W.contents (inner_of writer.new)) lines.now
        × (result ≡ status) }
    ensures failed { Fails writer.old writer.new → result ≡ 1 }
{
    match writer.write_all(lines.as_bytes()) {
        Ok(()) => status,
        Err(_) => REFUSED,
    }
}
