//! Each line of the input is a text in any spelling, with `\n`, `\r`, `\t`, `\\` and `\xHH` for
//! other bytes. Its line of output is the spelling and the bytes in hexadecimal. For a fault it is
//! the line, the column, the spelling, the reason and the character. The content follows, if it is
//! known and no CBOR. Lines that begin with `# ` are headings, and stay.
#![tactic(auto)]

use std::alloc::{AllocError, Global};
use std::io::{self, BufRead, BufReader};
use tool_spelled::{Content, Reading, Unread, Why, content_of_bytes, content_of_text, read_input};

/// Returns the byte of an escape without its backslash, and the text after it.
fn escape(text: &[u8]) -> Option<(u8, &[u8])> {
    match text {
        [b'n', rest @ ..] => Some((b'\n', rest)),
        [b'r', rest @ ..] => Some((b'\r', rest)),
        [b't', rest @ ..] => Some((b'\t', rest)),
        [b'\\', rest @ ..] => Some((b'\\', rest)),
        [b'x', high, low, rest @ ..] => {
            let high = char::from(*high).to_digit(16)?;
            let low = char::from(*low).to_digit(16)?;
            Some((u8::try_from(high * 16 + low).ok()?, rest))
        }
        _ => None,
    }
}

/// Returns the bytes of a line, or `None` if an escape isn't known.
fn bytes_of(alloc: Global, line: &[u8]) -> Result<Option<Vec<u8>>, AllocError> {
    let mut bytes = Vec::new(alloc);
    let mut left = line;
    for _ in 0..line.len() {
        let [first, rest @ ..] = left else {
            break;
        };
        let piece = if *first == b'\\' {
            escape(rest)
        } else {
            Some((*first, rest))
        };
        let Some((byte, behind)) = piece else {
            return Ok(None);
        };
        bytes.push(byte)?;
        left = behind;
    }
    Ok(Some(bytes))
}

/// Writes what a text or bytes are, if that is known.
fn print_content(rt: &HostRuntime, content: Option<Content>) -> io::Result<()> {
    match content {
        Some(content) => println!(rt; " {content:?}"),
        None => println!(rt),
    }
}

/// Writes the bytes of an input.
fn print_reading(rt: &HostRuntime, reading: &Reading) -> io::Result<()> {
    let digits = hex::encode(rt.alloc(), reading.bytes.as_slice())?;
    let spelling = reading.spelling;
    print!(rt; "{spelling:?} {digits}")?;
    print_content(rt, content_of_bytes(&reading.bytes))
}

/// Writes the fault of an input.
fn print_unread(rt: &HostRuntime, unread: &Unread, input: &[u8]) -> io::Result<()> {
    let Unread {
        spelling,
        why,
        line,
        column,
        character,
        ..
    } = *unread;
    let content = if why == Why::Digit {
        content_of_text(input)
    } else {
        None
    };
    print!(rt; "{line}:{column} {spelling:?} {why:?}")?;
    match character {
        Some(character) => print!(rt; " U+{:04X}", u32::from(character))?,
        None => print!(rt; " end")?,
    }
    print_content(rt, content)
}

/// Writes the answer to a line.
fn answer(rt: &HostRuntime, line: &str) -> io::Result<()> {
    if line.starts_with("# ") {
        return println!(rt; "{line}");
    }
    let Some(input) = bytes_of(rt.alloc(), line.as_bytes())? else {
        return println!(rt; "this line has an unknown escape");
    };
    match read_input(rt.alloc(), &input)? {
        Ok(reading) => print_reading(rt, &reading),
        Err(unread) => print_unread(rt, &unread, &input),
    }
}

fn main(rt: HostRuntime) -> io::Result<()> {
    let alloc = rt.alloc();
    let reader = BufReader::new(alloc, rt.reader())?;
    for line in reader.lines(alloc) {
        answer(&rt, line?.as_str())?;
    }
    Ok(())
}
