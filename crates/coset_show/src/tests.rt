//! Tests of the program in memory: the rows of `rows.rt`, and rows that are made here.

use crate::rows::ROWS;
use crate::run::run;
use crate::stream::Stream;
use std::alloc::{AllocError, Global};
use std::process::Abort;
use std::test::Fail;

/// A kind, an input, its output, and the exit status.
#[derive(Drop)]
pub(crate) struct Row {
    pub(crate) kind: String,
    pub(crate) input: String,
    pub(crate) lines: String,
    pub(crate) status: u8,
}

/// Returns the text of a row's field: `\n` is a line feed, `\t` a tab, `\r` a carriage return, `\\`
/// a backslash.
fn unescaped(alloc: Global, field: &str) -> Result<String, AllocError> {
    let mut text = String::new(alloc);
    let mut escapes = false;
    for letter in field.chars() {
        if !escapes && letter == '\\' {
            escapes = true;
            continue;
        }
        let spelled = match letter {
            'n' if escapes => '\n',
            't' if escapes => '\t',
            'r' if escapes => '\r',
            other => other,
        };
        text.push(spelled)?;
        escapes = false;
    }
    Ok(text)
}

/// Returns the row of a line, or `None` if the line is empty or begins with `#`.
fn row_of(rt: &impl Abort, alloc: Global, line: &str) -> Result<Option<Row>, AllocError> {
    if line.is_empty() || line.starts_with('#') {
        return Ok(None);
    }
    let mut fields = line.split(" | ");
    let (Some(kind), Some(status), Some(input), Some(lines), None) = (
        fields.next(),
        fields.next(),
        fields.next(),
        fields.next(),
        fields.next(),
    ) else {
        panic!(rt; "a row has four fields: {line}");
    };
    let status = match status {
        "0" => 0,
        "1" => 1,
        _ => panic!(rt; "a status is 0 or 1: {line}"),
    };
    Ok(Some(Row {
        kind: String::from_str(alloc, kind)?,
        input: unescaped(alloc, input)?,
        lines: unescaped(alloc, lines)?,
        status,
    }))
}

/// Returns the rows of [`ROWS`].
pub(crate) fn rows(rt: &impl Abort, alloc: Global) -> Result<Vec<Row>, AllocError> {
    let mut rows = Vec::new(alloc);
    for line in ROWS.split('\n') {
        if let Some(row) = row_of(rt, alloc, line)? {
            rows.push(row)?;
        }
    }
    Ok(rows)
}

/// Returns the output for the input, and the exit status.
fn shown(alloc: Global, kind: &str, input: &[u8]) -> (Vec<u8>, u8) {
    let mut reader = Stream::new(input);
    let mut writer = Stream::new(Vec::new(alloc));
    let status = run(alloc, kind, &mut reader, &mut writer);
    (writer.into_inner(), status)
}

/// Asserts the output for the input, and the exit status.
fn assert_shown(rt: &impl Abort, alloc: Global, kind: &str, input: &str, lines: &str, status: u8) {
    let (written, answer) = shown(alloc, kind, input.as_bytes());
    assert_eq!(rt; written.as_slice(), lines.as_bytes(), "{kind} {input}");
    assert_eq!(rt; answer, status, "{kind} {input}");
}

#[test]
fn shows_each_row(rt: HostRuntime) -> Result<(), Fail> {
    let rows = rows(&rt, rt.alloc())?;
    assert!(rt; rows.len() > 150);
    for row in &rows {
        let (kind, input, lines) = (row.kind.as_str(), row.input.as_str(), row.lines.as_str());
        assert_shown(&rt, rt.alloc(), kind, input, lines, row.status);
    }
    Ok(())
}

/// A text and how often it is repeated.
type Run<'a> = (&'a str, usize);

/// Concatenates the repeated texts.
fn repeated(alloc: Global, runs: &[Run<'_>]) -> Result<String, AllocError> {
    let mut text = String::new(alloc);
    for (part, times) in runs {
        for _ in 0..*times {
            text.push_str(part)?;
        }
    }
    Ok(text)
}

/// 256 levels are read, and one more is refused. An array or a map is a level even if it is empty,
/// and so is a tag.
#[test]
fn reads_256_levels(rt: HostRuntime) -> Result<(), Fail> {
    let alloc = rt.alloc();
    let read: [([Run<'_>; 2], [Run<'_>; 2]); 5] = [
        ([("9f", 256), ("ff", 256)], [("81", 255), ("80\n", 1)]),
        ([("81", 255), ("80", 1)], [("81", 255), ("80\n", 1)]),
        ([("c1", 255), ("80", 1)], [("c1", 255), ("80\n", 1)]),
        ([("a100", 255), ("80", 1)], [("a100", 255), ("80\n", 1)]),
        ([("c1", 256), ("00", 1)], [("c1", 256), ("00\n", 1)]),
    ];
    for (input, lines) in &read {
        let (input, lines) = (repeated(alloc, input)?, repeated(alloc, lines)?);
        assert_shown(&rt, alloc, "value", input.as_str(), lines.as_str(), 0);
    }
    let refused: [[Run<'_>; 2]; 5] = [
        [("9f", 257), ("ff", 257)],
        [("81", 256), ("80", 1)],
        [("c1", 256), ("80", 1)],
        [("a100", 256), ("80", 1)],
        [("c1", 257), ("00", 1)],
    ];
    let line = "error: decode CBOR failure: RecursionLimitExceeded\n";
    for input in &refused {
        assert_shown(
            &rt,
            alloc,
            "value",
            repeated(alloc, input)?.as_str(),
            line,
            1,
        );
    }
    Ok(())
}

/// Returns two encodings in hexadecimal of a string of `length` letters `a`. The first has the
/// shortest head, and the second an argument of eight bytes. `major` is the major type's share of
/// the initial byte.
fn spellings(alloc: Global, major: usize, length: usize) -> Result<(String, String), AllocError> {
    let content = repeated(alloc, &[("61", length)])?;
    let head = if length < 24 {
        format!(in alloc; "{:02x}", major.saturating_add(length))?
    } else if length < 256 {
        format!(in alloc; "{:02x}{length:02x}", major.saturating_add(24))?
    } else if length < 65_536 {
        format!(in alloc; "{:02x}{length:04x}", major.saturating_add(25))?
    } else {
        format!(in alloc; "{:02x}{length:08x}", major.saturating_add(26))?
    };
    let long = format!(in alloc; "{:02x}{length:016x}{content}", major.saturating_add(27))?;
    Ok((format!(in alloc; "{head}{content}")?, long))
}

/// Strings of many lengths, with the shortest head, with an argument of eight bytes, and in one
/// chunk. The long ones take several reads.
#[test]
fn shows_strings(rt: HostRuntime) -> Result<(), Fail> {
    let alloc = rt.alloc();
    for (major, opening) in [(0x40usize, "5f"), (0x60, "7f")] {
        for length in (0..=300usize).chain([65_535, 65_536]) {
            let (short, long) = spellings(alloc, major, length)?;
            let chunk = format!(in alloc; "{opening}{short}ff")?;
            let line = format!(in alloc; "{short}\n")?;
            for input in [short.as_str(), long.as_str(), chunk.as_str()] {
                assert_shown(&rt, alloc, "value", input, line.as_str(), 0);
            }
        }
    }
    Ok(())
}

/// Returns the shortest encoding of a byte string of fewer than 256 bytes. `content` and the result
/// are in hexadecimal.
fn byte_string(alloc: Global, content: &str) -> Result<String, AllocError> {
    let length = content.len() / 2;
    if length < 24 {
        format!(in alloc; "{:02x}{content}", length.saturating_add(0x40))
    } else {
        format!(in alloc; "58{length:02x}{content}")
    }
}

/// Returns nested byte strings of protected headers. Each one except the innermost has a counter
/// signature (RFC 8152, section 4.5).
fn nested(alloc: Global, strings: usize) -> Result<String, AllocError> {
    let mut string = byte_string(alloc, "")?;
    for _ in 1..strings {
        let content = format!(in alloc; "a10783{string}a040")?;
        string = byte_string(alloc, content.as_str())?;
    }
    Ok(string)
}

/// 16 nested protected headers are read, and 17 are refused.
#[test]
fn reads_16_protected_headers(rt: HostRuntime) -> Result<(), Fail> {
    let alloc = rt.alloc();
    let string = nested(alloc, 16)?;
    let input = format!(in alloc; "84{string}a0f640")?;
    assert_eq!(rt; input.len(), 2 * 107);
    let lines = format!(in alloc; "{input}\ntbs 846a5369676e617475726531{string}4040\n")?;
    assert_shown(&rt, alloc, "sign1", input.as_str(), lines.as_str(), 0);
    let string = nested(alloc, 17)?;
    let input = format!(in alloc; "84{string}a0f640")?;
    assert_eq!(rt; input.len(), 2 * 114);
    let line = "error: decode CBOR failure: RecursionLimitExceeded\n";
    assert_shown(&rt, alloc, "sign1", input.as_str(), line, 1);
    Ok(())
}
