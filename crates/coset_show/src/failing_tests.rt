//! Tests of the program with readers and writers that fail at one call, or from one call on.

ghost use Rattle.std.specs.Prelude.{false};

use crate::io_traits::{Reader, Writer};
use crate::run::run;
use crate::stream::Stream;
use crate::tests::{Row, rows};
use std::alloc::Global;
use std::io;
use std::io::{ErrorKind, Read, Write};
use std::process::Abort;
use std::test::Fail;

/// The calls that fail, counted from 0, and their error.
#[derive(Clone, Copy, Debug)]
struct Failing {
    /// The first call that fails.
    first: usize,
    /// True if no other call fails.
    recovers: bool,
    /// The error, or `None` if a write takes nothing.
    fault: Option<ErrorKind>,
}

/// Counts calls, and decides which of them fail.
#[derive(Debug, Drop)]
struct Calls {
    made: usize,
    failing: Failing,
}

impl Calls {
    /// Counts a call, and returns true if it fails.
    fn fails(&mut self) -> bool {
        let call = self.made;
        self.made = call.saturating_add(1);
        if self.failing.recovers {
            call == self.failing.first
        } else {
            self.failing.first <= call
        }
    }
}

/// A reader of bytes, in parts of at most `size`.
#[derive(Drop)]
struct FailRead<'a> {
    rest: &'a [u8],
    size: usize,
    calls: Calls,
}

impl Read for FailRead<'_> {
    fn read(&mut self, buffer: &mut [u8]) -> io::Result<usize> {
        if self.calls.fails() {
            return match self.calls.failing.fault {
                Some(kind) => Err(io::Error::from(kind)),
                None => Ok(0),
            };
        }
        let count = self.size.min(self.rest.len()).min(buffer.len());
        let (part, rest) = self.rest.split_at(count);
        buffer[..count].copy_from_slice(part);
        self.rest = rest;
        Ok(count)
    }
}

impl Reader for FailRead<'_> {
    ghost never_fails = { false };

    fn read_once(&mut self, buffer: &mut [u8]) -> io::Result<usize> {
        self.read(buffer)
    }
}

/// A writer that takes one byte at a time.
#[derive(Drop)]
struct FailWrite {
    taken: Vec<u8>,
    calls: Calls,
}

impl Write for FailWrite {
    fn write(&mut self, buffer: &[u8]) -> io::Result<usize> {
        if self.calls.fails() {
            return match self.calls.failing.fault {
                Some(kind) => Err(io::Error::from(kind)),
                None => Ok(0),
            };
        }
        match buffer.first() {
            Some(first) => {
                self.taken.push(*first)?;
                Ok(1)
            }
            None => Ok(0),
        }
    }

    fn flush(&mut self) -> io::Result<()> {
        let fails = self.calls.fails();
        match self.calls.failing.fault {
            Some(kind) if fails => Err(io::Error::from(kind)),
            _ => Ok(()),
        }
    }
}

impl Writer for FailWrite {
    ghost never_fails = { false };

    fn put(&mut self, bytes: &[u8]) -> io::Result<()> {
        self.write_all(bytes)?;
        self.flush()
    }
}

/// Asserts the output and the exit status if calls of the reader fail. Returns true if no call
/// failed.
fn reads_to_the_end(
    rt: &impl Abort,
    alloc: Global,
    row: &Row,
    size: usize,
    failing: Failing,
) -> bool {
    let mut reader = Stream::new(FailRead {
        rest: row.input.as_str().as_bytes(),
        size,
        calls: Calls { made: 0, failing },
    });
    let mut writer = Stream::new(Vec::new(alloc));
    let status = run(alloc, row.kind.as_str(), &mut reader, &mut writer);
    let written: Vec<u8> = writer.into_inner();
    let ends = reader.into_inner().calls.made <= failing.first;
    let (lines, wanted) = if ends || failing.fault == Some(ErrorKind::Interrupted) {
        (row.lines.as_str(), row.status)
    } else {
        ("error: input cannot be read\n", 1)
    };
    assert_eq!(rt;
        written.as_slice(),
        lines.as_bytes(),
        "{} {failing:?}",
        row.input
    );
    assert_eq!(rt; status, wanted, "{} {failing:?}", row.input);
    ends
}

/// Each read fails in turn, alone or with all later ones. The output says so, and the status is 1.
///
/// An interrupted read is repeated. The input comes in one part, in several, and byte by byte.
#[test]
fn says_that_a_read_failed(rt: HostRuntime) -> Result<(), Fail> {
    let alloc = rt.alloc();
    let rows = rows(&rt, alloc)?;
    for (fault, recovers) in [
        (ErrorKind::Other, true),
        (ErrorKind::Other, false),
        (ErrorKind::OutOfMemory, true),
        (ErrorKind::UnexpectedEof, true),
        (ErrorKind::Interrupted, true),
    ] {
        let fault = Some(fault);
        for row in &rows {
            for size in [1usize, 7, 4096] {
                // There is a call for each part, and one more at the end.
                for first in 0..row.input.len().saturating_add(3) {
                    let failing = Failing {
                        first,
                        recovers,
                        fault,
                    };
                    if reads_to_the_end(&rt, alloc, row, size, failing) {
                        break;
                    }
                }
            }
        }
    }
    Ok(())
}

/// Asserts the output and the exit status if calls of the writer fail. Returns true if no call
/// failed.
fn writes_to_the_end(rt: &impl Abort, alloc: Global, row: &Row, failing: Failing) -> bool {
    let mut reader = Stream::new(row.input.as_str().as_bytes());
    let mut writer = Stream::new(FailWrite {
        taken: Vec::new(alloc),
        calls: Calls { made: 0, failing },
    });
    let status = run(alloc, row.kind.as_str(), &mut reader, &mut writer);
    let writer = writer.into_inner();
    let lines = row.lines.as_str().as_bytes();
    let ends = writer.calls.made <= failing.first;
    // There is a write for each byte, and then a flush.
    let is_made_again = failing.fault == Some(ErrorKind::Interrupted)
        && failing.first < lines.len();
    if ends || is_made_again {
        assert_eq!(rt; writer.taken.as_slice(), lines, "{} {failing:?}", row.input);
        assert_eq!(rt; status, row.status, "{} {failing:?}", row.input);
    } else {
        let (front, _) = lines.split_at(failing.first.min(lines.len()));
        assert_eq!(rt; writer.taken.as_slice(), front, "{} {failing:?}", row.input);
        assert_eq!(rt; status, 1, "{} {failing:?}", row.input);
    }
    ends
}

/// Each write fails in turn, alone or with all later ones. The status is 1. An interrupted write is
/// repeated.
#[test]
fn says_that_a_write_failed(rt: HostRuntime) -> Result<(), Fail> {
    let alloc = rt.alloc();
    let mut rows = rows(&rt, alloc)?;
    rows.push(Row {
        kind: String::new(alloc),
        input: String::from_str(alloc, "80")?,
        lines: String::from_str(alloc, "usage: coset_show KIND\n")?,
        status: 2,
    })?;
    for (fault, recovers) in [
        (Some(ErrorKind::Other), true),
        (Some(ErrorKind::Other), false),
        (Some(ErrorKind::Interrupted), true),
    ] {
        for row in &rows {
            for first in 0..row.lines.len().saturating_add(2) {
                let failing = Failing {
                    first,
                    recovers,
                    fault,
                };
                if writes_to_the_end(&rt, alloc, row, failing) {
                    break;
                }
            }
        }
    }
    Ok(())
}

/// If a write takes nothing before the end, the status is 1.
#[test]
fn says_that_a_write_took_nothing(rt: HostRuntime) -> Result<(), Fail> {
    let alloc = rt.alloc();
    for row in &rows(&rt, alloc)? {
        for first in 0..row.lines.len() {
            let failing = Failing {
                first,
                recovers: true,
                fault: None,
            };
            writes_to_the_end(&rt, alloc, row, failing);
        }
    }
    Ok(())
}

/// For an unknown kind, the usage line is written, the status is 2, and nothing is read.
#[test]
fn reads_nothing_for_an_unknown_kind(rt: HostRuntime) -> Result<(), Fail> {
    let alloc = rt.alloc();
    for kind in [
        "",
        "VALUE",
        "value ",
        " value",
        "valu",
        "sign1 ",
        "sign2",
        "mac1",
        "encrypt00",
        "signature",
    ] {
        let failing = Failing {
            first: usize::MAX,
            recovers: false,
            fault: None,
        };
        let mut reader = Stream::new(FailRead {
            rest: b"80",
            size: 1,
            calls: Calls { made: 0, failing },
        });
        let mut writer = Stream::new(Vec::new(alloc));
        let status = run(alloc, kind, &mut reader, &mut writer);
        let written: Vec<u8> = writer.into_inner();
        assert_eq!(rt; written.as_slice(), b"usage: coset_show KIND\n".as_slice());
        assert_eq!(rt; status, 2);
        assert_eq!(rt; reader.into_inner().calls.made, 0);
    }
    Ok(())
}
