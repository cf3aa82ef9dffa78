//! The program's reader and writer, and whether they are known not to fail. Standard input and
//! output may fail. Bytes in memory fail only if an allocation fails. The code is the same for
//! both.

ghost use Rattle.std.specs.Prelude.{◌≡◌, Bool, true, false, IsTrue, IsOk, IfErr, OnOk};
ghost use Rattle.std.specs.Io.{ReadsAtMost};
ghost use Rattle.std.specs.Io.KnownBytes.{Appends, ReadConsumes};
ghost use Rattle.std.specs.IoError.{error_kind};

use std::io;
use std::io::{ErrorKind, Read, Stdin, Stdout, Write};

/// A source of input bytes.
pub trait Reader: Read {
    /// True if no read can fail.
    ghost never_fails: { Bool };

    /// Reads once into the buffer, and returns the number of bytes: 0 at the end of the input.
    ///
    /// # Errors
    /// The errors of the reader.
    fn read_once(&mut self, buffer: &mut [u8]) -> io::Result<usize>
        ensures bound { ReadsAtMost result buffer.new }
        ensures bytes { ReadConsumes (Self.remaining self.old) (Self.remaining self.new) result
            buffer.new }
        ensures sure { IsTrue never_fails → IsOk result };
}

/// Bytes in memory.
impl Reader for &[u8] {
    ghost never_fails = { true };

    fn read_once(&mut self, buffer: &mut [u8]) -> io::Result<usize> {
        self.read(buffer)
    }
}

impl Reader for Stdin {
    ghost never_fails = { false };

    fn read_once(&mut self, buffer: &mut [u8]) -> io::Result<usize> {
        self.read(buffer)
    }
}

/// A destination of output bytes.
pub trait Writer: Write {
    /// True if no write can fail, except when an allocation fails.
    ghost never_fails: { Bool };

    /// Writes all of the bytes, and flushes them.
    ///
    /// # Errors
    /// The errors of the writer. It may have taken some of the bytes by then.
    fn put(&mut self, bytes: &[u8]) -> io::Result<()>
        ensures bytes { OnOk result
            (Appends (Self.contents self.old) (Self.contents self.new) bytes.now) }
        ensures sure { IsTrue never_fails
            → IfErr result (λ e. error_kind e ≡ ErrorKind.OutOfMemory) };
}

/// Bytes in memory.
impl Writer for Vec<u8> {
    ghost never_fails = { true };

    fn put(&mut self, bytes: &[u8]) -> io::Result<()> {
        self.write(bytes)?;
        Ok(())
    }
}

impl Writer for Stdout {
    ghost never_fails = { false };

    fn put(&mut self, bytes: &[u8]) -> io::Result<()> {
        self.write_all(bytes)?;
        self.flush()
    }
}
