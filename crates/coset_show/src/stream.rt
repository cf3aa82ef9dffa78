//! Readers and writers that remember whether a call failed.

ghost use Rattle.std.specs.Prelude.{◌≡◌, ◌≢◌, true, IsTrue, IsOk, IfErr, OnOk, OnErr};
ghost use Rattle.std.specs.Io.{ReadsAtMost};
ghost use Rattle.std.specs.Io.KnownBytes.{Appends, ReadConsumes};
ghost use Rattle.std.specs.IoError.{error_kind};
ghost use Rattle.coset_show.specs.Stream.{inner_of, has_failed, IsSound};

use crate::io_traits::{Reader, Writer};
use std::io;
use std::io::ErrorKind;

/// A reader or a writer, and whether one of its calls has failed. An interrupted read doesn't
/// count, because it can be repeated.
#[derive(Drop)]
pub struct Stream<T> {
    inner: T,
    failed: bool,
}

impl<T> Stream<T> {
    /// Wraps a reader or a writer. No call has failed yet.
    pub fn new(inner: T) -> Stream<T>
        ensures inner { inner_of result ≡ inner }
        ensures sound { IsSound result }
    {
        Stream {
            inner,
            failed: false,
        }
    }

    /// Returns the reader or the writer.
    #[cfg(test)]
    pub fn into_inner(self) -> T
        ensures { result ≡ inner_of self }
    {
        self.inner
    }
}

impl<R: Reader> Stream<R> {
    /// Reads once into the buffer, and returns the number of bytes: 0 at the end of the input.
    ///
    /// # Errors
    /// The errors of the reader.
    pub fn read(&mut self, buffer: &mut [u8]) -> io::Result<usize>
        ensures bound { ReadsAtMost result buffer.new }
        ensures bytes { ReadConsumes (R.remaining (inner_of self.old))
            (R.remaining (inner_of self.new))
            result buffer.new }
        ensures ok { OnOk result (has_failed self.new ≡ has_failed self.old) }
        ensures interrupted { IfErr result (λ e. error_kind e ≡ ErrorKind.Interrupted
            → has_failed self.new ≡ has_failed self.old) }
        ensures failed { IfErr result (λ e. error_kind e ≢ ErrorKind.Interrupted
            → has_failed self.new ≡ true) }
        ensures sure { IsTrue R.never_fails → IsOk result }
    {
        let read = self.inner.read_once(buffer);
        if let Err(error) = &read {
            if error.kind() != ErrorKind::Interrupted {
                self.failed = true;
            }
        }
        read
    }
}

impl<W: Writer> Stream<W> {
    /// Writes all of the bytes, and flushes them.
    ///
    /// # Errors
    /// The errors of the writer. It may have taken some of the bytes by then.
    pub fn write_all(&mut self, bytes: &[u8]) -> io::Result<()>
        ensures bytes { OnOk result
            (Appends (W.contents (inner_of self.old)) (W.contents (inner_of self.new)) bytes.now) }
        ensures ok { OnOk result (has_failed self.new ≡ has_failed self.old) }
        ensures failed { OnErr result (has_failed self.new ≡ true) }
        ensures sure { IsTrue W.never_fails
            → IfErr result (λ e. error_kind e ≡ ErrorKind.OutOfMemory) }
    {
        let written = self.inner.put(bytes);
        if written.is_err() {
            self.failed = true;
        }
        written
    }
}
