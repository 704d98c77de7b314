//! Readers and writers that count their calls.

ghost use Rattle.std.specs.Prelude.{◌≡◌, length, OnOk, OnErr};
ghost use Rattle.std.specs.Io.{ReadsAtMost, WritesAtMost};
ghost use Rattle.std.specs.Io.KnownBytes.{ReadConsumes, WriteAppends, Keeps};
ghost use Rattle.desk_types.specs.Wire.{CountsFailure, inner_of, reads_of, failures_of, one_more};

use std::io;
use std::io::{Read, Write};

/// A reader or writer that counts its reads and failures.
///
/// A failure is an error, or a write of a non-empty piece that takes nothing. Counts start at 0 and
/// stay at the greatest `u64`. Bytes pass through unchanged.
#[derive(Drop)]
pub struct Wire<T> {
    inner: T,
    reads: u64,
    failures: u64,
}

impl<T> Wire<T> {
    /// Wraps a reader or writer.
    pub fn new(inner: T) -> Wire<T>
        ensures inner { inner_of result ≡ inner }
        ensures reads { reads_of result ≡ 0 }
        ensures failures { failures_of result ≡ 0 }
    {
        Wire {
            inner,
            reads: 0,
            failures: 0,
        }
    }

    /// Returns the wrapped reader or writer.
    pub fn into_inner(self) -> T
        ensures { result ≡ inner_of self }
    {
        let Wire {
            inner,
            reads: _,
            failures: _,
        } = self;
        inner
    }

    /// Returns the number of reads.
    pub fn reads(&self) -> u64
        ensures { result ≡ reads_of self.now }
    {
        self.reads
    }

    /// Returns the number of failures.
    pub fn failures(&self) -> u64
        ensures { result ≡ failures_of self.now }
    {
        self.failures
    }
}

/// Returns the count plus one, at most the greatest `u64`.
fn one_more(count: u64) -> u64
    ensures { result ≡ one_more count }
{
    count.saturating_add(1)
}

impl<T: Read> Read for Wire<T> {
    ghost remaining = { λ wire. T.remaining (inner_of wire) };

    fn read(&mut self, buf: &mut [u8]) -> io::Result<usize>
        ensures bound { ReadsAtMost result buf.new }
        ensures bytes { ReadConsumes (T.remaining (inner_of self.old))
            (T.remaining (inner_of self.new)) result buf.new }
        ensures reads { reads_of self.new ≡ one_more (reads_of self.old) }
        ensures kept { OnOk result (failures_of self.new ≡ failures_of self.old) }
        ensures failed { OnErr result (failures_of self.new ≡ one_more (failures_of self.old)) }
    {
        self.reads = one_more(self.reads);
        match self.inner.read(buf) {
            Ok(count) => Ok(count),
            Err(error) => {
                self.failures = one_more(self.failures);
                Err(error)
            }
        }
    }
}

impl<T: Write> Write for Wire<T> {
    ghost contents = { λ wire. T.contents (inner_of wire) };

    fn write(&mut self, buf: &[u8]) -> io::Result<usize>
        ensures bound { WritesAtMost result buf.now }
        ensures bytes { WriteAppends (T.contents (inner_of self.old))
            (T.contents (inner_of self.new)) result buf.now }
        ensures reads { reads_of self.new ≡ reads_of self.old }
        ensures failures { CountsFailure result (length buf.now) self.old self.new }
    {
        match self.inner.write(buf) {
            Ok(0) if !buf.is_empty() => {
                self.failures = one_more(self.failures);
                Ok(0)
            }
            Ok(count) => Ok(count),
            Err(error) => {
                self.failures = one_more(self.failures);
                Err(error)
            }
        }
    }

    fn flush(&mut self) -> io::Result<()>
        ensures bytes { Keeps (T.contents (inner_of self.old)) (T.contents (inner_of self.new)) }
        ensures reads { reads_of self.new ≡ reads_of self.old }
        ensures failures { failures_of self.new ≡ failures_of self.old }
    {
        self.inner.flush()
    }
}
