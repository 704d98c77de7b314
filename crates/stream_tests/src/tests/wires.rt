//! A reader and a writer that fail once.

use std::alloc::Global;
use std::io;
use std::io::{Error, ErrorKind, Read, Write};

/// A reader of some bytes, a few a call. One of its calls fails.
#[derive(Drop)]
pub struct Source<'a> {
    pub left: &'a [u8],
    pub calls: u64,
    most: usize,
    fails_at: u64,
}

impl<'a> Source<'a> {
    /// The call of this number fails, with 0 none.
    pub fn new(bytes: &'a [u8], most: usize, fails_at: u64) -> Source<'a> {
        Source {
            left: bytes,
            calls: 0,
            most,
            fails_at,
        }
    }
}

impl Read for Source<'_> {
    fn read(&mut self, buf: &mut [u8]) -> io::Result<usize> {
        self.calls = self.calls.saturating_add(1);
        if self.calls == self.fails_at {
            return Err(Error::from(ErrorKind::TimedOut));
        }
        let count = self.left.len().min(buf.len()).min(self.most);
        let (given, left) = self.left.split_at(count);
        buf[..count].copy_from_slice(given);
        self.left = left;
        Ok(count)
    }
}

/// How a write fails.
#[derive(Clone, Copy)]
pub enum Failure {
    Told,
    TakesNothing,
}

/// A writer that keeps its bytes, a few a call. One of its calls fails.
#[derive(Drop)]
pub struct Sink {
    pub taken: Vec<u8>,
    pub calls: u64,
    most: usize,
    fails_at: u64,
    failure: Failure,
}

impl Sink {
    /// No call fails.
    pub fn new(alloc: Global) -> Sink {
        Sink::failing(alloc, usize::MAX, 0, Failure::Told)
    }

    /// The call of this number fails, with 0 none.
    pub fn failing(alloc: Global, most: usize, fails_at: u64, failure: Failure) -> Sink {
        Sink {
            taken: Vec::new(alloc),
            calls: 0,
            most,
            fails_at,
            failure,
        }
    }
}

impl Write for Sink {
    fn write(&mut self, buf: &[u8]) -> io::Result<usize> {
        self.calls = self.calls.saturating_add(1);
        if self.calls == self.fails_at {
            return match self.failure {
                Failure::Told => Err(Error::from(ErrorKind::TimedOut)),
                Failure::TakesNothing => Ok(0),
            };
        }
        let count = buf.len().min(self.most);
        match self.taken.extend_from_slice(&buf[..count]) {
            Ok(()) => Ok(count),
            Err(_) => Err(Error::from(ErrorKind::OutOfMemory)),
        }
    }

    fn flush(&mut self) -> io::Result<()> {
        Ok(())
    }
}
