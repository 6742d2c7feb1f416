//! Readers and writers that are slow, are interrupted or fail.

use std::io;
use std::io::ErrorKind;

/// A reader that gives one byte a time, is interrupted before each, and fails at its nth read.
#[derive(Drop)]
pub struct SlowReader<'a> {
    rest: &'a [u8],
    reads: u32,
    fails_at: u32,
}

impl<'a> SlowReader<'a> {
    /// A reader of these bytes; at 0 no read fails.
    pub fn new(rest: &'a [u8], fails_at: u32) -> SlowReader<'a> {
        SlowReader {
            rest,
            reads: 0,
            fails_at,
        }
    }
}

impl io::Read for SlowReader<'_> {
    fn read(&mut self, buf: &mut [u8]) -> io::Result<usize> {
        self.reads = self.reads.wrapping_add(1);
        if self.reads == self.fails_at {
            return Err(io::Error::new(ErrorKind::Other, "no more"));
        }
        if self.reads % 2 == 1 {
            return Err(io::Error::from(ErrorKind::Interrupted));
        }
        match (self.rest, buf) {
            ([first, rest @ ..], [place, ..]) => {
                *place = *first;
                self.rest = rest;
                Ok(1)
            }
            _ => Ok(0),
        }
    }
}

/// A reader that is interrupted at each read but its nth, which comes to the end.
#[derive(Drop)]
pub struct InterruptedReader {
    pub reads: u32,
    pub ends_at: u32,
}

impl io::Read for InterruptedReader {
    fn read(&mut self, _buf: &mut [u8]) -> io::Result<usize> {
        self.reads = self.reads.wrapping_add(1);
        if self.reads == self.ends_at {
            return Ok(0);
        }
        Err(io::Error::from(ErrorKind::Interrupted))
    }
}

/// A writer that keeps what it takes: at most `most` bytes of a write. Of two writes each, the
/// first so many are interrupted, and it fails at its nth write.
#[derive(Drop)]
pub struct SlowWriter {
    pub text: Vec<u8>,
    pub writes: u32,
    pub interrupted: u32,
    most: usize,
    fails_at: u32,
}

impl SlowWriter {
    /// A writer that has no bytes and isn't interrupted; at 0 no write fails.
    pub fn new(rt: &impl AllocGlobal, most: usize, fails_at: u32) -> SlowWriter {
        SlowWriter {
            text: Vec::new(rt.alloc()),
            writes: 0,
            interrupted: 0,
            most,
            fails_at,
        }
    }
}

impl io::Write for SlowWriter {
    fn write(&mut self, buf: &[u8]) -> io::Result<usize> {
        let earlier = self.writes % 2;
        self.writes = self.writes.wrapping_add(1);
        if self.writes == self.fails_at {
            return Err(io::Error::new(ErrorKind::Other, "full"));
        }
        if earlier < self.interrupted {
            return Err(io::Error::from(ErrorKind::Interrupted));
        }
        let taken = buf.len().min(self.most);
        self.text.extend_from_slice(&buf[..taken])?;
        Ok(taken)
    }

    fn flush(&mut self) -> io::Result<()> {
        Ok(())
    }
}

/// A reader and a writer that fail at each call.
#[derive(Drop)]
pub struct Broken;

impl io::Read for Broken {
    fn read(&mut self, _buf: &mut [u8]) -> io::Result<usize> {
        Err(io::Error::from(ErrorKind::BrokenPipe))
    }
}

impl io::Write for Broken {
    fn write(&mut self, _buf: &[u8]) -> io::Result<usize> {
        Err(io::Error::from(ErrorKind::BrokenPipe))
    }

    fn flush(&mut self) -> io::Result<()> {
        Err(io::Error::from(ErrorKind::BrokenPipe))
    }
}

/// A writer that takes all bytes and fails at the flush.
#[derive(Drop)]
pub struct Unflushed;

impl io::Write for Unflushed {
    fn write(&mut self, buf: &[u8]) -> io::Result<usize> {
        Ok(buf.len())
    }

    fn flush(&mut self) -> io::Result<()> {
        Err(io::Error::from(ErrorKind::BrokenPipe))
    }
}
