//! A host that counts what it is told, and a writer that counts its flushes among its calls.

use rh_shell::Host;
use std::io::{self, ErrorKind};

/// A host that counts what it is told, and takes pictures or not.
#[derive(Drop)]
pub struct Counts {
    /// Whether it takes pictures.
    pub takes: bool,
    /// How many prompts it was asked for.
    pub prompts: u32,
    /// How often the input ended.
    pub ends: u32,
    /// How many pictures it was given that end as one does.
    pub pictures: u32,
}

impl Counts {
    /// A host that was told nothing yet.
    pub fn new(takes: bool) -> Counts {
        Counts {
            takes,
            prompts: 0,
            ends: 0,
            pictures: 0,
        }
    }
}

impl Host for Counts {
    fn prompt(&mut self) {
        self.prompts = self.prompts.wrapping_add(1);
    }

    fn end(&mut self) {
        self.ends = self.ends.wrapping_add(1);
    }

    fn put_picture(&mut self, name: &str, picture: &[u8]) -> bool {
        if name == "heap.svg" && picture.ends_with(b"</svg>\n") {
            self.pictures = self.pictures.wrapping_add(1);
        }
        self.takes
    }
}

/// A writer that keeps what it takes, and fails at its nth call: a write or a flush.
#[derive(Drop)]
pub struct Full {
    /// What it took.
    pub text: Vec<u8>,
    /// How many calls were made.
    pub calls: u32,
    fails_at: u32,
}

impl Full {
    /// A writer that has no bytes; at 0 no call fails.
    pub fn new(rt: &impl AllocGlobal, fails_at: u32) -> Full {
        Full {
            text: Vec::new(rt.alloc()),
            calls: 0,
            fails_at,
        }
    }

    /// Counts a call, and answers whether it is the one that fails.
    fn fails(&mut self) -> bool {
        self.calls = self.calls.wrapping_add(1);
        self.calls == self.fails_at
    }
}

impl io::Write for Full {
    fn write(&mut self, buf: &[u8]) -> io::Result<usize> {
        if self.fails() {
            return Err(io::Error::from(ErrorKind::BrokenPipe));
        }
        self.text.extend_from_slice(buf)?;
        Ok(buf.len())
    }

    fn flush(&mut self) -> io::Result<()> {
        if self.fails() {
            return Err(io::Error::from(ErrorKind::BrokenPipe));
        }
        Ok(())
    }
}
