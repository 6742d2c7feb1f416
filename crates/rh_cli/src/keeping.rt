//! A reader that keeps what it gives, so that a fault can be explained by it.

ghost use Rattle.std.specs.Prelude.{◌≡◌, []};

use std::alloc::Allocator;
use std::io::{self, Read};

/// A reader that keeps a copy of the bytes that it gives, as long as memory isn't refused for them.
#[derive(Drop)]
pub struct KeptReader<R, A: Allocator> {
    reader: R,
    kept: Vec<u8, A>,
    is_whole: bool,
}

impl<R, A: Allocator> KeptReader<R, A> {
    /// A reader that gives the bytes of another, and has kept none.
    pub fn new(alloc: A, reader: R) -> KeptReader<R, A>
        ensures { result.reader ≡ reader }
    {
        KeptReader {
            reader,
            kept: Vec::new(alloc),
            is_whole: true,
        }
    }

    /// A reader that gives the bytes of another, and keeps none.
    pub fn passing(alloc: A, reader: R) -> KeptReader<R, A>
        ensures { result.reader ≡ reader }
    {
        KeptReader {
            reader,
            kept: Vec::new(alloc),
            is_whole: false,
        }
    }

    /// All bytes that it gave, or none where it keeps none, or where memory was refused for them.
    pub fn kept(&self) -> Option<&[u8]> {
        if self.is_whole {
            Some(self.kept.as_slice())
        } else {
            None
        }
    }

    /// Keeps bytes.
    fn keep(&mut self, bytes: &[u8])
        ensures { self.new.reader ≡ self.old.reader }
    {
        if self.is_whole {
            self.is_whole = self.kept.extend_from_slice(bytes).is_ok();
        }
    }
}

impl<R: Read, A: Allocator> Read for KeptReader<R, A> {
    ghost remaining = { λ kept. R.remaining kept.reader };

    fn read(&mut self, buf: &mut [u8]) -> io::Result<usize> {
        let count = self.reader.read(buf)?;
        self.keep(&buf[..count]);
        Ok(count)
    }
}
