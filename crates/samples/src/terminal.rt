//! A runtime of the tests' own.

use std::alloc::{Allocator, Global};
use std::cell::RefCell;
use std::env::FillError;
use std::fmt::Display;
use std::fs::{File, Metadata, OpenOptions};
use std::io::{self, BufRead, Empty, ErrorKind, Lines};
use std::rt::{Env, Files};

/// A runtime with these arguments and this standard input. Its standard output keeps what is
/// printed, or is closed. Files are those of the host, which it only opens.
#[derive(Drop)]
pub struct Terminal<'a> {
    pub rt: &'a HostRuntime,
    pub args: &'a [&'a [u8]],
    pub input: &'a [u8],
    pub is_closed: bool,
    pub printed: RefCell<Vec<u8>>,
}

/// What isn't offered here.
fn unsupported() -> io::Error {
    io::Error::from(ErrorKind::Unsupported)
}

impl Alloc for Terminal<'_> {
    type A = Global;

    fn alloc(&self) -> Global {
        self.rt.alloc()
    }
}

impl Print for Terminal<'_> {
    fn print<D: Display + Drop>(&self, _value: D) -> io::Result<()> {
        Err(unsupported())
    }

    fn println<D: Display + Drop>(&self, _value: D) -> io::Result<()> {
        Err(unsupported())
    }

    fn write_all(&self, bytes: &[u8]) -> io::Result<()> {
        if self.is_closed {
            return Err(io::Error::from(ErrorKind::BrokenPipe));
        }
        match self.printed.try_borrow_mut() {
            Ok(mut printed) => {
                printed.extend_from_slice(bytes)?;
                Ok(())
            }
            Err(_) => Err(unsupported()),
        }
    }
}

impl<'a> Input for Terminal<'a> {
    type Reader = &'a [u8];

    fn read_line<A: Allocator + Clone>(&self, _buf: &mut String<A>) -> io::Result<usize> {
        Err(unsupported())
    }

    fn lines<A: Allocator>(&self, alloc: A) -> Lines<&'a [u8], A> {
        self.input.lines(alloc)
    }

    fn reader(&self) -> &'a [u8] {
        self.input
    }
}

impl Env for Terminal<'_> {
    fn arg(&self, i: usize, buf: &mut [u8]) -> Result<usize, FillError> {
        let Some(arg) = self.args.get(i) else {
            return Err(FillError::NotPresent);
        };
        if arg.len() > buf.len() {
            return Err(FillError::TooLong);
        }
        buf[..arg.len()].copy_from_slice(arg);
        Ok(arg.len())
    }

    fn var(&self, _name: &str, _buf: &mut [u8]) -> Result<usize, FillError> {
        Err(FillError::NotPresent)
    }

    fn var_at(&self, _i: usize, _buf: &mut [u8]) -> Result<usize, FillError> {
        Err(FillError::NotPresent)
    }
}

impl Files for Terminal<'_> {
    type File = File;

    type Dir = Empty;

    fn open_file(&self, how: &OpenOptions, path: &str) -> io::Result<File> {
        self.rt.open_file(how, path)
    }

    fn open_dir(&self, _path: &str) -> io::Result<Empty> {
        Err(unsupported())
    }

    fn metadata(&self, _path: &str) -> io::Result<Metadata> {
        Err(unsupported())
    }

    fn symlink_metadata(&self, _path: &str) -> io::Result<Metadata> {
        Err(unsupported())
    }

    fn copy(&self, _from: &str, _to: &str) -> io::Result<u64> {
        Err(unsupported())
    }

    fn rename(&self, _from: &str, _to: &str) -> io::Result<()> {
        Err(unsupported())
    }

    fn remove_file(&self, _path: &str) -> io::Result<()> {
        Err(unsupported())
    }

    fn create_dir(&self, _path: &str) -> io::Result<()> {
        Err(unsupported())
    }

    fn remove_dir(&self, _path: &str) -> io::Result<()> {
        Err(unsupported())
    }

    fn remove_dir_all<B: Allocator>(&self, _alloc: B, _path: &str) -> io::Result<()> {
        Err(unsupported())
    }
}
