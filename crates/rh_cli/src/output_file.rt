//! An output file that keeps what it had until there is a text for it.

use std::fs::{File, OpenFile};
use std::io::{self, Write};
use std::rt::Files;

/// A file for a text. What it had is taken away as the first bytes of the text come. So a request
/// that fails before leaves the file as it was.
#[derive(Drop)]
pub(crate) struct OutputFile<F> {
    file: F,
    is_emptied: bool,
}

/// The file of this name, which is made if it isn't there.
pub(crate) fn output_file<R: Files>(rt: &R, name: &str) -> io::Result<OutputFile<R::File>> {
    let mut options = File::options();
    options.write(true).create(true);
    let file = options.open(rt, name)?;
    Ok(OutputFile {
        file,
        is_emptied: false,
    })
}

impl<F: OpenFile> OutputFile<F> {
    /// Takes away what the file had, unless that was done. A device has no length, and is left alone.
    fn empty(&mut self) -> io::Result<()> {
        if !self.is_emptied {
            if 0 < self.file.metadata()?.len() {
                self.file.set_len(0)?;
            }
            self.is_emptied = true;
        }
        Ok(())
    }
}

impl<F: OpenFile + Write> Write for OutputFile<F> {
    fn write(&mut self, buf: &[u8]) -> io::Result<usize> {
        self.empty()?;
        self.file.write(buf)
    }

    fn flush(&mut self) -> io::Result<()> {
        self.file.flush()
    }
}
