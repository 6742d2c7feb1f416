//! The host of a session: it prompts for a line, and shows what belongs beside the answers.

use rh_shell::Host;
use std::fs;
use std::io::Write;
use std::rt::Files;

/// A host that shows no prompt, and has no file for a picture.
#[derive(Clone, Copy)]
pub(crate) struct Alone;

impl Host for Alone {
    fn prompt(&mut self) {}

    fn end(&mut self) {}

    fn put_picture(&mut self, _name: &str, _picture: &[u8]) -> bool {
        false
    }
}

/// A host with files, whose prompt stands on standard error where it is asked for.
#[derive(Drop)]
pub(crate) struct Prompter<'a, R, E> {
    /// What has files.
    pub rt: &'a R,
    /// Standard error.
    pub err: &'a mut E,
    /// Whether a prompt is shown.
    pub prompts: bool,
    /// Whether it is shown where an entry stopped.
    pub explains: bool,
}

impl<R: Files, E: Write> Prompter<'_, R, E> {
    /// Shows a text where a prompt is asked for. What can't be shown is left out.
    pub(crate) fn show(&mut self, text: &[u8]) {
        if self.prompts {
            let _ = self.err.write_all(text);
            let _ = self.err.flush();
        }
    }
}

impl<R: Files, E: Write> Host for Prompter<'_, R, E> {
    fn prompt(&mut self) {
        self.show(b"> ");
    }

    fn end(&mut self) {
        self.show(b"\n");
    }

    fn put_picture(&mut self, name: &str, picture: &[u8]) -> bool {
        fs::write(self.rt, name, picture).is_ok()
    }
}
