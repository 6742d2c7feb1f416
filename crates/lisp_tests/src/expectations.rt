//! What a test expects. These stand in the place of `assert_eq!`, which would make the proof of a
//! test three times as long.

use std::alloc::Global;
use std::fmt::Display;
use std::process::Abort;

/// The handle of a row of a table, or of one turn of a loop: what fails under it is told with the
/// row's number, from 0, or with the number that the loop counts.
#[derive(Drop)]
pub struct Row<'a, R> {
    pub rt: &'a R,
    pub row: usize,
}

impl<R: AllocGlobal> Alloc for Row<'_, R> {
    type A = Global;

    fn alloc(&self) -> Global {
        self.rt.alloc()
    }
}

impl<R: Abort> Abort for Row<'_, R> {
    fn abort(&self) -> ! {
        self.rt.abort()
    }

    fn exit(&self, code: i32) -> ! {
        self.rt.exit(code)
    }

    fn panic<D: Display + Drop>(&self, message: D) -> ! {
        self.rt.panic(format_args!("row {}: {message}", self.row))
    }
}

/// Ends the test unless the two are equal, and shows both as texts then.
pub fn expect_bytes(rt: &impl Abort, got: &[u8], wanted: &[u8]) {
    assert!(rt;
        got == wanted,
        "got {} wanted {}",
        got.escape_ascii(),
        wanted.escape_ascii()
    );
}
