//! What a test expects. These stand in the place of `assert_eq!`, which would make the proof of a
//! test three times as long.

use std::alloc::{AllocError, Global};
use std::fmt::{Debug, Display};
use std::process::Abort;
use std::sync::Wait;
use std::thread::Threads;

/// The handle of a row of a table, or of one turn of a loop: what fails under it is told with the
/// row's number, from 0, or with the number that the loop counts.
#[derive(Drop)]
pub struct Row<'a, R> {
    pub rt: &'a R,
    pub row: usize,
}

impl<R: AllocGlobal> Alloc for Row<'_, R> {
    type A = Global;

    fn alloc(&self) -> Global {
        self.rt.alloc()
    }
}

impl<R: Wait> Wait for Row<'_, R> {}

impl<R: Threads> Threads for Row<'_, R> {}

impl<R: Abort> Abort for Row<'_, R> {
    fn abort(&self) -> ! {
        self.rt.abort()
    }

    fn exit(&self, code: i32) -> ! {
        self.rt.exit(code)
    }

    fn panic<D: Display + Drop>(&self, message: D) -> ! {
        self.rt.panic(format_args!("row {}: {message}", self.row))
    }
}

/// Ends the test unless the two are equal, and shows both then: left what was got, right what was
/// wanted.
pub fn expect_equal<T: PartialEq + Debug + Drop>(rt: &impl Abort, got: T, wanted: T) {
    assert_eq!(rt; got, wanted);
}

/// Ends the test unless the two are equal, and shows both as texts then.
pub fn expect_bytes(rt: &impl Abort, got: &[u8], wanted: &[u8]) {
    assert!(rt;
        got == wanted,
        "got {} wanted {}",
        got.escape_ascii(),
        wanted.escape_ascii()
    );
}

/// What was made, of the memory that is ample.
pub fn ample<T>(rt: &impl Abort, made: Result<T, AllocError>) -> T {
    made.expect(rt, "memory is ample")
}
