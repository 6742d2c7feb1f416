//! What a test expects. What ends a test here stands in the place of `assert_eq!`, which would make
//! the proof of a test three times as long.

use std::alloc::Global;
use std::fmt::{Debug, Display};
use std::process::Abort;

/// The handle of a row of a table, or of one turn of a loop: what fails under it is told with the
/// row's number, from 0, or with the number that the loop counts.
#[derive(Drop)]
pub struct Row<'a, R> {
    pub rt: &'a R,
    pub row: usize,
}

impl<R: AllocGlobal> Alloc for Row<'_, R> {
    type A = Global;

    fn alloc(&self) -> Global {
        self.rt.alloc()
    }
}

impl<R: Abort> Abort for Row<'_, R> {
    fn abort(&self) -> ! {
        self.rt.abort()
    }

    fn exit(&self, code: i32) -> ! {
        self.rt.exit(code)
    }

    fn panic<D: Display + Drop>(&self, message: D) -> ! {
        self.rt.panic(format_args!("row {}: {message}", self.row))
    }
}

/// Ends the test unless the two are equal, and shows both then: left what was got, right what was
/// wanted.
pub fn expect_equal<T: PartialEq + Debug + Drop>(rt: &impl Abort, got: T, wanted: T) {
    assert_eq!(rt; got, wanted);
}

/// Ends the test unless so many allocations or more were refused in turn.
pub fn expect_refusals(rt: &impl Abort, refused: Result<u64, u64>, least: u64) {
    assert!(rt;
        refused.is_ok_and(|n| n >= least),
        "{refused:?}, wanted {least} or more"
    );
}

/// Whether nothing was made. What was made is dropped.
pub fn is_refused<T: Drop, E: Drop>(made: Result<T, E>) -> bool {
    made.is_err()
}

/// Ends the test unless the value is shown as this text.
pub fn expect_text<R, D>(rt: &R, value: D, text: &str)
where
    R: AllocGlobal + Abort,
    D: Display + Drop,
{
    let shown = format!(in rt.alloc(); "{value}").expect(rt, "memory is ample");
    expect_equal(rt, shown.as_str(), text);
}

/// Ends the test unless each value is shown as the text beside it.
pub fn expect_texts<R, D>(rt: &R, texts: &[(D, &str)])
where
    R: AllocGlobal + Abort,
    D: Display + Copy + Drop,
{
    for &(value, text) in texts {
        expect_text(rt, value, text);
    }
}
