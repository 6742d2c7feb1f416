//! What a test expects.

use std::alloc::Global;
use std::fmt::{Debug, Display};
use std::process::Abort;
use std::sync::Wait;
use std::thread::Threads;

/// The handle of a row of a table, or of one turn of a loop: what fails under it is told with the
/// row's number, from 0, or with the number that the loop counts.
#[derive(Drop)]
pub struct Row<'a, R> {
    pub rt: &'a R,
    pub row: usize,
}

impl<R: AllocGlobal> Alloc for Row<'_, R> {
    type A = Global;

    fn alloc(&self) -> Global {
        self.rt.alloc()
    }
}

impl<R: Wait> Wait for Row<'_, R> {}

impl<R: Threads> Threads for Row<'_, R> {}

impl<R: Abort> Abort for Row<'_, R> {
    fn abort(&self) -> ! {
        self.rt.abort()
    }

    fn exit(&self, code: i32) -> ! {
        self.rt.exit(code)
    }

    fn panic<D: Display + Drop>(&self, message: D) -> ! {
        self.rt.panic(format_args!("row {}: {message}", self.row))
    }
}

/// Ends the test unless the two are equal, and shows both then: left what was got, right what was
/// wanted.
pub fn expect_equal<T: PartialEq + Debug + Drop>(rt: &impl Abort, got: T, wanted: T) {
    assert_eq!(rt; got, wanted);
}

/// Ends the test unless the two are equal, and shows both as texts then.
pub fn expect_bytes(rt: &impl Abort, got: &[u8], wanted: &[u8]) {
    assert!(rt;
        got == wanted,
        "got {} wanted {}",
        got.escape_ascii(),
        wanted.escape_ascii()
    );
}

/// Plays what threads do two hundred times. Answers how often it was played.
pub fn play_again<F>(once: F) -> u32
where
    F: Fn(),
    requires { F.IsAlwaysCallable once }
{
    let mut played: u32 = 0;
    for _ in 0..200u32 {
        once();
        played = played.saturating_add(1);
    }
    played
}

/// Ends the test unless each value is shown as the text beside it.
pub fn expect_texts<R, D>(rt: &R, texts: &[(D, &str)])
where
    R: AllocGlobal + Abort,
    D: Display + Copy + Drop,
{
    for &(value, text) in texts {
        let shown = format!(in rt.alloc(); "{value}").expect(rt, "memory is ample");
        expect_equal(rt, shown.as_str(), text);
    }
}
