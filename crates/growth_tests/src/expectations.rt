//! What a test expects. It stands in the place of `assert_eq!`, which would make the proof of a
//! test three times as long.

use std::fmt::Debug;
use std::process::Abort;

/// Ends the test unless the two are equal, and shows both then: left what was got, right what was
/// wanted.
pub fn expect_equal<T: PartialEq + Debug + Drop>(rt: &impl Abort, got: T, wanted: T) {
    assert_eq!(rt; got, wanted);
}
