//! Where a session shows what goes on.

use crate::stop::Stop;

/// Where a session shows what isn't its output.
pub trait Console {
    /// Shows that an entry may be typed.
    fn prompt(&mut self);

    /// Shows that the input has ended.
    fn end(&mut self);

    /// Shows a line, which says where and why an entry stopped, or is no program; the same of its
    /// text, whose lines are numbered as those of the session.
    fn tell(&mut self, line: &[u8], text: &[u8], stop: Stop);
}
