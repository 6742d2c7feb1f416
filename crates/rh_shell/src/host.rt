//! The program that holds a session.

/// The program that holds a session: what it does beside reading lines and writing answers.
pub trait Host {
    /// A line is waited for: here a prompt may be shown.
    fn prompt(&mut self);

    /// The input ended; an unended line was answered before. Here the line of the prompt may be
    /// ended.
    fn end(&mut self);

    /// Puts a picture, a text in SVG, into the file of this name, in place of what it had. Answers
    /// whether all of it was written.
    fn put_picture(&mut self, name: &str, picture: &[u8]) -> bool;
}
