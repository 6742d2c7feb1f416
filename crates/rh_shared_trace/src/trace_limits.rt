//! The limits of a heap that lines of a trace may come to.

/// A limit of a heap that lines of a trace may come to.
#[derive(Clone, Copy, Debug, PartialEq, Eq)]
pub enum Limit {
    /// The words of its space.
    Space,
    /// The entries of its log.
    Log,
}

/// Which limits the lines of a trace may come to, all together.
#[derive(Clone, Copy, Debug, PartialEq, Eq)]
pub struct TraceLimits {
    /// Whether the objects that they ask for have more words than the space.
    pub space: bool,
    /// Whether they store more often than the log has entries.
    pub log: bool,
}
