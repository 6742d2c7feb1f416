//! What a run adds up to: commands, refusals, flips and the words of roots that these wrote.

/// The numbers of the line that ends the answers of a trace.
#[derive(Clone, Copy, Debug, PartialEq, Eq)]
pub struct Summary {
    /// How many command lines were run.
    pub commands: u64,
    /// How many of these were refused.
    pub refused: u64,
    /// How many flips were done.
    pub flips: u64,
    /// How many root words the flips wrote.
    pub root_words: u128,
}
