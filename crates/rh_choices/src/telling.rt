//! How a run is reported: plainly, with each line echoed, or as JSON.

/// How a run is reported, line by line.
#[derive(Clone, Copy, Debug, PartialEq, Eq)]
pub enum Telling {
    /// The answers alone, as `run_trace` writes them.
    Answers,
    /// Each line's number in the trace, its text and its answer, with tabs between. Before the
    /// lines of a listing stands a line whose answer is empty.
    Echo,
    /// An object of JSON for each line but a `dump`, for each line of a dump, and for the total.
    Json,
}
