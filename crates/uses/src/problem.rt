//! What can go wrong in these programs.

ghost use Rattle.std.specs.Prelude.{◌≡◌};
ghost use Rattle.uses.specs.declared.problem.Problem.TheVariants as problems;
ghost use Rattle.uses.specs.Problem.{problem_of_sizes};

use rh_heap::{
    GrowingError, HeapError, OutOfMemory, PaceError, Refusal, RoomError, SizesError, WatchError,
};
use rh_replay::{RecorderError, TraceFull};
use std::io;
use thiserror::Error;

/// What can go wrong in these programs.
#[derive(Debug, Drop, Error)]
pub enum Problem {
    /// The sizes make no heap, or memory was refused.
    #[error("no heap: {0}")]
    Heap(HeapError),
    /// No pace keeps up with these sizes.
    #[error("no pace: {0}")]
    Pace(PaceError),
    /// No heap that grows was made.
    #[error("no heap that grows: {0}")]
    Growing(#[from] GrowingError),
    /// There is no room for so many tickets.
    #[error("no tickets: {0}")]
    Room(#[from] RoomError),
    /// An object isn't watched.
    #[error("not watched: {0}")]
    Watch(#[from] WatchError),
    /// A call was refused.
    #[error("refused: {0}")]
    Refused(Refusal),
    /// No history is recorded.
    #[error("no recorder: {0}")]
    Recorder(#[from] RecorderError),
    /// The history is full.
    #[error("{0}")]
    TraceFull(#[from] TraceFull),
    /// Memory was refused.
    #[error("{0}")]
    OutOfMemory(#[from] OutOfMemory),
    /// A write failed.
    #[error("write failed")]
    Write(#[from] io::Error),
    /// A dump wasn't written whole.
    #[error("{0}")]
    Dump(#[from] rh_text::Write),
    /// An answer isn't what the program knows it to be.
    #[error("an answer is wrong")]
    Answer,
}

impl From<HeapError> for Problem {
    ghost from_gives = { λ error problem. problem ≡ problems.Heap error };

    fn from(error: HeapError) -> Problem {
        Problem::Heap(error)
    }
}

impl From<PaceError> for Problem {
    ghost from_gives = { λ error problem. problem ≡ problems.Pace error };

    fn from(error: PaceError) -> Problem {
        Problem::Pace(error)
    }
}

impl From<SizesError> for Problem {
    ghost from_gives = { λ error problem. problem ≡ problem_of_sizes error };

    fn from(error: SizesError) -> Problem {
        match error {
            SizesError::Pace(error) => Problem::Pace(error),
            SizesError::Heap(error) => Problem::Heap(error),
        }
    }
}

impl From<Refusal> for Problem {
    ghost from_gives = { λ refusal problem. problem ≡ problems.Refused refusal };

    fn from(refusal: Refusal) -> Problem {
        Problem::Refused(refusal)
    }
}
