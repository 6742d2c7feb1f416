//! Why a call of a runtime on its heap failed.

ghost use Rattle.std.specs.Prelude.{◌≡◌};
ghost use Rattle.rh_heap.specs.declared.error.Error.TheVariants as errors;
ghost use Rattle.rh_heap.specs.Error.{error_of_growing, error_of_sizes, out_of_memory};

use rh_core::{HeapError, ReleaseError, ResizeError, RoomError, WatchError};
use rh_growing::GrowingError;
use rh_layout::{OutOfMemory, Refusal};
use rh_pace::{EpochsSpent, PaceError, SizesError};
use std::alloc::{AllocError, AllocFailed};

/// Why a call of a runtime on its heap failed: `?` makes it of what any of them answers, and of
/// memory that was refused to a vector or a string of the runtime's own.
#[derive(Clone, Copy, Debug, PartialEq, Eq, thiserror::Error)]
pub enum Error {
    /// No pace keeps up with these sizes.
    #[error("no pace: {0}")]
    Pace(PaceError),
    /// The sizes make no heap, or memory was refused for it.
    #[error("no heap: {0}")]
    Heap(HeapError),
    /// The factor of a growth isn't 100 to 1,000 percent.
    #[error("no heap: BadFactor")]
    BadFactor,
    /// The least words of a growth are above its most, or these above 16,777,216.
    #[error("no heap: BadLimits")]
    BadLimits,
    /// A call was refused.
    #[error("refused: {0}")]
    Refused(Refusal),
    /// Nothing was collected, since no epoch is left.
    #[error("nothing collected: {0}")]
    EpochsSpent(EpochsSpent),
    /// The heap has no other sizes.
    #[error("not resized: {0}")]
    Resize(ResizeError),
    /// No memory was given back.
    #[error("not released: {0}")]
    Release(ReleaseError),
    /// There is no room for so many tickets.
    #[error("no tickets: {0}")]
    Room(RoomError),
    /// An object isn't watched.
    #[error("not watched: {0}")]
    Watch(WatchError),
    /// Memory was refused for the answers to a list of commands, or for a collection of the
    /// runtime's own; not for the heap itself, of which `Heap`, `Resize`, `Release` and `Room`
    /// tell.
    #[error("{0}")]
    OutOfMemory(OutOfMemory),
}

impl From<PaceError> for Error {
    ghost from_gives = { λ why error. error ≡ errors.Pace why };

    fn from(why: PaceError) -> Error {
        Error::Pace(why)
    }
}

impl From<HeapError> for Error {
    ghost from_gives = { λ why error. error ≡ errors.Heap why };

    fn from(why: HeapError) -> Error {
        Error::Heap(why)
    }
}

impl From<SizesError> for Error {
    ghost from_gives = { λ why error. error ≡ error_of_sizes why };

    fn from(why: SizesError) -> Error {
        match why {
            SizesError::Pace(why) => Error::Pace(why),
            SizesError::Heap(why) => Error::Heap(why),
        }
    }
}

impl From<GrowingError> for Error {
    ghost from_gives = { λ why error. error ≡ error_of_growing why };

    fn from(why: GrowingError) -> Error {
        match why {
            GrowingError::BadFactor => Error::BadFactor,
            GrowingError::BadLimits => Error::BadLimits,
            GrowingError::Pace(why) => Error::Pace(why),
            GrowingError::Heap(why) => Error::Heap(why),
        }
    }
}

impl From<Refusal> for Error {
    ghost from_gives = { λ why error. error ≡ errors.Refused why };

    fn from(why: Refusal) -> Error {
        Error::Refused(why)
    }
}

impl From<EpochsSpent> for Error {
    ghost from_gives = { λ why error. error ≡ errors.EpochsSpent why };

    fn from(why: EpochsSpent) -> Error {
        Error::EpochsSpent(why)
    }
}

impl From<ResizeError> for Error {
    ghost from_gives = { λ why error. error ≡ errors.Resize why };

    fn from(why: ResizeError) -> Error {
        Error::Resize(why)
    }
}

impl From<ReleaseError> for Error {
    ghost from_gives = { λ why error. error ≡ errors.Release why };

    fn from(why: ReleaseError) -> Error {
        Error::Release(why)
    }
}

impl From<RoomError> for Error {
    ghost from_gives = { λ why error. error ≡ errors.Room why };

    fn from(why: RoomError) -> Error {
        Error::Room(why)
    }
}

impl From<WatchError> for Error {
    ghost from_gives = { λ why error. error ≡ errors.Watch why };

    fn from(why: WatchError) -> Error {
        Error::Watch(why)
    }
}

impl From<OutOfMemory> for Error {
    ghost from_gives = { λ why error. error ≡ errors.OutOfMemory why };

    fn from(why: OutOfMemory) -> Error {
        Error::OutOfMemory(why)
    }
}

impl From<AllocError> for Error {
    ghost from_gives = { λ why error. error ≡ errors.OutOfMemory out_of_memory };

    fn from(_why: AllocError) -> Error {
        Error::OutOfMemory(OutOfMemory)
    }
}

impl<T: Drop> From<AllocFailed<T>> for Error {
    ghost from_gives = { λ why error. error ≡ errors.OutOfMemory out_of_memory };

    fn from(_why: AllocFailed<T>) -> Error {
        Error::OutOfMemory(OutOfMemory)
    }
}
