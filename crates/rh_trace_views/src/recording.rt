//! The recorder behind `--history`.

ghost use Rattle.std.specs.Prelude.{◌≡◌, ◌≤◌, None, IfOk};
ghost use Rattle.rh_core.specs.Config.{fault_of};
ghost use Rattle.rh_replay.specs.History.{empty_history};
ghost use Rattle.rh_trace.specs.Run.{config_of as config_of_header};

use rh_layout::OutOfMemory;
use rh_layout::limits::MAX_HISTORY_CALLS;
use rh_replay::{Recorder, RecorderError};
use rh_syntax::Header;
use std::alloc::Allocator;

/// A recorder with room for so many calls, of the sizes of a first line without fault.
pub(crate) fn recorder_for<A: Allocator + Copy>(
    alloc: A,
    header: Header,
    calls: usize,
) -> Result<Recorder<A>, OutOfMemory>
    requires sizes { fault_of (config_of_header header) ≡ None }
    requires few_calls { calls ≤ MAX_HISTORY_CALLS }
    ensures history { IfOk result (λ recorder.
        recorder.history ≡ empty_history header.owners header.slots) }
    ensures room { IfOk result (λ recorder. calls ≤ recorder.limit) }
{
    let limit = (calls as u32).max(1);
    match Recorder::new(alloc, header.owners, header.slots, limit) {
        Ok(recorder) => Ok(recorder),
        Err(RecorderError::OutOfMemory) => Err(OutOfMemory),
        Err(RecorderError::BadRoots) => unreachable!(),
        Err(RecorderError::BadHistory) => unreachable!(),
    }
}
