//! What a trace's first line and its commands give to the rule of paces, and how its heap grows.

ghost use Rattle.std.specs.Prelude.{◌≡◌};
ghost use Rattle.rh_paced_trace.specs.Growing.{growth_of as growth_of_script};
ghost use Rattle.rh_paced_trace.specs.Pacing.{IsPaceOf};

use crate::lines::biggest_of;
use rh_growing::{DEFAULT_FACTOR, Growth};
use rh_pace::{Pace, PaceError};
use rh_syntax::{Header, Request};

/// The pace of a run: by the mark, where one is asked for, and else the filling pace for the
/// biggest object that the requests ask for.
pub fn pace_of(header: Header, requests: &[Request], mark: Option<u32>) -> Result<Pace, PaceError>
    ensures { IsPaceOf mark (record { header = header; requests = requests.now }) result }
{
    match mark {
        Some(mark) => Ok(Pace {
            mark,
            store_units: header.ratio,
            log_limit: header.log,
        }),
        None => Pace::filling(header.words, biggest_of(requests), header.ratio),
    }
}

/// How the heap of a run grows: from the words of the first line to so many, for the biggest object
/// that the requests ask for.
pub fn growth_of(header: Header, requests: &[Request], at_most: u32) -> Growth
    ensures { result ≡ growth_of_script (record {
      header = header;
      requests = requests.now;
    }) at_most }
{
    Growth {
        at_least: header.words,
        at_most,
        factor: DEFAULT_FACTOR,
        biggest: biggest_of(requests),
        ratio: header.ratio,
        owners: header.owners,
        slots: header.slots,
    }
}
