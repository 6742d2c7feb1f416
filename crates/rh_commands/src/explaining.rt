//! `--explain` of each subcommand: where a file fails is shown.

ghost use Rattle.std.specs.Prelude.{◌≤◌, length, IfSome};

use crate::fault::LineFault;
use rh_command_line::Subcommand;
use rh_explained::{
    Spot, Way, beyond_spot, config_spot, dump_spot, few_words_spot, history_spot, limits_spot,
    low_ratio_spot, trace_spot, write_spot,
};
use rh_pace::PaceError;
use std::io::Write;

/// Writes where a text has the fault that a command told of it, if it is one of the text's.
pub fn explain<E: Write>(subcommand: Subcommand, fault: &LineFault, text: &[u8], err: &mut E) {
    if let Some(spot) = spot_of(subcommand, fault, text) {
        // What can't be told is left out, as a fault's line is.
        let _ = write_spot(err, &spot);
    }
}

/// How a subcommand runs a trace.
fn way_of(subcommand: Subcommand) -> Way {
    match subcommand {
        Subcommand::RunPaced { .. } | Subcommand::RunGrowing { .. } => Way::Paced,
        Subcommand::Threads { .. } => Way::Threads,
        _ => Way::Plain,
    }
}

/// Where a text has a fault, if it is one of the text's.
fn spot_of<'a>(subcommand: Subcommand, fault: &LineFault, text: &'a [u8]) -> Option<Spot<'a>>
    ensures { IfSome result (λ spot. (spot.begins ≤ spot.ends)
        × (spot.ends ≤ length spot.line.now)) }
{
    match fault {
        LineFault::Trace(fault) => Some(trace_spot(text, *fault, way_of(subcommand))),
        LineFault::History(fault) => Some(history_spot(text, *fault)),
        LineFault::Dump(fault) => Some(dump_spot(text, *fault)),
        LineFault::Heap(fault) => Some(config_spot(text, *fault)),
        LineFault::Pace(PaceError::RatioTooLow) => Some(low_ratio_spot(text)),
        LineFault::Pace(PaceError::TooSmall { need }) => Some(few_words_spot(text, *need)),
        LineFault::Limits => limits_of(subcommand, text),
        LineFault::NoLine => beyond_of(subcommand, text),
        _ => None,
    }
}

/// Where a text ends that hasn't the line after which a picture is asked for.
fn beyond_of<'a>(subcommand: Subcommand, text: &'a [u8]) -> Option<Spot<'a>>
    ensures { IfSome result (λ spot. (spot.begins ≤ spot.ends)
        × (spot.ends ≤ length spot.line.now)) }
{
    match subcommand {
        Subcommand::Draw { line: Some(asked) } => Some(beyond_spot(text, asked)),
        _ => None,
    }
}

/// Where a text has the words that are out of the limits of a growing run.
fn limits_of<'a>(subcommand: Subcommand, text: &'a [u8]) -> Option<Spot<'a>>
    ensures { IfSome result (λ spot. (spot.begins ≤ spot.ends)
        × (spot.ends ≤ length spot.line.now)) }
{
    match subcommand {
        Subcommand::RunGrowing { at_most } => Some(limits_spot(text, at_most)),
        _ => None,
    }
}
