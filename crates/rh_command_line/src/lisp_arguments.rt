//! The arguments of the command `lisp`.

ghost use Rattle.std.specs.Prelude.{◌≡◌, option_map, None};
ghost use Rattle.rh_command_line.specs.Ask.{heap_words, lisp_asked, lisp_within, steps_given};

use crate::ask::Subcommand;
use crate::fault::CommandLineFault;
use rh_choices::{HeapWords, Limits, MOST_STEPS};
use rh_layout::limits::MAX_SPACE_WORDS;
use rh_text::read_number;

/// The program or the session that is asked for: its heap of one size or its heap that grows, its
/// steps, the file of its cycles, and its file.
pub(crate) fn lisp_asked(
    heap: Option<&str>,
    grow: Option<&str>,
    steps: Option<&str>,
    cycles: Option<&str>,
    file: Option<&str>,
) -> Result<Subcommand, CommandLineFault>
    ensures asked { result ≡ lisp_asked (option_map (λ t. t.now) heap.entry)
        (option_map (λ t. t.now) grow.entry) (option_map (λ t. t.now) steps.entry)
        (option_map (λ t. t.now) cycles.entry) (option_map (λ t. t.now) file.entry) }
{
    let Some(heap) = heap_words(heap, grow) else {
        return Err(CommandLineFault::Words);
    };
    let Some(steps) = steps_given(steps) else {
        return Err(CommandLineFault::Steps);
    };
    lisp_within(cycles, file, Limits { heap, steps })
}

/// The program of a file, or a session where there is none, of which no cycles are written.
fn lisp_within(
    cycles: Option<&str>,
    file: Option<&str>,
    limits: Limits,
) -> Result<Subcommand, CommandLineFault>
    ensures within { result ≡ lisp_within (option_map (λ t. t.now) cycles.entry)
        (option_map (λ t. t.now) file.entry) limits }
{
    match file {
        Some(_) => Ok(Subcommand::Lisp { limits }),
        None => match cycles {
            None => Ok(Subcommand::LispSession { limits }),
            Some(_) => Err(CommandLineFault::SessionCycles),
        },
    }
}

/// The words of the heap that is asked for.
fn heap_words(heap: Option<&str>, grow: Option<&str>) -> Option<HeapWords>
    ensures { result ≡ heap_words (option_map (λ t. t.now) heap.entry)
        (option_map (λ t. t.now) grow.entry) }
{
    match heap {
        None => grown_words(grow),
        Some(text) => match grow {
            None => match read_number(text.as_bytes()) {
                Some(words) => Some(HeapWords::Just(words)),
                None => None,
            },
            Some(_) => None,
        },
    }
}

/// The words to which the heap that is asked for grows.
fn grown_words(grow: Option<&str>) -> Option<HeapWords>
    ensures { result ≡ heap_words None (option_map (λ t. t.now) grow.entry) }
{
    match grow {
        None => Some(HeapWords::UpTo(MAX_SPACE_WORDS)),
        Some(text) => match read_number(text.as_bytes()) {
            Some(words) => Some(HeapWords::UpTo(words)),
            None => None,
        },
    }
}

/// The steps that are asked for.
fn steps_given(steps: Option<&str>) -> Option<u64>
    ensures { result ≡ steps_given (option_map (λ t. t.now) steps.entry) }
{
    match steps {
        None => Some(MOST_STEPS),
        Some(text) => match read_number(text.as_bytes()) {
            Some(number) => Some(u64::from(number)),
            None => None,
        },
    }
}
