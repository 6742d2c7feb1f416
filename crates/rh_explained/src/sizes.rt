//! Where the sizes that a trace asks for make no heap, or none that keeps up.

ghost use Rattle.rh_explained.specs.Line.{line_at};
ghost use Rattle.rh_explained.specs.Spot.{IsInLine};

use crate::lines::{count_lines, nth_line, number_at};
use crate::spot::{Spot, at_line, at_part};
use crate::told::Told;
use rh_layout::MAX_OWNERS;
use rh_mutator::ConfigFault;

/// The spot of a number of the first line that makes no heap.
pub fn config_spot<'a>(text: &'a [u8], fault: ConfigFault) -> Spot<'a>
    ensures { IsInLine 1 (line_at 1 text.now).bytes result }
{
    let (line, _) = nth_line(text, 1);
    match fault {
        ConfigFault::BadSpace => at_part(1, line, 1, Told::Space),
        ConfigFault::BadRatio => at_part(1, line, 2, Told::Ratio),
        ConfigFault::BadLog => at_part(1, line, 3, Told::Log),
        ConfigFault::BadRoots => {
            let owners = number_at(line, 4);
            if 1 <= owners && owners <= MAX_OWNERS {
                return at_part(1, line, 5, Told::Slots);
            }
            at_part(1, line, 4, Told::Owners)
        }
        ConfigFault::BadNumbers => at_part(1, line, 0, Told::Numbers),
    }
}

/// The spot of a ratio that is too low for a pace.
pub fn low_ratio_spot<'a>(text: &'a [u8]) -> Spot<'a>
    ensures { IsInLine 1 (line_at 1 text.now).bytes result }
{
    let (line, _) = nth_line(text, 1);
    at_part(1, line, 2, Told::LowRatio)
}

/// The spot of words that are too few for a pace, of which so many are enough.
pub fn few_words_spot<'a>(text: &'a [u8], need: u64) -> Spot<'a>
    ensures { IsInLine 1 (line_at 1 text.now).bytes result }
{
    let (line, _) = nth_line(text, 1);
    at_part(1, line, 1, Told::FewWords(need))
}

/// The spot of the last line of a trace that hasn't so many lines.
pub fn beyond_spot<'a>(text: &'a [u8], asked: u32) -> Spot<'a>
    ensures { IsInLine result.number (line_at result.number text.now).bytes result }
{
    let lines = count_lines(text);
    let (line, _) = nth_line(text, lines);
    at_line(lines, line, Told::BeyondLines(asked, lines))
}

/// The spot of the words with which a heap can't begin that grows to at most so many.
pub fn limits_spot<'a>(text: &'a [u8], at_most: u32) -> Spot<'a>
    ensures { IsInLine 1 (line_at 1 text.now).bytes result }
{
    let (line, _) = nth_line(text, 1);
    at_part(1, line, 1, Told::Limits(at_most))
}
