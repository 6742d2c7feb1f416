//! The first line of a trace, read and spelled.

ghost use Rattle.std.specs.Prelude.{◌≡◌};
ghost use Rattle.rh_text.specs.Parts.{parts_left};
ghost use Rattle.rh_syntax.specs.Reading.{sizes_of, header_of_parts};
ghost use Rattle.rh_syntax.specs.Spelling.{spell_header};

use crate::fault::Kind;
use crate::line::Header;
use crate::values::number_or_fault;
use rh_text::{LineText, is_text, six_parts};

/// `WORDS RATIO LOG OWNERS SLOTS`.
#[tactic(auto, unfolding(crate::specs::Reading::sizes_of))]
fn sizes_of(
    words: &[u8],
    ratio: &[u8],
    log: &[u8],
    owners: &[u8],
    slots: &[u8],
) -> Result<Header, Kind>
    ensures { result ≡ sizes_of words.now ratio.now log.now owners.now slots.now }
{
    Ok(Header {
        words: number_or_fault(words)?,
        ratio: number_or_fault(ratio)?,
        log: number_or_fault(log)?,
        owners: number_or_fault(owners)?,
        slots: number_or_fault(slots)?,
    })
}

/// `heap WORDS RATIO LOG OWNERS SLOTS`.
#[tactic(auto, unfolding(crate::specs::Reading::header_of_parts))]
pub fn header_of_parts(rest: Option<&[u8]>) -> Result<Header, Kind>
    ensures { result ≡ header_of_parts (parts_left rest.entry) }
{
    let Some((word, words, ratio, log, owners, slots)) = six_parts(rest) else {
        return Err(Kind::Header);
    };
    if !is_text(word, b"heap") {
        return Err(Kind::Header);
    }
    sizes_of(words, ratio, log, owners, slots)
}

/// The text becomes that of the first line.
pub fn put_header(text: &mut LineText, header: Header)
    ensures { text.new ≡ spell_header header }
{
    text.clear();
    text.put(b"heap");
    text.put_next_number(header.words);
    text.put_next_number(header.ratio);
    text.put_next_number(header.log);
    text.put_next_number(header.owners);
    text.put_next_number(header.slots);
    text.put(b"\n");
}
