//! Finds the first part of a line at which it fails.

ghost use Rattle.std.specs.Prelude.{◌≡◌, ◌≤◌, ◌<◌, ℕ, length, map, true, IfSome, MatchOption, Some, Ok};
ghost use Rattle.std.specs.Option.{option_map};
ghost use Rattle.rh_text.specs.Parts.{parts_of, may_follow, IsFormedLine};
ghost use Rattle.rh_text.specs.lemmas.Stages.{Judges};
ghost use Rattle.rh_syntax.specs.Faults.{number, root, operand, copies_or_entries, tray, each_part, form_faults, line_part_faults, header_part_faults};
ghost use Rattle.rh_syntax.specs.declared.fault.Kind.TheVariants as kinds;
ghost use Rattle.rh_explain.specs.Explain.{sort_of, sorts_of, class, fault_of, part_faults_of, IsFirstMisfit, IsIllFormedAt, IsPartAt};
ghost use Rattle.rh_explain.specs.Judging.{Decided, FailsAt, IsLong, IsMiscounted, IsOverLimit, MisfitAt, misfit_verdict};

use crate::columns::columns_of;
use crate::expected::Expected;
use crate::near::nearest;
use crate::part::{Misfit, Part};
use crate::rows::{LEADING, OWNED, TraceRow, header_row, leading_row, owned_row};
use crate::why::Why;
use rh_layout::limits::{MAX_LINE_BYTES, MAX_LINES};
use rh_syntax::tray_name_of;
use rh_text::{
    begins_with_digit, has_dot, is_formed, is_text, next_part, read_integer, read_number, read_root,
};

/// All bytes are digits, and the first of several isn't 0.
fn is_numeral(part: &[u8]) -> bool {
    for byte in part {
        if !byte.is_ascii_digit() {
            return false;
        }
    }
    match part {
        [] => false,
        [_] => true,
        [first, ..] => *first != b'0',
    }
}

/// Why a part isn't a number.
fn why_no_number(part: &[u8]) -> Option<Why>
    ensures { Decided number part.now result }
{
    match read_number(part) {
        Some(_) => None,
        None => Some(why_number(part)),
    }
}

/// Why a part is no number: it is too great, or no decimal.
fn why_number(part: &[u8]) -> Why
    ensures { class result ≡ kinds.Number }
{
    if is_numeral(part) {
        return Why::NumberRange;
    }
    Why::NotNumber
}

/// Why a part isn't a root.
fn why_no_root(part: &[u8]) -> Option<Why>
    ensures { Decided root part.now result }
{
    match read_root(part) {
        Some(_) => None,
        None => Some(Why::NotRoot),
    }
}

/// Why a part isn't an operand.
fn why_no_operand(part: &[u8]) -> Option<Why>
    ensures { Decided operand part.now result }
{
    if is_text(part, b"nil") {
        return None;
    }
    if has_dot(part) {
        return match read_root(part) {
            Some(_) => None,
            None => Some(Why::NotFraction),
        };
    }
    match read_integer(part) {
        Some(_) => None,
        None => Some(Why::NotOperand),
    }
}

/// Why a part is neither `copies` nor `entries`.
fn why_not_dealt(part: &[u8]) -> Option<Why>
    ensures { Decided copies_or_entries part.now result }
{
    if is_text(part, b"copies") {
        return None;
    }
    if is_text(part, b"entries") {
        return None;
    }
    Some(Why::NotDealt)
}

/// Why a part isn't the name of a tray.
fn why_no_tray(part: &[u8]) -> Option<Why>
    ensures { Decided tray part.now result }
{
    match tray_name_of(part) {
        Some(_) => None,
        None => Some(Why::NotTray),
    }
}

/// Why a part isn't what it should be.
fn why_not(expected: Expected, part: &[u8]) -> Option<Why>
    ensures { Decided (sort_of expected) part.now result }
{
    match expected {
        Expected::Keyword => None,
        Expected::Number(_) => why_no_number(part),
        Expected::Root(_) => why_no_root(part),
        Expected::Operand => why_no_operand(part),
        Expected::Dealt => why_not_dealt(part),
        Expected::Tray => why_no_tray(part),
    }
}

/// The first part that isn't what the form says.
fn argument_misfit(form: &[Expected], line: &[u8]) -> Option<Misfit>
    ensures { MatchOption result
        (Judges (each_part (map sort_of form.now) (parts_of line.now)) (Ok (tt {0})))
        (λ m. FailsAt (map sort_of form.now) (parts_of line.now) m.index (class m.why)) }
{
    let mut rest = Some(line);
    for (index, expected) in form.iter().enumerate() {
        let Some((part, after)) = next_part(rest) else {
            return None;
        };
        if let Some(why) = why_not(*expected, part) {
            return Some(Misfit { index, why });
        }
        rest = after;
    }
    None
}

/// The part that is missing, or the first that is too many.
fn count_misfit(row: TraceRow, line: &[u8]) -> Option<Misfit>
    ensures { MatchOption result (length (parts_of line.now) ≡ length row.form.now)
        (λ m. IsMiscounted (length row.form.now) (length (parts_of line.now)) m.index
        × (class m.why ≡ kinds.Form)) }
{
    let form = row.form;
    let mut rest = Some(line);
    for (index, expected) in form.iter().enumerate() {
        let Some((_, after)) = next_part(rest) else {
            return Some(Misfit {
                index,
                why: Why::Missing(*expected, row.row),
            });
        };
        rest = after;
    }
    match rest {
        None => None,
        Some(_) => Some(Misfit {
            index: form.len(),
            why: Why::Surplus,
        }),
    }
}

/// The first misfit of a line whose row is known: in the number of parts, or else part by part.
fn row_misfit(row: TraceRow, line: &[u8]) -> Option<Misfit>
    ensures judged { Judges (form_faults (Some (sorts_of row)) (parts_of line.now))
        (misfit_verdict result) }
    ensures place { IfSome result (λ m. MisfitAt (sorts_of row) (parts_of line.now)
        m.index (class m.why)) }
{
    if let Some(misfit) = count_misfit(row, line) {
        return Some(misfit);
    }
    argument_misfit(row.form, line)
}

/// Why a word that should be a keyword after an owner isn't one.
fn why_no_owned_keyword(word: &[u8]) -> Why
    ensures { class result ≡ kinds.Word }
{
    if let Some(row) = leading_row(word) {
        return Why::OwnerSurplus(row.keyword);
    }
    match nearest(OWNED, LEADING, word) {
        Some(keyword) => Why::Misspelled(keyword),
        None => Why::UnknownOwned,
    }
}

/// Why a word that should be a keyword at the beginning of a line isn't one.
fn why_no_keyword(word: &[u8]) -> Why
    ensures { class result ≡ kinds.Word }
{
    if let Some(row) = owned_row(word) {
        return Why::OwnerMissing(row.keyword);
    }
    if is_text(word, b"heap") {
        return Why::HeapAgain;
    }
    if let [b'#', ..] = word {
        return Why::Comment;
    }
    match nearest(LEADING, OWNED, word) {
        Some(keyword) => Why::Misspelled(keyword),
        None => Why::Unknown,
    }
}

/// The first misfit of a line after the first, whose parts are well formed.
fn line_misfit(line: &[u8]) -> Option<Misfit>
    ensures judged { Judges (line_part_faults (parts_of line.now)) (misfit_verdict result) }
    ensures place { IfSome result (λ m. IsFirstMisfit line_part_faults (parts_of line.now)
        m.index (class m.why)) }
{
    let Some((first, rest)) = next_part(Some(line)) else {
        return Some(Misfit {
            index: 0,
            why: Why::Blank,
        });
    };
    if !begins_with_digit(first) {
        return match leading_row(first) {
            Some(row) => row_misfit(row, line),
            None => Some(Misfit {
                index: 0,
                why: why_no_keyword(first),
            }),
        };
    }
    let Some((word, _)) = next_part(rest) else {
        return Some(Misfit {
            index: 1,
            why: Why::OwnerAlone,
        });
    };
    match owned_row(word) {
        Some(row) => row_misfit(row, line),
        None => Some(Misfit {
            index: 1,
            why: why_no_owned_keyword(word),
        }),
    }
}

/// Why a first line doesn't begin with `heap`.
fn why_no_heap(word: &[u8]) -> Why
    ensures { class result ≡ kinds.Header }
{
    if is_text(word, b"history") {
        return Why::History;
    }
    if is_text(word, b"rheap") {
        return Why::Dump;
    }
    Why::NotHeap
}

/// The first misfit of the first line, whose parts are well formed.
fn header_misfit(line: &[u8]) -> Option<Misfit>
    ensures judged { Judges (header_part_faults (parts_of line.now)) (misfit_verdict result) }
    ensures place { IfSome result (λ m. IsFirstMisfit header_part_faults (parts_of line.now)
        m.index (class m.why)) }
{
    let Some((first, _)) = next_part(Some(line)) else {
        return Some(Misfit {
            index: 0,
            why: Why::NotHeap,
        });
    };
    if !is_text(first, b"heap") {
        return Some(Misfit {
            index: 0,
            why: why_no_heap(first),
        });
    }
    let row = header_row();
    if let Some(misfit) = count_misfit(row, line) {
        return Some(header_count(misfit));
    }
    argument_misfit(row.form, line)
}

/// A misfit in the number of parts, as one of the first line.
fn header_count(misfit: Misfit) -> Misfit
    ensures class { class result.why ≡ kinds.Header }
    ensures index { result.index ≡ misfit.index }
{
    let why = match misfit.why {
        Why::Missing(_, _) => Why::HeaderShort,
        _ => Why::HeaderLong,
    };
    Misfit {
        index: misfit.index,
        why,
    }
}

/// The byte may come next in a line: it is printable, and no space where a part begins.
fn may_follow(byte: u8, is_part_empty: bool) -> bool
    ensures { result ≡ may_follow byte is_part_empty }
{
    if byte == b' ' {
        return !is_part_empty;
    }
    (b' '..=b'~').contains(&byte)
}

/// The first misfit of the line of this number, whose parts are well formed.
fn misfit_of(number: u32, line: &[u8]) -> Option<Misfit>
    ensures judged { Judges (part_faults_of number (parts_of line.now)) (misfit_verdict result) }
    ensures place { IfSome result (λ m. IsFirstMisfit (part_faults_of number) (parts_of line.now)
        m.index (class m.why)) }
{
    if number == 1 {
        return header_misfit(line);
    }
    line_misfit(line)
}

/// Why a byte can't stand where it does.
fn why_ill_byte(line: &[u8], index: usize, byte: u8) -> Why
    requires { index < length line.now }
    ensures { class result ≡ kinds.Form }
{
    match byte {
        b' ' => {
            if index == 0 {
                Why::SpaceAtStart
            } else {
                Why::SecondSpace
            }
        }
        b'\t' => Why::Tab,
        b'\r' => {
            if index + 1 == line.len() {
                Why::CarriageReturn
            } else {
                Why::Byte(byte)
            }
        }
        _ => {
            if index == 0 && is_marked(line) {
                Why::ByteOrderMark
            } else {
                Why::Byte(byte)
            }
        }
    }
}

/// Whether a line begins with a byte order mark.
pub fn is_marked(line: &[u8]) -> bool {
    matches!(line, [0xef, 0xbb, 0xbf, ..])
}

/// The first part of a line at which its form fails.
fn ill_formed(line: &[u8]) -> Part
    requires { ¬ IsFormedLine line.now }
    ensures class { class result.why ≡ kinds.Form }
    ensures within { (result.begins ≤ result.ends) × (result.ends ≤ length line.now) }
    ensures place { IsIllFormedAt line.now result.begins result.ends }
{
    let mut is_part_empty = true;
    for (index, byte) in line.iter().enumerate() {
        if !may_follow(*byte, is_part_empty) {
            return Part {
                begins: index,
                ends: index + 1,
                why: why_ill_byte(line, index, *byte),
            };
        }
        is_part_empty = *byte == b' ';
    }
    if line.is_empty() {
        return Part {
            begins: 0,
            ends: 0,
            why: Why::Blank,
        };
    }
    Part {
        begins: line.len() - 1,
        ends: line.len(),
        why: Why::SpaceAtEnd,
    }
}

/// The part of a line at which it fails, by its limits.
fn limit_part(number: u32, bytes: &[u8], ended: bool) -> Option<Part>
    ensures found { MatchOption result ((¬ IsLong number bytes.now) × (ended ≡ true))
        (λ part. IsOverLimit number bytes.now ended (class part.why)) }
    ensures within { IfSome result (λ part. (part.begins ≤ part.ends)
        × (part.ends ≤ length bytes.now)) }
{
    if number > MAX_LINES {
        return Some(Part {
            begins: 0,
            ends: bytes.len(),
            why: Why::TooManyLines,
        });
    }
    if bytes.len() > MAX_LINE_BYTES {
        return Some(Part {
            begins: MAX_LINE_BYTES,
            ends: bytes.len(),
            why: Why::TooManyBytes,
        });
    }
    if !ended {
        return Some(Part {
            begins: bytes.len(),
            ends: bytes.len(),
            why: Why::Unended,
        });
    }
    None
}

/// The part at which the line of this number (from 1), given without its line end, fails: `None`
/// exactly where it is read. `ended` says whether it has its line end.
pub fn fault_part(number: u32, bytes: &[u8], ended: bool) -> Option<Part>
    // The kind of its fault is that which reading tells.
    ensures class { option_map (λ part. class part.why) result
        ≡ fault_of number (record { bytes = bytes.now; ended = ended }) }
    // Its columns stand in the line.
    ensures within { IfSome result (λ part. (part.begins ≤ part.ends)
        × (part.ends ≤ length bytes.now)) }
    // In a line within the limits that isn't well formed, the text before the columns is the
    // beginning of a well formed line, and no such line goes on as far as their end.
    ensures ill { IfSome result (λ part. (¬ IsLong number bytes.now) → ended ≡ true
        → (¬ IsFormedLine bytes.now) → IsIllFormedAt bytes.now part.begins part.ends) }
    // In one that is, they are those of a part, or the line's end where one is missing. The parts
    // before it are the beginning of some without a fault as early as the line's, and no parts
    // without a fault begin with those up to it.
    ensures place { IfSome result (λ part. (¬ IsLong number bytes.now) → ended ≡ true
        → IsFormedLine bytes.now → (index : ℕ)
        × IsPartAt bytes.now index part.begins part.ends
        × IsFirstMisfit (part_faults_of number) (parts_of bytes.now) index (class part.why)) }
{
    if let Some(part) = limit_part(number, bytes, ended) {
        return Some(part);
    }
    if !is_formed(bytes) {
        return Some(ill_formed(bytes));
    }
    let misfit = misfit_of(number, bytes)?;
    let (begins, ends) = columns_of(bytes, misfit.index);
    Some(Part {
        begins,
        ends,
        why: misfit.why,
    })
}

/// The keyword of a line that is read but is no command, where only commands may stand: as `begin`
/// and `watch` in a run on a heap that collects by itself.
pub fn no_command_part(line: &[u8]) -> Part
    ensures class { class result.why ≡ kinds.Word }
    ensures within { (result.begins ≤ result.ends) × (result.ends ≤ length line.now) }
{
    let index = if begins_with_digit(line) { 1 } else { 0 };
    let (begins, ends) = columns_of(line, index);
    Part {
        begins,
        ends,
        why: Why::NotCommand,
    }
}
