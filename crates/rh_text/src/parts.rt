//! A line cut into parts.

ghost use Rattle.std.specs.Prelude.{◌≡◌};
ghost use Rattle.std.specs.Option.{option_map};
ghost use Rattle.std.specs.Str.{bytes_eq};
ghost use Rattle.rh_text.specs.Parts.{cut_at, parts_left, may_follow, is_formed, has_dot, begins_with_digit, first_and_rest, first_three, end_of, one_part, two_parts, three_parts, six_parts};

/// The part is this text.
#[inline(always)]
pub fn is_text(part: &[u8], text: &[u8]) -> bool
    ensures { result ≡ bytes_eq part.now text.now }
{
    part == text
}

/// What stands before the first byte `at`, and what stands after it.
pub fn cut(bytes: &[u8], at: u8) -> Option<(&[u8], &[u8])>
    ensures { option_map (λ x. (x.0.now, x.1.now)) result ≡ cut_at at bytes.now }
{
    for (i, b) in bytes.iter().enumerate() {
        if *b == at {
            return Some((&bytes[..i], &bytes[i + 1..]));
        }
    }
    None
}

/// The byte may come next in a line: it is printable, and no space where a part begins.
fn may_follow(byte: u8, is_part_empty: bool) -> bool
    ensures { result ≡ may_follow byte is_part_empty }
{
    if byte == b' ' {
        return !is_part_empty;
    }
    (b' '..=b'~').contains(&byte)
}

/// All bytes are from 32 to 126, and no part is empty.
#[tactic(auto, unfolding(crate::specs::Parts::is_formed))]
pub fn is_formed(line: &[u8]) -> bool
    ensures { result ≡ is_formed line.now }
{
    let mut is_part_empty = true;
    for byte in line {
        if !may_follow(*byte, is_part_empty) {
            return false;
        }
        is_part_empty = *byte == b' ';
    }
    !is_part_empty
}

/// The first part that is left of a line, and what is left after it: `None` where no part is.
pub fn next_part(rest: Option<&[u8]>) -> Option<(&[u8], Option<&[u8]>)>
    ensures { option_map (λ x. (x.0.now, parts_left x.1)) result
        ≡ first_and_rest (parts_left rest.entry) }
{
    let bytes = rest?;
    match cut(bytes, b' ') {
        Some((part, after)) => Some((part, Some(after))),
        None => Some((bytes, None)),
    }
}

/// No part is left.
fn end(rest: Option<&[u8]>) -> Option<()>
    ensures { result ≡ end_of (parts_left rest.entry) }
{
    match rest {
        None => Some(()),
        Some(_) => None,
    }
}

/// The one part that is left, where it is just one.
#[tactic(auto, unfolding(crate::specs::Parts::one_part))]
pub fn one_part(rest: Option<&[u8]>) -> Option<&[u8]>
    ensures { option_map (λ x. x.now) result ≡ one_part (parts_left rest.entry) }
{
    let (first, rest) = next_part(rest)?;
    end(rest)?;
    Some(first)
}

/// The two parts that are left, where they are just two.
#[tactic(auto, unfolding(crate::specs::Parts::two_parts))]
pub fn two_parts(rest: Option<&[u8]>) -> Option<(&[u8], &[u8])>
    ensures { option_map (λ x. (x.0.now, x.1.now)) result ≡ two_parts (parts_left rest.entry) }
{
    let (first, rest) = next_part(rest)?;
    let (second, rest) = next_part(rest)?;
    end(rest)?;
    Some((first, second))
}

/// The first three parts that are left of a line, and what is left after them: `None` where fewer
/// are.
fn next_three(rest: Option<&[u8]>) -> Option<(&[u8], &[u8], &[u8], Option<&[u8]>)>
    ensures { option_map (λ x. (x.0.now, x.1.now, x.2.now, parts_left x.3)) result
        ≡ first_three (parts_left rest.entry) }
{
    let (first, rest) = next_part(rest)?;
    let (second, rest) = next_part(rest)?;
    let (third, rest) = next_part(rest)?;
    Some((first, second, third, rest))
}

/// The three parts that are left, where they are just three.
pub fn three_parts(rest: Option<&[u8]>) -> Option<(&[u8], &[u8], &[u8])>
    ensures { option_map (λ x. (x.0.now, x.1.now, x.2.now)) result
        ≡ three_parts (parts_left rest.entry) }
{
    let (first, second, third, rest) = next_three(rest)?;
    end(rest)?;
    Some((first, second, third))
}

/// The six parts that are left, where they are just six.
pub fn six_parts(rest: Option<&[u8]>) -> Option<(&[u8], &[u8], &[u8], &[u8], &[u8], &[u8])>
    ensures { option_map (λ x. (x.0.now, x.1.now, x.2.now, x.3.now, x.4.now, x.5.now)) result
        ≡ six_parts (parts_left rest.entry) }
{
    let (first, second, third, rest) = next_three(rest)?;
    let (fourth, fifth, sixth) = three_parts(rest)?;
    Some((first, second, third, fourth, fifth, sixth))
}

/// The part has a dot.
pub fn has_dot(part: &[u8]) -> bool
    ensures { result ≡ has_dot part.now }
{
    part.contains(&b'.')
}

/// The part begins with a digit.
pub fn begins_with_digit(part: &[u8]) -> bool
    ensures { result ≡ begins_with_digit part.now }
{
    match part {
        [] => false,
        [first, ..] => first.is_ascii_digit(),
    }
}
