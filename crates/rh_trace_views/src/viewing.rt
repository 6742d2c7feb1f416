//! Makes the text of a line under `--echo` and `--json`, for `told.rt` to write.

ghost use Rattle.std.specs.Prelude.{◌≡◌, ◌++◌, OnOk};
ghost use Rattle.rh_trace_views.specs.Views.{echo_start, is_structured, json_dump_line, json_dump_lines, json_start, json_told, listing_start, total_text, unended, view_of};

use crate::buffer::{put, put_part};
use crate::json::put_json_total;
use crate::sort::{Sort, sort_of};
use rh_choices::Telling;
use rh_layout::OutOfMemory;
use rh_syntax::{Request, put_request_text};
use rh_text::{LineText, first_line};
use rh_trace::{Summary, put_total};
use std::alloc::Allocator;

/// A text without its last byte.
fn unended(text: &[u8]) -> &[u8]
    ensures { result.now ≡ unended text.now }
{
    &text[..text.len().saturating_sub(1)]
}

/// Puts a line end before a listing.
fn put_listing_start<A: Allocator>(text: &mut Vec<u8, A>, sort: Sort) -> Result<(), OutOfMemory>
    ensures { OnOk result (text.new.items ≡ text.old.items ++ listing_start sort) }
{
    match sort {
        Sort::Line => Ok(()),
        Sort::Trays => {
            put(text, b"\n")?;
            Ok(())
        }
        Sort::Stat => Ok(()),
        Sort::Dump => {
            put(text, b"\n")?;
            Ok(())
        }
    }
}

/// Puts a line's number and text, with a tab after each, and a line end before a listing. The line's
/// text is made in `part`, as below.
fn put_echo_start<A: Allocator>(
    text: &mut Vec<u8, A>,
    part: &mut LineText,
    line: u64,
    request: &Request,
) -> Result<(), OutOfMemory>
    ensures { OnOk result (text.new.items ≡ text.old.items ++ echo_start line request.now) }
{
    put_request_text(part, request);
    put_part(text, b"", line)?;
    put(text, b"\t")?;
    put(text, part.as_bytes())?;
    put(text, b"\t")?;
    put_listing_start(text, sort_of(request))?;
    Ok(())
}

/// Puts the start of a line's object.
fn put_json_start<A: Allocator>(
    text: &mut Vec<u8, A>,
    part: &mut LineText,
    line: u64,
    request: &Request,
) -> Result<(), OutOfMemory>
    ensures { OnOk result (text.new.items ≡ text.old.items ++ json_start line request.now) }
{
    put_request_text(part, request);
    put_part(text, b"{\"line\":", line)?;
    put(text, b",\"text\":\"")?;
    put(text, part.as_bytes())?;
    put(text, b"\",\"")?;
    Ok(())
}

/// Puts the object of a line of a dump.
fn put_dump_line<A: Allocator>(
    text: &mut Vec<u8, A>,
    line: u64,
    bytes: &[u8],
) -> Result<(), OutOfMemory>
    ensures { OnOk result (text.new.items ≡ text.old.items ++ json_dump_line line bytes.now) }
{
    put_part(text, b"{\"line\":", line)?;
    put(text, b",\"dump\":\"")?;
    put(text, bytes)?;
    put(text, b"\"}\n")?;
    Ok(())
}

/// Puts the object of each line of a dump.
fn put_dump_lines<A: Allocator>(
    text: &mut Vec<u8, A>,
    line: u64,
    dump: &[u8],
) -> Result<(), OutOfMemory>
    ensures { OnOk result (text.new.items
        ≡ text.old.items ++ json_dump_lines line dump.now) }
{
    let mut rest = dump;
    while !rest.is_empty() {
        let (bytes, _ended, after) = first_line(rest);
        put_dump_line(text, line, bytes)?;
        rest = after;
    }
    Ok(())
}

/// Puts the object of a line of which this is told between these bytes.
fn put_object<A: Allocator>(
    text: &mut Vec<u8, A>,
    part: &mut LineText,
    line: u64,
    request: &Request,
    before: &[u8],
    told: &[u8],
    after: &[u8],
) -> Result<(), OutOfMemory>
    ensures { OnOk result (text.new.items ≡ text.old.items
        ++ (json_start line request.now ++ (before.now ++ (told.now ++ after.now)))) }
{
    put_json_start(text, part, line, request)?;
    put(text, before)?;
    put(text, told)?;
    put(text, after)?;
    Ok(())
}

/// Puts the object of a line, or those of the lines of a dump, of which this is told.
fn put_json<A: Allocator>(
    text: &mut Vec<u8, A>,
    part: &mut LineText,
    line: u64,
    request: &Request,
    told: &[u8],
) -> Result<(), OutOfMemory>
    ensures { OnOk result (text.new.items
        ≡ text.old.items ++ json_told line request.now told.now) }
{
    match sort_of(request) {
        Sort::Line => put_object(
            text,
            part,
            line,
            request,
            b"answer\":\"",
            unended(told),
            b"\"}\n",
        ),
        Sort::Trays => put_object(text, part, line, request, b"trays\":[", told, b"]}\n"),
        Sort::Stat => put_object(text, part, line, request, b"stat\":{", told, b"}}\n"),
        Sort::Dump => put_dump_lines(text, line, told),
    }
}

/// Puts what a telling puts for a line of which this is told.
///
/// # Errors
///
/// `OutOfMemory` where memory for it was refused.
#[inline(always)]
pub(crate) fn put_view<A: Allocator>(
    text: &mut Vec<u8, A>,
    part: &mut LineText,
    telling: Telling,
    line: u64,
    request: &Request,
    told: &[u8],
) -> Result<(), OutOfMemory>
    ensures { OnOk result (text.new.items
        ≡ text.old.items ++ view_of telling line request.now told.now) }
{
    match telling {
        Telling::Answers => {
            put(text, told)?;
            Ok(())
        }
        Telling::Echo => {
            put_echo_start(text, part, line, request)?;
            put(text, told)?;
            Ok(())
        }
        Telling::Json => {
            put_json(text, part, line, request, told)?;
            Ok(())
        }
    }
}

/// Whether the numbers of a heap and its trays are told by their members.
pub(crate) fn is_structured(telling: Telling) -> bool
    ensures { result ≡ is_structured telling }
{
    match telling {
        Telling::Answers => false,
        Telling::Echo => false,
        Telling::Json => true,
    }
}

/// The text becomes what a telling puts at the end.
pub(crate) fn put_end(text: &mut LineText, telling: Telling, summary: &Summary)
    ensures { text.new ≡ total_text telling summary.now }
{
    match telling {
        Telling::Answers => put_total(text, summary),
        Telling::Echo => put_total(text, summary),
        Telling::Json => put_json_total(text, summary),
    }
}
