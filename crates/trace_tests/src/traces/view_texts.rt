//! Requests, reports, faults and dumps, as texts of views.

use crate::expectations::{Row, expect_bytes, expect_equal};
use rh_layout::Refusal;
use rh_replay::{History, Verdict, check, read_history};
use rh_text::LineText;
use rh_trace::{Request, parse};
use rh_trace_views::{
    fault_json, put_json_dump, put_json_string, put_request_text, report_echo, report_json,
};
use samples::texts::{RIGHT, WRONG};
use std::process::Abort;

/// A line of each sort, below the first line of a trace.
const LINES: &[u8] = b"heap 16 8 4 2 2\n1 alloc 1.0 2\n1 raw 1.1 2\n1 load 1.1 1.0 0\n\
    1 store 1.0 0 -5\n1 store 1.0 0 1.1\n1 copy 1.1 1.0\n1 same 1.0 1.1\n1 drop 1.1\nbegin\n\
    shade 1.0\ndeal copies 9 t\ndeal entries 1 u\ngive t\njoin v t\nflip\nrecall\nabandon\n\
    idle 20\nresize 8\ntickets 3\n1 watch 1.0\nunwatch 2\ngone\ntrays\nstat\ndump\n";

/// Expects each request to have the text of its line.
fn expect_lines(rt: &impl Abort, requests: &[Request]) {
    let mut lines = LINES.split(|byte| *byte == b'\n');
    lines.next();
    let mut text = LineText::new();
    for (row, request) in requests.iter().enumerate() {
        let rt = Row { rt, row };
        put_request_text(&mut text, request);
        expect_bytes(&rt, text.as_bytes(), lines.next().unwrap_or(b"no line"));
    }
}

#[test]
fn a_request_has_the_text_of_its_line(rt: HostRuntime) {
    let trace = parse(rt.alloc(), LINES).ok().expect(&rt, "a trace");
    expect_lines(&rt, trace.requests());
    expect_equal(&rt, trace.requests().len(), 26);
}

/// Histories, each with its verdict, and the report on it as an echo and as JSON.
const REPORTS: &[(&[u8], Verdict, &[u8], &[u8])] = &[
    (
        RIGHT,
        Verdict::Legal(3),
        b"owner 1 calls 3\nlegal 3\n",
        b"{\"owner\":1,\"calls\":3}\n{\"legal\":3}\n",
    ),
    (
        WRONG,
        Verdict::Wrong {
            at: 2,
            expected: Err(Refusal::NoRoot),
        },
        b"owner 1 calls 2\nwrong 2 expected refused NoRoot\n3\t1 drop 2.0\tdone\n",
        b"{\"owner\":1,\"calls\":2}\n{\"wrong\":2,\"expected\":\"refused NoRoot\"}\n",
    ),
];

/// Expects the report on a history as an echo and as JSON.
fn expect_reports(
    rt: &(impl AllocGlobal + Abort),
    history: &History,
    verdict: &Verdict,
    (echo, json): (&[u8], &[u8]),
) {
    let told = report_echo(rt.alloc(), history, verdict).ok();
    expect_bytes(rt, &told.expect(rt, "an echo"), echo);
    let told = report_json(rt.alloc(), history, verdict).ok();
    expect_bytes(rt, &told.expect(rt, "JSON"), json);
}

#[test]
fn a_report_is_told_in_both_ways(rt: HostRuntime) {
    for (row, &(text, verdict, echo, json)) in REPORTS.iter().enumerate() {
        let rt = Row { rt: &rt, row };
        let history = read_history(rt.alloc(), text).ok();
        let history = history.expect(&rt, "a history");
        expect_equal(&rt, check(rt.alloc(), &history).ok(), Some(verdict));
        expect_reports(&rt, &history, &verdict, (echo, json));
    }
}

/// Expects the object of a fault.
fn expect_fault(
    rt: &(impl AllocGlobal + Abort),
    fault: &str,
    at: Option<(u32, &str)>,
    json: &[u8],
) {
    let told = fault_json(rt.alloc(), fault, at).ok();
    expect_bytes(rt, &told.expect(rt, "a fault"), json);
}

#[test]
fn a_fault_and_a_dump_are_objects(rt: HostRuntime) {
    let mut string = Vec::new(rt.alloc());
    assert!(rt; put_json_string(&mut string, "\"\\\n\u{1f}é").is_ok());
    expect_bytes(&rt, &string, b"\\\"\\\\\\u000a\\u001f\xc3\xa9");
    let bare = b"{\"fault\":\"read failed\"}\n";
    expect_fault(&rt, "read failed", None, bare);
    let placed = b"{\"fault\":\"line 3: \\\"\",\"line\":3,\"kind\":\"Trailing\"}\n";
    expect_fault(&rt, "line 3: \"", Some((3, "Trailing")), placed);
    let mut dump = LineText::new();
    put_json_dump(&mut dump, 2, 5);
    expect_bytes(&rt, dump.as_bytes(), b"{\"roots\":2,\"objects\":5}\n");
}
