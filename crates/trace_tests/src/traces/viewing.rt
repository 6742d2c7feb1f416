//! Runs seen in other ways: echoed, as JSON, with their history and their cycles.

use crate::expectations::{Row, expect_bytes, expect_equal, expect_prefix, expect_refusals};
use crate::texts::TOO_MANY;
use refusing::refused_in_turn;
use rh_cycles::{CycleReader, Cycles};
use rh_paced_trace::{Growing, Paced};
use rh_text::IoLog;
use rh_trace::{Fixed, NoFault, Pair, Player, WayFault};
use rh_trace_views::{CycleReading, Telling, views};
use samples::devices::SlowWriter;
use samples::texts::{COLUMNS, TWO_FLIPS, WHOLE_CYCLE};
use std::alloc::Allocator;
use std::io;
use std::process::Abort;

/// On which heap a trace is run.
#[derive(Clone, Copy)]
enum Way {
    Plain,
    Paced,
    Growing,
}

/// A trace, how it is run and told, and the three texts that it gives: what is told, the history,
/// and the lines of its cycles.
struct View {
    way: Way,
    telling: Telling,
    trace: &'static [u8],
    texts: [&'static [u8]; 3],
}

/// How a run ended that isn't done.
#[derive(Clone, Copy, Debug, PartialEq)]
enum Fault {
    Write,
    OutOfMemory,
    Other,
}

/// Runs a view by a way, on the writers of its three texts. `R` reads its cycles. No test needs what
/// `run` promises beside its answer.
fn run_by<A, P, F, Y, R, W, H, C>(
    alloc: A,
    view: &View,
    way: &Y,
    out: &mut W,
    history: &mut H,
    cycles: &mut C,
) -> Result<(), Fault>
where
    A: Allocator + Copy,
    P: Player<A> + Drop,
    F: Drop,
    Y: rh_trace::Way<A, P, F>,
    R: CycleReading<P> + Drop,
    W: io::Write,
    H: io::Write,
    C: io::Write,
{
    let mut seen = views::<R, A>(alloc, view.telling);
    let mut writers = Pair {
        first: out,
        second: Pair {
            first: history,
            second: cycles,
        },
    };
    let (mut reads, mut writes) = (IoLog::new(), IoLog::new());
    let mut text = view.trace;
    match rh_trace::run(
        alloc,
        &mut text,
        &mut reads,
        way,
        &mut seen,
        &mut writers,
        &mut writes,
    ) {
        Ok(_) => Ok(()),
        Err(WayFault::Write) => Err(Fault::Write),
        Err(WayFault::OutOfMemory) => Err(Fault::OutOfMemory),
        Err(_) => Err(Fault::Other),
    }
}

/// Runs a view on the writers of its three texts.
fn run<A: Allocator + Copy, W: io::Write, H: io::Write, C: io::Write>(
    alloc: A,
    view: &View,
    out: &mut W,
    history: &mut H,
    cycles: &mut C,
) -> Result<(), Fault> {
    match view.way {
        Way::Plain => run_by::<_, _, NoFault, _, CycleReader, _, _, _>(
            alloc, view, &Fixed, out, history, cycles,
        ),
        Way::Paced => {
            let paced = Paced { mark: None };
            run_by::<_, _, _, _, Cycles, _, _, _>(alloc, view, &paced, out, history, cycles)
        }
        Way::Growing => {
            let growing = Growing { at_most: 64 };
            run_by::<_, _, _, _, Cycles, _, _, _>(alloc, view, &growing, out, history, cycles)
        }
    }
}

/// The history of `TWO_FLIPS`, on each heap.
const TWO_FLIPS_HISTORY: &[u8] = b"history 2 2\n\
                1 alloc 1.0 2 = object 2\n1 alloc 1.0 2 = object 2\n1 alloc 1.0 2 = object 2\n\
                1 alloc 1.0 2 = object 2\n1 alloc 1.0 2 = object 2\n1 alloc 1.0 2 = object 2\n\
                1 alloc 1.0 2 = object 2\n1 alloc 1.0 2 = object 2\n1 alloc 1.0 2 = object 2\n\
                1 alloc 1.0 2 = object 2\n1 alloc 1.0 2 = object 2\nend 11\n";

/// A whole cycle, as an echo.
const ECHOED: View = View {
    way: Way::Plain,
    telling: Telling::Echo,
    trace: WHOLE_CYCLE,
    texts: [
        b"2\t1 alloc 1.0 2\tobject 2\n3\tbegin\tcycle 1\n4\t1 alloc 1.1 1\tobject 1\n\
            5\t1 store 1.0 0 1.1\tdone\n6\tshade 1.0\tplaced\n7\tshade 1.1\tplaced\n\
            8\tdeal copies 9 t\tdealt 3 passed 0\n\
            9\tgive t\tgiven joined 3 repeated 0 stale 0 placed 0\n\
            10\tflip\tflipped roots 2 live 7\n\
            11\tstat\tstat used 7 free 9 cycle off epoch 2 number 1 log 0 granted 24 spent 15 placed 0 missing 0 idle 0\n\
            total commands 3 refused 0 flips 1 rootwords 2\n",
        b"history 2 2\n1 alloc 1.0 2 = object 2\n1 alloc 1.1 1 = object 1\n\
            1 store 1.0 0 1.1 = done\nend 3\n",
        b"1\tflipped\t1\t3\t10\t4\t7\t0\t2\t24\t0\t15\t6\t1\t3\t0\t0\t0\t16\n",
    ],
};

/// A refusal by a limit stands in no history. What was abandoned has a line too.
const ABANDONED: View = View {
    way: Way::Plain,
    telling: Telling::Json,
    trace: b"heap 16 8 4 2 2\n1 alloc 1.0 1\n1 alloc 1.1 60\n1 drop 2.0\nbegin\n\
        idle 20\nshade 1.0\ndeal copies 1 t\ntrays\nstat\nabandon\ntrays\ndump\n",
    texts: [
        b"{\"line\":2,\"text\":\"1 alloc 1.0 1\",\"answer\":\"object 1\"}\n\
            {\"line\":3,\"text\":\"1 alloc 1.1 60\",\"answer\":\"refused SpaceFull need 62 free 13\"}\n\
            {\"line\":4,\"text\":\"1 drop 2.0\",\"answer\":\"refused NoRoot\"}\n\
            {\"line\":5,\"text\":\"begin\",\"answer\":\"cycle 1\"}\n\
            {\"line\":6,\"text\":\"idle 20\",\"answer\":\"idle 20\"}\n\
            {\"line\":7,\"text\":\"shade 1.0\",\"answer\":\"placed\"}\n\
            {\"line\":8,\"text\":\"deal copies 1 t\",\"answer\":\"dealt 1 passed 0\"}\n\
            {\"line\":9,\"text\":\"trays\",\"trays\":[{\"name\":\"t\",\"epoch\":1,\"entries\":1}]}\n\
            {\"line\":10,\"text\":\"stat\",\"stat\":{\"used\":3,\"free\":13,\"cycle\":true,\"epoch\":1,\"number\":0,\"log\":0,\"granted\":0,\"spent\":4,\"placed\":1,\"missing\":1,\"idle\":20}}\n\
            {\"line\":11,\"text\":\"abandon\",\"answer\":\"abandoned 1\"}\n\
            {\"line\":12,\"text\":\"trays\",\"trays\":[{\"name\":\"t\",\"epoch\":1,\"entries\":1}]}\n\
            {\"line\":13,\"dump\":\"rheap 2\"}\n{\"line\":13,\"dump\":\"roots 1\"}\n\
            {\"line\":13,\"dump\":\"1.0 @0\"}\n{\"line\":13,\"dump\":\"objects 1\"}\n\
            {\"line\":13,\"dump\":\"@0 1 nil\"}\n{\"line\":13,\"dump\":\"end\"}\n\
            {\"total\":{\"commands\":3,\"refused\":2,\"flips\":0,\"rootwords\":0}}\n",
        b"history 2 2\n1 alloc 1.0 1 = object 1\n1 drop 2.0 = refused NoRoot\nend 2\n",
        b"1\tabandoned\t1\t5\t11\t3\t3\t0\t1\t0\t20\t4\t3\t0\t0\t0\t0\t0\t16\n",
    ],
};

/// What each way gives.
const VIEWS: &[View] = &[
    ECHOED,
    ABANDONED,
    // No tray, one, and two; numbers of a heap with no cycle and in one.
    View {
        way: Way::Plain,
        telling: Telling::Json,
        trace: b"heap 64 8 8 2 2\n1 alloc 1.0 2\n1 alloc 1.1 1\n1 store 1.0 0 5\n\
            1 store 1.0 1 1.1\n1 drop 1.1\ntrays\nstat\nbegin\n1 alloc 1.1 3\n1 drop 1.1\n\
            shade 1.0\ndeal copies 1 early\n1 store 1.0 0 6\ndeal copies 9 rest\ntrays\n\
            give rest\ngive early\nstat\n",
        texts: [
            b"{\"line\":2,\"text\":\"1 alloc 1.0 2\",\"answer\":\"object 2\"}\n\
                {\"line\":3,\"text\":\"1 alloc 1.1 1\",\"answer\":\"object 1\"}\n\
                {\"line\":4,\"text\":\"1 store 1.0 0 5\",\"answer\":\"done\"}\n\
                {\"line\":5,\"text\":\"1 store 1.0 1 1.1\",\"answer\":\"done\"}\n\
                {\"line\":6,\"text\":\"1 drop 1.1\",\"answer\":\"done\"}\n\
                {\"line\":7,\"text\":\"trays\",\"trays\":[]}\n\
                {\"line\":8,\"text\":\"stat\",\"stat\":{\"used\":7,\"free\":57,\"cycle\":false,\"epoch\":1,\"number\":2,\"log\":0,\"granted\":0,\"spent\":0,\"placed\":0,\"missing\":0,\"idle\":0}}\n\
                {\"line\":9,\"text\":\"begin\",\"answer\":\"cycle 1\"}\n\
                {\"line\":10,\"text\":\"1 alloc 1.1 3\",\"answer\":\"object 3\"}\n\
                {\"line\":11,\"text\":\"1 drop 1.1\",\"answer\":\"done\"}\n\
                {\"line\":12,\"text\":\"shade 1.0\",\"answer\":\"placed\"}\n\
                {\"line\":13,\"text\":\"deal copies 1 early\",\"answer\":\"dealt 1 passed 0\"}\n\
                {\"line\":14,\"text\":\"1 store 1.0 0 6\",\"answer\":\"done\"}\n\
                {\"line\":15,\"text\":\"deal copies 9 rest\",\"answer\":\"dealt 1 passed 0\"}\n\
                {\"line\":16,\"text\":\"trays\",\"trays\":[{\"name\":\"early\",\"epoch\":1,\"entries\":1},{\"name\":\"rest\",\"epoch\":1,\"entries\":1}]}\n\
                {\"line\":17,\"text\":\"give rest\",\"answer\":\"given joined 1 repeated 0 stale 0 placed 1\"}\n\
                {\"line\":18,\"text\":\"give early\",\"answer\":\"given joined 0 repeated 0 stale 1 placed 0\"}\n\
                {\"line\":19,\"text\":\"stat\",\"stat\":{\"used\":12,\"free\":52,\"cycle\":true,\"epoch\":1,\"number\":3,\"log\":1,\"granted\":40,\"spent\":11,\"placed\":2,\"missing\":2,\"idle\":0}}\n\
                {\"total\":{\"commands\":8,\"refused\":0,\"flips\":0,\"rootwords\":0}}\n",
            b"history 2 2\n1 alloc 1.0 2 = object 2\n1 alloc 1.1 1 = object 1\n\
                1 store 1.0 0 5 = done\n1 store 1.0 1 1.1 = done\n1 drop 1.1 = done\n\
                1 alloc 1.1 3 = object 3\n\
                1 drop 1.1 = done\n1 store 1.0 0 6 = done\nend 8\n",
            b"",
        ],
    },
    // More is missing than placed.
    View {
        way: Way::Plain,
        telling: Telling::Json,
        trace: TOO_MANY,
        texts: [
            b"{\"line\":2,\"text\":\"1 alloc 1.0 65\",\"answer\":\"object 65\"}\n\
                {\"line\":3,\"text\":\"begin\",\"answer\":\"cycle 1\"}\n\
                {\"line\":4,\"text\":\"1 alloc 1.1 5\",\"answer\":\"object 5\"}\n\
                {\"line\":5,\"text\":\"shade 1.0\",\"answer\":\"placed\"}\n\
                {\"line\":6,\"text\":\"deal copies 64 a\",\"answer\":\"dealt 64 passed 0\"}\n\
                {\"line\":7,\"text\":\"deal copies 9 a\",\"answer\":\"dealt 1 passed 0\"}\n\
                {\"line\":8,\"text\":\"give a\",\"answer\":\"refused TooMany\"}\n\
                {\"line\":9,\"text\":\"stat\",\"stat\":{\"used\":74,\"free\":950,\"cycle\":true,\"epoch\":1,\"number\":0,\"log\":0,\"granted\":392,\"spent\":68,\"placed\":1,\"missing\":65,\"idle\":0}}\n\
                {\"total\":{\"commands\":2,\"refused\":0,\"flips\":0,\"rootwords\":0}}\n",
            b"history 2 2\n1 alloc 1.0 65 = object 65\n1 alloc 1.1 5 = object 5\nend 2\n",
            b"",
        ],
    },
    // Commands of each sort, and listings below lines of their own.
    View {
        way: Way::Plain,
        telling: Telling::Echo,
        trace: b"heap 64 8 8 2 2\n1 alloc 1.0 1\n1 load 1.1 1.0 0\n1 copy 1.1 1.0\n1 same 1.0 1.1\n\
            begin\n1 alloc 1.1 3\n1 drop 1.1\nshade 1.0\ndeal copies 1 t\ntrays\ndump\n",
        texts: [
            b"2\t1 alloc 1.0 1\tobject 1\n3\t1 load 1.1 1.0 0\tnil\n4\t1 copy 1.1 1.0\tobject 1\n\
                5\t1 same 1.0 1.1\tsame yes\n6\tbegin\tcycle 1\n7\t1 alloc 1.1 3\tobject 3\n\
                8\t1 drop 1.1\tdone\n9\tshade 1.0\tplaced\n10\tdeal copies 1 t\tdealt 1 passed 0\n\
                11\ttrays\t\ntray t epoch 1 entries 1\n\
                12\tdump\t\nrheap 2\nroots 1\n1.0 @0\nobjects 1\n@0 1 nil\nend\n\
                total commands 6 refused 0 flips 0 rootwords 0\n",
            b"history 2 2\n1 alloc 1.0 1 = object 1\n1 load 1.1 1.0 0 = nil\n\
                1 copy 1.1 1.0 = object 1\n1 same 1.0 1.1 = same yes\n1 alloc 1.1 3 = object 3\n\
                1 drop 1.1 = done\nend 6\n",
            b"",
        ],
    },
    View {
        way: Way::Paced,
        telling: Telling::Json,
        trace: TWO_FLIPS,
        texts: [
            b"{\"line\":2,\"text\":\"1 alloc 1.0 2\",\"answer\":\"object 2\"}\n\
                {\"line\":3,\"text\":\"1 alloc 1.0 2\",\"answer\":\"object 2\"}\n\
                {\"line\":4,\"text\":\"1 alloc 1.0 2\",\"answer\":\"object 2\"}\n\
                {\"line\":5,\"text\":\"1 alloc 1.0 2\",\"answer\":\"object 2\"}\n\
                {\"line\":6,\"text\":\"1 alloc 1.0 2\",\"answer\":\"object 2\"}\n\
                {\"line\":7,\"text\":\"1 alloc 1.0 2\",\"answer\":\"object 2\"}\n\
                {\"line\":8,\"text\":\"1 alloc 1.0 2\",\"answer\":\"object 2\"}\n\
                {\"line\":9,\"text\":\"1 alloc 1.0 2\",\"answer\":\"object 2\"}\n\
                {\"line\":10,\"text\":\"1 alloc 1.0 2\",\"answer\":\"object 2\"}\n\
                {\"line\":11,\"text\":\"1 alloc 1.0 2\",\"answer\":\"object 2\"}\n\
                {\"line\":12,\"text\":\"1 alloc 1.0 2\",\"answer\":\"object 2\"}\n\
                {\"total\":{\"commands\":11,\"refused\":0,\"flips\":2,\"rootwords\":2}}\n",
            TWO_FLIPS_HISTORY,
            b"1\tflipped\t1\t6\t7\t20\t4\t20\t1\t32\t0\t9\t9\t0\t-\t-\t-\t-\t29\n\
                2\tflipped\t2\t11\t12\t20\t4\t20\t1\t32\t0\t9\t9\t0\t-\t-\t-\t-\t29\n",
        ],
    },
    View {
        way: Way::Growing,
        telling: Telling::Answers,
        trace: TWO_FLIPS,
        texts: [
            b"object 2\nobject 2\nobject 2\nobject 2\nobject 2\nobject 2\nobject 2\nobject 2\n\
                object 2\nobject 2\nobject 2\ntotal commands 11 refused 0 flips 3 rootwords 3\n",
            TWO_FLIPS_HISTORY,
            b"1\tflipped\t1\t4\t5\t12\t4\t12\t1\t32\t0\t9\t9\t0\t-\t-\t-\t-\t29\n\
                2\tflipped\t2\t7\t8\t12\t4\t12\t1\t32\t0\t9\t9\t0\t-\t-\t-\t-\t29\n\
                3\tflipped\t3\t10\t11\t12\t4\t12\t1\t32\t0\t9\t9\t0\t-\t-\t-\t-\t29\n",
        ],
    },
];

/// Which of the three writers fails.
#[derive(Clone, Copy)]
enum Failing {
    Out,
    History,
    Cycles,
}

/// A writer that fails at its nth write if it is the one that fails.
fn writer(rt: &impl AllocGlobal, fails: bool, nth: u32) -> SlowWriter {
    SlowWriter::new(rt, 1000, if fails { nth } else { 0 })
}

/// Expects prefixes of the three texts of a view.
fn expect_prefixes(rt: &impl Abort, view: &View, (out, noted, cycles): (&[u8], &[u8], &[u8])) {
    let [told, history, lines] = view.texts;
    expect_prefix(rt, told, out);
    expect_prefix(rt, history, noted);
    match cycles.strip_prefix(COLUMNS) {
        Some(rest) => expect_prefix(rt, lines, rest),
        None => expect_prefix(rt, COLUMNS, cycles),
    }
}

/// Whether a run is done. If not, a write has failed, and not all is told.
fn is_whole(rt: &impl Abort, view: &View, done: Result<(), Fault>, out: &[u8]) -> bool {
    if done.is_ok() {
        return true;
    }
    expect_equal(rt, done, Err(Fault::Write));
    assert!(rt; out.len() < view.texts[0].len());
    false
}

/// Runs a view on writers of which one fails at its nth write, and expects prefixes of its texts; of
/// what is told a whole one only if the run is done. Answers whether it is.
fn is_done(rt: &(impl AllocGlobal + Abort), view: &View, failing: Failing, nth: u32) -> bool {
    let mut out = writer(rt, matches!(failing, Failing::Out), nth);
    let mut noted = writer(rt, matches!(failing, Failing::History), nth);
    let mut cycles = writer(rt, matches!(failing, Failing::Cycles), nth);
    let done = run(rt.alloc(), view, &mut out, &mut noted, &mut cycles);
    expect_prefixes(rt, view, (&out.text, &noted.text, &cycles.text));
    is_whole(rt, view, done, &out.text)
}

/// How many writes of a writer failed in turn before the run was done.
fn failed_writes(rt: &(impl AllocGlobal + Abort), view: &View, failing: Failing) -> u32 {
    for nth in 1..100u32 {
        if is_done(rt, view, failing, nth) {
            return nth - 1;
        }
    }
    0
}

/// Expects the three texts of a view.
fn expect_whole(rt: &impl Abort, view: &View, (out, noted, cycles): (&[u8], &[u8], &[u8])) {
    let [told, history, lines] = view.texts;
    expect_bytes(rt, out, told);
    expect_bytes(rt, noted, history);
    expect_prefix(rt, cycles, COLUMNS);
    expect_bytes(rt, cycles.strip_prefix(COLUMNS).unwrap_or(b""), lines);
}

/// Runs a view, and expects its three texts.
fn expect_view(rt: &(impl AllocGlobal + Abort), view: &View) {
    let (mut out, mut noted) = (Vec::new(rt.alloc()), Vec::new(rt.alloc()));
    let mut cycles = Vec::new(rt.alloc());
    let done = run(rt.alloc(), view, &mut out, &mut noted, &mut cycles);
    expect_equal(rt, done, Ok(()));
    expect_whole(rt, view, (&out, &noted, &cycles));
}

#[test]
fn each_way_gives_its_three_texts(rt: HostRuntime) {
    for (row, view) in VIEWS.iter().enumerate() {
        expect_view(&Row { rt: &rt, row }, view);
    }
}

#[test]
fn each_write_fails_in_turn(rt: HostRuntime) {
    let view = &ECHOED;
    // Ten lines and the total; of the text of cycles two lines.
    expect_equal(&rt, failed_writes(&rt, view, Failing::Out), 11);
    assert!(rt; 0 < failed_writes(&rt, view, Failing::History));
    expect_equal(&rt, failed_writes(&rt, view, Failing::Cycles), 2);
}

/// Whether a run was cut short, for want of memory. Then nothing of the history was written.
fn is_cut(rt: &impl Abort, done: Result<(), Fault>, noted: &[u8]) -> bool {
    if done.is_ok() {
        return false;
    }
    expect_equal(rt, done, Err(Fault::OutOfMemory));
    expect_equal(rt, noted.len(), 0);
    true
}

/// Whether memory was refused.
fn is_refused<A: Allocator + Copy>(rt: &(impl AllocGlobal + Abort), memory: A) -> bool {
    let view = &ABANDONED;
    let (mut out, mut noted) = (Vec::new(rt.alloc()), Vec::new(rt.alloc()));
    let mut cycles = Vec::new(rt.alloc());
    let done = run(memory, view, &mut out, &mut noted, &mut cycles);
    expect_prefix(rt, view.texts[0], &out);
    is_cut(rt, done, &noted)
}

#[test]
fn each_allocation_is_refused_in_turn(rt: HostRuntime) {
    let refused = refused_in_turn(rt.alloc(), |memory| is_refused(&rt, memory));
    expect_refusals(&rt, refused, 20);
}
