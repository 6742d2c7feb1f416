//! Traces that are drawn partway.

use crate::expectations::{Row, expect_equal};
use rh_core::ConfigFault;
use rh_text::IoLog;
use rh_trace::{Kind, TraceFault};
use rh_trace_views::{RunFault, draw_trace};
use samples::devices::{Broken, SlowReader, SlowWriter};
use samples::texts::WHOLE_CYCLE;
use std::alloc::Allocator;
use std::io;
use std::process::Abort;

/// Draws a trace. No test needs what `draw_trace` promises beside its answer.
fn draw<A: Allocator + Copy, R: io::Read, W: io::Write>(
    alloc: A,
    reader: &mut R,
    lines: u32,
    writer: &mut W,
) -> Result<(), RunFault> {
    let (mut reads, mut writes) = (IoLog::new(), IoLog::new());
    draw_trace(alloc, reader, &mut reads, lines, writer, &mut writes)
}

/// For so many lines of a trace of eleven the end of the picture's title, and how many boxes it has.
const PARTWAY: [(u32, &str, usize); 7] = [
    (0, "after line 1</title>", 0),
    (1, "after line 1</title>", 0),
    (2, "after line 2</title>", 1),
    (6, "after line 6</title>", 3),
    (9, "after line 9</title>", 4),
    (10, "after line 10</title>", 2),
    (99, "after line 11</title>", 2),
];

/// A cycle on an object with one field, which was stored to after the object was placed.
const SMALL: &[u8] =
    b"heap 16 64 4 2 1\n1 alloc 1.0 1\n1 store 1.0 0 1.0\nbegin\nidle 9\nshade 1.0\n1 store 1.0 0 -7\n";

/// What is drawn of its heap, behind the style.
const PICTURE: &str = "\
<rect class='page' width='100%' height='100%'/>
<text class='title' x='16' y='28'>The heap after line 7</text>
<text x='16' y='50'>used 3 free 13 cycle on epoch 1 number 2 log 1</text><text x='16' y='68'>granted 0 spent 3 placed 1 missing 1 idle 9</text>
<path class='placed' d='M158 170C158 210 158 198 158 238'/>
<path class='root' d='M116 144C132 144 122 122 146 122H150Q160 122 160 130'/>
<text class='caption' x='146' y='98'>From-space: 3 of 16 words used</text><text class='note' x='782' y='98'>#: number of a field's last store</text>
<text class='caption' x='16' y='98'>Roots</text>
<rect class='root-box' x='16' y='130' width='100' height='28'/><text x='22' y='149'>1.0</text><text class='value' x='90' y='149'>@0</text>
<g class='box'>
<rect class='object' x='146' y='130' width='159' height='40' rx='0'/>
</g>
<text class='word address' x='172' y='148'>@0</text><text class='small' x='172' y='163'>1 field</text>
<rect class='cell' x='255' y='133' width='47' height='34' rx='3'/>
<text class='value' x='278' y='150'>-7</text><text class='number' x='278' y='164'>#2</text>
<rect class='free' x='305' y='130' width='477' height='40'/><path class='end' d='M305 124V176'/>
<text class='caption' x='16' y='249'>To-space</text><text x='16' y='267'>3 of 16</text><text x='16' y='284'>words used</text>
<g class='box'>
<rect class='object' x='146' y='238' width='159' height='40' rx='0'/>
</g>
<text class='word address' x='172' y='256'>@0</text><text class='small' x='172' y='271'>1 field</text>
<rect class='missing' x='255' y='241' width='47' height='34' rx='3'/>
<text class='small' x='225' y='145'>replica at</text><text class='word' x='225' y='161'>@0</text>
<text class='small' x='225' y='253'>replica of</text><text class='word' x='225' y='269'>@0</text>
<rect class='free' x='305' y='238' width='477' height='40'/><path class='end' d='M305 232V284'/>
<path class='scan' d='M278 284l6 9h-12z'/><text class='small' x='278' y='305'>scan</text>
<text class='caption' x='16' y='324'>Log: 1 of 4 entries</text>
<text class='entry' x='16' y='346'>#2: @0 field 0 = -7</text>
<g class='legend' transform='translate(16 378)'>
<rect class='held' x='0' y='0' width='26' height='16'/><text x='32' y='13'>held</text>
<rect class='missing' x='76' y='0' width='26' height='16'/><text x='108' y='13'>not held</text>
<rect class='old' x='178' y='0' width='26' height='16'/><text x='210' y='13'>held, stored to since</text>
<path class='placed' d='M364 8h38'/><text x='410' y='13'>object to its replica</text>
<text class='past' x='562' y='13'>entry</text><text x='604' y='13'>looked at by a deal</text>
</g>
</svg>
";

/// The picture of a trace, which comes a byte a time, up to a line.
fn drawn(rt: &(impl AllocGlobal + Abort), trace: &[u8], lines: u32) -> Vec<u8> {
    let mut reader = SlowReader::new(trace, 0);
    let mut writer = SlowWriter::new(rt, 1_000, 0);
    let outcome = draw(rt.alloc(), &mut reader, lines, &mut writer);
    expect_equal(rt, outcome, Ok(()));
    writer.text
}

/// Expects a picture to have this title, and so many boxes.
fn expect_boxes(rt: &impl Abort, picture: &[u8], title: &str, boxes: usize) {
    let text = str::from_utf8(picture).ok().expect(rt, "text");
    let found = text.split("<g class='box").skip(1).count();
    expect_equal(rt, (text.contains(title), found), (true, boxes));
}

#[test]
fn a_trace_is_drawn_up_to_a_line(rt: HostRuntime) {
    for (row, &(lines, title, boxes)) in PARTWAY.iter().enumerate() {
        let rt = Row { rt: &rt, row };
        expect_boxes(&rt, &drawn(&rt, WHOLE_CYCLE, lines), title, boxes);
    }
}

/// Expects the picture after line 7: its size and title, and this text behind its style.
fn expect_picture(rt: &impl Abort, picture: &[u8], behind: &str) {
    let text = str::from_utf8(picture).ok().expect(rt, "text");
    let (head, shown) = text.split_once("</defs>\n").expect(rt, "a style");
    assert!(rt; head.starts_with("<svg xmlns='http://www.w3.org/2000/svg' width='800' height="));
    assert!(rt; head.contains("<title>The heap after line 7</title>\n<desc>A managed heap."));
    expect_equal(rt, shown, behind);
}

#[test]
fn a_whole_picture_is_as_it_was_looked_at(rt: HostRuntime) {
    expect_picture(&rt, &drawn(&rt, SMALL, 7), PICTURE);
}

#[test]
fn what_ends_a_drawing_is_told(rt: HostRuntime) {
    let mut writer = SlowWriter::new(&rt, 1_000, 0);
    let unread = draw(rt.alloc(), &mut Broken, 1, &mut writer);
    expect_equal(&rt, unread, Err(RunFault::Read));
    let mut reader = SlowReader::new(b"heap 7 1 1 1 1\n", 0);
    let small = draw(rt.alloc(), &mut reader, 1, &mut writer);
    expect_equal(&rt, small, Err(RunFault::New(ConfigFault::BadSpace)));
    let mut reader = SlowReader::new(b"heap 16 8 4 2 2\nbegun\n", 0);
    let fault = TraceFault {
        line: 2,
        kind: Kind::Word,
    };
    let faulty = draw(rt.alloc(), &mut reader, 1, &mut writer);
    expect_equal(&rt, faulty, Err(RunFault::Trace(fault)));
    assert!(rt; writer.text.is_empty());
    let mut reader = SlowReader::new(WHOLE_CYCLE, 0);
    let unwritten = draw(rt.alloc(), &mut reader, 1, &mut Broken);
    expect_equal(&rt, unwritten, Err(RunFault::Write));
}
