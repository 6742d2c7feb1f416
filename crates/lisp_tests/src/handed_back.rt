//! Programs that are run from their texts: each is handed back, and is the program of its text.

use crate::expectations::{Row, expect_bytes};
use rh_code::Code;
use rh_lisp::Program;
use rh_lisp_run::{HeapWords, Limits, MAX_OUTPUT, Ran, run_lisp, run_lisp_with_cycles};
use samples::devices::SlowReader;
use std::alloc::Global;
use std::process::Abort;
use std::rt::HostRuntime;

/// More steps than a program here does that ends.
const STEPS: u64 = 100_000;

/// Heaps, texts, and what the program of each prints.
const TEXTS: &[(HeapWords, &[u8], &[u8])] = &[
    (HeapWords::UpTo(65_536), b"", b""),
    (
        HeapWords::UpTo(65_536),
        b"(define (square x) (* x x)) (write (map square '(1 2 3)))",
        b"(1 4 9)",
    ),
    (
        HeapWords::Just(10_000),
        b"(write (symbol->string 'early)) (write 'late)",
        b"\"early\"late",
    ),
    (
        HeapWords::UpTo(65_536),
        b"(display 'before) (car 5)",
        b"before",
    ),
    (
        HeapWords::Just(10_000),
        b"(define (spend n) (cons n n) (spend (+ n 1))) (write 'spent) (spend 0)",
        b"spent",
    ),
];

/// What a program here may take on such a heap.
fn limits_on(heap: HeapWords) -> Limits {
    Limits { heap, steps: STEPS }
}

/// Runs a text, and answers the program that was handed back. Ends the test unless this is printed.
fn handed_back<R: AllocGlobal + Abort>(
    rt: &R,
    heap: HeapWords,
    text: &[u8],
    printed: &[u8],
) -> Program<Global> {
    let mut out = Vec::new(rt.alloc());
    let mut reader = SlowReader::new(text, 0);
    let ran = run_lisp(rt.alloc(), b"p", limits_on(heap), &mut reader, &mut out).ok();
    expect_bytes(rt, &out, printed);
    let Ran { program, .. } = ran.expect(rt, "a program");
    program
}

/// The same of a run whose cycles are written.
fn handed_back_with_cycles<R: AllocGlobal + Abort>(
    rt: &R,
    heap: HeapWords,
    text: &[u8],
    printed: &[u8],
) -> Program<Global> {
    let mut out = Vec::new(rt.alloc());
    let mut reader = SlowReader::new(text, 0);
    let cycles = Vec::new(rt.alloc());
    let limits = limits_on(heap);
    let (_, ran) = run_lisp_with_cycles(rt.alloc(), b"p", limits, &mut reader, &mut out, cycles);
    expect_bytes(rt, &out, printed);
    let Ran { program, .. } = ran.ok().expect(rt, "a program");
    program
}

/// The program that a text is.
fn program_of<R: AllocGlobal + Abort>(rt: &R, text: &[u8]) -> Program<Global> {
    let program = Program::new(rt.alloc(), text, MAX_OUTPUT, STEPS).ok();
    program.expect(rt, "a program")
}

/// Ends the test unless the two have the same instructions, from the same positions.
fn expect_code(rt: &impl Abort, got: &Code<Global>, wanted: &Code<Global>) {
    assert!(rt; got.len() == wanted.len());
    for place in 0..wanted.len() {
        assert!(rt; got.instruction(place) == wanted.instruction(place));
        assert!(rt; got.position(place) == wanted.position(place));
    }
}

/// Ends the test unless the symbols of the two have the same names.
fn expect_names(rt: &impl Abort, got: &Program<Global>, wanted: &Program<Global>) {
    assert!(rt; got.count_symbols() == wanted.count_symbols());
    for symbol in 0..u32::MAX {
        if wanted.count_symbols() <= symbol as usize {
            return;
        }
        expect_bytes(rt, got.name(symbol), wanted.name(symbol));
    }
}

/// Ends the test unless the two are programs of the same code.
fn expect_program(rt: &impl Abort, got: &Program<Global>, wanted: &Program<Global>) {
    expect_code(rt, got.code(), wanted.code());
    expect_names(rt, got, wanted);
}

/// Runs each of these texts, and ends the test unless the program of the text is handed back.
fn expect_handed_back<R: AllocGlobal + Abort>(rt: &R, texts: &[(HeapWords, &[u8], &[u8])]) {
    for (row, &(heap, text, printed)) in texts.iter().enumerate() {
        let rt = Row { rt, row };
        let wanted = program_of(&rt, text);
        expect_program(&rt, &handed_back(&rt, heap, text, printed), &wanted);
        let other = handed_back_with_cycles(&rt, heap, text, printed);
        expect_program(&rt, &other, &wanted);
    }
}

#[test]
fn the_program_of_the_text_is_handed_back(rt: HostRuntime) {
    expect_handed_back(&rt, TEXTS);
}
