//! Sessions: entries that are played one after the other on one heap.

use crate::expectations::{Row, expect_bytes};
use crate::programs::{expect_fault, expect_message, expect_output, growing_heap, run_growing};
use refusing::RefusingAllocator;
use rh_growing::GrowingHeap;
use rh_lisp::{Fault, Program, Session, Typed};
use std::alloc::{Allocator, Global};
use std::process::Abort;
use std::rt::HostRuntime;

/// Entries, and what each prints: the value of each form. Or the fault of a text that is no program.
const ENTRIES: &[(&[u8], &[u8])] = &[
    (b"(define (f x) (* x 2))", b""),
    (b"(f 21)", b"42\n"),
    (b"(define g f) (f 1", b"1:18: unfinished"),
    (b"(define g f) (g 4)", b"8\n"),
    (b"(define (f x) 'lost) (cond (1 2) . 3)", b"1:22: bad form"),
    (b"(define (h x) (f (g x))) (h 5)", b"20\n"),
    (b"(define (f x) x)", b""),
    (b"(g 5) (h 5)", b"10\n10\n"),
    (
        b"(define k #f) (+ 1 (call/cc (lambda (c) (set! k c) 1)))",
        b"2\n",
    ),
    (b"(k 6)", b"7\n"),
    (b"(define (append a b) 'mine) (append 1 2)", b"mine\n"),
    (
        b"(define early 'early) (string-append \"a\" \"b\")",
        b"\"ab\"\n",
    ),
    (b"(symbol->string early)", b"\"early\"\n"),
    (
        b"(define (name s) (symbol->string s)) (define q '(1)) (define (p) '(2)) (define r (p))",
        b"",
    ),
    (b"(name 'late) (name early)", b"\"late\"\n\"early\"\n"),
    (b"'(3) (eq? r (p))", b"(3)\n#t\n"),
    (b"; nothing", b""),
    (b"(define (%tell x) 'mine) (g '7)", b"14\n"),
    (
        b"(define p (make-parameter 1)) (define-values (x y) (values 2 3))",
        b"",
    ),
    (
        b"(define-record-type cell (make-cell v) cell? (v value)) (define c (make-cell x))",
        b"",
    ),
    (
        b"(list (value c) (cell? 5) c) (guard (e (#t e)) (raise y))",
        b"(2 #f #<cell>)\n3\n",
    ),
    (b"(define b '|a b|) b", b"|a b|\n"),
    (
        b"(define s (string->symbol \"made\")) (list s (eq? s (string->symbol \"made\")))",
        b"(made #t)\n",
    ),
    (
        b"(list '|c d| b (string->symbol \"e f\") (symbol->string s))",
        b"(|c d| |a b| |e f| \"made\")\n",
    ),
    (
        b"(list b (eq? s (string->symbol \"made\")) (eq? 'late (string->symbol \"late\")))",
        b"(|a b| #t #t)\n",
    ),
    (b"(define (%%show x w) 1) (%%show 1 2)", b"1\n"),
];

/// Entries that need what those before them made, wherever its code stands, and what each prints.
const KEPT: &[(&[u8], &[u8])] = &[
    (b"(define (f x) (* x 2)) (define (g x) (f x))", b""),
    (
        b"(define k #f) (+ 1 (call/cc (lambda (c) (set! k c) 1)))",
        b"2\n",
    ),
    (b"(k 6)", b"7\n"),
    (
        b"(define (f x) (* x 3)) (define (p) '(2)) (define r (p))",
        b"",
    ),
    (b"(list (eq? r (p)) (f 5) (g 5))", b"(#t 15 15)\n"),
];

/// Entries that each begin at 1:1, and the message of each.
const TOLD: &[(&[u8], &[u8])] = &[
    (b"(define (f x) (* x x))", b""),
    (b"(f 1152921504606846975)", b"p:1:15: *: overflow"),
    (b"(define (g x) (- x 1))", b""),
    // It may be in f or in g now.
    (b"(f 1152921504606846975)", b"p:1:15: overflow"),
    (b"(define p (make-parameter 1))", b""),
    (
        b"(parameterize ((p 2)) (dynamic-wind list (lambda () (with-exception-handler list (lambda () (car 5)))) (lambda () (error \"after\"))))",
        b"p:1:93: car: not a pair",
    ),
    // The entry that stopped has left neither handlers nor the values of parameters.
    (b"(error \"p\" (p))", b"p:1:1: p 1"),
    (b"(define k #f) (call/cc (lambda (c) (set! k c)))", b""),
    (
        b"(dynamic-wind list (lambda () (car 5)) car)",
        b"p:1:31: car: not a pair",
    ),
    (b"(k 1)", b""),
];

/// Texts, and what a session takes each for.
const TYPED: &[(&[u8], Typed)] = &[
    (b"", Typed::Nothing),
    (
        b" \n; a comment\n#| and #| one |# more |# #;(left out)\n",
        Typed::Nothing,
    ),
    (b"(car '(1", Typed::Unfinished),
    (b"1 \"abc", Typed::Unfinished),
    (b"#| (", Typed::Unfinished),
    (b"1 '", Typed::Unfinished),
    (b"5 ; five\n", Typed::Whole),
    (b"(car 5))", Typed::Whole),
    (b"(1.5", Typed::Whole),
];

/// A session's language, which may put out so many characters and spend so many steps. No test
/// needs what is promised of that.
fn language_of<A: Allocator + Copy>(
    session: &Session<A>,
    most: u32,
    steps: u64,
) -> Result<Program<A>, Fault> {
    session.language(most, steps)
}

/// Runs a session's language on a heap.
fn run_language(rt: &impl Abort, session: &Session<Global>, heap: &mut GrowingHeap<Global>) {
    let language = language_of(session, 1_000, 400_000).ok();
    let mut language = language.expect(rt, "memory is ample");
    run_growing(&mut language, heap);
}

/// The program that a text is as the next entry, which may put out so many characters, or its
/// fault. No test needs what is promised of that.
fn entry_of<A: Allocator + Copy>(
    session: &mut Session<A>,
    text: Vec<u8, A>,
    most: u32,
) -> Result<Program<A>, Fault> {
    session.entry(text, most, 400_000)
}

/// Ends the test unless a program prints this.
fn expect_printed<R: AllocGlobal + Abort>(
    rt: &R,
    heap: &mut GrowingHeap<Global>,
    program: &mut Program<Global>,
    due: &[u8],
) {
    run_growing(program, heap);
    expect_output(rt, program, due);
}

/// Takes the program of the last entry back, where that is asked.
fn take_back_if(asked: bool, session: &mut Session<Global>, program: Program<Global>) {
    if asked {
        session.take_back(program);
    }
}

/// Ends the test unless the program of the last entry prints this. It is taken back, or it isn't.
fn expect_entry<R: AllocGlobal + Abort>(
    rt: &R,
    session: &mut Session<Global>,
    heap: &mut GrowingHeap<Global>,
    mut program: Program<Global>,
    due: &[u8],
    takes_back: bool,
) {
    expect_printed(rt, heap, &mut program, due);
    take_back_if(takes_back, session, program);
}

/// Ends the test unless an entry prints this, or has this fault. Its program is taken back, or it
/// isn't.
fn expect_answer<R: AllocGlobal + Abort>(
    rt: &R,
    session: &mut Session<Global>,
    heap: &mut GrowingHeap<Global>,
    (text, due): (&[u8], &[u8]),
    takes_back: bool,
) {
    let text = text.to_vec(rt.alloc()).expect(rt, "memory is ample");
    match entry_of(session, text, 1_000) {
        Ok(program) => expect_entry(rt, session, heap, program, due, takes_back),
        Err(fault) => expect_fault(rt, fault, due),
    }
}

/// Whether the program of this entry is taken back: all are, or each second one.
fn is_taken_back(row: usize, takes_all: bool) -> bool {
    takes_all || row % 2 == 0
}

/// Ends the test unless each of these entries prints what stands beside it. All programs are taken
/// back, or each second one.
fn expect_each<R: AllocGlobal + Abort>(
    rt: &R,
    session: &mut Session<Global>,
    heap: &mut GrowingHeap<Global>,
    entries: &[(&[u8], &[u8])],
    takes_all: bool,
) {
    for (row, &entry) in entries.iter().enumerate() {
        let takes_back = is_taken_back(row, takes_all);
        expect_answer(&Row { rt, row }, session, heap, entry, takes_back);
    }
}

/// Ends the test unless each of these entries of a new session prints what is due. All programs are
/// taken back, or each second one.
fn expect_entries<R: AllocGlobal + Abort>(rt: &R, entries: &[(&[u8], &[u8])], takes_all: bool) {
    let mut session = Session::new(rt.alloc());
    let mut heap = growing_heap(rt, 40_000);
    run_language(rt, &session, &mut heap);
    expect_each(rt, &mut session, &mut heap, entries, takes_all);
}

#[test]
fn entries_know_what_those_before_them_defined(rt: HostRuntime) {
    expect_entries(&rt, ENTRIES, true);
}

#[test]
fn programs_need_not_be_taken_back(rt: HostRuntime) {
    expect_entries(&rt, KEPT, false);
}

/// Ends the test unless an entry ends with this message.
fn expect_told<R: AllocGlobal + Abort>(
    rt: &R,
    session: &mut Session<Global>,
    heap: &mut GrowingHeap<Global>,
    (text, due): (&[u8], &[u8]),
) {
    let text = text.to_vec(rt.alloc()).expect(rt, "memory is ample");
    let program = entry_of(session, text, 1_000).ok();
    let mut program = program.expect(rt, "a program");
    let outcome = run_growing(&mut program, heap);
    expect_message(rt, &program, outcome, due);
    session.take_back(program);
}

#[test]
fn an_overflow_is_named_where_one_entry_alone_may_have_it(rt: HostRuntime) {
    let mut session = Session::new(rt.alloc());
    let mut heap = growing_heap(&rt, 40_000);
    run_language(&rt, &session, &mut heap);
    for (row, &entry) in TOLD.iter().enumerate() {
        expect_told(&Row { rt: &rt, row }, &mut session, &mut heap, entry);
    }
}

/// Ends the test unless the last entry is the one after a program that is taken back late.
fn take_back_late<R: AllocGlobal + Abort>(
    rt: &R,
    session: &mut Session<Global>,
    heap: &mut GrowingHeap<Global>,
) {
    let text = b"(define zig 1)".to_vec(rt.alloc());
    let text = text.expect(rt, "memory is ample");
    let program = entry_of(session, text, 9).ok();
    let mut program = program.expect(rt, "a program");
    run_growing(&mut program, heap);
    let next = (b"(define zag 2) (define zog 3)".as_slice(), b"".as_slice());
    expect_answer(rt, session, heap, next, false);
    session.take_back(program);
}

#[test]
fn a_program_of_an_earlier_entry_is_not_taken_for_the_last(rt: HostRuntime) {
    let mut session = Session::new(rt.alloc());
    let mut heap = growing_heap(&rt, 40_000);
    run_language(&rt, &session, &mut heap);
    take_back_late(&rt, &mut session, &mut heap);
    let last = (b"zog".as_slice(), b"3\n".as_slice());
    expect_answer(&rt, &mut session, &mut heap, last, true);
}

/// How many entries the long session has, and how many names each defines. With those of the
/// language they have several pages of globals.
const LONG: (u32, u32) = (40, 120);

/// The text that defines names that begin so, from one number on, as these numbers.
fn definitions<A: Allocator + Copy>(
    alloc: A,
    name: &str,
    first: u32,
    count: u32,
) -> Option<Vec<u8, A>> {
    let mut text = String::new(alloc);
    for number in first..first.saturating_add(count) {
        let line = format!(in alloc; "(define {name}{number} {number})").ok()?;
        text.push_str(line.as_str()).ok()?;
    }
    text.as_bytes().to_vec(alloc).ok()
}

/// Entries after the long one: they read, set and define what is in the first and the last page, by
/// a function and a continuation of an entry before too, and an own name of the language.
const AFTER: &[(&[u8], &[u8])] = &[
    (b"(list x0 x3000 x4000 x4799)", b"(0 3000 4000 4799)\n"),
    (b"(define (f) (+ x0 x4799)) (set! x4799 5) (f)", b"5\n"),
    (
        b"(set! x0 '(1 \"a\")) (define x3600 'far) x0 x3600",
        b"(1 \"a\")\nfar\n",
    ),
    (b"(set! x0 7) (f)", b"12\n"),
    (
        b"(define (car x) 'mine) (list (car x0) (cadr '(1 2)))",
        b"(mine 2)\n",
    ),
    (
        b"(define k #f) (+ x4799 (call/cc (lambda (c) (set! k c) 1)))",
        b"6\n",
    ),
    (b"(k 10)", b"15\n"),
    (b"(if)", b"1:1: bad form"),
    (b"(list x4798 (f) (car 1))", b"(4798 12 mine)\n"),
];

/// Ends the test unless an entry that needs another page has too few steps to make it.
fn stop_early<R: AllocGlobal + Abort>(
    rt: &R,
    session: &mut Session<Global>,
    heap: &mut GrowingHeap<Global>,
) {
    let text = definitions(rt.alloc(), "y", 0, 520);
    let program = session
        .entry(text.expect(rt, "memory is ample"), 9, 10)
        .ok();
    let mut program = program.expect(rt, "a program");
    let outcome = run_growing(&mut program, heap);
    expect_message(rt, &program, outcome, b"p:1:1: steps spent");
    session.take_back(program);
}

#[test]
fn a_session_has_more_globals_than_an_object_has_fields(rt: HostRuntime) {
    let mut session = Session::new(rt.alloc());
    let mut heap = growing_heap(&rt, 100_000);
    run_language(&rt, &session, &mut heap);
    let (entries, names) = LONG;
    for entry in 0..entries {
        let text = definitions(rt.alloc(), "x", entry.saturating_mul(names), names);
        let text = text.expect(&rt, "memory is ample");
        let row = entry as usize;
        expect_answer(
            &Row { rt: &rt, row },
            &mut session,
            &mut heap,
            (&text, b""),
            true,
        );
    }
    expect_each(&rt, &mut session, &mut heap, AFTER, true);
    stop_early(&rt, &mut session, &mut heap);
    let next = (
        b"(define y519 'there) y519".as_slice(),
        b"there\n".as_slice(),
    );
    expect_answer(&rt, &mut session, &mut heap, next, true);
}

/// What a text is taken for; nothing where memory was refused. No test needs what is promised of
/// that.
fn typed<A: Allocator + Copy>(alloc: A, text: &[u8]) -> Option<Typed> {
    Typed::of(alloc, text).ok()
}

/// Ends the test unless each of these texts is taken for what stands beside it.
fn expect_typed<R: AllocGlobal + Abort>(rt: &R, texts: &[(&[u8], Typed)]) {
    for (row, &(text, due)) in texts.iter().enumerate() {
        assert!(rt; typed(rt.alloc(), text) == Some(due), "row {row}");
    }
}

#[test]
fn texts_are_typed_to_an_end_or_not(rt: HostRuntime) {
    expect_typed(&rt, TYPED);
}

/// Whether what was typed is told exactly where the nth allocation isn't refused, and whether it
/// was.
fn is_typed_unless_refused<A: Allocator + Copy>(alloc: A, nth: u64) -> (bool, bool) {
    let memory = RefusingAllocator::new(alloc, nth);
    let is_told = typed(&memory, b"(a \"b\" (c") == Some(Typed::Unfinished);
    let is_refused = memory.has_refused();
    (is_told != is_refused, is_refused)
}

#[test]
fn refused_memory_is_no_unfinished_text(rt: HostRuntime) {
    let mut refused = 0u64;
    for nth in 1..100u64 {
        let (is_right, is_refused) = is_typed_unless_refused(rt.alloc(), nth);
        assert!(rt; is_right, "allocation {nth}");
        if !is_refused {
            break;
        }
        refused = nth;
    }
    assert!(rt; 3 < refused && refused < 99, "{refused} allocations");
}
