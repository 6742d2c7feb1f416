//! Programs at the edges of what the language's procedures and forms do: signs, ends, nothing, and the
//! greatest that there may be.

use crate::programs::{expect_faults, expect_run, expect_runs, expect_stops, fault_of};
use samples::texts::repeated;
use std::process::Abort;
use std::rt::HostRuntime;

/// Programs, and what they print: what another Scheme prints.
const RUNS: &[(&[u8], &[u8])] = &[
    (
        b"(write (map zero? '(0 1 -1))) (write (map positive? '(1 0 -1))) (write (map negative? '(-1 0 1)))",
        b"(#t #f #f)(#t #f #f)(#t #f #f)",
    ),
    (
        b"(write (list (caar '((1 . 2) 3)) (cdar '((1 . 2) 3)) (cadr '(1 2 3)) (cddr '(1 2 3))))",
        b"(1 2 2 (3))",
    ),
    (
        b"(write (list (member (list 2) '((1) (2) (3))) (assoc \"b\" '((\"a\" . 1) (\"b\" . 2))) (memq 'c '(a b c d)) (assq 'b '((a 1) (b 2))) (memv 5 '(1 2)) (assv 3 '((1 . 2) (3 . 4)))))",
        b"(((2) (3)) (\"b\" . 2) (c d) (b 2) #f (3 . 4))",
    ),
    (
        b"(write (map boolean? (list #t #f '() 0 'a \"\")))",
        b"(#t #t #f #f #f #f)",
    ),
    (
        b"(write (map even? '(0 2 -2 3 -3 1 -1))) (write (map odd? '(0 2 -2 3 -3 1 -1)))",
        b"(#t #t #t #f #f #f #f)(#f #f #f #t #t #t #t)",
    ),
    (
        b"(write (list (min 3 1 2) (min 1 2 3) (min 2 3 1) (max 1 3 2) (max 3 2 1) (max 1 2 3) (min 4) (max 4)))",
        b"(1 1 1 3 3 3 4 4)",
    ),
    (
        b"(write (list (append '(1) '(2) '(3 4)) (append) (append '(1)) (append '(1) 2) (append '() '() '(5)) (append '(1) '(2) 3)))",
        b"((1 2 3 4) () (1) (1 . 2) (5) (1 2 . 3))",
    ),
    (
        b"(write (list (substring \"abc\" 3) (substring \"abc\" 0 0) (substring \"abc\" 3 3) (substring \"abc\" 0 3)))",
        b"(\"\" \"\" \"\" \"abc\")",
    ),
    (
        b"(write (list (equal? #(1 2 3) #(1 2 4)) (equal? #(1 2 3) #(1 2 3)) (equal? #(1 2 3) #(0 2 3)) (equal? #(1 2) #(1 2 3))))",
        b"(#f #t #f #f)",
    ),
    (
        b"(write (map char->integer (map integer->char '(0 10 127 128 200 255)))) (write (string-length (string (integer->char 128) (integer->char 255))))",
        b"(0 10 127 128 200 255)2",
    ),
    (
        b"(display \"\\x41;\\xe9;\\x80;\\xff;\") (write-char (integer->char 233))",
        b"A\xe9\x80\xff\xe9",
    ),
    (
        b"(write (do ((i 0 (+ i 1)) (l '() (cons i l))) ((= i 3) l))) (do ((i 0 (+ i 1))) ((= i 3)) (write i))",
        b"(2 1 0)012",
    ),
    (
        b"(define n 0) (write (or (begin (set! n (+ n 1)) n) 2)) (write n) (write (and (begin (set! n (+ n 1)) n) 5)) (write n)",
        b"1152",
    ),
    (
        b"(write (list (case 5 ((1 2 3 4 5) 'a) (else 'b)) (case 1 ((1 2 3 4 5) 'a) (else 'b)) (case 6 ((1 2 3 4 5) 'a) (else 'b)) (case 'x ((y) 1) ((z x) 2))))",
        b"(a a b 2)",
    ),
    (
        b"(write (list (if car 1 2) (if 0 1 2) (if '() 1 2) (if \"\" 1 2) (if #f 1 2) (if (lambda () 1) 1 2)))",
        b"(1 1 1 1 2 1)",
    ),
    (
        b"(write (list (eq? 'a 'b) (eq? 'a 'a) (if (eq? 'a 'b) 1 2) (if (eq? 'a 'a) 1 2) (if (eq? 5 5) 1 2) (if (eq? '() '()) 1 2)))",
        b"(#f #t 2 1 1 1)",
    ),
    (
        b"(write (letrec ((f (lambda (n) (if (= n 0) 'done (f (- n 1)))))) (set! f (lambda (n) (list n))) (f 3)))",
        b"(3)",
    ),
    (
        b"(write (letrec* ((a 5) (b (+ a 1)) (c (lambda () (* a b)))) (c)))",
        b"30",
    ),
    (
        b"(write (list (apply + 1 2 '(3 4)) (apply max '(3 1 2)) (apply list '())))",
        b"(10 3 ())",
    ),
    (
        b"(write (list (quotient -7 2) (remainder -7 2) (modulo -7 2) (modulo 7 -2) (remainder 7 -2) (modulo -6 3) (remainder -6 3)))",
        b"(-3 -1 1 -1 1 0 0)",
    ),
];

/// Programs that stop, and how that is told.
const STOPS: &[(&[u8], &[u8])] = &[
    (
        b"(define (f a b) a) (f 1)",
        b"p:1:20: wrong number of arguments",
    ),
    (b"(apply + (vector 1 2))", b"p:1:1: apply: not a list"),
    (b"(remainder 1 0)", b"p:1:1: remainder: division by zero"),
    (b"(modulo 1 0)", b"p:1:1: modulo: division by zero"),
    (b"(quotient 5 0)", b"p:1:1: quotient: division by zero"),
    (
        b"(integer->char 256)",
        b"p:1:1: integer->char: out of range",
    ),
    (b"(integer->char -1)", b"p:1:1: integer->char: out of range"),
    (b"(make-vector 4095 0)", b"p:1:1: make-vector: out of range"),
    (b"(make-vector -1 0)", b"p:1:1: make-vector: out of range"),
    (b"\t(car 5)", b"p:1:2: car: not a pair"),
    (
        b"(define (f) (display 'abcdefghij) (f)) (f)",
        b"p:1:13: too much output",
    ),
    (b"(define (f) (f)) (f)", b"p:1:13: steps spent"),
    (
        b"(string-ref \"abc\" 3)",
        b"p:1:1: string-ref: out of range",
    ),
    (
        b"(vector-ref (vector 1) -1)",
        b"p:1:1: vector-ref: out of range",
    ),
];

/// Texts that are no programs, and their faults.
const FAULTS: &[(&[u8], &[u8])] = &[
    (b"(. 1)", b"1:2: misplaced dot"),
    (b"'(1\n 2 . 3 4)", b"2:8: misplaced dot"),
    (b"(write '(1\n\t2 #nosuch))", b"2:4: no such datum"),
    (b"\t\t)", b"1:3: unexpected )"),
];

#[test]
fn procedures_and_forms_at_their_edges(rt: HostRuntime) {
    expect_runs(&rt, RUNS);
}

#[test]
fn programs_that_pass_an_edge_stop(rt: HostRuntime) {
    expect_stops(&rt, STOPS);
}

#[test]
fn texts_with_a_fault_behind_a_line_or_a_tab(rt: HostRuntime) {
    expect_faults(&rt, FAULTS);
}

/// A program in which a call waits while so many variables are in use, of which the last is needed
/// behind it.
fn waiting<R: AllocGlobal + Abort>(rt: &R, variables: u32) -> Vec<u8> {
    let begun = b"(define (f) 2) (write (let* (";
    let text = repeated(rt, begun, b"(a 1)", variables);
    let mut text = text.expect(rt, "memory is ample");
    let ended = text.extend_from_slice(b") (+ a (f))))");
    ended.expect(rt, "memory is ample");
    text
}

#[test]
fn a_call_waits_while_many_variables_are_in_use(rt: HostRuntime) {
    for variables in [1_023, 1_024, 1_025, 4_000] {
        expect_run(&rt, &waiting(&rt, variables), Some(b"3"), b"");
    }
    let fault = fault_of(rt.alloc(), &waiting(&rt, 4_095), 9, 9);
    assert!(&rt; fault.is_some());
}

/// Whether a program of so many strings is none.
fn is_refused<R: AllocGlobal + Abort>(rt: &R, strings: u32) -> bool {
    let text = repeated(rt, b"", b"\"\"", strings);
    let text = text.expect(rt, "memory is ample");
    fault_of(rt.alloc(), &text, 9, 9).is_some()
}

#[test]
fn a_program_has_so_many_strings_and_no_more(rt: HostRuntime) {
    assert!(&rt; !is_refused(&rt, 134_000));
    assert!(&rt; is_refused(&rt, 134_400));
}
