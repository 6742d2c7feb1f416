//! The language's own names: no program has them, and what a program writes so is its own.

use crate::programs::{expect_faults, expect_runs, expect_stops};
use std::rt::HostRuntime;

/// Programs whose names the texts of the language have too, and what they print.
const PROGRAMS: &[(&[u8], &[u8])] = &[
    (
        b"(define (%car x) 9) (define (%cdr x) 9) (define %cons 8) (define (%received . l) 7) (write (let-values (((a b) (values 1 2))) (list a b %cons (%car 1))))",
        b"(1 2 8 9)",
    ),
    (
        b"(define %guard 5) (define (%reraise) 6) (write (guard (e (#t (list e %guard (%reraise)))) (raise 2))) (write (guard (%reraise (#f 1) ((pair? %reraise) %reraise)) (raise '(3))))",
        b"(2 5 6)(3)",
    ),
    (
        b"(define-record-type q (mk %type %record) q? (%type gx) (%record gy)) (write (list (gx (mk 3 4)) (gy (mk 3 4))))",
        b"(3 4)",
    ),
    (
        b"(define (%delay x) 1) (define (%delay-force x) 1) (write (list (force (delay 2)) (force (delay-force (delay 3))))) (define (%case-lambda x) 1) (write ((case-lambda ((a) a) (l l)) 4 5))",
        b"(2 3)(4 5)",
    ),
    (
        b"(define (%parameterize x y) 1) (define p (make-parameter 2)) (write (parameterize ((p 3)) (p))) (define (%append a b) 1) (define (%vector l) 1) (write `#(,@(list 1 2) 3))",
        b"3#(1 2 3)",
    ),
    (
        b"(define (%again) 1) (write (do ((i 0 (+ i 1))) ((= i 3) (%again)))) (define %names '()) (write (symbol->string '%names)) (define (%if a b c) (list a b c)) (write (or #f (%if 1 2 3)))",
        b"1\"%names\"(1 2 3)",
    ),
    (
        b"(define (%%show x w) 1) (define (%%winds) 2) (write (list '%car '%%show (%%winds) (eq? '%car '%car) (%%show 1 2)))",
        b"(%car %%show 2 #t 1)",
    ),
    (
        b"(let ((%quote list) (%lambda 1) (%let 2) (%begin 3) (%not 4)) (write (list '%quote (let loop ((i %lambda)) (if (< i %let) (loop (+ i 1)) i)) (when #t %begin) (unless #f %not))))",
        b"(%quote 2 3 4)",
    ),
];

/// Programs that name what only the texts of the language have.
const STOPS: &[(&[u8], &[u8])] = &[
    (b"(%halt)", b"p:1:2: %halt: unbound variable"),
    (
        b"(define (f) (%continuation)) (f)",
        b"p:1:14: %continuation: unbound variable",
    ),
    (b"(%record 6 1 2 3)", b"p:1:2: %record: unbound variable"),
    (b"(%put #\\a)", b"p:1:2: %put: unbound variable"),
    (b"(display %%winds)", b"p:1:10: %%winds: unbound variable"),
    (
        b"(let-values (((a b) (values 1 2 3))) a)",
        b"p:1:21: wrong number of values",
    ),
    (b"(%car 1)", b"p:1:2: %car: unbound variable"),
];

/// Texts with names that begin with the byte of the language's own, and their faults.
const FAULTS: &[(&[u8], &[u8])] = &[
    (b"(display 1) (\x01car '(1))", b"1:14: not a name"),
    (b"'(a (|\\x1;halt|))", b"1:6: not a name"),
    (b"(define \x01 1)", b"1:9: not a name"),
];

#[test]
fn names_of_the_language_are_a_programs_own(rt: HostRuntime) {
    expect_runs(&rt, PROGRAMS);
}

#[test]
fn no_program_reaches_what_the_language_has_for_itself(rt: HostRuntime) {
    expect_stops(&rt, STOPS);
}

#[test]
fn names_that_begin_as_the_languages_own_are_none(rt: HostRuntime) {
    expect_faults(&rt, FAULTS);
}
