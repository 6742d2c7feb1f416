//! Several values: forms and procedures that make and take them.

use crate::programs::{expect_faults, expect_runs, expect_stops};
use std::rt::HostRuntime;

/// Programs, and what they print: what another Scheme prints.
const PROGRAMS: &[(&[u8], &[u8])] = &[
    (
        b"(write (call-with-values (lambda () (values 4 5)) (lambda (a b) b))) (write (call-with-values * -)) (write (call-with-values values list)) (write (+ 1 (values 2)))",
        b"5-1()3",
    ),
    (
        b"(write (let ((a 'a) (b 'b) (x 'x) (y 'y)) (let-values (((a b) (values x y)) ((x y) (values a b))) (list a b x y)))) (write (let ((a 'a) (b 'b) (x 'x) (y 'y)) (let*-values (((a b) (values x y)) ((x y) (values a b))) (list a b x y))))",
        b"(x y a b)(x y x y)",
    ),
    (
        b"(write (let-values (((a . l) (values 1 2 3)) (all (values 4 5)) ((z) 6) (none (values)) (() (values))) (list a l all z none))) (write (let*-values (((a) 1) ((a b) (values a 2))) (define c 3) (list a b c))) (write (let-values () 1))",
        b"(1 (2 3) (4 5) 6 ())(1 2 3)1",
    ),
    (
        b"(define-values (x y) (values 1 2)) (define-values (a . l) (values 3 4 5)) (define-values all (values 6)) (write (list (+ x y) a l all)) (write (let () (define-values (x y) (values 7 8)) (define z (+ x 1)) (list x y z))) (write (list x y))",
        b"(3 3 (4 5) (6))(7 8 8)(1 2)",
    ),
    (
        b"(write (call-with-values (lambda () (call/cc (lambda (k) (k 1 2)))) list)) (write (let-values (((a b) (call/cc (lambda (k) (k 3 4)))) (l (call/cc (lambda (k) (k))))) (list a b l))) (write (call/cc (lambda (k) (k 5))))",
        b"(1 2)(3 4 ())5",
    ),
    (
        b"(define-values (car cdr) (values cdr car)) (write (list (car '(1 . 2)) (cdr '(1 . 2)))) (define (f list) (define-values (cons car) (values list 4)) (vector list cons car)) (write (f 3))",
        b"(2 1)#(3 3 4)",
    ),
    (
        b"(let ((car 1) (cdr 2) (list vector) (values values)) (let-values (((a b . c) (values car cdr 3))) (write (list a b c))))",
        b"#(1 2 (3))",
    ),
    (
        b"(define (let-values x) (* 2 x)) (write (let-values 5))",
        b"10",
    ),
    (
        b"(define (loop n) (let-values (((a b) (values n 1))) (if (= a 0) 'done (loop (- a b))))) (write (loop 100)) (define f (let-values (((a b) (values 1 2))) (lambda () (set! a (+ a b)) a))) (f) (write (f))",
        b"done5",
    ),
];

/// Programs that stop, and their messages.
const STOPS: &[(&[u8], &[u8])] = &[
    (
        b"(let-values (((a b) (values 1 2 3))) a)",
        b"p:1:21: wrong number of values",
    ),
    (
        b"(let*-values (((a b . c) 1)) a)",
        b"p:1:26: wrong number of values",
    ),
    (
        b"(define-values (a) (values))",
        b"p:1:20: wrong number of values",
    ),
    (
        b"(call-with-values (lambda () (values 1 2)) (lambda (a) a))",
        b"p:1:30: wrong number of arguments",
    ),
];

/// Texts that are no programs, and their faults.
const FAULTS: &[(&[u8], &[u8])] = &[
    (b"(let-values)", b"1:1: bad form"),
    (b"(let-values 1 2)", b"1:1: bad form"),
    (b"(let-values ((a)) 1)", b"1:1: bad form"),
    (b"(let-values ((a 1 2)) 1)", b"1:1: bad form"),
    (b"(let-values (((a a) 1)) 1)", b"1:1: bad form"),
    (b"(let-values (((a) 1) ((b . a) 2)) 1)", b"1:1: bad form"),
    (b"(let*-values (((a . a) 1)) 1)", b"1:1: bad form"),
    (b"(let-values (((1) 1)) 1)", b"1:1: not a name"),
    (b"(let*-values ((a 1)))", b"1:18: bad form"),
    (b"(define-values a)", b"1:1: bad form"),
    (b"(define-values (a) 1 2)", b"1:1: bad form"),
    (b"(define-values (a a) 1)", b"1:1: bad form"),
    (
        b"(define (f) (if #t (define-values (a) 1)))",
        b"1:20: bad form",
    ),
];

#[test]
fn several_values_are_made_and_taken(rt: HostRuntime) {
    expect_runs(&rt, PROGRAMS);
}

#[test]
fn another_number_of_values_stops_a_program(rt: HostRuntime) {
    expect_stops(&rt, STOPS);
}

#[test]
fn forms_of_several_values_that_are_none_have_faults(rt: HostRuntime) {
    expect_faults(&rt, FAULTS);
}
