//! Records.

use crate::programs::{expect_faults, expect_runs, expect_stops};
use std::rt::HostRuntime;

/// Programs, and what they print: what another Scheme prints, but for how a record is written.
const PROGRAMS: &[(&[u8], &[u8])] = &[
    (
        b"(define-record-type <pare> (kons x y) pare? (x kar set-kar!) (y kdr)) (write (list (pare? (kons 1 2)) (pare? (cons 1 2)) (kar (kons 1 2)) (kdr (kons 1 2)) (let ((k (kons 1 2))) (set-kar! k 3) (kar k))))",
        b"(#t #f 1 2 3)",
    ),
    (
        b"(define-record-type point (make-point y x) point? (x point-x) (y point-y) (z point-z set-point-z!)) (define p (make-point 1 2)) (set-point-z! p 'z) (write (list (point-x p) (point-y p) (point-z p))) (write p) (display (list p point))",
        b"(2 1 z)#<point>(#<point> #<record-type>)",
    ),
    (
        b"(define-record-type <a> (a) a?) (define-record-type <b> (b) b?) (define x (a)) (write (map (lambda (f) (f x)) (list a? b? vector? pair? procedure? string? symbol? null? char? number? boolean? list?))) (write (list (equal? x x) (equal? x (a)) (eqv? x x) (a? <a>) (a? #(1)) (a? \"a\") (a? car))) (write x)",
        b"(#t #f #f #f #f #f #f #f #f #f #f #f)(#t #f #t #f #f #f #f)#<a>",
    ),
    (
        b"(define (f n) (define-record-type cell (make v) cell? (v value)) (define c (make n)) (if (cell? c) (list make (value c)))) (write (cadr (f 5))) (define (g) (define-record-type r (r1 x) r? (x rx)) (cons r? (r1 1))) (define a (g)) (define b (g)) (write (list ((car a) (cdr a)) ((car a) (cdr b))))",
        b"5(#t #f)",
    ),
    (
        b"(define-record-type car (cons cdr list) vector (cdr cdr) (list list)) (define x (cons 1 2)) (write (vector x)) (write (cdr x)) (write (list x)) (write (if (pair? x) 1 2))",
        b"#t122",
    ),
    (
        b"(define-record-type t (make t) t? (t t-t)) (set! t 5) (write (t-t (make 1))) (write t) (define-record-type none (none-of) none? (a none-a)) (write (none? (none-of))) (write `(1 ,(make 2) #(,(none-of))))",
        b"15#t(1 #<t> #(#<none>))",
    ),
];

/// Programs that stop, and their messages.
const STOPS: &[(&[u8], &[u8])] = &[
    (
        b"(define-record-type p (mk x) p? (x px set-px!)) (px 5)",
        b"p:1:49: px: not such a record",
    ),
    (
        b"(define-record-type p (mk x) p? (x px set-px!)) (define-record-type q (mq x) q? (x qx)) (set-px! (mq 1) 5)",
        b"p:1:89: set-px!: not such a record",
    ),
    (
        b"(define-record-type p (mk x) p? (x px)) (mk)",
        b"p:1:41: wrong number of arguments",
    ),
    (
        b"(define-record-type p (mk x) p? (x px)) (vector-ref (mk 1) 0)",
        b"p:1:41: vector-ref: not a vector",
    ),
    (
        b"(define-record-type p (mk x) p? (x px)) ((mk 1))",
        b"p:1:41: not a procedure",
    ),
    (
        b"(define-record-type p (mk x) p? (x px)) (px '#(1 2))",
        b"p:1:41: px: not such a record",
    ),
];

/// Texts that are no programs, and their faults.
const FAULTS: &[(&[u8], &[u8])] = &[
    (b"(define-record-type a)", b"1:1: bad form"),
    (b"(define-record-type p mk p? (x px))", b"1:1: bad form"),
    (b"(define-record-type p (mk y) p? (x px))", b"1:1: bad form"),
    (
        b"(define-record-type p (mk x x) p? (x px))",
        b"1:1: bad form",
    ),
    (
        b"(define-record-type p (mk . x) p? (x px))",
        b"1:1: bad form",
    ),
    (
        b"(define-record-type p (mk) p? (x px) (x qx))",
        b"1:1: bad form",
    ),
    (b"(define-record-type p (mk) p? x)", b"1:1: bad form"),
    (b"(define-record-type p (mk) p? (x))", b"1:1: bad form"),
    (
        b"(define-record-type p (mk) p? (x a b c))",
        b"1:1: bad form",
    ),
    (b"(define-record-type p (mk) 5)", b"1:1: not a name"),
];

#[test]
fn records_are_a_kind_of_their_own(rt: HostRuntime) {
    expect_runs(&rt, PROGRAMS);
}

#[test]
fn what_is_no_such_record_stops_a_program(rt: HostRuntime) {
    expect_stops(&rt, STOPS);
}

#[test]
fn record_types_that_are_none_have_faults(rt: HostRuntime) {
    expect_faults(&rt, FAULTS);
}
