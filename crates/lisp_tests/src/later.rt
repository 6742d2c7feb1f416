//! What is done later or by the way: `case-lambda`, promises, parameters, `dynamic-wind`, `exit`.

use crate::programs::{expect_faults, expect_runs, expect_stops};
use std::rt::HostRuntime;

/// Programs, and what they print: what another Scheme prints.
const PROGRAMS: &[(&[u8], &[u8])] = &[
    (
        b"(define range (case-lambda ((e) (range 0 e)) ((b e) (do ((r '() (cons e r)) (e (- e 1) (- e 1))) ((< e b) r))))) (write (list (range 3) (range 3 5)))",
        b"((0 1 2) (3 4))",
    ),
    (
        b"(define f (case-lambda (() 'none) ((a b . c) (list a b c)) ((a) (define d a) (list d)) (all all))) (write (list (f) (f 1) (f 1 2) (f 1 2 3) (procedure? f))) (write ((case-lambda ((a) 1) (l l)) 2 3))",
        b"(none (1) (1 2 ()) (1 2 (3)) #t)(2 3)",
    ),
    (
        b"(write (force (delay (+ 1 2)))) (write (let ((p (delay (+ 1 2)))) (list (force p) (force p)))) (define integers (letrec ((next (lambda (n) (delay (cons n (next (+ n 1))))))) (next 0))) (define (head s) (car (force s))) (define (tail s) (cdr (force s))) (write (head (tail (tail integers))))",
        b"3(3 3)2",
    ),
    (
        b"(define (stream-filter p? s) (delay-force (if (null? (force s)) (delay '()) (let ((h (car (force s))) (t (cdr (force s)))) (if (p? h) (delay (cons h (stream-filter p? t))) (stream-filter p? t)))))) (define integers (letrec ((next (lambda (n) (delay (cons n (next (+ n 1))))))) (next 0))) (write (car (force (cdr (force (cdr (force (stream-filter odd? integers))))))))",
        b"5",
    ),
    (
        b"(define count 0) (define p (delay (begin (set! count (+ count 1)) (if (> count x) count (force p))))) (define x 5) (write (promise? p)) (write (force p)) (write (promise? p)) (write (begin (set! x 10) (force p))) (write (list (force 5) (force (make-promise 6)) (promise? 5) (promise? (delay 1)) (promise? (force (delay (delay 1)))))) (define q (make-promise 7)) (write (eq? q (make-promise q)))",
        b"#t6#t6(5 6 #f #t #t)#t",
    ),
    (
        b"(define radix (make-parameter 10 (lambda (x) (if (and (exact-integer? x) (<= 2 x 16)) x (error \"invalid radix\"))))) (define (f n) (number->string n (radix))) (write (f 12)) (write (parameterize ((radix 2)) (f 12))) (write (f 12)) (write (procedure? radix))",
        b"\"12\"\"1100\"\"12\"#t",
    ),
    (
        b"(define p (make-parameter 1 (lambda (x) (* 10 x)))) (define q (make-parameter 'q)) (define k #f) (write (list (p) (q))) (write (parameterize ((p 2) (q (p))) (define x (q)) (list (p) x))) (write (call/cc (lambda (k) (parameterize ((p 3)) (k (p)))))) (write (parameterize ((q 5) (q 6)) (q))) (write (list (p) (q))) (write (parameterize () 1))",
        b"(10 q)(20 10)306(10 q)1",
    ),
    (
        b"(write (let ((path '()) (c #f)) (let ((add (lambda (s) (set! path (cons s path))))) (dynamic-wind (lambda () (add 'connect)) (lambda () (add (call/cc (lambda (c0) (set! c c0) 'talk1)))) (lambda () (add 'disconnect))) (if (< (length path) 4) (c 'talk2) (reverse path)))))",
        b"(connect talk1 disconnect connect talk2 disconnect)",
    ),
    (
        b"(define (in s) (lambda () (display s))) (define k #f) (define n 0) (define (f) (write (call/cc (lambda (out) (dynamic-wind (in \"[\") (lambda () (dynamic-wind (in \"(\") (lambda () (call/cc (lambda (c) (set! k c))) (display n) (out 'x)) (in \")\"))) (in \"]\"))))) (set! n (+ n 1)) (if (< n 3) (k 1))) (f)",
        b"[(0)]x[(1)]x[(2)]x",
    ),
    (
        b"(define k #f) (define p (make-parameter 1)) (define l '()) (define (f) (parameterize ((p 2)) (call/cc (lambda (c) (set! k c))) (set! l (cons (p) l))) (set! l (cons (p) l)) (if (< (length l) 4) (k 1)) l) (write (f)) (write (call-with-values (lambda () (dynamic-wind (lambda () 1) (lambda () (values 2 3)) (lambda () 4))) list))",
        b"(1 2 1 2)(2 3)",
    ),
    (
        b"(dynamic-wind (lambda () (display 1)) (lambda () (exit)) (lambda () (display 2))) (display 3)",
        b"12",
    ),
    (b"(display 1) (exit #t) (display 2)", b"1"),
    (b"(display 1) (let loop () (exit 0) (loop))", b"1"),
    (
        b"(define (delay x) (* 2 x)) (write (delay 5)) (write (let ((force 1) (cons 2)) (parameterize (((make-parameter 1) 2)) (list force cons)))) (write (list (make-promise 1) (make-parameter 1)))",
        b"10(1 2)(#<promise> #<procedure>)",
    ),
];

/// Programs that stop, and their messages.
const STOPS: &[(&[u8], &[u8])] = &[
    (
        b"(define f (case-lambda ((a) 1) ((a b c . d) 2))) (f 1 2)",
        b"p:1:50: wrong number of arguments",
    ),
    (b"((case-lambda) 1)", b"p:1:1: wrong number of arguments"),
    (
        b"(parameterize ((car 1)) 2)",
        b"p:1:1: parameterize: not a parameter",
    ),
    (
        b"(parameterize ((5 1)) 2)",
        b"p:1:1: parameterize: not a parameter",
    ),
    (
        b"((make-parameter 1) 5)",
        b"p:1:1: wrong number of arguments",
    ),
    (
        b"(make-parameter 1 car 2)",
        b"p:1:1: wrong number of arguments",
    ),
    (
        b"(force (delay-force 5))",
        b"p:1:1: force: not such a record",
    ),
    (b"(exit 3)", b"p:1:1: exit 3"),
    (b"(emergency-exit #f)", b"p:1:1: exit #f"),
    (b"(exit 1 2)", b"p:1:1: wrong number of arguments"),
];

/// Texts that are no programs, and their faults.
const FAULTS: &[(&[u8], &[u8])] = &[
    (b"(case-lambda 1)", b"1:1: bad form"),
    (b"(case-lambda ((a)))", b"1:14: bad form"),
    (b"(case-lambda ((a a) 1))", b"1:1: bad form"),
    (b"(delay)", b"1:1: bad form"),
    (b"(delay 1 2)", b"1:1: bad form"),
    (b"(delay (define x 1))", b"1:8: bad form"),
    (b"(delay-force)", b"1:1: bad form"),
    (b"(parameterize)", b"1:1: bad form"),
    (b"(parameterize ((a)) 1)", b"1:1: bad form"),
    (b"(parameterize ((a 1)))", b"1:1: bad form"),
];

#[test]
fn what_is_done_later_prints_what_another_scheme_prints(rt: HostRuntime) {
    expect_runs(&rt, PROGRAMS);
}

#[test]
fn what_is_done_later_stops_where_its_messages_say(rt: HostRuntime) {
    expect_stops(&rt, STOPS);
}

#[test]
fn forms_of_later_that_are_none_have_faults(rt: HostRuntime) {
    expect_faults(&rt, FAULTS);
}
