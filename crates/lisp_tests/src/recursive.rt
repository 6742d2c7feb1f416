//! `letrec`, whose values are all computed before any of its variables has one, and `letrec*`.

use crate::programs::{expect_runs, expect_stops};
use std::rt::HostRuntime;

/// Programs, and what they print: what another Scheme prints.
const PROGRAMS: &[(&[u8], &[u8])] = &[
    (
        b"(write (let ((k #f) (n 0)) (letrec ((a 1) (b (call/cc (lambda (c) (set! k c) 5))) (f (lambda () (list a b))) (g (lambda () (set! a (+ a 1)) (f)))) (set! n (+ n 1)) (let ((v (g))) (if (< n 4) (k (+ n 10)) (list v n))))))",
        b"((2 13) 4)",
    ),
    (
        b"(let ((cont #f)) (letrec ((x (call/cc (lambda (c) (set! cont c) 0))) (y (call/cc (lambda (c) (set! cont c) 0)))) (if cont (let ((c cont)) (set! cont #f) (set! x 1) (set! y 1) (c 0)) (write (+ x y)))))",
        b"0",
    ),
    (
        b"(define k #f) (define n 0) (letrec ((x (list 1)) (y (call/cc (lambda (c) (set! k c) 0)))) (write (list x y)) (set! x 'lost) (if (< n 2) (begin (set! n (+ n 1)) (k n))))",
        b"((1) 0)((1) 1)((1) 2)",
    ),
    (
        b"(define k #f) (define n 0) (define r '()) (letrec ((x (call/cc (lambda (c) (set! k c) 1))) (g (lambda () x)) (y (car (list 5)))) (set! r (cons (list x (g) y) r)) (set! x 'lost) (if (< n 2) (begin (set! n (+ n 1)) (k (+ n 10)))) (write r))",
        b"((12 12 5) (11 11 5) (1 1 5))",
    ),
    (
        b"(define k #f) (define (id x) x) (letrec ((f (lambda () (list a b))) (a (id 1)) (g (lambda () (f))) (b (call/cc (lambda (c) (set! k c) 2))) (h (lambda () (g)))) (write (h)) (set! a 3) (if (< b 4) (k (+ b 1))))",
        b"(1 2)(1 3)(1 4)",
    ),
    (
        b"(define (id x) x) (define (f n) (letrec ((a (id n)) (b 2) (c (id 3)) (g (lambda () (list a b c 'x))) (d '(4)) (e (id 5))) (let ((z (id 6))) (append (g) (list d e z))))) (write (f 1)) (write (f 7))",
        b"(1 2 3 x (4) 5 6)(7 2 3 x (4) 5 6)",
    ),
    (
        b"(define (id x) x) (write (letrec* ((a (id 1)) (b (id (+ a 1))) (c (lambda () (list a b)))) (c))) (write (letrec ((even (lambda (n) (or (= n 0) (odd (- n 1))))) (n (id 10)) (odd (lambda (n) (and (< 0 n) (even (- n 1))))) (m (id 7))) (list (even n) (even m))))",
        b"(1 2)(#t #f)",
    ),
    (
        b"(define (id x) x) (write (letrec ((lambda (id 1)) (quote (id 2)) (if (id 3))) (+ lambda (* quote if)))) (write (letrec ((list (id vector)) (f (lambda (x) (list x n))) (n (id 4))) (f 5)))",
        b"7#(5 4)",
    ),
    (
        b"(define p '(1 2)) (define k #f) (write (letrec ((x (car p)) (f (lambda () (list x y))) (y (call/cc (lambda (c) (set! k c) 3)))) (if (eq? y 3) (k f) (list (eq? y f) (car (y))))))",
        b"(#t 1)",
    ),
];

/// Programs that need a value before all are computed.
const STOPS: &[(&[u8], &[u8])] = &[
    (
        b"(letrec ((a (list 1)) (b (list (car a)))) b)",
        b"p:1:37: a: unbound variable",
    ),
    (
        b"(define k call/cc) (letrec ((a (list 1)) (b (list (car a)))) b)",
        b"p:1:56: a: unbound variable",
    ),
    (
        b"(letrec ((a (lambda () b)) (b (a))) b)",
        b"p:1:24: b: unbound variable",
    ),
];

#[test]
fn values_of_letrec_are_computed_before_its_variables_have_them(rt: HostRuntime) {
    expect_runs(&rt, PROGRAMS);
}

#[test]
fn variables_of_letrec_have_no_values_before(rt: HostRuntime) {
    expect_stops(&rt, STOPS);
}
