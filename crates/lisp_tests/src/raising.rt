//! What is raised and handled.

use crate::programs::{expect_faults, expect_runs, expect_stops};
use std::rt::HostRuntime;

/// Programs, and what they print: what another Scheme prints.
const PROGRAMS: &[(&[u8], &[u8])] = &[
    (
        b"(write (call/cc (lambda (k) (with-exception-handler (lambda (e) (display \"condition: \") (write e) (newline) (k 'exception)) (lambda () (+ 1 (raise 'an-error))))))) (write (with-exception-handler (lambda (c) (if (string? c) (display c) (display \"a warning \")) 42) (lambda () (+ (raise-continuable \"should be a number \") 23))))",
        b"condition: an-error\nexceptionshould be a number 65",
    ),
    (
        b"(write (guard (c ((assq 'a c) => cdr) ((assq 'b c))) (raise (list (cons 'a 42))))) (write (guard (c ((assq 'a c) => cdr) ((assq 'b c))) (raise (list (cons 'b 23)))))",
        b"42(b . 23)",
    ),
    (
        b"(define (null-list? l) (cond ((pair? l) #f) ((null? l) #t) (else (error \"null-list?: argument out of domain\" l)))) (write (guard (e ((error-object? e) (list (error-object-message e) (error-object-irritants e)))) (null-list? 5))) (write (guard (e (else (list (error-object? e) (read-error? e) (file-error? e) e))) (raise 'x)))",
        b"(\"null-list?: argument out of domain\" (5))(#f #f #f x)",
    ),
    (
        b"(write (guard (e ((symbol? e) (list 'outer e))) (guard (f ((number? f) (list 'inner f))) (raise 'x)))) (write (guard (e ((symbol? e) (list 'outer e))) (guard (f ((number? f) (list 'inner f))) (raise 5)))) (write (guard (e (#t (list 'outer e))) (guard (f (else (raise (list f f)))) (raise 6))))",
        b"(outer x)(inner 5)(outer (6 6))",
    ),
    (
        b"(write (guard (e (#f 1)) 'fine)) (write (call-with-values (lambda () (guard (e (#t 1)) (values 1 2))) list)) (write (guard (e (#t e)) (define y 2) (raise y))) (write (with-exception-handler (lambda (e) 10) (lambda () (guard (e ((string? e) 1)) (+ 1 (raise-continuable 'c))))))",
        b"fine(1 2)211",
    ),
    (
        b"(define (in s) (lambda () (display s))) (write (guard (e (#t (display \"!\") e)) (dynamic-wind (in \"[\") (lambda () (raise 'x)) (in \"]\")))) (write (guard (e (#t (display \"!\") e)) (guard (e ((number? e) 1)) (dynamic-wind (in \"[\") (lambda () (raise 'y)) (in \"]\")))))",
        b"[]!x[][]!y",
    ),
    (
        b"(write (with-exception-handler (lambda (e) (list 'outer e)) (lambda () (with-exception-handler (lambda (e) (raise-continuable (list 'inner e))) (lambda () (raise-continuable 1)))))) (write (guard (e ((error-object? e) 'secondary)) (with-exception-handler (lambda (e) 'ignored) (lambda () (raise 'x)))))",
        b"(outer (inner 1))secondary",
    ),
    (
        b"(define p (make-parameter 1)) (write (guard (e (#t (list e (p)))) (parameterize ((p 2)) (raise (p))))) (write (let loop ((n 0)) (guard (e ((= e 3) (list 'three e)) (#t (loop e))) (raise (+ n 1)))))",
        b"(2 1)(three 3)",
    ),
    (b"(define (guard x) (* 2 x)) (write (guard 4))", b"8"),
    (
        b"(define-record-type <oops> (oops x) oops? (x oops-x)) (write (guard (e ((oops? e) (oops-x e)) ((error-object? e) 'error)) (raise (oops 5)))) (write (guard (e ((oops? e) (oops-x e)) ((error-object? e) 'error)) (error \"x\"))) (guard (e (#t (write e) (write (map error-object? (list e 1 car \"a\"))))) (error 'who 1))",
        b"5error#<error>(#t #f #f #f)",
    ),
];

/// Programs that stop, and their messages.
const STOPS: &[(&[u8], &[u8])] = &[
    (b"(raise 'some)", b"p:1:1: uncaught: some"),
    (b"(raise-continuable \"a\")", b"p:1:1: uncaught: \"a\""),
    (
        b"(with-exception-handler (lambda (e) 1) (lambda () (raise 2)))",
        b"p:1:51: a handler returned",
    ),
    (
        b"(guard (e (#f 1)) (error \"bad:\" 1 \"b\"))",
        b"p:1:1: bad: 1 \"b\"",
    ),
    (
        b"(guard (e ((symbol? e) 1)) (raise 5))",
        b"p:1:1: uncaught: 5",
    ),
    (
        b"(with-exception-handler 1 (lambda () 2))",
        b"p:1:1: not a procedure",
    ),
    (b"(guard (e (#t 1)) (car 5))", b"p:1:19: car: not a pair"),
    (
        b"(error-object-message 5)",
        b"p:1:1: error-object-message: not such a record",
    ),
];

/// Texts that are no programs, and their faults.
const FAULTS: &[(&[u8], &[u8])] = &[
    (b"(guard)", b"1:1: bad form"),
    (b"(guard (e (#t 1)))", b"1:1: bad form"),
    (b"(guard () 1)", b"1:1: bad form"),
    (b"(guard (1 (#t 1)) 1)", b"1:1: not a name"),
    (b"(guard (e 1) 1)", b"1:1: bad form"),
    (b"(guard (e (else)) 1)", b"1:1: bad form"),
];

#[test]
fn what_is_raised_is_handled_as_in_another_scheme(rt: HostRuntime) {
    expect_runs(&rt, PROGRAMS);
}

#[test]
fn what_nobody_handles_stops_a_program(rt: HostRuntime) {
    expect_stops(&rt, STOPS);
}

#[test]
fn guards_that_are_none_have_faults(rt: HostRuntime) {
    expect_faults(&rt, FAULTS);
}
