//! Symbols that a program makes, and names in bars.

use crate::programs::{expect_runs, expect_stops};
use std::rt::HostRuntime;

/// Programs that make symbols, and what they print: what another Scheme prints.
const MAKERS: &[(&[u8], &[u8])] = &[
    (
        b"(write (list (eq? (string->symbol \"abc\") 'abc) (eq? (string->symbol \"new\") (string->symbol \"new\")) (symbol? (string->symbol \"new\")) (symbol->string (string->symbol \"new\")) (symbol->string 'old) (string->symbol \"new\") (string->symbol \"old\")))",
        b"(#t #t #t \"new\" \"old\" new old)",
    ),
    (
        b"(define x (string->symbol \"x\")) (define y (string->symbol \"yy\")) (write (list (case x ((x) 1) (else 2)) (case y ((x) 1) (else 2)) (symbol=? x 'x) (symbol=? y y (string->symbol \"yy\")) (symbol=? y x) (equal? (list y) (list (string->symbol \"yy\"))) (eqv? y y) (cdr (assq y (list (cons x 1) (cons y 2)))) (map symbol? (list x y 1 \"yy\"))))",
        b"(1 2 #t #t #f #t #t 2 (#t #t #f #f))",
    ),
    (
        b"(define y (string->symbol \"yy\")) (write (map (lambda (p) (p y)) (list pair? vector? string? procedure? char? number? null? boolean? error-object? promise? symbol?)))",
        b"(#f #f #f #f #f #f #f #f #f #f #t)",
    ),
    (
        b"(define t (string #\\a #\\b)) (define s (string->symbol t)) (string-set! t 0 #\\z) (write s) (define u (symbol->string s)) (string-set! u 0 #\\q) (write (list s t u (eq? s (string->symbol \"ab\")) (eq? s (string->symbol t))))",
        b"ab(ab \"zb\" \"qb\" #t #f)",
    ),
    (
        b"(define (all n) (if (= n 0) '() (cons (string->symbol (string-append \"s\" (number->string n))) (all (- n 1))))) (define l (all 20)) (write (equal? l (all 20))) (define (different? l) (or (null? l) (and (not (memq (car l) (cdr l))) (different? (cdr l))))) (write (different? l)) (write (list (car l) (list-ref l 10)))",
        b"#t#t(s20 s10)",
    ),
    (
        // Names of one hash.
        b"(define names '(\"AaAaAaAa\" \"AaAaAaBB\" \"AaAaBBAa\" \"AaAaBBBB\" \"AaBBAaAa\" \"AaBBAaBB\" \"AaBBBBAa\" \"AaBBBBBB\" \"BBAaAaAa\" \"BBAaAaBB\")) (define l (map string->symbol names)) (write (equal? l (map string->symbol names))) (write (equal? (map symbol->string l) names)) (write (memq (string->symbol \"BBAaAaAa\") l))",
        b"#t#t(BBAaAaAa BBAaAaBB)",
    ),
    (
        b"(write (map string->symbol '(\"A b\" \"\" \"1\" \"a|b\" \"a\\\\b\" \"#a\" \".\" \"...\" \"-1\" \"+.5\" \"+\" \"-\" \"-a\" \"a;b\" \"(\" \"a\\nb\" \"a\\tb\" \"\\\\|\" \"a#\"))) (display (map string->symbol '(\"A b\" \"\" \"1\" \"a|b\")))",
        b"(|A b| || |1| |a\\|b| a\\b |#a| |.| ... |-1| |+.5| + - -a |a;b| |(| |a\\nb| |a\\tb| |\\\\\\|| a#)(A b  1 a|b)",
    ),
    (
        b"(define (symbol? x) 'mine) (write (list (symbol? 1) (symbol=? (string->symbol \"q\") (string->symbol \"q\")))) (define (string->symbol x) x) (write (string->symbol 1))",
        b"(mine #t)1",
    ),
    (
        b"(define f string->symbol) (write (eq? (f \"a\") 'a)) (write (eq? (f \"%car\") '%car)) (write (f \"car\")) (write (eq? (apply f '(\"b c\")) '|b c|))",
        b"#t#tcar#t",
    ),
    (
        b"(write (guard (e ((symbol? e) (symbol->string e))) (raise (string->symbol \"oops\"))))",
        b"\"oops\"",
    ),
];

/// Programs that stop, and their messages.
const STOPS: &[(&[u8], &[u8])] = &[
    (
        b"(string->symbol 5)",
        b"p:1:1: string->symbol: not a string",
    ),
    (
        b"(string->symbol \"a\") (symbol->string \"a\")",
        b"p:1:22: symbol->string: not a symbol",
    ),
    (b"(string->symbol)", b"p:1:1: wrong number of arguments"),
    (
        b"(error (string->symbol \"a b\") (string->symbol \"c d\"))",
        b"p:1:1: a b |c d|",
    ),
    (b"(raise (string->symbol \"new\"))", b"p:1:1: uncaught: new"),
];

/// Programs that write names in bars, and what they print.
const BARS: &[(&[u8], &[u8])] = &[
    (b"(write '|a b|) (display '|a b|)", b"|a b|a b"),
    (
        b"(write '(|a| || |1| |a\\|b| |a\\\\b| |#a| |.| |-1| |+.5| |+| |-| |...| |a;b| |(| |\"| |'| |`| |,| |a\\nb| |a\\tb| |A| |a\\x20;|))",
        b"(a || |1| |a\\|b| a\\b |#a| |.| |-1| |+.5| + - ... |a;b| |(| |\"| |'| |`| |,| |a\\nb| |a\\tb| A |a |)",
    ),
    (
        b"(write (list (vector '|x y| \"|\" #\\|) (symbol->string '|x y|) 'z)) (write-simple '|x y|) (display (list '|x y| 'z))",
        b"(#(|x y| \"|\" #\\|) \"x y\" z)|x y|(x y z)",
    ),
    (b"#| a |# (write 'a) (define |b c| 1) (write |b c|)", b"a1"),
    (
        b"(define-record-type |a b| (|make it|) it?) (write (|make it|)) (write (it? '|make it|))",
        b"#<a b>#f",
    ),
];

#[test]
fn programs_make_symbols(rt: HostRuntime) {
    expect_runs(&rt, MAKERS);
}

#[test]
fn what_makes_no_symbol_stops_a_program(rt: HostRuntime) {
    expect_stops(&rt, STOPS);
}

#[test]
fn names_are_written_in_bars_where_they_need_them(rt: HostRuntime) {
    expect_runs(&rt, BARS);
}
