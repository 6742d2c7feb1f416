//! Procedures of the prelude: what they make of their operands.

use crate::programs::expect_runs;
use std::rt::HostRuntime;

/// Programs that call procedures of the prelude, and what they print: what another Scheme prints.
const PROCEDURES: &[(&[u8], &[u8])] = &[
    (
        b"(define a (list 1 2)) (set-cdr! (cdr a) a) (define b (list 1 2 1 2)) (set-cdr! (cdddr b) b) (write (equal? a b))",
        b"#t",
    ),
    (
        b"(write (list (string=? \"a\" \"a\" \"a\") (string<? \"a\" \"c\" \"b\") (string>? \"b\" \"a\") (string-ci=? \"Ab\" \"aB\") (number->string 255 16)))",
        b"(#t #f #t #t \"ff\")",
    ),
    (
        b"(write (list (substring \"abc\" 1) (string->list \"abcd\" 1 3) (vector->list #(1 2 3) 1) (vector->list #(1 2 3) 0 2))) (define v (vector 1 2 3 4)) (vector-fill! v 'x 1 3) (write v) (write (member 3 '(1 3 4) <)) (write (assoc 2 '((1 . a) (3 . b)) <))",
        b"(\"bc\" (#\\b #\\c) (2 3) (1 2))#(1 x x 4)(4)(3 . b)",
    ),
    (
        b"(import (scheme base) (only (scheme write) display)) (display (expt 2 10))",
        b"1024",
    ),
    (
        b"(write (list (gcd 12 18) (gcd) (lcm 4 6) (lcm) (square 5) (expt -3 3) (exact-integer? 5) (boolean=? #t #t #f) (symbol=? 'a 'a 'a))) (write (list (floor-quotient -7 2) (floor-remainder -7 2) (floor-quotient 6 -2) (truncate-quotient -7 2) (truncate-remainder -7 2))) (write (list (lcm 32 -36) (expt -1 -3) (char-upcase #\\z)))",
        b"(6 0 12 1 25 -27 #t #f #t)(-4 1 -3 -3 -1)(288 -1 #\\Z)",
    ),
    (
        b"(write (map string->number '(\"12\" \"-ff\" \"#b101\" \"abc\" \"\" \"-\" \"+5\"))) (write (string->number \"-ff\" 16))",
        b"(12 #f 5 #f #f #f 5)-255",
    ),
    (
        b"(define l (list 1 2 3)) (list-set! l 1 'y) (write (list l (list-copy '(1 2 . 3)) (make-list 2 'x) (cadadr '(1 (2 3))))) (write (list (char-upcase #\\a) (char-downcase #\\A) (char-alphabetic? #\\1) (char-whitespace? #\\space) (digit-value #\\7) (char-ci=? #\\a #\\A)))",
        b"((1 y 3) (1 2 . 3) (x x) 3)(#\\A #\\a #f #t 7 #t)",
    ),
    (
        b"(define s (make-string 3 #\\a)) (string-copy! s 1 \"xyz\" 0 2) (string-fill! s #\\z 2) (write (list s (string-copy \"abc\" 1) (string-map char-upcase \"abc\") (string-upcase \"ab\")))",
        b"(\"axz\" \"bc\" \"ABC\" \"AB\")",
    ),
    (
        b"(string-for-each (lambda (a b) (display a) (display b)) \"ab\" \"xy\") (vector-for-each display #(1 2)) (write-string \"abc\") (write-char #\\x)",
        b"axby12abcx",
    ),
    (
        b"(define v (vector 1 2 3 4 5)) (vector-copy! v 1 v 0 3) (write (list v (vector-map + #(1 2) #(10 20)) (vector-append #(1) #(2)) (string->vector \"ab\") (vector->string #(#\\a))))",
        b"(#(1 1 2 3 5) #(11 22) #(1 2) #(#\\a #\\b) \"a\")",
    ),
    (
        b"(define s (string #\\a #\\b #\\c #\\d)) (string-copy! s 1 s 0 3) (write s) (define c (list 1)) (set-cdr! c c) (write (equal? c '(1 1 1 1 1 2)))",
        b"\"aabc\"#f",
    ),
    (
        b"(write (map (lambda (f) (f -7)) (list zero? positive? negative? number? integer? rational? real? complex? exact? inexact? exact floor ceiling round truncate numerator denominator))) (write (map (lambda (f) (f \"a\")) (list string? char? vector?)))",
        b"(#f #f #t #t #t #t #t #t #t #f -7 -7 -7 -7 -7 -7 1)(#t #f #f)",
    ),
    (
        b"(write (map (lambda (f) (f #\\a #\\B)) (list char<=? char>=? char>? char-ci<=? char-ci<? char-ci>=? char-ci>?))) (write (map (lambda (f) (f #\\A)) (list char-foldcase char-lower-case? char-upper-case? char-numeric?)))",
        b"(#f #t #t #t #t #f #f)(#\\a #f #t #f)",
    ),
    (
        b"(write (map (lambda (f) (f \"aa\" \"aB\" \"ac\")) (list string<=? string>=? string-ci<=? string-ci<? string-ci>=? string-ci>?))) (write (list (string<? \"ab\" \"abc\") (string<? \"abc\" \"ab\") (string=? \"ab\" \"abc\") (string-foldcase \"aB\") (string-downcase \"Ab\")))",
        b"(#f #f #t #t #f #f)(#t #f #f \"ab\" \"ab\")",
    ),
    (
        b"(define t '((((1 . 2) . (3 . 4)) . ((5 . 6) . (7 . 8))) . (((9 . 10) . (11 . 12)) . ((13 . 14) . (15 . 16))))) (define (each . l) (map (lambda (f) (f t)) l)) (write (each caaaar cdaaar cadaar cddaar caadar cdadar caddar cdddar caaadr cdaadr cadadr cddadr caaddr cdaddr cadddr cddddr)) (set! t (car t)) (write (each caaar cdaar cadar cddar caadr cdadr caddr cdddr)) (set! t (car t)) (write (each caar cdar cadr cddr))",
        b"(1 2 3 4 5 6 7 8 9 10 11 12 13 14 15 16)(1 2 3 4 5 6 7 8)(1 2 3 4)",
    ),
    (
        b"(write (list (memv 2 '(1 2 3)) (list->vector '(1 2)) (vector-copy #(1 2 3) 1 2) (call-with-current-continuation procedure?) (boolean? 0) (expt -1 -4) (expt 0 0))) (write-simple \"a\")",
        b"((2 3) #(1 2) #(2) #t #f 1 1)\"a\"",
    ),
    (
        b"(define (text n) (if (= n 0) \"\" (string-append (text (- n 1)) (string (integer->char (+ 96 n)))))) (for-each (lambda (n) (let ((s (text n))) (write (list (string-length s) s (string-append s \"-\" s s) (substring s (quotient n 2)) (substring s (quotient n 3) (- n (quotient n 3))) (string=? s (string-copy s)))))) '(0 6 7 8 13 14 15))",
        b"(0 \"\" \"-\" \"\" \"\" #t)(6 \"abcdef\" \"abcdef-abcdefabcdef\" \"def\" \"cd\" #t)(7 \"abcdefg\" \"abcdefg-abcdefgabcdefg\" \"defg\" \"cde\" #t)(8 \"abcdefgh\" \"abcdefgh-abcdefghabcdefgh\" \"efgh\" \"cdef\" #t)(13 \"abcdefghijklm\" \"abcdefghijklm-abcdefghijklmabcdefghijklm\" \"ghijklm\" \"efghi\" #t)(14 \"abcdefghijklmn\" \"abcdefghijklmn-abcdefghijklmnabcdefghijklmn\" \"hijklmn\" \"efghij\" #t)(15 \"abcdefghijklmno\" \"abcdefghijklmno-abcdefghijklmnoabcdefghijklmno\" \"hijklmno\" \"fghij\" #t)",
    ),
    (
        b"(define (text n) (if (= n 0) \"\" (string-append (text (- n 1)) (string (integer->char (+ 96 n)))))) (define (moved at from end) (let ((s (text 24))) (string-copy! s at s from end) s)) (write (list (moved 0 1 24) (moved 1 0 23) (moved 7 0 14) (moved 0 7 21) (moved 3 10 24) (moved 10 3 17) (moved 8 8 8) (moved 5 6 9)))",
        b"(\"bcdefghijklmnopqrstuvwxx\" \"aabcdefghijklmnopqrstuvw\" \"abcdefgabcdefghijklmnvwx\" \"hijklmnopqrstuopqrstuvwx\" \"abcklmnopqrstuvwxrstuvwx\" \"abcdefghijdefghijklmnopq\" \"abcdefghijklmnopqrstuvwx\" \"abcdeghiijklmnopqrstuvwx\")",
    ),
    (
        b"(define s (make-string 256 #\\null)) (define (each f) (let next ((i 0)) (if (< i 256) (begin (f i) (next (+ i 1)))))) (each (lambda (i) (string-set! s i (integer->char i)))) (define t (string-append \"abc\" (substring s 1) s)) (each (lambda (i) (if (not (= i (char->integer (string-ref s i)))) (write i)) (if (not (eq? (string-ref s i) (string-ref t (+ i 258)))) (write (list i 't))))) (each (lambda (i) (string-set! s (- 255 i) (integer->char i)))) (each (lambda (i) (if (not (= i (char->integer (string-ref s (- 255 i))))) (write i)))) (write (string-length t))",
        b"514",
    ),
    (
        b"(define s (make-string 4094 #\\a)) (string-set! s 4093 #\\b) (define t (string-append (substring s 0 4090) \"aaab\")) (write (list (string-length t) (string=? s t) (string-ref t 4093) (string-ref s 4092) (string-copy t 4087)))",
        b"(4094 #t #\\b #\\a \"aaaaaab\")",
    ),
    (
        b"(define s (make-string 4094 #\\a)) (define t (make-string 4094 #\\c)) (write (list (string<? s t) (string-copy t 4090))) (string-fill! t #\\d 3 4091) (write (list (string-copy t 0 5) (string-copy t 4088))) (string-fill! t #\\e) (write (string-ref t 4093))",
        b"(#t \"cccc\")(\"cccdd\" \"dddccc\")#\\e",
    ),
    (
        b"(define z (string #\\a (integer->char 0))) (define y (string #\\a (integer->char 255))) (write (list (string<? \"a\" z) (string<? z \"a\") (string=? \"a\" z) (string<? z y) (string<? \"b\" y) (string<? \"aaaaaaa\" \"aaaaaaab\") (string<? \"aaaaaaab\" \"aaaaaaa\") (string<? \"aaaaaabz\" \"aaaaaaca\") (string=? \"\" \"\") (string<? \"\" z) (equal? \"1234567\" \"1234567\")))",
        b"(#t #f #f #t #f #t #f #t #t #t #t)",
    ),
];

/// Programs, and what they print here: another Scheme has greater numbers, and ports.
const OTHERS: &[(&[u8], &[u8])] = &[
    (
        b"(write (map string->number '(\"1152921504606846975\" \"1152921504606846976\" \"-1152921504606846976\" \"-1152921504606846977\")))",
        b"(1152921504606846975 #f -1152921504606846976 #f)",
    ),
    (
        b"(write (string->number \"zzzzzzzzzzzzzzzz\" 36)) (write-string \"abc\" 1) (write-string \"abc\" 0 2)",
        b"#fbcab",
    ),
];

#[test]
fn procedures_do_what_those_of_another_scheme_do(rt: HostRuntime) {
    expect_runs(&rt, PROCEDURES);
}

#[test]
fn programs_print_what_differs_in_another_scheme(rt: HostRuntime) {
    expect_runs(&rt, OTHERS);
}
