//! Programs, what they print, and where they stop.

use crate::expectations::{Row, expect_bytes};
use crate::texts::each_kind;
use refusing::RefusingAllocator;
use rh_growing::GrowingHeap;
use rh_lisp::{Fault, FaultKind, Outcome, Printed, Program, ReadKind};
use rh_pace::{PacedHeap, Sizes};
use samples::texts::repeated;
use std::alloc::{Allocator, Global};
use std::process::Abort;
use std::rt::HostRuntime;

/// Programs that write a datum that has one of each kind in it: one makes it, and one quotes its
/// text.
const WRITERS: &[&[u8]] = &[
    b"(write (cons 10 (cons (cons -7 #\\a) (cons (string #\\a #\\\" #\\\\ #\\newline #\\tab) (cons (vector 'x '() #t) (cons #\\newline (cons #f #\\space)))))))",
    b"(write '(10 (-7 . #\\a) \"a\\\"\\\\\\n\\t\" #(x () #t) #\\newline #f . #\\space))",
];

/// Programs, and what they print: what another Scheme prints.
const PROGRAMS: &[(&[u8], &[u8])] = &[
    (
        b"(display (+ 1 2)) (write (do ((i 0 (+ i 1)) (s 0 (+ s i))) ((= i 5) s))) (write (letrec ((even (lambda (n) (if (= n 0) #t (odd (- n 1))))) (odd (lambda (n) (if (= n 0) #f (even (- n 1)))))) (even 10))) (write (and 1 2)) (write (or #f 3)) (write (not 1)) (when #t (display 'w)) (unless #t (display 'u))",
        b"310#t23#fw",
    ),
    (
        b"(write '(1 (2 . 3) \"a\\\"b\\\\c\\n\" #\\a #\\space #t () sym)) (write (list (quotient -7 2) (remainder -7 2) (modulo -7 2) (max 3 9 4) (number->string -120)))",
        b"(1 (2 . 3) \"a\\\"b\\\\c\\n\" #\\a #\\space #t () sym)(-3 -1 1 9 \"-120\")",
    ),
    (
        b"(define (loop n) (if (= n 0) 'done (loop (- n 1)))) (display (loop 1000))",
        b"done",
    ),
    (
        b"(define (f . l) l) (write (list (f) (f 1) (f 1 2))) (write (apply + 1 '(2 3)))",
        b"(() (1) (1 2))6",
    ),
    (
        b"(write (let* ((a 1) (b (+ a 1))) (let loop ((i 0) (l '())) (if (= i b) l (loop (+ i 1) (cons i l)))))) (write (case 3 ((1 2) 'low) ((3 4) 'high) (else 'none))) (write (cond ((assv 2 '((1 . a) (2 . b)))) (else 0)))",
        b"(1 0)high(2 . b)",
    ),
    (
        b"(define k #f) (define n 0) (display (+ 1 (call/cc (lambda (c) (set! k c) 1)))) (set! n (+ n 1)) (if (< n 3) (k n))",
        b"22",
    ),
    (
        b"(write `(1 ,(+ 1 1) ,@(map (lambda (x) (* x x)) '(2 3)) 4))",
        b"(1 2 4 9 4)",
    ),
    (
        b"(define x 5) (write `(1 ,`(2 ,x) quasiquote)) (write `(quasiquote 1 2))",
        b"(1 (2 5) quasiquote)(quasiquote 1 2)",
    ),
    (
        b"(define v (make-vector 3 0)) (vector-set! v 1 'x) (write v) (write (vector-length v)) (write '#(1 (2))) (write (string-append \"ab\" \"cd\")) (write (string->list \"xy\")) (write (substring \"hello\" 1 3))",
        b"#(0 x 0)3#(1 (2))\"abcd\"(#\\x #\\y)\"el\"",
    ),
    (
        b"(define (count) (define n 0) (lambda () (set! n (+ n 1)) n)) (define c (count)) (c) (display (c))",
        b"2",
    ),
    (
        b"(define (g k) (let ((r (call/cc (lambda (e) (for-each (lambda (x) (if (> x k) (e x))) '(1 5 9)) 'none)))) r)) (write (list (g 3) (g 20)))",
        b"(5 none)",
    ),
    (
        b"(define l (list 3 1 2)) (set-car! (cdr l) 'y) (write (reverse (append l '(z))))",
        b"(z 2 y 3)",
    ),
    (
        b"(define (f begin end) (cond ((< begin end) begin) (else end))) (display (f 1 2))",
        b"1",
    ),
    (
        b"(define (append a b) 'mine) (write (append 1 2)) (write (string-append \"a\" \"b\"))",
        b"mine\"ab\"",
    ),
    (
        b"(define (f cons append) `(,cons ,@(list append 3) 4)) (write (f 1 2))",
        b"(1 2 3 4)",
    ),
    (
        b"(define (f x) (car x)) (define old car) (define (car x) (old (old x))) (write (f '((1))))",
        b"1",
    ),
    (
        b"(define (f x) (car x)) (set! car cdr) (write (f '(1 2)))",
        b"(2)",
    ),
    (
        b"(begin (define (append a b) 'mine)) (write (append 1 2)) (write (string-append \"a\" \"b\"))",
        b"mine\"ab\"",
    ),
    (
        b"(define a 1) (define (f) (begin (define a 2)) a) (write (f)) (write a)",
        b"21",
    ),
    (b"(define (not x) 'mine) (write (not 1))", b"mine"),
    (
        b"(write (map + '(1 2) '(10 20) '(100 200 300))) (for-each (lambda (a b) (write (- a b))) '(5 6) '(1 2))",
        b"(111 222)44",
    ),
    (
        b"#| Of this kind #| one in the other |# too. |# (write '(#true #x1F #x-a -7 +7 - ... #\\tab #\\x41 #\\( #;(left out) . end))",
        b"(#t 31 -10 -7 7 - ... #\\tab #\\A #\\( . end)",
    ),
    (
        b"(write \"tab\\tline\\nquote\\\"back\\\\slash\\x41;end\") (write (string-length \"one \\\n   line\"))",
        b"\"tab\\tline\\nquote\\\"back\\\\slashAend\"8",
    ),
    (
        b"(write '(#XFF #x-ff #b-101 #B11 #o17 #O7 #d10 #D+10 #T #F #TRUE #False #\\X41 #\\|))",
        b"(255 -255 -5 3 15 7 10 10 #t #f #t #f #\\A #\\|)",
    ),
    (
        b"(write \"bar\\|\\X41;on \\ \t\n \t over \\\r\n and \\\r over\")",
        b"\"bar|Aon over and over\"",
    ),
    (
        b"(define |a b| 1) (write (+ |a b| 1)) (write (eq? '|a\\x62;c| 'abc)) (display '(|a;(\\|\"| a|b|c ||))",
        b"2#t(a;(|\" a b c )",
    ),
    (
        b"(define x 5) (write `(1 #(2 ,x ,@(list 3 4)) ,@'() . ,x)) (write `#(,x))",
        b"(1 #(2 5 3 4) . 5)#(5)",
    ),
    (
        b"(define x 5) (write (case x ((1 2 3) 'low) ((4 5) => (lambda (n) (* n n))) (else 'high))) (write (case 'z ((a) 1) (else => list)))",
        b"25(z)",
    ),
    (
        b"(define t 5) (write (or #f (cond (#f 1) ((+ t 1) => (lambda (n) (+ t n)))))) (write (cond ((assv 3 '((1 . a))) => cdr) (else 0)))",
        b"110",
    ),
    (
        b"(write (list (char=? #\\a #\\a) (char<? #\\a #\\b #\\b) (make-string 2 #\\z) (string-length (make-string 3)))) (write (list (list? '(1 2)) (list? '(1 . 2)) (let ((c (list 1 2 3))) (set-cdr! (cddr c) c) (list? c))))",
        b"(#t #f \"zz\" 3)(#t #f #f)",
    ),
    (
        b"(write (symbol->string 'abc)) (write (map symbol->string '(a if))) (write (equal? '(1 #(2) \"x\") (list 1 (vector 2) (string #\\x)))) (write (eq? 'a 'a)) (write (memq 'c '(a b c d)))",
        b"\"abc\"(\"a\" \"if\")#t#t(c d)",
    ),
    (
        b"(define (when x) (* x 2)) (write (when 21)) (define (f) (define if 3) if) (write (if #t (f) 2))",
        b"423",
    ),
    (
        b"(define quote 5) (write quote) (write (let ((quote -)) '5)) (write (and 1 2 3 (or #f #f 4)))",
        b"5-54",
    ),
    (
        b"(write `#(1 2 unquote (list 3 4))) (define x 5) (write `#(1 unquote x)) (write `(a unquote 1 2))",
        b"#(1 2 unquote (list 3 4))#(1 unquote x)(a unquote 1 2)",
    ),
    (
        b"(define c (list 1 2)) (set-cdr! (cdr c) c) (display (car `(0 ,@c)))",
        b"0",
    ),
    (
        b"(write `(1 `(2 ,(3 ,(+ 1 3))))) (write `(1 `,@(2 ,@(list 1 2)))) (write `#(1 `(,2 ,,(+ 1 2))))",
        b"(1 (quasiquote (2 (unquote (3 4)))))(1 (quasiquote (unquote-splicing (2 1 2))))#(1 (quasiquote ((unquote 2) (unquote 3))))",
    ),
    // A function that a name has for good is called directly, and no other is.
    (
        b"(define (f) 1) (define (h) (set! f (lambda () 3))) (h) (display (f))",
        b"3",
    ),
    (b"(if #f (define (abs x) 'mine)) (display (abs -5))", b"5"),
    (
        b"(letrec ((f (lambda () 1))) (set! f (lambda () 2)) (display (f)))",
        b"2",
    ),
    (
        b"(define (g f) ((lambda () (define (f) 2) (f))) (f)) (display (g (lambda () 1)))",
        b"1",
    ),
    (
        b"(define (f x) (list (<= 3 x) (>= 3 x) (< 3 x) (> 3 x))) (display (map f '(2 3 4))) (define (g x) (list (<= x 3) (>= x 3) (< x 3) (> x 3))) (display (map g '(2 3 4)))",
        b"((#f #t #f #t) (#t #t #f #f) (#t #f #t #f))((#t #f #t #f) (#t #t #f #f) (#f #t #f #t))",
    ),
    (
        b"(define (f) 1) (display (f)) (define (f) 2) (display (f))",
        b"12",
    ),
    (
        b"(define (f a) (define (i x) (list x a)) (define (g b) (lambda () (define (h c) (lambda () (list a b c (i 4)))) ((h 3)))) ((g 2))) (display (f 1))",
        b"(1 2 3 (4 1))",
    ),
    // A name that is bound again means what it did, once that has ended.
    (
        b"(define (f) (define (g) 1) (let ((g (lambda () 2))) (display (g))) ((lambda (g) (display (g))) (lambda () 3)) (display (g))) (f)",
        b"231",
    ),
    (
        b"(define (f g) (letrec ((g (lambda (n) (if (= n 0) (list g) (g (- n 1)))))) (procedure? (car (g 2))))) (display (f 0))",
        b"#t",
    ),
    (
        b"(define (f x) (define (g) (define x 3) (let* ((x 4) (x (+ x 1))) (display x)) x) (list x (g) x)) (display (f 1))",
        b"5(1 3 1)",
    ),
    // A continuation that is entered again finds what was there before: operands, variables, and boxes of those that are set.
    (
        b"(define n 0) (define (put c) (display c) (set! n (+ n 1))) (call/cc (lambda (end) (let* ((yin ((lambda (c) (if (> n 17) (end 0)) (put #\\@) c) (call/cc (lambda (c) c)))) (yang ((lambda (c) (put #\\*) c) (call/cc (lambda (c) c))))) (yin yang))))",
        b"@*@**@***@****@*****",
    ),
    (
        b"(define kept '()) (define (choose l) (call/cc (lambda (k) (for-each (lambda (x) (set! kept (append kept (list (lambda () (k x)))))) (cdr l)) (car l)))) (define all '()) (define (go) (let* ((a (choose '(1 2))) (b (choose '(a b)))) (set! all (cons (list a b) all)) (if (pair? kept) (let ((next (car kept))) (set! kept (cdr kept)) (next))) (reverse all))) (write (go))",
        b"((1 a) (2 a) (1 b) (2 b))",
    ),
    (
        b"(define kept '()) (define (keep k) (set! kept (append kept (list k)))) (define (next) (let ((k (car kept))) (set! kept (cdr kept)) (k))) (define all '()) (define (choose l) (call/cc (lambda (k) (for-each (lambda (x) (keep (lambda () (k x)))) l) (next)))) (define (go) (let* ((a (choose '(1 2))) (b (choose '(a b)))) (set! all (cons (list a b) all)) (if (pair? kept) (next)) (reverse all))) (write (go))",
        b"((1 a) (1 b) (2 a) (2 b))",
    ),
    (
        b"(define k #f) (define fs '()) (define (go) (let ((x (call/cc (lambda (c) (set! k c) 1)))) (set! fs (cons (lambda () x) fs)) (if (null? (cdr fs)) (k 2)) (map (lambda (f) (f)) fs))) (write (go))",
        b"(2 1)",
    ),
    (
        b"(define k #f) (define (go) (let ((turns 0)) (let ((a 1) (b (call/cc (lambda (c) (set! k c) 1)))) (set! a (+ a 1)) (set! turns (+ turns 1)) (write (list a b turns)) (if (< turns 3) (k (+ b 10))) turns))) (write (go))",
        b"(2 1 1)(2 11 2)(2 21 3)3",
    ),
    (
        b"(define (go) (define (g) (h)) (define x (call/cc (lambda (c) c))) (define (h) (if (procedure? x) 'first x)) (write (g)) (if (procedure? x) (x 5) 'done)) (write (go))",
        b"first5done",
    ),
    // A variable that is set once a call has read it, and is read no more.
    (
        b"(define (f x) x) (call/cc (lambda (k) 1)) (let ((a 2)) (set! a (f a)) (display 7)) (define (skip l n) (if (< 0 n) (set! l (f (cdr l))) #f) n) (display (skip '(1 2) 3)) (let-values (((b c) (values 1 2))) (set! b (f b)) (set! c (f (+ c b))) (display 5)) (guard (e (#t 0)) (let ((a 2)) (set! a (f a)) (display 4)))",
        b"7354",
    ),
    // A letrec whose value's continuation is entered again sets the same variable.
    (
        b"(write (letrec ((x (call/cc (lambda (c) (list #t c))))) (if (car x) ((cadr x) (list #f (lambda () x))) (eq? x ((cadr x))))))",
        b"#t",
    ),
    // What was read before is written where one is entered again: it goes on with a copy.
    (
        b"(define k #f) (define n 0) (define (id x) x) (define (two a b) (+ (id (+ a n)) (id (* b 10)))) (define (go) (let ((x (id 3))) (let ((y (+ (id x) (call/cc (lambda (c) (set! k c) 1))))) (set! n (+ n 1)) (write (list x y (two x y) (two y x)))) (let ((z (two x 2)) (w (id 7))) (if (< n 3) (k n)) (list x z w)))) (write (go))",
        b"(3 4 44 35)(3 4 45 36)(3 5 56 38)(3 26 7)",
    ),
];

/// Programs that make many more objects than the heap of one size has words, and what they print.
const COLLECTED: &[(&[u8], &[u8])] = &[
    (
        b"(define (loop n) (if (= n 0) 'done (loop (- n 1)))) (display (loop 1500))",
        b"done",
    ),
    // Deep calls, again and again.
    (
        b"(define (sum n) (if (= n 0) 0 (+ n (sum (- n 1))))) (define (again n s) (if (= n 0) s (again (- n 1) (+ s (sum 60))))) (write (again 20 0))",
        b"36600",
    ),
    // Pairs that live, whose parts change.
    (
        b"(define l (list 1 2 3)) (define (turn n) (if (< 0 n) (begin (set-cdr! (cddr l) (list n)) (set! l (cdr l)) (turn (- n 1))))) (turn 300) (write l)",
        b"(3 2 1)",
    ),
    // Closures, and what they set.
    (
        b"(define (count) (let ((n 0)) (lambda () (set! n (+ n 1)) n))) (define kept (count)) (define (next n) (if (= n 0) (kept) (begin (kept) ((count)) (next (- n 1))))) (write (next 150))",
        b"151",
    ),
    // A continuation that is entered again and again.
    (
        b"(define k #f) (define n 0) (define (go) (let ((s (+ 1 (call/cc (lambda (c) (set! k c) 1))))) (set! n (+ n 1)) (if (< n 150) (k (car (list n n n n n n n n))) (list n s)))) (write (go))",
        b"(150 150)",
    ),
    // Vectors and strings.
    (
        b"(define v (vector 0 \"\")) (define (fill n) (if (< 0 n) (begin (vector-set! v 0 (vector n n n n n)) (vector-set! v 1 (string #\\a #\\b)) (fill (- n 1))))) (fill 40) (write v)",
        b"#(#(1 1 1 1 1) \"ab\")",
    ),
    // Lists of lists.
    (
        b"(define (twice l) `(,@(map (lambda (x) (* 2 x)) l) . end)) (define (next n l) (if (= n 0) l (next (- n 1) (twice '(1 2 3 4))))) (write (next 60 '()))",
        b"(2 4 6 8 . end)",
    ),
];

/// Programs that stop, and their messages.
const STOPS: &[(&[u8], &[u8])] = &[
    (b"(car 5)", b"p:1:1: car: not a pair"),
    (
        b"(display (+ 1 (cdr (quote ()))))",
        b"p:1:15: cdr: not a pair",
    ),
    // An operand of a call is told at its own place.
    (b"(display\n (car 5))", b"p:2:2: car: not a pair"),
    (
        b"(define (f)\n (list 7 (cdr '(1))\n  (* 2 'a)))\n(f)",
        b"p:3:3: *: not a number",
    ),
    (
        b"(define (f x) x)\n(f 1\n (car '(2)))",
        b"p:2:1: wrong number of arguments",
    ),
    (b"(+ 1 'a)", b"p:1:1: +: not a number"),
    (b"(quotient 7 0)", b"p:1:1: quotient: division by zero"),
    (b"(* 1073741824 1073741824)", b"p:1:1: *: overflow"),
    (
        b"(vector-ref (vector 1 2) 2)",
        b"p:1:1: vector-ref: out of range",
    ),
    (b"(string-length 'a)", b"p:1:1: string-length: not a string"),
    (
        b"(char->integer 5)",
        b"p:1:1: char->integer: not a character",
    ),
    (b"\n unknown", b"p:2:2: unknown: unbound variable"),
    (
        b"(define (f x) x) (f 1 2)",
        b"p:1:18: wrong number of arguments",
    ),
    (b"(\"no procedure\" 1)", b"p:1:1: not a procedure"),
    (b"(make-vector -1 0)", b"p:1:1: make-vector: out of range"),
    (b"(apply + 5)", b"p:1:1: apply: not a list"),
    (
        b"(define c (list 1 2)) (set-cdr! (cdr c) c) (length c)",
        b"p:1:44: steps spent",
    ),
    (
        b"(define (keep l) (keep (cons l l))) (keep '())",
        b"p:1:24: heap exhausted",
    ),
    (b"(display unknown)", b"p:1:10: unknown: unbound variable"),
    (b"(set! unknown 1)", b"p:1:7: unknown: unbound variable"),
    (
        b"(define (f . l) (define a b) (define b 1) a) (display (f 1 2 3))",
        b"p:1:27: b: unbound variable",
    ),
    (b"(for-each display 5)", b"p:1:1: for-each: not a list"),
    (b"(list-tail '(1 2) 3)", b"p:1:1: list-tail: out of range"),
    (
        b"(define (f x) (error \"bad:\" x 'y)) (display (f 1))",
        b"p:1:15: bad: 1 y",
    ),
    (b"(+ 1 1152921504606846975 0)", b"p:1:1: +: overflow"),
    (
        b"(string-ref \"abc\" 3)",
        b"p:1:1: string-ref: out of range",
    ),
    (
        b"(string-ref \"abc\" -1)",
        b"p:1:1: string-ref: out of range",
    ),
    (
        b"(vector-ref (vector 1 2) -1)",
        b"p:1:1: vector-ref: out of range",
    ),
    // What fails in a procedure of the language is told as that.
    (b"(length 5)", b"p:1:1: length: not a list"),
    (
        b"(symbol->string 5)",
        b"p:1:1: symbol->string: not a symbol",
    ),
    (b"(map car 5)", b"p:1:1: map: not a list"),
    (b"(map car '(5))", b"p:1:1: car: not a pair"),
    (b"(append 1 2)", b"p:1:1: append: not a list"),
    (b"(string=? 'a \"b\")", b"p:1:1: string=?: not a string"),
    (
        b"(string-ci=? \"a\" 5)",
        b"p:1:1: string-ci=?: not a string",
    ),
    (b"(expt 2 100)", b"p:1:1: expt: overflow"),
    // The prelude has a difference at 1:29.
    (
        b"(abs 1)                     (+ 1152921504606846975 1)",
        b"p:1:29: +: overflow",
    ),
    (
        b"(map string-upcase '(5))",
        b"p:1:1: string-upcase: not a string",
    ),
    (
        b"(map symbol->string '(5))",
        b"p:1:1: symbol->string: not a symbol",
    ),
    (
        b"(map number->string '(a))",
        b"p:1:1: number->string: not a number",
    ),
    (
        b"(apply string-append '(1))",
        b"p:1:1: string-append: not a string",
    ),
    (
        b"(string-map (lambda (c) (digit-value c)) \"12\")",
        b"p:1:25: string-map: not a character",
    ),
    (
        b"(map (lambda (a b) (list a b)) '(1 2 . 3) '(4 5 6))",
        b"p:1:20: map: not a list",
    ),
    (
        b"((if #t list-tail car) '(1) 5)",
        b"p:1:1: list-tail: out of range",
    ),
    // Of what fails in a part that procedures share, the name is that of the last call, if it has
    // one.
    (b"(map string=? '(a) '(\"a\"))", b"p:1:1: map: not a string"),
    (b"((if #t substring car) \"abc\" 4)", b"p:1:1: out of range"),
    (
        b"(map abs '(-1152921504606846976))",
        b"p:1:1: map: overflow",
    ),
    (
        b"(write-string \"abc\" 4)",
        b"p:1:1: write-string: out of range",
    ),
    (
        b"(substring \"abc\" 2 1)",
        b"p:1:1: substring: out of range",
    ),
    (
        b"(substring \"abc\" 0 1 2)",
        b"p:1:1: wrong number of arguments",
    ),
    (
        b"(letrec ((a (lambda () b)) (b (a))) b)",
        b"p:1:24: b: unbound variable",
    ),
    (
        b"(define r (if #f (define (f) 1) 0)) (f)",
        b"p:1:38: f: unbound variable",
    ),
];

/// Texts that are no programs, and their first faults.
const FAULTS: &[(&[u8], &[u8])] = &[
    (b"(display 1))", b"1:12: unexpected )"),
    (b"(display ')", b"1:11: unexpected )"),
    (b"(display 1", b"1:11: unfinished"),
    (b"\n \"abc", b"2:2: unfinished"),
    (b"'(1 . )", b"1:7: misplaced dot"),
    (b"'(1 . 2 3)", b"1:9: misplaced dot"),
    (b"'#(1 . 2)", b"1:6: misplaced dot"),
    (b"1152921504606846976", b"1:1: number out of range"),
    (b"#nosuch", b"1:1: no such datum"),
    (b" 1.5", b"1:2: no such number"),
    (b"'(1 1/2)", b"1:5: no such number"),
    (b"(+ -.5 1)", b"1:4: no such number"),
    (b"#xg", b"1:1: no such number"),
    (b"#x1000000000000000", b"1:1: number out of range"),
    (b"#b102", b"1:1: no such number"),
    (b"#o8", b"1:1: no such number"),
    (b"(write #b)", b"1:8: no such number"),
    (b"#trues", b"1:1: no such datum"),
    (b" |a b", b"1:2: unfinished"),
    (b"'|a\\qb|", b"1:2: no such escape"),
    (b"\"a\\ b\"", b"1:1: no such escape"),
    (b"#\\nosuch", b"1:1: no such datum"),
    (b"\"a\\qb\"", b"1:1: no such escape"),
    (b"\"a\\x41\"", b"1:1: no such escape"),
    (b"1 #| 2 #| 3 |#", b"1:3: unfinished"),
    (b"(1 #;)", b"1:6: unexpected )"),
    (b"(cond (1 2) . 3)", b"1:1: bad form"),
    (b"(if)", b"1:1: bad form"),
    (b"(lambda (x x) x)", b"1:1: bad form"),
    (b"(lambda (x . x) x)", b"1:1: bad form"),
    (b"(let ((x 1) (x 2)) x)", b"1:1: bad form"),
    (b"(letrec ((x 1) (x 2)) x)", b"1:1: bad form"),
    (b"(do ((x 1) (x 2)) (#t x))", b"1:1: bad form"),
    (b"(cond (else))", b"1:1: bad form"),
    (b"(cond (else 1) (#t 2))", b"1:1: bad form"),
    (b"(case 1 ((1)))", b"1:1: bad form"),
    (b"(list 1 ())", b"1:9: bad form"),
    (b"(import (srfi 1))", b"1:1: import: not in this Scheme"),
    (
        b"(import (only (srfi 1) x))",
        b"1:1: import: not in this Scheme",
    ),
    (
        b"(import (prefix (scheme base) s:))",
        b"1:1: import: not in this Scheme",
    ),
    (
        b"(import (rename (scheme base) (car head)))",
        b"1:1: import: not in this Scheme",
    ),
    (
        b"(define-syntax a (syntax-rules ()))",
        b"1:1: define-syntax: not in this Scheme",
    ),
    (b"(let-syntax a)", b"1:1: let-syntax: not in this Scheme"),
    (
        b"(letrec-syntax a)",
        b"1:1: letrec-syntax: not in this Scheme",
    ),
    (
        b"(syntax-rules a)",
        b"1:1: syntax-rules: not in this Scheme",
    ),
    (
        b"(syntax-error a)",
        b"1:1: syntax-error: not in this Scheme",
    ),
    (b"(include a)", b"1:1: include: not in this Scheme"),
    (b"(include-ci a)", b"1:1: include-ci: not in this Scheme"),
    (b"(cond-expand a)", b"1:1: cond-expand: not in this Scheme"),
    (
        b"(define-library a)",
        b"1:1: define-library: not in this Scheme",
    ),
    (b"(quote 1 2)", b"1:1: bad form"),
    (b"(define x 1 2)", b"1:1: bad form"),
    (b"(display (let ((x)) x))", b"1:10: bad form"),
    (b"(define (f) (if #t (define x 1)))", b"1:20: bad form"),
    (b"(lambda (x 1) x)", b"1:1: not a name"),
];

/// About twice what lives in a program here, and little more than the 2,669 words that a heap of
/// `rheap lisp` has at least.
const SIZES: Sizes = Sizes {
    words: 3_000,
    biggest: 400,
    ratio: 32,
    owners: 2,
    slots: 8,
};

/// A heap that grows, to so many words at most.
pub fn growing_heap<R: AllocGlobal + Abort>(rt: &R, at_most: u32) -> GrowingHeap<Global> {
    let heap = GrowingHeap::new(rt.alloc(), at_most).ok();
    heap.expect(rt, "memory is ample")
}

/// A heap of these sizes.
fn paced_heap<R: AllocGlobal + Abort>(rt: &R, sizes: Sizes) -> PacedHeap<Global> {
    let heap = PacedHeap::sized(rt.alloc(), sizes).ok();
    heap.expect(rt, "memory is ample")
}

/// Runs a program on a heap that grows. No test needs what is promised of that.
pub fn run_growing<A: Allocator + Copy>(
    program: &mut Program<A>,
    heap: &mut GrowingHeap<A>,
) -> Outcome {
    program.run(heap)
}

/// Runs a program on a heap of one size. No test needs what is promised of that.
fn run_paced<A: Allocator + Copy>(program: &mut Program<A>, heap: &mut PacedHeap<A>) -> Outcome {
    program.run_on_paced(heap)
}

/// Runs a program on a new heap that grows.
fn outcome_of<R: AllocGlobal + Abort>(rt: &R, program: &mut Program<Global>) -> Outcome {
    let mut heap = growing_heap(rt, 10_000);
    run_growing(program, &mut heap)
}

/// Runs a program on a new heap of one size. Answers how often the heap collected too.
fn paced_outcome_of<R: AllocGlobal + Abort>(
    rt: &R,
    program: &mut Program<Global>,
) -> (Outcome, u64) {
    let mut heap = paced_heap(rt, SIZES);
    let outcome = run_paced(program, &mut heap);
    (outcome, heap.stat().flips)
}

/// What a program has printed. No test needs what is promised of that.
fn printed_by<R: AllocGlobal + Abort>(rt: &R, program: &Program<Global>) -> Printed<Global> {
    program.printed(rt.alloc()).expect(rt, "memory is ample")
}

/// Ends the test unless a program has printed this.
pub fn expect_output<R: AllocGlobal + Abort>(rt: &R, program: &Program<Global>, due: &[u8]) {
    let printed = printed_by(rt, program);
    expect_bytes(rt, &printed.output, due);
}

/// Ends the test unless a program that ended so has this message.
pub fn expect_message<R: AllocGlobal + Abort>(
    rt: &R,
    program: &Program<Global>,
    outcome: Outcome,
    due: &[u8],
) {
    let printed = printed_by(rt, program);
    let message = program.message(rt.alloc(), b"p", outcome, &printed);
    expect_bytes(rt, &message.expect(rt, "memory is ample"), due);
}

/// Runs the program that the text is on a heap that grows, and ends the test unless it prints this,
/// where something is due, and has this message.
pub fn expect_run<R: AllocGlobal + Abort>(rt: &R, text: &[u8], output: Option<&[u8]>, due: &[u8]) {
    let mut program = program_of(rt, text);
    let outcome = outcome_of(rt, &mut program);
    expect_message(rt, &program, outcome, due);
    if let Some(output) = output {
        expect_output(rt, &program, output);
    }
}

/// Runs the program that the text is on a heap of one size, and ends the test unless it prints
/// this. Answers how often the heap collected.
fn expect_run_on_paced<R: AllocGlobal + Abort>(rt: &R, text: &[u8], output: &[u8]) -> u64 {
    let mut program = program_of(rt, text);
    let (outcome, flips) = paced_outcome_of(rt, &mut program);
    expect_message(rt, &program, outcome, b"");
    expect_output(rt, &program, output);
    flips
}

/// The program that a text is, which may put out so many characters and spend so many steps, or its
/// fault. No test needs what is promised of that.
fn made<A: Allocator + Copy>(
    alloc: A,
    text: &[u8],
    most: u32,
    steps: u64,
) -> Result<Program<A>, Fault> {
    Program::new(alloc, text, most, steps)
}

/// The program that a text is.
fn program_of<R: AllocGlobal + Abort>(rt: &R, text: &[u8]) -> Program<Global> {
    let program = made(rt.alloc(), text, 1_000, 400_000).ok();
    program.expect(rt, "a program")
}

/// Ends the test unless a fault has these words, with its place.
pub fn expect_fault<R: AllocGlobal + Abort>(rt: &R, fault: Fault, due: &[u8]) {
    let Fault { position, kind, .. } = fault;
    let text = format!(in rt.alloc(); "{}:{}: {kind}", position.line, position.column);
    let text = text.expect(rt, "memory is ample");
    expect_bytes(rt, text.as_str().as_bytes(), due);
}

/// The fault of a text, if it has one.
pub fn fault_of<A: Allocator + Copy>(
    alloc: A,
    text: &[u8],
    most: u32,
    steps: u64,
) -> Option<Fault> {
    made(alloc, text, most, steps).err()
}

/// Runs each of these programs, and ends the test unless it prints what stands beside it.
pub fn expect_runs<R: AllocGlobal + Abort>(rt: &R, programs: &[(&[u8], &[u8])]) {
    for (row, &(text, output)) in programs.iter().enumerate() {
        expect_run(&Row { rt, row }, text, Some(output), b"");
    }
}

#[test]
fn programs_print_what_another_scheme_prints(rt: HostRuntime) {
    expect_runs(&rt, PROGRAMS);
}

#[test]
fn a_datum_of_each_kind_is_written_as_its_text(rt: HostRuntime) {
    for (row, &text) in WRITERS.iter().enumerate() {
        expect_run(&Row { rt: &rt, row }, text, Some(each_kind()), b"");
    }
}

/// The same on heaps of one size, each of which has to collect twice.
fn expect_runs_on_paced<R: AllocGlobal + Abort>(rt: &R, programs: &[(&[u8], &[u8])]) {
    for (row, &(text, output)) in programs.iter().enumerate() {
        let flips = expect_run_on_paced(&Row { rt, row }, text, output);
        assert!(rt; 1 < flips, "row {row}: {flips} collections");
    }
}

#[test]
fn programs_print_the_same_where_the_heap_keeps_its_size(rt: HostRuntime) {
    expect_runs_on_paced(&rt, COLLECTED);
}

/// Runs each of these programs, and ends the test unless it has the message beside it.
pub fn expect_stops<R: AllocGlobal + Abort>(rt: &R, programs: &[(&[u8], &[u8])]) {
    for (row, &(text, due)) in programs.iter().enumerate() {
        expect_run(&Row { rt, row }, text, None, due);
    }
}

#[test]
fn programs_stop_where_their_messages_say(rt: HostRuntime) {
    expect_stops(&rt, STOPS);
}

/// Ends the test unless each of these texts has the fault beside it.
pub fn expect_faults<R: AllocGlobal + Abort>(rt: &R, texts: &[(&[u8], &[u8])]) {
    for (row, &(text, due)) in texts.iter().enumerate() {
        let rt = Row { rt, row };
        let fault = fault_of(rt.alloc(), text, 1_000, 400_000);
        expect_fault(&rt, fault.expect(&rt, "a fault"), due);
    }
}

#[test]
fn texts_that_are_no_programs_have_their_first_faults(rt: HostRuntime) {
    expect_faults(&rt, FAULTS);
}

/// A call that begins so and goes on with so many operands.
fn call_of<R: AllocGlobal + Abort>(rt: &R, begin: &[u8], operands: u32) -> Vec<u8> {
    let text = repeated(rt, begin, b" 1", operands);
    let mut text = text.expect(rt, "memory is ample");
    let ended = text.extend_from_slice(b")");
    ended.expect(rt, "memory is ample");
    text
}

/// How calls begin on the second line, of the language's own and of a function that is known.
const CALLS: &[&[u8]] = &[b"1\n(list", b"(define (f x) x)\n(f"];

#[test]
fn a_call_of_too_many_operands_is_told_at_its_place(rt: HostRuntime) {
    let due = b"2:1: too many variables";
    for (row, &begin) in CALLS.iter().enumerate() {
        let rt = Row { rt: &rt, row };
        let fault = fault_of(rt.alloc(), &call_of(&rt, begin, 4_095), 9, 9);
        expect_fault(&rt, fault.expect(&rt, "a fault"), due);
        let fault = fault_of(rt.alloc(), &call_of(&rt, begin, 4_094), 9, 9);
        assert!(rt; fault.is_none());
    }
}

/// The program for whose making memory is refused.
const MADE: &[u8] = b"(define (append a b) `(,a #(1) \"x\")) (append 1 2)";

/// Whether there is a fault exactly where memory was refused, and says so.
fn is_told(fault: Option<Fault>, is_refused: bool) -> bool {
    match fault {
        Some(fault) => is_refused && fault.kind == FaultKind::Read(ReadKind::OutOfMemory),
        None => !is_refused,
    }
}

/// Whether a program is made exactly where the nth allocation isn't refused, and whether it was.
fn is_made_unless_refused<A: Allocator + Copy>(alloc: A, nth: u64) -> (bool, bool) {
    let memory = RefusingAllocator::new(alloc, nth);
    let fault = fault_of(&memory, MADE, 9, 9);
    let is_refused = memory.has_refused();
    (is_told(fault, is_refused), is_refused)
}

#[test]
fn allocations_are_refused_further_and_further_on(rt: HostRuntime) {
    let mut nth = 1u64;
    for _ in 0..400u32 {
        let (is_told, is_refused) = is_made_unless_refused(rt.alloc(), nth);
        assert!(rt; is_told, "allocation {nth}");
        if !is_refused {
            break;
        }
        nth = nth.saturating_add(1 + nth / 16);
    }
    assert!(rt; 200 < nth, "{nth} allocations");
}
