//! Loans of places.

use crate::holding::all_hold;
use crate::loans::judged::is_judged;
use rx_tests_tables::LINES;

/// What is borrowed is moved.
const MOVES: &str =
    r#"struct S { n: i64 } fn eat(s: S) {} fn main() { let s = S { n: 1 }; let r = &s; eat(s); println!("{}", r.n); } | Loan 76 78 84 85
struct S { n: i64 } fn eat(s: S) {} fn main() { let s = S { n: 1 }; let r = &s; println!("{}", r.n); eat(s); } | accepted
struct S { n: i64 } fn eat(s: S) {} fn main() { let p = (S { n: 1 }, S { n: 2 }); let r = &p.1; eat(p.0); println!("{}", r.n); } | accepted
struct S { n: i64 } fn eat(s: S) {} fn main() { let p = (S { n: 1 }, S { n: 2 }); let r = &p.0.n; eat(p.0); println!("{}", *r); } | Loan 90 96 102 105
struct S { n: i64 } fn eat(s: S) {} fn main() { let p = (S { n: 1 }, S { n: 2 }); let r = &p; eat(p.0); println!("{}", r.1.n); } | Loan 90 92 98 101
struct S { n: i64 } fn main() { let p = (S { n: 1 }, S { n: 2 }); let r = &p.1; let (a, b) = p; println!("{}", r.n); } | Loan 74 78 88 89
struct W<'w> { r: &'w mut i64 } fn eat(w: W) {} fn main() { let mut x = 1i64; let w = W { r: &mut x }; let q = &mut *w.r; eat(w); *q = 2; } | Loan 111 120 126 127
struct K<'k> { r: &'k i64 } fn eat(k: K) {} fn main() { let x = 1i64; let k = K { r: &x }; let q = &*k.r; eat(k); println!("{}", *q); } | accepted
struct K<'k> { r: &'k i64 } fn eat(k: K) {} fn main() { let x = 1i64; let k = K { r: &x }; let q = &k.r; eat(k); println!("{}", **q); } | Loan 99 103 109 110
struct S { n: i64 } fn eat(s: S) {} fn main() { let mut s = S { n: 1 }; let r = &s; eat(s); s = S { n: 2 }; println!("{}", r.n); } | Loan 80 82 88 89"#;

#[test]
fn borrowed_places_stay(rt: HostRuntime) {
    all_hold(&rt, rt.alloc(), MOVES, LINES, is_judged);
}

/// What is borrowed ends with its block, arm, function or jump; what a reference leads to stays.
const ENDS: &str =
    r#"fn main() { let r; { let x = 1i64; r = &x; } println!("{}", *r); } | Loan 39 41 19 44
fn main() { let r; { let x = 1i64; r = &x; println!("{}", *r); } } | accepted
fn main() { let r = { let x = 1i64; &x }; println!("{}", *r); } | Loan 36 38 20 40
fn f<'a>(p: &'a i64) -> &'a i64 { let x = 1i64; &x } fn main() {} | Loan 48 50 32 52
fn f<'a>(p: &'a i64) -> &'a i64 { let x = 1i64; return &x; } fn main() {} | Loan 55 57 48 57
fn f<'a>(p: &'a i64, x: i64) -> &'a i64 { &x } fn main() {} | Loan 42 44 40 46
fn main() { let a = 1i64; let mut r = &a; loop { let x = 2i64; r = &x; break; } println!("{}", *r); } | Loan 67 69 71 76
fn main() { let a = 1i64; let mut r = &a; while true { let x = 2i64; if *r == 2 { break; } r = &x; } } | Loan 95 97 59 60
fn main() { let a = 1i64; let mut r = &a; match 2i64 { x => { r = &x; } } println!("{}", *r); } | Loan 66 68 60 71
fn main() { let r; { let s = (1i64, 2i64); r = &s.0; } println!("{}", *r); } | Loan 47 51 19 54
fn main() { let mut x = 1i64; let r; { let p = &mut x; r = &mut *p; } *r = 2; } | accepted
fn main() { let x = 1i64; let r; { let p = &x; r = &*p; } println!("{}", *r); } | accepted
fn main() { let x = 1i64; let r; { let p = &x; r = &p; } println!("{}", **r); } | Loan 51 53 33 56
struct W<'w> { r: &'w mut i64 } fn main() { let mut x = 1i64; let r; { let w = W { r: &mut x }; r = &mut *w.r; } *r = 2; } | accepted
struct W<'w> { r: &'w mut i64 } fn main() { let mut x = 1i64; let r; { let w = W { r: &mut x }; r = &w.r; } println!("{}", **r); } | Loan 100 104 69 107
fn keep<'a>(v: &mut &'a i64, r: &'a i64) { *v = r; } fn main() { let a = 1i64; let mut v = &a; { let x = 2i64; keep(&mut v, &x); } println!("{}", *v); } | Loan 124 126 95 130"#;

#[test]
fn borrowed_variables_live(rt: HostRuntime) {
    all_hold(&rt, rt.alloc(), ENDS, LINES, is_judged);
}

/// Fields and what they are fields of.
const FIELDS: &str =
    r#"struct P { x: i64, y: i64 } fn main() { let mut p = P { x: 1, y: 2 }; let a = &mut p.x; let b = &mut p.y; *a = 3; *b = 4; } | accepted
struct P { x: i64, y: i64 } fn main() { let mut p = P { x: 1, y: 2 }; let a = &mut p.x; let b = &mut p; *a = 3; } | Loan 78 86 96 102
struct P { x: i64, y: i64 } fn main() { let mut p = P { x: 1, y: 2 }; let a = &mut p; let b = &p.x; a.y = 3; println!("{}", *b); } | Loan 78 84 94 98
struct P { x: i64, y: i64 } fn main() { let mut p = P { x: 1, y: 2 }; let a = &mut p.x; println!("{}", p.y); p.y = 5; *a = 3; } | accepted
struct P { x: i64, y: i64 } fn main() { let mut p = P { x: 1, y: 2 }; let a = &mut p.x; println!("{}", p.x); *a = 3; } | Loan 78 86 103 106
struct P { x: i64, y: i64 } fn main() { let mut p = P { x: 1, y: 2 }; let a = &p.x; p = P { x: 3, y: 4 }; println!("{}", *a); } | Loan 78 82 84 104
struct P { x: i64, y: i64 } fn f(p: &mut P) { let a = &mut p.x; let b = &mut p.y; *a = *b; *b = 1; *a = 2; } fn main() {} | accepted
struct P { x: i64, y: i64 } fn set(a: &mut i64, b: &mut i64) { *a = *b; } fn main() { let mut p = P { x: 1, y: 2 }; set(&mut p.x, &mut p.y); } | accepted
struct P { x: i64, y: i64 } fn set(a: &mut i64, b: &mut i64) { *a = *b; } fn main() { let mut p = P { x: 1, y: 2 }; set(&mut p.x, &mut p.x); } | Loan 120 128 130 138
struct P { x: i64, y: i64 } fn f(t: &mut (P, P)) { let a = &mut t.0.x; let b = &mut t.1; let c = &mut t.0.y; *a = 1; b.x = 2; *c = 3; } fn main() {} | accepted
struct P { x: i64, y: i64 } fn f(t: &mut (P, P)) { let a = &mut t.0.x; let b = &t.0; *a = 1; println!("{}", b.y); } fn main() {} | Loan 59 69 79 83"#;

#[test]
fn fields_are_apart(rt: HostRuntime) {
    all_hold(&rt, rt.alloc(), FIELDS, LINES, is_judged);
}

/// Reads and writes beside shared and mutable loans.
const SHARED: &str =
    r#"fn main() { let x = 1i64; let a = &x; let b = &x; let c = x; println!("{}", *a + *b + c); } | accepted
fn main() { let mut x = 1i64; let a = &x; let b = &mut x; *b = 2; println!("{}", *a); } | Loan 38 40 50 56
fn main() { let mut x = 1i64; let a = &mut x; let b = x; *a = 2; println!("{}", b); } | Loan 38 44 50 51
fn main() { let mut x = 1i64; let a = &x; x += 1; println!("{}", *a); } | Loan 38 40 42 48
fn main() { let mut x = 1i64; let a = &mut x; x += 1; *a = 2; } | Loan 38 44 46 52
fn main() { let mut x = 1i64; let a = &mut x; *a += 1; x += 1; println!("{}", x); } | accepted
struct W<'w> { r: &'w mut i64 } fn main() { let mut x = 1i64; let mut w = W { r: &mut x }; let q = &mut w.r; *w.r = 1; **q = 2; } | Loan 99 107 109 117
fn f<'a, 'b>(p: &'a &'b mut i64) -> i64 { let q = &**p; let r = &*p; *q + **r } fn main() {} | accepted"#;

#[test]
fn readers_share(rt: HostRuntime) {
    all_hold(&rt, rt.alloc(), SHARED, LINES, is_judged);
}
