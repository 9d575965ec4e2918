//! Which functions are initialised: for each rule texts, and what is found of their first function.

use crate::facts::said::{Question, found_text};
use crate::holding::all_hold;
use rx_tests_tables::{LINES, Outcome};
use std::alloc::Global;

/// A text, and whether its first function is initialised: else the place, and the text of the node. In places `.0` is a field,
/// `#0` a variant's fields, `*` what is led to.
const STARTED: &str = r#"fn f() { let x: i64; let y = x; x = 1; } fn main() {} | unset x at y
fn f() { let x; x = 1; let y = x; } fn main() {} | initialised
fn f(a: bool) { let x; if a { x = 1; } let y = x; } fn main() {} | unset x at y
fn f(a: bool) { let x; if a { x = 1; } else { x = 2; } let y = x; } fn main() {} | initialised
fn f(a: bool) { let x; if a { x = 1; } else { return; } let y = x; } fn main() {} | initialised
fn f(n: i64) { let x; match n { 1 => x = 1, 2 => x = 2, _ => {} } let y = x; } fn main() {} | unset x at y
fn f(n: i64) { let x; match n { 1 => x = 1, 2 => return, _ => x = 3, } let y = x; } fn main() {} | initialised
fn f() { let x; loop { x = 1; break; } let y = x; } fn main() {} | initialised
fn f(a: bool) { let x; loop { if a { x = 1; break; } } let y = x; } fn main() {} | initialised
fn f(a: bool) { let x; loop { if a { break; } x = 1; break; } let y = x; } fn main() {} | unset x at y
fn f(a: bool) { let x; while a { x = 1; break; } let y = x; } fn main() {} | unset x at y
fn f(a: bool) { let x; 'a: loop { loop { if a { x = 1; break 'a; } break; } } let y = x; } fn main() {} | initialised
fn f(a: bool) { let x; let y = a && { x = 1; true }; let z = x; } fn main() {} | unset x at z
fn f(a: bool) { let x; if a && { x = 1; true } { let z = x; } } fn main() {} | unset x at z
struct T { n: i64 } fn f(t: T) { eat(t); eat(t); } fn eat(t: T) {} fn main() {} | unset t at t
struct T { n: i64 } fn f(t: T, a: bool) { if a { eat(t); } eat(t); } fn eat(t: T) {} fn main() {} | unset t at t
struct T { n: i64 } fn f(t: T, a: bool) { if a { eat(t); } else { eat(t); } } fn eat(t: T) {} fn main() {} | initialised
struct T { n: i64 } fn f(t: T, a: bool) { while a { eat(t); } } fn eat(t: T) {} fn main() {} | unset t at t
struct T { n: i64 } fn f(t: T, a: bool) { while a { eat(t); break; } } fn eat(t: T) {} fn main() {} | initialised
struct T { n: i64 } fn f(mut t: T, a: bool) { while a { eat(t); t = T { n: 1 }; } } fn eat(t: T) {} fn main() {} | initialised
struct T { n: i64 } fn f(mut t: T, a: bool) { loop { eat(t); if a { t = T { n: 1 }; } } } fn eat(t: T) {} fn main() {} | unset t at t
struct T { n: i64 } fn f(a: bool) { loop { let t = T { n: 1 }; eat(t); if a { continue; } } } fn eat(t: T) {} fn main() {} | initialised
struct T { n: i64 } fn f(t: T) { eat(t); println!("{}", t.n); } fn eat(t: T) {} fn main() {} | unset t.0 at t.n
struct T { n: i64 } fn f(t: T) { println!("{}", t.n); eat(t); } fn eat(t: T) {} fn main() {} | initialised
struct T { n: i64 } fn f(t: T) { eat(t); let r = &t; } fn eat(t: T) {} fn main() {} | unset t at &t
struct T { n: i64 } fn f(mut t: T) { eat(t); t.n = 1; } fn eat(t: T) {} fn main() {} | unset t at t.n = 1
struct T { n: i64 } fn f(mut t: T) { eat(t); t = T { n: 2 }; t.n = 1; eat(t); } fn eat(t: T) {} fn main() {} | initialised
struct T { n: i64 } fn f() { let mut t: T; t.n = 1; } fn main() {} | unset t at t.n = 1
struct T { n: i64 } struct P { a: T, b: T } fn f(p: P) { eat(p.a); eat(p.b); } fn eat(t: T) {} fn main() {} | initialised
struct T { n: i64 } struct P { a: T, b: T } fn f(p: P) { eat(p.a); eat(p.a); } fn eat(t: T) {} fn main() {} | unset p.0 at p.a
struct T { n: i64 } struct P { a: T, b: T } fn f(p: P) { eat(p.a); all(p); } fn eat(t: T) {} fn all(p: P) {} fn main() {} | unset p at p
struct T { n: i64 } struct P { a: T, b: T } fn f(mut p: P) { eat(p.b); p.b = T { n: 1 }; all(p); } fn eat(t: T) {} fn all(p: P) {} fn main() {} | initialised
struct T { n: i64 } struct P { a: T, b: T } fn f(mut p: P) { eat(p.a); eat(p.b); p.a = T { n: 1 }; all(p); } fn eat(t: T) {} fn all(p: P) {} fn main() {} | unset p at p
struct T { n: i64 } struct P { a: T, b: T } fn f(mut p: P) { eat(p.a); eat(p.b); p.a = T { n: 1 }; p.b = T { n: 1 }; all(p); } fn eat(t: T) {} fn all(p: P) {} fn main() {} | initialised
struct T { n: i64 } struct P { a: T, b: T } fn f(mut p: P) { all(p); p.a = T { n: 1 }; } fn all(p: P) {} fn main() {} | unset p at p.a = T { n: 1 }
struct T { n: i64 } struct P { a: T, b: T } fn f(mut p: P) { eat(p.a); p.a.n = 1; } fn eat(t: T) {} fn main() {} | unset p.0 at p.a.n = 1
struct T { n: i64 } struct P { a: T, b: T } fn f(mut p: P) { eat(p.a); p.b.n = 1; eat(p.b); } fn eat(t: T) {} fn main() {} | initialised
struct T { n: i64 } struct P { a: T } fn f(mut p: P) { eat(p.a); p.a = T { n: 1 }; all(p); } fn eat(t: T) {} fn all(p: P) {} fn main() {} | initialised
struct T { n: i64 } fn f(p: (T, T)) { let (a, _) = p; eat(p.1); eat(a); } fn eat(t: T) {} fn main() {} | initialised
struct T { n: i64 } fn f(p: (T, T)) { let (a, _) = p; eat(p.0); } fn eat(t: T) {} fn main() {} | unset p.0 at p.0
struct T { n: i64 } fn f(p: (T, T)) { let (a, b) = p; all(p); } fn all(p: (T, T)) {} fn main() {} | unset p at p
struct T { n: i64 } fn f(p: (i64, i64)) { let (a, b) = p; let q = p; let r = p; } fn main() {} | initialised
struct T { n: i64 } fn f(t: T) { let _ = t; eat(t); } fn eat(t: T) {} fn main() {} | initialised
struct T { n: i64 } fn f(t: T) { t; eat(t); } fn eat(t: T) {} fn main() {} | unset t at t
struct T { n: i64 } enum E { A(T), B } fn f(e: E) { match e { E::A(t) => eat(t), E::B => {} } match e { E::A(_) => {}, E::B => {} } } fn eat(t: T) {} fn main() {} | unset e at E::A(_)
struct T { n: i64 } enum E { A(T), B } fn f(e: E) { match e { E::A(t) => eat(t), E::B => {} } match e { _ => {} } } fn eat(t: T) {} fn main() {} | initialised
struct T { n: i64 } enum E { A(T), B } fn f(e: E) { match e { E::A(t) => eat(t), E::B => {} } all(e); } fn eat(t: T) {} fn all(e: E) {} fn main() {} | unset e at e
struct T { n: i64 } enum E { A(T), B } fn f(mut e: E) { match e { E::A(t) => eat(t), E::B => {} } e = E::B; all(e); } fn eat(t: T) {} fn all(e: E) {} fn main() {} | initialised
enum E { A(i64), B } fn f(e: E) { match e { E::A(n) => println!("{}", n), E::B => {} } all(e); } fn all(e: E) {} fn main() {} | initialised
fn f(r: &mut i64) { *r = 1; *r = 2; } fn main() {} | initialised
fn f() { let r: &mut i64; *r = 1; } fn main() {} | unset r at *r = 1
fn f(r: &mut i64) { let s = r; *r = 1; } fn main() {} | unset r at *r = 1
fn f(r: &mut i64) { let s = &mut *r; *s = 1; *r = 1; } fn main() {} | initialised
struct R<'a> { r: &'a mut i64 } fn f(x: R) { *x.r = 1; eat(x); } fn eat(x: R) {} fn main() {} | initialised
struct R<'a> { r: &'a mut i64 } fn f(x: R) { eat(x); *x.r = 1; } fn eat(x: R) {} fn main() {} | unset x at *x.r = 1
fn f() { let x; x = 1; x = 2; } fn main() {} | again x at x = 2
fn f() { let mut x; x = 1; x = 2; } fn main() {} | initialised
fn f() { let x; x = { x = 1; 2 }; } fn main() {} | again x at x = { x = 1; 2 }
fn f() { let mut x; x = { x = 1; x }; } fn main() {} | initialised
fn f() { let x = 1; x = 2; } fn main() {} | again x at x = 2
fn f(x: i64) { x = 2; } fn main() {} | again x at x = 2
fn f(mut x: i64) { x = 2; x += 1; } fn main() {} | initialised
fn f(a: bool) { let x; if a { x = 1; } x = 2; } fn main() {} | again x at x = 2
fn f(a: bool) { let x; while a { x = 1; } } fn main() {} | again x at x = 1
fn f(a: bool) { while a { let x; x = 1; } } fn main() {} | initialised
fn f(a: bool) { let x; loop { x = 1; if a { break; } } } fn main() {} | again x at x = 1
struct T { n: i64 } fn f() { let x; x = T { n: 1 }; eat(x); x = T { n: 2 }; } fn eat(t: T) {} fn main() {} | again x at x = T { n: 2 }
struct T { n: i64 } fn f() { let mut x; x = T { n: 1 }; eat(x); x = T { n: 2 }; eat(x); } fn eat(t: T) {} fn main() {} | initialised
fn f() { let x: i64; x += 1; } fn main() {} | unset x at x += 1
struct U {} fn f() { let u: U; eat(u); } fn eat(u: U) {} fn main() {} | unset u at u
struct U {} fn f(u: U) { eat(u); eat(u); } fn eat(u: U) {} fn main() {} | unset u at u
fn f() { let u: (); let v = u; } fn main() {} | unset u at v
fn f() { let x: i64; return; println!("{}", x); } fn main() {} | initialised
struct T { n: i64 } fn f(t: T) { loop { eat(t); return; } } fn eat(t: T) {} fn main() {} | initialised
fn f(t: &mut i64) { eat(t); eat(t); } fn eat(t: &mut i64) {} fn main() {} | initialised"#;

fn is_found(alloc: Global, text: &str, want: &str) -> Outcome {
    Ok(found_text(alloc, text, Question::Initialised)?.as_str() == want)
}

#[test]
fn functions_are_initialised_or_not(rt: HostRuntime) {
    all_hold(&rt, rt.alloc(), STARTED, LINES, is_found);
}

/// A text, and of each variable of its first function whether it may be set, and may be unset, at its last site.
const SET: &str = r#"fn f(a: bool) { let x; if a { x = 1; } } fn main() {} | a set;x unset;
struct T { n: i64 } fn f(t: T) -> i64 { let x = 1i64; x } fn main() {} | t set;x unset;
struct T { n: i64 } struct P { a: T, b: T } fn f(p: P) { eat(p.a); loop {} } fn eat(t: T) {} fn main() {} | p set unset;
struct T { n: i64 } struct P { a: T, b: T } fn f(p: P) { eat(p.a); eat(p.b); loop {} } fn eat(t: T) {} fn main() {} | p unset;
fn f() { loop {} } fn main() {} | "#;

fn is_set(alloc: Global, text: &str, want: &str) -> Outcome {
    Ok(found_text(alloc, text, Question::Set)?.as_str() == want)
}

#[test]
fn variables_may_be_set_or_not(rt: HostRuntime) {
    all_hold(&rt, rt.alloc(), SET, LINES, is_set);
}
