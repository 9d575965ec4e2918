//! Signatures and bodies, and the pairs that are missing: by the rules, written down before they were run.

use crate::holding::all_hold;
use crate::lifetimes::said::missing_text;
use rx_tests_tables::{LINES, Outcome};
use std::alloc::Global;

/// A text, and the pairs that its first function misses: the longer and the shorter lifetime by their numbers.
const PAIRS: &str = r#"fn f<'a, 'b>(p: &'a i64, q: &'b i64) -> &'a i64 { q } fn main() {} | 1 0;
fn f<'a, 'b: 'a>(p: &'a i64, q: &'b i64) -> &'a i64 { q } fn main() {} | 
fn f<'a>(p: &'a i64, q: &i64) -> &'a i64 { q } fn main() {} | 1 0;
fn f(p: &i64) -> &i64 { p } fn main() {} | 
struct S<'s> { r: &'s i64 } fn f<'a, 'b: 'a>(s: S<'b>, p: &'a i64) -> S<'a> { s } fn main() {} | 
struct S<'s> { r: &'s i64 } fn f<'a, 'b>(s: S<'b>, p: &'a i64) -> S<'a> { s } fn main() {} | 1 0;
fn f<'a, 'b: 'a>(p: &'a mut &'b i64) -> &'a mut &'a i64 { p } fn main() {} | 0 1;
struct S<'s> { r: &'s mut &'s i64 } fn f<'a, 'b: 'a>(s: S<'b>, p: &'a i64) -> S<'a> { s } fn main() {} | 0 1;
enum E<'e> { A, B(&'e i64) } fn f<'a, 'b: 'a>(e: E<'b>, p: &'a i64) -> E<'a> { e } fn main() {} | 
enum E<'e> { A, B(&'e i64) } fn f<'a, 'b>(e: E<'b>, p: &'a i64) -> E<'a> { e } fn main() {} | 1 0;
fn f<'a, 'b>(p: &'a &'b i64) -> &'b i64 { *p } fn main() {} | 
fn f<'a, 'b>(p: &'a &'b i64) -> &'b i64 { &**p } fn main() {} | 
fn f<'a, 'b>(p: &'a &'b mut i64) -> &'b i64 { &**p } fn main() {} | 0 1;
fn f<'a, 'b>(p: &'a &'b mut i64) -> &'a i64 { &**p } fn main() {} | 
fn f<'a, 'b>(p: &'a mut &'b mut i64) -> &'b mut i64 { &mut **p } fn main() {} | 0 1;
fn f<'a, 'b>(p: &'a mut &'b mut i64) -> &'a mut i64 { &mut **p } fn main() {} | 
fn f<'a, 'b>(p: &'a mut &'b i64) -> &'b i64 { &**p } fn main() {} | 
struct S<'s> { r: &'s mut i64 } fn f<'a, 'b>(s: &'a mut S<'b>) -> &'b mut i64 { &mut *s.r } fn main() {} | 0 1;
struct S<'s> { r: &'s i64 } fn f<'a, 'b>(s: &'a mut S<'b>) -> &'b i64 { &*s.r } fn main() {} | 
fn f<'a, 'b>(p: &'a i64, q: &'b i64) -> &'a i64 { g(p, q) } fn g<'x, 'y: 'x>(p: &'x i64, q: &'y i64) -> &'x i64 { q } fn main() {} | 1 0;
fn f<'a, 'b>(p: &'a i64, q: &'b i64) -> &'a i64 { g(p, q) } fn g<'x, 'y>(p: &'x i64, q: &'y i64) -> &'x i64 { p } fn main() {} | 
fn f<'a, 'b>(p: &'a i64, q: &'b i64) -> &'b i64 { g(p, q) } fn g<'x, 'y>(p: &'x i64, q: &'y i64) -> &'x i64 { p } fn main() {} | 0 1;
fn f<'a, 'b>(p: &'a i64, q: &'b i64) -> &'a i64 { g(p, q) } fn g<'x>(p: &'x i64, q: &'x i64) -> &'x i64 { q } fn main() {} | 1 0;
fn f(p: &i64, q: &mut i64) {} fn main() {} | 
fn f<'a, 'b>(t: (&'a i64, &'b i64)) -> (&'b i64, &'a i64) { t } fn main() {} | 0 1;1 0;
fn f<'a, 'b>(t: (&'a i64, &'b i64)) -> &'b i64 { t.1 } fn main() {} | 
fn f<'a, 'b>(t: (&'a i64, &'b i64)) -> &'b i64 { t.0 } fn main() {} | 0 1;
fn f<'a, 'b>(x: &'a i64, p: &'b i64) -> i64 { let q: &'a i64 = p; *q } fn main() {} | 1 0;
fn f<'a, 'b: 'a, 'c: 'b>(p: &'a i64, q: &'b i64, r: &'c i64) -> &'a i64 { r } fn main() {} | 
fn f<'a, 'b: 'a, 'c: 'b>(p: &'a i64, q: &'b i64, r: &'c i64) -> &'c i64 { p } fn main() {} | 0 2;
fn f<'a>(p: &'a i64) -> &'a i64 { let x = 1; &x } fn main() {} | 
fn f<'a, 'b>(p: &'a i64, q: &'b i64) { let x: &'b &'a i64 = &p; } fn main() {} | 0 1;
fn f<'a, 'b>(p: &'a i64, q: &'b i64) { let x: (&'b &'a i64, i64) = (&p, 1); } fn main() {} | 0 1;
fn f<'a, 'b>(mut p: &'a i64, q: &'b i64) -> &'a i64 { p = q; p } fn main() {} | 1 0;
fn f<'a, 'b>(p: &'a mut &'b i64, q: &'a i64) { *p = q; } fn main() {} | 0 1;
struct S<'s> { r: &'s i64 } fn f<'a, 'b>(s: &'a mut S<'b>, q: &'a i64) { s.r = q; } fn main() {} | 0 1;
struct S<'s> { r: &'s i64 } fn f<'a, 'b>(p: &'a i64, q: &'b i64) -> S<'b> { S { r: p } } fn main() {} | 0 1;
struct S<'s> { r: &'s i64 } fn f<'a, 'b>(p: &'a i64, q: &'b i64) -> S<'b> { S { r: q } } fn main() {} | 
enum E<'e> { A, B(&'e i64) } fn f<'a, 'b>(e: &'a E<'b>, d: &'b i64) -> &'b i64 { match e { E::A => d, E::B(r) => *r } } fn main() {} | 
enum E<'e> { A, B(&'e i64) } fn f<'a, 'b>(p: &'a i64, q: &'b i64) -> E<'b> { E::B(p) } fn main() {} | 0 1;
fn f<'a, 'b>(b: bool, p: &'a i64, q: &'b i64) -> &'a i64 { if b { p } else { q } } fn main() {} | 1 0;
fn f<'a, 'b>(p: &'a i64, q: &'b i64) -> &'a i64 { let mut x = p; while true { let y = x; x = q; } x } fn main() {} | 1 0;
fn f<'a, 'b>(p: &'a i64, q: &'b i64) -> i64 { let mut x = p; x = q; *x } fn main() {} | "#;

fn is_missing(alloc: Global, text: &str, want: &str) -> Outcome {
    Ok(missing_text(alloc, text)?.as_str() == want)
}

#[test]
fn pairs_are_missing(rt: HostRuntime) {
    all_hold(&rt, rt.alloc(), PAIRS, LINES, is_missing);
}
