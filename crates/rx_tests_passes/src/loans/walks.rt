//! Loans along walks.

use crate::holding::all_hold;
use crate::loans::judged::is_judged;
use rx_tests_tables::LINES;

/// References that are not used up to the end of their block; loans that one arm does not use; loans that one arm
/// returns; references that walk on.
const CASES: &str =
    r#"fn bump(p: &mut i64) { *p = *p + 1; } fn main() { let mut x = 1i64; let r = &mut x; bump(r); x = 2; println!("{}", x); } | accepted
fn bump(p: &mut i64) { *p = *p + 1; } fn main() { let mut x = 1i64; let r = &mut x; bump(r); x = 2; bump(r); } | Loan 76 82 93 98
struct M { n: i64 } enum F<'f> { Yes(&'f mut i64), No } fn get<'a>(m: &'a mut M) -> F<'a> { if m.n == 0 { return F::No; } F::Yes(&mut m.n) } fn main() { let mut m = M { n: 0 }; match get(&mut m) { F::Yes(v) => { *v = 1; } F::No => { m.n = 2; } } } | accepted
struct M { n: i64 } enum F<'f> { Yes(&'f mut i64), No } fn get<'a>(m: &'a mut M) -> F<'a> { if m.n == 0 { return F::No; } F::Yes(&mut m.n) } fn main() { let mut m = M { n: 0 }; match get(&mut m) { F::Yes(v) => { m.n = 2; *v = 1; } F::No => {} } } | Loan 187 193 212 219
struct M { n: i64 } enum F<'f> { Yes(&'f mut i64), No } fn get<'a>(m: &'a mut M) -> F<'a> { if m.n == 0 { return F::No; } F::Yes(&mut m.n) } fn f<'a>(m: &'a mut M) -> &'a mut i64 { match get(m) { F::Yes(v) => v, F::No => { m.n = 2; &mut m.n } } } fn main() {} | Loan 191 192 223 230
struct P { x: i64, y: i64 } fn f<'a>(p: &'a mut P, c: bool) -> &'a mut i64 { let r = &mut p.x; if c { return r; } p.x = 1; &mut p.x } fn main() {} | Loan 85 93 114 121
struct P { x: i64, y: i64 } fn f<'a>(p: &'a mut P, c: bool) -> &'a mut i64 { if c { return &mut p.x; } p.x = 1; &mut p.x } fn main() {} | accepted
struct P { x: i64, y: i64 } fn f<'a>(p: &'a mut P, c: bool) -> &'a mut i64 { if c { return &mut p.x; } &mut p.y } fn main() {} | accepted
struct P { x: i64, y: i64 } fn next<'a>(p: &'a mut P) -> &'a mut P { p } fn f<'a>(mut p: &'a mut P, q: &'a mut P, c: bool) -> i64 { let mut r = &mut p.x; while c { p = q; *r = 1; r = &mut p.y; break; } *r } fn main() {} | accepted
struct P { x: i64, y: i64 } fn f<'a>(mut p: &'a mut P, q: &'a mut P) -> i64 { let r = &mut p.x; p = q; p.x = 1; *r = 2; *r } fn main() {} | accepted
struct P { x: i64, y: i64 } fn f<'a>(mut p: &'a mut P, q: &'a mut P) -> i64 { let r = &mut p.x; p.x = 1; p = q; *r = 2; *r } fn main() {} | Loan 86 94 96 103
struct P { x: i64, y: i64 } fn f(a: &mut P, b: &mut P, n: i64) { let mut p = a; let mut q = b; let mut i = 0i64; while i < n { let t = p; p = q; q = t; p.x = i; i = i + 1; } } fn main() {} | accepted"#;

#[test]
fn problem_cases_are_judged(rt: HostRuntime) {
    all_hold(&rt, rt.alloc(), CASES, LINES, is_judged);
}

/// Passes of loops, branches and jumps.
const WALKS: &str =
    r#"fn main() { let mut x = 1; let y = 0; let mut r = &y; loop { x = x + 1; println!("{}", *r); r = &x; } } | Loan 96 98 61 70
fn main() { let mut x = 1; let mut y = 2; let mut r = &mut x; *r = { r = &mut y; 5 }; println!("{}", y); } | accepted
fn main() { let mut x = 1; let y = 0; let mut r = &y; loop { x = x + 1; r = &x; println!("{}", *r); } } | accepted
fn main() { let mut x = 1; let mut y = 0; let mut r = &mut y; loop { let t = &mut x; *r = 1; r = t; } } | Loan 77 83 77 83
fn main() { let mut x = 1; let mut y = 0; let mut r = &mut y; loop { *r = 1; let t = &mut x; r = t; } } | accepted
fn main() { let mut x = 1i64; let y = 2i64; let mut r = &y; let mut i = 0; while i < 3 { x = i; if i == 1 { r = &x; } println!("{}", *r); i = i + 1; } } | Loan 112 114 89 94
fn main() { let mut x = 1i64; let y = 2i64; let mut r = &y; let mut i = 0i64; while i < 3 { x = i; if i == 1 { r = &x; break; } println!("{}", *r); i = i + 1; } println!("{}", *r); } | accepted
fn main() { let mut x = 1i64; let y = 2i64; let mut r = &y; let mut i = 0i64; while i < 3 { x = i; if i == 1 { r = &x; break; } println!("{}", *r); i = i + 1; } x = 9; println!("{}", *r); } | Loan 115 117 161 166
fn main() { let mut x = 1i64; let y = 2i64; let mut r = &y; 'a: loop { loop { x = 3; if *r == 3 { break 'a; } r = &x; continue 'a; } } } | Loan 114 116 78 83
fn main() { let mut x = 1i64; let mut y = 2i64; let mut p = &x; let q = p; p = &y; x = 3; println!("{}", *p); } | accepted
fn main() { let mut x = 1i64; let y = 2i64; let mut p = &x; if *p == 1 { println!("{}", *p); x = 3; p = &y; } println!("{}", *p); } | accepted
fn main() { let mut x = 1i64; let y = 2i64; let mut p = &x; if *p == 1 { println!("{}", *p); p = &y; } x = 3; println!("{}", *p); } | Loan 56 58 103 108
fn main() { let mut x = 1i64; let a = &x; let b = &x; x = 2; println!("{}", *a + *b); } | Loan 38 40 54 59
fn main() { let mut x = 1i64; let a = &x; let b = &x; x = 2; println!("{}", *b); } | Loan 50 52 54 59
fn main() { let mut x = 1i64; let mut y = 1i64; let a = &x; let b = &y; y = 2; x = 2; println!("{}", *a + *b); } | Loan 68 70 72 77
fn main() { let mut x = 1i64; if true { let r = &mut x; *r = 2; return; } x = 3; println!("{}", x); } | accepted"#;

#[test]
fn loans_follow_walks(rt: HostRuntime) {
    all_hold(&rt, rt.alloc(), WALKS, LINES, is_judged);
}
