//! Loans in calls.

use crate::holding::all_hold;
use crate::loans::judged::is_judged;
use rx_tests_tables::LINES;

/// A borrow counts from where it stands: no loan is in two phases, so the second and third row are refused, which rustc
/// accepts.
const TWO_PHASE: &str =
    r#"struct S { n: i64 } fn len(v: &S) -> i64 { v.n } fn push(v: &mut S, n: i64) { v.n = n; } fn main() { let mut v = S { n: 1 }; push(&mut v, len(&v)); } | Loan 130 136 142 144
struct S { n: i64 } fn len(v: &S) -> i64 { v.n } fn push(v: &mut S, n: i64) { v.n = n; } fn f(v: &mut S) { push(v, len(v)); } fn main() {} | Loan 112 113 119 120
struct S { n: i64 } fn push(v: &mut S, n: i64) { v.n = n; } fn f(v: &mut S) { push(v, v.n); } fn main() {} | Loan 83 84 86 89
struct S { n: i64 } fn push(v: &mut S, n: i64) { v.n = n; } fn main() { let mut v = S { n: 1 }; push(&mut v, v.n); } | Loan 101 107 109 112
struct S { n: i64 } fn len(v: &S) -> i64 { v.n } fn push(v: &mut S, n: i64) { v.n = n; } fn f(v: &mut S) { let k = len(v); push(v, k); } fn main() {} | accepted
struct S { n: i64 } fn put(n: i64, v: &mut S) { v.n = n; } fn f(v: &mut S) { put(v.n, v); } fn main() {} | accepted
fn add(x: &mut i64, n: i64) { *x = *x + n; } fn main() { let mut x = 1i64; add(&mut x, { x = 2; 1 }); } | Loan 79 85 89 94
fn add(x: &mut i64, n: i64) { *x = *x + n; } fn main() { let mut x = 1i64; add({ x = 2; &mut x }, 1); } | accepted
fn main() { let mut x = 1i64; x = { let r = &mut x; *r = 2; 3 }; println!("{}", x); } | accepted"#;

#[test]
fn no_loan_waits_for_its_call(rt: HostRuntime) {
    all_hold(&rt, rt.alloc(), TWO_PHASE, LINES, is_judged);
}

/// Calls that return references, and signatures that tie lifetimes.
const CALLS: &str =
    r#"fn id<'a>(p: &'a mut i64) -> &'a mut i64 { p } fn main() { let mut x = 1i64; let r = id(&mut x); x = 2; *r = 3; } | Loan 88 94 97 102
fn id<'a>(p: &'a mut i64) -> &'a mut i64 { p } fn main() { let mut x = 1i64; let r = id(&mut x); *r = 3; x = 2; println!("{}", x); } | accepted
fn first<'a, 'b>(p: &'a i64, q: &'b i64) -> &'a i64 { p } fn main() { let mut x = 1i64; let mut y = 2i64; let r = first(&x, &y); y = 3; println!("{}", *r); } | accepted
fn first<'a, 'b>(p: &'a i64, q: &'b i64) -> &'a i64 { p } fn main() { let mut x = 1i64; let mut y = 2i64; let r = first(&x, &y); x = 3; println!("{}", *r); } | Loan 120 122 129 134
fn one<'a>(p: &'a i64, q: &'a i64) -> &'a i64 { p } fn main() { let mut x = 1i64; let mut y = 2i64; let r = one(&x, &y); y = 3; println!("{}", *r); } | Loan 116 118 121 126
fn later<'a, 'b: 'a>(p: &'a i64, q: &'b i64) -> &'a i64 { q } fn main() { let mut x = 1i64; let mut y = 2i64; let r = later(&x, &y); y = 3; println!("{}", *r); } | Loan 128 130 133 138
struct P { x: i64, y: i64 } fn pick(p: &mut P, k: i64) -> &mut i64 { if k == 0 { return &mut p.x; } &mut p.y } fn f(p: &mut P) { let a = pick(p, 0); let b = pick(p, 1); *a = 1; *b = 2; } fn main() {} | Loan 142 143 162 163
struct P { x: i64, y: i64 } fn pick(p: &mut P, k: i64) -> &mut i64 { if k == 0 { return &mut p.x; } &mut p.y } fn f(p: &mut P) { let a = pick(p, 0); *a = 1; let b = pick(p, 1); *b = 2; } fn main() {} | accepted
fn same<'a>(v: &mut &'a i64, w: &mut &'a i64) {} fn main() { let x = 1i64; let mut y = 2i64; let mut a = &x; let mut b = &y; same(&mut a, &mut b); y = 3; println!("{}", *a); } | Loan 121 123 147 152
fn two<'a>(v: &'a i64, w: &'a i64) {} fn main() { let x = 1i64; let mut y = 2i64; let a = &x; let b = &y; two(a, b); y = 3; println!("{}", *a); } | accepted
struct K<'k> { r: &'k i64 } fn get<'a>(k: &mut K<'a>) -> &'a i64 { k.r } fn main() { let x = 1i64; let y = 2i64; let mut k = K { r: &x }; let r = get(&mut k); k.r = &y; println!("{}", *r + *k.r); } | accepted
struct K<'k> { r: &'k i64 } fn get<'a>(k: &mut K<'a>) -> &'a i64 { k.r } fn main() { let mut x = 1i64; let y = 2i64; let mut k = K { r: &x }; let r = get(&mut k); x = 3; println!("{}", *r); } | Loan 136 138 163 168
struct K<'k> { r: &'k i64 } fn get<'a>(k: &'a mut K) -> &'a i64 { k.r } fn main() { let x = 1i64; let y = 2i64; let mut k = K { r: &x }; let r = get(&mut k); k.r = &y; println!("{}", *r); } | Loan 149 155 158 166"#;

#[test]
fn references_come_out_of_calls(rt: HostRuntime) {
    all_hold(&rt, rt.alloc(), CALLS, LINES, is_judged);
}
