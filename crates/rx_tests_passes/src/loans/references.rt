//! Loans through references.

use crate::holding::all_hold;
use crate::loans::judged::is_judged;
use rx_tests_tables::LINES;

/// What references lead to is borrowed again, read and written.
const REBORROWS: &str =
    r#"fn f(p: &mut i64) { let q = &mut *p; *q = 1; *p = 2; } fn main() {} | accepted
fn f(p: &mut i64) { let q = &mut *p; *p = 2; *q = 1; } fn main() {} | Loan 28 35 37 43
fn f(p: &mut i64) { let q = &*p; *p = 2; println!("{}", *q); } fn main() {} | Loan 28 31 33 39
fn f(p: &mut i64) { let q = &*p; println!("{}", *p); println!("{}", *q); } fn main() {} | accepted
fn f(p: &mut i64) { let q = &mut *p; println!("{}", *p); *q = 1; } fn main() {} | Loan 28 35 52 54
fn f(p: &mut i64) { let q = &mut *p; let s = &*p; *q = 1; println!("{}", *s); } fn main() {} | Loan 28 35 45 48
fn f(p: &mut i64) { let q: &mut i64 = p; *p = 2; *q = 1; } fn main() {} | Loan 38 39 41 47
fn f(p: &mut i64) { let q: &mut i64 = p; *q = 1; *p = 2; } fn main() {} | accepted
fn f(p: &mut i64) { let q: &i64 = p; *p = 2; println!("{}", *q); } fn main() {} | Loan 34 35 37 43
fn f<'a, 'b>(p: &'a mut &'b mut i64) { let r = &mut **p; let s = &mut *p; *r = 1; } fn main() {} | Loan 47 55 65 72
fn f<'a, 'b>(p: &'a mut &'b mut i64, q: &'b mut i64) { let r = &mut **p; *p = q; *r = 1; **p = 2; } fn main() {} | accepted
fn f<'a, 'b>(p: &'a mut &'b i64, q: &'b i64) { let r = &**p; let s = &mut *p; *s = q; println!("{}", *r); } fn main() {} | accepted
fn f<'a>(p: &'a mut i64) -> &'a mut i64 { let q = &mut *p; let r = &mut *q; r } fn main() {} | accepted
fn main() { let mut x = 1i64; let p = &mut x; let q = &mut *p; *p = 2; *q = 3; } | Loan 54 61 63 69
fn main() { let mut x = 1i64; let p = &mut x; let q = &mut *p; x = 2; *q = 3; } | Loan 38 44 63 68
fn main() { let mut x = 1i64; let p = &mut x; let q = &mut *p; let r = &mut *q; *r = 1; *q = 2; *p = 3; x = 4; println!("{}", x); } | accepted"#;

#[test]
fn reborrows_are_loans(rt: HostRuntime) {
    all_hold(&rt, rt.alloc(), REBORROWS, LINES, is_judged);
}

/// Writes of a reference end loans of what it led to.
const KILLS: &str =
    r#"fn main() { let mut a = 1i64; let mut b = 2i64; let mut p = &mut a; let q = &mut *p; p = &mut b; *p = 3; *q = 4; } | accepted
fn main() { let mut a = 1i64; let mut b = 2i64; let mut p = &mut a; let q = &mut *p; p = &mut b; a = 3; *q = 4; *p = 5; } | Loan 60 66 97 102
fn main() { let mut a = 1i64; let mut b = 2i64; let mut p = &mut a; let q = &mut *p; if b == 2 { p = &mut b; } *p = 3; *q = 4; } | Loan 76 83 111 117
fn main() { let mut a = 1i64; let mut p = &mut a; let mut i = 0i64; while i < 3 { let q = &mut *p; p = q; i = i + 1; } *p = 2; } | accepted
struct W<'w> { r: &'w mut i64 } fn main() { let mut a = 1i64; let mut b = 2i64; let mut w = W { r: &mut a }; let q = &mut *w.r; w.r = &mut b; *w.r = 3; *q = 4; } | accepted
struct W<'w> { r: &'w mut i64 } fn main() { let mut a = 1i64; let mut b = 2i64; let mut w = W { r: &mut a }; let q = &mut *w.r; w = W { r: &mut b }; *w.r = 3; *q = 4; } | accepted
fn main() { let mut a = (1i64, 2i64); let p = &mut a.0; a.0 = 3; *p = 4; } | Loan 46 54 56 63
fn f<'a>(mut t: (&'a mut i64, i64), q: &'a mut i64) { let r = &mut *t.0; t.1 = 5; *t.0 = 3; *r = 4; } fn main() {} | Loan 62 71 82 90"#;

#[test]
fn an_assigned_reference_leads_elsewhere(rt: HostRuntime) {
    all_hold(&rt, rt.alloc(), KILLS, LINES, is_judged);
}

/// References in structs and tuples.
const HOLDERS: &str =
    r#"struct W<'w> { r: &'w mut i64 } fn main() { let mut x = 1i64; let w = W { r: &mut x }; x = 2; *w.r = 3; } | Loan 77 83 87 92
struct W<'w> { r: &'w mut i64 } fn main() { let mut x = 1i64; let w = W { r: &mut x }; *w.r = 3; x = 2; println!("{}", x); } | accepted
struct D<'a, 'b> { a: &'a i64, b: &'b i64 } fn main() { let x = 1i64; let mut y = 2i64; let d = D { a: &x, b: &y }; y = 3; println!("{}", *d.a); } | Loan 110 112 116 121
struct D<'a, 'b> { a: &'a i64, b: &'b i64 } fn main() { let x = 1i64; let mut y = 2i64; let d = D { a: &x, b: &y }; let a = d.a; y = 3; println!("{}", *a); } | accepted
struct D<'a> { a: &'a i64, b: &'a i64 } fn main() { let x = 1i64; let mut y = 2i64; let d = D { a: &x, b: &y }; let a = d.a; y = 3; println!("{}", *a); } | Loan 106 108 125 130
fn main() { let mut x = 1i64; let mut y = 2i64; let t = (&mut x, &mut y); *t.0 = 3; *t.1 = 4; x = 5; println!("{}", x); } | accepted
fn main() { let mut x = 1i64; let mut y = 2i64; let t = (&mut x, &mut y); *t.0 = 3; x = 5; *t.1 = 4; } | Loan 57 63 84 89
fn main() { let mut x = 1i64; let t = (&mut x, &mut x); *t.0 = 3; } | Loan 39 45 47 53
fn main() { let mut x = 1i64; let t = (&x, &x); println!("{}", *t.0 + *t.1); x = 2; } | accepted"#;

#[test]
fn structs_hold_references(rt: HostRuntime) {
    all_hold(&rt, rt.alloc(), HOLDERS, LINES, is_judged);
}

/// Mutable references where references are expected are borrowed again: at an assignment, in a field and in a part of a
/// variant.
const SITES: &str =
    r#"fn f(p: &mut i64, q: &mut i64) { let mut x = p; *x = 1; x = q; *x = 2; *q = 3; } fn main() {} | accepted
fn f(p: &mut i64, q: &mut i64) { let mut x = p; *x = 1; x = q; *q = 3; *x = 2; } fn main() {} | Loan 60 61 63 69
fn f(p: &i64, q: &mut i64) { let mut x = p; x = q; println!("{}", *x); *q = 3; } fn main() {} | accepted
fn f(p: &i64, q: &mut i64) { let mut x = p; x = q; *q = 3; println!("{}", *x); } fn main() {} | Loan 48 49 51 57
struct W<'w> { r: &'w mut i64 } fn f(q: &mut i64) { let w = W { r: q }; *w.r = 1; *q = 2; } fn main() {} | accepted
struct W<'w> { r: &'w mut i64 } fn f(q: &mut i64) { let w = W { r: q }; *q = 2; *w.r = 1; } fn main() {} | Loan 67 68 72 78
struct K<'k> { r: &'k i64 } fn f(q: &mut i64) { let k = K { r: q }; println!("{}", *k.r); *q = 2; } fn main() {} | accepted
struct K<'k> { r: &'k i64 } fn f(q: &mut i64) { let k = K { r: q }; *q = 2; println!("{}", *k.r); } fn main() {} | Loan 63 64 68 74
enum O<'o> { Some(&'o mut i64), None } fn f(q: &mut i64) { match O::Some(q) { O::Some(r) => { *r = 1; } O::None => {} } *q = 2; } fn main() {} | accepted
enum O<'o> { Some(&'o mut i64), None } fn f(q: &mut i64) { let o = O::Some(q); *q = 2; match o { O::Some(r) => { *r = 1; } O::None => {} } } fn main() {} | Loan 75 76 79 85
enum O<'o> { Some(&'o i64), None } fn f(q: &mut i64) { match O::Some(q) { O::Some(r) => { println!("{}", *r); } O::None => {} } *q = 2; } fn main() {} | accepted
enum O<'o> { Some(&'o i64), None } fn f(q: &mut i64) { let o = O::Some(q); *q = 2; match o { O::Some(r) => { println!("{}", *r); } O::None => {} } } fn main() {} | Loan 71 72 75 81
fn f(p: &mut &mut i64, q: &mut &mut i64) { **p = 1; let t = q; } fn main() {} | accepted
fn f<'a>(p: &mut &'a mut i64, q: &'a mut &'a mut i64) { *p = *q; **p = 1; } fn main() {} | accepted
fn f(q: &mut i64) { let t = (q, 1); *t.0 = 1; *q = 2; } fn main() {} | Unset 46 52"#;

#[test]
fn coercions_borrow_again(rt: HostRuntime) {
    all_hold(&rt, rt.alloc(), SITES, LINES, is_judged);
}
