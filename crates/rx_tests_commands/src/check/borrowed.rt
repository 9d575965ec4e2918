//! Lifetimes and loans: what is accepted, and the first pair that is missing, or the loan and the access that it forbids.

use crate::check::said::all_said;

const BORROWED: &str = "\
fn main() { let mut x = 1; let y = 0; let mut r = &y; loop { x = x + 1; println!(\"{}\", *r); r = &x; } } | Loan 96 98 61 70
fn main() { let mut x = 1; let mut y = 2; let mut r = &mut x; *r = { r = &mut y; 5 }; println!(\"{}\", y); } | accepted
fn main() { let mut x = 1; let r = &mut x; *r = 2; x = 3; println!(\"{}\", x); } | accepted
fn main() { let mut x = 1; let r = &x; println!(\"{}\", x); println!(\"{}\", *r); } | accepted
fn main() { let mut x = 1; let r = &x; let s = &mut x; *s = 2; println!(\"{}\", *r); } | Loan 35 37 47 53
struct P { a: i64, b: i64 } fn main() { let mut p = P { a: 1, b: 2 }; let r = &mut p.a; p.b = 3; *r = 4; println!(\"{}\", p.a); } | accepted
struct P { a: i64, b: i64 } fn main() { let mut p = P { a: 1, b: 2 }; let r = &mut p.a; p.a = 3; *r = 4; } | Loan 78 86 88 95
fn main() { let r; { let x = 1; r = &x; } println!(\"{}\", *r); } | Loan 36 38 19 41
fn f<'a>(p: &'a i64) -> &'a i64 { p } fn main() { let mut x = 1i64; let r = f(&x); x = 2; println!(\"{}\", *r); } | Loan 78 80 83 88
fn f<'a, 'b: 'a>(p: &'a i64, q: &'b i64) -> &'a i64 { q } fn main() {} | accepted
fn f<'a, 'b, 'c>(p: &'a i64, q: &'b i64, r: &'c i64) -> &'a i64 { if *p == 1 { r } else { q } } fn main() {} | Region 0 1 0
struct W<'w> { r: &'w mut i64 } fn f<'a, 'b>(w: &'a mut W<'b>) -> &'b mut i64 { w.r } fn main() {} | Region 1 0 1
struct W<'w> { r: &'w mut i64 } fn f<'a, 'b>(w: &'a mut W<'b>) -> &'a mut i64 { w.r } fn main() {} | accepted";

#[test]
fn loans_and_lifetimes_are_accepted_or_refused(rt: HostRuntime) {
    all_said(&rt, rt.alloc(), BORROWED);
}
