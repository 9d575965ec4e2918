//! A fault of each kind, with its place.

use crate::check::said::{all_said, hold, is_said};

const FAULTS: &str = "\
// nothing | Mismatch 0 0 Main
fn main() { /* cut | BadToken 12
fn main() { let e\u{301} = 1; } | BadToken 16
fn main() { let x = ; } | Syntax 20
fn main() { x = 1; } | Unknown 12 13
struct S {} struct S {} fn main() {} | Twice 7 8 19 20
fn main() { break; } | Label 12 17
struct S { s: S } fn main() {} | SelfHolding 7 8
fn main() { let x: i64 = true; } | Mismatch 25 29 Equal
fn main() { let x = 1; let r = &mut x; } | Mutability 31 37 16 17
fn main() { let x = 300u8; } | Literal 20 25
fn f(p: &i64, q: &i64) -> &i64 { p } fn main() {} | Elision 26 30
fn main() { match true { true => {} } } | Missing 12 37 false
fn main() { let x: i64; println!(\"{}\", x); } | Unset 39 40
fn main() { let x = 1; x = 2; } | Again 23 28 16 17
fn f<'a, 'b>(p: &'a i64, q: &'b i64) -> &'a i64 { q } fn main() {} | Region 0 1 0
fn main() { let mut x = 1; let r = &mut x; x = 2; println!(\"{}\", *r); } | Loan 35 41 43 48
fn main() { let a = 9223372036854775808i64; } | Literal 20 42
fn main() { let a = -9223372036854775808i64; } | accepted
fn main() { let a = 9223372036854775807i64; } | accepted";

#[test]
fn each_fault_has_its_line(rt: HostRuntime) {
    hold(&rt, is_said(rt.alloc(), "", "Mismatch 0 0 Main"), "empty");
    all_said(&rt, rt.alloc(), FAULTS);
}

/// Each rule of types broken once.
const RULES: &str = "\
fn main() { let x = 1u8 + 1u32; } | Mismatch 20 30 KindOf
fn f(a: i64) {} fn main() { f(); } | Mismatch 28 31 Count
struct S { a: i64 } fn main() { let s = S {}; } | Mismatch 40 44 Fields
fn main() { 1 = 2; } | Mismatch 12 13 NotPlace
fn main() { let f = 1; f(); } | Mismatch 23 26 NotFunction
#[derive(Copy)] struct S {} fn main() {} | Mismatch 23 24 CopyOf
struct S<'a> {} fn main() {} | Mismatch 9 11 Unused
struct S {} fn f(s: &S) -> S { *s } fn main() {} | Mismatch 31 33 MoveOut
fn main() { let x; } | Mismatch 16 17 Unclear
struct S<'a> { r: &'a i64 } fn f<'b, 'c>(s: S<'b, 'c>) {} fn main() {} | Mismatch 44 53 Lifetimes
fn main() { let (a, b) = 1; } | Mismatch 16 22 PatternOf";

#[test]
fn each_rule_has_its_word(rt: HostRuntime) {
    all_said(&rt, rt.alloc(), RULES);
}

/// Names come before types, types before coverage, coverage before initialisation, initialisation before lifetimes, lifetimes before
/// loans; each goes over all functions.
const ORDER: &str = "\
fn f() { match true { true => {} } } fn main() { let x: i64 = true; } | Mismatch 62 66 Equal
fn f() { let x: i64 = true; } fn main() { y; } | Unknown 42 43
fn f() { match true { true => {} } } fn main() { if true {} } | Missing 9 34 false
struct S {} fn main() { match 1u8 { 1 => {} } match true { true => {} } } | Missing 24 45 0
fn f() { let x: i64; let y = x; } fn main() { match true { true => {} } } | Missing 46 71 false
fn f() { let x: i64; let y = x; } fn main() { let z = 1; z = 2; } | Unset 25 26
fn f() { let z = 1; z = 2; } fn main() { let x: i64; let y = x; } | Again 20 25 13 14
struct S {} fn main() { let x: i64; let y = x; } | Unset 40 41
fn e() { let mut x = 1; let r = &mut x; x = 2; println!(\"{}\", *r); } fn f<'a, 'b>(p: &'a i64, q: &'b i64) -> &'a i64 { q } fn main() { let z = 1; z = 2; } | Again 146 151 139 140
fn e() { let mut x = 1; let r = &mut x; x = 2; println!(\"{}\", *r); } fn f<'a, 'b>(p: &'a i64, q: &'b i64) -> &'a i64 { q } fn main() {} | Region 1 1 0
fn f<'a, 'b, 'c>(p: &'a i64, q: &'b i64, r: &'c i64) -> &'a i64 { if *p == 1 { r } else { q } } fn g<'a, 'b>(p: &'a i64, q: &'b i64) -> &'b i64 { p } fn main() {} | Region 0 1 0
fn e() { let mut x = 1; let r = &x; x = 2; println!(\"{}\", *r); } fn f() { let mut x = 1; let r = &mut x; let y = x; println!(\"{}\", *r); } fn main() {} | Loan 32 34 36 41
fn main() { if true {} } | accepted
fn main() { x; } enum E { A } | Unknown 12 13
fn main() { f(1i64); } | Unknown 12 13
fn a() {} fn a() {} struct S {} | Twice 3 4 13 14
mod rt; fn main() {} | accepted
fn main() {} struct S {} | accepted
fn main() {} | accepted";

#[test]
fn passes_come_in_order(rt: HostRuntime) {
    all_said(&rt, rt.alloc(), ORDER);
}
