//! Loans in patterns.

use crate::holding::all_hold;
use crate::loans::judged::is_judged;
use rx_tests_tables::LINES;

/// Parts of variants are borrowed while the whole is written or its tag is tested.
const PAYLOADS: &str =
    r#"enum E { A(i64, i64), B } fn f(e: &mut E) { match e { E::A(x, y) => { *x = 1; *y = 2; } E::B => {} } } fn main() {} | accepted
enum E { A(i64, i64), B } fn f(e: &mut E) { match e { E::A(x, _) => { *e = E::B; *x = 1; } E::B => {} } } fn main() {} | Loan 59 60 70 79
enum E { A(i64, i64), B } fn f(e: &mut E) { match e { E::A(x, _) => { *x = 1; *e = E::B; } E::B => {} } } fn main() {} | accepted
enum E { A(i64, i64), B } fn main() { let mut e = E::A(1, 2); match &mut e { E::A(x, _) => { e = E::B; *x = 1; } E::B => {} } } | Loan 68 74 93 101
enum E { A(i64, i64), B } fn f(e: &mut E) { match e { E::A(x, _) => { match *e { E::A(_, _) => {} E::B => {} } *x = 1; } E::B => {} } } fn main() {} | Loan 59 60 81 91
enum E { A(i64, i64), B } fn f(e: &E) { match e { E::A(x, _) => { match *e { E::A(_, y) => { println!("{}", y); } E::B => {} } println!("{}", *x); } E::B => {} } } fn main() {} | accepted
enum E { A(i64, i64), B } fn f(p: &mut (E, E)) { match p.0 { E::A(a, b) => {} E::B => {} } let q = &mut p.0; match p.1 { E::A(_, _) => { *q = E::B; } E::B => {} } } fn main() {} | accepted
enum E { A(i64, i64), B } fn f(p: &mut (E, E)) { let q = &mut p.0; match p.0 { E::A(_, _) => { *q = E::B; } E::B => {} } } fn main() {} | Loan 57 65 79 89
enum R<'e> { A(&'e mut i64), B } fn f<'a, 'b>(e: &'a mut R<'b>) { match e { R::A(x) => { let y = &mut **x; match *e { R::A(_) => {} R::B => {} } *y = 1; } R::B => {} } } fn main() {} | Loan 81 82 118 125
enum E { A(i64, i64), B } fn f(e: &mut E) { match e { E::A(x, _) => { match e { E::A(_, y) => { *y = 1; } E::B => {} } } E::B => {} } } fn main() {} | accepted
enum O<'o> { Some(&'o mut i64), None } fn main() { let mut x = 1i64; let o = O::Some(&mut x); x = 2; match o { O::Some(r) => { *r = 3; } O::None => {} } } | Loan 85 91 94 99
enum O<'o> { Some(&'o mut i64), None } fn main() { let mut x = 1i64; let o = O::Some(&mut x); match o { O::Some(r) => { *r = 3; } O::None => {} } x = 2; } | accepted"#;

#[test]
fn payloads_are_borrowed(rt: HostRuntime) {
    all_hold(&rt, rt.alloc(), PAYLOADS, LINES, is_judged);
}

/// Matches on what is borrowed.
const MATCHES: &str =
    r#"fn main() { let mut p = (1i64, 2i64); let r = &mut p; match p { (a, b) => {} } r.0 = 1; } | Loan 46 52 65 66
fn main() { let mut p = (1i64, 2i64); let r = &mut p; let _ = p; match p { _ => {} } r.0 = 1; } | accepted
fn main() { let mut x = 1i64; let r = &mut x; match x { 1 => {} _ => {} } *r = 2; } | Loan 38 44 56 57
fn main() { let mut x = 1i64; let r = &x; match x { 1 => {} _ => {} } println!("{}", *r); } | accepted
fn main() { let mut x = 1i64; let r = &mut x; match *r { 1 => { *r = 2; } _ => {} } x = 3; } | accepted
enum E { A(i64, i64), B } fn main() { let mut e = E::A(1, 2); match &e { E::A(v, _) => { e = E::B; println!("{}", *v); } E::B => {} } } | Loan 68 70 89 97
enum E { A(i64, i64), B } fn main() { let mut e = E::A(1, 2); match e { E::A(v, _) => { e = E::B; println!("{}", v); } E::B => {} } } | accepted
enum E { A(i64, i64), B } fn main() { let mut e = E::A(1, 2); if let E::A(v, _) = &mut e { *v = 3; } e = E::B; } | accepted
enum E { A(i64, i64), B } fn main() { let mut e = E::A(1, 2); while let E::A(v, _) = &mut e { e = E::B; *v = 3; } } | Loan 85 91 94 102
fn f(p: &mut (i64, i64)) { match p { (a, _) => { let b = &mut p.0; *a = 1; } } } fn main() {} | Loan 38 39 57 65
fn f(p: &mut (i64, i64)) { match p { (a, _) => { let b = &mut p.1; *b = 1; *a = 2; } } } fn main() {} | accepted"#;

#[test]
fn borrowed_values_are_matched(rt: HostRuntime) {
    all_hold(&rt, rt.alloc(), MATCHES, LINES, is_judged);
}
