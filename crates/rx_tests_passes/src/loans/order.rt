//! The order of faults.

use crate::holding::all_hold;
use crate::loans::judged::is_judged;
use rx_tests_tables::LINES;

/// The lifetimes of all functions come before all loans, the first function first; of a function the first pair and the
/// first access.
const ORDER: &str =
    r#"fn f<'a, 'b>(p: &'a i64, q: &'b i64) -> &'a i64 { q } fn main() {} | Region 0 1 0
fn f<'a>(p: &'a i64, q: &i64) -> &'a i64 { q } fn main() {} | Region 0 1 0
fn main() { let mut x = 1; let r = &mut x; x = 2; println!("{}", *r); } fn f<'a, 'b>(p: &'a i64, q: &'b i64) -> &'a i64 { q } | Region 1 1 0
struct S {} fn main() {} fn f<'a, 'b>(p: &'a i64, q: &'b i64) -> &'b i64 { p } fn g<'a, 'b>(p: &'a i64, q: &'b i64) -> &'a i64 { q } | Region 2 0 1
fn f<'a, 'b>(t: (&'a i64, &'b i64)) -> (&'b i64, &'a i64) { t } fn main() {} | Region 0 0 1
fn f<'a, 'b>(p: &'a mut &'b i64, q: &'a i64) { *p = q; } fn main() {} | Region 0 0 1
fn f() { let mut x = 1; let r = &mut x; x = 2; println!("{}", *r); } fn main() { let mut x = 1; let r = &mut x; x = 2; println!("{}", *r); } | Loan 32 38 40 45
fn f<'a, 'b>(p: &'a i64, q: &'b i64) -> &'a i64 { q } fn main() { let x = 1; x = 2; } | Again 77 82 70 71
fn main() { let mut x = 1; let r = &mut x; x = 2; println!("{}", *r); } | Loan 35 41 43 48
fn main() { let mut x = 1i64; let r = &mut x; *r = 5; println!("{}", x); } | accepted"#;

#[test]
fn lifetimes_come_before_loans(rt: HostRuntime) {
    all_hold(&rt, rt.alloc(), ORDER, LINES, is_judged);
}
