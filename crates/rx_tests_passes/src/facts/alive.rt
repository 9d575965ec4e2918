//! Which variables and temporaries are live: texts, and what is live at each site of their first function.

use crate::facts::said::{Question, found_text};
use crate::holding::all_hold;
use rx_tests_tables::{LINES, Outcome};
use std::alloc::Global;

/// A text, and what is live at each site of its first function: variables by their names, temporaries by their nodes.
const ALIVE: &str = r#"fn f() {} fn main() {} |  t1;
fn f(x: i64) -> i64 { x } fn main() {} |  t1; t1; x; t4;;
fn f() { let x = 1; } fn main() {} |  t1; t1 t4; t1 t4; t1;;
fn f() { let mut x = 1i64; x = 2; println!("{}", x); } fn main() {} |  t1; t1 t4; t1 t4; t1; t1 t8; x t1; t1 t11; t1;;
fn f(mut i: i64) { while i < 3 { i = i + 1; } } fn main() {} |  t1 t3; t1 t3; i t3; i t3 t5; i t3 t5 t6; i t3 t4; i t3; t3 t12; t3 t12 t13; t3 t11; t3;;
struct P { x: i64, y: i64 } fn f(mut p: P) { p.x = 1; } fn main() {} |  t1 t2; t1 t2; p t2; p t2 t7; t2;;
fn f(r: &mut i64) { *r = 1; } fn main() {} |  t1 t3; t1 t3; r t3; r t3 t8; t3;;
fn f(a: bool, b: i64) -> i64 { if a { b } else { 2 } } fn main() {} |  t1 t2; t1 t2; a t2; a t2; a b; b t6; b;; t5;;;"#;

fn is_alive(alloc: Global, text: &str, want: &str) -> Outcome {
    Ok(found_text(alloc, text, Question::Live)?.as_str() == want)
}

#[test]
fn variables_and_temporaries_are_live(rt: HostRuntime) {
    all_hold(&rt, rt.alloc(), ALIVE, LINES, is_alive);
}
