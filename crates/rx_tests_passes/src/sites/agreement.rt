//! Walks by their rules beside the paths of graphs.

use crate::holding::all_hold;
use crate::sites::paths::agreed;
use crate::sites::said::typed_text;
use rx_tests_tables::{LINES, Outcome};
use rx_typeck_typed::Typed;
use std::alloc::{AllocError, Global};

/// A text, and how many lists of at most 12 actions are walks of its first function and paths of its graph.
const BODIES: &str = r#"fn f() {  } fn main() {} | 2
fn f(x: i64) { x; } fn main() {} | 6
fn f() { let x = 1; } fn main() {} | 6
fn f() { let x; x = 1; } fn main() {} | 6
fn f() { let mut x = 1; x = 2; } fn main() {} | 8
fn f() { let mut x = 1; x += 2; } fn main() {} | 10
fn f() { 1; } fn main() {} | 3
fn f() { 1 + 2; } fn main() {} | 5
fn f() { -1; } fn main() {} | 4
fn f() { !true; } fn main() {} | 4
fn f() { true && false; } fn main() {} | 8
fn f() { true || false; } fn main() {} | 8
fn f(a: bool, b: bool, c: bool) { a && b && c; } fn main() {} | 20
fn f(a: bool, b: bool, c: bool) { a || b && c; } fn main() {} | 19
fn f(a: bool, b: bool, c: bool) { (a || b) && c; } fn main() {} | 20
fn f() { return; } fn main() {} | 2
fn f() { return; 1; } fn main() {} | 2
fn f() { return; return; } fn main() {} | 2
fn f() { 1; return; } fn main() {} | 3
fn f(x: i64) -> i64 { x } fn main() {} | 6
fn f(x: i64) -> i64 { return x; } fn main() {} | 6
fn f(x: i64) -> i64 { return return x; } fn main() {} | 6
fn f() { loop {} } fn main() {} | 1
fn f() { loop { break; } } fn main() {} | 2
fn f() { loop { return; } } fn main() {} | 2
fn f() { loop { 1; } } fn main() {} | 13
fn f() { loop { loop {} } } fn main() {} | 1
fn f() { loop { loop { break; } } } fn main() {} | 1
fn f() { loop { continue; } } fn main() {} | 1
fn f() { loop { 1; continue; } } fn main() {} | 13
fn f() { loop { 1; break; 2; } } fn main() {} | 3
fn f(a: bool) { loop { if a { break; } } } fn main() {} | 21
fn f(a: bool) { loop { if a { break; } else { continue; } } } fn main() {} | 21
fn f(a: bool) { loop { if a { return; } 1; } } fn main() {} | 19
fn f() { loop { let x = 1; break; } } fn main() {} | 6
fn f() { loop { let x = 1; } } fn main() {} | 13
fn f() { loop { let x = 1; continue; } } fn main() {} | 13
fn f(a: bool) { loop { let x = 1; if a { continue; } break; } } fn main() {} | 16
fn f() { 'a: loop { loop { break 'a; } } } fn main() {} | 2
fn f() { 'a: loop { loop { continue 'a; } } } fn main() {} | 1
fn f() { 'a: loop { let x = 1; loop { let y = 2; break 'a; } } } fn main() {} | 10
fn f(a: bool) { 'a: loop { let x = 1; loop { let y = 2; if a { continue 'a; } break 'a; } } } fn main() {} | 15
fn f(a: bool) { while a {} } fn main() {} | 21
fn f(a: bool) { while a { 1; } } fn main() {} | 19
fn f(a: bool) { while a { break; } } fn main() {} | 7
fn f(a: bool) { while a { continue; } } fn main() {} | 21
fn f(a: bool) { while a { return; } } fn main() {} | 9
fn f(a: bool, b: bool) { while a { if b { break; } } } fn main() {} | 21
fn f(a: bool) { while a { let x = 1; } } fn main() {} | 17
fn f(a: bool, b: bool) { while a && b {} } fn main() {} | 28
fn f(a: bool, b: bool) { while a || b { 1; } } fn main() {} | 26
fn f() { while true { while false {} } } fn main() {} | 46
fn f(a: bool, b: bool) { while a { while b { break; } continue; } } fn main() {} | 18
fn f(a: bool) { if a {} } fn main() {} | 7
fn f(a: bool) { if a { 1; } } fn main() {} | 10
fn f(a: bool) { if a { 1; } else { 2; } } fn main() {} | 11
fn f(a: bool) { if a { return; } } fn main() {} | 9
fn f(a: bool) { if a { return; } else { return; } } fn main() {} | 9
fn f(a: bool) { if a { return; } else { 1; } } fn main() {} | 10
fn f(a: bool, b: bool) { if a { 1; } else if b { 2; } else { 3; } } fn main() {} | 21
fn f(a: bool, b: bool) { if a && b { 1; } } fn main() {} | 25
fn f(a: bool) { if a { let x = 1; } } fn main() {} | 13
fn f(a: bool) { if a { loop {} } } fn main() {} | 7
fn f(a: bool) { if a { loop {} } 1; } fn main() {} | 8
fn f() { if (return) { 1; } } fn main() {} | 2
fn f(a: bool) { if { 1; a } { 2; } } fn main() {} | 11
fn f() { { let x = 1; } } fn main() {} | 6
fn f() { { let x = 1; { let y = 2; } } } fn main() {} | 10
fn f() { { return; } } fn main() {} | 2
fn f() { { let x = 1; return; } } fn main() {} | 6
fn f() { let x = { let y = 1; y }; } fn main() {} | 10
fn f(a: bool) { let x = if a { 1 } else { 2 }; } fn main() {} | 17
fn f(a: bool) { let x = if a { 1 } else { return }; } fn main() {} | 13
fn f() { let x: i64 = loop { return; }; } fn main() {} | 2
fn f() { let x: i64 = return; } fn main() {} | 2
fn f() { let x = 1; let x = 2; } fn main() {} | 10
fn f(x: i64) { let _ = x; } fn main() {} | 5
fn f() { let (a, b) = (1, 2); } fn main() {} | 11
fn f(t: (i64, i64)) { let (a, b) = t; } fn main() {} | 13
fn f(t: (i64, i64)) { let (a, _) = t; } fn main() {} | 9
fn f() { let (_, _) = (1, 2); } fn main() {} | 5
fn f(n: i64) { match n { 1 => 2, _ => 3 }; } fn main() {} | 10
fn f(n: i64) { match n { 1 => 2, 2 => 3, _ => 4 }; } fn main() {} | 14
fn f(n: i64) { match n { x => x }; } fn main() {} | 10
fn f(n: i64) { match n { x => x, 1 => 2 }; } fn main() {} | 10
fn f(n: i64) { match n { 1 => {} _ => return } } fn main() {} | 8
fn f(n: i64) { match n { 1 => return, _ => return } } fn main() {} | 8
fn f(n: i64) { match n { _ => {} } } fn main() {} | 5
fn f(a: bool, b: bool) { match (a, b) { (true, true) => 1, (_, false) => 2, (false, _) => 3 }; } fn main() {} | 25
fn f(t: (bool, i64)) { match t { (true, x) => x, (false, y) => y }; } fn main() {} | 19
fn f() { match { return; 1 } { 1 => 2, _ => 3 }; } fn main() {} | 2
fn f(n: i64) { loop { match n { 1 => break, 2 => continue, _ => return } } } fn main() {} | 30
fn f(n: i64) { loop { match n { 1 => break, x => { x; } } } } fn main() {} | 17
fn f(n: i64) { while match n { 1 => true, _ => false } {} } fn main() {} | 66
enum E { A, B(i64) } fn f(e: E) { match e { E::A => 0, E::B(x) => x }; } fn main() {} | 15
enum E { A, B(i64) } fn f(e: &E) { match e { E::A => 0, E::B(x) => *x }; } fn main() {} | 15
enum E { A, B(i64) } fn f(e: E) { match e { E::B(1) => 0, E::B(x) => x, E::A => 2 }; } fn main() {} | 32
enum E { A, B(i64) } fn f(e: E) { if let E::B(x) = e { x; } } fn main() {} | 13
enum E { A, B(i64) } fn f(e: E) { if let E::B(x) = e { x; } else { return; } } fn main() {} | 13
enum E { A, B(i64) } fn f() { while let E::B(x) = g() { x; } } fn g() -> E { E::A } fn main() {} | 15
enum E { A, B(i64) } fn f(e: E) { while let E::B(x) = e { if x == 1 { break; } } } fn main() {} | 17
enum E { A, B(i64) } fn f(e: E) { while let E::B(x) = e { continue; } } fn main() {} | 17
enum E { A, B(i64) } fn f(e: &mut E) { match e { E::B(1) => {} _ => {} } } fn main() {} | 9
enum E { A, B(i64) } fn f(e: E) { let y = match e { E::A => return, E::B(x) => x }; } fn main() {} | 15
fn f() { g(1); } fn g(x: i64) -> i64 { x } fn main() {} | 4
fn f() { g(g(1)); } fn g(x: i64) -> i64 { x } fn main() {} | 5
fn f() { g(return); } fn g(x: i64) -> i64 { x } fn main() {} | 2
fn f() { g({ return; 1 }); } fn g(x: i64) -> i64 { x } fn main() {} | 2
fn f(a: bool) { g(if a { 1 } else { return }); } fn g(x: i64) -> i64 { x } fn main() {} | 11
fn f() { g({ let y = 1; y }); } fn g(x: i64) -> i64 { x } fn main() {} | 8
fn f() { h(1, return); } fn h(x: i64, y: i64) {} fn main() {} | 3
fn f() { h(1, { return; 2 }); } fn h(x: i64, y: i64) {} fn main() {} | 3
fn f() { loop { h(1, { break; 2 }); } } fn h(x: i64, y: i64) {} fn main() {} | 3
fn f() { 1 + { return; 2 }; } fn main() {} | 3
fn f() { loop { 1 + { break; 2 }; } } fn main() {} | 3
fn f() { loop { (1, { continue; 2 }); } } fn main() {} | 13
fn f() { (1, (2, 3)); } fn main() {} | 7
fn f(mut x: (i64, i64)) { x.0 = x.1; } fn main() {} | 7
fn f(r: &mut i64) { *r = 1; } fn main() {} | 7
fn f(r: &mut i64) { *r += *r; } fn main() {} | 9
fn f(x: i64) { &x; } fn main() {} | 6
fn f(x: i64) { let r = &x; let s = r; } fn main() {} | 13
fn f(r: &mut i64) { k(r); k(r); } fn k(r: &mut i64) {} fn main() {} | 9
fn f(r: &mut i64) { k(r); } fn k(r: &i64) {} fn main() {} | 7
fn f(r: &i64) { k(&*r); } fn k(r: &i64) {} fn main() {} | 7
struct P { x: i64, y: i64 } fn f() { P { y: 1, x: 2 }; } fn main() {} | 5
struct P { x: i64, y: i64 } fn f(p: P) { let P { x, y } = p; } fn main() {} | 13
struct P { x: i64, y: i64 } fn f(p: P) { let P { x: _, y } = p; } fn main() {} | 9
struct P { x: i64, y: i64 } fn f(p: &mut P) { p.x = p.y; } fn main() {} | 7
struct P { x: i64, y: i64 } fn f() { let P { x, y } = P { x: 1, y: 2 }; } fn main() {} | 11
fn f() { println!("{}", 1); } fn main() {} | 4
fn f() { println!("{}", { return; 1 }); } fn main() {} | 2
fn f(mut x: i64) { x = { return; 1 }; } fn main() {} | 5
fn f(mut x: i64, a: bool) { x += { if a { return; } 1 }; } fn main() {} | 16
fn f(mut x: i64) { loop { x = { break; 1 }; } } fn main() {} | 5
fn f(a: bool) { a && (return); } fn main() {} | 10
fn f(a: bool) { a || { return; true }; } fn main() {} | 10
fn f(a: bool) { (return) && a; } fn main() {} | 5
fn f(a: bool) { loop { a && (break); } } fn main() {} | 19
fn f(a: bool, b: bool) { loop { a && { continue; true } && b; break; } } fn main() {} | 31
fn f(a: bool) -> i64 { let y = loop { if a { return 1; } break; }; 2 } fn main() {} | 14
fn f(a: bool) -> i64 { if a { 1 } else { 2 } } fn main() {} | 11
fn f(a: bool) -> i64 { match a { true => 1, false => 2 } } fn main() {} | 11"#;

/// The greatest number of actions of the walks that are gone through.
const MOST: usize = 12;

fn first_agreed(alloc: Global, typed: &Typed) -> Result<String, AllocError> {
    match typed.functions.get(0) {
        Some(function) => agreed(alloc, MOST, &function.tree),
        None => String::from_str(alloc, "no function"),
    }
}

fn agrees(alloc: Global, text: &str, want: &str) -> Outcome {
    Ok(typed_text(alloc, text, first_agreed)?.as_str() == want)
}

#[test]
fn walks_are_paths(rt: HostRuntime) {
    all_hold(&rt, rt.alloc(), BODIES, LINES, agrees);
}
