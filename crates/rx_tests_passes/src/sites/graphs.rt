//! Graphs of functions: for each form of the language a text, and its sites.

use crate::holding::{all_hold, hold};
use crate::sites::said::graph_text;
use rx_tests_tables::{LINES, Outcome, push_times};
use std::alloc::{AllocError, Global};

/// A text, and the sites of its first function in their order: what each does, where, with which temporaries, and the sites
/// that may follow it.
const GRAPHS: &str = r#"fn f() {} fn main() {} | give t1 >;
fn f() { let x = 1; } fn main() {} | build > 1; declare 0 > 2; write 0 t4 > 3; give t1 > 4; dead 0 >;
fn f() { let mut x = 1i64; x = 2; x += 3; println!("{}", x); } fn main() {} | build > 1; declare 0 > 2; write 0 t4 > 3; build > 4; write 0 t8 > 5; build > 6; read 0 > 7; build t10' t12 > 8; write 0 t10'' > 9; read 0 > 10; print t15 > 11; give t1 > 12; dead 0 >;
fn f() { let x; x = 1; println!("{}", x); } fn main() {} | declare 0 > 1; build > 2; write 0 t7 > 3; read 0 > 4; print t10 > 5; give t1 > 6; dead 0 >;
fn f(p: i64) { let _ = p; } fn main() {} | declare 0 > 1; write 0 t1 > 2; give t2 > 3; dead 0 >;
fn f(x: i64) -> i64 { -x } fn main() {} | declare 0 > 1; write 0 t1 > 2; read 0 > 3; build t5 > 4; give t4 > 5; dead 0 >;
fn f(a: bool) -> bool { !a } fn main() {} | declare 0 > 1; write 0 t1 > 2; read 0 > 3; build t5 > 4; give t4 > 5; dead 0 >;
fn f(a: i64, b: i64) -> i64 { a + b } fn main() {} | declare 0 > 1; write 0 t1 > 2; declare 1 > 3; write 1 t2 > 4; read 0 > 5; read 1 > 6; build t6 t7 > 7; give t5 > 8; dead 1 > 9; dead 0 >;
fn f(a: bool, b: bool) -> bool { a && b } fn main() {} | declare 0 > 1; write 0 t1 > 2; declare 1 > 3; write 1 t2 > 4; read 0 > 5; test t6 > 6 7; read 1 > 7; build t6 t7 > 8; give t5 > 9; dead 1 > 10; dead 0 >;
fn f(a: bool, b: bool) -> bool { a || b } fn main() {} | declare 0 > 1; write 0 t1 > 2; declare 1 > 3; write 1 t2 > 4; read 0 > 5; test t6 > 6 7; read 1 > 7; build t6 t7 > 8; give t5 > 9; dead 1 > 10; dead 0 >;
fn f(a: bool, b: bool) { if a && b { println!("{}", 1); } } fn main() {} | declare 0 > 1; write 0 t1 > 2; declare 1 > 3; write 1 t2 > 4; read 0 > 5; test t6 > 6 7; read 1 > 7; build t6 t7 > 8; test t5 > 9 11; build > 10; print t11 > 11; give t4 > 12; dead 1 > 13; dead 0 >;
fn f() -> i64 { g(g(1)) } fn g(x: i64) -> i64 { x } fn main() {} | build > 1; call t5 > 2; call t4 > 3; give t3 >;
fn f() { g(1, { return; 2 }); } fn g(a: i64, b: i64) {} fn main() {} | build > 1; give t8 >;
fn f() -> i64 { g({ if true { return 7; } 1 }) } fn g(x: i64) -> i64 { x } fn main() {} | build > 1; test t8 > 2 4; build > 3; give t12 >; build > 5; call t5 > 6; give t3 >;
fn f(a: bool) { if a { println!("{}", 1); } } fn main() {} | declare 0 > 1; write 0 t1 > 2; read 0 > 3; test t4 > 4 6; build > 5; print t8 > 6; give t3 > 7; dead 0 >;
fn f(a: bool) -> i64 { if a { 1 } else { 2 } } fn main() {} | declare 0 > 1; write 0 t1 > 2; read 0 > 3; test t5 > 4 5; build > 6; build > 6; give t4 > 7; dead 0 >;
fn f() { loop {} } fn main() {} | 
fn f() { loop { break; } } fn main() {} | give t2 >;
fn f(a: bool) { loop { let x = 1; if a { continue; } break; } } fn main() {} | declare 0 > 1; write 0 t1 > 2; build > 3; declare 1 > 4; write 1 t7 > 5; read 0 > 6; test t10 > 7 8; dead 1 > 2; dead 1 > 9; give t3 > 10; dead 0 >;
fn f(mut i: i64) { while i < 3 { i = i + 1; } } fn main() {} | declare 0 > 1; write 0 t1 > 2; read 0 > 3; build > 4; build t5 t6 > 5; test t4 > 6 10; read 0 > 7; build > 8; build t12 t13 > 9; write 0 t11 > 2; give t3 > 11; dead 0 >;
fn f() { 'a: loop { loop { let y = 1; break 'a; } } } fn main() {} | build > 1; declare 0 > 2; write 0 t8 > 3; dead 0 > 4; give t2 >;
fn f(a: bool) { 'a: while a { let x = 1; loop { let y = 2; continue 'a; } } } fn main() {} | declare 0 > 1; write 0 t1 > 2; read 0 > 3; test t4 > 4 12; build > 5; declare 1 > 6; write 1 t8 > 7; build > 8; declare 2 > 9; write 2 t13 > 10; dead 2 > 11; dead 1 > 2; give t3 > 13; dead 0 >;
fn f() -> i64 { return 1; println!("{}", 2); } fn main() {} | build > 1; give t5 >;
fn f() { { let a = 1; let b = 2; } println!("{}", 3); } fn main() {} | build > 1; declare 0 > 2; write 0 t7 > 3; build > 4; declare 1 > 5; write 1 t10 > 6; dead 1 > 7; dead 0 > 8; build > 9; print t13 > 10; give t1 >;
mod rt; fn f() { while rt::next() != 0 {} } fn main() {} | input > 1; build > 2; build t4 t5 > 3; test t3 > 0 4; give t2 >;
fn f(n: i64) -> i64 { match n { 1 => 10, 2 => 20, _ => 30 } } fn main() {} | declare 0 > 1; write 0 t1 > 2; test 0 > 3 4; build > 7; test 0 > 5 6; build > 7; build > 7; give t4 > 8; dead 0 >;
fn f(n: i64) -> i64 { match n { x => x, 2 => 20 } } fn main() {} | declare 0 > 1; write 0 t1 > 2; read 0 > 3; declare 1 > 4; write 1 t6 > 5; read 1 > 6; dead 1 > 7; give t4 > 8; dead 0 >;
fn f(n: (bool, i64)) -> i64 { match n { (true, 1) => 1, (false, x) => x, _ => 3 } } fn main() {} | declare 0 > 1; write 0 t1 > 2; test 0.0 > 3 5; test 0.1 > 4 5; build > 12; test 0.0 > 6 11; read 0.1 > 7; declare 1 > 8; write 1 t14 > 9; read 1 > 10; dead 1 > 12; build > 12; give t6 > 13; dead 0 >;
enum E { A, B(i64) } fn f(e: E) -> i64 { match e { E::A => 0, E::B(x) => x } } fn main() {} | declare 0 > 1; write 0 t1 > 2; test 0 > 3 4; build > 10; test 0 > 5; read 0#1.0 > 6; declare 1 > 7; write 1 t9 > 8; read 1 > 9; dead 1 > 10; give t4 > 11; dead 0 >;
enum E { A, B(i64) } fn f(e: &E) -> i64 { match e { E::A => 0, E::B(x) => *x } } fn main() {} | declare 0 > 1; write 0 t1 > 2; test 0* > 3 4; build > 10; test 0* > 5; share 0*#1.0 > 6; declare 1 > 7; write 1 t10 > 8; read 1* > 9; dead 1 > 10; give t5 > 11; dead 0 >;
enum E { A, B(i64) } fn f(e: E) { if let E::B(n) = e { println!("{}", n); } else { println!("{}", 0); } } fn main() {} | declare 0 > 1; write 0 t1 > 2; test 0 > 3 9; read 0#1.0 > 4; declare 1 > 5; write 1 t5 > 6; read 1 > 7; print t10 > 8; dead 1 > 11; build > 10; print t15 > 11; give t3 > 12; dead 0 >;
enum E { A, B(i64) } fn f() { while let E::B(n) = g() { println!("{}", n); } } fn g() -> E { E::A } fn main() {} | call > 1; test t5 > 2 7; declare 0 > 3; write 0 t5#1.0 > 4; read 0 > 5; print t9 > 6; dead 0 > 0; give t2 >;
struct P { x: i64, y: i64 } fn f(p: P) -> i64 { let P { x, y } = p; x + y } fn main() {} | declare 0 > 1; write 0 t1 > 2; read 0.0 > 3; declare 1 > 4; write 1 t6 > 5; read 0.1 > 6; declare 2 > 7; write 2 t7 > 8; read 1 > 9; read 2 > 10; build t10 t11 > 11; give t9 > 12; dead 2 > 13; dead 1 > 14; dead 0 >;
struct P { x: i64, y: i64 } fn f(p: &mut P) { p.x = p.y; } fn main() {} | declare 0 > 1; write 0 t1 > 2; read 0*.1 > 3; write 0*.0 t8 > 4; give t3 > 5; dead 0 >;
struct P { x: i64, y: i64 } fn f() -> P { P { y: 1, x: 2 } } fn main() {} | build > 1; build > 2; build t4 t5 > 3; give t3 >;
struct T { n: i64 } fn f(t: T) { eat(t); } fn eat(t: T) {} fn main() {} | declare 0 > 1; write 0 t1 > 2; move 0 > 3; call t5 > 4; give t2 > 5; dead 0 >;
fn f() { let t = (1, true); let (a, b) = t; println!("{}", a); } fn main() {} | build > 1; build > 2; build t5 t6 > 3; declare 0 > 4; write 0 t4 > 5; read 0.0 > 6; declare 1 > 7; write 1 t9 > 8; read 0.1 > 9; declare 2 > 10; write 2 t10 > 11; read 1 > 12; print t14 > 13; give t1 > 14; dead 2 > 15; dead 1 > 16; dead 0 >;
fn f() { let (a, b) = (1, true); println!("{}", b); } fn main() {} | build > 1; build > 2; build t7 t8 > 3; declare 0 > 4; write 0 t6.0 > 5; declare 1 > 6; write 1 t6.1 > 7; read 1 > 8; print t11 > 9; give t1 > 10; dead 1 > 11; dead 0 >;
fn f(a: i64) { let r = &a; println!("{}", *r); } fn main() {} | declare 0 > 1; write 0 t1 > 2; share 0 > 3; declare 1 > 4; write 1 t5 > 5; read 1* > 6; print t9 > 7; give t2 > 8; dead 1 > 9; dead 0 >;
fn f(r: &mut i64) { g(r); g(r); } fn g(r: &mut i64) {} fn main() {} | declare 0 > 1; write 0 t1 > 2; borrow 0* > 3; call t6 > 4; borrow 0* > 5; call t9 > 6; give t3 > 7; dead 0 >;
fn f(r: &mut i64) { g(r); } fn g(r: &i64) {} fn main() {} | declare 0 > 1; write 0 t1 > 2; share 0* > 3; call t6 > 4; give t3 > 5; dead 0 >;
fn f(a: &mut i64) { let b = &mut *a; *b = 1; } fn main() {} | declare 0 > 1; write 0 t1 > 2; borrow 0* > 3; declare 1 > 4; write 1 t6 > 5; build > 6; write 1* t13 > 7; give t3 > 8; dead 1 > 9; dead 0 >;"#;

fn is_graph(alloc: Global, text: &str, want: &str) -> Outcome {
    Ok(graph_text(alloc, text)?.as_str() == want)
}

#[test]
fn graphs_of_functions(rt: HostRuntime) {
    all_hold(&rt, rt.alloc(), GRAPHS, LINES, is_graph);
}

/// `main` with a variable and so many assignments to it: it has five sites, and two for each.
fn assignments(alloc: Global, count: usize) -> Result<String, AllocError> {
    let mut text = String::from_str(alloc, "fn main() { let mut x = 0i64;")?;
    push_times(&mut text, " x = 1;", count)?;
    text.push_str(" }")?;
    Ok(text)
}

/// Whether so many assignments make a graph of so many sites, and one more.
fn has_sites_and_one(alloc: Global, count: usize, more: usize) -> Outcome {
    let found = graph_text(alloc, assignments(alloc, count)?.as_str())?;
    Ok(found.split(";").count() == more)
}

fn is_too_large(alloc: Global, count: usize, want: &str) -> Outcome {
    is_graph(alloc, assignments(alloc, count)?.as_str(), want)
}

#[test]
fn a_graph_has_at_most_16384_sites(rt: HostRuntime) {
    hold(&rt, has_sites_and_one(rt.alloc(), 1, 8), "1");
    hold(&rt, has_sites_and_one(rt.alloc(), 8189, 16384), "8189");
    hold(
        &rt,
        is_too_large(rt.alloc(), 8190, "TooLarge 16385"),
        "8190",
    );
}
