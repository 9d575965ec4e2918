//! For each run of a function, its plan or why it has none, beside all walks up to a length.

ghost use Rattle.rx_tree.specs.PlainOf.{plain-Program};
ghost use Rattle.rx_tree.specs.Size.{IsNumbered};

use crate::holding::all_hold;
use crate::plans::runs::{Counts, Found, all_runs};
use rx_check::{FrontEnd, front};
use rx_core::LetGo;
use rx_parse::{parse, parsed_programs_are_numbered};
use rx_tests_tables::{LINES, Outcome};
use rx_tree::Program;
use std::alloc::{AllocError, Global};

fn counts_text(alloc: Global, counts: Counts) -> Result<String, AllocError> {
    format!(in alloc;
        "{} {} {} {}",
        counts.planned, counts.mixed, counts.partly, counts.unreached
    )
}

fn first_function(alloc: Global, front: &FrontEnd) -> Result<String, AllocError> {
    match front.typed().functions.get(0) {
        Some(function) => match all_runs(alloc, front, function)? {
            Found::All(counts) => counts_text(alloc, counts),
            Found::Differs(run) => format!(in alloc;
                "block {} from {} {} {}",
                run.block, run.first, run.count, run.tail
            ),
        },
        None => String::from_str(alloc, "no function"),
    }
}

fn program_text(alloc: Global, program: &Program) -> Result<String, AllocError>
    requires { IsNumbered (plain-Program program.now) }
{
    match front(alloc, program) {
        Ok(passed) => first_function(alloc, &passed),
        Err(_) => String::from_str(alloc, "not accepted"),
    }
}

fn text_of(alloc: Global, text: &str) -> Result<String, AllocError> {
    if text.len() > 1_048_576 {
        return String::from_str(alloc, "TooLong");
    }
    match parse(alloc, text.as_bytes()) {
        Ok(program) => {
            parsed_programs_are_numbered();
            let outcome = program_text(alloc, &program);
            program.let_go();
            outcome
        }
        Err(_) => String::from_str(alloc, "no program"),
    }
}

/// A text without a loop; and of all runs of its first function how many have a plan, and how many have none since a variable is neither
/// set nor unset for sure, since one is there in part, and since they aren't reached or left.
const FUNCTIONS: &str = r#"fn f(x: i64) { let y = x; println!("{}", y); } fn main() {} | 3 0 0 0
fn f(a: bool) { let x; if a { x = 1i64; } else { x = 2; } println!("{}", x); } fn main() {} | 8 0 0 0
fn f(a: bool) { let mut x; if a { x = 1i64; println!("{}", x); } x = 2; println!("{}", x); } fn main() {} | 11 2 0 0
struct T { n: i64 } fn f(t: T, a: bool) { if a { eat(t); } println!("{}", 1i64); } fn eat(t: T) {} fn main() {} | 4 0 0 0
struct T { n: i64 } struct P { a: T, b: T } fn f(p: P) { eat(p.a); eat(p.b); } fn eat(t: T) {} fn main() {} | 1 0 2 0
struct P { a: i64 } struct W { p: P } fn f() { let mut w = W { p: P { a: 1 } }; eat(w.p); w.p = P { a: 2 }; eat(w.p); } fn eat(p: P) {} fn main() {} | 6 0 4 0
fn f(x: i64) -> i64 { let y = x + 1; y } fn main() {} | 3 0 0 0
fn f() { let mut x = 1i64; println!("{}", x); x = 2; println!("{}", x); } fn main() {} | 10 0 0 0
fn f(a: bool) { let x = 1i64; if a { return; } println!("{}", x); } fn main() {} | 7 0 0 0
struct T { n: i64 } enum E { A(T), B } fn f(e: E) { match e { E::A(t) => eat(t), E::B => {} } println!("{}", 1i64); } fn eat(t: T) {} fn main() {} | 3 0 0 0
fn f(a: bool) { let mut x = 1i64; let y = a && { x = 2; true }; println!("{}", x); println!("{}", y); } fn main() {} | 13 0 0 0
fn f(r: &mut i64) { *r = 1; *r = *r + 1; println!("{}", *r); } fn main() {} | 6 0 0 0
fn f() { let x = 1i64; println!("{}", x); let x = 2i64; println!("{}", x); } fn main() {} | 10 0 0 0
fn f() { let x = { let y = 1i64; let z = y + 1; z }; println!("{}", x); } fn main() {} | 9 0 0 0
struct T { n: i64 } fn f(t: T, u: T) { let (a, b) = (t, u); eat(a); println!("{}", b.n); } fn eat(t: T) {} fn main() {} | 6 0 0 0
fn f(n: i64) -> i64 { let x = match n { 1 => 2, 2 => return 3, _ => n }; let y = x + 1; y } fn main() {} | 6 0 0 0
struct T { n: i64 } fn f(mut t: T) { let r = &mut t; r.n = 2; let s = &t; println!("{}", s.n); } fn main() {} | 10 0 0 0
fn f(a: bool) { return; println!("{}", a); } fn main() {} | 2 0 0 1"#;

/// The same of texts with loops.
const LOOPS: &str =
    r#"fn f(a: bool) { let mut x = 1i64; while a { x = x + 1; if x > 3 { break; } } println!("{}", x); } fn main() {} | 10 0 0 0
struct T { n: i64 } fn f(mut t: T, a: bool) { loop { eat(t); t = T { n: 1 }; if a { break; } } eat(t); } fn eat(t: T) {} fn main() {} | 10 0 0 0
fn f(a: bool) { 'o: loop { loop { if a { break 'o; } if a { continue 'o; } break; } println!("{}", 1i64); } } fn main() {} | 12 0 0 0
fn f(a: bool) -> i64 { let mut s = 0i64; while a { if s > 2 { return s; } s = s + 1; } s } fn main() {} | 10 0 0 0
fn f(a: bool) { let mut x = 1i64; loop { println!("{}", x); if a { break; } x = 2; } } fn main() {} | 10 0 0 0
fn f() { let x; loop { x = 1i64; break; } println!("{}", x); } fn main() {} | 9 0 0 0
fn f(a: bool) { let mut i = 0i64; while i < 3 { i = i + 1; if a { continue; } println!("{}", i); } } fn main() {} | 10 0 0 0
struct T { n: i64 } fn f(a: bool) { let t; loop { t = T { n: 1 }; if a { eat(t); return; } break; } eat(t); } fn eat(t: T) {} fn main() {} | 15 0 0 0
fn f() { loop { let x = 1i64; println!("{}", x); } } fn main() {} | 3 0 0 1"#;

fn is_found(alloc: Global, text: &str, want: &str) -> Outcome {
    Ok(text_of(alloc, text)?.as_str() == want)
}

#[test]
fn plans_are_what_walks_say(rt: HostRuntime) {
    all_hold(&rt, rt.alloc(), FUNCTIONS, LINES, is_found);
}

#[test]
fn plans_in_loops_are_what_walks_say(rt: HostRuntime) {
    all_hold(&rt, rt.alloc(), LOOPS, LINES, is_found);
}
