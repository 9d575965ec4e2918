//! Ranges of bytes, and the runs that they select in any block.

use crate::holding::all_hold;
use rx_core::{LetGo, List};
use rx_lex::{LexFault, lex};
use rx_parse::{SyntaxFault, parse};
use rx_select::{SelectFault, select};
use rx_tests_tables::{LINES, Outcome};
use rx_typed_runs::RunPos;
use std::alloc::{AllocError, Global};

/// Why a range of a text has no answer.
#[derive(Drop)]
enum Unanswered {
    Lex(LexFault),
    Syntax(SyntaxFault),
    Select(SelectFault),
}

impl From<LexFault> for Unanswered {
    fn from(fault: LexFault) -> Unanswered {
        Unanswered::Lex(fault)
    }
}

impl From<SyntaxFault> for Unanswered {
    fn from(fault: SyntaxFault) -> Unanswered {
        Unanswered::Syntax(fault)
    }
}

/// The run that a range of a text of at most 1,048,576 bytes selects.
fn run_selected(alloc: Global, text: &[u8], start: u64, end: u64) -> Result<RunPos, Unanswered> {
    let tokens = lex(alloc, text)?;
    let program = parse(alloc, text)?;
    let found = if tokens.length <= 1_048_576 {
        select(alloc, &tokens, &program, start, end)
    } else {
        Err(SelectFault::OutOfMemory)
    };
    program.let_go();
    match found {
        Ok(run) => Ok(run),
        Err(fault) => Err(Unanswered::Select(fault)),
    }
}

/// The way to a block, as in `0.0.1`.
fn way(alloc: Global, path: &List<u32>) -> Result<String, AllocError> {
    let mut text = String::new(alloc);
    for number in path.as_slice() {
        let step = if text.is_empty() {
            format!(in alloc; "{number}")?
        } else {
            format!(in alloc; ".{number}")?
        };
        text.push_str(step.as_str())?;
    }
    Ok(text)
}

/// A run as its function, the way to its block, its first and last statement, and whether it has the tail.
fn shown(alloc: Global, found: &Result<RunPos, Unanswered>) -> Result<String, AllocError> {
    match found {
        Ok(run) => {
            let path = way(alloc, &run.block.path)?;
            let (function, first, last, tail) = (run.function, run.first, run.last, run.tail);
            format!(in alloc; "{function} {path} {first} {last} {tail}")
        }
        Err(Unanswered::Select(SelectFault::NotARun)) => format!(in alloc; "none"),
        Err(_) => format!(in alloc; "unanswered"),
    }
}

/// Whether the bytes between two `$` of a text, which are left out, select what is wanted.
fn selects(alloc: Global, marked: &str, want: &str) -> Outcome {
    let (front, rest) = marked.split_once("$").unwrap_or((marked, ""));
    let (inside, behind) = rest.split_once("$").unwrap_or((rest, ""));
    let text = format!(in alloc; "{front}{inside}{behind}")?;
    let start = front.len() as u64;
    let end = start.saturating_add(inside.len() as u64);
    let found = run_selected(alloc, text.as_bytes(), start, end);
    let is = shown(alloc, &found)?;
    Ok(is.as_str() == want)
}

/// Whether two numbers select what is wanted in a text of 36 bytes.
fn numbers_select(alloc: Global, range: &str, want: &str) -> Outcome {
    let (start, end) = range.split_once(" ").unwrap_or(("", ""));
    let start = start.parse::<u64>().unwrap_or(0);
    let end = end.parse::<u64>().unwrap_or(0);
    let found = run_selected(alloc, b"fn main() { let a = 1i64; loop { } }", start, end);
    let is = shown(alloc, &found)?;
    Ok(is.as_str() == want)
}

const SELECTIONS: &str = "\
fn main() { $let a = 1i64;$ } | 0 0 0 0 false
fn main() {$ let a = 1i64; $} | 0 0 0 0 false
fn main() { $let a = 1i64$; } | none
fn main() { $let a = 1i64; }$ | none
fn main() $ { let a = 1i64; }$ | none
fn main() { $l$et a = 1i64; } | none
fn main() { l$et a = 1i64;$ } | none
fn main() { let a = $1i64$; } | none
fn main() { $let a = 1i64; let b = 2i64;$ let c = 3i64; } | 0 0 0 1 false
fn main() { let a = 1i64; $let b = 2i64; let c = 3i64;$ } | 0 0 1 2 false
fn main() { $let a = 1i64; let b = 2i64; let c = 3i64;$ } | 0 0 0 2 false
fn main() { $let a = 1i64; let b$ = 2i64; } | none
fn main() { $$let a = 1i64; } | none
fn main() {$ $} | none
$fn main() { let a = 1i64; }$ | none
fn f() -> i64 { let a = 1i64; $a$ } | 0 1 1 1 true
fn f() -> i64 { let a = 1i64; $(a)$ } | 0 1 1 1 true
fn f() -> i64 { let a = 1i64; ($a$) } | none
fn f() -> i64 { let a = 1i64; $((a + 1i64))$ } | 0 1 1 1 true
fn f() -> i64 { let a = 1i64; ($(a + 1i64)$) } | none
fn f() -> i64 { $let a = 1i64; (a)$ } | 0 1 0 1 true
fn f() -> i64 { $let a = 1i64; (a$) } | none
fn f() -> i64 { $(1i64)$ } | 0 1 0 0 true
fn f(a: i64, b: i64) -> i64 { $let c = a;$ c } | 0 3 0 0 false
fn main() { { $let a = 1i64;$ } } | 0 0.0.0 0 0 false
fn main() { ${ let a = 1i64; }$ } | 0 0 0 0 true
fn main() { { let a = 1i64; }; $let b = 2i64;$ } | 0 0 1 1 false
fn main() { { $let a = 1i64; }$ } | none
fn main() { { $let a = 1i64; } { let b = 2i64;$ } } | none
fn main() { ${ let a = 1i64; } { let b = 2i64; }$ } | 0 0 0 1 true
fn main() { { { { $let a = 1i64;$ } } } } | 0 0.0.0.0.0.0.0 0 0 false
fn main() { if true { $let a = 1i64;$ } } | 0 0.0.1 0 0 false
fn main() { if true { } else { $let a = 1i64;$ } } | 0 0.0.2.0 0 0 false
fn main() { if true { } else if false { $let a = 1i64;$ } } | 0 0.0.2.1 0 0 false
fn main() { if true { } else if false { } else { $let a = 1i64;$ } } | 0 0.0.2.2.0 0 0 false
fn main() { if true { } $else$ { let a = 1i64; } } | none
fn main() { if true { } else $if false { }$ } | none
fn main() { loop { $break;$ } } | 0 0.0.0 0 0 false
fn main() { while true { $break;$ } } | 0 0.0.1 0 0 false
fn main() { while { $let a = 1i64;$ a < 2i64 } { } } | 0 0.0.0.0 0 0 false
fn main() { while { let a = 1i64; $a < 2i64$ } { } } | 0 0.0.0.0 1 1 true
fn main() { match 1i64 { 1 => { $let a = 1i64;$ } _ => { } } } | 0 0.0.2.0 0 0 false
fn main() { match 1i64 { 1 => { } _ => { $let a = 1i64;$ } } } | 0 0.0.4.0 0 0 false
fn main() { match 1i64 { 1 => $()$, _ => () } } | none
fn main() { let b = { $let a = 1i64;$ a }; } | 0 0.0.1.0 0 0 false
fn main() { let b: i64 = { $let a = 1i64;$ a }; } | 0 0.0.2.0 0 0 false
fn main() { let b = &&{ $let a = 1i64;$ a }; } | 0 0.0.1.0.0.0 0 0 false
fn f(a: i64) { } fn main() { f({ $let a = 1i64;$ a }); } | 1 0.0.0.0.0 0 0 false
struct S { a: i64 } fn main() { let s = S { a: { $let b = 1i64;$ b } }; } | 1 0.0.1.0.0 0 0 false
struct S { $a: i64$ } fn main() { } | none
enum E { A } fn main() { if let E::A = E::A { $let a = 1i64;$ } } | 1 0.0.2 0 0 false
enum E { A } fn main() { while let E::A = E::A { $break;$ } } | 1 0.0.2 0 0 false
fn main() { return { $let a = 1i64;$ }; } | 0 0.0.0.0.0 0 0 false
fn main() { println!(\"{}\", { $let a = 1i64;$ a }); } | 0 0.0.0.0.0 0 0 false
fn main() { let a = 1i64 + { $let b = 2i64;$ b }; } | 0 0.0.1.1.0 0 0 false
mod rt; fn main() { $let a = rt::next();$ } | 1 0 0 0 false
fn f() { } fn main() { $let a = 1i64;$ } | 1 0 0 0 false
fn f() { $let a = 1i64; } fn main() { let b = 2i64;$ } | none
fn main() { $/* c */$ let a = 1i64; } | none
fn main() { /* c */ $let a = 1i64;$ /* d */ } | 0 0 0 0 false
fn main() { /$* c */ let a = 1i64; /* d$ */ } | 0 0 0 0 false
fn main() { $loop { }$; } | none
fn main() { $loop { };$ } | 0 0 0 0 false
fn main() { $loop { }$ } | 0 0 0 0 true
fn main() { $loop { }$ let a = 1i64; } | 0 0 0 0 false";

const NUMBERS: &str = "\
12 25 | 0 0 0 0 false
25 12 | none
12 36 | none
12 34 | 0 0 0 1 true
11 35 | 0 0 0 1 true
12 37 | none
36 36 | none
37 37 | none
0 18446744073709551615 | none
12 18446744073709551615 | none
18446744073709551615 18446744073709551615 | none
18446744073709551615 0 | none";

#[test]
fn ranges_select_runs_of_any_block(rt: HostRuntime) {
    all_hold(&rt, rt.alloc(), SELECTIONS, LINES, selects);
}

#[test]
fn any_two_numbers_may_be_asked_for(rt: HostRuntime) {
    all_hold(&rt, rt.alloc(), NUMBERS, LINES, numbers_select);
}
