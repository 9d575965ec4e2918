//! What texts are answered with by the parser.

use crate::holding::{all_hold, hold};
use rx_core::LetGo;
use rx_lex::LexFault;
use rx_parse::{SyntaxFault, parse};
use rx_tests_tables::{LINES, Nesting, Outcome};
use std::alloc::Global;

/// What a text is answered with: a word for the kind, and the number of its items or the place of the fault.
pub fn answer(alloc: Global, bytes: &[u8]) -> (&'static str, u64) {
    match parse(alloc, bytes) {
        Ok(program) => {
            let items = program.items.len() as u64;
            program.let_go();
            ("items", items)
        }
        Err(SyntaxFault::Lex(LexFault::NotText { at })) => ("nottext", at),
        Err(SyntaxFault::Lex(LexFault::BadToken { at })) => ("token", at),
        Err(SyntaxFault::Lex(LexFault::OutOfMemory)) => ("memory", 0),
        Err(SyntaxFault::Syntax { at }) => ("syntax", at),
        Err(SyntaxFault::TooDeep { at }) => ("deep", at),
        Err(SyntaxFault::OutOfMemory) => ("memory", 0),
    }
}

pub fn is_answered(alloc: Global, bytes: &[u8], kind: &str, number: u64) -> bool {
    let (got, at) = answer(alloc, bytes);
    got == kind && at == number
}

/// The same for an answer in one, as in `syntax 20`.
pub fn answers(alloc: Global, text: &str, want: &str) -> Outcome {
    match want.split_once(" ") {
        Some((kind, number)) => match number.parse::<u64>() {
            Ok(number) => Ok(is_answered(alloc, text.as_bytes(), kind, number)),
            Err(_) => Ok(false),
        },
        None => Ok(false),
    }
}

const PROGRAMS: &str = r#" | items 0
fn main() {} | items 1
fn f(a: i64, b: i64,) -> i64 { a - b } fn main() { let c = f(c, d,); f(c); println!("{}", c * (2i64 + c)); } | items 2
fn main() { let c = 1; } | items 1
fn main() { let c = 1u8; } | items 1
fn main() { let c = f(c) + 1i64; } | items 1
fn main() { c + f(c) } | items 1
fn main() { if true {} } | items 1
fn main() { 'a: loop { break 'a; } } | items 1
fn f(mut x: &&i64) { x.0.1; } | items 1
mod rt; #[derive(Clone, Copy)] struct S<'a> { a: &'a u8 } | items 2
enum E { V(u8), W } fn f(e: E) -> bool { match e { E::V(1) => true, _ => S { a: 1 }.a < 2 } } | items 2"#;

#[test]
fn texts_are_read(rt: HostRuntime) {
    all_hold(&rt, rt.alloc(), PROGRAMS, LINES, answers);
}

const FAULTS: &str = r#"fn main() { let x = ; } | syntax 20
fn main() { /* cut | token 12
fn main() { println!("{}", c,); } | syntax 28
fn f(,) {} | syntax 5
fn main() { c | syntax 13
mod rt // no more | syntax 17
fn main() {} let | syntax 13
fn main() { a == b == c; } | syntax 19
fn main() { if S { a: 1 } {} } | syntax 20
fn main() { match x {} } | syntax 21
fn main() { E::V(); } | syntax 17
fn f<'a: 'b + >() {} | syntax 14
#[derive(Clone)] fn main() {} | syntax 17"#;

#[test]
fn texts_are_refused_where_they_stop(rt: HostRuntime) {
    all_hold(&rt, rt.alloc(), FAULTS, LINES, answers);
    let is_no_text = is_answered(rt.alloc(), b"fn main() {\xff", "nottext", 11);
    hold(&rt, Ok(is_no_text), "no text");
}

const OPENINGS: Nesting<'static> = Nesting {
    front: "fn main() { let a = ",
    before: "(",
    inner: "",
    after: "",
    back: "",
};

/// Whether so many of a nesting are too deep at byte 147.
fn are_too_deep(alloc: Global, nesting: Nesting<'_>, count: usize) -> Outcome {
    let text = nesting.text(alloc, count)?;
    Ok(is_answered(alloc, text.as_bytes(), "deep", 147))
}

#[test]
fn many_pairs_stop_at_the_first_too_deep(rt: HostRuntime) {
    let pairs = Nesting {
        inner: "1i64",
        after: ")",
        back: "; }",
        ..OPENINGS
    };
    hold(&rt, are_too_deep(rt.alloc(), pairs, 50_000), "50,000 pairs");
}

#[test]
fn a_million_parentheses_stop_at_the_first_too_deep(rt: HostRuntime) {
    hold(
        &rt,
        are_too_deep(rt.alloc(), OPENINGS, 1_000_000),
        "a million",
    );
}
