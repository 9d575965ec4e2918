//! Limits of an extraction, at their borders.

use crate::run::said::{Reply, hold, replied};
use rx_tests_tables::push_times;
use std::alloc::{AllocError, Global};

/// What is made of a run in a text: what is in front of it, the run, and what is behind; with a word for how variables are passed.
fn made_so(
    alloc: Global,
    front: &str,
    run: &str,
    behind: &str,
    mode: &str,
) -> Result<Reply, AllocError> {
    let mut text = String::from_str(alloc, front)?;
    let start = text.len();
    text.push_str(run)?;
    let end = text.len();
    text.push_str(behind)?;
    let words = format!(in alloc; "extract moved {start} {end} {mode}")?;
    replied(alloc, words.as_str(), text.as_str(), 100000, 100)
}

fn made(alloc: Global, front: &str, run: &str, behind: &str) -> Result<Reply, AllocError> {
    made_so(alloc, front, run, behind, "copy")
}

/// A print of a variable behind so many signs: as many levels, and three more.
fn negated(alloc: Global, signs: usize, mode: &str) -> Result<Reply, AllocError> {
    let mut run = String::from_str(alloc, "println!(\"{}\", ")?;
    push_times(&mut run, "- ", signs)?;
    run.push_str("x);")?;
    made_so(
        alloc,
        "fn main() { let x = 1i64; ",
        run.as_str(),
        " }",
        mode,
    )
}

/// A print of a field in so many pairs of parentheses, which stay: as many levels, and six more behind a reference.
fn enclosed(alloc: Global, pairs: usize) -> Result<Reply, AllocError> {
    let mut run = String::from_str(alloc, "println!(\"{}\", ")?;
    push_times(&mut run, "(", pairs)?;
    run.push_str("p.x")?;
    push_times(&mut run, ")", pairs)?;
    run.push_str(");")?;
    made(
        alloc,
        "struct P { x: i64 } fn main() { let p = P { x: 1 }; ",
        run.as_str(),
        " }",
    )
}

/// A function that is given 42 structs of three lifetimes each, and so many references, and names each once.
fn lent(alloc: Global, references: u32) -> Result<Reply, AllocError> {
    let mut front = String::from_str(
        alloc,
        "struct R<'a, 'b, 'c> { p: &'a i64, q: &'b i64, r: &'c i64 } fn f(",
    )?;
    let mut run = String::new(alloc);
    for number in 0..42u32 {
        let parameter = format!(in alloc; "x{number}: R, ")?;
        let named = format!(in alloc; "let z{number} = x{number}; ")?;
        front.push_str(parameter.as_str())?;
        run.push_str(named.as_str())?;
    }
    for number in 0..references {
        let parameter = format!(in alloc; "y{number}: &i64, ")?;
        let named = format!(in alloc; "let w{number} = y{number}; ")?;
        front.push_str(parameter.as_str())?;
        run.push_str(named.as_str())?;
    }
    front.push_str(") { ")?;
    made(alloc, front.as_str(), run.as_str(), "} fn main() {}")
}

/// A function that is given two structs of 2,048 parts and a number, and hands these statements' variables on.
fn large(alloc: Global, run: &str, behind: &str) -> Result<Reply, AllocError> {
    let mut front = String::from_str(alloc, "struct S { ")?;
    for number in 0..2048u32 {
        let field = format!(in alloc; "f{number}: i64, ")?;
        front.push_str(field.as_str())?;
    }
    front.push_str("} fn take(d: S, e: S, g: i64) {} fn f(a: S, b: S, c: i64) { ")?;
    made(alloc, front.as_str(), run, behind)
}

/// A copy of a variable in a function of 16,384 sites, 8,186 prints of a number among them.
fn of_many_sites(alloc: Global) -> Result<Reply, AllocError> {
    let mut behind = String::from_str(alloc, " f(); ")?;
    push_times(&mut behind, "println!(\"{}\", 1i64); ", 8186)?;
    behind.push_str("println!(\"{}\", b); }")?;
    made(
        alloc,
        "fn f() {} fn main() { let a = 1i64; ",
        "let b = a;",
        behind.as_str(),
    )
}

#[test]
fn a_call_may_be_a_site_too_many(rt: HostRuntime) {
    let past = of_many_sites(rt.alloc()).map(|reply| reply.is(
        1,
        "",
        "error: Refused Limit Sites 16385\n",
    ));
    hold(&rt, past, "16385");
}

#[test]
fn a_signature_has_at_most_128_lifetimes(rt: HostRuntime) {
    let within = lent(rt.alloc(), 2).map(|reply| reply.ends(0));
    hold(&rt, within, "128");
    let past = lent(rt.alloc(), 3).map(|reply| reply.is(
        1,
        "",
        "error: Refused Limit Lifetimes 129\n",
    ));
    hold(&rt, past, "129");
}

#[test]
fn what_is_handed_out_has_at_most_4096_parts(rt: HostRuntime) {
    let within = large(
        rt.alloc(),
        "let d = a; let e = b; ",
        "let g = c; take(d, e, g); } fn main() {}",
    )
    .map(|reply| reply.ends(0));
    hold(&rt, within, "4096");
    let past = large(
        rt.alloc(),
        "let d = a; let e = b; let g = c; ",
        "take(d, e, g); } fn main() {}",
    )
    .map(|reply| reply.is(1, "", "error: Refused Limit Parts 4097\n"));
    hold(&rt, past, "4097");
}

#[test]
fn an_answer_has_at_most_128_levels(rt: HostRuntime) {
    let copied = negated(rt.alloc(), 125, "copy").map(|reply| reply.ends(0));
    hold(&rt, copied, "125 copy");
    let within = negated(rt.alloc(), 124, "ref").map(|reply| reply.ends(0));
    hold(&rt, within, "124 ref");
    let past = negated(rt.alloc(), 125, "ref").map(|reply| reply.is(
        1,
        "",
        "error: Refused Limit Levels 129\n",
    ));
    hold(&rt, past, "125 ref");
}

#[test]
fn parentheses_of_the_file_are_levels_of_the_answer(rt: HostRuntime) {
    let within = enclosed(rt.alloc(), 122).map(|reply| reply.ends(0));
    hold(&rt, within, "122");
    let past = enclosed(rt.alloc(), 123).map(|reply| reply.is(
        1,
        "",
        "error: Refused Limit Levels 129\n",
    ));
    hold(&rt, past, "123");
    let further = enclosed(rt.alloc(), 124).map(|reply| reply.is(
        1,
        "",
        "error: Refused Limit Levels 130\n",
    ));
    hold(&rt, further, "124");
}
