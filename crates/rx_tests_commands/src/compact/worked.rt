//! Worked examples: answers of `extract` with the short signatures of their new functions, and a file with comments; and an answer that
//! is too long.

use crate::extract::said::all_made;
use crate::run::said::{hold, replied};
use rx_tests_tables::{Outcome, push_times};
use std::alloc::{AllocError, Global};

const WORKED: &str = r#"compact gather
mod rt;

fn main() {
    let mut sum = 0i64;
    let mut n = rt::next();
    while n != 0 {
        gather(&mut sum, n);
        n = rt::next();
    }
    println!("{}", sum);
}

fn gather<'r0>(sum: &'r0 mut i64, n: i64) {
    *sum = *sum + n * n;
}
====
0
mod rt;

fn main() {
    let mut sum = 0i64;
    let mut n = rt::next();
    while n != 0 {
        gather(&mut sum, n);
        n = rt::next();
    }
    println!("{}", sum);
}

fn gather(sum: &mut i64, n: i64) {
    *sum = *sum + n * n;
}
----
compact pick
fn main() {
    let a = 3i64;
    let b = 9i64;
    let p = &a;
    let q = &b;
    let mut best = p;
    pick(q, &mut best);
    println!("{}", *best);
}

fn pick<'r0: 'r2, 'r1, 'r2>(q: &'r0 i64, best: &'r1 mut &'r2 i64) {
    if *q > **best {
        *best = q;
    }
}
====
0
fn main() {
    let a = 3i64;
    let b = 9i64;
    let p = &a;
    let q = &b;
    let mut best = p;
    pick(q, &mut best);
    println!("{}", *best);
}

fn pick<'r0: 'r2, 'r2>(q: &'r0 i64, best: &mut &'r2 i64) {
    if *q > **best {
        *best = q;
    }
}
----
compact swap
struct Keep<'k> {
    best: &'k i64,
}

fn order<'a>(x: &mut Keep<'a>, y: &mut Keep<'a>) {
    swap(x, y);
}

fn swap<'r0, 'r1: 'r3, 'r2, 'r3: 'r1>(x: &'r0 mut Keep<'r1>, y: &'r2 mut Keep<'r3>) {
    let t = x.best;
    x.best = y.best;
    y.best = t;
}

fn main() {}
====
0
struct Keep<'k> {
    best: &'k i64,
}

fn order<'a>(x: &mut Keep<'a>, y: &mut Keep<'a>) {
    swap(x, y);
}

fn swap<'r1>(x: &mut Keep<'r1>, y: &mut Keep<'r1>) {
    let t = x.best;
    x.best = y.best;
    y.best = t;
}

fn main() {}
----
compact nope
mod rt;

fn main() {
    let mut sum = 0i64;
    let mut n = rt::next();
    while n != 0 {
        gather(&mut sum, n);
        n = rt::next();
    }
    println!("{}", sum);
}

fn gather<'r0>(sum: &'r0 mut i64, n: i64) {
    *sum = *sum + n * n;
}
====
1
error: Refused NoFunction
----
compact least
// The lesser of two.
fn least<
    'a: 'b, // the first
    'b: 'a, // the second
>(
    x: &'a i64, // here
    y: &'b
        i64,
) -> &'b i64 {
    let mut found: &'b i64 = x; // there
    if *y < *found {
        found = y;
    }
    found
}

fn main() {}
====
0
// The lesser of two.
fn least<'a>(
    x: &'a i64, // here
    y: &'a
        i64,
) -> &'a i64 {
    let mut found: &'a i64 = x; // there
    if *y < *found {
        found = y;
    }
    found
}

fn main() {}
----
compact first
fn first<'a, 'b>(
    x: &'a
        i64, // here
    y: &'b mut // there
        i64,
) {}

fn main() {}
====
0
fn first(
    x: &i64, // here
    y: &mut // there
        i64,
) {}

fn main() {}"#;

#[test]
fn worked_examples_are_made(rt: HostRuntime) {
    all_made(&rt, rt.alloc(), WORKED);
}

/// A file with a function of three hundred parameters, in whose types a lifetime stands.
fn wide(alloc: Global, list: &str, lifetime: &str) -> Result<String, AllocError> {
    let mut text = String::from_str(alloc, "fn f<")?;
    text.push_str(list)?;
    text.push_str(">(")?;
    for number in 0..300usize {
        let parameter = format!(in alloc; "x{number}: &{lifetime} i64, ")?;
        text.push_str(parameter.as_str())?;
    }
    text.push_str(") {} fn main() {}")?;
    Ok(text)
}

/// Whether an answer is refused that would have more bytes than a text may have: a short name gives way to a long one.
fn is_too_long(alloc: Global) -> Outcome {
    let mut long = String::from_str(alloc, "'a")?;
    push_times(&mut long, "a", 4000)?;
    let list = format!(in alloc; "{long}: 'b, 'b: {long}")?;
    let text = wide(alloc, list.as_str(), "'b")?;
    let short = wide(alloc, long.as_str(), long.as_str())?;
    let line = format!(in alloc; "error: Refused Limit Bytes {}\n", short.len())?;
    let made = replied(alloc, "compact f", text.as_str(), 100, 100)?;
    Ok(made.is(1, "", line.as_str()))
}

#[test]
fn answers_that_are_too_long_are_refused(rt: HostRuntime) {
    hold(&rt, is_too_long(rt.alloc()), "three hundred parameters");
}
