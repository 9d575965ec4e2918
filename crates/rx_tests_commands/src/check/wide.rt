//! Matches of many arms, and of many tested positions.

use crate::check::said::{Outcome, checked, hold, is_said, push_times};
use std::alloc::{AllocError, Global};

/// A match on a number of 8 bits with the literals below a bound as arms.
fn literals(alloc: Global, bound: u32) -> Result<String, AllocError> {
    let mut text = String::from_str(alloc, "fn f(x: u8) { match x { ")?;
    for number in 0..bound {
        let arm = format!(in alloc; "{number} => {{}} ")?;
        text.push_str(arm.as_str())?;
    }
    text.push_str("} } fn main() {}")?;
    Ok(text)
}

fn literals_are(alloc: Global, bound: u32, want: &str) -> Outcome {
    let text = literals(alloc, bound)?;
    is_said(alloc, text.as_str(), want)
}

#[test]
fn all_numbers_of_8_bits_are_covered(rt: HostRuntime) {
    hold(&rt, literals_are(rt.alloc(), 256, "accepted"), "256");
    hold(
        &rt,
        literals_are(rt.alloc(), 255, "Missing 14 2465 255"),
        "255",
    );
}

/// A match on a tuple of so many truth values with one arm, in which each is `true`.
fn truths(alloc: Global, count: usize) -> Result<String, AllocError> {
    let mut text = String::from_str(alloc, "fn f(x: (")?;
    push_times(&mut text, "bool, ", count)?;
    text.push_str(")) { match x { (")?;
    push_times(&mut text, "true, ", count)?;
    text.push_str(") => {} } } fn main() {}")?;
    Ok(text)
}

fn truths_are(alloc: Global, count: usize, want: &str) -> Outcome {
    let text = truths(alloc, count)?;
    checked(alloc, text.as_str())?.begins(alloc, want)
}

#[test]
fn a_product_past_the_limit_is_too_wide(rt: HostRuntime) {
    hold(
        &rt,
        truths_are(rt.alloc(), 16, "Missing 110 226 (true, true, "),
        "16",
    );
    hold(
        &rt,
        truths_are(rt.alloc(), 17, "TooWide 116 238 131072\n"),
        "17",
    );
}
