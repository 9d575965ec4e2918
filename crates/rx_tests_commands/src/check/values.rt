//! A value that a match misses is written as an expression of its type: it is read and typed as one. One with a reference
//! is read as one, and is no more than that: what is borrowed in it is no place.

use crate::check::said::{Outcome, checked, hold};
use std::alloc::{AllocError, Global};

/// The text of a function that matches a value of a type, and of one that makes a value.
fn matching(alloc: Global, items: &str, typ: &str, arms: &str) -> Result<String, AllocError> {
    format!(in alloc; "{items} fn f(x: {typ}) {{ match x {{ {arms} }} }} fn main() {{}}")
}

fn making(alloc: Global, items: &str, typ: &str, value: &str) -> Result<String, AllocError> {
    format!(in alloc; "{items} fn f() {{ let x: {typ} = {value}; }} fn main() {{}}")
}

/// Whether a match misses the value, which is one of the type.
fn is_missed(alloc: Global, items: &str, typ: &str, (arms, value): (&str, &str)) -> Outcome {
    let text = matching(alloc, items, typ, arms)?;
    let start = items.len().saturating_add(typ.len()).saturating_add(13);
    let end = start.saturating_add(arms.len()).saturating_add(12);
    let words = format!(in alloc; "Missing {start} {end} {value}")?;
    let is_missing = checked(alloc, text.as_str())?.is(alloc, words.as_str())?;
    let other = making(alloc, items, typ, value)?;
    let said = checked(alloc, other.as_str())?;
    let is_value = if value.contains("&") {
        said.begins(alloc, "Mismatch ")?
    } else {
        said.is_accepted()
    };
    Ok(is_missing && is_value)
}

/// Items, a type, arms, and the value that they miss.
const MISSED: [(&str, &str, &str, &str); 9] = [
    ("", "i64", "0 => {} -1 => {}", "1"),
    (
        "",
        "(u8, (), (bool,))",
        "(0, _, (y,)) => {} (y, _, (true,)) => {}",
        "(1, (), (false,))",
    ),
    (
        "",
        "&(bool, i32)",
        "(true, _) => {} (_, 0) => {}",
        "&(false, 1)",
    ),
    (
        "struct S { a: bool, b: u64 }",
        "S",
        "S { a: true, b: c } => {}",
        "S { a: false, b: 0 }",
    ),
    (
        "struct N {}",
        "(N, bool)",
        "(y, true) => {}",
        "(N {}, false)",
    ),
    (
        "enum E { A, B(bool, u8) }",
        "E",
        "E::A => {} E::B(true, y) => {}",
        "E::B(false, 0)",
    ),
    (
        "enum E { A, B(bool, u8) }",
        "&E",
        "E::B(y, z) => {}",
        "&E::A",
    ),
    (
        "enum E<'a> { R(&'a (bool,)) }",
        "E",
        "E::R((true,)) => {}",
        "E::R(&(false,))",
    ),
    (
        "enum O { S(P), N } struct P { o: Q } enum Q { A, B }",
        "O",
        "O::N => {} O::S(P { o: Q::A }) => {}",
        "O::S(P { o: Q::B })",
    ),
];

#[test]
fn missed_values_are_expressions(rt: HostRuntime) {
    for (items, typ, arms, value) in &MISSED {
        hold(
            &rt,
            is_missed(rt.alloc(), items, typ, (*arms, *value)),
            value,
        );
    }
}
