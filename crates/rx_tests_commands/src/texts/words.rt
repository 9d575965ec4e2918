//! Words that are compared and copied, identifiers, and lists that are held while a step may fail.

use crate::holding::{all_hold, hold};
use rx_core::{
    LetGo, List, Text, is_among, is_among_names, is_among_texts, is_same, is_same_name,
    is_same_text, keep, pushed,
};
use rx_lex::is_identifier;
use rx_tests_tables::{LINES, Outcome};
use std::alloc::{AllocError, Global};

fn words_are_compared() -> bool {
    is_same_text("fee", "fee")
        && !is_same_text("fee", "fe")
        && is_same(b"a", b"a")
        && !is_same(b"a", b"b")
        && is_among(b"b", &[b"a", b"b"])
        && !is_among(b"c", &[b"a", b"b"])
        && is_among_texts("b", &["a", "b"])
        && !is_among_texts("", &["a", "b"])
}

fn number_of(value: u64) -> Result<u64, AllocError> {
    Ok(value)
}

/// Whether a list of one name is held over a step, with the name in it and not the other.
fn is_kept(names: List<Text>, name: &Text, other: &Text) -> Outcome {
    let (number, names) = keep(names, number_of(7))?;
    let is_among = is_among_names(name, names.as_slice());
    let is_alone = names.len() == 1 && !is_among_names(other, names.as_slice());
    names.let_go();
    Ok(number == 7 && is_among && is_alone)
}

fn names_are_compared(alloc: Global) -> Outcome {
    let name = Text::new(alloc, "fee")?;
    let other = Text::new(alloc, "feed")?;
    let copy = name.copy(alloc)?;
    let is_told = is_same_name(&name, &copy) && !is_same_name(&name, &other);
    let names = pushed(List::new(alloc), copy)?;
    Ok(is_kept(names, &name, &other)? && is_told)
}

#[test]
fn words_are_compared_by_their_bytes(rt: HostRuntime) {
    hold(&rt, Ok(words_are_compared()), "words");
    hold(&rt, names_are_compared(rt.alloc()), "names");
}

fn is_name(alloc: Global, word: &str, want: &str) -> Outcome {
    Ok(is_identifier(alloc, word)? == (want == "yes"))
}

const NAMES: &str = "\
x | yes
_x1 | yes
имя | yes
_ | no
fn | no
9x | no
a b | no
 | no";

#[test]
fn names_of_functions_are_identifiers(rt: HostRuntime) {
    all_hold(&rt, rt.alloc(), NAMES, LINES, is_name);
}
