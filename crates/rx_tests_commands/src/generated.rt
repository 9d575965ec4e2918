//! The command `gen`: what is told of texts that are made, and that nothing is read for them.

use crate::failing::{expect, refused, sound};
use std::process::Abort;

/// Nothing is read: the first read would fail.
fn tells(rt: &impl Abort, alloc: std::alloc::Global, line: &str, told: &str) {
    let mut case = sound(line, b"", told.as_bytes());
    case.read = Some(0);
    expect(rt, alloc, &case);
}

#[test]
fn a_text_that_is_made_is_told_of(rt: HostRuntime) {
    tells(&rt, rt.alloc(), "gen 1", "text 290\nanswer 552\n316\n316\n");
    tells(
        &rt,
        rt.alloc(),
        "gen 0001",
        "text 290\nanswer 552\n316\n316\n",
    );
    tells(
        &rt,
        rt.alloc(),
        "gen 10",
        "text 2288\nanswer 2550\n3205\n3205\n",
    );
}

#[test]
fn the_largest_text_is_told_of(rt: HostRuntime) {
    tells(
        &rt,
        rt.alloc(),
        "gen 1000",
        "text 225848\nanswer 226110\n815500\n815500\n",
    );
}

#[test]
fn what_is_told_is_cut_where_a_write_fails(rt: HostRuntime) {
    let mut case = refused("gen 1", b"", 5, "error: WriteFault\n");
    case.read = Some(0);
    case.out_room = 7;
    case.out = b"text 29";
    expect(&rt, rt.alloc(), &case);
}

#[test]
fn other_numbers_are_usage_and_nothing_is_read(rt: HostRuntime) {
    for line in [
        "gen",
        "gen 0",
        "gen 0000",
        "gen 1001",
        "gen 00001",
        "gen 1 2",
        "gen -1",
        "gen x",
        "gen 1x",
    ] {
        let mut case = refused(line, b"", 2, "error: Usage\n");
        case.read = Some(0);
        expect(&rt, rt.alloc(), &case);
    }
}
