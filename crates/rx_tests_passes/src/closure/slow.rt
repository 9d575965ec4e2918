//! Small lists of pairs, closed beside a slow solver: what it has for each two members is gone through again and again.

use crate::closure::closing::{closed, has};
use rx_core::Bound;
use std::alloc::{AllocError, Global};
use std::process::Abort;

/// Numbers that look like chance, each from the one before.
#[derive(Drop)]
struct Chance {
    state: u32,
}

impl Chance {
    /// The next number below a bound.
    fn below(&mut self, bound: u32) -> u32 {
        self.state = self.state.wrapping_mul(1664525).wrapping_add(1013904223);
        let number = self.state >> 16;
        if bound == 0 { 0 } else { number % bound }
    }
}

fn pairs_by_chance(
    alloc: Global,
    chance: &mut Chance,
    count: u32,
    many: u32,
) -> Result<Vec<Bound>, AllocError> {
    let mut pairs = Vec::new(alloc);
    for _pair in 0..many {
        let long = chance.below(count);
        let short = chance.below(count);
        pairs.push(Bound { long, short })?;
    }
    Ok(pairs)
}

/// Whether a mark stands at a place.
fn is_marked(marks: &[bool], place: usize) -> bool {
    match marks.get(place) {
        Some(mark) => *mark,
        None => false,
    }
}

fn mark(marks: &mut [bool], place: usize) {
    if place < marks.len() {
        marks[place] = true;
    }
}

/// The place of a member's number in a table of marks.
fn place(count: u32, member: u32, number: u32) -> usize {
    (member as usize)
        .saturating_mul(count as usize)
        .saturating_add(number as usize)
}

/// Gives the longer of a pair what the shorter has.
fn give(marks: &mut [bool], count: u32, pair: Bound) {
    for number in 0..count {
        if is_marked(marks, place(count, pair.short, number)) {
            mark(marks, place(count, pair.long, number));
        }
    }
}

/// All pairs so many times.
fn give_all(marks: &mut [bool], count: u32, pairs: &[Bound], times: u32) {
    for _time in 0..times {
        for pair in pairs {
            give(marks, count, *pair);
        }
    }
}

/// What each of so many members has: itself, and what comes along pairs.
fn slowly(alloc: Global, count: u32, pairs: &[Bound]) -> Result<Vec<bool>, AllocError> {
    let size = place(count, count, 0);
    let mut marks = vec![in alloc; false; size]?;
    for member in 0..count {
        mark(marks.as_mut_slice(), place(count, member, member));
    }
    give_all(marks.as_mut_slice(), count, pairs, count);
    Ok(marks)
}

/// The first two members of which the solvers say different things.
fn first_different(
    alloc: Global,
    count: u32,
    pairs: &[Bound],
) -> Result<Option<(u32, u32)>, AllocError> {
    let rows = closed(alloc, count, count as usize, pairs)?;
    let marks = slowly(alloc, count, pairs)?;
    for member in 0..count {
        for number in 0..count {
            let quick = has(rows.as_slice(), member as usize, number as usize);
            if quick != is_marked(marks.as_slice(), place(count, member, number)) {
                return Ok(Some((member, number)));
            }
        }
    }
    Ok(None)
}

/// Whether the solvers agree on so many lists of pairs.
fn agree(alloc: Global, lists: u32, count: u32, many: u32) -> Result<bool, AllocError> {
    let mut chance = Chance { state: many };
    for _list in 0..lists {
        let pairs = pairs_by_chance(alloc, &mut chance, count, many)?;
        if first_different(alloc, count, pairs.as_slice())? != None {
            return Ok(false);
        }
    }
    Ok(true)
}

fn hold(rt: &impl Abort, outcome: Result<bool, AllocError>, what: &str) {
    assert!(rt; outcome == Ok(true), "{what}");
}

#[test]
fn few_pairs_agree_with_a_slow_solver(rt: HostRuntime) {
    hold(&rt, agree(rt.alloc(), 200, 7, 5), "5 pairs of 7");
    hold(&rt, agree(rt.alloc(), 200, 9, 12), "12 pairs of 9");
}

#[test]
fn many_pairs_agree_with_a_slow_solver(rt: HostRuntime) {
    hold(&rt, agree(rt.alloc(), 40, 6, 30), "30 pairs of 6");
    hold(&rt, agree(rt.alloc(), 4, 40, 60), "60 pairs of 40");
}

#[test]
fn no_pairs_leave_all_as_they_were(rt: HostRuntime) {
    hold(&rt, agree(rt.alloc(), 1, 5, 0), "no pair of 5");
    hold(&rt, agree(rt.alloc(), 1, 0, 0), "no pair of none");
}
