//! Long chains of pairs: at the end stands all that the chain has, whichever way the pairs are listed.

use crate::closure::closing::{closed, has};
use rx_core::Bound;
use std::alloc::{AllocError, Global};
use std::process::Abort;

/// How many members the chains have, and how many numbers their sets are for.
const MEMBERS: u32 = 3000;

const NUMBERS: usize = 16_384;

/// The member of a chain at a place: the places in order, against it, or by steps of 1,009, which come to all.
fn member(way: u32, place: u32) -> u32 {
    match way {
        0 => place,
        1 => MEMBERS.saturating_sub(place.saturating_add(1)),
        _ => place.wrapping_mul(1009) % MEMBERS,
    }
}

/// Each member is longer than the next.
fn chain(alloc: Global, way: u32) -> Result<Vec<Bound>, AllocError> {
    let mut pairs = Vec::new(alloc);
    for place in 1..MEMBERS {
        pairs.push(Bound {
            long: member(way, place - 1),
            short: member(way, place),
        })?;
    }
    Ok(pairs)
}

/// Whether the first member has the last one's number, the last one no other's, and each its own.
fn reaches(alloc: Global, way: u32) -> Result<bool, AllocError> {
    let pairs = chain(alloc, way)?;
    let rows = closed(alloc, MEMBERS, NUMBERS, pairs.as_slice())?;
    let first = member(way, 0) as usize;
    let last = member(way, MEMBERS - 1) as usize;
    Ok(
        has(rows.as_slice(), first, last)
            && !has(rows.as_slice(), last, first)
            && has(rows.as_slice(), last, last),
    )
}

fn hold(rt: &impl Abort, outcome: Result<bool, AllocError>, what: &str) {
    assert!(rt; outcome == Ok(true), "{what}");
}

#[test]
fn a_chain_in_order(rt: HostRuntime) {
    hold(&rt, reaches(rt.alloc(), 0), "in order");
}

#[test]
fn a_chain_against_the_order(rt: HostRuntime) {
    hold(&rt, reaches(rt.alloc(), 1), "against the order");
}

#[test]
fn a_chain_that_goes_to_and_fro(rt: HostRuntime) {
    hold(&rt, reaches(rt.alloc(), 2), "to and fro");
}
