//! An order of pairs, in which most come behind those that add to their shorter member.
//!
//! Nothing is proved of the order but that it is found: it changes nothing but the time.

use rx_core::Bound;
use std::alloc::{AllocError, Global};

/// A member of pairs on the search's stack.
#[derive(Clone, Copy)]
struct Entry {
    node: usize,
    /// Whether all that the member is longer than were put above it.
    expanded: bool,
}

/// By their longer member, the places of pairs.
fn by_longer(alloc: Global, pairs: &[Bound], count: usize) -> Result<Vec<Vec<usize>>, AllocError> {
    let mut lists = Vec::new(alloc);
    for _list in 0..count {
        lists.push(Vec::new(alloc))?;
    }
    for at in 0..pairs.len() {
        add_at(lists.as_mut_slice(), pairs[at].long as usize, at)?;
    }
    Ok(lists)
}

fn add_at(lists: &mut [Vec<usize>], node: usize, at: usize) -> Result<(), AllocError> {
    if node < lists.len() {
        lists[node].push(at)?;
    }
    Ok(())
}

/// The places of the pairs whose longer member this is.
fn pairs_at(lists: &[Vec<usize>], node: usize) -> &[usize] {
    match lists.get(node) {
        Some(list) => list.as_slice(),
        None => &[],
    }
}

/// Puts the shorter members of these pairs on the stack.
fn push_shorter(
    stack: &mut Vec<Entry>,
    pairs: &[Bound],
    places: &[usize],
) -> Result<(), AllocError> {
    for place in places {
        match pairs.get(*place) {
            Some(pair) => stack.push(Entry {
                node: pair.short as usize,
                expanded: false,
            })?,
            None => {}
        }
    }
    Ok(())
}

fn push_places(order: &mut Vec<usize>, places: &[usize]) -> Result<(), AllocError> {
    for place in places {
        order.push(*place)?;
    }
    Ok(())
}

/// Whether a member was not met before; it is now.
fn meets(seen: &mut [bool], node: usize) -> bool {
    if node < seen.len() {
        let new = !seen[node];
        seen[node] = true;
        new
    } else {
        false
    }
}

/// Takes an entry from the stack. The pairs of a member go to the end of the order once those of all that it is longer than
/// have gone.
fn visit(
    pairs: &[Bound],
    lists: &[Vec<usize>],
    seen: &mut [bool],
    stack: &mut Vec<Entry>,
    order: &mut Vec<usize>,
) -> Result<(), AllocError> {
    match stack.pop() {
        Some(entry) => {
            let places = pairs_at(lists, entry.node);
            if entry.expanded {
                push_places(order, places)
            } else if meets(seen, entry.node) {
                stack.push(Entry {
                    node: entry.node,
                    expanded: true,
                })?;
                push_shorter(stack, pairs, places)
            } else {
                Ok(())
            }
        }
        None => Ok(()),
    }
}

/// A stack of so many members.
fn all_entries(alloc: Global, count: usize) -> Result<Vec<Entry>, AllocError> {
    let mut stack = Vec::new(alloc);
    for node in 0..count {
        stack.push(Entry {
            node,
            expanded: false,
        })?;
    }
    Ok(stack)
}

/// The places of pairs of so many members, in the order in which a search depth-first leaves their longer members.
pub(crate) fn order(
    alloc: Global,
    pairs: &[Bound],
    count: usize,
) -> Result<Vec<usize>, AllocError> {
    let lists = by_longer(alloc, pairs, count)?;
    let mut seen = vec![in alloc; false; count]?;
    let mut stack = all_entries(alloc, count)?;
    let mut order = Vec::new(alloc);
    let turns = count.saturating_add(count).saturating_add(pairs.len());
    for _turn in 0..turns {
        visit(
            pairs,
            lists.as_slice(),
            seen.as_mut_slice(),
            &mut stack,
            &mut order,
        )?;
    }
    Ok(order)
}
