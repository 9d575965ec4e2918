//! The walks of a flow up to a length, by the rules that say what a walk is: slow, and with nothing of how graphs are made.

use crate::sites::said::action_text;
use rx_lower_walks::{Action, Exit, Flow, Item};
use rx_tests_tables::joined;
use std::alloc::{AllocError, Global};

/// How a walk of a part ends.
#[derive(Clone, Copy, Debug, PartialEq, Eq)]
pub enum Out {
    On,
    /// The jump, and the loop's number.
    Breaks(usize, u32),
    Continues(usize, u32),
    Returns(usize),
    /// A test of an arm has failed.
    Fails,
    Stopped,
}

/// The actions of a walk as a text, how many there are, and how it ends.
#[derive(Drop)]
pub struct Walk {
    pub text: String,
    pub length: usize,
    pub out: Out,
}

fn is_there(walks: &[Walk], text: &str, out: Out) -> bool {
    for walk in walks {
        if walk.out == out && walk.text.as_str() == text {
            return true;
        }
    }
    false
}

/// Adds a walk that isn't there yet and isn't too long.
fn push_new(walks: &mut Vec<Walk>, most: usize, walk: Walk) -> Result<(), AllocError> {
    if walk.length > most || is_there(walks.as_slice(), walk.text.as_str(), walk.out) {
        return Ok(());
    }
    walks.push(walk)?;
    Ok(())
}

fn push_short(
    alloc: Global,
    walks: &mut Vec<Walk>,
    most: usize,
    text: &str,
    length: usize,
    out: Out,
) -> Result<(), AllocError> {
    let text = String::from_str(alloc, text)?;
    push_new(walks, most, Walk { text, length, out })
}

/// One behind another.
fn push_joined(
    alloc: Global,
    walks: &mut Vec<Walk>,
    most: usize,
    front: &Walk,
    back: &Walk,
) -> Result<(), AllocError> {
    let text = joined(alloc, front.text.as_str(), back.text.as_str())?;
    let length = front.length.saturating_add(back.length);
    let out = back.out;
    push_new(walks, most, Walk { text, length, out })
}

/// A part may stop before it begins.
fn resting(alloc: Global) -> Result<Vec<Walk>, AllocError> {
    let mut walks = Vec::new(alloc);
    push_short(alloc, &mut walks, 0, "", 0, Out::Stopped)?;
    Ok(walks)
}

/// A part without an action, which ends so.
fn silent(alloc: Global, out: Out) -> Result<Vec<Walk>, AllocError> {
    let mut walks = resting(alloc)?;
    push_short(alloc, &mut walks, 0, "", 0, out)?;
    Ok(walks)
}

fn exit_out(exit: Exit) -> Out {
    match exit {
        Exit::Breaks(node, number) => Out::Breaks(node, number),
        Exit::Continues(node, number) => Out::Continues(node, number),
        Exit::Returns(node) => Out::Returns(node),
    }
}

fn acting(alloc: Global, most: usize, action: &Action) -> Result<Vec<Walk>, AllocError> {
    let mut walks = resting(alloc)?;
    let text = action_text(alloc, action)?;
    push_short(alloc, &mut walks, most, text.as_str(), 1, Out::On)?;
    Ok(walks)
}

/// All of these behind one.
fn push_all(
    alloc: Global,
    walks: &mut Vec<Walk>,
    most: usize,
    front: &Walk,
    backs: &[Walk],
) -> Result<(), AllocError> {
    for back in backs {
        push_joined(alloc, walks, most, front, back)?;
    }
    Ok(())
}

/// Where the first part ends so, the second comes.
fn followed(
    alloc: Global,
    most: usize,
    first: &[Walk],
    out: Out,
    second: &[Walk],
) -> Result<Vec<Walk>, AllocError> {
    let mut walks = Vec::new(alloc);
    for walk in first {
        if walk.out == out {
            push_all(alloc, &mut walks, most, walk, second)?;
        } else {
            push_short(
                alloc,
                &mut walks,
                most,
                walk.text.as_str(),
                walk.length,
                walk.out,
            )?;
        }
    }
    Ok(walks)
}

/// The end of a variable at a node, behind a walk.
fn push_ended(
    alloc: Global,
    walks: &mut Vec<Walk>,
    most: usize,
    walk: &Walk,
    node: usize,
    variable: u32,
) -> Result<(), AllocError> {
    let text = format!(in alloc; "{node}: dead {variable};")?;
    let last = Walk {
        text,
        length: 1,
        out: walk.out,
    };
    push_joined(alloc, walks, most, walk, &last)
}

/// A variable ends where the part does: at this node, or at the jump's. A walk may stop before.
fn ended(
    alloc: Global,
    most: usize,
    walks: &[Walk],
    node: usize,
    variable: u32,
) -> Result<Vec<Walk>, AllocError> {
    let mut all = Vec::new(alloc);
    for walk in walks {
        push_short(
            alloc,
            &mut all,
            most,
            walk.text.as_str(),
            walk.length,
            Out::Stopped,
        )?;
        match walk.out {
            Out::On => push_ended(alloc, &mut all, most, walk, node, variable)?,
            Out::Breaks(jump, _) | Out::Continues(jump, _) | Out::Returns(jump) => {
                push_ended(alloc, &mut all, most, walk, jump, variable)?
            }
            Out::Fails | Out::Stopped => {}
        }
    }
    Ok(all)
}

fn both(alloc: Global, most: usize, one: &[Walk], other: &[Walk]) -> Result<Vec<Walk>, AllocError> {
    let none = Walk {
        text: String::new(alloc),
        length: 0,
        out: Out::On,
    };
    let mut all = Vec::new(alloc);
    push_all(alloc, &mut all, most, &none, one)?;
    push_all(alloc, &mut all, most, &none, other)?;
    Ok(all)
}

/// How a loop ends by a pass that ends so: it may be no last pass.
fn left(number: u32, out: Out) -> Option<Out> {
    match out {
        Out::On | Out::Fails => None,
        Out::Breaks(jump, at) => {
            if at == number {
                Some(Out::On)
            } else {
                Some(Out::Breaks(jump, at))
            }
        }
        Out::Continues(jump, at) => {
            if at == number {
                None
            } else {
                Some(Out::Continues(jump, at))
            }
        }
        Out::Returns(jump) => Some(Out::Returns(jump)),
        Out::Stopped => Some(Out::Stopped),
    }
}

/// Whether another pass may come behind one that ends so.
fn passed(number: u32, out: Out) -> bool {
    match out {
        Out::On => true,
        Out::Continues(_, at) => at == number,
        Out::Breaks(_, _) | Out::Returns(_) | Out::Fails | Out::Stopped => false,
    }
}

fn push_left(
    alloc: Global,
    found: &mut Vec<Walk>,
    most: usize,
    number: u32,
    walks: &[Walk],
) -> Result<(), AllocError> {
    for walk in walks {
        if let Some(out) = left(number, walk.out) {
            push_short(alloc, found, most, walk.text.as_str(), walk.length, out)?;
        }
    }
    Ok(())
}

fn going_on(
    alloc: Global,
    most: usize,
    number: u32,
    walks: &[Walk],
) -> Result<Vec<Walk>, AllocError> {
    let mut all = Vec::new(alloc);
    for walk in walks {
        if passed(number, walk.out) {
            push_short(
                alloc,
                &mut all,
                most,
                walk.text.as_str(),
                walk.length,
                Out::On,
            )?;
        }
    }
    Ok(all)
}

/// Any number of passes: one without an action adds nothing, so there are few to go through.
fn passes(alloc: Global, most: usize, number: u32, body: &[Walk]) -> Result<Vec<Walk>, AllocError> {
    let mut found = resting(alloc)?;
    let mut begun = silent(alloc, Out::On)?;
    for _pass in 0..most.saturating_add(1) {
        let all = followed(alloc, most, begun.as_slice(), Out::On, body)?;
        push_left(alloc, &mut found, most, number, all.as_slice())?;
        begun = going_on(alloc, most, number, all.as_slice())?;
    }
    Ok(found)
}

/// The walks of a flow with at most so many actions.
#[cycle(walks)]
pub fn walks(alloc: Global, most: usize, flow: &Flow) -> Result<Vec<Walk>, AllocError> {
    match flow {
        Flow::Nothing => silent(alloc, Out::On),
        Flow::Nowhere => resting(alloc),
        Flow::Act(action) => acting(alloc, most, action),
        Flow::Items(items, last) => items_walks(alloc, most, items.as_slice(), last.get()),
        Flow::Or(one, other) => or_walks(alloc, most, one.get(), other.get()),
        Flow::Leave(exit) => silent(alloc, exit_out(*exit)),
        Flow::Passes(number, body) => passes_walks(alloc, most, *number, body.get()),
    }
}

#[cycle(walks)]
fn or_walks(alloc: Global, most: usize, one: &Flow, other: &Flow) -> Result<Vec<Walk>, AllocError> {
    let one = walks(alloc, most, one)?;
    let other = walks(alloc, most, other)?;
    both(alloc, most, one.as_slice(), other.as_slice())
}

#[cycle(walks)]
fn passes_walks(
    alloc: Global,
    most: usize,
    number: u32,
    body: &Flow,
) -> Result<Vec<Walk>, AllocError> {
    let body = walks(alloc, most, body)?;
    passes(alloc, most, number, body.as_slice())
}

/// An item in front of what follows it.
#[cycle(walks)]
fn item_walks(
    alloc: Global,
    most: usize,
    item: &Item,
    rest: &[Walk],
) -> Result<Vec<Walk>, AllocError> {
    match item {
        Item::Do(flow) => {
            let own = walks(alloc, most, flow)?;
            followed(alloc, most, own.as_slice(), Out::On, rest)
        }
        Item::Ends(node, variable) => ended(alloc, most, rest, *node, *variable),
        Item::May => {
            let fails = silent(alloc, Out::Fails)?;
            both(alloc, most, rest, fails.as_slice())
        }
        Item::Else(flow) => {
            let own = walks(alloc, most, flow)?;
            followed(alloc, most, own.as_slice(), Out::Fails, rest)
        }
    }
}

#[cycle(walks)]
fn items_walks(
    alloc: Global,
    most: usize,
    items: &[Item],
    last: &Flow,
) -> Result<Vec<Walk>, AllocError> {
    let mut rest = walks(alloc, most, last)?;
    for turn in 0..items.len() {
        rest = item_walks(alloc, most, &items[items.len() - 1 - turn], rest.as_slice())?;
    }
    Ok(rest)
}
