//! The sites that follow a part.

ghost use Rattle.std.specs.Prelude.{◌≡◌, [], ◌∷◌, ◌++◌, IfOk, OnOk, ℕ, List as ListOf};
ghost use Rattle.rx_lower_walks.specs.Orders.{exit_node};
ghost use Rattle.rx_lower_walks.specs.Pieces as pieces;
ghost use Rattle.rx_lower_walks.specs.PlainFlow.{plain-Exit};
ghost use Rattle.rx_lower_walks.specs.Around.{exits};
ghost use Rattle.rx_lower_walks.specs.Emitted.{way_of, entered};

use crate::Exit;
use crate::around::{Loop, after_in, head_in};
use crate::numbers::place;
use crate::sums::{Begin, Way};
use rx_core::List;
use std::alloc::{AllocError, Global};

fn push_all(all: &mut List<u32>, more: &[u32]) -> Result<(), AllocError>
    ensures { OnOk result (all.new ≡ all.old ++ more.now) }
{
    for one in more {
        all.push(*one)?;
    }
    Ok(())
}

fn push_after(
    alloc: Global,
    all: &mut List<u32>,
    number: u32,
    loops: &[Loop],
) -> Result<(), AllocError>
    ensures { OnOk result (all.new ≡ all.old ++ exits [] [] loops.now (pieces.breaking number)) }
{
    let after = after_in(alloc, number, loops)?;
    push_all(all, after.as_slice())
}

fn push_head(
    alloc: Global,
    all: &mut List<u32>,
    number: u32,
    loops: &[Loop],
) -> Result<(), AllocError>
    ensures { OnOk result (all.new ≡ all.old ++ exits [] [] loops.now (pieces.continuing number)) }
{
    let head = head_in(alloc, number, loops)?;
    push_all(all, head.as_slice())
}

/// Where a way leads.
fn push_exits(
    alloc: Global,
    all: &mut List<u32>,
    way: Way,
    on: &[u32],
    fails: &[u32],
    loops: &[Loop],
) -> Result<(), AllocError>
    ensures { OnOk result (all.new ≡ all.old ++ exits on.now fails.now loops.now (way_of way)) }
{
    match way {
        Way::Ahead => push_all(all, on),
        Way::Breaking(l) => push_after(alloc, all, l, loops),
        Way::Continuing(l) => push_head(alloc, all, l, loops),
        Way::Returning => Ok(()),
        Way::Failing => push_all(all, fails),
    }
}

/// Where a jump leads, once variables have ended.
pub fn exit_sites(alloc: Global, exit: Exit, loops: &[Loop]) -> Result<List<u32>, AllocError>
    ensures { IfOk result (λ it. (on fails : ListOf ℕ) → it ≡ exits on fails loops.now (pieces.exit_way (plain-Exit exit))) }
{
    match exit {
        Exit::Breaks(_, l) => after_in(alloc, l, loops),
        Exit::Continues(_, l) => head_in(alloc, l, loops),
        Exit::Returns(_) => Ok(List::new(alloc)),
    }
}

pub fn exit_node(exit: Exit) -> usize
    ensures { result ≡ exit_node (plain-Exit exit) }
{
    match exit {
        Exit::Breaks(node, _) => node,
        Exit::Continues(node, _) => node,
        Exit::Returns(node) => node,
    }
}

fn push_entry(
    alloc: Global,
    all: &mut List<u32>,
    begin: Begin,
    at: u32,
    on: &[u32],
    fails: &[u32],
    loops: &[Loop],
) -> Result<(), AllocError>
    ensures { OnOk result ((bs : ListOf Begin) → all.old ++ entered (begin ∷ bs) at (exits on.now fails.now loops.now)
        ≡ all.new ++ entered bs at (exits on.now fails.now loops.now)) }
{
    match begin {
        Begin::Starts(i) => all.push(place(at, i)),
        Begin::Through(way) => push_exits(alloc, all, way, on, fails, loops),
    }
}

/// The sites that a part begins at, by the number of its first site, what follows it, and what comes where a test has failed.
pub fn entered(
    alloc: Global,
    begins: &[Begin],
    at: u32,
    on: &[u32],
    fails: &[u32],
    loops: &[Loop],
) -> Result<List<u32>, AllocError>
    ensures { IfOk result (λ it. it ≡ entered begins.now at (exits on.now fails.now loops.now)) }
{
    let mut all = List::new(alloc);
    for begin in begins {
        push_entry(alloc, &mut all, *begin, at, on, fails, loops)?;
    }
    Ok(all)
}
