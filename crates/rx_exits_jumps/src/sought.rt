//! What is sought in a tree, and what was found.

ghost use Rattle.std.specs.Prelude.{◌≡◌, ◌∷◌, [], IfOk, OnOk, map};
ghost use Rattle.rx_typed.specs.PlainTree.{plain-Expr, plain-Stmt, nested_of};
ghost use Rattle.rx_exits_plan.specs.Spots.{a_block, a_jump, a_return};
ghost use Rattle.rx_exits_plan.specs.Points as points;
ghost use Rattle.rx_exits_plan.specs.Marked.{is_among};
ghost use Rattle.rx_exits_plan.specs.PlainPlan.{plain-Run, plain-Exit};
ghost use Rattle.rx_exits_plan.specs.PlainSyntax.{plain-Around, plain-Home, plain-Jump};
ghost use Rattle.rx_exits_jumps.specs.PlainSought.{plain-Sought, plain-Found};
ghost use Rattle.rx_exits_jumps.specs.Seen as seen;

use rx_core::{LetGo, List};
use rx_exits_plan::{Around, Exit, Home, Jump, Run, reversed};
use rx_typed::{Expr, Stmt};
use std::alloc::{AllocError, Global};

#[derive(Clone, Copy)]
pub(crate) enum Sought<'s> {
    /// Blocks that have the run.
    Blocks(Run),
    /// Jumps out of these loops, or out of the function.
    Jumps(&'s [u32]),
}

#[derive(Drop)]
pub(crate) struct Found<'t> {
    pub homes: List<Home<'t>>,
    pub jumps: List<Jump>,
}

impl<'t> LetGo for Found<'t> {
    fn let_go(self) {
        self.homes.let_go();
        self.jumps.let_go();
    }
}

/// Whether a block of so many statements has the run's.
fn has_run(run: Run, length: usize) -> bool
    ensures { result ≡ seen.has_run (plain-Run run) length }
{
    if run.first <= length && run.count <= length - run.first {
        if run.tail {
            run.first + run.count == length
        } else {
            0 < run.count
        }
    } else {
        false
    }
}

fn is_among(number: u32, numbers: &[u32]) -> bool
    ensures { result ≡ is_among number numbers.now }
{
    for other in numbers {
        if number == *other {
            return true;
        }
    }
    false
}

fn home_at<'t>(
    alloc: Global,
    around: &Around,
    stmts: &'t [Stmt],
    tail: &'t Expr,
) -> Result<Home<'t>, AllocError>
    ensures { IfOk result (λ it. plain-Home it ≡ record { around = plain-Around around.now; body = nested_of (map plain-Stmt stmts.now) (plain-Expr tail.now) }) }
{
    let scope = reversed(alloc, around.scope.as_slice())?;
    let loops = reversed(alloc, around.loops.as_slice())?;
    Ok(Home {
        scope,
        loops,
        stmts,
        tail,
    })
}

fn jump_at(alloc: Global, around: &Around, exit: Exit, node: usize) -> Result<Jump, AllocError>
    ensures { IfOk result (λ it. plain-Jump it ≡ record { exit = plain-Exit exit; node = node; scope = (plain-Around around.now).scope }) }
{
    let scope = reversed(alloc, around.scope.as_slice())?;
    Ok(Jump { exit, node, scope })
}

/// Adds a block where it is sought.
pub(crate) fn meet_block<'t>(
    alloc: Global,
    sought: Sought<'_>,
    around: &Around,
    found: &mut Found<'t>,
    node: usize,
    stmts: &'t [Stmt],
    tail: &'t Expr,
) -> Result<(), AllocError>
    ensures { OnOk result (plain-Found found.new ≡ seen.with_spots (plain-Sought sought.entry) (plain-Found found.old)
        (a_block (plain-Around around.now) node (nested_of (map plain-Stmt stmts.now) (plain-Expr tail.now)) ∷ [])) }
{
    match sought {
        Sought::Blocks(run) => {
            if node == run.block && has_run(run, stmts.len()) {
                let home = home_at(alloc, around, stmts, tail)?;
                found.homes.push(home)?;
            }
            Ok(())
        }
        Sought::Jumps(_) => Ok(()),
    }
}

/// Adds a `break` or `continue` where it is sought.
pub(crate) fn meet_jump<'t>(
    alloc: Global,
    sought: Sought<'_>,
    around: &Around,
    found: &mut Found<'t>,
    node: usize,
    number: u32,
    again: bool,
) -> Result<(), AllocError>
    ensures { OnOk result (plain-Found found.new ≡ seen.with_spots (plain-Sought sought.entry) (plain-Found found.old)
        (a_jump (plain-Around around.now) node number again ∷ [])) }
{
    match sought {
        Sought::Blocks(_) => Ok(()),
        Sought::Jumps(loops) => {
            if is_among(number, loops) {
                let jump = jump_at(alloc, around, jump_exit(number, again), node)?;
                found.jumps.push(jump)?;
            }
            Ok(())
        }
    }
}

/// Adds a `return` where it is sought.
pub(crate) fn meet_return<'t>(
    alloc: Global,
    sought: Sought<'_>,
    around: &Around,
    found: &mut Found<'t>,
    node: usize,
) -> Result<(), AllocError>
    ensures { OnOk result (plain-Found found.new ≡ seen.with_spots (plain-Sought sought.entry) (plain-Found found.old)
        (a_return (plain-Around around.now) node ∷ [])) }
{
    match sought {
        Sought::Blocks(_) => Ok(()),
        Sought::Jumps(_) => {
            let jump = jump_at(alloc, around, Exit::Return, node)?;
            found.jumps.push(jump)
        }
    }
}

/// How a `break` or `continue` leaves.
fn jump_exit(number: u32, again: bool) -> Exit
    ensures { plain-Exit result ≡ points.jump_exit number again }
{
    if again {
        Exit::Continue(number)
    } else {
        Exit::Break(number)
    }
}
