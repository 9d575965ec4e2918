//! How a run is left.

ghost use Rattle.std.specs.Prelude.{◌≡◌, ◌++◌, ◌∷◌, [], IfOk, OnOk, if◌then◌else◌, map};
ghost use Rattle.rx_exits_plan.specs.Points as points;
ghost use Rattle.rx_exits_plan.specs.Runs as runs;
ghost use Rattle.rx_exits_plan.specs.Diverging as diverging;
ghost use Rattle.rx_exits_plan.specs.Exits as exits;
ghost use Rattle.rx_exits_plan.specs.PlainPlan.{plain-Run, plain-Exit};
ghost use Rattle.rx_exits_plan.specs.PlainSyntax.{plain-Around, plain-Home, plain-Jump, plain-Value};
ghost use Rattle.rx_exits_jumps.specs.ExitsBy.{exits_by};
ghost use Rattle.rx_exits_jumps.specs.PlainSought.{plain-Sought, plain-Found};
ghost use Rattle.rx_exits_jumps.specs.Seen.{with_spots, ways_out};

use crate::diverging::{any_diverges, diverges};
use crate::seeing::{see, see_stmts};
use crate::sought::{Found, Sought};
use rx_core::List;
use rx_exits_plan::{
    Around, Exit, Home, Jump, Run, in_front, inside, last_value, push_all_declared, reversed,
};
use rx_typed::Expr;
use std::alloc::{AllocError, Global};

// ---- jumps

/// What is around a run's first statement.
fn at_start(alloc: Global, home: &Home<'_>, run: Run) -> Result<Around, AllocError>
    ensures { IfOk result (λ it. plain-Around it ≡ exits.at_start (plain-Run run) (plain-Home home.now)) }
{
    let loops = reversed(alloc, home.loops.as_slice())?;
    let mut scope = reversed(alloc, home.scope.as_slice())?;
    push_all_declared(&mut scope, in_front(home, run))?;
    Ok(Around { scope, loops })
}

/// Adds what is sought in a value.
fn see_value<'t>(
    alloc: Global,
    value: Option<&'t Expr>,
    sought: Sought<'_>,
    around: &mut Around,
    found: &mut Found<'t>,
) -> Result<(), AllocError>
    ensures { OnOk result (plain-Found found.new ≡ with_spots (plain-Sought sought.entry) (plain-Found found.old) (exits.spots_in_value (plain-Around around.old) (plain-Value value.entry))) }
{
    match value {
        Some(expr) => see(alloc, expr, sought, around, found),
        None => Ok(()),
    }
}

/// Adds the jumps of a run, where this is around its first statement.
fn see_run<'t>(
    alloc: Global,
    home: &Home<'t>,
    run: Run,
    around: &mut Around,
    found: &mut Found<'t>,
) -> Result<(), AllocError>
    ensures { OnOk result (plain-Found found.new ≡ with_spots (ways_out home.now.loops) (plain-Found found.old)
        (exits.spots_in_statements (plain-Around around.old) (runs.inside (plain-Run run) (plain-Home home.now).body)
        ++ exits.spots_in_value (exits.past (runs.inside (plain-Run run) (plain-Home home.now).body) (plain-Around around.old)) (runs.last_value (plain-Run run) (plain-Home home.now).body))) }
{
    let sought = Sought::Jumps(home.loops.as_slice());
    see_stmts(alloc, inside(home, run), sought, around, found)?;
    see_value(alloc, last_value(home, run), sought, around, found)
}

/// The jumps that leave a run, in the order of the text.
pub fn jumps(alloc: Global, home: &Home<'_>, run: Run) -> Result<List<Jump>, AllocError>
    ensures { IfOk result (λ it. map plain-Jump it ≡ exits.jumps (plain-Run run) (plain-Home home.now)) }
{
    let mut around = at_start(alloc, home, run)?;
    let mut found = Found {
        homes: List::new(alloc),
        jumps: List::new(alloc),
    };
    see_run(alloc, home, run, &mut around, &mut found)?;
    Ok(found.jumps)
}

/// The variables in scope behind a run's last statement, the last declared first.
pub fn end_scope(alloc: Global, home: &Home<'_>, run: Run) -> Result<List<u32>, AllocError>
    ensures { IfOk result (λ it. it ≡ (exits.at_end (plain-Run run) (plain-Home home.now)).scope) }
{
    let mut around = at_start(alloc, home, run)?;
    push_all_declared(&mut around.scope, inside(home, run))?;
    reversed(alloc, around.scope.as_slice())
}

// ---- exits

fn value_diverges(value: Option<&Expr>) -> bool
    ensures { result ≡ diverging.value_diverges (plain-Value value.entry) }
{
    match value {
        Some(expr) => diverges(expr),
        None => false,
    }
}

/// Whether a run never comes to its end, by its syntax.
fn run_diverges(home: &Home<'_>, run: Run) -> bool
    ensures { result ≡ diverging.run_diverges (plain-Run run) (plain-Home home.now).body }
{
    any_diverges(inside(home, run)) || value_diverges(last_value(home, run))
}

fn same_exit(exit: Exit, other: Exit) -> bool
    ensures { result ≡ points.same_exit (plain-Exit exit) (plain-Exit other) }
{
    match exit {
        Exit::Next => is_next(other),
        Exit::Break(number) => is_break(other, number),
        Exit::Continue(number) => is_continue(other, number),
        Exit::Return => is_return(other),
    }
}

fn is_next(exit: Exit) -> bool
    ensures { result ≡ points.same_exit points.next (plain-Exit exit) }
{
    match exit {
        Exit::Next => true,
        Exit::Break(_) | Exit::Continue(_) | Exit::Return => false,
    }
}

fn is_break(exit: Exit, number: u32) -> bool
    ensures { result ≡ points.same_exit (points.breaks number) (plain-Exit exit) }
{
    match exit {
        Exit::Break(other) => number == other,
        Exit::Next | Exit::Continue(_) | Exit::Return => false,
    }
}

fn is_continue(exit: Exit, number: u32) -> bool
    ensures { result ≡ points.same_exit (points.continues number) (plain-Exit exit) }
{
    match exit {
        Exit::Continue(other) => number == other,
        Exit::Next | Exit::Break(_) | Exit::Return => false,
    }
}

fn is_return(exit: Exit) -> bool
    ensures { result ≡ points.same_exit points.returns (plain-Exit exit) }
{
    match exit {
        Exit::Return => true,
        Exit::Next | Exit::Break(_) | Exit::Continue(_) => false,
    }
}

fn is_taken(exit: Exit, jumps: &[Jump]) -> bool
    ensures { result ≡ exits.is_taken (plain-Exit exit) (map plain-Jump jumps.now) }
{
    for jump in jumps {
        if same_exit(exit, jump.exit) {
            return true;
        }
    }
    false
}

/// Adds an exit that some jump takes.
fn push_taken(taken: &mut Vec<Exit>, exit: Exit, jumps: &[Jump]) -> Result<(), AllocError>
    ensures { OnOk result (map plain-Exit taken.new.items ≡ map plain-Exit taken.old.items ++ exits.where_taken (plain-Exit exit) (map plain-Jump jumps.now)) }
{
    if is_taken(exit, jumps) {
        push_exit(taken, exit)
    } else {
        Ok(())
    }
}

fn push_exit(exits: &mut Vec<Exit>, exit: Exit) -> Result<(), AllocError>
    ensures { OnOk result (exits.new.items ≡ exits.old.items ++ exit ∷ []) }
{
    match exits.push(exit) {
        Ok(()) => Ok(()),
        Err(_) => Err(AllocError),
    }
}

/// Adds the exits out of a loop.
fn push_loop(taken: &mut Vec<Exit>, number: u32, jumps: &[Jump]) -> Result<(), AllocError>
    ensures { OnOk result (map plain-Exit taken.new.items ≡ map plain-Exit taken.old.items
        ++ (exits.where_taken (points.breaks number) (map plain-Jump jumps.now) ++ exits.where_taken (points.continues number) (map plain-Jump jumps.now))) }
{
    push_taken(taken, Exit::Break(number), jumps)?;
    push_taken(taken, Exit::Continue(number), jumps)
}

fn push_loops(taken: &mut Vec<Exit>, loops: &[u32], jumps: &[Jump]) -> Result<(), AllocError>
    ensures { OnOk result (map plain-Exit taken.new.items ≡ map plain-Exit taken.old.items ++ exits.of_loops loops.now (map plain-Jump jumps.now)) }
{
    for number in loops {
        push_loop(taken, *number, jumps)?;
    }
    Ok(())
}

fn push_end(taken: &mut Vec<Exit>, home: &Home<'_>, run: Run) -> Result<(), AllocError>
    ensures { OnOk result (map plain-Exit taken.new.items ≡ map plain-Exit taken.old.items
        ++ (if diverging.run_diverges (plain-Run run) (plain-Home home.now).body then [] else points.next ∷ [])) }
{
    if run_diverges(home, run) {
        Ok(())
    } else {
        push_exit(taken, Exit::Next)
    }
}

/// The exits of a run that has these jumps: its end, a `break` and a `continue` of each loop around it, the innermost
/// first, `return`.
pub fn exits(
    alloc: Global,
    home: &Home<'_>,
    run: Run,
    jumps: &[Jump],
) -> Result<List<Exit>, AllocError>
    ensures { IfOk result (λ it. map plain-Exit it ≡ exits_by (map plain-Jump jumps.now) (plain-Run run) (plain-Home home.now)) }
{
    let mut taken = Vec::new(alloc);
    push_end(&mut taken, home, run)?;
    push_loops(&mut taken, home.loops.as_slice(), jumps)?;
    push_taken(&mut taken, Exit::Return, jumps)?;
    Ok(List::from_vec(taken))
}
