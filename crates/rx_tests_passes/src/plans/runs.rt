//! All runs of a function, and what is answered of each beside what its walks say.

ghost use Rattle.rx_exits.specs.Points.{IsReady};

use crate::plans::points::{States, Walked, is_right};
use crate::sites::walks::{Walk, walks};
use rx_check::FrontEnd;
use rx_core::{LetGo, List, Name};
use rx_exits::{At, ExitFault, ReachFault, RunPoints, exits, points, reached};
use rx_exits_jumps::home_of;
use rx_exits_plan::{Home, Run};
use rx_exits_tree::marked;
use rx_lower_order::flow_of;
use rx_typeck_typed::TypedFn;
use rx_typed::{Expr, Form, TypedTree};
use std::alloc::{AllocError, Global};

/// How many runs have a plan, how many a variable that is neither set nor unset for sure, how many one that is there in part, and
/// how many aren't reached or left.
#[derive(Clone, Copy)]
pub struct Counts {
    pub planned: usize,
    pub mixed: usize,
    pub partly: usize,
    pub unreached: usize,
}

/// What is answered of a run.
#[derive(Clone, Copy)]
enum Answer {
    Planned,
    Mixed,
    Partly,
    Unreached,
    /// Something else than the walks say.
    Wrong,
}

/// The walks of a function with marks at a run's points, and reads of some variables where the run is entered.
fn marked_walks(
    alloc: Global,
    most: usize,
    tree: &TypedTree,
    run: Run,
    loops: &[u32],
    used: &[u32],
) -> Result<Vec<Walk>, AllocError> {
    let changed = marked(alloc, tree, run, loops, used)?;
    let flow = flow_of(alloc, &changed)?;
    let found = walks(alloc, most, &flow);
    flow.let_go();
    changed.let_go();
    found
}

/// A name for each variable, and no two the same.
fn names(alloc: Global, variables: u32) -> Result<List<Name>, AllocError> {
    let mut names = List::new(alloc);
    for variable in 0..variables {
        let word = format!(in alloc; "v{variable}")?;
        names.push(Name::new(alloc, word.as_str())?)?;
    }
    Ok(names)
}

fn is_mixed(states: States) -> bool {
    (states.set || states.partly) && (states.unset || states.partly)
}

/// Whether the walks say so of a variable that is refused.
fn refused(walked: &Walked<'_>, fault: ExitFault) -> Answer {
    match fault {
        ExitFault::MixedInit { var } => {
            if is_mixed(walked.states("0", var)) {
                Answer::Mixed
            } else {
                Answer::Wrong
            }
        }
        ExitFault::PartlyMoved { var: _ } => Answer::Partly,
        ExitFault::Shadowed { var: _ } | ExitFault::OutOfMemory => Answer::Wrong,
    }
}

/// Whether the walks say so of a run that isn't reached.
fn unreached(walked: &Walked<'_>, fault: ReachFault) -> Answer {
    let right = match fault {
        ReachFault::Unreachable(At::First) => !walked.comes("0"),
        ReachFault::Unreachable(At::Last) => walked.comes("0") && !walked.comes("1"),
        ReachFault::Unreachable(At::Jump(_)) => walked.comes("0"),
        ReachFault::Endless => walked.comes("0") && !walked.comes("1") && !walked.comes("2"),
        ReachFault::OutOfMemory => false,
    };
    if right {
        Answer::Unreached
    } else {
        Answer::Wrong
    }
}

/// The plan of a run beside the walks.
fn planned(
    alloc: Global,
    function: &TypedFn,
    home: &Home<'_>,
    points: &RunPoints<'_>,
    run: Run,
    found: &[Walk],
) -> Result<Answer, AllocError>
    requires { IsReady points.now }
{
    let variables = small(function.names.len());
    let names = names(alloc, variables)?;
    let walked = Walked {
        marked: found,
        read: found,
    };
    match exits(alloc, &function.tree, home, points, run, names.as_slice()) {
        Ok(planned) => {
            let read = marked_walks(
                alloc,
                MOST,
                &function.tree,
                run,
                home.loops.as_slice(),
                planned.plan.params.as_slice(),
            )?;
            let walked = Walked {
                marked: found,
                read: read.as_slice(),
            };
            if is_right(alloc, &walked, &planned.plan, variables)? {
                Ok(Answer::Planned)
            } else {
                Ok(Answer::Wrong)
            }
        }
        Err(fault) => Ok(refused(&walked, fault)),
    }
}

/// How many actions the walks have at most.
const MOST: usize = 20;

/// A number in 32 bits, where it fits.
fn small(number: usize) -> u32 {
    if number < 4_294_967_296 {
        number as u32
    } else {
        0
    }
}

/// What is answered of a run in its block.
fn answer_of(
    alloc: Global,
    front: &FrontEnd,
    function: &TypedFn,
    home: &Home<'_>,
    run: Run,
) -> Result<Answer, AllocError> {
    let loops = home.loops.as_slice();
    let points = points(
        alloc,
        &front.typed().decls,
        front.sizes(),
        function,
        run,
        loops,
    )?;
    let found = marked_walks(alloc, MOST, &function.tree, run, loops, &[])?;
    match reached(alloc, home, &points, run) {
        Ok(()) => planned(alloc, function, home, &points, run, found.as_slice()),
        Err(fault) => {
            let walked = Walked {
                marked: found.as_slice(),
                read: found.as_slice(),
            };
            Ok(unreached(&walked, fault))
        }
    }
}

fn counted(counts: Counts, answer: Answer) -> Option<Counts> {
    let Counts {
        planned,
        mixed,
        partly,
        unreached,
    } = counts;
    match answer {
        Answer::Planned => Some(Counts {
            planned: planned.saturating_add(1),
            ..counts
        }),
        Answer::Mixed => Some(Counts {
            mixed: mixed.saturating_add(1),
            ..counts
        }),
        Answer::Partly => Some(Counts {
            partly: partly.saturating_add(1),
            ..counts
        }),
        Answer::Unreached => Some(Counts {
            unreached: unreached.saturating_add(1),
            ..counts
        }),
        Answer::Wrong => None,
    }
}

/// A run, or what was counted in front of one that is answered otherwise than the walks say.
#[derive(Drop)]
pub enum Found {
    All(Counts),
    Differs(Run),
}

/// Goes on by one run.
fn with_run(
    alloc: Global,
    front: &FrontEnd,
    function: &TypedFn,
    home: &Home<'_>,
    run: Run,
    found: Found,
) -> Result<Found, AllocError> {
    match found {
        Found::All(counts) => match counted(counts, answer_of(alloc, front, function, home, run)?) {
            Some(counts) => Ok(Found::All(counts)),
            None => Ok(Found::Differs(run)),
        },
        Found::Differs(run) => Ok(Found::Differs(run)),
    }
}

fn is_unit(expr: &Expr) -> bool {
    match &expr.form {
        Form::Unit => true,
        Form::Give(given) => match given.get().form {
            Form::Unit => true,
            _ => false,
        },
        _ => false,
    }
}

/// The runs of a block that begin at a statement.
fn with_runs_from(
    alloc: Global,
    front: &FrontEnd,
    function: &TypedFn,
    home: &Home<'_>,
    first: Run,
    found: Found,
) -> Result<Found, AllocError> {
    let mut found = found;
    let left = home.stmts.len().saturating_sub(first.first);
    for count in 0..left {
        let run = Run {
            count: count + 1,
            ..first
        };
        found = with_run(alloc, front, function, home, run, found)?;
    }
    if is_unit(home.tail) {
        return Ok(found);
    }
    let run = Run {
        count: left,
        tail: true,
        ..first
    };
    with_run(alloc, front, function, home, run, found)
}

/// The block with a node, by a run of its first statement, or of its tail alone.
fn block_of<'t>(
    alloc: Global,
    function: &'t TypedFn,
    block: usize,
) -> Result<Option<Home<'t>>, AllocError> {
    let statement = Run {
        block,
        first: 0,
        count: 1,
        tail: false,
    };
    match home_of(alloc, &function.tree, statement)? {
        Some(home) => Ok(Some(home)),
        None => {
            let tail = Run {
                count: 0,
                tail: true,
                ..statement
            };
            home_of(alloc, &function.tree, tail)
        }
    }
}

/// The runs of a block.
fn with_block(
    alloc: Global,
    front: &FrontEnd,
    function: &TypedFn,
    block: usize,
    found: Found,
) -> Result<Found, AllocError> {
    match block_of(alloc, function, block)? {
        Some(home) => {
            let mut found = found;
            for first in 0..home.stmts.len().saturating_add(1) {
                let run = Run {
                    block,
                    first,
                    count: 0,
                    tail: false,
                };
                found = with_runs_from(alloc, front, function, &home, run, found)?;
            }
            Ok(found)
        }
        None => Ok(found),
    }
}

/// What is answered of all runs of a function.
pub fn all_runs(alloc: Global, front: &FrontEnd, function: &TypedFn) -> Result<Found, AllocError> {
    let mut found = Found::All(Counts {
        planned: 0,
        mixed: 0,
        partly: 0,
        unreached: 0,
    });
    for block in 0..function.spans.len() {
        found = with_block(alloc, front, function, block, found)?;
    }
    Ok(found)
}
