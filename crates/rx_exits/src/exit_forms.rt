//! Exits, by their forms.

ghost use Rattle.std.specs.Prelude.{◌≡◌, map};
ghost use Rattle.rx_exits_plan.specs.Points as points;
ghost use Rattle.rx_exits_plan.specs.PlainPlan.{plain-Exit, outs_in};
ghost use Rattle.rx_exits_plan.specs.Unreachable.{first_of};
ghost use Rattle.rx_exits_plan.specs.PlainSyntax.{plain-Jump};

use rx_exits_plan::{Exit, ExitOuts, Jump};

pub(crate) fn is_next(exit: Exit) -> bool
    ensures { result ≡ points.same_exit points.next (plain-Exit exit) }
{
    match exit {
        Exit::Next => true,
        Exit::Break(_) | Exit::Continue(_) | Exit::Return => false,
    }
}

fn is_break(exit: Exit, number: u32) -> bool
    ensures { result ≡ points.same_exit (points.breaks number) (plain-Exit exit) }
{
    match exit {
        Exit::Break(other) => number == other,
        Exit::Next | Exit::Continue(_) | Exit::Return => false,
    }
}

fn is_continue(exit: Exit, number: u32) -> bool
    ensures { result ≡ points.same_exit (points.continues number) (plain-Exit exit) }
{
    match exit {
        Exit::Continue(other) => number == other,
        Exit::Next | Exit::Break(_) | Exit::Return => false,
    }
}

pub(crate) fn is_return(exit: Exit) -> bool
    ensures { result ≡ points.same_exit points.returns (plain-Exit exit) }
{
    match exit {
        Exit::Return => true,
        Exit::Next | Exit::Break(_) | Exit::Continue(_) => false,
    }
}

fn is_same_exit(exit: Exit, other: Exit) -> bool
    ensures { result ≡ points.same_exit (plain-Exit exit) (plain-Exit other) }
{
    match exit {
        Exit::Next => is_next(other),
        Exit::Break(number) => is_break(other, number),
        Exit::Continue(number) => is_continue(other, number),
        Exit::Return => is_return(other),
    }
}

/// The node of the first jump that takes an exit.
pub(crate) fn first_jump(exit: Exit, jumps: &[Jump]) -> Option<usize>
    ensures { result ≡ first_of (plain-Exit exit) (map plain-Jump jumps.now) }
{
    for jump in jumps {
        if is_same_exit(exit, jump.exit) {
            return Some(jump.node);
        }
    }
    None
}

/// What an exit hands out; one that is not listed nothing.
pub(crate) fn outs_of(exits: &[ExitOuts], exit: Exit) -> &[u32]
    ensures { result.now ≡ outs_in exits.now (plain-Exit exit) }
{
    for each in exits {
        if is_same_exit(exit, each.exit) {
            return each.outs.as_slice();
        }
    }
    &[]
}
