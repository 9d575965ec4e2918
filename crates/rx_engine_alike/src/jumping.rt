//! Jumps of both: loops of the text with those of the answer, and how a run is left.

ghost use Rattle.std.specs.Prelude.{◌≡◌, true, false, ◌&&◌, [], ◌∷◌, ◌++◌, IfOk, OnOk, option_map, map};
ghost use Rattle.rx_exits_plan.specs.Points as points;
ghost use Rattle.rx_exits_plan.specs.PlainPlan.{plain-Exit, outs_in};
ghost use Rattle.rx_exits_plan.specs.declared.plan.ExitOuts as listed;
ghost use Rattle.rx_engine_related.specs.Leaving.{place_from, pack_if};
ghost use Rattle.rx_engine_simulation.specs.Jumps as jumps;
ghost use Rattle.rx_engine_alike.specs.Likeness.{is_none};
ghost use Rattle.rx_engine_alike.specs.Leaving as leaving;
ghost use Rattle.rx_engine_alike.specs.PlainJumping.{plain-Loops, plain-Pack, plain-Leaving};

use rx_core::{LetGo, List};
use rx_exits_plan::{Exit, ExitOuts, ExitPlan};
use std::alloc::{AllocError, Global};

/// A loop of the text, and the answer's for it.
#[derive(Clone, Copy)]
pub struct LoopPair {
    pub text: u32,
    pub answer: u32,
}

impl LetGo for LoopPair {
    fn let_go(self) {}
}

/// A jump that leaves the run: its variant, and the variables that it hands out.
#[derive(Clone, Copy)]
pub struct Pack<'p> {
    pub variant: usize,
    pub outs: &'p [u32],
}

/// Which jumps leave the run.
#[derive(Clone, Copy)]
pub enum Leaving<'p> {
    /// None.
    Nowhere,
    /// The exits of a plan, each by the variant of its number.
    ByPlan(&'p ExitPlan),
}

/// What a return is in the answer; a variant by its number.
#[derive(Clone, Copy)]
pub enum Returning {
    AsReturn,
    WithValue(usize),
    /// Without a value, which is the unit.
    WithUnit(usize),
    NoReturn,
}

#[derive(Drop)]
pub struct Jumping<'p> {
    /// The innermost first.
    pub loops: List<LoopPair>,
    pub leaving: Leaving<'p>,
    pub returning: Returning,
}

/// Whether the answer's loop is none of these.
pub fn is_apart(loops: &[LoopPair], number: u32) -> bool
    ensures { result ≡ leaving.is_apart (plain-Loops loops.now) number }
{
    for pair in loops {
        if pair.answer == number {
            return false;
        }
    }
    true
}

/// The answer's loop for a loop of the text.
pub fn loop_of(loops: &[LoopPair], number: u32) -> Option<u32>
    ensures { result ≡ jumps.loop_of (plain-Loops loops.now) number }
{
    for pair in loops {
        if number == pair.text {
            return Some(pair.answer);
        }
    }
    None
}

/// Whether the answer's loop for a loop of the text is this one.
pub fn is_loop(loops: &[LoopPair], number: u32, other: u32) -> bool
    ensures { result ≡ leaving.is_number (jumps.loop_of (plain-Loops loops.now) number) other }
{
    match loop_of(loops, number) {
        Some(answer) => answer == other,
        None => false,
    }
}

fn jump_exit(number: u32, again: bool) -> Exit
    ensures { plain-Exit result ≡ points.jump_exit number again }
{
    if again {
        Exit::Continue(number)
    } else {
        Exit::Break(number)
    }
}

pub fn same_exit(exit: Exit, other: Exit) -> bool
    ensures { result ≡ points.same_exit (plain-Exit exit) (plain-Exit other) }
{
    match exit {
        Exit::Next => match other {
            Exit::Next => true,
            Exit::Break(_) | Exit::Continue(_) | Exit::Return => false,
        },
        Exit::Break(number) => match other {
            Exit::Break(second) => number == second,
            Exit::Next | Exit::Continue(_) | Exit::Return => false,
        },
        Exit::Continue(number) => match other {
            Exit::Continue(second) => number == second,
            Exit::Next | Exit::Break(_) | Exit::Return => false,
        },
        Exit::Return => match other {
            Exit::Return => true,
            Exit::Next | Exit::Break(_) | Exit::Continue(_) => false,
        },
    }
}

/// The exit's number among these, and what it hands out.
pub fn pack_among<'p>(exits: &'p [ExitOuts], exit: Exit) -> Option<Pack<'p>>
    ensures { option_map plain-Pack result
        ≡ pack_if (outs_in exits.now (plain-Exit exit)) (place_from 0 (plain-Exit exit) (map (λ (e : listed.ExitOuts). plain-Exit e.exit) exits.now)) }
{
    for variant in 0..exits.len() {
        let listed = &exits[variant];
        if same_exit(exit, listed.exit) {
            return Some(Pack {
                variant,
                outs: listed.outs.as_slice(),
            });
        }
    }
    None
}

/// How a jump leaves the run.
pub fn pack_of<'p>(leaving: Leaving<'p>, number: u32, again: bool) -> Option<Pack<'p>>
    ensures { option_map plain-Pack result ≡ plain-Leaving leaving.entry number again }
{
    match leaving {
        Leaving::Nowhere => None,
        Leaving::ByPlan(plan) => pack_among(plan.exits.as_slice(), jump_exit(number, again)),
    }
}

/// Whether this jump stays.
fn stays(leaving: Leaving<'_>, number: u32, again: bool) -> bool
    ensures { result ≡ is_none (plain-Leaving leaving.entry number again) }
{
    match pack_of(leaving, number, again) {
        Some(_) => false,
        None => true,
    }
}

/// Whether no jump to this loop leaves.
pub fn stays_in(jumping: &Jumping<'_>, number: u32) -> bool
    ensures { result ≡ is_none (plain-Leaving jumping.now.leaving number true) && is_none (plain-Leaving jumping.now.leaving number false) }
{
    stays(jumping.leaving, number, true) && stays(jumping.leaving, number, false)
}

/// The loops within a further one.
fn further(
    alloc: Global,
    loops: &[LoopPair],
    text: u32,
    answer: u32,
) -> Result<List<LoopPair>, AllocError>
    ensures { IfOk result (λ it. plain-Loops it ≡ (text, answer) ∷ plain-Loops loops.now) }
{
    let mut all = Vec::new(alloc);
    push(&mut all, LoopPair { text, answer })?;
    all.extend_from_slice(loops)?;
    Ok(List::from_vec(all))
}

fn push(loops: &mut Vec<LoopPair>, pair: LoopPair) -> Result<(), AllocError>
    ensures { OnOk result (loops.new.items ≡ loops.old.items ++ pair ∷ []) }
{
    match loops.push(pair) {
        Ok(()) => Ok(()),
        Err(_) => Err(AllocError),
    }
}

/// The jumps within a further loop.
pub fn in_loop<'p>(
    alloc: Global,
    jumping: &Jumping<'p>,
    text: u32,
    answer: u32,
) -> Result<Jumping<'p>, AllocError>
    ensures loops { IfOk result (λ it. plain-Loops it.loops ≡ (text, answer) ∷ plain-Loops jumping.now.loops) }
    ensures leaving { IfOk result (λ it. it.leaving ≡ jumping.now.leaving) }
    ensures returning { IfOk result (λ it. it.returning ≡ jumping.now.returning) }
{
    let loops = further(alloc, jumping.loops.as_slice(), text, answer)?;
    Ok(Jumping {
        loops,
        leaving: jumping.leaving,
        returning: jumping.returning,
    })
}
