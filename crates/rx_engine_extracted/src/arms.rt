//! Whether the match of what the new function gives has an arm for each exit that does as the text.

ghost use Rattle.std.specs.Prelude.{◌≡◌, Option as OptionOf, map, option_map, IfOk};
ghost use Rattle.rx_typed.specs.Tree.{Exp};
ghost use Rattle.rx_typed.specs.PlainTree.{plain-Arm, plain-Expr, plain-Pattern, plain-Subpattern, arms_of, subpatterns_of};
ghost use Rattle.rx_engine_simulation.specs.Jumps.{loop_of};
ghost use Rattle.rx_engine_alike.specs.PlainSights.{plain-Renaming};
ghost use Rattle.rx_engine_alike.specs.PlainJumping.{plain-Loops, plain-Pack};
ghost use Rattle.rx_engine_alike.specs.PlainParts.{plain-Part};
ghost use Rattle.rx_engine_extracted.specs.Arms as spec;
ghost use Rattle.rx_engine_extracted.specs.PlainTold.{plain-Told};
ghost use Rattle.rx_engine_extracted.specs.PlainArms.{plain-ArmOf, says_of, jumps_around, jumps_in_block as jumps_in_block_of, received_and_jumps};

use crate::body::{block_in, ended, runs_first};
use crate::handing::{is_within, put_back, received, received_in};
use crate::told::{Told, all_special, without};
use rx_engine_alike::{
    Leaving, LoopPair, Pack, Part, Seen, gives_bare, is_in, is_loop, is_new, is_unit, jump_of,
    pack_of, same_bool, takes,
};
use rx_typed::{Arm, Expr, Pattern, Subpattern};
use std::alloc::{AllocError, Global};

/// An arm for a variant: the parts of its pattern, and its body.
#[derive(Clone, Copy)]
pub(crate) struct ArmOf<'t> {
    pub parts: &'t [Subpattern],
    pub body: &'t Expr,
}

/// What an arm's pattern says of a variant.
#[derive(Clone, Copy)]
pub(crate) enum Says<'t> {
    /// The arm is this variant's, with these parts.
    Here(&'t [Subpattern]),
    /// It is another's.
    Other,
    /// It is that of an enum's only variant, or of no variant.
    Nothing,
}

/// Whether an arm is that of a variant: an enum's only variant is not tested.
#[tactic(auto, using(rx_typed::proofs::Rules::typed_pattern_rules))]
fn said<'t>(pattern: &'t Pattern, variant: usize) -> Says<'t>
    ensures { (e : Exp) (o : OptionOf spec.Arm) → spec.arm_by (plain-Pattern pattern.entry.now) variant e o ≡ says_of result e o }
{
    match pattern {
        Pattern::Variant(_, _, several, number, parts) => {
            if *number as usize == variant {
                Says::Here(parts.as_slice())
            } else if *several {
                Says::Other
            } else {
                Says::Nothing
            }
        }
        Pattern::Any | Pattern::Bind(_, _, _) | Pattern::Exactly(_, _) => Says::Nothing,
        Pattern::Parts(_) | Pattern::Behind(_, _) => Says::Nothing,
    }
}

/// What an arm says of a variant.
#[tactic(auto, using(rx_typed::proofs::Rules::typed_tree_rules))]
fn said_by<'t>(arm: &'t Arm, variant: usize) -> (Says<'t>, &'t Expr)
    ensures { (o : OptionOf spec.Arm) → spec.arm_by (plain-Arm arm.entry.now).0 variant (plain-Arm arm.entry.now).1 o ≡ says_of result.0 (plain-Expr result.1.now) o }
{
    (said(&arm.pattern, variant), &arm.body)
}

/// The arm for a variant.
pub(crate) fn arm_for<'t>(variant: usize, arms: &'t [Arm]) -> Option<ArmOf<'t>>
    ensures { option_map plain-ArmOf result ≡ spec.arm_for variant (arms_of (map plain-Arm arms.entry.now)) }
{
    for arm in arms {
        let (says, body) = said_by(arm, variant);
        match says {
            Says::Here(parts) => return Some(ArmOf { parts, body }),
            Says::Other => {}
            Says::Nothing => return None,
        }
    }
    None
}

/// Whether an expression is a jump to the answer's loop for this one.
#[tactic(auto, using(crate::proofs::ReadLemmas::read_rules))]
fn jumps_to(loops: &[LoopPair], number: u32, again: bool, expr: &Expr) -> bool
    ensures { result ≡ spec.jumps_to (loop_of (plain-Loops loops.now) number) again (plain-Expr expr.now) }
{
    match jump_of(expr) {
        Some((other, next)) => is_loop(loops, number, other) && same_bool(again, next),
        None => false,
    }
}

/// Whether the last statement of a block is.
#[tactic(auto, using(crate::proofs::ArmLemmas::jumps_rules))]
fn jumps_last(loops: &[LoopPair], number: u32, again: bool, body: Part<'_>) -> bool
    ensures { result ≡ spec.jumps_last (loop_of (plain-Loops loops.now) number) again (plain-Part body.entry) }
{
    let Some((expr, rest)) = runs_first(body) else {
        return false;
    };
    match ended(rest) {
        Some(tail) => jumps_to(loops, number, again, expr) && is_unit(tail),
        None => false,
    }
}

/// Whether an arm that puts nothing back is.
fn jumps_bare(outs: &[u32], loops: &[LoopPair], number: u32, again: bool, expr: &Expr) -> bool
    ensures { result ≡ spec.jumps_bare outs.now (loop_of (plain-Loops loops.now) number) again (plain-Expr expr.now) }
{
    match outs {
        [] => jumps_to(loops, number, again, expr),
        [_, ..] => false,
    }
}

/// What an exit hands out, where it was received, and the jump.
#[derive(Clone, Copy)]
pub(crate) struct Back<'t> {
    pub loops: &'t [LoopPair],
    pub outs: &'t [u32],
    pub number: u32,
    pub again: bool,
}

/// Whether a block puts back what is handed out, and jumps.
fn jumps_in_block(
    told: &Told<'_>,
    outer: &[Seen],
    inner: &mut Vec<Seen>,
    others: &[u32],
    back: Back<'_>,
    body: Part<'_>,
) -> Result<bool, AllocError>
    ensures { IfOk result (λ it. it ≡ jumps_in_block_of (plain-Told told.now) (plain-Renaming outer.now) (plain-Renaming inner.old.items) back.entry.outs.now others.now
        (loop_of (plain-Loops back.entry.loops.now) back.entry.number) back.entry.again (plain-Part body.entry)) }
{
    match put_back(told, outer, inner, back.outs, others, body)? {
        Some(rest) => Ok(
            jumps_last(back.loops, back.number, back.again, rest)
                && is_within(outer, inner.as_slice()),
        ),
        None => Ok(false),
    }
}

/// Whether an arm's body puts back what is handed out, and jumps.
#[tactic(auto, using(crate::proofs::ArmLemmas::behind_rules))]
fn jumps_behind(
    told: &Told<'_>,
    outer: &[Seen],
    inner: &mut Vec<Seen>,
    others: &[u32],
    back: Back<'_>,
    expr: &Expr,
) -> Result<bool, AllocError>
    ensures { IfOk result (λ it. it ≡ spec.jumps_behind (plain-Told told.now) (plain-Renaming outer.now) (plain-Renaming inner.old.items) back.entry.outs.now others.now
        (loop_of (plain-Loops back.entry.loops.now) back.entry.number) back.entry.again (plain-Expr expr.now)) }
{
    match block_in(expr) {
        Some(body) => jumps_in_block(told, outer, inner, others, back, body),
        None => Ok(jumps_bare(back.outs, back.loops, back.number, back.again, expr)),
    }
}

/// Whether the parts of an arm's pattern receive what is handed out, and its body puts it back and jumps.
fn receives_and_jumps(
    told: &Told<'_>,
    outer: &[Seen],
    inner: &mut Vec<Seen>,
    others: &[u32],
    back: Back<'_>,
    expr: &Expr,
) -> Result<bool, AllocError>
    ensures { IfOk result (λ it. it ≡ received_and_jumps (plain-Told told.now) (plain-Renaming outer.now) (plain-Renaming inner.old.items) back.entry.outs.now others.now
        (loop_of (plain-Loops back.entry.loops.now) back.entry.number) back.entry.again (plain-Expr expr.now)) }
{
    if received(outer, inner, back.outs, others)? {
        jumps_behind(told, outer, inner, others, back, expr)
    } else {
        Ok(false)
    }
}

/// Whether an arm receives what an exit hands out, puts it back, and jumps.
fn puts_back(
    alloc: Global,
    told: &Told<'_>,
    renaming: &[Seen],
    back: Back<'_>,
    arm: ArmOf<'_>,
) -> Result<bool, AllocError>
    ensures { IfOk result (λ it. it
        ≡ spec.puts_back (plain-Told told.now) (jumps_around back.entry.loops.now) (plain-Renaming renaming.now) back.entry.outs.now back.entry.number back.entry.again (plain-ArmOf arm.entry)) }
{
    if !all_special(renaming, back.outs) {
        return Ok(false);
    }
    let Some(others) = received_in(alloc, arm.parts)? else {
        return Ok(false);
    };
    let mut inner = without(alloc, back.outs, renaming)?;
    receives_and_jumps(
        told,
        renaming,
        &mut inner,
        others.as_slice(),
        back,
        arm.body,
    )
}

/// Whether the arm for a jump's variant does so.
pub(crate) fn jump_arm(
    alloc: Global,
    told: &Told<'_>,
    loops: &[LoopPair],
    renaming: &[Seen],
    arms: &[Arm],
    jump: (u32, bool),
    pack: Option<Pack<'_>>,
) -> Result<bool, AllocError>
    ensures { IfOk result (λ it. it
        ≡ spec.jump_arm (plain-Told told.now) (jumps_around loops.now) (plain-Renaming renaming.now) (arms_of (map plain-Arm arms.now)) jump.0 jump.1 (option_map plain-Pack pack.entry)) }
{
    let Some(pack) = pack else {
        return Ok(true);
    };
    let Some(arm) = arm_for(pack.variant, arms) else {
        return Ok(false);
    };
    let back = Back {
        loops,
        outs: pack.outs,
        number: jump.0,
        again: jump.1,
    };
    puts_back(alloc, told, renaming, back, arm)
}
