//! The plan of a run.

ghost use Rattle.std.specs.Prelude.{◌≡◌, ℕ, Ok, Some, map, IfOk};
ghost use Rattle.std.specs.Prelude.{List as ListOf};
ghost use Rattle.std.specs.Option.{is_some};
ghost use Rattle.rx_typed.specs.PlainTypes.{plain-Ty};
ghost use Rattle.rx_typed.specs.PlainTree.{plain-Expr, plain-TypedTree};
ghost use Rattle.rx_exits_plan.specs.Asked.{Asked};
ghost use Rattle.rx_exits_plan.specs.Occurrences.{those};
ghost use Rattle.rx_exits_plan.specs.Plan as plan;
ghost use Rattle.rx_exits_plan.specs.Plan.{Plan as PlanOf};
ghost use Rattle.rx_exits_plan.specs.Exits as exit;
ghost use Rattle.rx_exits_plan.specs.declared.plan.ExitOuts.{ExitOuts as ExitOutsOf};
ghost use Rattle.rx_exits_plan.specs.PlainPlan.{plain-Run, plain-Exit, outs_in, IsExitPlan};
ghost use Rattle.rx_exits_plan.specs.Points.{next};
ghost use Rattle.rx_exits.specs.Points.{IsReady};
ghost use Rattle.rx_exits.specs.Living.{IsAsked, IsLiving};
ghost use Rattle.rx_exits_plan.specs.PlainSyntax.{plain-Home, plain-Value};
ghost use Rattle.rx_exits.specs.Asking.{IsAskedOf};
ghost use Rattle.rx_exits.specs.Choosing.{HandsOut, AllHandOut};
ghost use Rattle.rx_exits.specs.Planning.{IsFacts, IsEntry, IsGiven, IsPlanned, OutsAgree, is_unit};

use crate::choosing::{Choice, Pick, chosen, picked};
use crate::exit_forms::{is_return, outs_of};
use crate::facts::Facts;
use crate::moving::moved;
use crate::{RunLiving, RunPoints, living};
use rx_core::{List, Ty, keep, pushed};
use rx_exits_jumps::exits;
use rx_exits_plan::{Exit, ExitOuts, ExitPlan, Home, Run, last_value};
use rx_typed::{Expr, TypedTree};
use std::alloc::{AllocError, Global};

/// The plan of a run, and what is live where the run is left, where a walk that enters it uses the plan's params.
#[derive(Drop)]
pub struct Planned {
    pub plan: ExitPlan,
    pub living: RunLiving,
}

// ---- outs

/// What may be handed out.
fn offered(
    alloc: Global,
    home: &Home<'_>,
    run: Run,
    facts: &Facts,
    locals: &[u32],
) -> Result<List<u32>, AllocError>
    ensures { IfOk result (λ it. (A : Asked) → A.run ≡ plain-Run run → A.home ≡ plain-Home home.now → IsFacts A facts.now → it ≡ plan.offered A locals.now) }
{
    let moved = moved(alloc, home, run)?;
    let direct = facts.variables.direct.as_slice();
    picked(
        alloc,
        Pick::Offered(moved.as_slice(), locals, direct),
        facts.variables.all.as_slice(),
    )
}

/// An exit with what it hands out: what is live behind it, of what may be handed out.
fn outs_at(
    alloc: Global,
    living: &RunLiving,
    exit: Exit,
    offered: &[u32],
) -> Result<ExitOuts, AllocError>
    requires { IsAsked living.now }
    ensures exit { IfOk result (λ it. it.exit ≡ exit) }
    ensures outs { IfOk result (λ it. (A : Asked) (ps : ListOf ℕ) → IsLiving A ps living.now → HandsOut A ps offered.now it) }
{
    if is_return(exit) {
        Ok(ExitOuts {
            exit,
            outs: List::new(alloc),
        })
    } else {
        let outs = chosen(alloc, Choice::LiveAt(living, exit), offered)?;
        Ok(ExitOuts { exit, outs })
    }
}

/// The exits with what they hand out.
fn all_outs(
    alloc: Global,
    living: &RunLiving,
    exits: &[Exit],
    offered: &[u32],
) -> Result<List<ExitOuts>, AllocError>
    requires { IsAsked living.now }
    ensures exits { IfOk result (λ it. map (λ (e : ExitOutsOf). plain-Exit e.exit) it ≡ map plain-Exit exits.now) }
    ensures outs { IfOk result (λ it. (A : Asked) (ps : ListOf ℕ) → IsLiving A ps living.now → AllHandOut A ps offered.now it) }
{
    let mut all = List::new(alloc);
    for exit in exits {
        let (next, held) = keep(all, outs_at(alloc, living, *exit, offered))?;
        all = pushed(held, next)?;
    }
    Ok(all)
}

/// The exits of the run with what they hand out.
fn handed_out(
    alloc: Global,
    home: &Home<'_>,
    run: Run,
    facts: &Facts,
    living: &RunLiving,
    locals: &[u32],
) -> Result<List<ExitOuts>, AllocError>
    requires { IsAsked living.now }
    ensures exits { IfOk result (λ it. (A : Asked) → A.run ≡ plain-Run run → A.home ≡ plain-Home home.now → IsFacts A facts.now
        → map (λ (e : ExitOutsOf). plain-Exit e.exit) it ≡ exit.exits A.run A.home) }
    ensures outs { IfOk result (λ it. (A : Asked) (ps : ListOf ℕ) → A.run ≡ plain-Run run → A.home ≡ plain-Home home.now → IsFacts A facts.now → IsLiving A ps living.now
        → AllHandOut A ps (plan.offered A locals.now) it) }
{
    let offered = offered(alloc, home, run, facts, locals)?;
    let all = exits(alloc, home, run, facts.jumps.as_slice());
    let (all, offered) = keep(offered, all)?;
    all_outs(alloc, living, all.as_slice(), offered.as_slice())
}

// ---- the value

/// Whether a type is the unit.
#[tactic(auto, using(crate::proofs::Values::unit_rules))]
fn is_unit_type(ty: &Ty) -> bool
    ensures { result ≡ is_unit (plain-Ty ty.now) }
{
    match ty {
        Ty::Tuple(parts) => parts.is_empty(),
        Ty::Int(_) | Ty::Bool | Ty::Shared(_, _) | Ty::Mut(_, _) | Ty::Adt(_, _) => false,
    }
}

/// Whether an expression has a value that isn't the unit.
fn hands_value(expr: &Expr) -> bool
    ensures { result ≡ is_some (plan.handed_value (Some (plain-Expr expr.now))) }
{
    match &expr.mark.ty {
        Some(ty) => !is_unit_type(ty),
        None => false,
    }
}

/// Whether the run has a value: its block's tail, where that has one which isn't the unit.
fn has_value(value: Option<&Expr>) -> bool
    ensures { result ≡ is_some (plan.handed_value (plain-Value value.entry)) }
{
    match value {
        Some(expr) => hands_value(expr),
        None => false,
    }
}

// ---- the plan

/// Two lists, where both are there.
fn both(
    first: Result<List<u32>, AllocError>,
    second: Result<List<u32>, AllocError>,
) -> Result<(List<u32>, List<u32>), AllocError>
    ensures { IfOk result (λ it. (first ≡ Ok it.0) × (second ≡ Ok it.1)) }
{
    let first = first?;
    let (second, first) = keep(first, second)?;
    Ok((first, second))
}

/// What the text around the run needs: what is redeclared, and what is loose.
fn around(
    alloc: Global,
    facts: &Facts,
    exits: &[ExitOuts],
    params: &[u32],
) -> Result<(List<u32>, List<u32>), AllocError>
    ensures { IfOk result (λ it. (A : Asked) (k : PlanOf) → IsFacts A facts.now → k.params ≡ params.now → k.outs ≡ outs_in exits.now → OutsAgree exits.now
        → k.exits ≡ map (λ (e : ExitOutsOf). plain-Exit e.exit) exits.now
        → (it.0 ≡ those (plan.is_redeclared A (outs_in exits.now next)) (plan.variables_of A)) × (it.1 ≡ those (plan.is_loose A k) (plan.variables_of A))) }
{
    let all = facts.variables.all.as_slice();
    let direct = facts.variables.direct.as_slice();
    let behind = facts.variables.behind.as_slice();
    let foreign = facts.variables.foreign.as_slice();
    both(
        picked(
            alloc,
            Pick::Redeclared(direct, behind, outs_of(exits, Exit::Next)),
            all,
        ),
        picked(alloc, Pick::Loose(foreign, behind, params, exits), all),
    )
}

/// The plan, by the exits with what they hand out, the params and the locals.
fn plan_of(
    alloc: Global,
    home: &Home<'_>,
    run: Run,
    facts: &Facts,
    exits: List<ExitOuts>,
    entry: (List<u32>, List<u32>),
) -> Result<ExitPlan, AllocError>
    ensures plan { IfOk result (λ it. (A : Asked) → A.run ≡ plain-Run run → A.home ≡ plain-Home home.now → IsFacts A facts.now → IsGiven A exits entry.0 entry.1 → IsExitPlan A it) }
    ensures exits { IfOk result (λ it. it.exits ≡ exits) }
    ensures params { IfOk result (λ it. it.params ≡ entry.0) }
{
    let value = has_value(last_value(home, run));
    let lists = around(alloc, facts, exits.as_slice(), entry.0.as_slice());
    let (lists, held) = keep((exits, entry), lists)?;
    let (exits, entry) = held;
    let (params, locals) = entry;
    let (redeclared, loose) = lists;
    Ok(ExitPlan {
        exits,
        value,
        params,
        locals,
        redeclared,
        loose,
    })
}

/// The same, where the exits are there.
fn plan_with(
    alloc: Global,
    home: &Home<'_>,
    run: Run,
    facts: &Facts,
    exits: Result<List<ExitOuts>, AllocError>,
    entry: (List<u32>, List<u32>),
) -> Result<ExitPlan, AllocError>
    ensures plan { IfOk result (λ it. (A : Asked) → A.run ≡ plain-Run run → A.home ≡ plain-Home home.now → IsFacts A facts.now → IsGiven A it.exits entry.0 entry.1 → IsExitPlan A it) }
    ensures exits { IfOk result (λ it. exits ≡ Ok it.exits) }
    ensures params { IfOk result (λ it. it.params ≡ entry.0) }
{
    let (exits, entry) = keep(entry, exits)?;
    plan_of(alloc, home, run, facts, exits, entry)
}

fn with_living(living: RunLiving, plan: Result<ExitPlan, AllocError>) -> Result<Planned, AllocError>
    ensures { IfOk result (λ it. (plan ≡ Ok it.plan) × (it.living ≡ living)) }
{
    match plan {
        Ok(plan) => Ok(Planned { plan, living }),
        Err(fault) => Err(fault),
    }
}

/// The plan, by what is live where the run is left, the params and the locals.
fn plan_by(
    alloc: Global,
    home: &Home<'_>,
    run: Run,
    facts: &Facts,
    living: RunLiving,
    entry: (List<u32>, List<u32>),
) -> Result<Planned, AllocError>
    requires { IsAsked living }
    ensures { IfOk result (λ it. (A : Asked) → A.run ≡ plain-Run run → A.home ≡ plain-Home home.now → IsFacts A facts.now → IsEntry A entry.0 entry.1 → IsLiving A entry.0 living → IsPlanned A it) }
{
    let exits = handed_out(alloc, home, run, facts, &living, entry.1.as_slice());
    let plan = plan_with(alloc, home, run, facts, exits, entry);
    with_living(living, plan)
}

/// The plan of a run, whose facts are known.
pub(crate) fn planned_of(
    alloc: Global,
    tree: &TypedTree,
    home: &Home<'_>,
    points: &RunPoints<'_>,
    run: Run,
    facts: &Facts,
) -> Result<Planned, AllocError>
    requires { IsReady points.now }
    ensures { IfOk result (λ it. (A : Asked) → IsAskedOf A run home.now points.now → A.function ≡ plain-TypedTree tree.now → IsFacts A facts.now → IsPlanned A it) }
{
    let foreign = facts.variables.foreign.as_slice();
    let entry = both(
        chosen(alloc, Choice::Param(points), foreign),
        chosen(alloc, Choice::Local(points), foreign),
    )?;
    let living = living(alloc, tree, run, home.loops.as_slice(), entry.0.as_slice());
    let (living, entry) = keep(entry, living)?;
    plan_by(alloc, home, run, facts, living, entry)
}
