//! The modes of a run's params.

ghost use Rattle.std.specs.Prelude.{◌≡◌, ℕ, Bool, List as ListOf, map, IfOk, IfErr, MatchResult};
ghost use Rattle.std.specs.Bool.{Decides};
ghost use Rattle.rx_typed.specs.PlainTypes.{declarations};
ghost use Rattle.rx_typed_declarations.specs.Sizes.{Sized, told};
ghost use Rattle.rx_exits_plan.specs.Points.{enters};
ghost use Rattle.rx_exits_plan.specs.Asked.{Asked};
ghost use Rattle.rx_exits_plan.specs.Plan.{variables_of};
ghost use Rattle.rx_exits_plan.specs.PlainPlan.{IsExitPlan, plan_of};
ghost use Rattle.rx_exits_plan.specs.Unreachable.{SomeComes};
ghost use Rattle.rx_exits.specs.AskedOf.{asked_of};
ghost use Rattle.rx_exits.specs.Living.{IsAsked};
ghost use Rattle.rx_exits_plan.specs.PlainSyntax.{plain-Home};
ghost use Rattle.rx_modes.specs.Answer as answer;
ghost use Rattle.rx_modes.specs.Told as spec;

use crate::aliased::first_aliased;
use crate::choosing::{chosen, first_without, given_away, moved};
use crate::known::Known;
use crate::plan::{ModeFault, ModePlan};
use crate::tables::{function_deeds, outside_deeds, run_deeds};
use crate::uses::all_uses;
use rx_exits::{Point, living, points};
use rx_exits_occurrences::variables_of;
use rx_exits_plan::{ExitPlan, Home, Run};
use rx_lower::trimmed;
use rx_modes_policy::{Policy, Uses};
use rx_typeck_typed::TypedFn;
use rx_typed::Decls;
use std::alloc::{AllocError, Global};

/// The modes of params with these uses, unless a variable would be aliased.
fn passed<P: Policy>(
    alloc: Global,
    known: &Known<'_>,
    uses: &[Uses],
    variables: &[u32],
    policy: &P,
) -> Result<ModePlan, ModeFault>
    requires { spec.AllPass uses.now }
    ensures { spec.PassedBy known.now uses.now variables.now (P.choice policy.now) result }
{
    match first_aliased(known, variables) {
        Some(var) => Err(ModeFault::Aliased { var }),
        None => {
            let modes = chosen(alloc, uses, policy)?;
            let moved = moved(alloc, uses)?;
            let given_away = given_away(alloc, uses)?;
            Ok(ModePlan {
                modes,
                moved,
                given_away,
            })
        }
    }
}

/// The modes of a run's params, by what is known of the run.
fn modes_by<P: Policy>(
    alloc: Global,
    known: &Known<'_>,
    variables: &[u32],
    policy: &P,
) -> Result<ModePlan, ModeFault>
    requires { IsAsked known.now.living.now }
    ensures { (A : Asked) (muts : ListOf Bool) → spec.IsKnown A muts known.now → variables.now ≡ variables_of A
        → answer.IsAnswer A muts (plan_of A known.now.plan.now) (P.choice policy.now) result }
{
    let uses = all_uses(alloc, known)?;
    match first_without(known.plan.params.as_slice(), uses.as_slice()) {
        Some(var) => Err(ModeFault::NotMut { var }),
        None => passed(alloc, known, uses.as_slice(), variables, policy),
    }
}

/// Whether some walk enters the run.
fn is_entered(
    alloc: Global,
    decls: &Decls,
    sizes: &[u64],
    typed: &TypedFn,
    home: &Home<'_>,
    run: Run,
) -> Result<bool, AllocError>
    requires { Sized (declarations decls.now.items) (told sizes.now) }
    ensures { IfOk result (λ it. Decides it (SomeComes (asked_of (declarations decls.now.items) (told sizes.now) typed.now run (plain-Home home.now)) enters)) }
{
    match points(alloc, decls, sizes, typed, run, home.loops.as_slice()) {
        Ok(points) => Ok(points.comes(Point::Enters)),
        Err(_) => Err(AllocError),
    }
}

/// The modes in which a new function takes the params of a run of a function, as the policy chooses them on their uses: by what is
/// declared, how many parts each struct and enum has, the block that the run sits in, and the run's plan.
///
/// # Errors
///
/// `NotMut` where some param has no mode: the first one. Else `Aliased` where some variable that is declared `mut`, and of whose own
/// storage there is a reference somewhere in the function, is handed in or out by value: the first in the order of occurrence in the
/// run. Or memory runs out, also where the function with marks at the run's points has more than 65,536 sites.
pub fn modes<P: Policy>(
    alloc: Global,
    decls: &Decls,
    sizes: &[u64],
    typed: &TypedFn,
    home: &Home<'_>,
    run: Run,
    plan: &ExitPlan,
    policy: &P,
) -> Result<ModePlan, ModeFault>
    requires sized { Sized (declarations decls.now.items) (told sizes.now) }
    requires plan { IsExitPlan (asked_of (declarations decls.now.items) (told sizes.now) typed.now run (plain-Home home.now)) plan.now }
    ensures modes { let A = asked_of (declarations decls.now.items) (told sizes.now) typed.now run (plain-Home home.now) in
        IfOk result (answer.HasModes A typed.now.mutable (plan_of A plan.now) (P.choice policy.now)) }
    ensures refused { let A = asked_of (declarations decls.now.items) (told sizes.now) typed.now run (plain-Home home.now) in
        IfErr result (answer.IsRefused A typed.now.mutable (plan_of A plan.now)) }
{
    let entered = is_entered(alloc, decls, sizes, typed, home, run)?;
    let inside = run_deeds(alloc, home, run)?;
    let outside = outside_deeds(alloc, &typed.tree, run)?;
    let whole = function_deeds(alloc, &typed.tree)?;
    let variables = variables_of(alloc, home, run)?;
    let loops = home.loops.as_slice();
    let living = living(alloc, &typed.tree, run, loops, plan.params.as_slice())?;
    let known = Known {
        decls,
        types: trimmed(typed.variables.as_slice()),
        mutable: typed.mutable.as_slice(),
        plan,
        inside: inside.as_slice(),
        outside: outside.as_slice(),
        whole: whole.as_slice(),
        living: &living,
        entered,
    };
    modes_by(alloc, &known, variables.all.as_slice(), policy)
}
