//! The plan of a run, or the variable that shows that it has none to go by.

ghost use Rattle.std.specs.Prelude.{◌≡◌, MatchResult, MatchOption};
ghost use Rattle.rx_typed.specs.PlainTree.{plain-TypedTree};
ghost use Rattle.rx_exits_plan.specs.Asked.{Asked};
ghost use Rattle.rx_exits_plan.specs.PlainPlan.{plan_of};
ghost use Rattle.rx_exits.specs.Points.{IsReady, IsPoints};
ghost use Rattle.rx_exits.specs.Asking.{IsAskedOf};
ghost use Rattle.rx_exits.specs.Planning.{IsFacts, IsPlanned};
ghost use Rattle.rx_exits.specs.Refusing.{NoneMixed, NonePartly, Answers, Refuses, same_name};

use crate::RunPoints;
use crate::facts::{Facts, facts_of};
use crate::planning::{Planned, planned_of};
use crate::refusing::{Refusal, first_refused};
use rx_core::{LetGo, Name};
use rx_exits_plan::{Home, Run};
use rx_typed::TypedTree;
use std::alloc::{AllocError, Global};

/// Why a run has no plan to go by: variables by their numbers.
#[derive(Clone, Copy, Debug, PartialEq, Eq)]
pub enum ExitFault {
    /// It is neither set nor unset for sure where the run is entered.
    MixedInit { var: u32 },
    /// It is there in part where the run is entered, or where an exit hands it out.
    PartlyMoved { var: u32 },
    /// Its name means another variable where an exit hands it out.
    Shadowed { var: u32 },
    OutOfMemory,
}

/// Why a planned run is refused of which no variable is there in part.
fn shadowed(names: &[Name], facts: &Facts, planned: &Planned) -> Option<ExitFault>
    ensures { (A : Asked) → IsFacts A facts.now → IsPlanned A planned.now → NoneMixed A → NonePartly A (plan_of A planned.now.plan)
        → MatchOption result (Answers A (same_name names.now) planned.now) (Refuses A (same_name names.now)) }
{
    let all = facts.variables.all.as_slice();
    let exits = planned.plan.exits.as_slice();
    let jumps = facts.jumps.as_slice();
    let end = facts.end.as_slice();
    match first_refused(Refusal::Shadowed(names, exits, jumps, end), all) {
        Some(var) => Some(ExitFault::Shadowed { var }),
        None => None,
    }
}

/// Why a planned run is refused.
fn refused(
    points: &RunPoints<'_>,
    names: &[Name],
    facts: &Facts,
    planned: &Planned,
) -> Option<ExitFault>
    requires { IsReady points.now }
    ensures { (A : Asked) → IsPoints A points.now → IsFacts A facts.now → IsPlanned A planned.now → NoneMixed A
        → MatchOption result (Answers A (same_name names.now) planned.now) (Refuses A (same_name names.now)) }
{
    let all = facts.variables.all.as_slice();
    let exits = planned.plan.exits.as_slice();
    let foreign = facts.variables.foreign.as_slice();
    match first_refused(Refusal::Partly(points, foreign, exits), all) {
        Some(var) => Some(ExitFault::PartlyMoved { var }),
        None => shadowed(names, facts, planned),
    }
}

/// The plan, unless the run is refused.
fn judged(
    points: &RunPoints<'_>,
    names: &[Name],
    facts: &Facts,
    planned: Planned,
) -> Result<Planned, ExitFault>
    requires { IsReady points.now }
    ensures { (A : Asked) → IsPoints A points.now → IsFacts A facts.now → IsPlanned A planned → NoneMixed A
        → MatchResult result (Answers A (same_name names.now)) (Refuses A (same_name names.now)) }
{
    match refused(points, names, facts, &planned) {
        Some(fault) => Err(fault),
        None => Ok(planned),
    }
}

/// The plan of a run whose facts are known.
fn exits_by(
    alloc: Global,
    tree: &TypedTree,
    home: &Home<'_>,
    points: &RunPoints<'_>,
    run: Run,
    names: &[Name],
    facts: &Facts,
) -> Result<Planned, ExitFault>
    requires { IsReady points.now }
    ensures { (A : Asked) → IsAskedOf A run home.now points.now → A.function ≡ plain-TypedTree tree.now → IsFacts A facts.now
        → MatchResult result (Answers A (same_name names.now)) (Refuses A (same_name names.now)) }
{
    let foreign = facts.variables.foreign.as_slice();
    match first_refused(
        Refusal::Mixed(points, foreign),
        facts.variables.all.as_slice(),
    ) {
        Some(var) => Err(ExitFault::MixedInit { var }),
        None => match planned_of(alloc, tree, home, points, run, facts) {
            Ok(planned) => judged(points, names, facts, planned),
            Err(AllocError) => Err(ExitFault::OutOfMemory),
        },
    }
}

/// The plan of a run, by the function's tree, the run's block, what is known where walks come to the run's points, and the names
/// of the function's variables by their numbers.
///
/// # Errors
///
/// The first variable, in the order of the run, that is neither set nor unset for sure; where there is none, the first that is
/// there in part; where there is none either, the first that another one of its name stands in front of. Or memory runs out.
pub fn exits(
    alloc: Global,
    tree: &TypedTree,
    home: &Home<'_>,
    points: &RunPoints<'_>,
    run: Run,
    names: &[Name],
) -> Result<Planned, ExitFault>
    requires { IsReady points.now }
    ensures { (A : Asked) → IsAskedOf A run home.now points.now → A.function ≡ plain-TypedTree tree.now
        → MatchResult result (Answers A (same_name names.now)) (Refuses A (same_name names.now)) }
{
    match facts_of(alloc, home, run) {
        Ok(facts) => {
            let answer = exits_by(alloc, tree, home, points, run, names, &facts);
            facts.let_go();
            answer
        }
        Err(AllocError) => Err(ExitFault::OutOfMemory),
    }
}
