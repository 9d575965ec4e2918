//! What a plan says of the ways out of a run.

ghost use Rattle.std.specs.Prelude.{◌≡◌, IfOk, map};
ghost use Rattle.rx_typed.specs.PlainTypes.{plain-Ty};
ghost use Rattle.rx_hoist_plan.specs.PlainPlan.{plain-Exit, plain-Leaving, plain-Plan, plain-Variable};
ghost use Rattle.rx_hoist_extraction.specs.Plan as planned;

use crate::names::numbered;
use rx_core::{Name, Ty};
use rx_hoist_plan::{Exit, Leaving, NamedPlan, Variable};
use std::alloc::{AllocError, Global};

/// Whether both are the same exit.
fn same_exit(a: Exit, b: Exit) -> bool
    ensures { result ≡ planned.same_exit (plain-Exit a) (plain-Exit b) }
{
    match a {
        Exit::Next => matches!(b, Exit::Next),
        Exit::Break(j) => match b {
            Exit::Break(k) => j == k,
            _ => false,
        },
        Exit::Continue(j) => match b {
            Exit::Continue(k) => j == k,
            _ => false,
        },
        Exit::Return => matches!(b, Exit::Return),
    }
}

/// Whether there is this exit.
pub fn has_exit(exit: Exit, exits: &[Leaving]) -> bool
    ensures { result ≡ planned.has_exit (plain-Exit exit) (map plain-Leaving exits.now) }
{
    for leaving in exits {
        if same_exit(exit, leaving.exit) {
            return true;
        }
    }
    false
}

/// The variables that an exit hands out.
pub fn outs_of<'a>(exit: Exit, exits: &'a [Leaving]) -> &'a [Variable]
    ensures { map plain-Variable result.now ≡ planned.outs_of (plain-Exit exit) (map plain-Leaving exits.now) }
{
    for leaving in exits {
        if same_exit(exit, leaving.exit) {
            return leaving.outs.as_slice();
        }
    }
    &[]
}

/// Whether there is an exit other than Next, and so an enum of exits.
pub fn has_enum(exits: &[Leaving]) -> bool
    ensures { result ≡ planned.has_enum (map plain-Leaving exits.now) }
{
    for leaving in exits {
        if !same_exit(Exit::Next, leaving.exit) {
            return true;
        }
    }
    false
}

/// Whether a type is the unit.
#[tactic(auto, using(rx_typed::proofs::TypedRules::typ_rules))]
pub fn is_unit(ty: &Ty) -> bool
    ensures { result ≡ planned.is_unit (plain-Ty ty.now) }
{
    match ty {
        Ty::Tuple(parts) => parts.is_empty(),
        Ty::Int(_) | Ty::Bool => false,
        Ty::Shared(_, _) | Ty::Mut(_, _) => false,
        Ty::Adt(_, _) => false,
    }
}

/// The name of the enum of exits.
pub fn enum_name(alloc: Global, plan: &NamedPlan) -> Result<Name, AllocError>
    ensures { IfOk result (λ it. it ≡ planned.enum_name (plain-Plan plan.now)) }
{
    let mut name = Name::new(alloc, "Exit_")?;
    name.push(plan.name.as_str())?;
    Ok(name)
}

/// The name of an exit's variant.
pub fn exit_name(alloc: Global, exit: Exit) -> Result<Name, AllocError>
    ensures { IfOk result (λ it. it ≡ planned.exit_name (plain-Exit exit)) }
{
    match exit {
        Exit::Next => Name::new(alloc, "Next"),
        Exit::Break(number) => numbered(alloc, "Break_", number as u64),
        Exit::Continue(number) => numbered(alloc, "Continue_", number as u64),
        Exit::Return => Name::new(alloc, "Return"),
    }
}
