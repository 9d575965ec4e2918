//! The uses of a run's params.

ghost use Rattle.std.specs.Prelude.{◌≡◌, ℕ, Bool, List as ListOf, length, IfOk};
ghost use Rattle.rx_lower_walks.specs.Walks.{Among};
ghost use Rattle.rx_exits_plan.specs.Asked.{Asked};
ghost use Rattle.rx_exits_plan.specs.PlainPlan.{plan_of};
ghost use Rattle.rx_exits.specs.Living.{IsAsked};
ghost use Rattle.rx_modes_uses.specs.Uses.{IsUses};
ghost use Rattle.rx_modes.specs.Told as spec;

use crate::known::{Known, is_copy_at, is_declared_mut, is_live_out, is_mutable_reference};
use rx_core::List;
use rx_modes_deeds::deeds_of;
use rx_modes_policy::Uses;
use std::alloc::{AllocError, Global};

/// The uses of a param.
fn uses_of(known: &Known<'_>, variable: u32) -> Uses
    requires { IsAsked known.now.living.now }
    ensures { (A : Asked) (muts : ListOf Bool) → spec.IsKnown A muts known.now → Among variable known.now.plan.now.params → IsUses A muts (plan_of A known.now.plan.now) variable result }
{
    let inside = deeds_of(known.inside, variable);
    let outside = deeds_of(known.outside, variable);
    Uses {
        copy: is_copy_at(known.types, known.decls, variable),
        mut_ref: is_mutable_reference(known.types, variable),
        moved: inside.moved,
        written: inside.changed,
        lent: inside.shared,
        through: inside.through,
        mut_out: outside.borrowed_mutably,
        declared_mut: is_declared_mut(known.mutable, variable),
        live_out: is_live_out(known.living, known.plan.exits.as_slice(), variable),
        set_in: known.entered,
    }
}

/// The uses of params, in their order.
pub(crate) fn all_uses(alloc: Global, known: &Known<'_>) -> Result<Vec<Uses>, AllocError>
    requires { IsAsked known.now.living.now }
    ensures count { IfOk result (λ it. length it.items ≡ length known.now.plan.now.params) }
    ensures uses { IfOk result (λ it. (A : Asked) (muts : ListOf Bool) → spec.IsKnown A muts known.now
        → spec.Each (IsUses A muts (plan_of A known.now.plan.now)) known.now.plan.now.params it.items) }
{
    let mut all = Vec::new(alloc);
    let params = known.plan.params.as_slice();
    for variable in params {
        all.push(uses_of(known, *variable))?;
    }
    Ok(all)
}
