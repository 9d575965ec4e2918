//! Laws, each the contract of a function that does nothing.

ghost use Rattle.std.specs.Prelude.{◌≡◌, ◌⊎◌, ℕ, List, [], get_or, map, Some, slice_get};
ghost use Rattle.rx_tree.specs.Plain.{ProgramTree};
ghost use Rattle.rx_tree.specs.Size.{IsNumbered};
ghost use Rattle.rx_resolve_names.specs.declared.resolved.ItemNames.{ItemNames};
ghost use Rattle.rx_resolve_names.specs.Causes.{Meant};
ghost use Rattle.rx_typed.specs.PlainTree.{plain-TypedTree};
ghost use Rattle.rx_typeck_typed.specs.declared.typed.Typed.{Typed};
ghost use Rattle.rx_typeck_typed.specs.declared.typed.TypedFn.{TypedFn};
ghost use Rattle.rx_typeck_typed.specs.Typing.{IsTyped};
ghost use Rattle.rx_lower_walks.specs.Walks.{Among};
ghost use Rattle.rx_exits_plan.specs.Runs.{Sits};
ghost use Rattle.rx_exits_plan.specs.Asked.{Asked};
ghost use Rattle.rx_exits_plan.specs.Exits.{at_start};
ghost use Rattle.rx_exits_plan.specs.Plan.{Plan, IsPlan};
ghost use Rattle.rx_exits_plan.specs.Shadowed.{meant};
ghost use Rattle.rx_exits.specs.Refusing.{NoneShadowed, same_name};
ghost use Rattle.rx_exits_plan.specs.PlainPlan.{plan_of, IsExitPlan};
ghost use Rattle.rx_hoist_extraction.specs.Names.{Distinct};
ghost use Rattle.rx_hoist_extraction.specs.Plan.{Leaving, Param, names_of};
ghost use Rattle.rx_hoist_naming.specs.NamedPlan.{Told, named_plan, names_in};
ghost use Rattle.rx_hoist_naming.specs.Words.{OutsAgree};
ghost use Rattle.rx_hoist_naming.specs.DeclaredNames.{declared_names};
ghost use Rattle.rx_hoist_meant.specs.NamesMeant.{NamesMeant};

use crate::{outs_have_their_own_names, params_and_locals_have_their_own_names};
use rx_typeck_typed::{signatures_are_well_formed, sizes_are_sized};

/// In each function of a typed program whose names have a meaning, each name means, where it stands, the variable that the typed tree
/// names there: the newest in scope of that name.
pub fn names_mean_their_variables()
    ensures { (p : ProgramTree) (names : List ItemNames) (t : Typed) → IsNumbered p → Meant p names → IsTyped p names t → (f : TypedFn) → Among f t.functions
        → NamesMeant (same_name (declared_names (slice_get p f.item))) (plain-TypedTree f.tree) }
{
    signatures_are_well_formed();
    sizes_are_sized();
}

/// So of a run in such a function the name of a param or of a local means that variable where the run is entered, and two of them have
/// different names.
pub fn runs_tell_params_and_locals_by_names()
    ensures meant { (p : ProgramTree) (names : List ItemNames) (t : Typed) → IsNumbered p → Meant p names → IsTyped p names t → (f : TypedFn) → Among f t.functions
        → (A : Asked) (k : Plan) → A.function ≡ plain-TypedTree f.tree → Sits A.function A.run A.home → IsPlan A k
        → (x : ℕ) → Among x k.params ⊎ Among x k.locals → meant (same_name (declared_names (slice_get p f.item))) x (at_start A.run A.home).scope ≡ Some x }
    ensures apart { (p : ProgramTree) (names : List ItemNames) (t : Typed) → IsNumbered p → Meant p names → IsTyped p names t → (f : TypedFn) → Among f t.functions
        → (A : Asked) (k : Plan) → A.function ≡ plain-TypedTree f.tree → Sits A.function A.run A.home → IsPlan A k
        → (x y : ℕ) → Among x k.params ⊎ Among x k.locals → Among y k.params ⊎ Among y k.locals
        → get_or (declared_names (slice_get p f.item)) x [] ≡ get_or (declared_names (slice_get p f.item)) y [] → x ≡ y }
{
    names_mean_their_variables();
    params_and_locals_have_their_own_names();
}

/// The names of the params in a plan by names are distinct, and so are those of the locals, and of the outs of each exit where none is
/// shadowed.
pub fn named_plans_have_distinct_names()
    ensures params { (A : Told) (names : List ItemNames) (t : Typed) → IsNumbered A.program → Meant A.program names → IsTyped A.program names t → Among A.function t.functions
        → (q : Asked) → q.function ≡ plain-TypedTree A.function.tree → Sits q.function q.run q.home → IsExitPlan q A.plan → Distinct (map (λ (x : Param). x.variable.name) (named_plan A).params) }
    ensures locals { (A : Told) (names : List ItemNames) (t : Typed) → IsNumbered A.program → Meant A.program names → IsTyped A.program names t → Among A.function t.functions
        → (q : Asked) → q.function ≡ plain-TypedTree A.function.tree → Sits q.function q.run q.home → IsExitPlan q A.plan → Distinct (names_of (named_plan A).locals) }
    ensures outs { (A : Told) (q : Asked) → IsExitPlan q A.plan → OutsAgree A.plan.exits → NoneShadowed q (plan_of q A.plan) (same_name (names_in A))
        → (l : Leaving) → Among l (named_plan A).exits → Distinct (names_of l.outs) }
{
    runs_tell_params_and_locals_by_names();
    outs_have_their_own_names();
}
