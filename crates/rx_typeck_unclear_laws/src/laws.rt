//! Laws of types that aren't clear and of nodes that have none, each as the contract of a function that does nothing.

ghost use Rattle.std.specs.Prelude.{◌≡◌, ℕ, true, false, List as ListOf, Some, None};
ghost use Rattle.rx_core.specs.declared.types.Span.{Span};
ghost use Rattle.rx_core.specs.declared.types.Ty.{Ty};
ghost use Rattle.rx_tree.specs.Plain.{Function};
ghost use Rattle.rx_resolve_names.specs.declared.resolved.NodeNames.{NodeNames};
ghost use Rattle.rx_typed.specs.Naming.{function_named};
ghost use Rattle.rx_typeck_solver.specs.declared.facts.Subject.TheVariants as subject;
ghost use Rattle.rx_typeck_solver.specs.Facts.{Assignment, KnownItems};
ghost use Rattle.rx_typeck_solver.specs.Valid.{Typed, Open, Valid, IsUnclear, IsIn, Told, Asked};
ghost use Rattle.rx_typeck_typed.specs.Demands.{task, demands};
ghost use Rattle.rx_typeck_typed.specs.Nodes.{nodes};
ghost use Rattle.rx_typeck_typed.specs.Typing.{Given, type_at, FunctionTyped};
ghost use Rattle.rx_typeck_typed.specs.declared.typed.TypedFn.{TypedFn};

use rx_typeck_typed::demands_are_orderly;

/// In a function each open literal has a type; and where all demands can be met and no assignment is valid, it isn't clear which
/// type is meant at some node, which has a type, and at which something is asked. What has no type is a statement, or Never (Rust
/// Reference, "Never type").
pub fn unclear_nodes_have_types()
    ensures literals { (K : KnownItems) (i : ℕ) (s : Span) (f : Function) (ns : ListOf NodeNames) (n : ℕ)
        → Open K (task (function_named i s f ns)) n → Told (demands (function_named i s f ns)) (subject.Node n) }
    ensures nodes { (K : KnownItems) (i : ℕ) (s : Span) (f : Function) (ns : ListOf NodeNames) (A : Assignment)
        → Typed K (task (function_named i s f ns)) A → ((V : Assignment) → Valid K (task (function_named i s f ns)) V → ⊥)
        → (m : ℕ) × (at : Span) × IsUnclear K (task (function_named i s f ns)) m × Asked (demands (function_named i s f ns)) m at }
{
    demands_are_orderly();
}

/// The demands of a function give a type to no nodes but its written types, patterns, expressions and blocks, without
/// what is Never (Rust Reference, "Never type"); so the tables of a typed function have none for another number, and
/// none for the item, statements and what is Never, whose numbers are others. That they have one for each of the first
/// is law `all_have_types`.
pub fn no_others_have_types()
    ensures told { (i : ℕ) (s : Span) (f : Function) (ns : ListOf NodeNames) (n : ℕ)
        → Told (demands (function_named i s f ns)) (subject.Node n) → IsIn n (nodes true (function_named i s f ns)) }
    ensures tables { (G : Given) (i : ℕ) (s : Span) (f : Function) (ns : ListOf NodeNames) (vars : ListOf Span) (t : TypedFn) → FunctionTyped G i s f ns vars t
        → (n : ℕ) (y : Ty) → type_at t (subject.Node n) ≡ Some y → IsIn n (nodes true (function_named i s f ns)) }
    ensures others { (G : Given) (i : ℕ) (s : Span) (f : Function) (ns : ListOf NodeNames) (vars : ListOf Span) (t : TypedFn) → FunctionTyped G i s f ns vars t
        → (n : ℕ) → IsIn n (nodes false (function_named i s f ns)) → type_at t (subject.Node n) ≡ None }
{}
