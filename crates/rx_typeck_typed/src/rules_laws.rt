//! A law of the rules, as the contract of a function that does nothing.

ghost use Rattle.std.specs.Prelude.{ℕ, List as ListOf};
ghost use Rattle.rx_core.specs.declared.types.Span.{Span};
ghost use Rattle.rx_tree.specs.Plain.{Function};
ghost use Rattle.rx_resolve_names.specs.declared.resolved.NodeNames.{NodeNames};
ghost use Rattle.rx_typed.specs.Naming.{function_named};
ghost use Rattle.rx_typeck_solver.specs.Ordered.{Orderly};
ghost use Rattle.rx_typeck_typed.specs.Demands.{task};

/// What the rules ask of a function is in an order that the solver can follow, and each of its literals is asked for its
/// kind: whatever the entries of names are.
pub fn demands_are_orderly()
    ensures { (i : ℕ) (s : Span) (f : Function) (ns : ListOf NodeNames) → Orderly (task (function_named i s f ns)) }
{}
