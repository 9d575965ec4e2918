//! Laws of trees with numbers, each the contract of a function that does nothing.

ghost use Rattle.std.specs.Prelude.{ℕ, List, length};
ghost use Rattle.rx_core.specs.declared.types.Span.{Span};
ghost use Rattle.rx_tree.specs.Plain.{Function};
ghost use Rattle.rx_resolve_names.specs.declared.resolved.NodeNames.{NodeNames};
ghost use Rattle.rx_typed.specs.Naming.{function_named, function_spans};
ghost use Rattle.rx_typed.specs.TypedNumbers.{AreFrom, nodes, declared};

/// The nodes of a function, and the variables that it declares, have the numbers from 0 on in the order of the text: so no two
/// nodes have one number, nor do two variables.
pub fn numbers_stand_in_order()
    ensures nodes { (i : ℕ) (s : Span) (f : Function) (ns : List NodeNames) → AreFrom 0 (nodes (function_named i s f ns)) (length (function_spans s f ns)) }
    ensures variables { (i : ℕ) (s : Span) (f : Function) (ns : List NodeNames) → AreFrom 0 (declared (function_named i s f ns)) (length (declared (function_named i s f ns))) }
{}
