//! Laws, each the contract of a function that does nothing.

ghost use Rattle.std.specs.Prelude.{List};
ghost use Rattle.rx_tree.specs.Plain.{ProgramTree};
ghost use Rattle.rx_tree.specs.Erase.{SameProgram};
ghost use Rattle.rx_resolve_names.specs.declared.resolved.ItemNames.{ItemNames};
ghost use Rattle.rx_resolve_names.specs.Causes.{Meant};
ghost use Rattle.rx_resolve_laws.specs.AlikeTables.{AllAlike};

/// Where the names of a program have a meaning, those of a program that is equal apart from spans have the same: each item has as many variables,
/// the same loops, and the same entries, each a node with the numbers that it names or declares.
pub fn names_ignore_spans()
    ensures { (p q : ProgramTree) → SameProgram p q → (ns : List ItemNames) → Meant p ns → (ms : List ItemNames) × Meant q ms × AllAlike ns ms }
{}
