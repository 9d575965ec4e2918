//! Laws, each the contract of a function that does nothing.

ghost use Rattle.rx_tree.specs.Plain.{ProgramTree};
ghost use Rattle.rx_tree.specs.Erase.{SameProgram};
ghost use Rattle.rx_typeck_typed.specs.declared.typed.Typed.{Typed};
ghost use Rattle.rx_check.specs.Passes.{IsAccepted, IsFront};
ghost use Rattle.rx_check_laws.specs.SameTyped.{SameTyped};

/// Where the passes up to initialisation accept a program, they accept each that is equal apart from spans, and this has the same types and
/// typed trees.
pub fn fronts_ignore_spans()
    ensures { (p q : ProgramTree) → SameProgram p q → (t : Typed) → IsFront p t → (u : Typed) × IsFront q u × SameTyped t u }
{}

/// A program that is equal apart from spans to an accepted one is accepted, with the same types and typed trees.
pub fn acceptance_ignores_spans()
    ensures { (p q : ProgramTree) → SameProgram p q → (t : Typed) → IsAccepted p t → (u : Typed) × IsAccepted q u × SameTyped t u }
{}
