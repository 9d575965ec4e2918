//! Laws, each as the contract of a function that does nothing.

ghost use Rattle.std.specs.Prelude.{◌≡◌, ◌≢◌, ◌⊎◌, ℕ, List, map};
ghost use Rattle.rx_tree.specs.Plain.{ProgramTree};
ghost use Rattle.rx_tree.specs.Size.{IsNumbered};
ghost use Rattle.rx_resolve_names.specs.declared.resolved.ItemNames.{ItemNames};
ghost use Rattle.rx_resolve_names.specs.Causes.{Meant};
ghost use Rattle.rx_typed.specs.declared.declarations.Decl.{Decl};
ghost use Rattle.rx_typed.specs.PlainTypes.{declarations};
ghost use Rattle.rx_typed_declarations.specs.Sizes.{Sized, IsSizes, told};
ghost use Rattle.rx_typed_declarations.specs.WellFormed.{WellSigned};
ghost use Rattle.rx_typed_declarations.specs.Variance.{unrecorded};
ghost use Rattle.rx_typeck_solver.specs.Stepping.{known};
ghost use Rattle.rx_typeck_typed.specs.Programs.{Declares};
ghost use Rattle.rx_typeck_typed.specs.Typing.{IsTyped, Causes};
ghost use Rattle.rx_typeck_typed.specs.declared.typed.TypeFault.{TypeFault};
ghost use Rattle.rx_typeck_typed.specs.declared.typed.TypeFault.TheVariants as fault;
ghost use Rattle.rx_typeck_typed.specs.declared.typed.Typed.{Typed};
ghost use Rattle.rx_typeck_typed.specs.HaveTypes.{EachTyped};
ghost use Rattle.rx_typeck_typed.specs.WellTyped.{WellTyped, functions_of, EachIsOf};

use crate::{declared_are_finite, demands_are_orderly};
use rx_typed_declarations::one_size_each;

/// The signatures of a typed program, whose names have a meaning, are well-formed: they name structs and enums alone, each
/// with as many lifetimes as it declares, and lifetimes of the function.
pub fn signatures_are_well_formed()
    ensures { (p : ProgramTree) (names : List ItemNames) (t : Typed) → IsNumbered p → Meant p names → IsTyped p names t → WellSigned t.decls.items }
{}

/// Each variable of a typed program has a type in the tables of its function, and each node but items, statements and what is
/// Never (Rust Reference, "Never type").
pub fn all_have_types()
    ensures { (p : ProgramTree) (names : List ItemNames) (t : Typed) → IsTyped p names t → EachTyped names 0 p t.functions }
{}

/// Structs and enums of what a program declares are within the limits, so a table of how many parts they have in 64 bits
/// tells just that.
pub fn sizes_are_sized()
    ensures { (p : ProgramTree) (names : List ItemNames) (items : List Decl) (sizes : List ℕ) → Declares p names items → IsSizes (declarations items) sizes
        → Sized (declarations items) (told sizes) }
{
    declared_are_finite();
    one_size_each();
}

/// The same of what a typed program declares.
pub fn typed_sizes_are_sized()
    ensures { (p : ProgramTree) (names : List ItemNames) (t : Typed) (sizes : List ℕ) → IsTyped p names t → IsSizes (declarations t.decls.items) sizes
        → Sized (declarations t.decls.items) (told sizes) }
{
    sizes_are_sized();
}

/// A typed program is well-typed, with the declarations and the functions of each way to see that it is; and a program is well-typed, or has a fault of types that is no want of memory, and not both.
/// So of a well-typed program `typecheck` answers its types, or want of memory.
pub fn well_typed_or_wrong()
    ensures typed { (p : ProgramTree) (names : List ItemNames) (t : Typed) → IsTyped p names t → WellTyped p names }
    ensures either { (p : ProgramTree) (names : List ItemNames) → IsNumbered p → WellTyped p names ⊎ ((e : TypeFault) × (e ≢ fault.OutOfMemory) × Causes p names e) }
    ensures one { (p : ProgramTree) (names : List ItemNames) (t : Typed) → IsTyped p names t → (w : WellTyped p names)
        → (map unrecorded t.decls.items ≡ map unrecorded w.declared) × EachIsOf (known w.declared w.sizes) t.functions (functions_of p names w) }
    ensures not_both { (p : ProgramTree) (names : List ItemNames) (e : TypeFault) → WellTyped p names → Causes p names e → ⊥ }
{
    declared_are_finite();
    demands_are_orderly();
    one_size_each();
}
