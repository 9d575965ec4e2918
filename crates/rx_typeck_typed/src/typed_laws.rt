//! Laws of typed programs, each as the contract of a function that does nothing.

ghost use Rattle.std.specs.Prelude.{ℕ, ◌<◌, List, length, slice_get};
ghost use Rattle.rx_tree.specs.Plain.{ProgramTree};
ghost use Rattle.rx_tree.specs.Size.{IsNumbered};
ghost use Rattle.rx_resolve_names.specs.declared.resolved.ItemNames.{ItemNames};
ghost use Rattle.rx_graph_cycles.specs.Reaches.{NoCycle};
ghost use Rattle.rx_typed.specs.Types.{variants_declared};
ghost use Rattle.rx_typed.specs.PlainTypes.{declarations};
ghost use Rattle.rx_typed_declarations.specs.Held.{held_by_each};
ghost use Rattle.rx_typeck_typed.specs.Alike.{AreAlike};
ghost use Rattle.rx_typeck_typed.specs.Typing.{IsTyped, Causes};
ghost use Rattle.rx_typeck_typed.specs.declared.typed.Typed.{Typed};
ghost use Rattle.rx_typeck_typed.specs.declared.typed.TypeFault.{TypeFault};

use crate::{declared_are_finite, declared_variants_are_few};
use rx_typed_declarations::one_size_each;

/// Of what a typed program declares no struct or enum reaches itself, and each enum has fewer than 2^32 variants.
pub fn typed_declarations_are_finite()
    ensures finite { (p : ProgramTree) (names : List ItemNames) (t : Typed) → IsTyped p names t → NoCycle (held_by_each (declarations t.decls.items)) }
    ensures few { (p : ProgramTree) (names : List ItemNames) (t : Typed) → IsNumbered p → IsTyped p names t
        → (i : ℕ) → length (variants_declared (slice_get (declarations t.decls.items) i)) < 4294967296 }
{
    declared_variants_are_few();
}

/// A typed program has no fault, so `typecheck` answers one or the other by the program alone.
pub fn typed_or_wrong()
    ensures { (p : ProgramTree) (names : List ItemNames) (t : Typed) (e : TypeFault) → IsTyped p names t → Causes p names e → ⊥ }
{
    declared_are_finite();
    one_size_each();
}

/// Two typed programs of one text are alike: in their declarations, and in the places and typed trees of their functions.
pub fn one_typed_program()
    ensures { (p : ProgramTree) (names : List ItemNames) (t u : Typed) → IsTyped p names t → IsTyped p names u → AreAlike t u }
{
    declared_are_finite();
    one_size_each();
}
