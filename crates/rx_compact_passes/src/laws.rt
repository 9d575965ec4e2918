//! Laws, each the contract of a function that does nothing.

ghost use Rattle.rx_tree.specs.Plain.{ProgramTree};
ghost use Rattle.rx_tree.specs.Size.{IsNumbered};
ghost use Rattle.std.specs.Prelude.{ℕ};
ghost use Rattle.rx_typeck_typed.specs.Typing.{IsTyped};
ghost use Rattle.rx_typeck_typed.specs.declared.typed.Typed.{Typed};
ghost use Rattle.rx_compact.specs.Compacted.{IsCompacted};
ghost use Rattle.rx_compact_types.specs.ShortTyped.{ShortProgram};
ghost use Rattle.rx_compact_passes.specs.PassAlike.{PassAlike};

use rx_typeck_typed::declared_are_finite;
use rx_typed_declarations::one_size_each;

/// A program in which a function has a short signature, typed, has its matches covered and its functions initialised exactly where they
/// were, and the same sites.
pub fn short_signatures_pass_alike()
    ensures { (p : ProgramTree) (i : ℕ) (q : ProgramTree) (c : IsCompacted p i q) → IsNumbered p → (s : ShortProgram p i q c.names c.declared)
        → (t u : Typed) → IsTyped p c.names t → IsTyped q s.news u → PassAlike t u }
{
    declared_are_finite();
    one_size_each();
}
