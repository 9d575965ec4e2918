//! Laws, each the contract of a function that does nothing.

ghost use Rattle.std.specs.Prelude.{◌≡◌, ℕ, List, ℤ};
ghost use Rattle.rx_tree.specs.Plain.{ProgramTree};
ghost use Rattle.rx_meaning.specs.Programs.{run};
ghost use Rattle.rx_typeck_typed.specs.Typing.{IsTyped};
ghost use Rattle.rx_typeck_typed.specs.declared.typed.Typed.{Typed};
ghost use Rattle.rx_check.specs.Front.{IsCheckedOf, Judged};
ghost use Rattle.rx_machine.specs.Functions.{program_of};
ghost use Rattle.rx_compact.specs.Compacted.{IsCompacted};
ghost use Rattle.rx_tree.specs.Size.{IsNumbered};
ghost use Rattle.rx_compact_types.specs.ShortTyped.{ShortProgram};

use rx_compact_types::short_signatures_are_typed;
use rx_typeck_typed::well_typed_or_wrong;

/// A program in which a function has a short signature runs as it did, for every input and in every number of turns: typed, it is the
/// same program of the meaning; so it is where both are accepted.
pub fn short_signatures_run_alike()
    ensures typed { (p : ProgramTree) (i : ℕ) (q : ProgramTree) (c : IsCompacted p i q) → IsNumbered p → (s : ShortProgram p i q c.names c.declared)
        → (t u : Typed) → IsTyped p c.names t → IsTyped q s.news u → (m : ℕ) → program_of u m ≡ program_of t m }
    ensures accepted { (p : ProgramTree) (i : ℕ) (q : ProgramTree) → IsCompacted p i q → (x y : Judged) → IsCheckedOf p x → IsCheckedOf q y → (input : List ℤ) (n : ℕ)
        → run (program_of y.front.typed y.front.main) input n ≡ run (program_of x.front.typed x.front.main) input n }
{
    short_signatures_are_typed();
    well_typed_or_wrong();
}
