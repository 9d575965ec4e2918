//! Laws, each the contract of a function that does nothing.

ghost use Rattle.std.specs.Prelude.{◌≡◌, ℕ, List, Some, slice_get, ℤ};
ghost use Rattle.rx_core.specs.declared.types.Span.{Span};
ghost use Rattle.rx_core.specs.declared.types.Bound.{Bound};
ghost use Rattle.rx_core.specs.declared.types.Ty.{Ty};
ghost use Rattle.rx_tree.specs.Plain.{Function, ProgramTree};
ghost use Rattle.rx_tree.specs.Plain as plain;
ghost use Rattle.rx_tree.specs.Erase.{SameProgram};
ghost use Rattle.rx_tree.specs.Size.{IsNumbered};
ghost use Rattle.rx_parse_grammar.specs.grammar.Items.{Parses};
ghost use Rattle.rx_typed.specs.declared.declarations.Decl.TheVariants as decl;
ghost use Rattle.rx_typeck_typed.specs.Typing.{IsTyped};
ghost use Rattle.rx_typeck_typed.specs.declared.typed.Typed.{Typed};
ghost use Rattle.rx_check.specs.Front.{IsCheckedOf, Judged};
ghost use Rattle.rx_check.specs.Passes.{IsAccepted};
ghost use Rattle.rx_check_laws.specs.SameTyped.{SameTyped};
ghost use Rattle.rx_meaning.specs.Programs.{run};
ghost use Rattle.rx_machine.specs.Functions.{program_of};
ghost use Rattle.rx_compact.specs.Outliving.{is_single};
ghost use Rattle.rx_compact.specs.Compacted.{IsCompacted};
ghost use Rattle.rx_compact_types.specs.ShortTyped.{ShortProgram};
ghost use Rattle.rx_compact_text.specs.CompactedText.{compacted_text};
ghost use Rattle.rx_compact_call.specs.Shortened.{IsShortened};

use rx_check_laws::acceptance_ignores_spans;
use rx_compact_accepted::short_signatures_are_accepted_alike;
use rx_compact_call::short_texts_are_read;
use rx_compact_read::short_signatures_are_read;
use rx_compact_types::short_signatures_are_typed;
use rx_typeck_typed::well_typed_or_wrong;

/// The text of a short signature is read as a program that is accepted, with the same types, where the program with the short signature
/// is; so it is accepted where the given text is.
pub fn short_texts_are_accepted()
    ensures read { (text : List ℕ) (p : ProgramTree) (parses : Parses text p) (i : ℕ) (q : ProgramTree) (c : IsCompacted p i q) (s : Span) (f : Function) → slice_get p i ≡ Some (plain.function_item s f)
        → (u : Typed) → IsAccepted q u
        → (x : ProgramTree) × Parses (compacted_text c.outlives (is_single (slice_get c.declared i)) text parses.tokens f) x × (v : Typed) × IsAccepted x v × SameTyped u v }
    ensures there { (text : List ℕ) (p : ProgramTree) (parses : Parses text p) (i : ℕ) (q : ProgramTree) (c : IsCompacted p i q) (s : Span) (f : Function) → slice_get p i ≡ Some (plain.function_item s f)
        → IsNumbered p → (short : ShortProgram p i q c.names c.declared) → (n : ℕ) (ps : List Ty) (answer : Ty) (bs : List Bound) → slice_get c.declared i ≡ Some (decl.Func n ps answer bs) → (t u : Typed)
        → IsTyped p c.names t → IsTyped q short.news u → IsAccepted p t
        → (x : ProgramTree) × Parses (compacted_text c.outlives (is_single (slice_get c.declared i)) text parses.tokens f) x × (v : Typed) × IsAccepted x v × SameTyped u v }
{
    acceptance_ignores_spans();
    short_signatures_are_accepted_alike();
    short_signatures_are_read();
}

/// A program that is equal apart from spans to another runs as it does, for every input and in every number of turns, where both are
/// accepted.
pub fn runs_ignore_spans()
    ensures { (p q : ProgramTree) → SameProgram p q → (x y : Judged) → IsCheckedOf p x → IsCheckedOf q y → (input : List ℤ) (n : ℕ)
        → run (program_of y.front.typed y.front.main) input n ≡ run (program_of x.front.typed x.front.main) input n }
{
    acceptance_ignores_spans();
    well_typed_or_wrong();
}

/// What `compact` answers of a text is read as a program that runs as the text does, for every input and in every number of turns, where
/// it is accepted.
pub fn short_texts_run_alike()
    ensures { (text name bytes : List ℕ) (s : IsShortened text name bytes) → (q : ProgramTree) × Parses bytes q
        × ((x y : Judged) → IsCheckedOf s.program x → IsCheckedOf q y → (input : List ℤ) (n : ℕ)
        → run (program_of y.front.typed y.front.main) input n ≡ run (program_of x.front.typed x.front.main) input n) }
{
    acceptance_ignores_spans();
    short_signatures_are_typed();
    short_texts_are_read();
    well_typed_or_wrong();
}
