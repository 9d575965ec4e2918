//! Laws, each the contract of a function that does nothing.

ghost use Rattle.std.specs.Prelude.{◌≡◌, ℕ, List};
ghost use Rattle.rx_tree.specs.Plain.{ProgramTree};
ghost use Rattle.rx_tree.specs.Erase.{SameProgram};
ghost use Rattle.rx_parse_grammar.specs.grammar.Items.{Parses};
ghost use Rattle.rx_compact.specs.Compacted.{IsCompacted};
ghost use Rattle.rx_compact_call.specs.Shortened.{IsShortened, IsUnnamed};

use rx_compact_read::short_signatures_are_read;

/// A text has one text with a short signature of its function of a name, and none where it has no such function.
pub fn short_texts_are_one()
    ensures one { (text name a b : List ℕ) → IsShortened text name a → IsShortened text name b → a ≡ b }
    ensures named { (text name a : List ℕ) → IsShortened text name a → IsUnnamed text name → ⊥ }
{}

/// The text with a short signature is read as the program with it, apart from spans.
pub fn short_texts_are_read()
    ensures { (text name bytes : List ℕ) (s : IsShortened text name bytes) → (q : ProgramTree) × (x : ProgramTree) × IsCompacted s.program s.number q × Parses bytes x × SameProgram x q }
{
    short_signatures_are_read();
}
