//! Laws, each the contract of a function that does nothing.

ghost use Rattle.std.specs.Prelude.{◌≡◌, ℕ, Bool, List, Option, Some, map, option_map, slice_get};
ghost use Rattle.rx_core.specs.declared.types.Span.{Span};
ghost use Rattle.rx_tree.specs.Plain.{TypeTree, Parameter, Function, ProgramTree};
ghost use Rattle.rx_tree.specs.Plain as plain;
ghost use Rattle.rx_tree.specs.Erase.{erase_type, erase_parameter, SameProgram};
ghost use Rattle.rx_lex.specs.Tok.{Tok};
ghost use Rattle.rx_parse_grammar.specs.grammar.Words.{IsListOf};
ghost use Rattle.rx_parse_grammar.specs.grammar.Types.{IsType};
ghost use Rattle.rx_parse_grammar.specs.grammar.Items.{IsParameter, IsResult, Parses};
ghost use Rattle.rx_compact.specs.Compacted.{compacted};
ghost use Rattle.rx_compact_text.specs.CompactedText.{compacted_text};
ghost use Rattle.rx_compact_read.specs.Halves.{halves_of};

/// Tokens of which each `&&` counts as two `&` are derived alike as a type, as parameters and as a result, with as many levels.
pub fn halves_are_derived_alike()
    ensures types { (ts us : List Tok) (y : TypeTree) (h : ℕ) → halves_of us ≡ halves_of ts → IsType ts y h → (z : TypeTree) × IsType us z h × (erase_type z ≡ erase_type y) }
    ensures parameters { (ts us : List Tok) (xs : List Parameter) (h : ℕ) → halves_of us ≡ halves_of ts → IsListOf IsParameter ts xs h
        → (ys : List Parameter) × IsListOf IsParameter us ys h × (map erase_parameter ys ≡ map erase_parameter xs) }
    ensures results { (ts us : List Tok) (y : Option TypeTree) (h : ℕ) → halves_of us ≡ halves_of ts → IsResult ts y h
        → (z : Option TypeTree) × IsResult us z h × (option_map erase_type z ≡ option_map erase_type y) }
{}

/// The text of a short signature of a function is read as the program with it, apart from spans, whatever is known of its lifetimes.
pub fn short_signatures_are_read()
    ensures { (text : List ℕ) (p : ProgramTree) (parses : Parses text p) (i : ℕ) (s : Span) (f : Function) → slice_get p i ≡ Some (plain.function_item s f)
        → (outlives : ℕ → ℕ → Bool) (single : Bool) → (q : ProgramTree) × Parses (compacted_text outlives single text parses.tokens f) q × SameProgram q (compacted outlives single p i) }
{}
