//! Laws, each the contract of a function that does nothing.

ghost use Rattle.std.specs.Prelude.{◌≡◌, ℕ, Bool, List, Some, map, slice_get};
ghost use Rattle.rx_core.specs.declared.types.Span.{Span};
ghost use Rattle.rx_tree.specs.Plain.{Function, ProgramTree};
ghost use Rattle.rx_tree.specs.Plain as plain;
ghost use Rattle.rx_lex.specs.Tok.{Tok};
ghost use Rattle.rx_lex.specs.Tokens.{Lexes};
ghost use Rattle.rx_parse_grammar.specs.grammar.Items.{IsFile};
ghost use Rattle.rx_splice.specs.Edits.{AreEdits};
ghost use Rattle.rx_splice_laws.specs.Edits.{written};
ghost use Rattle.rx_compact_text.specs.CompactedText.{compacted_edits};

/// In a text with its tokens, that are a file, the edits of a short signature of each function stand in order and apart, and begin and
/// end where characters do, whatever is known of its lifetimes.
pub fn short_signatures_fit()
    ensures { (text : List ℕ) (all : List Tok) (p : ProgramTree) (h : ℕ) → Lexes text all → IsFile all p h → (i : ℕ) (s : Span) (f : Function) → slice_get p i ≡ Some (plain.function_item s f)
        → (outlives : ℕ → ℕ → Bool) (single : Bool) → AreEdits text (map written (compacted_edits outlives single text all f)) }
{}
