//! Laws, each the contract of a function that does nothing.

ghost use Rattle.std.specs.Prelude.{◌≡◌, ℕ, List, [], Some};
ghost use Rattle.rx_tree.specs.declared.tree.Ident.{Ident};
ghost use Rattle.rx_compact_text.specs.CompactedText.{argument_edits, reference_edits};

/// A lifetime that keeps its name has no edit.
pub fn unchanged_lifetimes_stay()
    ensures reference { (text : List ℕ) (x : Ident) → reference_edits text x (Some x.name) ≡ [] }
    ensures argument { (x : Ident) → argument_edits x (Some x.name) ≡ [] }
{}
