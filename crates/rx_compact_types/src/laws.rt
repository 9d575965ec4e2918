//! Laws, each the contract of a function that does nothing.

ghost use Rattle.std.specs.Prelude.{◌≡◌, ◌⊎◌, ℕ, ◌<◌, ◌^◌, Bool, true, length};
ghost use Rattle.rx_core.specs.declared.types.Span.{Span};
ghost use Rattle.rx_tree.specs.Plain.{Function, ProgramTree};
ghost use Rattle.rx_tree.specs.Size.{IsNumbered};
ghost use Rattle.rx_compact.specs.Compacted.{IsCompacted};
ghost use Rattle.rx_hoist_extraction.specs.Names.{Distinct};
ghost use Rattle.rx_hoist_extraction.specs.OwnLifetimes.{declared_lifetimes};
ghost use Rattle.rx_compact_lifetimes.specs.Merged.{IsPreorder};
ghost use Rattle.rx_compact_types.specs.MergedNumbers.{merged_number};
ghost use Rattle.rx_compact_types.specs.ShortTyped.{ShortProgram};

/// A program in which a function has a short signature has a meaning, declares what it did, and the function by other numbers of its
/// lifetimes; and it is well-typed exactly where it was, with the same trees, types and places. The function's `let`s write what they did,
/// by these numbers.
pub fn short_signatures_are_typed()
    ensures { (p : ProgramTree) (i : ℕ) (q : ProgramTree) (c : IsCompacted p i q) → IsNumbered p → ShortProgram p i q c.names c.declared }
{}

/// Lifetimes that have one number where some became one are one, or known to outlive each other.
pub fn merged_numbers_are_known()
    ensures { (outlives : ℕ → ℕ → Bool) → IsPreorder outlives → (s : Span) (f : Function) → length f.lifetimes < 2 ^ 32 → Distinct (declared_lifetimes f)
        → (l k : ℕ) → merged_number outlives s f l ≡ merged_number outlives s f k → (l ≡ k) ⊎ (outlives l k ≡ true) }
{}
