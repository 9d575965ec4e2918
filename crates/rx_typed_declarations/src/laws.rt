//! Laws of declarations, each as the contract of a function that does nothing.

ghost use Rattle.std.specs.Prelude.{◌≡◌, ℕ};
ghost use Rattle.rx_graph_cycles.specs.Reaches.{NoCycle};
ghost use Rattle.rx_typed.specs.Types.{Declarations};
ghost use Rattle.rx_typed_declarations.specs.Held.{held_by_each};
ghost use Rattle.rx_typed_declarations.specs.Sizes.{Sized};

/// Where no struct or enum reaches itself, each has a number of parts, and one alone.
pub fn one_size_each()
    ensures some { (D : Declarations) → NoCycle (held_by_each D) → (P : ℕ → ℕ) × Sized D P }
    ensures one { (D : Declarations) (P Q : ℕ → ℕ) → NoCycle (held_by_each D) → Sized D P → Sized D Q → (i : ℕ) → P i ≡ Q i }
{}
