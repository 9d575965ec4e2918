//! Laws of declarations, as contracts of functions that do nothing.

ghost use Rattle.std.specs.Prelude.{ℕ, ◌<◌, List, length, slice_get};
ghost use Rattle.rx_tree.specs.Plain.{ProgramTree};
ghost use Rattle.rx_tree.specs.Size.{IsNumbered};
ghost use Rattle.rx_resolve_names.specs.declared.resolved.ItemNames.{ItemNames};
ghost use Rattle.rx_resolve_names.specs.Causes.{Meant};
ghost use Rattle.rx_typed.specs.declared.declarations.Decl.{Decl};
ghost use Rattle.rx_graph_cycles.specs.Reaches.{NoCycle};
ghost use Rattle.rx_typed.specs.Types.{Declarations, variants_declared};
ghost use Rattle.rx_typed.specs.PlainTypes.{declarations};
ghost use Rattle.rx_typed_declarations.specs.Held.{held_by_each};
ghost use Rattle.rx_typed_declarations.specs.WellFormed.{WellFormed};
ghost use Rattle.rx_typeck_typed.specs.Programs.{Fits, Declares};

/// Of what a program declares no struct or enum reaches itself, so each has one number of parts.
pub fn declared_are_finite()
    ensures { (p : ProgramTree) (D : Declarations) → Fits p D → NoCycle (held_by_each D) }
{}

/// What a program declares, whose names have a meaning, is well-formed: what structs and enums hold names what is
/// declared, with as many lifetimes.
pub fn declared_are_well_formed()
    ensures { (p : ProgramTree) (names : List ItemNames) (items : List Decl) → IsNumbered p → Meant p names → Declares p names items → WellFormed items }
{}

/// Each enum that a program declares has fewer than 2^32 variants.
pub fn declared_variants_are_few()
    ensures { (p : ProgramTree) (names : List ItemNames) (items : List Decl) → IsNumbered p → Declares p names items → (i : ℕ)
        → length (variants_declared (slice_get (declarations items) i)) < 4294967296 }
{}
