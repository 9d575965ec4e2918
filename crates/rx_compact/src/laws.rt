//! Laws, each the contract of a function that does nothing.

ghost use Rattle.std.specs.Prelude.{◌≡◌, ◌↔◌, ℕ, List, [], ◌++◌, map, get_or, Some, slice_get};
ghost use Rattle.rx_core.specs.declared.types.Bound.{Bound};
ghost use Rattle.rx_core.specs.declared.types.Ty.{Ty};
ghost use Rattle.rx_tree.specs.Plain.{Function, ProgramTree};
ghost use Rattle.rx_graph_cycles.specs.Reaches.{IsIn};
ghost use Rattle.rx_typed.specs.declared.declarations.Decl.{Decl};
ghost use Rattle.rx_typed.specs.declared.declarations.Decl.TheVariants as decl;
ghost use Rattle.rx_typed.specs.Regions.{regions, regions_of, region-Ty};
ghost use Rattle.rx_region_outlives.specs.Implied.{ImpliesOf, implied_among, implied_in};
ghost use Rattle.rx_region.specs.Tables.{Follows};
ghost use Rattle.rx_compact_lifetimes.specs.Bare.{AlikeButLifetimes};
ghost use Rattle.rx_compact_lifetimes.specs.Merged.{first_numbers, merged};
ghost use Rattle.rx_hoist_extraction.specs.Names.{Distinct};
ghost use Rattle.rx_hoist_extraction.specs.OwnLifetimes.{declared_lifetimes};
ghost use Rattle.rx_compact.specs.Outliving.{Outlives};
ghost use Rattle.rx_compact.specs.Compacted.{IsCompacted};

/// A program has one short signature of a function.
pub fn compacted_is_one()
    ensures { (p : ProgramTree) (i : ℕ) (q r : ProgramTree) → IsCompacted p i q → IsCompacted p i r → q ≡ r }
{}

/// The program with it is the same apart from the lifetimes that its functions declare and write.
pub fn only_lifetimes_change()
    ensures { (p : ProgramTree) (i : ℕ) (q : ProgramTree) → IsCompacted p i q → AlikeButLifetimes q p }
{}

/// The declared lifetimes that are left are those to which none before is known to be equal, in order, where no two have one name; and no
/// two of them are known to outlive each other.
pub fn lifetimes_are_apart()
    ensures names { (p : ProgramTree) (i : ℕ) (q : ProgramTree) (c : IsCompacted p i q) (f : Function) → Distinct (declared_lifetimes f)
        → declared_lifetimes (merged c.outlives f) ≡ map (λ l. get_or (declared_lifetimes f) l []) (first_numbers c.outlives 0 f.lifetimes) }
    ensures apart { (p : ProgramTree) (i : ℕ) (q : ProgramTree) (c : IsCompacted p i q) (f : Function) (l k : ℕ)
        → IsIn (first_numbers c.outlives 0 f.lifetimes) l → IsIn (first_numbers c.outlives 0 f.lifetimes) k
        → Outlives c.declared (slice_get c.declared i) l k → Outlives c.declared (slice_get c.declared i) k l → l ≡ k }
{}

/// What is known of a function's lifetimes is what follows from its bounds and from the pairs that its types ask, by any lists of the
/// pairs that the fields of each item ask.
pub fn known_lifetimes_follow()
    ensures { (items : List Decl) (asked : ℕ → List Bound) → ((i : ℕ) → ImpliesOf (regions items) i (asked i)) → (n : ℕ) (params : List Ty) (answer : Ty) (bounds : List Bound) (l k : ℕ)
        → Follows (bounds ++ (implied_among asked (regions_of (map region-Ty params)) ++ implied_in asked (region-Ty answer))) l k
        ↔ Outlives items (Some (decl.Func n params answer bounds)) l k }
{}
