//! Laws, each the contract of a function that does nothing.

ghost use Rattle.std.specs.Prelude.{◌≡◌, ◌↔◌, ℕ, ◌<◌, Bool, List, [], length, Option, Ok, true};
ghost use Rattle.rx_core.specs.declared.types.Span.{Span};
ghost use Rattle.rx_tree.specs.Plain as plain;
ghost use Rattle.rx_tree.specs.Plain.{Function, ProgramTree};
ghost use Rattle.rx_resolve_names.specs.declared.resolved.ItemNames.{ItemNames};
ghost use Rattle.rx_resolve_names.specs.declared.resolved.NodeNames.{NodeNames};
ghost use Rattle.rx_resolve_names.specs.Scopes.{DeclaredNames, Variables};
ghost use Rattle.rx_resolve_names.specs.Meant.{Around};
ghost use Rattle.rx_resolve_names.specs.Causes.{Meant};
ghost use Rattle.rx_resolve_names.specs.Items.{in_function, in_item, lifetimes_of};
ghost use Rattle.rx_typed.specs.declared.declarations.Decl.{Decl};
ghost use Rattle.rx_typed.specs.Naming.{has_entry, function_named, function_spans, function_variables, function_annotations};
ghost use Rattle.rx_typed.specs.Regions.{regions};
ghost use Rattle.rx_lower_walks.specs.Graph.{Site};
ghost use Rattle.rx_lower_walks.specs.Text.{actions_of};
ghost use Rattle.rx_region.specs.Constraints.{Context};
ghost use Rattle.rx_region.specs.Known.{KnownToOutlive};
ghost use Rattle.rx_region.specs.Solutions.{Least, end, site};
ghost use Rattle.rx_compact_lifetimes.specs.declared.rewriting.Rewriting.{Rewriting};
ghost use Rattle.rx_compact_lifetimes.specs.Merged.{merged, mergings_of};
ghost use Rattle.rx_compact_lifetimes.specs.Elided.{elided, elisions, in_body};
ghost use Rattle.rx_compact.specs.Compacted.{compacted};
ghost use Rattle.rx_compact.specs.Outliving.{Outlives};
ghost use Rattle.rx_compact_laws.specs.Alongside.{AllBecome, SameItems, StandsBeside, aside, in_both};
ghost use Rattle.rx_compact_laws.specs.Beside.{InBoth, Beside, IsRewritten, LetsBeside, Nothing};
ghost use Rattle.rx_compact_laws.specs.Resolved.{IsElsewhere, StaysNumbered, inside};
ghost use Rattle.rx_compact_laws.specs.ShortNames.{NamesStay};
ghost use Rattle.rx_compact_laws.specs.MergedSignatures.{IsUnder, MergesKnown, MergesAll};
ghost use Rattle.rx_compact_laws.specs.MergedLifetimes.{AreMerged};

/// Where lifetimes of a signature become one only if they are known to outlive each other, as much is known of them as before; and of
/// those that become one wherever they are, no two of the new ones are known to outlive each other.
pub fn merged_signatures_know_the_same()
    ensures same { (old new : List Decl) (d e : Option Decl) (f : ℕ → ℕ) → regions new ≡ regions old → IsUnder f d e → MergesKnown old d f
        → (l k : ℕ) → Outlives new e (f l) (f k) ↔ Outlives old d l k }
    ensures apart { (old new : List Decl) (d e : Option Decl) (f : ℕ → ℕ) → regions new ≡ regions old → IsUnder f d e → MergesKnown old d f → (these : ℕ → Bool) → MergesAll old d f these
        → (l k : ℕ) → these l ≡ true → these k ≡ true → Outlives new e (f l) (f k) → Outlives new e (f k) (f l) → f l ≡ f k }
{}

/// Where lifetimes become one that are asked to outlive each other, or of a function's own are known to, each has the sites that it had
/// in the least sets, and each end that it has is of one which it is known to outlive, exactly where that was so.
pub fn merged_lifetimes_stay()
    ensures sites { (f : ℕ → ℕ) (old new : Context) (g : List Site) → AreMerged f old new (actions_of g) → (l p : ℕ) → p < length g → Least old g l (site p) ↔ Least new g (f l) (site p) }
    ensures pairs { (f : ℕ → ℕ) (old new : Context) (g : List Site) → AreMerged f old new (actions_of g)
        → ((l k : ℕ) → l < old.lifetimes.own → k < old.lifetimes.own → Least old g l (end k) → KnownToOutlive old l k)
        ↔ ((l k : ℕ) → l < new.lifetimes.own → k < new.lifetimes.own → Least new g l (end k) → KnownToOutlive new l k) }
{}

/// A function whose lifetimes are written otherwise has the same tree with numbers, with the same spans and variables, where its entries
/// of names stand beside those of before. So with the same types it has the same typed tree. And its `let`s with a type stand beside
/// those of before.
pub fn rewritten_functions_are_numbered()
    ensures tree { (signature : List Rewriting) (body : InBoth) (i : ℕ) (s : Span) (f g : Function) (old new : List NodeNames) → IsRewritten signature body.by f g → Beside signature body f g old new
        → function_named i s g new ≡ function_named i s f old }
    ensures spans { (signature : List Rewriting) (body : InBoth) (s : Span) (f g : Function) (old new : List NodeNames) → IsRewritten signature body.by f g → Beside signature body f g old new
        → function_spans s g new ≡ function_spans s f old }
    ensures variables { (signature : List Rewriting) (body : InBoth) (s : Span) (f g : Function) (old new : List NodeNames) → IsRewritten signature body.by f g → Beside signature body f g old new
        → function_variables s g new ≡ function_variables s f old }
    ensures lets { (signature : List Rewriting) (body : InBoth) (s : Span) (f g : Function) (old new : List NodeNames) → IsRewritten signature body.by f g → Beside signature body f g old new
        → LetsBeside body (function_annotations s f old) (function_annotations s g new) }
{}

/// The function of which lifetimes become one is rewritten so, and then that of which some are left out, whose body stays.
pub fn short_signatures_are_rewritten()
    ensures merged { (outlives : ℕ → ℕ → Bool) (f : Function) → IsRewritten (mergings_of outlives f) (mergings_of outlives f) f (merged outlives f) }
    ensures elided { (single : Bool) (f : Function) → IsRewritten (elisions single (in_body f.body) f) [] f (elided single f) }
{}

/// Names in a function whose lifetimes are written otherwise mean what they meant, where items have the same names, each lifetime becomes
/// a declared one or is left out, and the new list of lifetimes has a meaning; and the entries stand beside those of before.
pub fn rewritten_functions_resolve()
    ensures { (p q : ProgramTree) (i : ℕ) (old new : DeclaredNames) (spans : List Span) (signature body : List Rewriting) → SameItems p q → AllBecome signature old new → AllBecome body old new
        → (f g : Function) → IsRewritten signature body f g → (has_entry g ≡ true → has_entry f ≡ true)
        → (ns ms : List ℕ) → lifetimes_of (record { program = p; item = i; lifetimes = old }) [] 0 f.lifetimes ≡ Ok ns → lifetimes_of (record { program = q; item = i; lifetimes = new }) [] 0 g.lifetimes ≡ Ok ms
        → (scope : Variables) (around : List Around) (at : List ℕ) (t u : ItemNames) (names : List NodeNames) → in_function (record { program = p; item = i; lifetimes = old }) scope around at f t ≡ Ok u
        → StandsBeside (Beside signature (in_both body p q i old new) f g) Nothing t u names spans (in_function (record { program = q; item = i; lifetimes = new }) scope around at g (aside spans t names)) }
{}

/// So where a function resolves, the same with lifetimes written otherwise does, with the same variables and the same tree with numbers,
/// and with `let`s that stand beside those of before.
pub fn rewritten_functions_stay()
    ensures { (signature body : List Rewriting) (p q : ProgramTree) (n : ℕ) (s : Span) (f g : Function) → IsElsewhere signature body p q n s f g → (a : ItemNames) → in_item p n (plain.function_item s f) ≡ Ok a
        → StaysNumbered body p q n s f g a }
{}

/// A program with a short signature has the items of before by their names.
pub fn short_signatures_keep_items()
    ensures { (outlives : ℕ → ℕ → Bool) (single : Bool) (p : ProgramTree) (i : ℕ) → SameItems p (compacted outlives single p i) }
{}

/// The list of lifetimes of a short signature has a meaning, and each lifetime becomes one that it declares, or none: where some become
/// one, and where some are left out.
pub fn short_lists_have_a_meaning()
    ensures merged { (outlives : ℕ → ℕ → Bool) (p q : ProgramTree) (n : ℕ) (s : Span) (f : Function) → SameItems p q → (ns : List ℕ) → lifetimes_of (inside p n s f) [] 0 f.lifetimes ≡ Ok ns
        → IsElsewhere (mergings_of outlives f) (mergings_of outlives f) p q n s f (merged outlives f) }
    ensures elided { (single : Bool) (p q : ProgramTree) (n : ℕ) (s : Span) (f : Function) → SameItems p q → (ns : List ℕ) → lifetimes_of (inside p n s f) [] 0 f.lifetimes ≡ Ok ns
        → IsElsewhere (elisions single (in_body f.body) f) (elisions single (in_body f.body) f) p q n s f (elided single f) }
{}

/// So names in a program with a short signature have a meaning: the tables of all items but the function's are as they were, and the
/// function has the same variables and the same tree with numbers.
pub fn short_signatures_resolve()
    ensures { (outlives : ℕ → ℕ → Bool) (single : Bool) (p : ProgramTree) (i : ℕ) (names : List ItemNames) → Meant p names → NamesStay outlives single p i names }
{}
