//! Laws of the extraction, each as the contract of a function that does nothing.

ghost use Rattle.std.specs.Prelude.{◌≡◌, ◌≢◌, ℕ, suc, ◌+◌, ◌≤◌, ◌<◌, ◌^◌, true, false, List, ◌++◌, length, map, take, drop, Some, None, codes};
ghost use Rattle.rx_core.specs.declared.types.Span.{Span};
ghost use Rattle.rx_tree.specs.Plain as plain;
ghost use Rattle.rx_tree.specs.Plain.{Body, Expression, Function, ProgramTree};
ghost use Rattle.rx_tree.specs.Lists.{nth, statements, Every};
ghost use Rattle.rx_tree.specs.Erase.{SameProgram};
ghost use Rattle.rx_lex.specs.declared.token.Class.TheVariants.{Lifetime};
ghost use Rattle.rx_lex.specs.Words.{IsWord, is_identifier};
ghost use Rattle.rx_resolve_names.specs.Meant.{Around};
ghost use Rattle.rx_hoist_extraction.specs.Names.{Distinct, Names, is_among};
ghost use Rattle.rx_hoist_extraction.specs.Run.{Parts, Run, goes_past, run_block};
ghost use Rattle.rx_hoist_extraction.specs.Plan.{Bounds, Exit, Plan, enum_name, exit_name, has_enum};
ghost use Rattle.rx_hoist_extraction.specs.Fresh.{fresh, fresh_lifetime, fresh_variable};
ghost use Rattle.rx_hoist_extraction.specs.Changed.{changed, changed_body, kept};
ghost use Rattle.rx_hoist_extraction.specs.Pinned.{pinned_function};
ghost use Rattle.rx_hoist_extraction.specs.WrittenTypes.{elided, full, lifetimes_from};
ghost use Rattle.rx_hoist_extraction.specs.Limits.{count_lifetimes, count_parameters};
ghost use Rattle.rx_print_spelling.specs.Formed.{FormedProgram};
ghost use Rattle.rx_print_spelling.specs.Levels.{type_levels};
ghost use Rattle.rx_typed.specs.Types.{Typ, levels};
ghost use Rattle.rx_hoist_extraction.specs.NewEnum.{enum_positions, new_enum};
ghost use Rattle.rx_hoist_extraction.specs.NewFunction.{copied_lifetimes, new_function, signature_positions};
ghost use Rattle.rx_hoist_extraction.specs.OwnLifetimes.{declared_lifetimes, idents, in_signature, in_variants};
ghost use Rattle.rx_hoist_extraction.specs.FormedPlan.{FormedPlan};
ghost use Rattle.rx_hoist_extraction.specs.FreeName.{FreeName};
ghost use Rattle.rx_hoist_extraction.specs.Extraction.{Extracted, added, extraction, in_two, made_enum, made_function, new_number, replacing, with_call};
ghost use Rattle.rx_hoist_extraction.specs.Elsewhere.{BlockElsewhere, ExpressionElsewhere};

/// A program has one extraction of a run by a plan with bounds, apart from spans.
pub fn one_extraction()
    ensures { (p : ProgramTree) (r : Run) (plan : Plan) (bounds : Bounds) (a b : ProgramTree) → Extracted p r plan bounds a → Extracted p r plan bounds b → SameProgram a b }
{}

/// A fresh name is none of those that are taken, and two fresh names of one word are not the same.
pub fn fresh_names()
    ensures free { (word : List ℕ) (taken : Names) (i : ℕ) → length taken + suc i ≤ 2 ^ 64 → is_among (fresh word taken i) taken ≡ false }
    ensures differ { (word : List ℕ) (taken : Names) (i j : ℕ) → i < j → length taken + suc j ≤ 2 ^ 64 → fresh word taken i ≡ fresh word taken j → ⊥ }
{}

/// Where nothing becomes anything else, a part stays as it is.
pub fn kept_is_same()
    ensures expression { (own : Names) (around : List Around) (e : Expression) → changed kept own around e ≡ e }
    ensures block { (own : Names) (around : List Around) (b : Body) → changed_body kept own around b ≡ b }
{}

/// Where no block stands at a place, putting another block in there changes nothing.
pub fn elsewhere_is_same()
    ensures expression { (place : Span) (new : Body) (own : Names) (around : List Around) (e : Expression) → ExpressionElsewhere place e → changed (replacing place new) own around e ≡ e }
    ensures block { (place : Span) (new : Body) (own : Names) (around : List Around) (b : Body) → BlockElsewhere place b → changed_body (replacing place new) own around b ≡ b }
{}

/// The items of an extraction: those in front of the function of the run, that function with the call, the new items, those behind.
pub fn items_stand()
    ensures items { (p : ProgramTree) (r : Run) (plan : Plan) (bounds : Bounds) (s : Span) (f : Function) → nth p r.item ≡ Some (plain.function_item s f)
        → extraction p r plan bounds ≡ take r.item p ++ (in_two p r plan bounds s (pinned_function p r.span plan.pins f) ++ drop (suc r.item) p) }
    ensures old { (p : ProgramTree) (r : Run) (plan : Plan) (bounds : Bounds) (s : Span) (f : Function) → nth p r.item ≡ Some (plain.function_item s f)
        → nth (extraction p r plan bounds) r.item ≡ Some (plain.function_item s (with_call p r plan (pinned_function p r.span plan.pins f))) }
    ensures new { (p : ProgramTree) (r : Run) (plan : Plan) (bounds : Bounds) (s : Span) (f : Function) → nth p r.item ≡ Some (plain.function_item s f)
        → nth (extraction p r plan bounds) (new_number r plan) ≡ Some (made_function p r plan bounds (pinned_function p r.span plan.pins f)) }
    ensures exits { (p : ProgramTree) (r : Run) (plan : Plan) (bounds : Bounds) (s : Span) (f : Function) → nth p r.item ≡ Some (plain.function_item s f)
        → has_enum plan.exits ≡ true → nth (extraction p r plan bounds) (suc r.item) ≡ Some (made_enum p r plan) }
    ensures front { (p : ProgramTree) (r : Run) (plan : Plan) (bounds : Bounds) (k : ℕ) → k < r.item → nth (extraction p r plan bounds) k ≡ nth p k }
    ensures behind { (p : ProgramTree) (r : Run) (plan : Plan) (bounds : Bounds) (s : Span) (f : Function) → nth p r.item ≡ Some (plain.function_item s f)
        → (k : ℕ) → r.item < k → nth (extraction p r plan bounds) (k + added plan) ≡ nth p k }
{}

/// The signature of a new function has a fresh lifetime at each position, in order, parameters first. The function declares those
/// that types in the run name and then the fresh ones, each once where the former are lifetimes of the text. An enum of exits has
/// a lifetime parameter of its own at each position of its variants, in order, each declared once.
pub fn own_lifetimes()
    ensures signature { (p : ProgramTree) (plan : Plan) (bounds : Bounds) (s : Span) (around : List Around) (run : Parts)
        → in_signature (new_function p plan bounds s around run) ≡ map (λ l. Some l) (lifetimes_from s (fresh_lifetime plan.lifetimes) 0 (signature_positions p plan)) }
    ensures declared { (p : ProgramTree) (plan : Plan) (bounds : Bounds) (s : Span) (around : List Around) (run : Parts)
        → declared_lifetimes (new_function p plan bounds s around run) ≡ idents (copied_lifetimes run) ++ idents (lifetimes_from s (fresh_lifetime plan.lifetimes) 0 (signature_positions p plan)) }
    ensures once { (p : ProgramTree) (plan : Plan) (bounds : Bounds) (s : Span) (around : List Around) (run : Parts) → length plan.lifetimes + signature_positions p plan ≤ 2 ^ 64
        → Every (λ x. is_among x plan.lifetimes ≡ true) (idents (copied_lifetimes run)) → Distinct (declared_lifetimes (new_function p plan bounds s around run)) }
    ensures exits { (p : ProgramTree) (plan : Plan) (s : Span) → in_variants (new_enum p plan s).variants ≡ map (λ l. Some l) (new_enum p plan s).lifetimes }
    ensures exits_once { (p : ProgramTree) (plan : Plan) (s : Span) → length plan.lifetimes + enum_positions p plan ≤ 2 ^ 64 → Distinct (idents (new_enum p plan s).lifetimes) }
{}

/// A type that is written has the levels of the type, with lifetimes or without.
pub fn written_levels()
    ensures full { (p : ProgramTree) (s : Span) (row : ℕ → List ℕ) (n : ℕ) (t : Typ) → type_levels (full p s row n t) ≡ levels t }
    ensures elided { (p : ProgramTree) (s : Span) (t : Typ) → type_levels (elided p s t) ≡ levels t }
{}

/// The new function has as many parameters and lifetimes as are counted of the plan.
pub fn counts_are_exact()
    ensures parameters { (p : ProgramTree) (plan : Plan) (bounds : Bounds) (s : Span) (around : List Around) (run : Parts) → length (new_function p plan bounds s around run).params ≡ count_parameters plan }
    ensures lifetimes { (p : ProgramTree) (plan : Plan) (bounds : Bounds) (s : Span) (around : List Around) (run : Parts) → length (new_function p plan bounds s around run).lifetimes ≡ count_lifetimes p plan run }
{}

/// The names that an extraction makes are words of the language: that of the enum wherever the new function's is, those of its
/// variants, fresh variables and fresh lifetimes.
pub fn made_names_are_words()
    ensures exits { (plan : Plan) → is_identifier plan.name ≡ true → is_identifier (enum_name plan) ≡ true }
    ensures variants { (x : Exit) → is_identifier (exit_name x) ≡ true }
    ensures variables { (taken : Names) (i : ℕ) → length taken + suc i ≤ 2 ^ 64 → is_identifier (fresh_variable taken i) ≡ true }
    ensures lifetimes { (taken : Names) (i : ℕ) → length taken + suc i ≤ 2 ^ 64 → IsWord Lifetime (fresh_lifetime taken i) × (fresh_lifetime taken i ≢ codes "'_") }
{}

/// The extraction of a formed program is formed, so its canonical text is read back as it where it is low enough: where the names
/// of the plan are words, and a run that has a value holds its block's tail.
pub fn extractions_are_formed()
    ensures { (p : ProgramTree) (r : Run) (plan : Plan) (bounds : Bounds) (s : Span) (f : Function) → FormedProgram p → FormedPlan p plan → nth p r.item ≡ Some (plain.function_item s f)
        → (goes_past r (statements (run_block r (pinned_function p r.span plan.pins f))) ≡ false → plan.value ≡ None) → FormedProgram (extraction p r plan bounds) }
{}

/// A free name is none of the names that an extraction makes beside it, and the name of the enum is no variant's and no fresh
/// variable's.
pub fn free_names_are_new()
    ensures exits { (identifiers : Names) (plan : Plan) → FreeName identifiers plan.name → plan.name ≢ enum_name plan }
    ensures variants { (identifiers : Names) (name : List ℕ) → FreeName identifiers name → (x : Exit) → name ≢ exit_name x }
    ensures variables { (identifiers : Names) (name : List ℕ) → FreeName identifiers name → (taken : Names) (i : ℕ) → length taken + suc i ≤ 2 ^ 64 → name ≢ fresh_variable taken i }
    ensures enum_variants { (plan : Plan) (x : Exit) → enum_name plan ≢ exit_name x }
    ensures enum_variables { (plan : Plan) (taken : Names) (i : ℕ) → length taken + suc i ≤ 2 ^ 64 → enum_name plan ≢ fresh_variable taken i }
{}
