//! Laws of what an extraction declares, each as the contract of a function that does nothing.

ghost use Rattle.std.specs.Prelude.{◌≡◌, ℕ, suc, true, length, List as ListOf, Ok, Some, slice_get};
ghost use Rattle.rx_core.specs.declared.types.Span.{Span};
ghost use Rattle.rx_tree.specs.Lists.{nth};
ghost use Rattle.rx_tree.specs.Plain as plain;
ghost use Rattle.rx_tree.specs.Plain.{Function, ItemTree, ProgramTree};
ghost use Rattle.rx_resolve_names.specs.declared.resolved.ItemNames.{ItemNames};
ghost use Rattle.rx_resolve_names.specs.Causes.{Meant};
ghost use Rattle.rx_resolve_names.specs.Items.{in_item, in_program};
ghost use Rattle.rx_typed.specs.PlainTypes.{plain-Decl, declarations};
ghost use Rattle.rx_typed.specs.declared.declarations.Decl.{Decl};
ghost use Rattle.rx_typed_declarations.specs.Sizes.{IsSizes};
ghost use Rattle.rx_typeck_solver.specs.Stepping.{known};
ghost use Rattle.rx_typeck_typed.specs.Items.{declared_item};
ghost use Rattle.rx_typeck_typed.specs.Programs.{Declares};
ghost use Rattle.rx_typeck_typed.specs.declared.typed.Typed.{Typed};
ghost use Rattle.rx_typeck_typed.specs.Typing.{known_in, IsTyped};
ghost use Rattle.rx_hoist_extraction.specs.Run.{Run};
ghost use Rattle.rx_hoist_extraction.specs.Plan.{has_enum, Bounds, Plan};
ghost use Rattle.rx_hoist_extraction.specs.Pinned.{pinned_function};
ghost use Rattle.rx_hoist_extraction.specs.Extraction.{added, extraction, new_number, with_call};
ghost use Rattle.rx_engine_names.specs.Insertion.{number_there, past, Inserted};
ghost use Rattle.rx_engine_names.specs.NewNames.{AreFree};
ghost use Rattle.rx_engine_names.specs.NewPlan.{TypesNamed};
ghost use Rattle.rx_engine_blocks.specs.Knows.{Knows};
ghost use Rattle.rx_engine_declared.specs.Declaring.{DeclaresAs, SameSignature};
ghost use Rattle.rx_engine_declared.specs.NewItems.{declared_enum, declared_function};

use rx_typeck_typed::declared_are_finite;
use rx_typed_declarations::one_size_each;

/// What a program declares of an item is what the item's text declares, whose types name what is found by their names.
pub fn items_declare_by_their_text()
    ensures { (p : ProgramTree) (n : ℕ) (i : ItemTree) (t : ItemNames) (d : Decl) → in_item p n i ≡ Ok t → declared_item p t.names i ≡ Ok d → DeclaresAs p i (plain-Decl d) }
{}

/// What is known of the items of a program is known of them where new items stand behind a function whose signature stays, by the
/// numbers that they have there; nodes and variables may have any.
pub fn declarations_stay()
    ensures { (p q : ProgramTree) (c : Inserted p q) → SameSignature c.old c.changed → (ns ms : ListOf ItemNames) → in_program p ≡ Ok ns → in_program q ≡ Ok ms
        → (ds es : ListOf Decl) → Declares p ns ds → Declares q ms es → (sizes sizes' : ListOf ℕ) → IsSizes (declarations ds) sizes → IsSizes (declarations es) sizes'
        → (nodes variables : ℕ → ℕ) → Knows (record { nodes = nodes; variables = variables; items = number_there c }) (known ds sizes) (known es sizes') }
{
    one_size_each();
    declared_are_finite();
}

/// So it is of two typed programs, with what each declares and its own table of parts.
pub fn typed_programs_declare_what_stays()
    ensures { (p q : ProgramTree) (c : Inserted p q) → SameSignature c.old c.changed → (ns ms : ListOf ItemNames) → Meant p ns → Meant q ms
        → (t u : Typed) (a : IsTyped p ns t) (b : IsTyped q ms u) (nodes variables : ℕ → ℕ)
        → Knows (record { nodes = nodes; variables = variables; items = number_there c }) (known_in (record { program = p; declared = a.declared; sizes = a.sizes })) (known_in (record { program = q; declared = b.declared; sizes = b.sizes })) }
{
    one_size_each();
    declared_are_finite();
}

/// The extraction is such a program: its function with the call has the signature of the function of the run, since only its body is
/// another. So what is known of the text's items is known of them in the extraction.
pub fn extractions_declare_what_stays()
    ensures inserted { (p : ProgramTree) (r : Run) (plan : Plan) (bounds : Bounds) (s : Span) (f : Function) → nth p r.item ≡ Some (plain.function_item s f) → AreFree p plan
        → (c : Inserted p (extraction p r plan bounds)) × (c.old ≡ f) × (c.changed ≡ with_call p r plan (pinned_function p r.span plan.pins f)) × (c.place ≡ s) × (length c.before ≡ r.item) × SameSignature c.old c.changed
        × ((n : ℕ) → number_there c n ≡ past r.item (added plan) n) }
    ensures known { (p : ProgramTree) (r : Run) (plan : Plan) (bounds : Bounds) (s : Span) (f : Function) → nth p r.item ≡ Some (plain.function_item s f) → AreFree p plan
        → (ns ms : ListOf ItemNames) → in_program p ≡ Ok ns → in_program (extraction p r plan bounds) ≡ Ok ms
        → (ds es : ListOf Decl) → Declares p ns ds → Declares (extraction p r plan bounds) ms es
        → (sizes sizes' : ListOf ℕ) → IsSizes (declarations ds) sizes → IsSizes (declarations es) sizes'
        → (nodes variables : ℕ → ℕ) → Knows (record { nodes = nodes; variables = variables; items = past r.item (added plan) }) (known ds sizes) (known es sizes') }
{
    one_size_each();
    declared_are_finite();
}

/// The new items declare what the plan tells: the new function the types of its params as they are passed, and as its result the enum of
/// exits or what the end of the run hands out; the enum, which stands where an exit leaves the run, a variant for each exit.
pub fn new_items_declare_by_the_plan()
    ensures { (p : ProgramTree) (r : Run) (plan : Plan) (bounds : Bounds) (s : Span) (f : Function) → nth p r.item ≡ Some (plain.function_item s f) → AreFree p plan → TypesNamed p plan
        → (ns ms : ListOf ItemNames) → in_program p ≡ Ok ns → in_program (extraction p r plan bounds) ≡ Ok ms → (es : ListOf Decl) → Declares (extraction p r plan bounds) ms es
        → (nodes variables : ℕ → ℕ)
        → (slice_get (declarations es) (new_number r plan) ≡ Some (declared_function (record { nodes = nodes; variables = variables; items = past r.item (added plan) }) (suc r.item) plan))
        × (has_enum plan.exits ≡ true → slice_get (declarations es) (suc r.item) ≡ Some (declared_enum (record { nodes = nodes; variables = variables; items = past r.item (added plan) }) p plan)) }
{}
