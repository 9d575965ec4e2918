//! Laws, each the contract of a function that does nothing.

ghost use Rattle.std.specs.Prelude.{◌≡◌, ℕ, Bool, false, List, length, drop, Ok, Some};
ghost use Rattle.rx_core.specs.declared.types.Span.{Span};
ghost use Rattle.rx_tree.specs.Lists.{nth};
ghost use Rattle.rx_tree.specs.Plain as plain;
ghost use Rattle.rx_tree.specs.Plain.{Function};
ghost use Rattle.rx_resolve_names.specs.Scopes.{Variables};
ghost use Rattle.rx_resolve_names.specs.declared.resolved.ItemNames.{ItemNames};
ghost use Rattle.rx_resolve_names.specs.declared.resolved.NameFault.{NameFault};
ghost use Rattle.rx_resolve_names.specs.declared.resolved.NameFault.TheVariants as fault;
ghost use Rattle.rx_resolve_names.specs.Items.{in_item};
ghost use Rattle.rx_resolve_names.specs.Meant.{Around};
ghost use Rattle.rx_resolve_names.specs.Causes.{Causes, Meant};
ghost use Rattle.rx_select.specs.RunOf.{RunOf};
ghost use Rattle.rx_typeck_typed.specs.declared.typed.Typed.{Typed};
ghost use Rattle.rx_check.specs.Passes.{IsFront};
ghost use Rattle.rx_exits_plan.specs.Asked.{Asked};
ghost use Rattle.rx_exits_plan.specs.PlainPlan.{plan_of};
ghost use Rattle.rx_modes_policy.specs.declared.uses.Mode.{Mode};
ghost use Rattle.rx_modes_policy.specs.declared.uses.Uses.{Uses};
ghost use Rattle.rx_hoist_extraction.specs.Extraction.{extraction};
ghost use Rattle.rx_hoist_extraction.specs.FreeName.{FreeName};
ghost use Rattle.rx_hoist_extraction.specs.Plan.{Bounds};
ghost use Rattle.rx_hoist_extraction.specs.Pinned.{pinned_function};
ghost use Rattle.rx_hoist_extraction.specs.Run.{Run};
ghost use Rattle.rx_hoist_naming.specs.NamesWords.{identifiers};
ghost use Rattle.rx_hoist_naming.specs.NamedPlan.{named_plan, names_in, Told};
ghost use Rattle.rx_engine_names.specs.Extractions.{goes_to_end, CallNames, ExtractionAlike, RunNames};
ghost use Rattle.rx_engine_names.specs.Insertion.{Inserted};
ghost use Rattle.rx_engine_related.specs.Accepted.{Accepted};
ghost use Rattle.rx_engine_planned.specs.Decided.{run_at, Decided};
ghost use Rattle.rx_engine_called.specs.Planned.{Planned};
ghost use Rattle.rx_engine_called.specs.Tied.{BehindTied, RunTied};
ghost use Rattle.rx_engine_tied.specs.Settled.{Settled};

use rx_engine_called::plans_give_call_names;
use rx_engine_names::extractions_are_alike;
use rx_engine_planned::{
    decided_runs_are_selected, named_plans_name_types, params_and_locals_are_apart, runs_are_named,
    untyped_lets_stay_round_runs,
};
use rx_engine_validated::diverging_tails_never_end;
use rx_hoist_meant::{
    blocks_stand_in_scope, names_mean_their_variables, runs_tell_params_and_locals_by_names,
};
use rx_hoist_naming::runs_have_names;
use rx_meaning_accepted::typed_functions_stand;
use rx_modes_uses::moved_params_are_values;
use rx_typeck_typed::{signatures_are_well_formed, sizes_are_sized};

/// The text of a run that is selected in an accepted text stands to the typed tree of its function as it should: a
/// variable that the run of the tree names, and that is in scope where it begins, is named in the text by its name;
/// direct statements declare the same names; the jumps of the exits are the text's; and what a jump hands out is in
/// scope where the run begins, since the function is initialised.
pub fn runs_are_tied()
    ensures { (A : Told) (q : Asked) (bytes : List ℕ) (names : List ItemNames) (t : Typed) → Planned A q bytes names t → (start end : ℕ) → RunOf (length bytes) A.tokens A.program start end A.run → A.run.function ≡ A.function.item
        → (s : Span) (f : Function) → nth A.program A.function.item ≡ Some (plain.function_item s f) → (r : Run) → r.way ≡ drop 1 A.run.block.path → r.first ≡ A.run.first → r.last ≡ A.run.last
        → (muts : List Bool) → Accepted q muts → RunTied (names_in A) q (plan_of q A.plan) r f }
{
    blocks_stand_in_scope();
    names_mean_their_variables();
    runs_tell_params_and_locals_by_names();
    typed_functions_stand();
    signatures_are_well_formed();
    sizes_are_sized();
}

/// Where something follows a run in its block, the text behind it stands to the typed tree as it should: what it
/// names there is a word of the text; where the run declares it, it names a variable there that a direct statement
/// of the run declares, and that is named behind it. The run declares no callee.
pub fn texts_behind_are_tied()
    ensures { (A : Told) (q : Asked) (bytes : List ℕ) (names : List ItemNames) (t : Typed) → Planned A q bytes names t → (start end : ℕ) → RunOf (length bytes) A.tokens A.program start end A.run → A.run.function ≡ A.function.item
        → (s : Span) (f : Function) → nth A.program A.function.item ≡ Some (plain.function_item s f) → (r : Run) → r.way ≡ drop 1 A.run.block.path → r.first ≡ A.run.first → r.last ≡ A.run.last
        → goes_to_end r f ≡ false → BehindTied (named_plan A).identifiers (names_in A) q r f }
{
    blocks_stand_in_scope();
}

/// So what is asked of names where the call stands is had of each run that is selected in an accepted text, with a
/// name that the text has not: of the function of the run with its kinds and types written out.
pub fn plans_of_runs_give_call_names()
    ensures { (A : Told) (q : Asked) (bytes : List ℕ) (names : List ItemNames) (t : Typed) → Planned A q bytes names t → FreeName (identifiers A.tokens) A.name
        → (start end : ℕ) → RunOf (length bytes) A.tokens A.program start end A.run → A.run.function ≡ A.function.item → (s : Span) (f : Function) → nth A.program A.function.item ≡ Some (plain.function_item s f)
        → (r : Run) → r.item ≡ A.function.item → r.way ≡ drop 1 A.run.block.path → r.first ≡ A.run.first → r.last ≡ A.run.last
        → (muts : List Bool) → Accepted q muts → CallNames A.program r (named_plan A) s (pinned_function A.program r.span (named_plan A).pins f) }
{
    runs_are_tied();
    texts_behind_are_tied();
    plans_give_call_names();
    untyped_lets_stay_round_runs();
}

/// So the extraction of a run that is decided of, in an accepted text that has not the new names, resolves, and
/// each of its functions is alike the text's. Asked besides: what is said of the run's own names where it is come
/// to, in some scope and with some loops round it.
pub fn decided_extractions_are_alike()
    ensures { (A : Told) (q : Asked) (bytes : List ℕ) (names : List ItemNames) (t : Typed) (muts : List Bool) → Decided A q bytes names t muts → Planned A q bytes names t → FreeName (identifiers A.tokens) A.name
        → (s : Span) (f : Function) → nth A.program A.run.function ≡ Some (plain.function_item s f) → (loops : List Around) (scope : Variables)
        → (run : RunNames A.program (run_at A.run) (named_plan A) (pinned_function A.program A.run.span (named_plan A).pins f) loops scope)
        → (u : ItemNames) → in_item A.program A.run.function (plain.function_item s f) ≡ Ok u → (bounds : Bounds)
        → (c : Inserted A.program (extraction A.program (run_at A.run) (named_plan A) bounds)) × ExtractionAlike A.program (run_at A.run) (named_plan A) bounds c s f u loops scope run }
{
    plans_of_runs_give_call_names();
    decided_runs_are_selected();
    named_plans_name_types();
    extractions_are_alike();
}

/// What is asked of the names in a run and its plan is had of a run of an accepted text that is decided of and
/// refused for no variable, in the scope and with the loops where the text comes to it.
pub fn settled_runs_are_named()
    ensures { (A : Told) (q : Asked) (bytes : List ℕ) (names : List ItemNames) (t : Typed) (muts : List Bool) (choice : Uses → Mode) → Decided A q bytes names t muts → Settled A q muts choice
        → IsFront A.program t → FreeName (identifiers A.tokens) A.name → (s : Span) (f : Function) → nth A.program A.run.function ≡ Some (plain.function_item s f)
        → (loops : List Around) × (scope : Variables) × RunNames A.program (run_at A.run) (named_plan A) (pinned_function A.program A.run.span (named_plan A).pins f) loops scope }
{
    runs_are_tied();
    blocks_stand_in_scope();
    runs_tell_params_and_locals_by_names();
    runs_have_names();
    moved_params_are_values();
    params_and_locals_are_apart();
    decided_runs_are_selected();
    named_plans_name_types();
    untyped_lets_stay_round_runs();
    typed_functions_stand();
    diverging_tails_never_end();
    runs_are_named();
}

/// So its extraction resolves, and each of its functions is alike the text's, where the text has not the new names.
pub fn settled_extractions_are_alike()
    ensures { (A : Told) (q : Asked) (bytes : List ℕ) (names : List ItemNames) (t : Typed) (muts : List Bool) (choice : Uses → Mode) → Decided A q bytes names t muts → Settled A q muts choice
        → IsFront A.program t → FreeName (identifiers A.tokens) A.name → (s : Span) (f : Function) → nth A.program A.run.function ≡ Some (plain.function_item s f)
        → (u : ItemNames) → in_item A.program A.run.function (plain.function_item s f) ≡ Ok u → (bounds : Bounds)
        → (c : Inserted A.program (extraction A.program (run_at A.run) (named_plan A) bounds)) × (loops : List Around) × (scope : Variables)
        × (run : RunNames A.program (run_at A.run) (named_plan A) (pinned_function A.program A.run.span (named_plan A).pins f) loops scope) × ExtractionAlike A.program (run_at A.run) (named_plan A) bounds c s f u loops scope run }
{
    settled_runs_are_named();
    decided_extractions_are_alike();
}

/// So resolving, the first pass of the checker, finds no fault in the extraction of such a run.
pub fn settled_extractions_resolve()
    ensures meant { (A : Told) (q : Asked) (bytes : List ℕ) (names : List ItemNames) (t : Typed) (muts : List Bool) (choice : Uses → Mode) → Decided A q bytes names t muts → Settled A q muts choice → IsFront A.program t
        → FreeName (identifiers A.tokens) A.name → (s : Span) (f : Function) → nth A.program A.run.function ≡ Some (plain.function_item s f) → (bounds : Bounds)
        → (new : List ItemNames) × Meant (extraction A.program (run_at A.run) (named_plan A) bounds) new }
    ensures faults { (A : Told) (q : Asked) (bytes : List ℕ) (names : List ItemNames) (t : Typed) (muts : List Bool) (choice : Uses → Mode) → Decided A q bytes names t muts → Settled A q muts choice → IsFront A.program t
        → FreeName (identifiers A.tokens) A.name → (s : Span) (f : Function) → nth A.program A.run.function ≡ Some (plain.function_item s f) → (bounds : Bounds)
        → (e : NameFault) → Causes e (extraction A.program (run_at A.run) (named_plan A) bounds) → e ≡ fault.OutOfMemory }
{
    decided_runs_are_selected();
    settled_extractions_are_alike();
}
