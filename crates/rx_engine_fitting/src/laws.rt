//! Laws, each the contract of a function that does nothing.

ghost use Rattle.std.specs.Prelude.{◌≡◌, ◌≤◌, ◌⊎◌, ℕ, List, Ok, slice_get, Some};
ghost use Rattle.rx_core.specs.declared.types.Span.{Span};
ghost use Rattle.rx_tree.specs.Lists.{nth};
ghost use Rattle.rx_tree.specs.Plain as plain;
ghost use Rattle.rx_tree.specs.Plain.{Function, ProgramTree};
ghost use Rattle.rx_resolve_names.specs.declared.resolved.ItemNames.{ItemNames};
ghost use Rattle.rx_resolve_names.specs.Causes.{Meant};
ghost use Rattle.rx_resolve_names.specs.Items.{in_item};
ghost use Rattle.rx_resolve_names.specs.Meant.{Around};
ghost use Rattle.rx_resolve_names.specs.Scopes.{Variables};
ghost use Rattle.rx_resolve_names.specs.declared.resolved.NameFault.{NameFault};
ghost use Rattle.rx_typed.specs.Naming.{function_named};
ghost use Rattle.rx_typed.specs.PlainTypes.{declarations};
ghost use Rattle.rx_typed.specs.declared.declarations.Decl.{Decl};
ghost use Rattle.rx_typed_declarations.specs.Sizes.{IsSizes};
ghost use Rattle.rx_typeck_solver.specs.Facts.{KnownItems, Assignment};
ghost use Rattle.rx_typeck_solver.specs.Stepping.{known};
ghost use Rattle.rx_typeck_solver.specs.Valid.{Valid};
ghost use Rattle.rx_typeck_typed.specs.Demands.{task};
ghost use Rattle.rx_typeck_typed.specs.Programs.{Declares};
ghost use Rattle.rx_typeck_typed.specs.declared.typed.TypeFault.{TypeFault};
ghost use Rattle.rx_typeck_typed.specs.Typing.{entries};
ghost use Rattle.rx_check.specs.declared.fault.CheckFault.TheVariants as check_fault;
ghost use Rattle.rx_check.specs.Causes.{PassCauses};
ghost use Rattle.rx_modes_policy.specs.declared.uses.Uses.{Uses};
ghost use Rattle.rx_modes_policy.specs.Allowed.{allowed_by, HasMember, IsMember};
ghost use Rattle.rx_hoist_extraction.specs.Extraction.{added, extraction, new_number, with_call};
ghost use Rattle.rx_hoist_extraction.specs.NewFunction.{new_function};
ghost use Rattle.rx_hoist_extraction.specs.Run.{loops_round, run_parts};
ghost use Rattle.rx_hoist_extraction.specs.Pinned.{pinned_function};
ghost use Rattle.rx_hoist_extraction.specs.Plan.{Bounds};
ghost use Rattle.rx_engine_changed.specs.Called.{IsNumbered};
ghost use Rattle.rx_engine_names.specs.Extractions.{goes_to_end, handing_there, ExtractionAlike, RunNames};
ghost use Rattle.rx_engine_names.specs.Insertion.{number_there, past, Inserted};
ghost use Rattle.rx_engine_blocks.specs.Along.{renumbered_types, Inverse};
ghost use Rattle.rx_engine_blocks.specs.Knows.{Knows};
ghost use Rattle.rx_engine_validated.specs.Kept.{kept};
ghost use Rattle.rx_engine_extraction.specs.Source.{IsText, Text, Wish};
ghost use Rattle.rx_engine_extraction.specs.Case.{Case};
ghost use Rattle.rx_engine_extraction.specs.Made.{named, run_of};
ghost use Rattle.rx_engine_extraction.specs.Conditions.{few_levels, few_numbers};
ghost use Rattle.rx_engine_extraction.specs.Meeting.{most_bytes};
ghost use Rattle.rx_engine_extraction.specs.Promise.{Stands};
ghost use Rattle.rx_engine_fitting.specs.HasTypes.{HasTypes};
ghost use Rattle.rx_engine_fitting.specs.UntypedAt.{UntypedAt};

use rx_engine_changed::functions_with_a_call_have_one_numbering;
use rx_engine_declared::declarations_stay;
use rx_engine_kept::{enums_of_exits_keep_the_limits, extractions_declare};
use rx_engine_names::unused_names_are_free;
use rx_engine_planned::{decided_runs_are_selected, named_plans_name_types};
use rx_engine_tied::{settled_extractions_are_alike, settled_extractions_resolve};
use rx_engine_validated::accepted_functions_are_ready;
use rx_typeck_typed::{declared_are_finite, demands_are_orderly, typed_declarations_are_finite};
use rx_typed_declarations::one_size_each;

/// Of an accepted text and a policy that chooses allowed modes, where each condition up to the number of the new
/// function's lifetimes is met, the names of the extraction have a meaning, with any bounds for these lifetimes: no
/// fault of names is a cause for the checker to refuse it.
pub fn extractions_are_never_misnamed()
    ensures { (bytes : List ℕ) (T : Text) (w : Wish) (d : Case) → IsText bytes T → T.length ≤ most_bytes → ((u : Uses) → HasMember (allowed_by u) → IsMember (w.choice u) (allowed_by u))
        → Stands T w d few_levels → (bounds : Bounds) (e : NameFault) → PassCauses (check_fault.Name e) (extraction T.program (run_of d.run) (named T w d) bounds) → ⊥ }
{
    accepted_functions_are_ready();
    one_size_each();
    settled_extractions_resolve();
    typed_declarations_are_finite();
}

/// And each function of the extraction is alike the text's: those that stay, that of the run, with its kinds and types
/// written out and with the call, and the new one beside the run.
pub fn met_extractions_are_alike()
    ensures { (bytes : List ℕ) (T : Text) (w : Wish) (d : Case) → IsText bytes T → T.length ≤ most_bytes → ((u : Uses) → HasMember (allowed_by u) → IsMember (w.choice u) (allowed_by u))
        → Stands T w d few_levels → (bounds : Bounds) → (s : Span) × (f : Function) × (nth T.program d.run.function ≡ Some (plain.function_item s f)) × (u : ItemNames) × (in_item T.program d.run.function (plain.function_item s f) ≡ Ok u)
        × (c : Inserted T.program (extraction T.program (run_of d.run) (named T w d) bounds)) × (loops : List Around) × (scope : Variables)
        × (run : RunNames T.program (run_of d.run) (named T w d) (pinned_function T.program d.run.span (named T w d).pins f) loops scope) × ExtractionAlike T.program (run_of d.run) (named T w d) bounds c s f u loops scope run }
{
    accepted_functions_are_ready();
    decided_runs_are_selected();
    one_size_each();
    settled_extractions_are_alike();
    typed_declarations_are_finite();
}

/// So the function with the call is the text's, with its kinds and types written out, by one numbering, with the statements of the call once for the
/// run's: asked is still that both do the same to what both know, by the renaming in which what was made corresponds, and that no variable of the
/// text's is left without a type.
pub fn met_extractions_are_numbered()
    ensures { (bytes : List ℕ) (T : Text) (w : Wish) (d : Case) → IsText bytes T → T.length ≤ most_bytes → ((u : Uses) → HasMember (allowed_by u) → IsMember (w.choice u) (allowed_by u))
        → Stands T w d few_levels → (bounds : Bounds) → (s : Span) × (f : Function) × (nth T.program d.run.function ≡ Some (plain.function_item s f)) × (c : Inserted T.program (extraction T.program (run_of d.run) (named T w d) bounds))
        × (t : ItemNames) × (in_item T.program d.run.function (plain.function_item s (pinned_function T.program d.run.span (named T w d).pins f)) ≡ Ok t)
        × IsNumbered (goes_to_end (run_of d.run) (pinned_function T.program d.run.span (named T w d).pins f)) T.program (extraction T.program (run_of d.run) (named T w d) bounds) c d.run.function d.run.function s
        (pinned_function T.program d.run.span (named T w d).pins f) (run_of d.run) (named T w d) (handing_there (run_of d.run) (named T w d) (pinned_function T.program d.run.span (named T w d).pins f)) t }
{
    accepted_functions_are_ready();
    decided_runs_are_selected();
    functions_with_a_call_have_one_numbering();
    one_size_each();
    settled_extractions_are_alike();
    typed_declarations_are_finite();
}

/// Where each condition up to the parts of types is met, no declaration of the extraction is wrong, whatever the bounds
/// of the new function's lifetimes: its names have a meaning, and it declares what it does.
pub fn met_extractions_declare()
    ensures { (bytes : List ℕ) (T : Text) (w : Wish) (d : Case) → IsText bytes T → T.length ≤ most_bytes → ((u : Uses) → HasMember (allowed_by u) → IsMember (w.choice u) (allowed_by u))
        → Stands T w d few_numbers → (bounds : Bounds)
        → (ms : List ItemNames) × (es : List Decl) × Meant (extraction T.program (run_of d.run) (named T w d) bounds) ms × Declares (extraction T.program (run_of d.run) (named T w d) bounds) ms es }
{
    accepted_functions_are_ready();
    decided_runs_are_selected();
    enums_of_exits_keep_the_limits();
    extractions_declare();
    named_plans_name_types();
    one_size_each();
    settled_extractions_are_alike();
    typed_declarations_are_finite();
    unused_names_are_free();
}

/// A function that stays where new items stand behind another has there the valid assignment of types that it had, by
/// the numbers of the items there.
pub fn functions_that_stay_keep_their_types()
    ensures { (p q : ProgramTree) (c : Inserted p q) (n : ℕ) (s : Span) (f : Function) (t u : ItemNames) → in_item p n (plain.function_item s f) ≡ Ok t → in_item q (number_there c n) (plain.function_item s f) ≡ Ok u
        → (D E : KnownItems) → Knows (kept (number_there c)) D E → (i : Inverse (kept (number_there c))) → (A : Assignment) → Valid D (task (function_named n s f t.names)) A
        → Valid E (task (function_named (number_there c n) s f u.names)) (renumbered_types (kept (number_there c)) i A) }
{
    demands_are_orderly();
}

/// So each function of an accepted text but that of the run has a valid assignment in its extraction, by what this
/// declares and any table of the parts of its structs and enums.
pub fn met_extractions_keep_types_of_what_stays()
    ensures { (bytes : List ℕ) (T : Text) (w : Wish) (d : Case) → IsText bytes T → T.length ≤ most_bytes → ((u : Uses) → HasMember (allowed_by u) → IsMember (w.choice u) (allowed_by u))
        → Stands T w d few_levels → (bounds : Bounds) → (ms : List ItemNames) → Meant (extraction T.program (run_of d.run) (named T w d) bounds) ms
        → (es : List Decl) → Declares (extraction T.program (run_of d.run) (named T w d) bounds) ms es → (sizes : List ℕ) → IsSizes (declarations es) sizes
        → (n : ℕ) (s : Span) (f : Function) → slice_get T.program n ≡ Some (plain.function_item s f) → (n ≡ d.run.function → ⊥)
        → (slice_get (extraction T.program (run_of d.run) (named T w d) bounds) (past d.run.function (added (named T w d)) n) ≡ Some (plain.function_item s f))
        × (A : Assignment) × Valid (known es sizes) (task (function_named (past d.run.function (added (named T w d)) n) s f (entries (slice_get ms (past d.run.function (added (named T w d)) n))))) A }
{
    accepted_functions_are_ready();
    declarations_stay();
    demands_are_orderly();
    one_size_each();
    typed_declarations_are_finite();
    unused_names_are_free();
}

/// Where each condition up to the parts of types is met, a fault of types of the extraction stands in the function with
/// the call or in the new function: no declaration is wrong, and each other function has a valid assignment.
pub fn faults_of_types_stand_in_two_functions()
    ensures { (bytes : List ℕ) (T : Text) (w : Wish) (d : Case) → IsText bytes T → T.length ≤ most_bytes → ((u : Uses) → HasMember (allowed_by u) → IsMember (w.choice u) (allowed_by u))
        → Stands T w d few_numbers → (bounds : Bounds) → (s : Span) (f : Function) → nth T.program d.run.function ≡ Some (plain.function_item s f)
        → (e : TypeFault) → PassCauses (check_fault.Types e) (extraction T.program (run_of d.run) (named T w d) bounds)
        → UntypedAt (extraction T.program (run_of d.run) (named T w d) bounds) d.run.function s (with_call T.program (run_of d.run) (named T w d) (pinned_function T.program d.run.span (named T w d).pins f)) e
        ⊎ UntypedAt (extraction T.program (run_of d.run) (named T w d) bounds) (new_number (run_of d.run) (named T w d)) d.run.span
        (new_function T.program (named T w d) bounds d.run.span (loops_round (run_of d.run) (pinned_function T.program d.run.span (named T w d).pins f)) (run_parts (run_of d.run) (pinned_function T.program d.run.span (named T w d).pins f))) e }
{
    accepted_functions_are_ready();
    declarations_stay();
    declared_are_finite();
    demands_are_orderly();
    enums_of_exits_keep_the_limits();
    extractions_declare();
    named_plans_name_types();
    one_size_each();
    typed_declarations_are_finite();
    unused_names_are_free();
}

/// So no fault of types is a cause for the checker to refuse the extraction where these two functions have types.
pub fn extractions_are_typed_where_two_functions_are()
    ensures { (bytes : List ℕ) (T : Text) (w : Wish) (d : Case) → IsText bytes T → T.length ≤ most_bytes → ((u : Uses) → HasMember (allowed_by u) → IsMember (w.choice u) (allowed_by u))
        → Stands T w d few_numbers → (bounds : Bounds) → (s : Span) (f : Function) → nth T.program d.run.function ≡ Some (plain.function_item s f)
        → HasTypes (extraction T.program (run_of d.run) (named T w d) bounds) d.run.function s (with_call T.program (run_of d.run) (named T w d) (pinned_function T.program d.run.span (named T w d).pins f))
        → HasTypes (extraction T.program (run_of d.run) (named T w d) bounds) (new_number (run_of d.run) (named T w d)) d.run.span
        (new_function T.program (named T w d) bounds d.run.span (loops_round (run_of d.run) (pinned_function T.program d.run.span (named T w d).pins f)) (run_parts (run_of d.run) (pinned_function T.program d.run.span (named T w d).pins f)))
        → (e : TypeFault) → PassCauses (check_fault.Types e) (extraction T.program (run_of d.run) (named T w d) bounds) → ⊥ }
{
    faults_of_types_stand_in_two_functions();
}
