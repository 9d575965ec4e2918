//! What is true of the programs that an extraction makes.

ghost use Rattle.std.specs.Prelude.{◌≡◌, ◌<◌, ◌≤◌, ◌^◌, ℕ, true, false, List, length, Some, None};
ghost use Rattle.rx_core.specs.declared.types.Bound.{Bound};
ghost use Rattle.rx_core.specs.declared.types.Span.{Span};
ghost use Rattle.rx_tree.specs.Lists.{nth, statements};
ghost use Rattle.rx_tree.specs.Plain as plain;
ghost use Rattle.rx_tree.specs.Plain.{Function};
ghost use Rattle.rx_lex.specs.Words.{is_identifier};
ghost use Rattle.rx_lex.specs.Tokens.{Lexes};
ghost use Rattle.rx_parse_grammar.specs.grammar.Items.{Parses};
ghost use Rattle.rx_print_spelling.specs.Formed.{FormedProgram};
ghost use Rattle.rx_resolve_names.specs.declared.resolved.ItemNames.{ItemNames};
ghost use Rattle.rx_resolve_names.specs.Causes.{Meant};
ghost use Rattle.rx_typeck_typed.specs.Typing.{IsTyped};
ghost use Rattle.rx_exits_plan.specs.PlainPlan.{IsExitPlan};
ghost use Rattle.rx_hoist_extraction.specs.Run.{run_block, goes_past};
ghost use Rattle.rx_hoist_extraction.specs.Pinned.{pinned_function};
ghost use Rattle.rx_hoist_extraction.specs.FormedPlan.{FormedPlan};
ghost use Rattle.rx_hoist_extraction.specs.Limits.{count_lifetimes};
ghost use Rattle.rx_hoist_naming.specs.Words.{OutsAgree};
ghost use Rattle.rx_engine_extraction.specs.declared.refusal.Refusal.{Refusal as RefusalOf};
ghost use Rattle.rx_engine_extraction.specs.Alike.{AreOne};
ghost use Rattle.rx_engine_extraction.specs.Source.{Text, Wish};
ghost use Rattle.rx_engine_extraction.specs.Case.{Case, asked};
ghost use Rattle.rx_engine_extraction.specs.Made.{run_of, named, hoisted};
ghost use Rattle.rx_engine_extraction.specs.Meeting.{most_lifetimes, Selects, Seated, parts_of};
ghost use Rattle.rx_engine_extraction.specs.Promise.{Extracts, Keeps};
ghost use Rattle.rx_engine_extraction.specs.Verdict.{IsRefused};

use rx_check::{causes_are_one, passed_or_faulty};
use rx_facts::one_typing;
use rx_hoist_extraction::extractions_are_formed;
use rx_hoist_naming::{named_plans_are_formed, tails_go_past};
use rx_lex::one_token_list;
use rx_parse_grammar::one_tree;
use rx_print_spelling::texts_are_formed;
use rx_repair::{functions_without_bounds_declare_none, least_bounds_are_missing};
use rx_typeck_typed::{declared_are_finite, typed_declarations_are_finite};
use rx_typed_declarations::one_size_each;

/// The plan by names of a run is formed: what it names are words of the text. Where it has a value, the run holds its block's tail.
pub(crate) fn plans_are_formed()
    ensures formed { (T : Text) (bytes : List ℕ) (names : List ItemNames) → Lexes bytes T.tokens → Parses bytes T.program → length bytes < 2 ^ 32 → Meant T.program names → IsTyped T.program names T.types
        → (w : Wish) (d : Case) → Selects T w d → is_identifier w.name ≡ true → Seated T d.run d.function d.home → IsExitPlan (asked T d) d.listed → OutsAgree d.listed.exits
        → count_lifetimes T.program (named T w d) (parts_of T w d) ≤ most_lifetimes → FormedPlan T.program (named T w d) }
    ensures value { (T : Text) (w : Wish) (d : Case) → Selects T w d → IsExitPlan (asked T d) d.listed → (s : Span) (f : Function) → nth T.program d.run.function ≡ Some (plain.function_item s f)
        → goes_past (run_of d.run) (statements (run_block (run_of d.run) (pinned_function T.program (run_of d.run).span (named T w d).pins f))) ≡ false → (named T w d).value ≡ None }
{
    named_plans_are_formed();
    tails_go_past();
}

/// The program with the call is formed: its names and numbers are words, where the plan is one of the run.
pub(crate) fn calls_are_formed()
    ensures { (T : Text) (bytes : List ℕ) (names : List ItemNames) → Lexes bytes T.tokens → Parses bytes T.program → length bytes < 2 ^ 32 → Meant T.program names → IsTyped T.program names T.types
        → (w : Wish) (d : Case) → Selects T w d → is_identifier w.name ≡ true → Seated T d.run d.function d.home → IsExitPlan (asked T d) d.listed → OutsAgree d.listed.exits
        → count_lifetimes T.program (named T w d) (parts_of T w d) ≤ most_lifetimes → FormedProgram (hoisted T w d) }
{
    plans_are_formed();
    extractions_are_formed();
    texts_are_formed();
}

/// Of one text, two refusals tell one condition, and what is refused has no extraction: so a refusal comes exactly where a condition
/// fails, and tells the first that does.
pub fn conditions_are_one()
    ensures one { (bytes : List ℕ) (w : Wish) (r q : RefusalOf) (x : IsRefused bytes w r) (y : IsRefused bytes w q) → x.refused.condition ≡ y.refused.condition }
    ensures none { (bytes : List ℕ) (w : Wish) (r : RefusalOf) → IsRefused bytes w r → Extracts bytes w → ⊥ }
{
    declared_are_finite();
    functions_without_bounds_declare_none();
    least_bounds_are_missing();
    one_size_each();
    one_token_list();
    one_tree();
    one_typing();
    passed_or_faulty();
    typed_declarations_are_finite();
}

/// Two refusals of one text are one, but for what it may show in several places: where a run is not reached, what a pass tells of the
/// program with the call, and which loan is met.
pub fn refusals_are_one()
    ensures { (bytes : List ℕ) (w : Wish) (r q : RefusalOf) → IsRefused bytes w r → IsRefused bytes w q → AreOne r q }
{
    causes_are_one();
    declared_are_finite();
    functions_without_bounds_declare_none();
    least_bounds_are_missing();
    one_size_each();
    one_token_list();
    one_tree();
    one_typing();
    passed_or_faulty();
    typed_declarations_are_finite();
}

/// Two answers of one text are one: its extraction, and the bounds of the new function.
pub fn answers_are_one()
    ensures { (bytes : List ℕ) (w : Wish) (text other : List ℕ) (bs cs : List Bound) → Keeps bytes w text bs → Keeps bytes w other cs → (text ≡ other) × (bs ≡ cs) }
{
    declared_are_finite();
    functions_without_bounds_declare_none();
    least_bounds_are_missing();
    one_size_each();
    one_token_list();
    one_tree();
    one_typing();
    typed_declarations_are_finite();
}

/// What meets every condition has an answer: the text of its extraction, which is read back as it, with the bounds that it needs.
pub fn extractions_are_answers()
    ensures { (bytes : List ℕ) (w : Wish) (x : Extracts bytes w) → Keeps bytes w x.case.text x.case.bounds }
{}
