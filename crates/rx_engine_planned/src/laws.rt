//! Laws, each the contract of a function that does nothing.

ghost use Rattle.std.specs.Prelude.{◌≡◌, ◌≤◌, ◌<◌, ◌+◌, ◌^◌, ◌++◌, ℕ, Bool, true, List, [], length, drop, Option, Some};
ghost use Rattle.rx_core.specs.declared.types.Span.{Span};
ghost use Rattle.rx_tree.specs.Lists.{nth, Every};
ghost use Rattle.rx_tree.specs.Plain as plain;
ghost use Rattle.rx_tree.specs.Plain.{Body, Function, ProgramTree};
ghost use Rattle.rx_tree.specs.Positions.{a_block, descend};
ghost use Rattle.rx_tree.specs.Size.{IsNumbered};
ghost use Rattle.rx_lex.specs.Tokens.{Lexes};
ghost use Rattle.rx_lex.specs.Words.{is_identifier};
ghost use Rattle.rx_parse_grammar.specs.grammar.Items.{Parses};
ghost use Rattle.rx_resolve_names.specs.declared.resolved.ItemNames.{ItemNames};
ghost use Rattle.rx_resolve_names.specs.Causes.{Meant};
ghost use Rattle.rx_typed.specs.PlainTypes.{declarations};
ghost use Rattle.rx_typed.specs.PlainTree.{plain-TypedTree};
ghost use Rattle.rx_typeck_typed.specs.declared.typed.Typed.{Typed};
ghost use Rattle.rx_typeck_typed.specs.declared.typed.TypedFn.{TypedFn};
ghost use Rattle.rx_typeck_typed.specs.Typing.{IsTyped};
ghost use Rattle.rx_select.specs.OneText.{OneText};
ghost use Rattle.rx_select.specs.RunOf.{RunOf};
ghost use Rattle.rx_lower_walks.specs.Walks.{Among};
ghost use Rattle.rx_exits_plan.specs.Runs.{Home, Run as TypedRun, Sits};
ghost use Rattle.rx_exits_plan.specs.Asked.{Asked};
ghost use Rattle.rx_exits_plan.specs.Plan.{IsPlan, Plan};
ghost use Rattle.rx_exits_plan.specs.PlainPlan.{IsExitPlan};
ghost use Rattle.rx_exits_plan.specs.Unreachable.{At, Unreachable};
ghost use Rattle.rx_hoist_extraction.specs.Names.{behind_all, is_among, Distinct};
ghost use Rattle.rx_hoist_extraction.specs.Plan.{names_of, outs_of, Exit as NamedExit, Pins};
ghost use Rattle.rx_hoist_extraction.specs.NewFunction.{copied_lifetimes, signature_positions};
ghost use Rattle.rx_hoist_extraction.specs.FreeName.{FreeName};
ghost use Rattle.rx_hoist_extraction.specs.OwnLifetimes.{idents};
ghost use Rattle.rx_hoist_extraction.specs.Pinned.{pinned_function};
ghost use Rattle.rx_hoist_extraction.specs.Run.{as_statements, run_parts, Run};
ghost use Rattle.rx_hoist_naming.specs.NamesWords.{identifiers};
ghost use Rattle.rx_hoist_naming.specs.NamedPlan.{Told, named_plan};
ghost use Rattle.rx_hoist_naming.specs.Words.{OutsAgree};
ghost use Rattle.rx_engine_names.specs.Extractions.{moves_there, RunNames};
ghost use Rattle.rx_engine_names.specs.KeptWays.{KeepsMaybe};
ghost use Rattle.rx_engine_names.specs.Moves.{rounds, Moves};
ghost use Rattle.rx_engine_names.specs.NewFunction.{param_names};
ghost use Rattle.rx_engine_names.specs.NewPlan.{exit_names, run_claims, TypesNamed};
ghost use Rattle.rx_engine_names.specs.SelectedRuns.{RunSelected};
ghost use Rattle.rx_engine_names.specs.Within.{OptionalWithin, StatementsWithin};
ghost use Rattle.rx_engine_names.specs.WrittenOut.{PinsName};
ghost use Rattle.rx_engine_related.specs.Accepted.{Accepted};
ghost use Rattle.rx_engine_planned.specs.Decided.{run_at, Decided};
ghost use Rattle.rx_engine_planned.specs.Loops.{LoopsApart};
ghost use Rattle.rx_engine_planned.specs.RunMeans.{RunMeans};

use rx_hoist_meant::{named_plans_have_distinct_names, runs_tell_params_and_locals_by_names};
use rx_hoist_naming::{named_plans_are_formed, runs_have_names, types_name_types};
use rx_typeck_typed::{signatures_are_well_formed, sizes_are_sized};

/// A run of a text stands in a block of its function's body, and no type is written out at a `let` on the way there, by the plan by names
/// of the run.
pub fn untyped_lets_stay_round_runs()
    ensures leads { (bytes : ℕ) (A : Told) (start end : ℕ) → RunOf bytes A.tokens A.program start end A.run → (s : Span) (f : Function) → nth A.program A.run.function ≡ Some (plain.function_item s f)
        → (b : Body) × (descend (Some (a_block f.body)) (drop 1 A.run.block.path) ≡ Some (a_block b)) }
    ensures kept { (bytes : ℕ) (A : Told) → OneText A.tokens bytes A.program → (start end : ℕ) → RunOf bytes A.tokens A.program start end A.run → A.run.function ≡ A.function.item
        → (s : Span) (f : Function) → nth A.program A.run.function ≡ Some (plain.function_item s f) → KeepsMaybe (named_plan A).pins (Some (a_block f.body)) (drop 1 A.run.block.path) }
{}

/// The types that are written out by the plan by names of a run, and those of what it passes, declares and hands out, name structs and
/// enums of the program alone.
pub fn named_plans_name_types()
    ensures pins { (A : Told) (names : List ItemNames) (t : Typed) → IsNumbered A.program → Meant A.program names → IsTyped A.program names t → Among A.function t.functions → PinsName A.program (named_plan A).pins }
    ensures types { (A : Told) (names : List ItemNames) (t : Typed) → IsNumbered A.program → Meant A.program names → IsTyped A.program names t → A.declared ≡ declarations t.decls.items → Among A.function t.functions
        → TypesNamed A.program (named_plan A) }
{
    types_name_types();
}

/// No variable is both a param and a local of a run that is reached, in a function of an accepted program: so the names of params and
/// locals are all distinct.
pub fn params_and_locals_are_apart()
    ensures numbers { (A : Asked) (muts : List Bool) → Accepted A muts → (k : Plan) → IsPlan A k → ((p : At) → Unreachable A p → ⊥) → (x : ℕ) → Among x k.params → Among x k.locals → ⊥ }
    ensures names { (A : Told) (names : List ItemNames) (t : Typed) → IsNumbered A.program → Meant A.program names → IsTyped A.program names t → Among A.function t.functions
        → (q : Asked) → q.function ≡ plain-TypedTree A.function.tree → Sits q.function q.run q.home → IsExitPlan q A.plan → (muts : List Bool) → Accepted q muts → ((p : At) → Unreachable q p → ⊥)
        → Distinct (param_names (named_plan A).params ++ names_of (named_plan A).locals) }
{
    runs_tell_params_and_locals_by_names();
    named_plans_have_distinct_names();
}

/// There are fresh lifetimes and a fresh variable for the new function of a plan by names.
pub fn fresh_names_are_found()
    ensures lifetimes { (A : Told) (bytes : List ℕ) (names : List ItemNames) (t : Typed) → Lexes bytes A.tokens → Parses bytes A.program → length bytes < 2 ^ 32 → Meant A.program names → IsTyped A.program names t
        → A.declared ≡ declarations t.decls.items → Among A.function t.functions → is_identifier A.name ≡ true → (q : Asked) → Sits (plain-TypedTree A.function.tree) q.run q.home → IsExitPlan q A.plan → OutsAgree A.plan.exits
        → signature_positions A.program (named_plan A) ≤ 2 ^ 32 → length (named_plan A).lifetimes + signature_positions A.program (named_plan A) ≤ 2 ^ 64 }
    ensures variable { (A : Told) (bytes : List ℕ) (names : List ItemNames) (t : Typed) → Lexes bytes A.tokens → Parses bytes A.program → length bytes < 2 ^ 32 → Meant A.program names → IsTyped A.program names t
        → A.declared ≡ declarations t.decls.items → Among A.function t.functions → is_identifier A.name ≡ true → (q : Asked) → Sits (plain-TypedTree A.function.tree) q.run q.home → IsExitPlan q A.plan → OutsAgree A.plan.exits
        → signature_positions A.program (named_plan A) ≤ 2 ^ 32 → length (named_plan A).identifiers + 1 ≤ 2 ^ 64 }
{
    named_plans_are_formed();
}

/// The lifetimes that types in a run name, also where kinds and types are written out, are lifetimes of the text: those of its plan by
/// names.
pub fn runs_name_lifetimes_of_the_text()
    ensures { (bytes : ℕ) (A : Told) → OneText A.tokens bytes A.program → (r : Run) (s : Span) (f : Function) → nth A.program r.item ≡ Some (plain.function_item s f) → (pins : Option Pins)
        → Every (λ (x : List ℕ). is_among x (named_plan A).lifetimes ≡ true) (idents (copied_lifetimes (run_parts r (pinned_function A.program r.span pins f)))) }
{}

/// The loops round a run in a function of a typed program stand there once, and are few: so the exits of its plan have names of their own.
pub fn exits_have_their_own_names()
    ensures loops { (p : ProgramTree) (names : List ItemNames) (t : Typed) → IsNumbered p → Meant p names → IsTyped p names t → (f : TypedFn) → Among f t.functions → (r : TypedRun) (h : Home)
        → Sits (plain-TypedTree f.tree) r h → LoopsApart h.around.loops }
    ensures names { (A : Told) (names : List ItemNames) (t : Typed) → IsNumbered A.program → Meant A.program names → IsTyped A.program names t → Among A.function t.functions
        → (q : Asked) → Sits (plain-TypedTree A.function.tree) q.run q.home → IsExitPlan q A.plan → A.loops ≡ q.home.around.loops → Distinct (exit_names (named_plan A).exits) }
{
    signatures_are_well_formed();
    sizes_are_sized();
}

/// What is asked of the names and jumps in a run, where kinds and types are written out, holds where it holds of the run in the text: its
/// names, its loops and its jumps are the same.
pub fn runs_keep_their_claims()
    ensures { (p : ProgramTree) (pins : Option Pins) (f : Function) (r : Run) (b : Body) → descend (Some (a_block f.body)) r.way ≡ Some (a_block b) → KeepsMaybe pins (Some (a_block f.body)) r.way → (v : Moves)
        → StatementsWithin (run_claims v) [] (rounds v) (as_statements (run_parts r f).statements) → OptionalWithin (run_claims v) (behind_all [] (as_statements (run_parts r f).statements)) (rounds v) (run_parts r f).tail
        → StatementsWithin (run_claims v) [] (rounds v) (as_statements (run_parts r (pinned_function p r.span pins f)).statements)
        × OptionalWithin (run_claims v) (behind_all [] (as_statements (run_parts r (pinned_function p r.span pins f)).statements)) (rounds v) (run_parts r (pinned_function p r.span pins f)).tail }
{}

/// The names in a run and its plan are as an extraction asks: where the run is come to in its function, with kinds and types written out,
/// it resolves, its plan names types of the program, its params, locals and exits have names of their own, and its lifetimes are the
/// text's. Asked besides: what the run of the text says of its own names there.
pub fn runs_are_named()
    ensures { (A : Told) (q : Asked) (bytes : List ℕ) (names : List ItemNames) (t : Typed) (muts : List Bool) → Decided A q bytes names t muts → (s : Span) (f : Function) → nth A.program A.run.function ≡ Some (plain.function_item s f)
        → (h : RunSelected A.program (run_at A.run) (named_plan A) s f) → RunMeans (moves_there (run_at A.run) (named_plan A) h.reached.around h.reached.middle.scope) (run_parts (run_at A.run) f)
        → RunNames A.program (run_at A.run) (named_plan A) (pinned_function A.program A.run.span (named_plan A).pins f) h.reached.around h.reached.middle.scope }
{
    named_plans_name_types();
    params_and_locals_are_apart();
    exits_have_their_own_names();
    fresh_names_are_found();
    runs_name_lifetimes_of_the_text();
    untyped_lets_stay_round_runs();
    outs_are_identifiers();
}

/// A run that is decided of is selected: where the name of its plan is free, the names of its function have meanings, also with kinds and
/// types written out, and the run stands there as is asked and is come to.
pub fn decided_runs_are_selected()
    ensures { (A : Told) (q : Asked) (bytes : List ℕ) (names : List ItemNames) (t : Typed) (muts : List Bool) → Decided A q bytes names t muts → FreeName (identifiers A.tokens) A.name → (s : Span) (f : Function)
        → nth A.program A.run.function ≡ Some (plain.function_item s f) → RunSelected A.program (run_at A.run) (named_plan A) s f }
{
    named_plans_name_types();
    untyped_lets_stay_round_runs();
}

/// The names of what an exit of a run hands out are identifiers of the text.
pub fn outs_are_identifiers()
    ensures { (A : Told) (bytes : ℕ) → OneText A.tokens bytes A.program → (names : List ItemNames) (t : Typed) → IsNumbered A.program → Meant A.program names → IsTyped A.program names t → Among A.function t.functions
        → (s : Span) (f : Function) → nth A.program A.function.item ≡ Some (plain.function_item s f) → (q : Asked) → Sits (plain-TypedTree A.function.tree) q.run q.home → IsExitPlan q A.plan → OutsAgree A.plan.exits
        → (e : NamedExit) → Every (λ (x : List ℕ). is_among x (named_plan A).identifiers ≡ true) (names_of (outs_of e (named_plan A).exits)) }
{
    runs_have_names();
}
