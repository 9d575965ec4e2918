//! Laws of the call, each the contract of a function that does nothing.

ghost use Rattle.std.specs.Prelude.{◌≡◌, ◌≤◌, ◌+◌, ◌^◌, ℕ, false, true, List, [], ◌∷◌, ◌++◌, length, Option, Some};
ghost use Rattle.rx_core.specs.declared.types.Span.{Span};
ghost use Rattle.rx_tree.specs.Lists.{nth, Every};
ghost use Rattle.rx_tree.specs.Plain as plain;
ghost use Rattle.rx_tree.specs.Plain.{Body, Function, ProgramTree};
ghost use Rattle.rx_tree.specs.Positions.{a_block, descend};
ghost use Rattle.rx_resolve_names.specs.declared.resolved.ItemNames.{ItemNames};
ghost use Rattle.rx_typed.specs.Tree.{variable};
ghost use Rattle.rx_typed.specs.Tree as tree;
ghost use Rattle.rx_typed.specs.Types.{Typ};
ghost use Rattle.rx_typeck_typed.specs.declared.typed.Typed.{Typed};
ghost use Rattle.rx_lower_walks.specs.Actions.{Action};
ghost use Rattle.rx_lower_walks.specs.Orders.{Order, order_function};
ghost use Rattle.rx_lower_walks.specs.Walks.{IsWalk, Out, Walk};
ghost use Rattle.rx_facts_tables.specs.Along.{after, ahead};
ghost use Rattle.rx_facts_tables.specs.Wholes.{standing};
ghost use Rattle.rx_facts_tables.specs.Live.{has_root, living, used};
ghost use Rattle.rx_exits_plan.specs.Unmarked.{is_mark};
ghost use Rattle.rx_exits_plan.specs.Asked.{Asked};
ghost use Rattle.rx_exits_plan.specs.PlainPlan.{plan_of};
ghost use Rattle.rx_hoist_extraction.specs.Names.{declared_by, is_among, Distinct, Names};
ghost use Rattle.rx_hoist_extraction.specs.Run.{labels_round, run_parts, Run};
ghost use Rattle.rx_hoist_extraction.specs.Plan.{Leaving, Pins, Plan, Variable};
ghost use Rattle.rx_hoist_extraction.specs.Pinned.{pinned_function};
ghost use Rattle.rx_hoist_extraction.specs.FreeName.{FreeName};
ghost use Rattle.rx_hoist_naming.specs.NamesWords.{identifiers};
ghost use Rattle.rx_select.specs.RunOf.{RunOf};
ghost use Rattle.rx_hoist_extraction.specs.Values.{next_values, result_of, values_of};
ghost use Rattle.rx_hoist_naming.specs.NamedPlan.{named_plan, names_in, Told};
ghost use Rattle.rx_hoist_naming.specs.Words.{NamesTypes};
ghost use Rattle.rx_engine_names.specs.HandsOver.{received_names};
ghost use Rattle.rx_engine_names.specs.CalledRuns.{RunStands};
ghost use Rattle.rx_engine_names.specs.Extractions.{goes_to_end, CallNames, RunSays};
ghost use Rattle.rx_engine_names.specs.KeptWays.{KeepsMaybe};
ghost use Rattle.rx_engine_called.specs.Planned.{Planned};
ghost use Rattle.rx_engine_called.specs.Outside.{outside_of};
ghost use Rattle.rx_engine_called.specs.Tells.{BehindTells, RunTells};
ghost use Rattle.rx_engine_called.specs.Tied.{BehindTied, RunTied};
ghost use Rattle.rx_engine_called.specs.WrittenOut.{SaysTheSame};
ghost use Rattle.rx_engine_called.specs.Ended.{EndsBehind, Inside};

use rx_hoist_meant::{
    named_plans_have_distinct_names, outs_have_their_own_names,
    runs_tell_params_and_locals_by_names,
};
use rx_hoist_naming::{named_plans_are_formed, runs_have_names, types_name_types};

/// What the call hands out by the plan of an accepted text: the types of what is redeclared name structs and enums; where the run's value
/// alone is handed out nothing is redeclared, since nothing follows the run; names of outs and of what is redeclared are words of the text;
/// the names that several values are bound to are distinct, and fresh names are found.
pub fn named_plans_hand_out()
    ensures types { (A : Told) (q : Asked) (bytes : List ℕ) (names : List ItemNames) (t : Typed) → Planned A q bytes names t → Every (λ (v : Variable). NamesTypes A.program v.typ) (named_plan A).redeclared }
    ensures alone { (A : Told) (q : Asked) (bytes : List ℕ) (names : List ItemNames) (t : Typed) → Planned A q bytes names t → (u : Typ) → next_values (named_plan A) ≡ result_of u ∷ [] → (named_plan A).redeclared ≡ [] }
    ensures outs { (A : Told) (q : Asked) (bytes : List ℕ) (names : List ItemNames) (t : Typed) → Planned A q bytes names t → (s : Span) (f : Function) → nth A.program A.function.item ≡ Some (plain.function_item s f)
        → Every (λ (x : Leaving). Every (λ (v : Variable). is_among v.name (named_plan A).identifiers ≡ true) x.outs) (named_plan A).exits }
    ensures redeclared { (A : Told) (q : Asked) (bytes : List ℕ) (names : List ItemNames) (t : Typed) → Planned A q bytes names t → (s : Span) (f : Function) → nth A.program A.function.item ≡ Some (plain.function_item s f)
        → Every (λ (v : Variable). is_among v.name (named_plan A).identifiers ≡ true) (named_plan A).redeclared }
    ensures received { (A : Told) (q : Asked) (bytes : List ℕ) (names : List ItemNames) (t : Typed) → Planned A q bytes names t → (s : Span) (f : Function) → nth A.program A.function.item ≡ Some (plain.function_item s f)
        → (own : Names) → Distinct (received_names (named_plan A) own 0 (next_values (named_plan A))) }
    ensures fresh_exits { (A : Told) (q : Asked) (bytes : List ℕ) (names : List ItemNames) (t : Typed) → Planned A q bytes names t
        → Every (λ (x : Leaving). length (named_plan A).identifiers + length (values_of (named_plan A) x) ≤ 2 ^ 64) (named_plan A).exits }
    ensures fresh_values { (A : Told) (q : Asked) (bytes : List ℕ) (names : List ItemNames) (t : Typed) → Planned A q bytes names t
        → length (named_plan A).identifiers + length (next_values (named_plan A)) ≤ 2 ^ 64 }
{
    types_name_types();
    runs_have_names();
    named_plans_are_formed();
    named_plans_have_distinct_names();
}

/// Wherever the run's block may stand, names of the plan mean variables where the run begins, loops of jumps stand there, and names behind the
/// run are bound by the run and the call or by neither, by what the run's own text and the text behind it tell. Asked besides: that outs and
/// what is redeclared have words of the text as names, that the names which several values are bound to are distinct, and that fresh names
/// are found.
pub fn texts_say_where_calls_stand()
    ensures { (P : ProgramTree) (r : Run) (pl : Plan) (s : Span) (g : Function) → RunStands r pl g → RunTells pl (declared_by (run_parts r g).statements) (outside_of (labels_round r g) (run_parts r g))
        → Every (λ (x : Leaving). Every (λ (v : Variable). is_among v.name pl.identifiers ≡ true) x.outs) pl.exits → Every (λ (v : Variable). is_among v.name pl.identifiers ≡ true) pl.redeclared
        → Distinct (received_names pl (declared_by (run_parts r g).statements) 0 (next_values pl))
        → Every (λ (x : Leaving). length pl.identifiers + length (values_of pl x) ≤ 2 ^ 64) pl.exits → length pl.identifiers + length (next_values pl) ≤ 2 ^ 64
        → (goes_to_end r g ≡ false → BehindTells r pl g) → RunSays (goes_to_end r g) P s g r pl }
{}

/// So what is asked of names where the call stands is had of the plan of an accepted text, by what the run's own text and the text behind it
/// tell.
pub fn calls_have_names()
    ensures { (A : Told) (q : Asked) (bytes : List ℕ) (names : List ItemNames) (t : Typed) → Planned A q bytes names t → (s : Span) (f : Function) → nth A.program A.function.item ≡ Some (plain.function_item s f)
        → (r : Run) (g : Function) → RunStands r (named_plan A) g → RunTells (named_plan A) (declared_by (run_parts r g).statements) (outside_of (labels_round r g) (run_parts r g))
        → (goes_to_end r g ≡ false → BehindTells r (named_plan A) g) → CallNames A.program r (named_plan A) s g }
{
    named_plans_hand_out();
    texts_say_where_calls_stand();
}

/// Where the text of the run, and the text behind it, stand to the typed tree as they should, they tell of the plan by names what the plan by
/// numbers is: the text names the params, the outs of jumps, and what is handed out at the end that it doesn't declare; and what it declares and
/// is named behind it is handed out or redeclared.
pub fn texts_tell_of_plans()
    ensures run { (A : Told) (q : Asked) (bytes : List ℕ) (names : List ItemNames) (t : Typed) → Planned A q bytes names t → (r : Run) (g : Function) → RunTied (names_in A) q (plan_of q A.plan) r g
        → RunTells (named_plan A) (declared_by (run_parts r g).statements) (outside_of (labels_round r g) (run_parts r g)) }
    ensures behind { (A : Told) (q : Asked) (bytes : List ℕ) (names : List ItemNames) (t : Typed) → Planned A q bytes names t → (r : Run) (g : Function) → RunTied (names_in A) q (plan_of q A.plan) r g
        → BehindTied (named_plan A).identifiers (names_in A) q r g → BehindTells r (named_plan A) g }
{
    outs_have_their_own_names();
    runs_tell_params_and_locals_by_names();
}

/// Where kinds and types are written out in a function, and no type at a `let` on the way to the block of a run, the run's own text and the
/// text behind it name, jump and declare the same.
pub fn written_out_runs_say_the_same()
    ensures { (P : ProgramTree) (place : Span) (pins : Option Pins) (f : Function) (r : Run) (b : Body) → descend (Some (a_block f.body)) r.way ≡ Some (a_block b) → KeepsMaybe pins (Some (a_block f.body)) r.way
        → SaysTheSame r f (pinned_function P place pins f) }
{}

/// So what is asked of names where the call stands is had of a run that is selected in an accepted text, with a name that the text has not: of
/// the function of the run with its kinds and types written out, where the text of the function stands to its typed tree as it should.
pub fn plans_give_call_names()
    ensures { (A : Told) (q : Asked) (bytes : List ℕ) (names : List ItemNames) (t : Typed) → Planned A q bytes names t → FreeName (identifiers A.tokens) A.name
        → (start end : ℕ) → RunOf (length bytes) A.tokens A.program start end A.run → (r : Run) → r.item ≡ A.function.item → r.first ≡ A.run.first → r.last ≡ A.run.last
        → (s : Span) (f : Function) → nth A.program A.function.item ≡ Some (plain.function_item s f) → (b : Body) → descend (Some (a_block f.body)) r.way ≡ Some (a_block b)
        → KeepsMaybe (named_plan A).pins (Some (a_block f.body)) r.way → RunTied (names_in A) q (plan_of q A.plan) r f → (goes_to_end r f ≡ false → BehindTied (named_plan A).identifiers (names_in A) q r f)
        → CallNames A.program r (named_plan A) s (pinned_function A.program r.span (named_plan A).pins f) }
{
    calls_have_names();
    texts_tell_of_plans();
    written_out_runs_say_the_same();
}

/// Behind a mark in front of jumps out of a loop, variables end, and nothing else is done, until a variable that ends with parts of the loop's
/// passes is not there as a whole, or the walk stops.
pub fn variables_end_where_jumps_lead()
    ensures { (x : ℕ) (m : Action) (l : ℕ) → is_mark m.act ≡ true → (s : Order) → Inside x m l s → (us : List Action) (o : Out) → Walk s us o → (front rest : List Action) → us ≡ front ++ m ∷ rest
        → EndsBehind x m front rest o }
{}

/// So where each use of the variable finds it there as a whole, it is not live behind the mark.
pub fn variables_that_end_are_not_live()
    ensures { (f : tree.Function) (x : ℕ) → ((w : List Action) (a : Action) → IsWalk f (w ++ a ∷ []) → has_root (used a.act) (variable x) ≡ true → after (standing x []) w false ≡ true)
        → (m : Action) (l : ℕ) → is_mark m.act ≡ true → Inside x m l (order_function f) → (w us : List Action) → IsWalk f (w ++ m ∷ us) → ahead (living (variable x)) us ≡ true → ⊥ }
{}
