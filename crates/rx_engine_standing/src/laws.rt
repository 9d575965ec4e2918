//! Laws, each the contract of a function that does nothing.

ghost use Rattle.std.specs.Prelude.{◌≡◌, ◌≤◌, ◌||◌, ◌++◌, ℕ, Bool, true, List, [], map, slice_get, Some};
ghost use Rattle.rx_core.specs.declared.types.Span.{Span};
ghost use Rattle.rx_tree.specs.Lists.{statements, tail, Every};
ghost use Rattle.rx_tree.specs.Plain.{Function, OptionalExpression, ProgramTree, Statement};
ghost use Rattle.rx_resolve_names.specs.Meant.{Around};
ghost use Rattle.rx_resolve_names.specs.declared.resolved.NodeNames.{NodeNames};
ghost use Rattle.rx_resolve_names.specs.Scopes.{variable_named, Variables};
ghost use Rattle.rx_resolve_names.specs.Steps.{Inside};
ghost use Rattle.rx_typed.specs.declared.nodes.Node.{Node};
ghost use Rattle.rx_typed.specs.declared.nodes.Site.{Site};
ghost use Rattle.rx_typed.specs.Named.{some_diverges, tail_never, Else, Exp, Function as NamedFunction, Statements};
ghost use Rattle.rx_typed.specs.Naming.{function_named, of_optional, of_statements, Cursor};
ghost use Rattle.rx_typed.specs.Types.{parameters_declared};
ghost use Rattle.rx_typeck_solver.specs.declared.facts.Demand.{Demand};
ghost use Rattle.rx_typeck_solver.specs.declared.facts.Subject.TheVariants as subject;
ghost use Rattle.rx_typeck_solver.specs.Facts.{Assignment, KnownItems, MeetsEach};
ghost use Rattle.rx_typeck_solver.specs.Ordered.{Orderly};
ghost use Rattle.rx_typeck_solver.specs.Valid.{Valid};
ghost use Rattle.rx_typeck_typed.specs.Demands as rules;
ghost use Rattle.rx_typeck_typed.specs.Demands.{demands, join, task};
ghost use Rattle.rx_hoist_extraction.specs.Names.{Distinct};
ghost use Rattle.rx_hoist_extraction.specs.Run.{as_statements, chosen, goes_past, run_block, Run};
ghost use Rattle.rx_hoist_extraction.specs.Plan.{Bounds, Param, Plan};
ghost use Rattle.rx_hoist_extraction.specs.Values.{next_values, Value};
ghost use Rattle.rx_hoist_extraction.specs.NewFunction.{passed_types};
ghost use Rattle.rx_hoist_extraction.specs.Extraction.{added};
ghost use Rattle.rx_engine_names.specs.Calls as calls;
ghost use Rattle.rx_engine_names.specs.Calls.{Calls};
ghost use Rattle.rx_engine_names.specs.CalledRuns.{RunStands};
ghost use Rattle.rx_engine_names.specs.Extractions.{handing_there};
ghost use Rattle.rx_engine_names.specs.HandedOut.{Handing};
ghost use Rattle.rx_engine_names.specs.HandsOver.{at_place, told_handed, told_last};
ghost use Rattle.rx_engine_names.specs.Insertion.{past};
ghost use Rattle.rx_engine_names.specs.NewPlan.{exit_names};
ghost use Rattle.rx_engine_names.specs.Placed.{EndFor, Place, StandFor};
ghost use Rattle.rx_engine_names.specs.Renaming.{Renaming};
ghost use Rattle.rx_engine_blocks.specs.Along.{none_viewed, PartialInverse};
ghost use Rattle.rx_engine_blocks.specs.Blocks.{Fixes};
ghost use Rattle.rx_engine_blocks.specs.Knows.{Knows};
ghost use Rattle.rx_engine_blocks.specs.Renumbering.{node_at, shape_at, Renumbering};
ghost use Rattle.rx_engine_blocks.specs.Settled.{Settles};
ghost use Rattle.rx_engine_holes.specs.CallFits.{EndFits, StatementsFit};
ghost use Rattle.rx_engine_holes.specs.Entries.{of_text, Context, Entries};
ghost use Rattle.rx_engine_holes.specs.Named.{NamedIn};
ghost use Rattle.rx_engine_holes.specs.Tail.{of_end};
ghost use Rattle.rx_engine_typing.specs.Renumbered.{no_holes};
ghost use Rattle.rx_engine_changed.specs.Arguments.{PassesOn};
ghost use Rattle.rx_engine_changed.specs.Beside.{Follows, IsOneToOne, Numbers, Piece};
ghost use Rattle.rx_engine_changed.specs.Called.{CallIsFew, EndIsFew, IsItsCall, IsItsLastCall};
ghost use Rattle.rx_engine_changed.specs.HandedTypes.{CallStands, EndStands, ItemsDeclare, NextAgrees};
ghost use Rattle.rx_engine_changed.specs.Inside.{VariablesStand};
ghost use Rattle.rx_engine_changed.specs.Once.{asked_last, ByOneNumbering, IsCall, IsLastCall};
ghost use Rattle.rx_engine_changed.specs.Round.{as_mutable, round, SameEnd};
ghost use Rattle.rx_engine_changed.specs.Spots.{spot, Spot};
ghost use Rattle.rx_engine_changed.specs.Stages.{InStep};
ghost use Rattle.rx_engine_changed.specs.TextStands.{handing_here, handing_last};
ghost use Rattle.rx_engine_standing.specs.Bound.{BehindAsPlanned};
ghost use Rattle.rx_engine_standing.specs.CallBinds.{CallBinds, ComesBack};
ghost use Rattle.rx_engine_standing.specs.EndGives.{EndGives, HasNoTail, IsBlockSite, TailStands};
ghost use Rattle.rx_engine_standing.specs.InFront.{InFront};
ghost use Rattle.rx_engine_standing.specs.PlanFits.{PlanFits};
ghost use Rattle.rx_engine_standing.specs.RunBegins.{RunBegins};
ghost use Rattle.rx_engine_standing.specs.TwoPrograms as two;
ghost use Rattle.rx_engine_standing.specs.TwoPrograms.{TwoPrograms};

use rx_engine_changed::{
    demands_of_an_end_stand_together, functions_with_a_call_that_fits_are_valid,
    what_stands_for_a_run_fits, what_stands_for_an_end_fits,
};
use rx_engine_declared::{extractions_declare_what_stays, new_items_declare_by_the_plan};

/// The new items of an extraction declare what its call asks, by any numbering with the items' numbers there: the new function the types of the params as they
/// are passed and its result, the enum a variant for each exit; the function with the call has its result still; and what is handed out keeps the limits of types.
/// Each Next exit hands out what the end does.
pub fn new_items_declare_what_calls_ask()
    ensures known { (p : ProgramTree) (r : Run) (plan : Plan) (bounds : Bounds) (t : TwoPrograms p r plan bounds) (q : Renumbering) → ((n : ℕ) → q.items n ≡ past r.item (added plan) n) → Knows q (two.of_text t) (two.of_extraction t) }
    ensures declared { (p : ProgramTree) (r : Run) (plan : Plan) (bounds : Bounds) (t : TwoPrograms p r plan bounds) (q : Renumbering) → ((n : ℕ) → q.items n ≡ past r.item (added plan) n)
        → (g : Function) (scope : Variables) (loops : List Around) → ItemsDeclare (two.of_extraction t) q (at_place (handing_there r plan g) scope loops) (q.items r.item) }
    ensures next { (r : Run) (plan : Plan) (g : Function) (scope : Variables) (loops : List Around) → Distinct (exit_names plan.exits) → NextAgrees (at_place (handing_there r plan g) scope loops) }
{
    extractions_declare_what_stays();
    new_items_declare_by_the_plan();
}

/// Where a run begins, the text's variables stand as its plan says; so they do where the call begins, if both are come to in step, and what was made side by side in front
/// corresponds by the numbers of both.
pub fn calls_stand_where_runs_begin()
    ensures { (D E : KnownItems) (N : Numbers) → Knows N.by D E → (R : Renaming) → Follows R N → (made : List Piece) (c c' : Cursor) → InStep R as_mutable made c c' → InFront N made c'
        → (Z : ℕ → ℕ) (G : Handing) → PlanFits Z D G.call.plan → (A : Assignment) → RunBegins G A c → (end : Spot) → end.declared ≤ 4294967296 → CallStands E N.by G R (of_text N.by N.back A) (spot c') end }
{}

/// The end of a block stands with the call, by other numbers, where it stands in the text: what it makes of the run's value; or the block has the unit, where no
/// value comes of it. Asked: that the text meets what is asked there, and that its end gives what the plan hands out.
pub fn ends_stand_by_the_text()
    ensures { (D : KnownItems) (A : Assignment) (f : ℕ) (n : Node) (s : Span) (d : Bool) (xs ys : Statements) → IsBlockSite n.site → (o o' : Else) → TailStands n o → MeetsEach D A (join n (tail_never (d || some_diverges xs) o) (of_end f n d xs o []))
        → SameEnd xs o ys o' → (hs : List Value) → EndGives A o hs → HasNoTail hs o' → (E : KnownItems) (q : Renumbering) (w : PartialInverse q) → EndStands E q (of_text q w A) (node_at q n s) d ys hs }
{}

/// A variable that the call binds is new, or stands for one of the text's that the run declares and hands out, or that is named behind it, of the plan's type: whatever
/// the entries are with which what stands in place of the run fits.
pub fn variables_of_a_call_stand()
    ensures { (E : KnownItems) (f : ℕ) (N : Numbers) (R : Renaming) → ((n : ℕ) → N.by.items n ≡ R.item n) → (G : Handing) (I I' : Inside) (front run call : List Statement) (p : Place) (x : Statements) (c : Cursor)
        → (s : StandFor (told_handed G) I I' front run call p R x (of_statements (as_statements call) c).0) → ItemsDeclare E N.by (at_place G s.text.middle.scope p.around) f → NextAgrees (at_place G s.text.middle.scope p.around)
        → (A : Assignment) → CallBinds N R A G I I' front run call p x (of_statements (as_statements call) c).0 s (of_statements (as_statements call) c).1
        → (B : Context) (made : Entries) → StatementsFit E f B (of_statements (as_statements call) c).0 made → VariablesStand N.by N.back A made }
{}

/// Where the run goes to its block's end, each variable that the call binds is new.
pub fn variables_of_an_end_stand()
    ensures { (E : KnownItems) (f : ℕ) (N : Numbers) (R : Renaming) (G : Handing) (I I' : Inside) (front run call : List Statement) (tail other : OptionalExpression) (p : Place) (x : Statements) (o : Else) (c : Cursor) (t : Site)
        → (s : EndFor (told_last G) I I' front run call tail other p R x o (of_statements (as_statements call) c).0 (of_optional t other (of_statements (as_statements call) c).1).0)
        → ComesBack N R (of_optional t other (of_statements (as_statements call) c).1).1.declared
        → (A : Assignment) (B : Context) (n : Node) (d : Bool) (made : Entries) → EndFits E f B n d (of_statements (as_statements call) c).0 (of_optional t other (of_statements (as_statements call) c).1).0 made → VariablesStand N.by N.back A made }
{}

/// So what stands in place of a run fits, by the text's types of what comes from the text, and its variables are new or have the plan's types there. Asked: that the new
/// items are those of the extraction, and that where the run begins the text's variables stand as the plan says; of names, that both numberings are in step there.
pub fn calls_fit_where_runs_begin()
    ensures { (p : ProgramTree) (r : Run) (plan : Plan) (bounds : Bounds) (t : TwoPrograms p r plan bounds) (N : Numbers) (R : Renaming) → Follows R N → ((n : ℕ) → R.item n ≡ past r.item (added plan) n)
        → (g : Function) (I I' : Inside) (front run call : List Statement) (place : Place) (x : Statements) (c c' : Cursor) (made : List Piece) → InStep R as_mutable made c c' → InFront N made c'
        → (s : StandFor (told_handed (handing_there r plan g)) I I' front run call place R x (of_statements (as_statements call) c').0)
        → (A : Assignment) → RunBegins (at_place (handing_there r plan g) s.text.middle.scope place.around) A c → CallBinds N R A (handing_there r plan g) I I' front run call place x (of_statements (as_statements call) c').0 s (of_statements (as_statements call) c').1
        → (entries : Entries) × StatementsFit (two.of_extraction t) (N.by.items r.item) (of_text N.by N.back A) (of_statements (as_statements call) c').0 entries × VariablesStand N.by N.back A entries }
{
    new_items_declare_what_calls_ask();
    calls_stand_where_runs_begin();
    variables_of_a_call_stand();
    what_stands_for_a_run_fits();
}

/// The same of what stands in place of a run that goes to its block's end: it fits at a block's end where the text's end stands, and its variables are new.
pub fn ends_fit_where_runs_begin()
    ensures { (p : ProgramTree) (r : Run) (plan : Plan) (bounds : Bounds) (t : TwoPrograms p r plan bounds) (N : Numbers) (R : Renaming) → Follows R N → ((n : ℕ) → R.item n ≡ past r.item (added plan) n)
        → (g : Function) (I I' : Inside) (front run call : List Statement) (tail other : OptionalExpression) (place : Place) (x : Statements) (o : Else) (c c' : Cursor) (made : List Piece) → InStep R as_mutable made c c' → InFront N made c'
        → (n : Node) (span : Span) (d : Bool)
        → (s : EndFor (told_last (handing_there r plan g)) I I' front run call tail other place R x o (of_statements (as_statements call) c').0 (of_optional n.site other (of_statements (as_statements call) c').1).0)
        → ComesBack N R (of_optional n.site other (of_statements (as_statements call) c').1).1.declared
        → (of_optional n.site other (of_statements (as_statements call) c').1).1.declared ≤ 4294967296
        → (A : Assignment) → RunBegins (at_place (handing_there r plan g) s.text.middle.scope place.around) A c
        → IsBlockSite n.site → TailStands n o → MeetsEach (two.of_text t) A (join n (tail_never (d || some_diverges x) o) (of_end r.item n d x o []))
        → SameEnd x o (of_statements (as_statements call) c').0 (of_optional n.site other (of_statements (as_statements call) c').1).0 → EndGives A o (next_values plan)
        → (entries : Entries) × EndFits (two.of_extraction t) (N.by.items r.item) (of_text N.by N.back A) (node_at N.by n span) d (of_statements (as_statements call) c').0 (of_optional n.site other (of_statements (as_statements call) c').1).0 entries × VariablesStand N.by N.back A entries }
{
    new_items_declare_what_calls_ask();
    calls_stand_where_runs_begin();
    ends_stand_by_the_text();
    variables_of_an_end_stand();
    what_stands_for_an_end_fits();
}

/// So the function with the call has types: its run begins, and the text goes on behind it, as the plan says, and what the run names is fixed in each assignment of it.
pub fn functions_with_a_call_have_types()
    ensures within { (p : ProgramTree) (r : Run) (plan : Plan) (bounds : Bounds) (t : TwoPrograms p r plan bounds) (R : Renaming) → ((n : ℕ) → R.item n ≡ past r.item (added plan) n)
        → (run call : List Statement) (f g : NamedFunction) → f.item ≡ r.item → (x : ByOneNumbering R (IsCall R as_mutable run call) (λ q. round no_holes q) f g) → Orderly (task g) → (A : Assignment) → Valid (two.of_text t) (task f) A
        → Fixes x.numbers.by none_viewed (NamedIn (rules.of_statements f.item (of_statements (as_statements run) x.such.cursor).0 [])) (two.of_extraction t) A (demands g) → InFront x.numbers x.made x.such.cursor'
        → (h : Function) (I I' : Inside) (front : List Statement) (place : Place) → (s : StandFor (told_handed (handing_there r plan h)) I I' front run call place R (of_statements (as_statements run) x.such.cursor).0 (of_statements (as_statements call) x.such.cursor').0)
        → RunBegins (at_place (handing_there r plan h) s.text.middle.scope place.around) A x.such.cursor
        → CallBinds x.numbers R A (handing_there r plan h) I I' front run call place (of_statements (as_statements run) x.such.cursor).0 (of_statements (as_statements call) x.such.cursor').0 s (of_statements (as_statements call) x.such.cursor').1
        → (W : Assignment) × Valid (two.of_extraction t) (task g) W }
    ensures at_the_end { (p : ProgramTree) (r : Run) (plan : Plan) (bounds : Bounds) (t : TwoPrograms p r plan bounds) (R : Renaming) → ((n : ℕ) → R.item n ≡ past r.item (added plan) n)
        → (run call : List Statement) (o l : OptionalExpression) (f g : NamedFunction) → f.item ≡ r.item → (x : ByOneNumbering R (IsLastCall R as_mutable run call o l) (λ q. round no_holes q) f g) → x.such.node.site ≡ x.such.site
        → Orderly (task g) → (A : Assignment) → Valid (two.of_text t) (task f) A → Fixes x.numbers.by none_viewed (NamedIn (asked_last x.such f.item)) (two.of_extraction t) A (demands g) → InFront x.numbers x.made x.such.cursor'
        → (h : Function) (I I' : Inside) (front : List Statement) (place : Place)
        → (s : EndFor (told_last (handing_there r plan h)) I I' front run call o l place R (of_statements (as_statements run) x.such.cursor).0 (of_optional x.such.node.site o (of_statements (as_statements run) x.such.cursor).1).0
        (of_statements (as_statements call) x.such.cursor').0 (of_optional x.such.node.site l (of_statements (as_statements call) x.such.cursor').1).0)
        → ComesBack x.numbers R (of_optional x.such.node.site l (of_statements (as_statements call) x.such.cursor').1).1.declared
        → (of_optional x.such.node.site l (of_statements (as_statements call) x.such.cursor').1).1.declared ≤ 4294967296 → RunBegins (at_place (handing_there r plan h) s.text.middle.scope place.around) A x.such.cursor
        → IsBlockSite x.such.node.site → TailStands x.such.node (of_optional x.such.node.site o (of_statements (as_statements run) x.such.cursor).1).0
        → MeetsEach (two.of_text t) A (join x.such.node (tail_never (some_diverges x.such.front || some_diverges (of_statements (as_statements run) x.such.cursor).0) (of_optional x.such.node.site o (of_statements (as_statements run) x.such.cursor).1).0)
        (of_end r.item x.such.node (some_diverges x.such.front) (of_statements (as_statements run) x.such.cursor).0 (of_optional x.such.node.site o (of_statements (as_statements run) x.such.cursor).1).0 []))
        → EndGives A (of_optional x.such.node.site o (of_statements (as_statements run) x.such.cursor).1).0 (next_values plan) → (W : Assignment) × Valid (two.of_extraction t) (task g) W }
{
    new_items_declare_what_calls_ask();
    calls_fit_where_runs_begin();
    ends_fit_where_runs_begin();
    functions_with_a_call_that_fits_are_valid();
}

/// So it has, where it is the text's by one numbering as it is told of its names: nothing more is asked of names and numbers, nor of the block's end but that this gives
/// what the plan hands out.
pub fn numbered_functions_with_a_call_have_types()
    ensures within { (p : ProgramTree) (r : Run) (plan : Plan) (bounds : Bounds) (t : TwoPrograms p r plan bounds) (R : Renaming) → ((n : ℕ) → R.item n ≡ past r.item (added plan) n)
        → (q : ProgramTree) (s : Span) (h : Function) (ns ms : List NodeNames) (g : NamedFunction)
        → (x : ByOneNumbering R (IsItsCall p q r.item r.item s h r plan (handing_there r plan h) ns ms R) (λ o. round no_holes o) (function_named r.item s h ns) g) → CallIsFew p s h r plan ms → Orderly (task g)
        → (A : Assignment) → Valid (two.of_text t) (task (function_named r.item s h ns)) A
        → Fixes x.numbers.by none_viewed (NamedIn (rules.of_statements r.item (of_statements (as_statements (chosen r (statements (run_block r h)))) x.such.is_call.cursor).0 [])) (two.of_extraction t) A (demands g)
        → RunBegins (handing_here (handing_there r plan h) x.such) A x.such.is_call.cursor → BehindAsPlanned A (handing_there r plan h) x.such.stands.text.end.scope → (W : Assignment) × Valid (two.of_extraction t) (task g) W }
    ensures at_the_end { (p : ProgramTree) (r : Run) (plan : Plan) (bounds : Bounds) (t : TwoPrograms p r plan bounds) (R : Renaming) → ((n : ℕ) → R.item n ≡ past r.item (added plan) n)
        → (q : ProgramTree) (s : Span) (h : Function) (ns ms : List NodeNames) (g : NamedFunction)
        → (x : ByOneNumbering R (IsItsLastCall p q r.item r.item s h r plan (handing_there r plan h) ns ms R) (λ o. round no_holes o) (function_named r.item s h ns) g) → RunStands r plan h → goes_past r (statements (run_block r h)) ≡ true
        → EndIsFew p s h r plan ms → Orderly (task g) → (A : Assignment) → Valid (two.of_text t) (task (function_named r.item s h ns)) A
        → Fixes x.numbers.by none_viewed (NamedIn (asked_last x.such.is_call r.item)) (two.of_extraction t) A (demands g)
        → RunBegins (handing_last (handing_there r plan h) x.such) A x.such.is_call.cursor
        → EndGives A (of_optional x.such.is_call.node.site (tail (run_block r h)) (of_statements (as_statements (chosen r (statements (run_block r h)))) x.such.is_call.cursor).1).0 (next_values plan)
        → (W : Assignment) × Valid (two.of_extraction t) (task g) W }
{
    functions_with_a_call_have_types();
    demands_of_an_end_stand_together();
}

/// What a call of the new function passes is settled in a part that asks what the call asks (`Settles` of rx_engine_blocks): the variable of each param has the plan's type.
pub fn what_a_call_passes_is_settled()
    ensures { (C : Calls) (R : Renaming) → IsOneToOne R → (E : KnownItems) (q : Renumbering) → parameters_declared (slice_get E.items C.number) ≡ map (shape_at q) (passed_types C.plan.params)
        → (f : ℕ) (e : Exp) → calls.IsCall C R e → PassesOn e → (es ds gs : List Demand) → es ≡ rules.of_exp f e ds ++ gs
        → Every (λ (x : Param). (j k : ℕ) → variable_named C.scope x.variable.name ≡ Some j → R.variable j k ≡ true → Settles E es (subject.Variable k) (shape_at q x.variable.typ)) C.plan.params }
{}
