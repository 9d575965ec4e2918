//! Laws of the functions that change, each as the contract of a function that does nothing.

ghost use Rattle.std.specs.Prelude.{◌≡◌, ◌≤◌, ◌<◌, ◌+◌, ◌^◌, ◌||◌, length, true, false, ℕ, Bool, List as ListOf, [], ◌++◌, map, slice_get, None, Ok, Some};
ghost use Rattle.rx_core.specs.declared.types.Span.{Span};
ghost use Rattle.rx_tree.specs.Lists.{statements, tail, Every};
ghost use Rattle.rx_tree.specs.Spans.{body_span};
ghost use Rattle.rx_tree.specs.Plain.{Function, OptionalExpression, ProgramTree, Statement, Statements, function_item};
ghost use Rattle.rx_resolve_names.specs.Meant.{number, Around};
ghost use Rattle.rx_resolve_names.specs.Items.{in_item};
ghost use Rattle.rx_resolve_names.specs.declared.resolved.ItemNames.{ItemNames};
ghost use Rattle.rx_resolve_names.specs.declared.resolved.NodeNames.{NodeNames};
ghost use Rattle.rx_typed.specs.Named.{some_diverges, tail_never, Exp, Function as NamedFunction};
ghost use Rattle.rx_typed.specs.Types.{parameters_declared, result_declared, Typ};
ghost use Rattle.rx_hoist_extraction.specs.NewFunction.{passed_types};
ghost use Rattle.rx_engine_names.specs.Calls as calls;
ghost use Rattle.rx_engine_names.specs.Calls.{Calls};
ghost use Rattle.rx_engine_blocks.specs.Renumbering.{node_at, shape_at, Renumbering};
ghost use Rattle.rx_engine_holes.specs.CallFits.{EndFits, StatementsFit, ValueFits};
ghost use Rattle.rx_engine_holes.specs.Entries.{assigned, of_text, Apart as FitsApart, Context, Entries};
ghost use Rattle.rx_engine_changed.specs.Arguments.{HasItsType, PassesOn};
ghost use Rattle.rx_typed.specs.declared.nodes.Node.{Node};
ghost use Rattle.rx_typed.specs.declared.nodes.Site.{Site};
ghost use Rattle.rx_typed.specs.Naming.{function_named, of_optional, of_statements, Cursor};
ghost use Rattle.rx_hoist_extraction.specs.Run.{as_statements, chosen, goes_past, in_front, run_block, with_parts, Run};
ghost use Rattle.rx_hoist_extraction.specs.Plan.{has_enum, Plan, Variable};
ghost use Rattle.rx_hoist_extraction.specs.Values.{next_values};
ghost use Rattle.rx_hoist_extraction.specs.Names.{Names};
ghost use Rattle.rx_hoist_extraction.specs.Changed.{changed_statements};
ghost use Rattle.rx_hoist_extraction.specs.Moved.{moving};
ghost use Rattle.rx_engine_names.specs.Renaming.{Made, Renaming, Serves};
ghost use Rattle.rx_engine_names.specs.LikeNamed.{LikeFunction, LikeStatements};
ghost use Rattle.rx_engine_names.specs.Moves.{moved, Moves};
ghost use Rattle.rx_engine_names.specs.Within.{StatementsWithin};
ghost use Rattle.rx_engine_names.specs.Insertion.{number_there, Inserted};
ghost use Rattle.rx_engine_names.specs.Apart.{Apart, Below, Few, NoneAcross};
ghost use Rattle.rx_engine_names.specs.HandedOut.{AreHanded, AreRedeclared, Handing, IsTail, IsWhole};
ghost use Rattle.rx_engine_names.specs.CalledRuns.{call_parts, LikeCalled, LikeCalledLast, RunStands};
ghost use Rattle.rx_typeck_solver.specs.Facts.{KnownItems, Assignment};
ghost use Rattle.rx_typeck_solver.specs.declared.facts.Demand.{Demand};
ghost use Rattle.rx_typeck_solver.specs.Ordered.{Orderly};
ghost use Rattle.rx_typeck_solver.specs.Valid.{Valid};
ghost use Rattle.rx_typeck_typed.specs.Demands as rules;
ghost use Rattle.rx_typeck_typed.specs.Demands.{demands, task};
ghost use Rattle.rx_engine_blocks.specs.Knows.{Knows};
ghost use Rattle.rx_engine_blocks.specs.Along.{composed, none_viewed, PartialInverse, Viewed};
ghost use Rattle.rx_engine_blocks.specs.Blocks.{none_behind, Behind, Fixes};
ghost use Rattle.rx_engine_typing.specs.Renumbered.{no_holes};
ghost use Rattle.rx_engine_holes.specs.Named.{NamedIn};
ghost use Rattle.rx_engine_holes.specs.Others.{OthersFit};
ghost use Rattle.rx_engine_holes.specs.Returned.{returned_holes};
ghost use Rattle.rx_engine_holes.specs.Special.{special_holes};
ghost use Rattle.rx_engine_holes.specs.Tail.{of_end};
ghost use Rattle.rx_engine_changed.specs.AsItStands.{as_it_stands, StatementsBeside};
ghost use Rattle.rx_engine_changed.specs.Beside.{Grows, Instead, IsOneToOne, Piece};
ghost use Rattle.rx_engine_changed.specs.Called.{with_other_block, CallIsFew, ComesToEnd, ComesToRun, RunDeclares, EndDoes, EndIsFew, EndGoesOn, EndHoleOf, EndIsNumbered, EndPlanned, HandsOn, HoleOf, CallIsNumbered, IsItsCall, IsItsLastCall, RunDoes, RunGoesOn, RunPlanned};
ghost use Rattle.rx_engine_changed.specs.Chosen.{least, Chosen, OneInstead};
ghost use Rattle.rx_engine_changed.specs.Once.{asked_last, given_last, ByOneNumbering, IsCall, IsLastCall, NumberedOnce};
ghost use Rattle.rx_engine_changed.specs.HandedTypes.{CallStands, EndStands, ItemsDeclare, NextAgrees};
ghost use Rattle.rx_engine_changed.specs.Inside.{NewNodes, VariablesStand};
ghost use Rattle.rx_engine_changed.specs.Comes.{behind as behind_node, body_of, some_statements, Comes, Part, Placed};
ghost use Rattle.rx_engine_changed.specs.Declared.{bound_mutable, IsKnownVariable};
ghost use Rattle.rx_engine_changed.specs.Quiet.{IsQuiet, LetsAreTold, NoneWaits, QuietInFront};
ghost use Rattle.rx_engine_changed.specs.Round.{as_mutable, round};
ghost use Rattle.rx_engine_changed.specs.Spots.{spot, NumberedStatements};
ghost use Rattle.rx_engine_changed.specs.Stages.{InStep};
ghost use Rattle.rx_engine_changed.specs.TextStands.{handing_here, handing_last, TextStands};

use rx_engine_holes::{
    functions_with_ends_that_fit_are_valid, functions_with_others_for_a_run_are_valid,
    functions_with_others_for_an_end_are_valid, functions_with_statements_that_fit_are_valid,
};

/// The function with the call, where something follows the run in its block, is the text's function by other numbers with the statements of the
/// call for the run: each form round them stands where it stood, and they stand once.
pub fn functions_with_a_call_are_renumbered()
    ensures standing { (p q : ProgramTree) (n m : ℕ) (s : Span) (f : Function) (r : Run) (pl : Plan) (G : Handing) → RunStands r pl f → (R : Renaming) → IsOneToOne R → (ns ms : ListOf NodeNames) → R.item n ≡ m → goes_past r (statements (run_block r f)) ≡ false → RunGoesOn p q n m s f r pl G ns ms R
        → LikeFunction (HoleOf p q n m s f r pl G (run_block r f) (with_parts r (call_parts p r pl f) (run_block r f))) R (function_named n s f ns) (function_named m s (with_other_block (run_block r f) (with_parts r (call_parts p r pl f) (run_block r f)) f) ms)
        → (function_named n s f ns).never_given ≡ []
        → NumberedOnce R (IsItsCall p q n m s f r pl G ns ms R) (λ q. round no_holes q) (function_named n s f ns) (function_named m s (with_other_block (run_block r f) (with_parts r (call_parts p r pl f) (run_block r f)) f) ms) }
    ensures asking { (A W : Assignment) (p q : ProgramTree) (n m : ℕ) (s : Span) (f : Function) (r : Run) (pl : Plan) (G : Handing) → RunStands r pl f → (R : Renaming) → IsOneToOne R → (ns ms : ListOf NodeNames) → R.item n ≡ m → goes_past r (statements (run_block r f)) ≡ false → RunGoesOn p q n m s f r pl G ns ms R
        → LikeFunction (HoleOf p q n m s f r pl G (run_block r f) (with_parts r (call_parts p r pl f) (run_block r f))) R (function_named n s f ns) (function_named m s (with_other_block (run_block r f) (with_parts r (call_parts p r pl f) (run_block r f)) f) ms)
        → (function_named n s f ns).never_given ≡ []
        → NumberedOnce R (IsItsCall p q n m s f r pl G ns ms R) (λ q. round (special_holes q.by q.back none_viewed none_behind A W) q) (function_named n s f ns) (function_named m s (with_other_block (run_block r f) (with_parts r (call_parts p r pl f) (run_block r f)) f) ms) }
{}

/// The same where the run goes to its block's end: other last statements stand for its own, and another tail.
pub fn functions_with_a_call_at_the_end_are_renumbered()
    ensures standing { (p q : ProgramTree) (n m : ℕ) (s : Span) (f : Function) (r : Run) (pl : Plan) (G : Handing) → RunStands r pl f → (R : Renaming) → IsOneToOne R → (ns ms : ListOf NodeNames) → R.item n ≡ m → goes_past r (statements (run_block r f)) ≡ true → EndGoesOn p q n m s f r pl G ns ms R
        → LikeFunction (EndHoleOf p q n m s f r pl G (run_block r f) (with_parts r (call_parts p r pl f) (run_block r f))) R (function_named n s f ns) (function_named m s (with_other_block (run_block r f) (with_parts r (call_parts p r pl f) (run_block r f)) f) ms)
        → (function_named n s f ns).never_given ≡ []
        → NumberedOnce R (IsItsLastCall p q n m s f r pl G ns ms R) (λ q. round no_holes q) (function_named n s f ns) (function_named m s (with_other_block (run_block r f) (with_parts r (call_parts p r pl f) (run_block r f)) f) ms) }
    ensures asking { (A W : Assignment) (p q : ProgramTree) (n m : ℕ) (s : Span) (f : Function) (r : Run) (pl : Plan) (G : Handing) → RunStands r pl f → (R : Renaming) → IsOneToOne R → (ns ms : ListOf NodeNames) → R.item n ≡ m → goes_past r (statements (run_block r f)) ≡ true → EndGoesOn p q n m s f r pl G ns ms R
        → LikeFunction (EndHoleOf p q n m s f r pl G (run_block r f) (with_parts r (call_parts p r pl f) (run_block r f))) R (function_named n s f ns) (function_named m s (with_other_block (run_block r f) (with_parts r (call_parts p r pl f) (run_block r f)) f) ms)
        → (function_named n s f ns).never_given ≡ []
        → NumberedOnce R (IsItsLastCall p q n m s f r pl G ns ms R) (λ q. round (special_holes q.by q.back none_viewed none_behind A W) q) (function_named n s f ns) (function_named m s (with_other_block (run_block r f) (with_parts r (call_parts p r pl f) (run_block r f)) f) ms) }
{}

/// Statements of a run that are copied into another function as they stand, and are like the text's by their names, are the text's by other
/// numbers there, where both are come to in step.
pub fn copied_runs_are_renumbered()
    ensures { (V : Moves) (R : Renaming) → IsOneToOne R → (own : Names) (ls : ListOf Around) (ss : Statements) → StatementsWithin (as_it_stands V.plan) own ls ss → (made : ListOf Piece) (c c' : Cursor) → InStep R as_mutable made c c'
        → LikeStatements (moved V) R (of_statements ss c).0 (of_statements (changed_statements (moving V.plan V.place) own ls ss) c').0 → (view : Viewed) (hidden : Behind) (D E : KnownItems) (A W : Assignment) (f k : ℕ)
        → StatementsBeside R as_mutable (λ q. returned_holes q.by q.back view hidden D E A W q.loops f k) made c c' (of_statements ss c) (of_statements (changed_statements (moving V.plan V.place) own ls ss) c') }
{}

/// The renaming in which what was made corresponds, and nothing else, is one to one where what was made is; and all corresponds that was made, where no
/// pair goes across what was passed.
pub fn made_pairs_are_one_to_one()
    ensures { (items : ℕ → ℕ) (M : Made) (a b c d : ℕ) → Few a → Few b → Few c → Few d → Apart M.variables → Below M.variables a b → Apart M.loops → Below M.loops c d
        → IsOneToOne (least items M) × (NoneAcross M a b c d → Serves items M (least items M)) }
{}

/// Pieces that were made in order, with one thing that stands for a part, tell a numbering in which all correspond, which can be undone.
pub fn pieces_tell_a_numbering()
    ensures { (items : ℕ → ℕ) (M : Made) (a b c d : ℕ) → Few a → Few b → Few c → Few d → Apart M.variables → Below M.variables a b → Apart M.loops → Below M.loops c d
        → (pieces : ListOf Piece) (last last' : ℕ) → Grows [] 0 0 pieces last last' → (i : Instead) → OneInstead i pieces → Chosen (least items M) pieces }
{}

/// A run and what stands for it in a function that is like the text's but for the run's block go on in step, where they do the same to what both know:
/// what corresponds stands in front of both, is handed on by a name that both bind, or is declared behind both.
pub fn runs_that_do_alike_go_on()
    ensures within { (p q : ProgramTree) (n m : ℕ) (s : Span) (f : Function) (r : Run) (pl : Plan) (G : Handing) (ns ms : ListOf NodeNames) (R : Renaming) → RunDoes p q n m s f r pl G ns ms R → RunGoesOn p q n m s f r pl G ns ms R }
    ensures at_the_end { (p q : ProgramTree) (n m : ℕ) (s : Span) (f : Function) (r : Run) (pl : Plan) (G : Handing) (ns ms : ListOf NodeNames) (R : Renaming) → EndDoes p q n m s f r pl G ns ms R → EndGoesOn p q n m s f r pl G ns ms R }
{}

/// So the function with the call of an extraction, which is like the text's but for the run's block, is the text's by one numbering, with the
/// statements of the call once for those of the run; asked is that the run and the call do the same to what both know, by the renaming in which what
/// was made corresponds, and that no variable of the text's is left without a type.
pub fn functions_with_a_call_have_one_numbering()
    ensures within { (p q : ProgramTree) (c : Inserted p q) (n m : ℕ) (s : Span) (f : Function) (r : Run) (pl : Plan) (G : Handing) (t : ItemNames) → RunStands r pl f → number_there c n ≡ m
        → goes_past r (statements (run_block r f)) ≡ false → LikeCalled p q c n m s f r pl G t → CallIsNumbered p q c n m s f r pl G t }
    ensures at_the_end { (p q : ProgramTree) (c : Inserted p q) (n m : ℕ) (s : Span) (f : Function) (r : Run) (pl : Plan) (G : Handing) (t : ItemNames) → RunStands r pl f → number_there c n ≡ m
        → goes_past r (statements (run_block r f)) ≡ true → LikeCalledLast p q c n m s f r pl G t → EndIsNumbered p q c n m s f r pl G t }
{}

/// A function that has a valid assignment leaves no variable without a type.
pub fn valid_functions_leave_none_waiting()
    ensures { (D : KnownItems) (A : Assignment) (f : NamedFunction) → Valid D (task f) A → f.never_given ≡ [] }
{}

/// So the function with the call has a valid assignment, where what the call asks fits: the text's types at what comes from the text.
pub fn functions_with_a_call_are_valid()
    ensures within { (R : Renaming) (run call : ListOf Statement) (f g : NamedFunction) (x : ByOneNumbering R (IsCall R as_mutable run call) (λ q. round no_holes q) f g) → (D E : KnownItems) → Knows x.numbers.by D E
        → (A W : Assignment) → Orderly (task g) → Valid D (task f) A
        → OthersFit x.numbers.by x.numbers.back E A W (rules.of_statements f.item (of_statements (as_statements run) x.such.cursor).0 []) (rules.of_statements (x.numbers.by.items f.item) (of_statements (as_statements call) x.such.cursor').0 []) (demands g)
        → Valid E (task g) (composed x.numbers.by x.numbers.back none_viewed A W) }
    ensures at_the_end { (R : Renaming) (run call : ListOf Statement) (o l : OptionalExpression) (f g : NamedFunction) (x : ByOneNumbering R (IsLastCall R as_mutable run call o l) (λ q. round no_holes q) f g) → (D E : KnownItems) → Knows x.numbers.by D E
        → (A W : Assignment) → Orderly (task g) → Valid D (task f) A
        → OthersFit x.numbers.by x.numbers.back E A W (asked_last x.such f.item) (given_last x.such x.numbers.by (x.numbers.by.items f.item)) (demands g)
        → Valid E (task g) (composed x.numbers.by x.numbers.back none_viewed A W) }
{
    functions_with_others_for_a_run_are_valid();
    functions_with_others_for_an_end_are_valid();
}

/// A call of the new function, where it declares the types of the plan's params as they are passed, fits: its arguments are variables with these types in the
/// text, or borrows of them.
pub fn calls_of_a_plan_fit()
    ensures { (C : Calls) (R : Renaming) (E : KnownItems) (B : Context) (q : Renumbering) (f : ℕ) (e : Exp) (u t : Typ) → calls.IsCall C R e → PassesOn e → Every (HasItsType E B q C R) C.plan.params
        → parameters_declared (slice_get E.items C.number) ≡ map (shape_at q) (passed_types C.plan.params) → result_declared (slice_get E.items C.number) ≡ Some t → (made : Entries) × ValueFits E f B e u t made }
{}

/// Each part of a text is numbered from the spot where it begins to the one where it ends: nodes take their numbers in order, expressions stand at their sites, and
/// variables are used as they are declared there.
pub fn statements_are_numbered_in_order()
    ensures { (ss : Statements) (c : Cursor) → NumberedStatements (spot c) (of_statements ss c).0 (spot (of_statements ss c).1) }
{}

/// What statements that fit make has one entry each, where no node of theirs comes from the text, and a variable that does has its type there.
pub fn what_a_call_makes_is_apart()
    ensures within { (q : Renumbering) (w : PartialInverse q) (E : KnownItems) (A : Assignment) (f : ℕ) (B : Context) (ss : Statements) (c : Cursor) (made : Entries) → StatementsFit E f B (of_statements ss c).0 made
        → NewNodes q w (spot c) (spot (of_statements ss c).1) → VariablesStand q w A made → FitsApart q w A made }
    ensures at_the_end { (q : Renumbering) (w : PartialInverse q) (E : KnownItems) (A : Assignment) (f : ℕ) (B : Context) (n : Node) (d : Bool) (ss : Statements) (t : Site) (o : OptionalExpression) (c : Cursor) (made : Entries)
        → EndFits E f B n d (of_statements ss c).0 (of_optional t o (of_statements ss c).1).0 made
        → NewNodes q w (spot c) (spot (of_optional t o (of_statements ss c).1).1) → VariablesStand q w A made → FitsApart q w A made }
{}

/// What stands in place of a run fits, also where what the call gives is matched and arms assign and jump: where the new items declare what the plan says, and the
/// text's variables stand where the call begins.
pub fn what_stands_for_a_run_fits()
    ensures { (E : KnownItems) (f : ℕ) (q : Renumbering) (G : Handing) (R : Renaming) → ItemsDeclare E q G f → NextAgrees G → ((n : ℕ) → q.items n ≡ R.item n) → (B : Context) (ss : Statements) (c : Cursor) (d later : ℕ)
        → CallStands E q G R B (spot c) (spot (of_statements ss c).1)
        → AreHanded G R (IsWhole G R (has_enum G.call.plan.exits)) (AreRedeclared G.call.place R later G.call.plan.redeclared) d (next_values G.call.plan) (of_statements ss c).0
        → (made : Entries) × StatementsFit E f B (of_statements ss c).0 made }
{}

/// So the function with the call has a valid assignment where what stands in place of the run fits: the text's types at what comes from the text, and by their entries
/// those of what is made. Asked: that what the run names is fixed in each assignment of the function, and that each variable of the call's is new or has its type in the text.
pub fn functions_with_a_call_that_fits_are_valid()
    ensures within { (R : Renaming) (run call : ListOf Statement) (f g : NamedFunction) (x : ByOneNumbering R (IsCall R as_mutable run call) (λ q. round no_holes q) f g) → (D E : KnownItems) → Knows x.numbers.by D E
        → (A : Assignment) → Orderly (task g) → Valid D (task f) A → Fixes x.numbers.by none_viewed (NamedIn (rules.of_statements f.item (of_statements (as_statements run) x.such.cursor).0 [])) E A (demands g)
        → (made : Entries) → StatementsFit E (x.numbers.by.items f.item) (of_text x.numbers.by x.numbers.back A) (of_statements (as_statements call) x.such.cursor').0 made → VariablesStand x.numbers.by x.numbers.back A made
        → Valid E (task g) (composed x.numbers.by x.numbers.back none_viewed A (assigned made)) }
    ensures at_the_end { (R : Renaming) (run call : ListOf Statement) (o l : OptionalExpression) (f g : NamedFunction) (x : ByOneNumbering R (IsLastCall R as_mutable run call o l) (λ q. round no_holes q) f g) → (D E : KnownItems) → Knows x.numbers.by D E
        → (A : Assignment) → Orderly (task g) → Valid D (task f) A → Fixes x.numbers.by none_viewed (NamedIn (asked_last x.such f.item)) E A (demands g)
        → (made : Entries) → EndFits E (x.numbers.by.items f.item) (of_text x.numbers.by x.numbers.back A) (node_at x.numbers.by x.such.node x.such.node.span) (some_diverges x.such.front)
        (of_statements (as_statements call) x.such.cursor').0 (of_optional x.such.site l (of_statements (as_statements call) x.such.cursor').1).0 made → VariablesStand x.numbers.by x.numbers.back A made
        → Valid E (task g) (composed x.numbers.by x.numbers.back none_viewed A (assigned made)) }
{
    functions_with_statements_that_fit_are_valid();
    functions_with_ends_that_fit_are_valid();
}

/// The same of what stands in place of a run that goes to its block's end, with a tail or without, where the block's end stands too.
pub fn what_stands_for_an_end_fits()
    ensures { (E : KnownItems) (f : ℕ) (q : Renumbering) (G : Handing) (R : Renaming) → ItemsDeclare E q G f → NextAgrees G → ((n : ℕ) → q.items n ≡ R.item n) → (B : Context) (n : Node) (b : Bool) (ss : Statements) (o : OptionalExpression) (c : Cursor) (d later : ℕ)
        → CallStands E q G R B (spot c) (spot (of_optional n.site o (of_statements ss c).1).1)
        → AreHanded G R (IsWhole G R (has_enum G.call.plan.exits)) (AreRedeclared G.call.place R later G.call.plan.redeclared) d (next_values G.call.plan) (of_statements ss c).0
        → IsTail G.call.place (IsWhole G R (has_enum G.call.plan.exits)) d (next_values G.call.plan) (of_optional n.site o (of_statements ss c).1).0
        → EndStands E q B n b (of_statements ss c).0 (next_values G.call.plan)
        → (made : Entries) × EndFits E f B n b (of_statements ss c).0 (of_optional n.site o (of_statements ss c).1).0 made }
{}

/// A run that does as its plan says, where the text comes to it, does the same as the call in its place to what both know: it assigns those variables in front that
/// wait for their types which the plan hands out, leaves those loops to which an exit leads, and diverges where the end is no exit. Asked besides, where
/// something follows the run in its block: that what both hand on by a name is known alike.
pub fn planned_runs_do_as_their_calls()
    ensures within { (p q : ProgramTree) (n m : ℕ) (s : Span) (f : Function) (r : Run) (pl : Plan) (G : Handing) (ns ms : ListOf NodeNames) (R : Renaming) → IsOneToOne R → G.call.plan.value ≡ None
        → RunPlanned p n s f r G ns → HandsOn p q n m s f r pl G ns ms R → RunDoes p q n m s f r pl G ns ms R }
    ensures at_the_end { (p q : ProgramTree) (n m : ℕ) (s : Span) (f : Function) (r : Run) (pl : Plan) (G : Handing) (ns ms : ListOf NodeNames) (R : Renaming) → IsOneToOne R
        → EndPlanned p n s f r G ns → EndDoes p q n m s f r pl G ns ms R }
{}

/// The statements of the call that stand in a function by one numbering fit: where the new items declare what the plan says, and the text's variables stand where
/// it comes to the run.
pub fn calls_in_one_numbering_fit()
    ensures within { (p q : ProgramTree) (n m : ℕ) (s : Span) (h : Function) (r : Run) (pl : Plan) (G : Handing) (ns ms : ListOf NodeNames) (R : Renaming) (f g : NamedFunction)
        (x : ByOneNumbering R (IsItsCall p q n m s h r pl G ns ms R) (λ q. round no_holes q) f g) → (E : KnownItems) (A : Assignment)
        → ItemsDeclare E x.numbers.by (handing_here G x.such) (x.numbers.by.items f.item) → NextAgrees (handing_here G x.such)
        → ((k : ℕ) → k < (of_statements (as_statements (call_parts p r pl h).statements) x.such.is_call.cursor').1.declared → number k ≡ k) → TextStands A E x.numbers.by (handing_here G x.such) x.such.is_call.cursor
        → (made : Entries) × StatementsFit E (x.numbers.by.items f.item) (of_text x.numbers.by x.numbers.back A) (of_statements (as_statements (call_parts p r pl h).statements) x.such.is_call.cursor').0 made }
    ensures at_the_end { (p q : ProgramTree) (n m : ℕ) (s : Span) (h : Function) (r : Run) (pl : Plan) (G : Handing) (ns ms : ListOf NodeNames) (R : Renaming) (f g : NamedFunction)
        (x : ByOneNumbering R (IsItsLastCall p q n m s h r pl G ns ms R) (λ q. round no_holes q) f g) → (E : KnownItems) (A : Assignment)
        → ItemsDeclare E x.numbers.by (handing_last G x.such) (x.numbers.by.items f.item) → NextAgrees (handing_last G x.such)
        → ((k : ℕ) → k < (of_optional x.such.is_call.site (call_parts p r pl h).tail (of_statements (as_statements (call_parts p r pl h).statements) x.such.is_call.cursor').1).1.declared → number k ≡ k)
        → TextStands A E x.numbers.by (handing_last G x.such) x.such.is_call.cursor
        → EndStands E x.numbers.by (of_text x.numbers.by x.numbers.back A) (node_at x.numbers.by x.such.is_call.node x.such.is_call.node.span) (some_diverges x.such.is_call.front)
        (of_statements (as_statements (call_parts p r pl h).statements) x.such.is_call.cursor').0 (next_values G.call.plan)
        → (made : Entries) × EndFits E (x.numbers.by.items f.item) (of_text x.numbers.by x.numbers.back A) (node_at x.numbers.by x.such.is_call.node x.such.is_call.node.span) (some_diverges x.such.is_call.front)
        (of_statements (as_statements (call_parts p r pl h).statements) x.such.is_call.cursor').0
        (of_optional x.such.is_call.site (call_parts p r pl h).tail (of_statements (as_statements (call_parts p r pl h).statements) x.such.is_call.cursor').1).0 made }
{}

/// What the rules of types ask of a run stands in one piece among what they ask of its function, where the function's numbering comes to it.
pub fn demands_of_a_run_stand_together()
    ensures { (n : ℕ) (s : Span) (f : Function) (r : Run) (pl : Plan) → RunStands r pl f → (ns : ListOf NodeNames) (c : Cursor) → ComesToRun s f r ns c
        → (front : ListOf Demand) × (back : ListOf Demand) × (demands (function_named n s f ns) ≡ front ++ (rules.of_statements n (of_statements (as_statements (chosen r (statements (run_block r f)))) c).0 [] ++ back)) }
{}

/// So does what they ask of a run that goes to its block's end: of the run, of the tail, and of what the block's place makes of its value.
pub fn demands_of_an_end_stand_together()
    ensures { (n : ℕ) (s : Span) (f : Function) (r : Run) (pl : Plan) → RunStands r pl f → goes_past r (statements (run_block r f)) ≡ true → (ns : ListOf NodeNames) (k : Node) (d : Bool) (c : Cursor) → ComesToEnd s f r ns k d c
        → (front : ListOf Demand) × (back : ListOf Demand) × (demands (function_named n s f ns) ≡ front
        ++ (rules.join k (tail_never (d || some_diverges (of_statements (as_statements (chosen r (statements (run_block r f)))) c).0) (of_optional k.site (tail (run_block r f)) (of_statements (as_statements (chosen r (statements (run_block r f)))) c).1).0)
        (of_end n k d (of_statements (as_statements (chosen r (statements (run_block r f)))) c).0 (of_optional k.site (tail (run_block r f)) (of_statements (as_statements (chosen r (statements (run_block r f)))) c).1).0 []) ++ back)) }
{}

/// Where a function's numbering comes to a part, and no `let` in front of it on the way leaves its variable waiting for its type, no variable waits there: so it
/// is at a run, where none in front of it in its block does either. A part is quiet where each of its `let`s has its type written or a value that comes.
pub fn nothing_waits_behind_quiet_parts()
    ensures part { (s : Span) (f : Function) (ns : ListOf NodeNames) (x : Part) (c : Cursor) (h : Comes (body_of s f ns) x c) → QuietInFront h → NoneWaits c }
    ensures run { (s : Span) (f : Function) (r : Run) (ns : ListOf NodeNames) (c : Cursor) (x : ComesToRun s f r ns c) → QuietInFront x.comes
        → IsQuiet (some_statements (as_statements (in_front r (statements (run_block r f)))), behind_node (body_span (run_block r f)) x.site x.start) → NoneWaits c }
    ensures told { (w : Placed) → LetsAreTold w → IsQuiet w }
{}

/// So the function with the call of a plan has a valid assignment: where the text has one, the new items declare what the plan says, and the text's variables stand
/// where it comes to the run. Asked besides: that what the run names is fixed in each assignment of the function, and that each variable of the call's is new or has
/// its type in the text.
pub fn functions_with_a_call_of_a_plan_are_valid()
    ensures within { (p q : ProgramTree) (n m : ℕ) (s : Span) (h : Function) (r : Run) (pl : Plan) (G : Handing) (ns ms : ListOf NodeNames) (R : Renaming) (f g : NamedFunction)
        (x : ByOneNumbering R (IsItsCall p q n m s h r pl G ns ms R) (λ q. round no_holes q) f g) → (D E : KnownItems) → Knows x.numbers.by D E → (A : Assignment) → Orderly (task g) → Valid D (task f) A
        → Fixes x.numbers.by none_viewed (NamedIn (rules.of_statements f.item (of_statements (as_statements (chosen r (statements (run_block r h)))) x.such.is_call.cursor).0 [])) E A (demands g)
        → ItemsDeclare E x.numbers.by (handing_here G x.such) (x.numbers.by.items f.item) → NextAgrees (handing_here G x.such)
        → ((k : ℕ) → k < (of_statements (as_statements (call_parts p r pl h).statements) x.such.is_call.cursor').1.declared → number k ≡ k) → TextStands A E x.numbers.by (handing_here G x.such) x.such.is_call.cursor
        → ((made : Entries) → StatementsFit E (x.numbers.by.items f.item) (of_text x.numbers.by x.numbers.back A) (of_statements (as_statements (call_parts p r pl h).statements) x.such.is_call.cursor').0 made
        → VariablesStand x.numbers.by x.numbers.back A made) → (made : Entries) × Valid E (task g) (composed x.numbers.by x.numbers.back none_viewed A (assigned made)) }
    ensures at_the_end { (p q : ProgramTree) (n m : ℕ) (s : Span) (h : Function) (r : Run) (pl : Plan) (G : Handing) (ns ms : ListOf NodeNames) (R : Renaming) (f g : NamedFunction)
        (x : ByOneNumbering R (IsItsLastCall p q n m s h r pl G ns ms R) (λ q. round no_holes q) f g) → (D E : KnownItems) → Knows x.numbers.by D E → (A : Assignment) → Orderly (task g) → Valid D (task f) A
        → Fixes x.numbers.by none_viewed (NamedIn (asked_last x.such.is_call f.item)) E A (demands g)
        → ItemsDeclare E x.numbers.by (handing_last G x.such) (x.numbers.by.items f.item) → NextAgrees (handing_last G x.such)
        → ((k : ℕ) → k < (of_optional x.such.is_call.site (call_parts p r pl h).tail (of_statements (as_statements (call_parts p r pl h).statements) x.such.is_call.cursor').1).1.declared → number k ≡ k)
        → TextStands A E x.numbers.by (handing_last G x.such) x.such.is_call.cursor
        → EndStands E x.numbers.by (of_text x.numbers.by x.numbers.back A) (node_at x.numbers.by x.such.is_call.node x.such.is_call.node.span) (some_diverges x.such.is_call.front)
        (of_statements (as_statements (call_parts p r pl h).statements) x.such.is_call.cursor').0 (next_values G.call.plan)
        → ((made : Entries) → EndFits E (x.numbers.by.items f.item) (of_text x.numbers.by x.numbers.back A) (node_at x.numbers.by x.such.is_call.node x.such.is_call.node.span) (some_diverges x.such.is_call.front)
        (of_statements (as_statements (call_parts p r pl h).statements) x.such.is_call.cursor').0
        (of_optional x.such.is_call.site (call_parts p r pl h).tail (of_statements (as_statements (call_parts p r pl h).statements) x.such.is_call.cursor').1).0 made
        → VariablesStand x.numbers.by x.numbers.back A made) → (made : Entries) × Valid E (task g) (composed x.numbers.by x.numbers.back none_viewed A (assigned made)) }
{
    functions_with_a_call_that_fits_are_valid();
}

/// What the call declares is known behind it and `mut` as the plan says: in order, the variables that are bound to what is handed out, and those that are redeclared.
pub fn what_a_call_declares_is_known()
    ensures { (G : Handing) (R : Renaming) → IsOneToOne R → (ss : Statements) (c : Cursor) (d later : ℕ) → length c.variables ≡ c.declared
        → AreHanded G R (IsWhole G R (has_enum G.call.plan.exits)) (AreRedeclared G.call.place R later G.call.plan.redeclared) d (next_values G.call.plan) (of_statements ss c).0
        → ((i : ℕ) (b : Bool) → slice_get (bound_mutable G (next_values G.call.plan)) i ≡ Some b → IsKnownVariable (spot (of_statements ss c).1) (d + i) b)
        × ((j : ℕ) (v : Variable) → slice_get G.call.plan.redeclared j ≡ Some v → IsKnownVariable (spot (of_statements ss c).1) (later + j) v.mutable) }
{}

/// What a run and its call both declare, by a name that both bind, is known alike behind them: where the run declares it as the plan says, and numbers of variables
/// are few where the call is come to.
pub fn calls_hand_on_what_their_runs_do()
    ensures { (p q : ProgramTree) (n m : ℕ) (s : Span) (f : Function) (r : Run) (pl : Plan) (G : Handing) (ns ms : ListOf NodeNames) (R : Renaming) → IsOneToOne R
        → length G.call.plan.identifiers + length (next_values G.call.plan) ≤ 2 ^ 64 → RunDeclares p n s f r G ns → CallIsFew p s f r pl ms → HandsOn p q n m s f r pl G ns ms R }
{}

/// Numbers of variables are few where the function with the call comes to it, where its tables have few variables.
pub fn calls_are_few_where_their_tables_are()
    ensures { (p q : ProgramTree) (m : ℕ) (s : Span) (f : Function) (r : Run) (pl : Plan) (u : ItemNames)
        → in_item q m (function_item s (with_other_block (run_block r f) (with_parts r (call_parts p r pl f) (run_block r f)) f)) ≡ Ok u → Few (length u.vars) → CallIsFew p s f r pl u.names }
{}

/// So they are behind the tail of what stands for a run that goes to its block's end.
pub fn ends_are_few_where_their_tables_are()
    ensures { (p q : ProgramTree) (m : ℕ) (s : Span) (f : Function) (r : Run) (pl : Plan) (u : ItemNames) → goes_past r (statements (run_block r f)) ≡ true
        → in_item q m (function_item s (with_other_block (run_block r f) (with_parts r (call_parts p r pl f) (run_block r f)) f)) ≡ Ok u → Few (length u.vars) → EndIsFew p s f r pl u.names }
{}
