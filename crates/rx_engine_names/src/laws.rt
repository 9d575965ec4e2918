//! Laws of names, each as the contract of a function that does nothing.

ghost use Rattle.std.specs.Prelude.{◌≡◌, ◌≤◌, ◌+◌, ◌||◌, ◌++◌, ℕ, true, false, suc, Bool, List, [], ◌∷◌, Option, Some, Ok};
ghost use Rattle.rx_core.specs.declared.types.Span.{Span};
ghost use Rattle.rx_tree.specs.Plain as plain;
ghost use Rattle.rx_tree.specs.Positions.{a_block, descend};
ghost use Rattle.rx_tree.specs.Plain.{Body, Function, ItemTree, OptionalExpression, ProgramTree, Statement, Statements};
ghost use Rattle.rx_resolve_names.specs.declared.resolved.ItemNames.{ItemNames};
ghost use Rattle.rx_resolve_names.specs.Items.{in_item, in_items, in_program};
ghost use Rattle.rx_resolve_names.specs.Scopes.{DeclaredNames, Variables, variable_named};
ghost use Rattle.rx_tree.specs.Lists.{nth, statements, Every};
ghost use Rattle.rx_tree.specs.Spans.{body_span};
ghost use Rattle.rx_tree.specs.declared.tree.Ident.{Ident};
ghost use Rattle.rx_typed.specs.Types.{Typ};
ghost use Rattle.rx_resolve_names.specs.Meant.{as_function, function_name, item_named, target, to_loop, Around, number};
ghost use Rattle.rx_graph_cycles.specs.Reaches.{NoCycle};
ghost use Rattle.rx_resolve_names.specs.Causes.{Meant};
ghost use Rattle.rx_resolve_names.specs.Holding.{held_in_tree};
ghost use Rattle.rx_resolve_names.specs.Steps.{Inside};
ghost use Rattle.rx_resolve_names.specs.Names.{in_block, in_optional, in_statements, variant_in, Scoped};
ghost use Rattle.rx_typed.specs.Naming.{function_named};
ghost use Rattle.rx_hoist_extraction.specs.Run.{as_statements, goes_past, numbered, run_block, with_parts, Run, labels_round, run_parts, Parts};
ghost use Rattle.rx_hoist_extraction.specs.Names.{behind_all, is_among, Names, Distinct};
ghost use Rattle.rx_hoist_extraction.specs.Plan.{enum_name, exit_name, has_enum, names_of, Bounds, Exit, Leaving, Pins, Plan, Variable};
ghost use Rattle.rx_hoist_extraction.specs.Values.{next_values, result_of};
ghost use Rattle.rx_hoist_extraction.specs.Moved.{leaves};
ghost use Rattle.rx_hoist_naming.specs.Words.{NamesTypes};
ghost use Rattle.rx_hoist_extraction.specs.Pinned.{pinned_function};
ghost use Rattle.rx_hoist_extraction.specs.Made.{assignment, binding, done, ident, let_value};
ghost use Rattle.rx_hoist_extraction.specs.Call.{bare_call, jump_label};
ghost use Rattle.rx_hoist_extraction.specs.Changed.{changed_body};
ghost use Rattle.rx_hoist_extraction.specs.Extraction.{added, extraction, new_items, new_number, replacing, with_call};
ghost use Rattle.rx_hoist_extraction.specs.NewFunction.{new_function};
ghost use Rattle.rx_lex.specs.Tok.{Tok};
ghost use Rattle.rx_select.specs.OneText.{OneText};
ghost use Rattle.rx_select.specs.RunOf.{RunOf};
ghost use Rattle.rx_typed_runs.specs.declared.runs.RunPos.{RunPos};
ghost use Rattle.rx_hoist_naming.specs.NamesWords.{identifiers};
ghost use Rattle.rx_hoist_naming.specs.DeclaredNames.{declared_names};
ghost use Rattle.rx_hoist_extraction.specs.FreeName.{FreeName};
ghost use Rattle.rx_engine_names.specs.LikeNamed.{LikeFunction, no_holes};
ghost use Rattle.rx_engine_names.specs.Alike.{same_numbers, with_body};
ghost use Rattle.rx_engine_names.specs.Insertion.{Inserted, number_there, past};
ghost use Rattle.rx_engine_names.specs.NewNames.{AreFree};
ghost use Rattle.rx_engine_names.specs.WrittenOut.{written_out, PinsName};
ghost use Rattle.rx_engine_names.specs.Renaming.{Has, Made};
ghost use Rattle.rx_engine_names.specs.HandedOut.{Handing};
ghost use Rattle.rx_engine_names.specs.HandsOver.{handed_names, parts_for, HandedOver, HandsOut, HandsOver};
ghost use Rattle.rx_engine_names.specs.CalledRuns.{call_parts, handing_of, BehindAgrees, LikeCalled, LikeCalledLast, RunStands, TextSays, TextSaysLast};
ghost use Rattle.rx_engine_names.specs.Replaced.{only, BlocksAlike, EndsAlike, Keeps, LoopsAlike, NamesAlike, Stands, StandsLast};
ghost use Rattle.rx_engine_names.specs.Placed.{inside_of, labels_at, AllMeet, StandsAlone};
ghost use Rattle.rx_engine_names.specs.KeptWays.{KeepsMaybe};
ghost use Rattle.rx_engine_names.specs.SelectedRuns.{RunSelected};
ghost use Rattle.rx_engine_names.specs.Reached.{BlockReached, RunReached};
ghost use Rattle.rx_engine_names.specs.Within.{OptionalWithin, StatementsWithin};
ghost use Rattle.rx_engine_names.specs.Calls.{bound_to, Calls, IsCall, ParamsMeant, FunctionMeant, ExpressionMade};
ghost use Rattle.rx_engine_names.specs.Moves.{Moves, labels_of, numbers_of, asked, rounds, ExitsNamed, StartsAlike, RunAlike};
ghost use Rattle.rx_engine_names.specs.Extractions.{CallNames, ExtractionAlike, RunNames};
ghost use Rattle.rx_engine_names.specs.NewFunction.{moves_by, place_of, NewFunctionAlike};
ghost use Rattle.rx_engine_names.specs.NewPlan.{exit_names, run_claims, EnumStands, PlanNames, TypesNamed};

/// A function that stays where new items stand behind another has a like tree in both programs: its variables and loops keep their
/// numbers, the items behind the new ones have greater numbers.
pub fn functions_stay()
    ensures { (p q : ProgramTree) (c : Inserted p q) (n m : ℕ) (s : Span) (f : Function) (t : ItemNames) → in_item p n (plain.function_item s f) ≡ Ok t
        → (u : ItemNames) × (in_item q m (plain.function_item s f) ≡ Ok u) × LikeFunction no_holes (same_numbers (number_there c)) (function_named n s f t.names) (function_named m s f u.names) }
{}

/// The names of an item that stays where new items stand behind a function have a meaning again.
pub fn items_stay()
    ensures { (p q : ProgramTree) (c : Inserted p q) (n m : ℕ) (i : ItemTree) (t : ItemNames) → in_item p n i ≡ Ok t → (u : ItemNames) × (in_item q m i ≡ Ok u) }
{}

/// The extraction of a run by a plan whose names are free is the program with new items behind the function of the run; an item
/// behind it has a number greater by the number of new items.
pub fn extraction_is_inserted()
    ensures { (p : ProgramTree) (r : Run) (plan : Plan) (bounds : Bounds) (s : Span) (f : Function) → nth p r.item ≡ Some (plain.function_item s f) → AreFree p plan
        → (c : Inserted p (extraction p r plan bounds)) × ((n : ℕ) → number_there c n ≡ past r.item (added plan) n) }
{}

/// The names of the extraction have a meaning where those of the program have, those of the function with the call and those of the
/// new items, and where the names of the plan are free.
pub fn names_have_meanings()
    ensures { (p : ProgramTree) (r : Run) (plan : Plan) (bounds : Bounds) (s : Span) (f : Function) → nth p r.item ≡ Some (plain.function_item s f) → AreFree p plan
        → (ts : List ItemNames) → in_program p ≡ Ok ts
        → (t : ItemNames) (ns : List ItemNames) → in_item (extraction p r plan bounds) r.item (plain.function_item s (with_call p r plan (pinned_function p r.span plan.pins f))) ≡ Ok t
        → in_items (extraction p r plan bounds) (suc r.item) (new_items p r plan bounds (pinned_function p r.span plan.pins f)) ≡ Ok ns
        → (us : List ItemNames) × (in_program (extraction p r plan bounds) ≡ Ok us) }
{}

/// A function whose kinds and types are written out has a like tree, in the program and in one with new items, where these types name
/// structs and enums of the program: there is a kind where a literal had none, and a type where a `let` had none, that of its place.
pub fn pinned_functions_are_alike()
    ensures { (p q : ProgramTree) (c : Inserted p q) (ts : List ItemNames) → in_program p ≡ Ok ts → (place : Span) (pins : Option Pins) → PinsName p pins
        → (n m : ℕ) (s : Span) (f : Function) (t : ItemNames) → in_item p n (plain.function_item s f) ≡ Ok t
        → (u : ItemNames) × (in_item q m (plain.function_item s (pinned_function p place pins f)) ≡ Ok u) × LikeFunction (written_out pins) (same_numbers (number_there c)) (function_named n s f t.names) (function_named m s (pinned_function p place pins f) u.names) }
{}

/// Such a function has a like tree in the program itself: its names have meanings there where those of the text's have.
pub fn pinned_functions_resolve()
    ensures { (p : ProgramTree) (ts : List ItemNames) → in_program p ≡ Ok ts → (place : Span) (pins : Option Pins) → PinsName p pins → (n : ℕ) (s : Span) (f : Function) (t : ItemNames) → in_item p n (plain.function_item s f) ≡ Ok t
        → (u : ItemNames) × (in_item p n (plain.function_item s (pinned_function p place pins f)) ≡ Ok u) × LikeFunction (written_out pins) (same_numbers (λ k. k)) (function_named n s f t.names) (function_named n s (pinned_function p place pins f) u.names) }
{}

/// The statements of a run resolve in the new function, and a tail behind them does wherever it stands there; their trees are like those
/// of the text. The names that the run uses are to be its own or of params and locals, what a jump hands out is to be hidden by nothing,
/// and the enum of exits is to have its variants. Then a variable behind a reference is dereferenced, a jump that leaves returns the
/// variant of its exit with variables that correspond to its outs, and a return that of Return.
pub fn moved_runs_are_alike()
    ensures { (p q : ProgramTree) (c : Inserted p q) (v : Moves) (a b : ℕ) (ls ms : DeclaredNames) (start : Variables) (made : Made)
        → ExitsNamed v (record { program = q; item = b; lifetimes = ms }) → StartsAlike v made start
        → (at at' : List ℕ) (i i' : ℕ) (ss : Statements) → StatementsWithin (asked v (record { program = p; item = a; lifetimes = ls }) (record { program = q; item = b; lifetimes = ms }) start) [] (rounds v) ss
        → (t u : ItemNames) (r : Scoped) → in_statements (record { program = p; item = a; lifetimes = ls }) v.scope v.loops at i ss t ≡ Ok r
        → RunAlike (number_there c) v (record { program = p; item = a; lifetimes = ls }) (record { program = q; item = b; lifetimes = ms }) start made at' i' ss t u r }
{}

/// The call of the new function resolves where the names of its params mean variables that correspond and its own name means no
/// variable; it passes these variables, or borrows of them, as the modes tell.
pub fn calls_are_made()
    ensures { (items : ℕ → ℕ) (c : Calls) (inside : Inside) (scope : Variables) (around : List Around) (made : Made) (at : List ℕ)
        → FunctionMeant c inside scope → ParamsMeant c made scope c.plan.params → (t : ItemNames) → ExpressionMade items inside scope around made at (bare_call c.plan c.place) t (IsCall c) }
{}

/// A block in which other statements stand for some resolves where these do, and its tree is like that of the text but for them.
pub fn blocks_are_replaced()
    ensures { (p q : ProgramTree) (c : Inserted p q) (a b : ℕ) (ls : DeclaredNames) (scope start : Variables) (around round : List Around) (made : Made) (xs : Names)
        → NamesAlike made xs scope start → LoopsAlike made around round
        → (span : Span) (front run call behind : List Statement) (tail : OptionalExpression) → StatementsWithin (only xs scope start) xs [] (as_statements front) → (at at' : List ℕ) (t t' u : ItemNames)
        → ((r s : Scoped) (i : ℕ) → in_statements (record { program = p; item = a; lifetimes = ls }) scope around at 0 (as_statements front) t ≡ Ok r → in_statements (record { program = p; item = a; lifetimes = ls }) r.scope around at i (as_statements run) r.tables ≡ Ok s
        → (middle : Variables) (now : Made) → Keeps made now → NamesAlike now (behind_all xs (as_statements front)) r.scope middle → (j : ℕ) (w : ItemNames) → Stands (record { program = q; item = b; lifetimes = ls }) round now middle at' j call s.scope behind tail w)
        → in_block (record { program = p; item = a; lifetimes = ls }) scope around at (plain.body span (as_statements (front ++ (run ++ behind))) tail) t ≡ Ok t'
        → BlocksAlike (number_there c) (record { program = p; item = a; lifetimes = ls }) (record { program = q; item = b; lifetimes = ls }) made scope start around round at at' (plain.body span (as_statements (front ++ (run ++ behind))) tail) (plain.body span (as_statements (front ++ (call ++ behind))) tail) front run call t t' u }
{}

/// Likewise where the block's tail is replaced with its last statements.
pub fn ends_are_replaced()
    ensures { (p q : ProgramTree) (c : Inserted p q) (a b : ℕ) (ls : DeclaredNames) (scope start : Variables) (around round : List Around) (made : Made) (xs : Names)
        → NamesAlike made xs scope start → LoopsAlike made around round
        → (span : Span) (front run call : List Statement) (tail last : OptionalExpression) → StatementsWithin (only xs scope start) xs [] (as_statements front) → (at at' : List ℕ) (t t' u : ItemNames)
        → ((r : Scoped) → in_statements (record { program = p; item = a; lifetimes = ls }) scope around at 0 (as_statements front) t ≡ Ok r
        → (middle : Variables) (now : Made) → Keeps made now → NamesAlike now (behind_all xs (as_statements front)) r.scope middle → (j : ℕ) (way : List ℕ) (w : ItemNames) → StandsLast (record { program = q; item = b; lifetimes = ls }) round middle at' j way call last w)
        → in_block (record { program = p; item = a; lifetimes = ls }) scope around at (plain.body span (as_statements (front ++ run)) tail) t ≡ Ok t'
        → EndsAlike (number_there c) (record { program = p; item = a; lifetimes = ls }) (record { program = q; item = b; lifetimes = ls }) made scope start around round at at' (plain.body span (as_statements (front ++ run)) tail) (plain.body span (as_statements (front ++ call)) last) front run call tail last t t' u }
{}

/// The new function is found by its name in the extraction, where the plan's names are free.
pub fn new_functions_are_found()
    ensures { (p : ProgramTree) (r : Run) (plan : Plan) (bounds : Bounds) (s : Span) (f : Function) → nth p r.item ≡ Some (plain.function_item s f) → AreFree p plan
        → as_function (item_named function_name 0 (extraction p r plan bounds) plan.name) ≡ Some (new_number r plan) }
{}

/// What stands in place of a run, in each shape, resolves where it is asked to: the call alone, its value assigned, bound or as the tail,
/// several values bound by a tuple pattern and those of variables that the run doesn't declare put back; the call itself or the match on it,
/// with an arm an exit; and behind it the variables that are redeclared. What is asked follows from the text where names and loops
/// correspond. A jump that is made leads where the run's does. The names that are bound behind it are those of the values that are handed
/// out, where the run declares them or they have fresh names, and those that are redeclared.
pub fn calls_hand_out()
    ensures over { (p q : ProgramTree) (c : Inserted p q) (ts : List ItemNames) → in_program p ≡ Ok ts → (a b : ℕ) (ls : DeclaredNames) (g : Handing) (scope : Variables) (around : List Around) (made : Made)
        → HandsOver g (record { program = q; item = b; lifetimes = ls }) scope around made → Every (λ (v : Variable). NamesTypes p v.typ) g.call.plan.redeclared → ((t : Typ) → next_values g.call.plan ≡ result_of t ∷ [] → g.call.plan.redeclared ≡ [])
        → (at : List ℕ) (i : ℕ) (u : ItemNames) → HandedOver (number_there c) p g (record { program = q; item = b; lifetimes = ls }) scope around made at i u }
    ensures meant { (g : Handing) (inside : Inside) (scope : Variables) (around : List Around) (made : Made) → AllMeet (Has made.variables) g.call.scope scope → LoopsAlike made g.loops around → HandsOut g inside → HandsOver g inside scope around made }
    ensures jumps { (s : Span) (around : List Around) (l : Option Ident) (k n : ℕ) → leaves l (numbered 1 (labels_of around)) ≡ Some k → target l around ≡ to_loop n
        → (nth (numbers_of around) k ≡ Some n) × (target (jump_label s (labels_of around) k) around ≡ to_loop n) }
    ensures bound { (p : ProgramTree) (plan : Plan) (s : Span) (own : Names) (labels : List (Option Ident)) (x : List ℕ)
        → is_among x (behind_all [] (as_statements (parts_for p plan s own labels).statements)) ≡ (is_among x (names_of plan.redeclared) || is_among x (handed_names plan own (next_values plan))) }
{}

/// The function with the call in place of the run, in its shape by a plan, resolves, and its tree is like that of the text but for the block
/// of the run, at any depth: where the text says, wherever the block may stand, that the names of params and outs mean variables and that
/// jumps of exits lead to loops round it, and where behind the run names are used that the run and the call both bind or neither does. The
/// block's trees tell the run's and the call's. Where the run goes to its block's end, the call stands with its tail.
pub fn changed_functions_are_alike()
    ensures within { (p q : ProgramTree) (c : Inserted p q) (ts : List ItemNames) → in_program p ≡ Ok ts → (n m : ℕ) (s : Span) (f : Function) (r : Run) (plan : Plan) (number enum : ℕ) (variants : Exit → ℕ)
        → Every (λ (v : Variable). NamesTypes p v.typ) plan.redeclared → ((t : Typ) → next_values plan ≡ result_of t ∷ [] → plan.redeclared ≡ []) → RunStands r plan f → goes_past r (statements (run_block r f)) ≡ false
        → BehindAgrees p r plan f → TextSays p n q m s f r (handing_of r plan f number enum variants) → (t : ItemNames) → in_item p n (plain.function_item s f) ≡ Ok t
        → LikeCalled p q c n m s f r plan (handing_of r plan f number enum variants) t }
    ensures ending { (p q : ProgramTree) (c : Inserted p q) (ts : List ItemNames) → in_program p ≡ Ok ts → (n m : ℕ) (s : Span) (f : Function) (r : Run) (plan : Plan) (number enum : ℕ) (variants : Exit → ℕ)
        → Every (λ (v : Variable). NamesTypes p v.typ) plan.redeclared → ((t : Typ) → next_values plan ≡ result_of t ∷ [] → plan.redeclared ≡ []) → RunStands r plan f → goes_past r (statements (run_block r f)) ≡ true
        → TextSaysLast p n q m s f r (handing_of r plan f number enum variants) → (t : ItemNames) → in_item p n (plain.function_item s f) ≡ Ok t
        → LikeCalledLast p q c n m s f r plan (handing_of r plan f number enum variants) t }
    ensures call { (p : ProgramTree) (r : Run) (plan : Plan) (f : Function) → with_call p r plan f ≡ with_body (changed_body (replacing (body_span (run_block r f)) (with_parts r (call_parts p r plan f) (run_block r f))) [] [] f.body) f }
{}

/// The call alone, the call whose value is assigned, and the call whose value is bound stand for a run, where the names that are used
/// behind it mean variables that correspond; the call as the tail stands for a run with the tail.
pub fn calls_stand()
    ensures alone { (c : Calls) (inside : Inside) (around : List Around) (made : Made) (start scope : Variables) → FunctionMeant c inside start → ParamsMeant c made start c.plan.params
        → (names : Names) (behind : List Statement) (tail : OptionalExpression) → NamesAlike made names scope start → StatementsWithin (only names scope start) names [] (as_statements behind)
        → OptionalWithin (only names scope start) (behind_all names (as_statements behind)) [] tail
        → (at : List ℕ) (i : ℕ) (u : ItemNames) → Stands inside around made start at i (done c.place (bare_call c.plan c.place) ∷ []) scope behind tail u }
    ensures assigned { (c : Calls) (inside : Inside) (around : List Around) (made : Made) (start scope : Variables) → FunctionMeant c inside start → ParamsMeant c made start c.plan.params
        → (names : Names) (behind : List Statement) (tail : OptionalExpression) (x : List ℕ) (m : ℕ) → variable_named start x ≡ Some m → NamesAlike made names scope start → StatementsWithin (only names scope start) names [] (as_statements behind)
        → OptionalWithin (only names scope start) (behind_all names (as_statements behind)) [] tail
        → (at : List ℕ) (i : ℕ) (u : ItemNames) → Stands inside around made start at i (assignment c.place x (bare_call c.plan c.place) ∷ []) scope behind tail u }
    ensures bound { (c : Calls) (inside : Inside) (around : List Around) (made : Made) (start scope : Variables) → FunctionMeant c inside start → ParamsMeant c made start c.plan.params
        → (names : Names) (behind : List Statement) (tail : OptionalExpression) (x : List ℕ) (m : Bool) (at : List ℕ) (i : ℕ) (u : ItemNames) (now : Made) → Keeps made now → NamesAlike now names scope (bound_to x u start)
        → StatementsWithin (only names scope (bound_to x u start)) names [] (as_statements behind) → OptionalWithin (only names scope (bound_to x u start)) (behind_all names (as_statements behind)) [] tail
        → Stands inside around made start at i (let_value c.place (binding c.place x m) (bare_call c.plan c.place) ∷ []) scope behind tail u }
    ensures last { (c : Calls) (inside : Inside) (around : List Around) (made : Made) (start : Variables) → FunctionMeant c inside start → ParamsMeant c made start c.plan.params
        → (at : List ℕ) (i : ℕ) (way : List ℕ) (u : ItemNames) → StandsLast inside around start at i way [] (plain.present (bare_call c.plan c.place)) u }
{}

/// The new function resolves in a program with new items, where the enum of exits stands, and its tree is beside that of the run: its params
/// are those of the plan with their types, its result is what the plan tells, and its body has the locals, the statements of the run, and
/// the end in the plan's shape. Asked: what a plan of an accepted program gives.
pub fn new_functions_are_alike()
    ensures { (p q : ProgramTree) (c : Inserted p q) (ts : List ItemNames) → in_program p ≡ Ok ts → (plan : Plan) (bounds : Bounds) (place : Span) (loops : List Around) (scope : Variables) (e : ℕ) (run : Parts)
        → PlanNames p (moves_by plan place loops scope e) run → EnumStands p q (moves_by plan place loops scope e) → (m a : ℕ) (ls : DeclaredNames) (at : List ℕ) (i : ℕ) (t : ItemNames) (r : Scoped)
        → in_statements (record { program = p; item = a; lifetimes = ls }) scope loops at i (as_statements run.statements) t ≡ Ok r → (at' : List ℕ) (t' : ItemNames) → in_optional (record { program = p; item = a; lifetimes = ls }) r.scope loops at' run.tail r.tables ≡ Ok t'
        → StatementsWithin (run_claims (moves_by plan place loops scope e)) [] (rounds (moves_by plan place loops scope e)) (as_statements run.statements) → OptionalWithin (run_claims (moves_by plan place loops scope e)) (behind_all [] (as_statements run.statements)) (rounds (moves_by plan place loops scope e)) run.tail
        → NewFunctionAlike (number_there c) p q (moves_by plan place loops scope e) m (new_function p plan bounds place (rounds (moves_by plan place loops scope e)) run) (as_statements run.statements) run.tail t t' r.scope }
{}

/// The enum of exits is found by its name in the extraction by a plan whose names are free; where it stands, each exit's name means the
/// variant with the number of its place, that of the run's end too.
pub fn exits_stand()
    ensures found { (p : ProgramTree) (r : Run) (plan : Plan) (bounds : Bounds) (s : Span) (f : Function) → nth p r.item ≡ Some (plain.function_item s f) → AreFree p plan → (loops : List Around) (scope : Variables)
        → EnumStands p (extraction p r plan bounds) (moves_by plan r.span loops scope (suc r.item)) }
    ensures meant { (p q : ProgramTree) (v : Moves) → EnumStands p q v → Distinct (exit_names v.plan.exits) → ((x : Exit) → v.variant x ≡ number (place_of x v.plan.exits)) → (inside : Inside) → inside.program ≡ q → ExitsNamed v inside }
    ensures every { (p q : ProgramTree) (v : Moves) → EnumStands p q v → Distinct (exit_names v.plan.exits) → ((x : Exit) → v.variant x ≡ number (place_of x v.plan.exits)) → (inside : Inside) → inside.program ≡ q → has_enum v.plan.exits ≡ true
        → Every (λ (x : Leaving). variant_in inside (ident v.place (enum_name v.plan)) (ident v.place (exit_name x.exit)) ≡ Ok (v.enum ∷ v.variant x.exit ∷ [])) v.plan.exits }
{}

/// The new items of an extraction have meanings: the enum where there is one, and the new function. Asked: what a plan of an accepted
/// program gives, and that the run resolves in the text.
pub fn new_items_have_meanings()
    ensures { (p : ProgramTree) (r : Run) (plan : Plan) (bounds : Bounds) (s : Span) (f : Function) → nth p r.item ≡ Some (plain.function_item s f) → AreFree p plan → (loops : List Around) (scope : Variables)
        → labels_of loops ≡ labels_round r (pinned_function p r.span plan.pins f) → PlanNames p (moves_by plan r.span loops scope (suc r.item)) (run_parts r (pinned_function p r.span plan.pins f)) → (ts : List ItemNames) → in_program p ≡ Ok ts
        → (a : ℕ) (ls : DeclaredNames) (at : List ℕ) (i : ℕ) (t : ItemNames) (m : Scoped) → in_statements (record { program = p; item = a; lifetimes = ls }) scope loops at i (as_statements (run_parts r (pinned_function p r.span plan.pins f)).statements) t ≡ Ok m
        → (at' : List ℕ) (t' : ItemNames) → in_optional (record { program = p; item = a; lifetimes = ls }) m.scope loops at' (run_parts r (pinned_function p r.span plan.pins f)).tail m.tables ≡ Ok t'
        → StatementsWithin (run_claims (moves_by plan r.span loops scope (suc r.item))) [] (rounds (moves_by plan r.span loops scope (suc r.item))) (as_statements (run_parts r (pinned_function p r.span plan.pins f)).statements)
        → OptionalWithin (run_claims (moves_by plan r.span loops scope (suc r.item))) (behind_all [] (as_statements (run_parts r (pinned_function p r.span plan.pins f)).statements)) (rounds (moves_by plan r.span loops scope (suc r.item))) (run_parts r (pinned_function p r.span plan.pins f)).tail
        → (ns : List ItemNames) × (in_items (extraction p r plan bounds) (suc r.item) (new_items p r plan bounds (pinned_function p r.span plan.pins f)) ≡ Ok ns) }
{}

/// No struct or enum of an extraction reaches itself where none of the program does, where the types that the plan hands out name structs
/// and enums of the program.
pub fn no_cycles_are_made()
    ensures { (p : ProgramTree) (r : Run) (plan : Plan) (bounds : Bounds) (s : Span) (f : Function) → nth p r.item ≡ Some (plain.function_item s f) → AreFree p plan → (ts : List ItemNames) → in_program p ≡ Ok ts → TypesNamed p plan
        → NoCycle (held_in_tree p) → NoCycle (held_in_tree (extraction p r plan bounds)) }
{}

/// The extraction of a program whose names have meanings has meanings for its names, where those of the function with the call have.
pub fn extractions_have_meanings()
    ensures { (p : ProgramTree) (r : Run) (plan : Plan) (bounds : Bounds) (s : Span) (f : Function) → nth p r.item ≡ Some (plain.function_item s f) → AreFree p plan → (loops : List Around) (scope : Variables)
        → labels_of loops ≡ labels_round r (pinned_function p r.span plan.pins f) → PlanNames p (moves_by plan r.span loops scope (suc r.item)) (run_parts r (pinned_function p r.span plan.pins f)) → (ts : List ItemNames) → Meant p ts
        → (a : ℕ) (ls : DeclaredNames) (at : List ℕ) (i : ℕ) (t : ItemNames) (m : Scoped) → in_statements (record { program = p; item = a; lifetimes = ls }) scope loops at i (as_statements (run_parts r (pinned_function p r.span plan.pins f)).statements) t ≡ Ok m
        → (at' : List ℕ) (t' : ItemNames) → in_optional (record { program = p; item = a; lifetimes = ls }) m.scope loops at' (run_parts r (pinned_function p r.span plan.pins f)).tail m.tables ≡ Ok t'
        → StatementsWithin (run_claims (moves_by plan r.span loops scope (suc r.item))) [] (rounds (moves_by plan r.span loops scope (suc r.item))) (as_statements (run_parts r (pinned_function p r.span plan.pins f)).statements)
        → OptionalWithin (run_claims (moves_by plan r.span loops scope (suc r.item))) (behind_all [] (as_statements (run_parts r (pinned_function p r.span plan.pins f)).statements)) (rounds (moves_by plan r.span loops scope (suc r.item))) (run_parts r (pinned_function p r.span plan.pins f)).tail
        → (u : ItemNames) → in_item (extraction p r plan bounds) r.item (plain.function_item s (with_call p r plan (pinned_function p r.span plan.pins f))) ≡ Ok u
        → (us : List ItemNames) × Meant (extraction p r plan bounds) us }
{}

/// A block of a function of a text, where kinds and types are written out or not, has a place that no other block there has: the nodes of
/// a text stand in one another or one behind the other.
pub fn blocks_stand_alone()
    ensures { (bytes : ℕ) (ts : List Tok) (p : ProgramTree) → OneText ts bytes p → (item : ℕ) (s : Span) (f : Function) → nth p item ≡ Some (plain.function_item s f)
        → (place : Span) (pins : Option Pins) (way : List ℕ) (b : Body) → descend (Some (a_block (pinned_function p place pins f).body)) way ≡ Some (a_block b) → StandsAlone b way (pinned_function p place pins f).body }
{}

/// The extraction of a run by a plan, as a whole: its names have meanings, a function that stays has a like tree, the function of the run
/// has one with its kinds and types written out, that one has one with the call in the run's place, and the new function's tree is beside
/// that of the run. Asked: that the plan's names are free and the types that are written out name structs and enums of the program; what
/// the text says of the names where the run stands; and what a plan of an accepted program gives.
pub fn extractions_are_alike()
    ensures { (p : ProgramTree) (r : Run) (plan : Plan) (bounds : Bounds) (s : Span) (f : Function) → nth p r.item ≡ Some (plain.function_item s f) → AreFree p plan → (loops : List Around) (scope : Variables)
        → (ts : List ItemNames) → Meant p ts → (run : RunNames p r plan (pinned_function p r.span plan.pins f) loops scope) → (t : ItemNames) → in_item p r.item (plain.function_item s f) ≡ Ok t
        → PinsName p plan.pins → CallNames p r plan s (pinned_function p r.span plan.pins f) → (c : Inserted p (extraction p r plan bounds)) × ExtractionAlike p r plan bounds c s f t loops scope run }
{}

/// The names of new items that a text has not are free: no item has them.
pub fn unused_names_are_free()
    ensures { (bytes : ℕ) (ts : List Tok) (p : ProgramTree) → OneText ts bytes p → (plan : Plan) → FreeName (identifiers ts) plan.name → AreFree p plan }
{}

/// A run of a text stands in its function, with kinds and types written out, as is asked where the call is put in: its block is alone in its
/// place, and no pattern and no parameter there has the name of the new function. Asked: that its way leads to a block there.
pub fn runs_stand()
    ensures { (bytes : ℕ) (ts : List Tok) (p : ProgramTree) → OneText ts bytes p → (start end : ℕ) (place : RunPos) → RunOf bytes ts p start end place → (r : Run) → r.first ≡ place.first → r.last ≡ place.last
        → (s : Span) (f : Function) → nth p r.item ≡ Some (plain.function_item s f) → (plan : Plan) → FreeName (identifiers ts) plan.name
        → (b : Body) → descend (Some (a_block (pinned_function p r.span plan.pins f).body)) r.way ≡ Some (a_block b) → RunStands r plan (pinned_function p r.span plan.pins f) }
{}

/// Where a function's names have meanings, those of a block in it have, in some scope and with the loops round it that stand on its way.
pub fn blocks_are_reached()
    ensures { (p : ProgramTree) (n : ℕ) (s : Span) (f : Function) (t : ItemNames) → in_item p n (plain.function_item s f) ≡ Ok t → (way : List ℕ) (b : Body) → descend (Some (a_block f.body)) way ≡ Some (a_block b)
        → BlockReached (inside_of p n s f) (labels_at way f.body) b }
{}

/// So have those of a run in it: of the statements in front of it, of its own and of its tail.
pub fn runs_are_reached()
    ensures { (p : ProgramTree) (n : ℕ) (s : Span) (f : Function) (t : ItemNames) → in_item p n (plain.function_item s f) ≡ Ok t → (r : Run) → r.first ≤ r.last + 1 → (b : Body) → descend (Some (a_block f.body)) r.way ≡ Some (a_block b)
        → RunReached (inside_of p n s f) (labels_round r f) r b }
{}

/// The names that a function of a text declares are among the text's identifiers.
pub fn declared_names_are_identifiers()
    ensures { (bytes : ℕ) (ts : List Tok) (p : ProgramTree) → OneText ts bytes p → (n : ℕ) (s : Span) (f : Function) → nth p n ≡ Some (plain.function_item s f)
        → Every (λ (x : List ℕ). is_among x (identifiers ts) ≡ true) (declared_names (Some (plain.function_item s f))) }
{}

/// The way to a block leads to a block too where kinds and types are written out, if no type is at a `let` that it passes through.
pub fn ways_are_kept()
    ensures { (p : ProgramTree) (place : Span) (pins : Option Pins) (f : Function) (way : List ℕ) (b : Body) → descend (Some (a_block f.body)) way ≡ Some (a_block b) → KeepsMaybe pins (Some (a_block f.body)) way
        → (d : Body) × (descend (Some (a_block (pinned_function p place pins f).body)) way ≡ Some (a_block d)) }
{}

/// A run that is selected in a text whose names have meanings, with a plan whose name the text has not: the plan's names are free, and in
/// the function of the run, with its kinds and types written out, the run stands as is asked and is come to.
pub fn selected_runs_are_ready()
    ensures { (bytes : ℕ) (ts : List Tok) (p : ProgramTree) → OneText ts bytes p → (start end : ℕ) (place : RunPos) → RunOf bytes ts p start end place → (r : Run) → r.first ≡ place.first → r.last ≡ place.last
        → (s : Span) (f : Function) → nth p r.item ≡ Some (plain.function_item s f) → (b : Body) → descend (Some (a_block f.body)) r.way ≡ Some (a_block b)
        → (plan : Plan) → FreeName (identifiers ts) plan.name → PinsName p plan.pins → KeepsMaybe plan.pins (Some (a_block f.body)) r.way → (names : List ItemNames) → in_program p ≡ Ok names → RunSelected p r plan s f }
{}
