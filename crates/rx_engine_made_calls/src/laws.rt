//! Laws, each the contract of a function that does nothing.

ghost use Rattle.std.specs.Prelude.{◌≡◌, ◌⊎◌, ◌&&◌, ◌||◌, not, true, false, ℕ, Bool, List as ListOf, [], ◌∷◌, ◌+◌, get_or, length, map, slice_get, Option as OptionOf, None as NoneOf, Some as SomeOf};
ghost use Rattle.rx_tree.specs.Plain.{ProgramTree};
ghost use Rattle.rx_resolve_names.specs.Meant.{number};
ghost use Rattle.rx_resolve_names.specs.Scopes.{variable_named};
ghost use Rattle.rx_typed.specs.declared.nodes.Node.{Node};
ghost use Rattle.rx_typed.specs.declared.nodes.Site.{Site};
ghost use Rattle.rx_typed.specs.declared.nodes.Use.{Use};
ghost use Rattle.rx_typed.specs.Types.{variant_parts, Typ};
ghost use Rattle.rx_typed.specs.Tree as tree;
ghost use Rattle.rx_typed.specs.Tree.{Exp as TypedExp, Mark};
ghost use Rattle.rx_typed.specs.Named as named;
ghost use Rattle.rx_typed.specs.Named.{node_of, Else, Exp, Exps, Parameter, Statements, Written};
ghost use Rattle.rx_typed.specs.Elaborated.{has_several, matched, operands, parameters, value, Assigned};
ghost use Rattle.rx_hoist_extraction.specs.Names.{Names};
ghost use Rattle.rx_hoist_extraction.specs.Plan as hoist;
ghost use Rattle.rx_hoist_extraction.specs.Plan.{has_enum, has_exit, is_unit, names_of, outs_of, to_next, to_return, Param, Variable};
ghost use Rattle.rx_hoist_extraction.specs.Values.{next_values, types_of, variables_held};
ghost use Rattle.rx_hoist_naming.specs.NamedPlan.{named_exit, named_leaving, named_params, named_variable, named_variables};
ghost use Rattle.rx_typeck_solver.specs.declared.facts.Demand.{Demand};
ghost use Rattle.rx_typeck_solver.specs.Facts.{Assignment, KnownItems, MeetsEach};
ghost use Rattle.rx_typeck_typed.specs.Asking.{expected};
ghost use Rattle.rx_typeck_typed.specs.Demands as rules;
ghost use Rattle.rx_typeck_typed.specs.declared.typed.TypedFn.{TypedFn};
ghost use Rattle.rx_exits_plan.specs.declared.plan.ExitOuts.{ExitOuts};
ghost use Rattle.rx_exits_plan.specs.PlainPlan.{plain-Exit};
ghost use Rattle.rx_exits_plan.specs.Asked.{Asked};
ghost use Rattle.rx_exits_plan.specs.MixedInit.{MixedInit};
ghost use Rattle.rx_exits_plan.specs.PartlyMoved.{PartlyMoved};
ghost use Rattle.rx_exits_plan.specs.Plan.{IsPlan, Plan};
ghost use Rattle.rx_lower_walks.specs.Walks.{Among};
ghost use Rattle.rx_exits_plan.specs.Points.{jump_exit, leaves, next};
ghost use Rattle.rx_modes_policy.specs.declared.uses.Mode.{Mode};
ghost use Rattle.rx_modes_policy.specs.declared.uses.Uses.{Uses};
ghost use Rattle.rx_modes_policy.specs.Allowed.{allowed_by, HasMember, IsMember};
ghost use Rattle.rx_modes_uses.specs.Modes.{IsModes};
ghost use Rattle.rx_modes_uses.specs.Uses.{VariableHasType};
ghost use Rattle.rx_modes_given.specs.GivenAway.{is_given_away};
ghost use Rattle.rx_engine_names.specs.Renaming.{Renaming as Pairing};
ghost use Rattle.rx_engine_names.specs.Calls.{Calls};
ghost use Rattle.rx_engine_names.specs.HandedOut.{AreHanded, AreRedeclared, Handing, IsTail as TailIs, IsWhole};
ghost use Rattle.rx_engine_names.specs.Moves.{moved, numbers_of, AreOuts, IsVariant, Leaves, Moves, Returned};
ghost use Rattle.rx_engine_names.specs.NewBody.{HandedOn, IsEnd, LocalsFirst, ValueFirst};
ghost use Rattle.rx_engine_names.specs.LikeNamed.{LikeExp};
ghost use Rattle.rx_engine_names.specs.Replaced.{joined};
ghost use Rattle.rx_engine_names.specs.NewFunction.{AreParameters};
ghost use Rattle.rx_engine_blocks.specs.Renumbering.{shape_at, Renumbering};
ghost use Rattle.rx_engine_typing.specs.Corresponding.{given_types};
ghost use Rattle.rx_engine_holes.specs.CallFits.{EndFits, StatementsFit};
ghost use Rattle.rx_engine_holes.specs.Entries.{Context, Entries, Has};
ghost use Rattle.rx_engine_changed.specs.HandedTypes.{ItemsDeclare, NextAgrees};
ghost use Rattle.rx_engine_changed.specs.Spots.{NumberedElse, NumberedExp, NumberedStatements, Spot};
ghost use Rattle.rx_engine_simulation.specs.Binders.{NewHow};
ghost use Rattle.rx_engine_simulation.specs.Blocks.{Stretch};
ghost use Rattle.rx_engine_simulation.specs.Endings.{a_marked, Last};
ghost use Rattle.rx_engine_simulation.specs.Jumps.{with_unit, with_value, Jumping};
ghost use Rattle.rx_exits_plan.specs.Marked.{mark_then};
ghost use Rattle.rx_engine_simulation.specs.Packing.{as_variant, bare, no_way};
ghost use Rattle.rx_engine_simulation.specs.Rereads.{Rereads, RereadsMatched};
ghost use Rattle.rx_engine_simulation.specs.Sights.{sight, sight_of, special, How, In, IsNew, Renaming};
ghost use Rattle.rx_engine_simulation.specs.Statements.{GivenBack};
ghost use Rattle.rx_engine_simulation.specs.Turns.{Allowance};
ghost use Rattle.rx_engine_simulation.specs.Units.{GivesUnit};
ghost use Rattle.rx_engine_simulation.specs.Variants.{AllSpecial};
ghost use Rattle.rx_engine_related.specs.AboutRun.{special_of};
ghost use Rattle.rx_engine_related.specs.ByForm.{by_form};
ghost use Rattle.rx_engine_related.specs.Leaving.{variant_for, HaveThere};
ghost use Rattle.rx_engine_related.specs.Never.{NeverEnds};
ghost use Rattle.rx_engine_related.specs.Tails.{IsTail};
ghost use Rattle.rx_engine_made_trees.specs.Arguments.{SeenAs};
ghost use Rattle.rx_engine_made_trees.specs.Entering.{Entered};
ghost use Rattle.rx_engine_made_trees.specs.Giving.{TailGives};
ghost use Rattle.rx_engine_made_trees.specs.Leaving.{ReturnsFor};
ghost use Rattle.rx_engine_made_trees.specs.Nodes.{is_unique};
ghost use Rattle.rx_engine_made_trees.specs.Seen.{Distinct, OneToOne};
ghost use Rattle.rx_engine_made_trees.specs.Standing.{Asks, EndsTo, MovedTo};
ghost use Rattle.rx_engine_made_trees.specs.Statements.{Behind};
ghost use Rattle.rx_engine_made_trees.specs.Tails.{AsksTail, IsLike, TailEndsTo};
ghost use Rattle.rx_engine_made_calls.specs.Answers.{answered, answered_tail, NewBody};
ghost use Rattle.rx_engine_made_calls.specs.Contexts.{NewFrom, NumberedBefore, Tells};
ghost use Rattle.rx_engine_made_calls.specs.EndCases.{BindsUnit, CopyReads, EndCase, TailCase};
ghost use Rattle.rx_engine_made_calls.specs.MadeCalls.{jumps_with, way_of, MadeCall, MadeTail};
ghost use Rattle.rx_engine_made_calls.specs.NewEnds.{BeginsSo, OutThere};
ghost use Rattle.rx_engine_made_calls.specs.Named.{type_of_variable, ExitTold};
ghost use Rattle.rx_engine_made_calls.specs.Plans.{is_there, ExitsAre, HasType, OutIs, ParamsAre, PlansAgree, Rows};
ghost use Rattle.rx_engine_made_calls.specs.RunNames.{RunNames};
ghost use Rattle.rx_engine_made_calls.specs.Seeing.{cold_of, how_inside, how_outside, hows_of, HasMode, IsChosen, IsOutside, ModeFits};

/// What stands in place of a run, as it is told of its names and fits, is in the forms that are asked for where the new function is called: the arguments in their
/// modes, the call alone or matched with an arm for each exit, what is done with what is handed out, and what is declared again. Its nodes have the types
/// that are asked: what is expected of each value is its own type, but of what is passed as a view.
pub fn calls_for_runs_are_made()
    ensures { (E : KnownItems) (f : ℕ) (q : Renumbering) (G : Handing) (N : Pairing) (W : Assignment) → ItemsDeclare E q G f → NextAgrees G → (A : Asked) (muts : ListOf Bool) (k : Plan) (modes : ListOf Mode) (again : Bool) (J : Jumping) (R : Renaming) (cold : ListOf ℕ) (hows : ListOf How)
        → PlansAgree E q G N W A muts k modes again J R cold hows false → (d later : ℕ) (y : Statements) (B : Context) (made : Entries) (p s : Spot)
        → AreHanded G N (IsWhole G N (has_enum G.call.plan.exits)) (AreRedeclared G.call.place N later G.call.plan.redeclared) d (next_values G.call.plan) y → StatementsFit E f B y made → Has W made → Tells W B → NumberedStatements p y s → NewFrom R p → NumberedBefore s
        → MadeCall (given_types E W) A muts k modes again J R cold hows G.call.number (has_enum G.call.plan.exits) (is_unit G.call.plan.result) y }
{}

/// The same of a run with its block's tail: its value is the block's tail, alone or first of several, or the block has none.
pub fn calls_for_tails_are_made()
    ensures { (E : KnownItems) (f : ℕ) (q : Renumbering) (G : Handing) (N : Pairing) (W : Assignment) → ItemsDeclare E q G f → NextAgrees G → (A : Asked) (muts : ListOf Bool) (k : Plan) (modes : ListOf Mode) (again : Bool) (J : Jumping) (R : Renaming) (cold : ListOf ℕ) (hows : ListOf How)
        (has : Bool) → PlansAgree E q G N W A muts k modes again J R cold hows has → (d later : ℕ) (y : Statements) (o : Else) (B : Context) (b : Bool) (made : Entries) (n : Node) (p r s : Spot)
        → ((t : Typ) → G.call.plan.value ≡ SomeOf t → n.site ≡ Site.Expects → W (expected n) ≡ shape_at q t)
        → AreHanded G N (IsWhole G N (has_enum G.call.plan.exits)) (AreRedeclared G.call.place N later G.call.plan.redeclared) d (next_values G.call.plan) y
        → TailIs G.call.place (IsWhole G N (has_enum G.call.plan.exits)) d (next_values G.call.plan) o → EndFits E f B n b y o made → Has W made → Tells W B → NumberedStatements p y r → NumberedElse r n.site o s → NewFrom R p → NumberedBefore s
        → MadeTail (given_types E W) A muts k modes again J R cold hows G.call.number (has_enum G.call.plan.exits) (is_unit G.call.plan.result) has y o }
{}

/// The new function begins with its parameters and its locals, which are numbered in turn.
pub fn new_functions_begin_in_turn()
    ensures { (P : ProgramTree) (V : Moves) (N : Pairing) (xs : ListOf Param) (vs : ListOf Variable) (ds : ListOf Parameter) (ys zs : Statements) → AreParameters P V N 0 xs ds → LocalsFirst V N ys (length xs) vs zs → (params locals : ListOf ℕ) → length xs ≡ length params
        → length vs ≡ length locals → BeginsSo params locals (parameters ds) ys zs }
{}

/// Where it hands out variables alone, its end gives those that the new function has for them: one, a tuple of several, or a variant with them.
pub fn new_functions_hand_out()
    ensures { (E : KnownItems) (q : Renumbering) (V M : Moves) (N : Pairing) (W : Assignment) (R : Renaming) (f : ℕ) (xs : ListOf ℕ) (o : Else) (ds : ListOf Demand) (p : Spot) (z : Site) (s : Spot) → HandedOn V (λ (es : Exps). AreOuts M N (names_of (outs_of to_next V.plan.exits)) es) o
        → Rows (OutThere M N q W R) (outs_of to_next V.plan.exits) xs → MeetsEach E W (rules.of_returned f o ds) → NumberedElse p z o s
        → (has_enum V.plan.exits ≡ true → variant_parts E.items V.enum (V.variant to_next) ≡ map (shape_at q) (types_of (variables_held (outs_of to_next V.plan.exits))))
        → ((v : Variable) (e : Exp) → outs_of to_next V.plan.exits ≡ v ∷ [] → o ≡ named.present e → (z ≡ Site.Value) ⊎ (W (expected (node_of e)) ≡ shape_at q v.typ))
        → (zs : ListOf ℕ) × HaveThere R xs zs × TailGives (given_types E W) (way_of (has_enum V.plan.exits) (SomeOf (V.variant to_next))) zs o }
{}

/// With the run's value, which is alike there, it gives a variant that has the value first, or binds the value in front of a tuple that has it first.
pub fn new_functions_give_values()
    ensures in_variant { (E : KnownItems) (q : Renumbering) (V M : Moves) (N : Pairing) (W : Assignment) (R : Renaming) (items : ℕ → ℕ) (gain : Allowance) (U others : ListOf ℕ) (J : Jumping) (vs : ListOf Variable) (xs : ListOf ℕ) (x : hoist.Exit) (e : TypedExp) (g h : Exp) (f : ℕ) (n : Node)
        (t : Typ) (e' : TypedExp) (ds : ListOf Demand) (p : Spot) (z : Site) (s : Spot) → Rows (OutThere M N q W R) vs xs → IsVariant V x (ValueFirst (AreOuts M N (names_of vs)) g) h → variant_parts E.items V.enum (V.variant x) ≡ t ∷ map (shape_at q) (types_of (variables_held vs))
        → MeetsEach E W (rules.of_exp f h ds) → NumberedExp p z h s → IsLike (given_types E W) items gain U others J R e e' → Rereads (value (given_types E W) g) e'
        → TailEndsTo (given_types E W) items gain U others J R n e true (as_variant (V.variant x)) xs named.no_statement (named.present h) }
    ensures in_tuple { (E : KnownItems) (q : Renumbering) (V M : Moves) (N : Pairing) (W : Assignment) (R : Renaming) (items : ℕ → ℕ) (gain : Allowance) (U others : ListOf ℕ) (J : Jumping) (vs : ListOf Variable) (xs : ListOf ℕ) (e : TypedExp) (g o : Exp) (os : Exps) (n j b m c : Node) (x : ℕ)
        (u : Use) (w : Written) (e' : TypedExp) (p : Spot) (z : Site) (s : Spot) → Rows (OutThere M N q W R) vs xs → AreOuts M N (names_of vs) (named.exp_and o os) → u.number ≡ x → IsNew R x → NumberedExp p z (named.tuple c (named.exp_and (named.var m u) (named.exp_and o os))) s
        → IsLike (given_types E W) items gain U others J R e e' → RereadsMatched (matched (given_types E W) g (value (given_types E W) g)) (tree.of_value e')
        → TailEndsTo (given_types E W) items gain U others J R n e true bare xs (named.statement_and (named.lets j (named.bind b x false) (SomeOf w) g) named.no_statement) (named.present (named.tuple c (named.exp_and (named.var m u) (named.exp_and o os)))) }
{}

/// For a jump that leaves the run it returns a variant with what the exit hands out.
pub fn new_functions_return_jumps()
    ensures { (E : KnownItems) (q : Renumbering) (V : Moves) (N : Pairing) (W : Assignment) (R : Renaming) (items : ℕ → ℕ) (gain : Allowance) (U others : ListOf ℕ) (J : Jumping) (m : Mark) (f l : ℕ) (again : Bool) (x : hoist.Exit) (xs : ListOf ℕ) (e : Exp) (ds : ListOf Demand)
        (p : Spot) (z : Site) (s : Spot) → Leaves V N x e → J.leaving l again ≡ SomeOf (record { variant = V.variant x; outs = xs }) → Rows (OutThere V N q W R) (outs_of x V.plan.exits) xs → variant_parts E.items V.enum (V.variant x) ≡ map (shape_at q) (types_of (variables_held (outs_of x V.plan.exits)))
        → MeetsEach E W (rules.of_exp f e ds) → NumberedExp p z e s → ReturnsFor (given_types E W) items gain U others J R (mark_then (leaves (jump_exit l again)) (tree.jump m l again)) e }
{}

/// A renaming that is chosen where variables begin: any may begin so, by the form of the tree, and where it is chosen so each param is had as its mode asks.
pub fn sights_are_chosen()
    ensures begins { (A : Asked) (muts : ListOf Bool) (k : Plan) (modes : ListOf Mode) (x : ℕ) → NewHow (by_form (special_of A muts k)) x (how_outside A muts k modes x) }
    ensures seen { (A : Asked) (muts : ListOf Bool) (k : Plan) (modes : ListOf Mode) (R : Renaming) → IsChosen A muts k modes R → (again : Bool) (m : Mode) (x y : ℕ) (w : How) (t : Typ) → Distinct k.params → HasMode x m k.params modes → ModeFits A muts k again x t m → sight_of R x ≡ SomeOf (sight y w)
        → SeenAs again R (cold_of A muts k.params modes) x y t m (how_inside A muts x m) }
    ensures elsewhere { (A : Asked) (muts : ListOf Bool) (k : Plan) (modes : ListOf Mode) (R : Renaming) → IsChosen A muts k modes R → (x y : ℕ) → sight_of R x ≡ SomeOf (sight y special) → In x (special_of A muts k) }
{}

/// All together: where the run's statements are alike in the new function, and its end gives what is handed out, all is had that is asked where the call stands
/// for the run (`Asks`), or for a run with its block's tail (`AsksTail`).
pub fn made_calls_meet_what_is_asked()
    ensures run { (T S : Assigned) (A : Asked) (muts : ListOf Bool) (k : Plan) (modes : ListOf Mode) (J : Jumping) (R : Renaming) (cold : ListOf ℕ) (hows : ListOf How) (g : ℕ) (enum unit : Bool) (items : ℕ → ℕ) (gain : Allowance) (U : ListOf ℕ) → RunNames k R cold → OneToOne R
        → ((x y : ℕ) → sight_of R x ≡ SomeOf (sight y special) → In x (special_of A muts k)) → (y : Statements) (r : Stretch) (l : Last) (m : MadeCall T A muts k modes gain.strays J R cold hows g enum unit y) (N : NewBody) (b : BeginsSo k.params k.locals N.params N.rest N.all) (after : Renaming → Renaming)
        → ((inside : Renaming) → Entered gain.strays R k modes (operands T 0 m.es) hows N.params b.locals inside → MovedTo S items gain U (special_of A muts k) (jumps_with enum A muts k unit) inside r N.rest (after inside)
        × EndsTo S items gain U (special_of A muts k) (jumps_with enum A muts k unit) (after inside) N.node N.end l (way_of enum (variant_for k next)) (k.outs next) × AllSpecial (after inside) k.redeclared)
        → (way_of enum (variant_for k next) ≡ no_way → NeverEnds l r) → Asks A muts k modes items gain U J R r l (answered T S g m N b) }
    ensures tail { (T S : Assigned) (A : Asked) (muts : ListOf Bool) (k : Plan) (modes : ListOf Mode) (J : Jumping) (R : Renaming) (cold : ListOf ℕ) (hows : ListOf How) (g : ℕ) (enum unit : Bool) (items : ℕ → ℕ) (gain : Allowance) (U : ListOf ℕ) → RunNames k R cold → OneToOne R
        → ((x y : ℕ) → sight_of R x ≡ SomeOf (sight y special) → In x (special_of A muts k)) → (y : Statements) (r : Stretch) (l : Last) (e : TypedExp) (has : Bool) (o : Else) (m : MadeTail T A muts k modes gain.strays J R cold hows g enum unit has y o) (N : NewBody) (lasts rest : Statements)
        (b : BeginsSo k.params k.locals N.params rest N.all) (n : Node) (F : TypedExp → TypedExp) (after : Renaming → Renaming) → IsTail k l e → GivenBack J l F → Behind N.rest lasts rest
        → ((inside : Renaming) → Entered gain.strays R k modes (operands T 0 m.es) hows N.params b.locals inside → MovedTo S items gain U (special_of A muts k) (jumps_with enum A muts k unit) inside r N.rest (after inside)
        × TailEndsTo S items gain U (special_of A muts k) (jumps_with enum A muts k unit) (after inside) N.node e has (way_of enum (variant_for k next)) (k.outs next) lasts N.end × AllSpecial (after inside) k.redeclared)
        → (way_of enum (variant_for k next) ≡ no_way → NeverEnds (a_marked e (leaves next)) r) → AsksTail A muts k modes items gain U J R r l e (answered_tail T S g m N b) }
{}

/// A mode that the uses of a param allow fits, where references may be asked for again.
pub fn allowed_modes_fit()
    ensures { (A : Asked) (muts : ListOf Bool) (k : Plan) (x : ℕ) (t : Typ) (u : Uses) (m : Mode) → is_given_away A muts x ≡ (u.moved || (u.through && not (u.mut_ref || u.declared_mut))) → is_unique t ≡ u.mut_ref
        → (is_given_away A muts x ≡ false → In x (special_of A muts k) → ⊥) → IsMember m (allowed_by u) → ModeFits A muts k true x t m }
{}

/// The plan by names that is made of a plan by numbers is that, row by row: where the names of its variables mean them, its params are these, in their modes, what it hands out
/// are these, and its exits with their variants, by the loops round the run.
pub fn named_plans_agree()
    ensures params { (ns : Names) (t : TypedFn) (C : Calls) (N : Pairing) (q : Renumbering) (W : Assignment) (again : Bool) (R : Renaming) (cold : ListOf ℕ) (A : Asked) (muts : ListOf Bool) (xs : ListOf ℕ) (ms : ListOf Mode) (vs : ListOf Bool) → length ms ≡ length xs → length vs ≡ length xs
        → ((x : ℕ) → In x xs → variable_named C.scope (get_or ns x []) ≡ SomeOf x) → ((x : ℕ) → In x xs → HasType N q W x (type_of_variable t x))
        → ((x : ℕ) (m : Mode) → HasMode x m xs ms → (y : ℕ) → N.variable x y ≡ true → SeenAs again R cold x y (shape_at q (type_of_variable t x)) m (how_inside A muts x m)) → ParamsAre C N q W again R cold (named_params ns t xs ms vs) xs ms (hows_of A muts xs ms) }
    ensures outs { (ns : Names) (t : TypedFn) (G : Handing) (N : Pairing) (q : Renumbering) (W : Assignment) (A : Asked) (muts : ListOf Bool) (k : Plan) (R : Renaming) (xs : ListOf ℕ) → ((x : ℕ) → In x xs → OutIs G N q W A muts k R (named_variable ns t x) x)
        → Rows (OutIs G N q W A muts k R) (named_variables ns t xs) xs }
    ensures exits { (ns : Names) (t : TypedFn) (G : Handing) (N : Pairing) (q : Renumbering) (W : Assignment) (A : Asked) (muts : ListOf Bool) (k : Plan) (R : Renaming) (J : Jumping) (ls : ListOf ℕ) → numbers_of G.loops ≡ ls → (E : KnownItems) (v : ℕ) (es : ListOf ExitOuts)
        → ((j : ℕ) (e : ExitOuts) → slice_get es j ≡ SomeOf e → (G.variant (named_exit ls e.exit) ≡ j + v) × ExitTold ns t G N q W A muts k R J ls e.exit e.outs) → ((e g : ExitOuts) (gs : ListOf ExitOuts) → es ≡ e ∷ g ∷ gs → has_several E.items G.enum ≡ true)
        → ExitsAre G N q W A muts k R E J v (map (named_leaving ns t ls) es) (map (λ (e : ExitOuts). plain-Exit e.exit) es) }
{}

/// Of a run that is refused for no variable, with the modes that a policy chooses among those that uses allow: each mode fits, and a renaming that is chosen where variables
/// begin serves, where it has params and locals and no variable that the run declares.
pub fn chosen_renamings_serve()
    ensures modes { (A : Asked) (muts : ListOf Bool) (k : Plan) → IsPlan A k → ((x : ℕ) → Among x k.params → Among x k.locals → ⊥) → (choice : Uses → Mode) → ((u : Uses) → HasMember (allowed_by u) → IsMember (choice u) (allowed_by u)) → (ms : ListOf Mode) → IsModes A muts k choice ms
        → (x : ℕ) (m : Mode) (t : Typ) → VariableHasType A x t → HasMode x m k.params ms → ModeFits A muts k true x t m }
    ensures names { (A : Asked) (muts : ListOf Bool) (k : Plan) → IsPlan A k → ((x : ℕ) → Among x k.params → Among x k.locals → ⊥) → (choice : Uses → Mode) → ((u : Uses) → HasMember (allowed_by u) → IsMember (choice u) (allowed_by u)) → (ms : ListOf Mode) → IsModes A muts k choice ms
        → (R : Renaming) → IsChosen A muts k ms R → IsOutside A k R → ((x : ℕ) → Among x k.params → (t : Typ) × VariableHasType A x t) → ((x : ℕ) → MixedInit A x → ⊥) → ((x : ℕ) → PartlyMoved A k x → ⊥) → RunNames k R (cold_of A muts k.params ms) }
{}

/// The end of the new function of a run without its block's tail, in each shape: it gives what is handed out, never comes to it, or is the last of the run's statements.
pub fn new_functions_end_in_shapes()
    ensures { (E : KnownItems) (q : Renumbering) (V M : Moves) (N : Pairing) (W : Assignment) (R : Renaming) (items : ℕ → ℕ) (gain : Allowance) (U others : ListOf ℕ) (J : Jumping) (n : Node) (outs : ListOf ℕ) (place : OptionOf ℕ) → Rows (OutThere M N q W R) (outs_of to_next V.plan.exits) outs
        → (has_exit to_next V.plan.exits ≡ true → place ≡ SomeOf (V.variant to_next)) → (has_exit to_next V.plan.exits ≡ false → (place ≡ NoneOf) × (outs ≡ []) × (has_enum V.plan.exits ≡ true)) → (f : ℕ) (ds : ListOf Demand) (p : Spot) (z : Site) (s : Spot) (xs ys : Statements) (o : Else)
        → IsEnd V M N xs named.absent ys o → MeetsEach E W (rules.of_returned f o ds) → NumberedElse p z o s → (has_enum V.plan.exits ≡ true → variant_parts E.items V.enum (V.variant to_next) ≡ map (shape_at q) (types_of (variables_held (outs_of to_next V.plan.exits))))
        → ((v : Variable) (e : Exp) → outs_of to_next V.plan.exits ≡ v ∷ [] → o ≡ named.present e → (z ≡ Site.Value) ⊎ (W (expected (node_of e)) ≡ shape_at q v.typ)) → EndCase (given_types E W) items gain U others J R n xs o (way_of (has_enum V.plan.exits) place) outs }
{}

/// The same of a run with its block's tail, whose copy is alike: its value in a variant, alone, or bound in front of a tuple; a unit that is dropped, or stands in front of what is
/// handed out; or it never comes.
pub fn new_functions_end_tails_in_shapes()
    ensures { (E : KnownItems) (q : Renumbering) (V M : Moves) (N : Pairing) (W : Assignment) (R : Renaming) (items : ℕ → ℕ) (gain : Allowance) (U others : ListOf ℕ) (J : Jumping) (n : Node) (outs : ListOf ℕ) (place : OptionOf ℕ) → Rows (OutThere M N q W R) (outs_of to_next V.plan.exits) outs
        → (has_exit to_next V.plan.exits ≡ true → place ≡ SomeOf (V.variant to_next)) → (has_exit to_next V.plan.exits ≡ false → (place ≡ NoneOf) × (outs ≡ []) × (has_enum V.plan.exits ≡ true)) → (f : ℕ) (ds : ListOf Demand) (p : Spot) (z : Site) (s : Spot) (e : TypedExp) (xs ys : Statements) (x : Exp) (o : Else)
        → IsEnd V M N xs (named.present x) ys o → ((g : Exp) → LikeExp (moved V) N x g → CopyReads (given_types E W) items gain U others J R n e g) → (is_there V.plan.value ≡ false → has_exit to_next V.plan.exits ≡ true → GivesUnit U e) → (is_there V.plan.value ≡ true → has_exit to_next V.plan.exits ≡ true)
        → MeetsEach E W (rules.of_returned f o ds) → NumberedElse p z o s → (has_enum V.plan.exits ≡ true → variant_parts E.items V.enum (V.variant to_next) ≡ map (shape_at q) (types_of (next_values V.plan)))
        → ((v : Variable) (e : Exp) → outs_of to_next V.plan.exits ≡ v ∷ [] → o ≡ named.present e → (z ≡ Site.Value) ⊎ (W (expected (node_of e)) ≡ shape_at q v.typ))
        → ((rs : Statements) (l b : Node) (x : ℕ) (w : Written) (g : Exp) → ys ≡ joined rs (named.statement_and (named.lets l (named.bind b x false) (SomeOf w) g) named.no_statement) → (number x ≡ x) × IsNew R x)
        → TailCase (given_types E W) items gain U others J R n e (is_there V.plan.value) (way_of (has_enum V.plan.exits) place) outs ys o }
{}

/// For a return of the run it returns a variant: without a part, with the value, or without one behind the unit's value, which is bound.
pub fn new_functions_return_values()
    ensures bare { (S : Assigned) (items : ℕ → ℕ) (gain : Allowance) (U others : ListOf ℕ) (J : Jumping) (R : Renaming) (V : Moves) (n : Node) (m mu : Mark) (e : Exp) → Returned V named.absent e → J.returning ≡ with_unit (V.variant to_return)
        → ReturnsFor S items gain U others J R (tree.give m (tree.unit mu)) (named.return n (named.present e)) }
    ensures value { (S : Assigned) (items : ℕ → ℕ) (gain : Allowance) (U others : ListOf ℕ) (J : Jumping) (R : Renaming) (V : Moves) (n : Node) (m : Mark) (e : TypedExp) (g f : Exp) → Returned V (named.present g) f → (is_unit V.plan.result ≡ true → J.returning ≡ with_unit (V.variant to_return))
        → (is_unit V.plan.result ≡ false → J.returning ≡ with_value (V.variant to_return)) → (is_unit V.plan.result ≡ true → GivesUnit U e) → ((x : ℕ) → BindsUnit x f → IsNew R x) → CopyReads S items gain U others J R n e g
        → ReturnsFor S items gain U others J R (tree.give m e) (named.return n (named.present f)) }
{}
