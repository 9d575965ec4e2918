//! Laws, each the contract of a function that does nothing.

ghost use Rattle.std.specs.Prelude.{◌≡◌, ◌||◌, ℕ, Bool, true, List as ListOf, option_map, slice_get};
ghost use Rattle.rx_core.specs.declared.types.Span.{Span};
ghost use Rattle.rx_tree.specs.Plain.{OptionalExpression, Statement};
ghost use Rattle.rx_tree.specs.Plain as plain;
ghost use Rattle.rx_resolve_names.specs.declared.resolved.NodeNames.{NodeNames};
ghost use Rattle.rx_typed.specs.declared.nodes.Node.{Node};
ghost use Rattle.rx_typed.specs.Types.{Declarations};
ghost use Rattle.rx_typed.specs.Elaborated.{elaborated, Assigned};
ghost use Rattle.rx_typed.specs.Named.{else_diverges, some_diverges, tail_never, Else, Function, Statements};
ghost use Rattle.rx_typed.specs.Naming.{function_named, of_optional, of_statements};
ghost use Rattle.rx_typed.specs.PlainTree.{plain-TypedTree};
ghost use Rattle.rx_hoist_extraction.specs.Plan.{has_enum, Variable};
ghost use Rattle.rx_hoist_extraction.specs.Run.{as_statements};
ghost use Rattle.rx_hoist_extraction.specs.Values.{Value};
ghost use Rattle.rx_typeck_solver.specs.declared.facts.Subject.TheVariants as subject;
ghost use Rattle.rx_typeck_solver.specs.Facts.{Assignment, KnownItems};
ghost use Rattle.rx_typeck_typed.specs.declared.typed.TypedFn.{TypedFn};
ghost use Rattle.rx_typeck_typed.specs.Typing.{known_in, FunctionTyped, Given};
ghost use Rattle.rx_cover.specs.Choices.{choices_of, Choice};
ghost use Rattle.rx_cover.specs.Causes.{AllCovered, Covered};
ghost use Rattle.rx_cover.specs.Width.{width};
ghost use Rattle.rx_engine_names.specs.HandedOut.{AreHanded, AreRedeclared, Handing, IsTail, IsWhole};
ghost use Rattle.rx_engine_names.specs.Renaming.{Renaming};
ghost use Rattle.rx_engine_blocks.specs.Along.{composed, none_viewed, Inverse, MutableAt, PartialInverse, Viewed};
ghost use Rattle.rx_engine_blocks.specs.Blocks.{Behind};
ghost use Rattle.rx_engine_blocks.specs.DemandsLike.{Is};
ghost use Rattle.rx_engine_blocks.specs.Knows.{Knows};
ghost use Rattle.rx_engine_blocks.specs.Renumbering.{node_at, Renumbering, declared_at};
ghost use Rattle.rx_engine_typing.specs.Corresponding.{given_types, Corresponding, StayApart};
ghost use Rattle.rx_engine_typing.specs.Renumbered.{known_before, no_holes, RenumberedElse, RenumberedFunction, RenumberedStatements};
ghost use Rattle.rx_engine_holes.specs.CallFits.{EndFits, StatementsFit};
ghost use Rattle.rx_engine_holes.specs.Entries.{assigned, of_text, Apart, Context, Entries, Has};
ghost use Rattle.rx_engine_holes.specs.Run.{append, with_run};
ghost use Rattle.rx_engine_holes.specs.Tail.{with_tail};
ghost use Rattle.rx_engine_changed.specs.Once.{ByOneNumbering, IsCall, IsLastCall};
ghost use Rattle.rx_engine_changed.specs.Round.{as_mutable, round};
ghost use Rattle.rx_engine_covered.specs.ExitsDeclared.{ExitsDeclared};
ghost use Rattle.rx_engine_covered.specs.LikeChoices.{LikeChoice};
ghost use Rattle.rx_engine_covered.specs.Quiet.{quiet_holes};
ghost use Rattle.rx_engine_covered.specs.Seen.{SeenElse, SeenStatements};
ghost use Rattle.rx_engine_covered.specs.TakesAll.{ElseTakesAll, StatementsTakeAll};
ghost use Rattle.rx_engine_covered.specs.Within.{choices_at_end, choices_in_body, choices_in_statements};

use rx_typeck_typed::demands_are_orderly;

/// A match that is a covered one by other numbers of items is covered, and its product is the same.
pub fn matches_by_other_numbers_are_covered()
    ensures covered { (r : Renumbering) → StayApart r.items → (D E : Declarations) → ((i : ℕ) → slice_get E (r.items i) ≡ option_map (declared_at r) (slice_get D i)) → (w : Bool) (c d : Choice) → LikeChoice r w c d → Covered D c → Covered E d }
    ensures product { (r : Renumbering) → StayApart r.items → (w : Bool) (c d : Choice) → LikeChoice r w c d → width d.arms ≡ width c.arms }
{}

/// Of a function that is another by other numbers, where the types correspond, the matches are covered where the other's are; also where variables may be `mut` in one of both alone or
/// known in the second alone, and an assignment that gives a variable its type in the first may give none in the second.
pub fn renumbered_functions_are_covered()
    ensures alike { (r : Renumbering) (loops : ℕ → ℕ) → StayApart r.items → (T T' : Assigned) → Corresponding r T T' → (f g : Function) → RenumberedFunction r loops no_holes f g
        → AllCovered T.items (choices_of (elaborated T f).body) → AllCovered T'.items (choices_of (elaborated T' g).body) }
    ensures known_before { (r : Renumbering) (loops : ℕ → ℕ) → StayApart r.items → (T T' : Assigned) → Corresponding r T T' → (f g : Function) → RenumberedFunction r loops known_before f g
        → AllCovered T.items (choices_of (elaborated T f).body) → AllCovered T'.items (choices_of (elaborated T' g).body) }
{}

/// So are those of a function in which other statements stand for a run of the text's, where those of these statements are.
pub fn functions_round_a_run_are_covered()
    ensures { (r : Renumbering) (loops : ℕ → ℕ) → StayApart r.items → (T T' : Assigned) → Corresponding r T T' → (run call : Statements) → Is (some_diverges run) (some_diverges call)
        → (f g : Function) → RenumberedFunction r loops (with_run r loops no_holes run call) f g
        → AllCovered T.items (choices_of (elaborated T f).body) → AllCovered T'.items (choices_in_statements T' call) → AllCovered T'.items (choices_of (elaborated T' g).body) }
{}

/// And those of one in which other last statements and another tail stand for a run that goes to its block's end.
pub fn functions_round_a_tail_are_covered()
    ensures { (r : Renumbering) (loops : ℕ → ℕ) → StayApart r.items → (T T' : Assigned) → Corresponding r T T' → (n : Node) (s : Span) (d : Bool) (run : Statements) (o : Else) (call : Statements) (p : Else)
        → Is (some_diverges run || else_diverges o) (some_diverges call || else_diverges p) → Is (tail_never (d || some_diverges run) o) (tail_never (d || some_diverges call) p)
        → (f g : Function) → RenumberedFunction r loops (with_tail r loops no_holes n s d run o call p) f g
        → AllCovered T.items (choices_of (elaborated T f).body) → AllCovered T'.items (choices_at_end T' (node_at r n s) call p) → AllCovered T'.items (choices_of (elaborated T' g).body) }
{}

/// The matches of statements that are made in place of a run and fit are covered, where each has an arm for every variant of its enum, and fewer arms than
/// 65,536: variables, and tuples of them, take each value.
pub fn statements_that_fit_are_covered()
    ensures { (E : KnownItems) (f : ℕ) (C : Assignment) (B : Context) (ss : Statements) (made : Entries) → StatementsFit E f B ss made → Has C made → StatementsTakeAll E.items ss
        → AllCovered E.items (choices_in_statements (given_types E C) ss) }
{}

/// So are those of last statements and a tail.
pub fn ends_that_fit_are_covered()
    ensures { (E : KnownItems) (f : ℕ) (C : Assignment) (B : Context) (n : Node) (d : Bool) (ss : Statements) (o : Else) (made : Entries) → EndFits E f B n d ss o made → Has C made
        → StatementsTakeAll E.items ss → ElseTakesAll E.items o → (m : Node) → AllCovered E.items (choices_at_end (given_types E C) m ss o) }
{}

/// What stands in place of a run has one match at most, that of the call, with an arm for each exit; so it has one for every variant where each is that of an
/// exit.
pub fn what_stands_for_a_run_takes_all()
    ensures within { (E : KnownItems) (G : Handing) (R : Renaming) → (has_enum G.call.plan.exits ≡ true → ExitsDeclared E.items G) → (later d : ℕ) (vs : ListOf Variable) (hs : ListOf Value) (ss : Statements)
        → AreHanded G R (IsWhole G R (has_enum G.call.plan.exits)) (AreRedeclared G.call.place R later vs) d hs ss → StatementsTakeAll E.items ss }
    ensures at_the_end { (E : KnownItems) (G : Handing) (R : Renaming) → (has_enum G.call.plan.exits ≡ true → ExitsDeclared E.items G) → (s : Span) (d : ℕ) (hs : ListOf Value) (o : Else)
        → IsTail s (IsWhole G R (has_enum G.call.plan.exits)) d hs o → ElseTakesAll E.items o }
{}

/// So the matches of the function with the call are covered where the text's are: by the text's types of what comes from the text, and by their entries those
/// of what is made.
pub fn functions_with_a_call_are_covered()
    ensures within { (R : Renaming) (run call : ListOf Statement) (f g : Function) (x : ByOneNumbering R (IsCall R as_mutable run call) (λ q. round no_holes q) f g) → (D E : KnownItems) → Knows x.numbers.by D E → (A : Assignment) (made : Entries)
        → StatementsFit E (x.numbers.by.items f.item) (of_text x.numbers.by x.numbers.back A) (of_statements (as_statements call) x.such.cursor').0 made → Apart x.numbers.by x.numbers.back A made
        → StatementsTakeAll E.items (of_statements (as_statements call) x.such.cursor').0 → AllCovered D.items (choices_of (elaborated (given_types D A) f).body)
        → AllCovered E.items (choices_of (elaborated (given_types E (composed x.numbers.by x.numbers.back none_viewed A (assigned made))) g).body) }
    ensures at_the_end { (R : Renaming) (run call : ListOf Statement) (o l : OptionalExpression) (f g : Function) (x : ByOneNumbering R (IsLastCall R as_mutable run call o l) (λ q. round no_holes q) f g) → (D E : KnownItems) → Knows x.numbers.by D E
        → (A : Assignment) (made : Entries)
        → EndFits E (x.numbers.by.items f.item) (of_text x.numbers.by x.numbers.back A) (node_at x.numbers.by x.such.node x.such.node.span) (some_diverges x.such.front)
        (of_statements (as_statements call) x.such.cursor').0 (of_optional x.such.site l (of_statements (as_statements call) x.such.cursor').1).0 made → Apart x.numbers.by x.numbers.back A made
        → StatementsTakeAll E.items (of_statements (as_statements call) x.such.cursor').0 → ElseTakesAll E.items (of_optional x.such.site l (of_statements (as_statements call) x.such.cursor').1).0
        → AllCovered D.items (choices_of (elaborated (given_types D A) f).body) → AllCovered E.items (choices_of (elaborated (given_types E (composed x.numbers.by x.numbers.back none_viewed A (assigned made))) g).body) }
{}

/// The matches of a run that is copied into the new function are covered there, where the run's are, and what is made for jumps and returns matches nothing; also where some nodes have
/// a shared reference for a mutable one, if the patterns of each match are seen so all of them or none.
pub fn copied_runs_are_covered()
    ensures statements { (r : Renumbering) (u : PartialInverse r) (view : Viewed) (behind : Behind) (D E : KnownItems) → Knows r D E → (A V : Assignment) → MutableAt view A → (loops : ℕ → ℕ) (f k : ℕ) (ss ss' : Statements)
        → RenumberedStatements r loops (quiet_holes r u view behind D E A V loops f k) ss ss' → SeenStatements (λ n. view (subject.Node n)) ss
        → AllCovered D.items (choices_in_statements (given_types D A) ss) → AllCovered E.items (choices_in_statements (given_types E (composed r u view A V)) ss') }
    ensures with_tail { (r : Renumbering) (u : PartialInverse r) (view : Viewed) (behind : Behind) (D E : KnownItems) → Knows r D E → (A V : Assignment) → MutableAt view A → (loops : ℕ → ℕ) (f k : ℕ) (n m : Node) (ss ss' : Statements) (o o' : Else)
        → RenumberedStatements r loops (quiet_holes r u view behind D E A V loops f k) ss ss' → RenumberedElse r loops (quiet_holes r u view behind D E A V loops f k) o o'
        → SeenStatements (λ n. view (subject.Node n)) ss → SeenElse (λ n. view (subject.Node n)) o
        → AllCovered D.items (choices_at_end (given_types D A) n ss o) → AllCovered E.items (choices_at_end (given_types E (composed r u view A V)) m ss' o') }
{}

/// So the matches of a function of a typed program are covered where those of another's function are of which it is one by other numbers, as a function that stays is.
pub fn typed_functions_by_other_numbers_are_covered()
    ensures { (r : Renumbering) (loops : ℕ → ℕ) → Inverse r → (G H : Given) → Knows r (known_in G) (known_in H) → (n m : ℕ) (s s' : Span) (f f' : plain.Function) (ns ms : ListOf NodeNames) (vars ws : ListOf Span) (g h : TypedFn)
        → FunctionTyped G n s f ns vars g → FunctionTyped H m s' f' ms ws h → RenumberedFunction r loops no_holes (function_named n s f ns) (function_named m s' f' ms)
        → AllCovered (known_in G).items (choices_of (plain-TypedTree g.tree).body) → AllCovered (known_in H).items (choices_of (plain-TypedTree h.tree).body) }
{
    demands_are_orderly();
}

/// The matches of a function are those of its body's block; those of a run in a block are covered where the block's are; and a block's are where those of its statements in front and
/// of its end are.
pub fn blocks_are_covered_part_by_part()
    ensures whole { (T : Assigned) (f : Function) → choices_of (elaborated T f).body ≡ choices_in_body T f.body }
    ensures apart { (T : Assigned) (D : Declarations) (n : Node) (front run behind : Statements) (o : Else)
        → AllCovered D (choices_at_end T n (append front (append run behind)) o) → AllCovered D (choices_in_statements T run) × AllCovered D (choices_at_end T n (append run behind) o) }
    ensures together { (T : Assigned) (D : Declarations) (n : Node) (front end : Statements) (o : Else)
        → AllCovered D (choices_in_statements T front) → AllCovered D (choices_at_end T n end o) → AllCovered D (choices_at_end T n (append front end) o) }
{}
