//! Laws of what is asked at special places, each as the contract of a function that does nothing.

ghost use Rattle.std.specs.Prelude.{◌≡◌, ◌++◌, ◌||◌, false, Bool, ℕ, List as ListOf, []};
ghost use Rattle.rx_core.specs.declared.types.Span.{Span};
ghost use Rattle.rx_typed.specs.declared.nodes.Node.{Node};
ghost use Rattle.rx_typed.specs.declared.nodes.Site.{Site};
ghost use Rattle.rx_typed.specs.Named.{else_diverges, some_diverges, is_place, node_of, tail_never, Body, Else, Exp, Function, Statements};
ghost use Rattle.rx_typeck_solver.specs.declared.facts.Demand.{Demand};
ghost use Rattle.rx_typeck_solver.specs.declared.facts.Subject.{Subject};
ghost use Rattle.rx_typeck_solver.specs.Facts.{KnownItems, MeetsEach, Assignment};
ghost use Rattle.rx_typeck_solver.specs.Ordered.{Orderly};
ghost use Rattle.rx_typeck_solver.specs.Valid.{Told, Valid};
ghost use Rattle.rx_typeck_typed.specs.Demands.{demands, hands_on, of_body, of_exp, of_statements, task};
ghost use Rattle.rx_engine_blocks.specs.Renumbering.{node_at, shape_at, subject_at, Renumbering};
ghost use Rattle.rx_engine_blocks.specs.DemandsLike.{DemandsLike, Is};
ghost use Rattle.rx_engine_blocks.specs.Knows.{Knows};
ghost use Rattle.rx_engine_blocks.specs.Along.{composed, none_viewed, shared, MutableAt, PartialInverse, Viewed};
ghost use Rattle.rx_engine_blocks.specs.Blocks.{none_behind, AllReferences, Behind, Fixes, ToldIn};
ghost use Rattle.rx_engine_blocks.specs.ByItself.{ByItself};
ghost use Rattle.rx_engine_blocks.specs.Made.{MadeElse, MadeStatements};
ghost use Rattle.rx_engine_blocks.specs.Around.{Among, Round};
ghost use Rattle.rx_engine_blocks.specs.Settled.{Settles};
ghost use Rattle.rx_engine_blocks.specs.Copies.{EachCopies};
ghost use Rattle.rx_engine_blocks.specs.Parts.{Added, StandsFor};
ghost use Rattle.rx_engine_typing.specs.Renumbered.{no_holes, RenumberedBody, RenumberedExp, RenumberedFunction, RenumberedStatements};
ghost use Rattle.rx_engine_holes.specs.CallFits.{EndFits, StatementsFit};
ghost use Rattle.rx_engine_holes.specs.Entries.{assigned, of_text, Apart, Entries};
ghost use Rattle.rx_engine_holes.specs.Named.{NamedIn};
ghost use Rattle.rx_engine_holes.specs.Others.{Anywhere, AskForNoInteger, OthersFit};
ghost use Rattle.rx_engine_holes.specs.Returned.{returned_holes};
ghost use Rattle.rx_engine_holes.specs.Run.{with_run};
ghost use Rattle.rx_engine_holes.specs.Sited.{at_site};
ghost use Rattle.rx_engine_holes.specs.Special.{special_holes};
ghost use Rattle.rx_engine_holes.specs.Tail.{of_end, with_tail};

use rx_engine_blocks::runs_are_valid;

/// What is asked of a body in which some variables are behind references, some literals have suffixes, and
/// jumps are returns, stands for what the text's asks.
pub fn special_bodies_ask_alike()
    ensures { (r : Renumbering) (u : PartialInverse r) (view : Viewed) (behind : Behind) (q : Renumbering) (elsewhere : Behind) (fs : ListOf Demand) (D E : KnownItems) → Knows r D E
        → (A V : Assignment) (es : ListOf Demand) → AllReferences r u view behind E A es → MeetsEach E V es → (loops : ℕ → ℕ) (f : ℕ) (b b' : Body)
        → RenumberedBody r loops (special_holes r u view behind A V) b b'
        → DemandsLike r (StandsFor r u view behind (ToldIn q elsewhere fs) D E A V es) (of_body f b []) (of_body (r.items f) b' []) }
{}

/// The same of statements.
pub fn special_statements_ask_alike()
    ensures { (r : Renumbering) (u : PartialInverse r) (view : Viewed) (behind : Behind) (q : Renumbering) (elsewhere : Behind) (fs : ListOf Demand) (D E : KnownItems) → Knows r D E
        → (A V : Assignment) (es : ListOf Demand) → AllReferences r u view behind E A es → MeetsEach E V es → (loops : ℕ → ℕ) (f : ℕ) (ss ss' : Statements)
        → RenumberedStatements r loops (special_holes r u view behind A V) ss ss'
        → DemandsLike r (StandsFor r u view behind (ToldIn q elsewhere fs) D E A V es) (of_statements f ss []) (of_statements (r.items f) ss' []) }
{}

/// The same of a whole function.
pub fn special_functions_ask_alike()
    ensures { (r : Renumbering) (u : PartialInverse r) (view : Viewed) (behind : Behind) (q : Renumbering) (elsewhere : Behind) (fs : ListOf Demand) (D E : KnownItems) → Knows r D E
        → (A V : Assignment) (es : ListOf Demand) → AllReferences r u view behind E A es → MeetsEach E V es → (loops : ℕ → ℕ) (f g : Function)
        → RenumberedFunction r loops (special_holes r u view behind A V) f g
        → DemandsLike r (StandsFor r u view behind (ToldIn q elsewhere fs) D E A V es) (demands f) (demands g) }
{}

/// In a function of the answer, a block has other statements for a run of the text's; elsewhere it is the text's function but for literals with
/// suffixes. What is asked of both is the same, but for what is asked of the run and of the others.
pub fn functions_round_a_run_ask_alike()
    ensures { (q : Renumbering) (w : PartialInverse q) (r : Renumbering) (behind : Behind) (es fs : ListOf Demand) (D E : KnownItems) → Knows q D E
        → (A W : Assignment) → AllReferences q w none_viewed none_behind E A fs → MeetsEach E W fs → (loops : ℕ → ℕ) (run call : Statements) (asked given : ListOf Demand) → Is (some_diverges run) (some_diverges call)
        → (f g : Function) → ((ds : ListOf Demand) → of_statements f.item run ds ≡ ds ++ asked) → ((ds : ListOf Demand) → of_statements (q.items f.item) call ds ≡ ds ++ given)
        → RenumberedFunction q loops (with_run q loops (special_holes q w none_viewed none_behind A W) run call) f g
        → DemandsLike q (Round (StandsFor q w none_viewed none_behind (ToldIn r behind es) D E A W fs) asked given) (demands f) (demands g) }
{}

/// What is asked of statements that are copied into another function, where what they return is returned as a value of a variant, stands for
/// what the text's ask.
pub fn moved_statements_ask_alike()
    ensures { (r : Renumbering) (u : PartialInverse r) (view : Viewed) (behind : Behind) (q : Renumbering) (elsewhere : Behind) (fs : ListOf Demand) (D E : KnownItems) → Knows r D E
        → (A V : Assignment) (es : ListOf Demand) → AllReferences r u view behind E A es → MeetsEach E V es → (loops : ℕ → ℕ) (f g k : ℕ) (ss ss' : Statements)
        → RenumberedStatements r loops (returned_holes r u view behind D E A V loops f k) ss ss'
        → DemandsLike r (StandsFor r u view behind (ToldIn q elsewhere fs) D E A V es) (of_statements f ss []) (of_statements g ss' []) }
{}

/// In a function of the answer, a block has other last statements and another tail, for a run that holds the tail of its block.
pub fn functions_round_a_tail_ask_alike()
    ensures { (q : Renumbering) (w : PartialInverse q) (r : Renumbering) (behind : Behind) (es fs : ListOf Demand) (D E : KnownItems) → Knows q D E
        → (A W : Assignment) → AllReferences q w none_viewed none_behind E A fs → MeetsEach E W fs → (loops : ℕ → ℕ) (n : Node) (s : Span) (d : Bool) (run : Statements) (o : Else) (call : Statements) (p : Else)
        → (asked given : ListOf Demand) → Is (some_diverges run || else_diverges o) (some_diverges call || else_diverges p)
        → Is (tail_never (d || some_diverges run) o) (tail_never (d || some_diverges call) p)
        → (f g : Function) → ((ds : ListOf Demand) → of_end f.item n d run o ds ≡ ds ++ asked) → ((ds : ListOf Demand) → of_end (q.items f.item) (node_at q n s) d call p ds ≡ ds ++ given)
        → RenumberedFunction q loops (with_tail q loops (special_holes q w none_viewed none_behind A W) n s d run o call p) f g
        → DemandsLike q (Round (StandsFor q w none_viewed none_behind (ToldIn r behind es) D E A W fs) asked given) (demands f) (demands g) }
{}

/// A value that is no place asks as an initialiser with a type what it asks at any coercion site.
pub fn initialisers_ask_alike()
    ensures { (g : ℕ) (e : Exp) → is_place e ≡ false → (node_of e).site ≡ Site.Expects → (ds : ListOf Demand) → of_exp g (at_site Site.Initialises e) ds ≡ of_exp g e ds }
{}

/// The same of statements and of a tail behind them, which hands on what is expected of the block.
pub fn moved_tails_ask_alike()
    ensures { (r : Renumbering) (u : PartialInverse r) (view : Viewed) (behind : Behind) (q : Renumbering) (elsewhere : Behind) (fs : ListOf Demand) (D E : KnownItems) → Knows r D E
        → (A V : Assignment) (es : ListOf Demand) → AllReferences r u view behind E A es → MeetsEach E V es → (loops : ℕ → ℕ) (f g k : ℕ) (n : Node) (s : Span) (ss ss' : Statements) (e e' : Exp)
        → RenumberedStatements r loops (returned_holes r u view behind D E A V loops f k) ss ss' → RenumberedExp r loops (returned_holes r u view behind D E A V loops f k) e e'
        → DemandsLike r (StandsFor r u view behind (ToldIn q elsewhere fs) D E A V es) (of_exp f e (hands_on n (node_of e) (of_statements f ss [])))
        (of_exp g e' (hands_on (node_at r n s) (node_of e') (of_statements g ss' []))) }
{}

/// A function in which other statements stand for a run, and a function into which the run is copied, both have valid assignments, though
/// nothing says that they are accepted: those that meet what is asked, with the text's types at what comes from the text, where all else
/// that they tell has one type.
pub fn runs_and_calls_for_them_are_valid()
    ensures { (r : Renumbering) (u : PartialInverse r) (view : Viewed) (behind : Behind) (q : Renumbering) (w : PartialInverse q) (D E : KnownItems) → Knows r D E → Knows q D E
        → (A V W : Assignment) (f g h : Function) (run call copied : Statements) (asked given head end : ListOf Demand) → Is (some_diverges run) (some_diverges call)
        → ((ds : ListOf Demand) → of_statements f.item run ds ≡ ds ++ asked) → ((ds : ListOf Demand) → of_statements (q.items f.item) call ds ≡ ds ++ given) → Among asked (demands f)
        → (loops : ℕ → ℕ) → RenumberedFunction q loops (with_run q loops (special_holes q w none_viewed none_behind A W) run call) f g
        → (inner : ℕ → ℕ) (k : ℕ) → RenumberedStatements r inner (returned_holes r u view behind D E A V inner f.item k) run copied → demands h ≡ head ++ (of_statements h.item copied [] ++ end)
        → Orderly (task h) → Orderly (task g) → Valid D (task f) A → AllReferences r u view behind E A (demands h) → MutableAt view A → EachCopies view A asked
        → Fixes r view (ToldIn q none_behind (demands g)) E A (demands h) → Fixes q none_viewed (ToldIn r behind (demands h)) E A (demands g)
        → ByItself r u view (ToldIn q none_behind (demands g)) E A V (demands f) (demands h) → ByItself q w none_viewed (ToldIn r behind (demands h)) E A W (demands f) (demands g)
        → Added (composed r u view A V) V head → Added (composed r u view A V) V end → Added (composed q w none_viewed A W) W given
        → Valid E (task h) V × Valid E (task g) W }
{
    functions_round_a_run_ask_alike();
    moved_statements_ask_alike();
    runs_are_valid();
}

/// A function that is the text's by other numbers but for a run, for which other statements stand, has a valid assignment, though nothing says that
/// it is accepted, and whatever becomes of the run: the text's types at what comes from the text, where the others fit.
pub fn functions_with_others_for_a_run_are_valid()
    ensures { (q : Renumbering) (w : PartialInverse q) (D E : KnownItems) → Knows q D E → (A W : Assignment) (loops : ℕ → ℕ) (run call : Statements) → Is (some_diverges run) (some_diverges call) → (f g : Function)
        → RenumberedFunction q loops (with_run q loops no_holes run call) f g → Orderly (task g) → Valid D (task f) A
        → OthersFit q w E A W (of_statements f.item run []) (of_statements (q.items f.item) call []) (demands g) → Valid E (task g) (composed q w none_viewed A W) }
{}

/// The same where other last statements and another tail stand for a run that goes to its block's end.
pub fn functions_with_others_for_an_end_are_valid()
    ensures { (q : Renumbering) (w : PartialInverse q) (D E : KnownItems) → Knows q D E → (A W : Assignment) (loops : ℕ → ℕ) (n : Node) (s : Span) (d : Bool) (run : Statements) (o : Else) (call : Statements) (p : Else)
        → Is (some_diverges run || else_diverges o) (some_diverges call || else_diverges p) → Is (tail_never (d || some_diverges run) o) (tail_never (d || some_diverges call) p) → (f g : Function)
        → RenumberedFunction q loops (with_tail q loops no_holes n s d run o call p) f g → Orderly (task g) → Valid D (task f) A
        → OthersFit q w E A W (of_end f.item n d run o []) (of_end (q.items f.item) (node_at q n s) d call p []) (demands g) → Valid E (task g) (composed q w none_viewed A W) }
{}

/// Code that is made anew asks for no integer: statements, and last statements with a tail.
pub fn what_is_made_asks_for_no_integer()
    ensures { (f : ℕ) (n : Node) (d : Bool) (ss : Statements) (o : Else) → MadeStatements Anywhere ss → AskForNoInteger (of_statements f ss []) × (MadeElse Anywhere o → AskForNoInteger (of_end f n d ss o [])) }
{}

/// A function into which a run of the text's is copied has a valid assignment by itself, whatever becomes of what stands round the run: one that meets
/// what is asked, with the text's types at what comes from the text, where what is named round the run is fixed, and all else that it tells has one type.
pub fn functions_with_a_copied_run_are_valid()
    ensures { (r : Renumbering) (u : PartialInverse r) (view : Viewed) (behind : Behind) (D E : KnownItems) → Knows r D E → (A V : Assignment) (f h : Function) (run copied : Statements) (front back head end : ListOf Demand)
        → demands f ≡ front ++ (of_statements f.item run [] ++ back) → demands h ≡ head ++ (of_statements h.item copied [] ++ end)
        → (loops : ℕ → ℕ) (k : ℕ) → RenumberedStatements r loops (returned_holes r u view behind D E A V loops f.item k) run copied → Orderly (task h) → Valid D (task f) A
        → AllReferences r u view behind E A (demands h) → MutableAt view A → EachCopies view A (of_statements f.item run []) → Fixes r view (NamedIn (front ++ back)) E A (demands h)
        → ByItself r u view (NamedIn (front ++ back)) E A V (demands f) (demands h) → Added (composed r u view A V) V head → Added (composed r u view A V) V end → Valid E (task h) V }
{}

/// What demands name is fixed in a part where the part settles what it tells of this by itself.
pub fn what_is_named_is_fixed()
    ensures { (r : Renumbering) (view : Viewed) (names : ListOf Demand) (E : KnownItems) (A : Assignment) (es : ListOf Demand)
        → ((x : Subject) → NamedIn names x → Told es (subject_at r x) → Settles E es (subject_at r x) (shared (view x) (shape_at r (A x)))) → Fixes r view (NamedIn names) E A es }
{}

/// Statements that do something with calls and variables that fit, also where a call is matched, meet what is asked, by the text's types of what comes from the
/// text and by their entries of what they make.
pub fn statements_that_fit_are_met()
    ensures { (q : Renumbering) (w : PartialInverse q) (E : KnownItems) (A : Assignment) (f : ℕ) (ss : Statements) (made : Entries) → StatementsFit E f (of_text q w A) ss made → Apart q w A made
        → MeetsEach E (composed q w none_viewed A (assigned made)) (of_statements f ss []) }
{}

/// The same of statements and a tail at the end of a block.
pub fn ends_that_fit_are_met()
    ensures { (q : Renumbering) (w : PartialInverse q) (E : KnownItems) (A : Assignment) (f : ℕ) (n : Node) (d : Bool) (ss : Statements) (o : Else) (made : Entries) → EndFits E f (of_text q w A) n d ss o made → Apart q w A made
        → MeetsEach E (composed q w none_viewed A (assigned made)) (of_end f n d ss o []) }
{}

/// So a function that is the text's by other numbers but for a run, for which statements stand that fit, has a valid assignment, whatever becomes of the run.
pub fn functions_with_statements_that_fit_are_valid()
    ensures { (q : Renumbering) (w : PartialInverse q) (D E : KnownItems) → Knows q D E → (A : Assignment) (loops : ℕ → ℕ) (run call : Statements) → Is (some_diverges run) (some_diverges call) → (f g : Function)
        → RenumberedFunction q loops (with_run q loops no_holes run call) f g → Orderly (task g) → Valid D (task f) A → Fixes q none_viewed (NamedIn (of_statements f.item run [])) E A (demands g)
        → (made : Entries) → StatementsFit E (q.items f.item) (of_text q w A) call made → Apart q w A made → Valid E (task g) (composed q w none_viewed A (assigned made)) }
{}

/// The same where last statements and a tail that fit stand for a run that goes to its block's end.
pub fn functions_with_ends_that_fit_are_valid()
    ensures { (q : Renumbering) (w : PartialInverse q) (D E : KnownItems) → Knows q D E → (A : Assignment) (loops : ℕ → ℕ) (n : Node) (s : Span) (d : Bool) (run : Statements) (o : Else) (call : Statements) (p : Else)
        → Is (some_diverges run || else_diverges o) (some_diverges call || else_diverges p) → Is (tail_never (d || some_diverges run) o) (tail_never (d || some_diverges call) p) → (f g : Function)
        → RenumberedFunction q loops (with_tail q loops no_holes n s d run o call p) f g → Orderly (task g) → Valid D (task f) A → Fixes q none_viewed (NamedIn (of_end f.item n d run o [])) E A (demands g)
        → (made : Entries) → EndFits E (q.items f.item) (of_text q w A) (node_at q n s) d call p made → Apart q w A made → Valid E (task g) (composed q w none_viewed A (assigned made)) }
{}
