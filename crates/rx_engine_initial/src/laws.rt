//! Laws, each the contract of a function that does nothing.

ghost use Rattle.std.specs.Prelude.{◌≡◌, ◌≢◌, ℕ, Bool, true, false, List as ListOf, ◌∷◌, [], ◌++◌};
ghost use Rattle.rx_typed.specs.Tree.{variable, Temporary, Parameter, Function, own};
ghost use Rattle.rx_typed_declarations.specs.Sizes.{Sized};
ghost use Rattle.rx_lower_walks.specs.Actions.{Action};
ghost use Rattle.rx_lower_walks.specs.Orders.{Order, beginning, declaring, order_function};
ghost use Rattle.rx_lower_walks.specs.Walks.{Out, Walk, IsWalk, Among};
ghost use Rattle.rx_facts_tables.specs.Along.{after, ahead};
ghost use Rattle.rx_facts_tables.specs.Initialised.{IsFixed, Initialised};
ghost use Rattle.rx_facts_tables.specs.Setting.{AllSet};
ghost use Rattle.rx_facts_tables.specs.Wholes.{stands, was_assigned};
ghost use Rattle.rx_facts_tables.specs.Live.{living};
ghost use Rattle.rx_exits_plan.specs.Points.{Exit, returns, enters, leaves};
ghost use Rattle.rx_exits_plan.specs.Marked.{shown};
ghost use Rattle.rx_exits_plan.specs.Asked.{Asked};
ghost use Rattle.rx_exits_plan.specs.Plan.{Plan, IsPlan};
ghost use Rattle.rx_exits_plan.specs.PartlyMoved.{PartlyMoved};
ghost use Rattle.rx_modes_uses.specs.NotMut.{NotMut};
ghost use Rattle.rx_engine_simulation.specs.Sights.{In};
ghost use Rattle.rx_engine_related.specs.AboutRun.{special_of, text_of};
ghost use Rattle.rx_engine_related.specs.OneSite.{StandsOnce};
ghost use Rattle.rx_engine_related.specs.Accepted.{Accepted};
ghost use Rattle.rx_engine_initial.specs.Tracing.{View, Traced, WholeGives};
ghost use Rattle.rx_engine_initial.specs.Matching.{Hist, Reach, Answer, Piece, fill, Matches};
ghost use Rattle.rx_engine_initial.specs.Variables.{Sides, LikeVariable, KnownVariables, type_at};
ghost use Rattle.rx_engine_initial.specs.Copies.{LeavesAll, world};
ghost use Rattle.rx_engine_initial.specs.Entered.{OnEach, Given, LocalsDeclared};
ghost use Rattle.rx_engine_initial.specs.Handing.{Handing, Straight, in_front, giving};
ghost use Rattle.rx_engine_initial.specs.Calls.{StandsFor};
ghost use Rattle.rx_engine_initial.specs.Fates.{Fates};
ghost use Rattle.rx_engine_initial.specs.Forgotten.{one_boolean, none_mut, forgetting};
ghost use Rattle.rx_engine_initial.specs.Planned.{IsTextOf, MeetsMark, AllFor};

/// Where a walk of the new program comes from one of the text, what holds there of a variable that is live there holds here.
pub fn what_holds_there_holds_here()
    ensures { (f : Function) (V : View) → WholeGives V → (us w : ListOf Action) → Traced (IsWalk f) V us w → (ws : ListOf Action) → IsWalk f (w ++ ws)
        → ahead V.live ws ≡ true → after V.old w V.start_there ≡ true → after V.new us V.start ≡ true }
{}

/// Where the text's function is initialised, each walk of an order that matches an order of it is in order; unless it stops or returns, it
/// comes from a walk of that order which goes out alike, for each fact of what is in scope.
pub fn walks_come_from_walks()
    ensures { (S : Sides) → Sized S.frame.declared S.frame.sizes → Sized S.frame_there.declared S.frame_there.sizes → Initialised S.frame_there S.muts_there S.text
        → (R : KnownVariables S) (s q : Order) → Matches (world S) R s q → (us w vs : ListOf Action) (o : Out) → Hist (world S) R us w → Reach (world S) q w
        → Walk s vs o → Answer (world S) R q us w vs o }
{}

/// So a function is initialised whose order matches a part of the text that some walk comes to: all of it, as for the function with the
/// call, or what follows where the run is entered, as for the new function.
pub fn functions_are_initialised()
    ensures { (S : Sides) → Sized S.frame.declared S.frame.sizes → Sized S.frame_there.declared S.frame_there.sizes → Initialised S.frame_there S.muts_there S.text
        → (R : KnownVariables S) → R.variables ≡ [] → (f : Function) (q : Order) (w : ListOf Action) → Reach (world S) q w → Matches (world S) R (order_function f) q
        → Initialised S.frame S.muts f }
{}

/// Variables of one type have the same parts, wherever these begin, where the same structs and enums are declared.
pub fn variables_of_one_type_are_alike()
    ensures { (S : Sides) → S.frame.declared ≡ S.frame_there.declared → S.frame.sizes ≡ S.frame_there.sizes → (x y : ℕ)
        → type_at S.frame.types x ≡ type_at S.frame_there.types y → (IsFixed S.muts x → IsFixed S.muts_there y) → LikeVariable S x y }
{}

/// What the text does alone, without a choice, matches in front of what matches, where it neither begins nor writes a variable in scope: a
/// mark, or the reads where a run is entered.
pub fn what_the_text_does_alone_matches()
    ensures { (S : Sides) → Sized S.frame.declared S.frame.sizes → Sized S.frame_there.declared S.frame_there.sizes → (R : KnownVariables S) (s q r : Order) (l : ListOf Action)
        → Straight q l → ((b : Action) → Among b l → LeavesAll R.variables b.act) → Matches (world S) R s r → Matches (world S) R s (in_front q r) }
{}

/// Params and locals are declared in front of what matches: a param is written there, and the text's variable was assigned on each walk
/// that comes there; a local's stands on none.
pub fn params_and_locals_match()
    ensures params { (S : Sides) → Sized S.frame.declared S.frame.sizes → Sized S.frame_there.declared S.frame_there.sizes
        → Initialised S.frame_there S.muts_there S.text → (R U : KnownVariables S) (ps : ListOf Parameter) (q : Order) → Given S q R ps U → (n : ℕ) (s : Order)
        → Matches (world S) U s q → Matches (world S) R (beginning ps n s) q }
    ensures locals { (S : Sides) → Sized S.frame.declared S.frame.sizes → Sized S.frame_there.declared S.frame_there.sizes
        → Initialised S.frame_there S.muts_there S.text → (R U : KnownVariables S) (xs : ListOf ℕ) (q : Order) → LocalsDeclared S q R xs U → (k n : ℕ) (s : Order)
        → Matches (world S) U s q → Matches (world S) R (declaring k xs n s) q }
{}

/// Where actions of the new program stand in place of actions of the text, as a call in place of a run, and each variable that is in scope
/// behind them has one of the fates, the walks go on for each fact.
pub fn fates_keep_facts()
    ensures { (S : Sides) → Sized S.frame.declared S.frame.sizes → Sized S.frame_there.declared S.frame_there.sizes → (R T : KnownVariables S) (h w us u : ListOf Action)
        → Hist (world S) R h w → Fates S R T w us u → Hist (world S) T (h ++ us) (w ++ u) }
{}

/// So statements without a choice match a run that they stand for, in front of what matches.
pub fn calls_match()
    ensures { (S : Sides) → Sized S.frame.declared S.frame.sizes → Sized S.frame_there.declared S.frame_there.sizes → (R T : KnownVariables S) (H K : ListOf Piece) (q r : Order)
        → StandsFor S R T H K q r → Matches (world S) T q r → Matches (world S) R (fill H q) (fill K r) }
{}

/// Where a function is initialised, so is the one with marks at the points of a run and reads of the plan's params where it is entered.
pub fn marked_texts_are_initialised()
    ensures { (A : Asked) (muts : ListOf Bool) → Accepted A muts → (k : Plan) → IsPlan A k → Initialised A.frame muts (text_of A k) }
{}

/// What the plan says there: where the run is entered, a param was assigned, and a local does not stand; where an exit's mark is met, what the
/// exit hands out is wholly set, unless it is there in part, and where the mark stands at one place, a walk goes on to a use of it; what may be elsewhere and
/// is not handed out is used on no such walk.
pub fn plans_tell_where_runs_are_entered_and_left()
    ensures params { (A : Asked) (muts : ListOf Bool) → Accepted A muts → (k : Plan) → IsPlan A k → (x : ℕ) → Among x k.params → (w : ListOf Action)
        → IsWalk (text_of A k) (w ++ shown enters ∷ []) → was_assigned w x ≡ true }
    ensures locals { (A : Asked) (muts : ListOf Bool) → Accepted A muts → (k : Plan) → IsPlan A k → (x : ℕ) → Among x k.locals → (w : ListOf Action)
        → IsWalk (text_of A k) (w ++ shown enters ∷ []) → stands w x [] ≡ false }
    ensures set { (A : Asked) (muts : ListOf Bool) → Accepted A muts → (k : Plan) → IsPlan A k → (e : Exit) (x : ℕ) → ¬ (PartlyMoved A k x) → Among e k.exits → Among x (k.outs e)
        → (w : ListOf Action) → IsWalk (text_of A k) (w ++ shown (leaves e) ∷ []) → AllSet A.frame w (own x) }
    ensures live { (A : Asked) (muts : ListOf Bool) → Accepted A muts → (k : Plan) → IsPlan A k → (e : Exit) (x : ℕ) → StandsOnce (text_of A k) (shown (leaves e)) → Among e k.exits
        → Among x (k.outs e) → (w : ListOf Action) → IsWalk (text_of A k) (w ++ shown (leaves e) ∷ [])
        → (us : ListOf Action) × IsWalk (text_of A k) (w ++ shown (leaves e) ∷ us) × (ahead (living (variable x)) us ≡ true) }
    ensures not_live { (A : Asked) (muts : ListOf Bool) → Accepted A muts → (k : Plan) → IsPlan A k → ((y : ℕ) → ¬ (NotMut A muts k y)) → (e : Exit) (x : ℕ) → Among e k.exits → e ≢ returns → In x (special_of A muts k)
        → (Among x (k.outs e) → ⊥) → (w ws : ListOf Action) → IsWalk (text_of A k) (w ++ shown (leaves e) ∷ ws) → ahead (living (variable x)) ws ≡ false }
{}

/// So params and locals of a plan are as they are asked to be where a part of the text meets the mark of the run's entry.
pub fn entries_match()
    ensures params { (A : Asked) (k : Plan) → IsPlan A k → (S : Sides) → Accepted A S.muts_there → IsTextOf S A k → (q : Order) → MeetsMark S enters q → (y : ℕ) → Among y k.params
        → OnEach S q (λ w. was_assigned w y ≡ true) }
    ensures locals { (A : Asked) (k : Plan) → IsPlan A k → (S : Sides) → Accepted A S.muts_there → IsTextOf S A k → (q : Order) → MeetsMark S enters q → (y : ℕ) → Among y k.locals
        → OnEach S q (λ w. stands w y [] ≡ false) }
{}

/// So where the new function takes the variables that an exit hands out, and gives what it makes of them, it is in order.
pub fn exits_match()
    ensures { (A : Asked) (k : Plan) → IsPlan A k → (S : Sides) → Sized S.frame.declared S.frame.sizes → Accepted A S.muts_there → IsTextOf S A k → (R : KnownVariables S) (e : Exit) (q : Order)
        → Among e k.exits → StandsOnce (text_of A k) (shown (leaves e)) → ((x : ℕ) → ¬ (PartlyMoved A k x)) → MeetsMark S (leaves e) q
        → (xs : ListOf ℕ) → AllFor R xs (k.outs e) → (l : ListOf Action) → Handing xs l → (s : Order) → Straight s l → (n : ℕ) (t : Temporary)
        → Matches (world S) R (giving s n t) q }
{}

/// An extraction that forgets what its run hands out is not initialised.
pub fn forgotten_outs_are_unset()
    ensures { Initialised one_boolean none_mut forgetting → ⊥ }
{}
