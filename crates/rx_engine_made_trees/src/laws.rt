//! Laws, each the contract of a function that does nothing.

ghost use Rattle.std.specs.Prelude.{◌≡◌, ℕ, false, Bool, List as ListOf, [], ◌∷◌, length, Some as SomeOf};
ghost use Rattle.rx_typed.specs.declared.nodes.Node.{Node};
ghost use Rattle.rx_typed.specs.Tree.{Parameter, Exp as TypedExp};
ghost use Rattle.rx_typed.specs.Named as named;
ghost use Rattle.rx_typed.specs.Named.{Arms, Else, Exp, Exps, Statements};
ghost use Rattle.rx_typed.specs.Elaborated.{Assigned, operands, value};
ghost use Rattle.rx_lower_walks.specs.Walks.{Among};
ghost use Rattle.rx_exits_plan.specs.Asked.{Asked};
ghost use Rattle.rx_exits_plan.specs.Plan.{Plan};
ghost use Rattle.rx_exits_plan.specs.Points.{next};
ghost use Rattle.rx_modes_policy.specs.declared.uses.Mode.{Mode};
ghost use Rattle.rx_engine_simulation.specs.Sights.{sight, sight_of, special, How, In, Renaming};
ghost use Rattle.rx_engine_simulation.specs.Jumps.{Jumping};
ghost use Rattle.rx_engine_simulation.specs.Turns.{Allowance};
ghost use Rattle.rx_engine_simulation.specs.Passing.{inner_jumps};
ghost use Rattle.rx_engine_simulation.specs.Blocks.{Stretch};
ghost use Rattle.rx_engine_simulation.specs.Endings.{Last};
ghost use Rattle.rx_engine_simulation.specs.Packing.{as_variant, bare, no_way, AreNew, Way};
ghost use Rattle.rx_engine_simulation.specs.Rereads.{Rereads};
ghost use Rattle.rx_engine_related.specs.AboutRun.{special_of};
ghost use Rattle.rx_engine_related.specs.Given.{GivenTo};
ghost use Rattle.rx_engine_related.specs.Leaving.{jumps_of, variant_for};
ghost use Rattle.rx_engine_made_trees.specs.Nodes.{KeepsItsType};
ghost use Rattle.rx_engine_made_trees.specs.Seen.{seen_so, variables_of, AreUnseen, OneToOne};
ghost use Rattle.rx_engine_made_trees.specs.Arguments.{ArgumentsFor};
ghost use Rattle.rx_engine_made_trees.specs.Arms.{ArmsFor};
ghost use Rattle.rx_engine_made_trees.specs.Entering.{Entered, EnteringNames};
ghost use Rattle.rx_engine_made_trees.specs.Handing.{behind_call, DeclaresAll, HandedNames, HandsOver, StandsForRun};
ghost use Rattle.rx_engine_made_trees.specs.Standing.{Answered, Asks, Called, EndedSo, EndsTo, Stands};
ghost use Rattle.rx_engine_made_trees.specs.Leaving.{ReturnedSo, ReturnsFor};
ghost use Rattle.rx_engine_made_trees.specs.Tails.{AsksTail, StandsForTail, TailCalled};

/// Where the arguments of the call have the forms and types of its params in their modes, the new function is given these so.
pub fn arguments_are_given()
    ensures { (T : Assigned) (again : Bool) (R : Renaming) (cold : ListOf ℕ) (Rp : Renaming) (i : ℕ) (xs : ListOf ℕ) (ms : ListOf Mode) (es : Exps) (hs : ListOf How) (ps : ListOf Parameter)
        → ArgumentsFor T again R cold xs ms es hs → AreUnseen Rp xs → AreNew Rp (variables_of ps) → length xs ≡ length ps
        → GivenTo again R cold Rp xs ms (operands T i es) ps (seen_so Rp xs hs (variables_of ps)) }
{}

/// So the new function is entered with its params and locals, and has no other variable of the text meanwhile.
pub fn new_functions_are_entered()
    ensures { (T : Assigned) (again : Bool) (R : Renaming) (cold : ListOf ℕ) (k : Plan) (modes : ListOf Mode) (es : Exps) (hs : ListOf How) (ps : ListOf Parameter) (ls : ListOf (ℕ × ℕ))
        → EnteringNames T again R cold k modes es hs ps ls → (inside : Renaming) × Entered again R k modes (operands T 0 es) hs ps ls inside }
{}

/// What the call's statements do with what it gives is what the plan says of the run's end: nothing, one value that is assigned or declared, or a
/// tuple of several; and what is declared again. Asked is what rx_engine_names says of names there.
pub fn calls_hand_over()
    ensures { (T : Assigned) (A : Asked) (muts : ListOf Bool) (k : Plan) (R Rb : Renaming) (os ys : ListOf ℕ) → HandedNames A muts k R Rb os ys → (e : Exp) (z : TypedExp) (ss ds : Statements)
        → HandsOver T A muts k R e (k.outs next) os ss → DeclaresAll ys ds → Rereads (value T e) z → StandsForRun T A muts k R Rb z ss ds (behind_call k R os ys) }
{}

/// The call alone, where the run's end is the only exit.
pub fn calls_stand_alone()
    ensures { (T : Assigned) (A : Asked) (muts : ListOf Bool) (k : Plan) (J : Jumping) (R : Renaming) (n : Node) (g : ℕ) (es : Exps) → k.exits ≡ next ∷ [] → KeepsItsType T n
        → Called T A muts k J R g es (named.call n g es) inner_jumps bare }
{}

/// The match of what it gives, where the run's end is one of the exits: each arm does what the plan says of its exit.
pub fn calls_are_matched()
    ensures { (T : Assigned) (A : Asked) (muts : ListOf Bool) (k : Plan) (R : Renaming) (unit : Bool) (J : Jumping) (m c : Node) (g : ℕ) (es : Exps) (l : Arms) → KeepsItsType T c → (v : ℕ) → OneToOne R
        → ((x y : ℕ) → sight_of R x ≡ SomeOf (sight y special) → In x (special_of A muts k)) → variant_for k next ≡ SomeOf v → ArmsFor T A muts k R unit false J 0 k.exits l
        → Called T A muts k J R g es (named.match m (named.call c g es) l) (jumps_of A muts k unit) (as_variant v) }
{}

/// The same where the run's end is none.
pub fn calls_are_left()
    ensures { (T : Assigned) (A : Asked) (muts : ListOf Bool) (k : Plan) (R : Renaming) (unit : Bool) (J : Jumping) (m c : Node) (g : ℕ) (es : Exps) (l : Arms) → KeepsItsType T c → OneToOne R
        → ((x y : ℕ) → sight_of R x ≡ SomeOf (sight y special) → In x (special_of A muts k)) → (Among next k.exits → ⊥) → ArmsFor T A muts k R unit false J 0 k.exits l
        → Called T A muts k J R g es (named.match m (named.call c g es) l) (jumps_of A muts k unit) no_way }
{}

/// The new function's end gives what is handed out, alone, as a tuple or in a variant, or it is the last of the run's statements.
pub fn new_functions_end_so()
    ensures { (T : Assigned) (items : ℕ → ℕ) (gain : Allowance) (U special : ListOf ℕ) (J : Jumping) (R : Renaming) (n : Node) (o : Else) (l : Last) (w : Way) (xs : ListOf ℕ)
        → EndsTo T items gain U special J R n o l w xs → EndedSo T items gain U special J R n o l w xs }
{}

/// All together: the new function is called where the run stood in its block.
pub fn calls_stand_for_runs()
    ensures { (A : Asked) (muts : ListOf Bool) (k : Plan) (modes : ListOf Mode) (items : ℕ → ℕ) (gain : Allowance) (U : ListOf ℕ) (J : Jumping) (R : Renaming) (r : Stretch) (l : Last) (Q : Answered)
        → (P : Asks A muts k modes items gain U J R r l Q) → Stands A muts k modes items gain U J R (behind_call k R P.received P.redeclared) r l Q }
{}

/// A run with its block's tail: the call alone.
pub fn tail_calls_stand_alone()
    ensures { (T : Assigned) (A : Asked) (muts : ListOf Bool) (k : Plan) (J : Jumping) (R : Renaming) (n : Node) (g : ℕ) (es : Exps) (has : Bool) → k.exits ≡ next ∷ [] → KeepsItsType T n
        → TailCalled T A muts k J R g es (named.call n g es) has inner_jumps bare }
{}

/// The match of what it gives, where the run's end is an exit.
pub fn tail_calls_are_matched()
    ensures { (T : Assigned) (A : Asked) (muts : ListOf Bool) (k : Plan) (R : Renaming) (unit : Bool) (J : Jumping) (m c : Node) (g : ℕ) (es : Exps) (l : Arms) → KeepsItsType T c → (has : Bool) (v : ℕ) → OneToOne R
        → ((x y : ℕ) → sight_of R x ≡ SomeOf (sight y special) → In x (special_of A muts k)) → variant_for k next ≡ SomeOf v → ArmsFor T A muts k R unit has J 0 k.exits l
        → TailCalled T A muts k J R g es (named.match m (named.call c g es) l) has (jumps_of A muts k unit) (as_variant v) }
{}

/// The same where it is none.
pub fn tail_calls_are_left()
    ensures { (T : Assigned) (A : Asked) (muts : ListOf Bool) (k : Plan) (R : Renaming) (unit : Bool) (J : Jumping) (m c : Node) (g : ℕ) (es : Exps) (l : Arms) → KeepsItsType T c → (has : Bool) → OneToOne R
        → ((x y : ℕ) → sight_of R x ≡ SomeOf (sight y special) → In x (special_of A muts k)) → (Among next k.exits → ⊥) → ArmsFor T A muts k R unit has J 0 k.exits l
        → TailCalled T A muts k J R g es (named.match m (named.call c g es) l) has (jumps_of A muts k unit) no_way }
{}

/// All together of such a run: its value is the block's, or the unit is.
pub fn calls_stand_for_tails()
    ensures { (A : Asked) (muts : ListOf Bool) (k : Plan) (modes : ListOf Mode) (items : ℕ → ℕ) (gain : Allowance) (U : ListOf ℕ) (J : Jumping) (R : Renaming) (r : Stretch) (l : Last) (e : TypedExp) (Q : Answered)
        → (P : AsksTail A muts k modes items gain U J R r l e Q) → StandsForTail A muts k modes items gain U J R r l Q P.place P.o P.F }
{}

/// A jump that leaves the run, and a return, is the return of a variant in the new function, with what its exit hands out.
pub fn jumps_are_returned()
    ensures { (T : Assigned) (items : ℕ → ℕ) (gain : Allowance) (U special : ListOf ℕ) (J : Jumping) (R : Renaming) (e : TypedExp) (f : Exp) → ReturnsFor T items gain U special J R e f → ReturnedSo T items gain U special J R e f }
{}
