//! Laws, each the contract of a function that does nothing.

ghost use Rattle.std.specs.Prelude.{◌≡◌, ℕ, Bool, List as ListOf, [], ◌∷◌, None};
ghost use Rattle.rx_typed.specs.Tree.{Temporary, Place, Parameter, Exp, Body, Function};
ghost use Rattle.rx_typed_declarations.specs.Sizes.{Sized};
ghost use Rattle.rx_lower_walks.specs.Matching.{Check, PartTest, Binding};
ghost use Rattle.rx_lower_walks.specs.Actions.{Read, Write, Borrow, Test, Subject};
ghost use Rattle.rx_lower_walks.specs.Orders.{order, order_body, order_function};
ghost use Rattle.rx_facts_tables.specs.Initialised.{Initialised};
ghost use Rattle.rx_exits_plan.specs.Asked.{Asked};
ghost use Rattle.rx_exits_plan.specs.Plan.{Plan};
ghost use Rattle.rx_exits_plan.specs.Bound.{variables_of_params};
ghost use Rattle.rx_modes_policy.specs.declared.uses.Mode.{Mode};
ghost use Rattle.rx_engine_simulation.specs.Turns.{Allowance};
ghost use Rattle.rx_engine_simulation.specs.Jumps.{Jumping};
ghost use Rattle.rx_engine_simulation.specs.Openings.{no_openings};
ghost use Rattle.rx_engine_simulation.specs.Passing.{New};
ghost use Rattle.rx_engine_simulation.specs.Like.{LikeExp};
ghost use Rattle.rx_engine_simulation.specs.Sights.{How, sight, Renaming, sight_of, IsNew};
ghost use Rattle.rx_engine_simulation.specs.Places.{Use, IsDirect, LikePlace};
ghost use Rattle.rx_engine_simulation.specs.Binders.{LikeDeclared, LikeParams, LikeBindings, LikeTests};
ghost use Rattle.rx_engine_related.specs.ByForm.{by_form};
ghost use Rattle.rx_engine_related.specs.Leaving.{left};
ghost use Rattle.rx_engine_related.specs.Standing.{the_call};
ghost use Rattle.rx_engine_initial.specs.Matching.{Matches};
ghost use Rattle.rx_engine_initial.specs.Variables.{as_itself, Sides, LikeVariable, KnownVariables};
ghost use Rattle.rx_engine_initial.specs.Copies.{IsCopy, world};
ghost use Rattle.rx_engine_initial.specs.Entered.{OneMore};
ghost use Rattle.rx_engine_initial_forms.specs.Binders.{AlikeDeclared, AlikeParams, AlikeBindings, AlikeTests};
ghost use Rattle.rx_engine_initial_forms.specs.Agreeing.{Agrees, MovesSo, AllLike, BindingsSo};
ghost use Rattle.rx_engine_initial_forms.specs.Following.{AgreesOnLoops, ExpSo};
ghost use Rattle.rx_engine_initial_forms.specs.Alike.{AlikeExp, AlikeBody, AlikeFunction};

/// The orders of expressions, bodies and functions that are alike match, whichever nodes and temporaries they have.
pub fn alike_trees_match()
    ensures expressions { (S : Sides) (R : KnownVariables S) (e f : Exp) → AlikeExp S R e f → (d t : Temporary) → Matches (world S) R (order e d) (order f t) }
    ensures bodies { (S : Sides) (R : KnownVariables S) (b c : Body) → AlikeBody S R b c → (m n : ℕ) (d t : Temporary) → Matches (world S) R (order_body b m d) (order_body c n t) }
    ensures functions { (S : Sides) (f : Function) (h : AlikeFunction S f) → Matches (world S) h.outside (order_function f) (order_function S.text) }
{}

/// So a function that is like one that is initialised is initialised, where its openings match.
pub fn alike_functions_are_initialised()
    ensures { (S : Sides) → Sized S.frame.declared S.frame.sizes → Sized S.frame_there.declared S.frame_there.sizes → Initialised S.frame_there S.muts_there S.text
        → (f : Function) → AlikeFunction S f → Initialised S.frame S.muts f }
{}

/// Where what is in scope agrees with how the answer has the text's variables, actions at places that are alike are copies.
pub fn alike_places_are_copies()
    ensures reads { (S : Sides) (N : Renaming) (R : KnownVariables S) → Agrees S N R → (u : Use) (p q : Place) (l : LikePlace N u p q) (v z : Bool) → MovesSo l v z → (d t : Temporary)
        → IsCopy R.variables (Read z q d) (Read v p t) }
    ensures borrows { (S : Sides) (N : Renaming) (R : KnownVariables S) → Agrees S N R → (u : Use) (p q : Place) → LikePlace N u p q → (v z : Bool) (d t : Temporary)
        → IsCopy R.variables (Borrow z q d) (Borrow v p t) }
    ensures tests { (S : Sides) (N : Renaming) (R : KnownVariables S) → Agrees S N R → (u : Use) (p q : Place) → LikePlace N u p q → (c e : Check)
        → IsCopy R.variables (Test q c) (Test p e) }
    ensures writes { (S : Sides) (N : Renaming) (R : KnownVariables S) → Agrees S N R → (u : Use) (p q : Place) → LikePlace N u p q → (d t : Temporary)
        → IsCopy R.variables (Write q d []) (Write p t []) }
{}

/// Where a variable begins in both, of the text's type, and is of neither before, scopes agree still.
pub fn scopes_grow_alike()
    ensures { (S : Sides) (N : Renaming) (R : KnownVariables S) → Agrees S N R → (x y : ℕ) (w : How) → IsDirect w → sight_of N x ≡ None → IsNew N y → LikeVariable S y x
        → (T : KnownVariables S) × OneMore S R T (as_itself y x) × Agrees S ((x, sight y w) ∷ N) T }
{}

/// So what is declared, what a function is given, and what a pattern binds and tests, where the relation of trees has it as alike: it is alike here, and scopes agree behind it.
pub fn binders_are_alike()
    ensures declared { (S : Sides) (special : ListOf ℕ) (N M : Renaming) (xs ys : ListOf ℕ) → LikeDeclared (by_form special) N xs ys M → AllLike S xs ys → (R : KnownVariables S) → Agrees S N R
        → (T : KnownVariables S) × AlikeDeclared S R ys xs T × Agrees S M T }
    ensures params { (S : Sides) (special : ListOf ℕ) (N M : Renaming) (ps qs : ListOf Parameter) → LikeParams (by_form special) N ps qs M
        → AllLike S (variables_of_params ps) (variables_of_params qs) → (R : KnownVariables S) → Agrees S N R → (T : KnownVariables S) × AlikeParams S R qs ps T × Agrees S M T }
    ensures bindings { (S : Sides) (special : ListOf ℕ) (X Y : Subject) (N M : Renaming) (bs cs : ListOf Binding) (l : LikeBindings (by_form special) X Y N bs cs M) → BindingsSo S l
        → (R : KnownVariables S) → Agrees S N R → (T : KnownVariables S) × AlikeBindings S Y X R cs bs T × Agrees S M T }
    ensures tests { (S : Sides) (X Y : Subject) (N : Renaming) (ts us : ListOf PartTest) → LikeTests N X Y ts us → (R : KnownVariables S) → Agrees S N R
        → AlikeTests R.variables Y X us ts }
{}

/// So are trees that the relation of trees has as alike, where what is asked besides holds along them: in a function that stays as it is, in one
/// whose run became a call, and in the statements of a run in the new function.
pub fn related_trees_are_alike()
    ensures same { (S : Sides) (items : ℕ → ℕ) (gain : Allowance) (special : ListOf ℕ) (i : ℕ) (J : Jumping) (N : Renaming) (e f : Exp) (l : LikeExp items no_openings gain (by_form special) i J N e f)
        → ExpSo S l → (R : KnownVariables S) → Agrees S N R → AgreesOnLoops S J R → AlikeExp S R f e }
    ensures with_call { (S : Sides) (A : Asked) (muts : ListOf Bool) (k : Plan) (modes : ListOf Mode) (U : ListOf ℕ) (F : New) (items : ℕ → ℕ) (gain : Allowance) (special : ListOf ℕ)
        (i : ℕ) (J : Jumping) (N : Renaming) (e f : Exp) (l : LikeExp items (the_call A muts k modes items gain U F) gain (by_form special) i J N e f)
        → ExpSo S l → (R : KnownVariables S) → Agrees S N R → AgreesOnLoops S J R → AlikeExp S R f e }
    ensures moved { (S : Sides) (U : ListOf ℕ) (items : ℕ → ℕ) (gain : Allowance) (special : ListOf ℕ) (i : ℕ) (J : Jumping) (N : Renaming) (e f : Exp)
        (l : LikeExp items (left U) gain (by_form special) i J N e f) → ExpSo S l → (R : KnownVariables S) → Agrees S N R → AgreesOnLoops S J R → AlikeExp S R f e }
{}
