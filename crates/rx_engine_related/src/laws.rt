//! Laws, each the contract of a function that does nothing.

ghost use Rattle.std.specs.Prelude.{◌≡◌, ◌⊎◌, ◌*◌, ℕ, ℤ, Bool, true, List as ListOf, Option as OptionOf, Some, slice_get};
ghost use Rattle.rx_typed.specs.Tree.{Function};
ghost use Rattle.rx_lower_walks.specs.Walks.{Among};
ghost use Rattle.rx_exits_plan.specs.Points.{Exit};
ghost use Rattle.rx_exits_plan.specs.Asked.{Asked};
ghost use Rattle.rx_exits_plan.specs.Plan.{Plan, IsPlan, foreign_of};
ghost use Rattle.rx_exits_plan.specs.MixedInit.{MixedInit};
ghost use Rattle.rx_exits_plan.specs.PartlyMoved.{PartlyMoved};
ghost use Rattle.rx_modes_policy.specs.declared.uses.Mode.{Mode};
ghost use Rattle.rx_modes_policy.specs.declared.uses.Uses.{Uses};
ghost use Rattle.rx_modes_uses.specs.Modes.{IsModes};
ghost use Rattle.rx_modes_uses.specs.NotMut.{NotMut};
ghost use Rattle.rx_meaning.specs.Values.{element};
ghost use Rattle.rx_meaning.specs.Programs.{Program, run, UpTo};
ghost use Rattle.rx_engine_simulation.specs.Openings.{no_openings};
ghost use Rattle.rx_engine_simulation.specs.Programs.{LikeEntry};
ghost use Rattle.rx_engine_simulation.specs.Marking.{without_turns};
ghost use Rattle.rx_engine_simulation.specs.Astray.{FindsReferences};
ghost use Rattle.rx_engine_related.specs.ByForm.{SameEntry, EachIsItself};
ghost use Rattle.rx_engine_related.specs.Had.{Had};
ghost use Rattle.rx_engine_related.specs.Extracts.{Extracts};
ghost use Rattle.rx_engine_related.specs.ExtractsTail.{HadTail, ExtractsTail};

/// A program whose typed trees stand to an accepted text's as those of an extraction do does what the text does, up to the turns, where it
/// follows nothing that is no reference: of a run without its block's tail, with whatever exits.
pub fn extracted_programs_run_alike()
    ensures answer { (A : Asked) (muts : ListOf Bool) (k : Plan) → Had A muts k → (modes : ListOf Mode) (P Q : Program) → Extracts A muts k modes P Q → EachIsItself P
        → (given : ListOf ℤ) (n : ℕ) → FindsReferences Q given n → UpTo (run Q given n) (run P given n) }
    ensures text { (A : Asked) (muts : ListOf Bool) (k : Plan) → Had A muts k → (modes : ListOf Mode) (P Q : Program) → Extracts A muts k modes P Q → EachIsItself P
        → (given : ListOf ℤ) (n : ℕ) → FindsReferences Q given (2 * n) → UpTo (run P given n) (run Q given (2 * n)) }
{}

/// So does one where the run has its block's tail, also that of its function's body: the tail's value is handed out with what is needed behind it, or
/// a unit is given again.
pub fn extracted_tails_run_alike()
    ensures answer { (A : Asked) (muts : ListOf Bool) (k : Plan) → HadTail A muts k → (modes : ListOf Mode) (P Q : Program) → ExtractsTail A muts k modes P Q → EachIsItself P
        → (given : ListOf ℤ) (n : ℕ) → FindsReferences Q given n → UpTo (run Q given n) (run P given n) }
    ensures text { (A : Asked) (muts : ListOf Bool) (k : Plan) → HadTail A muts k → (modes : ListOf Mode) (P Q : Program) → ExtractsTail A muts k modes P Q → EachIsItself P
        → (given : ListOf ℤ) (n : ℕ) → FindsReferences Q given (2 * n) → UpTo (run P given n) (run Q given (2 * n)) }
{}

/// Items that are alike without an opening, as those that stay are, are the same by their form, whichever variables may be elsewhere; so where
/// each item of a program is like itself, each is itself.
pub fn alike_items_are_the_same()
    ensures same { (items : ℕ → ℕ) (o p : OptionOf (OptionOf Function)) → LikeEntry items no_openings without_turns o p → SameEntry items o p }
    ensures itself { (P : Program) → ((f : ℕ) → LikeEntry (λ f. f) no_openings without_turns (element P.functions f) (element P.functions f)) → EachIsItself P }
{}

/// What an exit hands out and the run does not declare is declared `mut`, or a local, so it may be assigned in the caller: of a run that is
/// refused for no variable, each param having a mode.
pub fn outs_may_be_assigned()
    ensures with_modes { (A : Asked) (muts : ListOf Bool) (k : Plan) → IsPlan A k → (e : Exit) → Among e k.exits → (x : ℕ) → Among x (k.outs e) → Among x (foreign_of A)
        → ¬ (MixedInit A x) → ¬ (PartlyMoved A k x) → (choice : Uses → Mode) (ms : ListOf Mode) → IsModes A muts k choice ms → (slice_get muts x ≡ Some true) ⊎ Among x k.locals }
    ensures unrefused { (A : Asked) (muts : ListOf Bool) (k : Plan) → IsPlan A k → (e : Exit) → Among e k.exits → (x : ℕ) → Among x (k.outs e) → Among x (foreign_of A)
        → ¬ (MixedInit A x) → ¬ (PartlyMoved A k x) → ((y : ℕ) → ¬ (NotMut A muts k y)) → (slice_get muts x ≡ Some true) ⊎ Among x k.locals }
{}
