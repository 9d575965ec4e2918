//! Laws of runs side by side, each the contract of a function that does nothing.

ghost use Rattle.std.specs.Prelude.{◌≡◌, ◌*◌, ℕ, ℤ, true, ◌∷◌, ◌⊎◌, List as ListOf};
ghost use Rattle.rx_typed.specs.Tree.{Mark, Exp, Body, Function, temporary_of};
ghost use Rattle.rx_lower_walks.specs.Actions.{Give, Action, at_mark};
ghost use Rattle.rx_exits_plan.specs.Points.{Point};
ghost use Rattle.rx_exits_plan.specs.Marked.{shown};
ghost use Rattle.rx_meaning.specs.Programs.{Program, run, ending, UpTo};
ghost use Rattle.rx_engine_simulation.specs.Programs.{About, IsHistory, Renamed, Untouched, facts_of};
ghost use Rattle.rx_engine_simulation.specs.Passing.{New};
ghost use Rattle.rx_engine_simulation.specs.Called.{WithCall};
ghost use Rattle.rx_engine_simulation.specs.Marked.{Marked};
ghost use Rattle.rx_engine_simulation.specs.Marking.{MarkedTrees};
ghost use Rattle.rx_engine_simulation.specs.Blocks.{Stretch, before};
ghost use Rattle.rx_engine_simulation.specs.Arrivals.{to_rest, Arrives};
ghost use Rattle.rx_engine_simulation.specs.Marks.{closed_by};
ghost use Rattle.rx_engine_simulation.specs.Endings.{a_marked, an_end, with_last, aim_of};
ghost use Rattle.rx_engine_simulation.specs.Variants.{at_marked};
ghost use Rattle.rx_engine_simulation.specs.Astray.{WentAstray, OrAstray, FindsReferences};
ghost use Rattle.rx_engine_simulation.specs.Rereads.{RereadsProgram};

/// A program that is the text but for the numbers of nodes, items, loops and variables has the text's runs.
pub fn renamed_programs_run_alike()
    ensures { (P Q : Program) → Renamed P Q → (given : ListOf ℤ) (n : ℕ) → run Q given n ≡ run P given n }
{}

/// A program in which calls of a new function stand for expressions or statements of the text does what the text does, with as many
/// turns up to where it is cut off; and the text is up to it with twice as many. Variables move into the function, are copied or lent;
/// values of some are handed back, and a jump out of the statements is a variant of the result. Where the call asks again for the
/// reference in a variable, this is so unless the value there is no reference: then the answer is Wrong for that, having printed what the
/// text begins with.
pub fn calls_run_as_what_they_stand_for()
    ensures answer { (P Q : Program) (N : New) (w : WithCall P Q N) → (given : ListOf ℤ) (n : ℕ)
        → OrAstray w.strays P Q given n n (UpTo (run Q given n) (run P given n)) }
    ensures text { (P Q : Program) (N : New) (w : WithCall P Q N) → (given : ListOf ℤ) (n : ℕ)
        → OrAstray w.strays P Q given n (2 * n) (UpTo (run P given n) (run Q given (2 * n))) }
{}

/// A program runs as the one in which the references that variables hold are read where it asks for them again, as a coercion does;
/// wherever they lead, unless a value there is no reference: then it is Wrong for that, having printed what the other begins with.
pub fn reborrows_run_as_reads()
    ensures { (P Q : Program) → RereadsProgram P Q → (given : ListOf ℤ) (n : ℕ)
        → ((run P given n ≡ run Q given n) × (ending P given n ≡ ending Q given n)) ⊎ WentAstray true (run P given n) (run Q given n) (ending P given n) }
{}

/// So where the answer follows nothing that is no reference, on an input and with these turns, text and answer do the same up to the
/// turns, Wrong or not: the answer has calls of a new function for expressions or statements of the text, if the references that it asks
/// for again are read.
pub fn runs_with_references_are_alike()
    ensures answer { (P Q M : Program) (N : New) → WithCall P M N → RereadsProgram Q M → (given : ListOf ℤ) (n : ℕ) → FindsReferences Q given n
        → UpTo (run Q given n) (run P given n) }
    ensures text { (P Q M : Program) (N : New) → WithCall P M N → RereadsProgram Q M → (given : ListOf ℤ) (n : ℕ) → FindsReferences Q given (2 * n)
        → UpTo (run P given n) (run Q given (2 * n)) }
{}

/// A text with marks at the points of runs, and reads where runs are entered, of variables that were written there, has the text's runs.
pub fn marked_programs_run_alike()
    ensures { (T P : Program) → Marked T P → (given : ListOf ℤ) (n : ℕ) → run T given n ≡ run P given n }
{}

/// A program with marks in its trees, and reads behind them of what was written there, is such a text of the program without them, if each
/// function of this is like itself, without variables that are elsewhere.
pub fn marked_trees_are_marked()
    ensures { (P T : Program) → MarkedTrees P T → Marked T P }
{}

/// So where calls of a new function stand for expressions or statements of a text with marks, the answer does what the text without them does,
/// up to the turns; or the answer goes astray.
pub fn marked_calls_run_as_the_text()
    ensures answer { (P T Q : Program) (N : New) → Marked T P → (w : WithCall T Q N) → (given : ListOf ℤ) (n : ℕ)
        → OrAstray w.strays T Q given n n (UpTo (run Q given n) (run P given n)) }
    ensures text { (P T Q : Program) (N : New) → Marked T P → (w : WithCall T Q N) → (given : ListOf ℤ) (n : ℕ)
        → OrAstray w.strays T Q given n (2 * n) (UpTo (run P given n) (run Q given (2 * n))) }
    ensures found_answer { (P T Q M : Program) (N : New) → Marked T P → WithCall T M N → RereadsProgram Q M → (given : ListOf ℤ) (n : ℕ) → FindsReferences Q given n
        → UpTo (run Q given n) (run P given n) }
    ensures found_text { (P T Q M : Program) (N : New) → Marked T P → WithCall T M N → RereadsProgram Q M → (given : ListOf ℤ) (n : ℕ) → FindsReferences Q given (2 * n)
        → UpTo (run P given n) (run Q given (2 * n)) }
{}

/// Where a history arrives behind a mark of the text (behind statements, behind a last one, or in front of a jump), or behind what the
/// function gives at its end, that is its newest action.
pub fn marks_tell_where_a_run_is_left()
    ensures statements { (g : Function) (K : About) (u : Untouched g K) (r : Stretch) (p : Point) (rest : Body) (h : ListOf Action)
        → Arrives (facts_of g K u) (to_rest (before (closed_by r p) rest) (closed_by r p)) h → (h0 : ListOf Action) × (h ≡ shown p ∷ h0) × IsHistory g h }
    ensures last { (g : Function) (K : About) (u : Untouched g K) (r : Stretch) (e : Exp) (p : Point) (rest : Body) (h : ListOf Action)
        → Arrives (facts_of g K u) (aim_of (a_marked e p) (before r (with_last (a_marked e p) rest)) r) h → (h0 : ListOf Action) × (h ≡ shown p ∷ h0) × IsHistory g h }
    ensures end { (g : Function) (K : About) (u : Untouched g K) (r : Stretch) (m : Mark) (e : Exp) (rest : Body) (h : ListOf Action)
        → Arrives (facts_of g K u) (aim_of (an_end m e) (before r (with_last (an_end m e) rest)) r) h → (h0 : ListOf Action) × (h ≡ at_mark m (Give (temporary_of e)) ∷ h0) × IsHistory g h }
    ensures jump { (g : Function) (K : About) (u : Untouched g K) (q : Point) (e : Exp) (h : ListOf Action)
        → Arrives (facts_of g K u) (at_marked q e) h → (h0 : ListOf Action) × (h ≡ shown q ∷ h0) × IsHistory g h }
{}
