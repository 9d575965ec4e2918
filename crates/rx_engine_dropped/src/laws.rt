//! Laws, each the contract of a function that does nothing.

ghost use Rattle.std.specs.Prelude.{◌≡◌, ℕ, ℤ, Bool, List as ListOf, Some, slice_get};
ghost use Rattle.rx_typed.specs.Types.{Declarations, unit_shape, result_declared};
ghost use Rattle.rx_typed.specs.Tree.{Function};
ghost use Rattle.rx_exits_plan.specs.Asked.{Asked};
ghost use Rattle.rx_exits_plan.specs.Plan.{Plan};
ghost use Rattle.rx_modes_policy.specs.declared.uses.Mode.{Mode};
ghost use Rattle.rx_meaning.specs.Acting.{plainly};
ghost use Rattle.rx_meaning.specs.Programs.{Program, run_by};
ghost use Rattle.rx_meaning_keeping.specs.Formed.{Any, AllFormed};
ghost use Rattle.rx_meaning_typed.specs.TypedActs.{Typing};
ghost use Rattle.rx_meaning_typed.specs.TypedFunctions.{ProgramTyped};
ghost use Rattle.rx_engine_simulation.specs.Turns.{Allowance};
ghost use Rattle.rx_engine_simulation.specs.Passing.{New};
ghost use Rattle.rx_engine_simulation.specs.Rereads.{Rereads};
ghost use Rattle.rx_engine_related.specs.AboutRun.{special_of};
ghost use Rattle.rx_engine_related.specs.ByForm.{RelatedFunction};
ghost use Rattle.rx_engine_related.specs.ExtractsTail.{in_its_tail_block};
ghost use Rattle.rx_engine_related.specs.Tails.{the_tail_call};
ghost use Rattle.rx_engine_dropped.specs.Undrops.{UndropsFunction, UndropsProgram};
ghost use Rattle.rx_engine_dropped.specs.DropBlock.{in_its_drop_block};

/// A program whose functions act by their types, and that drops what calls of a function of the unit's type give, in front of a block's unit, runs as
/// the one in which the block gives it: each run is the same, whatever it prints, gives and ends with.
pub fn dropped_units_change_no_run()
    ensures { (N : ℕ) (D : Declarations) (Ts : ℕ → Typing) (P : Program) → ProgramTyped D Ts P.functions → result_declared (slice_get D N) ≡ Some unit_shape → AllFormed P.functions (λ f. Any)
        → (Q : Program) → UndropsProgram N P Q → (given : ListOf ℤ) (n : ℕ) → run_by plainly Q given n ≡ run_by plainly P given n }
{}

/// Where what is read of an answer's function is related to the text's, but for the block that drops what the call gives, there is a function whose
/// block gives it, and what is read of that is related to the text's as an extraction's is.
pub fn functions_that_drop_are_related()
    ensures { (N : ℕ) (A : Asked) (muts : ListOf Bool) (k : Plan) (modes : ListOf Mode) (items : ℕ → ℕ) (gain : Allowance) (units : ListOf ℕ) (new : New) (g g' z : Function) → g'.params ≡ z.params → Rereads g'.body z.body
        → RelatedFunction items (in_its_drop_block N A muts k items (the_tail_call A muts k modes items gain units new) gain) gain (special_of A muts k) g z
        → (g1 : Function) × (z1 : Function) × UndropsFunction N g' g1 × (g1.params ≡ z1.params) × Rereads g1.body z1.body × RelatedFunction items (in_its_tail_block A muts k items (the_tail_call A muts k modes items gain units new) gain) gain (special_of A muts k) g z1 }
{}
