//! Laws of runs, each the contract of a function that does nothing.

ghost use Rattle.std.specs.Prelude.{◌≡◌, ◌<◌, ℕ, ℤ, List as ListOf};
ghost use Rattle.rx_typed.specs.Tree.{Exp};
ghost use Rattle.rx_meaning.specs.Values.{State};
ghost use Rattle.rx_meaning.specs.Expressions.{Functions};
ghost use Rattle.rx_meaning.specs.Programs as meaning;
ghost use Rattle.rx_machine_running.specs.Running as running;

/// A run that is told without temporaries and ends of variables is the run of the meaning.
#[tactic(auto, using(crate::proofs::Runs::run_is))]
pub fn running_is_the_meaning()
    ensures { (P : meaning.Program) (given : ListOf ℤ) (n : ℕ) → meaning.run P given n ≡ running.run P given n }
{}

/// Where fewer turns are left than may be nested, an expression is what it is by the level itself.
#[tactic(auto, using(crate::proofs::Runs::at_a_turn))]
pub fn level_serves_itself()
    ensures { (P : Functions) (n : ℕ) (e : Exp) (s : State) → s.turns < n
        → running.level P n e s ≡ running.value P (running.level P n) e s }
{}
