//! Laws of uses and modes, each the contract of a function that does nothing.

ghost use Rattle.std.specs.Prelude.{◌≡◌, ◌⊎◌, ℕ, Bool, true, List as ListOf};
ghost use Rattle.rx_lower_walks.specs.Walks.{Among};
ghost use Rattle.rx_exits_plan.specs.Points.{enters};
ghost use Rattle.rx_exits_plan.specs.Asked.{Asked};
ghost use Rattle.rx_exits_plan.specs.Plan.{Plan, IsPlan, is_moved};
ghost use Rattle.rx_exits_plan.specs.Unreachable.{SomeComes};
ghost use Rattle.rx_modes_policy.specs.declared.uses.Mode.{Mode};
ghost use Rattle.rx_modes_policy.specs.declared.uses.Mode.TheVariants as mode;
ghost use Rattle.rx_modes_policy.specs.declared.uses.Uses.{Uses};
ghost use Rattle.rx_modes_policy.specs.Allowed.{allowed_by, IsMember, HasMember};
ghost use Rattle.rx_modes_uses.specs.Uses.{IsUses};
ghost use Rattle.rx_modes_uses.specs.Modes.{PassedIn, Each, IsModes};
ghost use Rattle.rx_modes_uses.specs.NotMut.{NotMut};
ghost use Rattle.rx_modes_uses.specs.Aliased.{Aliased};

/// Two uses of one variable are equal, whichever plan of the run they are told by.
pub fn uses_are_one()
    ensures of_a_plan { (A : Asked) (muts : ListOf Bool) (k : Plan) (x : ℕ) (u v : Uses) → IsUses A muts k x u → IsUses A muts k x v → u ≡ v }
    ensures of_a_run { (A : Asked) (muts : ListOf Bool) (k m : Plan) (x : ℕ) (u v : Uses) → IsPlan A k → IsPlan A m → IsUses A muts k x u → IsUses A muts m x v → u ≡ v }
{}

/// A policy has one list of modes for a run.
pub fn modes_are_one()
    ensures of_a_plan { (A : Asked) (muts : ListOf Bool) (k : Plan) (choice : Uses → Mode) (ms ns : ListOf Mode) → IsModes A muts k choice ms → IsModes A muts k choice ns → ms ≡ ns }
    ensures of_a_run { (A : Asked) (muts : ListOf Bool) (k m : Plan) (choice : Uses → Mode) (ms ns : ListOf Mode) → IsPlan A k → IsPlan A m
        → IsModes A muts k choice ms → IsModes A muts m choice ns → ms ≡ ns }
{}

/// Where a policy chooses allowed modes, each param is passed in one that its uses allow.
pub fn modes_are_allowed()
    ensures { (A : Asked) (muts : ListOf Bool) (k : Plan) (choice : Uses → Mode) (ms : ListOf Mode)
        → ((u : Uses) → HasMember (allowed_by u) → IsMember (choice u) (allowed_by u)) → IsModes A muts k choice ms
        → Each (λ x m. (u : Uses) × IsUses A muts k x u × IsMember m (allowed_by u)) k.params ms }
{}

/// A run of which some param has no mode has none of any policy.
pub fn refused_runs_have_no_modes()
    ensures { (A : Asked) (muts : ListOf Bool) (k : Plan) (choice : Uses → Mode) (x : ℕ) (ms : ListOf Mode) → NotMut A muts k x → ¬ (IsModes A muts k choice ms) }
{}

/// Where the uses of each param are told, a policy has modes for the run, or there is a first param without a mode.
pub fn modes_or_a_refusal()
    ensures { (A : Asked) (muts : ListOf Bool) (k : Plan) (choice : Uses → Mode) → ((x : ℕ) → Among x k.params → (u : Uses) × IsUses A muts k x u)
        → ((ms : ListOf Mode) × IsModes A muts k choice ms) ⊎ ((x : ℕ) × NotMut A muts k x) }
{}

/// Each refusal names one variable.
pub fn refusals_name_one()
    ensures not_mut { (A : Asked) (muts : ListOf Bool) (k : Plan) (x y : ℕ) → NotMut A muts k x → NotMut A muts k y → x ≡ y }
    ensures aliased { (A : Asked) (muts : ListOf Bool) (k : Plan) (x y : ℕ) → Aliased A muts k x → Aliased A muts k y → x ≡ y }
{}

/// What uses say of moves is what the plan hands out by.
pub fn what_is_moved_is_one()
    ensures { (A : Asked) (muts : ListOf Bool) (k : Plan) (x : ℕ) (u : Uses) → IsUses A muts k x u → u.moved ≡ is_moved A x }
{}

/// A param that the run moves is passed by value.
pub fn moved_params_are_values()
    ensures { (A : Asked) (muts : ListOf Bool) (k : Plan) (choice : Uses → Mode) (x : ℕ) (m : Mode)
        → ((u : Uses) → HasMember (allowed_by u) → IsMember (choice u) (allowed_by u)) → PassedIn A muts k choice x m → is_moved A x ≡ true → m ≡ mode.Value }
{}

/// A param of a run that is entered is set where it is.
pub fn params_are_set()
    ensures { (A : Asked) (muts : ListOf Bool) (k : Plan) (x : ℕ) (u : Uses) → IsPlan A k → Among x k.params → SomeComes A enters → IsUses A muts k x u → u.set_in ≡ true }
{}
