//! Laws of what is given away, each the contract of a function that does nothing.

ghost use Rattle.std.specs.Prelude.{◌≡◌, ◌⊎◌, ℕ, Bool, true, false, not, ◌&&◌, ◌||◌, List as ListOf};
ghost use Rattle.rx_lower_walks.specs.Walks.{Among};
ghost use Rattle.rx_exits_plan.specs.Asked.{Asked};
ghost use Rattle.rx_exits_plan.specs.Plan.{Plan, is_moved};
ghost use Rattle.rx_modes_policy.specs.declared.uses.Mode.{Mode};
ghost use Rattle.rx_modes_policy.specs.declared.uses.Mode.TheVariants as mode;
ghost use Rattle.rx_modes_policy.specs.declared.uses.Uses.{Uses};
ghost use Rattle.rx_modes_policy.specs.Allowed.{allowed_by, IsMember, HasMember};
ghost use Rattle.rx_modes_uses.specs.Uses.{IsLiveOut, IsUses};
ghost use Rattle.rx_modes_uses.specs.NotMut.{NotMut};
ghost use Rattle.rx_modes_given.specs.GivenAway.{is_given_away};

/// The uses of a variable tell whether it is given away.
pub fn uses_tell_what_is_given_away()
    ensures { (A : Asked) (muts : ListOf Bool) (k : Plan) (x : ℕ) (u : Uses) → IsUses A muts k x u → is_given_away A muts x ≡ (u.moved || (u.through && not (u.mut_ref || u.declared_mut))) }
{}

/// What is given away is passed by value, where it is passed at all.
pub fn what_is_given_away_is_passed_by_value()
    ensures { (A : Asked) (muts : ListOf Bool) (k : Plan) (x : ℕ) (u : Uses) (m : Mode) → IsUses A muts k x u → is_given_away A muts x ≡ true → IsMember m (allowed_by u) → m ≡ mode.Value }
{}

/// What is passed by value is given away, or of a type that is Copy.
pub fn values_are_given_away_or_copied()
    ensures { (A : Asked) (muts : ListOf Bool) (k : Plan) (x : ℕ) (u : Uses) → IsUses A muts k x u → IsMember mode.Value (allowed_by u) → (is_given_away A muts x ≡ true) ⊎ (u.copy ≡ true) }
{}

/// What is given away and not moved is needed at no exit, where it is passed at all; so of a run that is refused for no param.
pub fn what_is_given_away_is_not_needed()
    ensures passed { (A : Asked) (muts : ListOf Bool) (k : Plan) (x : ℕ) (u : Uses) → IsUses A muts k x u → is_given_away A muts x ≡ true → is_moved A x ≡ false → HasMember (allowed_by u) → ¬ (IsLiveOut A k x) }
    ensures unrefused { (A : Asked) (muts : ListOf Bool) (k : Plan) → ((y : ℕ) → ¬ (NotMut A muts k y)) → (x : ℕ) → Among x k.params → is_given_away A muts x ≡ true → is_moved A x ≡ false
        → ¬ (IsLiveOut A k x) }
{}
