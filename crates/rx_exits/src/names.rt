//! What the names of variables mean at a place.

ghost use Rattle.std.specs.Prelude.{◌≡◌, ◌≢◌, Some, slice_get};
ghost use Rattle.std.specs.Option.{option_copied};
ghost use Rattle.rx_exits_plan.specs.Shadowed as plan;
ghost use Rattle.rx_exits.specs.Refusing as refusing;
ghost use Rattle.rx_exits.specs.Reaching.{Tells};

use rx_core::{Name, is_same_name};

/// The name of a variable.
fn name_at(names: &[Name], variable: u32) -> Option<&Name>
    ensures { option_copied result ≡ slice_get names.now variable }
{
    names.get(variable as usize)
}

/// Whether a variable has this name.
fn has_name(names: &[Name], variable: u32, name: &Name) -> bool
    ensures { result ≡ refusing.same_names (Some name.now) (slice_get names.now variable) }
{
    match name_at(names, variable) {
        Some(other) => is_same_name(name, other),
        None => false,
    }
}

/// Whether two variables have one name.
fn is_same(names: &[Name], one: u32, other: u32) -> bool
    ensures { result ≡ refusing.same_name names.now one other }
{
    match name_at(names, one) {
        Some(name) => has_name(names, other, name),
        None => false,
    }
}

/// The variable that a variable's name means, by the variables in scope, the last declared first.
fn meant(names: &[Name], variable: u32, scope: &[u32]) -> Option<u32>
    ensures { result ≡ plan.meant (refusing.same_name names.now) variable scope.now }
{
    for other in scope {
        if is_same(names, *other, variable) {
            return Some(*other);
        }
    }
    None
}

/// Whether a variable's name means another one, or none.
pub(crate) fn is_other(names: &[Name], variable: u32, scope: &[u32]) -> bool
    ensures { Tells result (plan.meant (refusing.same_name names.now) variable scope.now ≢ Some variable) }
{
    match meant(names, variable, scope) {
        Some(found) => { if found == variable { false } else { true } }
        None => true,
    }
}
