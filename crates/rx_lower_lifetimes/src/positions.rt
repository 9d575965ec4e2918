//! How many lifetime positions a function has.

ghost use Rattle.std.specs.Prelude.{◌≡◌, ◌+◌, map};
ghost use Rattle.rx_typed.specs.Numbers.{capped};
ghost use Rattle.rx_lower_lifetimes.specs.Positions as spec;
ghost use Rattle.rx_lower_lifetimes.specs.PlainOf.{plain-Open, plain-Held};

use crate::held::{Held, Open};
use rx_typed::count;

/// A number and the lifetimes in the types of variables, or the greatest number.
pub fn count_variables(before: u64, variables: &[Open]) -> u64
    ensures { result ≡ capped (before + spec.in_variables (map plain-Open variables.now)) }
{
    let mut total = before;
    for one in variables {
        total = count(total, &one.ty);
    }
    total
}

/// A number and those in the types of temporaries.
pub fn count_held(before: u64, held: &[Held]) -> u64
    ensures { result ≡ capped (before + spec.in_held (map plain-Held held.now)) }
{
    let mut total = before;
    for one in held {
        total = count(total, &one.ty);
    }
    total
}
