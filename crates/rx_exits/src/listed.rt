//! Lists of variables.

ghost use Rattle.std.specs.Prelude.{◌≡◌, ◌&&◌, ◌||◌};
ghost use Rattle.rx_exits_plan.specs.Occurrences.{has_number};
ghost use Rattle.rx_exits.specs.Choosing.{outs_among};

use rx_exits_plan::ExitOuts;

/// Whether a variable is listed.
pub(crate) fn is_listed(variable: u32, all: &[u32]) -> bool
    ensures { result ≡ has_number variable all.now }
{
    for other in all {
        if variable == *other {
            return true;
        }
    }
    false
}

/// Whether a variable is in one of two lists.
pub(crate) fn is_in_either(variable: u32, one: &[u32], other: &[u32]) -> bool
    ensures { result ≡ has_number variable one.now || has_number variable other.now }
{
    if is_listed(variable, one) {
        true
    } else {
        is_listed(variable, other)
    }
}

/// Whether a variable is in both lists.
pub(crate) fn is_in_both(variable: u32, one: &[u32], other: &[u32]) -> bool
    ensures { result ≡ has_number variable one.now && has_number variable other.now }
{
    if is_listed(variable, one) {
        is_listed(variable, other)
    } else {
        false
    }
}

/// Whether some exit hands a variable out.
pub(crate) fn is_out(exits: &[ExitOuts], variable: u32) -> bool
    ensures { result ≡ outs_among exits.now variable }
{
    for each in exits {
        if is_listed(variable, each.outs.as_slice()) {
            return true;
        }
    }
    false
}
