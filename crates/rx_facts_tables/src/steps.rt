//! Ways to places.

ghost use Rattle.std.specs.Prelude.{◌≡◌};
ghost use Rattle.rx_lower_walks.specs.PlainFlow.{plain-Root};
ghost use Rattle.rx_facts_tables.specs.Setting as setting;
ghost use Rattle.rx_facts_tables.specs.Wholes as wholes;

use rx_core::Step;
use rx_lower_walks::{Root, is_front};

/// Whether a place is behind a dereference.
pub fn is_behind(steps: &[Step]) -> bool
    ensures { result ≡ setting.is_behind steps.now }
{
    for step in steps {
        match *step {
            Step::Deref(_) => return true,
            Step::Field(_) | Step::Variant(_) => (),
        }
    }
    false
}

/// Whether what a way leads to holds what the other does as a part, and is behind no dereference.
pub fn holds_in(front: &[Step], steps: &[Step]) -> bool
    ensures { result ≡ wholes.holds_in front.now steps.now }
{
    is_front(front, steps) && !is_front(steps, front) && !is_behind(front)
}

pub fn is_variable(root: Root, variable: u32) -> bool
    ensures { result ≡ wholes.is_variable (plain-Root root) variable }
{
    match root {
        Root::Variable(x) => x == variable,
        Root::Temporary(_) => false,
    }
}
