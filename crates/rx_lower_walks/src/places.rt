//! How places lie to one another.

ghost use Rattle.std.specs.Prelude.{◌≡◌};
ghost use Rattle.rx_lower_walks.specs.PlainFlow.{plain-Root};
ghost use Rattle.rx_typed.specs.TypedPlaces as spec;

use crate::actions::Root;
use rx_core::Step;

fn same_step(a: Step, b: Step) -> bool
    ensures { result ≡ spec.same_step a b }
{
    match a {
        Step::Field(i) => match b {
            Step::Field(j) => i == j,
            _ => false,
        },
        Step::Variant(v) => match b {
            Step::Variant(w) => v == w,
            _ => false,
        },
        Step::Deref(true) => match b {
            Step::Deref(true) => true,
            _ => false,
        },
        Step::Deref(false) => match b {
            Step::Deref(false) => true,
            _ => false,
        },
    }
}

/// Whether both are one variable, or one temporary.
pub fn same_root(a: Root, b: Root) -> bool
    ensures { result ≡ spec.same_root (plain-Root a) (plain-Root b) }
{
    match a {
        Root::Variable(x) => match b {
            Root::Variable(y) => x == y,
            Root::Temporary(_) => false,
        },
        Root::Temporary(s) => match b {
            Root::Variable(_) => false,
            Root::Temporary(t) => s.node == t.node && s.which == t.which,
        },
    }
}

/// Whether a way is a front of another, or all of it.
pub fn is_front(front: &[Step], steps: &[Step]) -> bool
    ensures { result ≡ spec.is_front front.now steps.now }
{
    for i in 0..front.len() {
        match steps.get(i) {
            Some(step) => {
                if !same_step(front[i], *step) {
                    return false;
                }
            }
            None => return false,
        }
    }
    true
}

/// Whether both are one way.
pub fn same_steps(a: &[Step], b: &[Step]) -> bool
    ensures { result ≡ spec.same_steps a.now b.now }
{
    is_front(a, b) && is_front(b, a)
}

/// Whether a place is a prefix of another, each given by its root and its steps.
pub fn is_prefix(root: Root, steps: &[Step], of: Root, whole: &[Step]) -> bool
    ensures { result ≡ spec.is_prefix (record { root = plain-Root root; steps = steps.now }) (record { root = plain-Root of; steps = whole.now }) }
{
    same_root(root, of) && is_front(steps, whole)
}
