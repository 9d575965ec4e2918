//! How places lie to one another.

ghost use Rattle.std.specs.Prelude.{◌≡◌, ◌&&◌, ◌∷◌, List as ListOf, drop};
ghost use Rattle.rx_core.specs.declared.types.Step.{Step as StepOf};
ghost use Rattle.rx_loan.specs.Places as spec;

use rx_core::Step;

fn is_part(step: Step) -> bool
    ensures { (ss : ListOf StepOf) → spec.strips_parts (step ∷ ss) ≡ (result && spec.strips_parts ss) }
{
    match step {
        Step::Field(_) | Step::Variant(_) => true,
        Step::Deref(_) => false,
    }
}

fn is_unshared(step: Step) -> bool
    ensures { (ss : ListOf StepOf) → spec.strips_unshared (step ∷ ss) ≡ (result && spec.strips_unshared ss) }
{
    match step {
        Step::Field(_) | Step::Variant(_) | Step::Deref(true) => true,
        Step::Deref(false) => false,
    }
}

/// Whether the steps from a number on are to fields and variants alone.
pub fn strips_parts(steps: &[Step], from: usize) -> bool
    ensures { result ≡ spec.strips_parts (drop from steps.now) }
{
    for i in from..steps.len() {
        if !is_part(steps[i]) {
            return false;
        }
    }
    true
}

/// Whether no step from a number on goes through a shared reference.
pub fn strips_unshared(steps: &[Step], from: usize) -> bool
    ensures { result ≡ spec.strips_unshared (drop from steps.now) }
{
    for i in from..steps.len() {
        if !is_unshared(steps[i]) {
            return false;
        }
    }
    true
}
