//! Where the parts of a flow lead.

ghost use Rattle.std.specs.Prelude.{◌≡◌, ◌++◌, IfOk, OnOk, true, false, if◌then◌else◌};
ghost use Rattle.rx_lower_walks.specs.PlainFlow.{plain-Exit};
ghost use Rattle.rx_lower_walks.specs.Sums.{has, without, breaks_of, exit_way};
ghost use Rattle.rx_lower_lifetimes.specs.Leads as leads;

use rx_core::List;
use rx_lower_walks::Exit;
use std::alloc::AllocError;

/// Where a part leads, besides out of loops and out of the function.
#[derive(Clone, Copy)]
pub struct Onward {
    /// Whether some walk goes on behind it.
    pub ahead: bool,
    /// Whether some walk ends in a failed test.
    pub failing: bool,
}

/// What is known of where a sequence leads by its first items.
#[derive(Clone, Copy)]
pub struct Front {
    /// Whether it goes on, and whether it ends in a failed test, wherever the rest leads.
    pub ahead: bool,
    pub failing: bool,
    /// Whether it ends in a failed test where the rest does.
    pub tested: bool,
}

/// A part that goes on.
pub fn goes_on() -> Onward
    ensures { result ≡ leads.through }
{
    Onward {
        ahead: true,
        failing: false,
    }
}

/// A part that nothing comes out of, but by a jump.
pub fn stops() -> Onward
    ensures { result ≡ leads.stops }
{
    Onward {
        ahead: false,
        failing: false,
    }
}

/// One or the other.
pub fn either(one: Onward, other: Onward) -> Onward
    ensures { result ≡ leads.or_onward one other }
{
    Onward {
        ahead: one.ahead || other.ahead,
        failing: one.failing || other.failing,
    }
}

/// The front without items.
pub fn no_items() -> Front
    ensures { (h : Onward) → leads.finished result h ≡ h }
{
    Front {
        ahead: false,
        failing: false,
        tested: true,
    }
}

/// Where the whole sequence leads.
pub fn finished(front: Front, rest: Onward) -> Onward
    ensures { result ≡ leads.finished front rest }
{
    Onward {
        ahead: front.ahead || rest.ahead,
        failing: front.failing || front.tested && rest.failing,
    }
}

/// With a part that leads so, behind which the rest comes.
pub fn with_part(front: Front, own: Onward) -> Front
    ensures { (h : Onward) → leads.finished front (leads.then_onward own h) ≡ leads.finished result (if own.ahead then h else leads.stops) }
{
    Front {
        ahead: front.ahead,
        failing: front.failing || front.tested && own.failing,
        tested: front.tested,
    }
}

/// With a part that leads so, where the rest comes where a test in it fails.
pub fn with_tried(front: Front, own: Onward) -> Front
    ensures { (h : Onward) → leads.finished front (leads.else_onward own h) ≡ leads.finished result (if own.failing then h else leads.stops) }
{
    Front {
        ahead: front.ahead || own.ahead,
        failing: front.failing,
        tested: front.tested,
    }
}

/// With a test that may fail.
pub fn with_test(front: Front) -> Front
    ensures { (h : Onward) → leads.finished front (record { ahead = h.ahead; failing = true }) ≡ leads.finished result h }
{
    Front {
        ahead: front.ahead,
        failing: front.failing || front.tested,
        tested: front.tested,
    }
}

/// With a variable that ends where the rest does, so that no failed test leads out of it.
pub fn with_end(front: Front) -> Front
    ensures { (h : Onward) → leads.finished front (record { ahead = h.ahead; failing = false }) ≡ leads.finished result h }
{
    Front {
        ahead: front.ahead,
        failing: front.failing,
        tested: false,
    }
}

/// Adds the loop that a jump breaks.
pub fn push_break(exit: Exit, broken: &mut List<u32>) -> Result<(), AllocError>
    ensures { OnOk result (broken.new ≡ broken.old ++ breaks_of (exit_way (plain-Exit exit))) }
{
    match exit {
        Exit::Breaks(_, number) => broken.push(number),
        Exit::Continues(_, _) | Exit::Returns(_) => Ok(()),
    }
}

/// Adds the loops that the passes of a loop break, but for itself. Whether they break that.
pub fn push_others(number: u32, inner: &[u32], broken: &mut List<u32>) -> Result<bool, AllocError>
    ensures own { IfOk result (λ it. it ≡ has number inner.now) }
    ensures others { OnOk result (broken.new ≡ broken.old ++ without number inner.now) }
{
    let mut own = false;
    for one in inner {
        if *one == number {
            own = true;
        } else {
            broken.push(*one)?;
        }
    }
    Ok(own)
}
