//! The extraction over texts.

ghost use Rattle.std.specs.Prelude.{◌≤◌, length};
ghost use Rattle.rx_tree.specs.PlainOf.{plain-Program};
ghost use Rattle.rx_parse_grammar.specs.grammar.Items.{Parses};
ghost use Rattle.rx_check.specs.Front.{IsCheckedOf};
ghost use Rattle.rx_engine.specs.Verdict.{Answers};

use crate::laws::answers_run_alike;
use rx_check::Checked;
use rx_engine_extraction::{Answer, Fault, Selection};
use rx_modes_policy::Policy;
use rx_tree::Program;
use std::alloc::Global;

/// Moves the statements that a range of bytes selects into a new function of this name, directly behind the enclosing one, and puts a
/// call in their place; of a text with this program, which passed all passes. How each variable is passed the policy chooses, among the
/// ways that its uses allow.
///
/// # Errors
///
/// The first of the refusals, in their order; or memory runs out.
pub fn extract_checked<P: Policy>(
    alloc: Global,
    text: &[u8],
    program: &Program,
    checked: &Checked,
    selection: Selection,
    name: &str,
    policy: &P,
) -> Result<Answer, Fault>
    requires short { length text.now ≤ 1048576 }
    requires parses { Parses text.now (plain-Program program.now) }
    requires checked { IsCheckedOf (plain-Program program.now) checked.now }
    // An answer keeps its promise; a refusal tells the first condition that is not met.
    ensures verdict { Answers text.now (record { start = selection.start; end = selection.end; name = name.now; choice = P.choice policy.now }) result }
{
    answers_run_alike();
    rx_engine_extraction::extract_checked(alloc, text, program, checked, selection, name, policy)
}

/// The same of any text: it is read and checked first.
///
/// # Errors
///
/// The first of: the text is not read, is not accepted, and the refusals in their order.
pub fn extract<P: Policy>(
    alloc: Global,
    text: &[u8],
    selection: Selection,
    name: &str,
    policy: &P,
) -> Result<Answer, Fault>
    requires { length text.now ≤ 1048576 }
    // An answer keeps its promise; a fault has its cause, and a refusal tells the first condition that is not met.
    ensures verdict { Answers text.now (record { start = selection.start; end = selection.end; name = name.now; choice = P.choice policy.now }) result }
{
    answers_run_alike();
    rx_engine_extraction::extract(alloc, text, selection, name, policy)
}
