//! Why a function is not initialised, by places in the text.

ghost use Rattle.std.specs.Prelude.{◌≡◌, ℕ};
ghost use Rattle.rx_typed.specs.Types.{Declarations};
ghost use Rattle.rx_facts.specs.Functions as spec;
ghost use Rattle.rx_facts.specs.Answers as answers;

use rx_core::{Place, Span};
use rx_facts_tables::InitFault as NodeFault;
use rx_typeck_typed::TypedFn;

/// Why a function is not initialised.
#[derive(Drop)]
pub enum InitFault {
    /// Here a place is read, borrowed or tested that some walk reaches unset, or a part of a place is written that some walk
    /// reaches unset or moved as a whole.
    Unset { at: Span, place: Place },
    /// Here a variable that isn't declared `mut` is assigned, and it was before on some walk; its declared name.
    Again { at: Span, var: Span },
    OutOfMemory,
}

fn span_of(spans: &[Span], number: usize) -> Span
    ensures { result ≡ spec.span_of spans.now number }
{
    match spans.get(number) {
        Some(span) => *span,
        None => Span { start: 0, end: 0 },
    }
}

/// A fault of a function's nodes as one of its places in the text.
pub(crate) fn placed(fault: NodeFault, function: &TypedFn) -> InitFault
    ensures { (D : Declarations) (P : ℕ → ℕ) → answers.NodeSays D P function.now fault → spec.IsUninitialised D P result function.now }
{
    match fault {
        NodeFault::Unset { node, place } => InitFault::Unset {
            at: span_of(function.spans.as_slice(), node),
            place,
        },
        NodeFault::Again { node, variable } => InitFault::Again {
            at: span_of(function.spans.as_slice(), node),
            var: span_of(function.names.as_slice(), variable as usize),
        },
        NodeFault::OutOfMemory => InitFault::OutOfMemory,
    }
}
