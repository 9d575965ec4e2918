//! Why a text has no short signature of a function.

ghost use Rattle.std.specs.Prelude.{◌≡◌};
ghost use Rattle.rx_compact_call.specs.Making as making;

use rx_check::CheckFault;
use rx_core::Which;
use rx_parse::SyntaxFault;

/// Why a text has no short signature of a function. No `OutOfMemory` stands inside another fault.
#[derive(Drop)]
pub enum CompactFault {
    /// What is wrong with the text's form.
    Syntax(SyntaxFault),
    /// Why the text is not accepted.
    NotAccepted(CheckFault),
    /// The file has no function of this name.
    NoFunction,
    /// The answer has more than 1,048,576 bytes: how many.
    Limit { which: Which, count: u64 },
    OutOfMemory,
}

/// A fault of a text's form as one of its short signature.
pub(crate) fn of_text(fault: SyntaxFault) -> CompactFault
    ensures { result ≡ making.of_text fault }
{
    match fault {
        SyntaxFault::OutOfMemory => CompactFault::OutOfMemory,
        fault => CompactFault::Syntax(fault),
    }
}

/// A fault of the check as one of a text's short signature.
pub(crate) fn of_check(fault: CheckFault) -> CompactFault
    ensures { result ≡ making.of_check fault }
{
    match fault {
        CheckFault::OutOfMemory => CompactFault::OutOfMemory,
        fault => CompactFault::NotAccepted(fault),
    }
}
