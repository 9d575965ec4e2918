//! Why a certificate is refused.

ghost use Rattle.std.specs.Prelude.{◌≡◌};
ghost use Rattle.rx_cert.specs.Parts as parts;

use rx_check::CheckFault;
use rx_parse::SyntaxFault;

/// Why bytes are no certificate that is good for its text. No `OutOfMemory` stands inside another fault.
#[derive(Drop)]
pub enum VerifyFault {
    /// The first line, counted from 1, that isn't of its form, or isn't what the text's functions have there; behind the lines where one
    /// is missing.
    Form { line: u32 },
    /// What is wrong with the text's form.
    Text(SyntaxFault),
    /// What the passes up to initialisation say of the text.
    Front(CheckFault),
    /// The item of the first function of which the sets break a rule, and the number of the first such rule, from 1 to 4.
    Rule { function: u32, rule: u32 },
    OutOfMemory,
}

/// A fault of a text's form as one of its certificate.
pub(crate) fn of_text(fault: SyntaxFault) -> VerifyFault
    ensures { result ≡ parts.of_text fault }
{
    match fault {
        SyntaxFault::OutOfMemory => VerifyFault::OutOfMemory,
        fault => VerifyFault::Text(fault),
    }
}

/// A fault of the passes up to initialisation as one of the text's certificate.
pub(crate) fn of_front(fault: CheckFault) -> VerifyFault
    ensures { result ≡ parts.of_front fault }
{
    match fault {
        CheckFault::OutOfMemory => VerifyFault::OutOfMemory,
        fault => VerifyFault::Front(fault),
    }
}
