//! Why a text gets no certificate.

ghost use Rattle.std.specs.Prelude.{◌≡◌};
ghost use Rattle.rx_cert_least.specs.Making as making;

use rx_check::CheckFault;
use rx_core::Which;
use rx_parse::SyntaxFault;

/// Why a text gets no certificate. No `OutOfMemory` stands inside another fault.
#[derive(Drop)]
pub enum CertifyFault {
    /// What is wrong with the text's form.
    Syntax(SyntaxFault),
    /// Why the text is not accepted.
    NotAccepted(CheckFault),
    /// The certificate with its text has more than 16,777,216 bytes: how many.
    Limit { which: Which, count: u64 },
    OutOfMemory,
}

/// A fault of a text's form as one of its certificate.
pub(crate) fn of_text(fault: SyntaxFault) -> CertifyFault
    ensures { result ≡ making.of_text fault }
{
    match fault {
        SyntaxFault::OutOfMemory => CertifyFault::OutOfMemory,
        fault => CertifyFault::Syntax(fault),
    }
}

/// A fault of the check as one of a text's certificate.
pub(crate) fn of_check(fault: CheckFault) -> CertifyFault
    ensures { result ≡ making.of_check fault }
{
    match fault {
        CheckFault::OutOfMemory => CertifyFault::OutOfMemory,
        fault => CertifyFault::NotAccepted(fault),
    }
}
