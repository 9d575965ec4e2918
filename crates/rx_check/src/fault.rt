//! Why a program is not accepted.

ghost use Rattle.std.specs.Prelude.{◌≡◌};
ghost use Rattle.rx_check.specs.Faults as spec;

use crate::{LoanFault, RegionFault};
use rx_cover::CoverFault;
use rx_facts::InitFault;
use rx_lower_lifetimes::LowerFault;
use rx_resolve_names::NameFault;
use rx_typeck_typed::TypeFault;

/// Why a program is not accepted. No `OutOfMemory` stands inside another fault.
#[derive(Drop)]
pub enum CheckFault {
    /// What is wrong with a name.
    Name(NameFault),
    /// What is wrong with a type.
    Types(TypeFault),
    /// The first `match` or `let` that doesn't cover all values, or whose tests are too wide.
    Cover(CoverFault),
    /// The first function whose graph passes a limit.
    Lower(LowerFault),
    /// What is wrong with the first function that is not initialised.
    Init(InitFault),
    /// The first function of whose own lifetimes a pair is missing, by its item, and its first such pair: the least set of `long`
    /// has the end of `short`, and it is not known that this outlives that.
    Region {
        function: u32,
        long: u32,
        short: u32,
    },
    /// The first function in which an access meets a loan in scope that forbids it.
    Loan(LoanFault),
    OutOfMemory,
}

/// A fault of names as one of the check.
pub(crate) fn of_names(fault: NameFault) -> CheckFault
    ensures { result ≡ spec.of_names fault }
{
    match fault {
        NameFault::OutOfMemory => CheckFault::OutOfMemory,
        fault => CheckFault::Name(fault),
    }
}

/// A fault of types as one of the check.
pub(crate) fn of_types(fault: TypeFault) -> CheckFault
    ensures { result ≡ spec.of_types fault }
{
    match fault {
        TypeFault::OutOfMemory => CheckFault::OutOfMemory,
        fault => CheckFault::Types(fault),
    }
}

/// A fault of coverage as one of the check.
pub(crate) fn of_cover(fault: CoverFault) -> CheckFault
    ensures { result ≡ spec.of_cover fault }
{
    match fault {
        CoverFault::OutOfMemory => CheckFault::OutOfMemory,
        fault => CheckFault::Cover(fault),
    }
}

/// A fault of graphs as one of the check.
pub(crate) fn of_lower(fault: LowerFault) -> CheckFault
    ensures { result ≡ spec.of_lower fault }
{
    match fault {
        LowerFault::OutOfMemory => CheckFault::OutOfMemory,
        fault => CheckFault::Lower(fault),
    }
}

/// A fault of initialisation as one of the check.
pub(crate) fn of_init(fault: InitFault) -> CheckFault
    ensures { result ≡ spec.of_init fault }
{
    match fault {
        InitFault::OutOfMemory => CheckFault::OutOfMemory,
        fault => CheckFault::Init(fault),
    }
}

/// A fault of lifetimes as one of the check.
pub(crate) fn of_regions(fault: RegionFault) -> CheckFault
    ensures { result ≡ spec.of_regions fault }
{
    match fault {
        RegionFault::OutOfMemory => CheckFault::OutOfMemory,
        RegionFault::Missing {
            function,
            long,
            short,
        } => CheckFault::Region {
            function,
            long,
            short,
        },
    }
}

/// A fault of loans as one of the check.
pub(crate) fn of_loans(fault: LoanFault) -> CheckFault
    ensures { result ≡ spec.of_loans fault }
{
    match fault {
        LoanFault::OutOfMemory => CheckFault::OutOfMemory,
        fault => CheckFault::Loan(fault),
    }
}
