//! What actions access, and which loans conflict with that.

ghost use Rattle.std.specs.Prelude.{◌≡◌, option_map};
ghost use Rattle.rx_lower_walks.specs.PlainFlow.{plain-Act, plain-Check, plain-Place};
ghost use Rattle.rx_loan.specs.Accesses as spec;
ghost use Rattle.rx_loan.specs.PlainOf.{plain-Access, plain-Loan};

use crate::places::{strips_parts, strips_unshared};
use rx_core::Step;
use rx_lower_walks::{Act, Check, Place, Root, is_prefix};

/// What an action accesses: a place, by its root and steps.
#[derive(Clone, Copy)]
pub struct Access<'a> {
    /// Whether what lies behind references counts.
    pub deep: bool,
    pub write: bool,
    pub root: Root,
    pub steps: &'a [Step],
}

/// A loan, made by a borrow.
#[derive(Drop)]
pub struct Loan {
    /// The site of the borrow.
    pub site: u32,
    pub region: u32,
    pub mutable: bool,
    pub place: Place,
}

fn looks_below(check: Check) -> bool
    ensures { result ≡ spec.looks_below (plain-Check check) }
{
    match check {
        Check::HasTag(_) => false,
        Check::Equals(_) => true,
    }
}

fn of_place(place: &Place, deep: bool, write: bool) -> Access<'_>
    ensures { plain-Access result ≡ record { deep = deep; write = write; place = plain-Place place.now } }
{
    Access {
        deep,
        write,
        root: place.root,
        steps: place.steps.as_slice(),
    }
}

/// What an action accesses (RFC 2094, "Access legality"): moves and mutable borrows are deep writes, copies and shared borrows
/// deep reads, writes and ends of variables shallow writes; a test of a tag is a shallow read, one of a literal a deep one.
pub fn accessed(act: &Act) -> Option<Access<'_>>
    ensures { option_map plain-Access result ≡ spec.accessed (plain-Act act.now) }
{
    match act {
        Act::Read(moves, place, _) => Some(of_place(place, true, *moves)),
        Act::Borrow(mutable, place, _) => Some(of_place(place, true, *mutable)),
        Act::Test(place, check) => Some(of_place(place, looks_below(*check), false)),
        Act::Write(place, _, _) => Some(of_place(place, false, true)),
        Act::Dead(variable) => Some(Access {
            deep: false,
            write: true,
            root: Root::Variable(*variable),
            steps: &[],
        }),
        Act::Declare(_)
        | Act::Call(_, _, _)
        | Act::Build(_, _, _, _)
        | Act::Input(_)
        | Act::Print(_)
        | Act::Give(_) => None,
    }
}

/// Whether what is accessed is a prefix of a loan's place that counts.
fn is_around(access: &Access<'_>, loan: &Loan) -> bool
    ensures { result ≡ spec.is_around (plain-Access access.now) (plain-Loan loan.now) }
{
    let steps = loan.place.steps.as_slice();
    let from = access.steps.len();
    is_prefix(access.root, access.steps, loan.place.root, steps)
        && if access.deep {
            strips_unshared(steps, from)
        } else {
            strips_parts(steps, from)
        }
}

/// Whether an access meets what a loan forbids (RFC 2094, "Access legality"): of a place that the loan's is a prefix of, or of
/// one that is a prefix of the loan's, a supporting one for a deep access and a shallow one for a shallow access. A read
/// conflicts with mutable loans, a write with all.
pub fn conflict(access: &Access<'_>, loan: &Loan) -> bool
    ensures { result ≡ spec.conflicts (plain-Access access.now) (plain-Loan loan.now) }
{
    (access.write || loan.mutable)
        && (is_prefix(
            loan.place.root,
            loan.place.steps.as_slice(),
            access.root,
            access.steps,
        ) || is_around(access, loan))
}
