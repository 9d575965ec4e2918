//! What is answered of an extraction.

use rx_check::CheckFault;
use rx_core::{Bound, LetGo, List, Span, Text, Which};
use rx_parse::SyntaxFault;

/// A range of bytes of the text: it selects the statements whose tokens are exactly those within.
#[derive(Clone, Copy, Debug)]
pub struct Selection {
    pub start: u64,
    pub end: u64,
}

/// The text of the extraction, and the bounds of the new function: pairs of its lifetimes by their numbers in its list, of which the
/// first is to outlive the second, by the first and then by the second.
#[derive(Drop)]
pub struct Answer {
    pub text: Text,
    pub bounds: List<Bound>,
}

/// Why an accepted text is not extracted from: the first condition that is not met, in this order, but that `Limit` stands for
/// several. A variable is told by its name's place in its declaration.
#[derive(Drop)]
pub enum Refusal {
    /// The range does not select consecutive statements of one block.
    NotARun,
    /// The name is no identifier.
    BadName,
    /// The text has the name already, or it has a meaning.
    NameTaken,
    /// No walk comes to the run, through it to its end, or to an exit of it; the statement or jump where that shows.
    Unreachable {
        at: Span,
    },
    /// The run has no exit.
    Endless,
    /// A part of the variable is set on one walk that enters the run and unset on another.
    MixedInit {
        var: Span,
    },
    /// The variable is set in part where the run is entered, or is not wholly set where it is handed out.
    PartlyMoved {
        var: Span,
    },
    /// Where the variable is handed out its name means another one.
    Shadowed {
        var: Span,
    },
    /// The param would have to be declared `mut`.
    NotMut {
        var: Span,
    },
    /// The variable is declared `mut` and borrowed, and would get another storage.
    Aliased {
        var: Span,
    },
    /// The number that passes the limit: of parameters, lifetimes, levels or parts, of sites or lifetime positions of the program with
    /// the call, of bytes of the answer.
    Limit {
        which: Which,
        count: u64,
    },
    /// The program with the call is refused by a pass up to initialisation.
    Unfit {
        fault: CheckFault,
    },
    /// In the function of this item of the answer the lifetime `long` would have to outlive `short`.
    Region {
        function: u32,
        long: u32,
        short: u32,
    },
    /// In the answer an access meets a loan that forbids it: where the loan is made, and the access.
    Loan {
        borrow: Span,
        access: Span,
    },
    /// The program that the answer's text is read as is not found to be the extraction.
    Unconfirmed,
}

/// Why there is no answer.
#[derive(Drop)]
pub enum Fault {
    Syntax(SyntaxFault),
    NotAccepted(CheckFault),
    Refused(Refusal),
    OutOfMemory,
}

impl LetGo for Refusal {
    fn let_go(self) {
        let _gone = self;
    }
}

impl LetGo for Answer {
    fn let_go(self) {
        let Answer { text, bounds } = self;
        text.let_go();
        bounds.let_go();
    }
}
