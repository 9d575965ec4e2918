//! Lists of values, and what is told of them.

use rx_core::List;
use rx_typeck_solver::Subject;

/// What a list of values is: values that nothing is expected of, the arguments of a function, the parts of a variant.
#[derive(Clone, Copy)]
pub(crate) enum Each {
    Values,
    Parameters(u32),
    Parts(u32, u32),
}

/// The members of a tuple: what has the type of each, and whether some member diverges.
#[derive(Drop)]
pub(crate) struct Members {
    pub(crate) nodes: List<Subject>,
    pub(crate) diverges: bool,
}

/// The ways through branches or arms, or to the end of a block: whether all are Never, and whether all diverge.
#[derive(Clone, Copy)]
pub(crate) struct Ways {
    pub(crate) never: bool,
    pub(crate) diverges: bool,
}
