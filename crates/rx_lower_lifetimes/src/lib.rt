//! The graph of a function with its lifetimes: the types of its variables and temporaries, the signatures of its calls and
//! the regions of its borrows.
#![tactic(auto)]

mod gather;
mod held;
mod laws;
mod noted;
mod notes;
mod numbering;
mod onward;
mod positions;
mod values;
mod variables;
mod whole;

pub use held::{Held, Open};
pub use laws::filled_temporaries_have_types;
pub use noted::{HasNode, Noted};
pub use numbering::Own;
pub use variables::Told;
pub use whole::{Graph, Lifetimes, LowerFault, lower_function, lower_function_within};
