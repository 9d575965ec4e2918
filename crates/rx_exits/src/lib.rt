//! Whether a run is reached and left, and its plan.
#![tactic(auto)]

mod acts;
mod answering;
mod choosing;
mod exit_forms;
mod facts;
mod listed;
mod marks;
mod moving;
mod names;
mod planning;
mod points_facts;
mod reaching;
mod refusing;
mod run_living;
mod run_points;
mod sites;
mod typed;

pub use answering::{ExitFault, exits};
pub use marks::Point;
pub use planning::Planned;
pub use reaching::{At, ReachFault, reached};
pub use run_living::{RunLiving, living};
pub use run_points::RunPoints;
pub use typed::points;
