//! The lifetimes of a function as the least sets of points that its constraints allow, and what is known of its own.
#![tactic(auto)]

mod acts;
mod constraints_laws;
mod given;
mod known;
mod laws;
mod made;
mod missing_pairs;
mod outlives;
mod pass;
mod reborrows;
mod regions;
mod seeds;
mod signatures;
mod types;
mod whole;

pub use constraints_laws::{least_are_a_solution, solutions_meet};
pub use given::{Given, root_type, variables};
pub use known::{Known, known_pairs};
pub use laws::{missing_pairs_are_needed, solutions_meet_constraints};
pub use missing_pairs::missing;
pub use outlives::{Outlives, constraints};
pub use pass::{RegionFault, check_regions};
pub use regions::{Regions, solve};
