//! Which actions a function performs, in which orders: walks, flows, and the graph of a flow.
#![tactic(auto)]

mod actions;
mod around;
mod breaks;
mod copying;
mod emit;
mod exits;
mod flow;
mod held;
mod laws;
mod measure;
mod numbers;
mod places;
mod site;
mod sums;
mod walks_laws;
mod ways;
mod whole;

pub use actions::{Act, Action, Check, Made, Place, Root, Temporary};
pub use around::{Around, Loop};
pub use copying::action_copied;
pub use flow::{Exit, Flow, Item};
pub use laws::{
    actions_are_distinct, neighbours_follow, next_are_sites, paths_are_walks, sites_are_held,
    sites_stand_in_order,
};
pub use places::{is_front, is_prefix, same_root, same_steps};
pub use site::{Open, Site, Stand};
pub use sums::{Begin, Row, Sum, Way};
pub use walks_laws::{fronts_are_walks, walks_hold_their_actions};
pub use whole::{GraphFault, graph, graph_within, summed};
