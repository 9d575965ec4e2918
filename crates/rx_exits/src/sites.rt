//! The sites of a function with marks.

ghost use Rattle.std.specs.Prelude.{◌≡◌, ◌≤◌, IfOk, length, map};
ghost use Rattle.rx_typed.specs.PlainTree.{plain-TypedTree};
ghost use Rattle.rx_lower_walks.specs.Flows.{order_of};
ghost use Rattle.rx_lower_walks.specs.PlainFlow.{plain-Flow};
ghost use Rattle.rx_lower_walks.specs.Pieces.{graph, graph_of};
ghost use Rattle.rx_lower_walks.specs.PlainSite.{plain-Site};
ghost use Rattle.rx_exits_plan.specs.Marked as marks;
ghost use Rattle.rx_exits_plan.specs.PlainPlan.{plain-Run};

use rx_core::{LetGo, List};
use rx_exits_plan::Run;
use rx_exits_tree::marked;
use rx_lower_order::flow_of;
use rx_lower_walks::{Flow, Site, graph_within};
use rx_typed::TypedTree;
use std::alloc::{AllocError, Global};

/// The sites of a flow, at most so many; where it has more it is as if memory ran out.
fn flow_sites(alloc: Global, flow: &Flow, limit: u32) -> Result<List<Site>, AllocError>
    ensures sites { IfOk result (λ g. map plain-Site g ≡ graph_of (order_of (plain-Flow flow.now))) }
    ensures few { IfOk result (λ g. length g ≤ limit) }
{
    match graph_within(alloc, flow, limit) {
        Ok(sites) => Ok(sites),
        Err(_) => Err(AllocError),
    }
}

/// The sites of a typed tree, at most so many.
fn tree_sites(alloc: Global, tree: &TypedTree, limit: u32) -> Result<List<Site>, AllocError>
    ensures sites { IfOk result (λ g. map plain-Site g ≡ graph (plain-TypedTree tree.now)) }
    ensures few { IfOk result (λ g. length g ≤ limit) }
{
    match flow_of(alloc, tree) {
        Ok(flow) => {
            let sites = flow_sites(alloc, &flow, limit);
            flow.let_go();
            sites
        }
        Err(_) => Err(AllocError),
    }
}

/// The sites of a function with marks at the points of a run, by the loops around the run and the variables that are used where
/// it is entered. They are at most so many; where there are more it is as if memory ran out.
pub fn marked_sites(
    alloc: Global,
    tree: &TypedTree,
    run: Run,
    loops: &[u32],
    used: &[u32],
    limit: u32,
) -> Result<List<Site>, AllocError>
    ensures sites { IfOk result (λ g. map plain-Site g ≡ graph (marks.marked (plain-Run run) loops.now used.now (plain-TypedTree tree.now))) }
    ensures few { IfOk result (λ g. length g ≤ limit) }
{
    match marked(alloc, tree, run, loops, used) {
        Ok(changed) => {
            let sites = tree_sites(alloc, &changed, limit);
            changed.let_go();
            sites
        }
        Err(_) => Err(AllocError),
    }
}
