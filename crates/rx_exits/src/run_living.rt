//! What is live where a run is left.

ghost use Rattle.std.specs.Prelude.{◌≡◌, ◌≤◌, ◌<◌, ◌↔◌, length, ℕ, List as ListOf, map, true, IfOk, MatchBool};
ghost use Rattle.rx_typed.specs.PlainTree.{plain-TypedTree};
ghost use Rattle.rx_lower_walks.specs.Graph as graphs;
ghost use Rattle.rx_lower_walks.specs.PlainSite.{plain-Site};
ghost use Rattle.rx_lower_walks.specs.PlainFlow.{plain-Root};
ghost use Rattle.rx_lower_walks.specs.declared.actions.Root.{Root as RootOf};
ghost use Rattle.rx_facts_tables.specs.Live.{IsLive};
ghost use Rattle.rx_facts_tables.specs.LiveTables.{IsNumberOf, Lives};
ghost use Rattle.rx_exits_plan.specs.Asked.{Asked, IsLiveAt};
ghost use Rattle.rx_exits_plan.specs.PlainPlan.{plain-Run, plain-Exit};
ghost use Rattle.rx_exits.specs.Marks.{marks_from};
ghost use Rattle.rx_exits.specs.Living as spec;

use crate::marks::{MarkSite, Point, marks_of, number};
use crate::sites::marked_sites;
use rx_core::List;
use rx_exits_plan::{Exit, Run};
use rx_facts_tables::{LiveTable, live_marked};
use rx_lower_walks::{Root, Site};
use rx_typed::TypedTree;
use std::alloc::{AllocError, Global};

/// Which variables are live behind the exits of a run, where a walk that enters the run uses its params.
#[derive(Drop)]
pub struct RunLiving {
    marks: List<MarkSite>,
    live: LiveTable,
}

/// Whether a mark is one of a point, and the root of a number is live there.
fn is_live_mark(live: &LiveTable, number: Option<u32>, mark: MarkSite, point: usize) -> bool
    ensures { (g : ListOf graphs.Site) (root : RootOf) → IsNumberOf live.now.index.roots root number → Lives g live.now → mark.site < length g
        → MatchBool result (mark.point ≡ point × IsLive g (plain-Root root) mark.site)
        (mark.point ≡ point → IsLive g (plain-Root root) mark.site → ⊥) }
{
    mark.point == point && live.is_live_by(number, mark.site)
}

/// Whether the root of a number is live at some mark of a point.
fn live_there(live: &LiveTable, number: Option<u32>, marks: &[MarkSite], point: usize) -> bool
    ensures { (g : ListOf graphs.Site) (root : RootOf) → IsNumberOf live.now.index.roots root number → Lives g live.now → marks.now ≡ marks_from 0 g
        → MatchBool result (spec.SomeLive g (plain-Root root) marks.now point) (spec.NoneLive g (plain-Root root) marks.now point) }
{
    for mark in marks {
        if is_live_mark(live, number, *mark, point) {
            return true;
        }
    }
    false
}

impl RunLiving {
    /// Whether on from an exit some walk uses a variable before it is written as a whole.
    pub fn is_live_at(&self, exit: Exit, variable: u32) -> bool
        requires { spec.IsAsked self.now }
        ensures { (A : Asked) (params : ListOf ℕ) → spec.IsLiving A params self.now → (result ≡ true) ↔ IsLiveAt A params (plain-Exit exit) variable }
    {
        let known = self.live.number(Root::Variable(variable));
        live_there(
            &self.live,
            known,
            self.marks.as_slice(),
            number(Point::Leaves(exit)),
        )
    }
}

/// The marks of sites, and what is live at these.
fn living_of(alloc: Global, sites: &[Site]) -> Result<RunLiving, AllocError>
    requires { length sites.now ≤ 65536 }
    ensures asked { IfOk result spec.IsAsked }
    ensures living { IfOk result (λ l. spec.AreLiving (map plain-Site sites.now) l) }
{
    let marks = marks_of(alloc, sites)?;
    let live = live_marked(alloc, sites)?;
    Ok(RunLiving { marks, live })
}

/// What is live where a run is left: by the loops around the run, the innermost first, and its params.
///
/// # Errors
///
/// Memory runs out; also where the function with marks has more than 65,536 sites.
pub fn living(
    alloc: Global,
    tree: &TypedTree,
    run: Run,
    loops: &[u32],
    params: &[u32],
) -> Result<RunLiving, AllocError>
    ensures asked { IfOk result spec.IsAsked }
    ensures living { IfOk result (λ l. (A : Asked) → A.function ≡ plain-TypedTree tree.now → A.run ≡ plain-Run run → A.home.around.loops ≡ loops.now
        → spec.IsLiving A params.now l) }
{
    let sites = marked_sites(alloc, tree, run, loops, params, 65536)?;
    living_of(alloc, sites.as_slice())
}
