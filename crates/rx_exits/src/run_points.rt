//! What may be set, and what may stand, where walks come to the points of a run.

ghost use Rattle.std.specs.Prelude.{◌≡◌, ◌↔◌, ◌≤◌, ◌<◌, map, true, false, IfOk, MatchBool, ◌+◌};
ghost use Rattle.rx_typed_declarations.specs.Sizes.{told};
ghost use Rattle.rx_typed.specs.PlainTree.{plain-TypedTree};
ghost use Rattle.rx_lower_walks.specs.PlainSite.{plain-Site};
ghost use Rattle.rx_facts_tables.specs.Tracking.{Reached};
ghost use Rattle.rx_facts_tables.specs.Places.{place_at, spot_parts};
ghost use Rattle.rx_facts_tables.specs.Layouts.{plain-Frame, IsSized, IsLayout};
ghost use Rattle.rx_typed.specs.Tree.{own};
ghost use Rattle.rx_exits_plan.specs.Asked.{Asked, IsParam, IsLocal};
ghost use Rattle.rx_exits_plan.specs.PlainPlan.{plain-Run};
ghost use Rattle.rx_exits_plan.specs.Unreachable.{SomeComes};
ghost use Rattle.rx_exits.specs.Marks.{plain-Point};
ghost use Rattle.rx_exits.specs.Facts.{IsMarked, IsUnmarked, SomeThere, NoneThere};
ghost use Rattle.rx_exits.specs.Points as spec;

use crate::acts::{own, past_all};
use crate::marks::{MarkSite, Point, marks_of, number};
use crate::points_facts::{Facts, Setup, all_facts, some_there};
use crate::sites::marked_sites;
use rx_core::List;
use rx_exits_plan::Run;
use rx_facts_tables::{Frame, Layout, Range, layout, range};
use rx_graph::Table;
use rx_lower_walks::Site;
use rx_typed::TypedTree;
use std::alloc::{AllocError, Global};

/// What is known of a function where walks come to the points of a run: the marks of the points, and facts at all sites.
#[derive(Drop)]
pub struct RunPoints<'t> {
    alloc: Global,
    frame: Frame<'t>,
    layout: Layout,
    marks: List<MarkSite>,
    facts: Facts,
    /// Variables that are written as a whole have numbers below this one.
    variables: usize,
}

/// Whether there is a mark of a point.
fn is_marked(marks: &[MarkSite], point: usize) -> bool
    ensures { MatchBool result (IsMarked marks.now point) (IsUnmarked marks.now point) }
{
    for mark in marks {
        if mark.point == point {
            return true;
        }
    }
    false
}

impl<'t> RunPoints<'t> {
    /// Whether some walk comes to a point.
    pub fn comes(&self, point: Point) -> bool
        ensures { (A : Asked) → spec.IsPoints A self.now → (result ≡ true) ↔ SomeComes A (plain-Point point) }
    {
        is_marked(self.marks.as_slice(), number(point))
    }

    /// Where the parts of a variable are.
    fn parts(&self, variable: u32) -> Range
        requires { spec.IsReady self.now }
        ensures first { result.first ≡ (place_at (plain-Frame self.now.frame) (own variable)).first }
        ensures count { result.count ≡ spot_parts (told self.now.frame.sizes.now) (place_at (plain-Frame self.now.frame) (own variable)).spot }
        ensures within { result.first + result.count ≤ self.now.layout.total }
    {
        let place = own(self.alloc, variable);
        range(&self.frame, &self.layout, &place)
    }

    /// Whether some part of a variable is set on some walk that comes to a point.
    pub fn may_be_set(&self, point: Point, variable: u32) -> bool
        requires { spec.IsReady self.now }
        ensures { (A : Asked) → spec.IsPoints A self.now → (result ≡ true) ↔ spec.MayBeSet A (plain-Point point) variable }
    {
        some_there(
            &self.facts.set,
            self.marks.as_slice(),
            number(point),
            self.parts(variable),
        )
    }

    /// Whether some part of a variable is unset on some walk that comes to a point.
    pub fn may_be_unset(&self, point: Point, variable: u32) -> bool
        requires { spec.IsReady self.now }
        ensures { (A : Asked) → spec.IsPoints A self.now → (result ≡ true) ↔ spec.MayBeUnset A (plain-Point point) variable }
    {
        some_there(
            &self.facts.unset,
            self.marks.as_slice(),
            number(point),
            self.parts(variable),
        )
    }

    /// Whether every walk that enters the run has all of a variable set.
    pub fn is_param(&self, variable: u32) -> bool
        requires { spec.IsReady self.now }
        ensures { (A : Asked) → spec.IsPoints A self.now → (result ≡ true) ↔ IsParam A variable }
    {
        !self.may_be_unset(Point::Enters, variable)
    }

    /// Whether a fact is true at some mark of the entry.
    fn is_entered_with(&self, table: &Table, fact: u64) -> bool
        requires { fact < 18446744073709551615 }
        ensures { MatchBool result (SomeThere table.now.rows self.now.marks 0 fact 1) (NoneThere table.now.rows self.now.marks 0 fact 1) }
    {
        let one = Range {
            first: fact,
            count: 1,
        };
        some_there(table, self.marks.as_slice(), number(Point::Enters), one)
    }

    /// Whether a variable is there as a whole on some walk that enters the run.
    pub fn may_stand(&self, variable: u32) -> bool
        ensures { (A : Asked) → spec.IsPoints A self.now → (result ≡ true) ↔ spec.MayStand A variable }
    {
        if (variable as usize) < self.variables {
            self.is_entered_with(&self.facts.standing, variable as u64)
        } else {
            false
        }
    }

    /// Whether a variable is there as a whole on no walk that enters the run.
    pub fn is_local(&self, variable: u32) -> bool
        ensures { (A : Asked) → spec.IsPoints A self.now → (result ≡ true) ↔ IsLocal A variable }
    {
        !self.may_stand(variable)
    }

    /// Whether a part is set on one walk that enters the run and unset on another.
    fn is_mixed_part(&self, part: u64) -> bool
        requires { part < 18446744073709551615 }
        ensures { MatchBool result (spec.MixedPart self.now part) (spec.MixedPart self.now part → ⊥) }
    {
        if self.is_entered_with(&self.facts.set, part) {
            self.is_entered_with(&self.facts.unset, part)
        } else {
            false
        }
    }

    /// Whether some part of a variable is set on one walk that enters the run and unset on another.
    pub fn is_mixed(&self, variable: u32) -> bool
        requires { spec.IsReady self.now }
        ensures { (A : Asked) → spec.IsPoints A self.now → (result ≡ true) ↔ spec.IsMixed A variable }
    {
        let parts = self.parts(variable);
        for part in parts.first..parts.first + parts.count {
            if self.is_mixed_part(part) {
                return true;
            }
        }
        false
    }

    /// Whether all of a variable is set on some walk that enters the run, where it is not mixed there.
    pub fn is_set(&self, variable: u32) -> bool
        requires { spec.IsReady self.now }
        ensures { (A : Asked) → spec.IsPoints A self.now → ¬ (spec.IsMixed A variable) → (result ≡ true) ↔ spec.MayBeWhole A variable }
    {
        if self.comes(Point::Enters) {
            self.is_param(variable)
        } else {
            false
        }
    }
}

/// The tables of sites, where it is known where the parts of variables are.
fn points_with<'t>(
    alloc: Global,
    frame: Frame<'t>,
    layout: Layout,
    sites: &[Site],
) -> Result<RunPoints<'t>, AllocError>
    requires sized { IsSized frame }
    requires layout { IsLayout (plain-Frame frame) layout }
    ensures ready { IfOk result spec.IsReady }
    ensures frame { IfOk result (λ p. p.frame ≡ frame.entry) }
    ensures points { IfOk result (λ p. Reached (map plain-Site sites.now) → spec.ArePoints (plain-Frame frame.entry) (map plain-Site sites.now) p) }
{
    let variables = past_all(sites);
    let marks = marks_of(alloc, sites)?;
    let setup = Setup {
        frame: &frame,
        layout: &layout,
    };
    let facts = all_facts(alloc, &setup, sites, variables)?;
    Ok(RunPoints {
        alloc,
        frame,
        layout,
        marks,
        facts,
        variables,
    })
}

/// The tables of sites.
fn points_of<'t>(
    alloc: Global,
    frame: Frame<'t>,
    sites: &[Site],
) -> Result<RunPoints<'t>, AllocError>
    requires { IsSized frame }
    ensures ready { IfOk result spec.IsReady }
    ensures frame { IfOk result (λ p. p.frame ≡ frame.entry) }
    ensures points { IfOk result (λ p. Reached (map plain-Site sites.now) → spec.ArePoints (plain-Frame frame.entry) (map plain-Site sites.now) p) }
{
    let layout = layout(alloc, &frame)?;
    points_with(alloc, frame, layout, sites)
}

/// What is known where walks come to the points of a run of a function: by the types of its variables, its tree, and the loops
/// around the run, the innermost first.
pub fn points_in<'t>(
    alloc: Global,
    frame: Frame<'t>,
    tree: &TypedTree,
    run: Run,
    loops: &[u32],
) -> Result<RunPoints<'t>, AllocError>
    requires { IsSized frame }
    ensures ready { IfOk result spec.IsReady }
    ensures points { IfOk result (λ p. (A : Asked) → A.function ≡ plain-TypedTree tree.now → A.run ≡ plain-Run run → A.home.around.loops ≡ loops.now
        → A.frame ≡ plain-Frame frame.entry → spec.IsPoints A p) }
{
    let sites = marked_sites(alloc, tree, run, loops, &[], 4294967295)?;
    points_of(alloc, frame, sites.as_slice())
}
