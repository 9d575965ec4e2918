//! Marks among the sites of a graph.

ghost use Rattle.std.specs.Prelude.{[], ◌≡◌, IfOk, OnOk, map};
ghost use Rattle.rx_lower_walks.specs.PlainFlow.{plain-Made, plain-Temporary, plain-Action};
ghost use Rattle.rx_lower_walks.specs.PlainSite.{plain-Site};
ghost use Rattle.rx_exits_plan.specs.Points as points;
ghost use Rattle.rx_exits_plan.specs.Unmarked as unmarked;
ghost use Rattle.rx_exits_plan.specs.PlainPlan.{plain-Exit};
ghost use Rattle.rx_exits.specs.Marks as spec;

use rx_core::{LetGo, List};
use rx_exits_plan::Exit;
use rx_lower_walks::{Act, Action, Made, Site, Temporary};
use rx_typed::Making;
use std::alloc::{AllocError, Global};

/// A point of a run: where it is entered, or one of its exits.
#[derive(Clone, Copy, Debug, PartialEq, Eq)]
pub enum Point {
    Enters,
    Leaves(Exit),
}

/// A site that has a mark, and the number of the mark's point.
#[derive(Clone, Copy)]
pub struct MarkSite {
    pub site: usize,
    pub point: usize,
}

impl LetGo for MarkSite {
    fn let_go(self) {}
}

/// The number of an exit as a point.
fn exit_number(exit: Exit) -> usize
    ensures { result ≡ points.number (points.leaves (plain-Exit exit)) }
{
    match exit {
        Exit::Next => 1,
        Exit::Return => 2,
        Exit::Break(label) => 3 + 2 * label as usize,
        Exit::Continue(label) => 4 + 2 * label as usize,
    }
}

/// The number of a point. No two points have one number.
pub fn number(point: Point) -> usize
    ensures { result ≡ points.number (spec.plain-Point point) }
{
    match point {
        Point::Enters => 0,
        Point::Leaves(exit) => exit_number(exit),
    }
}

fn is_tuple(made: Made) -> bool
    ensures { result ≡ unmarked.makes_mark (plain-Made made) [] [] }
{
    match made {
        Made::Of(Making::Tuple) => true,
        _ => false,
    }
}

/// Whether this makes a tuple of nothing.
fn makes_mark(made: Made, fields: &[usize], operands: &[Temporary]) -> bool
    ensures { result ≡ unmarked.makes_mark (plain-Made made) fields.now (map plain-Temporary operands.now) }
{
    fields.is_empty() && operands.is_empty() && is_tuple(made)
}

fn is_at(node: usize, temporary: Temporary) -> bool
    ensures { result ≡ spec.is_at node (plain-Temporary temporary) }
{
    temporary.node == node && temporary.which == 0
}

/// Whether an action is a mark.
fn shows_mark(action: &Action) -> bool
    ensures { result ≡ spec.shows_mark (plain-Action action.now) }
{
    match &action.act {
        Act::Build(made, fields, operands, temporary) => {
            makes_mark(*made, fields.as_slice(), operands.as_slice())
                && is_at(action.node, *temporary)
        }
        _ => false,
    }
}

/// Notes a site, where its action is a mark.
fn note(marks: &mut List<MarkSite>, site: usize, action: &Action) -> Result<(), AllocError>
    ensures { OnOk result (marks.new ≡ spec.noted marks.old site (plain-Action action.now)) }
{
    if shows_mark(action) {
        marks.push(MarkSite {
            site,
            point: action.node,
        })
    } else {
        Ok(())
    }
}

/// The sites that have marks, in order.
pub fn marks_of(alloc: Global, sites: &[Site]) -> Result<List<MarkSite>, AllocError>
    ensures { IfOk result (λ marks. marks ≡ spec.marks_from 0 (map plain-Site sites.now)) }
{
    let mut marks = List::new(alloc);
    for i in 0..sites.len() {
        note(&mut marks, i, &sites[i].action)?;
    }
    Ok(marks)
}
