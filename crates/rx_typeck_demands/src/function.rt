//! All that the rules of types ask of a function.

ghost use Rattle.std.specs.Prelude.{◌≡◌, Bool, true, false, ◌||◌, not, [], ◌∷◌, ◌++◌, length, map, drop, Ok, Err, Option, Some, None, option_map, OnOk, IfOk};
ghost use Rattle.rx_typeck_solver.specs.Valid.{literals_of};
ghost use Rattle.rx_tree.specs.PlainOf.{plain-Func, plain-Param, plain-TypeText, plain-Block};
ghost use Rattle.rx_typed.specs.declared.nodes.Site.TheVariants as site_of;
ghost use Rattle.rx_typed.specs.Naming as naming;
ghost use Rattle.rx_typeck_elaborate_parts.specs.Entries.{plain_annotation};
ghost use Rattle.rx_typeck_typed.specs.Demands as demands;
ghost use Rattle.rx_typeck_demand_parts.specs.Walks as walks;
ghost use Rattle.rx_typeck_demands.specs.Pieces as pieces;
ghost use Rattle.rx_typeck_demands.specs.Whole as whole;

use crate::blocks::body;
use rx_core::{List, Span};
use rx_resolve_names::NodeNames;
use rx_tree::{Block, BoundLifetime, Func, Param, TypeText};
use rx_typeck_demand_parts::{Walk, type_of};
use rx_typeck_elaborate_parts::{Annotation, Cursor};
use rx_typeck_solver::{Demand, Op, Rule, Subject};
use rx_typed::{Declaration, Node, Site, Stage};
use std::alloc::{AllocError, Global};

/// What the rules of types ask of a function.
#[derive(Drop)]
pub struct Task<'t> {
    /// In the order of the text.
    pub demands: List<Demand>,
    /// The nodes of the literals without a suffix.
    pub literals: List<usize>,
    /// The spans of the function's nodes, by their numbers.
    pub spans: List<Span>,
    /// The function's variables, by their numbers.
    pub variables: List<Declaration>,
    /// Its `let`s that have a type, in the order of the text.
    pub annotations: List<Annotation<'t>>,
}

/// What the rules of types ask of a function, where its nodes stand, what its variables are, and its `let`s that have a
/// type: of its item's number and span, and the entries of names of the item.
///
/// # Errors
///
/// Memory runs out, or a number passes its width.
pub fn asked<'t>(
    alloc: Global,
    item: u32,
    span: Span,
    function: &'t Func,
    names: &'t List<NodeNames>,
) -> Result<Task<'t>, AllocError>
    ensures asked { IfOk result (λ task. task ≡ whole.task_of (demands.task (naming.function_named item span (plain-Func function.now) names.now)) (naming.function_spans span (plain-Func function.now) names.now) (naming.function_variables span (plain-Func function.now) names.now) task.annotations) }
    ensures annotations { IfOk result (λ task. map plain_annotation task.annotations ≡ naming.function_annotations span (plain-Func function.now) names.now) }
{
    let mut walk = Walk {
        alloc,
        item,
        cursor: Cursor::new(alloc, names.as_slice()),
        demands: List::new(alloc),
    };
    all(&mut walk, span, function)?;
    let literals = literals(alloc, walk.demands.as_slice())?;
    let (spans, variables, annotations) = walk.cursor.finished();
    Ok(Task {
        demands: walk.demands,
        literals,
        spans,
        variables,
        annotations,
    })
}

/// The nodes of the literals without a suffix.
fn literals(alloc: Global, demands: &[Demand]) -> Result<List<usize>, AllocError>
    ensures { IfOk result (λ ns. ns ≡ literals_of demands.now) }
{
    let mut literals = Vec::new(alloc);
    for demand in demands {
        if demand.unsuffixed {
            literals.push(demand.node)?;
        }
    }
    Ok(List::from_vec(literals))
}

/// Whether a lifetime is declared with bounds.
fn has_bounds(lifetimes: &[BoundLifetime]) -> bool
    ensures { result ≡ naming.has_bounds lifetimes.now }
{
    for lifetime in lifetimes {
        if !is_nothing(lifetime) {
            return true;
        }
    }
    false
}

fn is_nothing(lifetime: &BoundLifetime) -> bool
    ensures { result ≡ naming.is_nothing lifetime.now.bounds }
{
    match lifetime.bounds.as_slice() {
        [] => true,
        _ => false,
    }
}

/// Whether a function's item has an entry of names.
fn has_entry(function: &Func) -> bool
    ensures { result ≡ naming.has_entry (plain-Func function.now) }
{
    match function.params.as_slice() {
        [] => has_bounds(function.lifetimes.as_slice()),
        _ => true,
    }
}

/// A function, whose item has this span.
fn all<'t>(walk: &mut Walk<'t>, span: Span, function: &'t Func) -> Result<(), AllocError>
    ensures { walks.Goes (naming.of_function walk.old.item span (plain-Func function.now)) demands.of_function walk.old result walk.new }
{
    walk.node(span, Site::Value)?;
    item_entry(walk, has_entry(function));
    parameters(walk, function.params.as_slice())?;
    result_type(walk, &function.result)?;
    function_body(walk, &function.body)?;
    never_given(walk)
}

/// The entry of the item, where it has one.
fn item_entry(walk: &mut Walk<'_>, has_entry: bool)
    ensures { walk.new ≡ walks.moved (naming.entry_if has_entry walk.old.cursor).1 walk.old }
{
    if has_entry {
        walk.entry();
    }
}

fn parameters<'t>(walk: &mut Walk<'t>, params: &'t [Param]) -> Result<(), AllocError>
    ensures { walks.Goes (naming.of_parameters (map plain-Param params.now)) demands.of_parameters walk.old result walk.new }
{
    for param in params {
        parameter(walk, param)?;
    }
    Ok(())
}

fn parameter<'t>(walk: &mut Walk<'t>, param: &'t Param) -> Result<(), AllocError>
    ensures { walks.Goes (naming.of_parameter (plain-Param param.now)) demands.of_parameter walk.old result walk.new }
{
    let mutable = param.mutable;
    let stage = Stage::Known;
    let variable = walk.cursor.declare(Declaration { mutable, stage })?;
    let typ = walk.whole_type(&param.typ)?;
    walk.ask_alike(typ, Subject::Variable(variable), type_of(typ))
}

fn result_type<'t>(walk: &mut Walk<'t>, typ: &'t Option<TypeText>) -> Result<(), AllocError>
    ensures { walks.Goes (naming.of_optional_type (option_map plain-TypeText typ.now)) demands.of_result walk.old result walk.new }
{
    match typ {
        Some(typ) => {
            walk.whole_type(typ)?;
            Ok(())
        }
        None => Ok(()),
    }
}

/// The body, which is expected to have the type of the result.
#[tactic(auto, using(rx_typeck_elaborate_parts::proofs::Next::next_body))]
fn function_body<'t>(walk: &mut Walk<'t>, block: &'t Block) -> Result<(), AllocError>
    ensures { walks.Goes (naming.of_body site_of.Expects (plain-Block block.now)) (pieces.of_function_body walk.old.item) walk.old result walk.new }
{
    let next = walk.next(block.span, Site::Expects);
    walk.expects(next, Op::Result(walk.item), &[])?;
    body(walk, Site::Expects, block)?;
    Ok(())
}

/// The variables that no assignment gives a type.
fn never_given(walk: &mut Walk<'_>) -> Result<(), AllocError>
    ensures { OnOk result (walk.new ≡ walks.asked (demands.of_never_given (naming.all_waiting walk.old.cursor.variables)) walk.old) }
{
    let waiting = all_waiting(walk.alloc, walk.cursor.variables())?;
    refuse_all(walk, waiting.as_slice())
}

/// The patterns of the variables that wait for a type.
fn all_waiting(alloc: Global, variables: &[Declaration]) -> Result<Vec<Node>, AllocError>
    ensures { IfOk result (λ ns. ns.items ≡ naming.all_waiting variables.now) }
{
    let mut waiting = Vec::new(alloc);
    for variable in variables {
        push_waiting(&mut waiting, variable.stage)?;
    }
    Ok(waiting)
}

fn push_waiting(waiting: &mut Vec<Node>, stage: Stage) -> Result<(), AllocError>
    ensures { OnOk result (waiting.new.items ≡ waiting.old.items ++ naming.a_waiting stage) }
{
    match stage {
        Stage::Waits(number, span) => {
            let site = Site::Value;
            waiting.push(Node { number, span, site })?;
            Ok(())
        }
        Stage::Known | Stage::Given => Ok(()),
    }
}

fn refuse_all(walk: &mut Walk<'_>, nodes: &[Node]) -> Result<(), AllocError>
    ensures { OnOk result (walk.new ≡ walks.asked (demands.of_never_given nodes.now) walk.old) }
{
    for node in nodes {
        walk.refuse(*node, Rule::Unclear)?;
    }
    Ok(())
}
