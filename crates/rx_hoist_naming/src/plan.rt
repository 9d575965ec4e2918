//! The plan of a run by names.

ghost use Rattle.std.specs.Prelude.{◌≡◌, ◌<◌, ◌^◌, map, option_map, slice_get, IfOk};
ghost use Rattle.std.specs.Option.{option_copied};
ghost use Rattle.rx_tree.specs.PlainOf.{plain-Program};
ghost use Rattle.rx_lex.specs.Tok.{toks};
ghost use Rattle.rx_typed.specs.Types.{result_declared};
ghost use Rattle.rx_typed.specs.PlainTypes.{plain-Ty, declarations};
ghost use Rattle.rx_hoist_plan.specs.PlainPlan.{plain-Leaving, plain-Param, plain-Variable, plain-Pins, plain-Plan};
ghost use Rattle.rx_tree.specs.Positions.{node_at};
ghost use Rattle.rx_tree_operations.specs.NodeOf.{plain-Node};
ghost use Rattle.rx_hoist_naming.specs.NamesWords.{identifiers as identifiers_of, lifetimes as lifetimes_of};
ghost use Rattle.rx_hoist_naming.specs.DeclaredNames.{declared_names as declared_names_of};
ghost use Rattle.rx_hoist_nodes.specs.Nodes.{nodes_of, number_at};
ghost use Rattle.rx_hoist_naming.specs.Pinning.{pins_if as pins_if_of};
ghost use Rattle.rx_hoist_naming.specs.NamedPlan as spec;

use crate::ends::{is_never, value_if};
use crate::exits::leavings;
use crate::pins::pins_if;
use crate::types::{bare, bare_or_unit};
use crate::variables::{params, variables};
use crate::{declared_names, identifiers, lifetimes};
use rx_core::{LetGo, List, Name, Ty, keep};
use rx_exits_plan::ExitPlan;
use rx_hoist_finding::{Found, item_nodes, node_of};
use rx_hoist_plan::{Leaving, NamedPlan, Param, Pins, Variable};
use rx_lex::Tokens;
use rx_modes_policy::Mode;
use rx_tree::Program;
use rx_typeck_typed::TypedFn;
use rx_typed::{Decl, Decls};
use rx_typed_runs::RunPos;
use std::alloc::{AllocError, Global};

/// The program of a text, what it declares, one of its functions with its types, and the numbers of the function's `let`s whose
/// initialiser never goes on.
#[derive(Clone, Copy)]
pub struct Source<'t> {
    pub program: &'t Program,
    pub decls: &'t Decls,
    pub function: &'t TypedFn,
    pub diverging: &'t [usize],
}

/// What is decided of a run by numbers: the loops around it, the innermost first; the exits, and which variables go in and
/// out; the modes of the params, and whether the run moves each, or a part of its own storage.
#[derive(Clone, Copy)]
pub struct Decided<'t> {
    pub run: &'t RunPos,
    pub loops: &'t [u32],
    pub plan: &'t ExitPlan,
    pub modes: &'t [Mode],
    pub moved: &'t [bool],
}

/// The variables of a plan.
#[derive(Drop)]
struct VariableLists {
    exits: List<Leaving>,
    params: List<Param>,
    locals: List<Variable>,
    redeclared: List<Variable>,
}

impl LetGo for VariableLists {
    fn let_go(self) {
        let _gone = self;
    }
}

/// The types of a plan, and whether no value comes of the run's last statement.
#[derive(Drop)]
struct EndTypes {
    value: Option<Ty>,
    never: bool,
    result: Ty,
}

impl LetGo for EndTypes {
    fn let_go(self) {
        let _gone = self;
    }
}

/// The words of a plan.
#[derive(Drop)]
struct PlanWords {
    name: Name,
    identifiers: List<Name>,
    lifetimes: List<Name>,
}

fn lists(
    alloc: Global,
    names: &[&Name],
    function: &TypedFn,
    decided: &Decided<'_>,
) -> Result<VariableLists, AllocError>
    ensures exits { IfOk result (λ l. map plain-Leaving l.exits ≡ map (spec.named_leaving (map (λ x. x.now) names.now) function.now decided.now.loops.now) decided.now.plan.now.exits) }
    ensures params { IfOk result (λ l. map plain-Param l.params
        ≡ spec.named_params (map (λ x. x.now) names.now) function.now decided.now.plan.now.params decided.now.modes.now decided.now.moved.now) }
    ensures locals { IfOk result (λ l. map plain-Variable l.locals ≡ spec.named_variables (map (λ x. x.now) names.now) function.now decided.now.plan.now.locals) }
    ensures redeclared { IfOk result (λ l. map plain-Variable l.redeclared ≡ spec.named_variables (map (λ x. x.now) names.now) function.now decided.now.plan.now.redeclared) }
{
    let plan = decided.plan;
    let exits = leavings(alloc, names, function, decided.loops, plan.exits.as_slice())?;
    let params = params(
        alloc,
        names,
        function,
        plan.params.as_slice(),
        decided.modes,
        decided.moved,
    );
    let (params, exits) = keep(exits, params)?;
    let locals = variables(alloc, names, function, plan.locals.as_slice());
    let (locals, held) = keep((exits, params), locals)?;
    let redeclared = variables(alloc, names, function, plan.redeclared.as_slice());
    let (redeclared, (held, locals)) = keep((held, locals), redeclared)?;
    let (exits, params) = held;
    Ok(VariableLists {
        exits,
        params,
        locals,
        redeclared,
    })
}

/// The result of the function of this item.
#[tactic(auto, using(rx_typeck_solver::proofs::Lookups::lookup_rules))]
fn declared_result(items: &List<Decl>, item: u32) -> Option<&Ty>
    ensures { option_map plain-Ty (option_copied result) ≡ result_declared (slice_get (declarations items.now) item) }
{
    match items.get(item as usize) {
        Some(decl) => match decl {
            Decl::Func { answer, .. } => Some(answer),
            Decl::Rt | Decl::Struct { .. } | Decl::Enum { .. } => None,
        },
        None => None,
    }
}

/// The result of the function of this item; the unit where it is none.
fn result_type(alloc: Global, decls: &Decls, item: u32) -> Result<Ty, AllocError>
    ensures { IfOk result (λ it. plain-Ty it ≡ spec.result_of (result_declared (slice_get (declarations decls.now.items) item))) }
{
    match declared_result(&decls.items, item) {
        Some(answer) => bare(alloc, answer),
        None => bare_or_unit(alloc, None),
    }
}

/// The number of the run's last statement, or of the block's tail, and the node.
fn last_node<'t>(alloc: Global, program: &'t Program, run: &RunPos) -> Result<Found<'t>, AllocError>
    ensures number { IfOk result (λ found. found.number ≡ number_at (plain-Program program.now) run.now.block.item (spec.last_way run.now)) }
    ensures node { IfOk result (λ found. option_map plain-Node found.node ≡ node_at (plain-Program program.now) run.now.block.item (spec.last_way run.now)) }
    ensures small { IfOk result (λ found. found.number < 2 ^ 63) }
{
    let mut path = List::from_slice(alloc, run.block.path.as_slice())?;
    path.push(run.last)?;
    node_of(alloc, program, run.block.item, path.as_slice())
}

fn ends(alloc: Global, source: &Source<'_>, decided: &Decided<'_>) -> Result<EndTypes, AllocError>
    ensures value { IfOk result (λ e. option_map plain-Ty e.value ≡ spec.value_if decided.now.plan.now.value source.now.function.now
        (number_at (plain-Program source.now.program.now) decided.now.run.now.block.item (spec.last_way decided.now.run.now))) }
    ensures never { IfOk result (λ e. e.never ≡ spec.is_never source.now.function.now
        (node_at (plain-Program source.now.program.now) decided.now.run.now.block.item (spec.last_way decided.now.run.now))
        (number_at (plain-Program source.now.program.now) decided.now.run.now.block.item (spec.last_way decided.now.run.now))) }
    ensures result { IfOk result (λ e. plain-Ty e.result ≡ spec.result_of (result_declared (slice_get (declarations source.now.decls.now.items) source.now.function.now.item))) }
{
    let last = last_node(alloc, source.program, decided.run)?;
    let never = is_never(source.function, last.node, last.number);
    let result = result_type(alloc, source.decls, source.function.item)?;
    let value = value_if(alloc, decided.plan.value, source.function, last.number);
    let (value, result) = keep(result, value)?;
    Ok(EndTypes {
        value,
        never,
        result,
    })
}

fn words(alloc: Global, tokens: &Tokens<'_>, name: &str) -> Result<PlanWords, AllocError>
    ensures name { IfOk result (λ w. w.name ≡ name.now) }
    ensures identifiers { IfOk result (λ w. w.identifiers ≡ identifiers_of (toks tokens.now.list)) }
    ensures lifetimes { IfOk result (λ w. w.lifetimes ≡ lifetimes_of (toks tokens.now.list)) }
{
    let tokens = tokens.list.as_slice();
    let name = Name::new(alloc, name)?;
    let (identifiers, name) = keep(name, identifiers(alloc, tokens))?;
    let (lifetimes, (name, identifiers)) = keep((name, identifiers), lifetimes(alloc, tokens))?;
    Ok(PlanWords {
        name,
        identifiers,
        lifetimes,
    })
}

/// What is read off the nodes of the function: its variables by name, and the pins.
fn parts(
    alloc: Global,
    source: &Source<'_>,
    decided: &Decided<'_>,
) -> Result<(VariableLists, Option<Pins>), AllocError>
    ensures exits { let names = declared_names_of (slice_get (plain-Program source.now.program.now) source.now.function.now.item) in
        IfOk result (λ b. map plain-Leaving b.0.exits ≡ map (spec.named_leaving names source.now.function.now decided.now.loops.now) decided.now.plan.now.exits) }
    ensures params { let names = declared_names_of (slice_get (plain-Program source.now.program.now) source.now.function.now.item) in
        IfOk result (λ b. map plain-Param b.0.params ≡ spec.named_params names source.now.function.now decided.now.plan.now.params decided.now.modes.now decided.now.moved.now) }
    ensures locals { let names = declared_names_of (slice_get (plain-Program source.now.program.now) source.now.function.now.item) in
        IfOk result (λ b. map plain-Variable b.0.locals ≡ spec.named_variables names source.now.function.now decided.now.plan.now.locals) }
    ensures redeclared { let names = declared_names_of (slice_get (plain-Program source.now.program.now) source.now.function.now.item) in
        IfOk result (λ b. map plain-Variable b.0.redeclared ≡ spec.named_variables names source.now.function.now decided.now.plan.now.redeclared) }
    ensures pins { IfOk result (λ b. option_map plain-Pins b.1
        ≡ pins_if_of decided.now.plan.now.loose source.now.function.now decided.now.run.now.span source.now.diverging.now (nodes_of (slice_get (plain-Program source.now.program.now) source.now.function.now.item))) }
{
    let function = source.function;
    let item = function.item as usize;
    let nodes = item_nodes(alloc, source.program, item)?;
    let names = declared_names(alloc, source.program, item, nodes.as_slice())?;
    let pins = pins_if(
        alloc,
        decided.plan.loose.as_slice(),
        function,
        decided.run.span,
        source.diverging,
        nodes.as_slice(),
    )?;
    let (lists, pins) = keep(pins, lists(alloc, names.as_slice(), function, decided))?;
    Ok((lists, pins))
}

/// The plan by names of a run of the text with these tokens, for a new function of this name.
pub fn named_plan(
    alloc: Global,
    tokens: &Tokens<'_>,
    source: &Source<'_>,
    decided: &Decided<'_>,
    name: &str,
) -> Result<NamedPlan, AllocError>
    ensures { IfOk result (λ k. plain-Plan k ≡ spec.named_plan (record {
      tokens = toks tokens.now.list;
      program = plain-Program source.now.program.now;
      declared = declarations source.now.decls.now.items;
      function = source.now.function.now;
      diverging = source.now.diverging.now;
      run = decided.now.run.now;
      loops = decided.now.loops.now;
      plan = decided.now.plan.now;
      modes = decided.now.modes.now;
      moved = decided.now.moved.now;
      name = name.now;
    })) }
{
    let parts = parts(alloc, source, decided)?;
    let (ends, parts) = keep(parts, ends(alloc, source, decided))?;
    let (words, (parts, ends)) = keep((parts, ends), words(alloc, tokens, name))?;
    let (lists, pins) = parts;
    let VariableLists {
        exits,
        params,
        locals,
        redeclared,
    } = lists;
    let EndTypes {
        value,
        never,
        result,
    } = ends;
    let PlanWords {
        name,
        identifiers,
        lifetimes,
    } = words;
    Ok(NamedPlan {
        name,
        exits,
        value,
        never,
        result,
        params,
        locals,
        redeclared,
        pins,
        identifiers,
        lifetimes,
    })
}
