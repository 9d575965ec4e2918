//! The extraction of a run of statements.

ghost use Rattle.std.specs.Prelude.{◌≡◌, ◌+◌, ◌<◌, ◌≤◌, ◌^◌, ◌∷◌, [], true, IfOk, MatchResult, None, map, slice_get};
ghost use Rattle.rx_tree.specs.PlainOf.{plain-Block, plain-Func, plain-Item, plain-Program};
ghost use Rattle.rx_tree.specs.Plain as plain;
ghost use Rattle.rx_hoist_plan.specs.PlainPlan.{plain-Plan};
ghost use Rattle.rx_hoist_extraction.specs.Run as runs;
ghost use Rattle.rx_hoist_extraction.specs.Extraction as extractions;
ghost use Rattle.rx_hoist_extraction.specs.NewEnum as new_enums;
ghost use Rattle.rx_hoist_extraction.specs.NewFunction as new_functions;
ghost use Rattle.rx_hoist_made.specs.PlainParts.{plain-Labels};
ghost use Rattle.rx_hoist.specs.Runs.{run_of, is_function};
ghost use Rattle.rx_hoist.specs.declared.hoisting.HoistFault.TheVariants.{OutOfMemory};
ghost use Rattle.rx_hoist.specs.Limits as limits;
ghost use Rattle.rx_hoist.specs.Hoisting as hoisting;

use crate::function::{made_function, pinned_body, with_body};
use crate::parts::{from_on, run_parts, with_parts};
use crate::program::with_items;
use crate::site::{block_at, labels_round};
use rx_core::{LetGo, List, Span, Which, keep, pushed};
use rx_hoist_changes::with_block;
use rx_hoist_items::{new_enum, replacement};
use rx_hoist_made::{copied_lifetimes, enum_positions, has_enum, signature_positions};
use rx_hoist_plan::NamedPlan;
use rx_tree::{Block, Func, Ident, Item, ItemNode, Program};
use rx_typed_runs::RunPos;
use std::alloc::{AllocError, Global};

/// A program with a run of its statements in a function of their own.
pub struct Hoisted {
    pub program: Program,
    /// The number of the new function's item.
    pub new_fn: u32,
}

/// Why there is none.
#[derive(Clone, Copy, Debug, PartialEq, Eq)]
pub enum HoistFault {
    /// What passes its limit first, and its number, at most `u64::MAX`.
    Limit { which: Which, count: u64 },
    OutOfMemory,
}

impl From<AllocError> for HoistFault {
    ghost from_gives = { λ _ e. e ≡ OutOfMemory };

    fn from(_error: AllocError) -> HoistFault {
        HoistFault::OutOfMemory
    }
}

/// The number of lifetime positions of the new function's signature, where no limit is passed.
fn within_limits(program: &Program, plan: &NamedPlan, copied: &[Ident]) -> Result<u64, HoistFault>
    ensures within { IfOk result (λ n. (n ≡ new_functions.signature_positions (plain-Program program.now) (plain-Plan plan.now)) × (n ≤ 128)) }
    ensures limit { MatchResult result (λ _. limits.limit_by (plain-Program program.now) (plain-Plan plan.now) copied.now ≡ None)
        (λ fault. limits.Allowed (limits.limit_by (plain-Program program.now) (plain-Plan plan.now) copied.now) fault) }
{
    let count = plan.params.len() as u64;
    if count > 64 {
        return Err(HoistFault::Limit {
            which: Which::Parameters,
            count,
        });
    }
    let positions = signature_positions(program, plan);
    let count = (copied.len() as u64).saturating_add(positions);
    if count > 128 {
        return Err(HoistFault::Limit {
            which: Which::Lifetimes,
            count,
        });
    }
    Ok(positions)
}

/// The block of the run with the call in place of the run.
fn block_with_call(
    alloc: Global,
    program: &Program,
    run: &RunPos,
    plan: &NamedPlan,
    labels: &[Option<&Ident>],
    block: &Block,
) -> Result<Block, AllocError>
    ensures { IfOk result (λ it. plain-Block it ≡ hoisting.block_with_call (plain-Program program.now) (run_of run.now) (plain-Plan plan.now)
        (plain-Labels labels.now) (plain-Block block.now)) }
{
    let parts = run_parts(block, run);
    let call = replacement(alloc, program, plan, run.span, labels, parts)?;
    with_parts(alloc, block, run, call)
}

/// Where the run stands: the body of its function, pinned, its block, and the labels of the loops round it.
#[derive(Clone, Copy)]
struct Site<'a> {
    body: &'a Block,
    block: &'a Block,
    labels: &'a [Option<&'a Ident>],
}

/// The body of the function of the run, with the call.
fn body_with_call(
    alloc: Global,
    program: &Program,
    run: &RunPos,
    plan: &NamedPlan,
    site: Site<'_>,
) -> Result<Block, AllocError>
    ensures { IfOk result (λ it. plain-Block it ≡ hoisting.body_with_call (plain-Program program.now) (run_of run.now) (plain-Plan plan.now)
        (plain-Labels site.entry.labels.now) (plain-Block site.entry.block.now) (plain-Block site.entry.body.now)) }
{
    let new = block_with_call(alloc, program, run, plan, site.labels, site.block)?;
    let body = with_block(alloc, site.block.span, &new, site.body);
    new.let_go();
    body
}

/// The new function's item.
fn function_item(
    alloc: Global,
    program: &Program,
    run: &RunPos,
    plan: &NamedPlan,
    site: Site<'_>,
    copied: &[Ident],
    positions: usize,
) -> Result<Item, AllocError>
    requires copied { copied.now ≡ new_functions.copied_lifetimes (runs.chosen_parts (run_of run.now) (plain-Block site.block.now)) }
    requires counted { positions ≡ new_functions.signature_positions (plain-Program program.now) (plain-Plan plan.now) }
    requires few { positions < 2 ^ 63 }
    ensures { IfOk result (λ it. plain-Item it ≡ hoisting.function_item (plain-Program program.now) (run_of run.now) (plain-Plan plan.now)
        (plain-Labels site.entry.labels.now) (runs.chosen_parts (run_of run.now) (plain-Block site.entry.block.now))) }
{
    let parts = run_parts(site.block, run);
    let function = made_function(
        alloc,
        program,
        plan,
        run.span,
        site.labels,
        parts,
        copied,
        positions,
    )?;
    Ok(Item {
        span: run.span,
        node: ItemNode::Func(function),
    })
}

/// The enum's item, where the signature has so many lifetime positions.
fn enum_item(
    alloc: Global,
    program: &Program,
    plan: &NamedPlan,
    span: Span,
) -> Result<Item, AllocError>
    requires few { new_enums.enum_positions (plain-Program program.now) (plain-Plan plan.now) < 2 ^ 63 }
    ensures { IfOk result (λ it. plain-Item it
        ≡ plain.enum_item span (new_enums.new_enum (plain-Program program.now) (plain-Plan plan.now) span)) }
{
    let positions = enum_positions(program, plan) as usize;
    let made = new_enum(alloc, program, plan, span, positions)?;
    Ok(Item {
        span,
        node: ItemNode::Enum(made),
    })
}

/// The function of the run with the call, and the enum where there is one.
fn first_items(
    alloc: Global,
    program: &Program,
    run: &RunPos,
    plan: &NamedPlan,
    old: Item,
) -> Result<List<Item>, AllocError>
    requires few { new_functions.signature_positions (plain-Program program.now) (plain-Plan plan.now) < 2 ^ 63 }
    ensures { IfOk result (λ it. map plain-Item it
        ≡ plain-Item old ∷ hoisting.enum_if_any (plain-Program program.now) (run_of run.now) (plain-Plan plan.now)) }
{
    let items = pushed(List::new(alloc), old)?;
    if !has_enum(plan.exits.as_slice()) {
        return Ok(items);
    }
    let (made, items) = keep(items, enum_item(alloc, program, plan, run.span))?;
    pushed(items, made)
}

/// The items in place of the function of the run.
fn items_of(
    alloc: Global,
    program: &Program,
    run: &RunPos,
    plan: &NamedPlan,
    site: Site<'_>,
    span: Span,
    function: &Func,
    copied: &[Ident],
    positions: usize,
) -> Result<List<Item>, AllocError>
    requires copied { copied.now ≡ new_functions.copied_lifetimes (runs.chosen_parts (run_of run.now) (plain-Block site.block.now)) }
    requires counted { positions ≡ new_functions.signature_positions (plain-Program program.now) (plain-Plan plan.now) }
    requires few { positions < 2 ^ 63 }
    ensures { IfOk result (λ it. map plain-Item it ≡ hoisting.items_of (plain-Program program.now) (run_of run.now) (plain-Plan plan.now)
        (plain-Labels site.entry.labels.now) (plain-Block site.entry.block.now) (plain-Block site.entry.body.now) span (plain-Func function.now)) }
{
    let body = body_with_call(alloc, program, run, plan, site)?;
    let old = Item {
        span,
        node: ItemNode::Func(with_body(alloc, function, body)?),
    };
    let items = first_items(alloc, program, run, plan, old)?;
    let new = function_item(alloc, program, run, plan, site, copied, positions);
    let (new, items) = keep(items, new)?;
    pushed(items, new)
}

/// The program with the call and the new items, where the run stands here.
fn hoisted_at(
    alloc: Global,
    program: &Program,
    run: &RunPos,
    plan: &NamedPlan,
    site: Site<'_>,
    span: Span,
    function: &Func,
) -> Result<Program, HoistFault>
    ensures program { IfOk result (λ it. plain-Program it ≡ hoisting.with_items (plain-Program program.now) (run_of run.now).item
        (hoisting.items_of (plain-Program program.now) (run_of run.now) (plain-Plan plan.now) (plain-Labels site.entry.labels.now)
        (plain-Block site.entry.block.now) (plain-Block site.entry.body.now) span (plain-Func function.now))) }
    ensures limit { MatchResult result
        (λ _. limits.limit (plain-Program program.now) (plain-Plan plan.now) (runs.chosen_parts (run_of run.now) (plain-Block site.entry.block.now)) ≡ None)
        (λ fault. limits.Allowed (limits.limit (plain-Program program.now) (plain-Plan plan.now)
        (runs.chosen_parts (run_of run.now) (plain-Block site.entry.block.now))) fault) }
{
    let copied = copied_lifetimes(alloc, run_parts(site.block, run))?;
    let positions = within_limits(program, plan, copied.as_slice())?;
    let items = items_of(
        alloc,
        program,
        run,
        plan,
        site,
        span,
        function,
        copied.as_slice(),
        positions as usize,
    )?;
    Ok(with_items(alloc, program, run.function, items)?)
}

/// A block of nothing.
#[tactic(auto, using(rx_tree::proofs::Rules::block_rules))]
pub fn no_block(alloc: Global) -> Block
    ensures { plain-Block result ≡ hoisting.no_block }
{
    Block {
        span: Span { start: 0, end: 0 },
        stmts: List::new(alloc),
        tail: None,
    }
}

/// The program with the call and the new items, where the pinned body of the function is this.
fn hoisted_in(
    alloc: Global,
    program: &Program,
    run: &RunPos,
    plan: &NamedPlan,
    body: &Block,
    other: &Block,
    span: Span,
    function: &Func,
) -> Result<Program, HoistFault>
    requires { plain-Block other.now ≡ hoisting.no_block }
    ensures program { IfOk result (λ it. plain-Program it ≡ hoisting.with_items (plain-Program program.now) (run_of run.now).item
        (hoisting.items_in (plain-Program program.now) (run_of run.now) (plain-Plan plan.now) (plain-Block body.now) span (plain-Func function.now))) }
    ensures limit { MatchResult result
        (λ _. limits.limit (plain-Program program.now) (plain-Plan plan.now) (hoisting.parts_in (run_of run.now) (plain-Block body.now)) ≡ None)
        (λ fault. limits.Allowed (limits.limit (plain-Program program.now) (plain-Plan plan.now) (hoisting.parts_in (run_of run.now) (plain-Block body.now))) fault) }
{
    let way = from_on(run.block.path.as_slice(), 1);
    let labels = labels_round(alloc, body, way)?;
    let site = Site {
        body,
        block: block_at(body, way, other),
        labels: labels.as_slice(),
    };
    hoisted_at(alloc, program, run, plan, site, span, function)
}

/// The function that an item is.
fn function_of<'t>(item: &'t Item) -> (Span, &'t Func)
    requires { is_function (Some (plain-Item item.now)) ≡ true }
    ensures { Some (plain-Item item.now) ≡ hoisting.some_function result.0 (plain-Func result.1.now) }
{
    match &item.node {
        ItemNode::Func(function) => (item.span, function),
        ItemNode::Rt(_) => unreachable!(),
        ItemNode::Struct(_) => unreachable!(),
        ItemNode::Enum(_) => unreachable!(),
    }
}

/// The function of a number.
pub fn function_at<'t>(program: &'t Program, number: u32) -> (Span, &'t Func)
    requires { is_function (slice_get (plain-Program program.now) number) ≡ true }
    ensures { slice_get (plain-Program program.now) number ≡ hoisting.some_function result.0 (plain-Func result.1.now) }
{
    match program.items.get(number as usize) {
        Some(item) => function_of(item),
        None => unreachable!(),
    }
}

/// How many items are new.
fn added(plan: &NamedPlan) -> u32
    ensures value { result ≡ extractions.added (plain-Plan plan.now) }
    ensures few { result ≤ 2 }
{
    if has_enum(plan.exits.as_slice()) {
        2
    } else {
        1
    }
}

/// The extraction of a run by a plan, without bounds for the new function's lifetimes. What passes its limit first is told, of
/// the new function's parameters (64) and its lifetimes (128); the levels of the text, `levels_past` and then `parts_past` are
/// asked by the caller.
pub fn hoist(
    alloc: Global,
    program: &Program,
    run: &RunPos,
    plan: &NamedPlan,
) -> Result<Hoisted, HoistFault>
    requires function { is_function (slice_get (plain-Program program.now) run.now.function) ≡ true }
    requires few { run.now.function + 2 < 2 ^ 32 }
    ensures program { IfOk result (λ it. plain-Program it.program
        ≡ extractions.extraction (plain-Program program.now) (run_of run.now) (plain-Plan plan.now) []) }
    ensures number { IfOk result (λ it. it.new_fn ≡ extractions.new_number (run_of run.now) (plain-Plan plan.now)) }
    ensures limit { MatchResult result (λ _. limits.limit_at (plain-Program program.now) (run_of run.now) (plain-Plan plan.now) ≡ None)
        (λ fault. limits.Allowed (limits.limit_at (plain-Program program.now) (run_of run.now) (plain-Plan plan.now)) fault) }
{
    let (span, function) = function_at(program, run.function);
    let body = pinned_body(alloc, program, plan, run.span, &function.body)?;
    let other = no_block(alloc);
    let outcome = hoisted_in(alloc, program, run, plan, &body, &other, span, function);
    body.let_go();
    other.let_go();
    Ok(Hoisted {
        program: outcome?,
        new_fn: run.function + added(plan),
    })
}
