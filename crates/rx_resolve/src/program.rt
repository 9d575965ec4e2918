//! The names of a whole program.

ghost use Rattle.std.specs.Prelude.{◌≡◌, ◌≢◌, ◌<◌, ◌^◌, [], ◌∷◌, ◌++◌, length, map, Ok, Err, IfOk, IfErr};
ghost use Rattle.rx_tree.specs.PlainOf.{plain-Item, plain-Program};
ghost use Rattle.rx_tree.specs.declared.tree.Ident.{Ident};
ghost use Rattle.rx_tree.specs.declared.tree.BoundLifetime.{BoundLifetime};
ghost use Rattle.rx_resolve_names.specs.Meant as meant;
ghost use Rattle.rx_resolve_names.specs.Steps as steps;
ghost use Rattle.rx_resolve_names.specs.Items as items_spec;
ghost use Rattle.rx_tree.specs.Size.{IsNumbered};
ghost use Rattle.rx_resolve.specs.Walks as walks;
ghost use Rattle.rx_resolve_names.specs.Causes as causes;

use crate::items::{Items, first_lifetimes, firsts, number};
use crate::walk::Walk;
use rx_core::{List, Span};
use rx_resolve_names::{ItemNames, Misnamed, NameFault, Resolved, Scope, Table};
use rx_tree::{BoundLifetime, Ident, Item, ItemNode, Program};
use std::alloc::{AllocError, Global};

/// The fault of a program in which something is misnamed.
fn fault_of(misnamed: Misnamed) -> NameFault
    ensures { result ≡ causes.fault_of misnamed }
{
    match misnamed {
        Misnamed::Unknown { at } => NameFault::Unknown { at },
        Misnamed::Twice { first, second } => NameFault::Twice { first, second },
        Misnamed::Label { at } => NameFault::Label { at },
        Misnamed::OutOfMemory => NameFault::OutOfMemory,
    }
}

/// The first of each name of the lifetimes that an item declares.
fn declared_lifetimes<'t>(alloc: Global, item: &'t Item) -> Result<Table<'t>, AllocError>
    ensures { IfOk result (λ t. t ≡ meant.firsts [] 0 (meant.lifetimes_declared (plain-Item item.now))) }
{
    match &item.node {
        ItemNode::Rt(_) => Ok(Table::new(alloc)),
        ItemNode::Struct(data) => firsts(alloc, data.lifetimes.as_slice()),
        ItemNode::Enum(data) => firsts(alloc, data.lifetimes.as_slice()),
        ItemNode::Func(function) => first_lifetimes(alloc, function.lifetimes.as_slice()),
    }
}

fn spans_of(alloc: Global, names: &[Ident]) -> Result<List<Span>, AllocError>
    ensures { IfOk result (λ it. it ≡ map (λ (l : Ident). l.span) names.now) }
{
    let mut spans = List::new(alloc);
    for name in names {
        spans.push(name.span)?;
    }
    Ok(spans)
}

fn lifetime_spans_of(alloc: Global, lifetimes: &[BoundLifetime]) -> Result<List<Span>, AllocError>
    ensures { IfOk result (λ it. it ≡ map (λ (l : BoundLifetime). l.name.span) lifetimes.now) }
{
    let mut spans = List::new(alloc);
    for lifetime in lifetimes {
        spans.push(lifetime.name.span)?;
    }
    Ok(spans)
}

/// The places of the names of the lifetimes that an item declares.
#[tactic(auto, using(crate::proofs::ItemLemmas::lifetime_places))]
fn lifetime_spans(alloc: Global, item: &Item) -> Result<List<Span>, AllocError>
    ensures { IfOk result (λ it. it ≡ map (λ (l : Ident). l.span) (meant.lifetimes_declared (plain-Item item.now))) }
{
    match &item.node {
        ItemNode::Rt(_) => Ok(List::new(alloc)),
        ItemNode::Struct(data) => spans_of(alloc, data.lifetimes.as_slice()),
        ItemNode::Enum(data) => spans_of(alloc, data.lifetimes.as_slice()),
        ItemNode::Func(function) => lifetime_spans_of(alloc, function.lifetimes.as_slice()),
    }
}

/// A walk that stands at an item, with nothing in scope.
fn begun<'w, 't>(
    alloc: Global,
    items: &'w Items<'t>,
    item: &'t Item,
    place: usize,
) -> Result<Walk<'w, 't>, AllocError>
    ensures { IfOk result (λ w. walks.Begun w items.now place (plain-Item item.now)) }
{
    let lifetimes = declared_lifetimes(alloc, item)?;
    let spans = lifetime_spans(alloc, item)?;
    Ok(Walk {
        alloc,
        items,
        item: number(place),
        lifetimes,
        path: List::new(alloc),
        scope: Scope::new(alloc),
        around: List::new(alloc),
        tables: ItemNames {
            vars: List::new(alloc),
            lifetimes: spans,
            loops: List::new(alloc),
            names: List::new(alloc),
        },
    })
}

/// The names of an item, which is at this place of the program.
fn item_names<'t>(
    alloc: Global,
    items: &Items<'t>,
    item: &'t Item,
    place: usize,
) -> Result<ItemNames, Misnamed>
    ensures { steps.Gives (items_spec.in_item (map plain-Item items.now) place (plain-Item item.now)) result }
{
    match begun(alloc, items, item, place) {
        Ok(walk) => {
            let mut walk = walk;
            match walk.item(item) {
                Ok(()) => Ok(walk.tables),
                Err(fault) => Err(fault),
            }
        }
        Err(AllocError) => Err(Misnamed::OutOfMemory),
    }
}

#[tactic(auto, using(crate::proofs::ResolveLemmas::before_next, crate::proofs::ResolveLemmas::before_none))]
fn names_of_items<'t>(
    alloc: Global,
    tables: &Items<'t>,
    items: &'t [Item],
) -> Result<List<ItemNames>, Misnamed>
    ensures { steps.Gives (items_spec.in_items (map plain-Item tables.now) 0 (map plain-Item items.now)) result }
{
    let mut all = List::new(alloc);
    for i in 0..items.len() {
        let names = item_names(alloc, tables, &items[i], i)?;
        match all.push(names) {
            Ok(()) => (),
            Err(AllocError) => return Err(Misnamed::OutOfMemory),
        }
    }
    Ok(all)
}

/// What the names of a program mean: the variables, lifetimes and loops of each item by their numbers, and the numbers
/// that stand for the names at each node.
///
/// The fault is the first: of two items with one name, the later; then what is wrong within an item, in the order of
/// the text; then a struct or enum that holds itself, through references too (Rust Reference, "Names", "Scopes",
/// "Namespaces").
pub fn resolve(alloc: Global, program: &Program) -> Result<Resolved, NameFault>
    requires { IsNumbered (plain-Program program.now) }
    ensures found { IfOk result (λ r. causes.Meant (plain-Program program.now) r.items) }
    ensures fault { IfErr result (λ f. causes.Causes f (plain-Program program.now)) }
{
    let items = program.items.as_slice();
    match Items::new(alloc, items) {
        Ok(tables) => match names_of_items(alloc, &tables, items) {
            Ok(names) => match tables.self_holding(alloc) {
                Ok(None) => Ok(Resolved { items: names }),
                Ok(Some(at)) => Err(NameFault::SelfHolding { at }),
                Err(AllocError) => Err(NameFault::OutOfMemory),
            },
            Err(misnamed) => Err(fault_of(misnamed)),
        },
        Err(misnamed) => Err(fault_of(misnamed)),
    }
}
