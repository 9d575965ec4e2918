//! What a program declares.

ghost use Rattle.std.specs.Prelude.{◌≡◌, ◌≢◌, [], map, slice_get, option_map, Ok, Err, IfOk, IfErr};
ghost use Rattle.rx_tree.specs.PlainOf.{plain-Func, plain-Item, plain-Program};
ghost use Rattle.rx_tree.specs.Spans as spans;
ghost use Rattle.rx_typeck_solver.specs.declared.facts.Rule.{Rule};
ghost use Rattle.rx_typed.specs.PlainTypes.{declarations};
ghost use Rattle.rx_typeck_typed.specs.declared.fault.DeclareFault.TheVariants as fault;
ghost use Rattle.rx_typeck_typed.specs.Steps as steps;
ghost use Rattle.rx_typeck_typed.specs.Readers.{program};
ghost use Rattle.rx_typeck_typed.specs.Items as items_spec;
ghost use Rattle.rx_typeck_typed.specs.Programs as programs;

use crate::copying::all_derived;
use crate::declare_types::Types;
use crate::fault::DeclareFault;
use crate::limits::within_limits;
use crate::reader::push;
use rx_core::{List, Span};
use rx_resolve_names::{NodeNames, Resolved};
use rx_tree::{Func, Item, ItemNode, Program};
use rx_typeck_solver::Rule;
use rx_typed::{Decl, Decls};
use std::alloc::Global;

/// The entries of an item; none where it has no table.
fn entries_of(names: &Resolved, item: usize) -> &[NodeNames]
    ensures { result.now ≡ items_spec.entries_of (slice_get names.now.items item) }
{
    match names.items.get(item) {
        Some(table) => table.names.as_slice(),
        None => &[],
    }
}

impl<'t> Types<'t> {
    /// What an item declares.
    fn declared_item(&self, names: &[NodeNames], item: &Item) -> Result<Decl, DeclareFault>
        ensures { steps.Gives (items_spec.declared_item (program self.now) names.now (plain-Item item.now)) result }
    {
        match &item.node {
            ItemNode::Rt(_) => Ok(Decl::Rt),
            ItemNode::Struct(data) => self.declared_struct(names, data),
            ItemNode::Enum(data) => self.declared_enum(names, data),
            ItemNode::Func(function) => self.declared_function(names, function),
        }
    }

    /// What each item declares.
    #[tactic(auto, using(crate::proofs::ReadingLemmas::behind_next, crate::proofs::ReadingLemmas::behind_none))]
    fn declared_items(&self, names: &Resolved) -> Result<List<Decl>, DeclareFault>
        ensures { steps.Gives (items_spec.declared_items (program self.now) names.now.items 0 (program self.now))
            result }
    {
        let items = self.items;
        let mut all = List::new(self.alloc);
        for i in 0..items.len() {
            push(
                &mut all,
                self.declared_item(entries_of(names, i), &items[i])?,
            )?;
        }
        Ok(all)
    }
}

/// The function `main`.
fn main_of(items: &[Item]) -> Option<&Func>
    ensures { option_map (λ f. plain-Func f.now) result ≡ programs.main_of (map plain-Item items.now) }
{
    for item in items {
        if let ItemNode::Func(function) = &item.node {
            if function.name.name.as_str() == "main" {
                return Some(function);
            }
        }
    }
    None
}

/// The span of the last item, and that of nothing where there is none.
fn last_span(items: &[Item]) -> Span
    ensures { result ≡ spans.last_span (record { start = 0; end = 0 }) (map plain-Item items.now) }
{
    let mut span = Span { start: 0, end: 0 };
    for item in items {
        span = item.span;
    }
    span
}

/// From the start of the first item to the end of the last.
fn program_span(items: &[Item]) -> Span
    ensures { result ≡ spans.program_span (map plain-Item items.now) }
{
    let end = last_span(items).end;
    match items {
        [first, ..] => Span {
            start: first.span.start,
            end,
        },
        [] => Span { start: 0, end: 0 },
    }
}

/// Whether a function has neither lifetimes nor parameters nor a written result.
#[tactic(auto, using(crate::proofs::ItemLemmas::nothing_mapped))]
fn is_bare(function: &Func) -> bool
    ensures { result ≡ programs.is_bare (plain-Func function.now) }
{
    function.lifetimes.is_empty() && (function.params.is_empty() && function.result.is_none())
}

/// The fault of `main` at a place.
fn wrong_main(at: Span) -> Result<(), DeclareFault>
    ensures { result ≡ Err (fault.Mismatch at Rule.Main) }
{
    Err(DeclareFault::Mismatch {
        at,
        rule: Rule::Main,
    })
}

/// Whether there is a function `main`, without lifetimes, parameters and result.
fn main_fits(items: &[Item]) -> Result<(), DeclareFault>
    ensures { result ≡ programs.main_fits (spans.program_span (map plain-Item items.now))
        (programs.main_of (map plain-Item items.now)) }
{
    match main_of(items) {
        Some(function) => {
            if is_bare(function) {
                Ok(())
            } else {
                wrong_main(function.name.span)
            }
        }
        None => wrong_main(program_span(items)),
    }
}

/// Whether all declarations are as they have to be.
fn fits(alloc: Global, decls: &Decls, items: &[Item]) -> Result<(), DeclareFault>
    ensures { programs.Fitting (map plain-Item items.now) (declarations decls.now.items) result }
{
    match all_derived(decls, items) {
        Ok(()) => match within_limits(alloc, decls, items) {
            Ok(()) => main_fits(items),
            Err(fault) => Err(fault),
        },
        Err(fault) => Err(fault),
    }
}

/// Declarations, where they are as they have to be.
fn fitting(alloc: Global, decls: Decls, items: &[Item]) -> Result<Decls, DeclareFault>
    ensures found { IfOk result (λ d. programs.Fits (map plain-Item items.now) (declarations decls.items)
        × (d ≡ decls)) }
    ensures fault { IfErr result (λ e. e ≢ fault.OutOfMemory
        → programs.Unfit (map plain-Item items.now) (declarations decls.items) e) }
{
    match fits(alloc, &decls, items) {
        Ok(()) => Ok(decls),
        Err(fault) => Err(fault),
    }
}

/// What the items of a program declare, by their numbers, with the names that `resolve` gives.
///
/// The types have their lifetimes by number: the declared ones of the item from 0, then for a function those that its
/// parameters leave out, in the order of the text. A result that leaves out lifetimes has the only one of the
/// parameters' types (Rust Reference, "Lifetime elision").
///
/// The fault is the first. First each item's types, in the order of the text: in a field a type has none or all of
/// its lifetimes, each written (Lifetimes, else Elision, at the type), and so has a result that nothing tells
/// (Elision); behind the fields of a struct or enum, each declared lifetime occurs in one (Unused, at the lifetime's
/// name). Then each struct and enum, at its name: it derives Clone and Copy at most once, and Copy with Clone beside
/// it and where all its fields are Copy (CopyOf); then likewise, it has at most 4,096 parts, and the type of each of
/// its fields at most 128 levels (Parts; one that reaches itself has no end of parts, and the first such comes
/// first). Last `main`: it has no lifetimes, no parameters and no result (Main, at its name; where there is none,
/// from the program's first token to its last, and 0 0 where it has none).
pub fn declare(alloc: Global, program: &Program, names: &Resolved) -> Result<Decls, DeclareFault>
    ensures found { IfOk result (λ d. programs.Declares (plain-Program program.now) names.now.items d.items) }
    ensures fault { IfErr result (λ e. e ≢ fault.OutOfMemory
        → programs.Wrong (plain-Program program.now) names.now.items e) }
{
    let items = program.items.as_slice();
    let types = Types { alloc, items };
    match types.declared_items(names) {
        Ok(decls) => fitting(alloc, Decls { items: decls }, items),
        Err(fault) => Err(fault),
    }
}
