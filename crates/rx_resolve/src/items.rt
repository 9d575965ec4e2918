//! The items of a program by their names.

ghost use Rattle.std.specs.Prelude.{◌≡◌, ◌≢◌, ◌<◌, ◌^◌, [], IfOk, IfErr, OnOk, length, map, MatchResult, Ok, Err, option_map};
ghost use Rattle.rx_tree.specs.declared.tree.EnumVariant.{EnumVariant};
ghost use Rattle.rx_tree.specs.declared.tree.BoundLifetime.{BoundLifetime};
ghost use Rattle.rx_tree.specs.PlainOf.{plain-Item};
ghost use Rattle.rx_resolve_names.specs.declared.table.NumberedName.{NumberedName};
ghost use Rattle.rx_resolve_names.specs.Scopes.{declared_as};
ghost use Rattle.rx_resolve_names.specs.declared.resolved.Misnamed.TheVariants as misnamed;
ghost use Rattle.rx_resolve_names.specs.Meant as meant;
ghost use Rattle.rx_resolve_names.specs.Steps as steps;
ghost use Rattle.rx_resolve_names.specs.Items as items_spec;
ghost use Rattle.rx_resolve.specs.Tables as tables;

use rx_core::{List, Span};
use rx_resolve_names::{Misnamed, NumberedName, Table};
use rx_tree::{BoundLifetime, EnumVariant, Ident, Item, ItemNode};
use std::alloc::{AllocError, Global};
use std::marker::Model;

/// A number in 32 bits, where it fits.
pub(crate) fn number(n: usize) -> u32
    ensures { result ≡ meant.number n }
{
    if n < 4_294_967_295 {
        n as u32
    } else {
        4_294_967_295
    }
}

/// Adds a name to a list, where it has none like it.
pub(crate) fn declare<'t>(
    names: &mut Table<'t>,
    ident: &'t Ident,
    place: usize,
) -> Result<(), Misnamed>
    ensures { steps.Resolves (steps.declare names.old ident.now place) result names.new }
{
    declare_name(names, ident.name.as_str(), ident.span, place)
}

/// Adds a name that stands at a span to a list, where it has none like it.
fn declare_name<'t>(
    names: &mut Table<'t>,
    name: &'t str,
    span: Span,
    place: usize,
) -> Result<(), Misnamed>
    ensures { steps.Resolves (steps.declare names.old (record { span = span; name = name.now }) place) result names.new }
{
    let known = NumberedName {
        number: number(place),
        span,
    };
    match names.declare(name, known) {
        Ok(None) => Ok(()),
        Ok(Some(first)) => Err(Misnamed::Twice {
            first: first.span,
            second: span,
        }),
        Err(AllocError) => Err(Misnamed::OutOfMemory),
    }
}

/// Adds a name to a list, unless it has one like it.
fn keep_first<'t>(names: &mut Table<'t>, ident: &'t Ident, place: usize) -> Result<(), AllocError>
    ensures { OnOk result (names.new ≡ meant.kept names.old ident.now place (declared_as names.old ident.now.name)) }
{
    let known = NumberedName {
        number: number(place),
        span: ident.span,
    };
    names.declare(ident.name.as_str(), known)?;
    Ok(())
}

/// The first of each name.
pub(crate) fn firsts<'t>(alloc: Global, idents: &'t [Ident]) -> Result<Table<'t>, AllocError>
    ensures { IfOk result (λ t. t ≡ meant.firsts [] 0 idents.now) }
{
    let mut names = Table::new(alloc);
    for i in 0..idents.len() {
        keep_first(&mut names, &idents[i], i)?;
    }
    Ok(names)
}

/// The first of each name of these lifetimes.
pub(crate) fn first_lifetimes<'t>(
    alloc: Global,
    lifetimes: &'t [BoundLifetime],
) -> Result<Table<'t>, AllocError>
    ensures { IfOk result (λ t. t ≡ meant.firsts [] 0 (map (λ (l : BoundLifetime). l.name) lifetimes.now)) }
{
    let mut names = Table::new(alloc);
    for i in 0..lifetimes.len() {
        keep_first(&mut names, &lifetimes[i].name, i)?;
    }
    Ok(names)
}

/// The first of each name of these variants.
fn first_variants<'t>(alloc: Global, variants: &'t [EnumVariant]) -> Result<Table<'t>, AllocError>
    ensures { IfOk result (λ t. t ≡ meant.firsts [] 0 (map (λ (v : EnumVariant). v.name) variants.now)) }
{
    let mut names = Table::new(alloc);
    for i in 0..variants.len() {
        keep_first(&mut names, &variants[i].name, i)?;
    }
    Ok(names)
}

fn number_of(known: Option<NumberedName>) -> Option<u32>
    ensures { result ≡ option_map (λ (k : NumberedName). k.number) known }
{
    match known {
        Some(known) => Some(known.number),
        None => None,
    }
}

/// The items of a program, with tables of their names. Contracts see it as the items.
#[derive(Drop)]
pub(crate) struct Items<'t> {
    pub(crate) items: &'t [Item],
    /// Structs, enums and `rt`.
    types: Table<'t>,
    functions: Table<'t>,
    /// The variants of each item.
    variants: List<Table<'t>>,
}

impl<'t> Model for Items<'t> {
    ghost use Rattle.std.specs.Prelude.{map, List};
    ghost use Rattle.std.specs.Coded.{coded_list};
    ghost use Rattle.rx_tree.specs.declared.tree.Item.{Item};
    ghost use Rattle.rx_tree.specs.contracts.tree.Item as item;
    ghost use Rattle.rx_tree.specs.PlainOf.{plain-Item};
    ghost use Rattle.rx_resolve.specs.Tables.{Lists};

    ghost Value = { List Item };

    ghost coded = { coded_list item.the_row.coded };

    ghost view = { λ t. t.items.now };

    ghost invariant = { λ t. Lists (map plain-Item t.items.now) t.types t.functions t.variants };
}

/// Adds the names of an item to those that it may have beside others: what a type names, and functions.
fn declare_item<'t>(
    types: &mut Table<'t>,
    functions: &mut Table<'t>,
    item: &'t Item,
    place: usize,
) -> Result<(), Misnamed>
    ensures { tables.Declares (plain-Item item.now) place types.old functions.old result types.new functions.new }
{
    match &item.node {
        ItemNode::Rt(span) => declare_name(types, "rt", *span, place),
        ItemNode::Struct(data) => declare(types, &data.name, place),
        ItemNode::Enum(data) => declare(types, &data.name, place),
        ItemNode::Func(function) => declare(functions, &function.name, place),
    }
}

/// The names of an item's variants.
#[tactic(auto, using(crate::proofs::ItemLemmas::variant_idents))]
fn variant_names<'t>(alloc: Global, item: &'t Item) -> Result<Table<'t>, AllocError>
    ensures { IfOk result (λ t. t ≡ meant.variant_names (plain-Item item.now)) }
{
    match &item.node {
        ItemNode::Enum(data) => first_variants(alloc, data.variants.as_slice()),
        _ => Ok(Table::new(alloc)),
    }
}

/// The names of the variants of all items.
fn all_variants<'t>(alloc: Global, items: &'t [Item]) -> Result<Vec<Table<'t>>, Misnamed>
    ensures names { IfOk result (λ all. all.items ≡ map meant.variant_names (map plain-Item items.now)) }
    ensures memory { IfErr result (λ e. e ≡ misnamed.OutOfMemory) }
{
    let mut all = Vec::new(alloc);
    for item in items {
        match variant_names(alloc, item) {
            Ok(names) => {
                if all.push(names).is_err() {
                    return Err(Misnamed::OutOfMemory);
                }
            }
            Err(AllocError) => return Err(Misnamed::OutOfMemory),
        }
    }
    Ok(all)
}

impl<'t> Items<'t> {
    /// The tables of items, no two of which may have one name among types or among functions.
    pub(crate) fn new(alloc: Global, items: &'t [Item]) -> Result<Items<'t>, Misnamed>
        requires { length items.now < 2 ^ 32 }
        ensures { tables.Apart (items_spec.apart (record { types = []; functions = [] }) 0 (map plain-Item items.now)) items.now result }
    {
        let mut types = Table::new(alloc);
        let mut functions = Table::new(alloc);
        for i in 0..items.len() {
            declare_item(&mut types, &mut functions, &items[i], i)?;
        }
        let variants = List::from_vec(all_variants(alloc, items)?);
        Ok(Items {
            items,
            types,
            functions,
            variants,
        })
    }

    /// The item that has this name among structs, enums and `rt`, with its number.
    pub(crate) fn type_item(&self, name: &str) -> Option<(u32, &'t Item)>
        ensures { option_map (λ e. (e.0, plain-Item e.1.now)) result ≡ meant.item_named meant.type_name 0 (map plain-Item self.now) name.now }
    {
        match self.types.get(name) {
            Some(known) => match self.items.get(known.number as usize) {
                Some(item) => Some((known.number, item)),
                None => None,
            },
            None => None,
        }
    }

    /// The number of the function of this name.
    pub(crate) fn function(&self, name: &str) -> Option<u32>
        ensures { result ≡ meant.as_function (meant.item_named meant.function_name 0 (map plain-Item self.now) name.now) }
    {
        number_of(self.functions.get(name))
    }

    /// The number of a variant of the enum of this number.
    pub(crate) fn variant(&self, name: &str, variant: &str) -> Option<u32>
        ensures { result ≡ meant.number_in (meant.variants_of (meant.item_named meant.type_name 0 (map plain-Item self.now) name.now)) variant.now }
    {
        match self.types.get(name) {
            Some(known) => match self.variants.get(known.number as usize) {
                Some(names) => number_of(names.get(variant)),
                None => None,
            },
            None => None,
        }
    }
}
