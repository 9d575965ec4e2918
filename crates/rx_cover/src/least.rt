//! Values of a type.

ghost use Rattle.std.specs.Prelude.{◌≡◌, [], ◌∷◌, ◌++◌, Some, None, false, IfOk, OnOk, length, map, option_map, slice_get};
ghost use Rattle.rx_typed.specs.PlainTypes.{plain-Ty, plain-VariantDecl, declarations};
ghost use Rattle.rx_typed.specs.Types.{Declarations, Typ, integer, boolean, named};
ghost use Rattle.rx_cover.specs.Finite.{Finite};
ghost use Rattle.rx_cover.specs.Inhabited.{Inhabited};
ghost use Rattle.rx_cover.specs.Heads as heads_spec;
ghost use Rattle.rx_cover.specs.PlainCells.{plain-Head, plain-Column};
ghost use Rattle.rx_cover.specs.PlainValue.{plain-Value};
ghost use Rattle.rx_cover.specs.Finding as spec;
ghost use Rattle.rx_cover.specs.Values as plain;

use crate::heads::{Head, whole};
use crate::inhabitance::all_valued;
use crate::kinds::{below_zero, greatest};
use crate::matrix::Column;
use crate::node::Node;
use crate::rows::types_under;
use crate::sets::has;
use crate::value::{Value, of_nodes};
use indexmap::IndexSet;
use rx_core::{Kind, List, Ty};
use rx_typed::{Decl, Decls, VariantDecl};
use std::alloc::{AllocError, Global};

/// The least magnitude up to `most` whose integer of this sign is none of these.
fn first_free(heads: &IndexSet<Head>, negative: bool, most: u64) -> Option<u64>
    ensures { spec.Free (map plain-Head heads.now.keys) negative most result }
{
    for magnitude in 0..most {
        if !has(heads, whole(negative, magnitude)) {
            return Some(magnitude);
        }
    }
    if has(heads, whole(negative, most)) {
        None
    } else {
        Some(most)
    }
}

/// The head of an integer of the kind that is none of these, where those from 0 on all are.
fn negative_apart(kind: Kind, heads: &IndexSet<Head>) -> Option<Head>
    requires { spec.Free (map plain-Head heads.now.keys) false (plain.greatest kind) None }
    ensures { (D : Declarations) → spec.HeadApart D (integer kind) (map plain-Head heads.now.keys)
        (option_map plain-Head result) }
{
    match first_free(heads, true, below_zero(kind)) {
        Some(magnitude) => Some(whole(true, magnitude)),
        None => None,
    }
}

fn integer_apart(kind: Kind, heads: &IndexSet<Head>) -> Option<Head>
    ensures { (D : Declarations) → spec.HeadApart D (integer kind) (map plain-Head heads.now.keys)
        (option_map plain-Head result) }
{
    match first_free(heads, false, greatest(kind)) {
        Some(magnitude) => Some(whole(false, magnitude)),
        None => negative_apart(kind, heads),
    }
}

fn truth_apart(heads: &IndexSet<Head>) -> Option<Head>
    ensures { (D : Declarations) → spec.HeadApart D boolean (map plain-Head heads.now.keys)
        (option_map plain-Head result) }
{
    if !has(heads, Head::Truth(false)) {
        return Some(Head::Truth(false));
    }
    if !has(heads, Head::Truth(true)) {
        return Some(Head::Truth(true));
    }
    None
}

/// The only head of a type, where it is none of these.
fn sole_apart(heads: &IndexSet<Head>, head: Head) -> Option<Head>
    ensures { (D : Declarations) (t : Typ) → spec.Sole D t (plain-Head head)
        → spec.HeadApart D t (map plain-Head heads.now.keys) (option_map plain-Head result) }
{
    if has(heads, head) { None } else { Some(head) }
}

/// Whether a variant has values and is none of the heads.
fn variant_free(
    inhabited: &[bool],
    item: u32,
    variant: u32,
    parts: &[Ty],
    heads: &IndexSet<Head>,
) -> bool
    ensures { (D : Declarations) → Inhabited D inhabited.now
        → spec.VariantFree D item variant (map plain-Ty parts.now) (map plain-Head heads.now.keys) result }
{
    !has(heads, Head::Chosen(item, variant)) && all_valued(inhabited, parts)
}

/// The first variant that has values and is none of the heads.
fn enum_apart(
    decls: &Decls,
    inhabited: &[bool],
    item: u32,
    variants: &[VariantDecl],
    heads: &IndexSet<Head>,
) -> Option<Head>
    requires numbered { spec.Numbered (declarations decls.now.items) }
    requires inhabited { Inhabited (declarations decls.now.items) inhabited.now }
    requires here { spec.IsEnum (slice_get (declarations decls.now.items) item) (map plain-VariantDecl variants.now) }
    ensures { spec.HeadApart (declarations decls.now.items) (named item) (map plain-Head heads.now.keys)
        (option_map plain-Head result) }
{
    for k in 0..variants.len() {
        let variant = k as u32;
        if variant_free(
            inhabited,
            item,
            variant,
            variants[k].parts.as_slice(),
            heads,
        ) {
            return Some(Head::Chosen(item, variant));
        }
    }
    None
}

fn item_apart(decls: &Decls, inhabited: &[bool], item: u32, heads: &IndexSet<Head>) -> Option<Head>
    requires numbered { spec.Numbered (declarations decls.now.items) }
    requires inhabited { Inhabited (declarations decls.now.items) inhabited.now }
    ensures { spec.HeadApart (declarations decls.now.items) (named item) (map plain-Head heads.now.keys)
        (option_map plain-Head result) }
{
    match decls.items.get(item as usize) {
        Some(Decl::Struct { .. }) => sole_apart(heads, Head::Composed),
        Some(Decl::Enum { variants, .. }) => enum_apart(
            decls,
            inhabited,
            item,
            variants.as_slice(),
            heads,
        ),
        Some(Decl::Rt) => None,
        Some(Decl::Func { .. }) => None,
        None => None,
    }
}

/// A head of the type that is none of these. Where a value of the type has a head that is none of these, one has the
/// head that is answered.
#[tactic(auto, using(rx_typed::proofs::TypedRules::typ_rules))]
fn head_apart(decls: &Decls, inhabited: &[bool], ty: &Ty, heads: &IndexSet<Head>) -> Option<Head>
    requires numbered { spec.Numbered (declarations decls.now.items) }
    requires inhabited { Inhabited (declarations decls.now.items) inhabited.now }
    ensures { spec.HeadApart (declarations decls.now.items) (plain-Ty ty.now) (map plain-Head heads.now.keys)
        (option_map plain-Head result) }
{
    match ty {
        Ty::Int(kind) => integer_apart(*kind, heads),
        Ty::Bool => truth_apart(heads),
        Ty::Tuple(_) => sole_apart(heads, Head::Composed),
        Ty::Shared(_, _) => sole_apart(heads, Head::Pointed),
        Ty::Mut(_, _) => sole_apart(heads, Head::Pointed),
        Ty::Adt(item, _) => item_apart(decls, inhabited, *item, heads),
    }
}

#[tactic(auto, using(rx_typed::proofs::TypedRules::typ_rules))]
fn composed_node(ty: &Ty, parts: usize) -> Node
    ensures { result ≡ spec.node_of (plain-Ty ty.now) heads_spec.composed parts }
{
    match ty {
        Ty::Adt(item, _) => Node::Made {
            adt: *item,
            fields: parts,
        },
        Ty::Int(_) => Node::Tuple(parts),
        Ty::Bool => Node::Tuple(parts),
        Ty::Tuple(_) => Node::Tuple(parts),
        Ty::Shared(_, _) => Node::Tuple(parts),
        Ty::Mut(_, _) => Node::Tuple(parts),
    }
}

/// The node of a value of the type with this head.
fn node_of(ty: &Ty, head: Head, parts: usize) -> Node
    requires { spec.Bounded (plain-Head head) }
    ensures { result ≡ spec.node_of (plain-Ty ty.now) (plain-Head head) parts }
{
    match head {
        Head::Natural(magnitude) => Node::Int {
            negative: false,
            magnitude,
        },
        Head::Negative(distance) => Node::Int {
            negative: true,
            magnitude: distance + 1,
        },
        Head::Truth(value) => Node::Bool(value),
        Head::Composed => composed_node(ty, parts),
        Head::Chosen(item, variant) => Node::Variant {
            adt: item,
            variant,
            parts,
        },
        Head::Pointed => Node::Reference,
    }
}

/// Moves columns to the end of a list, the first behind the others.
fn put_back<'a>(columns: List<Column<'a>>, pending: &mut List<Column<'a>>) -> Result<(), AllocError>
    ensures { OnOk result (spec.awaited pending.new ≡ map plain-Column columns.entry ++ spec.awaited pending.old) }
{
    let mut columns = columns;
    while let Some(column) = columns.pop() {
        pending.push(column)?;
    }
    Ok(())
}

/// Writes the node of a value of the type with this head. Its parts are awaited.
fn begin<'a>(
    alloc: Global,
    decls: &'a Decls,
    ty: &'a Ty,
    head: Head,
    pending: &mut List<Column<'a>>,
    row: &mut List<Node>,
) -> Result<(), AllocError>
    requires { heads_spec.IsHead (declarations decls.now.items) (plain-Ty ty.now) (plain-Head head) }
    ensures { OnOk result (spec.Begun (declarations decls.now.items) (plain-Ty ty.now) (plain-Head head)
        pending.old pending.new row.old row.new) }
{
    let columns = types_under(alloc, decls, ty, head)?;
    row.push(node_of(ty, head, columns.len()))?;
    put_back(columns, pending)
}

/// The least head of a value of the type, where there is one.
fn least_head(alloc: Global, decls: &Decls, inhabited: &[bool], ty: &Ty) -> Option<Head>
    requires numbered { spec.Numbered (declarations decls.now.items) }
    requires inhabited { Inhabited (declarations decls.now.items) inhabited.now }
    ensures { spec.HeadApart (declarations decls.now.items) (plain-Ty ty.now) [] (option_map plain-Head result) }
{
    let none = IndexSet::new(alloc);
    head_apart(decls, inhabited, ty, &none)
}

/// Writes the node of a value of the type, the least by its head, whose parts are awaited; whether there is one.
fn begin_least<'a>(
    alloc: Global,
    decls: &'a Decls,
    inhabited: &[bool],
    ty: &'a Ty,
    pending: &mut List<Column<'a>>,
    row: &mut List<Node>,
) -> Result<bool, AllocError>
    requires numbered { spec.Numbered (declarations decls.now.items) }
    requires inhabited { Inhabited (declarations decls.now.items) inhabited.now }
    ensures { IfOk result (λ b. spec.Begins (declarations decls.now.items) (plain-Ty ty.now) pending.old pending.new
        row.old row.new b) }
{
    match least_head(alloc, decls, inhabited, ty) {
        Some(head) => {
            begin(alloc, decls, ty, head, pending, row)?;
            Ok(true)
        }
        None => Ok(false),
    }
}

/// Writes values of the awaited types; whether there are such.
fn write<'a>(
    alloc: Global,
    decls: &'a Decls,
    inhabited: &[bool],
    pending: &mut List<Column<'a>>,
    row: &mut List<Node>,
) -> Result<bool, AllocError>
    requires finite { Finite (declarations decls.now.items) }
    requires numbered { spec.Numbered (declarations decls.now.items) }
    requires inhabited { Inhabited (declarations decls.now.items) inhabited.now }
    ensures { IfOk result (λ b. spec.Writes (declarations decls.now.items) (spec.awaited pending.old) row.old row.new b) }
{
    while let Some(column) = pending.pop() {
        if !begin_least(alloc, decls, inhabited, column.ty, pending, row)? {
            return Ok(false);
        }
    }
    Ok(true)
}

/// A value of the type with this head, where there is one.
fn headed(
    alloc: Global,
    decls: &Decls,
    inhabited: &[bool],
    ty: &Ty,
    head: Head,
) -> Result<Option<Value>, AllocError>
    requires finite { Finite (declarations decls.now.items) }
    requires numbered { spec.Numbered (declarations decls.now.items) }
    requires inhabited { Inhabited (declarations decls.now.items) inhabited.now }
    requires fits { heads_spec.IsHead (declarations decls.now.items) (plain-Ty ty.now) (plain-Head head) }
    ensures { IfOk result (λ o. spec.Headed (declarations decls.now.items) (plain-Ty ty.now) (plain-Head head)
        (option_map plain-Value o)) }
{
    let mut row = List::new(alloc);
    let mut pending = List::new(alloc);
    begin(alloc, decls, ty, head, &mut pending, &mut row)?;
    if write(alloc, decls, inhabited, &mut pending, &mut row)? {
        Ok(Some(of_nodes(row)))
    } else {
        Ok(None)
    }
}

/// A value of the type whose head is none of these, where there is one.
pub(crate) fn apart(
    alloc: Global,
    decls: &Decls,
    inhabited: &[bool],
    ty: &Ty,
    heads: &IndexSet<Head>,
) -> Result<Option<Value>, AllocError>
    requires finite { Finite (declarations decls.now.items) }
    requires numbered { spec.Numbered (declarations decls.now.items) }
    requires inhabited { Inhabited (declarations decls.now.items) inhabited.now }
    ensures { IfOk result (λ o. spec.Apart (declarations decls.now.items) (plain-Ty ty.now) (map plain-Head heads.now.keys)
        (option_map plain-Value o)) }
{
    match head_apart(decls, inhabited, ty, heads) {
        Some(head) => headed(alloc, decls, inhabited, ty, head),
        None => Ok(None),
    }
}

/// A value of the type, where there is one.
fn some_value(
    alloc: Global,
    decls: &Decls,
    inhabited: &[bool],
    ty: &Ty,
) -> Result<Option<Value>, AllocError>
    requires finite { Finite (declarations decls.now.items) }
    requires numbered { spec.Numbered (declarations decls.now.items) }
    requires inhabited { Inhabited (declarations decls.now.items) inhabited.now }
    ensures { IfOk result (λ o. spec.Apart (declarations decls.now.items) (plain-Ty ty.now) [] (option_map plain-Value o)) }
{
    let none = IndexSet::new(alloc);
    apart(alloc, decls, inhabited, ty, &none)
}

/// Adds a value of the type; whether there is one.
pub(crate) fn add_value(
    alloc: Global,
    decls: &Decls,
    inhabited: &[bool],
    ty: &Ty,
    values: &mut List<Value>,
) -> Result<bool, AllocError>
    requires finite { Finite (declarations decls.now.items) }
    requires numbered { spec.Numbered (declarations decls.now.items) }
    requires inhabited { Inhabited (declarations decls.now.items) inhabited.now }
    ensures { IfOk result (λ b. spec.Adds (declarations decls.now.items) (plain-Ty ty.now ∷ []) values.old values.new b) }
{
    match some_value(alloc, decls, inhabited, ty)? {
        Some(value) => {
            values.push(value)?;
            Ok(true)
        }
        None => Ok(false),
    }
}
