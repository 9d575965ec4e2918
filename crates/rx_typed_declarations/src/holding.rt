//! What structs and enums hold.

ghost use Rattle.std.specs.Prelude.{◌≡◌, ◌<◌, [], ◌∷◌, ◌++◌, length, map, OnOk, IfOk};
ghost use Rattle.rx_graph_cycles.specs.Reaches.{FirstOnCycle};
ghost use Rattle.rx_typed.specs.Types.{shapes_of};
ghost use Rattle.rx_typed.specs.PlainTypes.{plain-Ty, plain-FieldDecl, plain-VariantDecl, plain-Decl, declarations};
ghost use Rattle.rx_typed_declarations.specs.Held as spec;

use rx_core::{List, Ty};
use rx_graph_cycles::first_on_cycle;
use rx_typed::{Decl, Decls, FieldDecl, VariantDecl};
use std::alloc::{AllocError, Global};

/// Adds the numbers of the structs and enums that a type names.
#[cycle(held)]
#[tactic(auto, using(rx_typed::proofs::TypedRules::typ_rules, crate::proofs::HeldLemmas::append_none))]
fn add_named(ty: &Ty, held: &mut List<u32>) -> Result<(), AllocError>
    ensures { OnOk result (held.new ≡ held.old ++ spec.named_in (plain-Ty ty.now)) }
{
    match ty {
        Ty::Int(_) | Ty::Bool => Ok(()),
        Ty::Tuple(parts) => add_named_among(parts.as_slice(), held),
        Ty::Shared(_, inner) => add_named(inner.get(), held),
        Ty::Mut(_, inner) => add_named(inner.get(), held),
        Ty::Adt(item, _) => held.push(*item),
    }
}

/// Adds those that these types name.
#[cycle(held)]
fn add_named_among(types: &[Ty], held: &mut List<u32>) -> Result<(), AllocError>
    ensures { OnOk result (held.new ≡ held.old ++ spec.named_among (shapes_of (map plain-Ty types.now))) }
{
    for ty in types {
        add_named(ty, held)?;
    }
    Ok(())
}

/// Adds those that the types of these fields name.
fn add_named_by_fields(fields: &[FieldDecl], held: &mut List<u32>) -> Result<(), AllocError>
    ensures { OnOk result (held.new ≡ held.old
        ++ spec.named_among (shapes_of (spec.field_types (map plain-FieldDecl fields.now)))) }
{
    for field in fields {
        add_named(&field.ty, held)?;
    }
    Ok(())
}

/// Adds those that the parts of these variants name.
#[tactic(auto, using(crate::proofs::HeldLemmas::named_among_append))]
fn add_named_by_variants(variants: &[VariantDecl], held: &mut List<u32>) -> Result<(), AllocError>
    ensures { OnOk result (held.new ≡ held.old
        ++ spec.named_among (shapes_of (spec.variant_types (map plain-VariantDecl variants.now)))) }
{
    for variant in variants {
        add_named_among(variant.parts.as_slice(), held)?;
    }
    Ok(())
}

/// The numbers of the structs and enums that an item holds.
fn held_by(alloc: Global, item: &Decl) -> Result<List<u32>, AllocError>
    ensures { IfOk result (λ it. it ≡ spec.held_by (plain-Decl item.now)) }
{
    let mut held = List::new(alloc);
    match item {
        Decl::Struct { fields, .. } => add_named_by_fields(fields.as_slice(), &mut held)?,
        Decl::Enum { variants, .. } => add_named_by_variants(variants.as_slice(), &mut held)?,
        _ => (),
    }
    Ok(held)
}

/// The structs and enums that each of these items holds, through references too: by item, their numbers, each as often as
/// it is named.
pub fn held(alloc: Global, items: &[Decl]) -> Result<List<List<u32>>, AllocError>
    ensures { IfOk result (λ it. it ≡ spec.held_by_each (declarations items.now)) }
{
    let mut all = List::new(alloc);
    for item in items {
        all.push(held_by(alloc, item)?)?;
    }
    Ok(all)
}

/// The number of the first struct or enum that reaches itself through the types that it holds.
pub fn first_endless(alloc: Global, decls: &Decls) -> Result<Option<u32>, AllocError>
    requires { length decls.now.items < 4294967296 }
    ensures { IfOk result (λ r. FirstOnCycle (spec.held_by_each (declarations decls.now.items)) r) }
{
    let edges = held(alloc, decls.items.as_slice())?;
    first_on_cycle(alloc, edges.as_slice())
}
