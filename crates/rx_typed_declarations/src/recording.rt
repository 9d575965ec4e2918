//! The polarities of lifetimes, recorded with the structs and enums that declare them.

ghost use Rattle.std.specs.Prelude.{◌≡◌, ◌<◌, ◌↔◌, IfOk, length, map, slice_get};
ghost use Rattle.rx_typed.specs.declared.declarations.Polarity.TheVariants.{Inv};
ghost use Rattle.rx_typed.specs.Regions.{regions};
ghost use Rattle.rx_typed_declarations.specs.WellFormed.{WellFormed};
ghost use Rattle.rx_typed_declarations.specs.Variance as spec;

use crate::invariance::{polarity_of, variances};
use rx_core::{LetGo, List};
use rx_typed::{Decl, Decls, Polarity};
use std::alloc::{AllocError, Global};
use std::mem;

/// An item with other polarities.
fn recording(item: Decl, polarities: List<Polarity>) -> Decl
    ensures { result ≡ spec.recording item polarities }
{
    match item {
        Decl::Struct {
            copy,
            lifetimes,
            variances,
            fields,
        } => {
            variances.let_go();
            Decl::Struct {
                copy,
                lifetimes,
                variances: polarities,
                fields,
            }
        }
        Decl::Enum {
            copy,
            lifetimes,
            variances,
            variants,
        } => {
            variances.let_go();
            Decl::Enum {
                copy,
                lifetimes,
                variances: polarities,
                variants,
            }
        }
        other => {
            polarities.let_go();
            other
        }
    }
}

/// Records the polarities of an item.
#[tactic(auto, using(crate::proofs::RecordLemmas::record_none))]
fn record_one(items: &mut Vec<Decl>, at: usize, polarities: List<Polarity>)
    ensures { items.new.items ≡ spec.record_one items.old.items at polarities }
{
    if at < items.len() {
        let item = mem::replace(&mut items[at], Decl::Rt);
        mem::replace(&mut items[at], recording(item, polarities)).let_go();
    } else {
        polarities.let_go();
    }
}

/// Records the polarities of all items.
fn record_all(items: &mut Vec<Decl>, table: Vec<List<Polarity>>)
    ensures { items.new.items ≡ spec.record_all items.old.items table.items }
{
    let mut table = table;
    while let Some(polarities) = table.pop() {
        record_one(items, table.len(), polarities);
    }
    table.destroy_empty();
}

/// The declarations of these items, with the polarities of the lifetimes of each struct and enum recorded. What the
/// items have recorded before does not matter, and may be nothing. Linear in the size of the declarations.
pub fn recorded(alloc: Global, items: List<Decl>) -> Result<Decls, AllocError>
    requires { WellFormed items }
    ensures same { IfOk result (λ it. map spec.unrecorded it.items ≡ map spec.unrecorded items) }
    ensures well_formed { IfOk result (λ it. WellFormed it.items) }
    ensures recorded { IfOk result (λ it. spec.Recorded it.items) }
    ensures as_many { IfOk result (λ it. spec.AsMany it.items) }
{
    match variances(alloc, items.as_slice()) {
        Ok(table) => {
            let mut items = items.into_vec();
            record_all(&mut items, table);
            Ok(Decls {
                items: List::from_vec(items),
            })
        }
        Err(fault) => {
            items.let_go();
            Err(fault)
        }
    }
}

/// What an item has recorded of a lifetime.
fn recorded_polarity(decls: &Decls, item: u32, lifetime: u32) -> Polarity
    ensures { result ≡ spec.polarity (spec.variances_recorded (slice_get decls.now.items item)) lifetime }
{
    match decls.items.get(item as usize) {
        Some(Decl::Struct { variances, .. }) => polarity_of(
            variances.as_slice(),
            lifetime as usize,
        ),
        Some(Decl::Enum { variances, .. }) => polarity_of(variances.as_slice(), lifetime as usize),
        _ => Polarity::Co,
    }
}

/// How a struct or enum, by its item's number, varies with its lifetime of this number: it is invariant where the
/// lifetime stands somewhere under a `&mut`, or in the place of an invariant one. A number of no struct or enum, or of
/// no lifetime of it, is covariant.
pub fn variance(decls: &Decls, adt: u32, lifetime: u32) -> Polarity
    requires { spec.Recorded decls.now.items }
    ensures { (result ≡ Inv) ↔ spec.Invariant (regions decls.now.items) adt lifetime }
{
    recorded_polarity(decls, adt, lifetime)
}
