//! The types of places.

ghost use Rattle.std.specs.Prelude.{◌≡◌, map, slice_get, IfOk};
ghost use Rattle.rx_typed.specs.Regions.{region-Ty, regions_of, region_fields, region_tuple, region_named};
ghost use Rattle.rx_typed.specs.Renaming.{renamed as renamed_by, argument, unit_region};
ghost use Rattle.rx_typed.specs.Places as spec;
ghost use Rattle.rx_typed.specs.Standing.{form_type, stands};

use crate::renaming::{Arguments, all_renamed, rename_all, renamed};
use crate::{Decl, Decls, FieldDecl};
use rx_core::{List, Step, Ty};
use std::alloc::{AllocError, Global};

/// What stands at a place: a type, the parts of a variant, or nothing.
#[derive(Clone, Copy)]
pub enum Form<'a> {
    Type(&'a Ty),
    Parts(&'a [Ty]),
    Nothing,
}

/// What stands there, with what stands in place of its lifetimes.
#[derive(Drop)]
pub struct Standing<'a> {
    pub form: Form<'a>,
    pub arguments: Arguments,
}

/// The part of this number.
#[tactic(auto, using(crate::proofs::Parts::part_there))]
fn part<'a>(parts: &'a [Ty], number: u32) -> Form<'a>
    ensures { form_type result ≡ spec.part_at (regions_of (map region-Ty parts.now)) number }
{
    match parts.get(number as usize) {
        Some(ty) => Form::Type(ty),
        None => Form::Nothing,
    }
}

/// The type of the field of this number.
#[tactic(auto, using(crate::proofs::Parts::field_there))]
fn field_of<'a>(fields: &'a [FieldDecl], number: u32) -> Form<'a>
    ensures { form_type result ≡ spec.part_at (regions_of (region_fields fields.now)) number }
{
    match fields.get(number as usize) {
        Some(field) => Form::Type(&field.ty),
        None => Form::Nothing,
    }
}

/// The field of this number of a struct.
fn field<'a>(decls: &'a Decls, item: u32, number: u32) -> Form<'a>
    ensures { form_type result ≡ spec.part_at (spec.fields_of (slice_get decls.now.items item)) number }
{
    match decls.items.get(item as usize) {
        Some(Decl::Struct { fields, .. }) => field_of(fields.as_slice(), number),
        _ => Form::Nothing,
    }
}

/// The parts of a variant of an enum.
fn variant<'a>(decls: &'a Decls, item: u32, number: u32) -> Form<'a>
    ensures { form_type result ≡ region_tuple (spec.variant_of (slice_get decls.now.items item) number) }
{
    match decls.items.get(item as usize) {
        Some(Decl::Enum { variants, .. }) => match variants.get(number as usize) {
            Some(variant) => Form::Parts(variant.parts.as_slice()),
            None => Form::Nothing,
        },
        _ => Form::Nothing,
    }
}

/// Nothing stands behind a step that leads nowhere.
fn nowhere<'a>(alloc: Global) -> Standing<'a>
    ensures { stands result ≡ unit_region }
{
    Standing {
        form: Form::Nothing,
        arguments: Arguments {
            own: true,
            list: List::new(alloc),
        },
    }
}

/// Behind a step from a struct or enum with these lifetimes.
fn behind_item<'a>(
    alloc: Global,
    decls: &'a Decls,
    item: u32,
    lifetimes: &[u32],
    arguments: &Arguments,
    step: Step,
) -> Result<Standing<'a>, AllocError>
    ensures { IfOk result (λ it. stands it ≡ spec.behind decls.now.items (region_named item (map (argument arguments.now) lifetimes.now)) step) }
{
    let form = match step {
        Step::Field(number) => field(decls, item, number),
        Step::Variant(number) => variant(decls, item, number),
        Step::Deref(_) => Form::Nothing,
    };
    Ok(Standing {
        form,
        arguments: Arguments {
            own: false,
            list: rename_all(alloc, lifetimes, arguments)?,
        },
    })
}

/// Behind a step from what has parts.
fn behind_parts<'a>(parts: &'a [Ty], step: Step) -> Form<'a>
    ensures { form_type result ≡ spec.part_behind (regions_of (map region-Ty parts.now)) step }
{
    match step {
        Step::Field(number) => part(parts, number),
        Step::Variant(_) | Step::Deref(_) => Form::Nothing,
    }
}

/// Behind a step from a reference to this type.
fn behind_reference<'a>(inner: &'a Ty, step: Step) -> Form<'a>
    ensures { form_type result ≡ spec.target_behind (region-Ty inner.now) step }
{
    match step {
        Step::Deref(_) => Form::Type(inner),
        Step::Field(_) | Step::Variant(_) => Form::Nothing,
    }
}

/// Behind a step from a type.
#[tactic(auto, using(crate::proofs::TypedRules::region_rules))]
fn behind_type<'a>(
    alloc: Global,
    decls: &'a Decls,
    ty: &'a Ty,
    arguments: &Arguments,
    step: Step,
) -> Result<Standing<'a>, AllocError>
    ensures { IfOk result (λ it. stands it ≡ spec.behind decls.now.items (renamed_by (argument arguments.now) (region-Ty ty.now)) step) }
{
    match ty {
        Ty::Int(_) | Ty::Bool => Ok(nowhere(alloc)),
        Ty::Tuple(parts) => Ok(Standing {
            form: behind_parts(parts.as_slice(), step),
            arguments: arguments.copied(alloc)?,
        }),
        Ty::Shared(_, inner) => Ok(Standing {
            form: behind_reference(inner.get(), step),
            arguments: arguments.copied(alloc)?,
        }),
        Ty::Mut(_, inner) => Ok(Standing {
            form: behind_reference(inner.get(), step),
            arguments: arguments.copied(alloc)?,
        }),
        Ty::Adt(item, lifetimes) => {
            behind_item(alloc, decls, *item, lifetimes.as_slice(), arguments, step)
        }
    }
}

/// Behind a step.
fn behind<'a>(
    alloc: Global,
    decls: &'a Decls,
    at: &Standing<'a>,
    step: Step,
) -> Result<Standing<'a>, AllocError>
    ensures { IfOk result (λ it. stands it ≡ spec.behind decls.now.items (stands at.now) step) }
{
    match at.form {
        Form::Type(ty) => behind_type(alloc, decls, ty, &at.arguments, step),
        Form::Parts(parts) => Ok(Standing {
            form: behind_parts(parts, step),
            arguments: at.arguments.copied(alloc)?,
        }),
        Form::Nothing => Ok(nowhere(alloc)),
    }
}

/// The type that stands there.
#[tactic(auto, using(crate::proofs::TypedRules::region_rules))]
fn type_there(alloc: Global, at: &Standing<'_>) -> Result<Ty, AllocError>
    ensures { IfOk result (λ it. region-Ty it ≡ stands at.now) }
{
    match at.form {
        Form::Type(ty) => renamed(alloc, ty, &at.arguments),
        Form::Parts(parts) => Ok(Ty::Tuple(all_renamed(alloc, parts, &at.arguments)?)),
        Form::Nothing => Ok(Ty::Tuple(List::new(alloc))),
    }
}

/// The type of a place, by the type of its variable or temporary. A step that leads nowhere leads to the unit; behind a step
/// to a variant stands the tuple of its parts.
pub fn place_type(alloc: Global, decls: &Decls, ty: &Ty, steps: &[Step]) -> Result<Ty, AllocError>
    ensures { IfOk result (λ it. region-Ty it ≡ spec.place_type decls.now.items (region-Ty ty.now) steps.now) }
{
    let mut at = Standing {
        form: Form::Type(ty),
        arguments: Arguments {
            own: true,
            list: List::new(alloc),
        },
    };
    for step in steps {
        at = behind(alloc, decls, &at, *step)?;
    }
    type_there(alloc, &at)
}
