//! The enum of exits.

ghost use Rattle.std.specs.Prelude.{◌≡◌, ◌++◌, ◌<◌, ◌^◌, IfOk, OnOk, codes, drop, length, map};
ghost use Rattle.rx_tree.specs.PlainOf.{plain-Enum, plain-EnumVariant, plain-Program, plain-TypeText};
ghost use Rattle.rx_hoist_plan.specs.PlainPlan.{plain-Leaving, plain-Plan, plain-Variable};
ghost use Rattle.rx_hoist_extraction.specs.Values.{variables_held, types_of};
ghost use Rattle.rx_hoist_extraction.specs.WrittenTypes.{positions_of};
ghost use Rattle.rx_hoist_extraction.specs.NewEnum as new_enum_spec;
ghost use Rattle.rx_hoist_made.specs.PlainHanded.{plain-Handed};
ghost use Rattle.rx_hoist_made.specs.Rows as rows;
ghost use Rattle.rx_hoist_made.specs.Rows.{nth_name};
ghost use Rattle.rx_hoist_items.specs.Signatures as signatures;

use rx_core::{List, Name, Span, keep, pushed};
use rx_hoist_made::{Handed, Row, all_written, enum_name, exit_name, fresh_names, full, handed_by};
use rx_hoist_plan::{Leaving, NamedPlan, Variable};
use rx_tree::{Enum, EnumVariant, Ident, Program, TypeText};
use std::alloc::{AllocError, Global};

/// The types, and those of these variables behind them, with the lifetimes of the row.
fn with_types(
    alloc: Global,
    program: &Program,
    span: Span,
    row: &mut Row<'_>,
    types: List<TypeText>,
    variables: &[Variable],
) -> Result<List<TypeText>, AllocError>
    ensures made { IfOk result (λ it. map plain-TypeText it ≡ map plain-TypeText types
        ++ rows.fulls (plain-Program program.now) span (nth_name row.old) 0 (types_of (variables_held (map plain-Variable variables.now)))) }
    ensures rest { OnOk result (row.new ≡ drop (positions_of (plain-Program program.now) (types_of (variables_held (map plain-Variable variables.now)))) row.old) }
{
    let mut all = types;
    for variable in variables {
        let (next, held) = keep(all, full(alloc, program, span, row, &variable.ty))?;
        all = pushed(held, next)?;
    }
    Ok(all)
}

/// The types of what is handed out, with the lifetimes of the row.
pub(crate) fn types_handed(
    alloc: Global,
    program: &Program,
    span: Span,
    row: &mut Row<'_>,
    handed: Handed<'_>,
) -> Result<List<TypeText>, AllocError>
    ensures made { IfOk result (λ it. map plain-TypeText it
        ≡ rows.fulls (plain-Program program.now) span (nth_name row.old) 0 (types_of (plain-Handed handed.entry))) }
    ensures rest { OnOk result (row.new ≡ drop (positions_of (plain-Program program.now) (types_of (plain-Handed handed.entry))) row.old) }
{
    match handed.result {
        Some(ty) => {
            let first = full(alloc, program, span, row, ty)?;
            let types = pushed(List::new(alloc), first)?;
            with_types(alloc, program, span, row, types, handed.outs)
        }
        None => with_types(alloc, program, span, row, List::new(alloc), handed.outs),
    }
}

/// The variant of an exit, with the lifetimes of the row.
#[tactic(auto, using(rx_hoist_made::proofs::RowLemmas::each_full_is))]
fn variant(
    alloc: Global,
    program: &Program,
    plan: &NamedPlan,
    span: Span,
    row: &mut Row<'_>,
    leaving: &Leaving,
) -> Result<EnumVariant, AllocError>
    ensures made { IfOk result (λ it. plain-EnumVariant it
        ≡ signatures.variant (plain-Program program.now) (plain-Plan plan.now) span (nth_name row.old) 0 (plain-Leaving leaving.now)) }
    ensures rest { OnOk result (row.new ≡ drop (positions_of (plain-Program program.now)
        (new_enum_spec.fields_at (plain-Plan plan.now) (plain-Leaving leaving.now))) row.old) }
{
    let types = types_handed(alloc, program, span, row, handed_by(plan, leaving))?;
    let (name, types) = keep(types, exit_name(alloc, leaving.exit))?;
    Ok(EnumVariant {
        name: Ident { span, name },
        types,
    })
}

/// The variants of the exits, with the lifetimes of the row.
fn variants(
    alloc: Global,
    program: &Program,
    plan: &NamedPlan,
    span: Span,
    row: &mut Row<'_>,
    exits: &[Leaving],
) -> Result<List<EnumVariant>, AllocError>
    ensures { IfOk result (λ it. map plain-EnumVariant it
        ≡ signatures.variants (plain-Program program.now) (plain-Plan plan.now) span (nth_name row.old) 0 (map plain-Leaving exits.now)) }
{
    let mut all = List::new(alloc);
    for leaving in exits {
        let (next, held) = keep(all, variant(alloc, program, plan, span, row, leaving))?;
        all = pushed(held, next)?;
    }
    Ok(all)
}

/// The variants of the exits, with these lifetimes.
fn all_variants(
    alloc: Global,
    program: &Program,
    plan: &NamedPlan,
    span: Span,
    names: &[Name],
) -> Result<List<EnumVariant>, AllocError>
    ensures { IfOk result (λ it. map plain-EnumVariant it
        ≡ signatures.variants (plain-Program program.now) (plain-Plan plan.now) span (nth_name names.now) 0 (plain-Plan plan.now).exits) }
{
    let mut row = Row::new(names);
    variants(alloc, program, plan, span, &mut row, plan.exits.as_slice())
}

/// The enum with these lifetimes.
fn enum_of(
    alloc: Global,
    program: &Program,
    plan: &NamedPlan,
    span: Span,
    names: &[Name],
) -> Result<Enum, AllocError>
    ensures { IfOk result (λ it. plain-Enum it
        ≡ signatures.enum_of (plain-Program program.now) (plain-Plan plan.now) span names.now) }
{
    let variants = all_variants(alloc, program, plan, span, names)?;
    let (lifetimes, variants) = keep(variants, all_written(alloc, span, names))?;
    let (name, held) = keep((lifetimes, variants), enum_name(alloc, plan))?;
    let (lifetimes, variants) = held;
    Ok(Enum {
        name: Ident { span, name },
        derives: List::new(alloc),
        lifetimes,
        variants,
    })
}

/// The enum of exits, where its types have so many lifetime positions.
pub fn new_enum(
    alloc: Global,
    program: &Program,
    plan: &NamedPlan,
    span: Span,
    positions: usize,
) -> Result<Enum, AllocError>
    requires counted { positions ≡ new_enum_spec.enum_positions (plain-Program program.now) (plain-Plan plan.now) }
    requires few { positions < 2 ^ 63 }
    ensures { IfOk result (λ it. plain-Enum it
        ≡ new_enum_spec.new_enum (plain-Program program.now) (plain-Plan plan.now) span) }
{
    let names = fresh_names(alloc, "'r", plan.lifetimes.as_slice(), positions)?;
    enum_of(alloc, program, plan, span, names.as_slice())
}
