//! Bounds written into the lifetime list of a function.

ghost use Rattle.std.specs.Prelude.{◌≡◌, ◌≤◌, ◌++◌, ◌∷◌, [], length, IfOk};
ghost use Rattle.std.specs.Prelude.{insert};
ghost use Rattle.rx_tree.specs.PlainOf.{plain-Item, plain-Program, plain-Func};
ghost use Rattle.rx_repair.specs.Repaired as spec;

use rx_core::{Bound, LetGo, List, Span, keep, pushed};
use rx_tree::{BoundLifetime, Func, Ident, Item, ItemNode, Program};
use std::alloc::{AllocError, Global};

/// Whether these have the pair.
fn is_bound(bounds: &[Bound], long: usize, short: usize) -> bool
    ensures { result ≡ spec.is_bound bounds.now long short }
{
    for bound in bounds {
        if bound.long as usize == long && bound.short as usize == short {
            return true;
        }
    }
    false
}

/// The name of a lifetime, at another place.
fn named(alloc: Global, span: Span, lifetime: &BoundLifetime) -> Result<Ident, AllocError>
    ensures { IfOk result (λ it. (it.span ≡ span) × (it.name ≡ lifetime.now.name.name)) }
{
    Ok(Ident {
        span,
        name: lifetime.name.name.copy(alloc)?,
    })
}

/// Names, with that of one more lifetime where it is wanted.
fn with_short(
    alloc: Global,
    names: List<Ident>,
    wanted: bool,
    span: Span,
    lifetime: &BoundLifetime,
) -> Result<List<Ident>, AllocError>
    ensures { IfOk result (λ all. all ≡ names ++ spec.short_if wanted span lifetime.now) }
{
    if !wanted {
        return Ok(names);
    }
    let (name, names) = keep(names, named(alloc, span, lifetime))?;
    pushed(names, name)
}

/// The names of those lifetimes that the one of a number is to outlive.
fn shorts(
    alloc: Global,
    span: Span,
    bounds: &[Bound],
    long: usize,
    lifetimes: &[BoundLifetime],
) -> Result<List<Ident>, AllocError>
    ensures { IfOk result (λ names. names ≡ spec.shorts_from span bounds.now long 0 lifetimes.now) }
{
    let mut names = List::new(alloc);
    for k in 0..lifetimes.len() {
        let wanted = is_bound(bounds, long, k);
        names = with_short(alloc, names, wanted, span, &lifetimes[k])?;
    }
    Ok(names)
}

/// The lifetime of a number, with those that it is to outlive.
fn repaired_lifetime(
    alloc: Global,
    span: Span,
    bounds: &[Bound],
    long: usize,
    lifetimes: &[BoundLifetime],
    lifetime: &BoundLifetime,
) -> Result<BoundLifetime, AllocError>
    ensures { IfOk result (λ it. it ≡ spec.repaired_lifetime span bounds.now lifetimes.now long lifetime.now) }
{
    let shorts = shorts(alloc, span, bounds, long, lifetimes)?;
    let (name, bounds) = keep(shorts, lifetime.name.copy(alloc))?;
    Ok(BoundLifetime { name, bounds })
}

fn with_next(
    alloc: Global,
    all: List<BoundLifetime>,
    span: Span,
    bounds: &[Bound],
    long: usize,
    lifetimes: &[BoundLifetime],
    lifetime: &BoundLifetime,
) -> Result<List<BoundLifetime>, AllocError>
    ensures { IfOk result (λ more. more ≡ all ++ spec.repaired_lifetime span bounds.now lifetimes.now long lifetime.now ∷ []) }
{
    let outcome = repaired_lifetime(alloc, span, bounds, long, lifetimes, lifetime);
    let (next, all) = keep(all, outcome)?;
    pushed(all, next)
}

/// The lifetimes, each with those that it is to outlive.
fn repaired_lifetimes(
    alloc: Global,
    span: Span,
    bounds: &[Bound],
    lifetimes: &[BoundLifetime],
) -> Result<List<BoundLifetime>, AllocError>
    ensures { IfOk result (λ all. all ≡ spec.lifetimes_from span bounds.now lifetimes.now 0 lifetimes.now) }
{
    let mut all = List::new(alloc);
    for l in 0..lifetimes.len() {
        all = with_next(alloc, all, span, bounds, l, lifetimes, &lifetimes[l])?;
    }
    Ok(all)
}

/// A function with these bounds.
fn repaired_function(
    alloc: Global,
    span: Span,
    bounds: &[Bound],
    function: Func,
) -> Result<Func, AllocError>
    ensures { IfOk result (λ it. plain-Func it ≡ spec.repaired_function span bounds.now (plain-Func function)) }
{
    let Func {
        name,
        lifetimes: old,
        params,
        result,
        body,
    } = function;
    let outcome = repaired_lifetimes(alloc, span, bounds, old.as_slice());
    old.let_go();
    let (lifetimes, held) = keep((name, (params, (result, body))), outcome)?;
    let (name, (params, (result, body))) = held;
    Ok(Func {
        name,
        lifetimes,
        params,
        result,
        body,
    })
}

/// An item with these bounds, where it is a function.
fn repaired_item(alloc: Global, bounds: &[Bound], item: Item) -> Result<Item, AllocError>
    ensures { IfOk result (λ it. plain-Item it ≡ spec.repaired_item bounds.now (plain-Item item)) }
{
    let Item { span, node } = item;
    match node {
        ItemNode::Func(function) => {
            let function = repaired_function(alloc, span, bounds, function)?;
            Ok(Item {
                span,
                node: ItemNode::Func(function),
            })
        }
        node => Ok(Item { span, node }),
    }
}

/// A list with an item put in at a place. Where memory runs out both are let go.
fn inserted(list: List<Item>, at: usize, item: Item) -> Result<List<Item>, AllocError>
    requires { at ≤ length list }
    ensures { IfOk result (λ all. all ≡ insert list at item) }
{
    let mut items = list.into_vec();
    match items.insert(at, item) {
        Ok(()) => Ok(List::from_vec(items)),
        Err(failed) => {
            failed.value.let_go();
            List::from_vec(items).let_go();
            Err(AllocError)
        }
    }
}

/// A program with these bounds for the lifetimes of the function of an item.
///
/// # Errors
///
/// Memory runs out.
pub(crate) fn repaired(
    alloc: Global,
    program: Program,
    item: usize,
    bounds: &[Bound],
) -> Result<Program, AllocError>
    ensures { IfOk result (λ it. plain-Program it ≡ spec.repaired (plain-Program program) item bounds.now) }
{
    if item >= program.items.len() {
        return Ok(program);
    }
    let mut rest = program.items.into_vec();
    let old = rest.remove(item);
    let (new, rest) = keep(List::from_vec(rest), repaired_item(alloc, bounds, old))?;
    let items = inserted(rest, item, new)?;
    Ok(Program { items })
}
