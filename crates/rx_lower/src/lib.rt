//! The graph of a function of a typed program.
#![tactic(auto)]

ghost use Rattle.std.specs.Prelude.{◌≡◌, ◌<◌, map, Some as SomeOf, IfOk};
ghost use Rattle.std.specs.Option.{option_copied, IsSome};
ghost use Rattle.rx_typed.specs.PlainTree.{plain-TypedTree};
ghost use Rattle.rx_typeck_typed.specs.declared.typed.TypedFn.{TypedFn as FnOf};
ghost use Rattle.rx_lower_lifetimes.specs.PlainOf.{plain-Told};
ghost use Rattle.rx_lower_lifetimes.specs.Answer.{Answers, AnswersWithin, Walked};
ghost use Rattle.rx_lower.specs.Functions as spec;
ghost use Rattle.rx_lower.specs.Functions.{function_at, written, function, with_tree};

use rx_core::{LetGo, List, Ty, keep, pushed};
use rx_lower_lifetimes::{Graph, LowerFault, Told, lower_function_within};
use rx_typeck_typed::{AnnotatedVariable, Typed, TypedFn};
use rx_typed::{Decls, TypedTree, place_type};
use std::alloc::{AllocError, Global};

/// The function of an item.
fn find(functions: &[TypedFn], item: u32) -> Option<&TypedFn>
    ensures { option_copied result ≡ function_at functions.now item }
{
    for i in 0..functions.len() {
        if functions[i].item == item {
            return Some(&functions[i]);
        }
    }
    None
}

/// What a `let` writes of a variable.
fn told(alloc: Global, decls: &Decls, annotation: &AnnotatedVariable) -> Result<Told, AllocError>
    ensures { IfOk result (λ it. plain-Told it ≡ written annotation.now) }
{
    let nowhere = List::new(alloc);
    let ty = place_type(alloc, decls, &annotation.ty, nowhere.as_slice())?;
    Ok(Told {
        variable: annotation.variable,
        ty,
    })
}

/// What `let`s write.
fn all_told(
    alloc: Global,
    decls: &Decls,
    annotations: &[AnnotatedVariable],
) -> Result<List<Told>, AllocError>
    ensures { IfOk result (λ it. map plain-Told it ≡ map written annotations.now) }
{
    let mut all = List::new(alloc);
    for annotation in annotations {
        let (one, before) = keep(all, told(alloc, decls, annotation))?;
        all = pushed(before, one)?;
    }
    Ok(all)
}

/// How many types there are up to the last that is there, by those before one.
fn last_there(ty: &Option<Ty>, at: usize, before: usize) -> usize
    requires { at < 18446744073709551615 }
    ensures { result ≡ spec.last_there ty.now at before }
{
    match ty {
        Some(_) => at + 1,
        None => before,
    }
}

/// The types up to the last that is there.
pub fn trimmed(types: &[Option<Ty>]) -> &[Option<Ty>]
    ensures { result.now ≡ spec.trimmed types.now }
{
    let mut count = 0;
    for i in 0..types.len() {
        count = last_there(&types[i], i, count);
    }
    &types[..count]
}

/// The graph of a function with this tree in place of its own, with its lifetimes. `limit` is how many sites it may have.
///
/// # Errors
///
/// It has more sites, or over 65,536 lifetime positions: both numbers, each 2^64 - 1 where it is greater. Or memory runs out.
pub fn lower_tree(
    alloc: Global,
    decls: &Decls,
    typed: &TypedFn,
    tree: &TypedTree,
    limit: u32,
) -> Result<Graph, LowerFault>
    ensures answers { AnswersWithin limit (with_tree decls.now.items typed.now (plain-TypedTree tree.now)) typed.now.mutable result }
    ensures walked { IfOk result (λ g. Walked (with_tree decls.now.items typed.now (plain-TypedTree tree.now)) g) }
{
    match all_told(alloc, decls, typed.annotations.as_slice()) {
        Ok(lets) => {
            let answer = lower_function_within(
                alloc,
                decls,
                typed.item,
                tree,
                typed.mutable.as_slice(),
                trimmed(typed.variables.as_slice()),
                lets.as_slice(),
                limit,
            );
            lets.let_go();
            answer
        }
        Err(_) => Err(LowerFault::OutOfMemory),
    }
}

/// The graph of a function, with its lifetimes.
///
/// # Errors
///
/// As of `lower`.
pub fn lower_typed(alloc: Global, decls: &Decls, typed: &TypedFn) -> Result<Graph, LowerFault>
    ensures answers { Answers (function decls.now.items typed.now) typed.now.mutable result }
    ensures walked { IfOk result (λ g. Walked (function decls.now.items typed.now) g) }
{
    lower_tree(alloc, decls, typed, &typed.tree, 16384)
}

/// The graph of the function of an item, with its lifetimes.
///
/// # Errors
///
/// It has over 16,384 sites or over 65,536 lifetime positions: both numbers, each 2^64 - 1 where it is greater. Or memory runs
/// out.
pub fn lower(alloc: Global, typed: &Typed, item: u32) -> Result<Graph, LowerFault>
    requires { IsSome (function_at typed.now.functions item) }
    ensures answers { (f : FnOf) → function_at typed.now.functions item ≡ SomeOf f → Answers (function typed.now.decls.items f) f.mutable result }
    ensures walked { (f : FnOf) → function_at typed.now.functions item ≡ SomeOf f → IfOk result (λ g. Walked (function typed.now.decls.items f) g) }
{
    match find(typed.functions.as_slice(), item) {
        Some(found) => lower_typed(alloc, &typed.decls, found),
        None => Err(LowerFault::OutOfMemory),
    }
}
