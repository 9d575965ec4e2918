//! The functions of a typed program by their items' numbers.

ghost use Rattle.std.specs.Prelude.{◌≡◌, true, option_map, drop, IfOk};
ghost use Rattle.rx_typed.specs.PlainTypes.{plain-Decl, declarations};
ghost use Rattle.rx_typed.specs.PlainTree.{plain-TypedTree};
ghost use Rattle.rx_machine_driver.specs.Fitting.{functions_of};
ghost use Rattle.rx_machine.specs.Functions.{typed_functions, is_function, first_of, behind};

use rx_typeck_typed::TypedFn;
use rx_typed::{Decl, TypedTree};
use std::alloc::{AllocError, Global};

/// Whether a function is declared.
fn is_func(decl: &Decl) -> bool
    ensures { result ≡ is_function (plain-Decl decl.now) }
{
    match decl {
        Decl::Func { .. } => true,
        Decl::Rt => false,
        Decl::Struct { .. } => false,
        Decl::Enum { .. } => false,
    }
}

/// The function that is declared, which is the next, and where those behind it begin; none of other declarations.
fn next_tree<'a>(decl: &Decl, functions: &'a [TypedFn], at: usize) -> (Option<&'a TypedTree>, usize)
    ensures first { option_map (λ t. plain-TypedTree t.now) result.0 ≡ first_of (is_function (plain-Decl decl.now)) (drop at functions.entry.now) }
    ensures behind { drop result.1 functions.entry.now ≡ behind (is_function (plain-Decl decl.now)) (drop at functions.entry.now) }
{
    if is_func(decl) {
        tree_at(functions, at)
    } else {
        (None, at)
    }
}

#[tactic(auto, using(crate::proofs::TableLemmas::first_at, crate::proofs::TableLemmas::behind_at, crate::proofs::TableLemmas::first_past, crate::proofs::TableLemmas::behind_past))]
fn tree_at<'a>(functions: &'a [TypedFn], at: usize) -> (Option<&'a TypedTree>, usize)
    ensures first { option_map (λ t. plain-TypedTree t.now) result.0 ≡ first_of true (drop at functions.entry.now) }
    ensures behind { drop result.1 functions.entry.now ≡ behind true (drop at functions.entry.now) }
{
    if at < functions.len() {
        (Some(&functions[at].tree), at + 1)
    } else {
        (None, at)
    }
}

/// Each item's function, in the order of the items; none of other items.
pub fn table<'a>(
    alloc: Global,
    decls: &[Decl],
    functions: &'a [TypedFn],
) -> Result<Vec<Option<&'a TypedTree>>, AllocError>
    ensures { IfOk result (λ it. functions_of it.items ≡ typed_functions (declarations decls.now) functions.entry.now) }
{
    let mut all = Vec::new(alloc);
    let mut at = 0;
    for decl in decls {
        let (tree, next) = next_tree(decl, functions, at);
        all.push(tree)?;
        at = next;
    }
    Ok(all)
}
