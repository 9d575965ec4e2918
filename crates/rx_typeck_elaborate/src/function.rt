//! The typed tree of a function.

ghost use Rattle.std.specs.Prelude.{◌≡◌, ℕ, IfOk};
ghost use Rattle.rx_tree.specs.PlainOf.{plain-Func, plain-Block};
ghost use Rattle.rx_typed.specs.Naming as naming;
ghost use Rattle.rx_typed.specs.Elaborated as elaborated;
ghost use Rattle.rx_typed.specs.PlainTree.{plain-Expr, plain-TypedTree};
ghost use Rattle.rx_typeck_elaborate_parts.specs.Assigning.{assigned};
ghost use Rattle.rx_typeck_elaborate_parts.specs.Coercing.{types_of};
ghost use Rattle.rx_typeck_elaborate_parts.specs.Walks as walks;

use crate::statements::body_parts;
use rx_core::{List, Span, keep};
use rx_resolve_names::NodeNames;
use rx_tree::{Block, Func};
use rx_typeck_elaborate_parts::{Cursor, Given, NodeTypes, Walk, give, has_entry};
use rx_typed::{Decls, Expr, Site, TypedTree};
use std::alloc::{AllocError, Global};

/// The typed tree of a function: from what is declared, the types of its nodes, its item's span, and the entries
/// of names of its item.
///
/// # Errors
///
/// Memory runs out, or a number passes its width.
pub fn elaborate(
    alloc: Global,
    decls: &Decls,
    types: &NodeTypes,
    span: Span,
    function: &Func,
    names: &List<NodeNames>,
) -> Result<TypedTree, AllocError>
    ensures { (item : ℕ) → IfOk result (λ it. plain-TypedTree it ≡ elaborated.elaborated (assigned decls.now types.now) (naming.function_named item span (plain-Func function.now) names.now)) }
{
    let given = Given {
        alloc,
        decls,
        types,
    };
    let cursor = Cursor::new(alloc, names.as_slice());
    let mut walk = Walk { given, cursor };
    function_tree(&mut walk, span, function)
}

/// The body of a function, whose end gives the tail.
#[tactic(auto, using(crate::proofs::ToldLemmas::function_body_is))]
fn function_body<'t>(walk: &mut Walk<'t>, body: &'t Block) -> Result<Expr, AllocError>
    ensures { walks.Builds plain-Expr (naming.of_body Site.Expects (plain-Block body.now)) elaborated.function_body walk.old result walk.new }
{
    let ((statements, last), ends) = body_parts(walk, Site::Expects, body)?;
    let given = give(walk.given.alloc, ends.node, last);
    let (last, statements) = keep(statements, given)?;
    walk.given.block(ends.node, ends.never, statements, last)
}

fn function_tree<'t>(
    walk: &mut Walk<'t>,
    span: Span,
    function: &'t Func,
) -> Result<TypedTree, AllocError>
    ensures { IfOk result (λ it. plain-TypedTree it ≡ elaborated.elaborated (types_of walk.old.given) (naming.of_function 0 span (plain-Func function.now) walk.old.cursor).0) }
{
    walk.node(span, Site::Value)?;
    walk.entry_if(has_entry(function));
    let params = walk.parameters(function.params.as_slice())?;
    let ((), params) = keep(params, walk.optional_type(&function.result))?;
    let (body, params) = keep(params, function_body(walk, &function.body))?;
    Ok(TypedTree { params, body })
}
