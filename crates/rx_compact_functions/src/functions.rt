//! A function whose lifetimes are fewer.

ghost use Rattle.std.specs.Prelude.{◌≡◌, map, option_map, IfOk};
ghost use Rattle.rx_tree.specs.PlainOf.{plain-Block, plain-Func, plain-Param, plain-TypeText};
ghost use Rattle.rx_compact_lifetimes.specs.Elided as elided;
ghost use Rattle.rx_compact_lifetimes.specs.Merged as merged;
ghost use Rattle.rx_compact_lifetimes.specs.Rewritten as rewritten;
ghost use Rattle.rx_compact_functions.specs.Parts as spec;

use crate::body::{body_lifetimes, rewritten_body};
use rx_compact_lifetimes::{
    Rewriting, Signature, elided_signature, joined_list, renamed_list, rewritten_optional,
    rewritten_parameters,
};
use rx_core::{LetGo, List, keep};
use rx_tree::{Block, BoundLifetime, Func, Ident};
use std::alloc::{AllocError, Global};

// ---- lifetimes that are one

/// The list of lifetimes by other names, each name once.
fn merged_list(
    alloc: Global,
    rewritings: &[Rewriting],
    lifetimes: &[BoundLifetime],
) -> Result<List<BoundLifetime>, AllocError>
    ensures { IfOk result (λ it. it ≡ merged.joined_list (map (rewritten.renamed_bound rewritings.now) lifetimes.now)) }
{
    let renamed = renamed_list(alloc, rewritings, lifetimes)?;
    let joined = joined_list(alloc, renamed.as_slice());
    renamed.let_go();
    joined
}

/// The signature of a function by other names of its lifetimes.
fn merged_signature(
    alloc: Global,
    rewritings: &[Rewriting],
    function: &Func,
) -> Result<Signature, AllocError>
    ensures { IfOk result (λ it. spec.IsMerged rewritings.now (plain-Func function.now) it.lifetimes (map plain-Param it.params) (option_map plain-TypeText it.result)) }
{
    let lifetimes = merged_list(alloc, rewritings, function.lifetimes.as_slice())?;
    let outcome = rewritten_parameters(alloc, rewritings, function.params.as_slice());
    let (params, lifetimes) = keep(lifetimes, outcome)?;
    let outcome = rewritten_optional(alloc, rewritings, &function.result);
    let (result, held) = keep((lifetimes, params), outcome)?;
    let (lifetimes, params) = held;
    Ok(Signature {
        lifetimes,
        params,
        result,
    })
}

/// A function by the parts of its signature.
fn with_signature(name: Ident, signature: Signature, body: Block) -> Func
    ensures { plain-Func result ≡ record {
      name = name;
      lifetimes = signature.lifetimes;
      params = map plain-Param signature.params;
      result = option_map plain-TypeText signature.result;
      body = plain-Block body;
    } }
{
    let Signature {
        lifetimes,
        params,
        result,
    } = signature;
    Func {
        name,
        lifetimes,
        params,
        result,
        body,
    }
}

/// A copy of a function by other names of its lifetimes, in its list each name once.
///
/// # Errors
///
/// Memory runs out.
pub fn merged_function(
    alloc: Global,
    rewritings: &[Rewriting],
    function: &Func,
) -> Result<Func, AllocError>
    ensures { IfOk result (λ it. plain-Func it ≡ merged.merged_by rewritings.now (plain-Func function.now)) }
{
    let name = function.name.copy(alloc)?;
    let (body, name) = keep(name, rewritten_body(alloc, rewritings, &function.body))?;
    let outcome = merged_signature(alloc, rewritings, function);
    let (signature, held) = keep((name, body), outcome)?;
    let (name, body) = held;
    Ok(with_signature(name, signature, body))
}

// ---- lifetimes that are left out

/// The signature of a function without the lifetimes that elision tells.
fn shorter_signature(alloc: Global, single: bool, function: &Func) -> Result<Signature, AllocError>
    ensures { IfOk result (λ it. elided.IsElided single (elided.in_body (plain-Block function.now.body)) (plain-Func function.now) it.lifetimes (map plain-Param it.params) (option_map plain-TypeText it.result)) }
{
    let named = body_lifetimes(alloc, &function.body)?;
    let signature = elided_signature(alloc, single, named.as_slice(), function);
    named.let_go();
    signature
}

/// A function with another signature.
fn with_other(function: Func, signature: Signature) -> Func
    ensures { plain-Func result ≡ record (plain-Func function) {
      lifetimes = signature.lifetimes;
      params = map plain-Param signature.params;
      result = option_map plain-TypeText signature.result;
    } }
{
    let Func {
        name,
        lifetimes,
        params,
        result,
        body,
    } = function;
    lifetimes.let_go();
    params.let_go();
    result.let_go();
    with_signature(name, signature, body)
}

/// A function without the lifetimes that elision tells; `single` says whether the types of its parameters have one lifetime.
///
/// # Errors
///
/// Memory runs out.
pub fn elided_function(alloc: Global, single: bool, function: Func) -> Result<Func, AllocError>
    ensures { IfOk result (λ it. plain-Func it ≡ elided.elided single (plain-Func function)) }
{
    let outcome = shorter_signature(alloc, single, &function);
    let (signature, function) = keep(function, outcome)?;
    Ok(with_other(function, signature))
}
