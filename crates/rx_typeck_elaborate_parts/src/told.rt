//! What is told of the parts of expressions.

ghost use Rattle.std.specs.Prelude.{◌≡◌, ◌-◌, IfOk, ◌&&◌, ◌||◌};
ghost use Rattle.rx_typed.specs.Named as named;
ghost use Rattle.rx_typed.specs.Naming as naming;
ghost use Rattle.rx_typeck_elaborate_parts.specs.Telling as telling;

use crate::Seen;
use rx_core::{Boxed, List};
use rx_tree::{BinaryOp, Expr, TypeText};
use rx_typed::{Node, Site};
use std::alloc::{AllocError, Global};

/// What is told of a body.
#[derive(Clone, Copy)]
pub struct Ends {
    pub node: Node,
    /// Whether it has no type of its own.
    pub never: bool,
    /// Whether evaluating it always leaves by a jump, or never ends.
    pub diverges: bool,
}

/// What is told of a part that may be missing, as what follows `else`.
#[derive(Clone, Copy)]
pub struct Branch {
    pub present: bool,
    pub never: bool,
    pub diverges: bool,
}

/// What is told of the arms of a `match`: whether none has a type, and whether all diverge.
#[derive(Clone, Copy)]
pub struct Ways {
    pub never: bool,
    pub diverges: bool,
}

/// What is told of a missing part.
pub fn no_branch() -> Branch
    ensures { result ≡ telling.branch_of named.absent }
{
    Branch {
        present: false,
        never: false,
        diverges: false,
    }
}

pub fn either(first: bool, second: bool) -> bool
    ensures { result ≡ (first || second) }
{
    first || second
}

pub fn both(first: bool, second: bool) -> bool
    ensures { result ≡ (first && second) }
{
    first && second
}

/// Whether a body has no type of its own: by its tail, and whether some statement of it diverges.
pub fn body_never(tail: Branch, diverges: bool) -> bool
    ensures { result ≡ telling.never_by tail.present tail.never diverges }
{
    if tail.present { tail.never } else { diverges }
}

/// Whether an operator always evaluates both operands.
pub fn is_strict(op: BinaryOp) -> bool
    ensures { result ≡ named.is_strict op }
{
    match op {
        BinaryOp::And | BinaryOp::Or => false,
        BinaryOp::Eq
        | BinaryOp::Ne
        | BinaryOp::Lt
        | BinaryOp::Le
        | BinaryOp::Gt
        | BinaryOp::Ge
        | BinaryOp::Add
        | BinaryOp::Sub
        | BinaryOp::Mul
        | BinaryOp::Div
        | BinaryOp::Rem => true,
    }
}

/// What a block, branch or arm makes of the value that it ends with.
pub fn passed_on(site: Site) -> Site
    ensures { result ≡ naming.passed_on site }
{
    match site {
        Site::Expects | Site::Initialises => Site::Expects,
        Site::Reborrows => Site::Reborrows,
        Site::Value | Site::Place | Site::Scrutinee => Site::Value,
    }
}

/// What the body of an `if` is to what follows it: without `else` it is no branch.
pub fn branch_site(site: Site, other: &Option<Boxed<Expr>>) -> Site
    ensures { result ≡ telling.branch_site_of site other.now }
{
    match other {
        Some(_) => passed_on(site),
        None => Site::Value,
    }
}

/// Where an initialiser stands, with a written type or without.
pub fn initialiser_site(typ: &Option<TypeText>) -> Site
    ensures { result ≡ telling.initialiser_site_of typ.now }
{
    match typ {
        Some(_) => Site::Initialises,
        None => Site::Scrutinee,
    }
}

/// Whether no type is written.
pub fn has_no_type(typ: &Option<TypeText>) -> bool
    ensures { result ≡ telling.has_no_type_of typ.now }
{
    match typ {
        Some(_) => false,
        None => true,
    }
}

/// What is told of arms, with one more.
pub fn with_arm(ways: Ways, arm: Seen) -> Ways
    ensures { result ≡ record { never = (ways.never && arm.never); diverges = (ways.diverges && arm.diverges) } }
{
    Ways {
        never: both(ways.never, arm.never),
        diverges: both(ways.diverges, arm.diverges),
    }
}

/// The numbers from one to another, which is left out.
#[tactic(auto, using(crate::proofs::Stating::number_rules))]
pub fn numbers(alloc: Global, from: u32, to: u32) -> Result<List<u32>, AllocError>
    ensures { IfOk result (λ ns. ns ≡ telling.numbers_from from (to - from)) }
{
    let mut all = List::new(alloc);
    for number in from..to {
        all.push(number)?;
    }
    Ok(all)
}
