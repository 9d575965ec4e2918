//! Statements that are made.

ghost use Rattle.std.specs.Prelude.{◌≡◌, Some, IfOk, map};
ghost use Rattle.rx_tree.specs.Plain as plain;
ghost use Rattle.rx_tree.specs.PlainOf.{plain-Expr, plain-Pattern, plain-Program, plain-Stmt, plain-TypeText};
ghost use Rattle.rx_typed.specs.PlainTypes.{plain-Ty};
ghost use Rattle.rx_hoist_plan.specs.PlainPlan.{plain-Variable};
ghost use Rattle.rx_hoist_extraction.specs.Made as made;
ghost use Rattle.rx_hoist_extraction.specs.WrittenTypes.{elided as elided_type};
ghost use Rattle.rx_hoist_extraction.specs.NewBody as body;

use crate::made::{binding, variable};
use crate::written_types::elided;
use rx_core::{Boxed, List, Name, Span, keep, pushed};
use rx_hoist_plan::Variable;
use rx_tree::{Expr, ExprNode, Pattern, Program, Stmt, StmtNode, TypeText};
use std::alloc::{AllocError, Global};

/// `e;`
#[tactic(auto, using(rx_tree::proofs::Rules::statement_rules))]
pub fn done(span: Span, expr: Expr) -> Stmt
    ensures { plain-Stmt result ≡ made.done span (plain-Expr expr) }
{
    Stmt {
        span,
        node: StmtNode::Eval(expr, true),
    }
}

/// `x = e`
#[tactic(auto, using(rx_tree::proofs::Rules::expression_rules))]
fn assigned(alloc: Global, span: Span, name: &Name, value: Expr) -> Result<Expr, AllocError>
    ensures { IfOk result (λ it. plain-Expr it ≡ plain.assign span (plain.var span name.now) (plain-Expr value)) }
{
    let (place, value) = keep(value, variable(alloc, span, name))?;
    let (value, place) = keep(place, Boxed::new(alloc, value))?;
    let (place, value) = keep(value, Boxed::new(alloc, place))?;
    Ok(Expr {
        span,
        node: ExprNode::Assign(place, value),
    })
}

/// `x = e;`
pub fn assignment(alloc: Global, span: Span, name: &Name, value: Expr) -> Result<Stmt, AllocError>
    ensures { IfOk result (λ it. plain-Stmt it ≡ made.assignment span name.now (plain-Expr value)) }
{
    Ok(done(span, assigned(alloc, span, name, value)?))
}

/// `let P = e;`
#[tactic(auto, using(rx_tree::proofs::Rules::let_rules))]
pub fn let_value(span: Span, pattern: Pattern, value: Expr) -> Stmt
    ensures { plain-Stmt result ≡ made.let_value span (plain-Pattern pattern) (plain-Expr value) }
{
    Stmt {
        span,
        node: StmtNode::Let(pattern, None, Some(value)),
    }
}

/// `let x: T;`
#[tactic(auto, using(rx_tree::proofs::Rules::let_rules))]
fn let_nothing(
    alloc: Global,
    span: Span,
    variable: &Variable,
    typ: TypeText,
) -> Result<Stmt, AllocError>
    ensures { IfOk result (λ it. plain-Stmt it
        ≡ made.let_nothing span variable.now.name variable.now.mutable (plain-TypeText typ)) }
{
    let (pattern, typ) = keep(typ, binding(alloc, span, &variable.name, variable.mutable))?;
    Ok(Stmt {
        span,
        node: StmtNode::Let(pattern, Some(typ), None),
    })
}

/// `let x: T = e;`
#[tactic(auto, using(rx_tree::proofs::Rules::let_rules))]
pub fn let_typed(
    alloc: Global,
    span: Span,
    name: &Name,
    typ: TypeText,
    value: Expr,
) -> Result<Stmt, AllocError>
    ensures { IfOk result (λ it. plain-Stmt it
        ≡ made.let_typed span name.now (plain-TypeText typ) (plain-Expr value)) }
{
    let (pattern, held) = keep((typ, value), binding(alloc, span, name, false))?;
    let (typ, value) = held;
    Ok(Stmt {
        span,
        node: StmtNode::Let(pattern, Some(typ), Some(value)),
    })
}

/// `let x: T;`, the type elided.
fn declaration(
    alloc: Global,
    program: &Program,
    span: Span,
    variable: &Variable,
) -> Result<Stmt, AllocError>
    ensures { IfOk result (λ it. plain-Stmt it ≡ made.let_nothing span (plain-Variable variable.now).name
        (plain-Variable variable.now).mutable (elided_type (plain-Program program.now) span (plain-Variable variable.now).typ)) }
{
    let typ = elided(alloc, program, span, &variable.ty)?;
    let_nothing(alloc, span, variable, typ)
}

/// The statements, and declarations of these variables behind them.
pub fn declared(
    alloc: Global,
    program: &Program,
    span: Span,
    variables: &[Variable],
) -> Result<List<Stmt>, AllocError>
    ensures { IfOk result (λ it. map plain-Stmt it
        ≡ body.declared (plain-Program program.now) span (map plain-Variable variables.now)) }
{
    let mut all = List::new(alloc);
    for variable in variables {
        let (next, held) = keep(all, declaration(alloc, program, span, variable))?;
        all = pushed(held, next)?;
    }
    Ok(all)
}
