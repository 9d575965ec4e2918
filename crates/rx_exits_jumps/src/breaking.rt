//! Whether some `break` leads to a loop.

ghost use Rattle.std.specs.Prelude.{◌≡◌, map};
ghost use Rattle.rx_typed.specs.PlainTree.{plain-Expr, plain-Operand, plain-Arm, plain-Matched, operands_of, arms_of};
ghost use Rattle.rx_exits_plan.specs.PlainSyntax.{plain-Statement};
ghost use Rattle.rx_exits_jumps.specs.Broken as broken;

use rx_typed::{Arm, Expr, Form, Matched, Operand, Stmt};

/// Whether an expression has a `break` of the loop of this number.
#[cycle(breaking)]
#[tactic(auto, using(rx_typed::proofs::Rules::typed_tree_rules, crate::proofs::BrokenLemmas::broken_rules))]
pub(crate) fn breaks(number: u32, expr: &Expr) -> bool
    ensures { result ≡ broken.breaks number (plain-Expr expr.now) }
{
    match &expr.form {
        Form::Read(_, _) | Form::Borrow(_, _) | Form::Unit | Form::Input => false,
        Form::Share(inner) => breaks(number, inner.get()),
        Form::Build(_, operands) => breaks_in(number, operands.as_slice()),
        Form::Lazily(_, left, right) => breaks(number, left.get()) || breaks(number, right.get()),
        Form::Assign(_, value) => breaks(number, value.get()),
        Form::Update(_, _, value) => breaks(number, value.get()),
        Form::Call(_, operands) => breaks_in(number, operands.as_slice()),
        Form::Print(value) => breaks(number, value.get()),
        Form::Block(stmts, tail) => {
            breaks_among(number, stmts.as_slice()) || breaks(number, tail.get())
        }
        Form::Choose(matched, arms) => {
            breaks_matched(number, matched) || breaks_armed(number, arms.as_slice())
        }
        Form::Loop(_, body) => breaks(number, body.get()),
        Form::Jump(other, again) => *other == number && !*again,
        Form::Give(value) => breaks(number, value.get()),
    }
}

#[cycle(breaking)]
#[tactic(auto, using(rx_typed::proofs::Rules::typed_tree_rules))]
fn breaks_in(number: u32, operands: &[Operand]) -> bool
    ensures { result ≡ broken.breaks_in number (operands_of (map plain-Operand operands.now)) }
{
    for operand in operands {
        if breaks(number, &operand.value) {
            return true;
        }
    }
    false
}

#[cycle(breaking)]
#[tactic(auto, using(rx_typed::proofs::Rules::typed_tree_rules))]
fn breaks_matched(number: u32, matched: &Matched) -> bool
    ensures { result ≡ broken.breaks_matched number (plain-Matched matched.now) }
{
    match matched {
        Matched::Place(_, _) => false,
        Matched::Value(expr) => breaks(number, expr.get()),
    }
}

#[cycle(breaking)]
#[tactic(auto, using(rx_typed::proofs::Rules::typed_tree_rules))]
fn breaks_armed(number: u32, arms: &[Arm]) -> bool
    ensures { result ≡ broken.breaks_armed number (arms_of (map plain-Arm arms.now)) }
{
    for arm in arms {
        if breaks(number, &arm.body) {
            return true;
        }
    }
    false
}

#[cycle(breaking)]
#[tactic(auto, using(rx_typed::proofs::Rules::typed_tree_rules))]
fn breaks_stmt(number: u32, stmt: &Stmt) -> bool
    ensures { result ≡ broken.breaks_statement number (plain-Statement stmt.now) }
{
    match stmt {
        Stmt::Runs(expr) => breaks(number, expr),
        Stmt::Declares(_, _) => false,
        Stmt::Lets(_, _, matched) => breaks_matched(number, matched),
    }
}

#[cycle(breaking)]
fn breaks_among(number: u32, stmts: &[Stmt]) -> bool
    ensures { result ≡ broken.breaks_statements number (map plain-Statement stmts.now) }
{
    for stmt in stmts {
        if breaks_stmt(number, stmt) {
            return true;
        }
    }
    false
}
