//! The walk over a tree that finds what is sought, with what is around each place.

ghost use Rattle.std.specs.Prelude.{◌≡◌, ◌++◌, ◌∷◌, [], OnOk, take, map};
ghost use Rattle.rx_typed.specs.PlainTree.{plain-Expr, plain-Operand, plain-Arm, plain-Matched, plain-Pattern, operands_of, arms_of};
ghost use Rattle.rx_exits_plan.specs.Blocks.{bound, declared_by, declared_by_all};
ghost use Rattle.rx_exits_plan.specs.Spots.{with_variables, with_loop, a_return, spots, spots_in, spots_matched, spots_armed};
ghost use Rattle.rx_exits_plan.specs.Exits.{spots_in_statements};
ghost use Rattle.rx_exits_plan.specs.PlainSyntax.{plain-Statement, plain-Around, grown};
ghost use Rattle.rx_exits_jumps.specs.PlainSought.{plain-Sought, plain-Found};
ghost use Rattle.rx_exits_jumps.specs.Seen.{with_spots};

use crate::sought::{Found, Sought, meet_block, meet_jump, meet_return};
use rx_core::Boxed;
use rx_exits_plan::{Around, cut, push_all, push_bound};
use rx_typed::{Arm, Expr, Form, Matched, Operand, Pattern, Stmt};
use std::alloc::{AllocError, Global};

/// Adds what is sought in an expression.
#[cycle(seeing)]
#[tactic(auto, using(rx_typed::proofs::Rules::typed_tree_rules, crate::proofs::SeeingLemmas::seeing_rules))]
pub(crate) fn see<'t>(
    alloc: Global,
    expr: &'t Expr,
    sought: Sought<'_>,
    around: &mut Around,
    found: &mut Found<'t>,
) -> Result<(), AllocError>
    ensures found { OnOk result (plain-Found found.new ≡ with_spots (plain-Sought sought.entry) (plain-Found found.old) (spots (plain-Around around.old) (plain-Expr expr.now))) }
    ensures around { OnOk result (around.new ≡ around.old) }
{
    match &expr.form {
        Form::Read(_, _) | Form::Borrow(_, _) | Form::Unit | Form::Input => Ok(()),
        Form::Share(inner) => see(alloc, inner.get(), sought, around, found),
        Form::Build(_, operands) => see_operands(alloc, operands.as_slice(), sought, around, found),
        Form::Lazily(_, left, right) => {
            see(alloc, left.get(), sought, around, found)?;
            see(alloc, right.get(), sought, around, found)
        }
        Form::Assign(_, value) => see(alloc, value.get(), sought, around, found),
        Form::Update(_, _, value) => see(alloc, value.get(), sought, around, found),
        Form::Call(_, operands) => see_operands(alloc, operands.as_slice(), sought, around, found),
        Form::Print(value) => see(alloc, value.get(), sought, around, found),
        Form::Block(stmts, tail) => {
            let node = expr.mark.node;
            let kept = around.scope.len();
            meet_block(
                alloc,
                sought,
                around,
                found,
                node,
                stmts.as_slice(),
                tail.get(),
            )?;
            see_stmts(alloc, stmts.as_slice(), sought, around, found)?;
            see_tail(alloc, tail, sought, around, found, kept)
        }
        Form::Choose(matched, arms) => {
            see_matched(alloc, matched, sought, around, found)?;
            see_arms(alloc, arms.as_slice(), sought, around, found)
        }
        Form::Loop(number, body) => see_loop(alloc, body, sought, around, found, *number),
        Form::Jump(number, again) => {
            meet_jump(
                alloc,
                sought,
                around,
                found,
                expr.mark.node,
                *number,
                *again,
            )
        }
        Form::Give(value) => see_given(alloc, value, sought, around, found, expr.mark.node),
    }
}

/// The operand of a `return`, and the `return` at a node.
#[cycle(seeing)]
#[tactic(auto, using(crate::proofs::SeeingLemmas::seeing_rules))]
fn see_given<'t>(
    alloc: Global,
    value: &'t Boxed<Expr>,
    sought: Sought<'_>,
    around: &mut Around,
    found: &mut Found<'t>,
    node: usize,
) -> Result<(), AllocError>
    ensures found { OnOk result (plain-Found found.new ≡ with_spots (plain-Sought sought.entry) (plain-Found found.old)
        (spots (plain-Around around.old) (plain-Expr value.now) ++ a_return (plain-Around around.old) node ∷ [])) }
    ensures around { OnOk result (around.new ≡ around.old) }
{
    see(alloc, value.get(), sought, around, found)?;
    meet_return(alloc, sought, around, found, node)
}

/// The body of a loop, by the loop's number.
#[cycle(seeing)]
#[tactic(auto, using(crate::proofs::SeeingLemmas::seeing_rules))]
fn see_loop<'t>(
    alloc: Global,
    body: &'t Boxed<Expr>,
    sought: Sought<'_>,
    around: &mut Around,
    found: &mut Found<'t>,
    number: u32,
) -> Result<(), AllocError>
    ensures found { OnOk result (plain-Found found.new ≡ with_spots (plain-Sought sought.entry) (plain-Found found.old)
        (spots (with_loop number (plain-Around around.old)) (plain-Expr body.now))) }
    ensures around { OnOk result (around.new ≡ around.old) }
{
    let kept = around.loops.len();
    around.loops.push(number)?;
    see(alloc, body.get(), sought, around, found)?;
    cut(alloc, &mut around.loops, kept);
    Ok(())
}

/// The tail of a block. All variables but the first few end behind it.
#[cycle(seeing)]
fn see_tail<'t>(
    alloc: Global,
    tail: &'t Boxed<Expr>,
    sought: Sought<'_>,
    around: &mut Around,
    found: &mut Found<'t>,
    kept: usize,
) -> Result<(), AllocError>
    ensures found { OnOk result (plain-Found found.new ≡ with_spots (plain-Sought sought.entry) (plain-Found found.old) (spots (plain-Around around.old) (plain-Expr tail.now))) }
    ensures around { OnOk result (around.new ≡ record { scope = take kept around.old.scope; loops = around.old.loops }) }
{
    see(alloc, tail.get(), sought, around, found)?;
    cut(alloc, &mut around.scope, kept);
    Ok(())
}

#[cycle(seeing)]
#[tactic(auto, using(rx_typed::proofs::Rules::typed_tree_rules))]
fn see_operands<'t>(
    alloc: Global,
    operands: &'t [Operand],
    sought: Sought<'_>,
    around: &mut Around,
    found: &mut Found<'t>,
) -> Result<(), AllocError>
    ensures found { OnOk result (plain-Found found.new ≡ with_spots (plain-Sought sought.entry) (plain-Found found.old)
        (spots_in (plain-Around around.old) (operands_of (map plain-Operand operands.now)))) }
    ensures around { OnOk result (around.new ≡ around.old) }
{
    for operand in operands {
        see(alloc, &operand.value, sought, around, found)?;
    }
    Ok(())
}

#[cycle(seeing)]
#[tactic(auto, using(rx_typed::proofs::Rules::typed_tree_rules, crate::proofs::SeeingLemmas::seeing_rules))]
fn see_matched<'t>(
    alloc: Global,
    matched: &'t Matched,
    sought: Sought<'_>,
    around: &mut Around,
    found: &mut Found<'t>,
) -> Result<(), AllocError>
    ensures found { OnOk result (plain-Found found.new ≡ with_spots (plain-Sought sought.entry) (plain-Found found.old)
        (spots_matched (plain-Around around.old) (plain-Matched matched.now))) }
    ensures around { OnOk result (around.new ≡ around.old) }
{
    match matched {
        Matched::Place(_, _) => Ok(()),
        Matched::Value(expr) => see(alloc, expr.get(), sought, around, found),
    }
}

/// An arm. The variables of its pattern end behind it.
#[cycle(seeing)]
fn see_arm<'t>(
    alloc: Global,
    arm: &'t Arm,
    sought: Sought<'_>,
    around: &mut Around,
    found: &mut Found<'t>,
) -> Result<(), AllocError>
    ensures found { OnOk result (plain-Found found.new ≡ with_spots (plain-Sought sought.entry) (plain-Found found.old)
        (spots (with_variables (bound (plain-Arm arm.now).0) (plain-Around around.old)) (plain-Arm arm.now).1)) }
    ensures around { OnOk result (around.new ≡ around.old) }
{
    let kept = around.scope.len();
    push_bound(&mut around.scope, &arm.pattern)?;
    see(alloc, &arm.body, sought, around, found)?;
    cut(alloc, &mut around.scope, kept);
    Ok(())
}

#[cycle(seeing)]
fn see_arms<'t>(
    alloc: Global,
    arms: &'t [Arm],
    sought: Sought<'_>,
    around: &mut Around,
    found: &mut Found<'t>,
) -> Result<(), AllocError>
    ensures found { OnOk result (plain-Found found.new ≡ with_spots (plain-Sought sought.entry) (plain-Found found.old)
        (spots_armed (plain-Around around.old) (arms_of (map plain-Arm arms.now)))) }
    ensures around { OnOk result (around.new ≡ around.old) }
{
    for arm in arms {
        see_arm(alloc, arm, sought, around, found)?;
    }
    Ok(())
}

/// The initialiser of a `let`, and its variables.
#[cycle(seeing)]
fn see_let<'t>(
    alloc: Global,
    matched: &'t Matched,
    sought: Sought<'_>,
    around: &mut Around,
    found: &mut Found<'t>,
    pattern: &'t Pattern,
) -> Result<(), AllocError>
    ensures found { OnOk result (plain-Found found.new ≡ with_spots (plain-Sought sought.entry) (plain-Found found.old)
        (spots_matched (plain-Around around.old) (plain-Matched matched.now))) }
    ensures around { OnOk result (around.new ≡ grown around.old (bound (plain-Pattern pattern.now))) }
{
    see_matched(alloc, matched, sought, around, found)?;
    push_bound(&mut around.scope, pattern)
}

/// A statement. Its variables stay in scope.
#[cycle(seeing)]
#[tactic(auto, using(rx_typed::proofs::Rules::typed_tree_rules, crate::proofs::SeeingLemmas::seeing_rules))]
fn see_stmt<'t>(
    alloc: Global,
    stmt: &'t Stmt,
    sought: Sought<'_>,
    around: &mut Around,
    found: &mut Found<'t>,
) -> Result<(), AllocError>
    ensures found { OnOk result (plain-Found found.new ≡ with_spots (plain-Sought sought.entry) (plain-Found found.old)
        (spots_in_statements (plain-Around around.old) (plain-Statement stmt.now ∷ []))) }
    ensures around { OnOk result (around.new ≡ grown around.old (declared_by (plain-Statement stmt.now))) }
{
    match stmt {
        Stmt::Runs(expr) => see(alloc, expr, sought, around, found),
        Stmt::Declares(_, variables) => push_all(&mut around.scope, variables.as_slice()),
        Stmt::Lets(_, pattern, matched) => see_let(alloc, matched, sought, around, found, pattern),
    }
}

/// Statements, one behind the other. Their variables stay in scope.
#[cycle(seeing)]
pub(crate) fn see_stmts<'t>(
    alloc: Global,
    stmts: &'t [Stmt],
    sought: Sought<'_>,
    around: &mut Around,
    found: &mut Found<'t>,
) -> Result<(), AllocError>
    ensures found { OnOk result (plain-Found found.new ≡ with_spots (plain-Sought sought.entry) (plain-Found found.old)
        (spots_in_statements (plain-Around around.old) (map plain-Statement stmts.now))) }
    ensures around { OnOk result (around.new ≡ grown around.old (declared_by_all (map plain-Statement stmts.now))) }
{
    for stmt in stmts {
        see_stmt(alloc, stmt, sought, around, found)?;
    }
    Ok(())
}
