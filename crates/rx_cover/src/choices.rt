//! The matches of a function, in the order of the text.

ghost use Rattle.std.specs.Prelude.{◌≡◌, [], ◌∷◌, ◌++◌, OnOk, IfOk, map};
ghost use Rattle.rx_typed.specs.PlainTree.{plain-Expr, plain-Operand, plain-Arm, plain-Stmt, plain-Matched, operands_of, arms_of};
ghost use Rattle.rx_typed.specs.PlainTypes.{plain-Ty};
ghost use Rattle.std.specs.Prelude.{option_map};
ghost use Rattle.rx_cover.specs.Choices as spec;
ghost use Rattle.rx_cover.specs.PlainChoices.{plain-Choice, plain-Type, stmt_choices, stmts_choices};

use rx_core::{LetGo, List, Ty};
use rx_typed::{Arm, Expr, Form, Mark, Matched, Operand, Pattern, Stmt};
use std::alloc::{AllocError, Global};

/// The arms of a match, or the pattern of a `let`.
#[derive(Clone, Copy)]
pub(crate) enum Arms<'a> {
    Each(&'a [Arm]),
    One(&'a Pattern),
}

/// A match: its node, the type of its scrutinee, and its arms.
#[derive(Clone, Copy)]
pub(crate) struct Choice<'a> {
    pub node: usize,
    pub ty: Option<&'a Ty>,
    pub arms: Arms<'a>,
}

impl<'a> LetGo for Choice<'a> {
    fn let_go(self) {}
}

fn type_of<'a>(mark: &'a Mark) -> Option<&'a Ty>
    ensures { plain-Type result ≡ option_map plain-Ty mark.now.ty }
{
    match &mark.ty {
        Some(ty) => Some(ty),
        None => None,
    }
}

/// The type of a scrutinee.
#[tactic(auto, using(rx_typed::proofs::Rules::typed_tree_rules, crate::proofs::ChoiceLemmas::expr_mark))]
fn type_of_matched<'a>(matched: &'a Matched) -> Option<&'a Ty>
    ensures { plain-Type result ≡ spec.scrutinee_typ (plain-Matched matched.now) }
{
    match matched {
        Matched::Place(mark, _) => type_of(mark),
        Matched::Value(expr) => type_of(&expr.get().mark),
    }
}

/// Adds the matches in an expression; the node names the one that it is.
#[cycle(choices)]
#[tactic(auto, using(rx_typed::proofs::Rules::typed_tree_rules, crate::proofs::ChoiceLemmas::choice_rules))]
fn add_choices<'a>(
    found: &mut List<Choice<'a>>,
    node: usize,
    expr: &'a Expr,
) -> Result<(), AllocError>
    ensures { OnOk result (map plain-Choice found.new ≡ map plain-Choice found.old ++ spec.choices node (plain-Expr expr.now)) }
{
    match &expr.form {
        Form::Read(_, _) | Form::Borrow(_, _) | Form::Unit => Ok(()),
        Form::Input | Form::Jump(_, _) => Ok(()),
        Form::Share(inner) => add_own(found, inner.get()),
        Form::Build(_, operands) => add_operands(found, operands.as_slice()),
        Form::Lazily(_, left, right) => {
            add_own(found, left.get())?;
            add_own(found, right.get())
        }
        Form::Assign(_, value) => add_own(found, value.get()),
        Form::Update(_, _, value) => add_own(found, value.get()),
        Form::Call(_, operands) => add_operands(found, operands.as_slice()),
        Form::Print(value) => add_own(found, value.get()),
        Form::Block(stmts, tail) => {
            add_stmts(found, stmts.as_slice())?;
            add_own(found, tail.get())
        }
        Form::Choose(matched, arms) => {
            found.push(Choice {
                node,
                ty: type_of_matched(matched),
                arms: Arms::Each(arms.as_slice()),
            })?;
            add_matched(found, matched)?;
            add_arms(found, arms.as_slice())
        }
        Form::Loop(_, body) => add_choices(found, expr.mark.node, body.get()),
        Form::Give(value) => add_own(found, value.get()),
    }
}

/// Adds the matches in an expression that is none of a loop's tests.
#[cycle(choices)]
#[tactic(auto, using(crate::proofs::ChoiceLemmas::expr_mark))]
fn add_own<'a>(found: &mut List<Choice<'a>>, expr: &'a Expr) -> Result<(), AllocError>
    ensures { OnOk result (map plain-Choice found.new ≡ map plain-Choice found.old ++ spec.choices_of (plain-Expr expr.now)) }
{
    add_choices(found, expr.mark.node, expr)
}

#[cycle(choices)]
#[tactic(auto, using(rx_typed::proofs::Rules::typed_tree_rules))]
fn add_operands<'a>(found: &mut List<Choice<'a>>, operands: &'a [Operand]) -> Result<(), AllocError>
    ensures { OnOk result (map plain-Choice found.new
        ≡ map plain-Choice found.old ++ spec.choices_among (operands_of (map plain-Operand operands.now))) }
{
    for operand in operands {
        add_own(found, &operand.value)?;
    }
    Ok(())
}

#[cycle(choices)]
#[tactic(auto, using(rx_typed::proofs::Rules::typed_tree_rules, crate::proofs::ChoiceLemmas::choice_rules))]
fn add_matched<'a>(found: &mut List<Choice<'a>>, matched: &'a Matched) -> Result<(), AllocError>
    ensures { OnOk result (map plain-Choice found.new
        ≡ map plain-Choice found.old ++ spec.choices_before (plain-Matched matched.now)) }
{
    match matched {
        Matched::Place(_, _) => Ok(()),
        Matched::Value(expr) => add_own(found, expr.get()),
    }
}

#[cycle(choices)]
#[tactic(auto, using(rx_typed::proofs::Rules::typed_tree_rules))]
fn add_arms<'a>(found: &mut List<Choice<'a>>, arms: &'a [Arm]) -> Result<(), AllocError>
    ensures { OnOk result (map plain-Choice found.new
        ≡ map plain-Choice found.old ++ spec.choices_behind (arms_of (map plain-Arm arms.now))) }
{
    for arm in arms {
        add_own(found, &arm.body)?;
    }
    Ok(())
}

#[cycle(choices)]
fn add_stmts<'a>(found: &mut List<Choice<'a>>, stmts: &'a [Stmt]) -> Result<(), AllocError>
    ensures { OnOk result (map plain-Choice found.new
        ≡ map plain-Choice found.old ++ stmts_choices (map plain-Stmt stmts.now)) }
{
    for stmt in stmts {
        add_stmt(found, stmt)?;
    }
    Ok(())
}

#[cycle(choices)]
#[tactic(auto, using(rx_typed::proofs::Rules::typed_tree_rules, crate::proofs::ChoiceLemmas::choice_rules))]
fn add_stmt<'a>(found: &mut List<Choice<'a>>, stmt: &'a Stmt) -> Result<(), AllocError>
    ensures { OnOk result (map plain-Choice found.new ≡ map plain-Choice found.old ++ stmt_choices (plain-Stmt stmt.now)) }
{
    match stmt {
        Stmt::Runs(expr) => add_own(found, expr),
        Stmt::Declares(_, _) => Ok(()),
        Stmt::Lets(node, pattern, matched) => {
            found.push(Choice {
                node: *node,
                ty: type_of_matched(matched),
                arms: Arms::One(pattern),
            })?;
            add_matched(found, matched)
        }
    }
}

/// The matches in a function's body.
pub(crate) fn choices_in<'a>(alloc: Global, body: &'a Expr) -> Result<List<Choice<'a>>, AllocError>
    ensures { IfOk result (λ it. map plain-Choice it ≡ spec.choices_of (plain-Expr body.now)) }
{
    let mut found = List::new(alloc);
    add_own(&mut found, body)?;
    Ok(found)
}
