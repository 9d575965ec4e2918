//! What an expression of the answer is, by its form.

ghost use Rattle.std.specs.Prelude.{◌≡◌, Some, None, MatchOption, map};
ghost use Rattle.rx_typed.specs.PlainTree.{plain-Expr, plain-Operand, plain-Arm, plain-Matched, plain-Mark, plain-Place, plain-Making, operands_of, arms_of};
ghost use Rattle.rx_engine_alike.specs.Read as read;
ghost use Rattle.rx_engine_alike.specs.PlainParts.{plain-Part};

use crate::parts::Part;
use rx_core::Place;
use rx_tree::BinaryOp;
use rx_typed::{Arm, Expr, Form, Making, Mark, Matched, Operand};

/// The place that is read, and whether its value moves.
#[tactic(auto, using(rx_typed::proofs::Rules::typed_tree_rules))]
pub fn read_of<'t>(expr: &'t Expr) -> Option<(bool, &'t Place)>
    ensures { MatchOption result (read.as_read (plain-Expr expr.now) ≡ None)
        (λ it. read.as_read (plain-Expr expr.now) ≡ Some (plain-Mark expr.now.mark, it.0, plain-Place it.1.now)) }
{
    match &expr.form {
        Form::Read(moves, place) => Some((*moves, place)),
        Form::Borrow(_, _) | Form::Share(_) | Form::Build(_, _) | Form::Unit => None,
        Form::Lazily(_, _, _) | Form::Assign(_, _) | Form::Update(_, _, _) => None,
        Form::Call(_, _) | Form::Input | Form::Print(_) | Form::Block(_, _) => None,
        Form::Choose(_, _) | Form::Loop(_, _) | Form::Jump(_, _) | Form::Give(_) => None,
    }
}

/// Whether it is borrowed mutably, and the place.
#[tactic(auto, using(rx_typed::proofs::Rules::typed_tree_rules))]
pub fn borrow_of<'t>(expr: &'t Expr) -> Option<(bool, &'t Place)>
    ensures { MatchOption result (read.as_borrow (plain-Expr expr.now) ≡ None)
        (λ it. read.as_borrow (plain-Expr expr.now) ≡ Some (plain-Mark expr.now.mark, it.0, plain-Place it.1.now)) }
{
    match &expr.form {
        Form::Borrow(mutable, place) => Some((*mutable, place)),
        Form::Read(_, _) | Form::Share(_) | Form::Build(_, _) | Form::Unit => None,
        Form::Lazily(_, _, _) | Form::Assign(_, _) | Form::Update(_, _, _) => None,
        Form::Call(_, _) | Form::Input | Form::Print(_) | Form::Block(_, _) => None,
        Form::Choose(_, _) | Form::Loop(_, _) | Form::Jump(_, _) | Form::Give(_) => None,
    }
}

/// The value that is shared.
#[tactic(auto, using(rx_typed::proofs::Rules::typed_tree_rules))]
pub(crate) fn share_of<'t>(expr: &'t Expr) -> Option<&'t Expr>
    ensures { MatchOption result (read.as_share (plain-Expr expr.now) ≡ None)
        (λ it. read.as_share (plain-Expr expr.now) ≡ Some (plain-Mark expr.now.mark, plain-Expr it.now)) }
{
    match &expr.form {
        Form::Share(value) => Some(value.get()),
        Form::Read(_, _) | Form::Borrow(_, _) | Form::Build(_, _) | Form::Unit => None,
        Form::Lazily(_, _, _) | Form::Assign(_, _) | Form::Update(_, _, _) => None,
        Form::Call(_, _) | Form::Input | Form::Print(_) | Form::Block(_, _) => None,
        Form::Choose(_, _) | Form::Loop(_, _) | Form::Jump(_, _) | Form::Give(_) => None,
    }
}

/// What is made, and of which operands.
#[tactic(auto, using(rx_typed::proofs::Rules::typed_tree_rules))]
pub fn build_of<'t>(expr: &'t Expr) -> Option<(Making, &'t [Operand])>
    ensures { MatchOption result (read.as_build (plain-Expr expr.now) ≡ None)
        (λ it. read.as_build (plain-Expr expr.now) ≡ Some (plain-Mark expr.now.mark, plain-Making it.0, operands_of (map plain-Operand it.1.now))) }
{
    match &expr.form {
        Form::Build(making, operands) => Some((*making, operands.as_slice())),
        Form::Read(_, _) | Form::Borrow(_, _) | Form::Share(_) | Form::Unit => None,
        Form::Lazily(_, _, _) | Form::Assign(_, _) | Form::Update(_, _, _) => None,
        Form::Call(_, _) | Form::Input | Form::Print(_) | Form::Block(_, _) => None,
        Form::Choose(_, _) | Form::Loop(_, _) | Form::Jump(_, _) | Form::Give(_) => None,
    }
}

/// The mark of the unit.
#[tactic(auto, using(rx_typed::proofs::Rules::typed_tree_rules))]
pub(crate) fn unit_of(expr: &Expr) -> Option<&Mark>
    ensures { MatchOption result (read.as_unit (plain-Expr expr.now) ≡ None)
        (λ it. read.as_unit (plain-Expr expr.now) ≡ Some (plain-Mark it.now)) }
{
    match &expr.form {
        Form::Unit => Some(&expr.mark),
        Form::Read(_, _) | Form::Borrow(_, _) | Form::Share(_) => None,
        Form::Build(_, _) | Form::Lazily(_, _, _) | Form::Assign(_, _) => None,
        Form::Update(_, _, _) | Form::Call(_, _) | Form::Input | Form::Print(_) => None,
        Form::Block(_, _) | Form::Choose(_, _) | Form::Loop(_, _) => None,
        Form::Jump(_, _) | Form::Give(_) => None,
    }
}

/// Whether it is `&&`, and both operands.
#[tactic(auto, using(rx_typed::proofs::Rules::typed_tree_rules))]
pub(crate) fn lazily_of<'t>(expr: &'t Expr) -> Option<(bool, &'t Expr, &'t Expr)>
    ensures { MatchOption result (read.as_lazily (plain-Expr expr.now) ≡ None)
        (λ it. read.as_lazily (plain-Expr expr.now) ≡ Some (plain-Mark expr.now.mark, it.0, plain-Expr it.1.now, plain-Expr it.2.now)) }
{
    match &expr.form {
        Form::Lazily(both, left, right) => Some((*both, left.get(), right.get())),
        Form::Read(_, _) | Form::Borrow(_, _) | Form::Share(_) => None,
        Form::Build(_, _) | Form::Unit | Form::Assign(_, _) => None,
        Form::Update(_, _, _) | Form::Call(_, _) | Form::Input | Form::Print(_) => None,
        Form::Block(_, _) | Form::Choose(_, _) | Form::Loop(_, _) => None,
        Form::Jump(_, _) | Form::Give(_) => None,
    }
}

/// What is assigned, and the value.
#[tactic(auto, using(rx_typed::proofs::Rules::typed_tree_rules))]
pub fn assign_of<'t>(expr: &'t Expr) -> Option<(&'t Place, &'t Expr)>
    ensures { MatchOption result (read.as_assign (plain-Expr expr.now) ≡ None)
        (λ it. read.as_assign (plain-Expr expr.now) ≡ Some (plain-Mark expr.now.mark, plain-Place it.0.now, plain-Expr it.1.now)) }
{
    match &expr.form {
        Form::Assign(place, value) => Some((place, value.get())),
        Form::Read(_, _) | Form::Borrow(_, _) | Form::Share(_) => None,
        Form::Build(_, _) | Form::Unit | Form::Lazily(_, _, _) => None,
        Form::Update(_, _, _) | Form::Call(_, _) | Form::Input | Form::Print(_) => None,
        Form::Block(_, _) | Form::Choose(_, _) | Form::Loop(_, _) => None,
        Form::Jump(_, _) | Form::Give(_) => None,
    }
}

/// The operator, what is updated, and the operand.
#[tactic(auto, using(rx_typed::proofs::Rules::typed_tree_rules))]
pub(crate) fn update_of<'t>(expr: &'t Expr) -> Option<(BinaryOp, &'t Place, &'t Expr)>
    ensures { MatchOption result (read.as_update (plain-Expr expr.now) ≡ None)
        (λ it. read.as_update (plain-Expr expr.now) ≡ Some (plain-Mark expr.now.mark, it.0, plain-Place it.1.now, plain-Expr it.2.now)) }
{
    match &expr.form {
        Form::Update(op, place, value) => Some((*op, place, value.get())),
        Form::Read(_, _) | Form::Borrow(_, _) | Form::Share(_) => None,
        Form::Build(_, _) | Form::Unit | Form::Lazily(_, _, _) => None,
        Form::Assign(_, _) | Form::Call(_, _) | Form::Input | Form::Print(_) => None,
        Form::Block(_, _) | Form::Choose(_, _) | Form::Loop(_, _) => None,
        Form::Jump(_, _) | Form::Give(_) => None,
    }
}

/// Which function is called, with which arguments.
#[tactic(auto, using(rx_typed::proofs::Rules::typed_tree_rules))]
pub fn call_of<'t>(expr: &'t Expr) -> Option<(u32, &'t [Operand])>
    ensures { MatchOption result (read.as_call (plain-Expr expr.now) ≡ None)
        (λ it. read.as_call (plain-Expr expr.now) ≡ Some (plain-Mark expr.now.mark, it.0, operands_of (map plain-Operand it.1.now))) }
{
    match &expr.form {
        Form::Call(function, operands) => Some((*function, operands.as_slice())),
        Form::Read(_, _) | Form::Borrow(_, _) | Form::Share(_) => None,
        Form::Build(_, _) | Form::Unit | Form::Lazily(_, _, _) => None,
        Form::Assign(_, _) | Form::Update(_, _, _) | Form::Input => None,
        Form::Print(_) | Form::Block(_, _) | Form::Choose(_, _) => None,
        Form::Loop(_, _) | Form::Jump(_, _) | Form::Give(_) => None,
    }
}

/// The mark of what reads an input.
#[tactic(auto, using(rx_typed::proofs::Rules::typed_tree_rules))]
pub(crate) fn input_of(expr: &Expr) -> Option<&Mark>
    ensures { MatchOption result (read.as_input (plain-Expr expr.now) ≡ None)
        (λ it. read.as_input (plain-Expr expr.now) ≡ Some (plain-Mark it.now)) }
{
    match &expr.form {
        Form::Input => Some(&expr.mark),
        Form::Read(_, _) | Form::Borrow(_, _) | Form::Share(_) => None,
        Form::Build(_, _) | Form::Unit | Form::Lazily(_, _, _) => None,
        Form::Assign(_, _) | Form::Update(_, _, _) | Form::Call(_, _) => None,
        Form::Print(_) | Form::Block(_, _) | Form::Choose(_, _) => None,
        Form::Loop(_, _) | Form::Jump(_, _) | Form::Give(_) => None,
    }
}

/// What is printed.
#[tactic(auto, using(rx_typed::proofs::Rules::typed_tree_rules))]
pub(crate) fn print_of<'t>(expr: &'t Expr) -> Option<&'t Expr>
    ensures { MatchOption result (read.as_print (plain-Expr expr.now) ≡ None)
        (λ it. read.as_print (plain-Expr expr.now) ≡ Some (plain-Mark expr.now.mark, plain-Expr it.now)) }
{
    match &expr.form {
        Form::Print(value) => Some(value.get()),
        Form::Read(_, _) | Form::Borrow(_, _) | Form::Share(_) => None,
        Form::Build(_, _) | Form::Unit | Form::Lazily(_, _, _) => None,
        Form::Assign(_, _) | Form::Update(_, _, _) | Form::Call(_, _) => None,
        Form::Input | Form::Block(_, _) | Form::Choose(_, _) | Form::Loop(_, _) => None,
        Form::Jump(_, _) | Form::Give(_) => None,
    }
}

/// The statements and the tail of a block.
#[tactic(auto, using(rx_typed::proofs::Rules::typed_tree_rules))]
pub fn block_of<'t>(expr: &'t Expr) -> Option<Part<'t>>
    ensures { MatchOption result (read.as_block (plain-Expr expr.now) ≡ None)
        (λ it. read.as_block (plain-Expr expr.now) ≡ Some (plain-Mark expr.now.mark, plain-Part it)) }
{
    match &expr.form {
        Form::Block(stmts, tail) => Some(Part {
            stmts: stmts.as_slice(),
            tail: tail.get(),
        }),
        Form::Read(_, _) | Form::Borrow(_, _) | Form::Share(_) => None,
        Form::Build(_, _) | Form::Unit | Form::Lazily(_, _, _) => None,
        Form::Assign(_, _) | Form::Update(_, _, _) | Form::Call(_, _) => None,
        Form::Input | Form::Print(_) | Form::Choose(_, _) | Form::Loop(_, _) => None,
        Form::Jump(_, _) | Form::Give(_) => None,
    }
}

/// What is matched, with which arms.
#[tactic(auto, using(rx_typed::proofs::Rules::typed_tree_rules))]
pub fn choose_of<'t>(expr: &'t Expr) -> Option<(&'t Matched, &'t [Arm])>
    ensures { MatchOption result (read.as_choose (plain-Expr expr.now) ≡ None)
        (λ it. read.as_choose (plain-Expr expr.now) ≡ Some (plain-Mark expr.now.mark, plain-Matched it.0.now, arms_of (map plain-Arm it.1.now))) }
{
    match &expr.form {
        Form::Choose(matched, arms) => Some((matched, arms.as_slice())),
        Form::Read(_, _) | Form::Borrow(_, _) | Form::Share(_) => None,
        Form::Build(_, _) | Form::Unit | Form::Lazily(_, _, _) => None,
        Form::Assign(_, _) | Form::Update(_, _, _) | Form::Call(_, _) => None,
        Form::Input | Form::Print(_) | Form::Block(_, _) | Form::Loop(_, _) => None,
        Form::Jump(_, _) | Form::Give(_) => None,
    }
}

/// A loop's number, and its body.
#[tactic(auto, using(rx_typed::proofs::Rules::typed_tree_rules))]
pub(crate) fn loop_of<'t>(expr: &'t Expr) -> Option<(u32, &'t Expr)>
    ensures { MatchOption result (read.as_loop (plain-Expr expr.now) ≡ None)
        (λ it. read.as_loop (plain-Expr expr.now) ≡ Some (plain-Mark expr.now.mark, it.0, plain-Expr it.1.now)) }
{
    match &expr.form {
        Form::Loop(number, body) => Some((*number, body.get())),
        Form::Read(_, _) | Form::Borrow(_, _) | Form::Share(_) => None,
        Form::Build(_, _) | Form::Unit | Form::Lazily(_, _, _) => None,
        Form::Assign(_, _) | Form::Update(_, _, _) | Form::Call(_, _) => None,
        Form::Input | Form::Print(_) | Form::Block(_, _) | Form::Choose(_, _) => None,
        Form::Jump(_, _) | Form::Give(_) => None,
    }
}

/// Of which loop, and whether its next pass begins.
#[tactic(auto, using(rx_typed::proofs::Rules::typed_tree_rules))]
pub fn jump_of(expr: &Expr) -> Option<(u32, bool)>
    ensures { MatchOption result (read.as_jump (plain-Expr expr.now) ≡ None)
        (λ it. read.as_jump (plain-Expr expr.now) ≡ Some (plain-Mark expr.now.mark, it.0, it.1)) }
{
    match &expr.form {
        Form::Jump(number, again) => Some((*number, *again)),
        Form::Read(_, _) | Form::Borrow(_, _) | Form::Share(_) => None,
        Form::Build(_, _) | Form::Unit | Form::Lazily(_, _, _) => None,
        Form::Assign(_, _) | Form::Update(_, _, _) | Form::Call(_, _) => None,
        Form::Input | Form::Print(_) | Form::Block(_, _) | Form::Choose(_, _) => None,
        Form::Loop(_, _) | Form::Give(_) => None,
    }
}

/// What is returned.
#[tactic(auto, using(rx_typed::proofs::Rules::typed_tree_rules))]
pub fn give_of<'t>(expr: &'t Expr) -> Option<&'t Expr>
    ensures { MatchOption result (read.as_give (plain-Expr expr.now) ≡ None)
        (λ it. read.as_give (plain-Expr expr.now) ≡ Some (plain-Mark expr.now.mark, plain-Expr it.now)) }
{
    match &expr.form {
        Form::Give(value) => Some(value.get()),
        Form::Read(_, _) | Form::Borrow(_, _) | Form::Share(_) => None,
        Form::Build(_, _) | Form::Unit | Form::Lazily(_, _, _) => None,
        Form::Assign(_, _) | Form::Update(_, _, _) | Form::Call(_, _) => None,
        Form::Input | Form::Print(_) | Form::Block(_, _) | Form::Choose(_, _) => None,
        Form::Loop(_, _) | Form::Jump(_, _) => None,
    }
}
