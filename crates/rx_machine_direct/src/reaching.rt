//! How far an expression comes at once.

ghost use Rattle.std.specs.Prelude.{◌≡◌, ◌<◌, IfSome, length, map, option_map, MatchOption};
ghost use Rattle.rx_typed.specs.Tree.{Mark, Exp, block, choose, variable as variable_root};
ghost use Rattle.rx_typed.specs.PlainTree.{plain-Constant, plain-Pattern, plain-Expr, plain-Stmt, plain-Matched, nested_of};
ghost use Rattle.rx_typed.specs.declared.tree.Constant.TheVariants.{Integer as ConstantInteger};
ghost use Rattle.rx_meaning.specs.Values.{and_then};
ghost use Rattle.rx_meaning.specs.Acting.{checked};
ghost use Rattle.rx_lower_walks.specs.Matching.{equals as equals_check};
ghost use Rattle.rx_machine_values.specs.PlainNumber.{plain-Number};
ghost use Rattle.rx_machine_values.specs.PlainMemory.{plain-Memory};
ghost use Rattle.rx_machine_direct.specs.Direct as spec;
ghost use Rattle.rx_machine_direct.specs.PlainScalar.{plain-Scalar};
ghost use Rattle.rx_machine_direct.specs.Reaching.{Comes, ComesBody};
ghost use Rattle.rx_machine_direct.specs.PlainReached.{plain-Reached, arms_in, Wrote, Goes, Chooses, Runs, Passes};

use crate::scalars::{Scalar, both, direct};
use crate::variable::{at_place, store};
use rx_core::{Kind, Place};
use rx_machine_values::{Memory, Number};
use rx_typed::{Arm, Constant, Expr, Form, Matched, Pattern, Stmt};

/// What is left of an expression.
#[derive(Clone, Copy)]
pub enum Reached<'a> {
    Into(&'a Expr),
    /// What is left of a block.
    Statements(&'a [Stmt], &'a Expr),
    /// It gave this.
    Gave(Scalar),
    /// It gave `()`.
    Unit,
}

/// An expression in place of another, or what is left of that.
#[derive(Clone, Copy)]
enum Way<'a> {
    Further(&'a Expr),
    Stops(Reached<'a>),
}

/// Writes what was told to a variable; whether that was done.
fn put(place: &Place, scalar: Option<Scalar>, slots: &[Option<usize>], memory: &mut Memory) -> bool
    ensures { Wrote (and_then (option_map plain-Scalar scalar) (λ v. spec.stored slots.now (plain-Memory memory.old) (variable_root place.now.var) place.now.steps v))
        (plain-Memory memory.old) (plain-Memory memory.new) result }
{
    match scalar {
        Some(scalar) => store(slots, memory, place, scalar),
        None => false,
    }
}

/// Does an assignment to a variable; whether the expression was one and it was done.
#[tactic(auto, using(rx_typed::proofs::Rules::typed_tree_rules))]
fn assigned(expr: &Expr, slots: &[Option<usize>], memory: &mut Memory) -> bool
    ensures { Wrote (spec.assigned slots.now (plain-Memory memory.old) (plain-Expr expr.now)) (plain-Memory memory.old) (plain-Memory memory.new) result }
{
    match &expr.form {
        Form::Assign(place, value) => {
            let scalar = direct(value.get(), slots, memory);
            put(place, scalar, slots, memory)
        }
        Form::Update(op, place, value) => {
            let left = at_place(slots, memory, place);
            let right = direct(value.get(), slots, memory);
            put(place, both(*op, left, right), slots, memory)
        }
        Form::Read(_, _) | Form::Borrow(_, _) | Form::Share(_) | Form::Build(_, _) => false,
        Form::Unit | Form::Lazily(_, _, _) | Form::Call(_, _) | Form::Input => false,
        Form::Print(_) | Form::Block(_, _) | Form::Choose(_, _) | Form::Loop(_, _) => false,
        Form::Jump(_, _) | Form::Give(_) => false,
    }
}

/// Does a statement that is an assignment to a variable; whether that was done.
fn runs(statement: &Stmt, slots: &[Option<usize>], memory: &mut Memory) -> bool
    ensures { Runs slots.now (plain-Memory memory.old) (plain-Stmt statement.now) (plain-Memory memory.new) result }
{
    match statement {
        Stmt::Runs(expr) => assigned(expr, slots, memory),
        Stmt::Declares(_, _) => false,
        Stmt::Lets(_, _, _) => false,
    }
}

/// Does the first statement, if it is an assignment to a variable; the statements behind it.
fn passed<'a>(
    statements: &'a [Stmt],
    slots: &[Option<usize>],
    memory: &mut Memory,
) -> Option<&'a [Stmt]>
    ensures passes { MatchOption result (plain-Memory memory.new ≡ plain-Memory memory.old)
        (λ rest. Passes slots.now (plain-Memory memory.old) (map plain-Stmt statements.entry.now) (plain-Memory memory.new) (map plain-Stmt rest.now)) }
    ensures fewer { IfSome result (λ rest. length rest.now < length statements.entry.now) }
{
    match statements.split_first() {
        Some((first, rest)) => {
            if runs(first, slots, memory) {
                Some(rest)
            } else {
                None
            }
        }
        None => None,
    }
}

/// Does the first statements that are assignments to variables; the statements behind them.
fn front<'a>(statements: &'a [Stmt], slots: &[Option<usize>], memory: &mut Memory) -> &'a [Stmt]
    ensures { (last : Exp) → ComesBody slots.now (plain-Memory memory.old) (nested_of (map plain-Stmt statements.entry.now) last)
        (plain-Memory memory.new) (nested_of (map plain-Stmt result.now) last) }
{
    let mut left = statements;
    while let Some(rest) = passed(left, slots, memory) {
        left = rest;
    }
    left
}

/// Whether an integer is this one.
fn is_number(number: Number, kind: Kind, negative: bool, magnitude: u64) -> Option<bool>
    ensures { result ≡ checked (equals_check (plain-Constant (ConstantInteger kind negative magnitude))) (plain-Number number) }
{
    let wanted = Number {
        kind,
        negative,
        magnitude,
    };
    Some(wanted.value() == number.value())
}

fn equals(scalar: Scalar, constant: Constant) -> Option<bool>
    ensures { result ≡ checked (equals_check (plain-Constant constant)) (plain-Scalar scalar) }
{
    match constant {
        Constant::Integer(kind, negative, magnitude) => match scalar {
            Scalar::Number(number) => is_number(number, kind, negative, magnitude),
            Scalar::Truth(_) => None,
        },
        Constant::Truth(truth) => match scalar {
            Scalar::Truth(other) => Some(truth == other),
            Scalar::Number(_) => None,
        },
    }
}

/// Whether a pattern that binds nothing and looks at no part takes a number or truth value.
#[tactic(auto, using(rx_typed::proofs::Rules::typed_pattern_rules))]
fn fits(scalar: Scalar, pattern: &Pattern) -> Option<bool>
    ensures { result ≡ spec.fits (plain-Scalar scalar) (plain-Pattern pattern.now) }
{
    match pattern {
        Pattern::Any => Some(true),
        Pattern::Exactly(_, constant) => equals(scalar, *constant),
        Pattern::Bind(_, _, _) => None,
        Pattern::Parts(_) => None,
        Pattern::Variant(_, _, _, _, _) => None,
        Pattern::Behind(_, _) => None,
    }
}

/// The body of the first arm that takes a number or truth value.
fn picked<'a>(scalar: Scalar, arms: &'a [Arm]) -> Option<&'a Expr>
    ensures { option_map (λ e. plain-Expr e.now) result ≡ spec.picked (plain-Scalar scalar) (arms_in arms.entry.now) }
{
    for arm in arms {
        match fits(scalar, &arm.pattern) {
            Some(true) => return Some(&arm.body),
            Some(false) => (),
            None => return None,
        }
    }
    None
}

/// The body of the arm that takes what is matched, where that is told at once.
#[tactic(auto, using(rx_typed::proofs::Rules::typed_tree_rules))]
fn chosen<'a>(
    matched: &Matched,
    arms: &'a [Arm],
    slots: &[Option<usize>],
    memory: &Memory,
) -> Option<&'a Expr>
    ensures { IfSome result (λ e. Chooses slots.now (plain-Memory memory.now) (plain-Matched matched.now) (arms_in arms.entry.now) (plain-Expr e.now)) }
{
    match matched {
        Matched::Place(_, _) => None,
        Matched::Value(value) => match direct(value.get(), slots, memory) {
            Some(scalar) => picked(scalar, arms),
            None => None,
        },
    }
}

/// The value of an expression, where it is told at once.
fn scalar_once<'a>(expr: &'a Expr, slots: &[Option<usize>], memory: &Memory) -> Way<'a>
    ensures { Goes slots.now (plain-Memory memory.now) (plain-Expr expr.entry.now) (plain-Memory memory.now) result }
{
    match direct(expr, slots, memory) {
        Some(scalar) => Way::Stops(Reached::Gave(scalar)),
        None => Way::Stops(Reached::Into(expr)),
    }
}

/// An assignment.
fn assignment_once<'a>(expr: &'a Expr, slots: &[Option<usize>], memory: &mut Memory) -> Way<'a>
    ensures { Goes slots.now (plain-Memory memory.old) (plain-Expr expr.entry.now) (plain-Memory memory.new) result }
{
    if assigned(expr, slots, memory) {
        Way::Stops(Reached::Unit)
    } else {
        Way::Stops(Reached::Into(expr))
    }
}

/// The first statements of a block, and its last expression where they are all.
fn block_once<'a>(
    statements: &'a [Stmt],
    last: &'a Expr,
    slots: &[Option<usize>],
    memory: &mut Memory,
) -> Way<'a>
    ensures { (m : Mark) → Goes slots.now (plain-Memory memory.old) (block m (nested_of (map plain-Stmt statements.entry.now) (plain-Expr last.entry.now)))
        (plain-Memory memory.new) result }
{
    let left = front(statements, slots, memory);
    match left.split_first() {
        None => Way::Further(last),
        Some((_, _)) => Way::Stops(Reached::Statements(left, last)),
    }
}

/// The body of the arm that takes what is matched.
fn choice_once<'a>(
    expr: &'a Expr,
    matched: &Matched,
    arms: &'a [Arm],
    slots: &[Option<usize>],
    memory: &Memory,
) -> Way<'a>
    ensures { (m : Mark) → plain-Expr expr.entry.now ≡ choose m (plain-Matched matched.now) (arms_in arms.entry.now)
        → Goes slots.now (plain-Memory memory.now) (plain-Expr expr.entry.now) (plain-Memory memory.now) result }
{
    match chosen(matched, arms, slots, memory) {
        Some(body) => Way::Further(body),
        None => Way::Stops(Reached::Into(expr)),
    }
}

/// Goes on once.
fn once<'a>(expr: &'a Expr, slots: &[Option<usize>], memory: &mut Memory) -> Way<'a>
    ensures { Goes slots.now (plain-Memory memory.old) (plain-Expr expr.entry.now) (plain-Memory memory.new) result }
{
    match &expr.form {
        Form::Read(_, _) | Form::Build(_, _) => scalar_once(expr, slots, memory),
        Form::Assign(_, _) | Form::Update(_, _, _) => assignment_once(expr, slots, memory),
        Form::Unit => Way::Stops(Reached::Unit),
        Form::Block(statements, last) => {
            block_once(statements.as_slice(), last.get(), slots, memory)
        }
        Form::Choose(matched, arms) => choice_once(expr, matched, arms.as_slice(), slots, memory),
        Form::Borrow(_, _) | Form::Share(_) | Form::Lazily(_, _, _) | Form::Call(_, _) => {
            Way::Stops(Reached::Into(expr))
        }
        Form::Input | Form::Print(_) | Form::Loop(_, _) | Form::Jump(_, _) | Form::Give(_) => {
            Way::Stops(Reached::Into(expr))
        }
    }
}

/// How far an expression comes by what is told at once, with assignments done on the way.
pub fn reach<'a>(expr: &'a Expr, slots: &[Option<usize>], memory: &mut Memory) -> Reached<'a>
    ensures { Comes slots.now (plain-Memory memory.old) (plain-Expr expr.entry.now) (plain-Memory memory.new) (plain-Reached result) }
{
    let mut now = expr;
    loop {
        match once(now, slots, memory) {
            Way::Further(next) => now = next,
            Way::Stops(reached) => return reached,
        }
    }
}
