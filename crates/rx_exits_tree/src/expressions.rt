//! Copies of expressions, from those of their parts.

ghost use Rattle.std.specs.Prelude.{◌≡◌, IfOk, map};
ghost use Rattle.rx_typed.specs.Tree as tree;
ghost use Rattle.rx_typed.specs.PlainTree.{plain-Expr, plain-Making, plain-Mark, plain-Operand, plain-Place, operands_of};
ghost use Rattle.rx_exits_plan.specs.Changed.{changed, changed_all};
ghost use Rattle.rx_exits_tree.specs.Changing.{changes_of};

use crate::changes::Change;
use crate::copying::{mark_copied, place_copied};
use crate::forms::{boxed, expression};
use crate::marks::returned;
use rx_core::{Boxed, List, Place, keep, pushed};
use rx_tree::BinaryOp;
use rx_typed::{Expr, Form, Making, Mark, Operand};
use std::alloc::{AllocError, Global};

/// A place as a value.
#[tactic(auto, using(rx_typed::proofs::Rules::typed_tree_rules))]
pub(crate) fn read(
    alloc: Global,
    mark: &Mark,
    moves: bool,
    place: &Place,
) -> Result<Expr, AllocError>
    ensures { IfOk result (λ it. plain-Expr it ≡ tree.read (plain-Mark mark.now) moves (plain-Place place.now)) }
{
    let mark = mark_copied(alloc, mark)?;
    let (place, mark) = keep(mark, place_copied(alloc, place))?;
    Ok(Expr {
        mark,
        form: Form::Read(moves, place),
    })
}

/// `&p`, `&mut p`
#[tactic(auto, using(rx_typed::proofs::Rules::typed_tree_rules))]
pub(crate) fn borrow(
    alloc: Global,
    mark: &Mark,
    mutable: bool,
    place: &Place,
) -> Result<Expr, AllocError>
    ensures { IfOk result (λ it. plain-Expr it ≡ tree.borrow (plain-Mark mark.now) mutable (plain-Place place.now)) }
{
    let mark = mark_copied(alloc, mark)?;
    let (place, mark) = keep(mark, place_copied(alloc, place))?;
    Ok(Expr {
        mark,
        form: Form::Borrow(mutable, place),
    })
}

/// The unit.
#[tactic(auto, using(rx_typed::proofs::Rules::typed_tree_rules))]
pub(crate) fn unit(alloc: Global, mark: &Mark) -> Result<Expr, AllocError>
    ensures { IfOk result (λ it. plain-Expr it ≡ tree.unit (plain-Mark mark.now)) }
{
    let mark = mark_copied(alloc, mark)?;
    Ok(Expr {
        mark,
        form: Form::Unit,
    })
}

#[tactic(auto, using(rx_typed::proofs::Rules::typed_tree_rules))]
pub(crate) fn input(alloc: Global, mark: &Mark) -> Result<Expr, AllocError>
    ensures { IfOk result (λ it. plain-Expr it ≡ tree.input (plain-Mark mark.now)) }
{
    let mark = mark_copied(alloc, mark)?;
    Ok(Expr {
        mark,
        form: Form::Input,
    })
}

/// A value of type `&mut T` becomes a `&T`.
#[cycle(expression)]
#[tactic(auto, using(rx_typed::proofs::Rules::typed_tree_rules))]
pub(crate) fn share(
    alloc: Global,
    inner: &Boxed<Expr>,
    mark: &Mark,
    change: Change<'_>,
) -> Result<Expr, AllocError>
    ensures { IfOk result (λ it. plain-Expr it ≡ changed (changes_of change.entry) (tree.share (plain-Mark mark.now) (plain-Expr inner.now))) }
{
    let mark = mark_copied(alloc, mark)?;
    let (inner, mark) = keep(mark, boxed(alloc, inner, change))?;
    Ok(Expr {
        mark,
        form: Form::Share(inner),
    })
}

/// What is made of operands.
#[cycle(expression)]
#[tactic(auto, using(rx_typed::proofs::Rules::typed_tree_rules))]
pub(crate) fn build(
    alloc: Global,
    operands: &List<Operand>,
    mark: &Mark,
    making: Making,
    change: Change<'_>,
) -> Result<Expr, AllocError>
    ensures { IfOk result (λ it. plain-Expr it ≡ changed (changes_of change.entry) (tree.build (plain-Mark mark.now) (plain-Making making) (operands_of (map plain-Operand operands.now)))) }
{
    let mark = mark_copied(alloc, mark)?;
    let (operands, mark) = keep(mark, all(alloc, operands.as_slice(), change))?;
    Ok(Expr {
        mark,
        form: Form::Build(making, operands),
    })
}

/// A call of a function's item.
#[cycle(expression)]
#[tactic(auto, using(rx_typed::proofs::Rules::typed_tree_rules))]
pub(crate) fn call(
    alloc: Global,
    operands: &List<Operand>,
    mark: &Mark,
    function: u32,
    change: Change<'_>,
) -> Result<Expr, AllocError>
    ensures { IfOk result (λ it. plain-Expr it ≡ changed (changes_of change.entry) (tree.call (plain-Mark mark.now) function (operands_of (map plain-Operand operands.now)))) }
{
    let mark = mark_copied(alloc, mark)?;
    let (operands, mark) = keep(mark, all(alloc, operands.as_slice(), change))?;
    Ok(Expr {
        mark,
        form: Form::Call(function, operands),
    })
}

/// The right operand of `&&` or `||`, behind a copy of the left one.
#[cycle(expression)]
#[tactic(auto, using(rx_typed::proofs::Rules::typed_tree_rules))]
pub(crate) fn lazily(
    alloc: Global,
    right: &Boxed<Expr>,
    left: Boxed<Expr>,
    mark: &Mark,
    both: bool,
    change: Change<'_>,
) -> Result<Expr, AllocError>
    ensures { IfOk result (λ it. plain-Expr it ≡ tree.lazily (plain-Mark mark.now) both (plain-Expr left) (changed (changes_of change.entry) (plain-Expr right.now))) }
{
    let (mark, left) = keep(left, mark_copied(alloc, mark))?;
    let (right, held) = keep((mark, left), boxed(alloc, right, change))?;
    let (mark, left) = held;
    Ok(Expr {
        mark,
        form: Form::Lazily(both, left, right),
    })
}

/// A place is assigned a value.
#[cycle(expression)]
#[tactic(auto, using(rx_typed::proofs::Rules::typed_tree_rules))]
pub(crate) fn assign(
    alloc: Global,
    assigned: &Boxed<Expr>,
    mark: &Mark,
    place: &Place,
    change: Change<'_>,
) -> Result<Expr, AllocError>
    ensures { IfOk result (λ it. plain-Expr it ≡ changed (changes_of change.entry) (tree.assign (plain-Mark mark.now) (plain-Place place.now) (plain-Expr assigned.now))) }
{
    let mark = mark_copied(alloc, mark)?;
    let (place, mark) = keep(mark, place_copied(alloc, place))?;
    let (assigned, held) = keep((mark, place), boxed(alloc, assigned, change))?;
    let (mark, place) = held;
    Ok(Expr {
        mark,
        form: Form::Assign(place, assigned),
    })
}

/// `p op= e`
#[cycle(expression)]
#[tactic(auto, using(rx_typed::proofs::Rules::typed_tree_rules))]
pub(crate) fn update(
    alloc: Global,
    operand: &Boxed<Expr>,
    mark: &Mark,
    op: BinaryOp,
    place: &Place,
    change: Change<'_>,
) -> Result<Expr, AllocError>
    ensures { IfOk result (λ it. plain-Expr it ≡ changed (changes_of change.entry) (tree.update (plain-Mark mark.now) op (plain-Place place.now) (plain-Expr operand.now))) }
{
    let mark = mark_copied(alloc, mark)?;
    let (place, mark) = keep(mark, place_copied(alloc, place))?;
    let (operand, held) = keep((mark, place), boxed(alloc, operand, change))?;
    let (mark, place) = held;
    Ok(Expr {
        mark,
        form: Form::Update(op, place, operand),
    })
}

#[cycle(expression)]
#[tactic(auto, using(rx_typed::proofs::Rules::typed_tree_rules))]
pub(crate) fn print(
    alloc: Global,
    printed: &Boxed<Expr>,
    mark: &Mark,
    change: Change<'_>,
) -> Result<Expr, AllocError>
    ensures { IfOk result (λ it. plain-Expr it ≡ changed (changes_of change.entry) (tree.print (plain-Mark mark.now) (plain-Expr printed.now))) }
{
    let mark = mark_copied(alloc, mark)?;
    let (printed, mark) = keep(mark, boxed(alloc, printed, change))?;
    Ok(Expr {
        mark,
        form: Form::Print(printed),
    })
}

/// A loop, by its number.
#[cycle(expression)]
#[tactic(auto, using(rx_typed::proofs::Rules::typed_tree_rules))]
pub(crate) fn repeat(
    alloc: Global,
    body: &Boxed<Expr>,
    mark: &Mark,
    number: u32,
    change: Change<'_>,
) -> Result<Expr, AllocError>
    ensures { IfOk result (λ it. plain-Expr it ≡ changed (changes_of change.entry) (tree.loop (plain-Mark mark.now) number (plain-Expr body.now))) }
{
    let mark = mark_copied(alloc, mark)?;
    let (body, mark) = keep(mark, boxed(alloc, body, change))?;
    Ok(Expr {
        mark,
        form: Form::Loop(number, body),
    })
}

/// `return`, and the end of a function's body.
#[cycle(expression)]
#[tactic(auto, using(rx_typed::proofs::Rules::typed_tree_rules))]
pub(crate) fn give(
    alloc: Global,
    given: &Boxed<Expr>,
    mark: &Mark,
    change: Change<'_>,
) -> Result<Expr, AllocError>
    ensures { IfOk result (λ it. plain-Expr it ≡ changed (changes_of change.entry) (tree.give (plain-Mark mark.now) (plain-Expr given.now))) }
{
    let given = expression(alloc, given.get(), change)?;
    given_by(alloc, mark, returned(alloc, given, change)?)
}

/// A `return` of this operand.
#[tactic(auto, using(rx_typed::proofs::Rules::typed_tree_rules))]
pub(crate) fn given_by(alloc: Global, mark: &Mark, given: Expr) -> Result<Expr, AllocError>
    ensures { IfOk result (λ it. plain-Expr it ≡ tree.give (plain-Mark mark.now) (plain-Expr given)) }
{
    let (mark, given) = keep(given, mark_copied(alloc, mark))?;
    let (given, mark) = keep(mark, Boxed::new(alloc, given))?;
    Ok(Expr {
        mark,
        form: Form::Give(given),
    })
}

#[cycle(expression)]
#[tactic(auto, using(rx_typed::proofs::Rules::typed_tree_rules))]
fn one(alloc: Global, operand: &Operand, change: Change<'_>) -> Result<Operand, AllocError>
    ensures { IfOk result (λ it. plain-Operand it ≡ ((plain-Operand operand.now).0, changed (changes_of change.entry) (plain-Operand operand.now).1)) }
{
    Ok(Operand {
        field: operand.field,
        value: expression(alloc, &operand.value, change)?,
    })
}

/// Operands.
#[cycle(expression)]
fn all(alloc: Global, operands: &[Operand], change: Change<'_>) -> Result<List<Operand>, AllocError>
    ensures { IfOk result (λ it. operands_of (map plain-Operand it) ≡ changed_all (changes_of change.entry) (operands_of (map plain-Operand operands.now))) }
{
    let mut copies = List::new(alloc);
    for operand in operands {
        let (copy, held) = keep(copies, one(alloc, operand, change))?;
        copies = pushed(held, copy)?;
    }
    Ok(copies)
}
