//! Nodes by what became of their parts, where all are there.

ghost use Rattle.std.specs.Prelude.{◌≡◌, Option, map, Ok, option_map, IfOk};
ghost use Rattle.rx_tree.specs.declared.tree.Ident.{Ident as IdentOf};
ghost use Rattle.rx_tree.specs.declared.tree.Pattern.{Pattern as PatternOf};
ghost use Rattle.rx_tree.specs.Plain as plain;
ghost use Rattle.rx_tree.specs.PlainOf.{plain-Expr, plain-Block, plain-Pattern, plain-Stmt, plain-Arm, plain-FieldExpr, plain-TypeText, expressions_of, optional_of, optional_list_of, field_expressions_of, arms_of};

use rx_core::{Boxed, LetGo, List, Span, keep};
use rx_tree::{
    Arm, BinaryOp, Block, Expr, ExprNode, FieldExpr, Ident, Pattern, Stmt, StmtNode, TypeText,
    UpdateOp,
};
use rx_tree_operations::CopyTree;
use std::alloc::{AllocError, Global};

/// Both values, where both are there. The second is made in any case.
pub(crate) fn both<A: LetGo, B: LetGo>(
    first: Result<A, AllocError>,
    second: Result<B, AllocError>,
) -> Result<(A, B), AllocError>
    ensures { IfOk result (λ it. (first ≡ Ok it.0) × (second ≡ Ok it.1)) }
{
    match second {
        Ok(second) => {
            let (first, second) = keep(second, first)?;
            Ok((first, second))
        }
        Err(fault) => {
            match first {
                Ok(first) => first.let_go(),
                Err(AllocError) => (),
            }
            Err(fault)
        }
    }
}

/// A part on the heap.
pub(crate) fn boxed<T: LetGo>(
    alloc: Global,
    part: Result<T, AllocError>,
) -> Result<Boxed<T>, AllocError>
    ensures { IfOk result (λ it. part ≡ Ok it) }
{
    Boxed::new(alloc, part?)
}

/// A tuple of these parts.
#[tactic(auto, using(rx_tree::proofs::Rules::expression_rules))]
pub(crate) fn tuple(span: Span, parts: Result<List<Expr>, AllocError>) -> Result<Expr, AllocError>
    ensures { (a : plain.Expressions) → IfOk parts (λ x. expressions_of (map plain-Expr x) ≡ a) → IfOk result (λ it. plain-Expr it ≡ plain.tuple span a) }
{
    let parts = parts?;
    Ok(Expr {
        span,
        node: ExprNode::Tuple(parts),
    })
}

/// A field of what became of its base.
#[tactic(auto, using(rx_tree::proofs::Rules::expression_rules))]
pub(crate) fn field(
    alloc: Global,
    span: Span,
    base: Result<Expr, AllocError>,
    name: Result<Ident, AllocError>,
) -> Result<Expr, AllocError>
    ensures { (a : plain.Expression) (b : IdentOf) → IfOk base (λ x. plain-Expr x ≡ a) → IfOk name (λ x. x ≡ b) → IfOk result (λ it. plain-Expr it ≡ plain.field span a b) }
{
    let (base, name) = both(boxed(alloc, base), name)?;
    Ok(Expr {
        span,
        node: ExprNode::Field(base, name),
    })
}

/// A part of a tuple.
#[tactic(auto, using(rx_tree::proofs::Rules::expression_rules))]
pub(crate) fn part(
    alloc: Global,
    span: Span,
    base: Result<Expr, AllocError>,
    index: u64,
) -> Result<Expr, AllocError>
    ensures { (a : plain.Expression) → IfOk base (λ x. plain-Expr x ≡ a) → IfOk result (λ it. plain-Expr it ≡ plain.part span a index) }
{
    let base = boxed(alloc, base)?;
    Ok(Expr {
        span,
        node: ExprNode::Part(base, index),
    })
}

/// What a reference points to.
#[tactic(auto, using(rx_tree::proofs::Rules::expression_rules))]
pub(crate) fn deref(
    alloc: Global,
    span: Span,
    base: Result<Expr, AllocError>,
) -> Result<Expr, AllocError>
    ensures { (a : plain.Expression) → IfOk base (λ x. plain-Expr x ≡ a) → IfOk result (λ it. plain-Expr it ≡ plain.deref span a) }
{
    let base = boxed(alloc, base)?;
    Ok(Expr {
        span,
        node: ExprNode::Deref(base),
    })
}

/// The negation of a number.
#[tactic(auto, using(rx_tree::proofs::Rules::expression_rules))]
pub(crate) fn negate(
    alloc: Global,
    span: Span,
    base: Result<Expr, AllocError>,
) -> Result<Expr, AllocError>
    ensures { (a : plain.Expression) → IfOk base (λ x. plain-Expr x ≡ a) → IfOk result (λ it. plain-Expr it ≡ plain.negate span a) }
{
    let base = boxed(alloc, base)?;
    Ok(Expr {
        span,
        node: ExprNode::Neg(base),
    })
}

/// The negation of a truth value or of bits.
#[tactic(auto, using(rx_tree::proofs::Rules::expression_rules))]
pub(crate) fn invert(
    alloc: Global,
    span: Span,
    base: Result<Expr, AllocError>,
) -> Result<Expr, AllocError>
    ensures { (a : plain.Expression) → IfOk base (λ x. plain-Expr x ≡ a) → IfOk result (λ it. plain-Expr it ≡ plain.invert span a) }
{
    let base = boxed(alloc, base)?;
    Ok(Expr {
        span,
        node: ExprNode::Not(base),
    })
}

/// A borrow of a place.
#[tactic(auto, using(rx_tree::proofs::Rules::expression_rules))]
pub(crate) fn borrow(
    alloc: Global,
    span: Span,
    mutable: bool,
    place: Result<Expr, AllocError>,
) -> Result<Expr, AllocError>
    ensures { (a : plain.Expression) → IfOk place (λ x. plain-Expr x ≡ a) → IfOk result (λ it. plain-Expr it ≡ plain.borrow span mutable a) }
{
    let place = boxed(alloc, place)?;
    Ok(Expr {
        span,
        node: ExprNode::Borrow(mutable, place),
    })
}

/// An operator with its operands.
#[tactic(auto, using(rx_tree::proofs::Rules::expression_rules))]
pub(crate) fn binary(
    alloc: Global,
    span: Span,
    op: BinaryOp,
    left: Result<Expr, AllocError>,
    right: Result<Expr, AllocError>,
) -> Result<Expr, AllocError>
    ensures { (a : plain.Expression) (b : plain.Expression) → IfOk left (λ x. plain-Expr x ≡ a) → IfOk right (λ x. plain-Expr x ≡ b) → IfOk result (λ it. plain-Expr it ≡ plain.binary span op a b) }
{
    let (left, right) = both(boxed(alloc, left), boxed(alloc, right))?;
    Ok(Expr {
        span,
        node: ExprNode::Binary(op, left, right),
    })
}

/// An assignment.
#[tactic(auto, using(rx_tree::proofs::Rules::expression_rules))]
pub(crate) fn assign(
    alloc: Global,
    span: Span,
    place: Result<Expr, AllocError>,
    value: Result<Expr, AllocError>,
) -> Result<Expr, AllocError>
    ensures { (a : plain.Expression) (b : plain.Expression) → IfOk place (λ x. plain-Expr x ≡ a) → IfOk value (λ x. plain-Expr x ≡ b) → IfOk result (λ it. plain-Expr it ≡ plain.assign span a b) }
{
    let (place, value) = both(boxed(alloc, place), boxed(alloc, value))?;
    Ok(Expr {
        span,
        node: ExprNode::Assign(place, value),
    })
}

/// A compound assignment.
#[tactic(auto, using(rx_tree::proofs::Rules::expression_rules))]
pub(crate) fn update(
    alloc: Global,
    span: Span,
    op: UpdateOp,
    place: Result<Expr, AllocError>,
    value: Result<Expr, AllocError>,
) -> Result<Expr, AllocError>
    ensures { (a : plain.Expression) (b : plain.Expression) → IfOk place (λ x. plain-Expr x ≡ a) → IfOk value (λ x. plain-Expr x ≡ b) → IfOk result (λ it. plain-Expr it ≡ plain.update span op a b) }
{
    let (place, value) = both(boxed(alloc, place), boxed(alloc, value))?;
    Ok(Expr {
        span,
        node: ExprNode::Update(op, place, value),
    })
}

/// A call of a function.
#[tactic(auto, using(rx_tree::proofs::Rules::expression_rules))]
pub(crate) fn call(
    span: Span,
    name: Result<Ident, AllocError>,
    args: Result<List<Expr>, AllocError>,
) -> Result<Expr, AllocError>
    ensures { (a : IdentOf) (b : plain.Expressions) → IfOk name (λ x. x ≡ a) → IfOk args (λ x. expressions_of (map plain-Expr x) ≡ b) → IfOk result (λ it. plain-Expr it ≡ plain.call span a b) }
{
    let (name, args) = both(name, args)?;
    Ok(Expr {
        span,
        node: ExprNode::Call(name, args),
    })
}

/// A variant with its arguments.
#[tactic(auto, using(rx_tree::proofs::Rules::expression_rules))]
pub(crate) fn variant(
    span: Span,
    adt: Result<Ident, AllocError>,
    name: Result<Ident, AllocError>,
    args: Result<Option<List<Expr>>, AllocError>,
) -> Result<Expr, AllocError>
    ensures { (a : IdentOf) (b : IdentOf) (c : plain.OptionalExpressions) → IfOk adt (λ x. x ≡ a) → IfOk name (λ x. x ≡ b) → IfOk args (λ x. optional_list_of (option_map (map plain-Expr) x) ≡ c) → IfOk result (λ it. plain-Expr it ≡ plain.variant span a b c) }
{
    let (parts, args) = both(both(adt, name), args)?;
    let (adt, name) = parts;
    Ok(Expr {
        span,
        node: ExprNode::Variant(adt, name, args),
    })
}

/// A struct with its fields.
#[tactic(auto, using(rx_tree::proofs::Rules::expression_rules))]
pub(crate) fn make(
    span: Span,
    name: Result<Ident, AllocError>,
    fields: Result<List<FieldExpr>, AllocError>,
) -> Result<Expr, AllocError>
    ensures { (a : IdentOf) (b : plain.FieldExpressions) → IfOk name (λ x. x ≡ a) → IfOk fields (λ x. field_expressions_of (map plain-FieldExpr x) ≡ b) → IfOk result (λ it. plain-Expr it ≡ plain.make span a b) }
{
    let (name, fields) = both(name, fields)?;
    Ok(Expr {
        span,
        node: ExprNode::Make(name, fields),
    })
}

/// A call of `print`.
#[tactic(auto, using(rx_tree::proofs::Rules::expression_rules))]
pub(crate) fn print(
    alloc: Global,
    span: Span,
    value: Result<Expr, AllocError>,
) -> Result<Expr, AllocError>
    ensures { (a : plain.Expression) → IfOk value (λ x. plain-Expr x ≡ a) → IfOk result (λ it. plain-Expr it ≡ plain.print span a) }
{
    let value = boxed(alloc, value)?;
    Ok(Expr {
        span,
        node: ExprNode::Print(value),
    })
}

/// A block as an expression.
#[tactic(auto, using(rx_tree::proofs::Rules::expression_rules))]
pub(crate) fn nested(
    alloc: Global,
    span: Span,
    block: Result<Block, AllocError>,
) -> Result<Expr, AllocError>
    ensures { (a : plain.Body) → IfOk block (λ x. plain-Block x ≡ a) → IfOk result (λ it. plain-Expr it ≡ plain.block span a) }
{
    let block = boxed(alloc, block)?;
    Ok(Expr {
        span,
        node: ExprNode::Block(block),
    })
}

/// An `if`.
#[tactic(auto, using(rx_tree::proofs::Rules::expression_rules))]
pub(crate) fn branch(
    alloc: Global,
    span: Span,
    test: Result<Expr, AllocError>,
    then: Result<Block, AllocError>,
    other: Result<Option<Boxed<Expr>>, AllocError>,
) -> Result<Expr, AllocError>
    ensures { (a : plain.Expression) (b : plain.Body) (c : plain.OptionalExpression) → IfOk test (λ x. plain-Expr x ≡ a) → IfOk then (λ x. plain-Block x ≡ b) → IfOk other (λ x. optional_of (option_map plain-Expr x) ≡ c) → IfOk result (λ it. plain-Expr it ≡ plain.if span a b c) }
{
    let (parts, other) = both(both(boxed(alloc, test), boxed(alloc, then)), other)?;
    let (test, then) = parts;
    Ok(Expr {
        span,
        node: ExprNode::If(test, then, other),
    })
}

/// An `if let`.
#[tactic(auto, using(rx_tree::proofs::Rules::expression_rules))]
pub(crate) fn branch_fitting(
    alloc: Global,
    span: Span,
    pattern: Result<Pattern, AllocError>,
    scrutinee: Result<Expr, AllocError>,
    then: Result<Block, AllocError>,
    other: Result<Option<Boxed<Expr>>, AllocError>,
) -> Result<Expr, AllocError>
    ensures { (a : PatternOf) (b : plain.Expression) (c : plain.Body) (d : plain.OptionalExpression) → IfOk pattern (λ x. x ≡ a) → IfOk scrutinee (λ x. plain-Expr x ≡ b) → IfOk then (λ x. plain-Block x ≡ c) → IfOk other (λ x. optional_of (option_map plain-Expr x) ≡ d) → IfOk result (λ it. plain-Expr it ≡ plain.if_let span (plain-Pattern a) b c d) }
{
    let (first, second) = both(
        both(pattern, boxed(alloc, scrutinee)),
        both(boxed(alloc, then), other),
    )?;
    let (pattern, scrutinee) = first;
    let (then, other) = second;
    Ok(Expr {
        span,
        node: ExprNode::IfLet(pattern, scrutinee, then, other),
    })
}

/// A `match`.
#[tactic(auto, using(rx_tree::proofs::Rules::expression_rules))]
pub(crate) fn cases(
    alloc: Global,
    span: Span,
    scrutinee: Result<Expr, AllocError>,
    arms: Result<List<Arm>, AllocError>,
) -> Result<Expr, AllocError>
    ensures { (a : plain.Expression) (b : plain.Arms) → IfOk scrutinee (λ x. plain-Expr x ≡ a) → IfOk arms (λ x. arms_of (map plain-Arm x) ≡ b) → IfOk result (λ it. plain-Expr it ≡ plain.match span a b) }
{
    let (scrutinee, arms) = both(boxed(alloc, scrutinee), arms)?;
    Ok(Expr {
        span,
        node: ExprNode::Match(scrutinee, arms),
    })
}

/// A `loop`.
#[tactic(auto, using(rx_tree::proofs::Rules::expression_rules))]
pub(crate) fn repeated(
    alloc: Global,
    span: Span,
    label: Result<Option<Ident>, AllocError>,
    block: Result<Block, AllocError>,
) -> Result<Expr, AllocError>
    ensures { (a : Option IdentOf) (b : plain.Body) → IfOk label (λ x. x ≡ a) → IfOk block (λ x. plain-Block x ≡ b) → IfOk result (λ it. plain-Expr it ≡ plain.loop span a b) }
{
    let (label, block) = both(label, boxed(alloc, block))?;
    Ok(Expr {
        span,
        node: ExprNode::Loop(label, block),
    })
}

/// A `while`.
#[tactic(auto, using(rx_tree::proofs::Rules::expression_rules))]
pub(crate) fn while_true(
    alloc: Global,
    span: Span,
    label: Result<Option<Ident>, AllocError>,
    test: Result<Expr, AllocError>,
    block: Result<Block, AllocError>,
) -> Result<Expr, AllocError>
    ensures { (a : Option IdentOf) (b : plain.Expression) (c : plain.Body) → IfOk label (λ x. x ≡ a) → IfOk test (λ x. plain-Expr x ≡ b) → IfOk block (λ x. plain-Block x ≡ c) → IfOk result (λ it. plain-Expr it ≡ plain.while span a b c) }
{
    let (parts, block) = both(both(label, boxed(alloc, test)), boxed(alloc, block))?;
    let (label, test) = parts;
    Ok(Expr {
        span,
        node: ExprNode::While(label, test, block),
    })
}

/// A `while let`.
#[tactic(auto, using(rx_tree::proofs::Rules::expression_rules))]
pub(crate) fn while_fitting(
    alloc: Global,
    span: Span,
    label: Result<Option<Ident>, AllocError>,
    pattern: Result<Pattern, AllocError>,
    scrutinee: Result<Expr, AllocError>,
    block: Result<Block, AllocError>,
) -> Result<Expr, AllocError>
    ensures { (a : Option IdentOf) (b : PatternOf) (c : plain.Expression) (d : plain.Body) → IfOk label (λ x. x ≡ a) → IfOk pattern (λ x. x ≡ b) → IfOk scrutinee (λ x. plain-Expr x ≡ c) → IfOk block (λ x. plain-Block x ≡ d) → IfOk result (λ it. plain-Expr it ≡ plain.while_let span a (plain-Pattern b) c d) }
{
    let (first, second) = both(
        both(label, pattern),
        both(boxed(alloc, scrutinee), boxed(alloc, block)),
    )?;
    let (label, pattern) = first;
    let (scrutinee, block) = second;
    Ok(Expr {
        span,
        node: ExprNode::WhileLet(label, pattern, scrutinee, block),
    })
}

/// A field with its value.
#[tactic(auto, using(rx_tree::proofs::Rules::expression_rules))]
pub(crate) fn field_value(
    name: Result<Ident, AllocError>,
    value: Result<Expr, AllocError>,
) -> Result<FieldExpr, AllocError>
    ensures { (a : IdentOf) (b : plain.Expression) → IfOk name (λ x. x ≡ a) → IfOk value (λ x. plain-Expr x ≡ b) → IfOk result (λ it. plain-FieldExpr it ≡ (a, b)) }
{
    let (field, value) = both(name, value)?;
    Ok(FieldExpr { field, value })
}

/// An arm of a `match`.
#[tactic(auto, using(rx_tree::proofs::Rules::expression_rules))]
pub(crate) fn arm(
    pattern: Result<Pattern, AllocError>,
    body: Result<Expr, AllocError>,
) -> Result<Arm, AllocError>
    ensures { (a : PatternOf) (b : plain.Expression) → IfOk pattern (λ x. x ≡ a) → IfOk body (λ x. plain-Expr x ≡ b) → IfOk result (λ it. plain-Arm it ≡ (plain-Pattern a, b)) }
{
    let (pattern, body) = both(pattern, body)?;
    Ok(Arm { pattern, body })
}

/// A `let`.
#[tactic(auto, using(rx_tree::proofs::Rules::statement_rules))]
pub(crate) fn let_statement(
    span: Span,
    pattern: Result<Pattern, AllocError>,
    typ: Result<Option<TypeText>, AllocError>,
    init: Result<Option<Expr>, AllocError>,
) -> Result<Stmt, AllocError>
    ensures { (a : PatternOf) (b : Option plain.TypeTree) (c : plain.OptionalExpression) → IfOk pattern (λ x. x ≡ a) → IfOk typ (λ x. option_map plain-TypeText x ≡ b) → IfOk init (λ x. optional_of (option_map plain-Expr x) ≡ c) → IfOk result (λ it. plain-Stmt it ≡ plain.let_statement span (plain-Pattern a) b c) }
{
    let (declared, init) = both(both(pattern, typ), init)?;
    let (pattern, typ) = declared;
    Ok(Stmt {
        span,
        node: StmtNode::Let(pattern, typ, init),
    })
}

/// An expression as a statement.
#[tactic(auto, using(rx_tree::proofs::Rules::statement_rules))]
pub(crate) fn eval(
    span: Span,
    value: Result<Expr, AllocError>,
    semi: bool,
) -> Result<Stmt, AllocError>
    ensures { (a : plain.Expression) → IfOk value (λ x. plain-Expr x ≡ a) → IfOk result (λ it. plain-Stmt it ≡ plain.expression_statement span a semi) }
{
    let value = value?;
    Ok(Stmt {
        span,
        node: StmtNode::Eval(value, semi),
    })
}

/// A `break`.
#[tactic(auto, using(rx_tree::proofs::Rules::expression_rules))]
pub fn breaks(alloc: Global, span: Span, label: &Option<Ident>) -> Result<Expr, AllocError>
    ensures { IfOk result (λ it. plain-Expr it ≡ plain.break span label.now) }
{
    let label = label.copy(alloc)?;
    Ok(Expr {
        span,
        node: ExprNode::Break(label),
    })
}

/// A `continue`.
#[tactic(auto, using(rx_tree::proofs::Rules::expression_rules))]
pub fn continues(alloc: Global, span: Span, label: &Option<Ident>) -> Result<Expr, AllocError>
    ensures { IfOk result (λ it. plain-Expr it ≡ plain.continue span label.now) }
{
    let label = label.copy(alloc)?;
    Ok(Expr {
        span,
        node: ExprNode::Continue(label),
    })
}

/// A `return`.
#[tactic(auto, using(rx_tree::proofs::Rules::expression_rules))]
pub fn returns(span: Span, value: Option<Boxed<Expr>>) -> Expr
    ensures { plain-Expr result ≡ plain.return span (optional_of (option_map plain-Expr value)) }
{
    Expr {
        span,
        node: ExprNode::Return(value),
    }
}

/// The same type, or none where none is written.
pub(crate) fn copy_type(
    alloc: Global,
    typ: &Option<TypeText>,
) -> Result<Option<TypeText>, AllocError>
    ensures { IfOk result (λ it. it ≡ typ.now) }
{
    match typ {
        Some(typ) => Ok(Some(typ.copy(alloc)?)),
        None => Ok(None),
    }
}

/// A `return` of what became of its operand.
#[tactic(auto, using(rx_tree::proofs::Rules::expression_rules))]
pub(crate) fn return_of(
    alloc: Global,
    span: Span,
    value: Result<Expr, AllocError>,
) -> Result<Expr, AllocError>
    ensures { (a : plain.Expression) → IfOk value (λ x. plain-Expr x ≡ a) → IfOk result (λ it. plain-Expr it ≡ plain.return span (plain.present a)) }
{
    let value = boxed(alloc, value)?;
    Ok(Expr {
        span,
        node: ExprNode::Return(Some(value)),
    })
}
