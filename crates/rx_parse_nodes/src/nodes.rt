//! The nodes of expressions, by their parts.

ghost use Rattle.std.specs.Prelude.{◌≡◌, ◌≤◌, ◌+◌, max, map, option_map, IfOk};
ghost use Rattle.rx_tree.specs.Plain as plain;
ghost use Rattle.rx_tree.specs.PlainOf.{plain-Expr, plain-Block, plain-FieldExpr, plain-Arm, expressions_of, field_expressions_of, arms_of};
ghost use Rattle.rx_lex.specs.Tok.{tok};
ghost use Rattle.rx_parse_grammar.specs.grammar.Words as words;
ghost use Rattle.rx_parse_grammar.specs.parser.Steps.{leaf, node};
ghost use Rattle.rx_parse_grammar.specs.parser.Expressions as spec;
ghost use Rattle.rx_parse_cursor.specs.GotOf.{got_of};

use rx_core::{Boxed, Name, Span, keep};
use rx_lex::Token;
use rx_parse_cursor::{Got, Items, Numbered, ident, join, larger};
use rx_tree::{Arm, BinaryOp, Block, Expr, ExprNode, FieldExpr, Ident, UpdateOp};
use std::alloc::{AllocError, Global};

/// A variable.
#[tactic(auto, using(rx_tree::proofs::Rules::expression_rules))]
pub fn variable(alloc: Global, token: Token<'_>) -> Result<Got<Expr>, AllocError>
    ensures tree { IfOk result (λ x. got_of plain-Expr x ≡ leaf (λ s. plain.var s (tok token.entry).text) (tok token.entry).span) }
    ensures height { IfOk result (λ x. x.height ≡ 1) }
{
    let span = token.span;
    let node = ExprNode::Var(Name::new(alloc, token.text)?);
    Ok(Got {
        tree: Expr { span, node },
        height: 1,
        span,
    })
}

/// A number.
#[tactic(auto, using(rx_tree::proofs::Rules::expression_rules))]
pub fn int_value(number: Numbered) -> Got<Expr>
    ensures tree { got_of plain-Expr result ≡ leaf (λ s. plain.int s number.value number.suffix) number.span }
    ensures height { result.height ≡ 1 }
{
    let span = number.span;
    let node = ExprNode::Int(number.value, number.suffix);
    Got {
        tree: Expr { span, node },
        height: 1,
        span,
    }
}

/// `true` or `false`.
#[tactic(auto, using(rx_tree::proofs::Rules::expression_rules))]
pub fn bool_value(span: Span, value: bool) -> Got<Expr>
    ensures tree { got_of plain-Expr result ≡ leaf (λ s. plain.bool s value) span }
    ensures height { result.height ≡ 1 }
{
    let node = ExprNode::Bool(value);
    Got {
        tree: Expr { span, node },
        height: 1,
        span,
    }
}

/// A tuple, with its parentheses.
#[tactic(auto, using(rx_tree::proofs::Rules::expression_rules))]
pub fn tuple_of(span: Span, items: Items<Expr>) -> Got<Expr>
    requires { items.height ≤ 1024 }
    ensures tree { got_of plain-Expr result ≡ node (λ s. plain.tuple s (expressions_of (map plain-Expr items.list))) span items.height }
    ensures height { result.height ≡ items.height + 1 }
{
    let height = items.height + 1;
    let node = ExprNode::Tuple(items.list);
    Got {
        tree: Expr { span, node },
        height,
        span,
    }
}

/// A call.
#[tactic(auto, using(rx_tree::proofs::Rules::expression_rules))]
pub fn call_of(alloc: Global, name: Token<'_>, items: Items<Expr>) -> Result<Got<Expr>, AllocError>
    requires { items.height ≤ 1024 }
    ensures tree { IfOk result (λ x. got_of plain-Expr x ≡ node (λ s. plain.call s (words.ident (tok name.entry)) (expressions_of (map plain-Expr items.list))) (words.join (tok name.entry).span items.close) items.height) }
    ensures height { IfOk result (λ x. x.height ≡ items.height + 1) }
{
    let height = items.height + 1;
    let span = join(name.span, items.close);
    let (name, list) = keep(items.list, ident(alloc, name))?;
    let node = ExprNode::Call(name, list);
    Ok(Got {
        tree: Expr { span, node },
        height,
        span,
    })
}

/// A variant with arguments.
#[tactic(auto, using(rx_tree::proofs::Rules::expression_rules))]
pub fn variant_of(
    alloc: Global,
    name: Token<'_>,
    variant: Token<'_>,
    items: Items<Expr>,
) -> Result<Got<Expr>, AllocError>
    requires { items.height ≤ 1024 }
    ensures tree { IfOk result (λ x. got_of plain-Expr x ≡ node (λ s. plain.variant s (words.ident (tok name.entry)) (words.ident (tok variant.entry)) (plain.a_list (expressions_of (map plain-Expr items.list)))) (words.join (tok name.entry).span items.close) items.height) }
    ensures height { IfOk result (λ x. x.height ≡ items.height + 1) }
{
    let height = items.height + 1;
    let span = join(name.span, items.close);
    let (name, list) = keep(items.list, ident(alloc, name))?;
    let (variant, list) = keep(list, ident(alloc, variant))?;
    let node = ExprNode::Variant(name, variant, Some(list));
    Ok(Got {
        tree: Expr { span, node },
        height,
        span,
    })
}

/// A variant without parentheses.
#[tactic(auto, using(rx_tree::proofs::Rules::expression_rules))]
pub fn bare_variant(
    alloc: Global,
    name: Token<'_>,
    variant: Token<'_>,
) -> Result<Got<Expr>, AllocError>
    ensures tree { IfOk result (λ x. got_of plain-Expr x ≡ leaf (λ s. plain.variant s (words.ident (tok name.entry)) (words.ident (tok variant.entry)) plain.no_list) (words.join (tok name.entry).span (tok variant.entry).span)) }
    ensures height { IfOk result (λ x. x.height ≡ 1) }
{
    let span = join(name.span, variant.span);
    let node = ExprNode::Variant(ident(alloc, name)?, ident(alloc, variant)?, None);
    Ok(Got {
        tree: Expr { span, node },
        height: 1,
        span,
    })
}

/// The next number of the input.
#[tactic(auto, using(rx_tree::proofs::Rules::expression_rules))]
pub fn input_of(span: Span) -> Got<Expr>
    ensures tree { got_of plain-Expr result ≡ leaf (λ s. plain.next_input s) span }
    ensures height { result.height ≡ 1 }
{
    let node = ExprNode::NextInput;
    Got {
        tree: Expr { span, node },
        height: 1,
        span,
    }
}

/// A struct, by its name and its fields.
#[tactic(auto, using(rx_tree::proofs::Rules::expression_rules))]
pub fn struct_of(
    alloc: Global,
    name: Token<'_>,
    items: Items<FieldExpr>,
) -> Result<Got<Expr>, AllocError>
    requires { items.height ≤ 1024 }
    ensures tree { IfOk result (λ x. got_of plain-Expr x ≡ node (λ s. plain.make s (words.ident (tok name.entry)) (field_expressions_of (map plain-FieldExpr items.list))) (words.join (tok name.entry).span items.close) items.height) }
    ensures height { IfOk result (λ x. x.height ≡ items.height + 1) }
{
    let height = items.height + 1;
    let span = join(name.span, items.close);
    let (name, list) = keep(items.list, ident(alloc, name))?;
    let node = ExprNode::Make(name, list);
    Ok(Got {
        tree: Expr { span, node },
        height,
        span,
    })
}

/// What prints a value.
#[tactic(auto, using(rx_tree::proofs::Rules::expression_rules))]
pub fn print_of(alloc: Global, span: Span, value: Got<Expr>) -> Result<Got<Expr>, AllocError>
    requires { value.height ≤ 1024 }
    ensures tree { IfOk result (λ x. got_of plain-Expr x ≡ node (λ s. plain.print s (plain-Expr value.tree)) span value.height) }
    ensures height { IfOk result (λ x. x.height ≡ value.height + 1) }
{
    let height = value.height + 1;
    let node = ExprNode::Print(Boxed::new(alloc, value.tree)?);
    Ok(Got {
        tree: Expr { span, node },
        height,
        span,
    })
}

/// A block as a value.
#[tactic(auto, using(rx_tree::proofs::Rules::expression_rules))]
pub fn block_of(alloc: Global, body: Got<Block>) -> Result<Got<Expr>, AllocError>
    requires { body.height ≤ 1024 }
    ensures tree { IfOk result (λ x. got_of plain-Expr x ≡ node (λ s. plain.block s (plain-Block body.tree)) body.span body.height) }
    ensures height { IfOk result (λ x. x.height ≡ body.height + 1) }
{
    let height = body.height + 1;
    let span = body.span;
    let node = ExprNode::Block(Boxed::new(alloc, body.tree)?);
    Ok(Got {
        tree: Expr { span, node },
        height,
        span,
    })
}

/// A `match`.
#[tactic(auto, using(rx_tree::proofs::Rules::expression_rules))]
pub fn match_of(
    alloc: Global,
    start: Span,
    value: Got<Expr>,
    items: Items<Arm>,
) -> Result<Got<Expr>, AllocError>
    requires a { value.height ≤ 1024 }
    requires b { items.height ≤ 1024 }
    ensures tree { IfOk result (λ x. got_of plain-Expr x ≡ node (λ s. plain.match s (plain-Expr value.tree) (arms_of (map plain-Arm items.list))) (words.join start items.close) (max value.height items.height)) }
    ensures height { IfOk result (λ x. x.height ≡ (max value.height items.height) + 1) }
{
    let height = larger(value.height, items.height) + 1;
    let span = join(start, items.close);
    let (value, list) = keep(items.list, Boxed::new(alloc, value.tree))?;
    let node = ExprNode::Match(value, list);
    Ok(Got {
        tree: Expr { span, node },
        height,
        span,
    })
}

/// A `loop`.
#[tactic(auto, using(rx_tree::proofs::Rules::expression_rules))]
pub fn loop_of(
    alloc: Global,
    start: Span,
    label: Option<Ident>,
    body: Got<Block>,
) -> Result<Got<Expr>, AllocError>
    requires { body.height ≤ 1024 }
    ensures tree { IfOk result (λ x. got_of plain-Expr x ≡ node (λ s. plain.loop s label (plain-Block body.tree)) (words.join start body.span) body.height) }
    ensures height { IfOk result (λ x. x.height ≡ body.height + 1) }
{
    let height = body.height + 1;
    let span = join(start, body.span);
    let (body, label) = keep(label, Boxed::new(alloc, body.tree))?;
    let node = ExprNode::Loop(label, body);
    Ok(Got {
        tree: Expr { span, node },
        height,
        span,
    })
}

/// A field of a place.
#[tactic(auto, using(rx_tree::proofs::Rules::expression_rules))]
pub fn field_of(alloc: Global, left: Got<Expr>, name: Token<'_>) -> Result<Got<Expr>, AllocError>
    requires { left.height ≤ 1024 }
    ensures tree { IfOk result (λ x. got_of plain-Expr x ≡ node (λ s. plain.field s (plain-Expr left.tree) (words.ident (tok name.entry))) (words.join left.span (tok name.entry).span) left.height) }
    ensures height { IfOk result (λ x. x.height ≡ left.height + 1) }
{
    let height = left.height + 1;
    let span = join(left.span, name.span);
    let (name, left) = keep(left.tree, ident(alloc, name))?;
    let (left, name) = keep(name, Boxed::new(alloc, left))?;
    let node = ExprNode::Field(left, name);
    Ok(Got {
        tree: Expr { span, node },
        height,
        span,
    })
}

/// A part of a tuple.
#[tactic(auto, using(rx_tree::proofs::Rules::expression_rules))]
pub fn part_of(
    alloc: Global,
    left: Got<Expr>,
    index: u64,
    place: Span,
) -> Result<Got<Expr>, AllocError>
    requires { left.height ≤ 1024 }
    ensures tree { IfOk result (λ x. got_of plain-Expr x ≡ node (λ s. plain.part s (plain-Expr left.tree) index) (words.join left.span place) left.height) }
    ensures height { IfOk result (λ x. x.height ≡ left.height + 1) }
{
    let height = left.height + 1;
    let span = join(left.span, place);
    let node = ExprNode::Part(Boxed::new(alloc, left.tree)?, index);
    Ok(Got {
        tree: Expr { span, node },
        height,
        span,
    })
}

/// A negated value.
#[tactic(auto, using(rx_tree::proofs::Rules::expression_rules))]
pub fn negate(alloc: Global, start: Span, value: Got<Expr>) -> Result<Got<Expr>, AllocError>
    requires { value.height ≤ 1024 }
    ensures tree { IfOk result (λ x. got_of plain-Expr x ≡ node (λ s. plain.negate s (plain-Expr value.tree)) (words.join start value.span) value.height) }
    ensures height { IfOk result (λ x. x.height ≡ value.height + 1) }
{
    let height = value.height + 1;
    let span = join(start, value.span);
    let node = ExprNode::Neg(Boxed::new(alloc, value.tree)?);
    Ok(Got {
        tree: Expr { span, node },
        height,
        span,
    })
}

/// An inverted value.
#[tactic(auto, using(rx_tree::proofs::Rules::expression_rules))]
pub fn invert(alloc: Global, start: Span, value: Got<Expr>) -> Result<Got<Expr>, AllocError>
    requires { value.height ≤ 1024 }
    ensures tree { IfOk result (λ x. got_of plain-Expr x ≡ node (λ s. plain.invert s (plain-Expr value.tree)) (words.join start value.span) value.height) }
    ensures height { IfOk result (λ x. x.height ≡ value.height + 1) }
{
    let height = value.height + 1;
    let span = join(start, value.span);
    let node = ExprNode::Not(Boxed::new(alloc, value.tree)?);
    Ok(Got {
        tree: Expr { span, node },
        height,
        span,
    })
}

/// What a reference points to.
#[tactic(auto, using(rx_tree::proofs::Rules::expression_rules))]
pub fn deref(alloc: Global, start: Span, value: Got<Expr>) -> Result<Got<Expr>, AllocError>
    requires { value.height ≤ 1024 }
    ensures tree { IfOk result (λ x. got_of plain-Expr x ≡ node (λ s. plain.deref s (plain-Expr value.tree)) (words.join start value.span) value.height) }
    ensures height { IfOk result (λ x. x.height ≡ value.height + 1) }
{
    let height = value.height + 1;
    let span = join(start, value.span);
    let node = ExprNode::Deref(Boxed::new(alloc, value.tree)?);
    Ok(Got {
        tree: Expr { span, node },
        height,
        span,
    })
}

/// A reference.
#[tactic(auto, using(rx_tree::proofs::Rules::expression_rules))]
pub fn borrow_of(
    alloc: Global,
    start: Span,
    mutable: bool,
    value: Got<Expr>,
) -> Result<Got<Expr>, AllocError>
    requires { value.height ≤ 1024 }
    ensures tree { IfOk result (λ x. got_of plain-Expr x ≡ node (λ s. plain.borrow s mutable (plain-Expr value.tree)) (words.join start value.span) value.height) }
    ensures height { IfOk result (λ x. x.height ≡ value.height + 1) }
{
    let height = value.height + 1;
    let span = join(start, value.span);
    let node = ExprNode::Borrow(mutable, Boxed::new(alloc, value.tree)?);
    Ok(Got {
        tree: Expr { span, node },
        height,
        span,
    })
}

/// An operator and its two operands.
#[tactic(auto, using(rx_tree::proofs::Rules::expression_rules))]
pub fn binary_of(
    alloc: Global,
    op: BinaryOp,
    left: Got<Expr>,
    right: Got<Expr>,
) -> Result<Got<Expr>, AllocError>
    requires a { left.height ≤ 1024 }
    requires b { right.height ≤ 1024 }
    ensures tree { IfOk result (λ x. got_of plain-Expr x ≡ node (λ s. plain.binary s op (plain-Expr left.tree) (plain-Expr right.tree)) (words.join left.span right.span) (max left.height right.height)) }
    ensures height { IfOk result (λ x. x.height ≡ (max left.height right.height) + 1) }
{
    let height = larger(left.height, right.height) + 1;
    let span = join(left.span, right.span);
    let (left, right) = keep(right.tree, Boxed::new(alloc, left.tree))?;
    let (right, left) = keep(left, Boxed::new(alloc, right))?;
    let node = ExprNode::Binary(op, left, right);
    Ok(Got {
        tree: Expr { span, node },
        height,
        span,
    })
}

/// An assignment.
#[tactic(auto, using(rx_tree::proofs::Rules::expression_rules))]
pub fn assign_of(alloc: Global, left: Got<Expr>, right: Got<Expr>) -> Result<Got<Expr>, AllocError>
    requires a { left.height ≤ 1024 }
    requires b { right.height ≤ 1024 }
    ensures tree { IfOk result (λ x. got_of plain-Expr x ≡ node (λ s. plain.assign s (plain-Expr left.tree) (plain-Expr right.tree)) (words.join left.span right.span) (max left.height right.height)) }
    ensures height { IfOk result (λ x. x.height ≡ (max left.height right.height) + 1) }
{
    let height = larger(left.height, right.height) + 1;
    let span = join(left.span, right.span);
    let (left, right) = keep(right.tree, Boxed::new(alloc, left.tree))?;
    let (right, left) = keep(left, Boxed::new(alloc, right))?;
    let node = ExprNode::Assign(left, right);
    Ok(Got {
        tree: Expr { span, node },
        height,
        span,
    })
}

/// An assignment with an operator.
#[tactic(auto, using(rx_tree::proofs::Rules::expression_rules))]
pub fn update_of(
    alloc: Global,
    op: UpdateOp,
    left: Got<Expr>,
    right: Got<Expr>,
) -> Result<Got<Expr>, AllocError>
    requires a { left.height ≤ 1024 }
    requires b { right.height ≤ 1024 }
    ensures tree { IfOk result (λ x. got_of plain-Expr x ≡ node (λ s. plain.update s op (plain-Expr left.tree) (plain-Expr right.tree)) (words.join left.span right.span) (max left.height right.height)) }
    ensures height { IfOk result (λ x. x.height ≡ (max left.height right.height) + 1) }
{
    let height = larger(left.height, right.height) + 1;
    let span = join(left.span, right.span);
    let (left, right) = keep(right.tree, Boxed::new(alloc, left.tree))?;
    let (right, left) = keep(left, Boxed::new(alloc, right))?;
    let node = ExprNode::Update(op, left, right);
    Ok(Got {
        tree: Expr { span, node },
        height,
        span,
    })
}

/// A `return` with a value.
#[tactic(auto, using(rx_tree::proofs::Rules::expression_rules))]
pub fn return_of(alloc: Global, start: Span, value: Got<Expr>) -> Result<Got<Expr>, AllocError>
    requires { value.height ≤ 1024 }
    ensures tree { IfOk result (λ x. got_of plain-Expr x ≡ node (λ s. plain.return s (plain.present (plain-Expr value.tree))) (words.join start value.span) value.height) }
    ensures height { IfOk result (λ x. x.height ≡ value.height + 1) }
{
    let height = value.height + 1;
    let span = join(start, value.span);
    let node = ExprNode::Return(Some(Boxed::new(alloc, value.tree)?));
    Ok(Got {
        tree: Expr { span, node },
        height,
        span,
    })
}

/// A `return` alone.
#[tactic(auto, using(rx_tree::proofs::Rules::expression_rules))]
pub fn bare_return(span: Span) -> Got<Expr>
    ensures tree { got_of plain-Expr result ≡ leaf (λ s. plain.return s plain.absent) span }
    ensures height { result.height ≡ 1 }
{
    let node = ExprNode::Return(None);
    Got {
        tree: Expr { span, node },
        height: 1,
        span,
    }
}

/// A `break`.
#[tactic(auto, using(rx_tree::proofs::Rules::expression_rules))]
pub fn break_of(span: Span, label: Option<Ident>) -> Got<Expr>
    ensures tree { got_of plain-Expr result ≡ leaf (λ s. plain.break s label) span }
    ensures height { result.height ≡ 1 }
{
    let node = ExprNode::Break(label);
    Got {
        tree: Expr { span, node },
        height: 1,
        span,
    }
}

/// A `continue`.
#[tactic(auto, using(rx_tree::proofs::Rules::expression_rules))]
pub fn continue_of(span: Span, label: Option<Ident>) -> Got<Expr>
    ensures tree { got_of plain-Expr result ≡ leaf (λ s. plain.continue s label) span }
    ensures height { result.height ≡ 1 }
{
    let node = ExprNode::Continue(label);
    Got {
        tree: Expr { span, node },
        height: 1,
        span,
    }
}

/// A field with its value behind a colon.
#[tactic(auto, using(rx_tree::proofs::Rules::expression_rules))]
pub fn field_value_of(
    alloc: Global,
    name: Token<'_>,
    value: Got<Expr>,
) -> Result<Got<FieldExpr>, AllocError>
    ensures tree { IfOk result (λ x. got_of plain-FieldExpr x ≡ record { tree = (words.ident (tok name.entry), plain-Expr value.tree); height = value.height; span = words.join (tok name.entry).span value.span }) }
    ensures height { IfOk result (λ x. x.height ≡ value.height) }
{
    let height = value.height;
    let span = join(name.span, value.span);
    let (field, value) = keep(value.tree, ident(alloc, name))?;
    Ok(Got {
        tree: FieldExpr { field, value },
        height,
        span,
    })
}

/// A field that has the value of a variable of its name.
#[tactic(auto, using(rx_tree::proofs::Rules::expression_rules))]
pub fn short_field(alloc: Global, name: Token<'_>) -> Result<Got<FieldExpr>, AllocError>
    ensures tree { IfOk result (λ x. got_of plain-FieldExpr x ≡ leaf (λ s. (words.ident (tok name.entry), plain.var s (tok name.entry).text)) (tok name.entry).span) }
    ensures height { IfOk result (λ x. x.height ≡ 1) }
{
    let field = ident(alloc, name)?;
    let (value, field) = keep(field, variable(alloc, name))?;
    Ok(Got {
        tree: FieldExpr {
            field,
            value: value.tree,
        },
        height: 1,
        span: name.span,
    })
}

/// A label.
pub fn label_of(alloc: Global, label: Option<Token<'_>>) -> Result<Option<Ident>, AllocError>
    ensures { IfOk result (λ x. x ≡ spec.label_of (option_map tok label.entry)) }
{
    match label {
        Some(token) => Ok(Some(ident(alloc, token)?)),
        None => Ok(None),
    }
}

/// Where a loop begins: at its label, if it has one.
pub fn start_of(label: Option<Token<'_>>, token: Token<'_>) -> Span
    ensures { result ≡ spec.start_of (option_map tok label.entry) (tok token.entry) }
{
    match label {
        Some(first) => first.span,
        None => token.span,
    }
}
