//! What an `if` or a `while` tests, and the nodes of both.

ghost use Rattle.std.specs.Prelude.{◌≡◌, ◌≤◌, ◌+◌, max, option_map, IfOk};
ghost use Rattle.rx_tree.specs.Plain as plain;
ghost use Rattle.rx_tree.specs.PlainOf.{plain-Pattern, plain-Expr, plain-Block, optional_of};
ghost use Rattle.rx_parse_grammar.specs.grammar.Words as words;
ghost use Rattle.rx_parse_grammar.specs.grammar.Expressions as grammar;
ghost use Rattle.rx_parse_grammar.specs.parser.Steps.{node};
ghost use Rattle.rx_parse_cursor.specs.GotOf.{got_of};
ghost use Rattle.rx_parse_nodes.specs.TestOf.{test_of};

use rx_core::{Boxed, LetGo, Span, keep};
use rx_parse_cursor::{Got, join, larger};
use rx_tree::{Block, Expr, ExprNode, Ident, Pattern};
use std::alloc::{AllocError, Global};

/// What an `if` or a `while` tests.
pub enum Test {
    /// Whether this is true.
    Condition(Expr),
    /// Whether the pattern fits the scrutinee.
    Fitting(Pattern, Expr),
}

impl LetGo for Test {
    fn let_go(self) {
        match self {
            Test::Condition(value) => value.let_go(),
            Test::Fitting(pattern, value) => {
                pattern.let_go();
                value.let_go();
            }
        }
    }
}

/// A condition as what is tested.
pub fn holds(value: Got<Expr>) -> Got<Test>
    ensures tree { got_of test_of result ≡ record { tree = grammar.condition (plain-Expr value.tree); height = value.height; span = value.span } }
    ensures height { result.height ≡ value.height }
{
    Got {
        tree: Test::Condition(value.tree),
        height: value.height,
        span: value.span,
    }
}

/// A pattern and a scrutinee as what is tested, from the `let` on.
pub fn fits(start: Span, pattern: Got<Pattern>, value: Got<Expr>) -> Got<Test>
    ensures tree { got_of test_of result ≡ record { tree = grammar.fitting (plain-Pattern pattern.tree) (plain-Expr value.tree); height = max pattern.height value.height; span = words.join start value.span } }
    ensures height { result.height ≡ max pattern.height value.height }
{
    let height = larger(pattern.height, value.height);
    let span = join(start, value.span);
    Got {
        tree: Test::Fitting(pattern.tree, value.tree),
        height,
        span,
    }
}

/// An `if` with a condition, by its place and its levels.
#[tactic(auto, using(rx_tree::proofs::Rules::expression_rules))]
fn if_holds(
    alloc: Global,
    span: Span,
    height: usize,
    value: Expr,
    body: Block,
    other: Option<Boxed<Expr>>,
) -> Result<Got<Expr>, AllocError>
    ensures { IfOk result (λ x. got_of plain-Expr x ≡ record { tree = plain.if span (plain-Expr value) (plain-Block body) (optional_of (option_map plain-Expr other)); height = height; span = span }) }
{
    let (value, (body, other)) = keep((body, other), Boxed::new(alloc, value))?;
    let (body, (value, other)) = keep((value, other), Boxed::new(alloc, body))?;
    let node = ExprNode::If(value, body, other);
    Ok(Got {
        tree: Expr { span, node },
        height,
        span,
    })
}

/// An `if let`, by its place and its levels.
#[tactic(auto, using(rx_tree::proofs::Rules::expression_rules))]
fn if_fits(
    alloc: Global,
    span: Span,
    height: usize,
    pattern: Pattern,
    value: Expr,
    body: Block,
    other: Option<Boxed<Expr>>,
) -> Result<Got<Expr>, AllocError>
    ensures { IfOk result (λ x. got_of plain-Expr x ≡ record { tree = plain.if_let span (plain-Pattern pattern) (plain-Expr value) (plain-Block body) (optional_of (option_map plain-Expr other)); height = height; span = span }) }
{
    let (value, (pattern, (body, other))) = keep(
        (pattern, (body, other)),
        Boxed::new(alloc, value),
    )?;
    let (body, (pattern, (value, other))) = keep(
        (pattern, (value, other)),
        Boxed::new(alloc, body),
    )?;
    let node = ExprNode::IfLet(pattern, value, body, other);
    Ok(Got {
        tree: Expr { span, node },
        height,
        span,
    })
}

/// An `if`, by its place and its levels.
fn if_made(
    alloc: Global,
    span: Span,
    height: usize,
    test: Test,
    body: Block,
    other: Option<Boxed<Expr>>,
) -> Result<Got<Expr>, AllocError>
    ensures { IfOk result (λ x. got_of plain-Expr x ≡ record { tree = grammar.if_of span (test_of test) (plain-Block body) (optional_of (option_map plain-Expr other)); height = height; span = span }) }
{
    match test {
        Test::Condition(value) => if_holds(alloc, span, height, value, body, other),
        Test::Fitting(pattern, value) => if_fits(alloc, span, height, pattern, value, body, other),
    }
}

/// An `if` without `else`.
pub fn if_of(
    alloc: Global,
    start: Span,
    test: Got<Test>,
    body: Got<Block>,
) -> Result<Got<Expr>, AllocError>
    requires a { test.height ≤ 1024 }
    requires b { body.height ≤ 1024 }
    ensures tree { IfOk result (λ x. got_of plain-Expr x ≡ node (λ s. grammar.if_of s (test_of test.tree) (plain-Block body.tree) plain.absent) (words.join start body.span) (max test.height body.height)) }
    ensures height { IfOk result (λ x. x.height ≡ (max test.height body.height) + 1) }
{
    let Got {
        tree,
        height,
        span: _,
    } = test;
    let height = larger(height, body.height) + 1;
    let span = join(start, body.span);
    if_made(alloc, span, height, tree, body.tree, None)
}

/// An `if` with `else`.
pub fn if_else_of(
    alloc: Global,
    start: Span,
    test: Got<Test>,
    body: Got<Block>,
    other: Got<Expr>,
) -> Result<Got<Expr>, AllocError>
    requires a { test.height ≤ 1024 }
    requires b { body.height ≤ 1024 }
    requires c { other.height ≤ 1024 }
    ensures tree { IfOk result (λ x. got_of plain-Expr x ≡ node (λ s. grammar.if_of s (test_of test.tree) (plain-Block body.tree) (plain.present (plain-Expr other.tree))) (words.join start other.span) (max test.height (max body.height other.height))) }
    ensures height { IfOk result (λ x. x.height ≡ (max test.height (max body.height other.height)) + 1) }
{
    let Got {
        tree,
        height,
        span: _,
    } = test;
    let height = larger(height, larger(body.height, other.height)) + 1;
    let span = join(start, other.span);
    let (other, (tree, body)) = keep((tree, body.tree), Boxed::new(alloc, other.tree))?;
    if_made(alloc, span, height, tree, body, Some(other))
}

/// A `while` with a condition, by its place and its levels.
#[tactic(auto, using(rx_tree::proofs::Rules::expression_rules))]
fn while_holds(
    alloc: Global,
    span: Span,
    height: usize,
    label: Option<Ident>,
    value: Expr,
    body: Block,
) -> Result<Got<Expr>, AllocError>
    ensures { IfOk result (λ x. got_of plain-Expr x ≡ record { tree = plain.while span label (plain-Expr value) (plain-Block body); height = height; span = span }) }
{
    let (value, (label, body)) = keep((label, body), Boxed::new(alloc, value))?;
    let (body, (label, value)) = keep((label, value), Boxed::new(alloc, body))?;
    let node = ExprNode::While(label, value, body);
    Ok(Got {
        tree: Expr { span, node },
        height,
        span,
    })
}

/// A `while let`, by its place and its levels.
#[tactic(auto, using(rx_tree::proofs::Rules::expression_rules))]
fn while_fits(
    alloc: Global,
    span: Span,
    height: usize,
    label: Option<Ident>,
    pattern: Pattern,
    value: Expr,
    body: Block,
) -> Result<Got<Expr>, AllocError>
    ensures { IfOk result (λ x. got_of plain-Expr x ≡ record { tree = plain.while_let span label (plain-Pattern pattern) (plain-Expr value) (plain-Block body); height = height; span = span }) }
{
    let (value, (label, (pattern, body))) = keep(
        (label, (pattern, body)),
        Boxed::new(alloc, value),
    )?;
    let (body, (label, (pattern, value))) = keep(
        (label, (pattern, value)),
        Boxed::new(alloc, body),
    )?;
    let node = ExprNode::WhileLet(label, pattern, value, body);
    Ok(Got {
        tree: Expr { span, node },
        height,
        span,
    })
}

/// A `while`.
pub fn while_of(
    alloc: Global,
    start: Span,
    label: Option<Ident>,
    test: Got<Test>,
    body: Got<Block>,
) -> Result<Got<Expr>, AllocError>
    requires a { test.height ≤ 1024 }
    requires b { body.height ≤ 1024 }
    ensures tree { IfOk result (λ x. got_of plain-Expr x ≡ node (λ s. grammar.while_of s label (test_of test.tree) (plain-Block body.tree)) (words.join start body.span) (max test.height body.height)) }
    ensures height { IfOk result (λ x. x.height ≡ (max test.height body.height) + 1) }
{
    let Got {
        tree,
        height,
        span: _,
    } = test;
    let height = larger(height, body.height) + 1;
    let span = join(start, body.span);
    match tree {
        Test::Condition(value) => while_holds(alloc, span, height, label, value, body.tree),
        Test::Fitting(pattern, value) => {
            while_fits(alloc, span, height, label, pattern, value, body.tree)
        }
    }
}
