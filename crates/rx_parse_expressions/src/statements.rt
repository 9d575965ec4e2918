//! The pieces of a block: statements, a tail, and the closing brace.

ghost use Rattle.std.specs.Prelude.{◌≡◌, ◌≤◌, ◌+◌, max, true, false, IfOk};
ghost use Rattle.rx_tree.specs.Plain as plain;
ghost use Rattle.rx_tree.specs.PlainOf.{plain-Pattern, plain-Expr, plain-Stmt};
ghost use Rattle.rx_parse_grammar.specs.grammar.Words as words;
ghost use Rattle.rx_parse_grammar.specs.parser.Symbols.{peek};
ghost use Rattle.rx_parse_grammar.specs.parser.Steps.{ReadsAs};
ghost use Rattle.rx_parse_grammar.specs.parser.Operators as operators;
ghost use Rattle.rx_parse_grammar.specs.parser.Blocks as spec;
ghost use Rattle.rx_parse_cursor.specs.GotOf.{got_of};
ghost use Rattle.rx_parse_expressions.specs.Nests.{Nests};
ghost use Rattle.rx_parse_expressions.specs.Pieces as pieces;
ghost use Rattle.rx_parse_expressions.specs.PieceOf.{annotation_of, initial_of, piece_of};

use crate::level::Level;
use rx_core::{LetGo, Span, keep};
use rx_parse_choices::{After, Wanted, after_like, after_whole, begins_like};
use rx_parse_cursor::{Cursor, Got, join, larger};
use rx_parse_grammar::{Stop, Symbol};
use rx_parse_types::{pattern, typ};
use rx_tree::{Expr, Pattern, PatternNode, Stmt, StmtNode, TypeText};
use std::alloc::Global;

/// The type behind a pattern, where one is written, and its levels.
struct Annotated {
    typ: Option<TypeText>,
    height: usize,
}

impl LetGo for Annotated {
    fn let_go(self) {
        let Annotated { typ, height: _ } = self;
        typ.let_go();
    }
}

/// The value that a declaration gives, if it gives one, its levels, and where the `;` stands.
struct Initial {
    value: Option<Expr>,
    height: usize,
    close: Span,
}

/// A piece of a block.
pub enum Piece {
    Statement(Got<Stmt>),
    /// The closing brace.
    Ended(Span),
    /// The tail and the closing brace.
    Tail(Got<Expr>, Span),
}

/// Whether a pattern is a name alone, without parentheses.
fn declares(read: &Got<Pattern>) -> bool
    ensures { result ≡ spec.declares (plain-Pattern read.now.tree) read.now.height }
{
    match &read.tree.node {
        PatternNode::Bind(_, _) => read.height == 1,
        PatternNode::Wild => false,
        PatternNode::Int(_, _, _) => false,
        PatternNode::Bool(_) => false,
        PatternNode::Tuple(_) => false,
        PatternNode::Variant(_, _, _) => false,
        PatternNode::Make(_, _) => false,
    }
}

/// The type behind a pattern, where one is written.
#[tactic(auto, unfolding(rx_parse_grammar::specs::parser::Blocks::annotation))]
fn annotation(alloc: Global, cursor: &mut Cursor<'_>, depth: usize) -> Result<Annotated, Stop>
    requires { depth ≤ 1024 }
    ensures reads { ReadsAs annotation_of (spec.annotation depth cursor.old) result cursor.new }
    ensures low { IfOk result (λ a. a.height ≤ depth) }
{
    if cursor.sees(Symbol::Colon) {
        cursor.expect(Symbol::Colon)?;
        let written = typ(alloc, cursor, depth)?;
        return Ok(Annotated {
            typ: Some(written.tree),
            height: written.height,
        });
    }
    Ok(Annotated {
        typ: None,
        height: 0,
    })
}

/// A declaration, by its parts.
#[tactic(auto, using(rx_tree::proofs::Rules::statement_rules))]
fn let_of(start: Span, pattern: Got<Pattern>, annotation: Annotated, initial: Initial) -> Got<Stmt>
    ensures tree { got_of plain-Stmt result ≡ pieces.let_with start (got_of plain-Pattern pattern) (annotation_of annotation) (initial_of initial) }
    ensures height { result.height ≡ max (max pattern.height annotation.height) initial.height }
{
    let Annotated { typ, height } = annotation;
    let Initial {
        value,
        height: further,
        close,
    } = initial;
    let height = larger(larger(pattern.height, height), further);
    let span = join(start, close);
    let node = StmtNode::Let(pattern.tree, typ, value);
    Got {
        tree: Stmt { span, node },
        height,
        span,
    }
}

/// An expression as a statement, and whether a `;` follows it.
#[tactic(auto, using(rx_tree::proofs::Rules::statement_rules))]
fn statement_of(value: Got<Expr>, span: Span, closed: bool) -> Got<Stmt>
    ensures { got_of plain-Stmt result ≡ record { tree = plain.expression_statement span (plain-Expr value.tree) closed; height = value.height; span = span } }
{
    let height = value.height;
    let node = StmtNode::Eval(value.tree, closed);
    Got {
        tree: Stmt { span, node },
        height,
        span,
    }
}

/// An expression, by what stands behind it.
fn with_after(value: Got<Expr>, after: After) -> Piece
    ensures { piece_of result ≡ pieces.with_after (got_of plain-Expr value) after }
{
    match after {
        After::Semicolon(close) => {
            let span = join(value.span, close);
            Piece::Statement(statement_of(value, span, true))
        }
        After::Closing(close) => Piece::Tail(value, close),
        After::Nothing => {
            let span = value.span;
            Piece::Statement(statement_of(value, span, false))
        }
    }
}

impl<F: Fn(Global, &mut Cursor<'_>, usize, Wanted) -> Result<Got<Expr>, Stop>> Level<F> {
    /// The value that a declaration gives, and its `;`. Without a value only a name may be declared.
    #[tactic(auto, unfolding(crate::specs::Pieces::initial))]
    fn initial(&self, cursor: &mut Cursor<'_>, only_name: bool) -> Result<Initial, Stop>
        requires nests { Nests self.now.below (F.pre self.now.expression) (F.post self.now.expression) }
        ensures reads { ReadsAs initial_of (pieces.initial self.now.below only_name cursor.old) result cursor.new }
        ensures low { IfOk result (λ x. x.height ≤ self.now.below) }
    {
        if cursor.sees(Symbol::Equal) {
            cursor.expect(Symbol::Equal)?;
            let value = self.expression(cursor, Wanted::Whole)?;
            let (token, value) = keep(value, cursor.expect(Symbol::Semicolon))?;
            return Ok(Initial {
                value: Some(value.tree),
                height: value.height,
                close: token.span,
            });
        }
        if !only_name {
            return Err(cursor.refuse());
        }
        let token = cursor.expect(Symbol::Semicolon)?;
        Ok(Initial {
            value: None,
            height: 0,
            close: token.span,
        })
    }

    /// A declaration.
    #[tactic(auto, unfolding(crate::specs::Pieces::declared))]
    fn let_statement(&self, cursor: &mut Cursor<'_>) -> Result<Got<Stmt>, Stop>
        requires nests { Nests self.now.below (F.pre self.now.expression) (F.post self.now.expression) }
        ensures reads { ReadsAs (got_of plain-Stmt) (pieces.declared self.now.below cursor.old) result cursor.new }
        ensures low { IfOk result (λ x. x.height ≤ self.now.below) }
    {
        if self.below < 1 {
            return Err(cursor.too_deep());
        }
        let token = cursor.expect(Symbol::Let)?;
        let name = pattern(self.alloc, cursor, self.below)?;
        let (written, name) = keep(name, annotation(self.alloc, cursor, self.below))?;
        let only_name = declares(&name);
        let (initial, (name, written)) = keep((name, written), self.initial(cursor, only_name))?;
        Ok(let_of(token.span, name, written, initial))
    }

    /// An expression with what stands behind it.
    fn expression_piece(&self, cursor: &mut Cursor<'_>) -> Result<Piece, Stop>
        requires nests { Nests self.now.below (F.pre self.now.expression) (F.post self.now.expression) }
        ensures reads { ReadsAs piece_of (pieces.expression_by self.now.below (operators.begins_like (peek cursor.old)) cursor.old) result cursor.new }
        ensures low { IfOk result (λ x. pieces.height_of (piece_of x) ≤ self.now.below) }
    {
        if begins_like(cursor.peek()) {
            let value = self.expression(cursor, Wanted::Like)?;
            let (after, value) = keep(value, after_like(cursor))?;
            return Ok(with_after(value, after));
        }
        let value = self.expression(cursor, Wanted::Whole)?;
        let (after, value) = keep(value, after_whole(cursor))?;
        Ok(with_after(value, after))
    }

    /// A piece of a block.
    #[tactic(auto, unfolding(crate::specs::Pieces::piece))]
    pub fn piece(&self, cursor: &mut Cursor<'_>) -> Result<Piece, Stop>
        requires nests { Nests self.now.below (F.pre self.now.expression) (F.post self.now.expression) }
        ensures reads { ReadsAs piece_of (pieces.piece self.now.below cursor.old) result cursor.new }
        ensures low { IfOk result (λ x. pieces.height_of (piece_of x) ≤ self.now.below) }
    {
        match cursor.peek() {
            Symbol::CloseBrace => {
                let close = cursor.expect(Symbol::CloseBrace)?;
                Ok(Piece::Ended(close.span))
            }
            Symbol::Let => {
                let read = self.let_statement(cursor)?;
                Ok(Piece::Statement(read))
            }
            _ => self.expression_piece(cursor),
        }
    }
}
