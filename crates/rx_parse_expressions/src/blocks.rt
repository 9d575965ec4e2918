//! Blocks of so many levels.

ghost use Rattle.std.specs.Prelude.{◌≡◌, ◌≤◌, ◌+◌, max, map, length, IfOk};
ghost use Rattle.rx_tree.specs.Plain as plain;
ghost use Rattle.rx_tree.specs.PlainOf.{plain-Block, plain-Expr, plain-Stmt, statements_of};
ghost use Rattle.rx_parse_grammar.specs.grammar.Words as words;
ghost use Rattle.rx_parse_grammar.specs.parser.Steps.{ReadsAs, node};
ghost use Rattle.rx_parse_grammar.specs.parser.Blocks as spec;
ghost use Rattle.rx_parse_cursor.specs.GotOf.{got_of};
ghost use Rattle.rx_parse_expressions.specs.Nests.{Nests};
ghost use Rattle.rx_parse_expressions.specs.Pieces as pieces;
ghost use Rattle.rx_parse_expressions.specs.PieceOf.{ending_of, piece_of, turn_of};

use crate::level::{Level, expression};
use crate::statements::Piece;
use rx_core::{Boxed, LetGo, Span, keep};
use rx_parse_choices::Wanted;
use rx_parse_cursor::{Cursor, Found, Got, join, larger};
use rx_parse_grammar::{Stop, Symbol};
use rx_tree::{Block, Expr, Stmt};
use std::alloc::{AllocError, Global};

/// The end of a block: the tail, and where the closing brace stands.
struct Ending {
    tail: Option<Boxed<Expr>>,
    close: Span,
}

/// The statements that were found, and the end of the block, where it is reached.
enum Turn {
    Further(Found<Stmt>),
    Ended(Found<Stmt>, Ending),
}

fn opens(symbol: Symbol) -> bool
    ensures { result ≡ spec.opens symbol }
{
    match symbol {
        Symbol::OpenBrace => true,
        _ => false,
    }
}

/// The statements that were found, with a tail as the end of the block.
fn with_tail(
    alloc: Global,
    found: Found<Stmt>,
    tail: Got<Expr>,
    close: Span,
) -> Result<Turn, AllocError>
    ensures { IfOk result (λ t. turn_of t ≡ pieces.with_piece (map plain-Stmt found.list) found.height (pieces.tail (got_of plain-Expr tail) close)) }
{
    let height = larger(found.height, tail.height);
    let (tail, list) = keep(found.list, Boxed::new(alloc, tail.tree))?;
    let ending = Ending {
        tail: Some(tail),
        close,
    };
    Ok(Turn::Ended(Found { list, height }, ending))
}

/// The statements that were found, with a further piece.
fn with_piece(alloc: Global, found: Found<Stmt>, piece: Piece) -> Result<Turn, AllocError>
    ensures { IfOk result (λ t. turn_of t ≡ pieces.with_piece (map plain-Stmt found.list) found.height (piece_of piece)) }
{
    match piece {
        Piece::Statement(next) => Ok(Turn::Further(found.with(next)?)),
        Piece::Ended(close) => Ok(Turn::Ended(found, Ending { tail: None, close })),
        Piece::Tail(tail, close) => with_tail(alloc, found, tail, close),
    }
}

/// A block, by its opening brace, its statements and its end.
#[tactic(auto, using(crate::proofs::BlockRules::block_rules))]
fn body_of(start: Span, found: Found<Stmt>, ending: Ending) -> Got<Block>
    requires { found.height ≤ 1024 }
    ensures tree { got_of plain-Block result ≡ node (λ s. plain.body s (statements_of (map plain-Stmt found.list)) (ending_of ending).tail) (words.join start ending.close) found.height }
    ensures height { result.height ≡ found.height + 1 }
{
    let height = found.height + 1;
    let Ending { tail, close } = ending;
    let span = join(start, close);
    Got {
        tree: Block {
            span,
            stmts: found.list,
            tail,
        },
        height,
        span,
    }
}

impl<F: Fn(Global, &mut Cursor<'_>, usize, Wanted) -> Result<Got<Expr>, Stop>> Level<F> {
    /// The statements that were found, with a further piece.
    #[tactic(auto, unfolding(crate::specs::Pieces::turn))]
    fn turn(&self, cursor: &mut Cursor<'_>, found: Found<Stmt>) -> Result<Turn, Stop>
        requires nests { Nests self.now.below (F.pre self.now.expression) (F.post self.now.expression) }
        requires found { found.height ≤ self.now.below }
        ensures reads { ReadsAs turn_of (pieces.turn self.now.below (map plain-Stmt found.list) found.height cursor.old) result cursor.new }
        ensures low { IfOk result (λ t. (turn_of t).height ≤ self.now.below) }
    {
        let (piece, found) = keep(found, self.piece(cursor))?;
        Ok(with_piece(self.alloc, found, piece)?)
    }

    /// The pieces behind those that were found, up to the closing brace.
    fn statements(
        &self,
        cursor: &mut Cursor<'_>,
        start: Span,
        found: Found<Stmt>,
    ) -> Result<Got<Block>, Stop>
        requires nests { Nests self.now.below (F.pre self.now.expression) (F.post self.now.expression) }
        requires found { found.height ≤ self.now.below }
        ensures reads { ReadsAs (got_of plain-Block) (pieces.statements_from self.now.below start (length cursor.old) (map plain-Stmt found.list) found.height cursor.old) result cursor.new }
        ensures low { IfOk result (λ x. x.height ≤ self.now.below + 1) }
    {
        let mut found = found;
        for _turn in 0..cursor.left() {
            let read = self.turn(cursor, found)?;
            match read {
                Turn::Further(further) => found = further,
                Turn::Ended(all, ending) => return Ok(body_of(start, all, ending)),
            }
        }
        found.let_go();
        Err(cursor.refuse())
    }
}

impl<F: Fn(Global, &mut Cursor<'_>, usize, Wanted) -> Result<Got<Expr>, Stop> + Copy> Level<F> {
    /// A block of this level.
    #[tactic(auto, unfolding(rx_parse_grammar::specs::parser::Blocks::block_of, rx_parse_grammar::specs::parser::Blocks::statements))]
    fn block_of(&self, cursor: &mut Cursor<'_>) -> Result<Got<Block>, Stop>
        requires { Nests self.now.below (F.pre self.now.expression) (F.post self.now.expression) }
        ensures reads { ReadsAs (got_of plain-Block) (spec.block_of (spec.whole self.now.below) (spec.like self.now.below) self.now.below cursor.old) result cursor.new }
        ensures low { IfOk result (λ x. x.height ≤ self.now.below + 1) }
    {
        let token = cursor.expect(Symbol::OpenBrace)?;
        self.statements(cursor, token.span, Found::new(self.alloc))
    }

    /// A block that is one level deeper.
    pub fn block(&self, cursor: &mut Cursor<'_>) -> Result<Got<Block>, Stop>
        requires { Nests self.now.below (F.pre self.now.expression) (F.post self.now.expression) }
        ensures reads { ReadsAs (got_of plain-Block) (spec.block self.now.below cursor.old) result cursor.new }
        ensures low { IfOk result (λ x. x.height ≤ self.now.below) }
    {
        if self.below == 0 {
            if opens(cursor.peek()) {
                return Err(cursor.too_deep());
            }
            return Err(cursor.refuse());
        }
        Level {
            alloc: self.alloc,
            below: self.below - 1,
            expression: self.expression,
        }
        .block_of(cursor)
    }
}

/// A block of at most so many levels.
pub fn block(alloc: Global, cursor: &mut Cursor<'_>, depth: usize) -> Result<Got<Block>, Stop>
    requires { depth ≤ 1024 }
    ensures reads { ReadsAs (got_of plain-Block) (spec.block depth cursor.old) result cursor.new }
    ensures low { IfOk result (λ x. x.height ≤ depth) }
{
    if depth == 0 {
        if opens(cursor.peek()) {
            return Err(cursor.too_deep());
        }
        return Err(cursor.refuse());
    }
    Level {
        alloc,
        below: depth - 1,
        expression,
    }
    .block_of(cursor)
}
