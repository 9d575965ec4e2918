//! Expressions that end in a block.

ghost use Rattle.std.specs.Prelude.{◌≡◌, ◌≤◌, ◌+◌, option_map, IfOk};
ghost use Rattle.rx_tree.specs.PlainOf.{plain-Expr};
ghost use Rattle.rx_lex.specs.Tok.{tok};
ghost use Rattle.rx_parse_grammar.specs.parser.Symbols.{peek};
ghost use Rattle.rx_parse_grammar.specs.parser.Steps.{ReadsAs};
ghost use Rattle.rx_parse_cursor.specs.GotOf.{got_of};
ghost use Rattle.rx_parse_nodes.specs.TestOf.{test_of};
ghost use Rattle.rx_parse_expressions.specs.Nests.{Nests};
ghost use Rattle.rx_parse_expressions.specs.Levels as levels;
ghost use Rattle.rx_parse_expressions.specs.Likes as likes;

use crate::level::Level;
use rx_core::keep;
use rx_lex::Token;
use rx_parse_choices::{Wanted, condition, fitted};
use rx_parse_cursor::{Cursor, Got};
use rx_parse_grammar::{Stop, Symbol};
use rx_parse_nodes::{
    Test, block_of, fits, holds, if_else_of, if_of, label_of, loop_of, start_of, while_of,
};
use rx_parse_types::pattern;
use rx_tree::Expr;
use std::alloc::Global;

impl<F: Fn(Global, &mut Cursor<'_>, usize, Wanted) -> Result<Got<Expr>, Stop> + Copy> Level<F> {
    /// A block as a value.
    #[tactic(auto, unfolding(rx_parse_grammar::specs::parser::Expressions::block_value))]
    fn block_value(&self, cursor: &mut Cursor<'_>) -> Result<Got<Expr>, Stop>
        requires nests { Nests self.now.below (F.pre self.now.expression) (F.post self.now.expression) }
        ensures reads { ReadsAs (got_of plain-Expr) (likes.block_value self.now.below cursor.old) result cursor.new }
        ensures low { IfOk result (λ x. x.height ≤ self.now.below + 1) }
    {
        if self.below < 1 {
            return Err(cursor.too_deep());
        }
        let body = self.block(cursor)?;
        Ok(block_of(self.alloc, body)?)
    }

    /// A pattern and what it is to fit.
    #[tactic(auto, unfolding(rx_parse_grammar::specs::parser::Expressions::let_test))]
    fn let_test(&self, cursor: &mut Cursor<'_>) -> Result<Got<Test>, Stop>
        requires nests { Nests self.now.below (F.pre self.now.expression) (F.post self.now.expression) }
        ensures reads { ReadsAs (got_of test_of) (likes.let_test self.now.below cursor.old) result cursor.new }
        ensures low { IfOk result (λ x. x.height ≤ self.now.below) }
    {
        let token = cursor.expect(Symbol::Let)?;
        let pattern = pattern(self.alloc, cursor, self.below)?;
        let (_equal, pattern) = keep(pattern, cursor.expect(Symbol::Equal))?;
        let (value, pattern) = keep(pattern, self.expression(cursor, fitted()))?;
        Ok(fits(token.span, pattern, value))
    }

    /// What an `if` or a `while` tests.
    #[tactic(auto, using(crate::proofs::TestSteps::tested_is))]
    fn test(&self, cursor: &mut Cursor<'_>) -> Result<Got<Test>, Stop>
        requires nests { Nests self.now.below (F.pre self.now.expression) (F.post self.now.expression) }
        ensures reads { ReadsAs (got_of test_of) (likes.test self.now.below cursor.old) result cursor.new }
        ensures low { IfOk result (λ x. x.height ≤ self.now.below) }
    {
        match cursor.peek() {
            Symbol::Let => self.let_test(cursor),
            _ => {
                let value = self.expression(cursor, condition())?;
                Ok(holds(value))
            }
        }
    }

    /// What stands behind `else`.
    #[tactic(auto, unfolding(rx_parse_grammar::specs::parser::Expressions::else_value))]
    fn else_value(&self, cursor: &mut Cursor<'_>) -> Result<Got<Expr>, Stop>
        requires nests { Nests self.now.below (F.pre self.now.expression) (F.post self.now.expression) }
        ensures reads { ReadsAs (got_of plain-Expr) (likes.else_value self.now.below cursor.old) result cursor.new }
        ensures low { IfOk result (λ x. x.height ≤ self.now.below) }
    {
        match cursor.peek() {
            Symbol::OpenBrace => self.expression(cursor, Wanted::Like),
            Symbol::If => self.expression(cursor, Wanted::Like),
            _ => Err(cursor.refuse()),
        }
    }

    /// `else`, and the other branch.
    fn other_branch(&self, cursor: &mut Cursor<'_>) -> Result<Got<Expr>, Stop>
        requires nests { Nests self.now.below (F.pre self.now.expression) (F.post self.now.expression) }
        ensures reads { ReadsAs (got_of plain-Expr) (likes.other_branch self.now.below cursor.old) result cursor.new }
        ensures low { IfOk result (λ x. x.height ≤ self.now.below) }
    {
        if self.below < 2 {
            return Err(cursor.too_deep());
        }
        cursor.expect(Symbol::Else)?;
        self.else_value(cursor)
    }

    /// An `if`.
    #[tactic(auto, unfolding(rx_parse_grammar::specs::parser::Expressions::conditional))]
    fn conditional(&self, cursor: &mut Cursor<'_>) -> Result<Got<Expr>, Stop>
        requires nests { Nests self.now.below (F.pre self.now.expression) (F.post self.now.expression) }
        ensures reads { ReadsAs (got_of plain-Expr) (likes.conditional self.now.below cursor.old) result cursor.new }
        ensures low { IfOk result (λ x. x.height ≤ self.now.below + 1) }
    {
        if self.below < 1 {
            return Err(cursor.too_deep());
        }
        let token = cursor.expect(Symbol::If)?;
        let test = self.test(cursor)?;
        let (body, test) = keep(test, self.block(cursor))?;
        if cursor.sees(Symbol::Else) {
            let (other, (test, body)) = keep((test, body), self.other_branch(cursor))?;
            return Ok(if_else_of(self.alloc, token.span, test, body, other)?);
        }
        Ok(if_of(self.alloc, token.span, test, body)?)
    }

    /// A `loop`, behind its label.
    #[tactic(auto, unfolding(rx_parse_grammar::specs::parser::Expressions::loop_value))]
    fn loop_value(
        &self,
        cursor: &mut Cursor<'_>,
        label: Option<Token<'_>>,
    ) -> Result<Got<Expr>, Stop>
        requires nests { Nests self.now.below (F.pre self.now.expression) (F.post self.now.expression) }
        ensures reads { ReadsAs (got_of plain-Expr) (likes.loop_value self.now.below (option_map tok label.entry) cursor.old) result cursor.new }
        ensures low { IfOk result (λ x. x.height ≤ self.now.below + 1) }
    {
        let token = cursor.expect(Symbol::Loop)?;
        let start = start_of(label, token);
        let name = label_of(self.alloc, label)?;
        let (body, name) = keep(name, self.block(cursor))?;
        Ok(loop_of(self.alloc, start, name, body)?)
    }

    /// A `while`, behind its label.
    #[tactic(auto, unfolding(rx_parse_grammar::specs::parser::Expressions::while_value))]
    fn while_value(
        &self,
        cursor: &mut Cursor<'_>,
        label: Option<Token<'_>>,
    ) -> Result<Got<Expr>, Stop>
        requires nests { Nests self.now.below (F.pre self.now.expression) (F.post self.now.expression) }
        ensures reads { ReadsAs (got_of plain-Expr) (likes.while_value self.now.below (option_map tok label.entry) cursor.old) result cursor.new }
        ensures low { IfOk result (λ x. x.height ≤ self.now.below + 1) }
    {
        let token = cursor.expect(Symbol::While)?;
        let start = start_of(label, token);
        let name = label_of(self.alloc, label)?;
        let (test, name) = keep(name, self.test(cursor))?;
        let (body, (name, test)) = keep((name, test), self.block(cursor))?;
        Ok(while_of(self.alloc, start, name, test, body)?)
    }

    /// A loop with a label.
    #[tactic(auto, unfolding(rx_parse_grammar::specs::parser::Expressions::labelled))]
    fn labelled(&self, cursor: &mut Cursor<'_>) -> Result<Got<Expr>, Stop>
        requires nests { Nests self.now.below (F.pre self.now.expression) (F.post self.now.expression) }
        ensures reads { ReadsAs (got_of plain-Expr) (likes.labelled self.now.below cursor.old) result cursor.new }
        ensures low { IfOk result (λ x. x.height ≤ self.now.below + 1) }
    {
        let label = cursor.expect(Symbol::Lifetime)?;
        cursor.expect(Symbol::Colon)?;
        match cursor.peek() {
            Symbol::Loop => self.loop_value(cursor, Some(label)),
            Symbol::While => self.while_value(cursor, Some(label)),
            _ => Err(cursor.refuse()),
        }
    }

    /// An expression that ends in a block.
    pub fn like(&self, cursor: &mut Cursor<'_>) -> Result<Got<Expr>, Stop>
        requires { Nests self.now.below (F.pre self.now.expression) (F.post self.now.expression) }
        ensures reads { ReadsAs (got_of plain-Expr) (levels.like_by self.now.below (peek cursor.old) cursor.old) result cursor.new }
        ensures low { IfOk result (λ x. x.height ≤ self.now.below + 1) }
    {
        match cursor.peek() {
            Symbol::OpenBrace => self.block_value(cursor),
            Symbol::If => self.conditional(cursor),
            Symbol::Match => self.match_value(cursor),
            Symbol::Loop => {
                if self.below < 1 {
                    return Err(cursor.too_deep());
                }
                self.loop_value(cursor, None)
            }
            Symbol::While => {
                if self.below < 1 {
                    return Err(cursor.too_deep());
                }
                self.while_value(cursor, None)
            }
            Symbol::Lifetime => {
                if self.below < 1 {
                    return Err(cursor.too_deep());
                }
                self.labelled(cursor)
            }
            _ => Err(cursor.refuse()),
        }
    }
}
