//! Operands of operators: primaries, what goes on behind them, and operators before them.

ghost use Rattle.std.specs.Prelude.{◌≡◌, ◌≤◌, ◌+◌, IfOk};
ghost use Rattle.rx_tree.specs.Plain as plain;
ghost use Rattle.rx_tree.specs.PlainOf.{plain-Expr, expressions_of};
ghost use Rattle.rx_parse_grammar.specs.declared.symbol.Symbol.TheVariants as symbol;
ghost use Rattle.rx_parse_grammar.specs.parser.Symbols.{peek};
ghost use Rattle.rx_parse_grammar.specs.parser.Steps.{ReadsAs};
ghost use Rattle.rx_parse_grammar.specs.parser.Lists as lists;
ghost use Rattle.rx_parse_grammar.specs.parser.Blocks.{whole};
ghost use Rattle.rx_parse_cursor.specs.GotOf.{got_of};
ghost use Rattle.rx_parse_expressions.specs.Nests.{Nests};
ghost use Rattle.rx_parse_expressions.specs.Levels as levels;

use crate::level::Level;
use crate::members::members;
use rx_parse_choices::{Wanted, unary_operand};
use rx_parse_cursor::{Cursor, Got, Grouped, group, number};
use rx_parse_grammar::{Stop, Symbol};
use rx_parse_nodes::{bool_value, borrow_of, deref, int_value, invert, negate, tuple_of};
use rx_parse_types::mutability;
use rx_tree::Expr;
use std::alloc::Global;

/// A number.
fn number_value(cursor: &mut Cursor<'_>) -> Result<Got<Expr>, Stop>
    ensures reads { ReadsAs (got_of plain-Expr) (levels.number_value cursor.old) result cursor.new }
    ensures low { IfOk result (λ x. x.height ≤ 1) }
{
    let value = number(cursor)?;
    Ok(int_value(value))
}

impl<F: Fn(Global, &mut Cursor<'_>, usize, Wanted) -> Result<Got<Expr>, Stop>> Level<F> {
    /// What stands in parentheses.
    fn in_parentheses(&self, cursor: &mut Cursor<'_>) -> Result<Got<Expr>, Stop>
        requires { Nests self.now.below (F.pre self.now.expression) (F.post self.now.expression) }
        ensures reads { ReadsAs (got_of plain-Expr) (lists.group (whole self.now.below) (λ s l. plain.tuple s (expressions_of l)) cursor.old) result cursor.new }
        ensures low { IfOk result (λ x. x.height ≤ self.now.below + 1) }
    {
        match group(self.alloc, cursor, self)? {
            Grouped::Alone(first) => Ok(first),
            Grouped::Parts(items, span) => Ok(tuple_of(span, items)),
        }
    }

    /// A negated value.
    fn negate(&self, cursor: &mut Cursor<'_>, literals: bool) -> Result<Got<Expr>, Stop>
        requires { Nests self.now.below (F.pre self.now.expression) (F.post self.now.expression) }
        ensures reads { ReadsAs (got_of plain-Expr) (levels.prefix self.now.below literals symbol.Minus plain.negate cursor.old) result cursor.new }
        ensures low { IfOk result (λ x. x.height ≤ self.now.below + 1) }
    {
        if self.below < 1 {
            return Err(cursor.too_deep());
        }
        let start = cursor.expect(Symbol::Minus)?;
        let value = self.expression(cursor, unary_operand(literals))?;
        Ok(negate(self.alloc, start.span, value)?)
    }

    /// An inverted value.
    fn invert(&self, cursor: &mut Cursor<'_>, literals: bool) -> Result<Got<Expr>, Stop>
        requires { Nests self.now.below (F.pre self.now.expression) (F.post self.now.expression) }
        ensures reads { ReadsAs (got_of plain-Expr) (levels.prefix self.now.below literals symbol.Bang plain.invert cursor.old) result cursor.new }
        ensures low { IfOk result (λ x. x.height ≤ self.now.below + 1) }
    {
        if self.below < 1 {
            return Err(cursor.too_deep());
        }
        let start = cursor.expect(Symbol::Bang)?;
        let value = self.expression(cursor, unary_operand(literals))?;
        Ok(invert(self.alloc, start.span, value)?)
    }

    /// What a reference points to.
    fn deref(&self, cursor: &mut Cursor<'_>, literals: bool) -> Result<Got<Expr>, Stop>
        requires { Nests self.now.below (F.pre self.now.expression) (F.post self.now.expression) }
        ensures reads { ReadsAs (got_of plain-Expr) (levels.prefix self.now.below literals symbol.Star plain.deref cursor.old) result cursor.new }
        ensures low { IfOk result (λ x. x.height ≤ self.now.below + 1) }
    {
        if self.below < 1 {
            return Err(cursor.too_deep());
        }
        let start = cursor.expect(Symbol::Star)?;
        let value = self.expression(cursor, unary_operand(literals))?;
        Ok(deref(self.alloc, start.span, value)?)
    }

    /// A reference.
    #[tactic(auto, unfolding(rx_parse_grammar::specs::parser::Expressions::borrow))]
    fn borrow(&self, cursor: &mut Cursor<'_>, literals: bool) -> Result<Got<Expr>, Stop>
        requires { Nests self.now.below (F.pre self.now.expression) (F.post self.now.expression) }
        ensures reads { ReadsAs (got_of plain-Expr) (levels.borrow self.now.below literals cursor.old) result cursor.new }
        ensures low { IfOk result (λ x. x.height ≤ self.now.below + 1) }
    {
        if self.below < 1 {
            return Err(cursor.too_deep());
        }
        let start = cursor.expect(Symbol::Ampersand)?;
        let mutable = mutability(cursor)?;
        let value = self.expression(cursor, unary_operand(literals))?;
        Ok(borrow_of(self.alloc, start.span, mutable, value)?)
    }

    /// `&&` as two `&`.
    #[tactic(auto, unfolding(rx_parse_grammar::specs::parser::Expressions::borrow_twice, rx_parse_grammar::specs::parser::Steps::expect))]
    fn borrow_twice(&self, cursor: &mut Cursor<'_>, literals: bool) -> Result<Got<Expr>, Stop>
        requires nests { Nests self.now.below (F.pre self.now.expression) (F.post self.now.expression) }
        requires two { peek cursor.old ≡ symbol.AndAnd }
        ensures reads { ReadsAs (got_of plain-Expr) (levels.borrow_twice self.now.below literals cursor.old) result cursor.new }
        ensures low { IfOk result (λ x. x.height ≤ self.now.below + 1) }
    {
        if self.below < 1 {
            return Err(cursor.too_deep());
        }
        let start = cursor.halve();
        let value = self.expression(cursor, unary_operand(literals))?;
        Ok(borrow_of(self.alloc, start.span, false, value)?)
    }
}

impl<F: Fn(Global, &mut Cursor<'_>, usize, Wanted) -> Result<Got<Expr>, Stop> + Copy> Level<F> {
    /// A primary.
    #[tactic(auto, unfolding(rx_parse_grammar::specs::parser::Expressions::primary))]
    fn primary(&self, cursor: &mut Cursor<'_>, literals: bool) -> Result<Got<Expr>, Stop>
        requires { Nests self.now.below (F.pre self.now.expression) (F.post self.now.expression) }
        ensures reads { ReadsAs (got_of plain-Expr) (levels.primary self.now.below literals cursor.old) result cursor.new }
        ensures low { IfOk result (λ x. x.height ≤ self.now.below + 1) }
    {
        match cursor.peek() {
            Symbol::Number => number_value(cursor),
            Symbol::True => {
                let token = cursor.expect(Symbol::True)?;
                Ok(bool_value(token.span, true))
            }
            Symbol::False => {
                let token = cursor.expect(Symbol::False)?;
                Ok(bool_value(token.span, false))
            }
            Symbol::Name => self.named(cursor, literals),
            Symbol::OpenParen => self.in_parentheses(cursor),
            _ => self.like(cursor),
        }
    }

    /// A primary, with the members behind it.
    #[tactic(auto, unfolding(rx_parse_grammar::specs::parser::Expressions::postfix))]
    fn postfix(&self, cursor: &mut Cursor<'_>, literals: bool) -> Result<Got<Expr>, Stop>
        requires { Nests self.now.below (F.pre self.now.expression) (F.post self.now.expression) }
        ensures reads { ReadsAs (got_of plain-Expr) (levels.postfix self.now.below literals cursor.old) result cursor.new }
        ensures low { IfOk result (λ x. x.height ≤ self.now.below + 1) }
    {
        let left = self.primary(cursor, literals)?;
        members(self.alloc, cursor, self.below, left)
    }

    /// An operand of no operator with two operands.
    #[tactic(auto, unfolding(rx_parse_grammar::specs::parser::Expressions::unary))]
    pub fn unary(&self, cursor: &mut Cursor<'_>, literals: bool) -> Result<Got<Expr>, Stop>
        requires { Nests self.now.below (F.pre self.now.expression) (F.post self.now.expression) }
        ensures reads { ReadsAs (got_of plain-Expr) (levels.unary self.now.below literals cursor.old) result cursor.new }
        ensures low { IfOk result (λ x. x.height ≤ self.now.below + 1) }
    {
        match cursor.peek() {
            Symbol::Minus => self.negate(cursor, literals),
            Symbol::Bang => self.invert(cursor, literals),
            Symbol::Star => self.deref(cursor, literals),
            Symbol::Ampersand => self.borrow(cursor, literals),
            Symbol::AndAnd => self.borrow_twice(cursor, literals),
            _ => self.postfix(cursor, literals),
        }
    }
}
