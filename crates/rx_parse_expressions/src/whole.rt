//! Whole expressions: assignments, and what leaves a function or a loop.

ghost use Rattle.std.specs.Prelude.{◌≡◌, ◌≤◌, ◌+◌, max, IfOk};
ghost use Rattle.rx_tree.specs.Plain as plain;
ghost use Rattle.rx_tree.specs.PlainOf.{plain-Expr};
ghost use Rattle.rx_parse_grammar.specs.declared.symbol.Symbol.TheVariants as symbol;
ghost use Rattle.rx_parse_grammar.specs.grammar.Words as words;
ghost use Rattle.rx_parse_grammar.specs.parser.Symbols.{peek};
ghost use Rattle.rx_parse_grammar.specs.parser.Steps.{ReadsAs, node};
ghost use Rattle.rx_parse_grammar.specs.parser.Operators.{setting};
ghost use Rattle.rx_parse_cursor.specs.GotOf.{got_of};
ghost use Rattle.rx_parse_expressions.specs.Nests.{Nests};
ghost use Rattle.rx_parse_expressions.specs.Levels as levels;
ghost use Rattle.rx_parse_choices.specs.SettingOf.{setting_of};

use crate::level::Level;
use rx_core::keep;
use rx_parse_choices::{Setting, Wanted, begins_expression, setting_at};
use rx_parse_cursor::{Cursor, Got, ident, join};
use rx_parse_grammar::{DISJUNCTION, Stop, Symbol};
use rx_parse_nodes::{assign_of, bare_return, break_of, continue_of, return_of, update_of};
use rx_tree::Expr;
use std::alloc::{AllocError, Global};

impl<F: Fn(Global, &mut Cursor<'_>, usize, Wanted) -> Result<Got<Expr>, Stop>> Level<F> {
    /// A `return`.
    #[tactic(auto, unfolding(rx_parse_grammar::specs::parser::Expressions::return_value))]
    fn return_value(&self, cursor: &mut Cursor<'_>) -> Result<Got<Expr>, Stop>
        requires { Nests self.now.below (F.pre self.now.expression) (F.post self.now.expression) }
        ensures reads { ReadsAs (got_of plain-Expr) (levels.return_value self.now.below cursor.old) result cursor.new }
        ensures low { IfOk result (λ x. x.height ≤ self.now.below + 1) }
    {
        let token = cursor.expect(Symbol::Return)?;
        if begins_expression(cursor.peek()) {
            let value = self.expression(cursor, Wanted::Whole)?;
            return Ok(return_of(self.alloc, token.span, value)?);
        }
        Ok(bare_return(token.span))
    }

    /// A `break`.
    #[tactic(auto, unfolding(rx_parse_grammar::specs::parser::Expressions::jump))]
    fn break_value(&self, cursor: &mut Cursor<'_>) -> Result<Got<Expr>, Stop>
        requires { Nests self.now.below (F.pre self.now.expression) (F.post self.now.expression) }
        ensures reads { ReadsAs (got_of plain-Expr) (levels.jump self.now.below symbol.Break plain.break cursor.old) result cursor.new }
        ensures low { IfOk result (λ x. x.height ≤ self.now.below + 1) }
    {
        let token = cursor.expect(Symbol::Break)?;
        if cursor.sees(Symbol::Lifetime) {
            let label = cursor.expect(Symbol::Lifetime)?;
            let name = ident(self.alloc, label)?;
            return Ok(break_of(join(token.span, label.span), Some(name)));
        }
        Ok(break_of(token.span, None))
    }

    /// A `continue`.
    #[tactic(auto, unfolding(rx_parse_grammar::specs::parser::Expressions::jump))]
    fn continue_value(&self, cursor: &mut Cursor<'_>) -> Result<Got<Expr>, Stop>
        requires { Nests self.now.below (F.pre self.now.expression) (F.post self.now.expression) }
        ensures reads { ReadsAs (got_of plain-Expr) (levels.jump self.now.below symbol.Continue plain.continue cursor.old) result cursor.new }
        ensures low { IfOk result (λ x. x.height ≤ self.now.below + 1) }
    {
        let token = cursor.expect(Symbol::Continue)?;
        if cursor.sees(Symbol::Lifetime) {
            let label = cursor.expect(Symbol::Lifetime)?;
            let name = ident(self.alloc, label)?;
            return Ok(continue_of(join(token.span, label.span), Some(name)));
        }
        Ok(continue_of(token.span, None))
    }

    /// The symbol of an assignment behind a place of so many levels, and the value on the right.
    #[tactic(auto, unfolding(crate::specs::Levels::value))]
    fn value(
        &self,
        cursor: &mut Cursor<'_>,
        height: usize,
        symbol: Symbol,
    ) -> Result<Got<Expr>, Stop>
        requires { Nests self.now.below (F.pre self.now.expression) (F.post self.now.expression) }
        ensures reads { ReadsAs (got_of plain-Expr) (levels.value self.now.below height symbol cursor.old) result cursor.new }
        ensures low { IfOk result (λ x. x.height ≤ self.now.below) }
        ensures room { IfOk result (λ x. height ≤ self.now.below) }
    {
        if self.below < height {
            return Err(cursor.too_deep());
        }
        cursor.expect(symbol)?;
        self.expression(cursor, Wanted::Whole)
    }

    /// An assignment, by its two sides.
    fn assignment(
        &self,
        how: Setting,
        left: Got<Expr>,
        right: Got<Expr>,
    ) -> Result<Got<Expr>, AllocError>
        requires a { left.height ≤ 1024 }
        requires b { right.height ≤ 1024 }
        ensures tree { IfOk result (λ x. got_of plain-Expr x ≡ node (λ s. levels.set_as self.now.below (setting_of how) s (plain-Expr left.tree) (plain-Expr right.tree)) (words.join left.span right.span) (max left.height right.height)) }
        ensures height { IfOk result (λ x. x.height ≡ (max left.height right.height) + 1) }
    {
        match how {
            Setting::Assigns => assign_of(self.alloc, left, right),
            Setting::Updates(op) => update_of(self.alloc, op, left, right),
        }
    }

    /// An assignment of this kind to what stands on the left.
    #[tactic(auto, unfolding(crate::specs::Levels::set))]
    fn set(
        &self,
        cursor: &mut Cursor<'_>,
        symbol: Symbol,
        how: Setting,
        left: Got<Expr>,
    ) -> Result<Got<Expr>, Stop>
        requires { Nests self.now.below (F.pre self.now.expression) (F.post self.now.expression) }
        ensures reads { ReadsAs (got_of plain-Expr) (levels.set self.now.below (got_of plain-Expr left) symbol (setting_of how) cursor.old) result cursor.new }
        ensures low { IfOk result (λ x. x.height ≤ self.now.below + 1) }
    {
        let height = left.height;
        let (right, left) = keep(left, self.value(cursor, height, symbol))?;
        Ok(self.assignment(how, left, right)?)
    }

    /// An assignment to what stands on the left, or this alone.
    fn set_behind(&self, cursor: &mut Cursor<'_>, left: Got<Expr>) -> Result<Got<Expr>, Stop>
        requires nests { Nests self.now.below (F.pre self.now.expression) (F.post self.now.expression) }
        requires low { left.height ≤ self.now.below + 1 }
        ensures reads { ReadsAs (got_of plain-Expr) (levels.set_by self.now.below (got_of plain-Expr left) (peek cursor.old) (setting (peek cursor.old)) cursor.old) result cursor.new }
        ensures low { IfOk result (λ x. x.height ≤ self.now.below + 1) }
    {
        let symbol = cursor.peek();
        match setting_at(symbol) {
            Some(how) => self.set(cursor, symbol, how, left),
            None => Ok(left),
        }
    }
}

impl<F: Fn(Global, &mut Cursor<'_>, usize, Wanted) -> Result<Got<Expr>, Stop> + Copy> Level<F> {
    /// An operand, or an assignment to it.
    #[tactic(auto, unfolding(rx_parse_grammar::specs::parser::Expressions::set_or_operand))]
    fn set_or_operand(&self, cursor: &mut Cursor<'_>) -> Result<Got<Expr>, Stop>
        requires { Nests self.now.below (F.pre self.now.expression) (F.post self.now.expression) }
        ensures reads { ReadsAs (got_of plain-Expr) (levels.set_or_operand self.now.below cursor.old) result cursor.new }
        ensures low { IfOk result (λ x. x.height ≤ self.now.below + 1) }
    {
        let left = self.at_strength(cursor, true, DISJUNCTION)?;
        self.set_behind(cursor, left)
    }

    /// A whole expression.
    pub fn whole(&self, cursor: &mut Cursor<'_>) -> Result<Got<Expr>, Stop>
        requires { Nests self.now.below (F.pre self.now.expression) (F.post self.now.expression) }
        ensures reads { ReadsAs (got_of plain-Expr) (levels.whole_by self.now.below (peek cursor.old) cursor.old) result cursor.new }
        ensures low { IfOk result (λ x. x.height ≤ self.now.below + 1) }
    {
        match cursor.peek() {
            Symbol::Return => self.return_value(cursor),
            Symbol::Break => self.break_value(cursor),
            Symbol::Continue => self.continue_value(cursor),
            _ => self.set_or_operand(cursor),
        }
    }
}
