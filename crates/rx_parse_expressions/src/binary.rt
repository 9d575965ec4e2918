//! Operators with two operands.

ghost use Rattle.std.specs.Prelude.{◌≡◌, ◌≤◌, ◌<◌, ◌+◌, ◌-◌, length, IfOk};
ghost use Rattle.rx_tree.specs.PlainOf.{plain-Expr};
ghost use Rattle.rx_parse_grammar.specs.parser.Steps.{ReadsAs};
ghost use Rattle.rx_parse_grammar.specs.parser.Expressions as spec;
ghost use Rattle.rx_parse_cursor.specs.GotOf.{got_of};
ghost use Rattle.rx_parse_choices.specs.Rows.{turns};
ghost use Rattle.rx_parse_expressions.specs.Nests.{Nests};
ghost use Rattle.rx_parse_expressions.specs.Levels as levels;

use crate::level::Level;
use rx_core::keep;
use rx_parse_choices::{Wanted, operator_at, turns};
use rx_parse_cursor::{Cursor, Got};
use rx_parse_grammar::{Stop, Symbol};
use rx_parse_nodes::binary_of;
use rx_tree::{BinaryOp, Expr};
use std::alloc::Global;

impl<F: Fn(Global, &mut Cursor<'_>, usize, Wanted) -> Result<Got<Expr>, Stop>> Level<F> {
    /// The operator behind an operand of so many levels, and the operand on the right.
    #[tactic(auto, unfolding(crate::specs::Levels::right))]
    fn right(
        &self,
        cursor: &mut Cursor<'_>,
        literals: bool,
        strength: usize,
        height: usize,
        symbol: Symbol,
    ) -> Result<Got<Expr>, Stop>
        requires { Nests self.now.below (F.pre self.now.expression) (F.post self.now.expression) }
        ensures reads { ReadsAs (got_of plain-Expr) (levels.right self.now.below literals strength height symbol cursor.old) result cursor.new }
        ensures low { IfOk result (λ x. x.height ≤ self.now.below) }
        ensures room { IfOk result (λ x. height ≤ self.now.below) }
    {
        if self.below < height {
            return Err(cursor.too_deep());
        }
        cursor.expect(symbol)?;
        self.expression(cursor, Wanted::Operand(literals, strength))
    }

    /// The operator and the operand on the right, behind what stands on the left.
    #[tactic(auto, unfolding(crate::specs::Levels::longer))]
    fn longer(
        &self,
        cursor: &mut Cursor<'_>,
        literals: bool,
        strength: usize,
        left: Got<Expr>,
        symbol: Symbol,
        op: BinaryOp,
    ) -> Result<Got<Expr>, Stop>
        requires { Nests self.now.below (F.pre self.now.expression) (F.post self.now.expression) }
        ensures reads { ReadsAs (got_of plain-Expr) (levels.longer self.now.below literals strength (got_of plain-Expr left) symbol op cursor.old) result cursor.new }
        ensures low { IfOk result (λ x. x.height ≤ self.now.below + 1) }
    {
        let height = left.height;
        let read = self.right(cursor, literals, strength, height, symbol);
        let (right, left) = keep(left, read)?;
        Ok(binary_of(self.alloc, op, left, right)?)
    }

    /// The operators of a strength and their operands, each of the strength below, behind the first operand.
    fn chain(
        &self,
        cursor: &mut Cursor<'_>,
        literals: bool,
        strength: usize,
        left: Got<Expr>,
    ) -> Result<Got<Expr>, Stop>
        requires nests { Nests self.now.below (F.pre self.now.expression) (F.post self.now.expression) }
        requires some { 0 < strength }
        requires low { left.height ≤ self.now.below + 1 }
        ensures reads { ReadsAs (got_of plain-Expr) (spec.chain (levels.binary_step self.now.below literals (strength - 1)) (turns (strength - 1) (length cursor.old)) (got_of plain-Expr left) cursor.old) result cursor.new }
        ensures low { IfOk result (λ x. x.height ≤ self.now.below + 1) }
    {
        let mut left = left;
        for _turn in 0..turns(strength - 1, cursor.left()) {
            let symbol = cursor.peek();
            match operator_at(strength, symbol) {
                Some(op) => left = self.longer(cursor, literals, strength - 1, left, symbol, op)?,
                None => return Ok(left),
            }
        }
        Ok(left)
    }
}

impl<F: Fn(Global, &mut Cursor<'_>, usize, Wanted) -> Result<Got<Expr>, Stop> + Copy> Level<F> {
    /// An operand of this strength: behind an operand of no operator those of each strength in turn, the strongest first, so
    /// that a level of the text takes one frame here and not one for each strength.
    pub fn at_strength(
        &self,
        cursor: &mut Cursor<'_>,
        literals: bool,
        strength: usize,
    ) -> Result<Got<Expr>, Stop>
        requires { Nests self.now.below (F.pre self.now.expression) (F.post self.now.expression) }
        ensures reads { ReadsAs (got_of plain-Expr) (levels.at_strength self.now.below literals strength cursor.old) result cursor.new }
        ensures low { IfOk result (λ x. x.height ≤ self.now.below + 1) }
    {
        let mut left = self.unary(cursor, literals)?;
        for below in 0..strength {
            left = self.chain(cursor, literals, below + 1, left)?;
        }
        Ok(left)
    }
}
