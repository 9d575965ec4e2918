//! A level of a text. The rules of expressions take the parser of those one level deeper as a parameter, so that each is
//! proved by itself.

ghost use Rattle.std.specs.Prelude.{◌≡◌, ◌≤◌, ◌+◌, IfOk};
ghost use Rattle.rx_tree.specs.PlainOf.{plain-Expr};
ghost use Rattle.rx_parse_grammar.specs.parser.Steps.{ReadsAs};
ghost use Rattle.rx_parse_cursor.specs.GotOf.{got_of};
ghost use Rattle.rx_parse_choices.specs.Wants.{wanted_of};
ghost use Rattle.rx_parse_expressions.specs.Nests.{Nests, level_of};

use rx_parse_choices::{Wanted, begins};
use rx_parse_cursor::{Cursor, Got};
use rx_parse_grammar::Stop;
use rx_tree::Expr;
use std::alloc::Global;

/// A level, below which so many levels may stand.
#[derive(Clone, Copy)]
pub struct Level<F> {
    pub alloc: Global,
    pub below: usize,
    /// The parser of what is one level deeper.
    pub expression: F,
}

impl<F: Fn(Global, &mut Cursor<'_>, usize, Wanted) -> Result<Got<Expr>, Stop>> Level<F> {
    /// What is one level deeper.
    pub fn expression(&self, cursor: &mut Cursor<'_>, wanted: Wanted) -> Result<Got<Expr>, Stop>
        requires { Nests self.now.below (F.pre self.now.expression) (F.post self.now.expression) }
        ensures reads { ReadsAs (got_of plain-Expr) (wanted_of wanted self.now.below cursor.old) result cursor.new }
        ensures low { IfOk result (λ x. x.height ≤ self.now.below) }
    {
        (self.expression)(self.alloc, cursor, self.below, wanted)
    }
}

impl<F: Fn(Global, &mut Cursor<'_>, usize, Wanted) -> Result<Got<Expr>, Stop> + Copy> Level<F> {
    /// What is of this level.
    fn level(&self, cursor: &mut Cursor<'_>, wanted: Wanted) -> Result<Got<Expr>, Stop>
        requires { Nests self.now.below (F.pre self.now.expression) (F.post self.now.expression) }
        ensures reads { ReadsAs (got_of plain-Expr) (level_of wanted self.now.below cursor.old) result cursor.new }
        ensures low { IfOk result (λ x. x.height ≤ self.now.below + 1) }
    {
        match wanted {
            Wanted::Operand(literals, strength) => self.at_strength(cursor, literals, strength),
            Wanted::Whole => self.whole(cursor),
            Wanted::Like => self.like(cursor),
        }
    }
}

/// An expression of at most so many levels.
pub fn expression(
    alloc: Global,
    cursor: &mut Cursor<'_>,
    depth: usize,
    wanted: Wanted,
) -> Result<Got<Expr>, Stop>
    requires { depth ≤ 1024 }
    ensures reads { ReadsAs (got_of plain-Expr) (wanted_of wanted depth cursor.old) result cursor.new }
    ensures low { IfOk result (λ x. x.height ≤ depth) }
{
    if depth == 0 {
        if begins(wanted, cursor.peek()) {
            return Err(cursor.too_deep());
        }
        return Err(cursor.refuse());
    }
    Level {
        alloc,
        below: depth - 1,
        expression,
    }
    .level(cursor, wanted)
}
