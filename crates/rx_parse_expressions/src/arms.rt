//! The arms of a `match`.

ghost use Rattle.std.specs.Prelude.{◌≡◌, ◌≤◌, ◌+◌, max, map, length, IfOk};
ghost use Rattle.rx_tree.specs.PlainOf.{plain-Pattern, plain-Expr, plain-Arm};
ghost use Rattle.rx_parse_grammar.specs.parser.Steps.{ReadsAs};
ghost use Rattle.rx_parse_cursor.specs.GotOf.{got_of, items_of};
ghost use Rattle.rx_parse_expressions.specs.Nests.{Nests};
ghost use Rattle.rx_parse_expressions.specs.Arms as arms;
ghost use Rattle.rx_parse_expressions.specs.ArmOf.{value_of, turn_of};
ghost use Rattle.rx_parse_expressions.specs.Likes as likes;

use crate::level::Level;
use rx_core::{LetGo, keep};
use rx_parse_choices::{Wanted, begins_like, condition, goes_on};
use rx_parse_cursor::{Cursor, Found, Got, Items, join, larger};
use rx_parse_grammar::{Stop, Symbol};
use rx_parse_nodes::match_of;
use rx_parse_types::pattern;
use rx_tree::{Arm, Expr, Pattern};
use std::alloc::Global;

/// The value of an arm, and whether a further arm follows.
struct ArmValue {
    value: Got<Expr>,
    more: bool,
}

/// The arms that were found, and whether a further arm follows.
struct ArmsTurn {
    found: Found<Arm>,
    more: bool,
}

/// An arm, by its parts.
#[tactic(auto, using(rx_tree::proofs::Rules::expression_rules))]
fn arm_of(pattern: Got<Pattern>, value: Got<Expr>) -> Got<Arm>
    ensures tree { plain-Arm result.tree ≡ (plain-Pattern pattern.tree, plain-Expr value.tree) }
    ensures height { result.height ≡ max pattern.height value.height }
{
    let height = larger(pattern.height, value.height);
    let span = join(pattern.span, value.span);
    Got {
        tree: Arm {
            pattern: pattern.tree,
            body: value.tree,
        },
        height,
        span,
    }
}

/// The closing brace behind the arms.
fn closed(cursor: &mut Cursor<'_>, found: Found<Arm>) -> Result<Items<Arm>, Stop>
    ensures reads { ReadsAs (items_of plain-Arm) (arms.closing (map plain-Arm found.list) found.height cursor.old) result cursor.new }
    ensures height { IfOk result (λ x. x.height ≡ found.height) }
{
    let (close, found) = keep(found, cursor.expect(Symbol::CloseBrace))?;
    Ok(found.closed(close.span))
}

impl<F: Fn(Global, &mut Cursor<'_>, usize, Wanted) -> Result<Got<Expr>, Stop>> Level<F> {
    /// `=>`, the value of an arm, and the comma behind it.
    #[tactic(auto, unfolding(crate::specs::Arms::value))]
    fn arm_value(&self, cursor: &mut Cursor<'_>) -> Result<ArmValue, Stop>
        requires nests { Nests self.now.below (F.pre self.now.expression) (F.post self.now.expression) }
        ensures reads { ReadsAs value_of (arms.value self.now.below cursor.old) result cursor.new }
        ensures low { IfOk result (λ v. v.value.height ≤ self.now.below) }
    {
        cursor.expect(Symbol::FatArrow)?;
        if begins_like(cursor.peek()) {
            let value = self.expression(cursor, Wanted::Like)?;
            let more = goes_on(cursor, true);
            return Ok(ArmValue { value, more });
        }
        let value = self.expression(cursor, Wanted::Whole)?;
        let more = goes_on(cursor, false);
        Ok(ArmValue { value, more })
    }

    /// One more arm behind those that were found.
    #[tactic(auto, unfolding(crate::specs::Arms::arm))]
    fn arm(&self, cursor: &mut Cursor<'_>, found: Found<Arm>) -> Result<ArmsTurn, Stop>
        requires nests { Nests self.now.below (F.pre self.now.expression) (F.post self.now.expression) }
        requires found { found.height ≤ self.now.below }
        ensures reads { ReadsAs turn_of (arms.arm self.now.below (map plain-Arm found.list) found.height cursor.old) result cursor.new }
        ensures low { IfOk result (λ t. t.found.height ≤ self.now.below) }
    {
        let (pattern, found) = keep(found, pattern(self.alloc, cursor, self.below))?;
        let (read, (found, pattern)) = keep((found, pattern), self.arm_value(cursor))?;
        let ArmValue { value, more } = read;
        let found = found.with(arm_of(pattern, value))?;
        Ok(ArmsTurn { found, more })
    }

    /// The arms behind those that were found, and the closing brace.
    fn arms(&self, cursor: &mut Cursor<'_>, found: Found<Arm>) -> Result<Items<Arm>, Stop>
        requires nests { Nests self.now.below (F.pre self.now.expression) (F.post self.now.expression) }
        requires found { found.height ≤ self.now.below }
        ensures reads { ReadsAs (items_of plain-Arm) (arms.arms_from self.now.below (length cursor.old) (map plain-Arm found.list) found.height cursor.old) result cursor.new }
        ensures low { IfOk result (λ x. x.height ≤ self.now.below) }
    {
        let mut found = found;
        for _turn in 0..cursor.left() {
            let read = self.arm(cursor, found)?;
            let ArmsTurn { found: all, more } = read;
            if !more {
                return closed(cursor, all);
            }
            found = all;
        }
        found.let_go();
        Err(cursor.refuse())
    }

    /// The arms in their braces.
    #[tactic(auto, unfolding(rx_parse_grammar::specs::parser::Expressions::arms))]
    fn arm_list(&self, cursor: &mut Cursor<'_>) -> Result<Items<Arm>, Stop>
        requires nests { Nests self.now.below (F.pre self.now.expression) (F.post self.now.expression) }
        ensures reads { ReadsAs (items_of plain-Arm) (likes.arm_list self.now.below cursor.old) result cursor.new }
        ensures low { IfOk result (λ x. x.height ≤ self.now.below) }
    {
        cursor.expect(Symbol::OpenBrace)?;
        self.arms(cursor, Found::new(self.alloc))
    }

    /// A `match`.
    #[tactic(auto, unfolding(rx_parse_grammar::specs::parser::Expressions::match_value))]
    pub fn match_value(&self, cursor: &mut Cursor<'_>) -> Result<Got<Expr>, Stop>
        requires nests { Nests self.now.below (F.pre self.now.expression) (F.post self.now.expression) }
        ensures reads { ReadsAs (got_of plain-Expr) (likes.match_value self.now.below cursor.old) result cursor.new }
        ensures low { IfOk result (λ x. x.height ≤ self.now.below + 1) }
    {
        if self.below < 1 {
            return Err(cursor.too_deep());
        }
        let token = cursor.expect(Symbol::Match)?;
        let value = self.expression(cursor, condition())?;
        let (items, value) = keep(value, self.arm_list(cursor))?;
        Ok(match_of(self.alloc, token.span, value, items)?)
    }
}
