//! What goes on behind a primary: fields and parts of tuples.

ghost use Rattle.std.specs.Prelude.{◌≡◌, ◌≤◌, ◌+◌, length, IfOk};
ghost use Rattle.rx_tree.specs.PlainOf.{plain-Expr};
ghost use Rattle.rx_parse_grammar.specs.parser.Steps.{ReadsAs};
ghost use Rattle.rx_parse_grammar.specs.parser.Expressions as spec;
ghost use Rattle.rx_parse_cursor.specs.GotOf.{got_of};
ghost use Rattle.rx_parse_choices.specs.Members.{member_of};
ghost use Rattle.rx_parse_expressions.specs.Members as tree;
ghost use Rattle.rx_parse_expressions.specs.Levels as levels;

use rx_core::keep;
use rx_parse_choices::{Member, member_behind};
use rx_parse_cursor::{Cursor, Got};
use rx_parse_grammar::{Stop, Symbol};
use rx_parse_nodes::{field_of, part_of};
use rx_tree::Expr;
use std::alloc::{AllocError, Global};

/// What stands on the left, with a member behind it.
fn with_member(alloc: Global, left: Got<Expr>, member: Member<'_>) -> Result<Got<Expr>, AllocError>
    requires { left.height ≤ 1024 }
    ensures tree { IfOk result (λ x. got_of plain-Expr x ≡ tree.with_member (got_of plain-Expr left) (member_of member.entry)) }
    ensures height { IfOk result (λ x. x.height ≡ left.height + 1) }
{
    match member {
        Member::Field(name) => field_of(alloc, left, name),
        Member::Part(value, place) => part_of(alloc, left, value, place),
    }
}

/// A member of what stands on the left.
#[tactic(auto, unfolding(crate::specs::Members::member))]
fn one_member(
    alloc: Global,
    cursor: &mut Cursor<'_>,
    below: usize,
    left: Got<Expr>,
) -> Result<Got<Expr>, Stop>
    requires below { below ≤ 1023 }
    ensures reads { ReadsAs (got_of plain-Expr) (tree.member below (got_of plain-Expr left) cursor.old) result cursor.new }
    ensures low { IfOk result (λ x. x.height ≤ below + 1) }
{
    let height = left.height;
    let (read, left) = keep(left, member_behind(cursor, below, height))?;
    Ok(with_member(alloc, left, read)?)
}

/// The members behind what stands on the left.
pub fn members(
    alloc: Global,
    cursor: &mut Cursor<'_>,
    below: usize,
    left: Got<Expr>,
) -> Result<Got<Expr>, Stop>
    requires below { below ≤ 1023 }
    requires low { left.height ≤ below + 1 }
    ensures reads { ReadsAs (got_of plain-Expr) (spec.chain (levels.member_step below) (length cursor.old) (got_of plain-Expr left) cursor.old) result cursor.new }
    ensures low { IfOk result (λ x. x.height ≤ below + 1) }
{
    let mut left = left;
    for _turn in 0..cursor.left() {
        match cursor.peek() {
            Symbol::Dot => left = one_member(alloc, cursor, below, left)?,
            _ => return Ok(left),
        }
    }
    Ok(left)
}
