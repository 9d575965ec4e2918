//! What stands behind a dot.

ghost use Rattle.std.specs.Prelude.{◌≡◌, ◌≤◌, IfOk};
ghost use Rattle.rx_parse_grammar.specs.parser.Symbols.{peek};
ghost use Rattle.rx_parse_grammar.specs.parser.Steps.{ReadsAs};
ghost use Rattle.rx_parse_choices.specs.Members as tree;

use rx_core::Span;
use rx_lex::Token;
use rx_parse_cursor::{Cursor, index};
use rx_parse_grammar::{Stop, Symbol};

/// What stands behind a dot: a field by its name, or a part of a tuple by its number.
#[derive(Clone, Copy)]
pub enum Member<'t> {
    Field(Token<'t>),
    Part(u64, Span),
}

/// What stands behind the dot.
fn member_named<'t>(cursor: &mut Cursor<'t>) -> Result<Member<'t>, Stop>
    ensures { ReadsAs tree.member_of (tree.behind_by (peek cursor.old) cursor.old) result cursor.new }
{
    match cursor.peek() {
        Symbol::Name => {
            let name = cursor.expect(Symbol::Name)?;
            Ok(Member::Field(name))
        }
        Symbol::Number => {
            let (value, place) = index(cursor)?;
            Ok(Member::Part(value, place))
        }
        _ => Err(cursor.refuse()),
    }
}

/// The dot, and what stands behind it. Before it stands what has `height` levels, and `below` may stand below.
///
/// # Errors
/// `TooDeep` where `height` is above `below`, and `Syntax` where no member stands here.
#[tactic(auto, unfolding(crate::specs::Members::behind))]
pub fn member_behind<'t>(
    cursor: &mut Cursor<'t>,
    below: usize,
    height: usize,
) -> Result<Member<'t>, Stop>
    ensures reads { ReadsAs tree.member_of (tree.behind height below cursor.old) result cursor.new }
    ensures room { IfOk result (λ m. height ≤ below) }
{
    if below < height {
        return Err(cursor.too_deep());
    }
    cursor.expect(Symbol::Dot)?;
    member_named(cursor)
}
