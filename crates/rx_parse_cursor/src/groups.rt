//! What stands in parentheses, written once for types, patterns and expressions.

ghost use Rattle.std.specs.Prelude.{◌≡◌, ◌≤◌, ◌+◌, List, IfOk};
ghost use Rattle.rx_core.specs.declared.types.Span as span;
ghost use Rattle.rx_lex.specs.Tok.{tok};
ghost use Rattle.rx_parse_grammar.specs.parser.Steps.{ReadsAs};
ghost use Rattle.rx_parse_grammar.specs.parser.Lists as lists;
ghost use Rattle.rx_parse_cursor.specs.GotOf.{got_of};
ghost use Rattle.rx_parse_cursor.specs.declared.groups.Grouped.TheVariants as grouped;
ghost use Rattle.rx_parse_cursor.specs.GroupedOf.{grouped_of, HasMost};

use crate::cursor::Cursor;
use crate::got::{Found, Got, Items, join};
use crate::lists::{Reader, elements};
use rx_core::{Span, keep};
use rx_lex::Token;
use rx_parse_grammar::{Stop, Symbol};
use std::alloc::Global;

/// What stood in parentheses.
pub enum Grouped<T> {
    /// One thing alone, whose levels and place are those with the parentheses.
    Alone(Got<T>),
    /// The parts of a tuple, and its place.
    Parts(Items<T>, Span),
}

/// One thing with parentheses round it, which count a level.
fn alone<T>(first: Got<T>, span: Span) -> Grouped<T>
    requires { first.height ≤ 1024 }
    ensures { result ≡ grouped.Alone (record { tree = first.tree; height = first.height + 1; span = span }) }
{
    let Got {
        tree,
        height,
        span: _,
    } = first;
    Grouped::Alone(Got {
        tree,
        height: height + 1,
        span,
    })
}

/// What stands in parentheses, from behind the first part.
#[tactic(auto, unfolding(rx_parse_grammar::specs::parser::Steps::expect))]
fn group_behind<R: Reader>(
    alloc: Global,
    cursor: &mut Cursor<'_>,
    reader: &R,
    opening: Token<'_>,
    first: Got<R::Item>,
) -> Result<Grouped<R::Item>, Stop>
    requires ready { R.ready reader.now }
    requires most { R.most reader.now ≤ 1024 }
    requires first { first.height ≤ R.most reader.now }
    ensures reads { (tuple : span.Span → List R.Tree → R.Tree) → ReadsAs (grouped_of R.plain tuple) (lists.group_by (R.parser reader.now) tuple (tok opening.entry) (got_of R.plain first) cursor.old) result cursor.new }
    ensures low { IfOk result (HasMost (R.most reader.now)) }
{
    if cursor.sees(Symbol::Comma) {
        cursor.take();
        let found = Found::new(alloc).with(first)?;
        let items = elements(alloc, cursor, reader, Symbol::CloseParen, found)?;
        let span = join(opening.span, items.close);
        return Ok(Grouped::Parts(items, span));
    }
    let (close, first) = keep(first, cursor.expect(Symbol::CloseParen))?;
    Ok(alone(first, join(opening.span, close.span)))
}

/// What stands in parentheses: nothing, which is the empty tuple, one thing alone, or the parts of a tuple.
#[tactic(auto, unfolding(rx_parse_grammar::specs::parser::Lists::group))]
pub fn group<R: Reader>(
    alloc: Global,
    cursor: &mut Cursor<'_>,
    reader: &R,
) -> Result<Grouped<R::Item>, Stop>
    requires ready { R.ready reader.now }
    requires most { R.most reader.now ≤ 1024 }
    ensures reads { (tuple : span.Span → List R.Tree → R.Tree) → ReadsAs (grouped_of R.plain tuple) (lists.group (R.parser reader.now) tuple cursor.old) result cursor.new }
    ensures low { IfOk result (HasMost (R.most reader.now)) }
{
    let open = cursor.expect(Symbol::OpenParen)?;
    if cursor.sees(Symbol::CloseParen) {
        let close = cursor.expect(Symbol::CloseParen)?;
        let items = Found::new(alloc).closed(close.span);
        return Ok(Grouped::Parts(items, join(open.span, close.span)));
    }
    let first = reader.read(alloc, cursor)?;
    group_behind(alloc, cursor, reader, open, first)
}
