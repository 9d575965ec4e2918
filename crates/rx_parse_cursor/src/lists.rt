//! Lists in brackets, written once for all that they are made of: a loop over the elements that a reader reads.

ghost use Rattle.std.specs.Prelude.{◌≡◌, ℕ, ◌≤◌, map, IfOk};
ghost use Rattle.rx_parse_grammar.specs.parser.Steps.{Parser, ReadsAs};
ghost use Rattle.rx_parse_grammar.specs.parser.Steps as steps;
ghost use Rattle.rx_parse_grammar.specs.parser.Lists as lists;
ghost use Rattle.rx_parse_cursor.specs.GotOf.{got_of, found_of, items_of};
ghost use Rattle.rx_parse_cursor.specs.Elements.{another, ended};

use crate::cursor::Cursor;
use crate::got::{Found, Got, Items};
use rx_core::{LetGo, keep};
use rx_parse_grammar::{Stop, Symbol};
use std::alloc::Global;

/// What reads the elements of a list. It is a value, so that it may hold how many levels are left, and the parser of
/// what stands one level deeper.
pub trait Reader {
    type Item: LetGo;

    /// What an element stands for.
    ghost Tree: { Type 0 };

    /// How it stands for that.
    ghost plain: { Self.Item → Tree };

    /// What reading needs.
    ghost ready: { Self → Type 0 };

    /// The most levels that an element has.
    ghost most: { Self → ℕ };

    /// The parser of one element.
    ghost parser: { Self → Parser (steps.Got Tree) };

    /// Reads one.
    fn read(&self, alloc: Global, cursor: &mut Cursor<'_>) -> Result<Got<Self::Item>, Stop>
        requires { ready self.now }
        ensures reads { ReadsAs (got_of plain) (parser self.now cursor.old) result cursor.new }
        ensures low { IfOk result (λ x. x.height ≤ most self.now) };
}

/// One more element, behind those that were found.
fn with_next<R: Reader>(
    alloc: Global,
    cursor: &mut Cursor<'_>,
    reader: &R,
    found: Found<R::Item>,
) -> Result<Found<R::Item>, Stop>
    requires ready { R.ready reader.now }
    requires low { found.height ≤ R.most reader.now }
    ensures reads { ReadsAs (found_of R.plain) (another (R.parser reader.now) (map R.plain found.list) found.height cursor.old) result cursor.new }
    ensures low { IfOk result (λ x. x.height ≤ R.most reader.now) }
{
    let (next, found) = keep(found, reader.read(alloc, cursor))?;
    Ok(found.with(next)?)
}

/// The closing bracket behind the elements.
fn ended<R: Reader>(
    cursor: &mut Cursor<'_>,
    bracket: Symbol,
    found: Found<R::Item>,
) -> Result<Items<R::Item>, Stop>
    ensures reads { ReadsAs (items_of R.plain) (ended bracket (map R.plain found.list) found.height cursor.old) result cursor.new }
    ensures height { IfOk result (λ x. x.height ≡ found.height) }
{
    let (close, found) = keep(found, cursor.expect(bracket))?;
    Ok(found.closed(close.span))
}

/// The elements behind those that were found, and the closing bracket.
pub fn elements<R: Reader>(
    alloc: Global,
    cursor: &mut Cursor<'_>,
    reader: &R,
    bracket: Symbol,
    found: Found<R::Item>,
) -> Result<Items<R::Item>, Stop>
    requires ready { R.ready reader.now }
    requires low { found.height ≤ R.most reader.now }
    ensures reads { ReadsAs (items_of R.plain) (lists.elements bracket (R.parser reader.now) (map R.plain found.list) found.height cursor.old) result cursor.new }
    ensures low { IfOk result (λ x. x.height ≤ R.most reader.now) }
{
    let mut found = found;
    for _turn in 0..cursor.left() {
        if cursor.sees(bracket) {
            return ended::<R>(cursor, bracket, found);
        }
        found = with_next(alloc, cursor, reader, found)?;
        if !cursor.sees(Symbol::Comma) {
            return ended::<R>(cursor, bracket, found);
        }
        cursor.take();
    }
    found.let_go();
    Err(cursor.refuse())
}

/// The elements, of which there is one at least, and the closing bracket.
#[tactic(auto, unfolding(rx_parse_grammar::specs::parser::Lists::some_elements))]
pub fn some_elements<R: Reader>(
    alloc: Global,
    cursor: &mut Cursor<'_>,
    reader: &R,
    bracket: Symbol,
) -> Result<Items<R::Item>, Stop>
    requires { R.ready reader.now }
    ensures reads { ReadsAs (items_of R.plain) (lists.some_elements bracket (R.parser reader.now) cursor.old) result cursor.new }
    ensures low { IfOk result (λ x. x.height ≤ R.most reader.now) }
{
    let found = with_next(alloc, cursor, reader, Found::new(alloc))?;
    if cursor.sees(Symbol::Comma) {
        cursor.take();
        return elements(alloc, cursor, reader, bracket, found);
    }
    ended::<R>(cursor, bracket, found)
}
