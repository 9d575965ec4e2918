//! What stands behind an expression in a block, and behind the value of an arm.

ghost use Rattle.std.specs.Prelude.{◌≡◌};
ghost use Rattle.rx_parse_grammar.specs.parser.Steps.{ReadsAs};
ghost use Rattle.rx_parse_choices.specs.Ends as ends;

use rx_core::Span;
use rx_parse_cursor::Cursor;
use rx_parse_grammar::{Stop, Symbol};

/// What stands behind an expression in a block.
#[derive(Clone, Copy)]
pub enum After {
    Semicolon(Span),
    /// The closing brace of the block.
    Closing(Span),
    Nothing,
}

/// What stands behind an expression that ends in a block.
pub fn after_like(cursor: &mut Cursor<'_>) -> Result<After, Stop>
    ensures { ReadsAs (λ a. a) (ends.after_like cursor.old) result cursor.new }
{
    match cursor.peek() {
        Symbol::Semicolon => {
            let token = cursor.expect(Symbol::Semicolon)?;
            Ok(After::Semicolon(token.span))
        }
        Symbol::CloseBrace => {
            let close = cursor.expect(Symbol::CloseBrace)?;
            Ok(After::Closing(close.span))
        }
        _ => Ok(After::Nothing),
    }
}

/// What stands behind any other expression.
///
/// # Errors
/// `Syntax` where neither `;` nor the closing brace stands here.
pub fn after_whole(cursor: &mut Cursor<'_>) -> Result<After, Stop>
    ensures { ReadsAs (λ a. a) (ends.after_whole cursor.old) result cursor.new }
{
    if cursor.sees(Symbol::Semicolon) {
        let token = cursor.expect(Symbol::Semicolon)?;
        return Ok(After::Semicolon(token.span));
    }
    let close = cursor.expect(Symbol::CloseBrace)?;
    Ok(After::Closing(close.span))
}

/// Goes past the comma behind the value of an arm, if one stands there, and says whether a further arm follows.
/// Only behind a value that ends in a block (`like`) one follows without a comma.
pub fn goes_on(cursor: &mut Cursor<'_>, like: bool) -> bool
    ensures more { result ≡ ends.follows like cursor.old }
    ensures after { cursor.new ≡ ends.behind_comma cursor.old }
{
    if cursor.sees(Symbol::Comma) {
        cursor.take();
        return !cursor.sees(Symbol::CloseBrace);
    }
    like && !cursor.sees(Symbol::CloseBrace)
}
