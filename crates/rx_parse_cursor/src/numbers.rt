//! Numbers.

ghost use Rattle.std.specs.Prelude.{◌≡◌, option_map};
ghost use Rattle.std.specs.List.{list_all};
ghost use Rattle.rx_lex.specs.Numerals.{is_digit};
ghost use Rattle.rx_parse_grammar.specs.grammar.Words as words;
ghost use Rattle.rx_parse_grammar.specs.parser.Numbers as spec;
ghost use Rattle.rx_parse_grammar.specs.parser.Steps.{ReadsAs};
ghost use Rattle.rx_parse_cursor.specs.GotOf.{pair_of, numbered_of};

use crate::cursor::Cursor;
use rx_core::{Kind, Span};
use rx_lex::{Numeral, numeral_of};
use rx_parse_grammar::{Stop, Symbol};

/// A number where it stands.
#[derive(Clone, Copy)]
pub struct Numbered {
    pub span: Span,
    pub value: u64,
    pub suffix: Option<Kind>,
}

/// The value and the suffix of a text that is a number.
fn numeral(text: &str) -> Option<Numeral>
    ensures { option_map pair_of result ≡ spec.numeral text.now }
{
    match numeral_of(text) {
        Some(number) => Some(number),
        None => None,
    }
}

/// A number, and where it stands.
#[tactic(auto, unfolding(rx_parse_grammar::specs::parser::Numbers::number))]
pub fn number(cursor: &mut Cursor<'_>) -> Result<Numbered, Stop>
    ensures { ReadsAs numbered_of (spec.number cursor.old) result cursor.new }
{
    match numeral(cursor.token().text) {
        None => Err(cursor.refuse()),
        Some(found) => {
            let token = cursor.expect(Symbol::Number)?;
            Ok(Numbered {
                span: token.span,
                value: found.value,
                suffix: found.suffix,
            })
        }
    }
}

fn is_digit_byte(byte: u8) -> bool
    ensures { result ≡ is_digit byte }
{
    b'0' <= byte && byte <= b'9'
}

fn are_digits(word: &[u8]) -> bool
    ensures { result ≡ list_all is_digit word.now }
{
    for byte in word {
        if !is_digit_byte(*byte) {
            return false;
        }
    }
    true
}

/// Whether a word is decimal digits, the first of which is 0 only where it is the only one.
fn is_index(word: &[u8]) -> bool
    ensures { result ≡ words.is_index word.now }
{
    match word {
        [] => false,
        [only] => is_digit_byte(*only),
        [first, rest @ ..] => { is_digit_byte(*first) && *first != b'0' && are_digits(rest) }
    }
}

/// The value of a text that is an index.
fn index_value(text: &str) -> Option<u64>
    ensures { result ≡ spec.index_value text.now }
{
    if !is_index(text.as_bytes()) {
        return None;
    }
    match numeral_of(text) {
        Some(number) => Some(number.value),
        None => None,
    }
}

/// An index of a tuple, and where it stands.
#[tactic(auto, unfolding(rx_parse_grammar::specs::parser::Numbers::index))]
pub fn index(cursor: &mut Cursor<'_>) -> Result<(u64, Span), Stop>
    ensures { ReadsAs (λ v. v) (spec.index cursor.old) result cursor.new }
{
    match index_value(cursor.token().text) {
        None => Err(cursor.refuse()),
        Some(value) => {
            let token = cursor.expect(Symbol::Number)?;
            Ok((value, token.span))
        }
    }
}
