//! Names that mean more than a name.

ghost use Rattle.std.specs.Prelude.{◌≡◌, codes};
ghost use Rattle.std.specs.Str.{bytes_eq};
ghost use Rattle.rx_lex.specs.Tok.{tok};
ghost use Rattle.rx_parse_grammar.specs.parser.Expressions as spec;

use rx_lex::Token;

/// Whether a word is the name of what prints.
pub fn is_println(word: Token<'_>) -> bool
    ensures { result ≡ bytes_eq (tok word.entry).text (codes "println") }
{
    word.text == "println"
}

/// Whether two names are those of the next number of the input.
pub fn is_input(first: Token<'_>, second: Token<'_>) -> bool
    ensures { result ≡ spec.is_input (tok first.entry) (tok second.entry) }
{
    first.text == "rt" && second.text == "next"
}
