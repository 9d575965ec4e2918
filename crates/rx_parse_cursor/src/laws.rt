//! Laws of tokens, each as the contract of a function that does nothing.

ghost use Rattle.std.specs.Prelude.{ℕ, List};
ghost use Rattle.rx_lex.specs.declared.token.Token.{Token};
ghost use Rattle.rx_lex.specs.Tok.{toks};
ghost use Rattle.rx_lex.specs.Tokens.{Lexes};
ghost use Rattle.rx_parse_cursor.specs.Place.{ArePlaced};

/// Each token of a text stands on a byte at least, as a cursor requires.
pub fn lexed_tokens_are_placed()
    ensures { (bytes : List ℕ) (ts : List Token) → Lexes bytes (toks ts) → ArePlaced ts }
{}
