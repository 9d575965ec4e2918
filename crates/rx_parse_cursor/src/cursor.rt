//! A place in a list of tokens.

ghost use Rattle.std.specs.Prelude.{◌≡◌, ◌<◌, ◌∷◌, length};
ghost use Rattle.rx_lex.specs.Tok.{tok, toks};
ghost use Rattle.rx_parse_grammar.specs.declared.symbol.Symbol.TheVariants as symbol;
ghost use Rattle.rx_parse_grammar.specs.grammar.Words.{second_ampersand};
ghost use Rattle.rx_parse_cursor.specs.Place.{ArePlaced};
ghost use Rattle.rx_parse_grammar.specs.parser.Symbols as spec;
ghost use Rattle.rx_parse_grammar.specs.parser.Steps as steps;
ghost use Rattle.rx_parse_grammar.specs.parser.Steps.{ReadsAs};

use rx_core::Span;
use rx_lex::{Class, Token};
use rx_parse_grammar::{Stop, Symbol, same_symbol, symbol_of};
use std::marker::Model;

/// A place in a list of tokens. Contracts see it as the tokens from there on.
#[derive(Drop)]
pub struct Cursor<'t> {
    tokens: &'t [Token<'t>],
    at: usize,
    /// Whether the first `&` of the next token, a `&&`, is behind.
    split: bool,
}

impl<'t> Model for Cursor<'t> {
    ghost use Rattle.std.specs.Prelude.{List};
    ghost use Rattle.rx_lex.specs.Tok.{Tok};

    ghost Value = { List Tok };

    ghost use Rattle.rx_parse_cursor.specs.Place.{rest_of, IsWithin};

    ghost view = { rest_of };

    ghost invariant = { IsWithin };
}

/// What stands for the end.
fn no_token<'t>() -> Token<'t>
    ensures { tok result ≡ spec.none }
{
    Token {
        class: Class::Mark,
        span: Span { start: 0, end: 0 },
        text: "",
    }
}

/// The second `&` of a `&&`.
fn second_ampersand<'t>(token: Token<'t>) -> Token<'t>
    requires { token.span.start < token.span.end }
    ensures { tok result ≡ second_ampersand (tok token.entry) }
{
    Token {
        class: Class::Mark,
        span: Span {
            start: token.span.start + 1,
            end: token.span.end,
        },
        text: "&",
    }
}

impl<'t> Cursor<'t> {
    /// At the first of these tokens.
    pub fn new(tokens: &'t [Token<'t>]) -> Cursor<'t>
        requires { ArePlaced tokens.now }
        ensures { result ≡ toks tokens.now }
    {
        Cursor {
            tokens,
            at: 0,
            split: false,
        }
    }

    /// How many tokens are left.
    pub fn left(&self) -> usize
        ensures { result ≡ length self.now }
    {
        self.tokens.len() - self.at
    }

    /// The next token, or a token that stands for the end.
    pub fn token(&self) -> Token<'t>
        ensures { tok result ≡ spec.head self.now }
    {
        match self.tokens.get(self.at) {
            Some(token) => {
                if self.split {
                    return second_ampersand(*token);
                }
                *token
            }
            None => no_token(),
        }
    }

    /// The symbol of the next token.
    pub fn peek(&self) -> Symbol
        ensures { result ≡ spec.peek self.now }
    {
        match self.tokens.get(self.at) {
            Some(token) => {
                if self.split {
                    return Symbol::Ampersand;
                }
                symbol_of(token)
            }
            None => Symbol::End,
        }
    }

    /// Goes past the next token, and gives it.
    pub fn take(&mut self) -> Token<'t>
        ensures token { tok result ≡ spec.head self.old }
        ensures after { self.new ≡ spec.tail self.old }
    {
        match self.tokens.get(self.at) {
            Some(token) => {
                let split = self.split;
                self.at += 1;
                self.split = false;
                if split {
                    return second_ampersand(*token);
                }
                *token
            }
            None => no_token(),
        }
    }

    /// Goes past the first `&` of a `&&`, and gives the whole.
    pub fn halve(&mut self) -> Token<'t>
        requires { spec.peek self.old ≡ symbol.AndAnd }
        ensures token { tok result ≡ spec.head self.old }
        ensures after { self.new ≡ second_ampersand (spec.head self.old) ∷ spec.tail self.old }
    {
        let token = self.token();
        self.split = true;
        token
    }

    /// The refusal of the next token.
    pub fn refuse(&self) -> Stop
        ensures { result ≡ Stop.Syntax (length self.now) }
    {
        Stop::Syntax(self.left())
    }

    /// The refusal of the next token, where the levels are too few for it.
    pub fn too_deep(&self) -> Stop
        ensures { result ≡ Stop.TooDeep (length self.now) }
    {
        Stop::TooDeep(self.left())
    }

    /// Whether the next token has this symbol.
    pub fn sees(&self, symbol: Symbol) -> bool
        ensures { result ≡ steps.sees symbol self.now }
    {
        same_symbol(self.peek(), symbol)
    }

    /// Goes past a token with this symbol.
    #[tactic(auto, unfolding(rx_parse_grammar::specs::parser::Steps::expect))]
    pub fn expect(&mut self, symbol: Symbol) -> Result<Token<'t>, Stop>
        ensures { ReadsAs tok (steps.expect symbol self.old) result self.new }
    {
        if self.sees(symbol) {
            Ok(self.take())
        } else {
            Err(self.refuse())
        }
    }

    /// Whether the next token is a name that is this word.
    #[tactic(auto, unfolding(rx_parse_grammar::specs::parser::Steps::sees_word))]
    pub fn sees_word(&self, word: &str) -> bool
        ensures { result ≡ steps.sees_word word.now self.now }
    {
        self.sees(Symbol::Name) && self.token().text == word
    }

    /// Goes past a name that is this word.
    #[tactic(auto, unfolding(rx_parse_grammar::specs::parser::Steps::expect_word))]
    pub fn expect_word(&mut self, word: &str) -> Result<Token<'t>, Stop>
        ensures { ReadsAs tok (steps.expect_word word.now self.old) result self.new }
    {
        if self.sees_word(word) {
            Ok(self.take())
        } else {
            Err(self.refuse())
        }
    }
}
