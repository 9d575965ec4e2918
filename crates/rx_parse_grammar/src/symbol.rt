//! What a token is to the grammar.

ghost use Rattle.std.specs.Prelude.{◌≡◌, true, map, [], ◌∷◌};
ghost use Rattle.std.specs.Str.{bytes_eq};
ghost use Rattle.rx_lex.specs.Tok.{tok};
ghost use Rattle.rx_parse_grammar.specs.parser.Symbols as spec;

use rx_lex::{Class, Token};

/// What a token is to the grammar.
#[derive(Clone, Copy, PartialEq, Eq)]
pub enum Symbol {
    Name,
    /// A lifetime other than `'_`.
    Lifetime,
    /// `'_`
    Anonymous,
    Number,
    Format,
    Mod,
    Struct,
    Enum,
    Fn,
    Let,
    Mut,
    If,
    Else,
    Match,
    Loop,
    While,
    Break,
    Continue,
    Return,
    True,
    False,
    Bool,
    U8,
    U32,
    U64,
    I32,
    I64,
    Arrow,
    FatArrow,
    ColonColon,
    EqualEqual,
    NotEqual,
    LessEqual,
    GreaterEqual,
    AndAnd,
    OrOr,
    PlusEqual,
    MinusEqual,
    StarEqual,
    SlashEqual,
    PercentEqual,
    OpenParen,
    CloseParen,
    OpenBrace,
    CloseBrace,
    OpenBracket,
    CloseBracket,
    Less,
    Greater,
    Comma,
    Semicolon,
    Colon,
    Dot,
    Equal,
    Plus,
    Minus,
    Star,
    Slash,
    Percent,
    Bang,
    Ampersand,
    Hash,
    Underscore,
    /// A token that stands in no production.
    Other,
    /// No token is one.
    End,
}

/// Whether both are the same bytes. On words this short, which mostly differ in their first byte, `==` takes several times as long.
fn is_same_word(mut a: &[u8], mut b: &[u8]) -> bool
    ensures { result ≡ bytes_eq a.entry.now b.entry.now }
{
    while let ([first, a_rest @ ..], [second, b_rest @ ..]) = (a, b) {
        if *first != *second {
            return false;
        }
        a = a_rest;
        b = b_rest;
    }
    a.is_empty() && b.is_empty()
}

/// The symbol of a word in a table, or `Other`.
fn lookup(mut table: &[(&str, Symbol)], word: &[u8]) -> Symbol
    ensures { result ≡ spec.lookup (map (λ k. (k.0.now, k.1)) table.entry.now) word.now }
{
    while let [entry, rest @ ..] = table {
        if is_same_word(entry.0.as_bytes(), word) {
            return entry.1;
        }
        table = rest;
    }
    Symbol::Other
}

/// The symbol of the keyword with this first letter and this rest: at most three have the same first letter.
#[tactic(auto, unfolding(crate::specs::parser::Symbols::keyword))]
fn keyword_of(first: u8, rest: &[u8]) -> Symbol
    ensures { result ≡ spec.keyword (first ∷ rest.now) }
{
    match first {
        b'b' => lookup(&[("reak", Symbol::Break), ("ool", Symbol::Bool)], rest),
        b'c' => lookup(&[("ontinue", Symbol::Continue)], rest),
        b'e' => lookup(&[("num", Symbol::Enum), ("lse", Symbol::Else)], rest),
        b'f' => lookup(&[("n", Symbol::Fn), ("alse", Symbol::False)], rest),
        b'i' => lookup(
            &[("f", Symbol::If), ("32", Symbol::I32), ("64", Symbol::I64)],
            rest,
        ),
        b'l' => lookup(&[("et", Symbol::Let), ("oop", Symbol::Loop)], rest),
        b'm' => lookup(
            &[
                ("od", Symbol::Mod),
                ("ut", Symbol::Mut),
                ("atch", Symbol::Match),
            ],
            rest,
        ),
        b'r' => lookup(&[("eturn", Symbol::Return)], rest),
        b's' => lookup(&[("truct", Symbol::Struct)], rest),
        b't' => lookup(&[("rue", Symbol::True)], rest),
        b'u' => lookup(
            &[("8", Symbol::U8), ("32", Symbol::U32), ("64", Symbol::U64)],
            rest,
        ),
        b'w' => lookup(&[("hile", Symbol::While)], rest),
        _ => Symbol::Other,
    }
}

#[tactic(auto, unfolding(crate::specs::parser::Symbols::keyword))]
fn keyword(word: &str) -> Symbol
    ensures { result ≡ spec.keyword word.now }
{
    match word.as_bytes() {
        [first, rest @ ..] => keyword_of(*first, rest),
        [] => Symbol::Other,
    }
}

/// The symbol of the mark of this byte.
#[tactic(auto, unfolding(crate::specs::parser::Symbols::mark))]
fn mark_of_one(byte: u8) -> Symbol
    ensures { result ≡ spec.mark (byte ∷ []) }
{
    match byte {
        b'(' => Symbol::OpenParen,
        b')' => Symbol::CloseParen,
        b'{' => Symbol::OpenBrace,
        b'}' => Symbol::CloseBrace,
        b'[' => Symbol::OpenBracket,
        b']' => Symbol::CloseBracket,
        b'<' => Symbol::Less,
        b'>' => Symbol::Greater,
        b',' => Symbol::Comma,
        b';' => Symbol::Semicolon,
        b':' => Symbol::Colon,
        b'.' => Symbol::Dot,
        b'=' => Symbol::Equal,
        b'+' => Symbol::Plus,
        b'-' => Symbol::Minus,
        b'*' => Symbol::Star,
        b'/' => Symbol::Slash,
        b'%' => Symbol::Percent,
        b'!' => Symbol::Bang,
        b'&' => Symbol::Ampersand,
        b'#' => Symbol::Hash,
        b'_' => Symbol::Underscore,
        _ => Symbol::Other,
    }
}

/// The symbol of the mark of these two bytes.
#[tactic(auto, unfolding(crate::specs::parser::Symbols::mark))]
fn mark_of_two(first: u8, second: u8) -> Symbol
    ensures { result ≡ spec.mark (first ∷ second ∷ []) }
{
    match (first, second) {
        (b'-', b'>') => Symbol::Arrow,
        (b'=', b'>') => Symbol::FatArrow,
        (b':', b':') => Symbol::ColonColon,
        (b'=', b'=') => Symbol::EqualEqual,
        (b'!', b'=') => Symbol::NotEqual,
        (b'<', b'=') => Symbol::LessEqual,
        (b'>', b'=') => Symbol::GreaterEqual,
        (b'&', b'&') => Symbol::AndAnd,
        (b'|', b'|') => Symbol::OrOr,
        (b'+', b'=') => Symbol::PlusEqual,
        (b'-', b'=') => Symbol::MinusEqual,
        (b'*', b'=') => Symbol::StarEqual,
        (b'/', b'=') => Symbol::SlashEqual,
        (b'%', b'=') => Symbol::PercentEqual,
        _ => Symbol::Other,
    }
}

#[tactic(auto, using(crate::proofs::WordLengths::no_mark))]
fn mark(word: &str) -> Symbol
    ensures { result ≡ spec.mark word.now }
{
    match word.as_bytes() {
        [byte] => mark_of_one(*byte),
        [first, second] => mark_of_two(*first, *second),
        _ => Symbol::Other,
    }
}

fn lifetime(word: &str) -> Symbol
    ensures { result ≡ spec.lifetime word.now }
{
    if word == "'_" {
        Symbol::Anonymous
    } else {
        Symbol::Lifetime
    }
}

/// What a token is to the grammar.
#[tactic(auto, unfolding(crate::specs::parser::Symbols::symbol_of))]
pub fn symbol_of(token: &Token<'_>) -> Symbol
    ensures { result ≡ spec.symbol_of (tok token.now) }
{
    match token.class {
        Class::Identifier => Symbol::Name,
        Class::Keyword => keyword(token.text),
        Class::Lifetime => lifetime(token.text),
        Class::Number => Symbol::Number,
        Class::Format => Symbol::Format,
        Class::Mark => mark(token.text),
    }
}

/// Whether two tokens are the same to the grammar.
pub fn same_symbol(a: Symbol, b: Symbol) -> bool
    ensures value { result ≡ spec.same_symbol a b }
    ensures same { result ≡ true → a ≡ b }
{
    a == b
}
