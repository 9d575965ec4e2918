//! The identifiers of a text, and its lifetimes and labels.

ghost use Rattle.std.specs.Prelude.{◌≡◌, ◌∷◌, ◌++◌, [], IfOk};
ghost use Rattle.rx_lex.specs.Tok.{tok, toks};
ghost use Rattle.rx_hoist_naming.specs.NamesWords as spec;

use rx_core::{List, Name, keep, pushed};
use rx_lex::{Class, Token};
use std::alloc::{AllocError, Global};

/// The identifiers, in the order of the text.
pub fn identifiers(alloc: Global, tokens: &[Token<'_>]) -> Result<List<Name>, AllocError>
    ensures { IfOk result (λ names. names ≡ spec.identifiers (toks tokens.now)) }
{
    let mut names = List::new(alloc);
    for token in tokens {
        names = with_identifier(alloc, names, token)?;
    }
    Ok(names)
}

/// The lifetimes and labels, each with its `'`, in the order of the text.
pub fn lifetimes(alloc: Global, tokens: &[Token<'_>]) -> Result<List<Name>, AllocError>
    ensures { IfOk result (λ names. names ≡ spec.lifetimes (toks tokens.now)) }
{
    let mut names = List::new(alloc);
    for token in tokens {
        names = with_lifetime(alloc, names, token)?;
    }
    Ok(names)
}

/// The names, and behind them the word of a token that is an identifier.
fn with_identifier(
    alloc: Global,
    names: List<Name>,
    token: &Token<'_>,
) -> Result<List<Name>, AllocError>
    ensures { IfOk result (λ all. all ≡ names ++ spec.word_of spec.is_identifier_class (tok token.now)) }
{
    match token.class {
        Class::Identifier => with_word(alloc, names, token.text),
        Class::Keyword | Class::Lifetime | Class::Number | Class::Format | Class::Mark => Ok(names),
    }
}

/// The names, and behind them the word of a token that is a lifetime or label.
fn with_lifetime(
    alloc: Global,
    names: List<Name>,
    token: &Token<'_>,
) -> Result<List<Name>, AllocError>
    ensures { IfOk result (λ all. all ≡ names ++ spec.word_of spec.is_lifetime_class (tok token.now)) }
{
    match token.class {
        Class::Lifetime => with_word(alloc, names, token.text),
        Class::Identifier | Class::Keyword | Class::Number | Class::Format | Class::Mark => Ok(
            names,
        ),
    }
}

/// The names, and a word behind them.
fn with_word(alloc: Global, names: List<Name>, word: &str) -> Result<List<Name>, AllocError>
    ensures { IfOk result (λ all. all ≡ names ++ word.now ∷ []) }
{
    let (name, names) = keep(names, Name::new(alloc, word))?;
    pushed(names, name)
}
