//! Whether a function may have a name.

ghost use Rattle.std.specs.Prelude.{◌≡◌, ◌++◌, ◌||◌, codes, IfOk, MatchResult};
ghost use Rattle.std.specs.List.{list_any};
ghost use Rattle.rx_lex.specs.Tok.{tok, toks};
ghost use Rattle.rx_hoist_extraction.specs.Names.{is_among};
ghost use Rattle.rx_hoist_extraction.specs.FreeName as free;
ghost use Rattle.rx_hoist_naming.specs.NamesWords.{identifiers};
ghost use Rattle.rx_hoist_naming.specs.NameTest.{is_identifier_of, is_taken as is_taken_of, RefusedName};

use rx_core::{Text, is_among_texts};
use rx_lex::{Class, Token, Tokens, is_identifier};
use std::alloc::{AllocError, Global};

/// Why a function may not have a name.
#[derive(Clone, Copy, Debug, PartialEq, Eq)]
pub enum NameRefusal {
    /// It is no identifier.
    BadName,
    /// The text has it, or the name of the enum of exits that is made from it, or it has a meaning already.
    NameTaken,
    OutOfMemory,
}

/// Whether a new function of the text with these tokens may have a name.
///
/// # Errors
/// `BadName` where the name is no identifier, and `NameTaken` where it is one that is taken.
pub fn name_free(alloc: Global, tokens: &Tokens<'_>, name: &str) -> Result<(), NameRefusal>
    ensures { MatchResult result (λ _. free.FreeName (identifiers (toks tokens.now.list)) name.now) (λ refusal. RefusedName (identifiers (toks tokens.now.list)) name.now refusal) }
{
    match is_identifier(alloc, name) {
        Ok(true) => {}
        Ok(false) => return Err(NameRefusal::BadName),
        Err(AllocError) => return Err(NameRefusal::OutOfMemory),
    }
    match is_taken(alloc, tokens.list.as_slice(), name) {
        Ok(true) => Err(NameRefusal::NameTaken),
        Ok(false) => Ok(()),
        Err(AllocError) => Err(NameRefusal::OutOfMemory),
    }
}

/// Whether the text with these tokens has the name, or the one made from it, or it has a meaning already.
fn is_taken(alloc: Global, tokens: &[Token<'_>], name: &str) -> Result<bool, AllocError>
    ensures { IfOk result (λ b. b ≡ is_taken_of (identifiers (toks tokens.now)) name.now) }
{
    let exit = exit_name(alloc, name)?;
    let stands = has_identifier(tokens, name) || has_identifier(tokens, exit.as_str());
    Ok(stands || is_reserved(name))
}

/// The name of the enum of exits of a function.
fn exit_name(alloc: Global, name: &str) -> Result<Text, AllocError>
    ensures { IfOk result (λ t. t ≡ codes "Exit_" ++ name.now) }
{
    let mut text = Text::new(alloc, "Exit_")?;
    text.push(name)?;
    Ok(text)
}

/// Whether the token is this identifier.
fn is_identifier_token(token: &Token<'_>, name: &str) -> bool
    ensures { result ≡ is_identifier_of name.now (tok token.now) }
{
    match token.class {
        Class::Identifier => name == token.text,
        Class::Keyword | Class::Lifetime | Class::Number | Class::Format | Class::Mark => false,
    }
}

/// Whether some token is this identifier.
fn some_token(tokens: &[Token<'_>], name: &str) -> bool
    ensures { result ≡ list_any (is_identifier_of name.now) (toks tokens.now) }
{
    for token in tokens {
        if is_identifier_token(token, name) {
            return true;
        }
    }
    false
}

/// Whether the text with these tokens has the name as an identifier.
#[tactic(auto, using(crate::proofs::SomeIdentifier::some_identifier))]
fn has_identifier(tokens: &[Token<'_>], name: &str) -> bool
    ensures { result ≡ is_among name.now (identifiers (toks tokens.now)) }
{
    some_token(tokens, name)
}

static GIVEN_NAMES: [&str; 9] = [
    "main", "rt", "next", "println", "derive", "Clone", "Copy", "Next", "Return",
];

/// Whether the name has a meaning already.
#[tactic(auto, using(crate::proofs::SomeIdentifier::one_is_among))]
fn is_given(name: &str) -> bool
    ensures { result ≡ is_among name.now free.given_names }
{
    is_among_texts(name, &GIVEN_NAMES)
}

/// Whether the name begins as those do that an extraction makes.
#[tactic(auto, using(crate::proofs::Beginnings::begins))]
fn begins_as_made(name: &[u8]) -> bool
    ensures { result ≡ free.begins_with_one free.made_beginnings name.now }
{
    name.starts_with(b"out_")
        || name.starts_with(b"Break_")
        || name.starts_with(b"Continue_")
        || name.starts_with(b"Exit_")
}

/// Whether the name has a meaning already, or is one that an extraction may make.
fn is_reserved(name: &str) -> bool
    ensures { result ≡ free.is_reserved name.now }
{
    is_given(name) || begins_as_made(name.as_bytes())
}
