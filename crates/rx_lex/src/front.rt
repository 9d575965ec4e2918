//! The word at the front of a text.

ghost use Rattle.std.specs.Prelude.{◌≡◌, ℕ, ◌≤◌, ◌<◌, ◌&&◌, true, false, nat_le, List, length, take, drop, chars, IfOk, MatchOption};
ghost use Rattle.std.specs.List.{list_all};
ghost use Rattle.rx_core.specs.Bytes.{same_bytes, is_one_of};
ghost use Rattle.rx_lex.specs.declared.token.Class.{Class as ClassOf};
ghost use Rattle.rx_lex.specs.declared.token.Class.TheVariants.{Mark};
ghost use Rattle.rx_lex.specs.Words.{IsWord, is_continue, goes_on, marks, format_text};
ghost use Rattle.rx_lex.specs.Tokens.{Gap, Front};
ghost use Rattle.rx_lex.specs.Stands.{stands_alone};
ghost use Rattle.rx_lex.specs.FrontWord.{WordOf, NoWord, begins_comment as begins_comment_of, begins_quote as begins_quote_of};

use crate::identifier::{is_lifetime_name, is_name, run_length};
use crate::numeral::{is_digit_byte, numeral_in};
use crate::token::Class;
use crate::words::{is_keyword, is_mark_of_one, is_mark_of_two};
use rx_core::is_same;
use std::alloc::{AllocError, Global};

/// A word, by its class and how many bytes it has.
#[derive(Clone, Copy)]
pub(crate) struct Word {
    pub class: Class,
    pub length: usize,
}

/// The longest word that comes first. `None` if none does.
///
/// # Errors
/// An error if no memory is found for the test of the normalization form.
pub(crate) fn front_word(alloc: Global, rest: &str) -> Result<Option<Word>, AllocError>
    ensures { IfOk result (λ o. MatchOption o (NoWord rest.now) (λ x. WordOf x.class x.length rest.now)) }
{
    let run = run_length(rest);
    if run > 0 {
        return match run_class(alloc, &rest[..run])? {
            Some(class) => Ok(Some(Word { class, length: run })),
            None => Ok(None),
        };
    }
    let bytes = rest.as_bytes();
    if begins_quote(bytes) {
        return lifetime(alloc, rest);
    }
    if has_format(bytes) {
        return Ok(Some(Word {
            class: Class::Format,
            length: 4,
        }));
    }
    match mark_length(bytes) {
        Some(length) => Ok(Some(Word {
            class: Class::Mark,
            length,
        })),
        None => Ok(None),
    }
}

/// The class of a word made of characters of identifiers. `None` if it begins with a digit and is no number of 64 bits, or is no name.
fn run_class(alloc: Global, run: &str) -> Result<Option<Class>, AllocError>
    requires not_empty { 0 < length run.now }
    requires continues { list_all is_continue (chars run.now) ≡ true }
    ensures { IfOk result (λ o. MatchOption o ((c : ClassOf) → IsWord c run.now → ⊥) (λ c. IsWord c run.now)) }
{
    let bytes = run.as_bytes();
    if is_digit_byte(bytes[0]) {
        return match numeral_in(bytes) {
            Some(_) => Ok(Some(Class::Number)),
            None => Ok(None),
        };
    }
    if is_keyword(bytes) {
        return Ok(Some(Class::Keyword));
    }
    if is_same(bytes, b"_") {
        return Ok(Some(Class::Mark));
    }
    if is_name(alloc, run)? {
        return Ok(Some(Class::Identifier));
    }
    Ok(None)
}

/// Whether `'` comes first.
fn begins_quote(rest: &[u8]) -> bool
    ensures { result ≡ begins_quote_of rest.now }
{
    rest.len() > 0 && rest[0] == b'\''
}

/// The lifetime that comes first, behind its `'`.
fn lifetime(alloc: Global, rest: &str) -> Result<Option<Word>, AllocError>
    requires { begins_quote_of rest.now ≡ true }
    ensures { IfOk result (λ o. MatchOption o (NoWord rest.now) (λ x. WordOf x.class x.length rest.now)) }
{
    let name = &rest[1..];
    let run = run_length(name);
    if is_lifetime_name(alloc, &name[..run])? {
        return Ok(Some(Word {
            class: Class::Lifetime,
            length: 1 + run,
        }));
    }
    Ok(None)
}

/// Whether `"{}"` comes first.
fn has_format(rest: &[u8]) -> bool
    ensures { result ≡ (nat_le 4 (length rest.now) && same_bytes (take 4 rest.now) format_text) }
{
    rest.len() >= 4 && is_same(&rest[..4], b"\"{}\"")
}

/// Whether the first two bytes are a mark.
fn has_long_mark(rest: &[u8]) -> bool
    ensures { result ≡ (nat_le 2 (length rest.now) && is_one_of (take 2 rest.now) marks) }
{
    match rest {
        [first, second, ..] => is_mark_of_two(*first, *second),
        _ => false,
    }
}

/// Whether the first byte is a mark.
fn has_short_mark(rest: &[u8]) -> bool
    ensures { result ≡ (nat_le 1 (length rest.now) && is_one_of (take 1 rest.now) marks) }
{
    match rest {
        [byte, ..] => is_mark_of_one(*byte),
        [] => false,
    }
}

/// Whether `//` or `/*` comes first.
fn begins_comment(rest: &[u8]) -> bool
    ensures { result ≡ begins_comment_of rest.now }
{
    rest.len() >= 2 && rest[0] == b'/' && (rest[1] == b'*' || rest[1] == b'/')
}

/// The length of the longest mark that comes first.
fn mark_length(rest: &[u8]) -> Option<usize>
    requires { goes_on rest.now ≡ false }
    ensures { MatchOption result (((q : List ℕ) → Gap rest.now q → ⊥) → (w r : List ℕ) → Front Mark w r rest.now → ⊥) (λ n. WordOf Mark n rest.now) }
{
    if has_long_mark(rest) {
        return Some(2);
    }
    if begins_comment(rest) {
        return None;
    }
    if has_short_mark(rest) {
        return Some(1);
    }
    None
}
