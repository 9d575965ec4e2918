//! Names: identifiers, and what stands behind the `'` of a lifetime.

ghost use Rattle.std.specs.Prelude.{◌≡◌, ◌≤◌, ◌&&◌, false, true, length, take, drop, chars, IfOk, MatchOption, IsUtf8};
ghost use Rattle.std.specs.List.{list_all};
ghost use Rattle.rx_lex.specs.Words.{is_ascii_start as is_ascii_start_of, is_start as is_start_of, is_continue as is_continue_of, goes_on, is_name as is_name_of, is_identifier as is_identifier_of, is_lifetime_name as is_lifetime_name_of};
ghost use Rattle.rx_lex.specs.FrontWord.{Continues, begins_start};

use crate::words::is_keyword;
use rx_core::is_same;
use std::alloc::{AllocError, Global};
use unicode_normalization::is_nfc;

fn is_ascii_start(ch: char) -> bool
    ensures { result ≡ is_ascii_start_of ch }
{
    ('a' <= ch && ch <= 'z') || ('A' <= ch && ch <= 'Z') || ch == '_'
}

/// Whether an identifier may begin with the character.
fn is_start(ch: char) -> bool
    ensures { result ≡ is_start_of ch }
{
    is_ascii_start(ch) || ('\u{80}' <= ch && unicode_ident::is_xid_start(ch))
}

/// Whether the character may stand in an identifier behind its first one.
fn is_continue(ch: char) -> bool
    ensures { result ≡ is_continue_of ch }
{
    is_ascii_start(ch)
        || ('0' <= ch && ch <= '9')
        || ('\u{80}' <= ch && unicode_ident::is_xid_continue(ch))
}

fn begins_name(word: &str) -> bool
    ensures { result ≡ begins_start (chars word.now) }
{
    match word.chars().next() {
        Some(first) => is_start(first),
        None => false,
    }
}

/// How many bytes the first character takes, if it may stand in an identifier.
fn first_continue(rest: &str) -> Option<usize>
    ensures { MatchOption result (goes_on rest.now ≡ false) (λ n. Continues n rest.now) }
{
    match rest.chars().next() {
        Some(first) => {
            if is_continue(first) {
                Some(first.len_utf8())
            } else {
                None
            }
        }
        None => None,
    }
}

/// How many bytes the characters take that come first and may stand in an identifier.
pub(crate) fn run_length(rest: &str) -> usize
    ensures within { result ≤ length rest.now }
    ensures text { IsUtf8 (take result rest.now) }
    ensures rest { IsUtf8 (drop result rest.now) }
    ensures run { list_all is_continue_of (chars (take result rest.now)) ≡ true }
    ensures ends { goes_on (drop result rest.now) ≡ false }
{
    let mut at = 0;
    while let Some(length) = first_continue(&rest[at..]) {
        at += length;
    }
    at
}

/// Whether the word is a name: its first character may begin an identifier, the others may stand in one, and it is in the normalization form C.
///
/// # Errors
/// An error if no memory is found for the test of the normalization form.
pub(crate) fn is_name(alloc: Global, word: &str) -> Result<bool, AllocError>
    ensures { IfOk result (λ b. b ≡ is_name_of word.now) }
{
    if !begins_name(word) {
        return Ok(false);
    }
    if run_length(word) < word.len() {
        return Ok(false);
    }
    if word.is_ascii() {
        return Ok(true);
    }
    is_nfc(alloc, word)
}

/// Whether the word is an identifier: a name other than `_` and the keywords.
///
/// # Errors
/// An error if no memory is found for the test of the normalization form.
pub fn is_identifier(alloc: Global, word: &str) -> Result<bool, AllocError>
    ensures { IfOk result (λ b. b ≡ is_identifier_of word.now) }
{
    let bytes = word.as_bytes();
    if is_same(bytes, b"_") {
        return Ok(false);
    }
    if is_keyword(bytes) {
        return Ok(false);
    }
    is_name(alloc, word)
}

/// Whether the word may stand behind the `'` of a lifetime.
pub(crate) fn is_lifetime_name(alloc: Global, word: &str) -> Result<bool, AllocError>
    ensures { IfOk result (λ b. b ≡ is_lifetime_name_of word.now) }
{
    if is_same(word.as_bytes(), b"_") {
        return Ok(true);
    }
    is_identifier(alloc, word)
}
