//! The tokens of a text, in one pass.

ghost use Rattle.std.specs.Prelude.{◌≡◌, ℕ, ◌≤◌, List as ListOf, length, take, drop, IfOk, IfErr, MatchResult, IsUtf8};
ghost use Rattle.rx_lex.specs.Tok.{Tok, tok, toks};
ghost use Rattle.rx_lex.specs.Tokens.{Lexes, Tokens as TokensOf, token_at as token_of};
ghost use Rattle.rx_lex.specs.FrontWord.{WordOf};
ghost use Rattle.rx_lex.specs.Lexing.{FaultOf};
ghost use Rattle.rx_lex.specs.declared.lexer.LexFault.TheVariants.{OutOfMemory};

use crate::front::{Word, front_word};
use crate::scan::gap_length;
use crate::token::Token;
use rx_core::{List, Span};
use std::alloc::Global;
use thiserror::Error;

/// The tokens of a text, and how many bytes the text has.
#[derive(Drop)]
pub struct Tokens<'t> {
    pub list: List<Token<'t>>,
    pub length: u64,
}

/// Why bytes have no list of tokens. Places are counted in bytes.
#[derive(Debug, Drop, Error)]
pub enum LexFault {
    #[error("the bytes from {at} on are not UTF-8")]
    NotText { at: u64 },
    #[error("no token begins at byte {at}")]
    BadToken { at: u64 },
    #[error("out of memory")]
    OutOfMemory,
}

/// The tokens of a text, without blanks and comments.
///
/// # Errors
/// `NotText` where the bytes stop to be UTF-8, and `BadToken` at the first place where neither a blank, a comment nor a token begins.
pub fn lex(alloc: Global, bytes: &[u8]) -> Result<Tokens<'_>, LexFault>
    ensures tokens { IfOk result (λ t. Lexes bytes.now (toks t.list)) }
    ensures length { IfOk result (λ t. t.length ≡ length bytes.now) }
    ensures fault { IfErr result (λ e. FaultOf e bytes.now) }
    ensures only { (ts : ListOf Tok) → Lexes bytes.now ts → MatchResult result (λ t. toks t.list ≡ ts) (λ e. e ≡ OutOfMemory) }
{
    match std::str::from_utf8(bytes) {
        Ok(text) => match read_tokens(alloc, text) {
            Ok(list) => Ok(Tokens {
                list,
                length: bytes.len() as u64,
            }),
            Err(fault) => Err(fault),
        },
        Err(fault) => Err(LexFault::NotText {
            at: fault.valid_up_to() as u64,
        }),
    }
}

fn read_tokens(alloc: Global, text: &str) -> Result<List<Token<'_>>, LexFault>
    ensures tokens { IfOk result (λ l. TokensOf 0 text.now (toks l)) }
    ensures fault { IfErr result (λ e. FaultOf e text.now) }
{
    let mut list = List::new(alloc);
    let mut at = 0;
    while at < text.len() {
        let rest = &text[at..];
        if let Some(length) = gap_length(rest.as_bytes()) {
            at += length;
            continue;
        }
        let Ok(first) = front_word(alloc, rest) else {
            return Err(LexFault::OutOfMemory);
        };
        let Some(word) = first else {
            return Err(LexFault::BadToken { at: at as u64 });
        };
        if list.push(token_at(text, at, word)).is_err() {
            return Err(LexFault::OutOfMemory);
        }
        at += word.length;
    }
    Ok(list)
}

/// The token of the word that stands at a place.
fn token_at(text: &str, at: usize, word: Word) -> Token<'_>
    requires within { at ≤ length text.now }
    requires text { IsUtf8 (drop at text.now) }
    requires word { WordOf word.class word.length (drop at text.now) }
    ensures { tok result ≡ token_of at word.class (take word.length (drop at text.now)) }
{
    let end = at + word.length;
    Token {
        class: word.class,
        span: Span {
            start: at as u64,
            end: end as u64,
        },
        text: &text[at..end],
    }
}
