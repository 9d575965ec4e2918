//! Where tokens stand beside one another, in the order of the text.

ghost use Rattle.std.specs.Prelude.{◌≡◌, ◌≤◌, ◌==◌, ◌&&◌, true, nat_le, nat_lt, take, drop, length, codes};
ghost use Rattle.rx_core.specs.Bytes.{same_bytes};
ghost use Rattle.rx_lex.specs.Tok.{toks};
ghost use Rattle.rx_splice_laws.specs.Places as places;
ghost use Rattle.rx_splice_edits.specs.InOrder.{in_order, in_front, last_slash, behind_first, text_first};

use rx_core::{Span, is_same_text};
use rx_lex::Token;

/// Whether a token is not empty, and begins at a place or later.
fn stands_from(span: Span, from: u64) -> bool
    ensures { result ≡ (nat_le from span.start && nat_lt span.start span.end) }
{
    from <= span.start && span.start < span.end
}

/// Whether tokens are in the order of the text, and none of them is empty.
pub(crate) fn are_in_order(tokens: &[Token<'_>]) -> bool
    ensures { result ≡ in_order 0 (toks tokens.now) }
{
    let mut from = 0;
    for token in tokens {
        if !stands_from(token.span, from) {
            return false;
        }
        from = token.span.end;
    }
    true
}

/// How many tokens begin in front of a place.
fn count_in_front(tokens: &[Token<'_>], at: u64) -> usize
    requires { in_order 0 (toks tokens.now) ≡ true }
    ensures bound { result ≤ length tokens.now }
    ensures front { toks (take result tokens.now) ≡ in_front at (toks tokens.now) }
    ensures rest { toks (drop result tokens.now) ≡ places.tokens_from at (toks tokens.now) }
{
    tokens.partition_point(
        |token: &Token<'_>| -> bool
            ensures { result ≡ nat_lt token.now.span.start at }
        { token.span.start < at },
    )
}

/// The tokens that begin at a place or later.
pub(crate) fn tokens_from<'a, 't>(tokens: &'a [Token<'t>], at: u64) -> &'a [Token<'t>]
    requires { in_order 0 (toks tokens.now) ≡ true }
    ensures { toks result.now ≡ places.tokens_from at (toks tokens.now) }
{
    &tokens[count_in_front(tokens, at)..]
}

/// The tokens behind the first, where it begins at a place.
fn behind_first<'a, 't>(tokens: &'a [Token<'t>], at: u64) -> &'a [Token<'t>]
    ensures { toks result.now ≡ behind_first at (toks tokens.now) }
{
    match tokens {
        [first, rest @ ..] if first.span.start == at => rest,
        _ => &[],
    }
}

/// The tokens behind the one that begins at a place.
fn behind<'a, 't>(tokens: &'a [Token<'t>], at: u64) -> &'a [Token<'t>]
    requires { in_order 0 (toks tokens.now) ≡ true }
    ensures { toks result.now ≡ places.behind at (toks tokens.now) }
{
    behind_first(tokens_from(tokens, at), at)
}

/// Where the first of some tokens begins; the place where there is none.
pub(crate) fn first_start(tokens: &[Token<'_>], at: u64) -> u64
    ensures { result ≡ places.first_start at (toks tokens.now) }
{
    match tokens {
        [first, ..] => first.span.start,
        [] => at,
    }
}

/// Where the token begins that follows the one at a place.
pub(crate) fn next_start(tokens: &[Token<'_>], at: u64) -> u64
    requires { in_order 0 (toks tokens.now) ≡ true }
    ensures { result ≡ places.next_start (toks tokens.now) at }
{
    first_start(behind(tokens, at), at)
}

/// Whether the first of some tokens is the mark `.`.
fn begins_dot(tokens: &[Token<'_>]) -> bool
    ensures { result ≡ places.begins_mark (codes ".") (toks tokens.now) }
{
    match tokens {
        [first, ..] => is_same_text(first.text, "."),
        [] => false,
    }
}

/// Whether the token that follows the one at a place is the mark `.`.
pub(crate) fn before_dot(tokens: &[Token<'_>], at: u64) -> bool
    requires { in_order 0 (toks tokens.now) ≡ true }
    ensures { result ≡ places.before_dot (toks tokens.now) at }
{
    begins_dot(behind(tokens, at))
}

/// Whether a token is a mark `/` that ends at a place.
fn is_slash(token: &Token<'_>, at: u64) -> bool
    ensures { result ≡ ((token.now.span.end == at) && same_bytes token.now.text.now (codes "/")) }
{
    token.span.end == at && is_same_text(token.text, "/")
}

/// Whether the last of some tokens is a mark `/` that ends at a place.
fn ends_slash(tokens: &[Token<'_>], at: u64) -> bool
    ensures { result ≡ last_slash at (toks tokens.now) }
{
    match tokens.last() {
        Some(last) => is_slash(last, at),
        None => false,
    }
}

/// Whether a mark `/` ends where the token at a place begins.
pub(crate) fn after_slash(tokens: &[Token<'_>], at: u64) -> bool
    requires { in_order 0 (toks tokens.now) ≡ true }
    ensures { result ≡ places.after_slash (toks tokens.now) at }
{
    ends_slash(&tokens[..count_in_front(tokens, at)], at)
}

/// The end of the last of the tokens `)` at the front, or what is given.
fn past_closing(tokens: &[Token<'_>], end: u64) -> u64
    ensures { result ≡ places.past_closing end (toks tokens.now) }
{
    let mut past = end;
    for token in tokens {
        if !is_same_text(token.text, ")") {
            return past;
        }
        past = token.span.end;
    }
    past
}

/// The end of what ends at a place with the parentheses round it.
pub(crate) fn with_parentheses(tokens: &[Token<'_>], end: u64) -> u64
    requires { in_order 0 (toks tokens.now) ≡ true }
    ensures { result ≡ places.with_parentheses (toks tokens.now) end }
{
    past_closing(tokens_from(tokens, end), end)
}

/// The first word, where it begins at a place.
fn text_first<'t>(tokens: &[Token<'t>], at: u64) -> &'t str
    ensures { result.now ≡ text_first at (toks tokens.now) }
{
    match tokens {
        [first, ..] if first.span.start == at => first.text,
        _ => "",
    }
}

/// The word that begins at a place.
pub(crate) fn text_at<'t>(tokens: &[Token<'t>], at: u64) -> &'t str
    requires { in_order 0 (toks tokens.now) ≡ true }
    ensures { result.now ≡ places.text_at (toks tokens.now) at }
{
    text_first(tokens_from(tokens, at), at)
}
