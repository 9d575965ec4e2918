//! The places of the tokens that a range of bytes selects.

ghost use Rattle.std.specs.Prelude.{◌≡◌};
ghost use Rattle.rx_lex.specs.Tok.{toks};
ghost use Rattle.rx_select.specs.Search.{front, back, places};

use rx_lex::{Token, Tokens};

/// Where the selected tokens stand: where the first begins and the last ends, and where the token in front of them ends
/// and the one behind them begins, or the text.
#[derive(Clone, Copy)]
pub struct Places {
    pub before: u64,
    pub start: u64,
    pub end: u64,
    pub after: u64,
}

/// Where the last token that ends by a place ends, and where the next one begins, if there is one.
fn front_of(tokens: &[Token<'_>], start: u64) -> Option<(u64, u64)>
    ensures { result ≡ front start 0 (toks tokens.now) }
{
    let mut before = 0;
    for t in tokens {
        if t.span.end <= start {
            before = t.span.end;
        } else {
            return Some((before, t.span.start));
        }
    }
    None
}

/// Where the last token that begins before a place ends, and where the next one begins.
fn back_of(tokens: &[Token<'_>], end: u64, length: u64) -> (u64, u64)
    ensures { result ≡ back end 0 length (toks tokens.now) }
{
    let mut last = 0;
    for t in tokens {
        if t.span.start < end {
            last = t.span.end;
        } else {
            return (last, t.span.start);
        }
    }
    (last, length)
}

/// The places of the tokens that a range selects; `None` where it selects none or cuts one.
pub fn places_in(tokens: &Tokens<'_>, start: u64, end: u64) -> Option<Places>
    ensures { result ≡ places start end tokens.now.length (toks tokens.now.list) }
{
    let list = tokens.list.as_slice();
    let (before, first) = front_of(list, start)?;
    let (last, after) = back_of(list, end, tokens.length);
    if start <= first && first < last && last <= end {
        Some(Places {
            before,
            start: first,
            end: last,
            after,
        })
    } else {
        None
    }
}
