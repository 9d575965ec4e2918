//! The edit of the list of lifetimes in angle brackets.

ghost use Rattle.std.specs.Prelude.{◌≡◌, ◌++◌, map, OnOk, IfOk};
ghost use Rattle.rx_tree.specs.PlainOf.{plain-Func};
ghost use Rattle.rx_lex.specs.Tok.{toks};
ghost use Rattle.rx_print_spelling.specs.Pieces.{flat};
ghost use Rattle.rx_print_spelling.specs.Items.{in_angles, bound_pieces};
ghost use Rattle.rx_splice_laws.specs.Edits.{written};
ghost use Rattle.rx_splice_laws.specs.Places as places;
ghost use Rattle.rx_compact_text.specs.CompactedText as spec;
ghost use Rattle.rx_compact_edits.specs.Writing as writing;

use rx_core::{Span, Text, is_same_text};
use rx_lex::Token;
use rx_print_parts::push_angles;
use rx_splice_walk::EditList;
use rx_tree::{BoundLifetime, Func, Ident};
use std::alloc::{AllocError, Global};

/// The tokens from the first on that begins at a place or later.
fn tokens_from<'a, 't>(tokens: &'a [Token<'t>], at: u64) -> &'a [Token<'t>]
    ensures { toks result.now ≡ places.tokens_from at (toks tokens.now) }
{
    let mut left = tokens;
    while let [first, rest @ ..] = left {
        if at <= first.span.start {
            return left;
        }
        left = rest;
    }
    left
}

/// Where the first of some tokens begins; the place where there is none.
fn first_start(tokens: &[Token<'_>], at: u64) -> u64
    ensures { result ≡ places.first_start at (toks tokens.now) }
{
    match tokens {
        [first, ..] => first.span.start,
        [] => at,
    }
}

/// Where the first mark `>` ends; the place where there is none.
fn closed_at(tokens: &[Token<'_>], at: u64) -> u64
    ensures { result ≡ spec.closed_at at (toks tokens.now) }
{
    for token in tokens {
        if is_same_text(token.text, ">") {
            return token.span.end;
        }
    }
    at
}

/// Where the last of a lifetime and its bounds ends.
#[tactic(auto, using(crate::proofs::Ending::ending))]
fn last_end(lifetime: &BoundLifetime) -> u64
    ensures { result ≡ spec.last_end lifetime.now lifetime.now.bounds }
{
    let mut end = lifetime.name.span.end;
    for bound in lifetime.bounds.as_slice() {
        end = bound.span.end;
    }
    end
}

/// Where the last lifetime ends that a list names.
#[tactic(auto, using(crate::proofs::Ending::ending))]
fn list_end(first: &BoundLifetime, rest: &[BoundLifetime]) -> u64
    ensures { result ≡ spec.list_end first.now rest.now }
{
    let mut end = last_end(first);
    for lifetime in rest {
        end = last_end(lifetime);
    }
    end
}

/// Where the list stands behind a function's name, in which the last lifetime ends at a place.
fn angles(tokens: &[Token<'_>], name: &Ident, end: u64) -> Span
    ensures { result ≡ writing.angles_to (toks tokens.now) name.now end }
{
    let from = name.span.end;
    Span {
        start: first_start(tokens_from(tokens, from), from),
        end: closed_at(tokens_from(tokens, end), end),
    }
}

/// Lifetimes in angle brackets; nothing where there are none.
fn list_text(alloc: Global, lifetimes: &[BoundLifetime]) -> Result<Text, AllocError>
    ensures { IfOk result (λ it. it ≡ flat (in_angles (map bound_pieces lifetimes.now))) }
{
    let mut text = Text::empty(alloc);
    push_angles(&mut text, lifetimes)?;
    Ok(text)
}

/// Adds the edit of a function's list of lifetimes, where it has one: others stand in its place.
#[tactic(auto, using(crate::proofs::Writing::writing))]
pub(crate) fn push_list(
    alloc: Global,
    out: &mut EditList,
    tokens: &[Token<'_>],
    function: &Func,
    lifetimes: &[BoundLifetime],
) -> Result<(), AllocError>
    ensures { OnOk result (out.new ≡ out.old ++ map written (spec.list_edits (toks tokens.now) (plain-Func function.now) function.now.lifetimes lifetimes.now)) }
{
    match function.lifetimes.as_slice() {
        [first, rest @ ..] => {
            let place = angles(tokens, &function.name, list_end(first, rest));
            out.replace(place, list_text(alloc, lifetimes)?)
        }
        [] => Ok(()),
    }
}
