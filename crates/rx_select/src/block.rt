//! The statements of a block that stand at some places.

ghost use Rattle.std.specs.Prelude.{◌≡◌, ◌<◌, ◌++◌, map};
ghost use Rattle.rx_core.specs.declared.types.Span.{Span as SpanOf};
ghost use Rattle.rx_tree.specs.Lists.{statement_span};
ghost use Rattle.rx_tree.specs.PlainOf.{plain-Stmt, plain-Block};
ghost use Rattle.rx_tree.specs.declared.tree.Block.{out-Block};
ghost use Rattle.rx_select.specs.Parts.{end_of, parts_of};
ghost use Rattle.rx_select.specs.Search.{begins_with, ends_with, beginning, ending, run_of, if_any};

use crate::places::Places;
use rx_core::Span;
use rx_tree::{Block, Stmt};

fn begins(places: Places, span: Span) -> bool
    ensures { result ≡ begins_with places span }
{
    places.before <= span.start && span.start <= places.start
}

fn ends(places: Places, span: Span) -> bool
    ensures { result ≡ ends_with places span }
{
    places.end <= span.end && span.end <= places.after
}

/// Where the last statement ends, or else the place in front of them.
fn end_of_last(at: u64, stmts: &[Stmt]) -> u64
    ensures { result ≡ end_of at (map plain-Stmt stmts.now) }
{
    match stmts.last() {
        Some(last) => last.span.end,
        None => at,
    }
}

/// Where the tail of a block stands, with its parentheses.
fn tail_place_of(block: &Block) -> Option<Span>
    requires { (out-Block block.now).span.start < (out-Block block.now).span.end }
    ensures { map statement_span (map plain-Stmt (out-Block block.now).stmts) ++ if_any result ≡ parts_of (plain-Block block.now) }
{
    let span = block.span;
    if block.tail.is_none() {
        return None;
    }
    let start = end_of_last(span.start + 1, block.stmts.as_slice());
    Some(Span {
        start,
        end: span.end - 1,
    })
}

/// The statement with which the selected tokens begin, the tail counted last.
#[tactic(auto, using(crate::proofs::Forms::span_is))]
fn find_beginning(stmts: &[Stmt], tail: Option<Span>, places: Places) -> Option<usize>
    ensures { result ≡ beginning places 0 (map statement_span (map plain-Stmt stmts.now) ++ if_any tail) }
{
    for i in 0..stmts.len() {
        if begins(places, stmts[i].span) {
            return Some(i);
        }
    }
    match tail {
        Some(span) if begins(places, span) => Some(stmts.len()),
        _ => None,
    }
}

/// The statement with which the selected tokens end, the tail counted last.
#[tactic(auto, using(crate::proofs::Forms::span_is))]
fn find_ending(stmts: &[Stmt], tail: Option<Span>, places: Places) -> Option<usize>
    ensures { result ≡ ending places 0 (map statement_span (map plain-Stmt stmts.now) ++ if_any tail) }
{
    for i in 0..stmts.len() {
        if ends(places, stmts[i].span) {
            return Some(i);
        }
    }
    match tail {
        Some(span) if ends(places, span) => Some(stmts.len()),
        _ => None,
    }
}

/// The first and the last of the statements of a block that the selected tokens make, if they do.
pub fn run_in(block: &Block, places: Places) -> Option<(usize, usize)>
    requires { (out-Block block.now).span.start < (out-Block block.now).span.end }
    ensures { result ≡ run_of places (parts_of (plain-Block block.now)) }
{
    let stmts = block.stmts.as_slice();
    let tail = tail_place_of(block);
    let first = find_beginning(stmts, tail, places)?;
    let last = find_ending(stmts, tail, places)?;
    if first <= last {
        Some((first, last))
    } else {
        None
    }
}
