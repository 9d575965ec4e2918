//! The run that a range of bytes selects.

ghost use Rattle.std.specs.Prelude.{◌≡◌, ◌<◌, ◌^◌, IfOk, MatchResult};
ghost use Rattle.rx_tree.specs.PlainOf.{plain-Program};
ghost use Rattle.rx_lex.specs.Tok.{toks};
ghost use Rattle.rx_typed_runs.specs.declared.runs.RunPos.{RunPos as RunPosOf};
ghost use Rattle.rx_select.specs.RunOf.{RunOf};
ghost use Rattle.rx_select.specs.OneText.{OneText};
ghost use Rattle.rx_select.specs.declared.selecting.SelectFault.TheVariants.{OutOfMemory};

use crate::children::{child_around, is_tail_of, item_around, run_at};
use crate::places::places_in;
use rx_core::{List, Position, Span};
use rx_lex::Tokens;
use rx_tree::Program;
use rx_tree_operations::Node;
use rx_typed_runs::RunPos;
use std::alloc::{AllocError, Global};

/// Why there is no run.
#[derive(Clone, Copy, Debug, PartialEq, Eq)]
pub enum SelectFault {
    /// The range selects none.
    NotARun,
    OutOfMemory,
}

/// The run that the bytes from `start` to `end`, which is not included, select in a program, by the tokens of its text.
/// Any two numbers may be asked for.
pub fn select(
    alloc: Global,
    tokens: &Tokens<'_>,
    program: &Program,
    start: u64,
    end: u64,
) -> Result<RunPos, SelectFault>
    requires one_text { OneText (toks tokens.now.list) tokens.now.length (plain-Program program.now) }
    requires short { tokens.now.length < 2 ^ 32 }
    ensures run { IfOk result (λ r. RunOf tokens.now.length (toks tokens.now.list) (plain-Program program.now) start end r) }
    ensures only { (r : RunPosOf) → RunOf tokens.now.length (toks tokens.now.list) (plain-Program program.now) start end r → MatchResult result (λ q. q ≡ r) (λ fault. fault ≡ OutOfMemory) }
{
    if start > end || end > tokens.length {
        return Err(SelectFault::NotARun);
    }
    let places = match places_in(tokens, start, end) {
        Some(places) => places,
        None => return Err(SelectFault::NotARun),
    };
    let (function, item) = match item_around(program.items.as_slice(), places) {
        Some(found) => found,
        None => return Err(SelectFault::NotARun),
    };
    let mut node = Node::Item(item);
    let mut path = List::new(alloc);
    'down: loop {
        if let Some((first, last)) = run_at(node, places) {
            return Ok(RunPos {
                function,
                block: Position {
                    item: function,
                    path,
                },
                first: first as u32,
                last: last as u32,
                tail: is_tail_of(last, node),
                span: Span {
                    start: places.start,
                    end: places.end,
                },
            });
        }
        let (number, next) = match child_around(node, places) {
            Some(found) => found,
            None => return Err(SelectFault::NotARun),
        };
        match path.push(number) {
            Ok(()) => (),
            Err(AllocError) => return Err(SelectFault::OutOfMemory),
        }
        node = next;
    }
}
