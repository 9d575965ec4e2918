//! Whether the matches of a function are covered.

ghost use Rattle.std.specs.Prelude.{◌≡◌};
ghost use Rattle.rx_graph_cycles.specs.Reaches.{NoCycle};
ghost use Rattle.rx_typed_declarations.specs.Held.{held_by_each};
ghost use Rattle.rx_typed.specs.PlainTypes.{declarations};
ghost use Rattle.rx_typed.specs.PlainTree.{plain-Expr};
ghost use Rattle.rx_cover.specs.Choices.{Choice as PlainChoice, choices_of};
ghost use Rattle.rx_cover.specs.Finding as finding;
ghost use Rattle.rx_cover.specs.Inhabited.{Inhabited};
ghost use Rattle.rx_cover.specs.Judging as spec;
ghost use Rattle.rx_typed.specs.Types.{Declarations};
ghost use Rattle.std.specs.Prelude.{List, Some};

use crate::judging::{Problem, first_problem};
use crate::value::Value;
use rx_core::Span;
use rx_typed::{Decls, TypedTree};
use std::alloc::{AllocError, Global};

/// Why a match is not covered.
#[derive(Drop)]
pub enum CoverFault {
    /// A match, and a value of its scrutinee's type that no arm matches.
    Missing { at: Span, value: Value },
    /// A match whose product over the tested positions passes 65,536: the product, at most `u64::MAX`.
    TooWide { at: Span, count: u64 },
    OutOfMemory,
}

fn span_of(spans: &[Span], node: usize) -> Span
    ensures { result ≡ spec.span_of spans.now node }
{
    match spans.get(node) {
        Some(span) => *span,
        None => Span { start: 0, end: 0 },
    }
}

fn fault_at(spans: &[Span], node: usize, problem: Problem) -> CoverFault
    ensures { (D : Declarations) (cs : List PlainChoice) → spec.Told D cs (Some (node, problem))
        → spec.ToldAt D spans.now cs result }
{
    let at = span_of(spans, node);
    match problem {
        Problem::Wide(count) => CoverFault::TooWide { at, count },
        Problem::Missing(value) => CoverFault::Missing { at, value },
    }
}

/// Whether every `match` and `let` of a function is covered, and no product of one passes 65,536; else what is wrong
/// with the first, in the order of the text, that is not so. The spans are those of the function's nodes; `inhabited` says
/// of each struct and enum whether it has values.
pub fn covers(
    alloc: Global,
    decls: &Decls,
    inhabited: &[bool],
    spans: &[Span],
    tree: &TypedTree,
) -> Result<(), CoverFault>
    requires finite { NoCycle (held_by_each (declarations decls.now.items)) }
    requires numbered { finding.Numbered (declarations decls.now.items) }
    requires inhabited { Inhabited (declarations decls.now.items) inhabited.now }
    ensures { spec.Answers (declarations decls.now.items) spans.now (choices_of (plain-Expr tree.now.body)) result }
{
    match first_problem(alloc, decls, inhabited, tree) {
        Ok(Some((node, problem))) => Err(fault_at(spans, node, problem)),
        Ok(None) => Ok(()),
        Err(AllocError) => Err(CoverFault::OutOfMemory),
    }
}
