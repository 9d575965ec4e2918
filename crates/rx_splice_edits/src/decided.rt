//! A run with its plan, in the program of a text.

ghost use Rattle.std.specs.Prelude.{◌≡◌, true};
ghost use Rattle.rx_lex.specs.Tok.{toks};
ghost use Rattle.rx_splice_edits.specs.InOrder.{in_order};

use rx_core::Span;
use rx_hoist_plan::NamedPlan;
use rx_lex::Token;
use rx_tree::Program;

/// A run with its plan, in the program of a text with these tokens. The run's span is from its first token to its last.
#[derive(Clone, Copy)]
pub(crate) struct Decided<'p> {
    pub program: &'p Program,
    pub tokens: &'p [Token<'p>],
    pub plan: &'p NamedPlan,
    pub run: Span,
    ghost ordered: { in_order 0 (toks tokens.now) ≡ true },
}
