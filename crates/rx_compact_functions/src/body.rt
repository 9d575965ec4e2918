//! A body with other lifetimes in the types of its `let`s.

ghost use Rattle.std.specs.Prelude.{◌≡◌, IfOk};
ghost use Rattle.rx_tree.specs.PlainOf.{plain-Block};
ghost use Rattle.rx_hoist_extraction.specs.NewFunction as new_functions;
ghost use Rattle.rx_compact_lifetimes.specs.Rewritten as spec;
ghost use Rattle.rx_compact_functions.specs.Parts.{parts_in};

use rx_compact_lifetimes::{Rewriting, rewritten_optional};
use rx_core::{Boxed, Kind, List, Name, Span};
use rx_hoist_changes::{Loops, Names, Places, block, breaks, continues, returns};
use rx_hoist_made::{RunParts, copied_lifetimes, variable};
use rx_tree::{Block, Expr, Ident, Pattern, TypeText};
use std::alloc::{AllocError, Global};

/// The types of `let`s get other lifetimes.
#[derive(Clone, Copy)]
struct Retyping<'r> {
    rewritings: &'r [Rewriting],
}

impl<'r> Places for Retyping<'r> {
    ghost use Rattle.rx_compact_lifetimes.specs.Rewritten.{retyping, rewritten_type};

    ghost changes = { λ r. retyping (rewritten_type r.rewritings.now) };

    fn variable(
        &self,
        alloc: Global,
        _own: &Names<'_>,
        span: Span,
        name: &Name,
    ) -> Result<Expr, AllocError> {
        variable(alloc, span, name)
    }

    fn break_at(
        &self,
        alloc: Global,
        _around: &Loops<'_>,
        span: Span,
        label: &Option<Ident>,
    ) -> Result<Expr, AllocError> {
        breaks(alloc, span, label)
    }

    fn continue_at(
        &self,
        alloc: Global,
        _around: &Loops<'_>,
        span: Span,
        label: &Option<Ident>,
    ) -> Result<Expr, AllocError> {
        continues(alloc, span, label)
    }

    fn return_at(
        &self,
        _alloc: Global,
        span: Span,
        value: Option<Boxed<Expr>>,
    ) -> Result<Expr, AllocError> {
        Ok(returns(span, value))
    }

    fn suffix(&self, _span: Span, kind: Option<Kind>) -> Option<Kind> {
        kind
    }

    fn let_type(
        &self,
        alloc: Global,
        _pattern: &Pattern,
        typ: &Option<TypeText>,
    ) -> Result<Option<TypeText>, AllocError> {
        rewritten_optional(alloc, self.rewritings, typ)
    }

    fn block(&self, _alloc: Global, _block: &Block, changed: Block) -> Result<Block, AllocError> {
        Ok(changed)
    }
}

/// A copy of a body with other lifetimes in the types of its `let`s.
pub(crate) fn rewritten_body(
    alloc: Global,
    rewritings: &[Rewriting],
    body: &Block,
) -> Result<Block, AllocError>
    ensures { IfOk result (λ it. plain-Block it ≡ spec.rewritten_body rewritings.now (plain-Block body.now)) }
{
    let places = Retyping { rewritings };
    let own = Names::new(alloc);
    let around = Loops::new(alloc);
    block(alloc, &places, &own, &around, body)
}

/// The lifetimes that the types in a body name, each where it stands first.
///
/// # Errors
///
/// Memory runs out.
#[tactic(auto, using(rx_tree::proofs::Rules::block_statements, rx_tree::proofs::Rules::block_tail))]
pub fn body_lifetimes(alloc: Global, body: &Block) -> Result<List<Ident>, AllocError>
    ensures { IfOk result (λ it. it ≡ new_functions.copied_lifetimes (parts_in (plain-Block body.now))) }
{
    let tail = match &body.tail {
        Some(tail) => Some(tail.get()),
        None => None,
    };
    copied_lifetimes(
        alloc,
        RunParts {
            stmts: body.stmts.as_slice(),
            tail,
        },
    )
}
