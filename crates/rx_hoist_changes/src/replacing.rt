//! A block at a place replaced by another.

ghost use Rattle.std.specs.Prelude.{◌≡◌, [], IfOk};
ghost use Rattle.rx_tree.specs.PlainOf.{plain-Block};
ghost use Rattle.rx_hoist_extraction.specs.Run.{same_place};
ghost use Rattle.rx_hoist_extraction.specs.Extraction.{replacing};
ghost use Rattle.rx_hoist_extraction.specs.Changed.{changed_body};

use crate::jumps::Loops;
use crate::made::{breaks, continues, copy_type, returns};
use crate::scope::Names;
use crate::special::Places;
use crate::walk::block;
use rx_core::{Boxed, Kind, LetGo, Name, Span};
use rx_hoist_made::variable;
use rx_tree::{Block, Expr, Ident, Pattern, TypeText};
use rx_tree_operations::CopyTree;
use std::alloc::{AllocError, Global};

/// The block at this place becomes another.
#[derive(Drop)]
struct Replacing<'p> {
    place: Span,
    new: &'p Block,
}

impl<'p> Places for Replacing<'p> {
    ghost use Rattle.rx_tree.specs.PlainOf.{plain-Block};
    ghost use Rattle.rx_hoist_extraction.specs.Extraction.{replacing};

    ghost changes = { λ r. replacing r.place (plain-Block r.new.now) };

    fn variable(
        &self,
        alloc: Global,
        _own: &Names<'_>,
        span: Span,
        name: &Name,
    ) -> Result<Expr, AllocError> {
        variable(alloc, span, name)
    }

    fn break_at(
        &self,
        alloc: Global,
        _around: &Loops<'_>,
        span: Span,
        label: &Option<Ident>,
    ) -> Result<Expr, AllocError> {
        breaks(alloc, span, label)
    }

    fn continue_at(
        &self,
        alloc: Global,
        _around: &Loops<'_>,
        span: Span,
        label: &Option<Ident>,
    ) -> Result<Expr, AllocError> {
        continues(alloc, span, label)
    }

    fn return_at(
        &self,
        _alloc: Global,
        span: Span,
        value: Option<Boxed<Expr>>,
    ) -> Result<Expr, AllocError> {
        Ok(returns(span, value))
    }

    fn suffix(&self, _span: Span, kind: Option<Kind>) -> Option<Kind> {
        kind
    }

    fn let_type(
        &self,
        alloc: Global,
        _pattern: &Pattern,
        typ: &Option<TypeText>,
    ) -> Result<Option<TypeText>, AllocError> {
        copy_type(alloc, typ)
    }

    #[tactic(auto, using(crate::proofs::SpanLemmas::body_span_is))]
    fn block(&self, alloc: Global, block: &Block, changed: Block) -> Result<Block, AllocError> {
        if is_at(self.place, block.span) {
            changed.let_go();
            self.new.copy(alloc)
        } else {
            Ok(changed)
        }
    }
}

/// Whether both are the same place in the text.
pub(crate) fn is_at(place: Span, span: Span) -> bool
    ensures { result ≡ same_place place span }
{
    place.start == span.start && place.end == span.end
}

/// A copy of a block in which each block at a place, known by its span, has become a copy of another.
pub fn with_block(
    alloc: Global,
    place: Span,
    new: &Block,
    body: &Block,
) -> Result<Block, AllocError>
    ensures { IfOk result (λ it. plain-Block it ≡ changed_body (replacing place (plain-Block new.now)) [] [] (plain-Block body.now)) }
{
    let places = Replacing { place, new };
    let own = Names::new(alloc);
    let around = Loops::new(alloc);
    block(alloc, &places, &own, &around, body)
}
