//! A function's body with the kinds of its literals and the types of its `let`s written out.

ghost use Rattle.std.specs.Prelude.{◌≡◌, Some, map, option_map, IfOk};
ghost use Rattle.std.specs.Option.{option_copied};
ghost use Rattle.rx_tree.specs.PlainOf.{plain-Block, plain-Program};
ghost use Rattle.rx_typed.specs.PlainTypes.{plain-Ty};
ghost use Rattle.rx_hoist_plan.specs.PlainPlan.{plain-Pins};
ghost use Rattle.rx_hoist_plan.specs.declared.plan.KindPin.{KindPin as KindPinOf};
ghost use Rattle.rx_hoist_plan.specs.declared.plan.TypePin.{TypePin as TypePinOf};
ghost use Rattle.rx_hoist_extraction.specs.Pinned as pinned;

use crate::jumps::Loops;
use crate::made::{breaks, continues, copy_type, returns};
use crate::replacing::is_at;
use crate::scope::Names;
use crate::special::Places;
use crate::walk::block;
use rx_core::{Boxed, Kind, Name, Span, Ty};
use rx_hoist_made::{elided, variable};
use rx_hoist_plan::{KindPin, Pins, TypePin};
use rx_tree::{Block, Expr, Ident, Pattern, Program, TypeText};
use std::alloc::{AllocError, Global};

/// What is written out, and the program by whose items types are written.
#[derive(Drop)]
struct Pinning<'p> {
    program: &'p Program,
    run: Span,
    pins: &'p Pins,
}

/// The kind that a literal at this place gets.
pub fn kind_at(pins: &[KindPin], span: Span) -> Option<Kind>
    ensures { result ≡ pinned.at_place (map (λ (k : KindPinOf). (k.span, k.kind)) pins.now) span }
{
    for pin in pins {
        if is_at(pin.span, span) {
            return Some(pin.kind);
        }
    }
    None
}

/// The type that the `let` of a pattern at this place gets.
pub fn type_at<'p>(pins: &'p [TypePin], span: Span) -> Option<&'p Ty>
    ensures { option_map plain-Ty (option_copied result) ≡ pinned.at_place (map (λ (t : TypePinOf). (t.span, plain-Ty t.ty)) pins.now) span }
{
    for pin in pins {
        if is_at(pin.span, span) {
            return Some(&pin.ty);
        }
    }
    None
}

/// A kind as a suffix: `i32` is not written.
pub fn suffix_of(kind: Option<Kind>) -> Option<Kind>
    ensures { result ≡ pinned.suffix_of kind }
{
    match kind {
        Some(Kind::I32) => None,
        _ => kind,
    }
}

impl<'p> Places for Pinning<'p> {
    ghost use Rattle.rx_tree.specs.PlainOf.{plain-Program};
    ghost use Rattle.rx_hoist_plan.specs.PlainPlan.{plain-Pins};
    ghost use Rattle.rx_hoist_extraction.specs.Pinned.{pinning};

    ghost changes = { λ p. pinning (plain-Program p.program.now) p.run (plain-Pins p.pins.now) };

    fn variable(
        &self,
        alloc: Global,
        _own: &Names<'_>,
        span: Span,
        name: &Name,
    ) -> Result<Expr, AllocError> {
        variable(alloc, span, name)
    }

    fn break_at(
        &self,
        alloc: Global,
        _around: &Loops<'_>,
        span: Span,
        label: &Option<Ident>,
    ) -> Result<Expr, AllocError> {
        breaks(alloc, span, label)
    }

    fn continue_at(
        &self,
        alloc: Global,
        _around: &Loops<'_>,
        span: Span,
        label: &Option<Ident>,
    ) -> Result<Expr, AllocError> {
        continues(alloc, span, label)
    }

    fn return_at(
        &self,
        _alloc: Global,
        span: Span,
        value: Option<Boxed<Expr>>,
    ) -> Result<Expr, AllocError> {
        Ok(returns(span, value))
    }

    fn suffix(&self, span: Span, kind: Option<Kind>) -> Option<Kind> {
        match kind {
            Some(kind) => Some(kind),
            None => suffix_of(kind_at(self.pins.kinds.as_slice(), span)),
        }
    }

    #[tactic(auto, using(crate::proofs::SpanLemmas::pattern_span_is))]
    fn let_type(
        &self,
        alloc: Global,
        pattern: &Pattern,
        typ: &Option<TypeText>,
    ) -> Result<Option<TypeText>, AllocError> {
        match typ {
            Some(_) => copy_type(alloc, typ),
            None => match type_at(self.pins.types.as_slice(), pattern.span) {
                Some(ty) => Ok(Some(elided(alloc, self.program, self.run, ty)?)),
                None => Ok(None),
            },
        }
    }

    fn block(&self, _alloc: Global, _block: &Block, changed: Block) -> Result<Block, AllocError> {
        Ok(changed)
    }
}

/// A copy of a function's body with its literals and `let`s pinned. The types are written by the items of the program,
/// with the span of the run.
pub fn pinned(
    alloc: Global,
    program: &Program,
    run: Span,
    pins: &Pins,
    body: &Block,
) -> Result<Block, AllocError>
    ensures { IfOk result (λ it. plain-Block it ≡ pinned.pinned (plain-Program program.now) run (Some (plain-Pins pins.now)) (plain-Block body.now)) }
{
    let places = Pinning { program, run, pins };
    let own = Names::new(alloc);
    let around = Loops::new(alloc);
    block(alloc, &places, &own, &around, body)
}
