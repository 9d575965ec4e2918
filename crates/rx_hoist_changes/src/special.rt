//! What becomes of the special places of a tree.

ghost use Rattle.std.specs.Prelude.{◌≡◌, option_map, IfOk};
ghost use Rattle.rx_tree.specs.PlainOf.{plain-Expr, plain-Block, plain-Pattern, plain-TypeText, optional_of};

use crate::jumps::Loops;
use crate::scope::Names;
use rx_core::{Boxed, Kind, Name, Span};
use rx_tree::{Block, Expr, Ident, Pattern, TypeText};
use std::alloc::{AllocError, Global};

/// What becomes of the special places of a tree. A node that is no special place stays as it is.
pub trait Places {
    ghost use Rattle.rx_hoist_extraction.specs.Changed.{Changes};

    ghost changes: { Self → Changes };

    /// A variable, where these names are bound since the beginning.
    fn variable(
        &self,
        alloc: Global,
        own: &Names<'_>,
        span: Span,
        name: &Name,
    ) -> Result<Expr, AllocError>
        ensures { IfOk result (λ it. plain-Expr it ≡ (changes self.now).at_variable own.now span name.now) };

    /// A `break`, where this stands round it.
    fn break_at(
        &self,
        alloc: Global,
        around: &Loops<'_>,
        span: Span,
        label: &Option<Ident>,
    ) -> Result<Expr, AllocError>
        ensures { IfOk result (λ it. plain-Expr it ≡ (changes self.now).at_break around.now span label.now) };

    /// A `continue`, where this stands round it.
    fn continue_at(
        &self,
        alloc: Global,
        around: &Loops<'_>,
        span: Span,
        label: &Option<Ident>,
    ) -> Result<Expr, AllocError>
        ensures { IfOk result (λ it. plain-Expr it ≡ (changes self.now).at_continue around.now span label.now) };

    /// A `return`, whose operand is changed already.
    fn return_at(
        &self,
        alloc: Global,
        span: Span,
        value: Option<Boxed<Expr>>,
    ) -> Result<Expr, AllocError>
        ensures { IfOk result (λ it. plain-Expr it ≡ (changes self.now).at_return span (optional_of (option_map plain-Expr value))) };

    /// The suffix of a literal.
    fn suffix(&self, span: Span, kind: Option<Kind>) -> Option<Kind>
        ensures { result ≡ (changes self.now).at_int span kind };

    /// The type of the `let` with this pattern.
    fn let_type(
        &self,
        alloc: Global,
        pattern: &Pattern,
        typ: &Option<TypeText>,
    ) -> Result<Option<TypeText>, AllocError>
        ensures { IfOk result (λ it. option_map plain-TypeText it ≡ (changes self.now).at_let (plain-Pattern pattern.now) (option_map plain-TypeText typ.now)) };

    /// A block, given as it stands and with its parts changed.
    fn block(&self, alloc: Global, block: &Block, changed: Block) -> Result<Block, AllocError>
        ensures { IfOk result (λ it. plain-Block it ≡ (changes self.now).at_block (plain-Block block.now) (plain-Block changed)) };
}
