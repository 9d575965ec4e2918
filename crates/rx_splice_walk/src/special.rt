//! The edits at the special places of a tree.

ghost use Rattle.std.specs.Prelude.{◌≡◌, ◌++◌, map, option_map, OnOk};
ghost use Rattle.rx_tree.specs.PlainOf.{plain-Pattern, plain-TypeText};
ghost use Rattle.rx_splice_laws.specs.Edits.{Edit, written};

use crate::list::EditList;
use rx_core::{Kind, Name, Span};
use rx_hoist_changes::{Loops, Names};
use rx_tree::{Ident, Pattern, TypeText};
use std::alloc::{AllocError, Global};

/// The edits at the special places of a tree. A node that is no special place keeps its bytes.
pub trait Places {
    ghost use Rattle.std.specs.Prelude.{List};
    ghost use Rattle.rx_core.specs.declared.types.Span.{Span as SpanOf};
    ghost use Rattle.rx_splice_laws.specs.Edits.{Edit};
    ghost use Rattle.rx_splice_laws.specs.EditsOf.{EditsAt};

    ghost edits: { Self → EditsAt };

    /// The edits round the operand of a `return`.
    ghost before: { Self → SpanOf → List Edit };

    ghost behind: { Self → SpanOf → List Edit };

    /// A literal with this suffix.
    fn number(
        &self,
        alloc: Global,
        out: &mut EditList,
        span: Span,
        suffix: Option<Kind>,
    ) -> Result<(), AllocError>
        ensures { OnOk result (out.new ≡ out.old ++ map written ((edits self.now).at_int span suffix)) };

    /// A variable, where these names are bound since the beginning. It may be a field without `:`.
    fn variable(
        &self,
        alloc: Global,
        out: &mut EditList,
        own: &Names<'_>,
        short: bool,
        span: Span,
        name: &Name,
    ) -> Result<(), AllocError>
        ensures { OnOk result (out.new ≡ out.old ++ map written ((edits self.now).at_variable own.now short span name.now)) };

    /// A `break`, where this stands round it.
    fn break_at(
        &self,
        alloc: Global,
        out: &mut EditList,
        around: &Loops<'_>,
        span: Span,
        label: &Option<Ident>,
    ) -> Result<(), AllocError>
        ensures { OnOk result (out.new ≡ out.old ++ map written ((edits self.now).at_break around.now span label.now)) };

    /// A `continue`, where this stands round it.
    fn continue_at(
        &self,
        alloc: Global,
        out: &mut EditList,
        around: &Loops<'_>,
        span: Span,
        label: &Option<Ident>,
    ) -> Result<(), AllocError>
        ensures { OnOk result (out.new ≡ out.old ++ map written ((edits self.now).at_continue around.now span label.now)) };

    /// A `return` without an operand.
    fn return_at(&self, alloc: Global, out: &mut EditList, span: Span) -> Result<(), AllocError>
        ensures { OnOk result (out.new ≡ out.old ++ map written ((edits self.now).at_return span)) };

    /// In front of the operand of a `return`.
    fn before_operand(
        &self,
        alloc: Global,
        out: &mut EditList,
        span: Span,
    ) -> Result<(), AllocError>
        ensures text { OnOk result (out.new ≡ out.old ++ map written (before self.now span)) }
        ensures whole { (es : List Edit) → (edits self.now).at_return_with span es ≡ before self.now span ++ (es ++ behind self.now span) };

    /// Behind the operand of a `return`.
    fn behind_operand(
        &self,
        alloc: Global,
        out: &mut EditList,
        span: Span,
    ) -> Result<(), AllocError>
        ensures { OnOk result (out.new ≡ out.old ++ map written (behind self.now span)) };

    /// Behind the pattern of a `let` with this type.
    fn let_type(
        &self,
        alloc: Global,
        out: &mut EditList,
        pattern: &Pattern,
        typ: &Option<TypeText>,
    ) -> Result<(), AllocError>
        ensures { OnOk result (out.new ≡ out.old ++ map written ((edits self.now).at_let (plain-Pattern pattern.now) (option_map plain-TypeText typ.now))) };
}
