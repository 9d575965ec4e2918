//! The edits that write out the kinds of literals and the types of `let`s.

ghost use Rattle.std.specs.Prelude.{◌≡◌, ◌++◌, map, option_map, IfOk, OnOk};
ghost use Rattle.std.specs.Option.{option_copied};
ghost use Rattle.rx_tree.specs.PlainOf.{plain-Pattern, plain-Program, plain-TypeText};
ghost use Rattle.rx_lex.specs.Numerals.{kind_name};
ghost use Rattle.rx_typed.specs.PlainTypes.{plain-Ty};
ghost use Rattle.rx_print_spelling.specs.Pieces.{flat};
ghost use Rattle.rx_print_spelling.specs.Types.{written_type};
ghost use Rattle.rx_hoist_plan.specs.PlainPlan.{plain-Plan};
ghost use Rattle.rx_hoist_extraction.specs.WrittenTypes.{elided as elided_type};
ghost use Rattle.rx_splice_laws.specs.Edits.{written};
ghost use Rattle.rx_splice_laws.specs.Moving.{suffix_edits, type_edits};
ghost use Rattle.rx_splice_laws.specs.MovedBy as moved;
ghost use Rattle.rx_splice_edits.specs.Deciding.{moving_of, tokens_of, pins_at, typ_at};

use crate::decided::Decided;
use crate::tokens::{text_at, with_parentheses};
use rx_core::{Kind, LetGo, Name, Span, Text, Ty};
use rx_hoist_changes::{Loops, Names, kind_at, suffix_of, type_at};
use rx_hoist_made::elided;
use rx_print_parts::{kind_text, push_annotation};
use rx_splice_walk::{EditList, Places};
use rx_tree::{Ident, Pattern, Program, TypeText};
use std::alloc::{AllocError, Global};

/// The edits of pinned kinds and types alone.
#[derive(Clone, Copy)]
pub(crate) struct Pinning<'p> {
    pub decided: Decided<'p>,
}

/// A number with a suffix.
fn suffixed(alloc: Global, number: &str, kind: Kind) -> Result<Text, AllocError>
    ensures { IfOk result (λ t. t ≡ number.now ++ kind_name kind) }
{
    let mut text = Text::new(alloc, number)?;
    text.push(kind_text(kind))?;
    Ok(text)
}

/// A type as it stands behind a pattern, by the items of a program.
pub(crate) fn annotation(
    alloc: Global,
    program: &Program,
    run: Span,
    ty: &Ty,
) -> Result<Text, AllocError>
    ensures { IfOk result (λ t. t
        ≡ flat (written_type (elided_type (plain-Program program.now) run (plain-Ty ty.now)))) }
{
    let typ = Some(elided(alloc, program, run, ty)?);
    let mut text = Text::empty(alloc);
    let outcome = push_annotation(&mut text, &typ);
    typ.let_go();
    outcome?;
    Ok(text)
}

impl<'p> Decided<'p> {
    /// The suffix that a literal at this place gets.
    fn kind(&self, span: Span) -> Option<Kind>
        ensures { result ≡ moved.kind_at (plain-Plan self.now.plan.now).pins span }
    {
        match &self.plan.pins {
            Some(pins) => suffix_of(kind_at(pins.kinds.as_slice(), span)),
            None => None,
        }
    }

    /// The type that the `let` of a pattern at this place gets.
    fn ty(&self, span: Span) -> Option<&'p Ty>
        ensures { option_map plain-Ty (option_copied result) ≡ typ_at (plain-Plan self.now.plan.now).pins span }
    {
        match &self.plan.pins {
            Some(pins) => type_at(pins.types.as_slice(), span),
            None => None,
        }
    }

    /// Directly behind a number without a suffix, where it gets one.
    fn push_kind(&self, alloc: Global, out: &mut EditList, span: Span) -> Result<(), AllocError>
        ensures { OnOk result (out.new
            ≡ out.old ++ map written (suffix_edits (tokens_of self.now) span ((moving_of self.now).kind span))) }
    {
        match self.kind(span) {
            Some(kind) => {
                let text = suffixed(alloc, text_at(self.tokens, span.start), kind)?;
                out.replace(span, text)
            }
            None => Ok(()),
        }
    }

    /// Directly behind a number, where it has no suffix and gets one.
    pub(crate) fn push_suffix(
        &self,
        alloc: Global,
        out: &mut EditList,
        span: Span,
        suffix: Option<Kind>,
    ) -> Result<(), AllocError>
        ensures { OnOk result (out.new ≡ out.old ++ map written ((pins_at self.now).at_int span suffix)) }
    {
        match suffix {
            Some(_) => Ok(()),
            None => self.push_kind(alloc, out, span),
        }
    }

    /// Behind the pattern of a `let` without a type, where it gets one.
    fn push_pinned(
        &self,
        alloc: Global,
        out: &mut EditList,
        pattern: &Pattern,
    ) -> Result<(), AllocError>
        ensures { OnOk result (out.new
            ≡ out.old ++ map written (type_edits (tokens_of self.now) (plain-Pattern pattern.now)
            ((moving_of self.now).typ (plain-Pattern pattern.now)))) }
    {
        match self.ty(pattern.span) {
            Some(ty) => {
                let text = annotation(alloc, self.program, self.run, ty)?;
                out.put(with_parentheses(self.tokens, pattern.span.end), text)
            }
            None => Ok(()),
        }
    }

    /// Behind the pattern of a `let`, where it has no type and gets one.
    pub(crate) fn push_type(
        &self,
        alloc: Global,
        out: &mut EditList,
        pattern: &Pattern,
        typ: &Option<TypeText>,
    ) -> Result<(), AllocError>
        ensures { OnOk result (out.new
            ≡ out.old ++ map written ((pins_at self.now).at_let (plain-Pattern pattern.now)
            (option_map plain-TypeText typ.now))) }
    {
        match typ {
            Some(_) => Ok(()),
            None => self.push_pinned(alloc, out, pattern),
        }
    }
}

impl<'p> Places for Pinning<'p> {
    ghost use Rattle.std.specs.Prelude.{[]};
    ghost use Rattle.rx_splice_edits.specs.Deciding.{pins_at};

    ghost edits = { λ p. pins_at p.decided };

    ghost before = { λ _ _. [] };

    ghost behind = { λ _ _. [] };

    fn number(
        &self,
        alloc: Global,
        out: &mut EditList,
        span: Span,
        suffix: Option<Kind>,
    ) -> Result<(), AllocError> {
        self.decided.push_suffix(alloc, out, span, suffix)
    }

    fn variable(
        &self,
        _alloc: Global,
        _out: &mut EditList,
        _own: &Names<'_>,
        _short: bool,
        _span: Span,
        _name: &Name,
    ) -> Result<(), AllocError> {
        Ok(())
    }

    fn break_at(
        &self,
        _alloc: Global,
        _out: &mut EditList,
        _around: &Loops<'_>,
        _span: Span,
        _label: &Option<Ident>,
    ) -> Result<(), AllocError> {
        Ok(())
    }

    fn continue_at(
        &self,
        _alloc: Global,
        _out: &mut EditList,
        _around: &Loops<'_>,
        _span: Span,
        _label: &Option<Ident>,
    ) -> Result<(), AllocError> {
        Ok(())
    }

    fn return_at(
        &self,
        _alloc: Global,
        _out: &mut EditList,
        _span: Span,
    ) -> Result<(), AllocError> {
        Ok(())
    }

    fn before_operand(
        &self,
        _alloc: Global,
        _out: &mut EditList,
        _span: Span,
    ) -> Result<(), AllocError> {
        Ok(())
    }

    fn behind_operand(
        &self,
        _alloc: Global,
        _out: &mut EditList,
        _span: Span,
    ) -> Result<(), AllocError> {
        Ok(())
    }

    fn let_type(
        &self,
        alloc: Global,
        out: &mut EditList,
        pattern: &Pattern,
        typ: &Option<TypeText>,
    ) -> Result<(), AllocError> {
        self.decided.push_type(alloc, out, pattern, typ)
    }
}
