//! The edits of a body: the types of its `let`s.

ghost use Rattle.std.specs.Prelude.{◌≡◌, ◌++◌, [], map, OnOk};
ghost use Rattle.rx_tree.specs.PlainOf.{plain-Block};
ghost use Rattle.rx_splice_laws.specs.Edits.{written};
ghost use Rattle.rx_splice_laws.specs.EditsOf.{body_edits};
ghost use Rattle.rx_compact_lifetimes.specs.Rewritten as rewritten;
ghost use Rattle.rx_compact_text.specs.CompactedText as spec;

use crate::types::Changes;
use rx_compact_lifetimes::Rewriting;
use rx_core::{Kind, Name, Span};
use rx_hoist_changes::{Loops, Names};
use rx_splice_walk::{EditList, Places, block};
use rx_tree::{Block, Ident, Pattern, TypeText};
use std::alloc::{AllocError, Global};

/// The types of `let`s alone.
#[derive(Clone, Copy)]
struct Lets<'c> {
    changes: Changes<'c>,
}

impl<'c> Places for Lets<'c> {
    ghost use Rattle.std.specs.Prelude.{[]};
    ghost use Rattle.rx_compact_text.specs.CompactedText.{let_edits};
    ghost use Rattle.rx_compact_edits.specs.Writing.{becoming};

    ghost edits = { λ p. let_edits p.changes.text.now (becoming p.changes) };

    ghost before = { λ _ _. [] };

    ghost behind = { λ _ _. [] };

    fn number(
        &self,
        _alloc: Global,
        _out: &mut EditList,
        _span: Span,
        _suffix: Option<Kind>,
    ) -> Result<(), AllocError> {
        Ok(())
    }

    fn variable(
        &self,
        _alloc: Global,
        _out: &mut EditList,
        _own: &Names<'_>,
        _short: bool,
        _span: Span,
        _name: &Name,
    ) -> Result<(), AllocError> {
        Ok(())
    }

    fn break_at(
        &self,
        _alloc: Global,
        _out: &mut EditList,
        _around: &Loops<'_>,
        _span: Span,
        _label: &Option<Ident>,
    ) -> Result<(), AllocError> {
        Ok(())
    }

    fn continue_at(
        &self,
        _alloc: Global,
        _out: &mut EditList,
        _around: &Loops<'_>,
        _span: Span,
        _label: &Option<Ident>,
    ) -> Result<(), AllocError> {
        Ok(())
    }

    fn return_at(
        &self,
        _alloc: Global,
        _out: &mut EditList,
        _span: Span,
    ) -> Result<(), AllocError> {
        Ok(())
    }

    fn before_operand(
        &self,
        _alloc: Global,
        _out: &mut EditList,
        _span: Span,
    ) -> Result<(), AllocError> {
        Ok(())
    }

    fn behind_operand(
        &self,
        _alloc: Global,
        _out: &mut EditList,
        _span: Span,
    ) -> Result<(), AllocError> {
        Ok(())
    }

    fn let_type(
        &self,
        alloc: Global,
        out: &mut EditList,
        _pattern: &Pattern,
        typ: &Option<TypeText>,
    ) -> Result<(), AllocError> {
        self.changes.push_optional(alloc, out, typ)
    }
}

/// Adds the edits of a body whose lifetimes have other names.
pub(crate) fn push_body(
    alloc: Global,
    out: &mut EditList,
    text: &str,
    rewritings: &[Rewriting],
    body: &Block,
) -> Result<(), AllocError>
    ensures { OnOk result (out.new ≡ out.old ++ map written (body_edits (spec.let_edits text.now (rewritten.becomes rewritings.now)) [] [] (plain-Block body.now))) }
{
    let places = Lets {
        changes: Changes {
            text,
            first: rewritings,
            then: &[],
        },
    };
    let own = Names::new(alloc);
    let around = Loops::new(alloc);
    block(alloc, out, &places, &own, &around, body)?;
    Ok(())
}
