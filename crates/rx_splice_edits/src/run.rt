//! The edits of a run, in the order of the text.

ghost use Rattle.std.specs.Prelude.{◌≡◌, ◌++◌, List, map, option_map, IfOk, OnOk, true};
ghost use Rattle.std.specs.Option.{option_copied};
ghost use Rattle.rx_tree.specs.PlainOf.{plain-Expr, plain-Stmt, optional_of};
ghost use Rattle.rx_lex.specs.Tok.{toks};
ghost use Rattle.rx_print_spelling.specs.Pieces.{Piece};
ghost use Rattle.rx_hoist_made.specs.PlainParts.{plain-Labels, plain-RunParts};
ghost use Rattle.rx_splice_laws.specs.Edits.{written};
ghost use Rattle.rx_splice_laws.specs.EditsOf as edits;
ghost use Rattle.rx_splice_laws.specs.RunEnd.{RunEnd as EndOf};
ghost use Rattle.rx_splice_laws.specs.SplicedText as spliced;
ghost use Rattle.rx_splice_edits.specs.InOrder.{in_order};
ghost use Rattle.rx_splice_edits.specs.Deciding.{run_at, tokens_of};
ghost use Rattle.rx_splice_edits.specs.Ending.{IsEnd, IsPut};
ghost use Rattle.rx_splice_edits.specs.RunEdits.{edits_by};

use crate::moving::Moving;
use crate::run_end::RunEnd;
use crate::tokens::{first_start, tokens_from};
use rx_core::Text;
use rx_hoist_changes::{Loops, Names};
use rx_hoist_made::RunParts;
use rx_lex::Token;
use rx_splice_walk::{EditList, expression, statements};
use rx_tree::{Expr, Ident, Stmt};
use std::alloc::{AllocError, Global};

/// Where statements end; the place, where there are none.
fn behind_statements(stmts: &[Stmt], at: u64) -> u64
    ensures { result ≡ spliced.behind_statements at (map plain-Stmt stmts.now) }
{
    match stmts.last() {
        Some(last) => last.span.end,
        None => at,
    }
}

/// Where the tail of a run begins, with the parentheses round it: the first token behind the statements.
fn tail_start(tokens: &[Token<'_>], start: u64, stmts: &[Stmt]) -> u64
    requires { in_order 0 (toks tokens.now) ≡ true }
    ensures { result ≡ spliced.tail_start (toks tokens.now) start (map plain-Stmt stmts.now) }
{
    first_start(tokens_from(tokens, behind_statements(stmts, start)), start)
}

/// Adds a text between two bytes, where there is one.
fn put_if_any(
    alloc: Global,
    out: &mut EditList,
    at: u64,
    text: &Option<Text>,
) -> Result<(), AllocError>
    ensures { (ps : List Piece) → IsPut text.now ps → OnOk result (out.new ≡ out.old ++ map written (spliced.put_if_any at ps)) }
{
    match text {
        Some(text) => {
            let own = text.copy(alloc)?;
            out.put(at, own)
        }
        None => Ok(()),
    }
}

/// The edits of a tail that may be there.
fn push_tail<'t>(
    alloc: Global,
    out: &mut EditList,
    moving: &Moving<'_>,
    own: &Names<'t>,
    around: &Loops<'t>,
    tail: Option<&'t Expr>,
) -> Result<(), AllocError>
    ensures { OnOk result (out.new ≡ out.old ++ map written (edits.optional_edits (run_at moving.now.decided) own.now around.now (optional_of (option_map plain-Expr (option_copied tail.entry))))) }
{
    match tail {
        Some(tail) => expression(alloc, out, moving, own, around, false, tail),
        None => Ok(()),
    }
}

/// All edits of a run, with the labels of the loops round it, the innermost first.
pub(crate) fn run_edits<'t>(
    alloc: Global,
    moving: &Moving<'_>,
    labels: &[Option<&'t Ident>],
    run: RunParts<'t>,
    end: &RunEnd,
) -> Result<EditList, AllocError>
    ensures { (e : EndOf) → IsEnd end.now e → IfOk result (λ l. l ≡ map written (edits_by (run_at moving.now.decided) (tokens_of moving.now.decided) moving.now.decided.run (plain-Labels labels.now) (plain-RunParts run.entry) e)) }
{
    let span = moving.decided.run;
    let around = Loops::round(alloc, labels)?;
    let mut own = Names::new(alloc);
    let mut out = EditList::new(alloc);
    statements(alloc, &mut out, moving, &mut own, &around, run.stmts)?;
    let at = tail_start(moving.decided.tokens, span.start, run.stmts);
    put_if_any(alloc, &mut out, at, &end.before)?;
    push_tail(alloc, &mut out, moving, &own, &around, run.tail)?;
    put_if_any(alloc, &mut out, span.end, &end.behind)?;
    Ok(out)
}
