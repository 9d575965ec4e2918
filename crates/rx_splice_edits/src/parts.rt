//! A part of a text with edits.

ghost use Rattle.std.specs.Prelude.{◌≡◌, ◌≤◌, ◌&&◌, ◌++◌, true, nat_le, IfOk, OnOk, IsCharBoundary};
ghost use Rattle.std.specs.Bool.{Decides};
ghost use Rattle.rx_splice.specs.Edits.{spliced};
ghost use Rattle.rx_splice_laws.specs.SplicedRun.{between};
ghost use Rattle.rx_splice_edits.specs.Cutting.{AreWithin, IsCut, done_at, done_of, stands, up_to, within};

use rx_core::{Edit, Span, Text};
use std::alloc::AllocError;

/// Whether a span begins at a place or later, and a text may be cut at both its ends.
fn is_cut(text: &str, at: u64, span: Span) -> bool
    ensures { Decides result (IsCut text.now at span) }
{
    at <= span.start
        && span.start <= span.end
        && text.is_char_boundary(span.start as usize)
        && text.is_char_boundary(span.end as usize)
}

/// Whether a place stands in front of the end of a part of a text, which may be cut at its ends.
fn ends_cut(text: &str, from: u64, at: u64, to: u64) -> bool
    ensures { Decides result ((at ≤ to) × IsCharBoundary text.now from × IsCharBoundary text.now to) }
{
    at <= to && text.is_char_boundary(from as usize) && text.is_char_boundary(to as usize)
}

/// Whether edits are in order in a part of a text, which may be cut where they stand and at its ends.
pub(crate) fn can_be_cut(text: &str, from: u64, to: u64, edits: &[Edit]) -> bool
    ensures { Decides result (AreWithin text.now from to edits.now) }
{
    let mut at = from;
    for edit in edits {
        if !is_cut(text, at, edit.span) {
            return false;
        }
        at = edit.span.end;
    }
    ends_cut(text, from, at, to)
}

/// Whether a span stands between two places.
fn stands_within(span: Span, from: usize, to: usize) -> bool
    ensures { result ≡ (nat_le from span.start && nat_le span.end to) }
{
    from <= span.start as usize && span.end as usize <= to
}

/// Adds a text from a place to an edit, and the edit's text.
fn push_edit(out: &mut Text, text: &str, at: usize, edit: &Edit) -> Result<(), AllocError>
    requires begins { IsCharBoundary text.now at }
    requires cut { IsCut text.now at edit.now.span }
    ensures { OnOk result (out.new ≡ out.old ++ up_to text.now at edit.now) }
{
    let start = edit.span.start as usize;
    out.push(&text[at..start])?;
    out.push(edit.text.as_str())
}

/// Adds a text up to an edit, and the edit's text, where it stands in the part; and gives the place up to which it is done.
fn push_next(
    out: &mut Text,
    text: &str,
    from: usize,
    to: usize,
    at: usize,
    edit: &Edit,
) -> Result<usize, AllocError>
    requires begins { IsCharBoundary text.now at }
    requires cut { stands from to edit.now ≡ true → IsCut text.now at edit.now.span }
    ensures { IfOk result (λ n. (n ≡ done_at (stands from to edit.now) at edit.now) × (out.new ≡ out.old ++ done_of (stands from to edit.now) text.now at edit.now)) }
{
    if stands_within(edit.span, from, to) {
        push_edit(out, text, at, edit)?;
        Ok(edit.span.end as usize)
    } else {
        Ok(at)
    }
}

/// Adds the part of a text between two places, with those of the edits that stand in it.
pub(crate) fn push_spliced(
    out: &mut Text,
    text: &str,
    from: usize,
    to: usize,
    edits: &[Edit],
) -> Result<(), AllocError>
    requires { AreWithin text.now from to (within from to edits.now) }
    ensures { OnOk result (out.new ≡ out.old ++ spliced from (between from to text.now) (within from to edits.now)) }
{
    let mut at = from;
    for edit in edits {
        at = push_next(out, text, from, to, at, edit)?;
    }
    out.push(&text[at..to])
}
