//! Whether a text may be cut where edits stand.

ghost use Rattle.std.specs.Bool.{Decides};
ghost use Rattle.rx_splice.specs.Edits.{AreEdits};
ghost use Rattle.rx_compact_edits.specs.Writing.{IsCut};

use rx_core::{Edit, Span};

/// Whether a span begins at a place or later, and a text may be cut at both its ends.
fn is_cut(text: &str, at: u64, span: Span) -> bool
    ensures { Decides result (IsCut text.now at span) }
{
    at <= span.start
        && span.start <= span.end
        && text.is_char_boundary(span.start as usize)
        && text.is_char_boundary(span.end as usize)
}

/// Whether edits are in order in a text, which may be cut where they stand.
pub(crate) fn can_be_cut(text: &str, edits: &[Edit]) -> bool
    ensures { Decides result (AreEdits text.now edits.now) }
{
    let mut at = 0;
    for edit in edits {
        if !is_cut(text, at, edit.span) {
            return false;
        }
        at = edit.span.end;
    }
    at <= text.len() as u64
}
