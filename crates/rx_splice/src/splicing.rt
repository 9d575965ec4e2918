//! A text with edits.

ghost use Rattle.std.specs.Prelude.{◌≡◌, IfOk};
ghost use Rattle.rx_splice.specs.Edits.{AreEdits, spliced};

use rx_core::{Edits, Text};
use std::alloc::{AllocError, Global};

/// The text with each edit's text in place of its span; all other bytes stay.
pub fn splice(alloc: Global, text: &str, edits: &Edits) -> Result<Text, AllocError>
    requires { AreEdits text.now edits.now.list }
    ensures { IfOk result (λ t. t ≡ spliced 0 text.now edits.now.list) }
{
    let mut out = Text::empty(alloc);
    let mut at = 0;
    for edit in edits.list.as_slice() {
        let start = edit.span.start as usize;
        out.push(&text[at..start])?;
        out.push(edit.text.as_str())?;
        at = edit.span.end as usize;
    }
    out.push(&text[at..])?;
    Ok(out)
}
