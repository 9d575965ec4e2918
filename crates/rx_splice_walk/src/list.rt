//! Edits in the order of the text.

ghost use Rattle.std.specs.Prelude.{◌≡◌, ◌++◌, [], ◌∷◌, OnOk};

use rx_core::{Edit, Edits, List, Span, Text};
use std::alloc::{AllocError, Global};
use std::marker::Model;

/// Edits in the order of the text. Contracts see them as a list.
#[derive(Drop)]
pub struct EditList {
    edits: Vec<Edit>,
}

impl Model for EditList {
    ghost use Rattle.std.specs.Prelude.{List};
    ghost use Rattle.rx_core.specs.declared.types.Edit.{Edit as EditOf};

    ghost Value = { List EditOf };

    ghost view = { λ l. l.edits.items };
}

impl EditList {
    /// No edits. It takes no memory.
    pub fn new(alloc: Global) -> EditList
        ensures { result ≡ [] }
    {
        EditList {
            edits: Vec::new(alloc),
        }
    }

    pub fn as_slice(&self) -> &[Edit]
        ensures { result.now ≡ self.now }
    {
        self.edits.as_slice()
    }

    /// The edits, as a text is spliced by them.
    pub fn into_edits(self) -> Edits
        ensures { result.list ≡ self }
    {
        Edits {
            list: List::from_vec(self.edits),
        }
    }

    /// Adds a text in place of what stands at a span.
    pub fn replace(&mut self, span: Span, text: Text) -> Result<(), AllocError>
        ensures { OnOk result (self.new ≡ self.old ++ (record { span = span; text = text }) ∷ []) }
    {
        self.edits.push(Edit { span, text })?;
        Ok(())
    }

    /// Adds a text between two bytes.
    pub fn put(&mut self, at: u64, text: Text) -> Result<(), AllocError>
        ensures { OnOk result (self.new ≡ self.old ++ (record { span = record { start = at; end = at }; text = text }) ∷ []) }
    {
        self.replace(Span { start: at, end: at }, text)
    }
}
