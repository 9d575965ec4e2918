//! The blanks before a line. Contracts see them as the depth of the line.

ghost use Rattle.std.specs.Prelude.{◌≡◌, ◌++◌, ◌∷◌, zero, suc, IfOk, OnOk};
ghost use Rattle.rx_print_spelling.specs.Pieces.{bytes_of, line};

use rx_core::Text;
use std::alloc::{AllocError, Global};
use std::marker::Model;

/// The blanks before the lines of a block. Each block writes those of its own, so that no number of levels is too large.
#[derive(Drop)]
pub struct Margin {
    blanks: Text,
}

impl Model for Margin {
    ghost use Rattle.std.specs.Prelude.{◌≡◌, ℕ};
    ghost use Rattle.rx_print_spelling.specs.Pieces.{indent};
    ghost use Rattle.rx_print_parts.specs.Parts.{depth_of};

    ghost Value = { ℕ };

    ghost view = { λ m. depth_of m.blanks };

    ghost invariant = { λ m. m.blanks ≡ indent (depth_of m.blanks) };
}

impl Margin {
    /// That of a line that no block stands round. It takes no memory.
    pub fn none(alloc: Global) -> Margin
        ensures { result ≡ zero }
    {
        Margin {
            blanks: Text::empty(alloc),
        }
    }

    /// That of the lines one level deeper.
    pub fn deeper(&self, alloc: Global) -> Result<Margin, AllocError>
        ensures { IfOk result (λ m. m ≡ suc self.now) }
    {
        let mut blanks = Text::new(alloc, "    ")?;
        blanks.push(self.blanks.as_str())?;
        Ok(Margin { blanks })
    }

    /// Adds a line feed, and the blanks before the next line.
    pub fn push_line(&self, out: &mut Text) -> Result<(), AllocError>
        ensures { OnOk result (out.new ≡ out.old ++ bytes_of (line self.now)) }
    {
        out.push("\n")?;
        out.push(self.blanks.as_str())
    }
}
