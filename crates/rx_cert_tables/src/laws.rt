//! Laws: a set has one line, and what is written fits.

ghost use Rattle.std.specs.Prelude.{◌≡◌, ℕ, List, length, IsTrue};
ghost use Rattle.rx_cert_lines.specs.declared.item.Item.{Item as ItemOf};
ghost use Rattle.rx_cert_lines.specs.declared.line.Line.{Line as LineOf};
ghost use Rattle.rx_cert_tables.specs.declared.shape.Shape.{Shape as ShapeOf};
ghost use Rattle.rx_cert_tables.specs.Sets.{IsSetOf};
ghost use Rattle.rx_cert_tables.specs.Fitting.{AllFit};
ghost use Rattle.rx_cert_tables.specs.Written.{AreWritten};

/// The items of a set are told by what they hold.
pub fn set_items_are_unique()
    ensures { (sites own : ℕ) (row : List ℕ) (is js : List ItemOf) → IsSetOf sites own row is → IsSetOf sites own row js → is ≡ js }
{}

/// The lines that are written of a function are those that it asks for.
pub fn written_lines_fit()
    ensures { (f : ShapeOf) (regions loans : List (List ℕ)) (ls : List LineOf) → length regions ≡ f.lifetimes → AreWritten f regions loans ls → AllFit f ls }
{}
