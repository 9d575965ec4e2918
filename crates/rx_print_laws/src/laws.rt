//! Laws of canonical texts, each the contract of a function that does nothing.

ghost use Rattle.std.specs.Prelude.{◌<◌, ◌^◌, length};
ghost use Rattle.rx_tree.specs.Plain.{ProgramTree};
ghost use Rattle.rx_tree.specs.Size.{IsNumbered};
ghost use Rattle.rx_print_spelling.specs.Formed.{FormedProgram};
ghost use Rattle.rx_print_spelling.specs.Items.{print_program};

use rx_print_spelling::print_parses;

/// A program whose canonical text has fewer than 2^32 bytes can be numbered in 32 bits.
pub fn short_texts_are_numbered()
    ensures { (p : ProgramTree) → FormedProgram p → length (print_program p) < 2 ^ 32 → IsNumbered p }
{
    print_parses();
}
