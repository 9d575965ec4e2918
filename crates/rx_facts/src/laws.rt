//! Laws of passes over functions, each as the contract of a function that does nothing.

ghost use Rattle.std.specs.Prelude.{◌≡◌, List};
ghost use Rattle.rx_tree.specs.Plain.{ProgramTree};
ghost use Rattle.rx_resolve_names.specs.declared.resolved.ItemNames.{ItemNames};
ghost use Rattle.rx_typeck_typed.specs.Typing.{IsTyped};
ghost use Rattle.rx_typeck_typed.specs.declared.typed.Typed.{Typed};
ghost use Rattle.rx_facts.specs.Same.{AreSame};

use rx_typeck_typed::declared_are_finite;
use rx_typed_declarations::one_size_each;

/// Two typed programs of one text are the same, but for how they record polarities and what they have of variables
/// without types: so whether a function is within the limits, and whether it is initialised, is told by the text.
pub fn one_typing()
    ensures { (p : ProgramTree) (names : List ItemNames) (t u : Typed) → IsTyped p names t → IsTyped p names u → AreSame t u }
{
    declared_are_finite();
    one_size_each();
}
