//! Laws of programs and faults, each as the contract of a function that does nothing.

ghost use Rattle.std.specs.Prelude.{◌≡◌, ◌↔◌, ◌≤◌, ℕ, List, length};
ghost use Rattle.rx_tree.specs.Plain.{ProgramTree};
ghost use Rattle.rx_tree.specs.Size.{IsNumbered};
ghost use Rattle.rx_parse_grammar.specs.grammar.Items.{Parses, levels};
ghost use Rattle.rx_parse.specs.declared.fault.SyntaxFault.TheVariants.{Syntax};
ghost use Rattle.rx_parse.specs.Answer.{HasTree, HasLevels, IsCause};

/// The tokens of a text stop being a program at one place at most.
pub fn one_place()
    ensures { (bytes : List ℕ) (at other : ℕ) → IsCause (Syntax at) bytes → IsCause (Syntax other) bytes → at ≡ other }
{}

/// The program of a text of at most 1,048,576 bytes meets the premise on a program's size.
pub fn parsed_programs_are_numbered()
    ensures { (bytes : List ℕ) (p : ProgramTree) → Parses bytes p → length bytes ≤ 1048576 → IsNumbered p }
{}

/// A text has one number of levels.
pub fn levels_are_one()
    ensures { (bytes : List ℕ) (n k : ℕ) → HasLevels bytes n → HasLevels bytes k → n ≡ k }
{}

/// A text is read where it has a tree of at most 128 levels.
pub fn parsed_texts_are_low()
    ensures { (bytes : List ℕ) (p : ProgramTree) → Parses bytes p ↔ ((n : ℕ) × HasTree bytes p n × (n ≤ levels)) }
{}
