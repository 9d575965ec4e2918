//! Laws of the canonical text, each as the contract of a function that does nothing.

ghost use Rattle.std.specs.Prelude.{◌≡◌, ◌≤◌, ℕ, List};
ghost use Rattle.rx_tree.specs.Plain.{ProgramTree};
ghost use Rattle.rx_tree.specs.Erase.{SameProgram};
ghost use Rattle.rx_lex.specs.Tok.{Tok};
ghost use Rattle.rx_lex.specs.Tokens.{Lexes};
ghost use Rattle.rx_parse_grammar.specs.grammar.Items.{IsFile, Parses, levels};
ghost use Rattle.rx_print_spelling.specs.Items.{print_program};
ghost use Rattle.rx_print_spelling.specs.Levels.{levels_of};
ghost use Rattle.rx_print_spelling.specs.Formed.{FormedProgram};
ghost use Rattle.rx_print_spelling.specs.ReadBack.{ReadBack};

/// The canonical text of a formed tree is read back as this tree, apart from spans; it is within the levels of a text
/// exactly where its own levels are.
pub fn print_parses()
    ensures tokens { (p : ProgramTree) → FormedProgram p → ReadBack p }
    ensures text { (p : ProgramTree) → FormedProgram p → levels_of p ≤ levels → (q : ProgramTree) × Parses (print_program p) q × SameProgram q p }
    ensures low { (p q : ProgramTree) → FormedProgram p → Parses (print_program p) q → levels_of p ≤ levels }
{}

/// The tree of a text is formed, whatever its levels.
pub fn texts_are_formed()
    ensures { (bytes : List ℕ) (ts : List Tok) (p : ProgramTree) (h : ℕ) → Lexes bytes ts → IsFile ts p h → FormedProgram p }
{}

/// The canonical text of a text's tree is read back as this tree, apart from spans, where its levels are low enough.
pub fn texts_read_back()
    ensures { (bytes : List ℕ) (ts : List Tok) (p : ProgramTree) (h : ℕ) → Lexes bytes ts → IsFile ts p h → levels_of p ≤ levels → (q : ProgramTree) × Parses (print_program p) q × SameProgram q p }
{}

/// Trees that are equal apart from spans have one canonical text, with the same levels, and both or neither is formed.
pub fn print_same()
    ensures text { (p q : ProgramTree) → SameProgram p q → print_program p ≡ print_program q }
    ensures levels { (p q : ProgramTree) → SameProgram p q → levels_of p ≡ levels_of q }
    ensures formed { (p q : ProgramTree) → SameProgram p q → FormedProgram p → FormedProgram q }
{}
