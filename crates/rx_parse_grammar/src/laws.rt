//! Laws of the grammar, each as the contract of a function that does nothing.

ghost use Rattle.std.specs.Prelude.{◌≡◌, ℕ, ◌≤◌, ◌<◌, ◌^◌, List, [], ◌∷◌, ◌++◌, length};
ghost use Rattle.std.specs.Prelude.{Ok as Read, Err as Stopped};
ghost use Rattle.rx_tree.specs.Plain.{TypeTree, PatternTree, Expression, ProgramTree};
ghost use Rattle.rx_tree.specs.Size.{IsNumbered};
ghost use Rattle.rx_lex.specs.Tok.{Tok};
ghost use Rattle.rx_parse_grammar.specs.grammar.Words.{span_of};
ghost use Rattle.rx_parse_grammar.specs.grammar.Types.{IsType};
ghost use Rattle.rx_parse_grammar.specs.grammar.Patterns.{IsPattern};
ghost use Rattle.rx_parse_grammar.specs.grammar.Expressions.{IsExpression};
ghost use Rattle.rx_parse_grammar.specs.grammar.Items.{IsFile, Parses};
ghost use Rattle.rx_lex.specs.Words.{IsWord};
ghost use Rattle.rx_lex.specs.Tokens.{Lexes};
ghost use Rattle.rx_parse_grammar.specs.grammar.Begins.{Begins, BeginsNone, BeginsNoneWithin};
ghost use Rattle.rx_parse_grammar.specs.declared.stop.Stop.TheVariants.{Syntax, TooDeep};
ghost use Rattle.rx_parse_grammar.specs.parser.Steps.{Got};
ghost use Rattle.rx_parse_grammar.specs.parser.Types.{typ};
ghost use Rattle.rx_parse_grammar.specs.parser.Patterns.{pattern};
ghost use Rattle.rx_parse_grammar.specs.parser.Blocks.{whole};
ghost use Rattle.rx_parse_grammar.specs.parser.Items.{file};
ghost use Rattle.rx_parse_grammar.specs.parser.Places.{Says};

/// Tokens are a type in at most one way.
pub fn one_type()
    ensures tree { (ts : List Tok) (x y : TypeTree) (g h : ℕ) → IsType ts x g → IsType ts y h → x ≡ y }
    ensures levels { (ts : List Tok) (x y : TypeTree) (g h : ℕ) → IsType ts x g → IsType ts y h → g ≡ h }
{}

/// The parser reads the types of so many levels, and nothing else.
pub fn types_are_read()
    ensures complete { (d : ℕ) (ts : List Tok) (x : TypeTree) (h : ℕ) → h ≤ d → IsType ts x h → typ d ts ≡ Read (record { tree = x; height = h; span = span_of ts }, []) }
    ensures sound { (d : ℕ) (ts : List Tok) (x : Got TypeTree) → typ d ts ≡ Read (x, []) → (x.height ≤ d) × (x.span ≡ span_of ts) × IsType ts x.tree x.height }
{}

/// Tokens are a pattern in at most one way.
pub fn one_pattern()
    ensures tree { (ts : List Tok) (x y : PatternTree) (g h : ℕ) → IsPattern ts x g → IsPattern ts y h → x ≡ y }
    ensures levels { (ts : List Tok) (x y : PatternTree) (g h : ℕ) → IsPattern ts x g → IsPattern ts y h → g ≡ h }
{}

/// The parser reads the patterns of so many levels, and nothing else.
pub fn patterns_are_read()
    ensures complete { (d : ℕ) (ts : List Tok) (x : PatternTree) (h : ℕ) → h ≤ d → IsPattern ts x h → pattern d ts ≡ Read (record { tree = x; height = h; span = span_of ts }, []) }
    ensures sound { (d : ℕ) (ts : List Tok) (x : Got PatternTree) → pattern d ts ≡ Read (x, []) → (x.height ≤ d) × (x.span ≡ span_of ts) × IsPattern ts x.tree x.height }
{}

/// Tokens are an expression in at most one way.
pub fn one_expression()
    ensures tree { (ts : List Tok) (x y : Expression) (g h : ℕ) → IsExpression ts x g → IsExpression ts y h → x ≡ y }
    ensures levels { (ts : List Tok) (x y : Expression) (g h : ℕ) → IsExpression ts x g → IsExpression ts y h → g ≡ h }
{}

/// The parser reads the expressions of so many levels, and nothing else.
pub fn expressions_are_read()
    ensures complete { (d : ℕ) (ts : List Tok) (x : Expression) (h : ℕ) → h ≤ d → IsExpression ts x h → whole d ts ≡ Read (record { tree = x; height = h; span = span_of ts }, []) }
    ensures sound { (d : ℕ) (ts : List Tok) (x : Got Expression) → whole d ts ≡ Read (x, []) → (x.height ≤ d) × (x.span ≡ span_of ts) × IsExpression ts x.tree x.height }
{}

/// Tokens are a program in at most one way.
pub fn one_program()
    ensures tree { (ts : List Tok) (p q : ProgramTree) (g h : ℕ) → IsFile ts p g → IsFile ts q h → p ≡ q }
    ensures levels { (ts : List Tok) (p q : ProgramTree) (g h : ℕ) → IsFile ts p g → IsFile ts q h → g ≡ h }
{}

/// The parser reads the programs of so many levels, and nothing else: where it answers a tree, no token is left.
pub fn programs_are_read()
    ensures complete { (d : ℕ) (ts : List Tok) (p : ProgramTree) (h : ℕ) → h ≤ d → IsFile ts p h → file d ts ≡ Read ((p, h), []) }
    ensures sound { (d : ℕ) (ts rest : List Tok) (p : ProgramTree) (h : ℕ) → file d ts ≡ Read ((p, h), rest) → (rest ≡ []) × (h ≤ d) × IsFile ts p h }
{}

/// Where tokens stop being a program. `Syntax` at a token: those before it begin a program of any depth, and with it they begin
/// none. `Syntax` at the end: all begin one, but are none. `TooDeep` at a token: with it they begin a program of any depth
/// (where it is a word of its class, as each token of a text is), and none of so many levels.
/// The numbers are how many tokens are left, the one in question included.
pub fn places_are_exact()
    ensures says { (d : ℕ) (ts : List Tok) → Says d ts (file d ts) }
    ensures syntax { (d : ℕ) (us rest : List Tok) (t : Tok) → file d (us ++ (t ∷ rest)) ≡ Stopped (Syntax (length (t ∷ rest))) → Begins us × BeginsNone (us ++ (t ∷ [])) }
    ensures end { (d : ℕ) (ts : List Tok) → file d ts ≡ Stopped (Syntax 0) → Begins ts × ((p : ProgramTree) (h : ℕ) → IsFile ts p h → ⊥) }
    ensures too_deep { (d : ℕ) (us rest : List Tok) (t : Tok) → file d (us ++ (t ∷ rest)) ≡ Stopped (TooDeep (length (t ∷ rest))) → (IsWord t.class t.text → Begins (us ++ (t ∷ []))) × BeginsNoneWithin d (us ++ (t ∷ [])) }
    ensures text { (bytes : List ℕ) (us rest : List Tok) (t : Tok) → Lexes bytes (us ++ (t ∷ rest)) → IsWord t.class t.text }
{}

/// The program of fewer than 2^32 tokens, or of a text of fewer bytes, meets the premise on a program's size.
pub fn programs_are_numbered()
    ensures tokens { (ts : List Tok) (p : ProgramTree) (h : ℕ) → IsFile ts p h → length ts < 2 ^ 32 → IsNumbered p }
    ensures text { (bytes : List ℕ) (p : ProgramTree) → Parses bytes p → length bytes < 2 ^ 32 → IsNumbered p }
{}

/// A text has at most one tree.
pub fn one_tree()
    ensures { (bytes : List ℕ) (p q : ProgramTree) → Parses bytes p → Parses bytes q → p ≡ q }
{}
