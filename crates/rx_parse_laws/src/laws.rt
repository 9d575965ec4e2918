//! Laws, each as the contract of a function that does nothing.

ghost use Rattle.std.specs.Prelude.{◌≡◌, ℕ, Bool, List, map, option_map};
ghost use Rattle.rx_tree.specs.declared.tree.Derive.{Derive};
ghost use Rattle.rx_tree.specs.Plain.{ProgramTree};
ghost use Rattle.rx_tree.specs.Erase.{erase, erase_ident, erase_label, erase_type, erase_pattern, erase_body, erase_statement, erase_lifetime, erase_parameter, erase_field, erase_variant, erase_item, erase_program, SameProgram};
ghost use Rattle.rx_lex.specs.Tok.{Tok};
ghost use Rattle.rx_lex.specs.Tokens.{Lexes};
ghost use Rattle.rx_parse_grammar.specs.grammar.Types.{IsType, AreTypes, IsReferenceLifetime, IsLifetimeArgument};
ghost use Rattle.rx_parse_grammar.specs.grammar.Patterns.{IsPattern, ArePatterns, IsFieldPattern, AreFieldPatterns};
ghost use Rattle.rx_parse_grammar.specs.grammar.Expressions.{IsExpression, IsOperand, IsUnary, IsPostfix, IsPrimary, AreArguments, IsField, AreFields, IsLike, IsLabel, IsTest, IsIf, IsElse, AreArms, IsBlock, IsAnnotation, IsStatement, AreStatements, BeginsLike};
ghost use Rattle.rx_parse_grammar.specs.grammar.Items.{AreDerives, AreLifetimes, AreBounds, IsBoundLifetime, AreBoundLifetimes, IsStructField, IsVariant, IsParameter, IsResult, IsItem, IsFile, Parses};
ghost use Rattle.rx_parse_laws.specs.Words.{words, SpeakOfWords};
ghost use Rattle.rx_parse_laws.specs.Parts.{erased_types, erased_patterns, erased_field_pattern, erased_field_patterns, erased_arguments, erased_field, erased_fields, erased_arms, erased_test, Within, erased_within};

/// Derivations of types speak of words alone: tokens with the same words, wherever they stand, are derived with as many
/// levels as a type that is the same apart from spans. So are the parts of types.
pub fn types_speak_of_words()
    ensures types { (h : ℕ) → SpeakOfWords (λ ts y. IsType ts y h) erase_type }
    ensures lists { (h : ℕ) → SpeakOfWords (λ ts ys. AreTypes ts ys h) erased_types }
    ensures references { SpeakOfWords IsReferenceLifetime erase_label }
    ensures arguments { (h : ℕ) → SpeakOfWords (λ ts l. IsLifetimeArgument ts l h) erase_label }
{}

/// The same of patterns and their parts.
pub fn patterns_speak_of_words()
    ensures patterns { (h : ℕ) → SpeakOfWords (λ ts p. IsPattern ts p h) erase_pattern }
    ensures lists { (h : ℕ) → SpeakOfWords (λ ts ps. ArePatterns ts ps h) erased_patterns }
    ensures field { (h : ℕ) → SpeakOfWords (λ ts f. IsFieldPattern ts f h) erased_field_pattern }
    ensures fields { (h : ℕ) → SpeakOfWords (λ ts fs. AreFieldPatterns ts fs h) erased_field_patterns }
{}

/// The same of expressions, of each strength, and of their parts.
pub fn expressions_speak_of_words()
    ensures expressions { (h : ℕ) → SpeakOfWords (λ ts x. IsExpression ts x h) erase }
    ensures operands { (f : Bool) (j h : ℕ) → SpeakOfWords (λ ts x. IsOperand f j ts x h) erase }
    ensures unary { (f : Bool) (h : ℕ) → SpeakOfWords (λ ts x. IsUnary f ts x h) erase }
    ensures postfix { (f : Bool) (h : ℕ) → SpeakOfWords (λ ts x. IsPostfix f ts x h) erase }
    ensures primary { (f : Bool) (h : ℕ) → SpeakOfWords (λ ts x. IsPrimary f ts x h) erase }
    ensures arguments { (h : ℕ) → SpeakOfWords (λ ts xs. AreArguments ts xs h) erased_arguments }
    ensures field { (h : ℕ) → SpeakOfWords (λ ts f. IsField ts f h) erased_field }
    ensures fields { (h : ℕ) → SpeakOfWords (λ ts fs. AreFields ts fs h) erased_fields }
{}

/// The same of expressions that end in a block, of blocks and of what stands in them. Tokens with the same words begin
/// alike, which decides where a statement ends.
pub fn blocks_speak_of_words()
    ensures likes { (h : ℕ) → SpeakOfWords (λ ts x. IsLike ts x h) erase }
    ensures labels { SpeakOfWords IsLabel erase_label }
    ensures tests { (h : ℕ) → SpeakOfWords (λ ts x. IsTest ts x h) erased_test }
    ensures ifs { (h : ℕ) → SpeakOfWords (λ ts x. IsIf ts x h) erase }
    ensures elses { (h : ℕ) → SpeakOfWords (λ ts x. IsElse ts x h) erase }
    ensures arms { (h : ℕ) → SpeakOfWords (λ ts arms. AreArms ts arms h) erased_arms }
    ensures blocks { (h : ℕ) → SpeakOfWords (λ ts b. IsBlock ts b h) erase_body }
    ensures annotations { (h : ℕ) → SpeakOfWords (λ ts y. IsAnnotation ts y h) (option_map erase_type) }
    ensures statement { (h : ℕ) → SpeakOfWords (λ ts s. IsStatement ts s h) erase_statement }
    ensures statements { (h : ℕ) → SpeakOfWords (λ ts (w : Within). AreStatements ts w.0 w.1 h) erased_within }
    ensures begins { (ts us : List Tok) → words us ≡ words ts → BeginsLike ts → BeginsLike us }
{}

/// The same of items, their parts, and whole programs. Derives have no spans, so they are the same.
pub fn items_speak_of_words()
    ensures programs { (h : ℕ) → SpeakOfWords (λ ts p. IsFile ts p h) erase_program }
    ensures items { (h : ℕ) → SpeakOfWords (λ ts i. IsItem ts i h) erase_item }
    ensures derives { (ts us : List Tok) (ds : List Derive) → words us ≡ words ts → AreDerives ts ds → AreDerives us ds }
    ensures lifetimes { SpeakOfWords AreLifetimes (map erase_ident) }
    ensures bounds { SpeakOfWords AreBounds (map erase_ident) }
    ensures bound { (h : ℕ) → SpeakOfWords (λ ts l. IsBoundLifetime ts l h) erase_lifetime }
    ensures bound_lifetimes { SpeakOfWords AreBoundLifetimes (map erase_lifetime) }
    ensures fields { (h : ℕ) → SpeakOfWords (λ ts f. IsStructField ts f h) erase_field }
    ensures variants { (h : ℕ) → SpeakOfWords (λ ts v. IsVariant ts v h) erase_variant }
    ensures parameters { (h : ℕ) → SpeakOfWords (λ ts x. IsParameter ts x h) erase_parameter }
    ensures results { (h : ℕ) → SpeakOfWords (λ ts r. IsResult ts r h) (option_map erase_type) }
{}

/// Where the tokens of a text have the words of another's, it has a program where the other has one, and the programs are
/// the same apart from spans.
pub fn texts_with_the_same_words()
    ensures { (bytes other : List ℕ) (ts us : List Tok) (p : ProgramTree) → Lexes bytes ts → Lexes other us → words us ≡ words ts → Parses bytes p
        → (q : ProgramTree) × Parses other q × SameProgram q p }
{}
