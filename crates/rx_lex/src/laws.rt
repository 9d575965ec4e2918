//! Laws of tokens, each as the contract of a function that does nothing.

ghost use Rattle.std.specs.Prelude.{◌≡◌, ℕ, ◌⊎◌, List, Option, IsUtf8};
ghost use Rattle.rx_core.specs.declared.types.Kind.{Kind};
ghost use Rattle.rx_lex.specs.Numerals.{IsNumeral};
ghost use Rattle.rx_lex.specs.Tok.{Tok};
ghost use Rattle.rx_lex.specs.Tokens.{Lexes, Stuck};

/// A text has at most one list of tokens.
pub fn one_token_list()
    ensures { (bytes : List ℕ) (ts us : List Tok) → Lexes bytes ts → Lexes bytes us → ts ≡ us }
{}

/// A text has tokens or gets stuck, and not both.
pub fn tokens_or_stuck()
    ensures one { (bytes : List ℕ) → IsUtf8 bytes → ((ts : List Tok) × Lexes bytes ts) ⊎ ((at : ℕ) × Stuck 0 bytes at) }
    ensures not_both { (bytes : List ℕ) (ts : List Tok) (at : ℕ) → Lexes bytes ts → Stuck 0 bytes at → ⊥ }
{}

/// A text gets stuck at one place at most.
pub fn one_stuck_place()
    ensures { (bytes : List ℕ) (at other : ℕ) → Stuck 0 bytes at → Stuck 0 bytes other → at ≡ other }
{}

/// A word is a number in at most one way.
pub fn one_number()
    ensures { (word : List ℕ) (v u : ℕ) (k j : Option Kind) → IsNumeral word v k → IsNumeral word u j → (v ≡ u) × (k ≡ j) }
{}
