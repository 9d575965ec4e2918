//! Laws of runs, each the contract of a function that does nothing.

ghost use Rattle.std.specs.Prelude.{◌≡◌, ℕ, List};
ghost use Rattle.rx_tree.specs.Plain.{ProgramTree};
ghost use Rattle.rx_lex.specs.Tok.{Tok};
ghost use Rattle.rx_typed_runs.specs.declared.runs.RunPos.{RunPos};
ghost use Rattle.rx_select.specs.RunOf.{RunOf};
ghost use Rattle.rx_select.specs.OneText.{OneText};

/// A range of bytes selects at most one run, whatever the nesting: so its block is the first one, and the last.
pub fn one_run()
    ensures { (bytes start end : ℕ) (ts : List Tok) (p : ProgramTree) (r q : RunPos) → OneText ts bytes p → RunOf bytes ts p start end r → RunOf bytes ts p start end q → r ≡ q }
{}
