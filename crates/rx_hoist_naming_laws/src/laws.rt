//! Laws, each the contract of a function that does nothing.

ghost use Rattle.std.specs.Prelude.{◌≡◌, ℕ, List};
ghost use Rattle.rx_tree.specs.Plain.{ProgramTree};
ghost use Rattle.rx_lex.specs.Tok.{Tok};
ghost use Rattle.rx_resolve_names.specs.declared.resolved.ItemNames.{ItemNames};
ghost use Rattle.rx_typed_runs.specs.declared.runs.RunPos.{RunPos};
ghost use Rattle.rx_typed.specs.PlainTree.{plain-TypedTree};
ghost use Rattle.rx_typeck_typed.specs.declared.typed.Typed.{Typed};
ghost use Rattle.rx_typeck_typed.specs.declared.typed.TypedFn.{TypedFn};
ghost use Rattle.rx_typeck_typed.specs.Typing.{IsTyped};
ghost use Rattle.rx_lower_walks.specs.Walks.{Among};
ghost use Rattle.rx_exits_plan.specs.Runs.{Home, Sits};
ghost use Rattle.rx_select.specs.RunOf.{RunOf};
ghost use Rattle.rx_hoist_nodes.specs.TypedRun.{typed_run};

/// A run of a typed program is one of a function, and sits in the typed tree of that function.
pub fn runs_sit()
    ensures function { (p : ProgramTree) (names : List ItemNames) (t : Typed) (bytes : ℕ) (ts : List Tok) (start end : ℕ) (r : RunPos) → IsTyped p names t → RunOf bytes ts p start end r
        → (f : TypedFn) × Among f t.functions × (f.item ≡ r.function) }
    ensures sits { (p : ProgramTree) (names : List ItemNames) (t : Typed) (bytes : ℕ) (ts : List Tok) (start end : ℕ) (r : RunPos) → IsTyped p names t → RunOf bytes ts p start end r
        → (f : TypedFn) → Among f t.functions → f.item ≡ r.function → (h : Home) × Sits (plain-TypedTree f.tree) (typed_run p r) h }
{}
