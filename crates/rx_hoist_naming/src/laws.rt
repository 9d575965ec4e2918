//! Laws, each the contract of a function that does nothing.

ghost use Rattle.std.specs.Prelude.{◌≡◌, ℕ, ◌<◌, ◌≤◌, ◌^◌, true, false, List, length, drop, Option, Some, slice_get};
ghost use Rattle.rx_core.specs.declared.types.Span.{Span};
ghost use Rattle.rx_tree.specs.Lists.{Every, nth, statements};
ghost use Rattle.rx_tree.specs.Plain as plain;
ghost use Rattle.rx_tree.specs.Plain.{Function, ProgramTree};
ghost use Rattle.rx_tree.specs.Size.{IsNumbered};
ghost use Rattle.rx_resolve_names.specs.declared.resolved.ItemNames.{ItemNames};
ghost use Rattle.rx_resolve_names.specs.Causes.{Meant};
ghost use Rattle.rx_typed.specs.Types.{Typ, result_declared};
ghost use Rattle.rx_typed.specs.PlainTypes.{declarations};
ghost use Rattle.rx_typeck_elaborate_parts.specs.Assigning.{shape_of};
ghost use Rattle.rx_typeck_solver.specs.declared.facts.Subject.{Subject};
ghost use Rattle.rx_typeck_typed.specs.declared.typed.Typed.{Typed};
ghost use Rattle.rx_typeck_typed.specs.declared.typed.TypedFn.{TypedFn};
ghost use Rattle.rx_typeck_typed.specs.Typing.{IsTyped, type_at};
ghost use Rattle.rx_lower_walks.specs.Walks.{Among};
ghost use Rattle.rx_typed.specs.PlainTree.{plain-TypedTree};
ghost use Rattle.rx_exits_plan.specs.Runs.{Run, Home, Sits};
ghost use Rattle.rx_exits_plan.specs.Occurrences.{variables_of_run};
ghost use Rattle.rx_hoist_naming.specs.DeclaredNames.{declared_names};
ghost use Rattle.rx_lex.specs.Tok.{Tok};
ghost use Rattle.rx_lex.specs.Tokens.{Lexes};
ghost use Rattle.rx_typed_runs.specs.declared.runs.RunPos.{RunPos};
ghost use Rattle.rx_select.specs.RunOf.{RunOf};
ghost use Rattle.rx_lex.specs.Words.{is_identifier};
ghost use Rattle.rx_parse_grammar.specs.grammar.Items.{Parses};
ghost use Rattle.rx_exits_plan.specs.Asked.{Asked};
ghost use Rattle.rx_exits_plan.specs.PlainPlan.{IsExitPlan};
ghost use Rattle.rx_hoist_extraction.specs.NewFunction.{signature_positions};
ghost use Rattle.rx_hoist_extraction.specs.FormedPlan.{FormedPlan};
ghost use Rattle.rx_hoist_extraction.specs.Run.{Run as BlockRun, run_block, goes_past};
ghost use Rattle.rx_hoist_extraction.specs.Plan.{Pins};
ghost use Rattle.rx_hoist_extraction.specs.Pinned.{pinned_function};
ghost use Rattle.rx_hoist_naming.specs.NamedPlan.{Told, named_plan};
ghost use Rattle.rx_hoist_naming.specs.Words.{NamesTypes, HasNames, OutsAgree};

use rx_print_spelling::texts_are_formed;
use rx_typeck_typed::{signatures_are_well_formed, sizes_are_sized};

/// The types of a typed program whose names have a meaning name structs and enums alone: those of a function's variables, nodes and
/// places, and the results of functions.
pub fn types_name_types()
    ensures tables { (p : ProgramTree) (names : List ItemNames) (t : Typed) → IsNumbered p → Meant p names → IsTyped p names t → (f : TypedFn) → Among f t.functions → (x : Subject)
        → NamesTypes p (shape_of (type_at f x)) }
    ensures results { (p : ProgramTree) (names : List ItemNames) (t : Typed) → IsNumbered p → Meant p names → IsTyped p names t → (n : ℕ) (u : Typ)
        → result_declared (slice_get (declarations t.decls.items) n) ≡ Some u → NamesTypes p u }
{
    signatures_are_well_formed();
    sizes_are_sized();
}

/// Each variable that the tree of a function of such a program names or declares has a name among those that its item declares, by its
/// number.
pub fn variables_have_names()
    ensures { (p : ProgramTree) (names : List ItemNames) (t : Typed) → IsNumbered p → Meant p names → IsTyped p names t → (f : TypedFn) → Among f t.functions → HasNames p f }
{
    signatures_are_well_formed();
    sizes_are_sized();
}

/// So has each variable of a run that sits in it.
pub fn runs_have_names()
    ensures { (p : ProgramTree) (names : List ItemNames) (t : Typed) → IsNumbered p → Meant p names → IsTyped p names t → (f : TypedFn) → Among f t.functions → (r : Run) (h : Home)
        → Sits (plain-TypedTree f.tree) r h → Every (λ (x : ℕ). x < length (declared_names (slice_get p f.item))) (variables_of_run r h.body) }
{
    variables_have_names();
}

/// The plan by names of a run, by a plan by numbers, is formed: what it names are words of the text. Its lifetime positions are to be
/// few, since a type may have very many.
pub fn named_plans_are_formed()
    ensures { (A : Told) (bytes : List ℕ) (names : List ItemNames) (t : Typed) → Lexes bytes A.tokens → Parses bytes A.program → length bytes < 2 ^ 32 → Meant A.program names → IsTyped A.program names t
        → A.declared ≡ declarations t.decls.items → Among A.function t.functions → is_identifier A.name ≡ true → (q : Asked) → Sits (plain-TypedTree A.function.tree) q.run q.home
        → IsExitPlan q A.plan → OutsAgree A.plan.exits → signature_positions A.program (named_plan A) ≤ 2 ^ 32 → FormedPlan A.program (named_plan A) }
{
    types_name_types();
    runs_have_names();
    texts_are_formed();
}

/// Where a run goes past no statement of its block, as that stands in the function whose kinds and types are written out, the block's
/// tail is not of it.
pub fn tails_go_past()
    ensures { (P : ProgramTree) (bytes : ℕ) (ts : List Tok) (start end : ℕ) (r : RunPos) → RunOf bytes ts P start end r → (s : Span) (f : Function) → nth P r.function ≡ Some (plain.function_item s f)
        → (at : Span) (pins : Option Pins) (R : BlockRun) → R.way ≡ drop 1 r.block.path → R.last ≡ r.last
        → goes_past R (statements (run_block R (pinned_function P at pins f))) ≡ false → r.tail ≡ false }
{}
