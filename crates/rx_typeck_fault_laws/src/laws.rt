//! Laws of demands and of what is broken where they aren't met, each as the contract of a function that does nothing.

ghost use Rattle.std.specs.Prelude.{◌≡◌, ◌↔◌, ℕ, List as ListOf, Some, slice_get};
ghost use Rattle.rx_core.specs.declared.types.Span.{Span};
ghost use Rattle.rx_tree.specs.Plain.{Function, ProgramTree};
ghost use Rattle.rx_resolve_names.specs.declared.resolved.ItemNames.{ItemNames};
ghost use Rattle.rx_resolve_names.specs.declared.resolved.NodeNames.{NodeNames};
ghost use Rattle.rx_typed.specs.Naming.{function_named};
ghost use Rattle.rx_typeck_solver.specs.declared.facts.Broken.{Broken};
ghost use Rattle.rx_typeck_solver.specs.declared.facts.Demand.{Demand};
ghost use Rattle.rx_typeck_solver.specs.Facts.{KnownItems};
ghost use Rattle.rx_typeck_solver.specs.Valid.{Breaks};
ghost use Rattle.rx_typeck_typed.specs.Demands.{task, demands};
ghost use Rattle.rx_typeck_typed.specs.Typing.{FunctionUntyped, Causes};
ghost use Rattle.rx_typeck_typed.specs.declared.typed.TypeFault.{TypeFault};
ghost use Rattle.rx_typeck_fault_laws.specs.TypeRules.{rule_of};
ghost use Rattle.rx_typeck_fault_laws.specs.Breaking.{BreaksRule, FunctionBreaks, Faulty};

/// A demand of a function is what one rule asks at one node: two of the same node and the same rule ask the same facts.
pub fn single_demands()
    ensures { (i : ℕ) (s : Span) (f : Function) (ns : ListOf NodeNames) (j k : ℕ) (d e : Demand)
        → slice_get (demands (function_named i s f ns)) j ≡ Some d → slice_get (demands (function_named i s f ns)) k ≡ Some e
        → d.node ≡ e.node → rule_of d ≡ rule_of e → d.facts ≡ e.facts }
{}

/// A node of a function breaks a rule exactly where there is a set of single demands, each chosen by its node and its rule, such
/// that some assignment meets all of them, and none meets them together with the demands of the rule at the node. So it is of
/// the fault of each function that has no valid assignment, unless it isn't clear at the node which type is meant; and so of each
/// fault of a program's types.
pub fn faults_break_rules()
    ensures both { (K : KnownItems) (i : ℕ) (s : Span) (f : Function) (ns : ListOf NodeNames) (n : ℕ) (b : Broken)
        → Breaks K (task (function_named i s f ns)) n b ↔ BreaksRule K (task (function_named i s f ns)) n b }
    ensures untyped { (K : KnownItems) (i : ℕ) (s : Span) (f : Function) (ns : ListOf NodeNames) (vars : ListOf Span) (e : TypeFault)
        → FunctionUntyped K (function_named i s f ns) vars e → FunctionBreaks K (function_named i s f ns) vars e }
    ensures faults { (p : ProgramTree) (ns : ListOf ItemNames) (e : TypeFault) → Causes p ns e → Faulty p ns e }
{}
