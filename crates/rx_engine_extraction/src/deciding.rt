//! What is decided of a run: its plan, how its params are passed, and the plan by names.

ghost use Rattle.std.specs.Prelude.{◌≡◌, IfOk, IfErr, Some as SomeOf};
ghost use Rattle.rx_tree.specs.PlainOf.{plain-Program};
ghost use Rattle.rx_tree_operations.specs.NodeOf.{plain-Node};
ghost use Rattle.rx_exits.specs.Asking.{plain-At};
ghost use Rattle.rx_facts.specs.Functions.{body};
ghost use Rattle.rx_exits_plan.specs.Runs as runs;
ghost use Rattle.rx_exits_plan.specs.Runs.{Sits};
ghost use Rattle.rx_exits_jumps.specs.Seen.{first_home};
ghost use Rattle.rx_exits_plan.specs.PlainPlan.{plain-Run, IsExitPlan};
ghost use Rattle.rx_exits_plan.specs.PlainSyntax.{plain-Home};
ghost use Rattle.rx_hoist_nodes.specs.TypedRun.{typed_run as typed_run_of};
ghost use Rattle.rx_engine_extraction.specs.Deciding as spec;
ghost use Rattle.rx_engine_extraction.specs.Failing.{span_if};
ghost use Rattle.rx_engine_extraction.specs.Meeting.{Seated};

use crate::given::{Decision, Given, Plans, Seat};
use crate::names::names_of;
use crate::refusal::{Fault, Refusal};
use rx_core::Span;
use rx_exits::{At, ExitFault, ReachFault, exits, points, reached};
use rx_exits_jumps::home_of;
use rx_exits_plan::ExitPlan;
use rx_hoist_diverging::diverging_lets;
use rx_hoist_naming::{Decided, Source, named_plan, typed_run};
use rx_modes::{ModeFault, ModePlan, modes};
use rx_modes_policy::Policy;
use rx_tree::Program;
use rx_tree_operations::{Node, at, child};
use rx_typeck_typed::TypedFn;
use rx_typed_runs::RunPos;
use std::alloc::Global;

/// The run in the typed tree of its function.
fn seat<'t>(
    alloc: Global,
    program: &Program,
    function: &'t TypedFn,
    run: &RunPos,
) -> Result<Seat<'t>, Fault>
    requires { (h : runs.Home) × Sits (body function.now) (typed_run_of (plain-Program program.now) run.now) h }
    ensures found { IfOk result (λ s. (plain-Run s.run ≡ typed_run_of (plain-Program program.now) run.now)
        × Sits (body function.now) (typed_run_of (plain-Program program.now) run.now) (plain-Home s.home)) }
    ensures first { IfOk result (λ s. first_home (typed_run_of (plain-Program program.now) run.now) (body function.now) ≡ SomeOf (plain-Home s.home)) }
    ensures fault { IfErr result (λ f. f ≡ Fault.OutOfMemory) }
{
    let run = match typed_run(alloc, program, run) {
        Ok(run) => run,
        Err(_) => return Err(Fault::OutOfMemory),
    };
    match home_of(alloc, &function.tree, run) {
        Ok(Some(home)) => Ok(Seat { run, home }),
        Ok(None) => unreachable!(),
        Err(_) => Err(Fault::OutOfMemory),
    }
}

/// A place of a list, or none.
fn span_of(spans: &[Span], number: usize) -> Span
    ensures { result ≡ spec.span_in spans.now number }
{
    match spans.get(number) {
        Some(span) => *span,
        None => Span { start: 0, end: 0 },
    }
}

/// The refusal for a variable, by where it is declared.
fn of_exits(function: &TypedFn, fault: ExitFault) -> Fault
    ensures { result ≡ spec.of_exits function.now fault }
{
    let names = function.names.as_slice();
    match fault {
        ExitFault::MixedInit { var } => Fault::Refused(Refusal::MixedInit {
            var: span_of(names, var as usize),
        }),
        ExitFault::PartlyMoved { var } => Fault::Refused(Refusal::PartlyMoved {
            var: span_of(names, var as usize),
        }),
        ExitFault::Shadowed { var } => Fault::Refused(Refusal::Shadowed {
            var: span_of(names, var as usize),
        }),
        ExitFault::OutOfMemory => Fault::OutOfMemory,
    }
}

/// The refusal for a variable, by where it is declared.
fn of_modes(function: &TypedFn, fault: ModeFault) -> Fault
    ensures { result ≡ spec.of_modes function.now fault }
{
    let names = function.names.as_slice();
    match fault {
        ModeFault::NotMut { var } => Fault::Refused(Refusal::NotMut {
            var: span_of(names, var as usize),
        }),
        ModeFault::Aliased { var } => Fault::Refused(Refusal::Aliased {
            var: span_of(names, var as usize),
        }),
        ModeFault::OutOfMemory => Fault::OutOfMemory,
    }
}

/// Where a statement or an expression stands.
fn span_of_node(node: Node<'_>) -> Span
    ensures { result ≡ span_if (SomeOf (plain-Node node.entry)) }
{
    match node {
        Node::Stmt(stmt) => stmt.span,
        Node::Expr(expr) => expr.span,
        Node::Item(_) => Span { start: 0, end: 0 },
        Node::TypeText(_) => Span { start: 0, end: 0 },
        Node::Block(_) => Span { start: 0, end: 0 },
        Node::Pattern(_) => Span { start: 0, end: 0 },
    }
}

/// Where a statement of a run's block stands, or the block's tail, which is counted last.
fn part_span(program: &Program, run: &RunPos, number: u32) -> Span
    ensures { result ≡ spec.part_span (plain-Program program.now) run.now number }
{
    let block = match at(program, &run.block) {
        Some(block) => block,
        None => return Span { start: 0, end: 0 },
    };
    match child(block, number as usize) {
        Some(part) => span_of_node(part),
        None => Span { start: 0, end: 0 },
    }
}

/// Where it shows that a run is not reached.
fn place_of(program: &Program, function: &TypedFn, run: &RunPos, place: At) -> Span
    ensures { result ≡ spec.place_by (plain-Program program.now) function.now run.now (plain-At place) }
{
    match place {
        At::First => part_span(program, run, run.first),
        At::Last => part_span(program, run, run.last),
        At::Jump(node) => span_of(function.spans.as_slice(), node),
    }
}

/// The refusal for a run that is not reached, or has no exit.
fn of_reach(program: &Program, function: &TypedFn, run: &RunPos, fault: ReachFault) -> Fault
    ensures { result ≡ spec.of_reach (plain-Program program.now) function.now run.now fault }
{
    match fault {
        ReachFault::Unreachable(place) => Fault::Refused(Refusal::Unreachable {
            at: place_of(program, function, run, place),
        }),
        ReachFault::Endless => Fault::Refused(Refusal::Endless),
        ReachFault::OutOfMemory => Fault::OutOfMemory,
    }
}

/// The plan of a run.
fn planned(
    alloc: Global,
    given: &Given<'_, '_>,
    run: &RunPos,
    function: &TypedFn,
    seat: &Seat<'_>,
) -> Result<ExitPlan, Fault>
    requires run { plain-Run seat.now.run ≡ typed_run_of (plain-Program given.now.program.now) run.now }
    requires seated { Seated (spec.text_of given.now) run.now function.now (plain-Home seat.now.home) }
    ensures found { IfOk result (λ k. spec.IsPlanned (spec.text_of given.now) (spec.case_at run.now function.now (plain-Home seat.now.home)) k) }
    ensures fault { IfErr result (λ f. spec.IsUnplanned (spec.text_of given.now) (spec.case_at run.now function.now (plain-Home seat.now.home)) f) }
{
    let front = given.front;
    let loops = seat.home.loops.as_slice();
    let Ok(points) = points(
        alloc,
        &front.typed().decls,
        front.sizes(),
        function,
        seat.run,
        loops,
    ) else {
        return Err(Fault::OutOfMemory);
    };
    match reached(alloc, &seat.home, &points, seat.run) {
        Ok(()) => {}
        Err(fault) => return Err(of_reach(given.program, function, run, fault)),
    }
    let Ok(names) = names_of(alloc, given.program, function.item) else {
        return Err(Fault::OutOfMemory);
    };
    match exits(
        alloc,
        &function.tree,
        &seat.home,
        &points,
        seat.run,
        names.as_slice(),
    ) {
        Ok(planned) => Ok(planned.plan),
        Err(fault) => Err(of_exits(function, fault)),
    }
}

/// How the params of a plan are passed.
fn passed<P: Policy>(
    alloc: Global,
    given: &Given<'_, '_>,
    function: &TypedFn,
    seat: &Seat<'_>,
    plan: &ExitPlan,
    policy: &P,
) -> Result<ModePlan, Fault>
    requires { IsExitPlan (spec.asked_by given.now function.now seat.now) plan.now }
    ensures found { IfOk result (λ m. spec.HasModes (spec.asked_by given.now function.now seat.now) function.now.mutable plan.now (P.choice policy.now) m) }
    ensures fault { IfErr result (λ f. spec.IsUnpassed (spec.asked_by given.now function.now seat.now) function.now plan.now f) }
{
    let front = given.front;
    match modes(
        alloc,
        &front.typed().decls,
        front.sizes(),
        function,
        &seat.home,
        seat.run,
        plan,
        policy,
    ) {
        Ok(passed) => Ok(passed),
        Err(fault) => Err(of_modes(function, fault)),
    }
}

/// The plans of a run in its place.
fn decided_at<P: Policy>(
    alloc: Global,
    given: &Given<'_, '_>,
    run: &RunPos,
    name: &str,
    policy: &P,
    function: &TypedFn,
    seat: &Seat<'_>,
) -> Result<Plans, Fault>
    requires run { plain-Run seat.now.run ≡ typed_run_of (plain-Program given.now.program.now) run.now }
    requires seated { Seated (spec.text_of given.now) run.now function.now (plain-Home seat.now.home) }
    ensures found { IfOk result (λ x. spec.IsDecided (spec.text_of given.now) (spec.case_at run.now function.now (plain-Home seat.now.home)) name.now (P.choice policy.now) x) }
    ensures fault { IfErr result (λ f. spec.IsUndecided (spec.text_of given.now) (spec.case_at run.now function.now (plain-Home seat.now.home)) f) }
{
    let plan = match planned(alloc, given, run, function, seat) {
        Ok(plan) => plan,
        Err(fault) => return Err(fault),
    };
    let passed = match passed(alloc, given, function, seat, &plan, policy) {
        Ok(passed) => passed,
        Err(fault) => return Err(fault),
    };
    let Ok(diverging) = diverging_lets(alloc, &function.tree) else {
        return Err(Fault::OutOfMemory);
    };
    let source = Source {
        program: given.program,
        decls: &given.front.typed().decls,
        function,
        diverging: diverging.as_slice(),
    };
    let decided = Decided {
        run,
        loops: seat.home.loops.as_slice(),
        plan: &plan,
        modes: passed.modes.as_slice(),
        moved: passed.moved.as_slice(),
    };
    match named_plan(alloc, given.tokens, &source, &decided, name) {
        Ok(named) => Ok(Plans {
            plan,
            passed,
            named,
        }),
        Err(_) => Err(Fault::OutOfMemory),
    }
}

/// What is decided of a run of an accepted program.
pub(crate) fn decided<'t, P: Policy>(
    alloc: Global,
    given: &Given<'t, '_>,
    run: RunPos,
    name: &str,
    policy: &P,
) -> Result<Decision<'t>, Fault>
    requires { spec.HasSeat (spec.text_of given.now) run }
    ensures run { IfOk result (λ x. x.run ≡ run) }
    ensures found { IfOk result (λ x. spec.IsDecision (spec.text_of given.now) name.now (P.choice policy.now) x) }
    ensures fault { IfErr result (λ f. spec.IsUnnamed (spec.text_of given.now) run f) }
{
    let function = given.front.function(run.function);
    let seat = match seat(alloc, given.program, function, &run) {
        Ok(seat) => seat,
        Err(fault) => return Err(fault),
    };
    match decided_at(alloc, given, &run, name, policy, function, &seat) {
        Ok(plans) => Ok(Decision {
            run,
            function,
            seat,
            plans,
        }),
        Err(fault) => Err(fault),
    }
}
