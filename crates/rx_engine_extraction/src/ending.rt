//! The end of an extraction: the program with the call gets the bounds that its new function needs, is checked, and gets its text.

ghost use Rattle.std.specs.Prelude.{◌≡◌, [], true, slice_get, IfOk, IfErr};
ghost use Rattle.rx_tree.specs.PlainOf.{plain-Program};
ghost use Rattle.rx_tree.specs.Size.{IsNumbered};
ghost use Rattle.rx_check.specs.Front.{IsFrontOf};
ghost use Rattle.rx_check.specs.Passes.{Accepted};
ghost use Rattle.rx_check.specs.declared.fault.CheckFault.TheVariants as check_fault;
ghost use Rattle.rx_engine_extraction.specs.Ending as spec;
ghost use Rattle.rx_hoist.specs.Runs.{is_function};
ghost use Rattle.rx_hoist_plan.specs.PlainPlan.{plain-Plan};
ghost use Rattle.rx_hoist_extraction.specs.Plan.{Bounds};
ghost use Rattle.rx_print_spelling.specs.Formed.{FormedProgram};
ghost use Rattle.rx_engine_extraction.specs.Hoisting.{IsBare};
ghost use Rattle.rx_engine_extraction.specs.Splicing.{IsIn, IsMadeOf, rendered_by};

use crate::given::Given;
use crate::refusal::{Answer, Fault, Refusal};
use crate::rendering::rendered;
use rx_check::{CheckFault, FrontEnd, LoanFault, check, front};
use rx_core::{Bound, LetGo, List, Text, Which, keep};
use rx_hoist_plan::NamedPlan;
use rx_lower_lifetimes::LowerFault;
use rx_repair::{
    Repaired, functions_without_bounds_declare_none, repair, repaired_programs_are_numbered,
};
use rx_tree::Program;
use rx_typed_runs::RunPos;
use std::alloc::{AllocError, Global};

/// The most sites of a function.
const MOST_SITES: u64 = 16_384;

/// The most bytes of an answer.
const MOST_BYTES: usize = 1_048_576;

/// A graph that passes its limit: by its sites, or else by its lifetime positions.
fn too_large(sites: u64, positions: u64) -> Refusal
    ensures { result ≡ spec.too_large sites positions }
{
    if sites > MOST_SITES {
        Refusal::Limit {
            which: Which::Sites,
            count: sites,
        }
    } else {
        Refusal::Limit {
            which: Which::Positions,
            count: positions,
        }
    }
}

/// A fault of the graphs of the program with the call.
fn of_lower(fault: LowerFault) -> Fault
    ensures { result ≡ spec.of_front (check_fault.Lower fault) }
{
    match fault {
        LowerFault::TooLarge {
            sites,
            lifetimes,
            ..
        } => Fault::Refused(too_large(sites, lifetimes)),
        LowerFault::OutOfMemory => Fault::OutOfMemory,
    }
}

/// A fault of the program with the call.
fn of_front(fault: CheckFault) -> Fault
    ensures { result ≡ spec.of_front fault }
{
    match fault {
        CheckFault::OutOfMemory => Fault::OutOfMemory,
        CheckFault::Lower(fault) => of_lower(fault),
        fault => Fault::Refused(Refusal::Unfit { fault }),
    }
}

/// A fault of the loans of the program with the call and bounds.
fn of_loans(fault: LoanFault) -> Fault
    ensures { result ≡ spec.of_check (check_fault.Loan fault) }
{
    match fault {
        LoanFault::Loan { borrow, access } => Fault::Refused(Refusal::Loan { borrow, access }),
        LoanFault::OutOfMemory => Fault::OutOfMemory,
    }
}

/// A fault of the program with the call and bounds.
fn of_check(fault: CheckFault) -> Fault
    ensures { result ≡ spec.of_check fault }
{
    match fault {
        CheckFault::OutOfMemory => Fault::OutOfMemory,
        CheckFault::Region {
            function,
            long,
            short,
        } => Fault::Refused(Refusal::Region {
            function,
            long,
            short,
        }),
        CheckFault::Loan(fault) => of_loans(fault),
        fault => Fault::Refused(Refusal::Unfit { fault }),
    }
}

/// What the passes up to initialisation know of the program with the call.
fn fronted(alloc: Global, program: &Program) -> Result<FrontEnd, Fault>
    requires { IsNumbered (plain-Program program.now) }
    ensures found { IfOk result (λ f. IsFrontOf (plain-Program program.now) f) }
    ensures fault { IfErr result (λ f. spec.IsUnfronted (plain-Program program.now) f) }
{
    match front(alloc, program) {
        Ok(front) => Ok(front),
        Err(fault) => Err(of_front(fault)),
    }
}

/// Whether the program with the call and bounds is accepted.
fn rechecked(alloc: Global, program: &Program) -> Result<(), Fault>
    requires { IsNumbered (plain-Program program.now) }
    ensures accepted { IfOk result (λ _. Accepted (plain-Program program.now)) }
    ensures fault { IfErr result (λ f. spec.IsUnchecked (plain-Program program.now) f) }
{
    match check(alloc, program) {
        Ok(checked) => {
            checked.let_go();
            Ok(())
        }
        Err(fault) => Err(of_check(fault)),
    }
}

/// The text of the extraction with its bounds.
fn text_of(
    alloc: Global,
    given: &Given<'_, '_>,
    run: &RunPos,
    plan: &NamedPlan,
    program: &Program,
    new_fn: u32,
) -> Result<Text, Fault>
    requires there { IsIn given.now run.now }
    requires made { is_function (slice_get (plain-Program program.now) new_fn) ≡ true }
    ensures found { (bs : Bounds) → IsMadeOf given.now run.now (plain-Plan plan.now) (plain-Program program.now) new_fn bs
        → IfOk result (λ t. rendered_by given.now run.now (plain-Plan plan.now) bs t) }
    ensures fault { (bs : Bounds) → IsMadeOf given.now run.now (plain-Plan plan.now) (plain-Program program.now) new_fn bs
        → IfErr result (λ f. spec.IsUnwritten (rendered_by given.now run.now (plain-Plan plan.now) bs) f) }
{
    match rendered(alloc, given, run, plan, program, new_fn) {
        Ok(Some(text)) => Ok(text),
        Ok(None) => Err(Fault::Refused(Refusal::Unconfirmed)),
        Err(AllocError) => Err(Fault::OutOfMemory),
    }
}

/// The same, where it is not too long.
fn printed(
    alloc: Global,
    given: &Given<'_, '_>,
    run: &RunPos,
    plan: &NamedPlan,
    program: Program,
    new_fn: u32,
    bounds: List<Bound>,
) -> Result<Answer, Fault>
    requires there { IsIn given.now run.now }
    requires made { is_function (slice_get (plain-Program program) new_fn) ≡ true }
    ensures found { (bs : Bounds) → IsMadeOf given.now run.now (plain-Plan plan.now) (plain-Program program) new_fn bs
        → IfOk result (λ a. spec.IsPrinted (rendered_by given.now run.now (plain-Plan plan.now) bs) bounds a) }
    ensures fault { (bs : Bounds) → IsMadeOf given.now run.now (plain-Plan plan.now) (plain-Program program) new_fn bs
        → IfErr result (λ f. spec.IsUnprinted (rendered_by given.now run.now (plain-Plan plan.now) bs) f) }
{
    let outcome = text_of(alloc, given, run, plan, &program, new_fn);
    program.let_go();
    let (text, bounds) = match keep(bounds, outcome) {
        Ok(both) => both,
        Err(fault) => return Err(fault),
    };
    let length = text.as_str().len();
    if length > MOST_BYTES {
        text.let_go();
        bounds.let_go();
        return Err(Fault::Refused(Refusal::Limit {
            which: Which::Bytes,
            count: length as u64,
        }));
    }
    Ok(Answer { text, bounds })
}

/// The answer of a program with the call and bounds.
fn answered(
    alloc: Global,
    given: &Given<'_, '_>,
    run: &RunPos,
    plan: &NamedPlan,
    repaired: Repaired,
    new_fn: u32,
) -> Result<Answer, Fault>
    requires there { IsIn given.now run.now }
    requires made { is_function (slice_get (plain-Program repaired.program) new_fn) ≡ true }
    requires numbered { IsNumbered (plain-Program repaired.program) }
    ensures found { (bs : Bounds) → IsMadeOf given.now run.now (plain-Plan plan.now) (plain-Program repaired.program) new_fn bs
        → IfOk result (λ a. spec.IsAnswered (rendered_by given.now run.now (plain-Plan plan.now) bs) (plain-Program repaired.program) repaired.bounds a) }
    ensures fault { (bs : Bounds) → IsMadeOf given.now run.now (plain-Plan plan.now) (plain-Program repaired.program) new_fn bs
        → IfErr result (λ f. spec.IsUnanswered (rendered_by given.now run.now (plain-Plan plan.now) bs) (plain-Program repaired.program) f) }
{
    let Repaired { program, bounds } = repaired;
    let outcome = rechecked(alloc, &program);
    let (_, held) = match keep((program, bounds), outcome) {
        Ok(both) => both,
        Err(fault) => return Err(fault),
    };
    let (program, bounds) = held;
    printed(alloc, given, run, plan, program, new_fn, bounds)
}

/// The answer of a program with the call of a run, whose new function is the item of this number.
pub(crate) fn finished(
    alloc: Global,
    given: &Given<'_, '_>,
    run: &RunPos,
    plan: &NamedPlan,
    program: Program,
    new_fn: u32,
) -> Result<Answer, Fault>
    requires there { IsIn given.now run.now }
    requires made { IsMadeOf given.now run.now (plain-Plan plan.now) (plain-Program program) new_fn [] }
    requires numbered { IsNumbered (plain-Program program) }
    requires bare { IsBare (plain-Program program) new_fn }
    requires formed { FormedProgram (plain-Program program) }
    ensures { spec.IsFinished (rendered_by given.now run.now (plain-Plan plan.now)) (plain-Program program) new_fn result }
{
    functions_without_bounds_declare_none();
    repaired_programs_are_numbered();
    let outcome = fronted(alloc, &program);
    let (front, program) = match keep(program, outcome) {
        Ok(both) => both,
        Err(fault) => return Err(fault),
    };
    let outcome = repair(alloc, program, new_fn, &front);
    front.let_go();
    match outcome {
        Ok(repaired) => answered(alloc, given, run, plan, repaired, new_fn),
        Err(_) => Err(Fault::OutOfMemory),
    }
}
