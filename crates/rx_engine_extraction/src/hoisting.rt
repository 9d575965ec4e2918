//! The program with the call.

ghost use Rattle.std.specs.Prelude.{◌≡◌, ◌+◌, ◌<◌, ◌≤◌, ◌^◌, [], true, slice_get, IfOk, IfErr, IsUtf8};
ghost use Rattle.rx_tree.specs.PlainOf.{plain-Program};
ghost use Rattle.rx_hoist_plan.specs.PlainPlan.{plain-Plan};
ghost use Rattle.rx_hoist.specs.Runs.{is_function};
ghost use Rattle.rx_print_spelling.specs.Formed.{FormedProgram};
ghost use Rattle.rx_engine_extraction.specs.Deciding.{text_of};
ghost use Rattle.rx_engine_extraction.specs.Meeting.{most_lifetimes};
ghost use Rattle.rx_engine_extraction.specs.Moving as spec;
ghost use Rattle.rx_engine_extraction.specs.Splicing.{IsIn, IsMadeOf};

use crate::deep::too_deep;
use crate::given::{Given, NewProgram};
use crate::refusal::{Fault, Refusal};
use rx_core::{LetGo, Which, keep};
use rx_hoist::{HoistFault, Hoisted, hoist, parts_past};
use rx_hoist_plan::NamedPlan;
use rx_print::print;
use rx_print_laws::short_texts_are_numbered;
use rx_tree::Program;
use rx_typed_runs::RunPos;
use std::alloc::{AllocError, Global};

/// More bytes than what is in a text can be numbered by in 32 bits.
const TOO_MANY_BYTES: usize = 4_294_967_296;

fn of_hoist(fault: HoistFault) -> Fault
    ensures { result ≡ spec.of_hoist fault }
{
    match fault {
        HoistFault::Limit { which, count } => Fault::Refused(Refusal::Limit { which, count }),
        HoistFault::OutOfMemory => Fault::OutOfMemory,
    }
}

/// A limit that is passed.
fn limit(which: Which, count: u64) -> Fault
    ensures { result ≡ spec.limit_told which count }
{
    Fault::Refused(Refusal::Limit { which, count })
}

/// Whether the program with the call is within the limits of levels and parts, and can be numbered by its text.
fn within(
    alloc: Global,
    given: &Given<'_, '_>,
    run: &RunPos,
    plan: &NamedPlan,
    program: &Program,
    new_fn: u32,
) -> Result<(), Fault>
    requires there { IsIn given.now run.now }
    requires made { IsMadeOf given.now run.now (plain-Plan plan.now) (plain-Program program.now) new_fn [] }
    ensures found { IfOk result (λ _. spec.IsWithin (text_of given.now) run.now (plain-Plan plan.now) (plain-Program program.now)) }
    ensures fault { IfErr result (λ f. spec.IsNotWithin (text_of given.now) run.now (plain-Plan plan.now) (plain-Program program.now) f) }
{
    match too_deep(alloc, given, run, plan, program, new_fn) {
        Ok(Some(count)) => return Err(limit(Which::Levels, count)),
        Ok(None) => {}
        Err(AllocError) => return Err(Fault::OutOfMemory),
    }
    if let Some(count) = parts_past(given.front.sizes(), plan) {
        return Err(limit(Which::Parts, count));
    }
    let Ok(text) = print(alloc, program) else {
        return Err(Fault::OutOfMemory);
    };
    let length = text.as_str().len();
    text.let_go();
    if length >= TOO_MANY_BYTES {
        return Err(limit(Which::Bytes, length as u64));
    }
    Ok(())
}

/// The program with the call of a run, within the limits.
pub(crate) fn moved(
    alloc: Global,
    given: &Given<'_, '_>,
    run: &RunPos,
    plan: &NamedPlan,
) -> Result<NewProgram, Fault>
    requires function { is_function (slice_get (plain-Program given.now.program.now) run.now.function) ≡ true }
    requires few { run.now.function + 2 < 2 ^ 32 }
    requires text { IsUtf8 given.now.text.now }
    requires formed { spec.lifetimes_in (text_of given.now) run.now (plain-Plan plan.now) ≤ most_lifetimes → FormedProgram (spec.called (text_of given.now) run.now (plain-Plan plan.now)) }
    ensures found { IfOk result (λ m. spec.IsMoved (text_of given.now) run.now (plain-Plan plan.now) (plain-Program m.program) m.new_fn) }
    ensures fault { IfErr result (λ f. spec.IsUnmoved (text_of given.now) run.now (plain-Plan plan.now) f) }
{
    short_texts_are_numbered();
    let hoisted = match hoist(alloc, given.program, run, plan) {
        Ok(hoisted) => hoisted,
        Err(fault) => return Err(of_hoist(fault)),
    };
    let Hoisted { program, new_fn } = hoisted;
    let outcome = within(alloc, given, run, plan, &program, new_fn);
    match keep(program, outcome) {
        Ok((_, program)) => Ok(NewProgram { program, new_fn }),
        Err(fault) => Err(fault),
    }
}
