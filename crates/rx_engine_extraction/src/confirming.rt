//! Whether an answer is found to be the extraction: it is read and checked, and its typed program is compared with the text's.

ghost use Rattle.std.specs.Prelude.{◌≡◌, ◌↔◌, ◌+◌, ◌≤◌, ℕ, true, false, length, Some as SomeOf, IfOk, IfErr};
ghost use Rattle.rx_tree.specs.PlainOf.{plain-Program};
ghost use Rattle.rx_tree.specs.Size.{IsNumbered};
ghost use Rattle.rx_typed.specs.PlainTypes.{declarations};
ghost use Rattle.rx_check.specs.Front.{IsFrontOf};
ghost use Rattle.rx_machine.specs.Functions.{typed_functions, program_of};
ghost use Rattle.rx_engine_extracted.specs.PlainPrograms.{plain-Functions};
ghost use Rattle.rx_engine_extraction.specs.Confirmed as confirmed;
ghost use Rattle.rx_engine_extracted.specs.Programs.{extracts as extracts_as};
ghost use Rattle.rx_engine_extraction.specs.Confirmed.{is_of_unit as is_of_unit_by, whole_of, told_by, IsConfirmed};
ghost use Rattle.rx_engine_extraction.specs.Confirming as spec;
ghost use Rattle.rx_engine_extraction.specs.Deciding.{text_of, case_of};

use crate::given::{Decision, Given};
use crate::refusal::{Answer, Fault, Refusal};
use crate::told::{elsewhere, is_of_unit, units_of};
use rx_check::{CheckFault, FrontEnd, check, passed_or_faulty};
use rx_core::{LetGo, keep};
use rx_engine_alike::Items;
use rx_engine_extracted::{New, Told, Whole, extracts};
use rx_facts::one_typing;
use rx_machine::table;
use rx_parse::{SyntaxFault, parse, parsed_programs_are_numbered};
use rx_parse_grammar::one_tree;
use rx_tree::Program;
use rx_typeck_typed::TypedFn;
use rx_typed::TypedTree;
use std::alloc::{AllocError, Global};

/// As many variables of a function as 32 bits number.
const MOST_VARIABLES: usize = 4_294_967_295;

/// The functions of a program by their items' numbers.
fn trees(alloc: Global, front: &FrontEnd) -> Result<Vec<Option<&TypedTree>>, AllocError>
    ensures { IfOk result (λ it. plain-Functions it.items ≡ typed_functions (declarations front.now.typed.decls.items) front.now.typed.functions) }
{
    let typed = front.typed();
    table(
        alloc,
        typed.decls.items.as_slice(),
        typed.functions.as_slice(),
    )
}

/// Whether the answer's program is the text's with the call of this function, where so many items are new.
fn compared(
    alloc: Global,
    given: &Given<'_, '_>,
    decision: &Decision<'_>,
    new_fn: u32,
    made: u32,
    function: &TypedFn,
    answer: &FrontEnd,
) -> Result<bool, AllocError>
    requires told { spec.IsTold (text_of given.now) decision.now }
    requires front { IsFrontOf (plain-Program given.now.program.now) given.now.front.now }
    requires few { length function.now.names ≤ 4294967295 }
    ensures { IfOk result (λ it. it ≡ extracts_as (told_by (text_of given.now) (case_of (text_of given.now) decision.now) new_fn made (is_of_unit_by (declarations answer.now.typed.decls.items) new_fn) function.now) decision.now.run.function
        (whole_of (plain-Program given.now.program.now) given.now.front.now.typed) (program_of answer.now.typed answer.now.main)) }
{
    let item = decision.run.function;
    let plan = &decision.plans.plan;
    let passed = &decision.plans.passed;
    let elsewhere = elsewhere(alloc, plan, passed.given_away.as_slice())?;
    let functions = trees(alloc, given.front)?;
    let others = trees(alloc, answer)?;
    let units = units_of(alloc, given.front.typed(), functions.as_slice())?;
    let gives_unit = is_of_unit(&answer.typed().decls, new_fn);
    let told = Told {
        run: decision.seat.run,
        around: decision.seat.home.loops.as_slice(),
        plan,
        modes: passed.modes.as_slice(),
        elsewhere: elsewhere.as_slice(),
        muts: decision.function.mutable.as_slice(),
        new: New {
            number: new_fn,
            function: &function.tree,
        },
        beyond: function.names.as_slice().len() as u32,
        items: Items { item, made },
        units: units.as_slice(),
        gives_unit,
    };
    let text = Whole {
        functions: functions.as_slice(),
        main: given.front.main(),
    };
    let other = Whole {
        functions: others.as_slice(),
        main: answer.main(),
    };
    extracts(alloc, &told, item, text, other)
}

/// The same of a function whose variables can be numbered in 32 bits; of no other.
fn is_extracted(
    alloc: Global,
    given: &Given<'_, '_>,
    decision: &Decision<'_>,
    new_fn: u32,
    made: u32,
    function: &TypedFn,
    answer: &FrontEnd,
) -> Result<bool, AllocError>
    requires told { spec.IsTold (text_of given.now) decision.now }
    requires front { IsFrontOf (plain-Program given.now.program.now) given.now.front.now }
    ensures { IfOk result (λ it. it ≡ confirmed.is_extracted (text_of given.now) (case_of (text_of given.now) decision.now) new_fn made
        (is_of_unit_by (declarations answer.now.typed.decls.items) new_fn) (program_of answer.now.typed answer.now.main) (SomeOf function.now)) }
{
    if function.names.as_slice().len() > MOST_VARIABLES {
        return Ok(false);
    }
    compared(alloc, given, decision, new_fn, made, function, answer)
}

/// Whether the answer's program is found to be the extraction, where the new function has this number.
fn is_found(
    alloc: Global,
    given: &Given<'_, '_>,
    decision: &Decision<'_>,
    new_fn: u32,
    made: u32,
    answer: &FrontEnd,
) -> Result<bool, AllocError>
    requires told { spec.IsTold (text_of given.now) decision.now }
    requires front { IsFrontOf (plain-Program given.now.program.now) given.now.front.now }
    ensures { IfOk result (λ it. it ≡ spec.found_in (text_of given.now) (case_of (text_of given.now) decision.now) new_fn made
        (program_of answer.now.typed answer.now.main) answer.now.typed) }
{
    if !answer.is_function(new_fn) {
        return Ok(false);
    }
    let function = answer.function(new_fn);
    is_extracted(alloc, given, decision, new_fn, made, function, answer)
}

/// A fault of the answer, of which want of memory alone is one here.
fn of_check(fault: CheckFault) -> Result<bool, Fault>
    ensures { result ≡ spec.unless_memory (spec.lacks_memory fault) }
{
    match fault {
        CheckFault::OutOfMemory => Err(Fault::OutOfMemory),
        _ => Ok(false),
    }
}

/// Whether this program is accepted, and found to be the extraction.
fn is_extraction(
    alloc: Global,
    given: &Given<'_, '_>,
    decision: &Decision<'_>,
    new_fn: u32,
    made: u32,
    program: &Program,
) -> Result<bool, Fault>
    requires told { spec.IsTold (text_of given.now) decision.now }
    requires front { IsFrontOf (plain-Program given.now.program.now) given.now.front.now }
    requires numbered { IsNumbered (plain-Program program.now) }
    ensures found { IfOk result (λ it. (it ≡ true) ↔ spec.IsFoundIn (text_of given.now) (case_of (text_of given.now) decision.now) new_fn made (plain-Program program.now)) }
    ensures fault { IfErr result (λ f. f ≡ Fault.OutOfMemory) }
{
    one_typing();
    passed_or_faulty();
    let checked = match check(alloc, program) {
        Ok(checked) => checked,
        Err(fault) => return of_check(fault),
    };
    let outcome = is_found(alloc, given, decision, new_fn, made, checked.front());
    checked.let_go();
    match outcome {
        Ok(found) => Ok(found),
        Err(_) => Err(Fault::OutOfMemory),
    }
}

/// A fault of the answer's text, of which want of memory alone is one here.
fn of_syntax(fault: SyntaxFault) -> Result<bool, Fault>
    ensures { result ≡ spec.unless_memory (spec.lacks_memory_read fault) }
{
    match fault {
        SyntaxFault::OutOfMemory => Err(Fault::OutOfMemory),
        _ => Ok(false),
    }
}

/// Whether this text is read as a program that is found to be the extraction.
fn is_confirmed(
    alloc: Global,
    given: &Given<'_, '_>,
    decision: &Decision<'_>,
    new_fn: u32,
    made: u32,
    text: &[u8],
) -> Result<bool, Fault>
    requires told { spec.IsTold (text_of given.now) decision.now }
    requires front { IsFrontOf (plain-Program given.now.program.now) given.now.front.now }
    requires short { length text.now ≤ 1048576 }
    ensures found { IfOk result (λ it. (it ≡ true) ↔ IsConfirmed (text_of given.now) (case_of (text_of given.now) decision.now) new_fn made text.now) }
    ensures fault { IfErr result (λ f. f ≡ Fault.OutOfMemory) }
{
    one_tree();
    parsed_programs_are_numbered();
    let program = match parse(alloc, text) {
        Ok(program) => program,
        Err(fault) => return of_syntax(fault),
    };
    let outcome = is_extraction(alloc, given, decision, new_fn, made, &program);
    program.let_go();
    outcome
}

/// The answer, where the program that its text is read as is found to be the extraction.
pub(crate) fn confirmed(
    alloc: Global,
    given: &Given<'_, '_>,
    decision: &Decision<'_>,
    new_fn: u32,
    answer: Answer,
) -> Result<Answer, Fault>
    requires told { spec.IsTold (text_of given.now) decision.now }
    requires front { IsFrontOf (plain-Program given.now.program.now) given.now.front.now }
    requires behind { decision.now.run.function ≤ new_fn }
    requires short { length answer.text ≤ 1048576 }
    ensures { (made : ℕ) → new_fn ≡ decision.now.run.function + made → spec.IsJudged (text_of given.now) (case_of (text_of given.now) decision.now) new_fn made answer result }
{
    let made = new_fn - decision.run.function;
    let text = answer.text.as_str().as_bytes();
    let outcome = is_confirmed(alloc, given, decision, new_fn, made, text);
    let (found, answer) = match keep(answer, outcome) {
        Ok(both) => both,
        Err(fault) => return Err(fault),
    };
    if !found {
        answer.let_go();
        return Err(Fault::Refused(Refusal::Unconfirmed));
    }
    Ok(answer)
}
