//! The extraction over texts.

ghost use Rattle.std.specs.Prelude.{◌≤◌, ℕ, List, length, IfOk, IfErr, IsUtf8};
ghost use Rattle.rx_lex.specs.Tok.{toks};
ghost use Rattle.rx_tree.specs.PlainOf.{plain-Program};
ghost use Rattle.rx_parse_grammar.specs.grammar.Items.{Parses};
ghost use Rattle.rx_select.specs.OneText.{OneText};
ghost use Rattle.rx_check.specs.Front.{IsCheckedOf, IsFrontOf};
ghost use Rattle.rx_engine_extraction.specs.Deciding.{text_of};
ghost use Rattle.rx_engine_extraction.specs.Hoisting as spec;
ghost use Rattle.rx_engine_extraction.specs.Source.{IsText};
ghost use Rattle.rx_engine_extraction.specs.Verdict.{Answers};

use crate::beginning::{checked, chosen, read, tokens_of};
use crate::confirming::confirmed;
use crate::deciding::decided;
use crate::ending::finished;
use crate::given::{Given, Hoisting, NewProgram, Request};
use crate::hoisting::moved;
use crate::laws::calls_are_formed;
use crate::refusal::{Answer, Fault, Selection};
use rx_check::{Checked, causes_are_one, passed_or_faulty};
use rx_core::LetGo;
use rx_hoist_naming_laws::runs_sit;
use rx_modes_policy::Policy;
use rx_parse::parsed_programs_are_numbered;
use rx_tree::Program;
use std::alloc::Global;

/// What is decided of an accepted text, and its program with the call.
fn hoisted_by<'t, P: Policy>(
    alloc: Global,
    given: &Given<'t, '_>,
    request: &Request<'_>,
    policy: &P,
) -> Result<Hoisting<'t>, Fault>
    requires one_text { OneText (toks given.now.tokens.now.list) given.now.tokens.now.length (plain-Program given.now.program.now) }
    requires short { given.now.tokens.now.length ≤ 1048576 }
    requires front { IsFrontOf (plain-Program given.now.program.now) given.now.front.now }
    requires text { IsUtf8 given.now.text.now }
    ensures found { IfOk result (λ m. spec.IsHoisting (text_of given.now)
        (record { start = request.now.selection.start; end = request.now.selection.end; name = request.now.name.now; choice = P.choice policy.now }) m) }
    ensures fault { IfErr result (λ f. spec.IsStopped (text_of given.now)
        (record { start = request.now.selection.start; end = request.now.selection.end; name = request.now.name.now; choice = P.choice policy.now }) f) }
{
    runs_sit();
    calls_are_formed();
    let run = match chosen(
        alloc,
        given.tokens,
        given.program,
        request.selection,
        request.name,
    ) {
        Ok(run) => run,
        Err(fault) => return Err(fault),
    };
    let decision = match decided(alloc, given, run, request.name, policy) {
        Ok(decision) => decision,
        Err(fault) => return Err(fault),
    };
    match moved(alloc, given, &decision.run, &decision.plans.named) {
        Ok(made) => Ok(Hoisting { decision, made }),
        Err(fault) => Err(fault),
    }
}

/// The extraction from an accepted text.
fn extracted<P: Policy>(
    alloc: Global,
    given: &Given<'_, '_>,
    request: &Request<'_>,
    policy: &P,
) -> Result<Answer, Fault>
    requires one_text { OneText (toks given.now.tokens.now.list) given.now.tokens.now.length (plain-Program given.now.program.now) }
    requires short { given.now.tokens.now.length ≤ 1048576 }
    requires front { IsFrontOf (plain-Program given.now.program.now) given.now.front.now }
    requires text { IsUtf8 given.now.text.now }
    ensures verdict { (bytes : List ℕ) → IsText bytes (text_of given.now)
        → Answers bytes (record { start = request.now.selection.start; end = request.now.selection.end; name = request.now.name.now; choice = P.choice policy.now }) result }
{
    passed_or_faulty();
    causes_are_one();
    let Hoisting { decision, made } = match hoisted_by(alloc, given, request, policy) {
        Ok(hoisting) => hoisting,
        Err(fault) => return Err(fault),
    };
    let NewProgram { program, new_fn } = made;
    let run = &decision.run;
    let plan = &decision.plans.named;
    match finished(alloc, given, run, plan, program, new_fn) {
        Ok(answer) => confirmed(alloc, given, &decision, new_fn, answer),
        Err(fault) => Err(fault),
    }
}

/// Moves the statements that a range of bytes selects into a new function of this name, directly behind the enclosing one, and puts a
/// call in their place; of a text with this program, which passed all passes. How each variable is passed the policy chooses, among the
/// ways that its uses allow.
///
/// # Errors
///
/// The first of the refusals, in their order; or memory runs out.
pub fn extract_checked<P: Policy>(
    alloc: Global,
    text: &[u8],
    program: &Program,
    checked: &Checked,
    selection: Selection,
    name: &str,
    policy: &P,
) -> Result<Answer, Fault>
    requires short { length text.now ≤ 1048576 }
    requires parses { Parses text.now (plain-Program program.now) }
    requires checked { IsCheckedOf (plain-Program program.now) checked.now }
    // An answer keeps its promise; a refusal tells the first condition that is not met.
    ensures verdict { Answers text.now (record { start = selection.start; end = selection.end; name = name.now; choice = P.choice policy.now }) result }
{
    let tokens = match tokens_of(alloc, text) {
        Ok(tokens) => tokens,
        Err(fault) => return Err(fault),
    };
    let given = Given {
        text,
        tokens: &tokens,
        program,
        front: checked.front(),
    };
    let request = Request { selection, name };
    extracted(alloc, &given, &request, policy)
}

/// The same of any text: it is read and checked first.
///
/// # Errors
///
/// The first of: the text is not read, is not accepted, and the refusals in their order.
pub fn extract<P: Policy>(
    alloc: Global,
    text: &[u8],
    selection: Selection,
    name: &str,
    policy: &P,
) -> Result<Answer, Fault>
    requires { length text.now ≤ 1048576 }
    // An answer keeps its promise; a fault has its cause, and a refusal tells the first condition that is not met.
    ensures verdict { Answers text.now (record { start = selection.start; end = selection.end; name = name.now; choice = P.choice policy.now }) result }
{
    parsed_programs_are_numbered();
    let program = match read(alloc, text) {
        Ok(program) => program,
        Err(fault) => return Err(fault),
    };
    let checked = match checked(alloc, &program) {
        Ok(checked) => checked,
        Err(fault) => {
            program.let_go();
            return Err(fault);
        }
    };
    let answer = extract_checked(alloc, text, &program, &checked, selection, name, policy);
    checked.let_go();
    program.let_go();
    answer
}
