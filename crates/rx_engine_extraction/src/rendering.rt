//! The text of an extraction: the file's own bytes with the edits.

ghost use Rattle.std.specs.Prelude.{◌≡◌, ◌≢◌, ◌↔◌, Some as SomeOf, true, false, slice_get, option_map, IfOk, IsTrue, SomeIff, IsUtf8};
ghost use Rattle.std.specs.Option.{option_copied};
ghost use Rattle.rx_tree.specs.Lists.{nth};
ghost use Rattle.rx_tree.specs.Plain as plain;
ghost use Rattle.rx_tree.specs.Plain.{Function};
ghost use Rattle.rx_tree.specs.PlainOf.{plain-Block, plain-Enum, plain-Func, plain-Item, plain-Program};
ghost use Rattle.rx_core.specs.declared.types.Span.{Span};
ghost use Rattle.rx_lex.specs.Tok.{toks};
ghost use Rattle.rx_parse.specs.declared.fault.SyntaxFault.TheVariants as faults;
ghost use Rattle.rx_hoist.specs.Hoisting as hoisting;
ghost use Rattle.rx_hoist.specs.Runs.{is_function};
ghost use Rattle.rx_hoist_plan.specs.PlainPlan.{plain-Plan};
ghost use Rattle.rx_hoist_extraction.specs.Plan.{Bounds};
ghost use Rattle.rx_splice_laws.specs.SplicedText as spliced_texts;
ghost use Rattle.rx_engine_extraction.specs.Made.{run_of};
ghost use Rattle.rx_engine_extraction.specs.Rendering.{CanBeMade, IsReadAs};
ghost use Rattle.rx_engine_extraction.specs.Splicing as spec;

use crate::given::Given;
use rx_core::{LetGo, Text};
use rx_hoist::{block_at, from_on, function_at, labels_round, no_block, run_parts};
use rx_hoist_made::has_enum;
use rx_hoist_plan::NamedPlan;
use rx_parse::{SyntaxFault, parse};
use rx_splice_edits::{Made, Place, spliced_text};
use rx_tree::{Block, Enum, Func, Item, ItemNode, Program};
use rx_tree_operations::same;
use rx_typed_runs::RunPos;
use std::alloc::{AllocError, Global};

/// The characters of a text.
fn characters(bytes: &[u8]) -> &str
    requires { IsUtf8 bytes.now }
    ensures { result.now ≡ bytes.now }
{
    match str::from_utf8(bytes) {
        Ok(text) => text,
        Err(_) => unreachable!(),
    }
}

/// The enum that an item is.
fn enum_of(item: &Item) -> Option<&Enum>
    ensures { option_map plain-Enum (option_copied result) ≡ spec.enum_in (SomeOf (plain-Item item.now)) }
{
    match &item.node {
        ItemNode::Enum(exits) => Some(exits),
        ItemNode::Rt(_) => None,
        ItemNode::Struct(_) => None,
        ItemNode::Func(_) => None,
    }
}

/// The enum of a number.
fn enum_at(program: &Program, number: usize) -> Option<&Enum>
    ensures { option_map plain-Enum (option_copied result) ≡ spec.enum_in (slice_get (plain-Program program.now) number) }
{
    match program.items.get(number) {
        Some(item) => enum_of(item),
        None => None,
    }
}

/// The enum of exits of an extraction, where there is one: it stands in front of the new function.
fn exits_in<'t>(program: &'t Program, plan: &NamedPlan, new_fn: u32) -> Option<&'t Enum>
    ensures { option_map plain-Enum (option_copied result) ≡ spec.exits_in (plain-Program program.now) (plain-Plan plan.now) new_fn }
{
    if has_enum(plan.exits.as_slice()) {
        enum_at(program, (new_fn as usize).saturating_sub(1))
    } else {
        None
    }
}

/// The file's own bytes with the edits of a run in this function, where these can be made.
fn bytes_with(
    alloc: Global,
    given: &Given<'_, '_>,
    run: &RunPos,
    plan: &NamedPlan,
    function: &Func,
    other: &Block,
    made: Made<'_>,
) -> Result<Option<Text>, AllocError>
    requires text { IsUtf8 given.now.text.now }
    requires other { plain-Block other.now ≡ hoisting.no_block }
    ensures { (bs : Bounds) → spec.AreNew given.now run.now (plain-Plan plan.now) (plain-Func function.now) bs made.entry
        → IfOk result (λ o. SomeIff o (CanBeMade given.now.text.now (toks given.now.tokens.now.list) (plain-Program given.now.program.now) (run_of run.now) (plain-Plan plan.now) (plain-Func function.now))
        (spliced_texts.spliced_text given.now.text.now (toks given.now.tokens.now.list) (plain-Program given.now.program.now) (run_of run.now) (plain-Plan plan.now) bs (plain-Func function.now))) }
{
    let way = from_on(run.block.path.as_slice(), 1);
    let labels = labels_round(alloc, &function.body, way)?;
    let block = block_at(&function.body, way, other);
    let place = Place {
        text: characters(given.text),
        tokens: given.tokens.list.as_slice(),
        program: given.program,
        run: run.span,
        body: &function.body,
        labels: labels.as_slice(),
        parts: run_parts(block, run),
    };
    spliced_text(alloc, &place, plan, made)
}

/// The file's own bytes with the edits that make an extraction, where these can be made.
pub(crate) fn own_bytes(
    alloc: Global,
    given: &Given<'_, '_>,
    run: &RunPos,
    plan: &NamedPlan,
    program: &Program,
    new_fn: u32,
) -> Result<Option<Text>, AllocError>
    requires there { spec.IsIn given.now run.now }
    requires made { is_function (slice_get (plain-Program program.now) new_fn) ≡ true }
    ensures { (bs : Bounds) → spec.IsMadeOf given.now run.now (plain-Plan plan.now) (plain-Program program.now) new_fn bs
        → (s : Span) (f : Function) → nth (plain-Program given.now.program.now) run.now.function ≡ SomeOf (plain.function_item s f)
        → IfOk result (λ o. SomeIff o (CanBeMade given.now.text.now (toks given.now.tokens.now.list) (plain-Program given.now.program.now) (run_of run.now) (plain-Plan plan.now) f)
        (spliced_texts.spliced_text given.now.text.now (toks given.now.tokens.now.list) (plain-Program given.now.program.now) (run_of run.now) (plain-Plan plan.now) bs f)) }
{
    let (_, function) = function_at(given.program, run.function);
    let (_, new) = function_at(program, new_fn);
    let made = Made {
        exits: exits_in(program, plan, new_fn),
        function: new,
    };
    let other = no_block(alloc);
    let outcome = bytes_with(alloc, given, run, plan, function, &other, made);
    other.let_go();
    outcome
}

/// A text with a fault is not read, unless memory ran out.
pub(crate) fn not_read(fault: SyntaxFault) -> Result<bool, AllocError>
    ensures { IfOk result (λ b. (b ≡ false) × (fault ≢ faults.OutOfMemory)) }
{
    match fault {
        SyntaxFault::Lex(_) => Ok(false),
        SyntaxFault::Syntax { .. } => Ok(false),
        SyntaxFault::TooDeep { .. } => Ok(false),
        SyntaxFault::OutOfMemory => Err(AllocError),
    }
}

/// Whether a text is read as a program, apart from spans.
fn is_read(alloc: Global, text: &str, program: &Program) -> Result<bool, AllocError>
    ensures { IfOk result (λ b. IsTrue b ↔ IsReadAs text.now (plain-Program program.now)) }
{
    match parse(alloc, text.as_bytes()) {
        Ok(read) => {
            let is = same(&read, program);
            read.let_go();
            Ok(is)
        }
        Err(fault) => not_read(fault),
    }
}

/// A text, where it is read as a program, apart from spans.
fn if_read(alloc: Global, text: Text, program: &Program) -> Result<Option<Text>, AllocError>
    ensures { IfOk result (λ o. SomeIff o (IsReadAs text (plain-Program program.now)) text) }
{
    if is_read(alloc, text.as_str(), program)? {
        Ok(Some(text))
    } else {
        Ok(None)
    }
}

/// The text of an extraction: the file's own bytes with the edits, where these can be made and are read as it.
pub(crate) fn rendered(
    alloc: Global,
    given: &Given<'_, '_>,
    run: &RunPos,
    plan: &NamedPlan,
    program: &Program,
    new_fn: u32,
) -> Result<Option<Text>, AllocError>
    requires there { spec.IsIn given.now run.now }
    requires made { is_function (slice_get (plain-Program program.now) new_fn) ≡ true }
    ensures { (bs : Bounds) → spec.IsMadeOf given.now run.now (plain-Plan plan.now) (plain-Program program.now) new_fn bs
        → IfOk result (λ o. spec.IsRenderedIf given.now run.now (plain-Plan plan.now) bs o) }
{
    match own_bytes(alloc, given, run, plan, program, new_fn) {
        Ok(Some(text)) => if_read(alloc, text, program),
        Ok(None) => Ok(None),
        Err(AllocError) => Err(AllocError),
    }
}
