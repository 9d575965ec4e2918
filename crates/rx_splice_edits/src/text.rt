//! The whole text of an extraction.

ghost use Rattle.std.specs.Prelude.{◌≡◌, ◌++◌, ◌≤◌, [], map, option_map, true, IfOk, OnOk, SomeIff};
ghost use Rattle.std.specs.Bool.{Decides};
ghost use Rattle.std.specs.Option.{option_copied};
ghost use Rattle.rx_tree.specs.Plain.{Function};
ghost use Rattle.rx_tree.specs.PlainOf.{plain-Block, plain-Enum, plain-Expr, plain-Func, plain-Program, plain-Stmt, optional_of};
ghost use Rattle.rx_tree.specs.Spans.{body_span};
ghost use Rattle.rx_lex.specs.Tok.{toks};
ghost use Rattle.rx_print_spelling.specs.Pieces.{flat};
ghost use Rattle.rx_print_spelling.specs.Expressions.{statement};
ghost use Rattle.rx_hoist_plan.specs.PlainPlan.{plain-Plan};
ghost use Rattle.rx_hoist_extraction.specs.Run.{Run};
ghost use Rattle.rx_hoist_extraction.specs.Plan.{Bounds};
ghost use Rattle.rx_hoist_extraction.specs.NewBody as bodies;
ghost use Rattle.rx_hoist_made.specs.PlainParts.{plain-Parts};
ghost use Rattle.rx_splice.specs.Edits.{spliced as with_edits};
ghost use Rattle.rx_splice_laws.specs.Edits.{written};
ghost use Rattle.rx_splice_laws.specs.EditsOf as edits;
ghost use Rattle.rx_splice_laws.specs.Indent.{reindented};
ghost use Rattle.rx_splice_laws.specs.SplicedRun.{between};
ghost use Rattle.rx_splice_laws.specs.SplicedText as spliced;
ghost use Rattle.rx_splice_edits.specs.Calls.{feed, left_of};
ghost use Rattle.rx_splice_edits.specs.Cutting.{AreWithin};
ghost use Rattle.rx_splice_edits.specs.Deciding.{pins_at};
ghost use Rattle.rx_splice_edits.specs.Ending.{IsEnd};
ghost use Rattle.rx_splice_edits.specs.InOrder.{in_order};
ghost use Rattle.rx_splice_edits.specs.Placing.{Placed, IsMade, Fits, call_parts, end_by_parts, exits_text, function_by, pin_list, run_list, whole_by};

use crate::decided::Decided;
use crate::indent::{indent_behind, push_indented, push_reindented};
use crate::moving::Moving;
use crate::parts::{can_be_cut, push_spliced};
use crate::pinning::Pinning;
use crate::run::run_edits;
use crate::run_end::{RunEnd, end_of};
use crate::tokens::are_in_order;
use rx_core::{Boxed, Edit, LetGo, Span, Text};
use rx_hoist_changes::{Loops, Names};
use rx_hoist_items::replacement;
use rx_hoist_made::{Parts, RunParts, declared};
use rx_hoist_plan::NamedPlan;
use rx_lex::Token;
use rx_print::{push_between, push_statement, push_statements, push_value};
use rx_print_parts::{Margin, push_called, push_enum, push_signature};
use rx_print_places::goes_on;
use rx_splice_walk::{EditList, block};
use rx_tree::{Block, Enum, Expr, Func, Ident, Program, Stmt};
use std::alloc::{AllocError, Global};

/// Where a run stands: the program of the text with its tokens, the run's place from its first token to its last, the body
/// of the function round it, the labels of the loops round it, the innermost first, and its parts.
#[derive(Clone, Copy)]
pub struct Place<'t> {
    pub text: &'t str,
    pub tokens: &'t [Token<'t>],
    pub program: &'t Program,
    pub run: Span,
    pub body: &'t Block,
    pub labels: &'t [Option<&'t Ident>],
    pub parts: RunParts<'t>,
}

/// The new items: the enum of exits, where there is one, and the new function.
#[derive(Clone, Copy)]
pub struct Made<'m> {
    pub exits: Option<&'m Enum>,
    pub function: &'m Func,
}

// ---- the call

/// Adds a line feed, where something stands in front.
fn push_feed(out: &mut Text, follows: bool) -> Result<(), AllocError>
    ensures { OnOk result (out.new ≡ out.old ++ feed follows) }
{
    if follows { out.push("\n") } else { Ok(()) }
}

/// Adds a statement, on a line of its own where it follows another.
fn push_next_statement(
    alloc: Global,
    out: &mut Text,
    follows: bool,
    stmt: &Stmt,
) -> Result<(), AllocError>
    ensures { OnOk result (out.new ≡ out.old ++ (feed follows ++ flat (statement 0 (plain-Stmt stmt.now)))) }
{
    let margin = Margin::none(alloc);
    push_feed(out, follows)?;
    push_statement(alloc, out, &margin, stmt)
}

/// Adds a tail that may be there, on a line of its own where it follows a statement.
fn push_tail(
    alloc: Global,
    out: &mut Text,
    follows: bool,
    tail: &Option<Boxed<Expr>>,
) -> Result<(), AllocError>
    ensures { OnOk result (out.new ≡ out.old ++ left_of follows [] (optional_of (option_map plain-Expr tail.now))) }
{
    match tail {
        Some(tail) => {
            let tail = tail.get();
            let margin = Margin::none(alloc);
            push_feed(out, follows)?;
            push_between(alloc, out, &margin, "", goes_on(tail), tail, "")
        }
        None => Ok(()),
    }
}

/// Adds statements and a tail, each on a line.
fn push_parts(alloc: Global, out: &mut Text, parts: &Parts) -> Result<(), AllocError>
    ensures { OnOk result (out.new ≡ out.old ++ flat (spliced.call_pieces (plain-Parts parts.now).statements (plain-Parts parts.now).tail)) }
{
    let mut follows = false;
    for stmt in parts.stmts.as_slice() {
        push_next_statement(alloc, out, follows, stmt)?;
        follows = true;
    }
    push_tail(alloc, out, follows, &parts.tail)
}

/// The text of statements and a tail, each on a line.
fn text_of(alloc: Global, parts: &Parts) -> Result<Text, AllocError>
    ensures { IfOk result (λ t. t ≡ flat (spliced.call_pieces (plain-Parts parts.now).statements (plain-Parts parts.now).tail)) }
{
    let mut text = Text::empty(alloc);
    push_parts(alloc, &mut text, parts)?;
    Ok(text)
}

/// What stands in place of the run, each part on a line.
fn call_text(alloc: Global, place: &Place<'_>, plan: &NamedPlan) -> Result<Text, AllocError>
    ensures { IfOk result (λ t. t ≡ flat (spliced.call_pieces (call_parts place.now (plain-Plan plan.now)).statements (call_parts place.now (plain-Plan plan.now)).tail)) }
{
    let call = replacement(
        alloc,
        place.program,
        plan,
        place.run,
        place.labels,
        place.parts,
    )?;
    let outcome = text_of(alloc, &call);
    call.let_go();
    outcome
}

/// Adds what stands in place of the run, each further line behind the indent.
fn push_call(
    alloc: Global,
    out: &mut Text,
    place: &Place<'_>,
    plan: &NamedPlan,
    indent: &str,
) -> Result<(), AllocError>
    ensures { OnOk result (out.new ≡ out.old ++ spliced.call_text indent.now (call_parts place.now (plain-Plan plan.now))) }
{
    let text = call_text(alloc, place, plan)?;
    push_indented(out, indent, text.as_str())
}

// ---- the new items

/// Adds the enum of exits, where there is one.
fn push_exits(out: &mut Text, exits: Option<&Enum>) -> Result<(), AllocError>
    ensures { OnOk result (out.new ≡ out.old ++ exits_text (option_map plain-Enum (option_copied exits.entry))) }
{
    match exits {
        Some(exits) => {
            out.push("\n\n")?;
            push_enum(out, exits)
        }
        None => Ok(()),
    }
}

/// Adds a function up to its `{`.
#[tactic(auto, using(rx_print_parts::proofs::Rules::text_rules))]
fn push_header(out: &mut Text, function: &Func) -> Result<(), AllocError>
    ensures { OnOk result (out.new ≡ out.old ++ flat (spliced.header (plain-Func function.now))) }
{
    push_called(out, &function.name, function.lifetimes.as_slice())?;
    push_signature(out, function.params.as_slice(), &function.result)?;
    out.push(" {")
}

/// Adds the locals of the new function, each on a line.
fn push_locals(
    alloc: Global,
    out: &mut Text,
    place: &Place<'_>,
    plan: &NamedPlan,
) -> Result<(), AllocError>
    ensures { OnOk result (out.new ≡ out.old ++ flat (spliced.lines (bodies.declared (plain-Program place.now.program.now) place.now.run (plain-Plan plan.now).locals))) }
{
    let margin = Margin::none(alloc).deeper(alloc)?;
    let locals = declared(alloc, place.program, place.run, plan.locals.as_slice())?;
    let outcome = push_statements(alloc, out, &margin, locals.as_slice());
    locals.let_go();
    outcome
}

/// Adds the tail of the new function on a line of its own, where there is one.
fn push_last(alloc: Global, out: &mut Text, tail: &Option<Boxed<Expr>>) -> Result<(), AllocError>
    ensures { OnOk result (out.new ≡ out.old ++ flat (spliced.tail_line (optional_of (option_map plain-Expr tail.now)))) }
{
    match tail {
        Some(tail) => {
            let margin = Margin::none(alloc).deeper(alloc)?;
            push_value(alloc, out, &margin, tail.get())
        }
        None => Ok(()),
    }
}

/// Adds the run's own bytes with these edits, on lines of the new function.
fn push_run(
    alloc: Global,
    out: &mut Text,
    place: &Place<'_>,
    indent: &str,
    edits: &[Edit],
) -> Result<(), AllocError>
    requires { AreWithin place.now.text.now place.now.run.start place.now.run.end edits.now }
    ensures { OnOk result (out.new ≡ out.old ++ reindented indent.now (with_edits place.now.run.start (between place.now.run.start place.now.run.end place.now.text.now) edits.now)) }
{
    let mut text = Text::empty(alloc);
    push_spliced(
        &mut text,
        place.text,
        place.run.start as usize,
        place.run.end as usize,
        edits,
    )?;
    push_reindented(out, indent, text.as_str())
}

/// Adds the new function, of which the end is this.
fn push_function(
    alloc: Global,
    out: &mut Text,
    place: &Place<'_>,
    plan: &NamedPlan,
    function: &Func,
    indent: &str,
    end: &RunEnd,
    edits: &[Edit],
) -> Result<(), AllocError>
    requires ended { IsEnd end.now (end_by_parts place.now (plain-Plan plan.now)) }
    requires fits { Fits place.now (plain-Plan plan.now) }
    requires run { edits.now ≡ run_list place.now (plain-Plan plan.now) }
    ensures { OnOk result (out.new ≡ out.old ++ function_by place.now (plain-Plan plan.now) (plain-Func function.now) indent.now) }
{
    out.push("\n\n")?;
    push_header(out, function)?;
    push_locals(alloc, out, place, plan)?;
    out.push("\n    ")?;
    push_run(alloc, out, place, indent, edits)?;
    push_last(alloc, out, &end.tail)?;
    out.push("\n}")
}

// ---- the edits

/// The edits that write out kinds and types in the body of a function.
fn body_edits(alloc: Global, body: &Block, pinning: &Pinning<'_>) -> Result<EditList, AllocError>
    ensures { IfOk result (λ l. l ≡ map written (edits.body_edits (pins_at pinning.now.decided) [] [] (plain-Block body.now))) }
{
    let own = Names::new(alloc);
    let around = Loops::new(alloc);
    let mut out = EditList::new(alloc);
    block(alloc, &mut out, pinning, &own, &around, body)?;
    Ok(out)
}

/// Those of the function round the run.
fn pins_of(alloc: Global, place: &Place<'_>, plan: &NamedPlan) -> Result<EditList, AllocError>
    requires { in_order 0 (toks place.now.tokens.now) ≡ true }
    ensures { IfOk result (λ l. l ≡ pin_list place.now (plain-Plan plan.now)) }
{
    let decided = Decided {
        program: place.program,
        tokens: place.tokens,
        plan,
        run: place.run,
    };
    body_edits(alloc, place.body, &Pinning { decided })
}

/// The edits of the run.
fn edits_of(
    alloc: Global,
    place: &Place<'_>,
    plan: &NamedPlan,
    end: &RunEnd,
) -> Result<EditList, AllocError>
    requires ordered { in_order 0 (toks place.now.tokens.now) ≡ true }
    requires ended { IsEnd end.now (end_by_parts place.now (plain-Plan plan.now)) }
    ensures { IfOk result (λ l. l ≡ run_list place.now (plain-Plan plan.now)) }
{
    let decided = Decided {
        program: place.program,
        tokens: place.tokens,
        plan,
        run: place.run,
    };
    run_edits(alloc, &Moving { decided }, place.labels, place.parts, end)
}

// ---- the whole

/// Where a block ends.
#[tactic(auto, using(rx_hoist_changes::proofs::SpanLemmas::body_span_is))]
fn end_of_body(body: &Block) -> u64
    ensures { result ≡ (body_span (plain-Block body.now)).end }
{
    body.span.end
}

/// Whether the text may be cut where these edits stand: those of the body of the function round the run, which ends here,
/// and those of the run.
fn fits(place: &Place<'_>, past: u64, pins: &[Edit], edits: &[Edit]) -> bool
    ensures { Decides result (AreWithin place.now.text.now 0 past pins.now
        × AreWithin place.now.text.now place.now.run.start place.now.run.end edits.now
        × (place.now.run.end ≤ past)) }
{
    can_be_cut(place.text, 0, past, pins)
        && can_be_cut(place.text, place.run.start, place.run.end, edits)
        && place.run.end <= past
}

/// The text with these edits, which may be cut where they stand.
fn text_cut(
    alloc: Global,
    place: &Place<'_>,
    plan: &NamedPlan,
    made: Made<'_>,
    end: &RunEnd,
    pins: &[Edit],
    edits: &[Edit],
) -> Result<Text, AllocError>
    requires ended { IsEnd end.now (end_by_parts place.now (plain-Plan plan.now)) }
    requires fits { Fits place.now (plain-Plan plan.now) }
    requires pins { pins.now ≡ pin_list place.now (plain-Plan plan.now) }
    requires run { edits.now ≡ run_list place.now (plain-Plan plan.now) }
    ensures { IfOk result (λ t. t ≡ whole_by place.now (plain-Plan plan.now) made.entry) }
{
    let start = place.run.start as usize;
    let behind = place.run.end as usize;
    let past = end_of_body(place.body);
    let indent = indent_behind(&place.text[..start]);
    let mut out = Text::empty(alloc);
    push_spliced(&mut out, place.text, 0, start, pins)?;
    push_call(alloc, &mut out, place, plan, indent)?;
    push_spliced(&mut out, place.text, behind, past as usize, pins)?;
    push_exits(&mut out, made.exits)?;
    push_function(
        alloc,
        &mut out,
        place,
        plan,
        made.function,
        indent,
        end,
        edits,
    )?;
    out.push(&place.text[past as usize..])?;
    Ok(out)
}

/// The text with these edits, where it may be cut there.
fn text_of_edits(
    alloc: Global,
    place: &Place<'_>,
    plan: &NamedPlan,
    made: Made<'_>,
    end: &RunEnd,
    pins: &[Edit],
    edits: &[Edit],
) -> Result<Option<Text>, AllocError>
    requires ordered { in_order 0 (toks place.now.tokens.now) ≡ true }
    requires ended { IsEnd end.now (end_by_parts place.now (plain-Plan plan.now)) }
    requires pins { pins.now ≡ pin_list place.now (plain-Plan plan.now) }
    requires run { edits.now ≡ run_list place.now (plain-Plan plan.now) }
    ensures { IfOk result (λ o. SomeIff o (Fits place.now (plain-Plan plan.now)) (whole_by place.now (plain-Plan plan.now) made.entry)) }
{
    let past = end_of_body(place.body);
    if !fits(place, past, pins, edits) {
        return Ok(None);
    }
    let text = text_cut(alloc, place, plan, made, end, pins, edits)?;
    Ok(Some(text))
}

/// The text where the run has this end.
fn text_by_end(
    alloc: Global,
    place: &Place<'_>,
    plan: &NamedPlan,
    made: Made<'_>,
    end: &RunEnd,
) -> Result<Option<Text>, AllocError>
    requires ordered { in_order 0 (toks place.now.tokens.now) ≡ true }
    requires ended { IsEnd end.now (end_by_parts place.now (plain-Plan plan.now)) }
    ensures { IfOk result (λ o. SomeIff o (Fits place.now (plain-Plan plan.now)) (whole_by place.now (plain-Plan plan.now) made.entry)) }
{
    let pins = pins_of(alloc, place, plan)?;
    let edits = edits_of(alloc, place, plan, end)?;
    text_of_edits(
        alloc,
        place,
        plan,
        made,
        end,
        pins.as_slice(),
        edits.as_slice(),
    )
}

/// The text where the tokens are in order.
fn text_in_order(
    alloc: Global,
    place: &Place<'_>,
    plan: &NamedPlan,
    made: Made<'_>,
) -> Result<Option<Text>, AllocError>
    requires { in_order 0 (toks place.now.tokens.now) ≡ true }
    ensures { IfOk result (λ o. SomeIff o (Fits place.now (plain-Plan plan.now)) (whole_by place.now (plain-Plan plan.now) made.entry)) }
{
    let end = end_of(alloc, place.program, plan, place.run, place.parts)?;
    let outcome = text_by_end(alloc, place, plan, made, &end);
    end.let_go();
    outcome
}

/// The text by the parts of the run.
fn text_by_parts(
    alloc: Global,
    place: &Place<'_>,
    plan: &NamedPlan,
    made: Made<'_>,
) -> Result<Option<Text>, AllocError>
    ensures { IfOk result (λ o. SomeIff o (Fits place.now (plain-Plan plan.now)) (whole_by place.now (plain-Plan plan.now) made.entry)) }
{
    if are_in_order(place.tokens) {
        text_in_order(alloc, place, plan, made)
    } else {
        Ok(None)
    }
}

/// The text of an extraction by a plan: the bytes outside the run stay, but for kinds and types that are written out; the
/// run gives way to the call, and behind its function stand the new items, where the run's own bytes are the statements of
/// the new function. There is none exactly where the text may not be cut where the edits stand.
pub fn spliced_text(
    alloc: Global,
    place: &Place<'_>,
    plan: &NamedPlan,
    made: Made<'_>,
) -> Result<Option<Text>, AllocError>
    ensures { (r : Run) (f : Function) (bs : Bounds) → Placed place.now r f → IsMade place.now (plain-Plan plan.now) r f bs made.entry
        → IfOk result (λ o. SomeIff o (Fits place.now (plain-Plan plan.now))
        (spliced.spliced_text place.now.text.now (toks place.now.tokens.now) (plain-Program place.now.program.now) r (plain-Plan plan.now) bs f)) }
{
    text_by_parts(alloc, place, plan, made)
}
