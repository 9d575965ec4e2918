//! The text with a short signature of one of its functions.

ghost use Rattle.std.specs.Prelude.{◌≡◌, ◌≤◌, length, IfOk, MatchResult, IsUtf8};
ghost use Rattle.rx_tree.specs.PlainOf.{plain-Func, plain-Program};
ghost use Rattle.rx_lex.specs.Tok.{toks};
ghost use Rattle.rx_lex.specs.Tokens.{Lexes};
ghost use Rattle.rx_parse_grammar.specs.grammar.Items.{Parses};
ghost use Rattle.rx_typed_declarations.specs.WellFormed.{WellFormed};
ghost use Rattle.rx_check.specs.Front.{IsCheckedOf};
ghost use Rattle.rx_compact_call.specs.Shortened as spec;
ghost use Rattle.rx_compact_call.specs.Making as making;

use crate::fault::{CompactFault, of_check, of_text};
use crate::named::{Chosen, function_named};
use rx_check::{Checked, check};
use rx_compact_edits::compacted_text;
use rx_compact_known::{is_single, known_lifetimes};
use rx_compact_placed::short_signatures_fit;
use rx_core::{LetGo, Text, Which};
use rx_lex::{Tokens, lex};
use rx_parse::{parse, parsed_programs_are_numbered};
use rx_tree::Program;
use rx_typed::Decls;
use std::alloc::{AllocError, Global};

/// The characters of a text.
fn characters(bytes: &[u8]) -> &str
    requires { IsUtf8 bytes.now }
    ensures { result.now ≡ bytes.now }
{
    match str::from_utf8(bytes) {
        Ok(text) => text,
        Err(_) => unreachable!(),
    }
}

/// The text with a short signature of a function, by what is declared, where its edits fit.
fn shortened(
    alloc: Global,
    decls: &Decls,
    text: &str,
    tokens: &Tokens<'_>,
    chosen: Chosen<'_>,
) -> Result<Option<Text>, AllocError>
    requires { WellFormed decls.now.items }
    ensures { IfOk result (making.IsMadeOf decls.now.items chosen.entry.number text.now (toks tokens.now.list) (plain-Func chosen.entry.function.now)) }
{
    let known = known_lifetimes(alloc, decls, chosen.number)?;
    let single = is_single(alloc, decls, chosen.number)?;
    compacted_text(
        alloc,
        &known,
        single,
        text,
        tokens.list.as_slice(),
        chosen.function,
    )
}

/// The text, if its bytes are not too many.
fn limited(text: Text) -> Result<Text, CompactFault>
    ensures { MatchResult result (λ it. (it ≡ text) × (length text ≤ spec.most_bytes)) (λ e. making.IsLimit text e) }
{
    let count = text.as_str().len();
    if count > 1_048_576 {
        return Err(CompactFault::Limit {
            which: Which::Bytes,
            count: count as u64,
        });
    }
    Ok(text)
}

/// The text of an accepted program with a short signature of one of its functions, by its tokens.
fn of_function(
    alloc: Global,
    checked: &Checked,
    text: &[u8],
    tokens: &Tokens<'_>,
    chosen: Chosen<'_>,
) -> Result<Text, CompactFault>
    requires lexed { Lexes text.now (toks tokens.now.list) }
    requires fits { making.Fits text.now (toks tokens.now.list) (plain-Func chosen.function.now) }
    ensures { making.Shortens checked.now.front.typed.decls.items chosen.entry.number text.now (toks tokens.now.list) (plain-Func chosen.entry.function.now) result }
{
    let decls = &checked.front().typed().decls;
    match shortened(alloc, decls, characters(text), tokens, chosen) {
        Ok(Some(short)) => limited(short),
        Ok(None) => unreachable!(),
        Err(_) => Err(CompactFault::OutOfMemory),
    }
}

/// The text of an accepted program with a short signature of its function of a name.
fn of_checked(
    alloc: Global,
    checked: &Checked,
    program: &Program,
    text: &[u8],
    name: &str,
) -> Result<Text, CompactFault>
    requires parses { Parses text.now (plain-Program program.now) }
    requires checked { IsCheckedOf (plain-Program program.now) checked.now }
    ensures { spec.Answers text.now name.now result }
{
    short_signatures_fit();
    match function_named(program.items.as_slice(), name) {
        Some(chosen) => match lex(alloc, text) {
            Ok(tokens) => of_function(alloc, checked, text, &tokens, chosen),
            // A text with a program has tokens.
            Err(_) => Err(CompactFault::OutOfMemory),
        },
        None => Err(CompactFault::NoFunction),
    }
}

/// The text of a program with a short signature of its function of a name.
fn of_program(
    alloc: Global,
    program: &Program,
    text: &[u8],
    name: &str,
) -> Result<Text, CompactFault>
    requires short { length text.now ≤ 1048576 }
    requires parses { Parses text.now (plain-Program program.now) }
    ensures { spec.Answers text.now name.now result }
{
    parsed_programs_are_numbered();
    match check(alloc, program) {
        Ok(checked) => {
            let outcome = of_checked(alloc, &checked, program, text, name);
            checked.let_go();
            outcome
        }
        Err(fault) => Err(of_check(fault)),
    }
}

/// The text with a short signature of its function of a name: lifetimes that are known to outlive each other are one, and those that
/// elision tells are left out (Rust Reference, "Lifetime bounds", "Lifetime elision in functions"). All other bytes stay.
///
/// # Errors
///
/// What is wrong with the text's form; why it is not accepted; that it has no function of this name; that the answer has more than
/// 1,048,576 bytes, and how many; or memory runs out.
pub fn compact(alloc: Global, text: &[u8], function: &str) -> Result<Text, CompactFault>
    requires { length text.now ≤ 1048576 }
    ensures { spec.Answers text.now function.now result }
{
    match parse(alloc, text) {
        Ok(program) => {
            let outcome = of_program(alloc, &program, text, function);
            program.let_go();
            outcome
        }
        Err(fault) => Err(of_text(fault)),
    }
}
