//! A text as a program.

ghost use Rattle.std.specs.Prelude.{◌≡◌, ◌≢◌, ℕ, ◌≤◌, length, map, IfOk, IfErr};
ghost use Rattle.rx_tree.specs.Plain.{ProgramTree};
ghost use Rattle.rx_tree.specs.PlainOf.{plain-Item, plain-Program};
ghost use Rattle.rx_lex.specs.Tok.{toks};
ghost use Rattle.rx_lex.specs.Tokens.{Lexes};
ghost use Rattle.rx_lex.specs.declared.lexer.LexFault.TheVariants as lex_fault;
ghost use Rattle.rx_parse_grammar.specs.grammar.Items.{Parses};
ghost use Rattle.rx_parse.specs.declared.fault.SyntaxFault.TheVariants as faults;
ghost use Rattle.rx_parse.specs.Place.{place_of, fault_of};
ghost use Rattle.rx_parse.specs.Answer as spec;
ghost use Rattle.rx_parse.specs.Answer.{Answers, HasTree, HasLevels, IsCause, IsCauseWithin, most_counted};

use crate::fault::SyntaxFault;
use rx_core::LetGo;
use rx_lex::{LexFault, Token, lex};
use rx_parse_cursor::{Cursor, Found};
use rx_parse_grammar::Stop;
use rx_parse_items::file;
use rx_tree::{Item, Program};
use std::alloc::Global;

/// How many levels a text may have.
const LEVELS: usize = 128;

/// How many levels of a text are counted at most.
const MOST_COUNTED: usize = 1024;

/// The one program of a text.
///
/// # Errors
/// `Lex` where the bytes have no list of tokens. `Syntax` at the first token with which no program goes on, or at the text's
/// end where the tokens begin a program and are none. `TooDeep` at a token with which the tokens begin programs, but none
/// of at most 128 levels.
pub fn parse(alloc: Global, bytes: &[u8]) -> Result<Program, SyntaxFault>
    // What is read is the text's tree.
    ensures found { IfOk result (λ p. Parses bytes.now (plain-Program p)) }
    // A text with a tree is read, unless memory runs out.
    ensures only { (p : ProgramTree) → Parses bytes.now p → Answers result p }
    // A fault is true of the text, and so is its place.
    ensures fault { IfErr result (λ e. IsCause e bytes.now) }
{
    match read(alloc, bytes, LEVELS) {
        Ok(found) => Ok(Program { items: found.list }),
        Err(fault) => Err(fault),
    }
}

/// How many levels a text has, each pair of its parentheses counted: those of its deepest node.
///
/// # Errors
/// Those of `parse` with 1,024 levels in place of 128.
pub fn levels(alloc: Global, bytes: &[u8]) -> Result<u32, SyntaxFault>
    // What is counted is what the text has.
    ensures found { IfOk result (λ n. HasLevels bytes.now n × (n ≤ most_counted)) }
    // The levels of a text that has no more are counted, unless memory runs out.
    ensures only { (n : ℕ) → HasLevels bytes.now n → n ≤ most_counted → spec.Counts result n }
    // A fault is true of the text, and so is its place.
    ensures fault { IfErr result (λ e. IsCauseWithin most_counted e bytes.now) }
{
    match read(alloc, bytes, MOST_COUNTED) {
        Ok(found) => {
            let height = found.height;
            found.let_go();
            Ok(height as u32)
        }
        Err(fault) => Err(fault),
    }
}

/// The items of a text of at most so many levels, and the levels that it has.
fn read(alloc: Global, bytes: &[u8], most: usize) -> Result<Found<Item>, SyntaxFault>
    requires { most ≤ 1024 }
    ensures found { IfOk result (λ x. HasTree bytes.now (map plain-Item x.list) x.height × (x.height ≤ most)) }
    ensures only { (p : ProgramTree) (n : ℕ) → HasTree bytes.now p n → n ≤ most → spec.Reads result p n }
    ensures fault { IfErr result (λ e. IsCauseWithin most e bytes.now) }
{
    match lex(alloc, bytes) {
        Ok(tokens) => read_tokens(alloc, bytes, tokens.list.as_slice(), most),
        Err(fault) => Err(of_lex(fault)),
    }
}

/// The items of a text with these tokens.
fn read_tokens(
    alloc: Global,
    bytes: &[u8],
    tokens: &[Token<'_>],
    most: usize,
) -> Result<Found<Item>, SyntaxFault>
    requires lexed { Lexes bytes.now (toks tokens.now) }
    requires most { most ≤ 1024 }
    ensures found { IfOk result (λ x. HasTree bytes.now (map plain-Item x.list) x.height × (x.height ≤ most)) }
    ensures only { (p : ProgramTree) (n : ℕ) → HasTree bytes.now p n → n ≤ most → spec.Reads result p n }
    ensures fault { IfErr result (λ e. IsCauseWithin most e bytes.now) }
{
    let mut cursor = Cursor::new(tokens);
    match file(alloc, &mut cursor, most) {
        Ok(found) => Ok(found),
        Err(stop) => Err(of_stop(stop, tokens, bytes.len() as u64)),
    }
}

/// The place of the token before which so many tokens end, or the text's length.
fn place(left: usize, tokens: &[Token<'_>], length: u64) -> u64
    ensures { result ≡ place_of left (toks tokens.now) length }
{
    match tokens.get(tokens.len().saturating_sub(left)) {
        Some(token) => token.span.start,
        None => length,
    }
}

/// Where the tokens of a text of so many bytes stop.
fn of_stop(stop: Stop, tokens: &[Token<'_>], length: u64) -> SyntaxFault
    ensures { result ≡ fault_of stop (toks tokens.now) length }
{
    match stop {
        Stop::OutOfMemory => SyntaxFault::OutOfMemory,
        Stop::Syntax(left) => SyntaxFault::Syntax {
            at: place(left, tokens, length),
        },
        Stop::TooDeep(left) => SyntaxFault::TooDeep {
            at: place(left, tokens, length),
        },
    }
}

fn of_lex(fault: LexFault) -> SyntaxFault
    ensures memory { fault ≡ lex_fault.OutOfMemory → result ≡ faults.OutOfMemory }
    ensures other { fault ≢ lex_fault.OutOfMemory → result ≡ faults.Lex fault }
{
    match fault {
        LexFault::OutOfMemory => SyntaxFault::OutOfMemory,
        LexFault::NotText { at } => SyntaxFault::Lex(LexFault::NotText { at }),
        LexFault::BadToken { at } => SyntaxFault::Lex(LexFault::BadToken { at }),
    }
}
