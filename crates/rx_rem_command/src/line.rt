//! Lines of standard error, and the one that says where a text is no program.

ghost use Rattle.std.specs.Prelude.{◌≡◌, ◌++◌, IfOk};
ghost use Rattle.rx_rem_command.specs.Lines.{line_of, with_numbers, syntax_status, syntax_line, lex_line};

use crate::status::Status;
use rx_core::Text;
use rx_lex::LexFault;
use rx_parse::SyntaxFault;
use std::alloc::{AllocError, Global};

/// The line of the words, the numbers and the rest.
pub fn line(alloc: Global, words: &str, numbers: &[u64], rest: &str) -> Result<Text, AllocError>
    ensures { IfOk result (λ l. l ≡ line_of (with_numbers words.now numbers.now ++ rest.now)) }
{
    let mut line = Text::new(alloc, "error: ")?;
    line.push(words)?;
    for n in numbers {
        line.push(" ")?;
        line.push(n.to_string(alloc)?.as_str())?;
    }
    line.push(rest)?;
    line.push("\n")?;
    Ok(line)
}

fn lex_fault(alloc: Global, fault: &LexFault) -> Result<Text, AllocError>
    ensures { IfOk result (λ l. l ≡ lex_line fault.now) }
{
    match fault {
        LexFault::NotText { at } => line(alloc, "NotAccepted NotText", &[*at], ""),
        LexFault::BadToken { at } => line(alloc, "NotAccepted BadToken", &[*at], ""),
        LexFault::OutOfMemory => line(alloc, "OutOfMemory", &[], ""),
    }
}

/// The line of a fault of reading.
pub fn syntax_fault(alloc: Global, fault: &SyntaxFault) -> Result<Text, AllocError>
    ensures { IfOk result (λ l. l ≡ syntax_line fault.now) }
{
    match fault {
        SyntaxFault::Lex(fault) => lex_fault(alloc, fault),
        SyntaxFault::Syntax { at } => line(alloc, "NotAccepted Syntax", &[*at], ""),
        SyntaxFault::TooDeep { at } => line(alloc, "NotAccepted TooDeep", &[*at], ""),
        SyntaxFault::OutOfMemory => line(alloc, "OutOfMemory", &[], ""),
    }
}

/// The status of a fault of reading.
pub fn status_of_syntax(fault: &SyntaxFault) -> Status
    ensures { result ≡ syntax_status fault.now }
{
    match fault {
        SyntaxFault::OutOfMemory | SyntaxFault::Lex(LexFault::OutOfMemory) => Status::OutOfMemory,
        _ => Status::NotAccepted,
    }
}
