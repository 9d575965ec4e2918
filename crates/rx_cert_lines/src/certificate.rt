//! A whole certificate from its bytes.

ghost use Rattle.std.specs.Prelude.{◌≡◌, ◌≤◌, ℕ, List as ListOf, ◌++◌, ◌∷◌, length, IfOk, MatchResult};
ghost use Rattle.rx_cert_lines.specs.declared.certificate.Misread.TheVariants.{OutOfMemory};
ghost use Rattle.rx_cert_lines.specs.Certificates as spec;
ghost use Rattle.rx_cert_lines.specs.Lines.{IsLine, line_text};
ghost use Rattle.rx_cert_lines.specs.Reading.{IsNext, MisreadAs};

use crate::line::{Head, Line};
use crate::reader::read_line;
use crate::word::split;
use rx_core::List;
use std::alloc::{AllocError, Global};

/// The lines of a certificate before the line `text`, and the bytes of the text.
#[derive(Drop)]
pub struct Certificate<'a> {
    pub lines: List<Line>,
    pub text: &'a [u8],
}

/// Why bytes are no certificate.
#[derive(Clone, Copy, Debug, PartialEq, Eq)]
pub enum Misread {
    /// The first line that isn't as it has to be, from 1.
    Form { line: u32 },
    OutOfMemory,
}

impl From<AllocError> for Misread {
    ghost from_gives = { λ _ e. e ≡ OutOfMemory };

    fn from(_error: AllocError) -> Misread {
        Misread::OutOfMemory
    }
}

/// What stands first in the bytes that are left.
#[derive(Drop)]
pub enum Next<'a> {
    /// No line, or one that is of none of the forms.
    Broken,
    /// The line `text`, and the bytes behind it.
    Last(&'a [u8]),
    /// Another line, and the bytes behind it.
    More(Line, &'a [u8]),
}

fn next_of(line: Line, rest: &[u8]) -> Next<'_>
    ensures { (left : ListOf ℕ) → IsLine line → left ≡ line_text line ++ 10 ∷ rest.now → IsNext left result }
{
    match line.head {
        Head::Text => Next::Last(rest),
        Head::Function | Head::Region | Head::Loan => Next::More(line, rest),
    }
}

fn next_line(alloc: Global, left: &[u8]) -> Result<Next<'_>, AllocError>
    ensures { IfOk result (λ next. IsNext left.now next) }
{
    match split(b'\n', left) {
        None => Ok(Next::Broken),
        Some((front, rest)) => match read_line(alloc, front)? {
            None => Ok(Next::Broken),
            Some(line) => Ok(next_of(line, rest)),
        },
    }
}

/// The lines and the text of a certificate.
///
/// # Errors
///
/// `Form` exactly where the bytes are no certificate, with the first line that isn't as it has to be; or memory runs out.
pub fn read_certificate(alloc: Global, bytes: &[u8]) -> Result<Certificate<'_>, Misread>
    requires { length bytes.now ≤ 16777216 }
    ensures { MatchResult result (λ c. spec.IsCertificate c.lines c.text.now bytes.now) (λ f. MisreadAs bytes.now f) }
{
    let mut lines = List::new(alloc);
    let mut left = bytes;
    loop {
        let line = lines.len() as u32 + 1;
        match next_line(alloc, left)? {
            Next::Broken => return Err(Misread::Form { line }),
            Next::Last(text) => {
                if text.len() > 1_048_576 {
                    return Err(Misread::Form { line });
                }
                return Ok(Certificate { lines, text });
            }
            Next::More(next, rest) => {
                lines.push(next)?;
                left = rest;
            }
        }
    }
}
