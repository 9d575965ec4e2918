//! Blanks behind a place.

ghost use Rattle.std.specs.Prelude.{◌≡◌, ◌+◌, ◌<◌, ◌≤◌, ◌^◌, drop, length};
ghost use Rattle.rx_lex.specs.Tokens.{is_blank as is_blank_of};
ghost use Rattle.rx_compact_text.specs.CompactedText as spec;

use rx_core::Span;

/// Whether a byte is a blank.
fn is_blank(byte: u8) -> bool
    ensures { result ≡ is_blank_of byte }
{
    byte == b' ' || byte == b'\t' || byte == b'\n' || byte == b'\r'
}

/// How many blanks stand at the front.
fn leading_blanks(text: &[u8]) -> usize
    ensures count { result ≡ spec.leading_blanks text.now }
    ensures bound { result ≤ length text.now }
{
    for count in 0..text.len() {
        if !is_blank(text[count]) {
            return count;
        }
    }
    text.len()
}

/// How many blanks stand from a place on.
fn blanks_from(text: &str, at: u64) -> u64
    ensures count { result ≡ spec.leading_blanks (drop at text.now) }
    ensures fits { at + result < 2 ^ 64 }
{
    let bytes = text.as_bytes();
    let from = at as usize;
    if from < bytes.len() {
        leading_blanks(&bytes[from..]) as u64
    } else {
        0
    }
}

/// A place and the blanks behind it.
pub(crate) fn with_blanks(text: &str, span: Span) -> Span
    ensures { result ≡ spec.with_blanks text.now span }
{
    Span {
        start: span.start,
        end: span.end + blanks_from(text, span.end),
    }
}
