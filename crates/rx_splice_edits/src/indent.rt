//! What stands before a text on its line, and lines that begin otherwise.

ghost use Rattle.std.specs.Prelude.{◌≡◌, ◌≤◌, ◌++◌, [], ◌∷◌, false, length, MatchOption, IfOk, OnOk};
ghost use Rattle.std.specs.List.{list_all};
ghost use Rattle.rx_splice_laws.specs.Indent as indents;
ghost use Rattle.rx_splice_laws.specs.SplicedText.{indented};
ghost use Rattle.rx_splice_edits.specs.Lines.{NoFeed, indent_behind, behind_feed};

use rx_core::Text;
use std::alloc::AllocError;

/// The first line of a text, where a line feed ends it, without the line feed; and what stands behind that.
fn first_line(text: &str) -> Option<(&str, &str)>
    ensures { MatchOption result (NoFeed text.now) (λ x. (text.now ≡ x.0.now ++ (10 ∷ x.1.now)) × NoFeed x.0.now) }
{
    text.split_once('\n')
}

/// What stands behind the indent, where a text begins with it.
fn behind_indent<'t>(text: &'t str, indent: &str) -> Option<&'t str>
    ensures { MatchOption result (indents.begins_with indent.now text.now ≡ false) (λ t. text.now ≡ indent.now ++ t.now) }
{
    text.strip_prefix(indent)
}

/// Whether a byte is a space or a tab.
fn is_level(byte: u8) -> bool
    ensures { result ≡ indents.is_level byte }
{
    byte == b' ' || byte == b'\t'
}

/// Whether a text is spaces and tabs alone.
fn is_blank(text: &str) -> bool
    ensures { result ≡ list_all indents.is_level text.now }
{
    for byte in text.as_bytes() {
        if !is_level(*byte) {
            return false;
        }
    }
    true
}

/// The part of a text behind its last line feed.
fn last_line(text: &str) -> &str
    ensures { result.now ≡ indents.last_line [] text.now }
{
    let mut rest = text;
    while let Some(first) = first_line(rest) {
        rest = first.1;
    }
    rest
}

/// The blanks at the end of a text, where only spaces and tabs stand on its last line; else nothing.
pub(crate) fn indent_behind(text: &str) -> &str
    ensures { result.now ≡ indent_behind text.now }
{
    let line = last_line(text);
    if is_blank(line) { line } else { "" }
}

/// Adds four spaces in place of the indent, where a text begins with it, and gives what is left of the text.
fn push_margin<'t>(out: &mut Text, indent: &str, text: &'t str) -> Result<&'t str, AllocError>
    ensures text { IfOk result (λ t. out.new ++ indents.reindented_from 0 indent.now t.now ≡ out.old ++ behind_feed indent.now text.now) }
    ensures shorter { IfOk result (λ t. length t.now ≤ length text.now) }
{
    match behind_indent(text, indent) {
        Some(rest) => {
            out.push("    ")?;
            Ok(rest)
        }
        None => Ok(text),
    }
}

/// Adds a text of which each line after the first that begins with the indent begins with four spaces instead.
pub(crate) fn push_reindented(out: &mut Text, indent: &str, text: &str) -> Result<(), AllocError>
    ensures { OnOk result (out.new ≡ out.old ++ indents.reindented indent.now text.now) }
{
    let mut rest = text;
    while let Some(first) = first_line(rest) {
        out.push(first.0)?;
        out.push("\n")?;
        rest = push_margin(out, indent, first.1)?;
    }
    out.push(rest)
}

/// Adds a text of which each line after the first stands behind the indent.
pub(crate) fn push_indented(out: &mut Text, indent: &str, text: &str) -> Result<(), AllocError>
    ensures { OnOk result (out.new ≡ out.old ++ indented indent.now text.now) }
{
    let mut rest = text;
    while let Some(first) = first_line(rest) {
        out.push(first.0)?;
        out.push("\n")?;
        out.push(indent)?;
        rest = first.1;
    }
    out.push(rest)
}
