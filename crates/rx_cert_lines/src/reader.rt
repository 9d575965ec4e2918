//! A line from its bytes.

ghost use Rattle.std.specs.Prelude.{◌≡◌, ◌∷◌, MatchOption, IfOk};
ghost use Rattle.rx_cert_lines.specs.Lines.{IsLine, NoLine, line_text, head_text};
ghost use Rattle.rx_cert_lines.specs.Reading.{Ends, NoNumber, NoRange, IsRange, IsItem, NoItem, NoRangeOrNumber, AreItems, NoItems, IsNextItem, NoNextItem, NoHead};

use crate::forms::is_form;
use crate::item::Item;
use crate::line::{Head, Line};
use crate::word::{behind, cut, number, split};
use rx_core::{List, is_same};
use std::alloc::{AllocError, Global};

/// The number that is written so.
fn number_item(word: &[u8]) -> Option<Item>
    ensures { MatchOption result (NoNumber word.now) (λ i. IsItem i word.now) }
{
    let Some(number) = number(word) else {
        return None;
    };
    Some(Item::Number(number))
}

/// The range that is written so, of what stands before its dash and behind it.
fn range_item(first: &[u8], last: &[u8]) -> Option<Item>
    ensures { MatchOption result (NoRange first.now last.now) (λ i. IsRange first.now last.now i) }
{
    let Some(first) = number(first) else {
        return None;
    };
    let Some(last) = number(last) else {
        return None;
    };
    Some(Item::Range(first, last))
}

/// The number or the range that is written so.
fn range_or_number(word: &[u8]) -> Option<Item>
    ensures { MatchOption result (NoRangeOrNumber word.now) (λ i. IsItem i word.now) }
{
    match split(b'-', word) {
        Some((first, last)) => range_item(first, last),
        None => number_item(word),
    }
}

/// The end point that is written so, of what stands behind the `e`.
fn end_item(digits: &[u8]) -> Option<Item>
    ensures { MatchOption result (NoNumber digits.now) (λ i. IsItem i (101 ∷ digits.now)) }
{
    let Some(end) = number(digits) else {
        return None;
    };
    Some(Item::End(end))
}

/// The item that is written so.
fn item(word: &[u8]) -> Option<Item>
    ensures { MatchOption result (NoItem word.now) (λ i. IsItem i word.now) }
{
    match behind(b'e', word) {
        Some(digits) => end_item(digits),
        None => range_or_number(word),
    }
}

/// The item that stands first, after a space, and what is behind it.
fn next_item(left: &[u8]) -> Option<(Item, &[u8])>
    ensures { MatchOption result (NoNextItem left.now) (λ it. IsNextItem it.0 left.now it.1.now) }
{
    let Some(rest) = behind(b' ', left) else {
        return None;
    };
    let (word, more) = cut(b' ', rest);
    let Some(item) = item(word) else {
        return None;
    };
    Some((item, more))
}

/// The items that are written so.
fn items(alloc: Global, bytes: &[u8]) -> Result<Option<List<Item>>, AllocError>
    requires { Ends 32 bytes.now }
    ensures { IfOk result (λ it. MatchOption it (NoItems bytes.now) (λ is. AreItems is bytes.now)) }
{
    let mut items = Vec::new(alloc);
    let mut left = bytes;
    while !left.is_empty() {
        let Some((item, rest)) = next_item(left) else {
            return Ok(None);
        };
        items.push(item)?;
        left = rest;
    }
    Ok(Some(List::from_vec(items)))
}

fn head(word: &[u8]) -> Option<Head>
    ensures { MatchOption result (NoHead word.now) (λ h. head_text h ≡ word.now) }
{
    if is_same(word, b"r") {
        Some(Head::Region)
    } else if is_same(word, b"l") {
        Some(Head::Loan)
    } else if is_same(word, b"function") {
        Some(Head::Function)
    } else if is_same(word, b"text") {
        Some(Head::Text)
    } else {
        None
    }
}

/// The line that is written so, without a line feed; none where no line is.
///
/// # Errors
///
/// Memory runs out.
pub fn read_line(alloc: Global, bytes: &[u8]) -> Result<Option<Line>, AllocError>
    ensures { IfOk result (λ it. MatchOption it (NoLine bytes.now) (λ l. IsLine l × (line_text l ≡ bytes.now))) }
{
    let (front, rest) = cut(b' ', bytes);
    let Some(head) = head(front) else {
        return Ok(None);
    };
    let Some(items) = items(alloc, rest)? else {
        return Ok(None);
    };
    if is_form(head, items.as_slice()) {
        Ok(Some(Line { head, items }))
    } else {
        Ok(None)
    }
}
