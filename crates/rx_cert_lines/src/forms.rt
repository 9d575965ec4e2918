//! Which items stand behind each head.

ghost use Rattle.std.specs.Prelude.{◌≡◌};
ghost use Rattle.std.specs.List.{list_all};
ghost use Rattle.rx_cert_lines.specs.Lines as spec;

use crate::item::Item;
use crate::line::Head;

fn is_number(item: &Item) -> bool
    ensures { result ≡ spec.is_number item.now }
{
    matches!(item, Item::Number(_))
}

fn is_range(item: &Item) -> bool
    ensures { result ≡ spec.is_range item.now }
{
    matches!(item, Item::Range(_, _))
}

fn is_part(item: &Item) -> bool
    ensures { result ≡ spec.is_part item.now }
{
    match item {
        Item::Number(_) => false,
        Item::Range(first, last) => *first <= *last,
        Item::End(_) => true,
    }
}

/// Whether a range can stand directly behind, and whether an end point can.
fn after_range(last: u32, next: &Item) -> bool
    ensures { result ≡ spec.after_range last next.now }
{
    match next {
        Item::Number(_) => false,
        Item::Range(first, _) => (last as u64) + 1 < (*first as u64),
        Item::End(_) => true,
    }
}

fn after_end(last: u32, next: &Item) -> bool
    ensures { result ≡ spec.after_end last next.now }
{
    match next {
        Item::Number(_) | Item::Range(_, _) => false,
        Item::End(end) => last < *end,
    }
}

fn precedes(item: &Item, next: &Item) -> bool
    ensures { result ≡ spec.precedes item.now next.now }
{
    match item {
        Item::Number(_) => false,
        Item::Range(_, last) => after_range(*last, next),
        Item::End(last) => after_end(*last, next),
    }
}

fn precedes_first(item: &Item, rest: &[Item]) -> bool
    ensures { result ≡ spec.precedes_first item.now rest.now }
{
    match rest {
        [] => true,
        [next, ..] => precedes(item, next),
    }
}

/// Whether it is a set of points: ranges that ascend and don't touch, then end points that ascend.
pub fn is_set(items: &[Item]) -> bool
    ensures { result ≡ spec.is_set items.now }
{
    let mut left = items;
    while let [item, rest @ ..] = left {
        if !is_part(item) || !precedes_first(item, rest) {
            return false;
        }
        left = rest;
    }
    true
}

fn are_numbers(items: &[Item]) -> bool
    ensures { result ≡ list_all spec.is_number items.now }
{
    for item in items {
        if !is_number(item) {
            return false;
        }
    }
    true
}

fn are_ranges(items: &[Item]) -> bool
    ensures { result ≡ list_all spec.is_range items.now }
{
    for item in items {
        if !is_range(item) {
            return false;
        }
    }
    true
}

fn is_function(items: &[Item]) -> bool
    ensures { result ≡ spec.is_function items.now }
{
    items.len() == 3 && are_numbers(items)
}

fn is_loan(items: &[Item]) -> bool
    ensures { result ≡ spec.is_loan items.now }
{
    match items {
        [] => false,
        [site, sites @ ..] => is_number(site) && are_ranges(sites) && is_set(sites),
    }
}

/// Whether these items stand behind this head.
pub fn is_form(head: Head, items: &[Item]) -> bool
    ensures { result ≡ spec.is_form head items.now }
{
    match head {
        Head::Function => is_function(items),
        Head::Region => is_set(items),
        Head::Loan => is_loan(items),
        Head::Text => items.is_empty(),
    }
}
