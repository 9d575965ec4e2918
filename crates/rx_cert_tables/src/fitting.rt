//! Whether lines are those of a function.

ghost use Rattle.std.specs.Prelude.{◌≡◌, ◌≤◌, ◌<◌, ◌-◌, get_or, length, MatchOption, MatchBool};
ghost use Rattle.std.specs.List.{list_all};
ghost use Rattle.rx_cert_tables.specs.Fitting as spec;

use crate::shape::Shape;
use rx_cert_lines::{Head, Item, Line};

fn is_within(sites: u32, own: u32, item: &Item) -> bool
    ensures { result ≡ spec.is_within sites own item.now }
{
    match item {
        Item::Number(_) => false,
        Item::Range(_, last) => *last < sites,
        Item::End(end) => *end < own,
    }
}

fn are_within(sites: u32, own: u32, items: &[Item]) -> bool
    ensures { result ≡ list_all (spec.is_within sites own) items.now }
{
    for item in items {
        if !is_within(sites, own, item) {
            return false;
        }
    }
    true
}

fn is_number_of(number: u32, item: &Item) -> bool
    ensures { result ≡ spec.is_number_of number item.now }
{
    match item {
        Item::Number(other) => *other == number,
        Item::Range(_, _) | Item::End(_) => false,
    }
}

fn is_function_of(shape: &Shape, items: &[Item]) -> bool
    ensures { result ≡ spec.is_function_of shape.now items.now }
{
    match items {
        [item, sites, lifetimes] => {
            is_number_of(shape.item, item)
                && is_number_of(shape.sites, sites)
                && is_number_of(shape.lifetimes, lifetimes)
        }
        _ => false,
    }
}

fn is_loan_of(borrow: u32, sites: u32, items: &[Item]) -> bool
    ensures { result ≡ spec.is_loan_of borrow sites items.now }
{
    match items {
        [] => false,
        [item, rest @ ..] => is_number_of(borrow, item) && are_within(sites, 0, rest),
    }
}

fn fits_function(shape: &Shape, line: &Line) -> bool
    ensures { result ≡ spec.fits_function shape.now line.now }
{
    match line.head {
        Head::Function => is_function_of(shape, line.items.as_slice()),
        Head::Region | Head::Loan | Head::Text => false,
    }
}

fn fits_region(shape: &Shape, line: &Line) -> bool
    ensures { result ≡ spec.fits_region shape.now line.now }
{
    match line.head {
        Head::Region => are_within(shape.sites, shape.own, line.items.as_slice()),
        Head::Function | Head::Loan | Head::Text => false,
    }
}

fn fits_loan(shape: &Shape, borrow: u32, line: &Line) -> bool
    ensures { result ≡ spec.fits_loan shape.now borrow line.now }
{
    match line.head {
        Head::Loan => is_loan_of(borrow, shape.sites, line.items.as_slice()),
        Head::Function | Head::Region | Head::Text => false,
    }
}

/// Whether a line is as it has to be at its place among the function's.
fn fits_at(shape: &Shape, at: usize, line: &Line) -> bool
    requires { at < spec.count shape.now }
    ensures { result ≡ spec.fits_at shape.now at line.now }
{
    if at == 0 {
        fits_function(shape, line)
    } else if at <= shape.lifetimes as usize {
        fits_region(shape, line)
    } else {
        match shape.borrows.get(at - 1 - shape.lifetimes as usize) {
            Some(borrow) => fits_loan(shape, *borrow, line),
            None => unreachable!(),
        }
    }
}

/// Whether the function has no line at a place.
fn is_past(shape: &Shape, at: usize) -> bool
    ensures { MatchBool result (spec.count shape.now ≤ at) (at < spec.count shape.now) }
{
    let lifetimes = shape.lifetimes as usize;
    if at <= lifetimes {
        false
    } else {
        at - 1 - lifetimes >= shape.borrows.len()
    }
}

/// The first place at which a line is missing or isn't as the function asks; none where the lines begin with those of the function.
pub fn misfit(shape: &Shape, lines: &[Line]) -> Option<usize>
    ensures { MatchOption result (spec.AllFit shape.now lines.now) (λ at. spec.IsMisfit shape.now lines.now at) }
{
    for at in 0..lines.len() {
        if is_past(shape, at) {
            return None;
        }
        if !fits_at(shape, at, &lines[at]) {
            return Some(at);
        }
    }
    if is_past(shape, lines.len()) {
        None
    } else {
        Some(lines.len())
    }
}
