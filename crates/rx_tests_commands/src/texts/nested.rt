//! Each construct that adds levels, inside itself. `«` and `»` enclose the construct, `‹` and `›` what is innermost, and
//! `‸` stands before the token that is too deep. Behind a row stands how many of the construct have 128 levels.

use crate::holding::all_hold;
use crate::texts::parse::is_answered;
use rx_parse::{SyntaxFault, levels};
use rx_tests_tables::{LINES, Nesting, Outcome, joined};
use std::alloc::Global;

/// Whether so many constructs are answered as they should be: those that are too many have their place at the first of
/// them, however many there are.
fn ends_so(
    alloc: Global,
    nesting: Nesting<'_>,
    fits: usize,
    place: usize,
    count: usize,
) -> Outcome {
    let text = nesting.text(alloc, count)?;
    let (kind, number) = if count <= fits {
        ("items", 1)
    } else {
        ("deep", place as u64)
    };
    Ok(is_answered(alloc, text.as_bytes(), kind, number))
}

fn ends_at(alloc: Global, nesting: Nesting<'_>, fits: usize, place: usize) -> Outcome {
    let most = ends_so(alloc, nesting, fits, place, fits)?;
    let first = ends_so(alloc, nesting, fits, place, 127)?;
    let second = ends_so(alloc, nesting, fits, place, 128)?;
    let third = ends_so(alloc, nesting, fits, place, 129)?;
    Ok(most && first && second && third)
}

/// A construct whose mark stands before what is inside it, between these two parts.
fn ends_before(
    alloc: Global,
    nesting: Nesting<'_>,
    fits: usize,
    (ahead, behind): (&str, &str),
) -> Outcome {
    let before = joined(alloc, ahead, behind)?;
    let nested = fits.saturating_mul(before.len());
    let place = nesting
        .front
        .len()
        .saturating_add(nested)
        .saturating_add(ahead.len());
    ends_at(
        alloc,
        Nesting {
            before: before.as_str(),
            ..nesting
        },
        fits,
        place,
    )
}

/// A construct whose mark stands behind what is inside it.
fn ends_behind(
    alloc: Global,
    nesting: Nesting<'_>,
    fits: usize,
    (ahead, behind): (&str, &str),
) -> Outcome {
    let after = joined(alloc, ahead, behind)?;
    let chained = fits.saturating_mul(after.len());
    let inner = nesting.front.len().saturating_add(nesting.inner.len());
    let place = inner.saturating_add(chained).saturating_add(ahead.len());
    ends_at(
        alloc,
        Nesting {
            after: after.as_str(),
            ..nesting
        },
        fits,
        place,
    )
}

/// The texts before, within and behind two marks.
fn parts<'a>(text: &'a str, open: &str, close: &str) -> (&'a str, &'a str, &'a str) {
    let (before, rest) = text.split_once(open).unwrap_or((text, ""));
    let (within, behind) = rest.split_once(close).unwrap_or((rest, ""));
    (before, within, behind)
}

/// Whether a construct ends at its mark.
fn ends(alloc: Global, row: &str, fits: &str) -> Outcome {
    let fits = fits.parse::<usize>().unwrap_or(0);
    let (front, construct, back) = parts(row, "«", "»");
    let (before, inner, after) = parts(construct, "‹", "›");
    let nesting = Nesting {
        front,
        before,
        inner,
        after,
        back,
    };
    match (before.split_once("‸"), after.split_once("‸")) {
        (Some(marked), None) => ends_before(alloc, nesting, fits, marked),
        (None, Some(marked)) => ends_behind(alloc, nesting, fits, marked),
        _ => Ok(false),
    }
}

const VALUES: &str = r#"fn f() { «(‸‹x›)» } | 126
fn f() { «(‸‹x›,)» } | 126
fn f() { «‸-‹x›» } | 126
fn f() { «‸!‹x›» } | 126
fn f() { «‸*‹x›» } | 126
fn f() { «‸& ‹x›» } | 126
fn f() { «‸&mut ‹x›» } | 126
fn f() { «‸&&‹x›» } | 63
fn f() { «g(‸‹x›)» } | 126
fn f() { «E::V‸(‹x›)» } | 126
fn f() { «rt::next(‸‹x›)» } | 126
fn f() { «S { ‸a: ‹x› }» } | 126
fn f() { «println‸!("{}", ‹x›)» } | 126
fn f() { «return ‸‹x›» } | 126
fn f() { «x ‸= ‹x›» } | 126
fn f() { «x ‸-= ‹x›» } | 126
fn f() { «‸match a { b => ‹x› }» } | 126
fn f() { «‸match ‹x› { c => 1 }» } | 126
fn f() { «‸{ ‹x› }» } | 63
fn f() { «‸if a { ‹x› }» } | 63
fn f() { «‸if a {} else { ‹x› }» } | 42
fn f() { «‸if a {} else if b { ‹x› }» } | 42
fn f() { «‸loop { ‹x› }» } | 63
fn f() { «‸'a: loop { ‹x› }» } | 63
fn f() { «‸while a { ‹x› }» } | 63
fn f() { «‸while ‹x› {}» } | 126
fn f() { «‸if let y = a { ‹x› }» } | 63
fn f() { «‸if let y = a {} else { ‹x› }» } | 42
fn f() { «‸if let y = a {} else if let z = b { ‹x› }» } | 42
fn f() { «‸while let y = a { ‹x› }» } | 63
fn f() { «‸{ let x = ‹x›; }» } | 63
fn main() { let a = «(‸‹1i64›)»; } | 126"#;

#[test]
fn values_inside_themselves(rt: HostRuntime) {
    all_hold(&rt, rt.alloc(), VALUES, LINES, ends);
}

const CHAINS: &str = r"fn f() { «‹x› ‸+ y» } | 126
fn f() { «‹x› ‸- y» } | 126
fn f() { «‹x› ‸* y» } | 126
fn f() { «‹x› ‸/ y» } | 126
fn f() { «‹x› ‸% y» } | 126
fn f() { «‹x› ‸&& y» } | 126
fn f() { «‹x› ‸|| y» } | 126
fn f() { «‹x›‸.a» } | 126
fn f() { «‹x›‸.0» } | 126
fn f() { «‹x› ‸= y» } | 126
fn f() { «‹x› ‸+= y» } | 126
fn f() { «‹x› ‸*= y» } | 126
fn f() { «‹x› ‸%= y» } | 126";

#[test]
fn chains_of_operators(rt: HostRuntime) {
    all_hold(&rt, rt.alloc(), CHAINS, LINES, ends);
}

const PATTERNS_AND_TYPES: &str = r"fn f() { let «(‸‹a›)» = x; } | 126
fn f() { let «(‸‹a›,)» = x; } | 126
fn f() { let «E::V‸(‹a›)» = x; } | 126
fn f() { let «S { ‸a: ‹a› }» = x; } | 126
fn f(a: «(‸‹u8›)») {} | 127
fn f(a: «(‸‹u8›,)») {} | 127
fn f(a: «‸& ‹u8›») {} | 127
fn f(a: «‸&mut ‹u8›») {} | 127
fn f(a: «‸&'a ‹u8›») {} | 127
fn f(a: «‸&&‹u8›») {} | 63
fn f() -> «(‸‹u8›)» {} | 127
struct S { a: «(‸‹u8›)» } | 127
enum E { A(«(‸‹u8›)») } | 127";

#[test]
fn patterns_and_types_inside_themselves(rt: HostRuntime) {
    all_hold(&rt, rt.alloc(), PATTERNS_AND_TYPES, LINES, ends);
}

/// How many levels a text has, or 0 where it has more than are counted.
fn counted(alloc: Global, bytes: &[u8]) -> Option<u32> {
    match levels(alloc, bytes) {
        Ok(count) => Some(count),
        Err(SyntaxFault::TooDeep { .. }) => Some(0),
        Err(SyntaxFault::Lex(_)) => None,
        Err(SyntaxFault::Syntax { .. }) => None,
        Err(SyntaxFault::OutOfMemory) => None,
    }
}

/// Whether a number in so many pairs of parentheses has so many levels: its own, the body's, and one for each pair.
fn has_levels(alloc: Global, pairs: &str, levels: &str) -> Outcome {
    let nesting = Nesting {
        front: "fn main() { let a = ",
        before: "(",
        inner: "1i64",
        after: ")",
        back: "; }",
    };
    let text = nesting.text(alloc, pairs.parse::<usize>().unwrap_or(0))?;
    Ok(counted(alloc, text.as_bytes()) == levels.parse::<u32>().ok())
}

const LEVELS: &str = r"0 | 2
1 | 3
126 | 128
127 | 129
1021 | 1023
1022 | 1024
1023 | 0";

#[test]
fn levels_are_counted_up_to_1024(rt: HostRuntime) {
    all_hold(&rt, rt.alloc(), LEVELS, LINES, has_levels);
}
