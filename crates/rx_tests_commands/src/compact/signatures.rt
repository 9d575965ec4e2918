//! Signatures, each with the short one.

use crate::run::said::{all_told, hold, replied};
use rx_tests_tables::{LINES, Outcome, first_wrong};
use std::alloc::Global;

/// What stands before and behind the function of a row.
const BEFORE: &str =
    "struct Keep<'k> { best: &'k i64 } struct Two<'p, 'q> { one: &'p i64, other: &'q i64 } \
struct Deep<'p, 'q> { it: &'p &'q i64 } enum May<'m> { Is(&'m i64), No } ";

const BEHIND: &str = " fn main() {}";

/// Cycles of bounds, written and implied: one name stands for all.
const MERGED: &str = "\
fn f<'a: 'b, 'b: 'a>(x: &'a i64, y: &'b i64) {} | fn f<'a>(x: &'a i64, y: &'a i64) {}
fn f<'b: 'a, 'a: 'b>(x: &'a i64, y: &'b i64) {} | fn f<'b>(x: &'b i64, y: &'b i64) {}
fn f<'a: 'b, 'b: 'c, 'c: 'a>(x: &'a i64, y: &'b i64, z: &'c i64) {} | fn f<'a>(x: &'a i64, y: &'a i64, z: &'a i64) {}
fn f<'a: 'b, 'b: 'a, 'c: 'd, 'd: 'c>(x: &'a i64, y: &'b i64, z: &'c i64, w: &'d i64) {} | \
fn f<'a, 'c>(x: &'a i64, y: &'a i64, z: &'c i64, w: &'c i64) {}
fn f<'a: 'b, 'b: 'a, 'c: 'a + 'b>(x: &'a i64, y: &'b i64, z: &'c i64) {} | fn f<'a, 'c: 'a>(x: &'a i64, y: &'a i64, z: &'c i64) {}
fn f<'a: 'b, 'b: 'a>(x: &'a i64) {} | fn f(x: &i64) {}
fn f<'a: 'b, 'b: 'a>(x: &'a i64) -> &'b i64 { x } | fn f(x: &i64) -> &i64 { x }
fn f<'a: 'b, 'b: 'a>(x: &'a i64, y: &'b i64) { let z: &'b i64 = x; } | fn f<'a>(x: &'a i64, y: &'a i64) { let z: &'a i64 = x; }
fn f<'a: 'b, 'b>(x: &'a &'b i64) {} | fn f<'a>(x: &'a &'a i64) {}
fn f<'a: 'b, 'b>(x: Deep<'a, 'b>) {} | fn f<'a>(x: Deep<'a, 'a>) {}
fn f<'a: 'b, 'b: 'a>(x: Two<'a, 'b>) -> Two<'b, 'a> { x } | fn f<'a>(x: Two<'a, 'a>) -> Two<'a, 'a> { x }
fn f<'a: 'a>(x: &'a i64) {} | fn f(x: &i64) {}
fn f<'a: 'b + 'b, 'b>(x: &'a i64, y: &'b i64) {} | fn f<'a: 'b, 'b>(x: &'a i64, y: &'b i64) {}";

/// Lifetimes that elision tells.
const ELIDED: &str = "\
fn f<'a>(x: &'a i64) {} | fn f(x: &i64) {}
fn f<'a>(mut x: &'a mut i64) {} | fn f(mut x: &mut i64) {}
fn f<'a, 'b>(x: &'a i64, y: &'b i64) {} | fn f(x: &i64, y: &i64) {}
fn f<'a, 'b>(x: &'a mut &'b i64) {} | fn f(x: &mut &i64) {}
fn f<'a, 'b>(x: &'a &'b i64) {} | fn f(x: &&i64) {}
fn f<'a, 'b>(x: (&'a i64, &'b i64)) {} | fn f(x: (&i64, &i64)) {}
fn f<'a>(x: &'a i64) -> &'a i64 { x } | fn f(x: &i64) -> &i64 { x }
fn f<'a>(x: &'a i64) -> (&'a i64, i64) { (x, 1) } | fn f(x: &i64) -> (&i64, i64) { (x, 1) }
fn f<'a>(x: &'a i64) -> (&'a i64, &'a i64) { (x, x) } | fn f(x: &i64) -> (&i64, &i64) { (x, x) }
fn f<'a, 'b>(x: &'a i64, y: &'b i64) -> &'a i64 { x } | fn f<'a>(x: &'a i64, y: &i64) -> &'a i64 { x }
fn f<'a, 'b>(y: &'b i64) {} | fn f<'a>(y: &i64) {}
fn f<'a, 'b, 'c>(x: &'a i64, y: &'b i64, z: &'b i64, w: &'c i64) {} | fn f<'b>(x: &i64, y: &'b i64, z: &'b i64, w: &i64) {}
fn f<'a>(x: &'a i64) { let y: &i64 = x; } | fn f(x: &i64) { let y: &i64 = x; }
fn f<'k>(x: Keep<'k>) {} | fn f(x: Keep<'_>) {}
fn f<'a, 'k>(x: &'a Keep<'k>) {} | fn f(x: &Keep<'_>) {}
fn f<'a, 'm>(x: &'a mut May<'m>) {} | fn f(x: &mut May<'_>) {}
fn f<'k>(x: Keep<'k>) -> Keep<'k> { x } | fn f(x: Keep<'_>) -> Keep<'_> { x }
fn f<'k>(x: Keep<'k>) -> &'k i64 { x.best } | fn f(x: Keep<'_>) -> &i64 { x.best }
fn f<'p, 'q>(x: Two<'p, 'q>) {} | fn f(x: Two<'_, '_>) {}
fn f<'p>(x: Two<'p, '_>) {} | fn f(x: Two<'_, '_>) {}
fn f<'p, 'q>(x: Two<'p, 'q>) -> &'p i64 { x.one } | fn f<'p>(x: Two<'p, '_>) -> &'p i64 { x.one }";

/// Signatures that stay as they are.
const KEPT: &str = "\
fn f(x: i64) -> i64 { x }
fn f(x: &i64) -> &i64 { x }
fn f<'a>(x: i64) {}
fn f<'a>(x: &'a i64, y: &'a i64) {}
fn f<'a>(x: &'a mut Keep<'a>) {}
fn f<'p>(x: Two<'p, 'p>) {}
fn f<'a>(x: &'a i64, y: &i64) -> &'a i64 { x }
fn f<'a>(x: &'a i64, y: Keep<'_>) -> &'a i64 { x }
fn f<'a, 'b: 'a>(x: &'a i64, y: &'b i64) -> &'a i64 { y }
fn f<'a: 'c + 'b, 'b, 'c>(x: &'a i64, y: &'b i64, z: &'c i64) {}
fn f<'a>() -> &'a i64 { f() }
fn f<'a, 'b>(x: &'a i64) -> (&'a i64, &'b i64) { f(x) }
fn f<'a>(x: &'a i64) { let y: &'a i64 = x; }
fn f<'k>(x: Keep<'k>) { let y: Keep<'k> = x; }";

/// Blanks and comments: those of the list go, and the blanks behind a lifetime that a reference leaves out; all else stays.
const LAYOUTS: &str = "\
fn f<'a>(x: &'a   i64) {} | fn f(x: &i64) {}
fn f<'a>(x: & 'a i64) {} | fn f(x: & i64) {}
fn f<'a>(x: &'a /* one */ i64) {} | fn f(x: &/* one */ i64) {}
fn f <'a>(x: &'a i64) {} | fn f (x: &i64) {}
fn f< 'a :'b,'b >(x: &'a i64, y: &'b i64) -> &'b i64 { x } | fn f<'a: 'b, 'b>(x: &'a i64, y: &'b i64) -> &'b i64 { x }
fn f<'a, 'b,>(x: &'a i64, y: &'a i64, z: &'b i64) {} | fn f<'a>(x: &'a i64, y: &'a i64, z: &i64) {}
fn f</* one */ 'a, 'b /* two */>(x: &'a i64, /* three */ y: &'b i64) -> &'a i64 { x } | fn f<'a>(x: &'a i64, /* three */ y: &i64) -> &'a i64 { x }
fn f<'k>(x: Keep< 'k /* one */ >) { /* two */ } | fn f(x: Keep< '_ /* one */ >) { /* two */ }";

/// Whether a function's signature becomes another, which is accepted and stays.
fn becomes(alloc: Global, given: &str, want: &str) -> Outcome {
    let text = format!(in alloc; "{}{}{}", BEFORE, given, BEHIND)?;
    let short = format!(in alloc; "{}{}{}", BEFORE, want, BEHIND)?;
    let made = replied(alloc, "compact f", text.as_str(), 4000, 100)?;
    let again = replied(alloc, "compact f", short.as_str(), 4000, 100)?;
    let checked = replied(alloc, "check", short.as_str(), 100, 100)?;
    Ok(
        made.is(0, short.as_str(), "")
            && again.is(0, short.as_str(), "")
            && checked.is(0, "accepted\n", ""),
    )
}

#[test]
fn lifetimes_that_are_equal_become_one(rt: HostRuntime) {
    match first_wrong(rt.alloc(), MERGED, LINES, becomes) {
        Some(row) => hold(&rt, Ok(false), row),
        None => {}
    }
}

#[test]
fn lifetimes_that_elision_tells_are_left_out(rt: HostRuntime) {
    match first_wrong(rt.alloc(), ELIDED, LINES, becomes) {
        Some(row) => hold(&rt, Ok(false), row),
        None => {}
    }
}

#[test]
fn blanks_and_comments_stay_outside_of_the_list(rt: HostRuntime) {
    match first_wrong(rt.alloc(), LAYOUTS, LINES, becomes) {
        Some(row) => hold(&rt, Ok(false), row),
        None => {}
    }
}

#[test]
fn other_signatures_stay(rt: HostRuntime) {
    for row in KEPT.split("\n") {
        hold(&rt, becomes(rt.alloc(), row, row), row);
    }
}

const REFUSED: &str = "\
compact nope: fn main() {} | 1 / error: Refused NoFunction
compact Keep: struct Keep<'k> { best: &'k i64 } fn main() {} | 1 / error: Refused NoFunction
compact nope: fn main() { let x = ; } | 3 / error: NotAccepted Syntax 20
compact main: fn main() { x = 1; } | 3 / error: NotAccepted Unknown 12 13
compact f: fn f<'a, 'b>(p: &'a i64, q: &'b i64) -> &'a i64 { q } fn main() {} | 3 / error: NotAccepted Region 0 1 0
compact main: fn main() {} | 0 fn main() {} /
compact: fn main() {} | 2 / error: Usage
compact main main: fn main() {} | 2 / error: Usage";

#[test]
fn texts_without_a_short_signature_are_refused(rt: HostRuntime) {
    all_told(&rt, rt.alloc(), REFUSED);
}
