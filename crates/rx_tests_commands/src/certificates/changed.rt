//! Certificates with one line changed: `N: LINE` puts a line in the place of the Nth, `+N: LINE` in front of it, `-N` leaves it out.

use crate::run::said::{hold, replied};
use rx_tests_tables::Outcome;
use std::alloc::{AllocError, Global};
use std::process::Abort;

/// What is done at a line.
#[derive(Clone, Copy)]
enum Change {
    Put,
    Insert,
    Omit,
}

/// What is done, and the number of the line, from 1.
fn change_of(place: &str) -> (Change, &str) {
    if let Some(number) = place.strip_prefix("+") {
        return (Change::Insert, number);
    }
    match place.strip_prefix("-") {
        Some(number) => (Change::Omit, number),
        None => (Change::Put, place),
    }
}

fn push_line(text: &mut String, line: &str) -> Result<(), AllocError> {
    text.push_str(line)?;
    text.push_str("\n")
}

/// Adds what a change makes of a line.
fn push_changed(
    text: &mut String,
    change: Change,
    line: &str,
    new: &str,
) -> Result<(), AllocError> {
    match change {
        Change::Put => push_line(text, new),
        Change::Insert => {
            push_line(text, new)?;
            push_line(text, line)
        }
        Change::Omit => Ok(()),
    }
}

/// The certificate with one line changed.
fn changed(alloc: Global, certificate: &str, words: &str) -> Result<String, AllocError> {
    let (place, new) = words.split_once(": ").unwrap_or((words, ""));
    let (change, number) = change_of(place);
    let number = number.parse::<u32>().unwrap_or(0);
    let mut all = String::new(alloc);
    let mut at = 0u32;
    for line in certificate.split("\n") {
        at = at.wrapping_add(1);
        if at == number {
            push_changed(&mut all, change, line, new)?;
        } else {
            push_line(&mut all, line)?;
        }
    }
    Ok(all)
}

/// Whether the changed certificate is verified, where `accepted` is wanted, or else has the fault.
fn is_answered(alloc: Global, certificate: &str, words: &str, want: &str) -> Outcome {
    let changed = changed(alloc, certificate, words)?;
    let reply = replied(alloc, "verify", changed.as_str(), 100, 200)?;
    if want == "accepted" {
        return Ok(reply.is(0, "accepted\n", ""));
    }
    let line = format!(in alloc; "error: NotAccepted {want}\n")?;
    Ok(reply.is(3, "", line.as_str()))
}

/// Ends the test at the first change of which something else is said.
fn all_answered(rt: &impl Abort, alloc: Global, certificate: &str, table: &str) {
    for row in table.split("\n") {
        match row.split_once(" | ") {
            Some((words, want)) => hold(rt, is_answered(alloc, certificate, words, want), row),
            None => hold(rt, Ok(false), row),
        }
    }
}

/// A borrow: its lines are a function, three lifetimes and a loan.
const BORROW: &str = "\
function 0 11 3
r 6-6
r 4-6
r 4-6
l 3 4-6
text
fn main() { let x = 1; let r = &x; println!(\"{}\", *r); }";

const BORROW_CHANGED: &str = "\
1: function 0 11 3 | accepted
1: function 0 10 3 | Form 1
1: function 0 12 3 | Form 1
1: function 0 11 2 | Form 1
1: function 0 11 4 | Form 1
1: function 1 11 3 | Form 1
1: function 0 11 | Form 1
1: function 0 11 3 0 | Form 1
1: function 0 11 03 | Form 1
1: function 00 11 3 | Form 1
1: function 0  11 3 | Form 1
1: function 0 11 3  | Form 1
1:  function 0 11 3 | Form 1
1: function | Form 1
1: functions 0 11 3 | Form 1
1: function 0 11-11 3 | Form 1
1: function 0 11 e3 | Form 1
1: function 0 11 -3 | Form 1
1: function 0 11 3x | Form 1
1: Function 0 11 3 | Form 1
1: r | Form 1
1:  | Form 1
1: text | Syntax 0
-1 | Form 1
+1:  | Form 1
+1: function 0 11 3 | Form 2
+1: text | Syntax 0
2: r | Rule 0 1
2: r 6 | Form 2
2: r 6- | Form 2
2: r -6 | Form 2
2: r 6--6 | Form 2
2: r 6-6-6 | Form 2
2: r6-6 | Form 2
2: r  6-6 | Form 2
2: r 6-6  | Form 2
2: r 6 -6 | Form 2
2: r 06-6 | Form 2
2: r 6-06 | Form 2
2: r 6-5 | Form 2
2: r +6-6 | Form 2
2: r e | Form 2
2: r e0 | Form 2
2: r 6-6 e0 | Form 2
2: r e0 6-6 | Form 2
2: r 6-6 7 | Form 2
2: r 6-10 | Rule 0 1
2: r 6-11 | Form 2
2: R 6-6 | Form 2
2: l 6-6 | Form 2
2: l 3 6-6 | Form 2
2: function 0 11 3 | Form 2
2: r 4-6 | accepted
2: r 5-6 | accepted
2: r 6-7 | Rule 0 1
3: r 4-5 6-6 | Form 3
3: r 4-5 5-6 | Form 3
3: r 4-6 4-6 | Form 3
3: r 6-6 4-4 | Form 3
3: r 4-4 6-6 | Rule 0 1
3: r 5-6 | Rule 0 1
3: r 4-5 | Rule 0 1
3: r 3-6 | Rule 0 1
3: r 0-6 | Rule 0 1
4: r 0-6 | accepted
4: r 4-7 | Rule 0 3
4: r | Rule 0 1
5: l | Form 5
5: l 3 | Rule 0 3
5: l 3 4-5 | Rule 0 3
5: l 3 5-6 | Rule 0 3
5: l 3 4-4 6-6 | Rule 0 3
5: l 3 4-6 8-8 | accepted
5: l 3 3-6 | accepted
5: l 3 2-6 | Rule 0 4
5: l 3 4-8 | accepted
5: l 3 4-9 | accepted
5: l 3 4-10 | Rule 0 4
5: l 3 4-11 | Form 5
5: l 3 4-6 e0 | Form 5
5: l 3 4-5 6-6 | Form 5
5: l 3 6-6 4-4 | Form 5
5: l 3 4 | Form 5
5: l 3 3 4-6 | Form 5
5: l 4 4-6 | Form 5
5: l 2 4-6 | Form 5
5: l 03 4-6 | Form 5
5: l 4-6 | Form 5
5: r 4-6 | Form 5
5: function 1 1 0 | Form 5
-2 | Form 4
-5 | Form 5
-6 | Form 6
+5: r 4-6 | Form 5
+6: l 3 4-6 | Form 6
+6: r 4-6 | Form 6
+6: function 1 1 0 | Form 6
6: text  | Form 6
6: Text | Form 6
6: text 0 | Form 6
6:  text | Form 6
+7: text | Syntax 0";

#[test]
fn the_lines_of_a_borrow_are_changed(rt: HostRuntime) {
    all_answered(&rt, rt.alloc(), BORROW, BORROW_CHANGED);
}

/// Two functions, the first with lifetimes of its own, of which the second outlives the first.
const BOUNDS: &str = "\
function 0 10 4
r 0-9 e0
r 0-9 e1
r 0-9 e0
r 0-9 e0
l 6 7-9
function 1 1 0
text
fn f<'a, 'b: 'a>(x: &'a mut i64, y: &'b i64) -> &'a i64 { *x = *y; x } fn main() {}";

const BOUNDS_CHANGED: &str = "\
2: r 0-9 | Rule 0 1
2: r e0 | Rule 0 1
2: r 0-8 e0 | Rule 0 1
2: r 1-9 e0 | Rule 0 1
2: r 0-9 e0 e0 | Form 2
2: r 0-9 e0 e1 | Rule 0 1
2: r 0-9 e0 e2 | Form 2
2: r 0-9 e00 | Form 2
2: r 0-9 e1 | Rule 0 1
3: r 0-9 e0 e1 | accepted
3: r 0-9 e1 e0 | Form 3
3: r 0-9 e0 | Rule 0 1
3: r e1 0-9 | Form 3
4: r 0-9 | Rule 0 1
4: r 0-8 e0 | Rule 0 1
4: r 0-9 e0 e1 | Rule 0 1
5: r 0-9 | Rule 0 1
5: r 0-9 e0 e1 | Rule 0 1
6: l 6 7-8 | Rule 0 3
6: l 6 | Rule 0 3
6: l 6 8-9 | Rule 0 3
6: l 6 6-9 | accepted
6: l 6 0-9 | Rule 0 4
7: function 1 1 1 | Form 7
7: function 2 1 0 | Form 7
7: function 0 1 0 | Form 7
7: function 1 0 0 | Form 7
-7 | Form 7
+8: function 2 1 0 | Form 8
+8: r | Form 8";

#[test]
fn the_lines_of_own_lifetimes_are_changed(rt: HostRuntime) {
    all_answered(&rt, rt.alloc(), BOUNDS, BOUNDS_CHANGED);
}

/// Three loans, of which the second ends where what it goes through is assigned.
const MOVED: &str = "\
function 0 23 8
r 9-16
r 12-14
r 7-16
r 10-14
r 9-16
r 7-16
r 10-14
r 9-16
l 6 7-16
l 9 10-13
l 12 13-16
text
fn main() { let x = 1; let y = 2; let mut r = &x; let s = &*r; r = &y; println!(\"{}\", *s); println!(\"{}\", *r); }";

const MOVED_CHANGED: &str = "\
11: l 9 10-12 | Rule 0 3
11: l 9 10-11 | Rule 0 3
11: l 9 10-14 | accepted
11: l 9 10-22 | accepted
11: l 9 9-13 | accepted
11: l 9 10-13 22-22 | accepted
11: l 9 11-13 | Rule 0 3
10: l 6 7-15 | Rule 0 3
10: l 6 7-12 14-16 | Rule 0 3
10: l 6 7-17 | accepted
10: l 6 7-20 | accepted
10: l 6 7-21 | accepted
10: l 6 1-16 | Rule 0 4
12: l 12 13-15 | Rule 0 3
12: l 9 13-16 | Form 12
10: l 9 7-16 | Form 10
-10 | Form 10
-12 | Form 12
+13: l 13 14-16 | Form 13";

#[test]
fn the_lines_of_three_loans_are_changed(rt: HostRuntime) {
    all_answered(&rt, rt.alloc(), MOVED, MOVED_CHANGED);
}

/// The second of two functions has lifetimes.
const SECOND: &str = "\
function 0 2 0
function 1 11 3
r 6-6
r 4-6
r 4-6
l 3 4-6
text
fn one() -> i64 { 1 } fn main() { let x = one(); let r = &x; println!(\"{}\", *r); }";

const SECOND_CHANGED: &str = "\
3: r | Rule 1 1
4: r 4-5 | Rule 1 1
6: l 3 4-5 | Rule 1 3
6: l 3 4-9 | accepted
1: function 0 2 0 | accepted
1: function 1 2 0 | Form 1
2: function 1 11 2 | Form 2
2: function 0 11 3 | Form 2
-1 | Form 1
-2 | Form 2";

#[test]
fn the_lines_of_a_second_function_are_changed(rt: HostRuntime) {
    all_answered(&rt, rt.alloc(), SECOND, SECOND_CHANGED);
}

/// No certificate is good: the text assigns what is borrowed.
const CONFLICT: &str = "\
function 0 13 3
r 6-8
r 4-8
r 4-8
l 3 4-8
text
fn main() { let mut x = 1; let r = &x; x = 2; println!(\"{}\", *r); }";

const CONFLICT_CHANGED: &str = "\
1: function 0 13 3 | Rule 0 4
2: r 6-7 | Rule 0 1
2: r 6-7 9-9 | Rule 0 1
4: r 4-7 | Rule 0 1
5: l 3 4-7 | Rule 0 4
5: l 3 4-6 | Rule 0 3
5: l 3 4-8 | Rule 0 4";

#[test]
fn a_text_with_a_conflict_has_no_certificate(rt: HostRuntime) {
    all_answered(&rt, rt.alloc(), CONFLICT, CONFLICT_CHANGED);
}

/// No certificate is good: the second lifetime of the function's own would have to outlive the first.
const LACKING: &str = "\
function 0 8 3
r 0-7 e0
r 0-7 e0 e1
r 0-7 e0
function 1 1 0
text
fn f<'a, 'b>(x: &'a i64, y: &'b i64) -> &'a i64 { y } fn main() {}";

const LACKING_CHANGED: &str = "\
1: function 0 8 3 | Rule 0 2
2: r 0-7 e0 e1 | Rule 0 1
3: r 0-7 e1 | Rule 0 1
3: r 0-7 e0 | Rule 0 1
4: r 0-7 | Rule 0 1
4: r 0-7 e0 e1 | Rule 0 2";

#[test]
fn a_text_that_lacks_a_bound_has_no_certificate(rt: HostRuntime) {
    all_answered(&rt, rt.alloc(), LACKING, LACKING_CHANGED);
}

/// The text is none, so what its functions have is not looked at, but each line has to be of its form: its numbers are below 2^32.
const UNREAD: &str = "\
function 0 11 3
r 6-6 e0
l 3 4-6
text
fn";

const UNREAD_CHANGED: &str = "\
1: function 0 11 3 | Syntax 3
1: function 0 11 4294967295 | Syntax 3
1: function 0 11 4294967296 | Form 1
1: function 4294967296 11 3 | Form 1
1: function 0 42949672960 3 | Form 1
1: function 99999999999999999999 11 3 | Form 1
2: r 4294967295-4294967295 | Syntax 3
2: r 4294967295-4294967296 | Form 2
2: r 4294967296-4294967296 | Form 2
2: r e4294967295 | Syntax 3
2: r e4294967296 | Form 2
3: l 4294967295 0-0 | Syntax 3
3: l 4294967296 0-0 | Form 3
2: r 0-0 2-2 e0 e4 | Syntax 3
2: r 0-0 1-1 | Form 2
2: r e1 e1 | Form 2
2: r | Syntax 3
-1 | Syntax 3
+1: r | Syntax 3";

#[test]
fn lines_are_read_before_the_text(rt: HostRuntime) {
    all_answered(&rt, rt.alloc(), UNREAD, UNREAD_CHANGED);
}
