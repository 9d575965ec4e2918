//! The command `check` on texts, each with its status and what it writes.

use crate::holding::{all_hold, hold};
use crate::texts::rem::{replies, replies_to};
use rx_tests_tables::LINES;

const ACCEPTED: &str = "\
check: TIMES | 0 accepted
check: fn main() {} | 0 accepted
check: fn main() { let a = 9223372036854775807i64; } | 0 accepted";

const COMMENT: &str = "// a comment
fn main() { one(); }
fn one() -> i64 { 1i64 }";

#[test]
fn accepted_texts_pass(rt: HostRuntime) {
    all_hold(&rt, rt.alloc(), ACCEPTED, LINES, replies_to);
    hold(
        &rt,
        replies(rt.alloc(), "check", COMMENT.as_bytes(), "0 accepted"),
        COMMENT,
    );
}

/// The first fault of each, with its place.
const FAULTS: &str = "\
check: fn main() { /* cut | 3 error: NotAccepted BadToken 12
check:  | 3 error: NotAccepted Mismatch 0 0 Main
check:  // nothing | 3 error: NotAccepted Mismatch 0 0 Main
check: fn main() { let x = ; } | 3 error: NotAccepted Syntax 20
check: fn main() { let x = y; } | 3 error: NotAccepted Unknown 20 21
check: fn main() { x; } enum E { A } | 3 error: NotAccepted Unknown 12 13
check: fn main() { f(1i64); } | 3 error: NotAccepted Unknown 12 13
check: fn a() {} fn a() {} struct S {} | 3 error: NotAccepted Twice 3 4 13 14
check: fn main() {} fn a() {} fn a() {} | 3 error: NotAccepted Twice 16 17 26 27
check: fn main(a: i64) {} | 3 error: NotAccepted Mismatch 3 7 Main
check: fn main() { let a = 9223372036854775808i64; } | 3 error: NotAccepted Literal 20 42
check: fn main() { let a = 9223372036854775808i64; let x = y; } | 3 error: NotAccepted Unknown 52 53";

#[test]
fn other_texts_fail_with_their_first_fault(rt: HostRuntime) {
    all_hold(&rt, rt.alloc(), FAULTS, LINES, replies_to);
    let want = "3 error: NotAccepted NotText 11";
    hold(
        &rt,
        replies(rt.alloc(), "check", b"fn main() {\xff", want),
        want,
    );
}

const OTHER_FORMS: &str = "\
check: fn main() { if let 1 = 2 {} } | 0 accepted
check: fn main() { if true {} } | 0 accepted
check: fn main() { let c = 1; } | 0 accepted
check: mod rt; fn main() {} | 0 accepted
check: fn main() {} struct S {} | 0 accepted
check: fn main() {} #[derive(Clone)] enum E { A } | 0 accepted
check: fn f(a: u8) {} fn main() {} | 0 accepted
check: fn main() { let a = -1i64; } | 0 accepted";

#[test]
fn programs_of_other_forms_are_accepted(rt: HostRuntime) {
    all_hold(&rt, rt.alloc(), OTHER_FORMS, LINES, replies_to);
}

const CUT: &str = "\
check: fn main() { | 3 error: NotAccepted Syntax 11
check: fn main() { x //  | 3 error: NotAccepted Syntax 17
check: fn main() { x y } | 3 error: NotAccepted Syntax 14
check: fn main() { a == b == c; } | 3 error: NotAccepted Syntax 19
check: fn main() {} let | 3 error: NotAccepted Syntax 13";

#[test]
fn texts_stop_where_no_program_goes_on(rt: HostRuntime) {
    all_hold(&rt, rt.alloc(), CUT, LINES, replies_to);
}
