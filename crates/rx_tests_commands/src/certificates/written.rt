//! Certificates byte for byte, and texts that get none.

use crate::run::said::{all_told, hold, replied};
use rx_tests_tables::{BANK, BLOCKS, Outcome, first_wrong};
use std::alloc::Global;

/// Texts, each with the lines of its certificate before the line `text`.
const WRITTEN: &str = "\
fn main() { let a = 2i64; let b = 3i64; let c = a * b; println!(\"{}\", c); }
function 0 17 0
----
fn main() { let x = 1; let r = &x; println!(\"{}\", *r); }
function 0 11 3
r 6-6
r 4-6
r 4-6
l 3 4-6
----
mod rt; fn main() { let mut sum = 0i64; let mut best = &sum; loop { let n = rt::next(); if n == 0 { break; } if n < *best { continue; } println!(\"{}\", n); } println!(\"{}\", *best); }
function 1 27 3
r 6-22
r 4-22
r 4-22
l 3 4-22
----
struct Keep<'k> { best: &'k i64 } fn order<'a>(x: &mut Keep<'a>, y: &mut Keep<'a>) { let t = x.best; x.best = y.best; y.best = t; } fn main() {}
function 1 15 7
r 0-14 e0
r 0-14 e1
r 0-14 e2
r 0-14 e0
r 0-14 e0
r 0-14 e0
r 0-14 e0
function 2 1 0
----
fn one() -> i64 { 1 } fn main() { let a = one(); println!(\"{}\", a); }
function 0 2 0
function 1 7 0
----
fn f<'a, 'b: 'a>(x: &'a mut i64, y: &'b i64) -> &'a i64 { *x = *y; x } fn main() {}
function 0 10 4
r 0-9 e0
r 0-9 e1
r 0-9 e0
r 0-9 e0
l 6 7-9
function 1 1 0
----
fn main() { let mut x = 1i64; let r = &mut x; { let s = &mut *r; *s = 2; } *r = 3; println!(\"{}\", x); }
function 0 19 6
r 6-13
r 9-10
r 4-13
r 7-10
r 4-13
r 7-10
l 3 4-13
l 6 7-10
----
fn main() { let x = 1; let y = 2; let mut r = &x; let s = &*r; r = &y; println!(\"{}\", *s); println!(\"{}\", *r); }
function 0 23 8
r 9-16
r 12-14
r 7-16
r 10-14
r 9-16
r 7-16
r 10-14
r 9-16
l 6 7-16
l 9 10-13
l 12 13-16";

/// Whether the text's certificate has these lines before its line `text`, and is verified.
fn has_certificate(alloc: Global, text: &str, lines: &str) -> Outcome {
    let certificate = format!(in alloc; "{lines}\ntext\n{text}")?;
    let written = replied(alloc, "certify", text, 4000, 100)?;
    let verified = replied(alloc, "verify", certificate.as_str(), 100, 100)?;
    Ok(written.is(0, certificate.as_str(), "") && verified.is(0, "accepted\n", ""))
}

#[test]
fn certificates_are_written_and_verified(rt: HostRuntime) {
    match first_wrong(rt.alloc(), WRITTEN, BLOCKS, has_certificate) {
        Some(row) => hold(&rt, Ok(false), row),
        None => {}
    }
}

const REFUSED: &str = "\
certify: fn main() { let x = ; } | 3 / error: NotAccepted Syntax 20
certify:  | 3 / error: NotAccepted Mismatch 0 0 Main
certify: fn main() { x = 1; } | 3 / error: NotAccepted Unknown 12 13
certify: fn main() { let x: i64 = true; } | 3 / error: NotAccepted Mismatch 25 29 Equal
certify: fn main() { match true { true => {} } } | 3 / error: NotAccepted Missing 12 37 false
certify: fn main() { let x: i64; println!(\"{}\", x); } | 3 / error: NotAccepted Unset 39 40
certify: fn f<'a, 'b>(p: &'a i64, q: &'b i64) -> &'a i64 { q } fn main() {} | 3 / error: NotAccepted Region 0 1 0
certify: fn main() { let mut x = 1; let r = &mut x; x = 2; println!(\"{}\", *r); } | 3 / error: NotAccepted Loan 35 41 43 48
certify it: fn main() {} | 2 / error: Usage
verify it: text | 2 / error: Usage
verify: fn main() {} | 3 / error: NotAccepted Form 1";

#[test]
fn texts_that_are_not_accepted_get_none(rt: HostRuntime) {
    all_told(&rt, rt.alloc(), REFUSED);
}

/// Whether the certificate of a text is verified, and, with its first line left out, is not.
fn is_good(alloc: Global, text: &str) -> Outcome {
    let written = replied(alloc, "certify", text, 8000, 100)?;
    let Ok(certificate) = str::from_utf8(written.printed()) else {
        return Ok(false);
    };
    let verified = replied(alloc, "verify", certificate, 100, 100)?;
    let (_first, others) = certificate.split_once("\n").unwrap_or(("", ""));
    let cut = replied(alloc, "verify", others, 100, 100)?;
    Ok(
        written.ends(0)
            && verified.is(0, "accepted\n", "")
            && cut.is(3, "", "error: NotAccepted Form 1\n"),
    )
}

#[test]
fn the_certificate_of_the_bank_is_verified(rt: HostRuntime) {
    hold(&rt, is_good(rt.alloc(), BANK), "the bank");
}
