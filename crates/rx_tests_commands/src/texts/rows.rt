//! The tool on files of several functions: answers, refusals and faults, each with what it writes.

use crate::holding::{all_hold, hold};
use crate::texts::rem::{is_done, replies, replies_to, writes};
use rx_tests_tables::{BLOCKS, LINES, Outcome, joined};
use std::alloc::{AllocError, Global};

/// Three functions, one with a result.
pub const AREA: &str = r#"fn area(w: i64, h: i64) -> i64 {
    let base = w * h;
    base + 1i64
}

fn show(x: i64) {
    println!("{}", x);
}

fn main() {
    let a = 2i64;
    let b = area(a, a);
    show(b);
    let u = show(a);
    println!("{}", b);
}
"#;

/// Commands, and what they make of the file above.
const AREA_ANSWERS: &str = r#"extract product 37 54
fn area(w: i64, h: i64) -> i64 {
    let base = product(w, h);
    base + 1i64
}

fn product(w: i64, h: i64) -> i64 {
    let base = w * h;
    base
}

fn show(x: i64) {
    println!("{}", x);
}

fn main() {
    let a = 2i64;
    let b = area(a, a);
    show(b);
    let u = show(a);
    println!("{}", b);
}
----
extract whole 152 171
fn area(w: i64, h: i64) -> i64 {
    let base = w * h;
    base + 1i64
}

fn show(x: i64) {
    println!("{}", x);
}

fn main() {
    let a = 2i64;
    let b = whole(a);
    show(b);
    let u = show(a);
    println!("{}", b);
}

fn whole(a: i64) -> i64 {
    let b = area(a, a);
    b
}
----
extract shown 176 184
fn area(w: i64, h: i64) -> i64 {
    let base = w * h;
    base + 1i64
}

fn show(x: i64) {
    println!("{}", x);
}

fn main() {
    let a = 2i64;
    let b = area(a, a);
    shown(b);
    let u = show(a);
    println!("{}", b);
}

fn shown(b: i64) {
    show(b);
}
----
extract both 176 205
fn area(w: i64, h: i64) -> i64 {
    let base = w * h;
    base + 1i64
}

fn show(x: i64) {
    println!("{}", x);
}

fn main() {
    let a = 2i64;
    let b = area(a, a);
    both(b, a);
    println!("{}", b);
}

fn both(b: i64, a: i64) {
    show(b);
    let u = show(a);
}
----
extract printed 96 114
fn area(w: i64, h: i64) -> i64 {
    let base = w * h;
    base + 1i64
}

fn show(x: i64) {
    printed(x);
}

fn printed(x: i64) {
    println!("{}", x);
}

fn main() {
    let a = 2i64;
    let b = area(a, a);
    show(b);
    let u = show(a);
    println!("{}", b);
}"#;

fn area_becomes(alloc: Global, command: &str, want: &str) -> Outcome {
    writes(alloc, command, AREA.as_bytes(), 0, want)
}

#[test]
fn a_run_of_any_function_is_extracted(rt: HostRuntime) {
    all_hold(&rt, rt.alloc(), AREA_ANSWERS, BLOCKS, area_becomes);
}

/// A unit as a param and handed out, two variables handed out, and tails.
pub const UNITS: &str = r#"fn show(x: i64) {
    println!("{}", x);
}

fn last(x: i64) -> i64 {
    let y = x;
    (y + (1i64))
}

fn main() {
    let a = 2i64;
    let u = show(a);
    let v = u;
    let b = a;
    let c = b;
    println!("{}", b);
    println!("{}", c);
}
"#;

const UNITS_REFUSED: &str = "\
extract f 89 99: UNITS | 1 error: Refused NotARun
extract f 88 99: UNITS | 1 error: Refused NotARun
extract f 73 90: UNITS | 1 error: Refused NotARun
extract f 101 115: UNITS | 1 error: Refused NotARun
extract f 73 102: UNITS | 1 error: Refused NotARun";

#[test]
fn parts_of_statements_and_tails_are_refused(rt: HostRuntime) {
    all_hold(&rt, rt.alloc(), UNITS_REFUSED, LINES, replies_to);
}

const NAMES_REFUSED: &str = "\
extract area 176 184: AREA | 1 error: Refused NameTaken
extract base 176 184: AREA | 1 error: Refused NameTaken
extract a 176 184: AREA | 1 error: Refused NameTaken
extract main 176 184: AREA | 1 error: Refused NameTaken
extract println 176 184: AREA | 1 error: Refused NameTaken
extract rt 176 184: AREA | 1 error: Refused NameTaken
extract out_x 176 184: AREA | 1 error: Refused NameTaken
extract Break_1 176 184: AREA | 1 error: Refused NameTaken
extract Continue_0 176 184: AREA | 1 error: Refused NameTaken
extract Exit_a 176 184: AREA | 1 error: Refused NameTaken
extract Next 176 184: AREA | 1 error: Refused NameTaken";

#[test]
fn names_of_the_file_and_made_names_are_taken(rt: HostRuntime) {
    all_hold(&rt, rt.alloc(), NAMES_REFUSED, LINES, replies_to);
}

const FAULTS: &str =
    r#"extract f 0 0: fn main() { let a = 1i64; f(a); } | 3 error: NotAccepted Unknown 26 27
extract f 0 0: fn f(a: i64) {} fn main() { f(b); } | 3 error: NotAccepted Unknown 30 31
extract f 0 0: fn f() -> i64 { let x = 1i64; y } fn main() {} | 3 error: NotAccepted Unknown 30 31
extract f 0 0: fn main() { let a = a; } | 3 error: NotAccepted Unknown 20 21
extract f 0 0: fn f() {} fn f() {} fn main() {} | 3 error: NotAccepted Twice 3 4 13 14
extract f 0 0: fn f(a: i64, b: i64, a: i64) {} fn main() {} | 3 error: NotAccepted Twice 5 6 21 22
extract f 0 0:  | 3 error: NotAccepted Mismatch 0 0 Main
extract f 0 0:  fn f() {} fn g() {}  | 3 error: NotAccepted Mismatch 1 20 Main
extract f 0 0: fn main(a: i64) {} | 3 error: NotAccepted Mismatch 3 7 Main
extract f 0 0: fn f() {} fn main() -> i64 { 1i64 } | 3 error: NotAccepted Mismatch 13 17 Main
extract f 0 0: fn f(a: i64) {} fn main() { f(); } | 3 error: NotAccepted Mismatch 28 31 Count
extract f 0 0: fn f() {} fn main() { let a = 1i64; f(a, a); } | 3 error: NotAccepted Mismatch 36 43 Count
extract f 0 0: fn u() {} fn f(a: i64) {} fn main() { let x = u(); f(x); } | 3 error: NotAccepted Mismatch 53 54 Equal
extract f 0 0: fn f() { 1i64 } fn main() {} | 3 error: NotAccepted Mismatch 9 13 Equal
extract f 0 0: fn f() -> i64 { let a = 1i64; } fn main() {} | 3 error: NotAccepted Mismatch 14 31 Equal
extract f 0 0: fn u() {} fn f() -> i64 { let x = u(); x } fn main() {} | 3 error: NotAccepted Mismatch 39 40 Equal
extract f 0 0: fn u() {} fn main() { let x = u(); let y = x + 1i64; } | 3 error: NotAccepted Mismatch 43 51 KindOf
extract f 0 0: fn u() {} fn main() { let x = u(); let y = (1i64) * x; } | 3 error: NotAccepted Mismatch 43 53 KindOf
extract f 0 0: fn u() {} fn main() { let x = u(); println!("{}", x); } | 3 error: NotAccepted Mismatch 50 51 KindOf
extract f 0 0: fn f() {} fn main() { let f = 1i64; f(); } | 3 error: NotAccepted Mismatch 36 39 NotFunction
extract f 0 0: fn f() -> i64 { 9223372036854775808i64 } fn main() {} | 3 error: NotAccepted Literal 16 38
extract f 0 0: fn main() { let x = 9223372036854775808i64; y(); } | 3 error: NotAccepted Unknown 44 45
extract f 0 0: fn f() { 9223372036854775808i64 } fn g() {} | 3 error: NotAccepted Mismatch 0 43 Main
extract f 0 0: fn u() {} fn main() { let x = 1i64; let x = u(); println!("{}", x); } | 3 error: NotAccepted Mismatch 64 65 KindOf
extract f 0 0: fn main() { if true {} } | 1 error: Refused NotARun
extract f 0 0: mod rt; fn main() {} | 1 error: Refused NotARun
extract f 0 0: fn f() {} fn f() {} struct S { a: i64 } fn main() { y(); } | 3 error: NotAccepted Twice 3 4 13 14"#;

#[test]
fn the_first_fault_is_named_with_its_place(rt: HostRuntime) {
    all_hold(&rt, rt.alloc(), FAULTS, LINES, replies_to);
}

/// A function that calls itself until it divides by 0.
const DOWN: &str = r#"fn down(n: i64) -> i64 {
    println!("{}", n);
    let m = n - 1i64;
    let q = 6i64 / m;
    let r = down(m);
    q + r
}

fn main() {
    let k = 2i64;
    let x = down(k);
    println!("{}", x);
}
"#;

/// The same after `extract part 74 91`.
const DOWN_PART: &str = r#"fn down(n: i64) -> i64 {
    println!("{}", n);
    let m = n - 1i64;
    let q = part(m);
    let r = down(m);
    q + r
}

fn part(m: i64) -> i64 {
    let q = 6i64 / m;
    q
}

fn main() {
    let k = 2i64;
    let x = down(k);
    println!("{}", x);
}"#;

/// The same after `extract rest 95 111`.
const DOWN_REST: &str = r#"fn down(n: i64) -> i64 {
    println!("{}", n);
    let m = n - 1i64;
    let q = part(m);
    let r = rest(m);
    q + r
}

fn rest(m: i64) -> i64 {
    let r = down(m);
    r
}

fn part(m: i64) -> i64 {
    let q = 6i64 / m;
    q
}

fn main() {
    let k = 2i64;
    let x = down(k);
    println!("{}", x);
}"#;

fn writes_rest(alloc: Global) -> Outcome {
    let part = joined(alloc, DOWN_PART, "\n")?;
    writes(alloc, "extract rest 95 111", part.as_bytes(), 0, DOWN_REST)
}

#[test]
fn an_answer_is_extracted_from_again(rt: HostRuntime) {
    let part = writes(
        rt.alloc(),
        "extract part 74 91",
        DOWN.as_bytes(),
        0,
        DOWN_PART,
    );
    hold(&rt, part, "part");
    hold(&rt, writes_rest(rt.alloc()), "rest");
}

const SIXTY_FIVE: &str = "\
v0 v1 v2 v3 v4 v5 v6 v7 v8 v9 v10 v11 v12 v13 v14 v15 v16 v17 v18 v19 v20 v21 v22 v23 v24 v25 v26 v27 v28 v29
v30 v31 v32 v33 v34 v35 v36 v37 v38 v39 v40 v41 v42 v43 v44 v45 v46 v47 v48 v49 v50 v51 v52 v53 v54 v55 v56
v57 v58 v59 v60 v61 v62 v63 v64";

fn push_each(text: &mut String, names: &str, front: &str, back: &str) -> Result<(), AllocError> {
    for name in names.split_ascii_whitespace() {
        text.push_str(front)?;
        text.push_str(name)?;
        text.push_str(back)?;
    }
    Ok(())
}

/// `main` with these variables, and their sum behind them.
fn push_sum(text: &mut String, names: &str) -> Result<(), AllocError> {
    let (first, others) = names.split_once(" ").unwrap_or((names, ""));
    text.push_str("fn main() {\n")?;
    push_each(text, names, "    let ", " = 1i64;\n")?;
    text.push_str("    let t = ")?;
    text.push_str(first)?;
    push_each(text, others, " + ", "")?;
    text.push_str(";\n}\n")
}

/// Empty where no memory was found.
fn sum_of(alloc: Global, names: &str) -> String {
    let mut text = String::new(alloc);
    match push_sum(&mut text, names) {
        Ok(()) => text,
        Err(_) => String::new(alloc),
    }
}

/// The sum of 65 variables stands from 1306 to 1692, that of 64 from 1286 to 1666.
#[test]
fn a_function_has_64_parameters(rt: HostRuntime) {
    let text = sum_of(rt.alloc(), SIXTY_FIVE);
    let want = "1 error: Refused Limit Parameters 65";
    hold(
        &rt,
        replies(rt.alloc(), "extract sum 1306 1692", text.as_bytes(), want),
        want,
    );
    let text = sum_of(rt.alloc(), SIXTY_FIVE.strip_suffix(" v64").unwrap_or(""));
    hold(
        &rt,
        is_done(rt.alloc(), "extract sum 1286 1666", text.as_bytes()),
        "64",
    );
}

/// A statement in `main`, and a function whose name has so many bytes.
fn long_name(alloc: Global, count: usize) -> Result<String, AllocError> {
    let mut text = String::from_str(alloc, "fn f(){}fn main(){let a=1i64;}fn ")?;
    for _ in 0..count {
        text.push_str("j")?;
    }
    text.push_str("(){}")?;
    Ok(text)
}

fn reply_to_name(alloc: Global, count: usize, want: &str) -> Outcome {
    let text = long_name(alloc, count)?;
    replies(alloc, "extract one 18 29", text.as_bytes(), want)
}

/// The text has 37 bytes beside the name, and the answer 62.
#[test]
fn an_answer_has_1048576_bytes(rt: HostRuntime) {
    let want = "1 error: Refused Limit Bytes 1048577";
    hold(&rt, reply_to_name(rt.alloc(), 1_048_515, want), "a name");
}
