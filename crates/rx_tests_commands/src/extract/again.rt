//! Answers that are given to the tool again, three times over: each is accepted, and does what the first text does.

use crate::run::said::{hold, replied, replied_to};
use rx_tests_tables::{BLOCKS, Outcome, first_wrong};
use std::alloc::Global;

/// Rows of a line to run, three runs (their bytes, or how they begin and end with ` .. ` between), and a text. The first run is the first
/// one of these bytes in the text, the second in its answer, the third in the answer to that.
const CHAINS: &str = r#"run 100
let c = a * b;
let c = a * b;
let c = a * b;
====
fn main() { let a = 2i64; let b = 3i64; let c = a * b; println!("{}", c); }
----
run 100
let s = p.x * p.x + p.y;
let s = (*p).x * (*p).x + (*p).y;
let s = (*p).x * (*p).x + (*p).y;
====
struct P { x: i64, y: i64 } fn main() { let p = P { x: 3, y: 4 }; let s = p.x * p.x + p.y; println!("{}", s); println!("{}", p.x); }
----
run 100
x += 2;
*x += 2;
*x += 2;
====
fn main() { let mut x = 1i64; x += 2; println!("{}", x); }
----
run 100
println!("{}", x);
println!("{}", x);
println!("{}", x);
====
fn main() { let x = 1i64; println!("{}", x); }
----
run 100
if i > 3 { .. }
if i > 3 { .. }
if i > 3 { .. }
====
fn main() { let mut i = 0i64; loop { i += 1; if i > 3 { break; } println!("{}", i); } }
----
run 100
if i == 2 { .. }
if i == 2 { .. }
if i == 2 { .. }
====
fn main() { let mut i = 0i64; while i < 5 { i += 1; if i == 2 { continue; } println!("{}", i); } }
----
run 100
if n > 2 { .. }
if n > 2 { .. }
if n > 2 { .. }
====
fn f(n: i64) -> i64 { if n > 2 { return 7; } n + 1 } fn main() { println!("{}", f(1)); println!("{}", f(3)); }
----
run 100
let b = a + 1; .. let c = b * 2;
let b = a + 1; .. let c = b * 2;
let b = a + 1; .. let c = b * 2;
====
fn main() { let a = 1i64; let b = a + 1; let c = b * 2; println!("{}", b + c); }
----
run 100
let n = take(s);
let n = take(s);
let n = take(s);
====
struct S { a: i64 } fn take(s: S) -> i64 { s.a } fn main() { let s = S { a: 4 }; let n = take(s); println!("{}", n); }
----
run 100
let b = a + 1; .. b * 2
let b = a + 1; .. b * 2
let b = a + 1; .. b * 2
====
fn f(a: i64) -> i64 { let b = a + 1; b * 2 } fn main() { println!("{}", f(3)); }
----
run 100
println!("{}", k);
println!("{}", k);
println!("{}", k);
====
enum E { One(i64), Two } fn main() { let e = E::One(3); match e { E::One(k) => { println!("{}", k); } E::Two => {} } }
----
run 100 5
let a = rt::next();
let a = rt::next();
let a = rt::next();
====
mod rt; fn main() { let a = rt::next(); println!("{}", a); }
----
run 100
i += 1; .. s += i;
*i += 1; .. *s += *i;
*i += 1; .. *s += *i;
====
fn main() { let mut i = 0i64; let mut s = 0i64; while i < 4 { i += 1; s += i; } println!("{}", s); }
----
run 100
println!("{}", *r);
println!("{}", *r);
println!("{}", *r);
====
fn main() { let a = 1i64; let r = &a; println!("{}", *r); }
----
run 100
let k = s.p;
let k = (*s).p;
let k = (*s).p;
====
struct S<'a> { p: &'a i64 } fn main() { let a = 1i64; let s = S { p: &a }; let k = s.p; println!("{}", *k); println!("{}", *s.p); }
----
run 100
c = a * 3;
c = a * 3;
c = a * 3;
====
fn main() { let a = 2i64; let c; c = a * 3; println!("{}", c); }
----
run 100
let (a, b) = p;
let (a, b) = p;
let (a, b) = p;
====
fn main() { let p = (1i64, true); let (a, b) = p; println!("{}", a); println!("{}", b); }
----
run 100
*r = *r + k;
*r = *r + k;
*r = *r + k;
====
fn f(r: &mut i64, k: i64) { *r = *r + k; println!("{}", *r); } fn main() { let mut a = 1i64; f(&mut a, 2); println!("{}", a); }
----
run 100
while *n > 0 { .. }
while *n > 0 { .. }
while *n > 0 { .. }
====
fn count(n: &mut i64) { while *n > 0 { *n -= 1; } println!("{}", *n); } fn main() { let mut a = 3i64; count(&mut a); }
----
run 100
let q = &mut *r; .. *q = 5;
let q = &mut *r; .. *q = 5;
let q = &mut *r; .. *q = 5;
====
fn f(r: &mut i64) { let q = &mut *r; *q = 5; println!("{}", *r); } fn main() { let mut a = 3i64; f(&mut a); println!("{}", a); }
----
run 100
let m = if x > y { .. };
let m = if x > y { .. };
let m = if x > y { .. };
====
fn max(x: i64, y: i64) -> i64 { let m = if x > y { x } else { y }; m } fn main() { println!("{}", max(3, 4)); }
----
run 100
let t = s; .. println!("{}", t.a);
let t = s; .. println!("{}", t.a);
let t = s; .. println!("{}", t.a);
====
struct S { a: i64 } fn main() { let s = S { a: 1 }; let t = s; println!("{}", t.a); }
----
run 100
s.a = 3; .. s.b = s.a;
(*s).a = 3; .. (*s).b = (*s).a;
(*s).a = 3; .. (*s).b = (*s).a;
====
struct S { a: i64, b: i64 } fn main() { let mut s = S { a: 1, b: 2 }; s.a = 3; s.b = s.a; println!("{}", s.a + s.b); }
----
run 100
let n = area(&s);
let n = area(&*s);
let n = area(&*s);
====
enum Shape { Square(i64), Empty } fn area(s: &Shape) -> i64 { match s { Shape::Square(side) => { *side * *side } Shape::Empty => { 0 } } } fn main() { let s = Shape::Square(4); let n = area(&s); println!("{}", n); println!("{}", area(&s)); }
----
run 100
f(n - 1); .. println!("{}", n);
f(n - 1); .. println!("{}", n);
f(n - 1); .. println!("{}", n);
====
fn f(n: i64) { if n > 0 { f(n - 1); println!("{}", n); } } fn main() { f(3); }
----
run 100
let w = 7 / d;
let w = 7 / d;
let w = 7 / d;
====
fn main() { let d = 0i64; println!("{}", d); let w = 7 / d; println!("{}", w); }
----
run 100
k += 1;
*k += 1;
*k += 1;
====
fn main() { let mut k = 0i64; while k < 3 { k += 1; println!("{}", k); } loop { k += 1; if k > 6 { break; } } println!("{}", k); }
----
run 100
return n * 2;
return Exit_moved0::Return(n * 2);
return Exit_moved1::Return(Exit_moved0::Return(n * 2));
====
fn f(n: i64) -> i64 { if n > 2 { return n * 2; } n } fn main() { println!("{}", f(2)); println!("{}", f(3)); }
----
run 100
if i > 2 { break 'outer; } .. if i > 1 { break; }
if i > 2 { .. }
if i > 2 { .. }
====
fn main() { let mut i = 0i64; 'outer: loop { loop { i += 1; if i > 2 { break 'outer; } if i > 1 { break; } } println!("{}", i); } }
----
run 100 3 4
let a = rt::next(); .. let b = rt::next();
let a = rt::next(); .. let b = rt::next();
let a = rt::next(); .. let b = rt::next();
====
mod rt; fn main() { let a = rt::next(); let b = rt::next(); println!("{}", a - b); println!("{}", a + b); }"#;

/// The bytes of a text from the first of one piece up to the end of another behind it, or of the first alone.
fn range_of(text: &str, pick: &str) -> Option<(usize, usize)> {
    let (from, to) = pick.split_once(" .. ").unwrap_or((pick, ""));
    let (front, behind) = text.split_once(from)?;
    let (between, _) = behind.split_once(to)?;
    Some((
        front.len(),
        front.len() + from.len() + between.len() + to.len(),
    ))
}

/// Whether each run becomes a function in turn, of answers that are accepted and do what the text does.
fn are_chained(alloc: Global, line: &str, rest: &str) -> Outcome {
    let (picks, text) = rest.split_once("\n====\n").unwrap_or((rest, ""));
    let done = replied(alloc, line, text, 4000, 100)?;
    let mut now = String::from_str(alloc, text)?;
    let mut number = 0usize;
    for pick in picks.split("\n") {
        let Some((start, end)) = range_of(now.as_str(), pick) else {
            return Ok(false);
        };
        let words = format!(in alloc; "extract moved{number} {start} {end}")?;
        let made = replied(alloc, words.as_str(), now.as_str(), 4000, 100)?;
        let again = replied_to(alloc, line, made.printed(), 4000, 100)?;
        if !made.ends(0) || !again.is_as(&done) {
            return Ok(false);
        }
        now = String::from_str(alloc, str::from_utf8(made.printed()).unwrap_or(""))?;
        number = number.wrapping_add(1);
    }
    Ok(number == 3)
}

#[test]
fn answers_are_extracted_from_three_times_over(rt: HostRuntime) {
    match first_wrong(rt.alloc(), CHAINS, BLOCKS, are_chained) {
        Some(row) => hold(&rt, Ok(false), row),
        None => {}
    }
}
