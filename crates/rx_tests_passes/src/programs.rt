//! What programs print, and how they end.

use crate::holding::all_hold;
use rx_check::{Checked, check};
use rx_core::LetGo;
use rx_machine::run;
use rx_meaning::{End, Trap};
use rx_parse::{parse, parsed_programs_are_numbered};
use rx_tests_tables::{LINES, Outcome};
use std::alloc::{AllocError, Global};

fn end_name(end: End) -> &'static str {
    match end {
        End::Ended => "Ended",
        End::Trapped(Trap::Overflow) => "Overflow",
        End::Trapped(Trap::DivideByZero) => "DivideByZero",
        End::Running => "Running",
        End::Wrong => "Wrong",
    }
}

/// What is printed, with a blank in place of each line feed, and the end.
fn ran(alloc: Global, program: &Checked, input: &[i64], turns: u64) -> Result<String, AllocError> {
    let outcome = run(alloc, program, input, turns)?;
    let mut told = String::new(alloc);
    for line in outcome.printed.as_str().split("\n") {
        if !line.is_empty() {
            told.push_str(line)?;
            told.push_str(" ")?;
        }
    }
    told.push_str(end_name(outcome.end))?;
    Ok(told)
}

/// What a text does.
fn told(alloc: Global, text: &str, input: &[i64], turns: u64) -> Result<String, AllocError> {
    if text.len() > 1_048_576 {
        return String::from_str(alloc, "TooLong");
    }
    match parse(alloc, text.as_bytes()) {
        Ok(program) => {
            parsed_programs_are_numbered();
            let outcome = match check(alloc, &program) {
                Ok(checked) => ran(alloc, &checked, input, turns),
                Err(_) => String::from_str(alloc, "refused"),
            };
            program.let_go();
            outcome
        }
        Err(_) => String::from_str(alloc, "syntax"),
    }
}

/// Of a row `TURNS NUMBER.. ; TEXT`, whether the text does what is wanted.
fn does(alloc: Global, given: &str, want: &str) -> Outcome {
    match given.split_once(" ; ") {
        Some((words, text)) => {
            let mut turns = 0;
            let mut input = Vec::new(alloc);
            for (i, word) in words.split(" ").enumerate() {
                if i == 0 {
                    turns = word.parse::<u64>().unwrap_or(0);
                } else {
                    input.push(word.parse::<i64>().unwrap_or(0))?;
                }
            }
            Ok(told(alloc, text, input.as_slice(), turns)?.as_str() == want)
        }
        None => Ok(false),
    }
}

/// What each text prints, and its end, with so many turns on an input.
const RUNS: &str = "\
1 ; fn main() { let a = 255u8; println!(\"{}\", a); let b = a + 1; println!(\"{}\", b); } | 255 Overflow
1 ; fn main() { let a = 0u8; println!(\"{}\", a); let b = a - 1; println!(\"{}\", b); } | 0 Overflow
1 ; fn main() { let a = 7u8; println!(\"{}\", a / 2); println!(\"{}\", a % 2); } | 3 1 Ended
1 ; fn main() { let a = 255u8; println!(\"{}\", 1); let b = a * 2; println!(\"{}\", b); } | 1 Overflow
1 ; fn main() { let a = 4294967295u32; println!(\"{}\", a); let b = a + 1; println!(\"{}\", b); } | 4294967295 Overflow
1 ; fn main() { let a = 0u32; println!(\"{}\", a); let b = a - 1; println!(\"{}\", b); } | 0 Overflow
1 ; fn main() { let a = 7u32; println!(\"{}\", a / 2); println!(\"{}\", a % 2); } | 3 1 Ended
1 ; fn main() { let a = 4294967295u32; println!(\"{}\", 1); let b = a * 2; println!(\"{}\", b); } | 1 Overflow
1 ; fn main() { let a = 18446744073709551615u64; println!(\"{}\", a); let b = a + 1; println!(\"{}\", b); } | 18446744073709551615 Overflow
1 ; fn main() { let a = 0u64; println!(\"{}\", a); let b = a - 1; println!(\"{}\", b); } | 0 Overflow
1 ; fn main() { let a = 7u64; println!(\"{}\", a / 2); println!(\"{}\", a % 2); } | 3 1 Ended
1 ; fn main() { let a = 18446744073709551615u64; println!(\"{}\", 1); let b = a * 2; println!(\"{}\", b); } | 1 Overflow
1 ; fn main() { let a = 2147483647i32; println!(\"{}\", a); let b = a + 1; println!(\"{}\", b); } | 2147483647 Overflow
1 ; fn main() { let a = -2147483648i32; println!(\"{}\", a); let b = a - 1; println!(\"{}\", b); } | -2147483648 Overflow
1 ; fn main() { let a = -2147483648i32; println!(\"{}\", 1); let b = a / -1; println!(\"{}\", b); } | 1 Overflow
1 ; fn main() { let a = -2147483648i32; println!(\"{}\", 1); let b = a % -1; println!(\"{}\", b); } | 1 Overflow
1 ; fn main() { let a = -2147483648i32; println!(\"{}\", 1); let b = -a; println!(\"{}\", b); } | 1 Overflow
1 ; fn main() { let a = -7i32; println!(\"{}\", a / 2); println!(\"{}\", a % 2); println!(\"{}\", -a); } | -3 -1 7 Ended
1 ; fn main() { let a = 2147483647i32; println!(\"{}\", 1); let b = a * 2; println!(\"{}\", b); } | 1 Overflow
1 ; fn main() { let a = 9223372036854775807i64; println!(\"{}\", a); let b = a + 1; println!(\"{}\", b); } | 9223372036854775807 Overflow
1 ; fn main() { let a = -9223372036854775808i64; println!(\"{}\", a); let b = a - 1; println!(\"{}\", b); } | -9223372036854775808 Overflow
1 ; fn main() { let a = -9223372036854775808i64; println!(\"{}\", 1); let b = a / -1; println!(\"{}\", b); } | 1 Overflow
1 ; fn main() { let a = -9223372036854775808i64; println!(\"{}\", 1); let b = a % -1; println!(\"{}\", b); } | 1 Overflow
1 ; fn main() { let a = -9223372036854775808i64; println!(\"{}\", 1); let b = -a; println!(\"{}\", b); } | 1 Overflow
1 ; fn main() { let a = -7i64; println!(\"{}\", a / 2); println!(\"{}\", a % 2); println!(\"{}\", -a); } | -3 -1 7 Ended
1 ; fn main() { let a = 9223372036854775807i64; println!(\"{}\", 1); let b = a * 2; println!(\"{}\", b); } | 1 Overflow
1 ; fn main() { println!(\"{}\", 1 / 0); } | DivideByZero
1 ; fn main() { println!(\"{}\", 1 % 0); } | DivideByZero
1 ; fn main() { println!(\"{}\", 2 < 3); println!(\"{}\", 3 <= 3); println!(\"{}\", 2 > 3); println!(\"{}\", 3 >= 4); println!(\"{}\", 2 == 2); println!(\"{}\", 2 != 2); } | true true false false true false Ended
1 ; fn main() { println!(\"{}\", true == false); println!(\"{}\", true != false); println!(\"{}\", !true); } | false true false Ended
1 ; fn main() { println!(\"{}\", false && 1 / 0 == 1); println!(\"{}\", true || 1 / 0 == 1); } | false true Ended
1 ; fn main() { println!(\"{}\", true && 1 / 0 == 1); } | DivideByZero
9 ; fn p(n: i64) -> i64 { println!(\"{}\", n); n } fn main() { let a = p(1) + p(2) * p(3); println!(\"{}\", a); } | 1 2 3 7 Ended
9 ; fn p(n: i64) -> i64 { println!(\"{}\", n); n } fn main() { let a = p(1) / (p(2) - 2); } | 1 2 DivideByZero
9 ; fn p(n: i64) -> i64 { println!(\"{}\", n); n } fn g(a: i64, b: i64, c: i64) -> i64 { a - b - c } fn main() { println!(\"{}\", g(p(5), p(6), p(7))); } | 5 6 7 -8 Ended
9 ; fn p(n: i64) -> i64 { println!(\"{}\", n); n } struct S { a: i64, b: i64 } fn main() { let s = S { b: p(2), a: p(1) }; println!(\"{}\", s.a); println!(\"{}\", s.b); } | 2 1 1 2 Ended
9 ; fn p(n: i64) -> i64 { println!(\"{}\", n); n } fn main() { let t = (p(1), p(2)); println!(\"{}\", t.1); } | 1 2 2 Ended
9 ; fn p(n: i64) -> i64 { println!(\"{}\", n); n } fn main() { let mut x = 1i64; x += p(4); println!(\"{}\", x); x *= x; println!(\"{}\", x); x -= 1; x /= 2; x %= 5; println!(\"{}\", x); } | 4 5 25 2 Ended
9 ; fn main() { let mut x = 1u8; println!(\"{}\", x); x -= 2; println!(\"{}\", x); } | 1 Overflow
9 ; fn main() { let mut x = 1i64; let mut y = 2i64; let mut r = &mut x; *r = { r = &mut y; 5 }; println!(\"{}\", x); println!(\"{}\", y); } | 1 5 Ended
9 ; fn main() { let mut n = 0i64; loop { n = n + 1; let a = n + { if n == 3 { break; } 1 }; println!(\"{}\", a); } println!(\"{}\", n); } | 2 3 3 Ended
9 ; fn f(a: i64, b: i64) -> i64 { a + b } fn g() -> i64 { f(1, { return 2; }) } fn main() { println!(\"{}\", g()); } | 2 Ended
9 ; fn g() -> i64 { let a = 1 + { return 7; 2i64 }; a } fn main() { println!(\"{}\", g()); } | 7 Ended
20 ; fn main() { let mut i = 0i64; 'o: loop { loop { i = i + 1; if i == 2 { continue 'o; } if i == 4 { break 'o; } } } println!(\"{}\", i); } | 4 Ended
20 ; fn main() { let mut i = 0i64; while i < 3 { i = i + 1; let i = i * 10; println!(\"{}\", i); } } | 10 20 30 Ended
20 ; fn main() { let mut i = 0i64; while i < 5 { i = i + 1; if i % 2 == 0 { continue; } println!(\"{}\", i); } } | 1 3 5 Ended
4 ; fn main() { let mut i = 0i64; while i < 3 { i = i + 1; } println!(\"{}\", i); } | Running
5 ; fn main() { let mut i = 0i64; while i < 3 { i = i + 1; } println!(\"{}\", i); } | 3 Ended
0 ; fn main() { println!(\"{}\", 1); } | Running
1 ; fn main() { loop {} } | Running
50 ; fn main() { loop {} } | Running
9 ; enum E { A(i64), B(i64, bool), C } fn main() { let e = E::B(3, true); match e { E::A(x) => println!(\"{}\", x), E::B(x, true) => println!(\"{}\", x + 1), E::B(x, false) => println!(\"{}\", x), E::C => println!(\"{}\", 0) } } | 4 Ended
9 ; enum E { A(i64), B(i64, bool), C } fn main() { let mut e = E::A(1); match &mut e { E::A(x) => { *x = 9; } _ => {} } match e { E::A(x) => { println!(\"{}\", x); } _ => {} } } | 9 Ended
9 ; enum E { A(i64), B(i64, bool), C } fn main() { let mut e = E::A(1); match e { E::A(x) => { e = E::C; println!(\"{}\", x); } _ => {} } match e { E::C => { println!(\"{}\", 7); } _ => {} } } | 1 7 Ended
9 ; fn main() { let (a, (b, c)) = (1i64, (2i64, true)); println!(\"{}\", a); println!(\"{}\", b); println!(\"{}\", c); } | 1 2 true Ended
9 ; fn main() { let mut t = (1i64, (2i64, 3i64)); t.1 .0 = 8; let (a, (b, c)) = &t; println!(\"{}\", *a); println!(\"{}\", *b); println!(\"{}\", *c); } | 1 8 3 Ended
9 ; fn main() { let x = -3i64; match x { -3 => { println!(\"{}\", 1); } _ => { println!(\"{}\", 2); } } } | 1 Ended
9 ; struct P { x: i64, y: i64 } fn main() { let p = P { x: 3, y: 4 }; let P { y, x: z } = p; println!(\"{}\", z); println!(\"{}\", y); } | 3 4 Ended
9 ; fn swap(a: &mut i64, b: &mut i64) { let t = *a; *a = *b; *b = t; } fn main() { let mut x = 1i64; let mut y = 2i64; swap(&mut x, &mut y); println!(\"{}\", x); println!(\"{}\", y); } | 2 1 Ended
9 ; struct S { a: i64, b: i64 } fn first(s: &mut S) -> &mut i64 { &mut s.a } fn main() { let mut s = S { a: 1, b: 2 }; let q = first(&mut s); *q = 5; let r = first(&mut s); *r = *r + 1; println!(\"{}\", s.a); println!(\"{}\", s.b); } | 6 2 Ended
9 ; fn main() { let mut x = 1i64; let r = &mut x; let q = &mut *r; *q = 4; *r = *r + 1; println!(\"{}\", x); } | 5 Ended
9 ; struct I { v: i64 } struct O { i: I, n: i64 } fn set(o: &mut O) { o.i.v = 7; let r = &mut o.i; r.v = r.v + 1; } fn main() { let mut o = O { i: I { v: 1 }, n: 2 }; set(&mut o); println!(\"{}\", o.i.v); println!(\"{}\", o.n); } | 8 2 Ended
9 ; fn main() { let a = 3i64; let p = &a; let q = &p; println!(\"{}\", **q); } | 3 Ended
9 ; fn f(x: &i64) -> i64 { *x + 1 } fn main() { let mut a = 3i64; let r = &mut a; let b = f(r); *r = b; println!(\"{}\", a); } | 4 Ended
9 ; struct T { n: i64 } fn eat(t: T) -> i64 { t.n } fn main() { let t = T { n: 6 }; let u = t; println!(\"{}\", eat(u)); } | 6 Ended
9 ; fn main() { let x; let b = true; if b { x = 2i64; } else { x = 3; } println!(\"{}\", x); } | 2 Ended
9 ; fn main() { let mut s; s = { s = 1i64; println!(\"{}\", s); s = s + 1; s }; println!(\"{}\", s); } | 1 2 Ended
9 ; enum E { N(i64), B(i64) } fn g() -> E { let x = 5; if x > 3 { return E::B(x); } E::N(x) } fn main() { let x; loop { x = match g() { E::N(v) => v, E::B(v) => { x = v; break; } }; println!(\"{}\", 0); break; } println!(\"{}\", x); } | 5 Ended
9 ; fn main() { let x = if false { 1i64 } else { { let y = 4i64; y + 1 } }; println!(\"{}\", x); } | 5 Ended
9 100 6 ; mod rt; fn main() { let a = rt::next(); println!(\"{}\", a); let q = a / rt::next(); println!(\"{}\", q); } | 100 16 Ended
9 100 ; mod rt; fn main() { let a = rt::next(); println!(\"{}\", a); let q = a / rt::next(); println!(\"{}\", q); } | 100 DivideByZero
9 -5 7 ; mod rt; fn main() { println!(\"{}\", rt::next() - rt::next()); println!(\"{}\", rt::next()); } | -12 0 Ended
5 5 -2 7 0 ; mod rt; fn main() { let mut sum = 0i64; loop { let n = rt::next(); if n == 0 { break; } if n < 0 { continue; } sum = sum + n; } println!(\"{}\", sum); } | 12 Ended
4 5 -2 7 0 ; mod rt; fn main() { let mut sum = 0i64; loop { let n = rt::next(); if n == 0 { break; } if n < 0 { continue; } sum = sum + n; } println!(\"{}\", sum); } | Running
9 3 2 0 ; mod rt; enum E { A(i64), B(i64, bool), C } fn get() -> E { let n = rt::next(); if n == 0 { return E::C; } E::A(n) } fn main() { while let E::A(n) = get() { if n == 2 { continue; } println!(\"{}\", n); } println!(\"{}\", 0); } | 3 0 Ended
9 ; enum E { A(i64), B(i64, bool), C } fn main() { let e = E::A(5); if let E::A(n) = e { println!(\"{}\", n); } else { println!(\"{}\", 0); } } | 5 Ended
1000 ; fn down(n: i64) -> i64 { if n == 0 { return 0; } down(n - 1) } fn main() { println!(\"{}\", down(998)); } | 0 Ended
999 ; fn down(n: i64) -> i64 { if n == 0 { return 0; } down(n - 1) } fn main() { println!(\"{}\", down(998)); } | Running
30000 ; fn down(n: i64) -> i64 { if n == 0 { return 0; } down(n - 1) } fn main() { println!(\"{}\", down(20000)); } | 0 Ended
10000 ; fn fib(n: i64) -> i64 { if n < 2 { n } else { fib(n - 1) + fib(n - 2) } } fn main() { println!(\"{}\", fib(15)); } | 610 Ended";

#[test]
fn programs_run(rt: HostRuntime) {
    all_hold(&rt, rt.alloc(), RUNS, LINES, does);
}
