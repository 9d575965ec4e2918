//! Functions over integers: runs with tails, with units, with several variables handed out; the words `copy` and `ref`; and runs in the
//! initialiser of a `let` that never goes on. Where an answer is not found to be the extraction it is refused.

use crate::extract::said::all_made;

const OTHERS: &str = r#"extract f 41 51
fn show() {} fn main() { let u = show(); let v = u; }
====
0
fn show() {} fn main() { let u = show(); f(u); }

fn f(u: ()) {
    let v = u;
}
----
extract f 45 61
fn show(x: i64) {} fn main() { let a = 2i64; let u = show(a); let v = u; }
====
0
fn show(x: i64) {} fn main() { let a = 2i64; let u = f(a); let v = u; }

fn f(a: i64) -> () {
    let u = show(a);
    u
}
----
extract two 26 58
fn main() { let a = 2i64; let b = a + 1i64; let c = a * b; println!("{}", b); println!("{}", c); }
====
0
fn main() { let a = 2i64; let (b, c) = two(a); println!("{}", b); println!("{}", c); }

fn two(a: i64) -> (i64, i64) {
    let b = a + 1i64; let c = a * b;
    (b, c)
}
----
extract f 36 48
fn last(x: i64) -> i64 { let y = x; (y + (1i64)) } fn main() {}
====
0
fn last(x: i64) -> i64 { let y = x; f(y) }

fn f(y: i64) -> i64 {
    (y + (1i64))
} fn main() {}
----
extract f 25 48
fn last(x: i64) -> i64 { let y = x; (y + (1i64)) } fn main() {}
====
0
fn last(x: i64) -> i64 { f(x) }

fn f(x: i64) -> i64 {
    let y = x; (y + (1i64))
} fn main() {}
----
extract times 40 54 copy
fn main() { let a = 2i64; let b = 3i64; let c = a * b; println!("{}", c); }
====
0
fn main() { let a = 2i64; let b = 3i64; let c = times(a, b); println!("{}", c); }

fn times(a: i64, b: i64) -> i64 {
    let c = a * b;
    c
}
----
extract times 40 54 ref
fn main() { let a = 2i64; let b = 3i64; let c = a * b; println!("{}", c); }
====
0
fn main() { let a = 2i64; let b = 3i64; let c = times(&a, &b); println!("{}", c); }

fn times<'r0, 'r1>(a: &'r0 i64, b: &'r1 i64) -> i64 {
    let c = *a * *b;
    c
}
----
extract f 26 47
fn main() { let a = 2i64; let c = { a + 1i64 }; println!("{}", c); }
====
0
fn main() { let a = 2i64; let c = f(a); println!("{}", c); }

fn f(a: i64) -> i64 {
    let c = { a + 1i64 };
    c
}
----
extract g 34 43
fn f(x: i64) -> i64 { if x == 0 { return 1; } x } fn main() { println!("{}", f(3)); }
====
0
fn f(x: i64) -> i64 { if x == 0 { match g() {
    Exit_g::Return(out_0) => return out_0,
}; } x }

enum Exit_g {
    Return(i64),
}

fn g() -> Exit_g {
    return Exit_g::Return(1);
} fn main() { println!("{}", f(3)); }
----
extract took 29 35
fn main() { let c; let x = { c = 3; return; }; x = 5; }
====
0
fn main() { let c: i32; let x = { took(); return; }; x = 5; }

fn took() {
    let c: i32;
    c = 3;
}
----
extract took 48 54
fn show(x: u64) {} fn main() { let c; let x = { c = 3; return; }; x = c; show(c); }
====
0
fn show(x: u64) {} fn main() { let c: u64; let x = { took(); return; }; x = c; show(c); }

fn took() {
    let c: u64;
    c = 3u64;
}
----
extract g 28 48
fn f(u: ()) { let a = 1i64; println!("{}", a); u } fn main() { f(()); }
====
0
fn f(u: ()) { let a = 1i64; g(a, u); }

fn g(a: i64, u: ()) {
    println!("{}", a); u
} fn main() { f(()); }
----
extract g 33 60
fn id(u: ()) { u } fn f(u: ()) { println!("{}", 1i64); id(u) } fn main() { f(()); }
====
0
fn id(u: ()) { u } fn f(u: ()) { g(u); }

fn g(u: ()) {
    println!("{}", 1i64); id(u)
} fn main() { f(()); }
----
extract g 23 34
fn f(u: ()) { let n; { n = 1i64; u } println!("{}", n); } fn main() { f(()); }
====
1
error: Refused Unconfirmed
----
extract g 29 59
fn walk(n: i64) { if n > 0 { println!("{}", n); walk(n - 1) } } fn main() { walk(3); }
====
0
fn walk(n: i64) { if n > 0 { g(n); } }

fn g(n: i64) {
    println!("{}", n); walk(n - 1)
} fn main() { walk(3); }"#;

#[test]
fn what_is_left_is_made(rt: HostRuntime) {
    all_made(&rt, rt.alloc(), OTHERS);
}
