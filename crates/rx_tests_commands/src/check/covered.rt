//! Matches that are covered, and those that are not, with the value that they miss.

use crate::check::said::all_said;

const COVERED: &str = "\
fn main() { match true { true => {} false => {} } } | accepted
fn main() { let true = false; } | Missing 12 29 false
fn main() { let (a, b) = (1, 2); } | accepted
fn main() { let (1, b) = (1, 2); } | Missing 12 32 (0, 0)
fn main() { let (1, b) = (1u8, 2); } | Missing 12 34 (0, 0)
fn f(x: i64) { match x { 1 => {} 2 => {} } } fn main() {} | Missing 15 42 0
fn f(x: i64) { match x { -1 => {} 0 => {} } } fn main() {} | Missing 15 43 1
fn f(x: i64) { match x { 0 => {} 1 => {} _ => {} } } fn main() {} | accepted
fn f(x: u8) { match x { _ => {} 1 => {} } } fn main() {} | accepted
fn f(x: u8) { match x { y => {} 1 => {} } } fn main() {} | accepted
fn f(x: u64) { match x { 18446744073709551615 => {} 0 => {} } } fn main() {} | Missing 15 61 1
fn f(x: i32) { match x { -2147483648 => {} 2147483647 => {} } } fn main() {} | Missing 15 61 0
fn f(x: i64) { match x { -9223372036854775808 => {} 0 => {} 1 => {} } } fn main() {} | Missing 15 69 2
fn f(x: u32) { match x { 0 => {} 4294967295 => {} } } fn main() {} | Missing 15 51 1
fn f(x: ()) { match x { () => {} } } fn main() {} | accepted
fn f(x: ((), bool)) { match x { (a, true) => {} (b, false) => {} } } fn main() {} | accepted
fn f(x: ((), bool)) { match x { (a, true) => {} } } fn main() {} | Missing 22 49 ((), false)
fn f(x: (bool,)) { match x { (true,) => {} } } fn main() {} | Missing 19 44 (false,)
fn f(x: (bool, bool)) { match x { (true, _) => {} (_, true) => {} (false, false) => {} } } fn main() {} | accepted
fn f(x: (bool, bool)) { match x { (true, _) => {} (_, true) => {} } } fn main() {} | Missing 24 67 (false, false)
fn f(x: &(bool, &bool)) { match x { (true, true) => {} (false, _) => {} } } fn main() {} | Missing 26 73 &(true, &false)
fn f(x: &&bool) { match x { true => {} } } fn main() {} | Missing 18 40 &&false
fn f(x: (bool, u8)) { match x { (true, 255) => {} (false, _) => {} (true, 0) => {} } } fn main() {} | Missing 22 84 (true, 1)
enum E { A } fn f(x: E) { match x { E::A => {} } } fn main() {} | accepted
enum E { A } fn f(x: E) { let E::A = x; } fn main() {} | accepted
enum E { A, B } fn f(x: E) { let E::A = x; } fn main() {} | Missing 29 42 E::B
enum E { A, B(i64), C(bool, bool) } fn f(x: E) { match x { E::A => {} E::B(y) => {} } } fn main() {} | Missing 49 85 E::C(false, false)
enum E { A, B(i64), C(bool, bool) } fn f(x: E) { match x { E::A => {} E::B(y) => {} E::C(true, _) => {} E::C(_, true) => {} } } fn main() {} | Missing 49 125 E::C(false, false)
enum E { A, B(i64), C(bool, bool) } fn f(x: &E) { match x { E::A => {} E::B(1) => {} E::C(a, b) => {} } } fn main() {} | Missing 50 103 &E::B(0)
enum E { A, B(i64), C(bool, bool) } fn f(x: &mut E) { match x { E::A => {} E::B(a) => {} E::C(b, c) => {} } } fn main() {} | accepted
enum E<'a> { R(&'a bool) } fn f(x: E) { match x { E::R(true) => {} } } fn main() {} | Missing 40 68 E::R(&false)
enum O { S(P), N } enum P { A(bool), B } fn f(x: O) { match x { O::N => {} O::S(P::A(true)) => {} O::S(P::B) => {} } } fn main() {} | Missing 54 116 O::S(P::A(false))
struct S { a: bool, b: bool } fn f(x: S) { match x { S { a: true, b: y } => {} S { b: false, a: y } => {} } } fn main() {} | Missing 43 107 S { a: false, b: true }
struct S { a: bool, b: bool } fn f(x: S) { let S { a: y, b: z } = x; } fn main() {} | accepted
struct S { a: bool } struct T { s: S, n: u8 } fn f(x: T) { match x { T { s: S { a: true }, n: m } => {} T { n: 7, s: y } => {} } } fn main() {} | Missing 59 128 T { s: S { a: false }, n: 0 }
struct N {} enum E { A(N), B } fn f(x: E) { match x { E::B => {} } } fn main() {} | Missing 44 66 E::A(N {})
fn f(x: bool) { if let true = x { } while let true = x { } if x { } while x { } } fn main() {} | accepted
fn f() -> i64 { let true: bool = return 1; 2 } fn main() {} | accepted
fn f(x: bool) -> i64 { match x { true => { match x { true => 1 } } false => 2 } } fn main() {} | Missing 43 64 false
fn f(x: u8) { match x { 0 => {} 0 => {} 2 => {} } } fn main() {} | Missing 14 49 1";

#[test]
fn matches_are_covered_or_miss_a_value(rt: HostRuntime) {
    all_said(&rt, rt.alloc(), COVERED);
}
