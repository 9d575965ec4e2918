//! Programs of numbers and truth values alone, through the command `run`: what is done at the borders of each kind, in which
//! order operands are evaluated, what leaves half an expression, and where turns are taken.

use crate::run::said::all_told;

/// Traps, after what is printed before them, and the last numbers that are none.
const BORDERS: &str = "\
run 9: fn main() { let a = 255u8; println!(\"{}\", a); let b = a + 1; println!(\"{}\", b); } | 101 255 / error: Trapped Overflow
run 9: fn main() { let a = 0u8; let b = a - 1; println!(\"{}\", b); } | 101 / error: Trapped Overflow
run 9: fn main() { let a = 4294967295u32; println!(\"{}\", a / 2 * 2 + 1); println!(\"{}\", a + 1); } | 101 4294967295 / error: Trapped Overflow
run 9: fn main() { let a = 2147483647i32; println!(\"{}\", a); println!(\"{}\", -a - 1); println!(\"{}\", -a - 2); } | 101 2147483647 -2147483648 / error: Trapped Overflow
run 9: fn main() { let a = -2147483648i32; println!(\"{}\", a / 2); println!(\"{}\", a / (0 - 1)); } | 101 -1073741824 / error: Trapped Overflow
run 9: fn main() { let a = -2147483648i32; println!(\"{}\", a % 3); println!(\"{}\", a % (0 - 1)); } | 101 -2 / error: Trapped Overflow
run 9: fn main() { let a = -9223372036854775808i64; println!(\"{}\", a % 10); println!(\"{}\", a / (0 - 1)); } | 101 -8 / error: Trapped Overflow
run 9: fn main() { let a = -9223372036854775808i64; println!(\"{}\", a + 9223372036854775807); println!(\"{}\", -a); } | 101 -1 / error: Trapped Overflow
run 9: fn main() { let a = 3037000500i64; println!(\"{}\", (a - 1) * (a - 1)); println!(\"{}\", a * a); } | 101 9223372030926249001 / error: Trapped Overflow
run 9: fn main() { let a = 18446744073709551615u64; println!(\"{}\", a); println!(\"{}\", a % 10); println!(\"{}\", a + 1); } | 101 18446744073709551615 5 / error: Trapped Overflow
run 9: fn main() { let a = 7i64; println!(\"{}\", -a / 2); println!(\"{}\", -a % 2); println!(\"{}\", a % -2); println!(\"{}\", a / (a - 7)); } | 101 -3 -1 1 / error: Trapped DivideByZero
run 9: fn main() { println!(\"{}\", 1i64 < 2); println!(\"{}\", 2i64 <= 1); println!(\"{}\", !(1i64 == 1)); println!(\"{}\", 3u8 != 4); } | 0 true false false true /";

#[test]
fn operators_end_at_the_borders_of_kinds(rt: HostRuntime) {
    all_told(&rt, rt.alloc(), BORDERS);
}

/// What comes first, and what a jump leaves.
const ORDER: &str = "\
run 9: fn say(n: i64) -> i64 { println!(\"{}\", n); n } fn main() { println!(\"{}\", say(1) - say(2) * say(3)); } | 0 1 2 3 -5 /
run 9: fn say(n: i64) -> i64 { println!(\"{}\", n); n } fn both(a: i64, b: i64) -> i64 { a - b } fn main() { println!(\"{}\", both(say(7), say(4))); } | 0 7 4 3 /
run 9: fn main() { let mut x = 1i64; let y = x + { x = 5; x }; println!(\"{}\", y); println!(\"{}\", x); } | 0 6 5 /
run 9: fn main() { let mut x = 1i64; x += { x = 5; 2 }; println!(\"{}\", x); } | 0 7 /
run 9: fn no() -> bool { println!(\"{}\", 0i64); false } fn main() { let a = no() && no(); let b = no() || !no(); println!(\"{}\", a); println!(\"{}\", b); } | 0 0 0 0 false true /
run 9: fn two(a: i64, b: i64) -> i64 { a * b } fn main() { let mut i = 0i64; let x = loop { i += 1; if i > 2 { break; } two(i, { continue; }); }; println!(\"{}\", i); } | 0 3 /
run 9: fn out(n: i64) -> i64 { n + { if n > 1 { return 40; } n } } fn main() { println!(\"{}\", out(1)); println!(\"{}\", out(2)); } | 0 2 40 /
run 30: fn main() { let mut i = 0i64; let mut s = 0i64; 'outer: while i < 5 { i += 1; let mut j = 0i64; while j < 5 { j += 1; if j == i { continue 'outer; } if i == 4 { break 'outer; } s += i * j; } } println!(\"{}\", s); println!(\"{}\", i); } | 0 11 4 /
run 9: fn main() { let mut i = 0i64; while i < 3 { let x = i * i; let y = { let z = x + 1; z * 2 }; println!(\"{}\", y); i += 1; } } | 0 2 4 10 /
run 9: fn kind(n: i64) -> i64 { match n { 0 => 10, 1 => 20, -1 => 30, _ => 40 } } fn main() { println!(\"{}\", kind(0)); println!(\"{}\", kind(1)); println!(\"{}\", kind(0 - 1)); println!(\"{}\", kind(2)); } | 0 10 20 30 40 /
run 9: fn main() { let b = 1i64 > 2; let c = match b { true => 1i64, false => 2 }; println!(\"{}\", c); if b { println!(\"{}\", 3i64); } else { println!(\"{}\", 4i64); } } | 0 2 4 /
run 9: fn f(x: i64) -> i64 { let x = x + 1; let y = x; let x = y * x; x } fn main() { println!(\"{}\", f(2)); let _ = f(3); } | 0 9 /
run 9: fn kind(n: i64) -> i64 { match n % 3 { 0 => 10, 1 => 20, _ => 30 } } fn main() { println!(\"{}\", kind(6)); println!(\"{}\", kind(7)); println!(\"{}\", kind(8)); } | 0 10 20 30 /
run 9: fn add(a: i64, b: i64) -> i64 { if a < 1 { return b; } add(a - 1, b + 1) } fn main() { println!(\"{}\", add(5, 7)); } | 0 12 /
run 30: fn small(n: i64) -> bool { n < 3 } fn main() { let mut s = 0i64; let mut i = 0i64; while small(i) { let mut j = 0i64; while j < i * 2 { s += j; j += 1; } i += 1; } println!(\"{}\", s); } | 0 7 /
run 9 4 -5: mod rt; fn main() { let a = rt::next(); let b = a - rt::next() * rt::next(); println!(\"{}\", b); } | 0 4 /";

#[test]
fn operands_come_in_order_and_jumps_leave_them(rt: HostRuntime) {
    all_told(&rt, rt.alloc(), ORDER);
}

/// Each call and each pass takes one turn.
const TURNS: &str = "\
run 4: fn one() -> i64 { 1 } fn main() { println!(\"{}\", one() + one() + one()); } | 0 3 /
run 3: fn one() -> i64 { 1 } fn main() { println!(\"{}\", one() + one() + one()); } | 8 / error: StillRunning
run 4: fn main() { let mut i = 0i64; while i < 2 { println!(\"{}\", i); i += 1; } } | 0 0 1 /
run 3: fn main() { let mut i = 0i64; while i < 2 { println!(\"{}\", i); i += 1; } } | 8 0 1 / error: StillRunning
run 1: fn up(n: i64) -> i64 { n } fn main() { let a = 1i64; println!(\"{}\", up(a + 1)); } | 8 / error: StillRunning
run 1: fn up(n: i64) -> i64 { n } fn main() { let a = 9223372036854775807i64; println!(\"{}\", up(a + 1)); } | 101 / error: Trapped Overflow
run 4: fn main() { let mut i = 2i64; loop { match 6 / i { 0 => { break; } _ => { i -= 1; } } } } | 101 / error: Trapped DivideByZero
run 3: fn main() { let mut i = 2i64; loop { match 6 / i { 0 => { break; } _ => { i -= 1; } } } } | 8 / error: StillRunning
run 1: fn main() { loop { println!(\"{}\", 1i64); } } | 8 / error: StillRunning
run 3: fn main() { loop { println!(\"{}\", 1i64); } } | 8 1 1 / error: StillRunning";

#[test]
fn calls_and_passes_take_turns(rt: HostRuntime) {
    all_told(&rt, rt.alloc(), TURNS);
}
