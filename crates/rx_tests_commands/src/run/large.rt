//! Runs that are deep or long.

use crate::run::said::{all_told, hold, replied};
use rx_tests_tables::Outcome;
use std::alloc::Global;

/// Two hundred thousand calls that are nested, and the turn that is wanting there; a loop of a hundred thousand passes.
const LARGE: &str = "\
run 300000: fn down(n: i64) -> i64 { if n < 1 { return 0; } 1 + down(n - 1) } fn main() { println!(\"{}\", down(200000)); } | 0 200000 /
run 200001: fn down(n: i64) -> i64 { if n < 1 { return 0; } 1 + down(n - 1) } fn main() { println!(\"{}\", down(200000)); } | 8 / error: StillRunning
run 200002: fn down(n: i64) -> i64 { if n < 1 { return 0; } 1 + down(n - 1) } fn main() { println!(\"{}\", down(200000)); } | 0 200000 /
run 100002: fn main() { let mut s = 0i64; let mut i = 0i64; while i < 100000 { s = s + i % 7; i = i + 1; } println!(\"{}\", s); } | 0 299995 /
run 100001: fn main() { let mut s = 0i64; let mut i = 0i64; while i < 100000 { s = s + i % 7; i = i + 1; } println!(\"{}\", s); } | 8 / error: StillRunning
run 1000000: fn fib(n: i64) -> i64 { if n < 2 { return n; } fib(n - 1) + fib(n - 2) } fn main() { println!(\"{}\", fib(20)); } | 0 6765 /
run 21892: fn fib(n: i64) -> i64 { if n < 2 { return n; } fib(n - 1) + fib(n - 2) } fn main() { println!(\"{}\", fib(20)); } | 0 6765 /
run 21891: fn fib(n: i64) -> i64 { if n < 2 { return n; } fib(n - 1) + fib(n - 2) } fn main() { println!(\"{}\", fib(20)); } | 8 / error: StillRunning";

#[test]
fn deep_and_long_runs_end(rt: HostRuntime) {
    all_told(&rt, rt.alloc(), LARGE);
}

/// Ten thousand lines.
const PRINTS: &str =
    "fn main() { let mut i = 0i64; while i < 10000 { println!(\"{}\", 7777777i64); i = i + 1; } }";

/// So many lines, and whether they are what is printed.
fn is_printed(alloc: Global, count: usize) -> Outcome {
    let mut lines = String::new(alloc);
    for _line in 0..count {
        lines.push_str("7777777\n")?;
    }
    let reply = replied(alloc, "run 10002", PRINTS, 80000, 100)?;
    Ok(reply.is(0, lines.as_str(), ""))
}

#[test]
fn long_prints_are_whole(rt: HostRuntime) {
    hold(&rt, is_printed(rt.alloc(), 10000), PRINTS);
}
