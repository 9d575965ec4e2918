//! What programs print, and how they end, through the command `run`.

use crate::run::said::{all_told, hold, replied};

/// Each end, with what is printed before it.
const ENDS: &str = "\
run 1: fn main() { let a = 2i64; let b = 3i64; let c = a * b; println!(\"{}\", c); } | 0 6 /
run 0: fn main() { let a = 2i64; let b = 3i64; let c = a * b; println!(\"{}\", c); } | 8 / error: StillRunning
run 2: fn one() -> i64 { 1i64 } fn main() { println!(\"{}\", 5i64); let a = one(); println!(\"{}\", a); } | 0 5 1 /
run 1: fn one() -> i64 { 1i64 } fn main() { println!(\"{}\", 5i64); let a = one(); println!(\"{}\", a); } | 8 5 / error: StillRunning
run 4: fn up(n: i64) { println!(\"{}\", n); let m = n + 1i64; up(m); } fn main() { let a = 1i64; up(a); } | 8 1 2 3 / error: StillRunning
run 9: fn grow(n: i64) { println!(\"{}\", n); let m = n * 4294967296i64; grow(m); } fn main() { let a = 1i64; grow(a); } | 101 1 4294967296 / error: Trapped Overflow
run 9: fn main() { println!(\"{}\", 7i64); println!(\"{}\", 7i64 / (3i64 - 3i64)); } | 101 7 / error: Trapped DivideByZero
run 9: fn main() { println!(\"{}\", 7i64); println!(\"{}\", 7i64 % (3i64 - 3i64)); } | 101 7 / error: Trapped DivideByZero
run 9: fn main() { let a = 9223372036854775807i64; let b = a + 1i64; println!(\"{}\", a); } | 101 / error: Trapped Overflow
run 9 1 2 3: fn main() { println!(\"{}\", 1i64 - 2i64); } | 0 -1 /
run 9: fn main() {} fn other() { other(); } | 0 /";

#[test]
fn each_end_has_its_status_and_line(rt: HostRuntime) {
    all_told(&rt, rt.alloc(), ENDS);
}

#[test]
fn each_print_ends_its_line(rt: HostRuntime) {
    let text = "fn main() { println!(\"{}\", 12i64); println!(\"{}\", 3i64); }";
    let outcome = match replied(rt.alloc(), "run 1", text, 100, 100) {
        Ok(reply) => Ok(reply.is(0, "12\n3\n", "")),
        Err(error) => Err(error),
    };
    hold(&rt, outcome, text);
}
