//! Runs of each operator at each kind of place: what it gives into new variables and by assignments, in tests, behind passes
//! of loops, before calls and as what calls give, of two variables, and of a variable and a constant. What is printed was
//! compared with rustc.

use crate::run::said::all_told;

/// A program a group of places.
const FORMS: &str = "\
run 1000: fn main() { let a = 17i64; let b = 0 - 5i64; println!(\"{}\", a + b); println!(\"{}\", a + 3); println!(\"{}\", a - b); println!(\"{}\", a - 3); println!(\"{}\", a * b); println!(\"{}\", a * 3); println!(\"{}\", a / b); println!(\"{}\", a / 3); println!(\"{}\", a % b); println!(\"{}\", a % 3); } | 0 12 20 22 14 -85 51 -3 5 2 2 /
run 1000: fn main() { let a = 0 - 17i32; let b = 5i32; let mut x = a; println!(\"{}\", x); x = a + b; println!(\"{}\", x); x = x + 4; println!(\"{}\", x); x = a - b; println!(\"{}\", x); x = x - 4; println!(\"{}\", x); x = a * b; println!(\"{}\", x); x = x * 4; println!(\"{}\", x); x = a / b; println!(\"{}\", x); x = x / 4; println!(\"{}\", x); x = a % b; println!(\"{}\", x); x = x % 4; println!(\"{}\", x); x = b; println!(\"{}\", x); x = 9; println!(\"{}\", x); } | 0 -17 -12 -8 -22 -26 -85 -340 -3 0 -2 -2 5 9 /
run 1000: fn tell(a: i64, b: i64) -> i64 { let mut s = 0i64; if a == b { s = s + 1; } if a == 2 { s = s + 64; } if a != b { s = s + 2; } if a != 2 { s = s + 128; } if a < b { s = s + 4; } if a < 2 { s = s + 256; } if a <= b { s = s + 8; } if a <= 2 { s = s + 512; } if a > b { s = s + 16; } if a > 2 { s = s + 1024; } if a >= b { s = s + 32; } if a >= 2 { s = s + 2048; } s } fn main() { println!(\"{}\", tell(1, 2)); println!(\"{}\", tell(2, 2)); println!(\"{}\", tell(3, 2)); println!(\"{}\", tell(3, 4)); } | 0 910 2665 3250 3214 /
run 1000: fn main() { let one = 1u32; let three = 3u32; let mut n = 0u32; let mut i = 0u32; while i < three { i = i + 1; n = n + 1; } while i <= 5 { i = i + 1; n = n + 10; } while i != three { i = i - 1; n = n + 100; } while i > one { i = i - 1; n = n + 1000; } while i >= 1 { i = i - 1; n = n + 10000; } while i == 0 { i = i + 1; n = n + 100000; } println!(\"{}\", n); while i < 4 { i = i + one; } while i <= three { i = i + 1; } while i != 2 { i = i - one; } while i > 1 { i = i - 1; } while i >= one { i = i - 1; } while i == n { i = i + 1; } println!(\"{}\", i); } | 0 112333 0 /
run 1000: fn half(n: i64) -> i64 { n / 2 } fn up(n: i64, by: i64) -> i64 { if n > 20 { return n; } up(n + by, by) } fn down(n: i64, by: i64) -> i64 { if n < 3 { return n; } down(n - by, by) } fn main() { let a = 9i64; let b = 4i64; println!(\"{}\", half(a + b)); println!(\"{}\", half(a - b)); println!(\"{}\", half(a + 1)); println!(\"{}\", half(a - 1)); println!(\"{}\", up(a, b)); println!(\"{}\", down(a, b)); } | 0 6 2 5 4 21 1 /
run 1000: fn sum(a: i64, b: i64) -> i64 { a + b } fn difference(a: i64, b: i64) -> i64 { a - b } fn product(a: i64, b: i64) -> i64 { a * b } fn more(a: i64) -> i64 { a + 2 } fn less(a: i64) -> i64 { a - 2 } fn twice(a: i64) -> i64 { a * 2 } fn same(a: i64) -> i64 { a } fn seven() -> i64 { 7 } fn main() { println!(\"{}\", sum(9, 4)); println!(\"{}\", difference(4, 9)); println!(\"{}\", product(9, 4)); println!(\"{}\", more(9)); println!(\"{}\", less(1)); println!(\"{}\", twice(9)); println!(\"{}\", same(5)); println!(\"{}\", seven()); } | 0 13 -5 36 11 -1 18 5 7 /";

#[test]
fn each_operator_is_done_everywhere(rt: HostRuntime) {
    all_told(&rt, rt.alloc(), FORMS);
}
