//! Extractions by policies of one's own, whose choice is neither always the first of the modes that uses allow nor always the last.

ghost use Rattle.std.specs.Prelude.{◌≡◌};
ghost use Rattle.rx_modes_policy.specs.Allowed as spec;
ghost use Rattle.rx_tests_commands.specs.Choosing as choosing;

use crate::run::said::{hold, push_words};
use rx_engine::{Selection, extract};
use rx_modes_policy::{Mode, Policy, Uses, allowed};
use rx_tests_tables::{LINES, Outcome, first_wrong};
use std::alloc::{AllocError, Global};

/// The first mode for what is Copy, the last for all else; turned, the other way round.
#[derive(Clone, Copy)]
struct Apart {
    turned: bool,
}

fn chosen(mode: Option<Mode>) -> Mode
    ensures { result ≡ spec.or_shared mode }
{
    match mode {
        Some(mode) => mode,
        None => Mode::Shared,
    }
}

impl Policy for Apart {
    ghost choice = { λ p u. choosing.apart p.turned u };

    fn choose(&self, uses: Uses) -> Mode {
        let is_copy = uses.copy;
        let modes = allowed(&uses);
        if self.turned {
            chosen(if is_copy { modes.last } else { modes.first })
        } else {
            chosen(if is_copy { modes.first } else { modes.last })
        }
    }

    ghost members = { λ p u h. choosing.apart_is_member p.turned u h };
}

/// What is made of a text whose run stands between two marks, its words apart by blanks; nothing where it is refused.
fn made<P: Policy>(alloc: Global, text: &str, policy: &P) -> Result<String, AllocError> {
    let (front, rest) = text.split_once("‸").unwrap_or((text, ""));
    let (run, behind) = rest.split_once("‸").unwrap_or((rest, ""));
    let mut plain = String::from_str(alloc, front)?;
    let start = plain.len() as u64;
    plain.push_str(run)?;
    let end = plain.len() as u64;
    plain.push_str(behind)?;
    let mut words = String::new(alloc);
    if plain.len() <= 1_048_576 {
        let selection = Selection { start, end };
        match extract(alloc, plain.as_bytes(), selection, "g", policy) {
            Ok(answer) => push_words(&mut words, answer.text.as_str().as_bytes())?,
            Err(_) => {}
        }
    }
    Ok(words)
}

/// Whether what is made by the policy is as expected.
fn is_made(alloc: Global, turned: bool, text: &str, want: &str) -> Outcome {
    Ok(made(alloc, text, &Apart { turned })?.as_str().trim_end() == want)
}

const COPIES_FIRST: &str =
    r#"fn f(r: &mut i64, k: i64) { ‸println!("{}", *r + k);‸ *r = k; } fn main() { let mut a = 1i64; f(&mut a, 2); println!("{}", a); } | fn f(r: &mut i64, k: i64) { g(&r, k); *r = k; } fn g<'r0, 'r1>(r: &'r0 &'r1 mut i64, k: i64) { println!("{}", **r + k); } fn main() { let mut a = 1i64; f(&mut a, 2); println!("{}", a); }
fn f(mut r: &mut i64, k: u8) { ‸*r = 2; println!("{}", k);‸ println!("{}", k); } fn main() {} | fn f(mut r: &mut i64, k: u8) { g(&mut r, k); println!("{}", k); } fn g<'r0, 'r1>(r: &'r0 mut &'r1 mut i64, k: u8) { **r = 2; println!("{}", k); } fn main() {}
struct S { a: i64 } fn main() { let s = S { a: 1 }; let x = 2i64; let y = true; ‸let z = y && s.a > x;‸ println!("{}", z); } | struct S { a: i64 } fn main() { let s = S { a: 1 }; let x = 2i64; let y = true; let z = g(y, &s, x); println!("{}", z); } fn g<'r0>(y: bool, s: &'r0 S, x: i64) -> bool { let z = y && (*s).a > x; z }
struct S { a: i64 } fn take(s: S) -> i64 { s.a } fn main() { let s = S { a: 1 }; let mut n = 1i64; let k = 3i64; ‸n = n + take(s) + k;‸ println!("{}", n); } | struct S { a: i64 } fn take(s: S) -> i64 { s.a } fn main() { let s = S { a: 1 }; let mut n = 1i64; let k = 3i64; g(&mut n, s, k); println!("{}", n); } fn g<'r0>(n: &'r0 mut i64, s: S, k: i64) { *n = *n + take(s) + k; }"#;

const COPIES_LAST: &str =
    r#"fn f(r: &mut i64, k: i64) { ‸println!("{}", *r + k);‸ *r = k; } fn main() { let mut a = 1i64; f(&mut a, 2); println!("{}", a); } | fn f(r: &mut i64, k: i64) { g(r, &k); *r = k; } fn g<'r0, 'r1>(r: &'r0 i64, k: &'r1 i64) { println!("{}", *r + *k); } fn main() { let mut a = 1i64; f(&mut a, 2); println!("{}", a); }
fn f(mut r: &mut i64, k: u8) { ‸*r = 2; println!("{}", k);‸ println!("{}", k); } fn main() {} | fn f(mut r: &mut i64, k: u8) { g(r, &k); println!("{}", k); } fn g<'r0, 'r1>(r: &'r0 mut i64, k: &'r1 u8) { *r = 2; println!("{}", *k); } fn main() {}
struct S { a: i64 } fn main() { let s = S { a: 1 }; let x = 2i64; let y = true; ‸let z = y && s.a > x;‸ println!("{}", z); } | struct S { a: i64 } fn main() { let s = S { a: 1 }; let x = 2i64; let y = true; let z = g(&y, &s, &x); println!("{}", z); } fn g<'r0, 'r1, 'r2>(y: &'r0 bool, s: &'r1 S, x: &'r2 i64) -> bool { let z = *y && (*s).a > *x; z }
struct S { a: i64 } fn take(s: S) -> i64 { s.a } fn main() { let s = S { a: 1 }; let mut n = 1i64; let k = 3i64; ‸n = n + take(s) + k;‸ println!("{}", n); } | struct S { a: i64 } fn take(s: S) -> i64 { s.a } fn main() { let s = S { a: 1 }; let mut n = 1i64; let k = 3i64; g(&mut n, s, &k); println!("{}", n); } fn g<'r0, 'r1>(n: &'r0 mut i64, s: S, k: &'r1 i64) { *n = *n + take(s) + *k; }"#;

#[test]
fn copies_are_values_and_others_lent(rt: HostRuntime) {
    match first_wrong(
        rt.alloc(),
        COPIES_FIRST,
        LINES,
        |alloc, text, want| is_made(alloc, false, text, want),
    ) {
        Some(row) => hold(&rt, Ok(false), row),
        None => {}
    }
}

#[test]
fn copies_are_lent_and_others_given(rt: HostRuntime) {
    match first_wrong(
        rt.alloc(),
        COPIES_LAST,
        LINES,
        |alloc, text, want| is_made(alloc, true, text, want),
    ) {
        Some(row) => hold(&rt, Ok(false), row),
        None => {}
    }
}
