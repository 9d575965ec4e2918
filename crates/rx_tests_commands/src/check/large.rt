//! Functions at the limits of their graphs.

use crate::check::said::{Outcome, hold, is_said, push_times};
use std::alloc::{AllocError, Global};

/// Two functions, the second of which prints so often, and has 12 sites beside two for each print of a number.
fn prints(alloc: Global, count: usize) -> Result<String, AllocError> {
    let mut text = String::from_str(
        alloc,
        "fn f() {} fn main() { let a = 1i64; let b = a; f(); ",
    )?;
    push_times(&mut text, "println!(\"{}\", 1i64); ", count)?;
    text.push_str("println!(\"{}\", b); }")?;
    Ok(text)
}

fn prints_are(alloc: Global, count: usize, want: &str) -> Outcome {
    let text = prints(alloc, count)?;
    is_said(alloc, text.as_str(), want)
}

#[test]
fn a_function_has_at_most_16384_sites(rt: HostRuntime) {
    hold(
        &rt,
        prints_are(rt.alloc(), 8186, "accepted"),
        "16,384 sites",
    );
    hold(
        &rt,
        prints_are(rt.alloc(), 8187, "TooLarge 1 16386 0"),
        "16,386 sites",
    );
}
