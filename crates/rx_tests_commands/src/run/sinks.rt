//! Writes that fail: what is printed is cut, or the line is.

use crate::run::said::{hold, replied};
use std::alloc::Global;
use std::process::Abort;

/// It prints two lines of two bytes, and traps.
const TRAPS: &str =
    "fn main() { println!(\"{}\", 1i64); println!(\"{}\", 2i64); println!(\"{}\", 1i64 / 0i64); }";

/// Ends the test unless the run that traps leaves this in sinks with so much room.
fn leaves(
    rt: &impl Abort,
    alloc: Global,
    out_room: usize,
    err_room: usize,
    status: u8,
    out: &str,
    err: &str,
) {
    let outcome = match replied(alloc, "run 1", TRAPS, out_room, err_room) {
        Ok(reply) => Ok(reply.is(status, out, err)),
        Err(error) => Err(error),
    };
    hold(rt, outcome, out);
}

#[test]
fn a_cut_print_is_a_write_fault(rt: HostRuntime) {
    let alloc = rt.alloc();
    leaves(
        &rt,
        alloc,
        4,
        100,
        101,
        "1\n2\n",
        "error: Trapped DivideByZero\n",
    );
    leaves(&rt, alloc, 3, 100, 5, "1\n2", "error: WriteFault\n");
    leaves(&rt, alloc, 0, 100, 5, "", "error: WriteFault\n");
    leaves(&rt, alloc, 0, 6, 5, "", "error:");
}

#[test]
fn a_cut_line_is_a_write_fault(rt: HostRuntime) {
    leaves(&rt, rt.alloc(), 100, 14, 5, "1\n2\n", "error: Trapped");
}
