//! Outcomes of runs, compared.

use crate::holding::hold;
use rx_core::Text;
use rx_meaning::{End, Outcome, Trap, compare_runs};
use rx_tests_tables::Outcome as Row;
use std::alloc::Global;

/// Whether an outcome is up to another, by what is printed and how it ends.
fn is_up_to(alloc: Global, a: (&str, End), b: (&str, End), want: bool) -> Row {
    let first = Outcome {
        printed: Text::new(alloc, a.0)?,
        end: a.1,
    };
    let second = Outcome {
        printed: Text::new(alloc, b.0)?,
        end: b.1,
    };
    Ok(compare_runs(&first, &second) == want)
}

#[test]
fn a_run_goes_on_or_is_the_same(rt: HostRuntime) {
    let alloc = rt.alloc();
    let whole = ("1\n2\n", End::Ended);
    let trapped = ("1\n2\n", End::Trapped(Trap::Overflow));
    let divided = ("1\n2\n", End::Trapped(Trap::DivideByZero));
    hold(&rt, is_up_to(alloc, whole, whole, true), "the same");
    hold(
        &rt,
        is_up_to(alloc, ("1\n", End::Running), whole, true),
        "cut off",
    );
    hold(
        &rt,
        is_up_to(alloc, ("1\n2\n", End::Running), trapped, true),
        "cut off at the end",
    );
    hold(
        &rt,
        is_up_to(alloc, ("2\n", End::Running), whole, false),
        "other bytes",
    );
    hold(
        &rt,
        is_up_to(alloc, whole, ("1\n2\n", End::Running), false),
        "turned round",
    );
    hold(
        &rt,
        is_up_to(alloc, trapped, divided, false),
        "another trap",
    );
    hold(
        &rt,
        is_up_to(alloc, ("1\n", End::Ended), whole, false),
        "ended before",
    );
}
