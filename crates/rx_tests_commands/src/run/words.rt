//! The words of the command `run`.

use crate::run::said::{all_told, hold, replied};

/// No command: the text, which is no program, is not read.
const NO_COMMAND: &str = "\
run: x | 2 / error: Usage
runs 1: x | 2 / error: Usage
run -1: x | 2 / error: Usage
run +1: x | 2 / error: Usage
run one: x | 2 / error: Usage
run 1x: x | 2 / error: Usage
run 00000000000000000001: x | 2 / error: Usage
run 1 9223372036854775808: x | 2 / error: Usage
run 1 -9223372036854775809: x | 2 / error: Usage
run 1 -: x | 2 / error: Usage
run 1 --1: x | 2 / error: Usage
run 1 +1: x | 2 / error: Usage
run 1 1-: x | 2 / error: Usage
run 1 00000000000000000001: x | 2 / error: Usage
run 1 -00000000000000000001: x | 2 / error: Usage
run 1 2 three: x | 2 / error: Usage
run 1 2  3: x | 2 / error: Usage
check 1: x | 2 / error: Usage";

#[test]
fn other_words_are_no_command(rt: HostRuntime) {
    all_told(&rt, rt.alloc(), NO_COMMAND);
}

/// Turns and numbers at the borders of their ranges, and so many digits.
const COMMANDS: &str = "\
run 1: fn main() {} | 0 /
run 0: fn main() {} | 8 / error: StillRunning
run 9999999999999999999: fn main() {} | 0 /
run 0000000000000000001: fn main() {} | 0 /
run 1 9223372036854775807 -9223372036854775808: fn main() {} | 0 /
run 1 0 -0 0000000000000000007 -0000000000000000007: fn main() {} | 0 /
run 1 1 2 3 4 5 6 7 8 9 10 11 12 13 14 15 16 17 18 19 20: fn main() {} | 0 /";

#[test]
fn turns_and_numbers_have_so_many_digits(rt: HostRuntime) {
    all_told(&rt, rt.alloc(), COMMANDS);
}

/// Words come before the text, and the text before the run.
const ORDER: &str = "\
run 0: fn main() { x; } | 3 / error: NotAccepted Unknown 12 13
run 0: fn main() { let a = 1i64; let b = ; } | 3 / error: NotAccepted Syntax 34
run 5: fn main() { let a = 9223372036854775808i64; } | 3 / error: NotAccepted Literal 20 42
run 5: fn other() {} | 3 / error: NotAccepted Mismatch 0 13 Main
run 5 x: fn main() { x; } | 2 / error: Usage";

#[test]
fn a_text_that_is_not_accepted_is_not_run(rt: HostRuntime) {
    all_told(&rt, rt.alloc(), ORDER);
    let outcome = match replied(rt.alloc(), "run 1", "", 100, 100) {
        Ok(reply) => Ok(reply.is(3, "", "error: NotAccepted Mismatch 0 0 Main\n")),
        Err(error) => Err(error),
    };
    hold(&rt, outcome, "the empty text");
}
