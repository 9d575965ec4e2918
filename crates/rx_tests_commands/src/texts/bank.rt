//! A program of many forms of the language.

use crate::holding::hold;
use crate::texts::parse::answers;
use rx_tests_tables::BANK;

#[test]
fn the_bank_is_a_program(rt: HostRuntime) {
    hold(&rt, answers(rt.alloc(), BANK, "items 8"), "the bank");
}
