//! Which modes uses allow: all 1,024 uses beside a table written by hand.

use crate::holding::hold;
use rx_modes_policy::{Mode, Uses, allowed};

/// A row a line, of which the first that fits applies: a letter for each use that there is, `copy`, `mut_ref`, `moved`, `written`,
/// `lent`, `through`, `mut_out`, `declared_mut`, `live_out` and `set_in`, which is 1 where it has to be so, 0 where not, and - where
/// either does; and the modes.
const ROWS: &str = "\
--1----01-:
--1-------:Value
---1---0--:
---1------:Mut
-1---1-0--:Reborrow
-1--0101--:Reborrow Mut
-1---1----:Mut
-----1-1--:Mut
-----1--0-:Value
-----1----:
-1--1-----:Shared
-1----1---:Shared
-1--------:View Shared
1---1-----:Shared
1-----1---:Shared
1---------:Value Shared
----------:Shared";

/// Whether the ten truth values of a number, the first use's the lowest, fit a row.
fn fits(number: u32, row: &str) -> bool {
    let mut rest = number;
    for letter in row.as_bytes() {
        let held = rest % 2 == 1;
        if (*letter == b'1' && !held) || (*letter == b'0' && held) {
            return false;
        }
        rest = rest / 2;
    }
    true
}

/// The modes of the first row that fits.
fn row_of(number: u32) -> &'static str {
    for line in ROWS.split("\n") {
        let (row, modes) = line.split_once(":").unwrap_or((line, ""));
        if fits(number, row) {
            return modes;
        }
    }
    ""
}

/// Whether a number has this power of two.
fn has(number: u32, power: u32) -> bool {
    power > 0 && number / power % 2 == 1
}

fn uses_of(number: u32) -> Uses {
    Uses {
        copy: has(number, 1),
        mut_ref: has(number, 2),
        moved: has(number, 4),
        written: has(number, 8),
        lent: has(number, 16),
        through: has(number, 32),
        mut_out: has(number, 64),
        declared_mut: has(number, 128),
        live_out: has(number, 256),
        set_in: has(number, 512),
    }
}

fn name_of(mode: Option<Mode>) -> &'static str {
    match mode {
        Some(Mode::Value) => "Value",
        Some(Mode::Reborrow) => "Reborrow",
        Some(Mode::View) => "View",
        Some(Mode::Shared) => "Shared",
        Some(Mode::Mut) => "Mut",
        None => "",
    }
}

/// Whether uses allow what the table says: the first mode of the row, and the last.
fn is_allowed(number: u32) -> bool {
    let choice = allowed(&uses_of(number));
    let modes = row_of(number);
    let (first, last) = modes.split_once(" ").unwrap_or((modes, modes));
    name_of(choice.first) == first && name_of(choice.last) == last
}

#[test]
fn uses_allow_what_the_table_says(rt: HostRuntime) {
    for number in 0..1024 {
        hold(&rt, Ok(is_allowed(number)), row_of(number));
    }
}
