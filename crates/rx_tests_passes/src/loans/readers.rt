//! What the readers of a program that is accepted tell of the bank.

ghost use Rattle.std.specs.Option.{IsSome};
ghost use Rattle.rx_lower.specs.Functions.{function_at};

use crate::holding::hold;
use rx_check::{Checked, FrontEnd, check, covers};
use rx_core::{LetGo, List};
use rx_lower_walks::{Place, Root};
use rx_parse::{parse, parsed_programs_are_numbered};
use rx_tests_tables::{BANK, Outcome};
use std::alloc::{AllocError, Global};

/// Its functions by their items, the item of `main`, how many parts `Account`, `Bank` and `Command` have, how many functions there
/// are, with graphs and facts, and whether its matches are covered.
fn program_line(alloc: Global, front: &FrontEnd) -> Result<String, AllocError> {
    let mut line = String::new(alloc);
    for item in 0..9u32 {
        if front.is_function(item) {
            let word = format!(in alloc; "{item} ")?;
            line.push_str(word.as_str())?;
        }
    }
    for (item, size) in front.sizes().iter().enumerate() {
        if 0 < item && item < 4 {
            let word = format!(in alloc; "{size} ")?;
            line.push_str(word.as_str())?;
        }
    }
    let counts = format!(in alloc;
        "{} {} {} {}",
        front.typed().functions.len(),
        front.main(),
        front.graphs().len(),
        front.facts().functions.len()
    )?;
    line.push_str(counts.as_str())?;
    match covers(alloc, front.typed()) {
        Ok(()) => line.push_str(" covered")?,
        Err(_) => line.push_str(" not covered")?,
    }
    Ok(line)
}

/// Of the function of an item: its item, how many variables it has, and how many lifetimes of its own; and of a variable whether it may
/// be set, may be unset and is live at a site, by the function's tables and by the readers of the front.
fn variable_line(
    alloc: Global,
    front: &FrontEnd,
    item: u32,
    variable: u32,
    site: usize,
) -> Result<String, AllocError>
    requires { IsSome (function_at front.now.typed.functions item) }
{
    let place = Place {
        root: Root::Variable(variable),
        steps: List::new(alloc),
    };
    let function = front.function(item);
    let frame = front.frame(item);
    let _table = front.init(item);
    let live = front.live(item).is_live(Root::Variable(variable), site);
    format!(in alloc;
        "{} {} {} {} {} {} {}",
        function.item,
        frame.types.len(),
        front.graph(item).lifetimes.own,
        front.may_be_set(item, &place, site),
        front.may_be_unset(item, &place, site),
        front.is_live(item, Root::Variable(variable), site),
        live
    )
}

/// Of the function of an item: whether the least set of its first lifetime has the function's first site and its own end, how many loans
/// it has, and at which site, of the first 64, the first of these is in scope last.
fn loans_line(alloc: Global, checked: &Checked, item: u32) -> Result<String, AllocError>
    requires { IsSome (function_at checked.now.front.typed.functions item) }
{
    let regions = checked.regions(item);
    let loans = checked.loans(item);
    let mut sites = 0usize;
    for site in 0..64usize {
        if loans.in_scope(0, site) {
            sites = site;
        }
    }
    format!(in alloc;
        "{} {} {} {}",
        regions.holds(0, 0),
        regions.holds_end(0, 0),
        loans.list.len(),
        sites
    )
}

fn told_of(alloc: Global, checked: &Checked) -> Result<String, AllocError> {
    let front = checked.front();
    let mut lines = program_line(alloc, front)?;
    for (item, variable, site) in QUESTIONS {
        if front.is_function(item) {
            let line = variable_line(alloc, front, item, variable, site)?;
            lines.push_str("; ")?;
            lines.push_str(line.as_str())?;
        }
    }
    for item in [5u32, 7] {
        if front.is_function(item) {
            let line = loans_line(alloc, checked, item)?;
            lines.push_str("; ")?;
            lines.push_str(line.as_str())?;
        }
    }
    Ok(lines)
}

/// A function by its item, a variable and a site: `pick` before its parameters begin, and where both have begun; `serve` there too; and
/// `main` where it begins.
const QUESTIONS: [(u32, u32, usize); 4] = [(5, 0, 0), (5, 1, 4), (6, 1, 4), (7, 0, 0)];

/// What the readers tell of the bank.
fn told(alloc: Global) -> Result<String, AllocError> {
    match parse(alloc, BANK.as_bytes()) {
        Ok(program) => {
            parsed_programs_are_numbered();
            let lines = match check(alloc, &program) {
                Ok(checked) => {
                    let lines = told_of(alloc, &checked);
                    checked.let_go();
                    lines
                }
                Err(_) => String::from_str(alloc, "refused"),
            };
            program.let_go();
            lines
        }
        Err(_) => String::from_str(alloc, "no program"),
    }
}

fn is_told(alloc: Global, want: &str) -> Outcome {
    Ok(told(alloc)?.as_str() == want)
}

/// The answers were printed first, and then checked against the rules by hand. `Command` has a tag and five fields; the
/// loan of what `pick` returns lasts up to its end, at site 11, and that of the bank up to the call of `serve`, at site 12.
const TOLD: &str =
    "4 5 6 7 2 5 6 4 7 4 4 covered; 5 2 1 false true false false; 5 2 1 true false true true; 6 13 1 true false true true; \
7 2 0 false true false false; true true 2 11; false false 1 12";

#[test]
fn readers_tell_of_the_bank(rt: HostRuntime) {
    hold(&rt, is_told(rt.alloc(), TOLD), "the bank");
}
