//! The variables that a run names.

ghost use Rattle.std.specs.Prelude.{◌≡◌, false, ◌++◌, ◌∷◌, [], IfOk, OnOk, if◌then◌else◌, map};
ghost use Rattle.rx_typed.specs.PlainTree.{plain-Expr};
ghost use Rattle.rx_exits_plan.specs.Blocks.{tail};
ghost use Rattle.rx_exits_plan.specs.Runs as runs;
ghost use Rattle.rx_exits_plan.specs.Occurrences as occurrences;
ghost use Rattle.rx_exits_plan.specs.PlainPlan.{plain-Run};
ghost use Rattle.rx_exits_plan.specs.PlainSyntax.{plain-Home, plain-Value};
ghost use Rattle.rx_exits_occurrences.specs.Wanted.{is_wanted, declared_one};
ghost use Rattle.rx_exits_occurrences.specs.PlainOccurrence.{plain-Occurrence};

use crate::occurring::{Occurrence, push_occurrences, push_statements};
use indexmap::IndexSet;
use rx_core::{LetGo, List};
use rx_exits_plan::{Home, Run, behind, inside, last_value, push_all_declared};
use rx_typed::Expr;
use std::alloc::{AllocError, Global};

/// The variables of a run, each list in the order of first occurrence in the run. A declaration is an occurrence.
#[derive(Drop)]
pub struct Variables {
    pub all: List<u32>,
    /// Those that are declared outside.
    pub foreign: List<u32>,
    /// Those that a statement of the run's own block declares.
    pub direct: List<u32>,
    /// Those that are named behind the run in its block, where the tail is not of the run.
    pub behind: List<u32>,
}

impl LetGo for Variables {
    fn let_go(self) {
        self.all.let_go();
        self.foreign.let_go();
        self.direct.let_go();
        self.behind.let_go();
    }
}

// ---- sets

/// Adds a number that is not there yet.
fn add(numbers: &mut IndexSet<u32>, number: u32) -> Result<(), AllocError>
    ensures { OnOk result (numbers.new.keys ≡ (if occurrences.has_number number numbers.old.keys then numbers.old.keys else numbers.old.keys ++ number ∷ [])) }
{
    match numbers.insert(number) {
        Ok(_) => Ok(()),
        Err(_) => Err(AllocError),
    }
}

fn has(numbers: &IndexSet<u32>, number: u32) -> bool
    ensures { result ≡ occurrences.has_number number numbers.now.keys }
{
    numbers.contains(&number)
}

/// Each number once, where it comes first.
fn set_of(alloc: Global, numbers: &[u32]) -> Result<IndexSet<u32>, AllocError>
    ensures { IfOk result (λ it. it.keys ≡ occurrences.firsts numbers.now) }
{
    let mut all = IndexSet::new(alloc);
    for i in 0..numbers.len() {
        add(&mut all, numbers[i])?;
    }
    Ok(all)
}

fn firsts(alloc: Global, numbers: &[u32]) -> Result<List<u32>, AllocError>
    ensures { IfOk result (λ it. it ≡ occurrences.firsts numbers.now) }
{
    let set = set_of(alloc, numbers)?;
    List::from_slice(alloc, set.as_slice())
}

/// Whether a number is one of these, or is none of them.
fn is_wanted(numbers: &IndexSet<u32>, number: u32, wanted: bool) -> bool
    ensures { result ≡ is_wanted wanted (occurrences.has_number number numbers.now.keys) }
{
    if wanted {
        has(numbers, number)
    } else {
        !has(numbers, number)
    }
}

/// Adds a number that is wanted.
fn push_wanted(
    kept: &mut List<u32>,
    numbers: &IndexSet<u32>,
    number: u32,
    wanted: bool,
) -> Result<(), AllocError>
    ensures { OnOk result (kept.new ≡ kept.old ++ occurrences.those (λ x. is_wanted wanted (occurrences.has_number x numbers.now.keys)) (number ∷ [])) }
{
    if is_wanted(numbers, number, wanted) {
        kept.push(number)
    } else {
        Ok(())
    }
}

fn all_wanted(
    alloc: Global,
    numbers: &[u32],
    others: &IndexSet<u32>,
    wanted: bool,
) -> Result<List<u32>, AllocError>
    ensures { IfOk result (λ it. it ≡ occurrences.those (λ x. is_wanted wanted (occurrences.has_number x others.now.keys)) numbers.now) }
{
    let mut kept = List::new(alloc);
    for i in 0..numbers.len() {
        push_wanted(&mut kept, others, numbers[i], wanted)?;
    }
    Ok(kept)
}

/// Those of some numbers that are among others, or those that are not.
fn chosen(
    alloc: Global,
    numbers: &[u32],
    others: &[u32],
    wanted: bool,
) -> Result<List<u32>, AllocError>
    ensures { IfOk result (λ it. it ≡ occurrences.those (λ x. is_wanted wanted (occurrences.has_number x others.now)) numbers.now) }
{
    let set = set_of(alloc, others)?;
    all_wanted(alloc, numbers, &set, wanted)
}

// ---- occurrences

fn push_variable(variables: &mut List<u32>, occurrence: Occurrence) -> Result<(), AllocError>
    ensures { OnOk result (variables.new ≡ variables.old ++ occurrences.variables_among (plain-Occurrence occurrence ∷ [])) }
{
    match occurrence {
        Occurrence::Names(variable) => variables.push(variable),
        Occurrence::Declares(variable) => variables.push(variable),
    }
}

fn variables_among(alloc: Global, found: &[Occurrence]) -> Result<List<u32>, AllocError>
    ensures { IfOk result (λ it. it ≡ occurrences.variables_among (map plain-Occurrence found.now)) }
{
    let mut variables = List::new(alloc);
    for occurrence in found {
        push_variable(&mut variables, *occurrence)?;
    }
    Ok(variables)
}

#[tactic(auto, using(crate::proofs::NamingLemmas::naming_rules))]
fn push_declared(variables: &mut List<u32>, occurrence: Occurrence) -> Result<(), AllocError>
    ensures { OnOk result (variables.new ≡ variables.old ++ declared_one (plain-Occurrence occurrence)) }
{
    match occurrence {
        Occurrence::Names(_) => Ok(()),
        Occurrence::Declares(variable) => variables.push(variable),
    }
}

#[tactic(auto, using(crate::proofs::NamingLemmas::declared_more))]
fn declared_among(alloc: Global, found: &[Occurrence]) -> Result<List<u32>, AllocError>
    ensures { IfOk result (λ it. it ≡ occurrences.declared_among (map plain-Occurrence found.now)) }
{
    let mut variables = List::new(alloc);
    for occurrence in found {
        push_declared(&mut variables, *occurrence)?;
    }
    Ok(variables)
}

/// Adds the occurrences in a value.
#[tactic(auto, using(crate::proofs::OccurringLemmas::occurring_rules))]
fn push_value(
    alloc: Global,
    found: &mut List<Occurrence>,
    value: Option<&Expr>,
) -> Result<(), AllocError>
    ensures { OnOk result (map plain-Occurrence found.new ≡ map plain-Occurrence found.old ++ occurrences.in_value (plain-Value value.entry)) }
{
    match value {
        Some(expr) => push_occurrences(alloc, found, expr),
        None => Ok(()),
    }
}

/// The occurrences in a run.
fn in_run(alloc: Global, home: &Home<'_>, run: Run) -> Result<List<Occurrence>, AllocError>
    ensures { IfOk result (λ it. map plain-Occurrence it ≡ occurrences.in_run (plain-Run run) (plain-Home home.now).body) }
{
    let mut found = List::new(alloc);
    push_statements(alloc, &mut found, inside(home, run))?;
    push_value(alloc, &mut found, last_value(home, run))?;
    Ok(found)
}

/// Adds the occurrences in a block's tail, where it is not of the run.
#[tactic(auto, using(crate::proofs::OccurringLemmas::occurring_rules))]
fn push_tail(
    alloc: Global,
    found: &mut List<Occurrence>,
    tail: &Expr,
    in_run: bool,
) -> Result<(), AllocError>
    ensures { OnOk result (map plain-Occurrence found.new ≡ map plain-Occurrence found.old ++ (if in_run then [] else occurrences.occurrences (plain-Expr tail.now))) }
{
    if in_run {
        Ok(())
    } else {
        push_occurrences(alloc, found, tail)
    }
}

/// The occurrences behind a run, in its block.
fn found_behind(alloc: Global, home: &Home<'_>, run: Run) -> Result<List<Occurrence>, AllocError>
    ensures { IfOk result (λ it. map plain-Occurrence it ≡ occurrences.in_statements (runs.behind (plain-Run run) (plain-Home home.now).body)
        ++ (if run.tail then [] else occurrences.occurrences (tail (plain-Home home.now).body))) }
{
    let mut found = List::new(alloc);
    push_statements(alloc, &mut found, behind(home, run))?;
    push_tail(alloc, &mut found, home.tail, run.tail)?;
    Ok(found)
}

// ---- variables

fn foreign(alloc: Global, found: &[Occurrence], all: &[u32]) -> Result<List<u32>, AllocError>
    ensures { IfOk result (λ it. it ≡ occurrences.those (λ x. is_wanted false (occurrences.has_number x (occurrences.declared_among (map plain-Occurrence found.now)))) all.now) }
{
    let declared = declared_among(alloc, found)?;
    chosen(alloc, all, declared.as_slice(), false)
}

fn direct(alloc: Global, home: &Home<'_>, run: Run, all: &[u32]) -> Result<List<u32>, AllocError>
    ensures { IfOk result (λ it. it ≡ occurrences.those (occurrences.is_direct (plain-Run run) (plain-Home home.now).body) all.now) }
{
    let mut declared = List::new(alloc);
    push_all_declared(&mut declared, inside(home, run))?;
    chosen(alloc, all, declared.as_slice(), true)
}

fn named_behind(
    alloc: Global,
    home: &Home<'_>,
    run: Run,
    all: &[u32],
) -> Result<List<u32>, AllocError>
    ensures { IfOk result (λ it. it ≡ occurrences.those (occurrences.is_named_behind (plain-Run run) (plain-Home home.now).body) all.now) }
{
    let found = found_behind(alloc, home, run)?;
    let named = variables_among(alloc, found.as_slice())?;
    chosen(alloc, all, named.as_slice(), true)
}

/// The variables that a run names or declares.
pub fn variables_of(alloc: Global, home: &Home<'_>, run: Run) -> Result<Variables, AllocError>
    ensures all { IfOk result (λ it. it.all ≡ occurrences.variables_of_run (plain-Run run) (plain-Home home.now).body) }
    ensures foreign { IfOk result (λ it. it.foreign ≡ occurrences.foreign (plain-Run run) (plain-Home home.now).body) }
    ensures direct { IfOk result (λ it. it.direct ≡ occurrences.those (occurrences.is_direct (plain-Run run) (plain-Home home.now).body) (occurrences.variables_of_run (plain-Run run) (plain-Home home.now).body)) }
    ensures behind { IfOk result (λ it. it.behind ≡ occurrences.those (occurrences.is_named_behind (plain-Run run) (plain-Home home.now).body) (occurrences.variables_of_run (plain-Run run) (plain-Home home.now).body)) }
{
    let found = in_run(alloc, home, run)?;
    let named = variables_among(alloc, found.as_slice())?;
    let all = firsts(alloc, named.as_slice())?;
    let foreign = foreign(alloc, found.as_slice(), all.as_slice())?;
    let direct = direct(alloc, home, run, all.as_slice())?;
    let behind = named_behind(alloc, home, run, all.as_slice())?;
    Ok(Variables {
        all,
        foreign,
        direct,
        behind,
    })
}
