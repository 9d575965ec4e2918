//! What a part is to the parts around it.

ghost use Rattle.std.specs.Prelude.{◌≡◌, [], ◌∷◌, ◌++◌, IfOk, OnOk, if◌then◌else◌};
ghost use Rattle.rx_lower_walks.specs.Sums.{joined, moved, then_begins, breaks_of, nowhere_sum, leads_sum, act_sum, leaving_sum, then_sum, else_sum, or_sum, may_sum, ends_sum, loop_sum};

use crate::breaks::{has, join, without};
use crate::numbers::add;
use crate::ways::{ended, push_moved, push_then, rounded, same};
use rx_core::{LetGo, List};
use std::alloc::{AllocError, Global};

/// Where a part may lead.
#[derive(Clone, Copy)]
pub enum Way {
    /// What follows it.
    Ahead,
    /// What follows a loop, and the loop's next pass: the loop's number.
    Breaking(u32),
    Continuing(u32),
    /// Out of the function.
    Returning,
    /// What comes where a test has failed.
    Failing,
}

/// How a part may begin: with a site of its own, this far from its first, or without one, this way.
#[derive(Clone, Copy)]
pub enum Begin {
    Starts(u64),
    Through(Way),
}

/// What a part is to the parts around it.
#[derive(Drop)]
pub struct Sum {
    /// How many sites it has, 2^64 - 1 where there are more.
    pub size: u64,
    /// Whether some walk goes on behind it.
    pub ahead: bool,
    /// Whether some walk ends in a failed test.
    pub failing: bool,
    pub begins: List<Begin>,
    /// The loops that some walk breaks.
    pub breaks: List<u32>,
}

/// A part and what comes behind it: an item and the rest of its sequence, or one of two ways and the other. Of a loop, its passes alone.
#[derive(Drop)]
pub struct Row {
    pub own: Sum,
    pub rest: Sum,
    /// How many rows what comes behind has.
    pub behind: usize,
}

impl LetGo for Begin {
    fn let_go(self) {}
}

impl LetGo for Sum {
    fn let_go(self) {
        self.begins.let_go();
        self.breaks.let_go();
    }
}

impl LetGo for Row {
    fn let_go(self) {
        self.own.let_go();
        self.rest.let_go();
    }
}

fn breaks_of(alloc: Global, way: Way) -> Result<List<u32>, AllocError>
    ensures { IfOk result (λ it. it ≡ breaks_of way) }
{
    let mut all = List::new(alloc);
    match way {
        Way::Breaking(l) => {
            all.push(l)?;
            Ok(all)
        }
        _ => Ok(all),
    }
}

fn begin_list(alloc: Global, begin: Begin) -> Result<List<Begin>, AllocError>
    ensures { IfOk result (λ it. it ≡ begin ∷ []) }
{
    let mut all = List::new(alloc);
    all.push(begin)?;
    Ok(all)
}

/// A part that nothing comes out of.
pub fn nowhere(alloc: Global) -> Sum
    ensures { result ≡ nowhere_sum }
{
    Sum {
        size: 0,
        ahead: false,
        failing: false,
        begins: List::new(alloc),
        breaks: List::new(alloc),
    }
}

/// A part that leads this way without an action.
pub fn leads(alloc: Global, way: Way) -> Result<Sum, AllocError>
    ensures { IfOk result (λ it. it ≡ leads_sum way) }
{
    let begins = begin_list(alloc, Begin::Through(way))?;
    let breaks = breaks_of(alloc, way)?;
    Ok(Sum {
        size: 0,
        ahead: same(Way::Ahead, way),
        failing: same(Way::Failing, way),
        begins,
        breaks,
    })
}

/// An action.
pub fn acts(alloc: Global) -> Result<Sum, AllocError>
    ensures { IfOk result (λ it. it ≡ act_sum) }
{
    let begins = begin_list(alloc, Begin::Starts(0))?;
    Ok(Sum {
        size: 1,
        ahead: true,
        failing: false,
        begins,
        breaks: List::new(alloc),
    })
}

/// So many variables end, and then this way.
pub fn leaving(alloc: Global, count: usize, way: Way) -> Result<Sum, AllocError>
    ensures { IfOk result (λ it. it ≡ leaving_sum count way) }
{
    let begin = if count == 0 {
        Begin::Through(way)
    } else {
        Begin::Starts(0)
    };
    let begins = begin_list(alloc, begin)?;
    let breaks = breaks_of(alloc, way)?;
    Ok(Sum {
        size: count as u64,
        ahead: same(Way::Ahead, way),
        failing: same(Way::Failing, way),
        begins,
        breaks,
    })
}

/// The begins of two parts, the second where the first leads this way.
fn begins_of(alloc: Global, way: Way, first: &Sum, second: &Sum) -> Result<List<Begin>, AllocError>
    ensures { IfOk result (λ it. it ≡ then_begins way first.now.begins (moved first.now.size second.now.begins)) }
{
    let mut all = List::new(alloc);
    push_then(
        &mut all,
        way,
        first.begins.as_slice(),
        first.size,
        second.begins.as_slice(),
    )?;
    Ok(all)
}

/// The loops that either breaks, the second where it is reached.
fn joined_breaks(
    alloc: Global,
    reached: bool,
    first: &Sum,
    second: &Sum,
) -> Result<List<u32>, AllocError>
    ensures { IfOk result (λ it. it ≡ joined first.now.breaks (if reached then second.now.breaks else [])) }
{
    let all = List::from_slice(alloc, first.breaks.as_slice())?;
    if reached {
        join(all, second.breaks.as_slice())
    } else {
        Ok(all)
    }
}

/// A part and, where it goes on, another.
fn then_sum(alloc: Global, first: &Sum, second: &Sum) -> Result<Sum, AllocError>
    ensures { IfOk result (λ it. it ≡ then_sum first.now second.now) }
{
    let begins = begins_of(alloc, Way::Ahead, first, second)?;
    let breaks = joined_breaks(alloc, first.ahead, first, second)?;
    Ok(Sum {
        size: add(first.size, if first.ahead { second.size } else { 0 }),
        ahead: first.ahead && second.ahead,
        failing: first.failing || first.ahead && second.failing,
        begins,
        breaks,
    })
}

/// A part and, where a test in it fails, another.
fn else_sum(alloc: Global, first: &Sum, second: &Sum) -> Result<Sum, AllocError>
    ensures { IfOk result (λ it. it ≡ else_sum first.now second.now) }
{
    let begins = begins_of(alloc, Way::Failing, first, second)?;
    let breaks = joined_breaks(alloc, first.failing, first, second)?;
    Ok(Sum {
        size: add(first.size, if first.failing { second.size } else { 0 }),
        ahead: first.ahead || first.failing && second.ahead,
        failing: first.failing && second.failing,
        begins,
        breaks,
    })
}

/// One or the other.
fn or_sum(alloc: Global, first: &Sum, second: &Sum) -> Result<Sum, AllocError>
    ensures { IfOk result (λ it. it ≡ or_sum first.now second.now) }
{
    let mut begins = List::from_slice(alloc, first.begins.as_slice())?;
    push_moved(&mut begins, first.size, second.begins.as_slice())?;
    let breaks = joined_breaks(alloc, true, first, second)?;
    Ok(Sum {
        size: add(first.size, second.size),
        ahead: first.ahead || second.ahead,
        failing: first.failing || second.failing,
        begins,
        breaks,
    })
}

/// What follows, or a failed test.
fn may_sum(alloc: Global, rest: &Sum) -> Result<Sum, AllocError>
    ensures { IfOk result (λ it. it ≡ may_sum rest.now) }
{
    let mut begins = List::from_slice(alloc, rest.begins.as_slice())?;
    begins.push(Begin::Through(Way::Failing))?;
    let breaks = List::from_slice(alloc, rest.breaks.as_slice())?;
    Ok(Sum {
        size: rest.size,
        ahead: rest.ahead,
        failing: true,
        begins,
        breaks,
    })
}

/// What follows, and the end of a variable.
fn ends_sum(alloc: Global, rest: &Sum) -> Result<Sum, AllocError>
    ensures { IfOk result (λ it. it ≡ ends_sum rest.now) }
{
    let begins = ended(alloc, rest.begins.as_slice(), rest.size)?;
    let breaks = List::from_slice(alloc, rest.breaks.as_slice())?;
    Ok(Sum {
        size: add(rest.size, if rest.ahead { 1 } else { 0 }),
        ahead: rest.ahead,
        failing: false,
        begins,
        breaks,
    })
}

/// A loop, by its passes.
fn loop_sum(alloc: Global, number: u32, body: &Sum) -> Result<Sum, AllocError>
    ensures { IfOk result (λ it. it ≡ loop_sum number body.now) }
{
    let begins = rounded(alloc, number, body.begins.as_slice())?;
    let breaks = without(alloc, number, body.breaks.as_slice())?;
    Ok(Sum {
        size: body.size,
        ahead: has(number, body.breaks.as_slice()),
        failing: false,
        begins,
        breaks,
    })
}

// ---- rows

/// One or the other, and the row of both.
pub fn or_row(
    alloc: Global,
    own: Sum,
    rest: Sum,
    behind: usize,
    rows: &mut List<Row>,
) -> Result<Sum, AllocError>
    ensures sum { IfOk result (λ it. it ≡ or_sum own rest) }
    ensures rows { OnOk result (rows.new ≡ rows.old ++ record { own = own; rest = rest; behind = behind } ∷ []) }
{
    let sum = or_sum(alloc, &own, &rest)?;
    rows.push(Row { own, rest, behind })?;
    Ok(sum)
}

/// A part and, where it goes on, what follows.
pub fn do_row(
    alloc: Global,
    own: Sum,
    rest: Sum,
    behind: usize,
    rows: &mut List<Row>,
) -> Result<Sum, AllocError>
    ensures sum { IfOk result (λ it. it ≡ then_sum own rest) }
    ensures rows { OnOk result (rows.new ≡ rows.old ++ record { own = own; rest = rest; behind = behind } ∷ []) }
{
    let sum = then_sum(alloc, &own, &rest)?;
    rows.push(Row { own, rest, behind })?;
    Ok(sum)
}

/// A part and, where a test in it fails, what follows.
pub fn else_row(
    alloc: Global,
    own: Sum,
    rest: Sum,
    behind: usize,
    rows: &mut List<Row>,
) -> Result<Sum, AllocError>
    ensures sum { IfOk result (λ it. it ≡ else_sum own rest) }
    ensures rows { OnOk result (rows.new ≡ rows.old ++ record { own = own; rest = rest; behind = behind } ∷ []) }
{
    let sum = else_sum(alloc, &own, &rest)?;
    rows.push(Row { own, rest, behind })?;
    Ok(sum)
}

/// A variable that ends where what follows does.
pub fn ends_row(
    alloc: Global,
    rest: Sum,
    behind: usize,
    rows: &mut List<Row>,
) -> Result<Sum, AllocError>
    ensures sum { IfOk result (λ it. it ≡ ends_sum rest) }
    ensures rows { OnOk result (rows.new ≡ rows.old ++ record { own = nowhere_sum; rest = rest; behind = behind } ∷ []) }
{
    let sum = ends_sum(alloc, &rest)?;
    let own = nowhere(alloc);
    rows.push(Row { own, rest, behind })?;
    Ok(sum)
}

/// What follows, or a failed test.
pub fn may_row(
    alloc: Global,
    rest: Sum,
    behind: usize,
    rows: &mut List<Row>,
) -> Result<Sum, AllocError>
    ensures sum { IfOk result (λ it. it ≡ may_sum rest) }
    ensures rows { OnOk result (rows.new ≡ rows.old ++ record { own = nowhere_sum; rest = rest; behind = behind } ∷ []) }
{
    let sum = may_sum(alloc, &rest)?;
    let own = nowhere(alloc);
    rows.push(Row { own, rest, behind })?;
    Ok(sum)
}

/// A loop, by its passes.
pub fn loop_row(
    alloc: Global,
    number: u32,
    own: Sum,
    rows: &mut List<Row>,
) -> Result<Sum, AllocError>
    ensures sum { IfOk result (λ it. it ≡ loop_sum number own) }
    ensures rows { OnOk result (rows.new ≡ rows.old ++ record { own = own; rest = nowhere_sum; behind = 0 } ∷ []) }
{
    let sum = loop_sum(alloc, number, &own)?;
    let rest = nowhere(alloc);
    rows.push(Row {
        own,
        rest,
        behind: 0,
    })?;
    Ok(sum)
}
