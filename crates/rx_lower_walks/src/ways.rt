//! Ways, and how parts begin.

ghost use Rattle.std.specs.Prelude.{◌≡◌, [], ◌∷◌, ◌++◌, IfOk, OnOk, List as ListOf};
ghost use Rattle.rx_lower_walks.specs.PlainFlow.{plain-Exit};
ghost use Rattle.rx_lower_walks.specs.Sums.{same, exit_way, moved, then_begins, turned, round};
ghost use Rattle.rx_lower_walks.specs.declared.sums.Way.TheVariants.{Ahead, Failing};
ghost use Rattle.rx_lower_walks.specs.declared.sums.Begin.TheVariants.{Starts, Through};

use crate::Exit;
use crate::numbers::add;
use crate::sums::{Begin, Way};
use rx_core::List;
use std::alloc::{AllocError, Global};

pub fn same(a: Way, b: Way) -> bool
    ensures { result ≡ same a b }
{
    match a {
        Way::Ahead => match b {
            Way::Ahead => true,
            _ => false,
        },
        Way::Breaking(l) => match b {
            Way::Breaking(m) => l == m,
            _ => false,
        },
        Way::Continuing(l) => match b {
            Way::Continuing(m) => l == m,
            _ => false,
        },
        Way::Returning => match b {
            Way::Returning => true,
            _ => false,
        },
        Way::Failing => match b {
            Way::Failing => true,
            _ => false,
        },
    }
}

pub fn exit_way(exit: Exit) -> Way
    ensures { result ≡ exit_way (plain-Exit exit) }
{
    match exit {
        Exit::Breaks(_, l) => Way::Breaking(l),
        Exit::Continues(_, l) => Way::Continuing(l),
        Exit::Returns(_) => Way::Returning,
    }
}

fn begin_moved(size: u64, begin: Begin) -> Begin
    ensures { (bs : ListOf Begin) → moved size (begin ∷ bs) ≡ result ∷ moved size bs }
{
    match begin {
        Begin::Starts(i) => Begin::Starts(add(size, i)),
        Begin::Through(way) => Begin::Through(way),
    }
}

/// The begins of a part that stands behind so many sites.
pub fn push_moved(all: &mut List<Begin>, size: u64, begins: &[Begin]) -> Result<(), AllocError>
    ensures { OnOk result (all.new ≡ all.old ++ moved size begins.now) }
{
    for begin in begins {
        all.push(begin_moved(size, *begin))?;
    }
    Ok(())
}

/// What one begin is, where another part, behind so many sites, comes where the first leads this way.
fn push_next(
    all: &mut List<Begin>,
    way: Way,
    begin: Begin,
    size: u64,
    behind: &[Begin],
) -> Result<(), AllocError>
    ensures { OnOk result ((bs : ListOf Begin) → all.old ++ then_begins way (begin ∷ bs) (moved size behind.now) ≡ all.new ++ then_begins way bs (moved size behind.now)) }
{
    match begin {
        Begin::Starts(_) => all.push(begin),
        Begin::Through(through) => {
            if same(through, way) {
                push_moved(all, size, behind)
            } else {
                all.push(begin)
            }
        }
    }
}

/// The begins of two parts, the second behind so many sites, where the first leads this way.
pub fn push_then(
    all: &mut List<Begin>,
    way: Way,
    begins: &[Begin],
    size: u64,
    behind: &[Begin],
) -> Result<(), AllocError>
    ensures { OnOk result (all.new ≡ all.old ++ then_begins way begins.now (moved size behind.now)) }
{
    for begin in begins {
        push_next(all, way, *begin, size, behind)?;
    }
    Ok(())
}

/// A way out of what follows, where a variable ends behind so many sites: no failed test leads out of it.
fn push_out(all: &mut List<Begin>, size: u64, way: Way) -> Result<(), AllocError>
    ensures { OnOk result ((bs : ListOf Begin) → all.old ++ then_begins Ahead (then_begins Failing (Through way ∷ bs) []) (Starts size ∷ [])
        ≡ all.new ++ then_begins Ahead (then_begins Failing bs []) (Starts size ∷ [])) }
{
    match way {
        Way::Ahead => all.push(Begin::Starts(size)),
        Way::Breaking(_) => all.push(Begin::Through(way)),
        Way::Continuing(_) => all.push(Begin::Through(way)),
        Way::Returning => all.push(Begin::Through(way)),
        Way::Failing => Ok(()),
    }
}

fn push_end(all: &mut List<Begin>, size: u64, begin: Begin) -> Result<(), AllocError>
    ensures { OnOk result ((bs : ListOf Begin) → all.old ++ then_begins Ahead (then_begins Failing (begin ∷ bs) []) (Starts size ∷ [])
        ≡ all.new ++ then_begins Ahead (then_begins Failing bs []) (Starts size ∷ [])) }
{
    match begin {
        Begin::Starts(_) => all.push(begin),
        Begin::Through(way) => push_out(all, size, way),
    }
}

/// The begins of what follows and the end of a variable, behind so many sites.
pub fn ended(alloc: Global, begins: &[Begin], size: u64) -> Result<List<Begin>, AllocError>
    ensures { IfOk result (λ it. it ≡ then_begins Ahead (then_begins Failing begins.now []) (Starts size ∷ [])) }
{
    let mut all = List::new(alloc);
    for begin in begins {
        push_end(&mut all, size, *begin)?;
    }
    Ok(all)
}

/// A way out of a pass, as one of the loop.
fn push_turned(all: &mut List<Begin>, number: u32, way: Way) -> Result<(), AllocError>
    ensures { OnOk result (all.new ≡ all.old ++ turned number way) }
{
    match way {
        Way::Ahead => Ok(()),
        Way::Breaking(l) => {
            if l == number {
                all.push(Begin::Through(Way::Ahead))
            } else {
                all.push(Begin::Through(way))
            }
        }
        Way::Continuing(l) => {
            if l == number {
                Ok(())
            } else {
                all.push(Begin::Through(way))
            }
        }
        Way::Returning => all.push(Begin::Through(way)),
        Way::Failing => Ok(()),
    }
}

fn push_around(all: &mut List<Begin>, number: u32, begin: Begin) -> Result<(), AllocError>
    ensures { OnOk result ((bs : ListOf Begin) → all.old ++ round number (begin ∷ bs) ≡ all.new ++ round number bs) }
{
    match begin {
        Begin::Starts(_) => all.push(begin),
        Begin::Through(way) => push_turned(all, number, way),
    }
}

/// The begins of a loop, by those of its passes.
pub fn rounded(alloc: Global, number: u32, begins: &[Begin]) -> Result<List<Begin>, AllocError>
    ensures { IfOk result (λ it. it ≡ round number begins.now) }
{
    let mut all = List::new(alloc);
    for begin in begins {
        push_around(&mut all, number, *begin)?;
    }
    Ok(all)
}
