//! Numbers, each once.

ghost use Rattle.std.specs.Prelude.{◌≡◌, [], IfOk};
ghost use Rattle.rx_lower_walks.specs.Pieces.{distinct};
ghost use Rattle.rx_lower_walks.specs.Sums.{has, joined, without};

use rx_core::List;
use std::alloc::{AllocError, Global};

pub fn has(number: u32, among: &[u32]) -> bool
    ensures { result ≡ has number among.now }
{
    for one in among {
        if number == *one {
            return true;
        }
    }
    false
}

/// The first list, with those of the second that it does not have.
pub fn join(first: List<u32>, second: &[u32]) -> Result<List<u32>, AllocError>
    ensures { IfOk result (λ it. it ≡ joined first second.now) }
{
    let mut all = first;
    for one in second {
        if !has(*one, all.as_slice()) {
            all.push(*one)?;
        }
    }
    Ok(all)
}

pub fn without(alloc: Global, number: u32, among: &[u32]) -> Result<List<u32>, AllocError>
    ensures { IfOk result (λ it. it ≡ without number among.now) }
{
    let mut kept = List::new(alloc);
    for one in among {
        if *one != number {
            kept.push(*one)?;
        }
    }
    Ok(kept)
}

/// Each number once, where it comes first.
#[tactic(auto, using(crate::proofs::Lists::joined_distinct))]
pub fn distinct(alloc: Global, numbers: &[u32]) -> Result<List<u32>, AllocError>
    ensures { IfOk result (λ it. it ≡ distinct numbers.now) }
{
    join(List::new(alloc), numbers)
}
