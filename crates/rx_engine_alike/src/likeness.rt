//! What a walk over two trees finds.

ghost use Rattle.std.specs.Prelude.{◌≡◌, IfOk};
ghost use Rattle.rx_engine_alike.specs.Likeness as likeness;
ghost use Rattle.rx_engine_alike.specs.PlainSights.{plain-Renaming};
ghost use Rattle.rx_engine_alike.specs.PlainJumping.{plain-Loops};
ghost use Rattle.rx_engine_alike.specs.PlainParts.{plain-Part};
ghost use Rattle.rx_engine_alike.specs.PlainLikeness.{plain-Hole, plain-Likeness};

use crate::jumping::LoopPair;
use crate::parts::Part;
use crate::sights::Seen;
use rx_core::{LetGo, List, keep};
use std::alloc::{AllocError, Global};

/// The open block of the text, and the answer's, with the loops around it and the variables there.
#[derive(Drop)]
pub struct Hole<'t> {
    pub loops: List<LoopPair>,
    pub inside: List<Seen>,
    pub text: Part<'t>,
    pub answer: Part<'t>,
}

#[derive(Drop)]
pub enum Likeness<'t> {
    Unlike,
    Alike,
    /// Alike but for one block.
    But(Hole<'t>),
}

impl<'t> LetGo for Hole<'t> {
    fn let_go(self) {
        self.loops.let_go();
        self.inside.let_go();
    }
}

impl<'t> LetGo for Likeness<'t> {
    fn let_go(self) {
        match self {
            Likeness::Unlike | Likeness::Alike => (),
            Likeness::But(hole) => hole.let_go(),
        }
    }
}

/// Alike where this is so.
pub fn where_so<'t>(so: bool) -> Likeness<'t>
    ensures { plain-Likeness result ≡ likeness.provided so likeness.alike }
{
    if so {
        Likeness::Alike
    } else {
        Likeness::Unlike
    }
}

/// Of what is alike but for a block, and something else.
fn but_both<'t>(hole: Hole<'t>, other: Likeness<'t>) -> Likeness<'t>
    ensures { plain-Likeness result ≡ likeness.both (likeness.alike_but (plain-Hole hole.entry)) (plain-Likeness other.entry) }
{
    match other {
        Likeness::Alike => Likeness::But(hole),
        Likeness::Unlike => {
            hole.let_go();
            Likeness::Unlike
        }
        Likeness::But(second) => {
            hole.let_go();
            second.let_go();
            Likeness::Unlike
        }
    }
}

/// Of two parts.
pub fn both<'t>(first: Likeness<'t>, second: Likeness<'t>) -> Likeness<'t>
    ensures { plain-Likeness result ≡ likeness.both (plain-Likeness first.entry) (plain-Likeness second.entry) }
{
    match first {
        Likeness::Unlike => {
            second.let_go();
            Likeness::Unlike
        }
        Likeness::Alike => second,
        Likeness::But(hole) => but_both(hole, second),
    }
}

/// What was found, where this is so.
pub fn provided<'t>(so: bool, found: Likeness<'t>) -> Likeness<'t>
    ensures { plain-Likeness result ≡ likeness.both (plain-Likeness found.entry) (likeness.provided so likeness.alike) }
{
    both(found, where_so(so))
}

/// Whether all is alike, with no block left open.
pub fn is_alike(found: &Likeness<'_>) -> bool
    ensures { result ≡ likeness.is_alike (plain-Likeness found.now) }
{
    match found {
        Likeness::Alike => true,
        Likeness::Unlike | Likeness::But(_) => false,
    }
}

/// Alike but for this block, with copies of what is around it.
pub fn but_open<'t>(
    alloc: Global,
    loops: &[LoopPair],
    renaming: &[Seen],
    text: Part<'t>,
    answer: Part<'t>,
) -> Result<Likeness<'t>, AllocError>
    ensures { IfOk result (λ it. plain-Likeness it
        ≡ likeness.alike_but (record { loops = plain-Loops loops.now; inside = plain-Renaming renaming.now; text = plain-Part text.entry; answer = plain-Part answer.entry })) }
{
    let loops = List::from_slice(alloc, loops)?;
    let (inside, loops) = keep(loops, List::from_slice(alloc, renaming))?;
    Ok(Likeness::But(Hole {
        loops,
        inside,
        text,
        answer,
    }))
}
