//! What is other in a copy of a tree.

ghost use Rattle.std.specs.Prelude.{◌≡◌};
ghost use Rattle.rx_typed.specs.Tree.{Body};
ghost use Rattle.rx_exits_tree.specs.Changing.{changes_of, body_of};

use rx_exits_plan::Run;

/// What becomes of blocks, jumps and operands of `return`.
#[derive(Clone, Copy)]
pub(crate) enum Change<'a> {
    /// They stay as they are.
    Keep,
    /// Inside the run: there are marks at jumps out of these loops and behind operands of `return`.
    Mark(&'a [u32]),
    /// The run's block has marks, by the loops around the run and the variables that are used where it is entered.
    MarkAt(Run, &'a [u32], &'a [u32]),
    /// The run's block is without the run.
    CutAt(Run),
}

/// What becomes of a block.
#[derive(Clone, Copy)]
pub(crate) enum AtBlock<'a> {
    /// Its statements and its tail are changed.
    Inside,
    /// It is the run's, and has marks.
    Marked(Run, &'a [u32], &'a [u32]),
    /// It is the run's, and is without the run.
    Cut(Run),
}

/// What becomes of the block of this node.
pub(crate) fn at_block<'a>(change: Change<'a>, node: usize) -> AtBlock<'a>
    ensures { (was b : Body) → (changes_of change.entry).at_block node was b ≡ body_of result was b }
{
    match change {
        Change::Keep => AtBlock::Inside,
        Change::Mark(_) => AtBlock::Inside,
        Change::MarkAt(run, loops, used) => {
            if node == run.block {
                AtBlock::Marked(run, loops, used)
            } else {
                AtBlock::Inside
            }
        }
        Change::CutAt(run) => {
            if node == run.block {
                AtBlock::Cut(run)
            } else {
                AtBlock::Inside
            }
        }
    }
}
