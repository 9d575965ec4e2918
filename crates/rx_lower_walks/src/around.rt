//! Where a walk over a flow stands: the variables that have not ended, and the loops around it.

ghost use Rattle.std.specs.Prelude.{◌≡◌, [], ◌∷◌, ◌++◌, ◌-◌, drop, length, reverse, IfOk, OnOk, ℕ, List as ListOf};
ghost use Rattle.rx_lower_walks.specs.PlainFlow.{plain-Exit};
ghost use Rattle.rx_lower_walks.specs.Around.{with_variable, with_loop, nothing_around, depth_in, after_in, head_in, depth, ended};

use crate::Exit;
use rx_core::{LetGo, List};
use std::alloc::{AllocError, Global};

/// A loop around a part.
#[derive(Drop)]
pub struct Loop {
    pub number: u32,
    /// How many variables stand outside it.
    pub depth: usize,
    /// The sites behind it, and those that a pass begins with.
    pub after: List<u32>,
    pub head: List<u32>,
}

/// What is around a part: variables in the order of their declarations, and loops, the innermost last.
#[derive(Drop)]
pub struct Around {
    pub variables: List<u32>,
    pub loops: List<Loop>,
}

impl LetGo for Loop {
    fn let_go(self) {
        self.after.let_go();
        self.head.let_go();
    }
}

fn depth_in(number: u32, loops: &[Loop]) -> usize
    ensures { result ≡ depth_in 0 number loops.now }
{
    let mut found = 0;
    for one in loops {
        if number == one.number {
            found = one.depth;
        }
    }
    found
}

/// What follows the last loop with this number.
pub fn after_in(alloc: Global, number: u32, loops: &[Loop]) -> Result<List<u32>, AllocError>
    ensures { IfOk result (λ it. it ≡ after_in [] number loops.now) }
{
    let mut found = List::new(alloc);
    for one in loops {
        if number == one.number {
            found = List::from_slice(alloc, one.after.as_slice())?;
        }
    }
    Ok(found)
}

/// What its passes begin with.
pub fn head_in(alloc: Global, number: u32, loops: &[Loop]) -> Result<List<u32>, AllocError>
    ensures { IfOk result (λ it. it ≡ head_in [] number loops.now) }
{
    let mut found = List::new(alloc);
    for one in loops {
        if number == one.number {
            found = List::from_slice(alloc, one.head.as_slice())?;
        }
    }
    Ok(found)
}

/// The variables from this one on, the last first.
fn last_first(alloc: Global, variables: &[u32], from: usize) -> Result<List<u32>, AllocError>
    ensures { IfOk result (λ it. it ≡ reverse (drop from variables.now)) }
{
    if from > variables.len() {
        return Ok(List::new(alloc));
    }
    let mut all = Vec::from_slice(alloc, &variables[from..])?;
    all.reverse();
    Ok(List::from_vec(all))
}

impl Around {
    pub fn nothing(alloc: Global) -> Around
        ensures { result ≡ nothing_around }
    {
        Around {
            variables: List::new(alloc),
            loops: List::new(alloc),
        }
    }

    /// A variable is declared.
    pub fn open(&mut self, variable: u32) -> Result<(), AllocError>
        ensures { OnOk result (self.new ≡ with_variable variable self.old) }
    {
        self.variables.push(variable)
    }

    /// The last variable ends.
    pub fn close(&mut self)
        ensures { (x : ℕ) (A : Around) → self.old ≡ with_variable x A → self.new ≡ A }
    {
        let _ended = self.variables.pop();
    }

    /// A loop begins: what follows it, and what its passes begin with.
    pub fn enter(
        &mut self,
        number: u32,
        after: List<u32>,
        head: List<u32>,
    ) -> Result<(), AllocError>
        ensures { OnOk result (self.new ≡ with_loop number after head self.old) }
    {
        let depth = self.variables.len();
        self.loops.push(Loop {
            number,
            depth,
            after,
            head,
        })
    }

    /// The last loop ends.
    pub fn leave(&mut self)
        ensures { (l : ℕ) (after head : ListOf ℕ) (A : Around) → self.old ≡ with_loop l after head A → self.new ≡ A }
    {
        match self.loops.pop() {
            Some(ended) => ended.let_go(),
            None => (),
        }
    }

    /// How many variables a jump leaves as they are.
    fn depth(&self, exit: Exit) -> usize
        ensures { result ≡ depth (plain-Exit exit) self.now.loops }
    {
        match exit {
            Exit::Breaks(_, l) => depth_in(l, self.loops.as_slice()),
            Exit::Continues(_, l) => depth_in(l, self.loops.as_slice()),
            Exit::Returns(_) => 0,
        }
    }

    /// How many variables a jump ends.
    pub fn count(&self, exit: Exit) -> usize
        ensures { result ≡ length self.now.variables - depth (plain-Exit exit) self.now.loops }
    {
        self.variables.len().saturating_sub(self.depth(exit))
    }

    /// The variables that a jump ends, last declared first.
    pub fn ended(&self, alloc: Global, exit: Exit) -> Result<List<u32>, AllocError>
        ensures { IfOk result (λ it. it ≡ ended (plain-Exit exit) self.now) }
    {
        last_first(alloc, self.variables.as_slice(), self.depth(exit))
    }
}
