//! The variables in scope at a place of a tree, and the loops around it.

ghost use Rattle.std.specs.Prelude.{◌≡◌, ◌++◌, IfOk, OnOk, List, take, map, reverse};
ghost use Rattle.rx_typed.specs.PlainTree.{plain-Param};
ghost use Rattle.rx_exits_plan.specs.Bound.{variables_of_params};

use rx_core::{LetGo, List};
use rx_typed::Param;
use std::alloc::{AllocError, Global};
use std::mem;

/// Variables in the order of their declaration, and loops from the outermost to the innermost.
#[derive(Drop)]
pub struct Around {
    pub scope: List<u32>,
    pub loops: List<u32>,
}

impl LetGo for Around {
    fn let_go(self) {
        self.scope.let_go();
        self.loops.let_go();
    }
}

/// The list backwards.
pub fn reversed(alloc: Global, items: &[u32]) -> Result<List<u32>, AllocError>
    ensures { IfOk result (λ it. it ≡ reverse items.now) }
{
    let mut backwards = Vec::from_slice(alloc, items)?;
    backwards.as_mut_slice().reverse();
    Ok(List::from_vec(backwards))
}

/// Drops all items but the first few.
pub fn cut(alloc: Global, items: &mut List<u32>, kept: usize)
    ensures { items.new ≡ take kept items.old }
{
    let mut all = mem::replace(items, List::new(alloc)).into_vec();
    all.truncate(kept);
    *items = List::from_vec(all);
}

/// Adds items at the end.
pub fn push_all(items: &mut List<u32>, more: &[u32]) -> Result<(), AllocError>
    ensures { OnOk result (items.new ≡ items.old ++ more.now) }
{
    for item in more {
        items.push(*item)?;
    }
    Ok(())
}

/// Adds the variables of parameters.
pub fn push_params(variables: &mut List<u32>, params: &[Param]) -> Result<(), AllocError>
    ensures { OnOk result (variables.new ≡ variables.old ++ variables_of_params (map plain-Param params.now)) }
{
    for param in params {
        variables.push(param.variable)?;
    }
    Ok(())
}
