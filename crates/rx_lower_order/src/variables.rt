//! Variables that are declared without a pattern, and parameters.

ghost use Rattle.std.specs.Prelude.{◌≡◌, ◌++◌, ◌∷◌, [], IfOk, OnOk, map};
ghost use Rattle.rx_typed.specs.PlainTree.{plain-Param};
ghost use Rattle.rx_lower_walks.specs.PlainFlow.{plain-Item};
ghost use Rattle.rx_lower_order.specs.Items.{declaring_items, parameter_items};

use crate::pushing::{push_act, push_end};
use crate::subject::own;
use rx_core::{List, keep};
use rx_lower_walks::{Act, Item, Temporary};
use rx_typed::Param;
use std::alloc::{AllocError, Global};

/// Adds that a variable is declared at a node, and ends at another.
#[tactic(auto, using(crate::proofs::Listed::part_rules))]
fn push_declared(
    items: &mut List<Item>,
    node: usize,
    end: usize,
    variable: u32,
) -> Result<(), AllocError>
    ensures { OnOk result (map plain-Item items.new ≡ map plain-Item items.old ++ declaring_items node (variable ∷ []) end) }
{
    push_act(items, node, Act::Declare(variable))?;
    push_end(items, end, variable)
}

fn push_all_declared(
    items: &mut List<Item>,
    node: usize,
    end: usize,
    variables: &[u32],
) -> Result<(), AllocError>
    ensures { OnOk result (map plain-Item items.new ≡ map plain-Item items.old ++ declaring_items node variables.now end) }
{
    for variable in variables {
        push_declared(items, node, end, *variable)?;
    }
    Ok(())
}

/// The items, and the variables that are declared at a node, and end at another.
pub fn declared(
    items: List<Item>,
    node: usize,
    end: usize,
    variables: &[u32],
) -> Result<List<Item>, AllocError>
    ensures { IfOk result (λ it. map plain-Item it ≡ map plain-Item items ++ declaring_items node variables.now end) }
{
    let mut items = items;
    let outcome = push_all_declared(&mut items, node, end, variables);
    let ((), items) = keep(items, outcome)?;
    Ok(items)
}

/// Adds a parameter, which ends at a node.
#[tactic(auto, using(crate::proofs::Listed::part_rules))]
fn push_parameter(
    alloc: Global,
    items: &mut List<Item>,
    end: usize,
    parameter: Param,
) -> Result<(), AllocError>
    ensures { OnOk result (map plain-Item items.new ≡ map plain-Item items.old ++ parameter_items (plain-Param parameter ∷ []) end) }
{
    let variable = own(alloc, parameter.variable);
    let from = Temporary {
        node: parameter.node,
        which: 0,
    };
    push_act(items, parameter.node, Act::Declare(parameter.variable))?;
    push_act(
        items,
        parameter.node,
        Act::Write(variable, from, List::new(alloc)),
    )?;
    push_end(items, end, parameter.variable)
}

fn push_parameters(
    alloc: Global,
    items: &mut List<Item>,
    end: usize,
    parameters: &[Param],
) -> Result<(), AllocError>
    ensures { OnOk result (map plain-Item items.new ≡ map plain-Item items.old ++ parameter_items (map plain-Param parameters.now) end) }
{
    for parameter in parameters {
        push_parameter(alloc, items, end, *parameter)?;
    }
    Ok(())
}

/// The parameters of a function, which end at a node.
pub fn parameters(alloc: Global, end: usize, parameters: &[Param]) -> Result<List<Item>, AllocError>
    ensures { IfOk result (λ it. map plain-Item it ≡ parameter_items (map plain-Param parameters.now) end) }
{
    let mut items = List::new(alloc);
    let outcome = push_parameters(alloc, &mut items, end, parameters);
    let ((), items) = keep(items, outcome)?;
    Ok(items)
}
