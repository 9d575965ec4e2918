//! The names of the variables of a function.

ghost use Rattle.std.specs.Prelude.{◌≡◌, ◌++◌, ◌∷◌, [], map, slice_get, IfOk};
ghost use Rattle.rx_tree.specs.PlainOf.{plain-Program};
ghost use Rattle.rx_hoist_naming.specs.DeclaredNames as spec;

use rx_core::{List, Name, keep, pushed};
use rx_hoist_finding::item_nodes;
use rx_hoist_naming::declared_names;
use rx_tree::Program;
use std::alloc::{AllocError, Global};

/// These names, and a copy of one more.
fn with_name(alloc: Global, names: List<Name>, name: &Name) -> Result<List<Name>, AllocError>
    ensures { IfOk result (λ all. all ≡ names ++ name.now ∷ []) }
{
    let (name, names) = keep(names, name.copy(alloc))?;
    pushed(names, name)
}

/// Copies of names.
fn copied(alloc: Global, names: &[&Name]) -> Result<List<Name>, AllocError>
    ensures { IfOk result (λ all. all ≡ map (λ x. x.now) names.now) }
{
    let mut all = List::new(alloc);
    for name in names {
        all = with_name(alloc, all, *name)?;
    }
    Ok(all)
}

/// The names that the function of an item declares, by the numbers of its variables: those of its parameters, then those that its
/// patterns bind, in the order of the text.
pub(crate) fn names_of(
    alloc: Global,
    program: &Program,
    item: u32,
) -> Result<List<Name>, AllocError>
    ensures { IfOk result (λ names. names ≡ spec.declared_names (slice_get (plain-Program program.now) item)) }
{
    let nodes = item_nodes(alloc, program, item as usize)?;
    let names = declared_names(alloc, program, item as usize, nodes.as_slice())?;
    copied(alloc, names.as_slice())
}
