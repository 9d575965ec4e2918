//! Laws, each the contract of a function that does nothing.

ghost use Rattle.std.specs.Prelude.{◌≡◌, List, Some, slice_get};
ghost use Rattle.rx_core.specs.declared.types.Span.{Span};
ghost use Rattle.rx_tree.specs.Plain.{Function, ProgramTree, function_item};
ghost use Rattle.rx_tree.specs.Size.{IsNumbered};
ghost use Rattle.rx_resolve_names.specs.declared.resolved.ItemNames.{ItemNames};
ghost use Rattle.rx_resolve_names.specs.Causes.{Meant};
ghost use Rattle.rx_typeck_typed.specs.declared.typed.Typed.{Typed};
ghost use Rattle.rx_typeck_typed.specs.declared.typed.TypedFn.{TypedFn};
ghost use Rattle.rx_typeck_typed.specs.Typing.{IsTyped};
ghost use Rattle.rx_lower_walks.specs.Walks.{Among};
ghost use Rattle.rx_hoist_meant.specs.Scoped.{BlockScoped};

use rx_typeck_typed::{signatures_are_well_formed, sizes_are_sized};

/// In each function of a typed program whose names have a meaning, each block of the text is one of the typed tree, by its number: it
/// is elaborated from the block's tree with numbers, which resolves in a scope whose names mean just the variables that the typed tree
/// has in scope there, and with the loops round it there. No other block of the typed tree has its number.
pub fn blocks_stand_in_scope()
    ensures { (p : ProgramTree) (names : List ItemNames) (t : Typed) → IsNumbered p → Meant p names → IsTyped p names t → (g : TypedFn) → Among g t.functions
        → (s : Span) (f : Function) → slice_get p g.item ≡ Some (function_item s f) → BlockScoped p g s f }
{
    signatures_are_well_formed();
    sizes_are_sized();
}
