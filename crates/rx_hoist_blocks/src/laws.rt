//! Laws, each the contract of a function that does nothing.

ghost use Rattle.std.specs.Prelude.{◌≡◌, ℕ, List, length};
ghost use Rattle.rx_core.specs.declared.types.Span.{Span};
ghost use Rattle.rx_tree.specs.Plain.{Body, Function, function_item};
ghost use Rattle.rx_tree.specs.Positions.{an_item, a_block, descend};
ghost use Rattle.rx_resolve_names.specs.declared.resolved.NodeNames.{NodeNames};
ghost use Rattle.rx_typed.specs.Naming.{function_named};
ghost use Rattle.rx_typed.specs.Elaborated.{Assigned, elaborated};
ghost use Rattle.rx_typeck_solver.specs.Facts.{Assignment, KnownItems, MeetsEach};
ghost use Rattle.rx_typeck_typed.specs.Demands.{demands};
ghost use Rattle.rx_hoist_nodes.specs.Nodes.{in_front};
ghost use Rattle.rx_hoist_blocks.specs.TypedBlocks.{TypedBlock};

/// Where what the rules of types ask of a function is met, each block of the text that the way from its item leads to is one of
/// its typed tree: its number is that of the nodes in front of it, and it has as many statements.
pub fn blocks_are_in_typed_trees()
    ensures { (K : KnownItems) (A : Assignment) (T : Assigned) (i : ℕ) (s : Span) (f : Function) (ns : List NodeNames) → MeetsEach K A (demands (function_named i s f ns))
        → (path : List ℕ) (b : Body) → descend (Some (an_item (function_item s f))) path ≡ Some (a_block b)
        → TypedBlock (elaborated T (function_named i s f ns)) (length (in_front (Some (an_item (function_item s f))) path)) b }
{}
