//! Laws, each the contract of a function that does nothing.

ghost use Rattle.std.specs.Prelude.{◌≡◌, ℕ, ◌<◌, List, length, map, Option, Some, slice_get};
ghost use Rattle.rx_core.specs.declared.types.Span.{Span};
ghost use Rattle.rx_tree.specs.Plain.{Function, function_item};
ghost use Rattle.rx_tree.specs.Positions.{NodeTree, an_item, descend};
ghost use Rattle.rx_tree.specs.Spans.{node_span};
ghost use Rattle.rx_resolve_names.specs.declared.resolved.NodeNames.{NodeNames};
ghost use Rattle.rx_typed.specs.Naming.{function_named, function_spans};
ghost use Rattle.rx_hoist_nodes.specs.Nodes.{within, in_front};
ghost use Rattle.rx_hoist_numbers.specs.NumberedNodes as numbered;
ghost use Rattle.rx_hoist_numbers.specs.NumberedNodes.{the_item};
ghost use Rattle.rx_hoist_numbers.specs.Counting.{AreNode, WayTo};

/// Node n of a function is the n-th node of its item, in the order of the text: so a number and a position tell each other.
pub fn numbers_are_positions()
    // each way leads, in the tree with numbers and in the text, to one node, whose number is how many stand in front of it
    ensures numbers { (i : ℕ) (s : Span) (f : Function) (ns : List NodeNames) (way : List ℕ)
        → AreNode (descend (Some (an_item (function_item s f))) way) (numbered.descend (Some (the_item (function_named i s f ns))) way)
        (length (in_front (Some (an_item (function_item s f))) way)) }
    // the spans of its nodes, by their numbers, are those of the text in order
    ensures spans { (s : Span) (f : Function) (ns : List NodeNames) → function_spans s f ns ≡ map node_span (within (an_item (function_item s f))) }
    // in any part of the text, so many stand in front of the node of that number
    ensures listed { (n : NodeTree) (way : List ℕ) (m : NodeTree) → descend (Some n) way ≡ Some m → slice_get (within n) (length (in_front (Some n) way)) ≡ Some m }
    // each number has a position
    ensures found { (n : NodeTree) (k : ℕ) → k < length (within n) → WayTo n k }
    // and one
    ensures one { (n : NodeTree) (way other : List ℕ) (a b : NodeTree) → descend (Some n) way ≡ Some a → descend (Some n) other ≡ Some b
        → length (in_front (Some n) way) ≡ length (in_front (Some n) other) → way ≡ other }
{}
