//! What names mean, as tables of numbers, and what is wrong with the names of a program.

use rx_core::{LetGo, List, Position, Span};

/// What the names of a program mean.
#[derive(Drop)]
pub struct Resolved {
    /// By item number, from 0 in the order of the text.
    pub items: List<ItemNames>,
}

/// What an item declares, and what the names in it mean. Each list is in the order of the text, which is that of
/// the numbers, from 0.
#[derive(Drop)]
pub struct ItemNames {
    /// The names of the variables that it declares: parameters, then those of its body.
    pub vars: List<Span>,
    /// The names of the lifetimes that it declares.
    pub lifetimes: List<Span>,
    /// Its loops.
    pub loops: List<Position>,
    /// An entry for each node that names or declares a variable, or that names an item, a variant, a declared
    /// lifetime or a loop.
    pub names: List<NodeNames>,
}

/// The numbers of what a node names or declares, in the order of the text. A `break` or `continue` has that of its
/// loop, a path to a variant that of the enum, then that of the variant.
#[derive(Drop)]
pub struct NodeNames {
    pub node: Position,
    pub numbers: List<u32>,
    /// Whether the node is a call whose callee names a variable in scope: then `numbers` has the variable's.
    pub hidden: bool,
}

/// What is wrong with a name, a label or a jump.
#[derive(Clone, Copy, Debug, PartialEq, Eq)]
pub enum Misnamed {
    Unknown { at: Span },
    Twice { first: Span, second: Span },
    Label { at: Span },
    OutOfMemory,
}

/// What is wrong with the names of a program.
#[derive(Clone, Copy, Debug, PartialEq, Eq)]
pub enum NameFault {
    /// A name without a binding of the kind that is wanted there.
    Unknown { at: Span },
    /// A declaration of a name, and a later one in the same list.
    Twice { first: Span, second: Span },
    /// A label that names no loop round it; or a `break` or `continue` without any loop round it, or one that leaves
    /// the test of a `while` or `while let`.
    Label { at: Span },
    /// The name of a struct or enum that reaches itself through the types of its fields or parts.
    SelfHolding { at: Span },
    OutOfMemory,
}

impl LetGo for NodeNames {
    fn let_go(self) {
        let _gone = self;
    }
}

impl LetGo for ItemNames {
    fn let_go(self) {
        let _gone = self;
    }
}
