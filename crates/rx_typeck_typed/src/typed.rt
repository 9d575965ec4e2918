//! A program whose types are known, and what is wrong with the types of one.

use crate::AnnotatedVariable;
use rx_core::{LetGo, List, Span, Ty};
use rx_typeck_elaborate_parts::NodeTypes;
use rx_typeck_solver::Rule;
use rx_typed::{Decls, TypedTree};

/// A program with its types.
#[derive(Drop)]
pub struct Typed {
    /// In the order of the text.
    pub functions: List<TypedFn>,
    /// What is declared, by item numbers.
    pub decls: Decls,
}

/// A function with its types. In them each lifetime has the number 0, but in those that are written.
#[derive(Drop)]
pub struct TypedFn {
    /// The number of the function's item.
    pub item: u32,
    /// Where the names of the variables are declared, by the variables' numbers.
    pub names: List<Span>,
    /// Whether each variable is declared `mut`, by their numbers.
    pub mutable: List<bool>,
    /// The types of the variables, by their numbers.
    pub variables: List<Option<Ty>>,
    /// The variables that `let`s with a type bind, in the order of the text, with their types as written: in these a
    /// lifetime is meant by its number in the function, and one that is left out has the number of the function's lifetimes.
    pub annotations: List<AnnotatedVariable>,
    /// Where the nodes stand, by their numbers: those of the text from the item on, which is 0.
    pub spans: List<Span>,
    /// The types of the nodes, and those that the places of nodes expect, by the nodes' numbers. A node that is Never
    /// has none.
    pub types: NodeTypes,
    /// The tree in which places, coercions, kinds, binding modes and loops are written out.
    pub tree: TypedTree,
}

/// What is wrong with the types of a program.
#[derive(Clone, Copy, Debug, PartialEq, Eq)]
pub enum TypeFault {
    /// A node that breaks a rule.
    Mismatch { at: Span, rule: Rule },
    /// An assignment to a part, or a mutable borrow, of what may not change: of a variable that isn't declared `mut`, or
    /// behind a shared reference; and the variable's declared name.
    Mutability { at: Span, var: Span },
    /// A literal that does not fit its type.
    Literal { at: Span },
    /// A type that leaves out a lifetime which nothing tells.
    Elision { at: Span },
    OutOfMemory,
}

impl LetGo for TypedFn {
    fn let_go(self) {
        let _gone = self;
    }
}
