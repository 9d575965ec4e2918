//! A plan by names. In its types each lifetime has the number 0.

use rx_core::{Kind, LetGo, List, Name, Span, Ty};
use rx_modes_policy::Mode;

/// How a run is left: by its end, by a jump to a loop around it (0 the innermost), by a return.
#[derive(Clone, Copy, Debug, PartialEq, Eq)]
pub enum Exit {
    Next,
    Break(usize),
    Continue(usize),
    Return,
}

/// A variable that is declared outside the run, or by a direct statement of it.
#[derive(Drop)]
pub struct Variable {
    pub name: Name,
    /// Whether it is declared `mut`.
    pub mutable: bool,
    pub ty: Ty,
}

/// A variable that the new function is given.
#[derive(Drop)]
pub struct Param {
    pub variable: Variable,
    pub mode: Mode,
    /// Whether the run moves it or a part of its own storage.
    pub moved: bool,
}

/// An exit, and the variables that it hands out, in order.
#[derive(Drop)]
pub struct Leaving {
    pub exit: Exit,
    pub outs: List<Variable>,
}

/// A literal that gets this kind as its suffix, by its place in the text.
#[derive(Clone, Copy, Debug)]
pub struct KindPin {
    pub span: Span,
    pub kind: Kind,
}

/// A `let` that gets this type, by its pattern's place in the text.
#[derive(Drop)]
pub struct TypePin {
    pub span: Span,
    pub ty: Ty,
}

/// What is written out where some variable is loose.
#[derive(Drop)]
pub struct Pins {
    pub kinds: List<KindPin>,
    pub types: List<TypePin>,
}

/// What is decided of a run before its function is made.
#[derive(Drop)]
pub struct NamedPlan {
    /// Of the new function.
    pub name: Name,
    /// In order.
    pub exits: List<Leaving>,
    /// The type of the run's value, where it has one.
    pub value: Option<Ty>,
    /// Whether no value comes of the run's last statement.
    pub never: bool,
    /// The result of the function around the run.
    pub result: Ty,
    pub params: List<Param>,
    /// Declared in front of the run, and used for the first time in it.
    pub locals: List<Variable>,
    /// Declared by the run, and named behind it without their value.
    pub redeclared: List<Variable>,
    /// Where some variable is loose.
    pub pins: Option<Pins>,
    /// The identifiers of the text.
    pub identifiers: List<Name>,
    /// Its lifetimes and labels.
    pub lifetimes: List<Name>,
}

impl LetGo for Variable {
    fn let_go(self) {
        let _gone = self;
    }
}

impl LetGo for Param {
    fn let_go(self) {
        let _gone = self;
    }
}

impl LetGo for Leaving {
    fn let_go(self) {
        let _gone = self;
    }
}

impl LetGo for Pins {
    fn let_go(self) {
        let _gone = self;
    }
}

impl LetGo for NamedPlan {
    fn let_go(self) {
        let _gone = self;
    }
}
