//! Facts on the types of variables and nodes, and the demands that hold them.

use rx_core::{Kind, LetGo, List, Name, Span};

/// A rule of types that a node may break.
#[derive(Clone, Copy, Debug, PartialEq, Eq)]
pub enum Rule {
    Equal,
    KindOf,
    Count,
    Fields,
    NotPlace,
    NotFunction,
    CopyOf,
    Unused,
    MoveOut,
    Main,
    Unclear,
    Parts,
    Lifetimes,
    PatternOf,
}

/// What is broken where a demand is not met.
#[derive(Clone, Copy, Debug, PartialEq, Eq)]
pub enum Broken {
    Mismatch(Rule),
    /// What may not be assigned or borrowed mutably: a part of the variable of this number.
    Mutability(u32),
    /// A literal that does not fit its kind.
    Literal,
}

/// A set of integer types.
#[derive(Clone, Copy)]
pub struct Kinds {
    pub u8: bool,
    pub u32: bool,
    pub u64: bool,
    pub i32: bool,
    pub i64: bool,
}

/// What has a type.
#[derive(Clone, Copy)]
pub enum Subject {
    /// A variable, by its number in its function.
    Variable(u32),
    /// A node, by its number: nodes are numbered in the order of the text, a node before those below it.
    Node(usize),
    /// What the place of a node expects: a parameter, a field, a variable that is assigned.
    Expected(usize),
}

/// Dereferences that are gone through at a node: all references of its type, or the outermost alone.
#[derive(Clone, Copy)]
pub struct Passing {
    pub node: usize,
    pub all: bool,
}

/// A type made of others.
#[derive(Drop)]
pub enum Op {
    /// The one given.
    Same,
    /// What a reference leads to.
    Pointee,
    /// A reference to the one given; whether it is mutable.
    Referring(bool),
    /// The tuple of those given.
    Tuple,
    /// That of a field by its name, of a struct that may stand behind references.
    Field(Name),
    /// That of a part of a tuple, which may stand behind references, by its number from 0.
    Part(u64),
    /// An integer type.
    Integer(Kind),
    Truth,
    Unit,
    /// A struct or enum by its item's number.
    Item(u32),
    /// That of a parameter of a function, by the numbers of both.
    Parameter(u32, usize),
    /// The result of a function.
    Result(u32),
    /// That of a field of a struct, by its item's number and the field's name.
    FieldOf(u32, Name),
    /// That of a part of a variant: the numbers of the enum's item, the variant and the part.
    PartOf(u32, u32, usize),
    /// That of a binding: the one given, behind a reference where references were gone through.
    Bound,
    /// Of the own type of a value and the type that its place expects: the own type that a coercion asks.
    Coerced,
}

/// What can be told of types whose integer types aren't known.
#[derive(Drop)]
pub enum Test {
    /// An integer or a truth value.
    Plain,
    /// Behind references, if any: an integer, a truth value, a tuple of so many parts, this struct or enum.
    IntegerBehind,
    TruthBehind,
    TupleBehind(usize),
    ItemBehind(u32),
    /// A place may be moved or copied: its type is Copy, or it stands behind no reference.
    Kept,
    /// The same of a place whose type is taken out of the question where it is `&mut`, since it is reborrowed.
    KeptOrLent,
    /// A place may be written, or borrowed mutably: it stands behind no shared reference; where it stands behind
    /// none at all, whether its variable's own storage may be.
    Writable(bool),
    /// A place that is reborrowed, since it is `&mut` where `&mut` is expected, stands behind no shared reference.
    Lendable,
    /// No reference was gone through.
    Direct,
    /// A binding of this type that is by value moves nothing from behind a reference.
    BindingKept,
    /// A binding that is a mutable reference stands behind no shared reference.
    BindingWritable,
    /// The same two where the place that is matched is no place any more if it is `&mut`, since it is reborrowed.
    BindingKeptOrLent,
    BindingWritableOrLent,
    /// The limits on parts and levels.
    Limits,
    /// A function takes so many arguments.
    Takes(u32, usize),
    /// A variant of an enum's item has so many parts.
    Holds(u32, u32, usize),
    /// The fields of a struct's item are these, each once, in any order.
    HasFields(u32, List<Name>),
    /// A struct or enum has so many lifetimes.
    HasLifetimes(u32, usize),
    /// The result of a function is the unit.
    GivesUnit(u32),
}

/// A single fact.
#[derive(Drop)]
pub enum Fact {
    /// The first has the type that is made of the others, and of the dereferences gone through.
    Equals(Subject, Op, List<Subject>, List<Passing>),
    /// A node has one of these integer types.
    Integer(usize, Kinds),
    /// A node has, behind references if any, one of these integer types.
    IntegerBehind(usize, Kinds),
    /// The types pass the test; with the dereferences of a pattern, and those of a place.
    Passes(Test, List<Subject>, List<Passing>, List<Passing>),
    /// Never met.
    Never,
}

/// What one rule asks at one node.
#[derive(Drop)]
pub struct Demand {
    pub node: usize,
    pub span: Span,
    pub broken: Broken,
    /// Whether the node is a literal without a suffix, and this asks that it fits its kind.
    pub unsuffixed: bool,
    pub facts: List<Fact>,
}

impl LetGo for Subject {
    fn let_go(self) {}
}

impl LetGo for Passing {
    fn let_go(self) {}
}

impl LetGo for Fact {
    fn let_go(self) {
        let _gone = self;
    }
}

impl LetGo for Op {
    fn let_go(self) {
        let _gone = self;
    }
}

impl LetGo for Test {
    fn let_go(self) {
        let _gone = self;
    }
}

impl LetGo for Demand {
    fn let_go(self) {
        let _gone = self;
    }
}
