//! The handful of types that are tried.

use rx_core::{Kind, Ty};

/// A type; what is inside it is told by its place among those that are tried.
#[derive(Clone, Copy, Debug, PartialEq, Eq)]
pub enum Shape {
    Int(Kind),
    Bool,
    Unit,
    Pair(usize, usize),
    /// Whether it is mutable, and what it points to.
    Reference(bool, usize),
}

/// The types that are tried: what is inside another stands before it.
const SHAPES: [Shape; 48] = [
    Shape::Int(Kind::U8),
    Shape::Int(Kind::U32),
    Shape::Int(Kind::U64),
    Shape::Int(Kind::I32),
    Shape::Int(Kind::I64),
    Shape::Bool,
    Shape::Unit,
    Shape::Pair(0, 0),
    Shape::Pair(0, 1),
    Shape::Pair(0, 2),
    Shape::Pair(0, 3),
    Shape::Pair(0, 4),
    Shape::Pair(1, 0),
    Shape::Pair(1, 1),
    Shape::Pair(1, 2),
    Shape::Pair(1, 3),
    Shape::Pair(1, 4),
    Shape::Pair(2, 0),
    Shape::Pair(2, 1),
    Shape::Pair(2, 2),
    Shape::Pair(2, 3),
    Shape::Pair(2, 4),
    Shape::Pair(3, 0),
    Shape::Pair(3, 1),
    Shape::Pair(3, 2),
    Shape::Pair(3, 3),
    Shape::Pair(3, 4),
    Shape::Pair(4, 0),
    Shape::Pair(4, 1),
    Shape::Pair(4, 2),
    Shape::Pair(4, 3),
    Shape::Pair(4, 4),
    Shape::Reference(false, 0),
    Shape::Reference(true, 0),
    Shape::Reference(false, 3),
    Shape::Reference(true, 3),
    Shape::Reference(false, 4),
    Shape::Reference(true, 4),
    Shape::Reference(false, 5),
    Shape::Reference(true, 5),
    Shape::Reference(false, 6),
    Shape::Reference(true, 6),
    Shape::Reference(false, 25),
    Shape::Reference(true, 25),
    Shape::Reference(false, 34),
    Shape::Reference(true, 34),
    Shape::Reference(false, 35),
    Shape::Reference(true, 35),
];

pub const COUNT: usize = SHAPES.len();

/// The type at a place; behind the last there is the unit.
pub fn shape_at(number: usize) -> Shape {
    match SHAPES.get(number) {
        Some(shape) => *shape,
        None => Shape::Unit,
    }
}

/// The place of a type, where it is tried.
pub fn number_of(wanted: Shape) -> Option<usize> {
    for number in 0..SHAPES.len() {
        if shape_at(number) == wanted {
            return Some(number);
        }
    }
    None
}

/// The place of a type of the code.
pub fn number_of_type(ty: &Ty) -> Option<usize> {
    match ty {
        Ty::Int(kind) => number_of(Shape::Int(*kind)),
        Ty::Bool => number_of(Shape::Bool),
        Ty::Tuple(parts) => match parts.as_slice() {
            [] => number_of(Shape::Unit),
            [one, two] => pair(number_of_type(one)?, number_of_type(two)?),
            _ => None,
        },
        Ty::Shared(_, inner) => reference(false, number_of_type(inner.get())?),
        Ty::Mut(_, inner) => reference(true, number_of_type(inner.get())?),
        Ty::Adt(_, _) => None,
    }
}

pub fn reference(mutable: bool, to: usize) -> Option<usize> {
    number_of(Shape::Reference(mutable, to))
}

pub fn pair(one: usize, two: usize) -> Option<usize> {
    number_of(Shape::Pair(one, two))
}

/// What stands under all references: those that are tried are at most two deep.
pub fn peeled(number: usize) -> usize {
    let mut at = number;
    for _level in 0..3 {
        at = match shape_at(at) {
            Shape::Reference(_, to) => to,
            _ => at,
        };
    }
    at
}

/// Whether a type is Copy.
pub fn copies(number: usize) -> bool {
    match shape_at(number) {
        Shape::Reference(mutable, _) => !mutable,
        _ => true,
    }
}
