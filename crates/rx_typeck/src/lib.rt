//! The types of a program.
#![tactic(auto)]

mod check;

pub use check::typecheck;
pub use rx_typeck_typed::{
    Coercion, TypeFault, Typed, TypedFn, one_typed_program, typed_declarations_are_finite,
    typed_or_wrong,
};
