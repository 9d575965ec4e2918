//! What a program declares, the rules of types, and programs with their types.
#![tactic(auto)]

mod copying;
mod declare_laws;
mod declare_lets;
mod declare_types;
mod fault;
mod functions;
mod items;
mod laws;
mod lets;
mod limits;
mod marks;
mod patterns;
mod program;
mod reader;
mod readers;
mod rules_laws;
mod typed;
mod typed_laws;
mod types;
mod variables;

pub use declare_laws::{declared_are_finite, declared_are_well_formed, declared_variants_are_few};
pub use declare_lets::let_type;
pub use fault::DeclareFault;
pub use laws::{
    all_have_types, signatures_are_well_formed, sizes_are_sized, typed_sizes_are_sized,
    well_typed_or_wrong,
};
pub use lets::annotated;
pub use program::declare;
pub use rules_laws::demands_are_orderly;
pub use rx_typeck_elaborate_parts::Coercion;
pub use typed::{TypeFault, Typed, TypedFn};
pub use typed_laws::{one_typed_program, typed_declarations_are_finite, typed_or_wrong};
pub use variables::AnnotatedVariable;
