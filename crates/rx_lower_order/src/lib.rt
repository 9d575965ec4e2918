//! The order of a function's actions, as a flow.
#![tactic(auto)]

mod bindings;
mod expressions;
mod forms;
mod function;
mod operands;
mod order_parts_forms;
mod pushing;
mod statements;
mod subject;
mod tests;
mod variables;

pub use bindings::bound;
pub use function::flow_of;
pub use operands::{node_of, subject_of, temporary_of};
pub use order_parts_forms::{
    assigned, borrow, built, called, given, jump, lazily, looped, read, shared, updated,
};
pub use pushing::{acts, sequence, then_flow, then_try, with_act};
pub use subject::Subject;
pub use tests::tested;
pub use variables::{declared, parameters};
