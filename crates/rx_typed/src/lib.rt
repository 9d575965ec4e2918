//! Types, declarations, typed trees, the types of places, and the signatures of calls.
#![tactic(auto)]

mod copying;
mod declarations;
mod held;
mod laws;
mod nodes;
mod numbers;
mod places;
mod renaming;
mod tree;
mod typed_held;

pub use copying::is_copy;
pub use declarations::{Decl, Decls, FieldDecl, Polarity, VariantDecl};
pub use laws::numbers_stand_in_order;
pub use nodes::{Declaration, Node, Site, Stage, Use};
pub use numbers::{count, numbered, reference};
pub use places::place_type;
pub use renaming::{Arguments, Signature, call_signature, renamed};
pub use tree::{
    Arm, Constant, Expr, Form, Making, Mark, Matched, Mode, Operand, Param, Pattern, Stmt,
    Subpattern, TypedTree,
};
