//! What is known of a typed function's variables and nodes, by their numbers.

ghost use Rattle.std.specs.Prelude.{◌≡◌, true, false, get_or, slice_get};
ghost use Rattle.std.specs.Option.{option_copied};
ghost use Rattle.rx_typed.specs.Types.{Typ, reference};
ghost use Rattle.rx_typed.specs.PlainTypes.{plain-Ty};
ghost use Rattle.rx_typed.specs.Elaborated as elaborated;
ghost use Rattle.rx_typeck_solver.specs.declared.facts.Subject.TheVariants as subject;
ghost use Rattle.rx_typeck_elaborate_parts.specs.Assigning.{joined, shape_of};
ghost use Rattle.rx_typeck_elaborate_parts.specs.Coercing.{plain-Coercion};
ghost use Rattle.rx_typeck_typed.specs.Typing as typing;

use crate::typed::TypedFn;
use rx_core::{List, Span, Ty};
use rx_typeck_elaborate_parts::Coercion;

/// The type of this number, where there is one.
fn type_in(types: &List<Option<Ty>>, number: usize) -> Option<&Ty>
    ensures { option_copied result ≡ joined (slice_get types.now number) }
{
    match types.get(number) {
        Some(entry) => match entry {
            Some(ty) => Some(ty),
            None => None,
        },
        None => None,
    }
}

/// What becomes of a mutable reference where this type is expected.
#[tactic(auto, using(rx_typed::proofs::TypedRules::typ_rules))]
fn lent_as(expected: Option<&Ty>) -> Coercion
    ensures { (t : Typ) → plain-Coercion result ≡ elaborated.coercion (reference true t) (shape_of (option_copied expected.entry)) }
{
    match expected {
        Some(ty) => match ty {
            Ty::Mut(_, _) => Coercion::Reborrow,
            Ty::Shared(_, _) => Coercion::Share,
            Ty::Int(_) | Ty::Bool | Ty::Tuple(_) | Ty::Adt(_, _) => Coercion::Plain,
        },
        None => Coercion::Plain,
    }
}

/// What becomes of a value of this type where another is expected.
#[tactic(auto, using(rx_typed::proofs::TypedRules::typ_rules))]
fn passed_as(own: &Ty, expected: Option<&Ty>) -> Coercion
    ensures { plain-Coercion result ≡ elaborated.coercion (plain-Ty own.now) (shape_of (option_copied expected.entry)) }
{
    match own {
        Ty::Mut(_, _) => lent_as(expected),
        Ty::Int(_) | Ty::Bool | Ty::Tuple(_) | Ty::Shared(_, _) | Ty::Adt(_, _) => Coercion::Plain,
    }
}

impl TypedFn {
    /// Where the name of a variable is declared.
    pub fn name(&self, variable: u32) -> Option<Span>
        ensures { result ≡ slice_get self.now.names variable }
    {
        match self.names.get(variable as usize) {
            Some(span) => Some(*span),
            None => None,
        }
    }

    /// Whether a variable is declared `mut`.
    pub fn is_mutable(&self, variable: u32) -> bool
        ensures { result ≡ get_or self.now.mutable variable false }
    {
        match self.mutable.as_slice().get(variable as usize) {
            Some(mutable) => *mutable,
            None => false,
        }
    }

    /// The type of a variable.
    pub fn variable_type(&self, variable: u32) -> Option<&Ty>
        ensures { option_copied result ≡ typing.type_at self.now (subject.Variable variable) }
    {
        type_in(&self.variables, variable as usize)
    }

    /// Where a node stands.
    pub fn span(&self, node: usize) -> Option<Span>
        ensures { result ≡ slice_get self.now.spans node }
    {
        match self.spans.get(node) {
            Some(span) => Some(*span),
            None => None,
        }
    }

    /// The type of a node. One that is Never has none.
    pub fn node_type(&self, node: usize) -> Option<&Ty>
        ensures { option_copied result ≡ typing.type_at self.now (subject.Node node) }
    {
        type_in(&self.types.nodes, node)
    }

    /// What the place of a node makes of its value (Rust Reference, "Coercion types"): where it expects nothing, and of
    /// what has no type, the value itself.
    pub fn coercion(&self, node: usize) -> Coercion
        ensures { plain-Coercion result ≡ typing.coercion_at self.now node }
    {
        match type_in(&self.types.nodes, node) {
            Some(own) => passed_as(own, type_in(&self.types.expected, node)),
            None => Coercion::Plain,
        }
    }
}
