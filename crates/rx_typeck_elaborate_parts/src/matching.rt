//! Typed patterns from their parts.

ghost use Rattle.std.specs.Prelude.{◌≡◌, IfOk};
ghost use Rattle.rx_typed.specs.PlainTypes.{plain-Ty};
ghost use Rattle.rx_typed.specs.Elaborated as elaborated;
ghost use Rattle.rx_typed.specs.Tree as tree;
ghost use Rattle.rx_typed.specs.PlainTree.{plain-Pattern, plain-Constant, plain-Mode};
ghost use Rattle.rx_typeck_elaborate_parts.specs.Coercing.{types_of};

use crate::dereferenced::met;
use crate::marks::Given;
use rx_core::{Boxed, Ty};
use rx_typed::{Constant, Mode, Node, Pattern};
use std::alloc::{AllocError, Global};

/// A pattern behind all references of a type.
#[cycle(behind)]
#[tactic(auto, using(rx_typed::proofs::TypedRules::typ_rules, rx_typed::proofs::Rules::typed_pattern_rules))]
fn behind(alloc: Global, ty: &Ty, pattern: Pattern) -> Result<Pattern, AllocError>
    ensures { IfOk result (λ it. plain-Pattern it ≡ elaborated.behind_all (plain-Ty ty.now) (plain-Pattern pattern)) }
{
    match ty {
        Ty::Shared(_, inner) => {
            let inner = behind(alloc, inner.get(), pattern)?;
            Ok(Pattern::Behind(false, Boxed::new(alloc, inner)?))
        }
        Ty::Mut(_, inner) => {
            let inner = behind(alloc, inner.get(), pattern)?;
            Ok(Pattern::Behind(true, Boxed::new(alloc, inner)?))
        }
        Ty::Int(_) | Ty::Bool | Ty::Tuple(_) | Ty::Adt(_, _) => Ok(pattern),
    }
}

/// How a binding takes what it is matched with: whether that is Copy, and the references that were gone through.
pub fn mode_of(copied: bool, met: Option<bool>) -> Mode
    ensures { plain-Mode result ≡ elaborated.mode_of copied met }
{
    match met {
        None => Mode::Value(!copied),
        Some(mutable) => Mode::Reference(mutable),
    }
}

impl<'t> Given<'t> {
    /// A pattern behind all references of the type of its node.
    pub fn behind_all(&self, node: Node, pattern: Pattern) -> Result<Pattern, AllocError>
        ensures { IfOk result (λ it. plain-Pattern it ≡ elaborated.behind_all ((types_of self.now).typ node.number) (plain-Pattern pattern)) }
    {
        match self.typ(node) {
            Some(ty) => behind(self.alloc, ty, pattern),
            None => Ok(pattern),
        }
    }

    /// The references that were gone through, with those of a node's type.
    pub fn met(&self, node: Node, round: Option<bool>) -> Option<bool>
        ensures { result ≡ elaborated.met ((types_of self.now).typ node.number) round }
    {
        met(self.typ(node), round)
    }

    /// A constant pattern at a node.
    #[tactic(auto, using(rx_typed::proofs::Rules::typed_pattern_rules))]
    pub fn exactly(&self, node: Node, constant: Constant) -> Result<Pattern, AllocError>
        ensures { IfOk result (λ it. plain-Pattern it ≡ elaborated.behind_all ((types_of self.now).typ node.number) (tree.exactly node.number (plain-Constant constant))) }
    {
        self.behind_all(node, Pattern::Exactly(node.number, constant))
    }
}
