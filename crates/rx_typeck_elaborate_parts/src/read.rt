//! Values of places, and values at coercion sites.

ghost use Rattle.std.specs.Prelude.{◌≡◌, [], ◌∷◌, true, IfOk};
ghost use Rattle.rx_core.specs.declared.types.Step.TheVariants as step;
ghost use Rattle.rx_typed.specs.Elaborated as elaborated;
ghost use Rattle.rx_typed.specs.Tree as tree;
ghost use Rattle.rx_typed.specs.PlainTree.{plain-Mark, plain-Place, plain-Expr, plain-Matched};
ghost use Rattle.rx_typeck_elaborate_parts.specs.Coercing as coercing;
ghost use Rattle.rx_typeck_elaborate_parts.specs.Coercing.{plain-Coercion, types_of};

use crate::marks::{Coercion, Given};
use rx_core::{Boxed, List, Place, Step, keep};
use rx_typed::{Expr, Form, Making, Mark, Matched, Node, Operand};
use std::alloc::{AllocError, Global};

/// A variable.
pub fn own(alloc: Global, variable: u32) -> Place
    ensures { plain-Place result ≡ tree.own variable }
{
    Place {
        var: variable,
        steps: List::new(alloc),
    }
}

/// What a place of type `&mut T` refers to.
fn referred(place: Place) -> Result<Place, AllocError>
    ensures { IfOk result (λ it. plain-Place it ≡ tree.under (plain-Place place) (step.Deref true ∷ [])) }
{
    let mut steps = place.steps;
    steps.push(Step::Deref(true))?;
    Ok(Place {
        var: place.var,
        steps,
    })
}

impl<'t> Given<'t> {
    /// A place, borrowed.
    #[tactic(auto, using(rx_typed::proofs::Rules::typed_tree_rules))]
    fn borrowed(&self, mark: Mark, mutable: bool, place: Place) -> Result<Expr, AllocError>
        ensures { IfOk result (λ it. plain-Expr it ≡ tree.borrow (plain-Mark mark) mutable (tree.under (plain-Place place) (step.Deref true ∷ []))) }
    {
        let (place, mark) = keep(mark, referred(place))?;
        Ok(Expr {
            mark,
            form: Form::Borrow(mutable, place),
        })
    }

    /// A place as a value, with what its coercion site does to it.
    #[tactic(auto, using(rx_typed::proofs::Rules::typed_tree_rules))]
    fn read_as(&self, node: Node, coercion: Coercion, place: Place) -> Result<Expr, AllocError>
        ensures { IfOk result (λ it. plain-Expr it ≡ elaborated.read_as (types_of self.now) node (plain-Coercion coercion) (plain-Place place)) }
    {
        match coercion {
            Coercion::Plain => {
                let (mark, place) = keep(place, self.mark(node))?;
                Ok(Expr {
                    mark,
                    form: Form::Read(!self.copies(node), place),
                })
            }
            Coercion::Reborrow => {
                let (mark, place) = keep(place, self.mark(node))?;
                self.borrowed(mark, true, place)
            }
            Coercion::Share => {
                let (mark, place) = keep(place, self.shared_mark(node))?;
                self.borrowed(mark, false, place)
            }
        }
    }

    /// A place as a value.
    pub fn place_value(&self, node: Node, place: Place) -> Result<Expr, AllocError>
        ensures { IfOk result (λ it. plain-Expr it ≡ elaborated.place_value (types_of self.now) node (plain-Place place)) }
    {
        self.read_as(node, self.coercion_at(node), place)
    }

    /// A value that is no place, with what its coercion site does to it.
    #[tactic(auto, using(rx_typed::proofs::Rules::typed_tree_rules))]
    pub fn value_of(&self, node: Node, value: Expr) -> Result<Expr, AllocError>
        ensures { IfOk result (λ it. plain-Expr it ≡ elaborated.value_of (types_of self.now) node (plain-Expr value)) }
    {
        match self.coercion_at(node) {
            Coercion::Share => {
                let (mark, value) = keep(value, self.shared_mark(node))?;
                let (value, mark) = keep(mark, Boxed::new(self.alloc, value))?;
                Ok(Expr {
                    mark,
                    form: Form::Share(value),
                })
            }
            _ => Ok(value),
        }
    }

    /// A place that is matched stays one where it isn't coerced.
    #[tactic(auto, using(rx_typed::proofs::Rules::typed_tree_rules))]
    pub fn place_matched(&self, node: Node, place: Place) -> Result<Matched, AllocError>
        ensures { IfOk result (λ it. plain-Matched it ≡ coercing.place_matched (types_of self.now) node (plain-Place place)) }
    {
        match self.coercion_at(node) {
            Coercion::Plain => {
                let (mark, place) = keep(place, self.mark(node))?;
                Ok(Matched::Place(mark, place))
            }
            coercion => {
                let value = self.read_as(node, coercion, place)?;
                Ok(Matched::Value(Boxed::new(self.alloc, value)?))
            }
        }
    }
}
