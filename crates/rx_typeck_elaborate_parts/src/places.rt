//! Steps from places.

ghost use Rattle.std.specs.Prelude.{◌≡◌, IfOk};
ghost use Rattle.rx_typed.specs.Elaborated as elaborated;
ghost use Rattle.rx_typed.specs.Tree as tree;
ghost use Rattle.rx_typed.specs.PlainTree.{plain-Place};
ghost use Rattle.rx_typeck_elaborate_parts.specs.Coercing.{types_of};
ghost use Rattle.rx_typeck_elaborate_parts.specs.Reaching as reaching;

use crate::dereferenced::{push_all, push_one};
use crate::looked_up::field_behind;
use crate::marks::Given;
use rx_core::{Name, Place, Step};
use rx_typed::Node;
use std::alloc::AllocError;

impl<'t> Given<'t> {
    /// A field of a place with this node. Where numbers of 32 bits run out it is as if memory did.
    #[tactic(auto, using(crate::proofs::References::assigned_rules))]
    pub fn field(&self, place: Place, node: Node, name: &Name) -> Result<Place, AllocError>
        ensures { IfOk result (λ it. plain-Place it ≡ reaching.to_field (types_of self.now) node.number name.now (plain-Place place)) }
    {
        let number = field_behind(&self.decls.items, self.typ(node), name);
        match u32::try_from(number) {
            Ok(field) => self.stepped(place, node, field),
            Err(_too_many) => Err(AllocError),
        }
    }

    /// A part of a place with this node, by its number.
    pub fn part(&self, place: Place, node: Node, number: u64) -> Result<Place, AllocError>
        ensures { IfOk result (λ it. plain-Place it ≡ reaching.to_part (types_of self.now) node.number number (plain-Place place)) }
    {
        match u32::try_from(number) {
            Ok(field) => self.stepped(place, node, field),
            Err(_too_many) => Err(AllocError),
        }
    }

    #[tactic(auto, using(crate::proofs::References::list_rules))]
    fn stepped(&self, place: Place, node: Node, field: u32) -> Result<Place, AllocError>
        ensures { IfOk result (λ it. plain-Place it ≡ reaching.to_part (types_of self.now) node.number field (plain-Place place)) }
    {
        let var = place.var;
        let mut steps = place.steps;
        push_all(&mut steps, self.typ(node))?;
        steps.push(Step::Field(field))?;
        Ok(Place { var, steps })
    }

    /// What a place with this node refers to.
    pub fn dereferenced(&self, place: Place, node: Node) -> Result<Place, AllocError>
        ensures { IfOk result (λ it. plain-Place it ≡ tree.under (plain-Place place) (elaborated.dereference ((types_of self.now).typ node.number))) }
    {
        let var = place.var;
        let mut steps = place.steps;
        push_one(&mut steps, self.typ(node))?;
        Ok(Place { var, steps })
    }
}
