//! What a place or a value asks where it stands.

ghost use Rattle.std.specs.Prelude.{◌≡◌, suc, Bool, [], ◌∷◌, ◌++◌, OnOk, IfOk};
ghost use Rattle.rx_typeck_solver.specs.declared.facts.Op.TheVariants as op;
ghost use Rattle.rx_tree.specs.PlainOf.{plain-Expr};
ghost use Rattle.rx_typeck_typed.specs.Demands as demands;
ghost use Rattle.rx_typeck_demand_parts.specs.Places.{through_at};
ghost use Rattle.rx_typeck_demand_parts.specs.Walks as walks;

use crate::facts::{expected, passes_through, type_of};
use crate::walk::Walk;
use rx_core::List;
use rx_tree::{Expr, ExprNode};
use rx_typeck_solver::{Op, Passing, Rule, Subject, Test};
use rx_typed::{Node, Site};
use std::alloc::{AllocError, Global};

/// Adds the dereferences that a place goes through, by the number of its node.
#[cycle(through)]
#[tactic(auto, using(rx_tree::proofs::Rules::expression_rules))]
fn push_through(place: &Expr, number: usize, passing: &mut List<Passing>) -> Result<(), AllocError>
    ensures { OnOk result (passing.new ≡ passing.old ++ through_at (plain-Expr place.now) number) }
{
    match &place.node {
        ExprNode::Field(inner, _) => push_step(inner.get(), number, true, passing),
        ExprNode::Part(inner, _) => push_step(inner.get(), number, true, passing),
        ExprNode::Deref(inner) => push_step(inner.get(), number, false, passing),
        _ => Ok(()),
    }
}

/// Adds those of a place with a step from it, by the number of the node of both.
#[cycle(through)]
#[tactic(auto, using(rx_tree::proofs::Rules::expression_rules))]
fn push_step(
    place: &Expr,
    number: usize,
    all: bool,
    passing: &mut List<Passing>,
) -> Result<(), AllocError>
    ensures { OnOk result (passing.new ≡ passing.old ++ record { node = suc number; all = all } ∷ through_at (plain-Expr place.now) (suc number)) }
{
    match number.checked_add(1) {
        Some(node) => {
            passing.push(Passing { node, all })?;
            push_through(place, node, passing)
        }
        None => Err(AllocError),
    }
}

/// The dereferences that a place goes through, by the number of its node.
pub fn through(alloc: Global, place: &Expr, number: usize) -> Result<List<Passing>, AllocError>
    ensures { IfOk result (λ ps. ps ≡ through_at (plain-Expr place.now) number) }
{
    let mut passing = List::new(alloc);
    push_through(place, number, &mut passing)?;
    Ok(passing)
}

impl<'t> Walk<'t> {
    /// At a coercion site the type is the expected one, before its coercion.
    fn fits(&mut self, node: Node) -> Result<(), AllocError>
        ensures { OnOk result (self.new ≡ walks.asked (demands.coerces node) self.old) }
    {
        self.ask_is(
            node,
            Rule::Equal,
            type_of(node),
            Op::Coerced,
            &[type_of(node), expected(node)],
        )
    }

    /// What is no coercion site but reborrows expects the own type.
    fn expects_own(&mut self, node: Node) -> Result<(), AllocError>
        ensures { OnOk result (self.new ≡ walks.asked (demands.expects_own node) self.old) }
    {
        self.ask_alike(node, expected(node), type_of(node))
    }

    /// A place that isn't Copy isn't moved from behind a reference.
    fn kept(&mut self, node: Node, test: Test, passing: &[Passing]) -> Result<(), AllocError>
        ensures { OnOk result (self.new ≡ walks.asked (demands.kept node test passing.now) self.old) }
    {
        let fact = passes_through(self.alloc, test, &[type_of(node)], &[], passing)?;
        self.ask_one(node, Rule::MoveOut, fact)
    }

    /// A place that is reborrowed mutably stands behind no shared reference.
    fn lendable(&mut self, node: Node, variable: u32, passing: &[Passing]) -> Result<(), AllocError>
        ensures { OnOk result (self.new ≡ walks.asked (demands.lendable node variable passing.now) self.old) }
    {
        let subjects = [type_of(node), expected(node)];
        let fact = passes_through(self.alloc, Test::Lendable, &subjects, &[], passing)?;
        self.ask_mutable(node, variable, fact)
    }

    /// A place where it stands: its node, its variable, the dereferences that it goes through.
    fn place_in(&mut self, node: Node, variable: u32, passing: &[Passing]) -> Result<(), AllocError>
        ensures { OnOk result (self.new ≡ walks.asked (demands.place_in node variable passing.now node.site) self.old) }
    {
        match node.site {
            Site::Value => self.kept(node, Test::Kept, passing),
            Site::Place | Site::Scrutinee => Ok(()),
            Site::Expects => {
                self.fits(node)?;
                self.kept(node, Test::KeptOrLent, passing)?;
                self.lendable(node, variable, passing)
            }
            Site::Initialises => {
                self.fits(node)?;
                self.lendable(node, variable, passing)
            }
            Site::Reborrows => {
                self.expects_own(node)?;
                self.kept(node, Test::KeptOrLent, passing)?;
                self.lendable(node, variable, passing)
            }
        }
    }

    /// A place where it stands: its node, its variable, and the place as it is written.
    pub fn place_at(&mut self, node: Node, variable: u32, place: &Expr) -> Result<(), AllocError>
        ensures { OnOk result (self.new ≡ walks.asked (demands.place_in node variable (through_at (plain-Expr place.now) node.number) node.site) self.old) }
    {
        match node.site {
            Site::Place | Site::Scrutinee => Ok(()),
            _ => {
                let passing = through(self.alloc, place, node.number)?;
                self.place_in(node, variable, passing.as_slice())
            }
        }
    }

    /// A value that is no place, where it stands.
    pub fn value_at(&mut self, node: Node) -> Result<(), AllocError>
        ensures { OnOk result (self.new ≡ walks.asked (demands.value_at node) self.old) }
    {
        match node.site {
            Site::Place => self.refuse(node, Rule::NotPlace),
            Site::Expects | Site::Initialises => self.fits(node),
            Site::Reborrows => self.expects_own(node),
            Site::Value | Site::Scrutinee => Ok(()),
        }
    }

    /// What has no type fits every site but a place.
    pub fn never_at(&mut self, node: Node) -> Result<(), AllocError>
        ensures { OnOk result (self.new ≡ walks.asked (demands.never_at node) self.old) }
    {
        match node.site {
            Site::Place => self.refuse(node, Rule::NotPlace),
            _ => Ok(()),
        }
    }

    /// A place that is written, or borrowed mutably, by a node: whether its variable's own storage may be.
    pub fn writable(
        &mut self,
        node: Node,
        own: bool,
        variable: u32,
        passing: &[Passing],
    ) -> Result<(), AllocError>
        ensures { OnOk result (self.new ≡ walks.asked (demands.writable node own variable passing.now) self.old) }
    {
        let fact = passes_through(self.alloc, Test::Writable(own), &[], &[], passing)?;
        self.ask_mutable(node, variable, fact)
    }

    /// A node has a type of its own, and fits its place.
    pub fn own(&mut self, node: Node, made: Op, parts: &[Subject]) -> Result<(), AllocError>
        ensures { OnOk result (self.new ≡ walks.asked (demands.own node made parts.now) self.old) }
    {
        self.ask_is(node, Rule::Equal, type_of(node), made, parts)?;
        self.value_at(node)
    }
}
