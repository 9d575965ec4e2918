//! What is asked of what joins values, and of operands.

ghost use Rattle.std.specs.Prelude.{◌≡◌, Bool, [], ◌∷◌, ◌++◌, OnOk};
ghost use Rattle.rx_typeck_solver.specs.declared.facts.Op.TheVariants as op;
ghost use Rattle.rx_typeck_typed.specs.Demands as demands;
ghost use Rattle.rx_typeck_demand_parts.specs.Walks as walks;

use crate::facts::{
    alike_unless, all, expected, integer_operand, plain_operand, signed, truth_operand, type_of,
};
use crate::walk::Walk;
use rx_core::{List, pushed};
use rx_tree::BinaryOp;
use rx_typeck_elaborate_parts::Seen;
use rx_typeck_solver::{Fact, Op, Rule, Test};
use rx_typed::{Node, Site};
use std::alloc::AllocError;

impl<'t> Walk<'t> {
    /// A truth value, where it has a type.
    pub fn tested(&mut self, condition: Seen) -> Result<(), AllocError>
        ensures { OnOk result (self.new ≡ walks.asked (demands.tested condition.node condition.never) self.old) }
    {
        if condition.never {
            Ok(())
        } else {
            let node = condition.node;
            self.ask_is(node, Rule::KindOf, type_of(node), Op::Truth, &[])
        }
    }

    /// An integer or a truth value, where it has a type.
    pub fn printed(&mut self, inner: Seen) -> Result<(), AllocError>
        ensures { OnOk result (self.new ≡ walks.asked (demands.printed inner.node inner.never) self.old) }
    {
        if inner.never {
            Ok(())
        } else {
            let node = inner.node;
            self.ask_passes(node, Rule::KindOf, Test::Plain, &[type_of(node)])
        }
    }

    /// A value of the unit, where it has a type.
    pub fn nothing_given(&mut self, node: Node, never: bool) -> Result<(), AllocError>
        ensures { OnOk result (self.new ≡ walks.asked (demands.nothing_given node never) self.old) }
    {
        if never {
            Ok(())
        } else {
            self.ask_is(node, Rule::Equal, type_of(node), Op::Unit, &[])
        }
    }

    /// The members of a tuple and what is matched aren't Never.
    pub fn not_never(&mut self, seen: Seen) -> Result<(), AllocError>
        ensures { OnOk result (self.new ≡ walks.asked (demands.not_never seen.node seen.never) self.old) }
    {
        if seen.never {
            self.refuse(seen.node, Rule::Unclear)
        } else {
            Ok(())
        }
    }

    /// What has the type of a part, where it has one.
    fn as_part(&mut self, node: Node, never: bool, part: Node) -> Result<(), AllocError>
        ensures { OnOk result (self.new ≡ walks.asked (demands.as_part node never part) self.old) }
    {
        if never {
            Ok(())
        } else {
            self.ask_alike(node, type_of(node), type_of(part))
        }
    }

    /// What joins values, behind its parts: at a coercion site it has the expected type, else that of each part.
    pub fn join(&mut self, node: Node, never: bool) -> Result<(), AllocError>
        ensures { OnOk result (self.new ≡ walks.asked (demands.join node never) self.old) }
    {
        if never {
            self.never_at(node)
        } else {
            self.joins(node)
        }
    }

    /// The same of what has a type.
    fn joins(&mut self, node: Node) -> Result<(), AllocError>
        ensures { OnOk result (self.new ≡ walks.asked (demands.joins node node.site) self.old) }
    {
        match node.site {
            Site::Value | Site::Scrutinee => Ok(()),
            Site::Place => self.refuse(node, Rule::NotPlace),
            Site::Reborrows => self.ask_alike(node, expected(node), type_of(node)),
            Site::Expects | Site::Initialises => {
                self.ask_alike(node, type_of(node), expected(node))
            }
        }
    }

    /// A part of what joins values, before it is walked: at a coercion site it expects the same.
    pub fn part_before(&mut self, node: Node, part: Node) -> Result<(), AllocError>
        ensures { OnOk result (self.new ≡ walks.asked (demands.part_before node node.site part) self.old) }
    {
        match node.site {
            Site::Expects | Site::Initialises => { self.expects(part, Op::Same, &[expected(node)]) }
            _ => Ok(()),
        }
    }

    /// A part of what joins values, behind it: elsewhere it gives its type.
    pub fn part_after(&mut self, node: Node, never: bool, part: Node) -> Result<(), AllocError>
        ensures { OnOk result (self.new ≡ walks.asked (demands.part_after node node.site never part) self.old) }
    {
        match node.site {
            Site::Expects | Site::Initialises => Ok(()),
            _ => self.as_part(node, never, part),
        }
    }

    /// Two integers of one kind, which is that of the node.
    fn arithmetic(&mut self, node: Node, left: Seen, right: Seen) -> Result<(), AllocError>
        ensures { OnOk result (self.new ≡ walks.asked (demands.arithmetic node left.node left.never right.node right.never) self.old) }
    {
        let none = List::new(self.alloc);
        let facts = alike_unless(self.alloc, none, left.never, node, left.node)?;
        let facts = alike_unless(self.alloc, facts, right.never, node, right.node)?;
        let facts = pushed(facts, Fact::Integer(node.number, all()))?;
        self.ask(node, Rule::KindOf, facts)?;
        self.value_at(node)
    }

    /// Two integers or truth values of one type.
    fn equality(&mut self, node: Node, left: Seen, right: Seen) -> Result<(), AllocError>
        ensures { OnOk result (self.new ≡ walks.asked (demands.equality node left.node left.never right.node right.never) self.old) }
    {
        let none = List::new(self.alloc);
        let facts = plain_operand(self.alloc, none, left.node, left.never)?;
        let facts = plain_operand(self.alloc, facts, right.node, right.never)?;
        let never = left.never || right.never;
        let facts = alike_unless(self.alloc, facts, never, left.node, right.node)?;
        self.ask(node, Rule::KindOf, facts)?;
        self.own(node, Op::Truth, &[])
    }

    /// Two integers of one kind.
    fn order(&mut self, node: Node, left: Seen, right: Seen) -> Result<(), AllocError>
        ensures { OnOk result (self.new ≡ walks.asked (demands.order node left.node left.never right.node right.never) self.old) }
    {
        self.updated(node, left, right)?;
        self.own(node, Op::Truth, &[])
    }

    /// Two truth values.
    fn lazy(&mut self, node: Node, left: Seen, right: Seen) -> Result<(), AllocError>
        ensures { OnOk result (self.new ≡ walks.asked (demands.lazy node left.node left.never right.node right.never) self.old) }
    {
        let none = List::new(self.alloc);
        let facts = truth_operand(self.alloc, none, left.node, left.never)?;
        let facts = truth_operand(self.alloc, facts, right.node, right.never)?;
        self.ask(node, Rule::KindOf, facts)?;
        self.own(node, Op::Truth, &[])
    }

    /// Two integers of one kind, the first of which is changed.
    pub fn updated(&mut self, node: Node, left: Seen, right: Seen) -> Result<(), AllocError>
        ensures { OnOk result (self.new ≡ walks.asked (demands.updated node left.node left.never right.node right.never) self.old) }
    {
        let none = List::new(self.alloc);
        let facts = integer_operand(none, left.node, left.never)?;
        let facts = integer_operand(facts, right.node, right.never)?;
        let never = left.never || right.never;
        let facts = alike_unless(self.alloc, facts, never, left.node, right.node)?;
        self.ask(node, Rule::KindOf, facts)
    }

    /// An operator of two operands that gives a value.
    pub fn operation(
        &mut self,
        operator: BinaryOp,
        node: Node,
        left: Seen,
        right: Seen,
    ) -> Result<(), AllocError>
        ensures { OnOk result (self.new ≡ walks.asked (demands.operation operator node left.node left.never right.node right.never) self.old) }
    {
        match operator {
            BinaryOp::Or | BinaryOp::And => self.lazy(node, left, right),
            BinaryOp::Eq | BinaryOp::Ne => self.equality(node, left, right),
            BinaryOp::Lt | BinaryOp::Le | BinaryOp::Gt | BinaryOp::Ge => {
                self.order(node, left, right)
            }
            BinaryOp::Add | BinaryOp::Sub | BinaryOp::Mul | BinaryOp::Div | BinaryOp::Rem => {
                self.arithmetic(node, left, right)
            }
        }
    }

    /// An integer of a signed kind, which is that of the node.
    pub fn negated(&mut self, node: Node, inner: Seen) -> Result<(), AllocError>
        ensures { OnOk result (self.new ≡ walks.asked (demands.negated node inner.node inner.never) self.old) }
    {
        let none = List::new(self.alloc);
        let facts = alike_unless(self.alloc, none, inner.never, node, inner.node)?;
        let facts = pushed(facts, Fact::Integer(node.number, signed()))?;
        self.ask(node, Rule::KindOf, facts)?;
        self.value_at(node)
    }

    /// The opposite of a truth value.
    pub fn inverted(&mut self, node: Node, inner: Seen) -> Result<(), AllocError>
        ensures { OnOk result (self.new ≡ walks.asked (demands.inverted node inner.node inner.never) self.old) }
    {
        let none = List::new(self.alloc);
        let facts = truth_operand(self.alloc, none, inner.node, inner.never)?;
        self.ask(node, Rule::KindOf, facts)?;
        self.own(node, Op::Truth, &[])
    }
}
