//! Expressions without parts, and what an expression asks behind its parts.

ghost use Rattle.std.specs.Prelude.{◌≡◌, Bool, true, false, ◌&&◌, [], ◌∷◌, ◌++◌, map, Ok, Err, Option, Some, None, OnOk, IfOk};
ghost use Rattle.rx_typeck_solver.specs.declared.facts.Op.TheVariants as op;
ghost use Rattle.rx_tree.specs.PlainOf.{plain-Expr};
ghost use Rattle.rx_tree.specs.Plain as plain;
ghost use Rattle.rx_typed.specs.Named as named;
ghost use Rattle.rx_typed.specs.Naming as naming;
ghost use Rattle.rx_typeck_typed.specs.Demands as demands;
ghost use Rattle.rx_typeck_demand_parts.specs.Places.{through_at};
ghost use Rattle.rx_typeck_elaborate_parts.specs.Seeing as seeing;
ghost use Rattle.rx_typeck_demand_parts.specs.Placing.{placed};
ghost use Rattle.rx_typeck_demand_parts.specs.Walks as walks;

use crate::facts::{alike, fitting, is_open, type_of, with_suffix};
use crate::places::through;
use crate::walk::Walk;
use rx_core::{Kind, List, Name, Span, keep, pushed};
use rx_tree::{BinaryOp, Expr, Ident};
use rx_typeck_elaborate_parts::{Seen, value_seen, variable_seen};
use rx_typeck_solver::{Broken, Fact, Op, Rule, Subject};
use rx_typed::{Node, Site, Use};
use std::alloc::AllocError;

/// Whether an operator always evaluates its right operand.
pub fn is_strict(operator: BinaryOp) -> bool
    ensures { result ≡ named.is_strict operator }
{
    match operator {
        BinaryOp::And | BinaryOp::Or => false,
        _ => true,
    }
}

impl<'t> Walk<'t> {
    fn integer_at(
        &mut self,
        node: Node,
        minus: bool,
        value: u64,
        suffix: Option<Kind>,
    ) -> Result<(), AllocError>
        ensures { OnOk result (self.new ≡ walks.asked (demands.integer_at node minus value suffix) self.old) }
    {
        let fact = Fact::Integer(node.number, with_suffix(suffix));
        self.ask_one(node, Rule::Equal, fact)?;
        self.value_at(node)?;
        let fact = Fact::Integer(node.number, fitting(minus, value));
        let facts = pushed(List::new(self.alloc), fact)?;
        self.asks(node, Broken::Literal, is_open(suffix), facts)
    }

    /// An integer; whether it stands directly under a minus.
    pub fn integer(
        &mut self,
        minus: bool,
        site: Site,
        span: Span,
        value: u64,
        suffix: Option<Kind>,
    ) -> Result<Seen, AllocError>
        ensures { walks.Walks (naming.of_expression minus site (plain.int span value suffix)) (demands.of_form self.old.item) seeing.seen_of self.old result self.new }
    {
        let node = self.node(span, site)?;
        self.integer_at(node, minus, value, suffix)?;
        Ok(value_seen(node, false, false))
    }

    pub fn truth(&mut self, site: Site, span: Span, _value: bool) -> Result<Seen, AllocError>
        ensures { walks.Walks (naming.of_expression false site (plain.bool span _value)) (demands.of_form self.old.item) seeing.seen_of self.old result self.new }
    {
        let node = self.node(span, site)?;
        self.own(node, Op::Truth, &[])?;
        Ok(value_seen(node, false, false))
    }

    /// A variable's type, where it is known by here.
    pub fn named_at(&mut self, node: Node, variable: Use) -> Result<(), AllocError>
        ensures { OnOk result (self.new ≡ walks.asked (demands.named_at node variable variable.known) self.old) }
    {
        if variable.known {
            self.ask_alike(node, type_of(node), Subject::Variable(variable.number))
        } else {
            self.refuse(node, Rule::Unclear)
        }
    }

    pub fn variable(&mut self, site: Site, span: Span, _name: &Name) -> Result<Seen, AllocError>
        ensures { walks.Walks (naming.of_expression false site (plain.var span _name.now)) (demands.of_form self.old.item) seeing.seen_of self.old result self.new }
    {
        let node = self.node(span, site)?;
        let number = self.entry().first;
        let variable = self.cursor.use_of(number);
        self.named_at(node, variable)?;
        Ok(variable_seen(node, variable))
    }

    pub fn next_input(&mut self, site: Site, span: Span) -> Result<Seen, AllocError>
        ensures { walks.Walks (naming.of_expression false site (plain.next_input span)) (demands.of_form self.old.item) seeing.seen_of self.old result self.new }
    {
        let node = self.node(span, site)?;
        self.entry();
        self.own(node, Op::Integer(Kind::I64), &[])?;
        Ok(value_seen(node, false, false))
    }

    pub fn break_jump(
        &mut self,
        site: Site,
        span: Span,
        _label: &Option<Ident>,
    ) -> Result<Seen, AllocError>
        ensures { walks.Walks (naming.of_expression false site (plain.break span _label.now)) (demands.of_form self.old.item) seeing.seen_of self.old result self.new }
    {
        let node = self.node(span, site)?;
        let number = self.entry().first;
        self.cursor.lead(number);
        self.never_at(node)?;
        Ok(value_seen(node, true, true))
    }

    pub fn continue_jump(
        &mut self,
        site: Site,
        span: Span,
        _label: &Option<Ident>,
    ) -> Result<Seen, AllocError>
        ensures { walks.Walks (naming.of_expression false site (plain.continue span _label.now)) (demands.of_form self.old.item) seeing.seen_of self.old result self.new }
    {
        let node = self.node(span, site)?;
        self.entry();
        self.never_at(node)?;
        Ok(value_seen(node, true, true))
    }

    /// A step from a place.
    pub fn step_at(&mut self, node: Node, made: Op, place: Node) -> Result<(), AllocError>
        ensures { OnOk result (self.new ≡ walks.asked (demands.step_at node made place) self.old) }
    {
        self.ask_is(node, Rule::NotPlace, type_of(node), made, &[type_of(place)])
    }

    /// What a place asks where it stands.
    pub fn placed(&mut self, seen: Seen, expr: &Expr) -> Result<(), AllocError>
        ensures { OnOk result (self.new ≡ walks.asked (placed seen (through_at (plain-Expr expr.now) seen.node.number)) self.old) }
    {
        if seen.place {
            self.place_at(seen.node, seen.root.number, expr)
        } else {
            Ok(())
        }
    }

    /// A borrow of a place, as it is written.
    pub fn borrowed(
        &mut self,
        node: Node,
        mutable: bool,
        seen: Seen,
        place: &Expr,
    ) -> Result<(), AllocError>
        ensures { OnOk result (self.new ≡ walks.asked (demands.borrowed node mutable seen.node seen.root (through_at (plain-Expr place.now) seen.node.number)) self.old) }
    {
        let made = Op::Referring(mutable);
        self.ask_is(
            node,
            Rule::Equal,
            type_of(node),
            made,
            &[type_of(seen.node)],
        )?;
        self.limits(node)?;
        if mutable {
            self.written_at(node, seen, place)?;
        }
        self.value_at(node)
    }

    /// A place that is written or borrowed mutably by a node.
    fn written_at(&mut self, node: Node, seen: Seen, place: &Expr) -> Result<(), AllocError>
        ensures { OnOk result (self.new ≡ walks.asked (demands.writable node seen.root.mutable seen.root.number (through_at (plain-Expr place.now) seen.node.number)) self.old) }
    {
        let passing = through(self.alloc, place, seen.node.number)?;
        let root = seen.root;
        self.writable(node, root.mutable, root.number, passing.as_slice())
    }

    /// A place that is assigned by a node.
    pub fn assignable(&mut self, node: Node, seen: Seen, place: &Expr) -> Result<(), AllocError>
        ensures { OnOk result (self.new ≡ walks.asked (demands.assignable_at node seen.whole seen.root (through_at (plain-Expr place.now) seen.node.number)) self.old) }
    {
        if seen.whole {
            Ok(())
        } else {
            self.written_at(node, seen, place)
        }
    }

    /// An assignment before which its variable waits for its type: its node, that of the variable, the variable behind
    /// the value, the node of the pattern that declares it where the assignment gives the type, the value.
    pub fn given(
        &mut self,
        node: Node,
        place: Node,
        variable: Use,
        pattern: Option<usize>,
        value: Seen,
    ) -> Result<(), AllocError>
        ensures { OnOk result (self.new ≡ walks.asked (demands.given node place variable pattern value.node value.never) self.old) }
    {
        match pattern {
            Some(pattern) => self.given_here(node, place, variable, pattern, value),
            None => {
                self.named_at(place, variable)?;
                self.fits_given(variable.number, value)
            }
        }
    }

    /// A value assigned to a variable whose type an assignment in it gave.
    fn fits_given(&mut self, variable: u32, value: Seen) -> Result<(), AllocError>
        ensures { OnOk result (self.new ≡ walks.asked (demands.fits_given variable value.node value.never) self.old) }
    {
        if value.never {
            Ok(())
        } else {
            self.ask_alike(value.node, Subject::Variable(variable), type_of(value.node))
        }
    }

    /// What gives a variable its type.
    fn given_here(
        &mut self,
        node: Node,
        place: Node,
        variable: Use,
        pattern: usize,
        value: Seen,
    ) -> Result<(), AllocError>
        ensures { OnOk result (self.new ≡ walks.asked (demands.given node place variable (Some pattern) value.node value.never) self.old) }
    {
        let subject = Subject::Variable(variable.number);
        self.not_never(value)?;
        self.ask_alike(node, subject, type_of(value.node))?;
        let facts = List::new(self.alloc);
        let (fact, facts) = keep(facts, alike(self.alloc, type_of(place), subject))?;
        let facts = pushed(facts, fact)?;
        let declared = Subject::Node(pattern);
        let (fact, facts) = keep(facts, alike(self.alloc, declared, subject))?;
        let facts = pushed(facts, fact)?;
        self.ask(place, Rule::Equal, facts)
    }
}
