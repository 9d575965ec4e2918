//! The walk over a function: where it stands, and what was asked so far.

ghost use Rattle.std.specs.Prelude.{◌≡◌, Bool, false, [], ◌∷◌, ◌++◌, length, Ok, Err, OnOk, IfOk};
ghost use Rattle.rx_typeck_solver.specs.declared.facts.Rule.TheVariants as rule;
ghost use Rattle.rx_typeck_solver.specs.declared.facts.Fact.TheVariants as fact;
ghost use Rattle.rx_typed.specs.Naming as naming;
ghost use Rattle.rx_typeck_typed.specs.Asking as asking;
ghost use Rattle.rx_typeck_typed.specs.Demands as demands;
ghost use Rattle.rx_typeck_elaborate_parts.specs.Entries.{entry_of};
ghost use Rattle.rx_typeck_demand_parts.specs.Walks as walks;

use crate::facts::{alike, expected, is, passes, type_of};
use rx_core::{List, Span, pushed};
use rx_typeck_elaborate_parts::{Cursor, Entry};
use rx_typeck_solver::{Broken, Demand, Fact, Op, Rule, Subject, Test};
use rx_typed::{Node, Site};
use std::alloc::{AllocError, Global};

/// A walk over a function.
#[derive(Drop)]
pub struct Walk<'t> {
    pub alloc: Global,
    /// The function's item.
    pub item: u32,
    pub cursor: Cursor<'t>,
    pub demands: List<Demand>,
}

impl<'t> Walk<'t> {
    /// The next node.
    pub fn node(&mut self, span: Span, site: Site) -> Result<Node, AllocError>
        ensures { walks.Walks (naming.a_node span site) (λ _. asking.nothing) (λ n. n) self.old result self.new }
    {
        self.cursor.node(span, site)
    }

    /// The node that is next, before it is walked.
    pub fn next(&self, span: Span, site: Site) -> Node
        ensures { result ≡ record { number = self.now.cursor.number; span = span; site = site } }
    {
        Node {
            number: self.cursor.number(),
            span,
            site,
        }
    }

    /// The next entry of names.
    pub fn entry(&mut self) -> Entry
        ensures entry { result ≡ entry_of (naming.an_entry self.old.cursor).0 }
        ensures walk { self.new ≡ walks.moved (naming.an_entry self.old.cursor).1 self.old }
    {
        self.cursor.entry()
    }

    /// Asks facts at a node.
    pub fn asks(
        &mut self,
        node: Node,
        broken: Broken,
        unsuffixed: bool,
        facts: List<Fact>,
    ) -> Result<(), AllocError>
        ensures { OnOk result (self.new ≡ walks.asked (asking.asks node broken unsuffixed facts) self.old) }
    {
        self.demands.push(Demand {
            node: node.number,
            span: node.span,
            broken,
            unsuffixed,
            facts,
        })
    }

    /// Asks facts of a rule at a node.
    pub fn ask(&mut self, node: Node, rule: Rule, facts: List<Fact>) -> Result<(), AllocError>
        ensures { OnOk result (self.new ≡ walks.asked (asking.ask node rule facts) self.old) }
    {
        self.asks(node, Broken::Mismatch(rule), false, facts)
    }

    /// Asks a fact of a rule at a node.
    pub fn ask_one(&mut self, node: Node, rule: Rule, fact: Fact) -> Result<(), AllocError>
        ensures { OnOk result (self.new ≡ walks.asked (asking.ask node rule (fact ∷ [])) self.old) }
    {
        let facts = pushed(List::new(self.alloc), fact)?;
        self.ask(node, rule, facts)
    }

    /// Asks that what is assigned or borrowed mutably at a node, a part of this variable, may be.
    pub fn ask_mutable(&mut self, node: Node, variable: u32, fact: Fact) -> Result<(), AllocError>
        ensures { OnOk result (self.new ≡ walks.asked (asking.ask_mutable node variable fact) self.old) }
    {
        let facts = pushed(List::new(self.alloc), fact)?;
        self.asks(node, Broken::Mutability(variable), false, facts)
    }

    /// Asks what can't be met.
    pub fn refuse(&mut self, node: Node, rule: Rule) -> Result<(), AllocError>
        ensures { OnOk result (self.new ≡ walks.asked (asking.ask node rule (fact.Never ∷ [])) self.old) }
    {
        self.ask_one(node, rule, Fact::Never)
    }

    /// Asks that something has the type that is made of these.
    pub fn ask_is(
        &mut self,
        node: Node,
        rule: Rule,
        subject: Subject,
        made: Op,
        parts: &[Subject],
    ) -> Result<(), AllocError>
        ensures { OnOk result (self.new ≡ walks.asked (asking.ask node rule (asking.is subject made parts.now ∷ [])) self.old) }
    {
        let fact = is(self.alloc, subject, made, parts)?;
        self.ask_one(node, rule, fact)
    }

    /// Asks that two have one type.
    pub fn ask_alike(
        &mut self,
        node: Node,
        first: Subject,
        second: Subject,
    ) -> Result<(), AllocError>
        ensures { OnOk result (self.new ≡ walks.asked (asking.ask node rule.Equal (asking.alike first second ∷ [])) self.old) }
    {
        let fact = alike(self.alloc, first, second)?;
        self.ask_one(node, Rule::Equal, fact)
    }

    /// Asks that these pass a test.
    pub fn ask_passes(
        &mut self,
        node: Node,
        rule: Rule,
        test: Test,
        subjects: &[Subject],
    ) -> Result<(), AllocError>
        ensures { OnOk result (self.new ≡ walks.asked (asking.ask node rule (asking.passes test subjects.now ∷ [])) self.old) }
    {
        let fact = passes(self.alloc, test, subjects)?;
        self.ask_one(node, rule, fact)
    }

    /// Asks that a type keeps the limits.
    pub fn limits(&mut self, node: Node) -> Result<(), AllocError>
        ensures { OnOk result (self.new ≡ walks.asked (demands.limits node) self.old) }
    {
        self.ask_passes(node, Rule::Parts, Test::Limits, &[type_of(node)])
    }

    /// Says what the place of a node expects.
    pub fn expects(&mut self, node: Node, made: Op, parts: &[Subject]) -> Result<(), AllocError>
        ensures { OnOk result (self.new ≡ walks.asked (demands.expects node made parts.now) self.old) }
    {
        self.ask_is(node, Rule::Equal, expected(node), made, parts)
    }
}
