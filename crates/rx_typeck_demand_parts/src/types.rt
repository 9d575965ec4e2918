//! What the types that are written ask.

ghost use Rattle.std.specs.Prelude.{◌≡◌, [], ◌∷◌, ◌++◌, map, Ok, Err, Option, Some, None, option_map, OnOk};
ghost use Rattle.rx_tree.specs.PlainOf.{plain-TypeText, types_of};
ghost use Rattle.rx_tree.specs.Plain as plain;
ghost use Rattle.rx_typed.specs.Named.{written_node};
ghost use Rattle.rx_typed.specs.Naming as naming;
ghost use Rattle.rx_typeck_typed.specs.Demands as demands;
ghost use Rattle.rx_typeck_demand_parts.specs.Walks as walks;

use crate::facts::type_of;
use crate::walk::Walk;
use rx_core::{Kind, List, Span};
use rx_tree::{Ident, TypeNode, TypeText};
use rx_typeck_solver::{Op, Rule, Subject, Test};
use rx_typed::{Node, Site};
use std::alloc::AllocError;

impl<'t> Walk<'t> {
    /// A node has the type that is made of these.
    fn written(&mut self, node: Node, made: Op, parts: &[Subject]) -> Result<(), AllocError>
        ensures { OnOk result (self.new ≡ walks.asked (demands.written node made parts.now) self.old) }
    {
        self.ask_is(node, Rule::Equal, type_of(node), made, parts)
    }

    fn integer_type(&mut self, span: Span, kind: Kind) -> Result<Node, AllocError>
        ensures { walks.Walks (naming.of_type (plain.kind_type span kind)) demands.of_type written_node self.old result self.new }
    {
        let node = self.node(span, Site::Value)?;
        self.written(node, Op::Integer(kind), &[])?;
        Ok(node)
    }

    fn truth_type(&mut self, span: Span) -> Result<Node, AllocError>
        ensures { walks.Walks (naming.of_type (plain.bool_type span)) demands.of_type written_node self.old result self.new }
    {
        let node = self.node(span, Site::Value)?;
        self.written(node, Op::Truth, &[])?;
        Ok(node)
    }

    /// A struct or enum that is named.
    fn named_type(
        &mut self,
        span: Span,
        name: &Ident,
        lifetimes: &Option<List<Option<Ident>>>,
    ) -> Result<Node, AllocError>
        ensures { walks.Walks (naming.of_type (plain.named_type span name.now lifetimes.now)) demands.of_type written_node self.old result self.new }
    {
        let node = self.node(span, Site::Value)?;
        let item = self.entry().first;
        self.lifetimes(node, item, lifetimes)?;
        self.written(node, Op::Item(item), &[])?;
        Ok(node)
    }

    /// A type has none or all of its lifetimes.
    fn lifetimes(
        &mut self,
        node: Node,
        item: u32,
        lifetimes: &Option<List<Option<Ident>>>,
    ) -> Result<(), AllocError>
        ensures { OnOk result (self.new ≡ walks.asked (demands.lifetimes_asked node item (naming.lifetimes_written lifetimes.now)) self.old) }
    {
        match lifetimes {
            Some(written) => self.ask_passes(
                node,
                Rule::Lifetimes,
                Test::HasLifetimes(item, written.len()),
                &[],
            ),
            None => Ok(()),
        }
    }

    /// The entry of a reference, where its lifetime is written.
    fn lifetime_entry(&mut self, lifetime: &Option<Ident>)
        ensures { self.new ≡ walks.moved (naming.lifetime_entry lifetime.now self.old.cursor).1 self.old }
    {
        match lifetime {
            Some(_) => {
                self.entry();
            }
            None => (),
        }
    }

    #[cycle(typ)]
    #[tactic(auto, using(rx_tree::proofs::Rules::type_rules))]
    pub fn typ(&mut self, typ: &'t TypeText) -> Result<Node, AllocError>
        ensures { walks.Walks (naming.of_type (plain-TypeText typ.now)) demands.of_type written_node self.old result self.new }
    {
        match &typ.node {
            TypeNode::Kind(kind) => self.integer_type(typ.span, *kind),
            TypeNode::Bool => self.truth_type(typ.span),
            TypeNode::Tuple(types) => self.tuple_type(typ.span, types.as_slice()),
            TypeNode::Ref(lifetime, mutable, inner) => {
                self.reference_type(typ.span, lifetime, *mutable, inner.get())
            }
            TypeNode::Named(name, lifetimes) => self.named_type(typ.span, name, lifetimes),
        }
    }

    #[cycle(typ)]
    #[tactic(auto, using(rx_tree::proofs::Rules::type_rules))]
    fn tuple_type(&mut self, span: Span, types: &'t [TypeText]) -> Result<Node, AllocError>
        ensures { walks.Walks (naming.of_type (plain.tuple_type span (types_of (map plain-TypeText types.now)))) demands.of_type written_node self.old result self.new }
    {
        let node = self.node(span, Site::Value)?;
        let parts = self.types(types)?;
        self.written(node, Op::Tuple, parts.as_slice())?;
        Ok(node)
    }

    #[cycle(typ)]
    #[tactic(auto, using(rx_tree::proofs::Rules::type_rules))]
    fn reference_type(
        &mut self,
        span: Span,
        lifetime: &'t Option<Ident>,
        mutable: bool,
        inner: &'t TypeText,
    ) -> Result<Node, AllocError>
        ensures { walks.Walks (naming.of_type (plain.ref_type span lifetime.now mutable (plain-TypeText inner.now))) demands.of_type written_node self.old result self.new }
    {
        let node = self.node(span, Site::Value)?;
        self.lifetime_entry(lifetime);
        let inner = self.typ(inner)?;
        self.written(node, Op::Referring(mutable), &[type_of(inner)])?;
        Ok(node)
    }

    /// Types, and what has each of them.
    #[cycle(typ)]
    #[tactic(auto, using(rx_tree::proofs::Rules::type_rules))]
    fn types(&mut self, types: &'t [TypeText]) -> Result<List<Subject>, AllocError>
        ensures { walks.Walks (naming.of_types (types_of (map plain-TypeText types.now))) demands.of_types demands.written_nodes self.old result self.new }
    {
        let mut nodes = List::new(self.alloc);
        for typ in types {
            let node = self.typ(typ)?;
            nodes.push(type_of(node))?;
        }
        Ok(nodes)
    }

    /// A whole type.
    pub fn whole_type(&mut self, typ: &'t TypeText) -> Result<Node, AllocError>
        ensures { walks.Walks (naming.of_type (plain-TypeText typ.now)) demands.whole_type written_node self.old result self.new }
    {
        let node = self.typ(typ)?;
        self.limits(node)?;
        Ok(node)
    }
}
