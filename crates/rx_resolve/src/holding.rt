//! What structs and enums hold.

ghost use Rattle.std.specs.Prelude.{◌≡◌, [], ◌∷◌, ◌++◌, map, OnOk, IfOk};
ghost use Rattle.rx_tree.specs.PlainOf.{plain-TypeText, plain-Field, plain-EnumVariant, plain-Item, types_of};
ghost use Rattle.rx_resolve_names.specs.Holding as holding;
ghost use Rattle.rx_resolve_names.specs.Causes as causes;

use crate::items::Items;
use crate::types::as_type;
use rx_core::{List, Span};
use rx_graph_cycles::first_on_cycle;
use rx_tree::{EnumVariant, Field, Item, ItemNode, TypeNode, TypeText};
use std::alloc::{AllocError, Global};

impl<'t> Items<'t> {
    /// Adds the numbers of the structs and enums that a type names.
    #[cycle(held)]
    #[tactic(auto, using(rx_tree::proofs::Rules::type_rules, crate::proofs::WalkRules::append_none))]
    fn held_in(&self, typ: &TypeText, held: &mut List<u32>) -> Result<(), AllocError>
        ensures { OnOk result (held.new ≡ held.old ++ holding.held_in (map plain-Item self.now) (plain-TypeText typ.now)) }
    {
        match &typ.node {
            TypeNode::Kind(_) | TypeNode::Bool => Ok(()),
            TypeNode::Tuple(types) => self.held_among(types.as_slice(), held),
            TypeNode::Ref(_, _, inner) => self.held_in(inner.get(), held),
            TypeNode::Named(name, _) => {
                match as_type(self.type_item(name.name.as_str())) {
                    Some(number) => held.push(number),
                    None => Ok(()),
                }
            }
        }
    }

    #[cycle(held)]
    #[tactic(auto, using(rx_tree::proofs::Rules::type_rules))]
    fn held_among(&self, types: &[TypeText], held: &mut List<u32>) -> Result<(), AllocError>
        ensures { OnOk result (held.new ≡ held.old ++ holding.held_among (map plain-Item self.now) (types_of (map plain-TypeText types.now))) }
    {
        for typ in types {
            self.held_in(typ, held)?;
        }
        Ok(())
    }

    fn held_by_fields(&self, fields: &[Field], held: &mut List<u32>) -> Result<(), AllocError>
        ensures { OnOk result (held.new ≡ held.old ++ holding.held_by_fields (map plain-Item self.now) (map plain-Field fields.now)) }
    {
        for field in fields {
            self.held_in(&field.typ, held)?;
        }
        Ok(())
    }

    fn held_by_variants(
        &self,
        variants: &[EnumVariant],
        held: &mut List<u32>,
    ) -> Result<(), AllocError>
        ensures { OnOk result (held.new ≡ held.old ++ holding.held_by_variants (map plain-Item self.now) (map plain-EnumVariant variants.now)) }
    {
        for variant in variants {
            self.held_among(variant.types.as_slice(), held)?;
        }
        Ok(())
    }

    /// The numbers of the structs and enums that an item holds.
    fn held_by(&self, alloc: Global, item: &Item) -> Result<List<u32>, AllocError>
        ensures { IfOk result (λ it. it ≡ holding.held_by (map plain-Item self.now) (plain-Item item.now)) }
    {
        let mut held = List::new(alloc);
        match &item.node {
            ItemNode::Struct(data) => self.held_by_fields(data.fields.as_slice(), &mut held)?,
            ItemNode::Enum(data) => self.held_by_variants(data.variants.as_slice(), &mut held)?,
            _ => (),
        }
        Ok(held)
    }

    /// The numbers of the structs and enums that each of these items holds.
    pub(crate) fn held(&self, alloc: Global, items: &[Item]) -> Result<List<List<u32>>, AllocError>
        ensures { IfOk result (λ it. it ≡ map (holding.held_by (map plain-Item self.now)) (map plain-Item items.now)) }
    {
        let mut all = List::new(alloc);
        for item in items {
            all.push(self.held_by(alloc, item)?)?;
        }
        Ok(all)
    }

    /// The place of the name of the first struct or enum that holds itself.
    pub(crate) fn self_holding(&self, alloc: Global) -> Result<Option<Span>, AllocError>
        ensures { IfOk result (λ r. causes.HoldsItself (map plain-Item self.now) r) }
    {
        let items = self.items;
        let held = self.held(alloc, items)?;
        match first_on_cycle(alloc, held.as_slice())? {
            Some(number) => match items.get(number as usize) {
                Some(item) => Ok(Some(name_span(item))),
                None => Ok(None),
            },
            None => Ok(None),
        }
    }
}

/// The place of an item's name.
fn name_span(item: &Item) -> Span
    ensures { result ≡ holding.name_span (plain-Item item.now) }
{
    match &item.node {
        ItemNode::Rt(span) => *span,
        ItemNode::Struct(data) => data.name.span,
        ItemNode::Enum(data) => data.name.span,
        ItemNode::Func(function) => function.name.span,
    }
}
