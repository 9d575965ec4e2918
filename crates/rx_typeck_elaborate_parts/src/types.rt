//! Types that are written: the walk goes over them.

ghost use Rattle.std.specs.Prelude.{◌≡◌, map, option_map};
ghost use Rattle.rx_tree.specs.PlainOf.{plain-TypeText, types_of};
ghost use Rattle.rx_typed.specs.Naming as naming;
ghost use Rattle.rx_typeck_elaborate_parts.specs.Walks as walks;

use crate::walk::Walk;
use rx_tree::{Ident, TypeNode, TypeText};
use rx_typed::Site;
use std::alloc::AllocError;

impl<'t> Walk<'t> {
    /// The entry of a reference, where its lifetime is written.
    fn lifetime_entry(&mut self, lifetime: &Option<Ident>)
        ensures { self.new ≡ walks.moved (naming.lifetime_entry lifetime.now self.old.cursor).1 self.old }
    {
        match lifetime {
            Some(_) => {
                self.entry();
            }
            None => (),
        }
    }

    #[cycle(typ)]
    #[tactic(auto, using(rx_tree::proofs::Rules::type_rules))]
    pub fn typ(&mut self, typ: &TypeText) -> Result<(), AllocError>
        ensures { walks.Goes (naming.of_type (plain-TypeText typ.now)) self.old result self.new }
    {
        self.node(typ.span, Site::Value)?;
        match &typ.node {
            TypeNode::Kind(_) | TypeNode::Bool => Ok(()),
            TypeNode::Tuple(types) => self.types(types.as_slice()),
            TypeNode::Ref(lifetime, _, inner) => {
                self.lifetime_entry(lifetime);
                self.typ(inner.get())
            }
            TypeNode::Named(_, _) => {
                self.entry();
                Ok(())
            }
        }
    }

    #[cycle(typ)]
    #[tactic(auto, using(rx_tree::proofs::Rules::type_rules))]
    fn types(&mut self, types: &[TypeText]) -> Result<(), AllocError>
        ensures { walks.Goes (naming.of_types (types_of (map plain-TypeText types.now))) self.old result self.new }
    {
        for typ in types {
            self.typ(typ)?;
        }
        Ok(())
    }

    /// A type that may be written.
    pub fn optional_type(&mut self, typ: &Option<TypeText>) -> Result<(), AllocError>
        ensures { walks.Goes (naming.of_optional_type (option_map plain-TypeText typ.now)) self.old result self.new }
    {
        match typ {
            Some(typ) => self.typ(typ),
            None => Ok(()),
        }
    }
}
