//! Parameters, and the entry of names of a function's item.

ghost use Rattle.std.specs.Prelude.{◌≡◌, map};
ghost use Rattle.rx_tree.specs.PlainOf.{plain-Func, plain-Param as plain-ParamTree};
ghost use Rattle.rx_typed.specs.Named as named;
ghost use Rattle.rx_typed.specs.Naming as naming;
ghost use Rattle.rx_typed.specs.Elaborated as elaborated;
ghost use Rattle.rx_typed.specs.PlainTree.{plain-Param};
ghost use Rattle.rx_typeck_elaborate_parts.specs.Walks as walks;

use crate::walk::Walk;
use rx_core::{List, keep, pushed};
use rx_tree::{BoundLifetime, Func, Param as ParamTree};
use rx_typed::{Declaration, Param, Stage};
use std::alloc::AllocError;

/// Whether a lifetime is declared with bounds.
fn has_bounds(lifetimes: &[BoundLifetime]) -> bool
    ensures { result ≡ naming.has_bounds lifetimes.now }
{
    for lifetime in lifetimes {
        if !is_nothing(lifetime) {
            return true;
        }
    }
    false
}

fn is_nothing(lifetime: &BoundLifetime) -> bool
    ensures { result ≡ naming.is_nothing lifetime.now.bounds }
{
    match lifetime.bounds.as_slice() {
        [] => true,
        _ => false,
    }
}

/// Whether the item of a function has an entry of names.
pub fn has_entry(function: &Func) -> bool
    ensures { result ≡ naming.has_entry (plain-Func function.now) }
{
    match function.params.as_slice() {
        [] => has_bounds(function.lifetimes.as_slice()),
        _ => true,
    }
}

impl<'t> Walk<'t> {
    pub fn entry_if(&mut self, wanted: bool)
        ensures { self.new ≡ walks.moved (naming.entry_if wanted self.old.cursor).1 self.old }
    {
        if wanted {
            self.entry();
        }
    }

    #[tactic(auto, using(rx_tree::proofs::Rules::type_rules, crate::proofs::Numbered::type_numbered))]
    fn parameter(&mut self, param: &ParamTree) -> Result<Param, AllocError>
        ensures { walks.Builds plain-Param (naming.of_parameter (plain-ParamTree param.now)) (λ _ p. record { node = (named.written_node p.typ).number; variable = p.variable }) self.old result self.new }
    {
        let mutable = param.mutable;
        let stage = Stage::Known;
        let variable = self.cursor.declare(Declaration { mutable, stage })?;
        let node = self.cursor.number();
        self.typ(&param.typ)?;
        Ok(Param { node, variable })
    }

    pub fn parameters(&mut self, params: &[ParamTree]) -> Result<List<Param>, AllocError>
        ensures { walks.Builds (map plain-Param) (naming.of_parameters (map plain-ParamTree params.now)) (λ _ ps. elaborated.parameters ps) self.old result self.new }
    {
        let mut all = List::new(self.given.alloc);
        for param in params {
            let (param, rest) = keep(all, self.parameter(param))?;
            all = pushed(rest, param)?;
        }
        Ok(all)
    }
}
