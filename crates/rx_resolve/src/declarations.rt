//! The names in items.

ghost use Rattle.std.specs.Prelude.{◌≡◌, ◌≢◌, ℕ, suc, [], ◌∷◌, ◌++◌, length, map, Ok, Err, Some, None, Option, option_map, IfOk};
ghost use Rattle.rx_tree.specs.PlainOf.{plain-TypeText, plain-Field, plain-EnumVariant, plain-Param, plain-Func, plain-Item};
ghost use Rattle.rx_resolve_names.specs.Meant as meant;
ghost use Rattle.rx_resolve_names.specs.Steps as steps;
ghost use Rattle.rx_resolve_names.specs.Names as names;
ghost use Rattle.rx_resolve_names.specs.Items as items;
ghost use Rattle.rx_resolve.specs.Walks as walks;

use crate::items::{declare, number};
use crate::types::pushed;
use crate::walk::Walk;
use rx_core::{List, Span};
use rx_resolve_names::{Misnamed, Table};
use rx_tree::{BoundLifetime, EnumVariant, Field, Func, Ident, Item, ItemNode, Param, TypeText};

impl<'w, 't> Walk<'w, 't> {
    /// Names of a list, no two of which may be the same.
    fn distinct(&mut self, names: &'t [Ident]) -> Result<(), Misnamed>
        ensures { walks.Walks (items.distinct [] 0 names.now self.old.tables) self.old result self.new }
    {
        let mut seen = Table::new(self.alloc);
        for i in 0..names.len() {
            declare(&mut seen, &names[i], i)?;
        }
        Ok(())
    }

    /// The fields of a struct.
    fn declared(&mut self, fields: &'t [Field]) -> Result<(), Misnamed>
        ensures { walks.Walks (items.in_declared (walks.inside self.old) self.old.path [] 0 (map plain-Field fields.now) self.old.tables) self.old result self.new }
    {
        let mut seen = Table::new(self.alloc);
        let mut child = 0u32;
        for field in fields {
            declare(&mut seen, &field.name, child as usize)?;
            self.child_type(child, &field.typ)?;
            child = child.saturating_add(1);
        }
        Ok(())
    }

    /// The variants of an enum.
    fn variants(&mut self, variants: &'t [EnumVariant]) -> Result<(), Misnamed>
        ensures { walks.Walks (items.in_variants (walks.inside self.old) self.old.path [] 0 0 (map plain-EnumVariant variants.now) self.old.tables) self.old result self.new }
    {
        let mut seen = Table::new(self.alloc);
        let mut child = 0u32;
        for i in 0..variants.len() {
            declare(&mut seen, &variants[i].name, i)?;
            child = self.types(child, variants[i].types.as_slice())?;
        }
        Ok(())
    }

    /// Adds the numbers of a lifetime's bounds.
    fn push_bounds(&self, bounds: &[Ident], numbers: &mut List<u32>) -> Result<(), Misnamed>
        ensures { steps.Resolves (steps.both (Ok numbers.old) (items.bounds_in (walks.inside self.now) bounds.now)) result numbers.new }
    {
        for name in bounds {
            pushed(numbers, self.lifetime(name)?)?;
        }
        Ok(())
    }

    /// Adds the numbers of the bounds of declared lifetimes, no two of which may have one name.
    fn push_lifetime_bounds(
        &self,
        lifetimes: &'t [BoundLifetime],
        numbers: &mut List<u32>,
    ) -> Result<(), Misnamed>
        ensures { steps.Resolves (steps.both (Ok numbers.old) (items.lifetimes_of (walks.inside self.now) [] 0 lifetimes.now)) result numbers.new }
    {
        let mut seen = Table::new(self.alloc);
        for i in 0..lifetimes.len() {
            declare(&mut seen, &lifetimes[i].name, i)?;
            self.push_bounds(lifetimes[i].bounds.as_slice(), numbers)?;
        }
        Ok(())
    }

    /// Adds an entry of the node, unless it names nothing.
    fn entry(&mut self, numbers: &[u32]) -> Result<(), Misnamed>
        ensures { walks.Walks (steps.numbered (walks.inside self.old) self.old.path numbers.now self.old.tables) self.old result self.new }
    {
        if numbers.is_empty() {
            Ok(())
        } else {
            self.enter(numbers, false)
        }
    }

    /// A parameter, by its name and its type, a child of the node.
    fn parameter(
        &mut self,
        seen: &mut Table<'t>,
        child: u32,
        param: &'t Param,
    ) -> Result<(), Misnamed>
        ensures { walks.Binds (items.in_parameter (walks.inside self.old) self.old.path child (plain-Param param.now) (record { bindings = seen.old; tables = self.old.tables })) self.old result self.new seen.new }
    {
        declare(seen, &param.name, child as usize)?;
        self.add_variable(param.name.span)?;
        self.child_type(child, &param.typ)
    }

    /// The parameters of a function.
    fn parameters(&mut self, params: &'t [Param]) -> Result<Table<'t>, Misnamed>
        ensures { walks.Declares (items.in_parameters (walks.inside self.old) self.old.path 0 (map plain-Param params.now) (record { bindings = []; tables = self.old.tables })) self.old result self.new }
    {
        let mut seen = Table::new(self.alloc);
        let mut child = 0u32;
        for param in params {
            self.parameter(&mut seen, child, param)?;
            child = child.saturating_add(1);
        }
        Ok(seen)
    }

    /// The result's type that may be written, a child of the node; and the number of the child behind it.
    fn result_type(&mut self, child: u32, typ: &'t Option<TypeText>) -> Result<u32, Misnamed>
        ensures tables { walks.Walks (names.in_optional_type (walks.inside self.old) (steps.child self.old.path child) (option_map plain-TypeText typ.now) self.old.tables) self.old result self.new }
        ensures place { IfOk result (λ n. n ≡ items.body_at child (option_map plain-TypeText typ.now)) }
    {
        match typ {
            Some(typ) => {
                self.child_type(child, typ)?;
                Ok(child.saturating_add(1))
            }
            None => Ok(child),
        }
    }

    /// A function.
    #[tactic(auto, using(crate::proofs::WalkRules::params_counted))]
    fn function(&mut self, function: &'t Func) -> Result<(), Misnamed>
        ensures { walks.Walks (items.in_function (walks.inside self.old) self.old.scope (walks.around_from [] self.old.around) self.old.path (plain-Func function.now) self.old.tables) self.old result self.new }
    {
        let params = function.params.as_slice();
        let mut numbers = List::new(self.alloc);
        self.push_lifetime_bounds(function.lifetimes.as_slice(), &mut numbers)?;
        push_places(params, &mut numbers)?;
        self.entry(numbers.as_slice())?;
        let bindings = self.parameters(params)?;
        let body = self.result_type(number(params.len()), &function.result)?;
        self.bound_block(bindings, body, &function.body)
    }

    /// An item.
    pub(crate) fn item(&mut self, item: &'t Item) -> Result<(), Misnamed>
        ensures { walks.Walks (items.in_form (walks.inside self.old) self.old.scope (walks.around_from [] self.old.around) self.old.path (plain-Item item.now) self.old.tables) self.old result self.new }
    {
        match &item.node {
            ItemNode::Rt(_) => Ok(()),
            ItemNode::Struct(data) => {
                self.distinct(data.lifetimes.as_slice())?;
                self.declared(data.fields.as_slice())
            }
            ItemNode::Enum(data) => {
                self.distinct(data.lifetimes.as_slice())?;
                self.variants(data.variants.as_slice())
            }
            ItemNode::Func(function) => self.function(function),
        }
    }
}

/// Adds the numbers of parameters.
fn push_places(params: &[Param], numbers: &mut List<u32>) -> Result<(), Misnamed>
    ensures { steps.Resolves (Ok (numbers.old ++ items.numbers_from 0 (map plain-Param params.now))) result numbers.new }
{
    let mut place = 0u32;
    for _param in params {
        pushed(numbers, place)?;
        place = place.saturating_add(1);
    }
    Ok(())
}
