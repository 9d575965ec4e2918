//! The names in patterns.

ghost use Rattle.std.specs.Prelude.{◌≡◌, ◌≢◌, ℕ, suc, [], ◌∷◌, ◌++◌, length, map, Ok, Err, Some, None, Option, option_map};
ghost use Rattle.rx_tree.specs.PlainOf.{plain-Pattern, plain-FieldPattern, patterns_of, field_patterns_of, plain-Item};
ghost use Rattle.rx_resolve_names.specs.Meant as meant;
ghost use Rattle.rx_resolve_names.specs.Steps as steps;
ghost use Rattle.rx_resolve_names.specs.Names as names;
ghost use Rattle.rx_resolve.specs.Walks as walks;

use crate::items::{declare, number};
use crate::types::known;
use crate::walk::Walk;
use rx_core::{List, Span};
use rx_resolve_names::{Misnamed, Table};
use rx_tree::{FieldPattern, Ident, Item, ItemNode, Pattern, PatternNode};
use std::alloc::AllocError;

/// The number of a struct that was found.
fn as_struct(found: Option<(u32, &Item)>) -> Option<u32>
    ensures { result ≡ meant.as_struct (option_map (λ e. (e.0, plain-Item e.1.now)) found.entry) }
{
    match found {
        Some((number, item)) => match &item.node {
            ItemNode::Struct(_) => Some(number),
            _ => None,
        },
        None => None,
    }
}

/// The number of an enum that was found.
fn as_enum(found: Option<(u32, &Item)>) -> Option<u32>
    ensures { result ≡ meant.as_enum (option_map (λ e. (e.0, plain-Item e.1.now)) found.entry) }
{
    match found {
        Some((number, item)) => match &item.node {
            ItemNode::Enum(_) => Some(number),
            _ => None,
        },
        None => None,
    }
}

impl<'w, 't> Walk<'w, 't> {
    /// Adds an entry of a path to a variant.
    pub(crate) fn variant_entry(&mut self, name: &Ident, variant: &Ident) -> Result<(), Misnamed>
        ensures { walks.Walks (steps.names (walks.inside self.old) self.old.path (names.variant_in (walks.inside self.old) name.now variant.now) self.old.tables) self.old result self.new }
    {
        let first = known(as_enum(self.items.type_item(name.name.as_str())), name.span)?;
        let found = self
            .items
            .variant(name.name.as_str(), variant.name.as_str());
        let second = known(found, variant.span)?;
        self.enter(&[first, second], false)
    }

    /// Adds an entry of a path to a struct.
    pub(crate) fn struct_entry(&mut self, name: &Ident) -> Result<(), Misnamed>
        ensures { walks.Walks (steps.names (walks.inside self.old) self.old.path (steps.one (names.struct_in (walks.inside self.old) name.now)) self.old.tables) self.old result self.new }
    {
        let number = known(
            as_struct(self.items.type_item(name.name.as_str())),
            name.span,
        )?;
        self.enter(&[number], false)
    }

    pub(crate) fn add_variable(&mut self, name: Span) -> Result<(), Misnamed>
        ensures { steps.Resolves (Ok (walks.with_tables (steps.with_variable name self.old.tables) self.old)) result self.new }
    {
        match self.tables.vars.push(name) {
            Ok(()) => Ok(()),
            Err(AllocError) => Err(Misnamed::OutOfMemory),
        }
    }

    /// A variable that a pattern declares.
    fn binding(&mut self, bindings: &mut Table<'t>, name: &'t Ident) -> Result<(), Misnamed>
        ensures { walks.Binds (names.binds (walks.inside self.old) self.old.path name.now (record { bindings = bindings.old; tables = self.old.tables })) self.old result self.new bindings.new }
    {
        let place = self.tables.vars.len();
        declare(bindings, name, place)?;
        self.add_variable(name.span)?;
        self.enter(&[number(place)], false)
    }

    #[cycle(pattern)]
    #[tactic(auto, using(rx_tree::proofs::Rules::pattern_rules, crate::proofs::WalkRules::walk_rules))]
    pub(crate) fn pattern(
        &mut self,
        bindings: &mut Table<'t>,
        pattern: &'t Pattern,
    ) -> Result<(), Misnamed>
        ensures { walks.Binds (names.in_pattern (walks.inside self.old) self.old.path (plain-Pattern pattern.now) (record { bindings = bindings.old; tables = self.old.tables })) self.old result self.new bindings.new }
    {
        match &pattern.node {
            PatternNode::Wild | PatternNode::Int(_, _, _) | PatternNode::Bool(_) => Ok(()),
            PatternNode::Bind(name, _) => self.binding(bindings, name),
            PatternNode::Tuple(parts) => self.patterns(bindings, parts.as_slice()),
            PatternNode::Variant(name, variant, parts) => {
                self.variant_entry(name, variant)?;
                self.patterns(bindings, parts.as_slice())
            }
            PatternNode::Make(name, fields) => {
                self.struct_entry(name)?;
                self.field_patterns(bindings, fields.as_slice())
            }
        }
    }

    /// A pattern that is a child of the node.
    #[cycle(pattern)]
    #[tactic(auto, using(rx_tree::proofs::Rules::pattern_rules, crate::proofs::WalkRules::walk_rules))]
    pub(crate) fn child_pattern(
        &mut self,
        bindings: &mut Table<'t>,
        child: u32,
        pattern: &'t Pattern,
    ) -> Result<(), Misnamed>
        ensures { walks.Binds (names.in_pattern (walks.inside self.old) (steps.child self.old.path child) (plain-Pattern pattern.now) (record { bindings = bindings.old; tables = self.old.tables })) self.old result self.new bindings.new }
    {
        self.down(child)?;
        self.pattern(bindings, pattern)?;
        self.up();
        Ok(())
    }

    #[cycle(pattern)]
    #[tactic(auto, using(rx_tree::proofs::Rules::pattern_rules, crate::proofs::WalkRules::walk_rules))]
    fn patterns(
        &mut self,
        bindings: &mut Table<'t>,
        patterns: &'t [Pattern],
    ) -> Result<(), Misnamed>
        ensures { walks.Binds (names.in_patterns (walks.inside self.old) self.old.path 0 (patterns_of (map plain-Pattern patterns.now)) (record { bindings = bindings.old; tables = self.old.tables })) self.old result self.new bindings.new }
    {
        let mut child = 0u32;
        for pattern in patterns {
            self.child_pattern(bindings, child, pattern)?;
            child = child.saturating_add(1);
        }
        Ok(())
    }

    #[cycle(pattern)]
    #[tactic(auto, using(rx_tree::proofs::Rules::pattern_rules, crate::proofs::WalkRules::walk_rules))]
    fn field_patterns(
        &mut self,
        bindings: &mut Table<'t>,
        fields: &'t [FieldPattern],
    ) -> Result<(), Misnamed>
        ensures { walks.Binds (names.in_field_patterns (walks.inside self.old) self.old.path 0 (field_patterns_of (map plain-FieldPattern fields.now)) (record { bindings = bindings.old; tables = self.old.tables })) self.old result self.new bindings.new }
    {
        let mut child = 0u32;
        for field in fields {
            self.field_pattern(bindings, child, field)?;
            child = child.saturating_add(1);
        }
        Ok(())
    }

    /// The pattern of a field, a child of the node.
    #[cycle(pattern)]
    #[tactic(auto, using(rx_tree::proofs::Rules::pattern_rules, crate::proofs::WalkRules::walk_rules))]
    fn field_pattern(
        &mut self,
        bindings: &mut Table<'t>,
        child: u32,
        field: &'t FieldPattern,
    ) -> Result<(), Misnamed>
        ensures { walks.Binds (names.in_pattern (walks.inside self.old) (steps.child self.old.path child) (plain-FieldPattern field.now).1 (record { bindings = bindings.old; tables = self.old.tables })) self.old result self.new bindings.new }
    {
        self.child_pattern(bindings, child, &field.pattern)
    }
}
