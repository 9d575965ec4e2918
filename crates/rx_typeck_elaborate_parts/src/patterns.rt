//! The typed patterns.

ghost use Rattle.std.specs.Prelude.{map, None};
ghost use Rattle.rx_tree.specs.PlainOf.{plain-Pattern as plain-PatternTree, plain-FieldPattern, patterns_of, field_patterns_of};
ghost use Rattle.rx_tree.specs.Plain as plain;
ghost use Rattle.rx_typed.specs.Naming as naming;
ghost use Rattle.rx_typed.specs.Types as types;
ghost use Rattle.rx_typed.specs.Elaborated as elaborated;
ghost use Rattle.rx_typed.specs.PlainTree.{plain-Pattern, plain-Subpattern};
ghost use Rattle.rx_typeck_elaborate_parts.specs.Listing.{parts_listed};
ghost use Rattle.rx_typeck_elaborate_parts.specs.Declaring.{declares_of};
ghost use Rattle.rx_typeck_elaborate_parts.specs.Walks as walks;

use crate::dereferenced::kind_behind;
use crate::looked_up::{field_of, has_several};
use crate::matching::mode_of;
use crate::walk::Walk;
use rx_core::{Kind, List, Span, keep, pushed};
use rx_tree::{FieldPattern, Ident, Pattern as PatternTree, PatternNode};
use rx_typed::{Constant, Declaration, Node, Pattern, Site, Stage, Subpattern};
use std::alloc::AllocError;

/// What is told of a pattern: its node, and its variable where the whole pattern is one.
#[derive(Clone, Copy)]
pub struct Declares {
    pub node: Node,
    pub variable: Option<u32>,
}

impl<'t> Walk<'t> {
    #[tactic(auto, using(rx_typed::proofs::Rules::typed_pattern_rules))]
    fn wild(&mut self, span: Span) -> Result<(Pattern, Declares), AllocError>
        ensures { walks.Tells plain-Pattern (naming.of_pattern (plain.wild span)) (λ t. elaborated.pattern t None) declares_of self.old result self.new }
    {
        let node = self.node(span, Site::Value)?;
        let variable = None;
        Ok((Pattern::Any, Declares { node, variable }))
    }

    #[tactic(auto, using(rx_typed::proofs::Rules::typed_pattern_rules))]
    fn binding(
        &mut self,
        round: Option<bool>,
        span: Span,
        _name: &Ident,
        mutable: bool,
    ) -> Result<(Pattern, Declares), AllocError>
        ensures { walks.Tells plain-Pattern (naming.of_pattern (plain.bind span _name.now mutable)) (λ t. elaborated.pattern t round) declares_of self.old result self.new }
    {
        let node = self.node(span, Site::Value)?;
        self.entry();
        let stage = Stage::Given;
        let variable = self.cursor.declare(Declaration { mutable, stage })?;
        let mode = mode_of(self.given.copies(node), round);
        let pattern = Pattern::Bind(node.number, variable, mode);
        let variable = Some(variable);
        Ok((pattern, Declares { node, variable }))
    }

    fn literal_pattern(
        &mut self,
        span: Span,
        negative: bool,
        value: u64,
        _suffix: Option<Kind>,
    ) -> Result<(Pattern, Declares), AllocError>
        ensures { walks.Tells plain-Pattern (naming.of_pattern (plain.int_pattern span negative value _suffix)) (λ t. elaborated.pattern t None) declares_of self.old result self.new }
    {
        let node = self.node(span, Site::Value)?;
        let kind = kind_behind(self.given.typ(node));
        let constant = Constant::Integer(kind, negative, value);
        let pattern = self.given.exactly(node, constant)?;
        let variable = None;
        Ok((pattern, Declares { node, variable }))
    }

    fn truth_pattern(&mut self, span: Span, value: bool) -> Result<(Pattern, Declares), AllocError>
        ensures { walks.Tells plain-Pattern (naming.of_pattern (plain.bool_pattern span value)) (λ t. elaborated.pattern t None) declares_of self.old result self.new }
    {
        let node = self.node(span, Site::Value)?;
        let pattern = self.given.exactly(node, Constant::Truth(value))?;
        let variable = None;
        Ok((pattern, Declares { node, variable }))
    }

    /// A pattern, below these references: none, or whether all are mutable.
    #[cycle(pattern)]
    #[tactic(auto, using(rx_tree::proofs::Rules::pattern_rules))]
    pub fn pattern(
        &mut self,
        round: Option<bool>,
        pattern: &PatternTree,
    ) -> Result<(Pattern, Declares), AllocError>
        ensures { walks.Tells plain-Pattern (naming.of_pattern (plain-PatternTree pattern.now)) (λ t. elaborated.pattern t round) declares_of self.old result self.new }
    {
        let span = pattern.span;
        match &pattern.node {
            PatternNode::Wild => self.wild(span),
            PatternNode::Bind(name, mutable) => self.binding(round, span, name, *mutable),
            PatternNode::Int(negative, value, suffix) => {
                self.literal_pattern(span, *negative, *value, *suffix)
            }
            PatternNode::Bool(value) => self.truth_pattern(span, *value),
            PatternNode::Tuple(parts) => self.tuple_pattern(round, span, parts.as_slice()),
            PatternNode::Variant(name, variant, parts) => {
                self.variant_pattern(round, span, name, variant, parts.as_slice())
            }
            PatternNode::Make(name, fields) => {
                self.struct_pattern(round, span, name, fields.as_slice())
            }
        }
    }

    #[cycle(pattern)]
    #[tactic(auto, using(rx_typed::proofs::Rules::typed_pattern_rules, crate::proofs::Listed::listed_rules))]
    fn tuple_pattern(
        &mut self,
        round: Option<bool>,
        span: Span,
        parts: &[PatternTree],
    ) -> Result<(Pattern, Declares), AllocError>
        ensures { walks.Tells plain-Pattern (naming.of_pattern (plain.tuple_pattern span (patterns_of (map plain-PatternTree parts.now)))) (λ t. elaborated.pattern t round) declares_of self.old result self.new }
    {
        let node = self.node(span, Site::Value)?;
        let round = self.given.met(node, round);
        let parts = self.parts(round, parts)?;
        let pattern = self.given.behind_all(node, Pattern::Parts(parts))?;
        let variable = None;
        Ok((pattern, Declares { node, variable }))
    }

    #[cycle(pattern)]
    #[tactic(auto, using(rx_typed::proofs::Rules::typed_pattern_rules, crate::proofs::Listed::listed_rules, crate::proofs::References::assigned_rules))]
    fn variant_pattern(
        &mut self,
        round: Option<bool>,
        span: Span,
        _name: &Ident,
        _variant: &Ident,
        parts: &[PatternTree],
    ) -> Result<(Pattern, Declares), AllocError>
        ensures { walks.Tells plain-Pattern (naming.of_pattern (plain.variant_pattern span _name.now _variant.now (patterns_of (map plain-PatternTree parts.now)))) (λ t. elaborated.pattern t round) declares_of self.old result self.new }
    {
        let node = self.node(span, Site::Value)?;
        let names = self.entry();
        let round = self.given.met(node, round);
        let parts = self.parts(round, parts)?;
        let several = has_several(&self.given.decls.items, names.first);
        let pattern = Pattern::Variant(node.number, names.first, several, names.second, parts);
        let pattern = self.given.behind_all(node, pattern)?;
        let variable = None;
        Ok((pattern, Declares { node, variable }))
    }

    #[cycle(pattern)]
    #[tactic(auto, using(rx_typed::proofs::Rules::typed_pattern_rules, crate::proofs::Listed::listed_rules))]
    fn struct_pattern(
        &mut self,
        round: Option<bool>,
        span: Span,
        _name: &Ident,
        fields: &[FieldPattern],
    ) -> Result<(Pattern, Declares), AllocError>
        ensures { walks.Tells plain-Pattern (naming.of_pattern (plain.make_pattern span _name.now (field_patterns_of (map plain-FieldPattern fields.now)))) (λ t. elaborated.pattern t round) declares_of self.old result self.new }
    {
        let node = self.node(span, Site::Value)?;
        let item = self.entry().first;
        let round = self.given.met(node, round);
        let parts = self.field_patterns(round, item, fields)?;
        let pattern = self.given.behind_all(node, Pattern::Parts(parts))?;
        let variable = None;
        Ok((pattern, Declares { node, variable }))
    }

    /// Parts in order, from field 0 on.
    #[cycle(pattern)]
    #[tactic(auto, using(rx_tree::proofs::Rules::pattern_rules, rx_typed::proofs::Rules::typed_pattern_rules))]
    fn parts(
        &mut self,
        round: Option<bool>,
        parts: &[PatternTree],
    ) -> Result<List<Subpattern>, AllocError>
        ensures { walks.Builds (map plain-Subpattern) (naming.of_patterns (patterns_of (map plain-PatternTree parts.now))) (λ t ps. parts_listed (elaborated.subpatterns t round 0 ps)) self.old result self.new }
    {
        let mut all = List::new(self.given.alloc);
        for field in 0..parts.len() {
            let (part, rest) = keep(all, self.part(round, field, &parts[field]))?;
            all = pushed(rest, part)?;
        }
        Ok(all)
    }

    #[cycle(pattern)]
    #[tactic(auto, using(rx_typed::proofs::Rules::typed_pattern_rules))]
    fn part(
        &mut self,
        round: Option<bool>,
        field: usize,
        pattern: &PatternTree,
    ) -> Result<Subpattern, AllocError>
        ensures { walks.Builds plain-Subpattern (naming.of_pattern (plain-PatternTree pattern.now)) (λ t p. (field, elaborated.pattern t round p)) self.old result self.new }
    {
        let (pattern, _) = self.pattern(round, pattern)?;
        Ok(Subpattern { field, pattern })
    }

    /// Parts by the names of a struct's fields.
    #[cycle(pattern)]
    #[tactic(auto, using(rx_tree::proofs::Rules::pattern_rules, rx_typed::proofs::Rules::typed_pattern_rules))]
    fn field_patterns(
        &mut self,
        round: Option<bool>,
        item: u32,
        fields: &[FieldPattern],
    ) -> Result<List<Subpattern>, AllocError>
        ensures { walks.Builds (map plain-Subpattern) (naming.of_field_patterns (field_patterns_of (map plain-FieldPattern fields.now))) (λ t ps. parts_listed (elaborated.field_patterns t round item ps)) self.old result self.new }
    {
        let mut all = List::new(self.given.alloc);
        for field in fields {
            let (part, rest) = keep(all, self.field_pattern(round, item, field))?;
            all = pushed(rest, part)?;
        }
        Ok(all)
    }

    #[cycle(pattern)]
    #[tactic(auto, using(rx_tree::proofs::Rules::pattern_rules, rx_typed::proofs::Rules::typed_pattern_rules, crate::proofs::References::assigned_rules))]
    fn field_pattern(
        &mut self,
        round: Option<bool>,
        item: u32,
        field: &FieldPattern,
    ) -> Result<Subpattern, AllocError>
        ensures { walks.Builds plain-Subpattern (naming.of_pattern (plain-FieldPattern field.now).1) (λ t p. (elaborated.field_in t.items (types.named item) (plain-FieldPattern field.now).0.name, elaborated.pattern t round p)) self.old result self.new }
    {
        let number = field_of(&self.given.decls.items, item, &field.field.name);
        let (pattern, _) = self.pattern(round, &field.pattern)?;
        Ok(Subpattern {
            field: number,
            pattern,
        })
    }
}
