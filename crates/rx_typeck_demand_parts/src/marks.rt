//! Patterns whose demands stand behind those of what they are matched with, though their numbers come before: they
//! are numbered first, and what they ask is told later, from the place where they stand.

ghost use Rattle.std.specs.Prelude.{◌≡◌, [], ◌∷◌, map, Ok, Err, None, OnOk, IfOk};
ghost use Rattle.rx_tree.specs.PlainOf.{plain-Pattern, plain-FieldPattern, patterns_of, field_patterns_of};
ghost use Rattle.rx_typed.specs.Naming as naming;
ghost use Rattle.rx_typeck_typed.specs.Asking as asking;
ghost use Rattle.rx_typeck_typed.specs.Demands as demands;
ghost use Rattle.rx_typeck_elaborate_parts.specs.Entries.{marked};
ghost use Rattle.rx_typeck_demand_parts.specs.Matching as matching;
ghost use Rattle.rx_typeck_demand_parts.specs.Walks as walks;

use crate::matched::{Declares, Matched};
use crate::walk::Walk;
use rx_core::Span;
use rx_tree::{FieldPattern, Pattern, PatternNode};
use rx_typeck_elaborate_parts::{Cursor, Mark};
use rx_typeck_solver::Subject;
use rx_typed::{Declaration, Node, Site, Stage};
use std::alloc::AllocError;
use std::mem;

/// What is told of a pattern that is no variable as a whole.
fn unnamed(node: Node) -> Declares
    ensures { result ≡ record { node = node; variable = None } }
{
    Declares {
        node,
        variable: None,
    }
}

impl<'t> Walk<'t> {
    /// Numbers a pattern.
    #[cycle(numbering)]
    #[tactic(auto, using(rx_tree::proofs::Rules::pattern_rules))]
    pub fn number_pattern(&mut self, pattern: &'t Pattern) -> Result<Declares, AllocError>
        ensures { walks.Walks (naming.of_pattern (plain-Pattern pattern.now)) (λ _. asking.nothing) matching.declares_of self.old result self.new }
    {
        let node = self.node(pattern.span, Site::Value)?;
        match &pattern.node {
            PatternNode::Wild | PatternNode::Int(_, _, _) | PatternNode::Bool(_) => {
                Ok(unnamed(node))
            }
            PatternNode::Bind(_, mutable) => {
                self.entry();
                let stage = Stage::Given;
                let mutable = *mutable;
                let variable = self.cursor.declare(Declaration { mutable, stage })?;
                let variable = Some(variable);
                Ok(Declares { node, variable })
            }
            PatternNode::Tuple(parts) => {
                self.number_patterns(parts.as_slice())?;
                Ok(unnamed(node))
            }
            PatternNode::Variant(_, _, parts) => {
                self.entry();
                self.number_patterns(parts.as_slice())?;
                Ok(unnamed(node))
            }
            PatternNode::Make(_, fields) => {
                self.entry();
                self.number_fields(fields.as_slice())?;
                Ok(unnamed(node))
            }
        }
    }

    #[cycle(numbering)]
    #[tactic(auto, using(rx_tree::proofs::Rules::pattern_rules))]
    fn number_patterns(&mut self, patterns: &'t [Pattern]) -> Result<(), AllocError>
        ensures { walks.Goes (naming.of_patterns (patterns_of (map plain-Pattern patterns.now))) (λ _. asking.nothing) self.old result self.new }
    {
        for pattern in patterns {
            self.number_pattern(pattern)?;
        }
        Ok(())
    }

    #[cycle(numbering)]
    #[tactic(auto, using(rx_tree::proofs::Rules::pattern_rules))]
    fn number_fields(&mut self, fields: &'t [FieldPattern]) -> Result<(), AllocError>
        ensures { walks.Goes (naming.of_field_patterns (field_patterns_of (map plain-FieldPattern fields.now))) (λ _. asking.nothing) self.old result self.new }
    {
        for field in fields {
            self.number_field(field)?;
        }
        Ok(())
    }

    #[cycle(numbering)]
    #[tactic(auto, using(rx_tree::proofs::Rules::pattern_rules))]
    fn number_field(&mut self, field: &'t FieldPattern) -> Result<(), AllocError>
        ensures { walks.Goes (naming.of_pattern (plain-FieldPattern field.now).1) (λ _. asking.nothing) self.old result self.new }
    {
        self.number_pattern(&field.pattern)?;
        Ok(())
    }

    /// Asks what a whole pattern at a place asks, matched against what has the type of a subject.
    pub fn pattern_at(
        &mut self,
        mark: Mark<'t>,
        matched: Matched<'_>,
        subject: Subject,
        pattern: &'t Pattern,
    ) -> Result<(), AllocError>
        ensures { OnOk result (self.new ≡ walks.asked (demands.whole_pattern (matching.matched_as matched.entry) subject (naming.of_pattern (plain-Pattern pattern.now) (marked mark.entry)).0) self.old) }
    {
        let cursor = mem::replace(&mut self.cursor, Cursor::at(self.alloc, mark));
        self.whole_pattern(matched, subject, pattern)?;
        self.cursor = cursor;
        Ok(())
    }
}
