//! What patterns ask.

ghost use Rattle.std.specs.Prelude.{◌≡◌, ◌+◌, Bool, [], ◌∷◌, ◌++◌, length, map, Ok, Err, Option, Some, None, OnOk, IfOk};
ghost use Rattle.rx_typeck_solver.specs.declared.facts.Fact.TheVariants as fact;
ghost use Rattle.rx_typeck_solver.specs.declared.facts.Op.TheVariants as op;
ghost use Rattle.rx_tree.specs.PlainOf.{plain-Pattern, plain-FieldPattern, patterns_of, field_patterns_of};
ghost use Rattle.rx_tree.specs.Plain as plain;
ghost use Rattle.rx_typed.specs.Naming as naming;
ghost use Rattle.rx_typeck_typed.specs.Asking as asking;
ghost use Rattle.rx_typeck_typed.specs.Demands as demands;
ghost use Rattle.rx_typeck_demand_parts.specs.Matching as matching;
ghost use Rattle.rx_typeck_demand_parts.specs.Walks as walks;

use crate::facts::{fitting, is_bound, is_open, passes_through, signed, type_of, with_suffix};
use crate::matched::{Declares, Matched};
use crate::walk::Walk;
use rx_core::{Kind, List, Name, Span, pushed};
use rx_tree::{FieldPattern, Ident, Pattern, PatternNode};
use rx_typeck_elaborate_parts::Entry;
use rx_typeck_solver::{Broken, Fact, Op, Passing, Rule, Subject, Test};
use rx_typed::{Declaration, Node, Site, Stage};
use std::alloc::{AllocError, Global};

/// The references of the patterns round a part, the outermost first.
fn under(alloc: Global, node: Node, round: &[Passing]) -> Result<List<Passing>, AllocError>
    ensures { IfOk result (λ ps. ps ≡ demands.under node round.now) }
{
    let mut passing = List::from_slice(alloc, round)?;
    passing.push(Passing {
        node: node.number,
        all: true,
    })?;
    Ok(passing)
}

/// The names of the fields of a pattern.
fn field_names(alloc: Global, fields: &[FieldPattern]) -> Result<List<Name>, AllocError>
    ensures { IfOk result (λ ns. ns ≡ matching.fields_named fields.now) }
{
    let mut names = List::new(alloc);
    for field in fields {
        let name = field.field.name.copy(alloc)?;
        names.push(name)?;
    }
    Ok(names)
}

impl<'t> Walk<'t> {
    fn pattern_is(&mut self, node: Node, test: Test) -> Result<(), AllocError>
        ensures { OnOk result (self.new ≡ walks.asked (demands.pattern_is node test) self.old) }
    {
        self.ask_passes(node, Rule::PatternOf, test, &[type_of(node)])
    }

    /// A part of a pattern has the type that is made of these.
    fn part_is(&mut self, node: Node, made: Op, parts: &[Subject]) -> Result<(), AllocError>
        ensures { OnOk result (self.new ≡ walks.asked (demands.part_is node made parts.now) self.old) }
    {
        self.ask_is(node, Rule::Equal, type_of(node), made, parts)
    }

    /// `mut x` stands behind no reference.
    fn direct(&mut self, node: Node, mutable: bool, round: &[Passing]) -> Result<(), AllocError>
        ensures { OnOk result (self.new ≡ walks.asked (demands.direct node mutable round.now) self.old) }
    {
        if mutable {
            let fact = passes_through(self.alloc, Test::Direct, &[], round, &[])?;
            self.ask_one(node, Rule::PatternOf, fact)
        } else {
            Ok(())
        }
    }

    /// A binding of a place moves nothing from behind a reference, and borrows nothing mutably through a shared one.
    fn binding_of_place(
        &mut self,
        node: Node,
        round: &[Passing],
        variable: u32,
        passing: &[Passing],
    ) -> Result<(), AllocError>
        ensures { OnOk result (self.new ≡ walks.asked (demands.binding_of node round.now (demands.a_place variable passing.now)) self.old) }
    {
        let subjects = [type_of(node)];
        let fact = passes_through(self.alloc, Test::BindingKept, &subjects, round, passing)?;
        self.ask_one(node, Rule::MoveOut, fact)?;
        let fact = passes_through(self.alloc, Test::BindingWritable, &[], round, passing)?;
        self.ask_mutable(node, variable, fact)
    }

    /// The same of a place at a coercion site.
    fn binding_of_initialiser(
        &mut self,
        node: Node,
        round: &[Passing],
        place: Node,
        variable: u32,
        passing: &[Passing],
    ) -> Result<(), AllocError>
        ensures { OnOk result (self.new ≡ walks.asked (demands.binding_of node round.now (demands.an_initialiser place variable passing.now)) self.old) }
    {
        let both = [type_of(node), type_of(place)];
        let fact = passes_through(self.alloc, Test::BindingKeptOrLent, &both, round, passing)?;
        self.ask_one(node, Rule::MoveOut, fact)?;
        let test = Test::BindingWritableOrLent;
        let fact = passes_through(self.alloc, test, &[type_of(place)], round, passing)?;
        self.ask_mutable(node, variable, fact)
    }

    fn binding_of(
        &mut self,
        node: Node,
        round: &[Passing],
        matched: Matched<'_>,
    ) -> Result<(), AllocError>
        ensures { OnOk result (self.new ≡ walks.asked (demands.binding_of node round.now (matching.matched_as matched.entry)) self.old) }
    {
        match matched {
            Matched::Value => Ok(()),
            Matched::Place(variable, passing) => {
                self.binding_of_place(node, round, variable, passing)
            }
            Matched::Initialiser(place, variable, passing) => {
                self.binding_of_initialiser(node, round, place, variable, passing)
            }
        }
    }

    /// A variable that a pattern declares.
    fn bound_at(
        &mut self,
        matched: Matched<'_>,
        round: &[Passing],
        node: Node,
        variable: u32,
        mutable: bool,
    ) -> Result<(), AllocError>
        ensures { OnOk result (self.new ≡ walks.asked (demands.bound_at (matching.matched_as matched.entry) round.now node variable mutable) self.old) }
    {
        let subject = Subject::Variable(variable);
        let fact = is_bound(self.alloc, subject, type_of(node), round)?;
        self.ask_one(node, Rule::Equal, fact)?;
        self.ask_passes(node, Rule::Parts, Test::Limits, &[subject])?;
        self.direct(node, mutable, round)?;
        self.binding_of(node, round, matched)
    }

    /// A minus stands before a literal of a signed kind alone.
    fn minus(&mut self, node: Node, negative: bool) -> Result<(), AllocError>
        ensures { OnOk result (self.new ≡ walks.asked (demands.minus node negative) self.old) }
    {
        if negative {
            self.ask_one(
                node,
                Rule::PatternOf,
                Fact::IntegerBehind(node.number, signed()),
            )
        } else {
            Ok(())
        }
    }

    /// A literal: whether it is negative, the magnitude, the suffix.
    fn literal_at(
        &mut self,
        node: Node,
        negative: bool,
        value: u64,
        suffix: Option<Kind>,
    ) -> Result<(), AllocError>
        ensures { OnOk result (self.new ≡ walks.asked (demands.literal_at node negative value suffix) self.old) }
    {
        self.pattern_is(node, Test::IntegerBehind)?;
        self.minus(node, negative)?;
        let fact = Fact::IntegerBehind(node.number, with_suffix(suffix));
        self.ask_one(node, Rule::PatternOf, fact)?;
        let fact = Fact::IntegerBehind(node.number, fitting(negative, value));
        let facts = pushed(List::new(self.alloc), fact)?;
        self.asks(node, Broken::Literal, is_open(suffix), facts)
    }

    fn wild(&mut self, span: Span) -> Result<Declares, AllocError>
        ensures { walks.Walks (naming.of_pattern (plain.wild span)) (demands.of_pattern demands.a_value []) matching.declares_of self.old result self.new }
    {
        let node = self.node(span, Site::Value)?;
        Ok(Declares {
            node,
            variable: None,
        })
    }

    fn binding(
        &mut self,
        matched: Matched<'_>,
        round: &[Passing],
        span: Span,
        _name: &Ident,
        mutable: bool,
    ) -> Result<Declares, AllocError>
        ensures { walks.Walks (naming.of_pattern (plain.bind span _name.now mutable)) (demands.of_pattern (matching.matched_as matched.entry) round.now) matching.declares_of self.old result self.new }
    {
        let node = self.node(span, Site::Value)?;
        self.entry();
        let stage = Stage::Given;
        let variable = self.cursor.declare(Declaration { mutable, stage })?;
        self.bound_at(matched, round, node, variable, mutable)?;
        Ok(Declares {
            node,
            variable: Some(variable),
        })
    }

    fn literal_pattern(
        &mut self,
        span: Span,
        negative: bool,
        value: u64,
        suffix: Option<Kind>,
    ) -> Result<Declares, AllocError>
        ensures { walks.Walks (naming.of_pattern (plain.int_pattern span negative value suffix)) (demands.of_pattern demands.a_value []) matching.declares_of self.old result self.new }
    {
        let node = self.node(span, Site::Value)?;
        self.literal_at(node, negative, value, suffix)?;
        Ok(Declares {
            node,
            variable: None,
        })
    }

    fn truth_pattern(&mut self, span: Span, _value: bool) -> Result<Declares, AllocError>
        ensures { walks.Walks (naming.of_pattern (plain.bool_pattern span _value)) (demands.of_pattern demands.a_value []) matching.declares_of self.old result self.new }
    {
        let node = self.node(span, Site::Value)?;
        self.pattern_is(node, Test::TruthBehind)?;
        Ok(Declares {
            node,
            variable: None,
        })
    }

    /// A pattern that is matched with this, below these references.
    #[cycle(pattern)]
    #[tactic(auto, using(rx_tree::proofs::Rules::pattern_rules))]
    pub fn pattern(
        &mut self,
        matched: Matched<'_>,
        round: &[Passing],
        pattern: &'t Pattern,
    ) -> Result<Declares, AllocError>
        ensures { walks.Walks (naming.of_pattern (plain-Pattern pattern.now)) (demands.of_pattern (matching.matched_as matched.entry) round.now) matching.declares_of self.old result self.new }
    {
        let span = pattern.span;
        match &pattern.node {
            PatternNode::Wild => self.wild(span),
            PatternNode::Bind(name, mutable) => {
                self.binding(matched, round, span, name, *mutable)
            }
            PatternNode::Int(negative, value, suffix) => {
                self.literal_pattern(span, *negative, *value, *suffix)
            }
            PatternNode::Bool(value) => self.truth_pattern(span, *value),
            PatternNode::Tuple(parts) => {
                self.tuple_pattern(matched, round, span, parts.as_slice())
            }
            PatternNode::Variant(name, variant, parts) => {
                self.variant_pattern(matched, round, span, name, variant, parts.as_slice())
            }
            PatternNode::Make(name, fields) => {
                self.struct_pattern(matched, round, span, name, fields.as_slice())
            }
        }
    }

    #[cycle(pattern)]
    fn tuple_pattern(
        &mut self,
        matched: Matched<'_>,
        round: &[Passing],
        span: Span,
        parts: &'t [Pattern],
    ) -> Result<Declares, AllocError>
        ensures { walks.Walks (naming.of_pattern (plain.tuple_pattern span (patterns_of (map plain-Pattern parts.now)))) (demands.of_pattern (matching.matched_as matched.entry) round.now) matching.declares_of self.old result self.new }
    {
        let node = self.node(span, Site::Value)?;
        self.tuple_at(matched, round, node, parts)?;
        Ok(Declares {
            node,
            variable: None,
        })
    }

    /// A tuple at a node.
    #[cycle(pattern)]
    #[tactic(auto, using(crate::proofs::Counts::patterns_counted))]
    fn tuple_at(
        &mut self,
        matched: Matched<'_>,
        round: &[Passing],
        node: Node,
        parts: &'t [Pattern],
    ) -> Result<(), AllocError>
        ensures { walks.Goes (naming.of_patterns (patterns_of (map plain-Pattern parts.now))) (demands.tuple_at (matching.matched_as matched.entry) round.now node) self.old result self.new }
    {
        self.pattern_is(node, Test::TupleBehind(parts.len()))?;
        let round = under(self.alloc, node, round)?;
        self.parts(matched, round.as_slice(), node, parts)
    }

    #[cycle(pattern)]
    fn variant_pattern(
        &mut self,
        matched: Matched<'_>,
        round: &[Passing],
        span: Span,
        _name: &Ident,
        _variant: &Ident,
        parts: &'t [Pattern],
    ) -> Result<Declares, AllocError>
        ensures { walks.Walks (naming.of_pattern (plain.variant_pattern span _name.now _variant.now (patterns_of (map plain-Pattern parts.now)))) (demands.of_pattern (matching.matched_as matched.entry) round.now) matching.declares_of self.old result self.new }
    {
        let node = self.node(span, Site::Value)?;
        let names = self.entry();
        self.variant_at(matched, round, node, names, parts)?;
        Ok(Declares {
            node,
            variable: None,
        })
    }

    /// A variant at a node.
    #[cycle(pattern)]
    #[tactic(auto, using(crate::proofs::Counts::patterns_counted))]
    fn variant_at(
        &mut self,
        matched: Matched<'_>,
        round: &[Passing],
        node: Node,
        names: Entry,
        parts: &'t [Pattern],
    ) -> Result<(), AllocError>
        ensures { walks.Goes (naming.of_patterns (patterns_of (map plain-Pattern parts.now))) (demands.variant_at (matching.matched_as matched.entry) round.now node names.first names.second) self.old result self.new }
    {
        self.pattern_is(node, Test::ItemBehind(names.first))?;
        let test = Test::Holds(names.first, names.second, parts.len());
        self.ask_passes(node, Rule::Count, test, &[])?;
        let round = under(self.alloc, node, round)?;
        self.variant_parts(matched, round.as_slice(), names, parts)
    }

    #[cycle(pattern)]
    fn struct_pattern(
        &mut self,
        matched: Matched<'_>,
        round: &[Passing],
        span: Span,
        _name: &Ident,
        fields: &'t [FieldPattern],
    ) -> Result<Declares, AllocError>
        ensures { walks.Walks (naming.of_pattern (plain.make_pattern span _name.now (field_patterns_of (map plain-FieldPattern fields.now)))) (demands.of_pattern (matching.matched_as matched.entry) round.now) matching.declares_of self.old result self.new }
    {
        let node = self.node(span, Site::Value)?;
        let item = self.entry().first;
        self.struct_at(matched, round, node, item, fields)?;
        Ok(Declares {
            node,
            variable: None,
        })
    }

    /// A struct at a node.
    #[cycle(pattern)]
    #[tactic(auto, using(crate::proofs::Counts::field_patterns_named))]
    fn struct_at(
        &mut self,
        matched: Matched<'_>,
        round: &[Passing],
        node: Node,
        item: u32,
        fields: &'t [FieldPattern],
    ) -> Result<(), AllocError>
        ensures { walks.Goes (naming.of_field_patterns (field_patterns_of (map plain-FieldPattern fields.now))) (demands.struct_at (matching.matched_as matched.entry) round.now node item) self.old result self.new }
    {
        self.pattern_is(node, Test::ItemBehind(item))?;
        let names = field_names(self.alloc, fields)?;
        self.ask_passes(node, Rule::Fields, Test::HasFields(item, names), &[])?;
        let round = under(self.alloc, node, round)?;
        self.field_patterns(matched, round.as_slice(), item, fields)
    }

    /// The parts of a tuple at a node.
    #[cycle(pattern)]
    #[tactic(auto, using(rx_tree::proofs::Rules::pattern_rules))]
    fn parts(
        &mut self,
        matched: Matched<'_>,
        round: &[Passing],
        node: Node,
        parts: &'t [Pattern],
    ) -> Result<(), AllocError>
        ensures { walks.Goes (naming.of_patterns (patterns_of (map plain-Pattern parts.now))) (demands.of_parts (matching.matched_as matched.entry) round.now node 0) self.old result self.new }
    {
        for place in 0..parts.len() {
            let made = Op::Part(place as u64);
            self.part(matched, round, made, &[type_of(node)], &parts[place])?;
        }
        Ok(())
    }

    #[cycle(pattern)]
    #[tactic(auto, using(rx_tree::proofs::Rules::pattern_rules))]
    fn variant_parts(
        &mut self,
        matched: Matched<'_>,
        round: &[Passing],
        names: Entry,
        parts: &'t [Pattern],
    ) -> Result<(), AllocError>
        ensures { walks.Goes (naming.of_patterns (patterns_of (map plain-Pattern parts.now))) (demands.of_variant_parts (matching.matched_as matched.entry) round.now names.first names.second 0) self.old result self.new }
    {
        for place in 0..parts.len() {
            let made = Op::PartOf(names.first, names.second, place);
            self.part(matched, round, made, &[], &parts[place])?;
        }
        Ok(())
    }

    /// A part that has the type that is made of these.
    #[cycle(pattern)]
    #[tactic(auto, using(rx_typeck_elaborate_parts::proofs::Next::next_pattern))]
    fn part(
        &mut self,
        matched: Matched<'_>,
        round: &[Passing],
        made: Op,
        of: &[Subject],
        pattern: &'t Pattern,
    ) -> Result<(), AllocError>
        ensures { walks.Goes (naming.of_pattern (plain-Pattern pattern.now)) (demands.part_with (matching.matched_as matched.entry) round.now made of.now) self.old result self.new }
    {
        let node = self.next(pattern.span, Site::Value);
        self.part_is(node, made, of)?;
        self.pattern(matched, round, pattern)?;
        Ok(())
    }

    #[cycle(pattern)]
    #[tactic(auto, using(rx_tree::proofs::Rules::pattern_rules))]
    fn field_patterns(
        &mut self,
        matched: Matched<'_>,
        round: &[Passing],
        item: u32,
        fields: &'t [FieldPattern],
    ) -> Result<(), AllocError>
        ensures { walks.Goes (naming.of_field_patterns (field_patterns_of (map plain-FieldPattern fields.now))) (demands.of_field_patterns (matching.matched_as matched.entry) round.now item) self.old result self.new }
    {
        for field in fields {
            self.field_pattern(matched, round, item, field)?;
        }
        Ok(())
    }

    #[cycle(pattern)]
    #[tactic(auto, using(rx_tree::proofs::Rules::pattern_rules))]
    fn field_pattern(
        &mut self,
        matched: Matched<'_>,
        round: &[Passing],
        item: u32,
        field: &'t FieldPattern,
    ) -> Result<(), AllocError>
        ensures { walks.Goes (naming.of_pattern (plain-FieldPattern field.now).1) (demands.part_with (matching.matched_as matched.entry) round.now (op.FieldOf item (plain-FieldPattern field.now).0.name) []) self.old result self.new }
    {
        let made = Op::FieldOf(item, field.field.name.copy(self.alloc)?);
        self.part(matched, round, made, &[], &field.pattern)
    }

    /// A whole pattern, matched against what has the type of a subject.
    #[tactic(auto, using(rx_typeck_elaborate_parts::proofs::Next::next_pattern))]
    pub fn whole_pattern(
        &mut self,
        matched: Matched<'_>,
        subject: Subject,
        pattern: &'t Pattern,
    ) -> Result<Declares, AllocError>
        ensures { walks.Walks (naming.of_pattern (plain-Pattern pattern.now)) (demands.whole_pattern (matching.matched_as matched.entry) subject) matching.declares_of self.old result self.new }
    {
        let node = self.next(pattern.span, Site::Value);
        self.ask_alike(node, type_of(node), subject)?;
        self.pattern(matched, &[], pattern)
    }
}
