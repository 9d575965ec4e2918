//! Patterns against types with lifetimes.

ghost use Rattle.std.specs.Prelude.{[], map, None, Option};
ghost use Rattle.rx_tree.specs.PlainOf.{plain-Pattern, plain-FieldPattern, patterns_of, field_patterns_of};
ghost use Rattle.rx_tree.specs.Plain as plain;
ghost use Rattle.rx_typed.specs.declared.nodes.Site.TheVariants as site_of;
ghost use Rattle.rx_typed.specs.Regions.{region-Ty};
ghost use Rattle.rx_typed.specs.Types as types;
ghost use Rattle.rx_typed.specs.PlainTypes.{declarations};
ghost use Rattle.rx_typed.specs.Naming as naming;
ghost use Rattle.rx_typed.specs.Elaborated.{field_in};
ghost use Rattle.rx_typeck_typed.specs.Bindings as spec;
ghost use Rattle.rx_typeck_typed.specs.Walks as walks;

use crate::lets::Lets;
use crate::types::{met, peeled};
use crate::variables::AnnotatedVariable;
use rx_core::{LetGo, List, Span, Ty};
use rx_tree::{FieldPattern, Ident, Pattern, PatternNode};
use rx_typeck_elaborate_parts::{Cursor, field_of};
use rx_typed::{Declaration, Site, Stage};
use std::alloc::AllocError;

/// A pattern of one node, without variables.
#[tactic(auto, using(crate::proofs::Lists::append_none))]
fn nothing_bound(
    cursor: &mut Cursor<'_>,
    _all: &List<AnnotatedVariable>,
    span: Span,
) -> Result<(), AllocError>
    ensures { walks.Adds (naming.a_node span site_of.Value) (λ _. []) cursor.old _all.now result cursor.new _all.now }
{
    cursor.node(span, Site::Value)?;
    Ok(())
}

impl<'t> Lets<'t> {
    fn binding(
        &self,
        cursor: &mut Cursor<'_>,
        all: &mut List<AnnotatedVariable>,
        round: Option<bool>,
        span: Span,
        _name: &Ident,
        mutable: bool,
        ty: &Ty,
    ) -> Result<(), AllocError>
        ensures { walks.Adds (naming.of_pattern (plain.bind span _name.now mutable)) (λ p. spec.bindings (walks.declared self.now) self.now.free round p (region-Ty ty.now)) cursor.old all.old result cursor.new all.new }
    {
        cursor.node(span, Site::Value)?;
        cursor.entry();
        let stage = Stage::Given;
        let variable = cursor.declare(Declaration { mutable, stage })?;
        let ty = self.bound(round, ty)?;
        all.push(AnnotatedVariable { variable, ty })
    }

    /// A pattern, below these references: none, or whether all are mutable.
    #[cycle(pattern)]
    #[tactic(auto, using(rx_tree::proofs::Rules::pattern_rules))]
    pub(crate) fn pattern(
        &self,
        cursor: &mut Cursor<'_>,
        all: &mut List<AnnotatedVariable>,
        round: Option<bool>,
        pattern: &Pattern,
        ty: &Ty,
    ) -> Result<(), AllocError>
        ensures { walks.Adds (naming.of_pattern (plain-Pattern pattern.now)) (λ p. spec.bindings (walks.declared self.now) self.now.free round p (region-Ty ty.now)) cursor.old all.old result cursor.new all.new }
    {
        let span = pattern.span;
        match &pattern.node {
            PatternNode::Wild => nothing_bound(cursor, all, span),
            PatternNode::Int(_, _, _) => nothing_bound(cursor, all, span),
            PatternNode::Bool(_) => nothing_bound(cursor, all, span),
            PatternNode::Bind(name, mutable) => {
                self.binding(cursor, all, round, span, name, *mutable, ty)
            }
            PatternNode::Tuple(parts) => {
                self.tuple_pattern(cursor, all, round, span, parts.as_slice(), ty)
            }
            PatternNode::Variant(name, variant, parts) => {
                self.variant_pattern(
                    cursor,
                    all,
                    round,
                    span,
                    name,
                    variant,
                    parts.as_slice(),
                    ty,
                )
            }
            PatternNode::Make(name, fields) => {
                self.struct_pattern(cursor, all, round, span, name, fields.as_slice(), ty)
            }
        }
    }

    #[cycle(pattern)]
    fn tuple_pattern(
        &self,
        cursor: &mut Cursor<'_>,
        all: &mut List<AnnotatedVariable>,
        round: Option<bool>,
        span: Span,
        parts: &[Pattern],
        ty: &Ty,
    ) -> Result<(), AllocError>
        ensures { walks.Adds (naming.of_pattern (plain.tuple_pattern span (patterns_of (map plain-Pattern parts.now)))) (λ p. spec.bindings (walks.declared self.now) self.now.free round p (region-Ty ty.now)) cursor.old all.old result cursor.new all.new }
    {
        cursor.node(span, Site::Value)?;
        self.parts(cursor, all, met(ty, round), None, parts, peeled(ty))
    }

    #[cycle(pattern)]
    fn variant_pattern(
        &self,
        cursor: &mut Cursor<'_>,
        all: &mut List<AnnotatedVariable>,
        round: Option<bool>,
        span: Span,
        _name: &Ident,
        _variant: &Ident,
        parts: &[Pattern],
        ty: &Ty,
    ) -> Result<(), AllocError>
        ensures { walks.Adds (naming.of_pattern (plain.variant_pattern span _name.now _variant.now (patterns_of (map plain-Pattern parts.now)))) (λ p. spec.bindings (walks.declared self.now) self.now.free round p (region-Ty ty.now)) cursor.old all.old result cursor.new all.new }
    {
        cursor.node(span, Site::Value)?;
        let names = cursor.entry();
        let variant = Some(names.second);
        self.parts(cursor, all, met(ty, round), variant, parts, peeled(ty))
    }

    #[cycle(pattern)]
    fn struct_pattern(
        &self,
        cursor: &mut Cursor<'_>,
        all: &mut List<AnnotatedVariable>,
        round: Option<bool>,
        span: Span,
        _name: &Ident,
        fields: &[FieldPattern],
        ty: &Ty,
    ) -> Result<(), AllocError>
        ensures { walks.Adds (naming.of_pattern (plain.make_pattern span _name.now (field_patterns_of (map plain-FieldPattern fields.now)))) (λ p. spec.bindings (walks.declared self.now) self.now.free round p (region-Ty ty.now)) cursor.old all.old result cursor.new all.new }
    {
        cursor.node(span, Site::Value)?;
        let item = cursor.entry().first;
        self.fields(cursor, all, met(ty, round), item, fields, peeled(ty))
    }

    /// Parts in order, from the first on.
    #[cycle(pattern)]
    #[tactic(auto, using(rx_tree::proofs::Rules::pattern_rules))]
    fn parts(
        &self,
        cursor: &mut Cursor<'_>,
        all: &mut List<AnnotatedVariable>,
        round: Option<bool>,
        variant: Option<u32>,
        parts: &[Pattern],
        ty: &Ty,
    ) -> Result<(), AllocError>
        ensures { walks.Adds (naming.of_patterns (patterns_of (map plain-Pattern parts.now))) (λ ps. spec.parts (walks.declared self.now) self.now.free round variant 0 ps (region-Ty ty.now)) cursor.old all.old result cursor.new all.new }
    {
        for number in 0..parts.len() {
            let part = self.part(variant, number, ty)?;
            self.owned(cursor, all, round, &parts[number], part)?;
        }
        Ok(())
    }

    /// A pattern against a type that is let go behind it.
    #[cycle(pattern)]
    pub(crate) fn owned(
        &self,
        cursor: &mut Cursor<'_>,
        all: &mut List<AnnotatedVariable>,
        round: Option<bool>,
        pattern: &Pattern,
        ty: Ty,
    ) -> Result<(), AllocError>
        ensures { walks.Adds (naming.of_pattern (plain-Pattern pattern.now)) (λ p. spec.bindings (walks.declared self.now) self.now.free round p (region-Ty ty)) cursor.old all.old result cursor.new all.new }
    {
        let done = self.pattern(cursor, all, round, pattern, &ty);
        ty.let_go();
        done
    }

    /// Parts by the names of a struct's fields.
    #[cycle(pattern)]
    #[tactic(auto, using(rx_tree::proofs::Rules::pattern_rules))]
    fn fields(
        &self,
        cursor: &mut Cursor<'_>,
        all: &mut List<AnnotatedVariable>,
        round: Option<bool>,
        item: u32,
        fields: &[FieldPattern],
        ty: &Ty,
    ) -> Result<(), AllocError>
        ensures { walks.Adds (naming.of_field_patterns (field_patterns_of (map plain-FieldPattern fields.now))) (λ fs. spec.fields (walks.declared self.now) self.now.free round item fs (region-Ty ty.now)) cursor.old all.old result cursor.new all.new }
    {
        for field in fields {
            self.field(cursor, all, round, item, field, ty)?;
        }
        Ok(())
    }

    #[cycle(pattern)]
    #[tactic(auto, using(rx_tree::proofs::Rules::pattern_rules))]
    fn field(
        &self,
        cursor: &mut Cursor<'_>,
        all: &mut List<AnnotatedVariable>,
        round: Option<bool>,
        item: u32,
        field: &FieldPattern,
        ty: &Ty,
    ) -> Result<(), AllocError>
        ensures { walks.Adds (naming.of_pattern (plain-FieldPattern field.now).1) (λ p. spec.bindings (walks.declared self.now) self.now.free round p (spec.part (walks.declared self.now) None (field_in (declarations (walks.declared self.now)) (types.named item) (plain-FieldPattern field.now).0.name) (region-Ty ty.now))) cursor.old all.old result cursor.new all.new }
    {
        let number = field_of(&self.decls.items, item, &field.field.name);
        let part = self.part(None, number, ty)?;
        self.owned(cursor, all, round, &field.pattern, part)
    }
}
