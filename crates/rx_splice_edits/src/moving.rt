//! The edits of a run's special places.

ghost use Rattle.std.specs.Prelude.{◌≡◌, ◌++◌, ◌∷◌, [], ◌==◌, suc, codes, map, IfOk, OnOk};
ghost use Rattle.rx_print_spelling.specs.Pieces.{flat, mark, separated};
ghost use Rattle.rx_print_parts.specs.Parts.{next_of};
ghost use Rattle.rx_hoist_plan.specs.PlainPlan.{plain-Exit, plain-Plan, plain-Variable};
ghost use Rattle.rx_hoist_extraction.specs.Plan as planned;
ghost use Rattle.rx_splice_laws.specs.Edits.{replaced, written};
ghost use Rattle.rx_splice_laws.specs.Moving as spliced;
ghost use Rattle.rx_splice_laws.specs.MovedBy.{jump_to};
ghost use Rattle.rx_splice_edits.specs.Jumping.{one_name, values_pieces, jump_pieces};
ghost use Rattle.rx_splice_edits.specs.Deciding.{moving_of, tokens_of};

use crate::decided::Decided;
use crate::tokens::{after_slash, before_dot, next_start};
use rx_core::{Kind, Name, Span, Text};
use rx_hoist_changes::{Loops, Names, is_referred};
use rx_hoist_made::{exit_name, fresh_variable, is_unit, outs_of};
use rx_hoist_plan::{Exit, NamedPlan, Variable};
use rx_print_parts::comma;
use rx_splice_walk::{EditList, Places};
use rx_tree::{Ident, Pattern, TypeText};
use std::alloc::{AllocError, Global};

/// The edits of a run in the new function.
#[derive(Clone, Copy)]
pub(crate) struct Moving<'p> {
    pub decided: Decided<'p>,
}

/// Adds `Exit_NAME::V`.
pub(crate) fn push_variant(
    alloc: Global,
    out: &mut Text,
    plan: &NamedPlan,
    exit: Exit,
) -> Result<(), AllocError>
    ensures { OnOk result (out.new
        ≡ out.old
        ++ (planned.enum_name (plain-Plan plan.now) ++ (codes "::" ++ planned.exit_name (plain-Exit exit)))) }
{
    let variant = exit_name(alloc, exit)?;
    out.push("Exit_")?;
    out.push(plan.name.as_str())?;
    out.push("::")?;
    out.push(variant.as_str())
}

/// Adds a name, behind a comma where it follows another.
pub(crate) fn push_next(out: &mut Text, follows: bool, name: &Name) -> Result<(), AllocError>
    ensures { OnOk result (out.new ≡ out.old ++ flat (next_of follows (one_name name.now))) }
{
    out.push(comma(follows))?;
    out.push(name.as_str())
}

/// Adds the names of variables.
fn push_names(out: &mut Text, variables: &[Variable]) -> Result<(), AllocError>
    ensures { OnOk result (out.new
        ≡ out.old ++ flat (separated (map one_name (planned.names_of (map plain-Variable variables.now))))) }
{
    let mut follows = false;
    for variable in variables {
        push_next(out, follows, &variable.name)?;
        follows = true;
    }
    Ok(())
}

/// Adds the names of variables in parentheses, where there are some.
fn push_values(out: &mut Text, variables: &[Variable]) -> Result<(), AllocError>
    ensures { OnOk result (out.new
        ≡ out.old ++ flat (values_pieces (planned.names_of (map plain-Variable variables.now)))) }
{
    if variables.is_empty() {
        return Ok(());
    }
    out.push("(")?;
    push_names(out, variables)?;
    out.push(")")
}

/// `return Exit_NAME::V(outs)`
fn jump(alloc: Global, plan: &NamedPlan, exit: Exit, outs: &[Variable]) -> Result<Text, AllocError>
    ensures { IfOk result (λ t. t
        ≡ flat (jump_pieces (planned.enum_name (plain-Plan plan.now)) (planned.exit_name (plain-Exit exit))
        (planned.names_of (map plain-Variable outs.now)))) }
{
    let mut text = Text::new(alloc, "return ")?;
    push_variant(alloc, &mut text, plan, exit)?;
    push_values(&mut text, outs)?;
    Ok(text)
}

/// `*x`
fn star(alloc: Global, name: &Name) -> Result<Text, AllocError>
    ensures { IfOk result (λ t. t ≡ flat (spliced.star name.now)) }
{
    let mut text = Text::new(alloc, "*")?;
    text.push(name.as_str())?;
    Ok(text)
}

/// `(*x)`
fn enclosed_star(alloc: Global, name: &Name) -> Result<Text, AllocError>
    ensures { IfOk result (λ t. t ≡ flat (spliced.enclosed_star name.now)) }
{
    let mut text = Text::new(alloc, "(*")?;
    text.push(name.as_str())?;
    text.push(")")?;
    Ok(text)
}

/// `x: *x`
fn long_field(alloc: Global, name: &Name) -> Result<Text, AllocError>
    ensures { IfOk result (λ t. t ≡ flat (spliced.long_field name.now)) }
{
    let mut text = name.copy(alloc)?;
    text.push(": *")?;
    text.push(name.as_str())?;
    Ok(text)
}

/// Whether a place is directly behind the word `return` at a span.
fn follows_directly(span: Span, at: u64) -> bool
    ensures { result ≡ (at == suc (suc (suc (suc (suc (suc span.start)))))) }
{
    at >= span.start && at - span.start == 6
}

/// A space or nothing.
fn space_if(wanted: bool) -> &'static str
    ensures { result.now ≡ flat (spliced.spaced wanted []) }
{
    if wanted { " " } else { "" }
}

impl<'p> Moving<'p> {
    /// Whether a name means a param behind a reference, where these names are bound since the beginning.
    fn is_starred(&self, own: &Names<'_>, name: &Name) -> bool
        ensures { result ≡ spliced.is_starred (moving_of self.now.decided) own.now name.now }
    {
        !own.has(name) && is_referred(name, self.decided.plan.params.as_slice())
    }

    /// Whether a variable behind a reference is put into parentheses.
    fn is_enclosed(&self, span: Span) -> bool
        ensures { result ≡ spliced.enclosed_at (tokens_of self.now.decided) span }
    {
        let tokens = self.decided.tokens;
        before_dot(tokens, span.start) || after_slash(tokens, span.start)
    }

    /// A variable behind a reference.
    fn starred(
        &self,
        alloc: Global,
        short: bool,
        span: Span,
        name: &Name,
    ) -> Result<Text, AllocError>
        ensures { IfOk result (λ t. t ≡ flat (spliced.star_at (tokens_of self.now.decided) short span name.now)) }
    {
        if short {
            return long_field(alloc, name);
        }
        if self.is_enclosed(span) {
            return enclosed_star(alloc, name);
        }
        star(alloc, name)
    }

    /// In place of a jump that leaves the run.
    fn push_jump(
        &self,
        alloc: Global,
        out: &mut EditList,
        span: Span,
        exit: Exit,
    ) -> Result<(), AllocError>
        ensures { OnOk result (out.new
            ≡ out.old ++ map written (replaced span (spliced.returned (moving_of self.now.decided)
            (jump_to (plain-Plan self.now.decided.plan.now) (plain-Exit exit))) ∷ [])) }
    {
        let outs = outs_of(exit, self.decided.plan.exits.as_slice());
        let text = jump(alloc, self.decided.plan, exit, outs)?;
        out.replace(span, text)
    }

    /// Adds `{ let out_0: () = `.
    fn push_first_opening(&self, alloc: Global, text: &mut Text) -> Result<(), AllocError>
        ensures { OnOk result (text.new ≡ text.old ++ flat (spliced.first_opening (moving_of self.now.decided))) }
    {
        let name = fresh_variable(alloc, self.decided.plan)?;
        text.push("{ let ")?;
        text.push(name.as_str())?;
        text.push(": () = ")
    }

    /// Adds `; Exit_NAME::Return }`.
    fn push_first_closing(&self, alloc: Global, text: &mut Text) -> Result<(), AllocError>
        ensures { OnOk result (text.new ≡ text.old ++ flat (spliced.first_closing (moving_of self.now.decided))) }
    {
        text.push("; ")?;
        push_variant(alloc, text, self.decided.plan, Exit::Return)?;
        text.push(" }")
    }

    /// Adds `Exit_NAME::Return(`.
    fn push_handing_over(&self, alloc: Global, text: &mut Text) -> Result<(), AllocError>
        ensures { OnOk result (text.new
            ≡ text.old
            ++ flat (spliced.variant_of (moving_of self.now.decided) (codes "Return") ++ mark (codes "(") ∷ [])) }
    {
        push_variant(alloc, text, self.decided.plan, Exit::Return)?;
        text.push("(")
    }

    /// Adds what stands in front of the operand of a `return`: `Exit_NAME::Return(`, or `{ let out_0: () = `.
    fn push_opening(&self, alloc: Global, text: &mut Text) -> Result<(), AllocError>
        ensures { OnOk result (text.new ≡ text.old ++ flat (spliced.opening (moving_of self.now.decided))) }
    {
        if is_unit(&self.decided.plan.result) {
            return self.push_first_opening(alloc, text);
        }
        self.push_handing_over(alloc, text)
    }

    /// Adds what stands behind it: `)`, or `; Exit_NAME::Return }`.
    fn push_closing(&self, alloc: Global, text: &mut Text) -> Result<(), AllocError>
        ensures { OnOk result (text.new ≡ text.old ++ flat (spliced.closing (moving_of self.now.decided))) }
    {
        if is_unit(&self.decided.plan.result) {
            return self.push_first_closing(alloc, text);
        }
        text.push(")")
    }

    /// What stands in front of the operand of a `return`, with a space where `return` stands directly in front of it.
    fn opening(&self, alloc: Global, span: Span, at: u64) -> Result<Text, AllocError>
        ensures { IfOk result (λ t. t
            ≡ flat (spliced.spaced (at == suc (suc (suc (suc (suc (suc span.start))))))
            (spliced.opening (moving_of self.now.decided)))) }
    {
        let mut text = Text::new(alloc, space_if(follows_directly(span, at)))?;
        self.push_opening(alloc, &mut text)?;
        Ok(text)
    }

    /// What stands behind the operand of a `return`.
    fn closing(&self, alloc: Global) -> Result<Text, AllocError>
        ensures { IfOk result (λ t. t ≡ flat (spliced.closing (moving_of self.now.decided))) }
    {
        let mut text = Text::empty(alloc);
        self.push_closing(alloc, &mut text)?;
        Ok(text)
    }
}

impl<'p> Places for Moving<'p> {
    ghost use Rattle.rx_splice_edits.specs.Deciding.{moving_of, tokens_of, run_at, opened_at, closed_at};

    ghost edits = { λ m. run_at m.decided };

    ghost before = { λ m s. opened_at (moving_of m.decided) (tokens_of m.decided) s };

    ghost behind = { λ m s. closed_at (moving_of m.decided) s };

    fn number(
        &self,
        alloc: Global,
        out: &mut EditList,
        span: Span,
        suffix: Option<Kind>,
    ) -> Result<(), AllocError> {
        self.decided.push_suffix(alloc, out, span, suffix)
    }

    fn variable(
        &self,
        alloc: Global,
        out: &mut EditList,
        own: &Names<'_>,
        short: bool,
        span: Span,
        name: &Name,
    ) -> Result<(), AllocError> {
        if !self.is_starred(own, name) {
            return Ok(());
        }
        let text = self.starred(alloc, short, span, name)?;
        out.replace(span, text)
    }

    fn break_at(
        &self,
        alloc: Global,
        out: &mut EditList,
        around: &Loops<'_>,
        span: Span,
        label: &Option<Ident>,
    ) -> Result<(), AllocError> {
        match around.left_by(label) {
            Some(number) => self.push_jump(alloc, out, span, Exit::Break(number)),
            None => Ok(()),
        }
    }

    fn continue_at(
        &self,
        alloc: Global,
        out: &mut EditList,
        around: &Loops<'_>,
        span: Span,
        label: &Option<Ident>,
    ) -> Result<(), AllocError> {
        match around.left_by(label) {
            Some(number) => self.push_jump(alloc, out, span, Exit::Continue(number)),
            None => Ok(()),
        }
    }

    fn return_at(&self, alloc: Global, out: &mut EditList, span: Span) -> Result<(), AllocError> {
        let text = jump(alloc, self.decided.plan, Exit::Return, &[])?;
        out.replace(span, text)
    }

    fn before_operand(
        &self,
        alloc: Global,
        out: &mut EditList,
        span: Span,
    ) -> Result<(), AllocError> {
        let at = next_start(self.decided.tokens, span.start);
        let text = self.opening(alloc, span, at)?;
        out.put(at, text)
    }

    fn behind_operand(
        &self,
        alloc: Global,
        out: &mut EditList,
        span: Span,
    ) -> Result<(), AllocError> {
        let text = self.closing(alloc)?;
        out.put(span.end, text)
    }

    fn let_type(
        &self,
        alloc: Global,
        out: &mut EditList,
        pattern: &Pattern,
        typ: &Option<TypeText>,
    ) -> Result<(), AllocError> {
        self.decided.push_type(alloc, out, pattern, typ)
    }
}
