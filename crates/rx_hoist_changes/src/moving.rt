//! A run as it stands in the new function.

ghost use Rattle.std.specs.Prelude.{◌≡◌, if◌then◌else◌, [], ◌∷◌, map, option_map, IfOk};
ghost use Rattle.rx_tree.specs.Plain as plain;
ghost use Rattle.rx_tree.specs.PlainOf.{plain-Expr, plain-Stmt, plain-Block, plain-TypeText, optional_of};
ghost use Rattle.rx_hoist_plan.specs.PlainPlan.{plain-Plan, plain-Exit, plain-Mode, plain-Param};
ghost use Rattle.rx_hoist_extraction.specs.Run.{numbered};
ghost use Rattle.rx_hoist_extraction.specs.Names.{is_among};
ghost use Rattle.rx_hoist_extraction.specs.Plan as planned;
ghost use Rattle.rx_hoist_extraction.specs.Changed.{changed_optional};
ghost use Rattle.rx_hoist_extraction.specs.Moved as moved;
ghost use Rattle.rx_hoist_extraction.specs.NewBody.{moved_parts};
ghost use Rattle.rx_hoist_changes.specs.PartsOf.{parts_of};

use crate::jumps::Loops;
use crate::made::{breaks, continues, copy_type, deref, nested, return_of, returns};
use crate::scope::Names;
use crate::special::Places;
use crate::walk::{expression, statements};
use rx_core::{Boxed, Kind, List, Name, Span, keep, pushed};
use rx_hoist_made::{fresh_variable, is_unit, let_typed, outs_of, variable, variables, variant};
use rx_hoist_plan::{Exit, NamedPlan, Param};
use rx_modes_policy::Mode;
use rx_tree::{Block, Expr, Ident, Pattern, Stmt, TypeNode, TypeText};
use std::alloc::{AllocError, Global};

/// What becomes of a run in the new function.
#[derive(Drop)]
struct Moving<'p> {
    plan: &'p NamedPlan,
    run: Span,
}

/// Whether a param of this mode is behind a reference of the new function's own.
fn by_reference(mode: Mode) -> bool
    ensures { result ≡ moved.is_referred (plain-Mode mode) }
{
    match mode {
        Mode::Shared | Mode::Mut => true,
        Mode::Value | Mode::Reborrow | Mode::View => false,
    }
}

/// Whether a name is that of a param that the new function has behind a reference of its own.
pub fn is_referred(name: &Name, params: &[Param]) -> bool
    ensures { result ≡ is_among name.now (moved.referred (map plain-Param params.now)) }
{
    for param in params {
        if by_reference(param.mode) && name.as_str() == param.variable.name.as_str() {
            return true;
        }
    }
    false
}

/// `()`
#[tactic(auto, using(rx_tree::proofs::Rules::type_rules))]
fn unit_type(alloc: Global, span: Span) -> TypeText
    ensures { plain-TypeText result ≡ plain.tuple_type span plain.no_type }
{
    TypeText {
        span,
        node: TypeNode::Tuple(List::new(alloc)),
    }
}

/// A block of one statement with a tail.
fn with_tail(alloc: Global, span: Span, stmt: Stmt, tail: Expr) -> Result<Block, AllocError>
    ensures { IfOk result (λ it. plain-Block it ≡ plain.body span (plain.statement_and (plain-Stmt stmt) plain.no_statement) (plain.present (plain-Expr tail))) }
{
    let (tail, stmt) = keep(stmt, Boxed::new(alloc, tail))?;
    let (stmts, tail) = keep(tail, pushed(List::new(alloc), stmt))?;
    Ok(Block {
        span,
        stmts,
        tail: Some(tail),
    })
}

impl<'p> Moving<'p> {
    /// A `return` of an exit's variant with its outs.
    fn leaving(&self, alloc: Global, exit: Exit) -> Result<Expr, AllocError>
        ensures { IfOk result (λ it. plain-Expr it ≡ moved.leaving (plain-Plan self.now.plan.now) self.now.run (plain-Exit exit)) }
    {
        let outs = variables(alloc, self.run, outs_of(exit, self.plan.exits.as_slice()))?;
        return_of(
            alloc,
            self.run,
            variant(alloc, self.plan, self.run, exit, outs),
        )
    }

    /// A return's variant with these values.
    fn returned(&self, alloc: Global, values: List<Expr>) -> Result<Expr, AllocError>
        ensures { IfOk result (λ it. plain-Expr it ≡ moved.returned (plain-Plan self.now.plan.now) self.now.run (map plain-Expr values)) }
    {
        variant(alloc, self.plan, self.run, Exit::Return, values)
    }

    /// The operand of a return where it is the unit: it is evaluated, and the variant has no values.
    fn returned_unit(&self, alloc: Global, value: Expr) -> Result<Expr, AllocError>
        ensures { IfOk result (λ it. plain-Expr it ≡ moved.returned_unit (plain-Plan self.now.plan.now) self.now.run (plain-Expr value)) }
    {
        let (out, value) = keep(value, fresh_variable(alloc, self.plan))?;
        let stmt = let_typed(alloc, self.run, &out, unit_type(alloc, self.run), value)?;
        let (tail, stmt) = keep(stmt, self.returned(alloc, List::new(alloc)))?;
        nested(alloc, self.run, with_tail(alloc, self.run, stmt, tail))
    }

    /// What is returned in place of the operand of a return.
    fn operand(&self, alloc: Global, value: Expr) -> Result<Expr, AllocError>
        ensures { IfOk result (λ it. plain-Expr it ≡ (if planned.is_unit (plain-Plan self.now.plan.now).result then moved.returned_unit (plain-Plan self.now.plan.now) self.now.run (plain-Expr value) else moved.returned (plain-Plan self.now.plan.now) self.now.run (plain-Expr value ∷ []))) }
    {
        if is_unit(&self.plan.result) {
            self.returned_unit(alloc, value)
        } else {
            let values = pushed(List::new(alloc), value)?;
            self.returned(alloc, values)
        }
    }
}

impl<'p> Places for Moving<'p> {
    ghost use Rattle.rx_hoist_plan.specs.PlainPlan.{plain-Plan};
    ghost use Rattle.rx_hoist_extraction.specs.Moved.{moving};

    ghost changes = { λ m. moving (plain-Plan m.plan.now) m.run };

    fn variable(
        &self,
        alloc: Global,
        own: &Names<'_>,
        span: Span,
        name: &Name,
    ) -> Result<Expr, AllocError> {
        if !own.has(name) && is_referred(name, self.plan.params.as_slice()) {
            deref(alloc, self.run, variable(alloc, span, name))
        } else {
            variable(alloc, span, name)
        }
    }

    fn break_at(
        &self,
        alloc: Global,
        around: &Loops<'_>,
        span: Span,
        label: &Option<Ident>,
    ) -> Result<Expr, AllocError> {
        match around.left_by(label) {
            Some(number) => self.leaving(alloc, Exit::Break(number)),
            None => breaks(alloc, span, label),
        }
    }

    fn continue_at(
        &self,
        alloc: Global,
        around: &Loops<'_>,
        span: Span,
        label: &Option<Ident>,
    ) -> Result<Expr, AllocError> {
        match around.left_by(label) {
            Some(number) => self.leaving(alloc, Exit::Continue(number)),
            None => continues(alloc, span, label),
        }
    }

    fn return_at(
        &self,
        alloc: Global,
        span: Span,
        value: Option<Boxed<Expr>>,
    ) -> Result<Expr, AllocError> {
        match value {
            Some(value) => return_of(alloc, span, self.operand(alloc, value.into_inner())),
            None => return_of(alloc, span, self.returned(alloc, List::new(alloc))),
        }
    }

    fn suffix(&self, _span: Span, kind: Option<Kind>) -> Option<Kind> {
        kind
    }

    fn let_type(
        &self,
        alloc: Global,
        _pattern: &Pattern,
        typ: &Option<TypeText>,
    ) -> Result<Option<TypeText>, AllocError> {
        copy_type(alloc, typ)
    }

    fn block(&self, _alloc: Global, _block: &Block, changed: Block) -> Result<Block, AllocError> {
        Ok(changed)
    }
}

/// What becomes of a tail that may be there.
fn moved_tail<'t>(
    alloc: Global,
    places: &Moving<'_>,
    own: &Names<'t>,
    around: &Loops<'t>,
    tail: Option<&'t Expr>,
) -> Result<Option<Boxed<Expr>>, AllocError>
    ensures { IfOk result (λ it. optional_of (option_map plain-Expr it) ≡ changed_optional (moved.moving (plain-Plan places.now.plan.now) places.now.run) own.now around.now (optional_of (option_map (λ e. plain-Expr e.now) tail.entry))) }
{
    match tail {
        Some(tail) => {
            let tail = expression(alloc, places, own, around, tail)?;
            Ok(Some(Boxed::new(alloc, tail)?))
        }
        None => Ok(None),
    }
}

/// A copy of a run, its statements and its tail, as it stands in the new function: params behind references of the
/// function's own are dereferenced, and a jump or return that leaves the run returns the variant of its exit. `run` is
/// the span of the run, which what is made has, and `labels` are those of the loops round the run, the innermost first.
pub fn moved_run<'t>(
    alloc: Global,
    plan: &NamedPlan,
    run: Span,
    labels: &[Option<&'t Ident>],
    stmts: &'t [Stmt],
    tail: Option<&'t Expr>,
) -> Result<(List<Stmt>, Option<Boxed<Expr>>), AllocError>
    ensures { IfOk result (λ it. parts_of it ≡ moved_parts (moved.moving (plain-Plan plan.now) run) (numbered 1 (map (option_map (λ l. l.now)) labels.now)) (record { statements = map plain-Stmt stmts.now; tail = optional_of (option_map (λ e. plain-Expr e.now) tail.entry) })) }
{
    let places = Moving { plan, run };
    let around = Loops::round(alloc, labels)?;
    let mut own = Names::new(alloc);
    let stmts = statements(alloc, &places, &mut own, &around, stmts)?;
    let (tail, stmts) = keep(stmts, moved_tail(alloc, &places, &own, &around, tail))?;
    Ok((stmts, tail))
}
