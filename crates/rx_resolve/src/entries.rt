//! What an expression itself names, and what opens and closes round it.

ghost use Rattle.std.specs.Prelude.{◌≡◌, ◌≢◌, ℕ, suc, [], ◌∷◌, ◌++◌, length, map, Ok, Err, Some, None, Option, option_map, OnOk, IfOk, codes};
ghost use Rattle.rx_tree.specs.PlainOf.{plain-Pattern, plain-TypeText, plain-Item};
ghost use Rattle.rx_resolve_names.specs.Scopes.{variable_named, entered};
ghost use Rattle.rx_resolve_names.specs.declared.resolved.Misnamed.TheVariants as misnamed;
ghost use Rattle.rx_resolve_names.specs.Meant as meant;
ghost use Rattle.rx_resolve_names.specs.Steps as steps;
ghost use Rattle.rx_resolve_names.specs.Names as names;
ghost use Rattle.rx_resolve.specs.Walks as walks;

use crate::items::number;
use crate::types::known;
use crate::walk::{Around, Walk};
use rx_core::{List, Name, Position, Span};
use rx_resolve_names::{Misnamed, Table};
use rx_tree::{Ident, Item, ItemNode, Pattern, TypeText};
use std::alloc::AllocError;

/// The number of `mod rt;`, where it was found.
fn as_rt(found: Option<(u32, &Item)>) -> Option<u32>
    ensures { result ≡ meant.as_rt (option_map (λ e. (e.0, plain-Item e.1.now)) found.entry) }
{
    match found {
        Some((number, item)) => match &item.node {
            ItemNode::Rt(_) => Some(number),
            _ => None,
        },
        None => None,
    }
}

/// The two bytes that `rt::next()` begins with.
fn rt_span(span: Span) -> Span
    ensures { result ≡ names.rt_span span }
{
    let end = if span.end.saturating_sub(span.start) < 2 {
        span.end
    } else {
        span.start + 2
    };
    Span {
        start: span.start,
        end,
    }
}

impl<'w, 't> Walk<'w, 't> {
    /// Adds an entry of a variable.
    pub(crate) fn variable_entry(&mut self, name: &Name, span: Span) -> Result<(), Misnamed>
        ensures { walks.Walks (steps.names (walks.inside self.old) self.old.path (steps.one (steps.known (variable_named self.old.scope name.now) span)) self.old.tables) self.old result self.new }
    {
        let number = known(self.scope.get(name.as_str()), span)?;
        self.enter(&[number], false)
    }

    /// Adds an entry of a callee, which a variable hides.
    pub(crate) fn callee_entry(&mut self, callee: &Ident) -> Result<(), Misnamed>
        ensures { walks.Walks (names.callee (walks.inside self.old) self.old.path callee.now (variable_named self.old.scope callee.now.name) self.old.tables) self.old result self.new }
    {
        match self.scope.get(callee.name.as_str()) {
            Some(number) => self.enter(&[number], true),
            None => {
                let number = known(self.items.function(callee.name.as_str()), callee.span)?;
                self.enter(&[number], false)
            }
        }
    }

    /// Adds an entry of `rt::next()`, whose first two bytes are its name.
    pub(crate) fn rt_entry(&mut self, span: Span) -> Result<(), Misnamed>
        ensures { walks.Walks (steps.names (walks.inside self.old) self.old.path (steps.one (steps.known (meant.as_rt (meant.item_named meant.type_name 0 (map plain-Item self.old.items.now) (codes "rt"))) (names.rt_span span))) self.old.tables) self.old result self.new }
    {
        let number = known(as_rt(self.items.type_item("rt")), rt_span(span))?;
        self.enter(&[number], false)
    }

    /// Opens a loop or a test.
    pub(crate) fn open(&mut self, around: Around<'t>) -> Result<(), Misnamed>
        ensures { steps.Resolves (Ok (walks.with_around (self.old.around ++ around.entry ∷ []) self.old)) result self.new }
    {
        match self.around.push(around) {
            Ok(()) => Ok(()),
            Err(AllocError) => Err(Misnamed::OutOfMemory),
        }
    }

    /// Closes what was opened last.
    pub(crate) fn close(&mut self)
        ensures { self.new ≡ walks.with_around (walks.above self.old.around) self.old }
    {
        self.around.pop();
    }

    fn add_loop(&mut self, node: Position) -> Result<(), Misnamed>
        ensures { steps.Resolves (Ok (walks.with_tables (steps.with_loop node self.old.tables) self.old)) result self.new }
    {
        match self.tables.loops.push(node) {
            Ok(()) => Ok(()),
            Err(AllocError) => Err(Misnamed::OutOfMemory),
        }
    }

    /// Opens a loop at the node, which gets the next number.
    pub(crate) fn open_loop(&mut self, label: &'t Option<Ident>) -> Result<(), Misnamed>
        ensures { walks.Loops label.now self.old result self.new }
    {
        let number = number(self.tables.loops.len());
        let label = label.as_ref();
        let path = match List::from_slice(self.alloc, self.path.as_slice()) {
            Ok(path) => path,
            Err(AllocError) => return Err(Misnamed::OutOfMemory),
        };
        self.add_loop(Position {
            item: self.item,
            path,
        })?;
        self.open(Around::Loop { label, number })?;
        Ok(())
    }

    /// Adds an entry of a `break` or `continue`.
    pub(crate) fn jump_entry(&mut self, label: &Option<Ident>, span: Span) -> Result<(), Misnamed>
        ensures { walks.Walks (steps.names (walks.inside self.old) self.old.path (steps.one (steps.led span label.now (meant.target label.now (walks.around_from [] self.old.around)))) self.old.tables) self.old result self.new }
    {
        let number = led(span, label, self.around.as_slice())?;
        self.enter(&[number], false)
    }

    /// The names of a pattern that is a child of the node.
    pub(crate) fn child_names(
        &mut self,
        child: u32,
        pattern: &'t Pattern,
    ) -> Result<Table<'t>, Misnamed>
        ensures { walks.Declares (names.in_pattern (walks.inside self.old) (steps.child self.old.path child) (plain-Pattern pattern.now) (record { bindings = []; tables = self.old.tables })) self.old result self.new }
    {
        let mut bindings = Table::new(self.alloc);
        self.child_pattern(&mut bindings, child, pattern)?;
        Ok(bindings)
    }

    /// Brings the names of a pattern into scope.
    pub(crate) fn enter_all(&mut self, bindings: &Table<'t>) -> Result<(), Misnamed>
        ensures { steps.Resolves (Ok (walks.with_scope (entered self.old.scope bindings.now) self.old)) result self.new }
    {
        match self.scope.enter_all(bindings) {
            Ok(()) => Ok(()),
            Err(AllocError) => Err(Misnamed::OutOfMemory),
        }
    }

    /// The type that may be written in a `let`, as its child 1; and the number of the child behind it.
    pub(crate) fn written_type(&mut self, typ: &'t Option<TypeText>) -> Result<u32, Misnamed>
        ensures tables { walks.Walks (names.in_optional_type (walks.inside self.old) (steps.child self.old.path 1) (option_map plain-TypeText typ.now) self.old.tables) self.old result self.new }
        ensures place { IfOk result (λ n. n ≡ names.initialiser_at (option_map plain-TypeText typ.now)) }
    {
        match typ {
            Some(typ) => {
                self.child_type(1, typ)?;
                Ok(2)
            }
            None => Ok(1),
        }
    }
}

/// Whether a loop is the one that a jump leads to, by their labels.
fn is_meant(wanted: &Option<Ident>, label: Option<&Ident>) -> bool
    ensures { result ≡ meant.is_meant wanted.now (option_map (λ l. l.now) label.entry) }
{
    match (wanted, label) {
        (None, _) => true,
        (Some(_), None) => false,
        (Some(wanted), Some(label)) => wanted.name.as_str() == label.name.as_str(),
    }
}

/// Where a jump leads that is one out of a test already, if `tested`.
fn target(wanted: &Option<Ident>, around: &[Around<'_>]) -> Destination
    ensures { walks.plain-Destination result ≡ meant.target wanted.now (walks.around_from [] around.now) }
{
    let mut left = around.len();
    let mut tested = false;
    while left > 0 {
        left -= 1;
        match around[left] {
            Around::Test => tested = true,
            Around::Loop { label, number } => {
                if is_meant(wanted, label) {
                    return if tested {
                        Destination::OutOfTest
                    } else {
                        Destination::Loop(number)
                    };
                }
            }
        }
    }
    Destination::Nowhere
}

/// Where a `break` or `continue` leads.
enum Destination {
    Loop(u32),
    OutOfTest,
    Nowhere,
}

/// The number of the loop that a jump leads to.
fn led(span: Span, label: &Option<Ident>, around: &[Around<'_>]) -> Result<u32, Misnamed>
    ensures { result ≡ steps.led span label.now (meant.target label.now (walks.around_from [] around.now)) }
{
    match target(label, around) {
        Destination::Loop(number) => Ok(number),
        Destination::OutOfTest => Err(Misnamed::Label { at: span }),
        Destination::Nowhere => match label {
            Some(label) => Err(Misnamed::Label { at: label.span }),
            None => Err(Misnamed::Label { at: span }),
        },
    }
}
